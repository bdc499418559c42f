// What keeps a command from its result, and how it is reported.
ghost use Rattle.std.specs.Prelude.{◌≡◌, IfOk, string_bytes};
ghost use Rattle.command_outcome.specs.Failures.{fault_text, failure_text, failure_status};

use crate::lines;
use code_verify::SoundRule;
use fip_base::plain::{NoMemory, Status, TrapKind};
use fip_base::refusal::{Refusal, refusal_text};
use std::alloc::{AllocError, Global};

/// An object that a host hands in.
#[derive(Clone, Copy, PartialEq, Eq)]
pub enum Object {
    Folder,
    Input,
    Out,
    Err,
}

impl Object {
    /// The line that says that the object failed.
    pub fn fault_text(self) -> &'static str
        ensures text { result.now ≡ fault_text self }
    {
        match self {
            Object::Folder => "fault: folder\n",
            Object::Input => "fault: input\n",
            Object::Out => "fault: out\n",
            Object::Err => "fault: err\n",
        }
    }
}

/// What keeps a command from its result. Offsets are bytes, sizes of the store are words.
#[derive(Drop)]
pub enum Failure {
    /// The words are no command.
    NotUnderstood,
    /// The source breaks a rule, or has no function of the entry's name that can be run.
    Refused(Refusal),
    /// The bytes are no code file: the least offset at which they can't go on.
    BadCode {
        at: usize,
    },
    /// The code isn't sound.
    Unsound {
        function: usize,
        at: usize,
        rule: SoundRule,
    },
    /// The bytes are no trace file: the least offset at which they can't go on.
    BadTrace {
        at: usize,
    },
    /// The input is no text of the parameters' types: the least offset at which it can't go on.
    BadInput {
        at: usize,
    },
    /// A line of the input is no task.
    BadTask {
        line: usize,
    },
    /// The input's cells need more words than the store has.
    TooSmall {
        needed: usize,
        given: usize,
    },
    /// The run trapped, at the place of the operator.
    Trap {
        kind: TrapKind,
        line: usize,
        col: usize,
    },
    /// The run used up its calls.
    OutOfCalls {
        given: u64,
    },
    /// The run used up its frames.
    OutOfFrames {
        given: usize,
    },
    /// An object failed, or the folder has no file of the name.
    Fault(Object),
    /// There was no memory.
    NoMemory,
}

impl From<AllocError> for Failure {
    ghost use Rattle.command_outcome.specs.declared.failure.Failure.TheVariants.{NoMemory};

    ghost from_gives = { λ _ e. e ≡ NoMemory };

    fn from(_: AllocError) -> Failure {
        Failure::NoMemory
    }
}

impl From<NoMemory> for Failure {
    ghost use Rattle.command_outcome.specs.declared.failure.Failure.TheVariants as F;

    ghost from_gives = { λ _ e. e ≡ F.NoMemory };

    fn from(_: NoMemory) -> Failure {
        Failure::NoMemory
    }
}

impl Failure {
    /// The status that the failure ends with.
    pub fn status(&self) -> Status
        ensures status { result.0 ≡ failure_status self.now }
    {
        match self {
            Failure::NotUnderstood => Status(2),
            Failure::Refused(_) => Status(1),
            Failure::BadCode { .. } | Failure::Unsound { .. } | Failure::BadTrace { .. } => Status(
                8,
            ),
            Failure::BadInput { .. } | Failure::BadTask { .. } => Status(5),
            Failure::TooSmall { .. } => Status(6),
            Failure::Trap { .. } => Status(3),
            Failure::OutOfCalls { .. } => Status(4),
            Failure::OutOfFrames { .. } => Status(7),
            Failure::Fault(_) => Status(9),
            Failure::NoMemory => Status(10),
        }
    }

    /// The line that is on err.
    pub fn text(&self, alloc: Global) -> Result<Vec<u8>, NoMemory>
        ensures text { IfOk result (λ v. v.items ≡ failure_text self.now) }
    {
        match self {
            Failure::NotUnderstood => copied(alloc, "fp2: words not understood\n"),
            Failure::Refused(refusal) => refusal_text(alloc, refusal),
            Failure::BadCode { at } => Ok(lines::bad_code(alloc, *at)?.into_bytes()),
            Failure::Unsound { function, at, rule } => {
                Ok(lines::unsound(alloc, *function, *at, *rule)?.into_bytes())
            }
            Failure::BadTrace { at } => Ok(lines::bad_trace(alloc, *at)?.into_bytes()),
            Failure::BadTask { line } => Ok(lines::bad_task(alloc, *line)?.into_bytes()),
            Failure::Trap { kind, line, col } => {
                Ok(lines::trap(alloc, *kind, *line, *col)?.into_bytes())
            }
            Failure::OutOfFrames { given } => Ok(lines::out_of_frames(alloc, *given)?.into_bytes()),
            Failure::BadInput { at } => Ok(lines::bad_input(alloc, *at)?.into_bytes()),
            Failure::TooSmall { needed, given } => {
                Ok(lines::too_small(alloc, *needed, *given)?.into_bytes())
            }
            Failure::OutOfCalls { given } => Ok(lines::out_of_calls(alloc, *given)?.into_bytes()),
            Failure::Fault(object) => copied(alloc, object.fault_text()),
            Failure::NoMemory => copied(alloc, "out of memory\n"),
        }
    }
}

// A text's bytes.
fn copied(alloc: Global, text: &str) -> Result<Vec<u8>, NoMemory>
    ensures same { IfOk result (λ v. v.items ≡ text.now) }
{
    Ok(Vec::from_slice(alloc, text.as_bytes())?)
}
