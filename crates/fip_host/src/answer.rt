// What the calls answer: statuses, and structs that C reads.
ghost use Rattle.std.specs.Prelude.{◌≡◌};
ghost use Rattle.fip_host.specs.Statuses.{refusal_number, trap_number};

use fip_base::plain::{NoMemory, TrapKind};
use std::alloc::{AllocError, AllocFailed};

/// Why a call did nothing.
#[derive(Clone, Copy, Debug, PartialEq, Eq)]
pub enum Refusal {
    /// The text is none of the parameters' types: the least offset with which none goes on.
    BadInput { at: usize },
    /// The cells need more words than the store has left.
    TooSmall { needed: usize, given: usize },
    /// There was no memory.
    NoMemory,
    /// A number names nothing: a function, a place, a field, a type, a kept value; or it is too large.
    OutOfRange,
    /// There is no run, or it isn't at an end with values.
    NotReady,
    /// An argument is no value of its parameter's type, or one kept value is given twice.
    WrongValue,
}

impl From<AllocError> for Refusal {
    ghost use Rattle.fip_host.specs.declared.answer.Refusal.TheVariants as R;

    ghost from_gives = { λ _ e. e ≡ R.NoMemory };

    fn from(_: AllocError) -> Refusal {
        Refusal::NoMemory
    }
}

impl<T: Drop> From<AllocFailed<T>> for Refusal {
    ghost use Rattle.fip_host.specs.declared.answer.Refusal.TheVariants as R;

    ghost from_gives = { λ _ e. e ≡ R.NoMemory };

    fn from(_: AllocFailed<T>) -> Refusal {
        Refusal::NoMemory
    }
}

impl From<NoMemory> for Refusal {
    ghost use Rattle.fip_host.specs.declared.answer.Refusal.TheVariants as R;

    ghost from_gives = { λ _ e. e ≡ R.NoMemory };

    fn from(_: NoMemory) -> Refusal {
        Refusal::NoMemory
    }
}

impl Refusal {
    /// The status of the call.
    pub fn number(self) -> u32
        ensures is { result ≡ refusal_number self }
    {
        match self {
            Refusal::BadInput { .. } => 5,
            Refusal::TooSmall { .. } => 6,
            Refusal::NoMemory => 10,
            Refusal::OutOfRange => 12,
            Refusal::NotReady => 13,
            Refusal::WrongValue => 14,
        }
    }
}

/// What reading and verifying a code file came to.
#[repr(C)]
#[derive(Clone, Copy)]
pub struct FipVerdict {
    /// 0: a sound code. 8: no code file. 10: no memory. 11: a code that isn't sound.
    pub status: u32,
    /// The rule that is broken, 0 to 9 for S0 to S9, where the status is 11.
    pub rule: u32,
    /// The function that breaks it.
    pub function: usize,
    /// The instruction that breaks it, or the offset at which the bytes can't go on.
    pub at: usize,
}

/// A function of a code.
#[repr(C)]
#[derive(Clone, Copy)]
pub struct FipFunction {
    /// Whether it is `fip`: it releases no cell, and its stack is bounded.
    pub fip: bool,
    /// The number of its parameters.
    pub parameters: usize,
    /// The number of cells that a caller hands over beside the arguments.
    pub credits: usize,
    /// The number of its results.
    pub results: usize,
    /// The frames beside its own that a run holds at the most, where it is `fip`.
    pub frames: usize,
    /// The words of all frames that a run holds at the most, where it is `fip`.
    pub words: usize,
}

/// A parameter of a function.
#[repr(C)]
#[derive(Clone, Copy)]
pub struct FipParameter {
    /// The number of its type: 0 is int, others count from 1.
    pub type_number: u32,
    /// Whether the argument is borrowed: the run leaves it as it is.
    pub borrowed: bool,
}

/// The memory of a store and a run, in bytes.
#[repr(C)]
#[derive(Clone, Copy)]
pub struct FipNeed {
    /// What `fip_store` takes.
    pub store: usize,
    /// What a start takes, where the arguments are words.
    pub run: usize,
}

/// Why a text was not loaded.
#[repr(C)]
#[derive(Clone, Copy)]
pub struct FipLoaded {
    /// Where the status is 5: the least offset at which the text can't go on.
    pub at: usize,
    /// Where the status is 6: the words that the cells need.
    pub needed: usize,
    /// Where the status is 6: the words that are left.
    pub given: usize,
}

/// Where a run is.
#[repr(C)]
#[derive(Clone, Copy)]
pub struct FipEnd {
    /// 0: it ended with values. 3: in a trap. 4: no call is left. 7: no frame is left. 13: there is none. 15: it goes
    /// on.
    pub status: u32,
    /// Where the status is 3: 0 for an overflow, 1 for a division by zero.
    pub trap: u32,
    /// Where the status is 3: the line of the operator, from 1.
    pub line: usize,
    /// Where the status is 3: its column in bytes, from 1.
    pub col: usize,
}

/// A cell of the store.
#[repr(C)]
#[derive(Clone, Copy)]
pub struct FipCell {
    /// The number of its constructor.
    pub tag: u32,
    /// Whether it is released.
    pub released: bool,
    /// The number of its fields, from 1 to 16.
    pub size: usize,
}

/// What a run held, over all states that its calls ended in.
#[repr(C)]
#[derive(Clone, Copy)]
pub struct FipGauge {
    /// The lowest number of cells of the size.
    pub lowest: u64,
    /// The highest number of cells of the size.
    pub highest: u64,
    /// The most frames beside the running one.
    pub frames: usize,
    /// The most words of all frames.
    pub words: usize,
}

/// An argument of a run: a value that was kept, or an int or a constructor without fields.
#[repr(C)]
#[derive(Clone, Copy)]
pub struct FipArgument {
    /// Whether `value` is the number of a kept value.
    pub kept: bool,
    /// That number; or the 64 bits of an int, or twice the number of a constructor.
    pub value: u64,
}

/// A value that was kept.
#[repr(C)]
#[derive(Clone, Copy)]
pub struct FipKept {
    /// The number of its type.
    pub type_number: u32,
    /// Its word.
    pub word: u64,
}

/// The number of a kind of trap.
pub fn trap_number(kind: TrapKind) -> u32
    ensures is { result ≡ trap_number kind }
{
    match kind {
        TrapKind::Overflow => 0,
        TrapKind::DivideByZero => 1,
    }
}
