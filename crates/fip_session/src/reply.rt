// The replies to the lines of a session.
ghost use Rattle.std.specs.Prelude.{◌≡◌, ◌++◌, IfOk, codes, string_bytes};
ghost use Rattle.std.specs.Fmt.{decimal};
ghost use Rattle.session_lines.specs.command_outcome.Texts.{line_end, trap_text, trap_name, out_of_calls_text, out_of_frames_text};
ghost use Rattle.session_lines.specs.session_semantics.Talk.{store_text};
ghost use Rattle.fip_session.specs.Said.{end_said, said};

use fip_base::plain::{NoMemory, TrapKind};
use fip_machine::Ended;
use std::alloc::{AllocError, Global};

/// The reply to a line. Refusals stand in the order in which they are asked.
#[derive(Drop)]
pub enum Reply<'l> {
    /// The line has none of the three forms.
    BadLine,
    /// The name that is to be shown or given up isn't held.
    NoName(&'l [u8]),
    /// The program has no fip or fbip function of this name without static parameters.
    NoEntry(&'l [u8]),
    /// The function has another number of parameters, or of results.
    WrongNumber,
    /// The least argument, from 1, that is neither a value of its parameter's type nor a held name of it, or that
    /// repeats a name whose type isn't scalar.
    BadArgument(usize),
    /// The first result's name that repeats one before it, or that is held and not used up by this call.
    BadResult(&'l [u8]),
    /// The call needs so many words of the store, and fewer are left.
    StoreTooSmall {
        needed: usize,
        left: usize,
    },
    /// The run ended without a value; it had so many calls and frames.
    NoValue {
        ended: Ended,
        calls: u64,
        frames: usize,
    },
    /// The line was done.
    Done,
    /// The text of a value that was asked for.
    Text(Vec<u8>),
}

/// Why a call doesn't come to a value.
#[derive(Drop)]
pub enum Stop<'l> {
    Reply(Reply<'l>),
    NoMemory,
}

impl<'l> From<NoMemory> for Stop<'l> {
    ghost use Rattle.fip_session.specs.declared.reply.Stop.TheVariants as S;

    ghost from_gives = { λ _ e. e ≡ S.NoMemory };

    fn from(_: NoMemory) -> Stop<'l> {
        Stop::NoMemory
    }
}

impl<'l> From<AllocError> for Stop<'l> {
    ghost use Rattle.fip_session.specs.declared.reply.Stop.TheVariants as S;

    ghost from_gives = { λ _ e. e ≡ S.NoMemory };

    fn from(_: AllocError) -> Stop<'l> {
        Stop::NoMemory
    }
}

// Some words, and a name after them.
fn with_name(alloc: Global, words: &[u8], name: &[u8]) -> Result<Vec<u8>, NoMemory>
    ensures text { IfOk result (λ t. t.items ≡ words.now ++ name.now) }
{
    let mut text = Vec::from_slice(alloc, words)?;
    text.extend_from_slice(name)?;
    Ok(text)
}

// The name of a trap.
fn trap_name(kind: TrapKind) -> &'static str
    ensures name { result.now ≡ trap_name kind }
{
    match kind {
        TrapKind::Overflow => "Overflow",
        TrapKind::DivideByZero => "DivideByZero",
    }
}

// A trap, with its place.
fn trap_text(alloc: Global, kind: TrapKind, line: usize, col: usize) -> Result<String, AllocError>
    ensures text { IfOk result (λ s. string_bytes s ++ line_end ≡ trap_text kind line col) }
{
    let name = trap_name(kind);
    format!(in alloc; "trap {name} at {line}:{col}")
}

// A number after some words.
fn bad_argument(alloc: Global, number: usize) -> Result<String, AllocError>
    ensures text { IfOk result (λ s. string_bytes s ≡ codes "bad argument " ++ decimal number) }
{
    format!(in alloc; "bad argument {number}")
}

// That a store is too small.
fn store_too_small(alloc: Global, needed: usize, left: usize) -> Result<String, AllocError>
    ensures text { IfOk result (λ s. string_bytes s ++ line_end ≡ store_text needed left) }
{
    format!(in alloc; "store too small: {needed} needed, {left} left")
}

// Want of calls.
fn out_of_calls(alloc: Global, calls: u64) -> Result<String, AllocError>
    ensures text { IfOk result (λ s. string_bytes s ++ line_end ≡ out_of_calls_text calls) }
{
    format!(in alloc; "out of calls: {calls}")
}

// Want of frames.
fn out_of_frames(alloc: Global, frames: usize) -> Result<String, AllocError>
    ensures text { IfOk result (λ s. string_bytes s ++ line_end ≡ out_of_frames_text frames) }
{
    format!(in alloc; "out of frames: {frames}")
}

// The text of an end that is no value, of a run that had so many calls and frames; that of a value is `ok`.
fn end_text(alloc: Global, ended: Ended, calls: u64, frames: usize) -> Result<Vec<u8>, NoMemory>
    ensures text { IfOk result (λ t. t.items ++ line_end ≡ end_said ended calls frames) }
{
    match ended {
        Ended::Value => Ok(Vec::from_slice(alloc, b"ok")?),
        Ended::Trap { kind, line, col } => Ok(trap_text(alloc, kind, line, col)?.into_bytes()),
        Ended::Out => Ok(out_of_calls(alloc, calls)?.into_bytes()),
        Ended::Deep => Ok(out_of_frames(alloc, frames)?.into_bytes()),
    }
}

/// The text of a reply, without an LF.
pub fn reply_text(alloc: Global, reply: Reply) -> Result<Vec<u8>, NoMemory>
    ensures text { IfOk result (λ t. t.items ++ line_end ≡ said reply.entry) }
{
    match reply {
        Reply::BadLine => Ok(Vec::from_slice(alloc, b"bad line")?),
        Reply::NoName(name) => with_name(alloc, b"no name ", name),
        Reply::NoEntry(name) => with_name(alloc, b"no entry ", name),
        Reply::WrongNumber => Ok(Vec::from_slice(alloc, b"wrong number")?),
        Reply::BadArgument(number) => Ok(bad_argument(alloc, number)?.into_bytes()),
        Reply::BadResult(name) => with_name(alloc, b"bad result ", name),
        Reply::StoreTooSmall { needed, left } => {
            Ok(store_too_small(alloc, needed, left)?.into_bytes())
        }
        Reply::NoValue {
            ended,
            calls,
            frames,
        } => end_text(alloc, ended, calls, frames),
        Reply::Done => Ok(Vec::from_slice(alloc, b"ok")?),
        Reply::Text(text) => Ok(text),
    }
}
