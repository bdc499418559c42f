// What the words of a command line end in, before it is handed to the sinks.
ghost use Rattle.std.specs.Prelude.{◌≡◌, ◌⊎◌, true, false, None, OnOk, map, string_bytes};
ghost use Rattle.std.specs.Io.KnownBytes.{IsAtEnd};
ghost use Rattle.fip_outside.specs.Faults.{Rose};
ghost use Rattle.command_words.specs.Words.{Command, IsCommand};
ghost use Rattle.command_answers.specs.command_library.command_run.CodeRun.{is_run_end};
ghost use Rattle.command_answers.specs.command_trace.TraceAnswer.{code_of};
ghost use Rattle.command_answers.specs.Asks.{stored_name};
ghost use Rattle.fip_driver.specs.Faults.{LeavesInput};
ghost use Rattle.fip_driver.specs.Turns.{HadInput, IsCounted, WordsOutcome};
ghost use Rattle.fip_driver.specs.Left.{LeavesFor, is_run_status};
ghost use Rattle.fip_driver.specs.HandedOut.{HandsOut, bytes_in};
ghost use Rattle.fip_driver.specs.Made.{MadeBy};
ghost use Rattle.fip_driver.specs.Outcome.{AreKept, HadFolder, IsDone, IsRefused};

use crate::answer::answer;
use crate::traces::keep_code;
use code_verify::Verified;
use command_answers::runner::Left;
use command_outcome::Failure;
use command_words::{WordsError, read_words};
use fip_base::plain::Status;
use fip_outside::outside::{Folder, Source};
use std::alloc::Global;

/// What the words end in. What a command that stores fetched is handed out, and the code that `compile` or `trace`
/// made, or it is the one that is left.
pub fn outcome<F: Folder, S: Source>(
    alloc: Global,
    words: &[String],
    folder: &mut F,
    input: &mut S,
    left: &mut Option<Left>,
    fetched: &mut Option<Vec<u8>>,
    made: &mut Option<Verified>,
) -> Result<Vec<u8>, Failure>
    ensures outcome { WordsOutcome (map string_bytes words.now) (F.files folder.old) (S.left input.old)
        (Rose (F.faults folder.old) (F.faults folder.new)) (Rose (S.faults input.old) (S.faults input.new)) result }
    ensures read { OnOk result (IsAtEnd (S.left input.new) ⊎ LeavesInput (map string_bytes words.now)) }
    ensures unread { (input.new ≡ input.old) ⊎ HadInput (map string_bytes words.now) (F.files folder.old) result }
    ensures unfetched { (folder.new ≡ folder.old) ⊎ HadFolder (map string_bytes words.now) result }
    ensures files { (c : Command) → IsCommand (map string_bytes words.now) c →
        AreKept c (S.left input.old) (stored_name c) (Rose (F.faults folder.old) (F.faults folder.new))
        (F.files folder.old) (F.files folder.new) result }
    ensures counted { IsCounted (F.files folder.old) (Rose (F.faults folder.old) (F.faults folder.new)) result }
    ensures left { LeavesFor (map string_bytes words.now) (F.files folder.old) (S.left input.old) (is_run_end result)
        left.new }
    ensures made { (c : Command) → IsCommand (map string_bytes words.now) c → MadeBy c (F.files folder.old)
        (F.files folder.new) (S.left input.old) (IsDone result) (IsRefused result)
        (bytes_in fetched.new) (code_of left.new made.new) }
    ensures only { (made.new ≡ None) ⊎ HandsOut (map string_bytes words.now) left.new }
{
    *left = None;
    *fetched = None;
    *made = None;
    match read_words(alloc, words) {
        Ok(command) => answer(alloc, &command, folder, input, left, fetched, made),
        Err(WordsError::NotUnderstood) => Err(Failure::NotUnderstood),
        Err(WordsError::NoMemory) => Err(Failure::NoMemory),
    }
}

/// Keeps what a run left, by the status: with values, in a trap, or out of calls or frames; else nothing but its code.
pub fn hand_out(status: Status, left: &mut Option<Left>, made: &mut Option<Verified>)
    ensures ended { is_run_status status.0 ≡ true → left.new ≡ left.old }
    ensures none { is_run_status status.0 ≡ false → left.new ≡ None }
    ensures code { code_of left.new made.new ≡ code_of left.old made.old }
    ensures kept { is_run_status status.0 ≡ true → made.new ≡ made.old }
{
    match status.0 {
        0 | 3 | 4 | 7 => {}
        _ => keep_code(left.take(), made),
    }
}
