// The top call.
ghost use Rattle.std.specs.Prelude.{◌≡◌, ◌⊎◌, map, string_bytes};
ghost use Rattle.std.specs.Io.KnownBytes.{IsAtEnd};
ghost use Rattle.command_words.specs.Words.{Command, IsCommand};
ghost use Rattle.fip_driver.specs.Faults.{called, AnswersWhole, Delivers, FilesAfter, HasCalled, HasRead, LeavesInput};
ghost use Rattle.fip_driver.specs.Left.{LeavesFor, is_run_status};
ghost use Rattle.fip_driver.specs.Made.{MadeFor, SomeCode};

use crate::coded::fp2_with_code;
use command_answers::runner::Left;
use fip_base::plain::Status;
use fip_outside::outside::{Folder, Sink, Source};
use std::alloc::Global;

/// Answers the words of a command line; the first is the program's name.
///
/// A source, a code or a trace comes from the folder, and the arguments' text from `input`. What a command stores goes
/// to the folder, then its result to `out`, and the text of every status but 0 to `err`. All text is built before the
/// first write or store. What a run left goes to `left`: just where `exec`, `run`, `gen` or `trace` answers with status
/// 0, 3, 4 or 7.
pub fn fp2<F: Folder, S: Source, O: Sink, E: Sink>(
    alloc: Global,
    words: &[String],
    folder: &mut F,
    input: &mut S,
    out: &mut O,
    err: &mut E,
    left: &mut Option<Left>,
) -> Status
    // Where no count of faults rose, and the folder and the input report what they hold: status, out, err and files are
    // the answer of the words, or out of memory.
    ensures whole { AnswersWhole (map string_bytes words.now) (called F.files F.faults folder.old folder.new)
        (called S.left S.faults input.old input.new) (called O.written O.faults out.old out.new)
        (called E.written E.faults err.old err.new) result.0 }
    // Whatever fails: just what the words end in is delivered to the sinks.
    ensures answer { Delivers (map string_bytes words.now) (called F.files F.faults folder.old folder.new)
        (called S.left S.faults input.old input.new) (called O.written O.faults out.old out.new)
        (called E.written E.faults err.old err.new) (input.new ≡ input.old) result.0 }
    // No file changes but the one under the name that the words ask to store.
    ensures files { (c : Command) → IsCommand (map string_bytes words.now) c →
        FilesAfter c (called F.files F.faults folder.old folder.new) (called S.left S.faults input.old input.new)
        (called O.written O.faults out.old out.new) result.0 }
    // Where the words, the source or the code are refused, the file is missing, or the command doesn't read it, the input
    // waits untouched.
    ensures unread { (input.new ≡ input.old)
        ⊎ HasRead (map string_bytes words.now) (F.files folder.old) result.0 }
    // Where the words are refused, or the command doesn't call it, the folder does.
    ensures unfetched { (folder.new ≡ folder.old) ⊎ HasCalled (map string_bytes words.now) result.0 }
    // After status 0 the input was read to its end, where the command reads it.
    ensures read { result.0 ≡ 0 → IsAtEnd (S.left input.new) ⊎ LeavesInput (map string_bytes words.now) }
    // Just where a run ended something is left: the code that ran, and the cells of the last state of its run.
    ensures left { LeavesFor (map string_bytes words.now) (F.files folder.old) (S.left input.old)
        (is_run_status result.0) left.new }
    // Just what was fetched, and the code that `compile` or `trace` made of it, decides what is stored, and where E61 or E75 is
    // reported; where nothing was fetched no file changes. The code is the one that is left, or else some code;
    // `fp2_with_code` hands both out.
    ensures made { SomeCode left.new (MadeFor (map string_bytes words.now) (F.files folder.old) (F.files folder.new)
        (S.left input.old) result.0) }
{
    let mut fetched = None;
    let mut made = None;
    fp2_with_code(
        alloc,
        words,
        folder,
        input,
        out,
        err,
        left,
        &mut fetched,
        &mut made,
    )
}
