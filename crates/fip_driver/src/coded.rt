// The top call, for a host that also needs what was fetched, and the code that was made of a source.
ghost use Rattle.std.specs.Prelude.{◌≡◌, ◌⊎◌, None, map, string_bytes};
ghost use Rattle.std.specs.Io.KnownBytes.{IsAtEnd};
ghost use Rattle.command_words.specs.Words.{Command, IsCommand};
ghost use Rattle.command_answers.specs.command_trace.TraceAnswer.{code_of};
ghost use Rattle.fip_driver.specs.Faults.{called, AnswersWhole, Delivers, FilesAfter, HasCalled, HasRead, LeavesInput};
ghost use Rattle.fip_driver.specs.Left.{LeavesFor, is_run_status};
ghost use Rattle.fip_driver.specs.HandedOut.{HandsOut, bytes_in};
ghost use Rattle.fip_driver.specs.Made.{MadeFor};

use crate::asked::{hand_out, outcome};
use crate::delivery::deliver;
use code_verify::Verified;
use command_answers::runner::Left;
use fip_base::plain::Status;
use fip_outside::outside::{Folder, Sink, Source};
use std::alloc::Global;

/// Answers words as `fp2` does, which is this call without `fetched` and `made`. There it hands out the file that `compile`,
/// `trace`, `upgrade` or `derive` fetched, and the code that `compile` or `trace` made of it, also where this code has no file
/// that isn't too long (E61), or its run's trace hasn't (E75). So of real files, which report nothing, it is known of which
/// source the code is.
pub fn fp2_with_code<F: Folder, S: Source, O: Sink, E: Sink>(
    alloc: Global,
    words: &[String],
    folder: &mut F,
    input: &mut S,
    out: &mut O,
    err: &mut E,
    left: &mut Option<Left>,
    fetched: &mut Option<Vec<u8>>,
    made: &mut Option<Verified>,
) -> Status
    ensures whole { AnswersWhole (map string_bytes words.now) (called F.files F.faults folder.old folder.new)
        (called S.left S.faults input.old input.new) (called O.written O.faults out.old out.new)
        (called E.written E.faults err.old err.new) result.0 }
    ensures answer { Delivers (map string_bytes words.now) (called F.files F.faults folder.old folder.new)
        (called S.left S.faults input.old input.new) (called O.written O.faults out.old out.new)
        (called E.written E.faults err.old err.new) (input.new ≡ input.old) result.0 }
    ensures files { (c : Command) → IsCommand (map string_bytes words.now) c →
        FilesAfter c (called F.files F.faults folder.old folder.new) (called S.left S.faults input.old input.new)
        (called O.written O.faults out.old out.new) result.0 }
    ensures unread { (input.new ≡ input.old)
        ⊎ HasRead (map string_bytes words.now) (F.files folder.old) result.0 }
    ensures unfetched { (folder.new ≡ folder.old) ⊎ HasCalled (map string_bytes words.now) result.0 }
    ensures read { result.0 ≡ 0 → IsAtEnd (S.left input.new) ⊎ LeavesInput (map string_bytes words.now) }
    ensures left { LeavesFor (map string_bytes words.now) (F.files folder.old) (S.left input.old)
        (is_run_status result.0) left.new }
    // Just what this call fetched, and the code that it made of this, decides what is stored, and where E61 and E75 are
    // reported; where nothing was fetched no file changes.
    ensures made { MadeFor (map string_bytes words.now) (F.files folder.old) (F.files folder.new) (S.left input.old)
        result.0 (bytes_in fetched.new) (code_of left.new made.new) }
    // No other command hands a code out, and none where it is left.
    ensures only { (made.new ≡ None) ⊎ HandsOut (map string_bytes words.now) left.new }
{
    let outcome = outcome(alloc, words, folder, input, left, fetched, made);
    let status = deliver(alloc, outcome, out, err);
    hand_out(status, left, made);
    status
}
