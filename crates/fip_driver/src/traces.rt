// What the commands on traces end in: which object is called when.
ghost use Rattle.std.specs.Prelude.{◌≡◌, ◌⊎◌, ℕ, List, Option, IfOk, IfErr, OnOk, OnErr, None, Some};
ghost use Rattle.std.specs.Io.KnownBytes.{IsAtEnd};
ghost use Rattle.fip_outside.specs.Faults.{Rose};
ghost use Rattle.command_words.specs.View.{room_of};
ghost use Rattle.command_words.specs.Words as W;
ghost use Rattle.command_answers.specs.command_library.command_source.ProgramCode.{IsEntryOf};
ghost use Rattle.command_answers.specs.command_library.command_source.Wanted.{Compiled as compiled_entry, IsReady};
ghost use Rattle.command_answers.specs.command_library.command_run.CodeRun.{is_run_end};
ghost use Rattle.command_answers.specs.Asks.{ComesToInput};
ghost use Rattle.command_answers.specs.Ends.{TracesTo};
ghost use Rattle.command_answers.specs.Stored.{IsReported, IsTraceFile};
ghost use Rattle.code_verify.specs.cell_code.Plain.{plain};
ghost use Rattle.command_answers.specs.command_trace.TraceAnswer.{TracesRun, code_of};
ghost use Rattle.fip_driver.specs.Fetched.{IsLateFailure, StoreFails, StoreKeeps};
ghost use Rattle.fip_driver.specs.Turns.{IsCounted, end_of, IsBeforeTrace};
ghost use Rattle.fip_driver.specs.Left.{LeftOn};
ghost use Rattle.fip_driver.specs.HandedOut.{bytes_in};
ghost use Rattle.fip_driver.specs.Made.{MadeBy};
ghost use Rattle.fip_driver.specs.Outcome.{FileOutcome, ReadOutcome, compiled_end, AreKept, IsBeforeSource, Leaves, Remains};
ghost use Rattle.fip_driver.specs.Outcome.{IsDone, IsRefused};

use crate::fetched::{fetch_source, fetch_trace, read_input};
use crate::stored::store;
use code_verify::Verified;
use command_answers::runner::Left;
use command_answers::source::{Compiled, Ready};
use command_outcome::Failure;
use fip_outside::outside::{Folder, Source};
use fip_room::Room;
use std::alloc::Global;

// Reads the input, runs the entry and keeps what it writes.
fn traced<S: Source>(
    alloc: Global,
    ready: Ready,
    room: Room,
    input: &mut S,
    left: &mut Option<Left>,
    made: &mut Option<Verified>,
) -> Result<Compiled, Failure>
    ensures outcome { (source name : List ℕ) → IsReady source (compiled_entry name) → IsEntryOf source name ready →
        ReadOutcome (λ bytes. TracesTo source name bytes (room_of room)) (S.left input.old)
        (Rose (S.faults input.old) (S.faults input.new)) (compiled_end result) }
    ensures made { (source name : List ℕ) → IsReady source (compiled_entry name) → IsEntryOf source name ready →
        IfOk result (λ c. IsTraceFile source name (room_of room) (S.left input.old) c.file.items) }
    ensures read { OnOk result (IsAtEnd (S.left input.new)) }
    ensures fails { IfErr result IsLateFailure }
    ensures left { (source name : List ℕ) → IsReady source (compiled_entry name) → IsEntryOf source name ready →
        Remains (LeftOn (IsEntryOf source name) (S.left input.old) (room_of room)) (is_run_end result) left.new }
    ensures own { (source name : List ℕ) → IsReady source (compiled_entry name) → IsEntryOf source name ready →
        (bytes : List ℕ) × IsReported (S.left input.old) bytes
        × TracesRun (plain ready.checked.code) ready.entry bytes (room_of room) result }
    ensures code { code_of left.new made.new ≡ Some ready.checked }
    ensures apart { (left.new ≡ None) ⊎ (made.new ≡ None) }
{
    *left = None;
    match read_input(alloc, input) {
        Ok(bytes) => command_answers::trace(alloc, ready, bytes.as_slice(), room, left, made),
        Err(failure) => {
            *made = Some(ready.into_verified());
            Err(failure)
        }
    }
}

/// Lets go of what a run left, but for its code, which is handed out by itself.
pub fn keep_code(left: Option<Left>, made: &mut Option<Verified>)
    ensures code { made.new ≡ code_of left made.old }
{
    match left {
        Some(left) => *made = Some(left.verified),
        None => {}
    }
}

// Stores the trace, and gives the text that is printed. Where that fails, nothing is left of the run but its code.
fn store_leaving<F: Folder>(
    folder: &mut F,
    name: &str,
    compiled: Compiled,
    left: &mut Option<Left>,
    made: &mut Option<Verified>,
) -> Result<Vec<u8>, Failure>
    ensures reported { IfOk result (λ v. v.items ≡ compiled.text.items) }
    ensures fails { IfErr result (StoreFails (F.faults folder.old) (F.faults folder.new)) }
    ensures kept { StoreKeeps name.now compiled.file.items (F.files folder.old) (F.files folder.new) result }
    ensures understood { IsBeforeSource result → ⊥ }
    ensures left { OnOk result (left.new ≡ left.old) }
    ensures none { OnErr result (left.new ≡ None) }
    ensures code { code_of left.new made.new ≡ code_of left.old made.old }
    ensures apart { (left.new ≡ None) ⊎ ((left.new ≡ left.old) × (made.new ≡ made.old)) }
{
    match store(folder, name, compiled) {
        Ok(text) => Ok(text),
        Err(failure) => {
            keep_code(left.take(), made);
            Err(failure)
        }
    }
}

/// Runs the entry of a source and stores the trace of the run; the lines of its results. The source that was fetched is
/// handed out, and the code that ran by itself where it isn't left.
pub fn trace<F: Folder, S: Source>(
    alloc: Global,
    file: &str,
    entry: &str,
    out: &str,
    room: Room,
    folder: &mut F,
    input: &mut S,
    left: &mut Option<Left>,
    fetched: &mut Option<Vec<u8>>,
    made: &mut Option<Verified>,
) -> Result<Vec<u8>, Failure>
    ensures outcome { FileOutcome (W.Trace file.now entry.now out.now (room_of room)) (F.files folder.old)
        (S.left input.old) (Rose (F.faults folder.old) (F.faults folder.new))
        (Rose (S.faults input.old) (S.faults input.new)) (end_of result) }
    ensures read { OnOk result (IsAtEnd (S.left input.new)) }
    ensures before { IsBeforeTrace result → input.new ≡ input.old }
    ensures waits { (input.new ≡ input.old)
        ⊎ ComesToInput (W.Trace file.now entry.now out.now (room_of room)) (F.files folder.old) }
    ensures kept { AreKept (W.Trace file.now entry.now out.now (room_of room)) (S.left input.old) (Some out.now)
        (Rose (F.faults folder.old) (F.faults folder.new)) (F.files folder.old) (F.files folder.new) result }
    ensures counted { IsCounted (F.files folder.old) (Rose (F.faults folder.old) (F.faults folder.new)) result }
    ensures understood { IsBeforeSource result → ⊥ }
    ensures left { Leaves (W.Trace file.now entry.now out.now (room_of room)) (F.files folder.old) (S.left input.old)
        (is_run_end result) left.new }
    ensures made { MadeBy (W.Trace file.now entry.now out.now (room_of room)) (F.files folder.old) (F.files folder.new)
        (S.left input.old) (IsDone result) (IsRefused result) (bytes_in fetched.new) (code_of left.new made.new) }
    ensures apart { (left.new ≡ None) ⊎ (made.new ≡ None) }
{
    *left = None;
    *fetched = None;
    *made = None;
    match fetch_source(alloc, folder, file) {
        Ok(source) => match command_answers::source::exec_entry(alloc, source.as_slice(), entry) {
            Ok(ready) => match traced(alloc, ready, room, input, left, made) {
                Ok(compiled) => {
                    *fetched = Some(source);
                    store_leaving(folder, out, compiled, left, made)
                }
                Err(failure) => {
                    *fetched = Some(source);
                    Err(failure)
                }
            },
            Err(failure) => {
                *fetched = Some(source);
                Err(failure)
            }
        },
        Err(failure) => Err(failure),
    }
}

/// A line for each cell of a trace, as it is after so many steps.
pub fn replay<F: Folder>(
    alloc: Global,
    name: &str,
    step: u64,
    folder: &mut F,
) -> Result<Vec<u8>, Failure>
    ensures outcome { (left : Option (List ℕ)) → FileOutcome (W.Replay name.now step) (F.files folder.old) left
        (Rose (F.faults folder.old) (F.faults folder.new)) ⊥ (end_of result) }
    ensures counted { IsCounted (F.files folder.old) (Rose (F.faults folder.old) (F.faults folder.new)) result }
    ensures understood { IsBeforeSource result → ⊥ }
    ensures files { F.files folder.new ≡ F.files folder.old }
{
    match fetch_trace(folder, name) {
        Ok(bytes) => command_answers::replay(alloc, bytes.as_slice(), step),
        Err(failure) => Err(failure),
    }
}
