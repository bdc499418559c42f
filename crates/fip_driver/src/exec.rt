// What running an entry ends in: a source's and a code's.
ghost use Rattle.std.specs.Prelude.{◌≡◌, ◌⊎◌, ℕ, List, OnOk};
ghost use Rattle.std.specs.Io.KnownBytes.{IsAtEnd};
ghost use Rattle.fip_outside.specs.Faults.{Rose};
ghost use Rattle.command_words.specs.View.{room_of, request_of};
ghost use Rattle.command_words.specs.Words as W;
ghost use Rattle.command_answers.specs.command_library.command_source.Entries.{IsFunctionOf};
ghost use Rattle.command_answers.specs.command_library.command_source.ProgramCode.{IsEntryOf};
ghost use Rattle.command_answers.specs.command_library.command_source.Wanted.{Compiled, IsReady};
ghost use Rattle.command_answers.specs.command_library.command_run.CodeRun.{is_run_end, RunsCode};
ghost use Rattle.command_answers.specs.command_library.command_run.ExecAnswer.{Execs};
ghost use Rattle.command_answers.specs.Asks.{ComesToInput};
ghost use Rattle.fip_driver.specs.Turns.{IsCounted, end_of, IsBeforeInput};
ghost use Rattle.fip_driver.specs.Left.{LeftOn};
ghost use Rattle.fip_driver.specs.Outcome.{FileOutcome, ReadOutcome, IsBeforeSource, Leaves, Remains};

use crate::fetched::{fetch_code, fetch_source, read_input};
use command_answers::runner::{self, Left};
use command_answers::source::Ready;
use command_outcome::Failure;
use command_words::RunRequest;
use fip_outside::outside::{Folder, Source};
use fip_room::Room;
use std::alloc::Global;

// Reads the input and runs the entry of a verified code.
fn run_ready<S: Source>(
    alloc: Global,
    ready: Ready,
    room: Room,
    gauge: bool,
    input: &mut S,
    left: &mut Option<Left>,
) -> Result<Vec<u8>, Failure>
    ensures means { (source name : List ℕ) → IsReady source (Compiled name) → IsEntryOf source name ready →
        ReadOutcome (λ bytes. Execs source name bytes (room_of room) gauge) (S.left input.old)
        (Rose (S.faults input.old) (S.faults input.new)) (end_of result) }
    ensures runs { (code name : List ℕ) → IsFunctionOf code name ready →
        ReadOutcome (λ bytes. RunsCode code name bytes (room_of room) gauge) (S.left input.old)
        (Rose (S.faults input.old) (S.faults input.new)) (end_of result) }
    ensures read { OnOk result (IsAtEnd (S.left input.new)) }
    ensures late { IsBeforeInput result → ⊥ }
    ensures meant { (source name : List ℕ) → IsReady source (Compiled name) → IsEntryOf source name ready →
        Remains (LeftOn (IsEntryOf source name) (S.left input.old) (room_of room)) (is_run_end result) left.new }
    ensures coded { (code name : List ℕ) → IsFunctionOf code name ready →
        Remains (LeftOn (IsFunctionOf code name) (S.left input.old) (room_of room)) (is_run_end result) left.new }
{
    *left = None;
    match read_input(alloc, input) {
        Ok(bytes) => runner::run(alloc, ready, bytes.as_slice(), room, gauge, left),
        Err(failure) => Err(failure),
    }
}

/// What a run of a source ends in.
pub fn exec<F: Folder, S: Source>(
    alloc: Global,
    request: &RunRequest<'_>,
    folder: &mut F,
    input: &mut S,
    left: &mut Option<Left>,
) -> Result<Vec<u8>, Failure>
    ensures outcome { FileOutcome (W.Exec (request_of request.now)) (F.files folder.old) (S.left input.old)
        (Rose (F.faults folder.old) (F.faults folder.new)) (Rose (S.faults input.old) (S.faults input.new))
        (end_of result) }
    ensures read { OnOk result (IsAtEnd (S.left input.new)) }
    ensures before { IsBeforeInput result → input.new ≡ input.old }
    ensures waits { (input.new ≡ input.old) ⊎ ComesToInput (W.Exec (request_of request.now)) (F.files folder.old) }
    ensures counted { IsCounted (F.files folder.old) (Rose (F.faults folder.old) (F.faults folder.new)) result }
    ensures understood { IsBeforeSource result → ⊥ }
    ensures files { F.files folder.new ≡ F.files folder.old }
    ensures left { Leaves (W.Exec (request_of request.now)) (F.files folder.old) (S.left input.old) (is_run_end result)
        left.new }
{
    *left = None;
    match fetch_source(alloc, folder, request.file) {
        Ok(source) => match command_answers::source::exec_entry(
            alloc,
            source.as_slice(),
            request.entry,
        ) {
            Ok(ready) => run_ready(alloc, ready, request.room, request.gauge, input, left),
            Err(failure) => Err(failure),
        },
        Err(failure) => Err(failure),
    }
}

/// What a run of a code file ends in.
pub fn run<F: Folder, S: Source>(
    alloc: Global,
    request: &RunRequest<'_>,
    folder: &mut F,
    input: &mut S,
    left: &mut Option<Left>,
) -> Result<Vec<u8>, Failure>
    ensures outcome { FileOutcome (W.Run (request_of request.now)) (F.files folder.old) (S.left input.old)
        (Rose (F.faults folder.old) (F.faults folder.new)) (Rose (S.faults input.old) (S.faults input.new))
        (end_of result) }
    ensures read { OnOk result (IsAtEnd (S.left input.new)) }
    ensures before { IsBeforeInput result → input.new ≡ input.old }
    ensures waits { (input.new ≡ input.old) ⊎ ComesToInput (W.Run (request_of request.now)) (F.files folder.old) }
    ensures counted { IsCounted (F.files folder.old) (Rose (F.faults folder.old) (F.faults folder.new)) result }
    ensures understood { IsBeforeSource result → ⊥ }
    ensures files { F.files folder.new ≡ F.files folder.old }
    ensures left { Leaves (W.Run (request_of request.now)) (F.files folder.old) (S.left input.old) (is_run_end result)
        left.new }
{
    *left = None;
    match fetch_code(folder, request.file) {
        Ok(bytes) => match command_answers::source::run_entry(
            alloc,
            bytes.as_slice(),
            request.entry,
        ) {
            Ok(ready) => run_ready(alloc, ready, request.room, request.gauge, input, left),
            Err(failure) => Err(failure),
        },
        Err(failure) => Err(failure),
    }
}
