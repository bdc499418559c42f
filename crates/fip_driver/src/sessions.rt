// What sessions and tasks end in: which object is called when.
ghost use Rattle.std.specs.Prelude.{◌≡◌, ◌⊎◌, ◌≤◌, ℕ, List, length, OnOk};
ghost use Rattle.std.specs.Io.KnownBytes.{IsAtEnd};
ghost use Rattle.fip_language.specs.declared.limits.TheConstants.{MOST_FILE_BYTES};
ghost use Rattle.fip_outside.specs.Faults.{Rose};
ghost use Rattle.command_words.specs.View.{room_of};
ghost use Rattle.command_words.specs.Words as W;
ghost use Rattle.command_answers.specs.command_library.command_eval.EvalAnswer.{OrNoMemory};
ghost use Rattle.command_answers.specs.command_tasks.Fronts.{IsFrontOf};
ghost use Rattle.command_answers.specs.command_tasks.TasksAnswer.{TakesTurns};
ghost use Rattle.command_answers.specs.Asks.{ComesToInput};
ghost use Rattle.command_answers.specs.Ends.{Replies};
ghost use Rattle.fip_driver.specs.Turns.{IsCounted, end_of, IsBeforeInput};
ghost use Rattle.fip_driver.specs.Outcome.{FileOutcome, ReadOutcome, IsBeforeSource};

use crate::fetched::{fetch_source, read_input};
use command_answers::source::Front;
use command_outcome::Failure;
use fip_base::plain::NoMemory;
use fip_outside::outside::{Folder, Source};
use fip_room::Room;
use fip_session::session_reply;
use std::alloc::Global;

// The replies to the lines of an input, each ended by LF. Nothing but running out of memory ends a session early.
fn replies(alloc: Global, front: &Front, input: &[u8], room: Room) -> Result<Vec<u8>, Failure>
    ensures means { (source : List ℕ) → IsFrontOf source front.now → length input.now ≤ MOST_FILE_BYTES →
        OrNoMemory (Replies source input.now (room_of room)) result }
    ensures late { IsBeforeInput result → ⊥ }
{
    // That the code's ints have 64 bits is reported where it is read.
    front.verified.code();
    match session_reply(alloc, &front.typed, &front.verified, room, input) {
        Ok(out) => Ok(out),
        Err(NoMemory) => Err(Failure::NoMemory),
    }
}

// Reads the input and answers its lines.
fn talk<S: Source>(
    alloc: Global,
    front: &Front,
    room: Room,
    input: &mut S,
) -> Result<Vec<u8>, Failure>
    ensures outcome { (source : List ℕ) → IsFrontOf source front.now →
        ReadOutcome (λ bytes. Replies source bytes (room_of room)) (S.left input.old)
        (Rose (S.faults input.old) (S.faults input.new)) (end_of result) }
    ensures read { OnOk result (IsAtEnd (S.left input.new)) }
    ensures late { IsBeforeInput result → ⊥ }
{
    match read_input(alloc, input) {
        Ok(bytes) => replies(alloc, front, bytes.as_slice(), room),
        Err(failure) => Err(failure),
    }
}

/// The replies to the lines of the input, over one store in which names hold values.
pub fn session<F: Folder, S: Source>(
    alloc: Global,
    file: &str,
    room: Room,
    folder: &mut F,
    input: &mut S,
) -> Result<Vec<u8>, Failure>
    ensures outcome { FileOutcome (W.Session file.now (room_of room)) (F.files folder.old) (S.left input.old)
        (Rose (F.faults folder.old) (F.faults folder.new)) (Rose (S.faults input.old) (S.faults input.new))
        (end_of result) }
    ensures read { OnOk result (IsAtEnd (S.left input.new)) }
    ensures before { IsBeforeInput result → input.new ≡ input.old }
    ensures waits { (input.new ≡ input.old) ⊎ ComesToInput (W.Session file.now (room_of room)) (F.files folder.old) }
    ensures counted { IsCounted (F.files folder.old) (Rose (F.faults folder.old) (F.faults folder.new)) result }
    ensures understood { IsBeforeSource result → ⊥ }
    ensures files { F.files folder.new ≡ F.files folder.old }
{
    match fetch_source(alloc, folder, file) {
        Ok(source) => match command_answers::source::front(alloc, source.as_slice()) {
            Ok(front) => talk(alloc, &front, room, input),
            Err(failure) => Err(failure),
        },
        Err(failure) => Err(failure),
    }
}

// Reads the input and runs its tasks.
fn take_turns<S: Source>(
    alloc: Global,
    front: &Front,
    seed: u64,
    turns: u64,
    room: Room,
    input: &mut S,
) -> Result<Vec<u8>, Failure>
    ensures outcome { (source : List ℕ) → IsFrontOf source front.now →
        ReadOutcome (λ bytes. TakesTurns source bytes (room_of room)) (S.left input.old)
        (Rose (S.faults input.old) (S.faults input.new)) (end_of result) }
    ensures read { OnOk result (IsAtEnd (S.left input.new)) }
    ensures late { IsBeforeInput result → ⊥ }
{
    match read_input(alloc, input) {
        Ok(bytes) => command_answers::tasks(alloc, front, bytes.as_slice(), seed, turns, room),
        Err(failure) => Err(failure),
    }
}

/// What the tasks of the lines of the input end in, over one store and in turns that are drawn from a seed.
pub fn tasks<F: Folder, S: Source>(
    alloc: Global,
    file: &str,
    seed: u64,
    turns: u64,
    room: Room,
    folder: &mut F,
    input: &mut S,
) -> Result<Vec<u8>, Failure>
    ensures outcome { FileOutcome (W.Tasks file.now seed turns (room_of room)) (F.files folder.old) (S.left input.old)
        (Rose (F.faults folder.old) (F.faults folder.new)) (Rose (S.faults input.old) (S.faults input.new))
        (end_of result) }
    ensures read { OnOk result (IsAtEnd (S.left input.new)) }
    ensures before { IsBeforeInput result → input.new ≡ input.old }
    ensures waits { (input.new ≡ input.old) ⊎ ComesToInput (W.Tasks file.now seed turns (room_of room)) (F.files folder.old) }
    ensures counted { IsCounted (F.files folder.old) (Rose (F.faults folder.old) (F.faults folder.new)) result }
    ensures understood { IsBeforeSource result → ⊥ }
    ensures files { F.files folder.new ≡ F.files folder.old }
{
    match fetch_source(alloc, folder, file) {
        Ok(source) => match command_answers::source::front(alloc, source.as_slice()) {
            Ok(front) => take_turns(alloc, &front, seed, turns, room, input),
            Err(failure) => Err(failure),
        },
        Err(failure) => Err(failure),
    }
}
