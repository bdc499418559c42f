// What the commands end in that fetch one file: which object is called when.
ghost use Rattle.std.specs.Prelude.{◌≡◌, ◌⊎◌, ℕ, List, Option, IfOk, IfErr, IfSome, OnOk, Some};
ghost use Rattle.std.specs.Io.KnownBytes.{IsAtEnd};
ghost use Rattle.fip_outside.specs.Faults.{Rose};
ghost use Rattle.fip_trees.specs.TreeView as V;
ghost use Rattle.code_verify.specs.Checked.{Checked as a_code};
ghost use Rattle.command_words.specs.Words as W;
ghost use Rattle.command_answers.specs.command_library.command_source.Entries.{IsRootedIn};
ghost use Rattle.command_answers.specs.command_library.command_eval.EvalAnswer.{Evaluates};
ghost use Rattle.command_answers.specs.Asks.{ComesToInput};
ghost use Rattle.fip_driver.specs.Turns.{IsCounted, end_of, IsBeforeInput};
ghost use Rattle.fip_driver.specs.HandedOut.{bytes_in};
ghost use Rattle.fip_driver.specs.Made.{MadeBy};
ghost use Rattle.fip_driver.specs.Outcome.{FileOutcome, ReadOutcome, AreKept, IsBeforeSource, IsDone, IsRefused};

use crate::fetched::{fetch_code, fetch_source, read_input};
use crate::stored::store;
use code_verify::Verified;
use command_answers::source::Evaluable;
use command_outcome::Failure;
use fip_outside::outside::{Folder, Source};
use fip_room::Room;
use std::alloc::Global;

/// The lines of a source that breaks no rule.
pub fn check<F: Folder>(alloc: Global, file: &str, folder: &mut F) -> Result<Vec<u8>, Failure>
    ensures outcome { (left : Option (List ℕ)) → FileOutcome (W.Check file.now) (F.files folder.old) left
        (Rose (F.faults folder.old) (F.faults folder.new)) ⊥ (end_of result) }
    ensures counted { IsCounted (F.files folder.old) (Rose (F.faults folder.old) (F.faults folder.new)) result }
    ensures understood { IsBeforeSource result → ⊥ }
    ensures files { F.files folder.new ≡ F.files folder.old }
{
    match fetch_source(alloc, folder, file) {
        Ok(bytes) => command_answers::source::check(alloc, bytes.as_slice()),
        Err(failure) => Err(failure),
    }
}

/// Stores the code of a source that breaks no rule; its lines. The source that was fetched is handed out, and the code
/// that was made of it, where one was.
pub fn compile<F: Folder>(
    alloc: Global,
    file: &str,
    out: &str,
    folder: &mut F,
    fetched: &mut Option<Vec<u8>>,
    made: &mut Option<Verified>,
) -> Result<Vec<u8>, Failure>
    ensures outcome { (left : Option (List ℕ)) → FileOutcome (W.Compile file.now out.now) (F.files folder.old) left
        (Rose (F.faults folder.old) (F.faults folder.new)) ⊥ (end_of result) }
    ensures kept { (left : Option (List ℕ)) → AreKept (W.Compile file.now out.now) left (Some out.now)
        (Rose (F.faults folder.old) (F.faults folder.new)) (F.files folder.old) (F.files folder.new) result }
    ensures counted { IsCounted (F.files folder.old) (Rose (F.faults folder.old) (F.faults folder.new)) result }
    ensures understood { IsBeforeSource result → ⊥ }
    ensures made { (reported : Option (List ℕ)) → MadeBy (W.Compile file.now out.now) (F.files folder.old)
        (F.files folder.new) reported (IsDone result) (IsRefused result) (bytes_in fetched.new) made.new }
{
    *fetched = None;
    *made = None;
    match fetch_source(alloc, folder, file) {
        Ok(bytes) => match command_answers::source::compile(alloc, bytes.as_slice(), made) {
            Ok(compiled) => {
                *fetched = Some(bytes);
                store(folder, out, compiled)
            }
            Err(failure) => {
                *fetched = Some(bytes);
                Err(failure)
            }
        },
        Err(failure) => Err(failure),
    }
}

/// The lines of a code file that is sound.
pub fn verify<F: Folder>(alloc: Global, file: &str, folder: &mut F) -> Result<Vec<u8>, Failure>
    ensures outcome { (left : Option (List ℕ)) → FileOutcome (W.Verify file.now) (F.files folder.old) left
        (Rose (F.faults folder.old) (F.faults folder.new)) ⊥ (end_of result) }
    ensures counted { IsCounted (F.files folder.old) (Rose (F.faults folder.old) (F.faults folder.new)) result }
    ensures understood { IsBeforeSource result → ⊥ }
    ensures files { F.files folder.new ≡ F.files folder.old }
{
    match fetch_code(folder, file) {
        Ok(bytes) => command_answers::source::verify_file(alloc, bytes.as_slice()),
        Err(failure) => Err(failure),
    }
}

/// Stores a sound code file in the second version; its lines. The file that was fetched is handed out.
pub fn upgrade<F: Folder>(
    alloc: Global,
    file: &str,
    out: &str,
    folder: &mut F,
    fetched: &mut Option<Vec<u8>>,
) -> Result<Vec<u8>, Failure>
    ensures outcome { (left : Option (List ℕ)) → FileOutcome (W.Upgrade file.now out.now) (F.files folder.old) left
        (Rose (F.faults folder.old) (F.faults folder.new)) ⊥ (end_of result) }
    ensures kept { (left : Option (List ℕ)) → AreKept (W.Upgrade file.now out.now) left (Some out.now)
        (Rose (F.faults folder.old) (F.faults folder.new)) (F.files folder.old) (F.files folder.new) result }
    ensures counted { IsCounted (F.files folder.old) (Rose (F.faults folder.old) (F.faults folder.new)) result }
    ensures understood { IsBeforeSource result → ⊥ }
    ensures made { (reported : Option (List ℕ)) (made : Option a_code) → MadeBy (W.Upgrade file.now out.now)
        (F.files folder.old) (F.files folder.new) reported (IsDone result) (IsRefused result) (bytes_in fetched.new) made }
{
    *fetched = None;
    match fetch_code(folder, file) {
        Ok(bytes) => match command_answers::source::upgrade(alloc, bytes.as_slice()) {
            Ok(compiled) => {
                *fetched = Some(bytes);
                store(folder, out, compiled)
            }
            Err(failure) => {
                *fetched = Some(bytes);
                Err(failure)
            }
        },
        Err(failure) => Err(failure),
    }
}

// Reads the input and evaluates the entry.
fn evaluate<S: Source>(
    alloc: Global,
    program: Evaluable,
    room: Room,
    input: &mut S,
) -> Result<Vec<u8>, Failure>
    ensures outcome { (source name : List ℕ) →
        IsRootedIn source name (V.program program.typed.program) program.entry →
        ReadOutcome (λ bytes. Evaluates source name bytes room.calls room.frames) (S.left input.old)
        (Rose (S.faults input.old) (S.faults input.new)) (end_of result) }
    ensures read { OnOk result (IsAtEnd (S.left input.new)) }
    ensures late { IsBeforeInput result → ⊥ }
{
    match read_input(alloc, input) {
        Ok(bytes) => command_answers::evaluator::evaluate(
            alloc,
            program,
            bytes.as_slice(),
            room.calls,
            room.frames,
        ),
        Err(failure) => Err(failure),
    }
}

/// What an evaluation of a source ends in, on rows that never change.
pub fn eval<F: Folder, S: Source>(
    alloc: Global,
    file: &str,
    entry: &str,
    room: Room,
    folder: &mut F,
    input: &mut S,
) -> Result<Vec<u8>, Failure>
    ensures outcome { FileOutcome (W.Eval file.now entry.now room.calls room.frames) (F.files folder.old) (S.left input.old)
        (Rose (F.faults folder.old) (F.faults folder.new)) (Rose (S.faults input.old) (S.faults input.new))
        (end_of result) }
    ensures read { OnOk result (IsAtEnd (S.left input.new)) }
    ensures before { IsBeforeInput result → input.new ≡ input.old }
    ensures waits { (input.new ≡ input.old) ⊎ ComesToInput (W.Eval file.now entry.now room.calls room.frames) (F.files folder.old) }
    ensures counted { IsCounted (F.files folder.old) (Rose (F.faults folder.old) (F.faults folder.new)) result }
    ensures understood { IsBeforeSource result → ⊥ }
    ensures files { F.files folder.new ≡ F.files folder.old }
{
    match fetch_source(alloc, folder, file) {
        Ok(source) => match command_answers::source::eval_entry(alloc, source.as_slice(), entry) {
            Ok(program) => evaluate(alloc, program, room, input),
            Err(failure) => Err(failure),
        },
        Err(failure) => Err(failure),
    }
}
