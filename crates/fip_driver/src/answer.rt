// What a command ends in: one arm for each, which says in what order the objects of a host are called.
ghost use Rattle.std.specs.Prelude.{◌≡◌, ◌⊎◌, ℕ, List, OnOk, None};
ghost use Rattle.std.specs.Io.KnownBytes.{IsAtEnd};
ghost use Rattle.fip_outside.specs.Faults.{Rose};
ghost use Rattle.command_words.specs.Words.{IsCommand};
ghost use Rattle.command_words.specs.View.{command_of};
ghost use Rattle.command_answers.specs.Asks.{ReadsInput, CallsNoFolder, ComesToInput, stored_name};
ghost use Rattle.command_answers.specs.command_library.command_run.CodeRun.{is_run_end};
ghost use Rattle.command_answers.specs.command_trace.TraceAnswer.{code_of};
ghost use Rattle.fip_driver.specs.Turns.{IsCounted, IsBeforeInputOf};
ghost use Rattle.fip_driver.specs.HandedOut.{HasCode, bytes_in};
ghost use Rattle.fip_driver.specs.Made.{MadeBy};
ghost use Rattle.fip_driver.specs.Outcome.{CommandOutcome, AreKept, IsBeforeSource, IsDone, IsRefused, Leaves};

use crate::commands::{check, compile, eval, upgrade, verify};
use crate::derivations::{audit, derive};
use crate::exec::{exec, run};
use crate::sessions::{session, tasks};
use crate::traces::{replay, trace};
use code_verify::Verified;
use command_answers::runner::Left;
use command_outcome::Failure;
use command_words::Command;
use fip_outside::outside::{Folder, Source};
use std::alloc::Global;

/// What a command ends in. What a command that stores fetched is handed out, and the code that `compile` or `trace`
/// made, or it is the one that is left.
pub fn answer<F: Folder, S: Source>(
    alloc: Global,
    command: &Command<'_>,
    folder: &mut F,
    input: &mut S,
    left: &mut Option<Left>,
    fetched: &mut Option<Vec<u8>>,
    made: &mut Option<Verified>,
) -> Result<Vec<u8>, Failure>
    requires asked { (words : List (List ℕ)) × IsCommand words (command_of command.now) }
    ensures outcome { CommandOutcome (command_of command.now) (F.files folder.old) (S.left input.old)
        (Rose (F.faults folder.old) (F.faults folder.new)) (Rose (S.faults input.old) (S.faults input.new)) result }
    ensures read { OnOk result (ReadsInput (command_of command.now) → IsAtEnd (S.left input.new)) }
    ensures unread { (ReadsInput (command_of command.now) → ⊥) → input.new ≡ input.old }
    ensures before { IsBeforeInputOf (command_of command.now) result → input.new ≡ input.old }
    ensures waits { (input.new ≡ input.old) ⊎ ComesToInput (command_of command.now) (F.files folder.old) }
    ensures uncalled { CallsNoFolder (command_of command.now) → folder.new ≡ folder.old }
    ensures unfetched { IsBeforeSource result → folder.new ≡ folder.old }
    ensures files { AreKept (command_of command.now) (S.left input.old) (stored_name (command_of command.now))
        (Rose (F.faults folder.old) (F.faults folder.new)) (F.files folder.old) (F.files folder.new) result }
    ensures counted { IsCounted (F.files folder.old) (Rose (F.faults folder.old) (F.faults folder.new)) result }
    ensures left { Leaves (command_of command.now) (F.files folder.old) (S.left input.old) (is_run_end result)
        left.new }
    ensures made { MadeBy (command_of command.now) (F.files folder.old) (F.files folder.new) (S.left input.old)
        (IsDone result) (IsRefused result) (bytes_in fetched.new) (code_of left.new made.new) }
    ensures only { (made.new ≡ None) ⊎ ((left.new ≡ None) × HasCode (command_of command.now)) }
{
    *left = None;
    *fetched = None;
    *made = None;
    match command {
        Command::Check { file } => check(alloc, file, folder),
        Command::Compile { file, out } => compile(alloc, file, out, folder, fetched, made),
        Command::Verify { file } => verify(alloc, file, folder),
        Command::Upgrade { file, out } => upgrade(alloc, file, out, folder, fetched),
        Command::Exec { request } => exec(alloc, request, folder, input, left),
        Command::Run { request } => run(alloc, request, folder, input, left),
        Command::Eval { file, entry, room } => eval(alloc, file, entry, *room, folder, input),
        Command::Library { name } => command_answers::library(alloc, name),
        Command::Gen { seed, count } => command_answers::generate(alloc, *seed, *count, left),
        Command::Trace {
            file,
            entry,
            out,
            room,
        } => trace(
            alloc, file, entry, out, *room, folder, input, left, fetched, made,
        ),
        Command::Session { file, room } => session(alloc, file, *room, folder, input),
        Command::Tasks {
            file,
            seed,
            turns,
            room,
        } => tasks(alloc, file, *seed, *turns, *room, folder, input),
        Command::Derive { file, out } => derive(alloc, file, out, folder, fetched),
        Command::Audit { file, proof } => audit(alloc, file, proof, folder),
        Command::Replay { trace, step } => replay(alloc, trace, *step, folder),
    }
}
