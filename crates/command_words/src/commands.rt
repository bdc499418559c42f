// The commands, as they are handed to the parser of the command line: one function a command.
ghost use Rattle.std.specs.Prelude.{◌≡◌, IfOk, false};
ghost use Rattle.clap.specs.Words.{app_of, rule_of, with_rule, with_subcommand};
ghost use Rattle.clap.specs.declared.builder.command.Command.TheViews.{out-Command};
ghost use Rattle.command_words.specs.Words.{word, number_word, number_option, flag, bare, one_word, two_words};
ghost use Rattle.command_words.specs.Words.{with_calls, with_frames, with_words, with_room, with_gauge};
ghost use Rattle.command_words.specs.Words.{check_app, compile_app, verify_app, exec_app, run_app, eval_app};
ghost use Rattle.command_words.specs.Words.{library_app, gen_app, upgrade_app, session_app, tasks_words_app, tasks_app};
ghost use Rattle.command_words.specs.Words.{derive_app, audit_app, trace_app, replay_app, top_app, check_commands};
ghost use Rattle.command_words.specs.Words.{file_commands, machine_commands, run_commands, line_commands};
ghost use Rattle.command_words.specs.Words.{proof_commands, paper_commands, command_app};

use clap::builder::ValueParser;
use clap::{Arg, ArgAction, Command};
use fip_language::limits;
use std::alloc::{AllocError, Global};

/// The most calls that a run is given.
pub const MOST_CALLS: u64 = limits::MOST_CALLS;

/// The most frames beside the entry's that a run is given, as numbers of the command line are.
pub const MOST_FRAMES: u64 = limits::MOST_FRAMES as u64;

/// The most words of a store, as numbers of the command line are.
pub const MOST_WORDS: u64 = limits::MOST_STORE_WORDS as u64;

/// The greatest seed.
pub const MOST_SEED: u64 = 2_147_483_647;

/// The most keys that are made of a seed.
pub const MOST_COUNT: u64 = 100_000;

/// The most turns of tasks.
pub const MOST_TURNS: u64 = 1_000_000;

/// The greatest step at which a trace is replayed.
pub const MOST_STEP: u64 = 1_000_000_000_000_000_000;

// A word that must stand there.
fn word_arg<'a>(alloc: Global, id: &'a str) -> Arg<'a>
    ensures rule { rule_of result ≡ word id.entry.now }
    ensures local { result.global ≡ false }
{
    Arg::new(alloc, id).required(true)
}

// A number that must stand there.
fn number_arg<'a>(alloc: Global, id: &'a str, least: u64, most: u64) -> Arg<'a>
    ensures rule { rule_of result ≡ number_word id.entry.now least most }
    ensures local { result.global ≡ false }
{
    Arg::new(alloc, id)
        .required(true)
        .value_parser(ValueParser::unsigned(least, most))
}

// An option with a number.
fn option_arg<'a>(alloc: Global, id: &'a str, most: u64, preset: &'a str) -> Arg<'a>
    ensures rule { rule_of result ≡ number_option id.entry.now most preset.entry.now }
    ensures local { result.global ≡ false }
{
    Arg::new(alloc, id)
        .long(id)
        .value_parser(ValueParser::unsigned(0, most))
        .default_value(preset)
}

// A flag.
fn flag_arg<'a>(alloc: Global, id: &'a str) -> Arg<'a>
    ensures rule { rule_of result ≡ flag id.entry.now }
    ensures local { result.global ≡ false }
{
    Arg::new(alloc, id).long(id).action(ArgAction::SetTrue)
}

// A command without help.
fn bare_command<'a>(alloc: Global, name: &'a str) -> Command<'a>
    ensures shape { app_of result ≡ bare name.entry.now }
    ensures local { (out-Command result).has_globals ≡ false }
{
    Command::new(alloc, name).disable_help_flag(true)
}

// A command with one word.
fn one_word_command<'a>(
    alloc: Global,
    name: &'a str,
    first: &'a str,
) -> Result<Command<'a>, AllocError>
    ensures shape { IfOk result (λ c. app_of c ≡ one_word name.entry.now first.entry.now) }
    ensures local { IfOk result (λ c. (out-Command c).has_globals ≡ false) }
{
    bare_command(alloc, name).arg(word_arg(alloc, first))
}

// A command with two words.
fn two_words_command<'a>(
    alloc: Global,
    name: &'a str,
    first: &'a str,
    second: &'a str,
) -> Result<Command<'a>, AllocError>
    ensures shape { IfOk result (λ c. app_of c ≡ two_words name.entry.now first.entry.now second.entry.now) }
    ensures local { IfOk result (λ c. (out-Command c).has_globals ≡ false) }
{
    one_word_command(alloc, name, first)?.arg(word_arg(alloc, second))
}

// A command with one more option with a number.
fn with_option<'a>(
    alloc: Global,
    base: Command<'a>,
    id: &'a str,
    most: u64,
    preset: &'a str,
) -> Result<Command<'a>, AllocError>
    requires local { (out-Command base).has_globals ≡ false }
    ensures shape { IfOk result (λ c. app_of c ≡ with_rule (app_of base.entry)
        (number_option id.entry.now most preset.entry.now)) }
    ensures local { IfOk result (λ c. (out-Command c).has_globals ≡ false) }
{
    base.arg(option_arg(alloc, id, most, preset))
}

// The option of the calls of a run.
fn with_calls_option<'a>(alloc: Global, base: Command<'a>) -> Result<Command<'a>, AllocError>
    requires local { (out-Command base).has_globals ≡ false }
    ensures shape { IfOk result (λ c. app_of c ≡ with_calls (app_of base.entry)) }
    ensures local { IfOk result (λ c. (out-Command c).has_globals ≡ false) }
{
    with_option(alloc, base, "calls", MOST_CALLS, "1000000000")
}

// The option of the frames of a run.
fn with_frames_option<'a>(alloc: Global, base: Command<'a>) -> Result<Command<'a>, AllocError>
    requires local { (out-Command base).has_globals ≡ false }
    ensures shape { IfOk result (λ c. app_of c ≡ with_frames (app_of base.entry)) }
    ensures local { IfOk result (λ c. (out-Command c).has_globals ≡ false) }
{
    with_option(alloc, base, "frames", MOST_FRAMES, "10000")
}

// The option of the words of a store.
fn with_store_option<'a>(alloc: Global, base: Command<'a>) -> Result<Command<'a>, AllocError>
    requires local { (out-Command base).has_globals ≡ false }
    ensures shape { IfOk result (λ c. app_of c ≡ with_words (app_of base.entry)) }
    ensures local { IfOk result (λ c. (out-Command c).has_globals ≡ false) }
{
    with_option(alloc, base, "words", MOST_WORDS, "1048576")
}

// The options of a run.
fn with_room_options<'a>(alloc: Global, base: Command<'a>) -> Result<Command<'a>, AllocError>
    requires local { (out-Command base).has_globals ≡ false }
    ensures shape { IfOk result (λ c. app_of c ≡ with_room (app_of base.entry)) }
    ensures local { IfOk result (λ c. (out-Command c).has_globals ≡ false) }
{
    let calls = with_calls_option(alloc, base)?;
    let frames = with_frames_option(alloc, calls)?;
    with_store_option(alloc, frames)
}

fn check_command<'a>(alloc: Global) -> Result<Command<'a>, AllocError>
    ensures shape { IfOk result (λ c. app_of c ≡ check_app) }
    ensures local { IfOk result (λ c. (out-Command c).has_globals ≡ false) }
{
    one_word_command(alloc, "check", "FILE")
}

fn compile_command<'a>(alloc: Global) -> Result<Command<'a>, AllocError>
    ensures shape { IfOk result (λ c. app_of c ≡ compile_app) }
    ensures local { IfOk result (λ c. (out-Command c).has_globals ≡ false) }
{
    two_words_command(alloc, "compile", "FILE", "OUT")
}

fn verify_command<'a>(alloc: Global) -> Result<Command<'a>, AllocError>
    ensures shape { IfOk result (λ c. app_of c ≡ verify_app) }
    ensures local { IfOk result (λ c. (out-Command c).has_globals ≡ false) }
{
    one_word_command(alloc, "verify", "FILE")
}

fn upgrade_command<'a>(alloc: Global) -> Result<Command<'a>, AllocError>
    ensures shape { IfOk result (λ c. app_of c ≡ upgrade_app) }
    ensures local { IfOk result (λ c. (out-Command c).has_globals ≡ false) }
{
    two_words_command(alloc, "upgrade", "FILE", "OUT")
}

fn exec_command<'a>(alloc: Global) -> Result<Command<'a>, AllocError>
    ensures shape { IfOk result (λ c. app_of c ≡ exec_app) }
    ensures local { IfOk result (λ c. (out-Command c).has_globals ≡ false) }
{
    let words = two_words_command(alloc, "exec", "FILE", "ENTRY")?;
    let room = with_room_options(alloc, words)?;
    room.arg(flag_arg(alloc, "gauge"))
}

fn run_command<'a>(alloc: Global) -> Result<Command<'a>, AllocError>
    ensures shape { IfOk result (λ c. app_of c ≡ run_app) }
    ensures local { IfOk result (λ c. (out-Command c).has_globals ≡ false) }
{
    let words = two_words_command(alloc, "run", "FILE", "ENTRY")?;
    let room = with_room_options(alloc, words)?;
    room.arg(flag_arg(alloc, "gauge"))
}

fn eval_command<'a>(alloc: Global) -> Result<Command<'a>, AllocError>
    ensures shape { IfOk result (λ c. app_of c ≡ eval_app) }
    ensures local { IfOk result (λ c. (out-Command c).has_globals ≡ false) }
{
    let words = two_words_command(alloc, "eval", "FILE", "ENTRY")?;
    let calls = with_calls_option(alloc, words)?;
    with_frames_option(alloc, calls)
}

fn trace_command<'a>(alloc: Global) -> Result<Command<'a>, AllocError>
    ensures shape { IfOk result (λ c. app_of c ≡ trace_app) }
    ensures local { IfOk result (λ c. (out-Command c).has_globals ≡ false) }
{
    let words = two_words_command(alloc, "trace", "FILE", "ENTRY")?;
    let out = words.arg(word_arg(alloc, "OUT"))?;
    with_room_options(alloc, out)
}

fn session_command<'a>(alloc: Global) -> Result<Command<'a>, AllocError>
    ensures shape { IfOk result (λ c. app_of c ≡ session_app) }
    ensures local { IfOk result (λ c. (out-Command c).has_globals ≡ false) }
{
    let words = one_word_command(alloc, "session", "FILE")?;
    with_room_options(alloc, words)
}

fn tasks_words_command<'a>(alloc: Global) -> Result<Command<'a>, AllocError>
    ensures shape { IfOk result (λ c. app_of c ≡ tasks_words_app) }
    ensures local { IfOk result (λ c. (out-Command c).has_globals ≡ false) }
{
    let file = one_word_command(alloc, "tasks", "FILE")?;
    let seed = file.arg(number_arg(alloc, "SEED", 0, MOST_SEED))?;
    seed.arg(number_arg(alloc, "TURNS", 0, MOST_TURNS))
}

fn tasks_command<'a>(alloc: Global) -> Result<Command<'a>, AllocError>
    ensures shape { IfOk result (λ c. app_of c ≡ tasks_app) }
    ensures local { IfOk result (λ c. (out-Command c).has_globals ≡ false) }
{
    let words = tasks_words_command(alloc)?;
    with_room_options(alloc, words)
}

fn derive_command<'a>(alloc: Global) -> Result<Command<'a>, AllocError>
    ensures shape { IfOk result (λ c. app_of c ≡ derive_app) }
    ensures local { IfOk result (λ c. (out-Command c).has_globals ≡ false) }
{
    two_words_command(alloc, "derive", "FILE", "OUT")
}

fn audit_command<'a>(alloc: Global) -> Result<Command<'a>, AllocError>
    ensures shape { IfOk result (λ c. app_of c ≡ audit_app) }
    ensures local { IfOk result (λ c. (out-Command c).has_globals ≡ false) }
{
    two_words_command(alloc, "audit", "FILE", "PROOF")
}

fn replay_command<'a>(alloc: Global) -> Result<Command<'a>, AllocError>
    ensures shape { IfOk result (λ c. app_of c ≡ replay_app) }
    ensures local { IfOk result (λ c. (out-Command c).has_globals ≡ false) }
{
    let trace = one_word_command(alloc, "replay", "TRACE")?;
    trace.arg(number_arg(alloc, "STEP", 0, MOST_STEP))
}

fn library_command<'a>(alloc: Global) -> Result<Command<'a>, AllocError>
    ensures shape { IfOk result (λ c. app_of c ≡ library_app) }
    ensures local { IfOk result (λ c. (out-Command c).has_globals ≡ false) }
{
    one_word_command(alloc, "library", "NAME")
}

fn gen_command<'a>(alloc: Global) -> Result<Command<'a>, AllocError>
    ensures shape { IfOk result (λ c. app_of c ≡ gen_app) }
    ensures local { IfOk result (λ c. (out-Command c).has_globals ≡ false) }
{
    let seed = bare_command(alloc, "gen").arg(number_arg(alloc, "SEED", 0, MOST_SEED))?;
    seed.arg(number_arg(alloc, "COUNT", 1, MOST_COUNT))
}

fn top_command<'a>(alloc: Global) -> Command<'a>
    ensures shape { app_of result ≡ top_app }
{
    Command::new(alloc, "fp2")
        .disable_help_flag(true)
        .disable_help_subcommand(true)
        .subcommand_required(true)
}

// The commands that check a source.
#[tactic(auto, unfolding(crate::specs::Words::check_commands))]
fn with_check_commands<'a>(alloc: Global) -> Result<Command<'a>, AllocError>
    ensures shape { IfOk result (λ c. app_of c ≡ check_commands) }
{
    let check = top_command(alloc).subcommand(check_command(alloc)?)?;
    check.subcommand(compile_command(alloc)?)
}

// And those over code files.
#[tactic(auto, unfolding(crate::specs::Words::file_commands))]
fn with_file_commands<'a>(alloc: Global) -> Result<Command<'a>, AllocError>
    ensures shape { IfOk result (λ c. app_of c ≡ file_commands) }
{
    let verify = with_check_commands(alloc)?.subcommand(verify_command(alloc)?)?;
    verify.subcommand(upgrade_command(alloc)?)
}

// And those that run a program on the machine.
#[tactic(auto, unfolding(crate::specs::Words::machine_commands))]
fn with_machine_commands<'a>(alloc: Global) -> Result<Command<'a>, AllocError>
    ensures shape { IfOk result (λ c. app_of c ≡ machine_commands) }
{
    let exec = with_file_commands(alloc)?.subcommand(exec_command(alloc)?)?;
    exec.subcommand(run_command(alloc)?)
}

// And the others that run a program.
#[tactic(auto, unfolding(crate::specs::Words::run_commands))]
fn with_run_commands<'a>(alloc: Global) -> Result<Command<'a>, AllocError>
    ensures shape { IfOk result (λ c. app_of c ≡ run_commands) }
{
    let eval = with_machine_commands(alloc)?.subcommand(eval_command(alloc)?)?;
    eval.subcommand(trace_command(alloc)?)
}

// And those that read lines.
#[tactic(auto, unfolding(crate::specs::Words::line_commands))]
fn with_line_commands<'a>(alloc: Global) -> Result<Command<'a>, AllocError>
    ensures shape { IfOk result (λ c. app_of c ≡ line_commands) }
{
    let session = with_run_commands(alloc)?.subcommand(session_command(alloc)?)?;
    session.subcommand(tasks_command(alloc)?)
}

// And those over derivations.
#[tactic(auto, unfolding(crate::specs::Words::proof_commands))]
fn with_proof_commands<'a>(alloc: Global) -> Result<Command<'a>, AllocError>
    ensures shape { IfOk result (λ c. app_of c ≡ proof_commands) }
{
    let derive = with_line_commands(alloc)?.subcommand(derive_command(alloc)?)?;
    derive.subcommand(audit_command(alloc)?)
}

// And those that print what is stored.
#[tactic(auto, unfolding(crate::specs::Words::paper_commands))]
fn with_paper_commands<'a>(alloc: Global) -> Result<Command<'a>, AllocError>
    ensures shape { IfOk result (λ c. app_of c ≡ paper_commands) }
{
    let replay = with_proof_commands(alloc)?.subcommand(replay_command(alloc)?)?;
    replay.subcommand(library_command(alloc)?)
}

/// The whole command line; an error where no memory is left.
pub fn command<'a>(alloc: Global) -> Result<Command<'a>, AllocError>
    ensures shape { IfOk result (λ c. app_of c ≡ command_app) }
{
    with_paper_commands(alloc)?.subcommand(gen_command(alloc)?)
}
