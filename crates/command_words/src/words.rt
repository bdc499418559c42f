// What words ask for.
ghost use Rattle.std.specs.Prelude.{◌≡◌, ◌↔◌, IsTrue, ℕ, IfOk, IfSome, IsNone, Some, Err, map, string_bytes};
ghost use Rattle.std.specs.Prelude.{option_map, Bool, codes};
ghost use Rattle.clap.specs.Words.{found_of, rows_of, first_of, one_of, Row};
ghost use Rattle.command_words.specs.Words as W;
ghost use Rattle.command_words.specs.Words.{IsNumberIn, flag_text, IsRoom, AsksToRun, IsAsked, IsTextName, IsCommand};
ghost use Rattle.command_words.specs.View.{room_of, request_of, command_of};

use crate::commands::{
    MOST_CALLS, MOST_COUNT, MOST_FRAMES, MOST_SEED, MOST_STEP, MOST_TURNS, MOST_WORDS, command,
};
use clap::ArgMatches;
use clap::error::ErrorKind;
use fip_room::Room;
use std::alloc::Global;

/// A run of an entry of a file.
#[derive(Clone, Copy)]
pub struct RunRequest<'a> {
    /// The name of the file of the source or of the code.
    pub file: &'a str,
    /// The name of the function that is run.
    pub entry: &'a str,
    pub room: Room,
    /// Whether the gauge is printed.
    pub gauge: bool,
}

/// What words ask for. Files are names in the folder.
#[derive(Clone, Copy)]
pub enum Command<'a> {
    /// All rules of a source.
    Check {
        file: &'a str,
    },
    /// The code of a source, stored.
    Compile {
        file: &'a str,
        out: &'a str,
    },
    /// The rules of a code file.
    Verify {
        file: &'a str,
    },
    /// A code file, stored in the second version.
    Upgrade {
        file: &'a str,
        out: &'a str,
    },
    /// A run of a source.
    Exec {
        request: RunRequest<'a>,
    },
    /// A run of a code file.
    Run {
        request: RunRequest<'a>,
    },
    /// An evaluation on rows that never change, whose input is read into a store of as many words as one may have.
    Eval {
        file: &'a str,
        entry: &'a str,
        room: Room,
    },
    /// A run of a source, whose trace is stored.
    Trace {
        file: &'a str,
        entry: &'a str,
        out: &'a str,
        room: Room,
    },
    /// A talk with a source, line by line.
    Session {
        file: &'a str,
        room: Room,
    },
    /// Tasks of a source that take turns, drawn from a seed.
    Tasks {
        file: &'a str,
        seed: u64,
        turns: u64,
        room: Room,
    },
    /// The derivation of a source, stored.
    Derive {
        file: &'a str,
        out: &'a str,
    },
    /// Whether a proof file is a derivation of a source.
    Audit {
        file: &'a str,
        proof: &'a str,
    },
    /// The cells after so many steps of a trace.
    Replay {
        trace: &'a str,
        step: u64,
    },
    /// A text of the library.
    Library {
        name: &'a str,
    },
    /// The red-black tree of so many keys that are made of a seed.
    Gen {
        seed: u64,
        count: u64,
    },
}

/// Why there is no command.
#[derive(Clone, Copy, PartialEq, Eq)]
pub enum WordsError {
    /// The words aren't a command.
    NotUnderstood,
    /// There was no memory to read them.
    NoMemory,
}

// The number of an argument, in its range.
fn number_of(matches: &ArgMatches<'_>, id: &str, least: u64, most: u64) -> Option<u64>
    ensures some { IfSome result (λ n. IsNumberIn id.now least most (rows_of (found_of matches.now)) n) }
    ensures none { IsNone result → (n : ℕ) → IsNumberIn id.now least most (rows_of (found_of matches.now)) n → ⊥ }
{
    match matches.get_one::<u64>(id) {
        Some(n) if least <= n && n <= most => Some(n),
        _ => None,
    }
}

// Whether a flag stands there.
fn flag_of(matches: &ArgMatches<'_>, id: &str) -> Option<bool>
    ensures some { IfSome result (λ b. one_of id.now (rows_of (found_of matches.now)) ≡ Some (flag_text b)) }
    ensures none { IsNone result → (b : Bool) → one_of id.now (rows_of (found_of matches.now)) ≡ Some (flag_text b) →
        ⊥ }
{
    matches.get_one::<bool>(id)
}

// The first value of an argument.
fn text_of<'a>(matches: &ArgMatches<'a>, id: &str) -> Option<&'a str>
    ensures { option_map (λ s. s.now) result ≡ first_of id.now (rows_of (found_of matches.now)) }
{
    matches.get_str(id)
}

// The room of a run.
fn room_in(matches: &ArgMatches<'_>) -> Option<Room>
    ensures some { IfSome result (λ r. IsRoom (rows_of (found_of matches.now)) (room_of r)) }
    ensures none { IsNone result → (r : W.Room) → IsRoom (rows_of (found_of matches.now)) r → ⊥ }
{
    let calls = number_of(matches, "calls", 0, MOST_CALLS)?;
    let frames = number_of(matches, "frames", 0, MOST_FRAMES)?;
    let words = number_of(matches, "words", 0, MOST_WORDS)?;
    Room::new(calls, frames, words)
}

// What stands after `exec` or `run`.
fn run_request<'a>(matches: &ArgMatches<'a>) -> Option<RunRequest<'a>>
    ensures some { IfSome result (λ r. AsksToRun (rows_of (found_of matches.now)) (request_of r)) }
    ensures none { IsNone result → (r : W.Request) → AsksToRun (rows_of (found_of matches.now)) r → ⊥ }
{
    let file = text_of(matches, "FILE")?;
    let entry = text_of(matches, "ENTRY")?;
    let room = room_in(matches)?;
    let gauge = flag_of(matches, "gauge")?;
    Some(RunRequest {
        file,
        entry,
        room,
        gauge,
    })
}

// What stands after `check`.
fn check<'a>(matches: &ArgMatches<'a>) -> Option<Command<'a>>
    ensures some { IfSome result (λ c. IsAsked (rows_of (found_of matches.now)) (codes "check") (command_of c)) }
    ensures none { IsNone result → (c : W.Command) → IsAsked (rows_of (found_of matches.now)) (codes "check") c → ⊥ }
{
    let file = text_of(matches, "FILE")?;
    Some(Command::Check { file })
}

// What stands after `compile`.
fn compile<'a>(matches: &ArgMatches<'a>) -> Option<Command<'a>>
    ensures some { IfSome result (λ c. IsAsked (rows_of (found_of matches.now)) (codes "compile") (command_of c)) }
    ensures none { IsNone result → (c : W.Command) → IsAsked (rows_of (found_of matches.now)) (codes "compile") c → ⊥ }
{
    let file = text_of(matches, "FILE")?;
    let out = text_of(matches, "OUT")?;
    Some(Command::Compile { file, out })
}

// What stands after `verify`.
fn verify<'a>(matches: &ArgMatches<'a>) -> Option<Command<'a>>
    ensures some { IfSome result (λ c. IsAsked (rows_of (found_of matches.now)) (codes "verify") (command_of c)) }
    ensures none { IsNone result → (c : W.Command) → IsAsked (rows_of (found_of matches.now)) (codes "verify") c → ⊥ }
{
    let file = text_of(matches, "FILE")?;
    Some(Command::Verify { file })
}

// What stands after `upgrade`.
fn upgrade<'a>(matches: &ArgMatches<'a>) -> Option<Command<'a>>
    ensures some { IfSome result (λ c. IsAsked (rows_of (found_of matches.now)) (codes "upgrade") (command_of c)) }
    ensures none { IsNone result → (c : W.Command) → IsAsked (rows_of (found_of matches.now)) (codes "upgrade") c → ⊥ }
{
    let file = text_of(matches, "FILE")?;
    let out = text_of(matches, "OUT")?;
    Some(Command::Upgrade { file, out })
}

// What stands after `exec`.
fn exec<'a>(matches: &ArgMatches<'a>) -> Option<Command<'a>>
    ensures some { IfSome result (λ c. IsAsked (rows_of (found_of matches.now)) (codes "exec") (command_of c)) }
    ensures none { IsNone result → (c : W.Command) → IsAsked (rows_of (found_of matches.now)) (codes "exec") c → ⊥ }
{
    let request = run_request(matches)?;
    Some(Command::Exec { request })
}

// What stands after `run`.
fn run<'a>(matches: &ArgMatches<'a>) -> Option<Command<'a>>
    ensures some { IfSome result (λ c. IsAsked (rows_of (found_of matches.now)) (codes "run") (command_of c)) }
    ensures none { IsNone result → (c : W.Command) → IsAsked (rows_of (found_of matches.now)) (codes "run") c → ⊥ }
{
    let request = run_request(matches)?;
    Some(Command::Run { request })
}

// What stands after `eval`.
fn eval<'a>(matches: &ArgMatches<'a>) -> Option<Command<'a>>
    ensures some { IfSome result (λ c. IsAsked (rows_of (found_of matches.now)) (codes "eval") (command_of c)) }
    ensures none { IsNone result → (c : W.Command) → IsAsked (rows_of (found_of matches.now)) (codes "eval") c → ⊥ }
{
    let file = text_of(matches, "FILE")?;
    let entry = text_of(matches, "ENTRY")?;
    let calls = number_of(matches, "calls", 0, MOST_CALLS)?;
    let frames = number_of(matches, "frames", 0, MOST_FRAMES)?;
    let room = Room::new(calls, frames, MOST_WORDS)?;
    Some(Command::Eval { file, entry, room })
}

// What stands after `trace`.
fn trace<'a>(matches: &ArgMatches<'a>) -> Option<Command<'a>>
    ensures some { IfSome result (λ c. IsAsked (rows_of (found_of matches.now)) (codes "trace") (command_of c)) }
    ensures none { IsNone result → (c : W.Command) → IsAsked (rows_of (found_of matches.now)) (codes "trace") c → ⊥ }
{
    let file = text_of(matches, "FILE")?;
    let entry = text_of(matches, "ENTRY")?;
    let out = text_of(matches, "OUT")?;
    let room = room_in(matches)?;
    Some(Command::Trace {
        file,
        entry,
        out,
        room,
    })
}

// What stands after `session`.
fn session<'a>(matches: &ArgMatches<'a>) -> Option<Command<'a>>
    ensures some { IfSome result (λ c. IsAsked (rows_of (found_of matches.now)) (codes "session") (command_of c)) }
    ensures none { IsNone result → (c : W.Command) → IsAsked (rows_of (found_of matches.now)) (codes "session") c → ⊥ }
{
    let file = text_of(matches, "FILE")?;
    let room = room_in(matches)?;
    Some(Command::Session { file, room })
}

// What stands after `tasks`.
fn tasks<'a>(matches: &ArgMatches<'a>) -> Option<Command<'a>>
    ensures some { IfSome result (λ c. IsAsked (rows_of (found_of matches.now)) (codes "tasks") (command_of c)) }
    ensures none { IsNone result → (c : W.Command) → IsAsked (rows_of (found_of matches.now)) (codes "tasks") c → ⊥ }
{
    let file = text_of(matches, "FILE")?;
    let seed = number_of(matches, "SEED", 0, MOST_SEED)?;
    let turns = number_of(matches, "TURNS", 0, MOST_TURNS)?;
    let room = room_in(matches)?;
    Some(Command::Tasks {
        file,
        seed,
        turns,
        room,
    })
}

// What stands after `derive`.
fn derive<'a>(matches: &ArgMatches<'a>) -> Option<Command<'a>>
    ensures some { IfSome result (λ c. IsAsked (rows_of (found_of matches.now)) (codes "derive") (command_of c)) }
    ensures none { IsNone result → (c : W.Command) → IsAsked (rows_of (found_of matches.now)) (codes "derive") c → ⊥ }
{
    let file = text_of(matches, "FILE")?;
    let out = text_of(matches, "OUT")?;
    Some(Command::Derive { file, out })
}

// What stands after `audit`.
fn audit<'a>(matches: &ArgMatches<'a>) -> Option<Command<'a>>
    ensures some { IfSome result (λ c. IsAsked (rows_of (found_of matches.now)) (codes "audit") (command_of c)) }
    ensures none { IsNone result → (c : W.Command) → IsAsked (rows_of (found_of matches.now)) (codes "audit") c → ⊥ }
{
    let file = text_of(matches, "FILE")?;
    let proof = text_of(matches, "PROOF")?;
    Some(Command::Audit { file, proof })
}

// What stands after `replay`.
fn replay<'a>(matches: &ArgMatches<'a>) -> Option<Command<'a>>
    ensures some { IfSome result (λ c. IsAsked (rows_of (found_of matches.now)) (codes "replay") (command_of c)) }
    ensures none { IsNone result → (c : W.Command) → IsAsked (rows_of (found_of matches.now)) (codes "replay") c → ⊥ }
{
    let trace = text_of(matches, "TRACE")?;
    let step = number_of(matches, "STEP", 0, MOST_STEP)?;
    Some(Command::Replay { trace, step })
}

// Whether the library has a text of this name.
fn is_text_name(name: &str) -> bool
    ensures named { IsTrue result ↔ IsTextName name.now }
{
    name == "list" || name == "tree" || name == "rbtree" || name == "finger"
}

// What stands after `library`.
fn library<'a>(matches: &ArgMatches<'a>) -> Option<Command<'a>>
    ensures some { IfSome result (λ c. IsAsked (rows_of (found_of matches.now)) (codes "library") (command_of c)) }
    ensures none { IsNone result → (c : W.Command) → IsAsked (rows_of (found_of matches.now)) (codes "library") c → ⊥ }
{
    let name = text_of(matches, "NAME")?;
    if is_text_name(name) {
        Some(Command::Library { name })
    } else {
        None
    }
}

// What stands after `gen`.
fn generate<'a>(matches: &ArgMatches<'a>) -> Option<Command<'a>>
    ensures some { IfSome result (λ c. IsAsked (rows_of (found_of matches.now)) (codes "gen") (command_of c)) }
    ensures none { IsNone result → (c : W.Command) → IsAsked (rows_of (found_of matches.now)) (codes "gen") c → ⊥ }
{
    let seed = number_of(matches, "SEED", 0, MOST_SEED)?;
    let count = number_of(matches, "COUNT", 1, MOST_COUNT)?;
    Some(Command::Gen { seed, count })
}

// What stands after the name of a command; none where no command has the name, or it asks for something else.
fn asked<'a>(name: &str, matches: &ArgMatches<'a>) -> Option<Command<'a>>
    ensures some { IfSome result (λ c. IsAsked (rows_of (found_of matches.now)) name.now (command_of c)) }
    ensures none { IsNone result → (c : W.Command) → IsAsked (rows_of (found_of matches.now)) name.now c → ⊥ }
{
    match name {
        "check" => check(matches),
        "compile" => compile(matches),
        "verify" => verify(matches),
        "upgrade" => upgrade(matches),
        "exec" => exec(matches),
        "run" => run(matches),
        "eval" => eval(matches),
        "trace" => trace(matches),
        "session" => session(matches),
        "tasks" => tasks(matches),
        "derive" => derive(matches),
        "audit" => audit(matches),
        "replay" => replay(matches),
        "library" => library(matches),
        "gen" => generate(matches),
        _ => None,
    }
}

/// Reads the words of the command line; the first is the program's name.
/// NotUnderstood comes exactly where they are no command.
pub fn read_words<'a>(alloc: Global, words: &'a [String]) -> Result<Command<'a>, WordsError>
    ensures ok { IfOk result (λ c. IsCommand (map string_bytes words.now) (command_of c)) }
    ensures not_understood { result ≡ Err WordsError.NotUnderstood → (c : W.Command) →
        IsCommand (map string_bytes words.now) c → ⊥ }
{
    let Ok(command) = command(alloc) else {
        return Err(WordsError::NoMemory);
    };
    match command.try_get_matches_from(words) {
        Ok(matches) => {
            let Some((name, inner)) = matches.subcommand() else {
                return Err(WordsError::NotUnderstood);
            };
            match asked(name, inner) {
                Some(command) => Ok(command),
                None => Err(WordsError::NotUnderstood),
            }
        }
        Err(e) => match e.kind() {
            ErrorKind::OutOfMemory => Err(WordsError::NoMemory),
            _ => Err(WordsError::NotUnderstood),
        },
    }
}
