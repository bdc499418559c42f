// A run on the machine.
ghost use Rattle.std.specs.Prelude.{◌≡◌, ◌≤◌, ◌++◌, ℕ, List, Option, Some, length, slice_get, is_some, true};
ghost use Rattle.std.specs.Prelude.{IfOk, IfErr, IfSome};
ghost use Rattle.fip_language.specs.declared.limits.TheConstants.{MOST_FILE_BYTES};
ghost use Rattle.fip_language.specs.PrintedText.{printed_lines};
ghost use Rattle.fip_language.specs.Values.{Values};
ghost use Rattle.fip_base.specs.declared.plain.Stack.{Stack as a_stack};
ghost use Rattle.fip_machine.specs.cell_code.declared.code.Function.{Function as a_function};
ghost use Rattle.command_words.specs.View.{room_of};
ghost use Rattle.command_outcome.specs.Stages.{IsOfRun};
ghost use Rattle.fip_machine.specs.machine_cells.Small.{IsSmall};
ghost use Rattle.fip_machine.specs.cell_code.Plain.{plain};
ghost use Rattle.command_eval.specs.machine_correctness.code_rules.StackNumbers.{HasStack};
ghost use Rattle.command_eval.specs.machine_correctness.Meant.{ArePrintable};
ghost use Rattle.command_eval.specs.command_source.Entries.{IsFunctionOf};
ghost use Rattle.command_eval.specs.command_source.ProgramCode.{IsEntryOf};
ghost use Rattle.command_eval.specs.command_source.Wanted.{Compiled, IsReady};
ghost use Rattle.command_eval.specs.EvalAnswer.{OrNoMemory};
ghost use Rattle.command_run.specs.CodeRun.{is_run_end, RunsCode};
ghost use Rattle.command_run.specs.ExecAnswer.{Execs};
ghost use Rattle.command_run.specs.GaugeText.{if_asked};
ghost use Rattle.command_run.specs.Leaving.{IsLeftBy, IsLastStore};
ghost use Rattle.command_run.specs.Starting.{failure_for, gauge_lines, ReportsEnded};

use crate::loading::{bound_of, started};
use crate::printing::{put_gauge, values_text};
use cell_store::Sealed;
use code_verify::Verified;
use command_eval::source::Ready;
use command_outcome::Failure;
use fip_base::plain::NoMemory;
use fip_base::table::TypeTable;
use fip_language::limits::MOST_FILE_BYTES;
use fip_machine::{Ended, Gauge, Machine};
use fip_room::Room;
use std::alloc::Global;

/// The types of the code.
pub fn types_of(ready: &Ready) -> &TypeTable
    ensures same { result.now ≡ ready.now.checked.code.types }
{
    &ready.verified().code().types
}

/// What keeps a run that ended so from its value; none where it ended with one.
pub fn failure_of(ended: Ended, calls: u64, frames: usize) -> Option<Failure>
    ensures exact { result ≡ failure_for ended calls frames }
    ensures stage { IfSome result IsOfRun }
{
    match ended {
        Ended::Value => None,
        Ended::Trap { kind, line, col } => Some(Failure::Trap { kind, line, col }),
        Ended::Out => Some(Failure::OutOfCalls { given: calls }),
        Ended::Deep => Some(Failure::OutOfFrames { given: frames }),
    }
}

// The lines of the results of a run that ended with a value, and after them the gauge's where they are asked for.
fn results_text(
    alloc: Global,
    ready: &Ready,
    machine: &Machine<'_>,
    seen: &Gauge,
    gauge: bool,
) -> Result<Vec<u8>, NoMemory>
    ensures lines { (f : a_function) (held : Option a_stack) (vs : Values) →
        slice_get ready.now.checked.code.functions.items ready.now.entry ≡ Some f →
        HasStack (plain ready.now.checked.code) ready.now.entry held → IsSmall machine.now.store.cells →
        ArePrintable ready.now.checked.code.types machine.now.store.cells f.results machine.now.stack.given vs →
        IfOk result (λ text. text.items ≡ printed_lines ready.now.checked.code.types f.results vs
        ++ if_asked gauge (gauge_lines seen.now held)) }
{
    let types = ready.function().results.as_slice();
    let words = machine.results();
    let mut text = values_text(alloc, types_of(ready), machine.cells(), types, words)?;
    if gauge {
        put_gauge(alloc, &mut text, seen, bound_of(ready))?;
    }
    Ok(text)
}

// How a run ended, reported.
fn reported(
    alloc: Global,
    ready: &Ready,
    machine: &Machine<'_>,
    ended: Ended,
    seen: &Gauge,
    room: Room,
    gauge: bool,
) -> Result<Vec<u8>, Failure>
    ensures reports { (f : a_function) (held : Option a_stack) →
        slice_get ready.now.checked.code.functions.items ready.now.entry ≡ Some f →
        HasStack (plain ready.now.checked.code) ready.now.entry held → IsSmall machine.now.store.cells →
        OrNoMemory (ReportsEnded ready.now.checked.code.types f.results (room_of room)
        (if_asked gauge (gauge_lines seen.now held)) machine.now.store machine.now.stack.given ended) result }
    ensures stage { IfErr result IsOfRun }
{
    match failure_of(ended, room.calls, room.frames) {
        Some(failure) => Err(failure),
        None => Ok(results_text(alloc, ready, machine, seen, gauge)?),
    }
}

// Whether a run ended with it: with values, in a trap, or out of calls or of frames.
fn is_run_end(end: &Result<Vec<u8>, Failure>) -> bool
    ensures is { result ≡ is_run_end end.now }
{
    match end {
        Ok(_) => true,
        Err(Failure::Trap { .. }) => true,
        Err(Failure::OutOfCalls { .. }) => true,
        Err(Failure::OutOfFrames { .. }) => true,
        Err(_) => false,
    }
}

/// What a run leaves to a host that reads the store: the code that ran, and the cells as its run left them.
#[derive(Drop)]
pub struct Left {
    pub verified: Verified,
    pub cells: Sealed,
}

/// Hands the code that ran, and the cells as its run left them, to a host; none where no run left any.
pub fn leave(ready: Ready, cells: Option<Sealed>, left: &mut Option<Left>)
    ensures left { IfSome left.new (λ l. (l.verified ≡ ready.checked) × (cells ≡ Some l.cells)) }
    ensures some { is_some left.new ≡ is_some cells }
{
    *left = match cells {
        Some(cells) => Some(Left {
            verified: ready.into_verified(),
            cells,
        }),
        None => None,
    };
}

// Whether the input is within what the command line takes.
fn is_short(input: &[u8]) -> bool
    ensures { result ≡ true → length input.now ≤ MOST_FILE_BYTES }
{
    input.len() <= MOST_FILE_BYTES
}

// Runs the function as `run` does, and hands out the cells as its run left them: just where a run ended, with values,
// in a trap, or out of calls or of frames.
fn run_leaving(
    alloc: Global,
    ready: &Ready,
    input: &[u8],
    room: Room,
    gauge: bool,
) -> (Result<Vec<u8>, Failure>, Option<Sealed>)
    ensures means { (source name : List ℕ) → IsReady source (Compiled name) → IsEntryOf source name ready.now →
        length input.now ≤ MOST_FILE_BYTES →
        OrNoMemory (Execs source name input.now (room_of room) gauge) result.0 }
    ensures runs { (bytes name : List ℕ) → IsFunctionOf bytes name ready.now →
        length input.now ≤ MOST_FILE_BYTES → OrNoMemory (RunsCode bytes name input.now (room_of room) gauge) result.0 }
    ensures meant { (source name : List ℕ) → IsReady source (Compiled name) → IsEntryOf source name ready.now →
        length input.now ≤ MOST_FILE_BYTES →
        IfSome result.1 (IsLastStore ready.now input.now (room_of room)) }
    ensures coded { (bytes name : List ℕ) → IsFunctionOf bytes name ready.now →
        length input.now ≤ MOST_FILE_BYTES → IfSome result.1 (IsLastStore ready.now input.now (room_of room)) }
    ensures some { is_some result.1 ≡ is_run_end result.0 }
    ensures stage { IfErr result.0 IsOfRun }
{
    prove!(ready.entry() < ready.verified().code().functions.len());
    let mut machine = match started(alloc, ready, input, room) {
        Ok(machine) => machine,
        Err(failure) => return (Err(failure), None),
    };
    let mut seen = Gauge::new();
    let sure = is_short(input);
    let ended = machine.run_sure(sure, room.calls, &mut seen);
    let end = reported(alloc, ready, &machine, ended, &seen, room, gauge);
    if is_run_end(&end) {
        (end, Some(machine.into_sealed()))
    } else {
        (end, None)
    }
}

/// Runs the function on the text of its arguments: the lines of its results, with the gauge's after them where they
/// are asked for. A bad input where the bytes are no text of the parameters' types; else too small where the cells of
/// the input and of the header's credits need more words than the room has; else what the run ends with, where it isn't
/// a value: a trap, out of calls, or out of frames, which a fip function never is. The code and the cells are left just
/// where a run ended, with values or so.
pub fn run(
    alloc: Global,
    ready: Ready,
    input: &[u8],
    room: Room,
    gauge: bool,
    left: &mut Option<Left>,
) -> Result<Vec<u8>, Failure>
    // It is what the source means, where the code is that of a source,
    ensures means { (source name : List ℕ) → IsReady source (Compiled name) → IsEntryOf source name ready →
        length input.now ≤ MOST_FILE_BYTES →
        OrNoMemory (Execs source name input.now (room_of room) gauge) result }
    // and what the runs of the code end in, where it is that of a file.
    ensures runs { (bytes name : List ℕ) → IsFunctionOf bytes name ready →
        length input.now ≤ MOST_FILE_BYTES → OrNoMemory (RunsCode bytes name input.now (room_of room) gauge) result }
    // What is left is this code, and the cells of the last state of its run from where the input is loaded.
    ensures meant { (source name : List ℕ) → IsReady source (Compiled name) → IsEntryOf source name ready →
        length input.now ≤ MOST_FILE_BYTES →
        IfSome left.new (IsLeftBy ready input.now (room_of room)) }
    ensures coded { (bytes name : List ℕ) → IsFunctionOf bytes name ready →
        length input.now ≤ MOST_FILE_BYTES → IfSome left.new (IsLeftBy ready input.now (room_of room)) }
    // Something is left just where a run ended.
    ensures some { is_some left.new ≡ is_run_end result }
    ensures stage { IfErr result IsOfRun }
{
    let (end, cells) = run_leaving(alloc, &ready, input, room, gauge);
    leave(ready, cells, left);
    end
}
