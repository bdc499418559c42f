// Runs whose writes to the cells are kept.
ghost use Rattle.std.specs.Prelude.{◌≡◌, ◌≢◌, ◌≤◌, ◌⊎◌, ℕ, List, length, slice_get, is_some, Err, Some, None, IfOk, IfErr, IfSome};
ghost use Rattle.fip_language.specs.declared.limits.TheConstants.{MOST_FILE_BYTES};
ghost use Rattle.fip_language.specs.declared.rule.Rule.TheVariants.{E75};
ghost use Rattle.fip_language.specs.PrintedText.{printed_lines};
ghost use Rattle.fip_language.specs.Values.{Values};
ghost use Rattle.fip_base.specs.declared.refusal.Refusal.{Refusal as a_refusal};
ghost use Rattle.fip_machine.specs.cell_code.declared.code.Function.{Function as a_function};
ghost use Rattle.command_words.specs.View.{room_of};
ghost use Rattle.command_outcome.specs.Stages.{IsOfRun, IsOfTrace};
ghost use Rattle.command_outcome.specs.declared.failure.Failure.TheVariants.{Refused};
ghost use Rattle.fip_machine.specs.declared.machine.Ended.TheVariants.{Value as a_value};
ghost use Rattle.trace_files.specs.run_loading.TraceText.{trace_text};
ghost use Rattle.fip_machine.specs.machine_cells.Small.{IsSmall};
ghost use Rattle.command_run.specs.machine_correctness.Meant.{ArePrintable};
ghost use Rattle.command_run.specs.CodeRun.{is_run_end};
ghost use Rattle.command_run.specs.Leaving.{IsLeftBy, IsLastStore};
ghost use Rattle.command_run.specs.Starting.{failure_for};
ghost use Rattle.fip_machine.specs.cell_code.Plain.{plain};
ghost use Rattle.command_run.specs.command_source.ProgramCode.{IsEntryOf};
ghost use Rattle.command_run.specs.command_source.Wanted.{Compiled as compiled_entry, IsReady};
ghost use Rattle.command_run.specs.source_report.Report.{bare};
ghost use Rattle.trace_files.specs.Plain.{plain_trace};
ghost use Rattle.command_trace.specs.TraceAnswer.{Traces, TracesRun, KeptOrNoMemory, code_of};

use cell_store::Sealed;
use cell_trace::{Trace, TraceError};
use code_verify::Verified;
use command_outcome::Failure;
use command_run::source::{Compiled, Ready};
use command_run::{Left, failure_of, started, types_of, values_text};
use fip_base::plain::{Detail, NoMemory};
use fip_base::refusal::{Refusal, Rule};
use fip_language::limits::MOST_FILE_BYTES;
use fip_machine::{Ended, Gauge, Machine};
use fip_room::Room;
use std::alloc::Global;
use trace_files::write_trace;

// The refusal of a trace that is too long.
fn too_long(alloc: Global) -> Failure
    ensures names { result ≡ Refused (bare E75) }
    ensures stage { IsOfTrace result }
{
    Failure::Refused(Refusal {
        rule: Rule::E75,
        place: None,
        size: 0,
        detail: Detail::new(Vec::new(alloc)),
    })
}

// What keeps a run that ended so from a value.
fn untraced(ended: Ended, room: Room) -> Failure
    requires { ended ≢ a_value }
    ensures exact { ended ≢ a_value → failure_for ended room.calls room.frames ≡ Some result }
    ensures stage { IsOfRun result }
{
    match failure_of(ended, room.calls, room.frames) {
        Some(failure) => failure,
        None => unreachable!(),
    }
}

// The file of a trace, and the lines of the results of its run.
fn traced_text(
    alloc: Global,
    ready: &Ready,
    machine: &Machine<'_>,
    trace: &Trace,
) -> Result<Compiled, NoMemory>
    ensures lines { (f : a_function) (vs : Values) →
        slice_get ready.now.checked.code.functions.items ready.now.entry ≡ Some f → IsSmall machine.now.store.cells →
        ArePrintable ready.now.checked.code.types machine.now.store.cells f.results machine.now.stack.given vs →
        IfOk result (λ c. c.text.items ≡ printed_lines ready.now.checked.code.types f.results vs) }
    ensures file { IfOk result (λ c. c.file.items ≡ trace_text (plain_trace trace.now)) }
{
    let types = ready.function().results.as_slice();
    let words = machine.results();
    let text = values_text(alloc, types_of(ready), machine.cells(), types, words)?;
    let file = write_trace(alloc, trace)?;
    Ok(Compiled { file, text })
}

// The trace of a run, as `trace` gives it, with the cells as the run left them: just where a run ended that isn't refused
// for its trace.
fn trace_leaving(
    alloc: Global,
    ready: &Ready,
    input: &[u8],
    room: Room,
) -> (Result<Compiled, Failure>, Option<Sealed>)
    ensures traces { (source name : List ℕ) → IsReady source (compiled_entry name) → IsEntryOf source name ready.now →
        length input.now ≤ MOST_FILE_BYTES →
        KeptOrNoMemory (Traces source name input.now (room_of room)) result.0 }
    ensures own { (source name : List ℕ) → IsReady source (compiled_entry name) → IsEntryOf source name ready.now →
        length input.now ≤ MOST_FILE_BYTES →
        TracesRun (plain ready.now.checked.code) ready.now.entry input.now (room_of room) result.0 }
    ensures meant { (source name : List ℕ) → IsReady source (compiled_entry name) → IsEntryOf source name ready.now →
        length input.now ≤ MOST_FILE_BYTES →
        IfSome result.1 (IsLastStore ready.now input.now (room_of room)) }
    ensures some { is_some result.1 ≡ is_run_end result.0 }
    ensures long { (r : a_refusal) → result.0 ≡ Err (Refused r) → r ≡ bare E75 }
    ensures stage { IfErr result.0 IsOfTrace }
{
    prove!(ready.entry() < ready.verified().code().functions.len());
    let machine = match started(alloc, ready, input, room) {
        Ok(machine) => machine,
        Err(failure) => return (Err(failure), None),
    };
    let mut seen = Gauge::new();
    match machine.run_traced(alloc, room.calls, &mut seen, MOST_FILE_BYTES) {
        Ok((machine, ended, trace)) => match trace {
            Some(trace) => match traced_text(alloc, ready, &machine, &trace) {
                Ok(compiled) => (Ok(compiled), Some(machine.into_sealed())),
                Err(NoMemory) => (Err(Failure::NoMemory), None),
            },
            None => (Err(untraced(ended, room)), Some(machine.into_sealed())),
        },
        Err(TraceError::TooLong) => (Err(too_long(alloc)), None),
        Err(TraceError::NoMemory) => (Err(Failure::NoMemory), None),
    }
}

// Leaves a code and the cells of its run; where the run left none, the code is handed out by itself.
fn leave_or_show(
    ready: Ready,
    cells: Option<Sealed>,
    left: &mut Option<Left>,
    made: &mut Option<Verified>,
)
    ensures left { IfSome left.new (λ l. (l.verified ≡ ready.checked) × (cells ≡ Some l.cells)) }
    ensures some { is_some left.new ≡ is_some cells }
    ensures code { code_of left.new made.new ≡ Some ready.checked }
    ensures apart { (left.new ≡ None) ⊎ (made.new ≡ None) }
{
    *left = None;
    *made = None;
    match cells {
        Some(cells) => {
            *left = Some(Left {
                verified: ready.into_verified(),
                cells,
            });
        }
        None => *made = Some(ready.into_verified()),
    }
}

/// Runs the entry on the text of its arguments, and keeps what it writes: the file of the trace, and the lines of the
/// results. The failures are those of `run`, and after them E75 where the run gives a value and its trace is too long:
/// its file would have more than 16,777,216 bytes, or there are more than 4,294,967,295 events or more steps than 64
/// bits count. The code and the cells are left as `run` leaves them. Where none are, as with E75, the code that ran is
/// handed out by itself.
pub fn trace(
    alloc: Global,
    ready: Ready,
    input: &[u8],
    room: Room,
    left: &mut Option<Left>,
    made: &mut Option<Verified>,
) -> Result<Compiled, Failure>
    ensures traces { (source name : List ℕ) → IsReady source (compiled_entry name) → IsEntryOf source name ready →
        length input.now ≤ MOST_FILE_BYTES →
        KeptOrNoMemory (Traces source name input.now (room_of room)) result }
    // The trace is that of the run of just this code on the input, from where its values are loaded.
    ensures own { (source name : List ℕ) → IsReady source (compiled_entry name) → IsEntryOf source name ready →
        length input.now ≤ MOST_FILE_BYTES →
        TracesRun (plain ready.checked.code) ready.entry input.now (room_of room) result }
    // What is left is this code, and the cells of the last state of this run.
    ensures meant { (source name : List ℕ) → IsReady source (compiled_entry name) → IsEntryOf source name ready →
        length input.now ≤ MOST_FILE_BYTES →
        IfSome left.new (IsLeftBy ready input.now (room_of room)) }
    ensures some { is_some left.new ≡ is_run_end result }
    ensures made { code_of left.new made.new ≡ Some ready.checked }
    ensures apart { (left.new ≡ None) ⊎ (made.new ≡ None) }
    ensures long { (r : a_refusal) → result ≡ Err (Refused r) → r ≡ bare E75 }
    ensures stage { IfErr result IsOfTrace }
{
    let (end, cells) = trace_leaving(alloc, &ready, input, room);
    leave_or_show(ready, cells, left, made);
    end
}
