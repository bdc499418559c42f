// The run that makes a tree, and what is reported of it.
ghost use Rattle.std.specs.Prelude.{◌≡◌, ◌⊎◌, ℕ, List, slice_get, is_some, Some, IfOk, IfErr, IfSome};
ghost use Rattle.fip_language.specs.Values.{Values};
ghost use Rattle.fip_machine.specs.cell_code.declared.code.Function.{Function as a_function};
ghost use Rattle.command_outcome.specs.Stages.{IsOfSource, IsOfRun};
ghost use Rattle.fip_machine.specs.machine_cells.Small.{IsSmall};
ghost use Rattle.command_tasks.specs.command_run.machine_correctness.Meant.{ArePrintable};
ghost use Rattle.command_tasks.specs.command_run.CodeRun.{is_run_end};
ghost use Rattle.command_tasks.specs.command_run.Leaving.{IsLastStore, LeavesOf};
ghost use Rattle.command_tasks.specs.command_run.command_source.ProgramCode.{IsEntryOf};
ghost use Rattle.command_tasks.specs.command_run.command_source.Wanted.{Compiled, IsReady};
ghost use Rattle.command_tasks.specs.command_run.command_eval.EvalAnswer.{OrNoMemory};
ghost use Rattle.command_library.specs.GenAnswer.{build, gen_room, tree_source, Makes, Generates};
ghost use Rattle.command_library.specs.MadeTree.{gen_input, keys_of_first, lines_of_keys, lines_of_results};
ghost use Rattle.command_library.specs.Reading.{ints};

use crate::arguments::arguments;
use crate::keys::{ends_of, first_keys};
use cell_store::Sealed;
use command_outcome::{Failure, tree_lines};
use command_tasks::runner::source::{Ready, exec_entry};
use command_tasks::runner::{Left, failure_of, leave, started, types_of};
use fip_base::plain::NoMemory;
use fip_language::limits::{MOST_FILE_BYTES, MOST_STORE_WORDS};
use fip_machine::{Gauge, Machine};
use fip_room::Room;
use library_sources::text;
use std::alloc::Global;

// The room of a run that makes a tree.
const CALLS: u64 = 1_000_000_000;

const FRAMES: usize = 10_000;

// The lines of a tree of so many keys, by the words of those of its nodes.
fn lines_of(alloc: Global, count: u64, keys: &[u64]) -> Result<Vec<u8>, NoMemory>
    ensures lines { IfOk result (λ v. v.items ≡ lines_of_keys count (ints keys.now)) }
{
    Ok(tree_lines(alloc, count, keys.len() as u64, ends_of(keys))?.into_bytes())
}

// The words of the keys of the tree that a run ended with.
fn run_keys(alloc: Global, ready: &Ready, machine: &Machine<'_>) -> Result<Vec<u64>, NoMemory>
    ensures keys { (f : a_function) (vs : Values) →
        slice_get ready.now.checked.code.functions.items ready.now.entry ≡ Some f → IsSmall machine.now.store.cells →
        ArePrintable ready.now.checked.code.types machine.now.store.cells f.results machine.now.stack.given vs →
        IfOk result (λ ks. ints ks.items ≡ keys_of_first vs) }
{
    let types = ready.function().results.as_slice();
    let words = machine.results();
    first_keys(alloc, types_of(ready), machine.cells(), types, words)
}

// The lines of that tree.
fn tree_of(
    alloc: Global,
    ready: &Ready,
    machine: &Machine<'_>,
    count: u64,
) -> Result<Vec<u8>, NoMemory>
    ensures lines { (f : a_function) (vs : Values) →
        slice_get ready.now.checked.code.functions.items ready.now.entry ≡ Some f → IsSmall machine.now.store.cells →
        ArePrintable ready.now.checked.code.types machine.now.store.cells f.results machine.now.stack.given vs →
        IfOk result (λ v. v.items ≡ lines_of_results count vs) }
{
    let keys = run_keys(alloc, ready, machine)?;
    lines_of(alloc, count, keys.as_slice())
}

// The lines of the tree that a run of the entry makes of so many keys of a seed, and the cells as the run left them:
// just where a run ended, with a tree, in a trap, or out of calls or of frames.
fn make(
    alloc: Global,
    ready: &Ready,
    seed: u64,
    count: u64,
) -> (Result<Vec<u8>, Failure>, Option<Sealed>)
    ensures makes { (source : List ℕ) → IsReady source (Compiled build) → IsEntryOf source build ready.now →
        OrNoMemory (Makes source seed count) result.0 }
    ensures meant { (source : List ℕ) → IsReady source (Compiled build) → IsEntryOf source build ready.now →
        IfSome result.1 (IsLastStore ready.now (gen_input seed count) gen_room) }
    ensures some { is_some result.1 ≡ is_run_end result.0 }
    ensures stage { IfErr result.0 IsOfRun }
{
    prove!(ready.entry() < ready.verified().code().functions.len());
    let input = match arguments(alloc, seed, count) {
        Ok(input) => input,
        Err(NoMemory) => return (Err(Failure::NoMemory), None),
    };
    if input.len() > MOST_FILE_BYTES {
        let at = MOST_FILE_BYTES;
        return (Err(Failure::BadInput { at }), None);
    }
    let room = Room {
        calls: CALLS,
        frames: FRAMES,
        words: MOST_STORE_WORDS,
    };
    let mut machine = match started(alloc, ready, input.as_slice(), room) {
        Ok(machine) => machine,
        Err(failure) => return (Err(failure), None),
    };
    let mut seen = Gauge::new();
    let ended = machine.run_sure(true, CALLS, &mut seen);
    match failure_of(ended, CALLS, FRAMES) {
        Some(failure) => (Err(failure), Some(machine.into_sealed())),
        None => match tree_of(alloc, ready, &machine, count) {
            Ok(text) => (Ok(text), Some(machine.into_sealed())),
            Err(NoMemory) => (Err(Failure::NoMemory), None),
        },
    }
}

/// The four lines of the red-black tree that is made of so many keys of a seed: how many keys and nodes, the least and
/// the greatest key. It is what `build` of the library's text `rbtree` gives for these keys, a pad for each, and no
/// node. That text is never refused; what keeps its run from a tree is reported as `exec` reports it. The code and the cells
/// are left just where a run ended, with a tree, in a trap, or out of calls or of frames.
pub fn generate(
    alloc: Global,
    seed: u64,
    count: u64,
    left: &mut Option<Left>,
) -> Result<Vec<u8>, Failure>
    ensures generates { OrNoMemory (Generates seed count) result }
    // What is left is a code of that text, and the cells of the last state of its run from where the keys are loaded.
    ensures left { IfSome left.new (LeavesOf (IsEntryOf tree_source build) (gen_input seed count) gen_room) }
    ensures some { is_some left.new ≡ is_run_end result }
    ensures stage { IfErr result (λ f. IsOfSource f ⊎ IsOfRun f) }
{
    *left = None;
    match text("rbtree") {
        Some(source) => match exec_entry(alloc, source.as_bytes(), "build") {
            Ok(ready) => {
                let (end, cells) = make(alloc, &ready, seed, count);
                leave(ready, cells, left);
                end
            }
            Err(failure) => Err(failure),
        },
        // The library has this text.
        None => unreachable!(),
    }
}
