// An evaluation on rows that never change.
ghost use Rattle.std.specs.Prelude.{◌≤◌, ℕ, List, length, IfErr};
ghost use Rattle.fip_language.specs.declared.limits.TheConstants.{MOST_FILE_BYTES};
ghost use Rattle.fip_language.specs.Meaning.{Answer};
ghost use Rattle.fip_language.specs.Values.{Values};
ghost use Rattle.command_source.specs.fip_trees.TreeView as V;
ghost use Rattle.plain_eval.specs.instance_semantics.Meaning.{flat_meaning};
ghost use Rattle.plain_rows.specs.Rows.{AreRows};
ghost use Rattle.plain_eval.specs.Ended.{IsEnd};
ghost use Rattle.command_source.specs.type_safety.Soundness.{IsSoundAnswer};
ghost use Rattle.command_outcome.specs.Stages.{IsOfRun};
ghost use Rattle.command_source.specs.Entries.{IsRootedIn};
ghost use Rattle.command_eval.specs.EvalAnswer.{Evaluates, OrNoMemory, Reports};

use crate::arguments::arguments;
use command_outcome::Failure;
use command_source::Evaluable;
use fip_base::plain::NoMemory;
use fip_base::table::TypeTable;
use plain_eval::{PlainEnded, Rows, eval, print_rows};
use std::alloc::Global;

// How an evaluation ended, reported.
fn reported(
    alloc: Global,
    types: &TypeTable,
    results: &[u32],
    ended: &PlainEnded,
    calls: u64,
    frames: usize,
) -> Result<Vec<u8>, Failure>
    ensures reports { (a : Answer) → IsEnd ended.now a → IsSoundAnswer types.now results.now a →
        OrNoMemory (Reports types.now results.now calls frames a) result }
    ensures stage { IfErr result IsOfRun }
{
    match ended {
        PlainEnded::Value(_) => match print_rows(alloc, types, results, ended) {
            Ok(text) => Ok(text),
            Err(NoMemory) => Err(Failure::NoMemory),
        },
        PlainEnded::Trap { kind, line, col } => Err(Failure::Trap {
            kind: *kind,
            line: *line,
            col: *col,
        }),
        PlainEnded::Out => Err(Failure::OutOfCalls { given: calls }),
        PlainEnded::Deep => Err(Failure::OutOfFrames { given: frames }),
    }
}

// What an instance means on arguments, reported.
fn evaluated(
    alloc: Global,
    program: &Evaluable,
    results: &[u32],
    rows: Rows,
    calls: u64,
    frames: usize,
) -> Result<Vec<u8>, Failure>
    ensures reports { (vs : Values) → AreRows rows vs → IsSoundAnswer program.now.typed.program.types results.now
        (flat_meaning (V.program program.now.typed.program) program.now.entry vs calls frames).answer →
        OrNoMemory (Reports program.now.typed.program.types results.now calls frames
        (flat_meaning (V.program program.now.typed.program) program.now.entry vs calls frames).answer) result }
    ensures stage { IfErr result IsOfRun }
{
    match eval(alloc, program.typed(), program.entry(), rows, calls, frames) {
        Ok(ended) => reported(
            alloc,
            &program.typed().program.types,
            results,
            &ended,
            calls,
            frames,
        ),
        Err(NoMemory) => Err(Failure::NoMemory),
    }
}

/// Evaluates the entry on the text of its arguments, with so many calls and frames: the lines of its results. A bad
/// input where the bytes are no text of the parameters' types; else what the evaluation ends with, where it isn't a
/// value: a trap, out of calls, or out of frames. Only more than 16,777,216 bytes may be too many for the store.
pub fn evaluate(
    alloc: Global,
    program: Evaluable,
    input: &[u8],
    calls: u64,
    frames: usize,
) -> Result<Vec<u8>, Failure>
    // It is what the source means, where the program is that of a source.
    ensures means { (source name : List ℕ) → IsRootedIn source name (V.program program.typed.program) program.entry →
        length input.now ≤ MOST_FILE_BYTES → OrNoMemory (Evaluates source name input.now calls frames) result }
    ensures stage { IfErr result IsOfRun }
{
    let types = &program.typed().program.types;
    let instance = program.instance();
    match arguments(alloc, types, instance.params.as_slice(), input) {
        Ok(rows) => evaluated(
            alloc,
            &program,
            instance.results.as_slice(),
            rows,
            calls,
            frames,
        ),
        Err(failure) => Err(failure),
    }
}
