// The lines of tasks that ended.
ghost use Rattle.std.specs.Prelude.{◌≡◌, ◌<◌, ◌++◌, ℕ, List, [], true, Some, codes, length, slice_get};
ghost use Rattle.std.specs.Prelude.{IfOk, OnOk, if◌then◌else◌, string_bytes};
ghost use Rattle.std.specs.Fmt.{decimal};
ghost use Rattle.fip_language.specs.Meaning.{Answer};
ghost use Rattle.fip_language.specs.Values.{Values};
ghost use Rattle.fip_tasks.specs.Turns.{Standing};
ghost use Rattle.fip_tasks.specs.machine_cells.Small.{IsSmall};
ghost use Rattle.command_session.specs.command_run.machine_correctness.Meant.{ArePrintable};
ghost use Rattle.command_session.specs.command_run.session_semantics.Turns.{joined};
ghost use Rattle.command_tasks.specs.Telling.{Answers, IsTaskLine, ReportsAnswer, result_types};

use cell_code::Code;
use cell_store::Sealed;
use command_session::runner::failure_of;
use fip_base::plain::NoMemory;
use fip_base::table::TypeTable;
use fip_machine::Ended;
use fip_tasks::{Start, Tasks};
use std::alloc::{AllocError, Global};
use value_text::print_after;

// A text with what separates values after it, unless none is before.
fn separated(text: Vec<u8>, is_first: bool) -> Result<Vec<u8>, NoMemory>
    ensures text { IfOk result (λ t. t.items ≡ text.items ++ (if is_first then [] else codes "; ")) }
{
    let mut text = text;
    if !is_first {
        text.extend_from_slice(b"; ")?;
    }
    Ok(text)
}

// The values of these types that words stand for, with `; ` between them.
fn values_text(
    alloc: Global,
    table: &TypeTable,
    cells: &Sealed,
    types: &[u32],
    words: &[u64],
) -> Result<Vec<u8>, NoMemory>
    ensures joined { (vs : Values) → IsSmall cells.now.cells → ArePrintable table.now cells.now.cells types.now
        words.now vs → IfOk result (λ t. t.items ≡ joined table.now types.now vs []) }
{
    let mut text = Vec::new(alloc);
    let mut is_first = true;
    for (ty, word) in types.iter().zip(words.iter()) {
        text = separated(text, is_first)?;
        text = print_after(alloc, table, cells, *ty, *word, text)?;
        is_first = false;
    }
    Ok(text)
}

// The types of the results of a function.
fn result_types(code: &Code, entry: usize) -> &[u32]
    ensures are { result.now ≡ result_types code.now entry }
{
    match code.functions.get(entry) {
        Some(function) => function.results.as_slice(),
        None => &[],
    }
}

// The results of a task, in a line.
fn results_text(
    alloc: Global,
    code: &Code,
    tasks: &Tasks,
    k: usize,
    entry: usize,
) -> Result<Vec<u8>, NoMemory>
    requires there { k < length tasks.now.tasks }
    ensures line { (a : Standing) (vs : Values) → slice_get tasks.now.tasks k ≡ Some a →
        IsSmall tasks.now.store.cells → ArePrintable code.now.types tasks.now.store.cells
        (result_types code.now entry) a.stack.given vs → IfOk result (λ t. t.items
        ≡ joined code.now.types (result_types code.now entry) vs [] ++ codes "\n") }
{
    let types = result_types(code, entry);
    let mut text = values_text(alloc, &code.types, tasks.cells(), types, tasks.results(k))?;
    text.push(b'\n')?;
    Ok(text)
}

// What is reported of a task that ended so.
fn answer_text(
    alloc: Global,
    code: &Code,
    tasks: &Tasks,
    k: usize,
    start: &Start,
    ended: Ended,
) -> Result<Vec<u8>, NoMemory>
    requires there { k < length tasks.now.tasks }
    ensures reports { (a : Standing) (m : Answer) → slice_get tasks.now.tasks k ≡ Some a →
        IsSmall tasks.now.store.cells → Answers code.now tasks.now start.now m a ended → IfOk result (λ t.
        ReportsAnswer code.now.types (result_types code.now start.now.entry) start.now.calls start.now.frames m t.items) }
{
    match failure_of(ended, start.calls, start.frames) {
        Some(failure) => failure.text(alloc),
        None => results_text(alloc, code, tasks, k, start.entry),
    }
}

// What is before what a task ends in.
fn number_text(alloc: Global, k: usize) -> Result<String, AllocError>
    ensures text { IfOk result (λ s. string_bytes s ≡ decimal k ++ codes ": ") }
{
    format!(in alloc; "{k}: ")
}

/// Puts the line of a task that ended so after a text: its number, and its results or the text of its end.
pub fn put_task(
    alloc: Global,
    code: &Code,
    tasks: &Tasks,
    k: usize,
    start: &Start,
    ended: Ended,
    out: &mut Vec<u8>,
) -> Result<(), NoMemory>
    requires there { k < length tasks.now.tasks }
    ensures line { (a : Standing) (m : Answer) → slice_get tasks.now.tasks k ≡ Some a →
        IsSmall tasks.now.store.cells → Answers code.now tasks.now start.now m a ended → OnOk result ((line : List ℕ)
        × IsTaskLine code.now k start.now m line × (out.new.items ≡ out.old.items ++ line)) }
{
    let number = number_text(alloc, k)?;
    out.extend_from_slice(number.as_bytes())?;
    let answer = answer_text(alloc, code, tasks, k, start, ended)?;
    out.extend_from_slice(answer.as_slice())?;
    Ok(())
}
