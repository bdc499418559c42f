// The text of a run: the lines of its results, and those of its gauge.
ghost use Rattle.std.specs.Prelude.{◌≡◌, ◌≤◌, ◌++◌, [], IfOk, OnOk};
ghost use Rattle.fip_language.specs.declared.limits.TheConstants.{MOST_FIELDS};
ghost use Rattle.fip_language.specs.PrintedText.{printed_lines};
ghost use Rattle.fip_language.specs.Values.{Values};
ghost use Rattle.fip_machine.specs.machine_cells.Small.{IsSmall};
ghost use Rattle.command_eval.specs.machine_correctness.Meant.{ArePrintable};
ghost use Rattle.command_run.specs.GaugeText.{size_line, stack_lines};
ghost use Rattle.command_run.specs.Starting.{gauge_lines, high_of, low_of, stack_of};

use cell_store::Sealed;
use command_outcome::{bound_line, cells_line, stack_line};
use fip_base::plain::{NoMemory, Stack};
use fip_base::table::TypeTable;
use fip_language::limits::MOST_FIELDS;
use fip_machine::Gauge;
use std::alloc::Global;
use value_text::print_after;

/// The lines of the values of these types that words stand for.
pub fn values_text(
    alloc: Global,
    table: &TypeTable,
    cells: &Sealed,
    types: &[u32],
    words: &[u64],
) -> Result<Vec<u8>, NoMemory>
    ensures lines { (vs : Values) → IsSmall cells.now.cells → ArePrintable table.now cells.now.cells types.now
        words.now vs → IfOk result (λ text. text.items ≡ printed_lines table.now types.now vs) }
{
    let mut text = Vec::new(alloc);
    for (ty, word) in types.iter().zip(words.iter()) {
        text = print_after(alloc, table, cells, *ty, *word, text)?;
        text.push(b'\n')?;
    }
    Ok(text)
}

// The gauge's line of a size, where there was a cell of that size.
fn put_size(alloc: Global, text: &mut Vec<u8>, gauge: &Gauge, size: usize) -> Result<(), NoMemory>
    requires some { 1 ≤ size }
    requires few { size ≤ MOST_FIELDS }
    ensures line { OnOk result (text.new.items
        ≡ text.old.items ++ size_line size (low_of gauge.now size) (high_of gauge.now size) []) }
{
    let high = gauge.highest(size);
    if high > 0 {
        let line = cells_line(alloc, size, gauge.lowest(size), high)?;
        text.extend_from_slice(line.as_bytes())?;
    }
    Ok(())
}

// The gauge's line of the stack, and that of its bound where it is known.
fn put_stack(
    alloc: Global,
    text: &mut Vec<u8>,
    gauge: &Gauge,
    bound: Option<Stack>,
) -> Result<(), NoMemory>
    ensures lines { OnOk result (text.new.items ≡ text.old.items ++ stack_lines (stack_of gauge.now) bound) }
{
    let stack = stack_line(alloc, gauge.frames(), gauge.words())?;
    text.extend_from_slice(stack.as_bytes())?;
    if let Some(bound) = bound {
        let line = bound_line(alloc, bound.frames, bound.words)?;
        text.extend_from_slice(line.as_bytes())?;
    }
    Ok(())
}

/// Puts the gauge's lines after a text, with the bound where it is known.
pub(crate) fn put_gauge(
    alloc: Global,
    text: &mut Vec<u8>,
    gauge: &Gauge,
    bound: Option<Stack>,
) -> Result<(), NoMemory>
    ensures lines { OnOk result (text.new.items ≡ text.old.items ++ gauge_lines gauge.now bound) }
{
    for smaller in 0..MOST_FIELDS {
        put_size(alloc, text, gauge, smaller + 1)?;
    }
    put_stack(alloc, text, gauge, bound)
}
