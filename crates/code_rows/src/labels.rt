// The label maps of a function, by instruction.
ghost use Rattle.std.specs.Prelude.{◌≡◌, Some, is_some, set, replicate, length, map, IfOk};
ghost use Rattle.cell_code.specs.Plain.{plain_label, plain_function};
ghost use Rattle.code_rules.specs.Codes.{label_at};
ghost use Rattle.code_rows.specs.Numbering.{IsNumber, AreNumbers, AreBelow};

use crate::alike::alike_or_own;
use cell_code::{Function, Label};
use fip_base::plain::NoMemory;
use std::alloc::Global;
use std::marker::Model;

/// The label maps of a function, and for each instruction that has one the number of one that says the same, so that
/// maps which say the same count as one where it is kept which of them were seen to fit.
#[derive(Drop)]
pub struct Labels<'a> {
    labels: &'a [Label],
    numbers: Vec<Option<usize>>,
}

impl<'a> Model for Labels<'a> {
    ghost use Rattle.std.specs.Prelude.{List, map};
    ghost use Rattle.cell_code.specs.Plain.{LabelMap, plain_label};
    ghost use Rattle.code_rows.specs.Numbering.{AreNumbers};

    ghost Value = { List LabelMap };

    ghost view = { λ v. map plain_label v.labels.now };

    ghost invariant = { λ v. AreNumbers (map plain_label v.labels.now) v.numbers.items };
}

impl<'a> Labels<'a> {
    /// Those of a function whose label maps are within it. NoMemory: no memory is left.
    pub fn of(alloc: Global, function: &'a Function) -> Result<Labels<'a>, NoMemory>
        requires within { AreBelow (length function.now.instrs.items) function.now.labels.items }
        ensures same { IfOk result (λ v. v ≡ (plain_function function.now).labels) }
    {
        let labels = function.labels.as_slice();
        let numbers = numbers_of(alloc, labels, function.instrs.len())?;
        Ok(Labels { labels, numbers })
    }

    /// The number of a label map that says what the one of an instruction says; none where it has none.
    pub fn find(&self, at: usize) -> Option<usize>
        ensures is { IsNumber self.now at result }
    {
        match self.numbers.get(at) {
            Some(number) => *number,
            None => None,
        }
    }

    /// Whether an instruction has a label map.
    #[tactic(auto, using(crate::proofs::Steps::is_numbered))]
    pub fn has(&self, at: usize) -> bool
        ensures is { result ≡ is_some (label_at self.now at) }
    {
        self.find(at).is_some()
    }
}

// For each of so many instructions the number of a label map that says what its own says: where those that follow one
// another say the same, the last of them.
fn numbers_of(alloc: Global, labels: &[Label], count: usize) -> Result<Vec<Option<usize>>, NoMemory>
    requires within { AreBelow count labels.now }
    ensures { IfOk result (λ v. AreNumbers (map plain_label labels.now) v.items) }
{
    let mut numbers = none_of(alloc, count)?;
    let mut alike = labels.len();
    for number in (0..labels.len()).rev() {
        alike = alike_or_own(labels, alike, number);
        put(&mut numbers, labels[number].at as usize, alike);
    }
    Ok(numbers)
}

// None has a label map.
fn none_of(alloc: Global, count: usize) -> Result<Vec<Option<usize>>, NoMemory>
    ensures { IfOk result (λ v. v.items ≡ replicate count None) }
{
    let mut numbers = Vec::new(alloc);
    numbers.resize(count, None)?;
    Ok(numbers)
}

fn put(numbers: &mut Vec<Option<usize>>, at: usize, number: usize)
    ensures { numbers.new.items ≡ set numbers.old.items at (Some number) }
{
    if at < numbers.len() {
        numbers[at] = Some(number);
    }
}
