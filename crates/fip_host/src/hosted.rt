// A machine that owns its code.
ghost use Rattle.std.specs.Prelude.{◌≡◌, ◌<◌, ◌⊎◌, [], None, Err, replicate, slice_get, OnErr, OnOk, IfOk, IfSome};
ghost use Rattle.std.specs.Prelude.{Some};
ghost use Rattle.fip_language.specs.SoundTable.{IsSoundTable};
ghost use Rattle.fip_language.specs.declared.limits.TheConstants.{MOST_STORE_WORDS};
ghost use Rattle.cell_code.specs.Plain.{plain};
ghost use Rattle.code_verify.specs.Checked.{HasMachineInts};
ghost use Rattle.code_verify.specs.code_rules.Breaks.{IsSound};
ghost use Rattle.code_verify.specs.code_rules.Codes.{is_fip};
ghost use Rattle.fip_host.specs.Hosting.{Seen};
ghost use Rattle.fip_machine.specs.machine_cells.Small.{IsSmall};
ghost use Rattle.fip_host.specs.Telling.{IsFunction, frames_in, words_in};
ghost use Rattle.fip_host.specs.declared.answer.Refusal.{Refusal};
ghost use Rattle.fip_host.specs.declared.answer.Refusal.TheVariants.{NoMemory, OutOfRange};

mod cells;
pub mod runs;
mod values;

use crate::answer::{FipFunction, Refusal};
use cell_code::Function;
use cell_store::{Loader, Sealed, seal};
use code_verify::Verified;
use fip_base::plain::{FunKind, Stack};
use fip_language::limits::MOST_STORE_WORDS;
use fip_machine::{Gauge, Paused};
use std::alloc::Global;
use std::marker::Model;

/// A value that was kept from an earlier run: the number of its type, and its word.
#[derive(Clone, Copy)]
pub struct Kept {
    pub ty: u32,
    pub word: u64,
}

/// A verified code, a store, at most one run of a function of the code over the store, and the values that were kept.
#[derive(Drop)]
pub struct Hosted {
    verified: Verified,
    cells: Sealed,
    task: Option<Paused>,
    // Whether the run never comes to an instruction that can't be done, as one that began on a text.
    is_safe: bool,
    entry: usize,
    // Whether the results may be read: they aren't kept.
    is_open: bool,
    gauge: Gauge,
    kept: Vec<Option<Kept>>,
}

impl Model for Hosted {
    ghost use Rattle.std.specs.Prelude.{option_map};
    ghost use Rattle.fip_machine.specs.machine_cells.Small.{store_of};
    ghost use Rattle.fip_machine.specs.Pausing.{stand_of};
    ghost use Rattle.fip_host.specs.Hosting.{Seen, IsHosted};

    ghost Value = { Seen };

    ghost view = { λ h. record {
      code = h.verified;
      task = option_map (stand_of h.verified) h.task;
      store = store_of h.cells.cells h.cells.released;
      left = h.cells.left;
      gauge = h.gauge;
      entry = h.entry;
      is_open = h.is_open;
      kept = h.kept.items;
    } };

    ghost invariant = { λ h. IsHosted h.verified h.task h.cells.cells h.cells.released h.cells.pushed h.is_safe };
}

/// The store without a cell and without a word for one. It takes no memory.
pub fn no_cells(alloc: Global) -> Sealed
    ensures cells { result.cells ≡ [] }
    ensures released { result.released ≡ [] }
    ensures pushed { result.pushed ≡ [] }
    ensures left { result.left ≡ 0 }
{
    seal(Loader::new(alloc, 0))
}

/// The cells of a loader, which are few. It takes no memory.
pub fn sealed(loader: Loader) -> Sealed
    ensures cells { result.cells ≡ loader.cells }
    ensures released { result.released ≡ loader.released }
    ensures pushed { result.pushed ≡ [] }
    ensures left { result.left ≡ loader.left }
    ensures small { IsSmall result.cells }
{
    let _left = loader.left();
    seal(loader)
}

/// The function of a number.
pub fn function_in(verified: &Verified, number: usize) -> Option<&Function>
    ensures some { IfSome result (λ r. slice_get verified.now.code.functions.items number ≡ Some r.now) }
    ensures none { result ≡ None → slice_get verified.now.code.functions.items number ≡ None }
    ensures sound { IsSound (plain verified.now.code) }
    ensures literals { HasMachineInts (plain verified.now.code) }
{
    verified.code().functions.get(number)
}

impl Hosted {
    /// A machine of a code, with no store and no run. It takes no memory.
    pub fn of(alloc: Global, verified: Verified) -> Hosted
        requires table { IsSoundTable verified.code.types }
        ensures code { result.code ≡ verified }
        ensures task { result.task ≡ None }
        ensures cells { result.store.cells ≡ [] }
        ensures released { result.store.released ≡ [] }
        ensures left { result.left ≡ 0 }
        ensures kept { result.kept ≡ [] }
    {
        Hosted {
            verified,
            cells: no_cells(alloc),
            task: None,
            is_safe: false,
            entry: 0,
            is_open: false,
            gauge: Gauge::new(),
            kept: Vec::new(alloc),
        }
    }

    /// The code.
    pub fn verified(&self) -> &Verified
        ensures code { result.now ≡ self.now.code }
    {
        &self.verified
    }

    /// The function of a number.
    pub fn function(&self, number: usize) -> Option<&Function>
        ensures some { IfSome result (λ r. slice_get self.now.code.code.functions.items number ≡ Some r.now) }
        ensures none { result ≡ None → slice_get self.now.code.code.functions.items number ≡ None }
    {
        function_in(&self.verified, number)
    }

    /// What is reported of a function.
    pub fn reported(&self, number: usize) -> Option<FipFunction>
        ensures some { IfSome result (IsFunction self.now.code number) }
        ensures none { result ≡ None → slice_get self.now.code.code.functions.items number ≡ None }
    {
        let Some(function) = self.function(number) else {
            return None;
        };
        let stack = self.verified.code_stack(number);
        Some(FipFunction {
            fip: function.kind.is_fip(),
            parameters: function.params.as_slice().len(),
            credits: function.credits.as_slice().len(),
            results: function.results.as_slice().len(),
            frames: frames_in(stack),
            words: words_in(stack),
        })
    }

    /// A new store of so many words, at most 16,777,216, and room for so many kept values. What was in the store
    /// before, a run and what was kept are gone. All memory of the store is taken: no call that makes or releases a
    /// cell takes any.
    pub fn furnish(&mut self, alloc: Global, words: usize, kept: usize) -> Result<(), Refusal>
        ensures code { self.new.code ≡ self.old.code }
        ensures empty { OnOk result (self.new.store.cells ≡ []) }
        ensures left { OnOk result (self.new.left ≡ words) }
        ensures idle { OnOk result (self.new.task ≡ None) }
        ensures none { OnOk result (self.new.kept ≡ replicate kept None) }
        ensures same { OnErr result (self.new ≡ self.old) }
        ensures refused { (e : Refusal) → result ≡ Err e →
            (e ≡ NoMemory) ⊎ ((e ≡ OutOfRange) × (MOST_STORE_WORDS < words)) }
    {
        if words > MOST_STORE_WORDS {
            return Err(Refusal::OutOfRange);
        }
        let mut loader = Loader::new(alloc, words);
        loader.reserve(words)?;
        let book = no_values(alloc, kept)?;
        self.cells = sealed(loader);
        self.task = None;
        self.is_safe = false;
        self.gauge = Gauge::new();
        self.kept = book;
        Ok(())
    }
}

fn frames_in(stack: Option<Stack>) -> usize
    ensures is { result ≡ frames_in stack }
{
    match stack {
        Some(stack) => stack.frames,
        None => 0,
    }
}

fn words_in(stack: Option<Stack>) -> usize
    ensures is { result ≡ words_in stack }
{
    match stack {
        Some(stack) => stack.words,
        None => 0,
    }
}

// Room for so many values.
fn no_values(alloc: Global, kept: usize) -> Result<Vec<Option<Kept>>, Refusal>
    ensures none { IfOk result (λ v. v.items ≡ replicate kept None) }
    ensures err { (e : Refusal) → result ≡ Err e → e ≡ NoMemory }
{
    Ok(Vec::from_elem(alloc, None, kept)?)
}
