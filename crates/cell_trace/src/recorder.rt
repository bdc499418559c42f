// A store that keeps what is written to it.
ghost use Rattle.std.specs.Prelude.{◌≡◌, ◌≢◌, ℕ, ◌+◌, ◌<◌, ◌≤◌, List, [], ◌∷◌, ◌++◌, IfSome, Some, None, IfOk, IfErr};
ghost use Rattle.std.specs.Prelude.{length, take};
ghost use Rattle.fip_base.specs.fip_language.Store.{Cell};
ghost use Rattle.cell_store.specs.Cells.{cell_at, size_in};
ghost use Rattle.cell_trace.specs.Traced.{Standing, Noted, IsTraced, standing_from};
ghost use Rattle.cell_trace.specs.Taped.{Recorded, IsTape, WasReported};

use crate::error::TraceError;
use crate::tape::Tape;
use crate::trace::{LoadedCell, Trace};
use cell_store::{Cells, Sealed};
use std::alloc::Global;
use std::marker::Model;

/// A sealed store with what was written to it, step by step. It is a store as the one in it, and calls on it do the
/// same. What can't be kept is noted and reported at the end, so that a run goes on as without it.
#[derive(Drop)]
pub struct Recorder {
    alloc: Global,
    cells: Sealed,
    tape: Tape,
}

impl Model for Recorder {
    ghost Value = { Recorded };

    ghost view = { λ r. record { store = r.cells; tape = r.tape } };
}

impl Recorder {
    /// The store before the first step, and the most bytes that the file of its trace may have. An error where no
    /// memory is left.
    pub fn new(alloc: Global, cells: Sealed, limit: usize) -> Result<Recorder, TraceError>
        ensures same { IfOk result (λ r. r.store ≡ cells) }
        ensures loaded { IfOk result (λ r. IsTape (standing_from 0 cells.cells) [] 0 limit r.tape) }
        ensures error { IfErr result (λ e. e ≡ TraceError.NoMemory) }
    {
        let mut recorder = Recorder {
            alloc,
            cells,
            tape: Tape::new(alloc, limit),
        };
        recorder.load()?;
        Ok(recorder)
    }

    // Keeps all cells as they are.
    fn load(&mut self) -> Result<(), TraceError>
        ensures same { self.new.store ≡ self.old.store }
        ensures loaded { IfOk result (λ _. (limit : ℕ) → IsTape [] [] 0 limit self.old.tape → IsTape (standing_from 0
            self.old.store.cells) [] 0 limit self.new.tape) }
        ensures error { IfErr result (λ e. e ≡ TraceError.NoMemory) }
    {
        let mut next = self.cells.after(None);
        while let Some(place) = next {
            self.load_cell(place)?;
            next = self.cells.after(Some(place));
        }
        Ok(())
    }

    // Keeps a cell as it is, unless the trace is lost.
    fn load_cell(&mut self, place: u32) -> Result<(), TraceError>
        requires there { cell_at self.old.store.cells place ≢ None }
        ensures same { self.new.store ≡ self.old.store }
        ensures loaded { IfOk result (λ _. (cells : List Standing) (limit : ℕ) → IsTape cells [] 0 limit self.old.tape →
            (c : Cell) → cell_at self.old.store.cells place ≡ Some c → IsTape (cells ++ record {
              place = place;
              cell =
                  c;
            } ∷ []) [] 0 limit self.new.tape) }
        ensures error { IfErr result (λ e. e ≡ TraceError.NoMemory) }
    {
        if self.tape.is_lost() {
            return Ok(());
        }
        let tag = self.cells.cell_tag(place);
        let fields = fields_of(self.alloc, &self.cells, place)?;
        self.tape.load(LoadedCell { place, tag, fields })?;
        Ok(())
    }

    /// A step begins. Its number is one more than that of the step before, from 1.
    pub fn next_step(&mut self)
        ensures same { self.new.store ≡ self.old.store }
        ensures counted { (cells : List Standing) (events : List Noted) (steps limit : ℕ) → IsTape cells events steps
            limit self.old.tape → IsTape cells events (steps + 1) limit self.new.tape }
    {
        self.tape.next_step();
    }

    /// The store as it is now, and the trace. TooLong where it is longer than it may be, NoMemory where no memory was
    /// left for it.
    pub fn finish(self) -> (Sealed, Result<Trace, TraceError>)
        ensures same { result.0 ≡ self.store }
        ensures traced { (cells : List Standing) (events : List Noted) (steps limit : ℕ) → IsTape cells events steps
            limit self.tape → IsTraced cells events steps limit result.1 }
    {
        let Recorder { cells, tape, .. } = self;
        (cells, tape.finish())
    }
}

// The words of the fields of a cell.
fn fields_of(alloc: Global, cells: &Sealed, place: u32) -> Result<Vec<u64>, TraceError>
    requires there { cell_at cells.now.cells place ≢ None }
    ensures fields { IfOk result (λ v. (c : Cell) → cell_at cells.now.cells place ≡ Some c → v.items ≡ c.fields) }
    ensures error { IfErr result (λ e. e ≡ TraceError.NoMemory) }
{
    let mut fields = Vec::new(alloc);
    let size = cells.cell_size(place);
    for i in 0..size {
        fields.push(cells.field(place, i))?;
    }
    Ok(fields)
}

impl Cells for Recorder {
    ghost cells = { λ r. r.store.cells };

    ghost released = { λ r. r.store.released };

    ghost pushed = { λ r. r.store.pushed };

    ghost was_reported = { λ first ts now. WasReported first.tape ts now.tape };

    fn begins(&self, p: u32) -> bool {
        self.cells.begins(p)
    }

    fn is_released(&self, p: u32) -> bool {
        self.cells.is_released(p)
    }

    fn cell_tag(&self, p: u32) -> u32 {
        self.cells.cell_tag(p)
    }

    fn cell_size(&self, p: u32) -> usize {
        self.cells.cell_size(p)
    }

    fn field(&self, p: u32, i: usize) -> u64 {
        self.cells.field(p, i)
    }

    fn count(&self, k: usize) -> usize {
        self.cells.count(k)
    }

    fn overwrite(&mut self, p: u32, tag: u32, fields: &[u64]) {
        self.tape.put(p, tag, fields);
        self.cells.overwrite(p, tag, fields);
    }

    fn release(&mut self, p: u32) {
        self.tape.release(p);
        self.cells.release(p);
    }

    fn has_room(&self) -> bool {
        self.cells.has_room()
    }

    fn push(&mut self, word: u64) {
        self.cells.push(word);
    }

    fn pop(&mut self) -> Option<u64> {
        self.cells.pop()
    }
}
