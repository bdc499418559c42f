// A machine: a task with a store of its own.
ghost use Rattle.fip_language.specs.declared.limits.TheConstants.{MOST_FRAMES};
ghost use Rattle.std.specs.Prelude.{◌≡◌, ◌<◌, ◌≤◌, true, List, [], length, IfOk, None, Some, slice_get};
ghost use Rattle.cell_code.specs.Plain.{plain};
ghost use Rattle.machine_cells.specs.machine_semantics.States.{Typed, State};
ghost use Rattle.machine_cells.specs.machine_semantics.Steps.{Kinds, next};
ghost use Rattle.machine_cells.specs.machine_semantics.Runs.{loaded};
ghost use Rattle.machine_cells.specs.Small.{IsSmall, store_of};
ghost use Rattle.machine_step.specs.Coming.{Comes, KnowsAt};
ghost use Rattle.fip_machine.specs.Tasks.{state_with, ended_by, IsFresh};
ghost use Rattle.fip_machine.specs.GaugeView.{IsUnseen, ReportsRun};
ghost use Rattle.fip_machine.specs.Ending.{KnowsRun, RunsTo, IsSafeRun};
ghost use Rattle.fip_machine.specs.Along.{end_after};

use crate::gauge::{Gauge, held};
use crate::stack::TaskStack;
use cell_store::{Loader, Sealed, seal};
use fip_base::plain::{NoMemory, TrapKind};
use machine_step::Stepped;
use machine_step::verifier::Verified;
use std::alloc::Global;
use std::marker::Model;

/// How a run ended.
#[derive(Clone, Copy, PartialEq, Eq)]
pub enum Ended {
    /// With a value; its words are the machine's results.
    Value,
    /// An operator has no value; its line and column count from 1, the column in bytes.
    Trap {
        kind: TrapKind,
        line: usize,
        col: usize,
    },
    /// A call found no call left, the entry's among them.
    Out,
    /// A call found no free frame.
    Deep,
}

// How a run ended after its last step; none where a call would come and none is left.
pub(crate) fn ended_of(over: Option<Stepped>) -> Ended
    ensures is { result ≡ end_after over }
{
    match over {
        Some(Stepped::Value) => Ended::Value,
        Some(Stepped::Trap { kind, line, col }) => Ended::Trap { kind, line, col },
        Some(Stepped::Deep) => Ended::Deep,
        _ => Ended::Out,
    }
}

/// A machine at a state of its run.
#[derive(Drop)]
pub struct Machine<'a> {
    stack: TaskStack<'a>,
    cells: Sealed,
}

impl<'a> Model for Machine<'a> {
    ghost use Rattle.machine_cells.specs.Small.{store_of};
    ghost use Rattle.fip_machine.specs.Machines.{Seen};

    ghost Value = { Seen };

    ghost view = { λ m. record {
      stack = m.stack;
      store = store_of m.cells.cells m.cells.released;
      pushed = m.cells.pushed;
    } };
}

impl<'a> Machine<'a> {
    /// The machine at the start of a function of the code, with the words of its arguments and then of its credits, and
    /// so many free frames, at most 1,000,000; the caller gives a fip function as many as it needs. The loader is
    /// sealed. The memory of the whole run is taken: no later call takes any. An error where it is not there.
    pub fn start(
        alloc: Global,
        verified: &'a Verified,
        entry: usize,
        loader: Loader,
        words: Vec<u64>,
        frames: usize,
    ) -> Result<Machine<'a>, NoMemory>
        requires entry { entry < length verified.now.code.functions.items }
        requires frames { frames ≤ MOST_FRAMES }
        ensures code { IfOk result (λ m. m.stack.code ≡ verified.now) }
        ensures going { IfOk result (λ m. m.stack.ended ≡ None) }
        ensures fresh { IfOk result (λ m. IsFresh m.stack) }
        ensures store { IfOk result (λ m. m.store ≡ store_of loader.cells loader.released) }
        ensures small { IfOk result (λ m. IsSmall m.store.cells) }
        ensures pushed { IfOk result (λ m. m.pushed ≡ []) }
        ensures loaded { IfOk result (λ m. (g : _) → slice_get verified.now.code.functions.items entry ≡ Some g →
            length words.items ≤ g.registers → (s : State) → loaded (plain verified.now.code) entry m.store
            words.items frames ≡ Some s → state_with m.stack s.lent m.store ≡ s) }
    {
        let _left = loader.left();
        let stack = TaskStack::start(alloc, verified, entry, words, frames)?;
        Ok(Machine {
            stack,
            cells: seal(loader),
        })
    }

    /// Does one instruction. Once the run is over, it answers the same again and changes nothing.
    pub fn step(&mut self) -> Stepped
        ensures code { self.new.stack.code ≡ self.old.stack.code }
        ensures small { IsSmall self.old.store.cells → IsSmall self.new.store.cells }
        ensures pushed { self.old.pushed ≡ [] → self.new.pushed ≡ [] }
        ensures next { (kinds : Kinds) → KnowsAt self.old.stack.code kinds self.old.stack.running.function
            self.old.stack.running.at → self.old.stack.ended ≡ None →
            IsSmall self.old.store.cells → self.old.pushed ≡ [] → (lent : List Typed) → Comes
            (state_with self.old.stack lent self.old.store) (next kinds (plain self.old.stack.code.code)
            (state_with self.old.stack lent self.old.store)) result
            (state_with self.new.stack lent self.new.store) self.new.stack.given }
        ensures ends { self.old.stack.ended ≡ None → self.new.stack.ended ≡ ended_by result }
        ensures ended { (e : _) → self.old.stack.ended ≡ Some e → (result ≡ e)
            × (self.new.stack ≡ self.old.stack) × (self.new.store ≡ self.old.store) }
    {
        self.stack.step(&mut self.cells)
    }

    /// Runs to the end, with so many calls: the entry takes one, and each Call and Tail one. The end, the cells and the
    /// results are those of the run that the definition says. Requires a machine that was just started, and a gauge
    /// that has seen no state; it sees each state of the run. Cells are only released in a run, so the first state has
    /// the highest numbers of them and the last one the lowest.
    pub fn run(&mut self, calls: u64, gauge: &mut Gauge) -> Ended
        ensures code { self.new.stack.code ≡ self.old.stack.code }
        ensures run { (kinds : Kinds) (lent : List Typed) → KnowsRun self.old.stack.code kinds
            (state_with self.old.stack lent self.old.store) calls → self.old.stack.ended ≡ None →
            IsSmall self.old.store.cells → self.old.pushed ≡ [] → RunsTo kinds (plain self.old.stack.code.code)
            (state_with self.old.stack lent self.old.store) calls result
            (state_with self.new.stack lent self.new.store) self.new.stack.given }
        ensures gauge { IsUnseen gauge.old → (kinds : Kinds) (lent : List Typed) → KnowsRun self.old.stack.code kinds
            (state_with self.old.stack lent self.old.store) calls → IsFresh self.old.stack →
            IsSmall self.old.store.cells → self.old.pushed ≡ [] → ReportsRun kinds (plain self.old.stack.code.code)
            (state_with self.old.stack lent self.old.store) calls gauge.new }
    {
        self.run_with::<false>(calls, gauge)
    }

    /// Runs to the end as `run` does. Where it is `sure`, no cell is looked for: that requires a run that never reaches
    /// an instruction that can't be done, as those of sound code that begin in a loaded state.
    pub fn run_sure(&mut self, sure: bool, calls: u64, gauge: &mut Gauge) -> Ended
        requires safe { sure ≡ true → IsSafeRun self.old calls }
        ensures code { self.new.stack.code ≡ self.old.stack.code }
        ensures run { (kinds : Kinds) (lent : List Typed) → KnowsRun self.old.stack.code kinds
            (state_with self.old.stack lent self.old.store) calls → self.old.stack.ended ≡ None →
            IsSmall self.old.store.cells → self.old.pushed ≡ [] → RunsTo kinds (plain self.old.stack.code.code)
            (state_with self.old.stack lent self.old.store) calls result
            (state_with self.new.stack lent self.new.store) self.new.stack.given }
        ensures gauge { IsUnseen gauge.old → (kinds : Kinds) (lent : List Typed) → KnowsRun self.old.stack.code kinds
            (state_with self.old.stack lent self.old.store) calls → IsFresh self.old.stack →
            IsSmall self.old.store.cells → self.old.pushed ≡ [] → ReportsRun kinds (plain self.old.stack.code.code)
            (state_with self.old.stack lent self.old.store) calls gauge.new }
    {
        if sure {
            return self.run_with::<true>(calls, gauge);
        }
        self.run_with::<false>(calls, gauge)
    }

    // Runs to the end, with so many calls. Where it is sure, no cell is looked for.
    #[inline(always)]
    fn run_with<const SURE: bool>(&mut self, calls: u64, gauge: &mut Gauge) -> Ended
        requires sure { SURE ≡ true → IsSafeRun self.old calls }
        ensures code { self.new.stack.code ≡ self.old.stack.code }
        ensures run { (kinds : Kinds) (lent : List Typed) → KnowsRun self.old.stack.code kinds
            (state_with self.old.stack lent self.old.store) calls → self.old.stack.ended ≡ None →
            IsSmall self.old.store.cells → self.old.pushed ≡ [] → RunsTo kinds (plain self.old.stack.code.code)
            (state_with self.old.stack lent self.old.store) calls result
            (state_with self.new.stack lent self.new.store) self.new.stack.given }
        ensures gauge { IsUnseen gauge.old → (kinds : Kinds) (lent : List Typed) → KnowsRun self.old.stack.code kinds
            (state_with self.old.stack lent self.old.store) calls → IsFresh self.old.stack →
            IsSmall self.old.store.cells → self.old.pushed ≡ [] → ReportsRun kinds (plain self.old.stack.code.code)
            (state_with self.old.stack lent self.old.store) calls gauge.new }
    {
        let frames = self.stack.frames();
        let words = self.stack.words();
        gauge.see(&held(&self.cells), frames, words);
        if calls == 0 {
            return Ended::Out;
        }
        let over = self
            .stack
            .run::<Sealed, true, SURE>(&mut self.cells, calls - 1);
        let highest = self.stack.highest();
        gauge.see(&held(&self.cells), highest.frames, highest.words);
        ended_of(over)
    }

    /// The machine of these frames and cells.
    pub fn of(stack: TaskStack<'a>, cells: Sealed) -> Machine<'a>
        ensures stack { result.stack ≡ stack.entry }
        ensures store { result.store ≡ store_of cells.cells cells.released }
        ensures pushed { result.pushed ≡ cells.pushed }
    {
        Machine { stack, cells }
    }

    /// Its frames and its cells.
    pub fn into_parts(self) -> (TaskStack<'a>, Sealed)
        ensures stack { result.0 ≡ self.entry.stack }
        ensures store { store_of result.1.cells result.1.released ≡ self.entry.store }
        ensures pushed { result.1.pushed ≡ self.entry.pushed }
    {
        (self.stack, self.cells)
    }

    /// The words of the results, after Value.
    pub fn results(&self) -> &[u64]
        ensures given { result.now ≡ self.now.stack.given }
    {
        self.stack.results()
    }

    /// The cells, as they are now.
    pub fn cells(&self) -> &Sealed
        ensures cells { store_of result.now.cells result.now.released ≡ self.now.store }
    {
        &self.cells
    }

    /// The cells, as they are now.
    pub fn into_sealed(self) -> Sealed
        ensures cells { store_of result.cells result.released ≡ self.entry.store }
    {
        self.cells
    }
}
