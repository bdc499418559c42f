// Runs that keep what they write.
ghost use Rattle.std.specs.Prelude.{◌≡◌, ◌≢◌, ℕ, ◌-◌, ◌<◌, List, [], IfOk, OnOk, IfNone, IfSome, Some, None, Err, not};
ghost use Rattle.cell_code.specs.Plain.{plain};
ghost use Rattle.machine_cells.specs.machine_semantics.States.{Typed};
ghost use Rattle.machine_cells.specs.machine_semantics.Steps.{Kinds};
ghost use Rattle.machine_cells.specs.Small.{IsSmall};
ghost use Rattle.fip_machine.specs.GaugeView.{IsUnseen, ReportsRun};
ghost use Rattle.fip_machine.specs.Tasks.{state_with, IsMeasured, IsFresh, IsRaised};
ghost use Rattle.fip_machine.specs.Ending.{KnowsRun, RunsTo};
ghost use Rattle.fip_machine.specs.Along.{Origin, IsReady, calls_next, end_after};
ghost use Rattle.fip_machine.specs.Taped.{AlongTaped, RunTaped, CameTaped, IsFirstTape};
ghost use Rattle.fip_machine.specs.Traces.{HasTrace, HasLongTrace};

use crate::gauge::{Gauge, held};
use crate::machine::{Ended, Machine, ended_of};
use crate::stack::TaskStack;
use cell_trace::{Recorder, Trace, TraceError};
use machine_step::Stepped;
use std::alloc::Global;

impl<'a> Machine<'a> {
    /// Runs as `run` does, and keeps what each step writes to the cells. Requires a machine that was just started,
    /// whose cells aren't released, and a gauge that has seen no state. The end, the cells and the results are those of
    /// the run that the definition says.
    ///
    /// The trace is there exactly where the run gives a value. TooLong where it gives one and the file of its trace has
    /// more than `limit` bytes, or there are more than 4,294,967,295 events or more steps than 64 bits count; NoMemory
    /// where no memory is left. Both give the machine up.
    pub fn run_traced(
        self,
        alloc: Global,
        calls: u64,
        gauge: &mut Gauge,
        limit: usize,
    ) -> Result<(Machine<'a>, Ended, Option<Trace>), TraceError>
        ensures run { IfOk result (λ r. (kinds : Kinds) (lent : List Typed) → KnowsRun self.entry.stack.code kinds
            (state_with self.entry.stack lent self.entry.store) calls → self.entry.stack.ended ≡ None →
            IsSmall self.entry.store.cells → self.entry.pushed ≡ [] → RunsTo kinds (plain self.entry.stack.code.code)
            (state_with self.entry.stack lent self.entry.store) calls r.1 (state_with r.0.stack lent r.0.store)
            r.0.stack.given) }
        ensures gauge { OnOk result (IsUnseen gauge.old → (kinds : Kinds) (lent : List Typed) →
            KnowsRun self.entry.stack.code kinds (state_with self.entry.stack lent self.entry.store) calls →
            IsFresh self.entry.stack → IsSmall self.entry.store.cells → self.entry.pushed ≡ [] →
            ReportsRun kinds (plain self.entry.stack.code.code) (state_with self.entry.stack lent self.entry.store) calls
            gauge.new) }
        ensures trace { IfOk result (λ r. r.1 ≡ Ended.Value → r.2 ≢ None) }
        ensures none { IfOk result (λ r. r.1 ≢ Ended.Value → r.2 ≡ None) }
        ensures traced { IfOk result (λ r. IfSome r.2 (λ t. (kinds : Kinds) (lent : List Typed) → KnowsRun
            self.entry.stack.code kinds (state_with self.entry.stack lent self.entry.store) calls →
            self.entry.stack.ended ≡ None → IsSmall self.entry.store.cells → self.entry.pushed ≡ [] → HasTrace kinds
            (plain self.entry.stack.code.code) (state_with self.entry.stack lent self.entry.store) calls limit t)) }
        ensures long { result ≡ Err TraceError.TooLong → (kinds : Kinds) (lent : List Typed) → KnowsRun
            self.entry.stack.code kinds (state_with self.entry.stack lent self.entry.store) calls →
            self.entry.stack.ended ≡ None → IsSmall self.entry.store.cells → self.entry.pushed ≡ [] → HasLongTrace
            kinds (plain self.entry.stack.code.code) (state_with self.entry.stack lent self.entry.store) calls limit }
    {
        let (mut stack, cells) = self.into_parts();
        let mut recorder = Recorder::new(alloc, cells, limit)?;
        gauge.see(&held(&recorder), stack.frames(), stack.words());
        let ended = run_recorded(&mut stack, &mut recorder, calls);
        let highest = stack.highest();
        gauge.see(&held(&recorder), highest.frames, highest.words);
        let (cells, trace) = recorder.finish();
        let machine = Machine::of(stack, cells);
        match ended {
            Ended::Value => Ok((machine, ended, Some(trace?))),
            _ => Ok((machine, ended, None)),
        }
    }
}

// Runs to the end, with so many calls.
fn run_recorded(stack: &mut TaskStack, recorder: &mut Recorder, calls: u64) -> Ended
    ensures run { (o : Origin) (limit : ℕ) → IsReady o stack.old recorder.old.store calls → IsFirstTape o limit
        recorder.old.tape → RunTaped o limit result stack.new recorder.new }
{
    if calls == 0 {
        return Ended::Out;
    }
    let mut left = calls - 1;
    while left > 0 {
        match run_to_entry(stack, recorder) {
            None => left -= 1,
            Some(over) => return ended_of(Some(over)),
        }
    }
    ended_of(run_to_call(stack, recorder))
}

// Runs until a function is entered, or to the end.
fn run_to_entry(stack: &mut TaskStack, recorder: &mut Recorder) -> Option<Stepped>
    ensures entered { IfNone result ((o : Origin) (limit left : ℕ) → 0 < left → AlongTaped o limit stack.old
        recorder.old left → AlongTaped o limit stack.new recorder.new (left - 1)) }
    ensures over { IfSome result (λ r. (o : Origin) (limit left : ℕ) → 0 < left → AlongTaped o limit stack.old
        recorder.old left → RunTaped o limit (end_after (Some r)) stack.new recorder.new) }
{
    loop {
        match step(stack, recorder) {
            Stepped::Went => {}
            Stepped::Entered => return None,
            over => return Some(over),
        }
    }
}

// Runs to where a call would come, or to the end.
fn run_to_call(stack: &mut TaskStack, recorder: &mut Recorder) -> Option<Stepped>
    ensures run { (o : Origin) (limit : ℕ) → AlongTaped o limit stack.old recorder.old 0 → RunTaped o limit
        (end_after result) stack.new recorder.new }
{
    while has_no_call(stack) {
        match step(stack, recorder) {
            Stepped::Went => {}
            Stepped::Entered => return None,
            over => return Some(over),
        }
    }
    None
}

// Whether no call is next.
fn has_no_call(stack: &TaskStack) -> bool
    ensures is { stack.now.ended ≡ None → result ≡ not (calls_next stack.now.code stack.now) }
{
    !stack.at_call()
}

// One step.
fn step(stack: &mut TaskStack, recorder: &mut Recorder) -> Stepped
    ensures less { result ≡ Stepped.Went → stack.new.weight < stack.old.weight }
    ensures came { (o : Origin) (limit left : ℕ) → AlongTaped o limit stack.old recorder.old left → CameTaped o limit
        left (calls_next stack.old.code stack.old) result stack.new recorder.new }
{
    recorder.next_step();
    stack.step(recorder)
}
