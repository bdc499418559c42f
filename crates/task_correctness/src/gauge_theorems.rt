// The theorem that joins the gauges of tasks with their runs alone. It is the contract of a function that does nothing.
ghost use Rattle.std.specs.Prelude.{◌≡◌, ◌≤◌, ℕ, List, Some, slice_get};
ghost use Rattle.fip_tasks.specs.fip_language.Store.{count};
ghost use Rattle.fip_tasks.specs.fip_language.declared.limits.TheConstants.{MOST_FIELDS};
ghost use Rattle.machine_correctness.specs.machine_semantics.Cells.{count_held};
ghost use Rattle.fip_tasks.specs.cell_code.Plain.{plain};
ghost use Rattle.machine_correctness.specs.machine_semantics.Gauges.{seen};
ghost use Rattle.machine_correctness.specs.machine_semantics.Runs.{begun};
ghost use Rattle.machine_correctness.specs.machine_semantics.Steps.{Kinds};
ghost use Rattle.fip_tasks.specs.code_verify.Checked.{Checked};
ghost use Rattle.fip_tasks.specs.fip_machine.declared.gauge.Gauge.{Gauge};
ghost use Rattle.fip_tasks.specs.fip_machine.GaugeView.{Reports};
ghost use Rattle.fip_tasks.specs.task_semantics.Schedules.{Shared};
ghost use Rattle.fip_tasks.specs.task_semantics.Projected.{Begun, BeginTogether, AreLoaded};
ghost use Rattle.fip_tasks.specs.Followed.{HaveFollowed};
ghost use Rattle.fip_tasks.specs.Gauged.{IsGaugeOf, started_of};
ghost use Rattle.fip_tasks.specs.Turns.{Standing, Turns};

/// Where loaded tasks have followed a schedule, whatever its turns are, the gauge of each reports just what the gauge of
/// its run alone reports after as many steps as it had turns: over all states that it would have been in alone, of each
/// size the lowest and the highest number of held cells, the most frames and the most words. It is required that the
/// task started with the cells that it would have alone. For who reads a task's gauge.
pub fn a_tasks_gauge_is_that_of_it_alone()
    ensures theorem { (v : Checked) (before waits : Kinds) (tasks : List Begun) (first : Shared) (schedule : List ℕ)
        (turns : Turns) (k : ℕ) (b : Begun) (a : Standing) (g : Gauge) → AreLoaded before waits (plain v.code) tasks →
        BeginTogether before waits (plain v.code) tasks first →
        HaveFollowed v before first schedule turns → slice_get tasks k ≡ Some b → slice_get turns.tasks k ≡ Some a →
        ((size : ℕ) → 1 ≤ size → size ≤ MOST_FIELDS → started_of a size ≡ count_held size b.state.store) →
        IsGaugeOf a g → Reports g (seen before (plain v.code) (count k schedule) (begun b.state b.calls)) }
{}
