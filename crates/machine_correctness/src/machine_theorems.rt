// The theorems that join the machine with what is known of sound code. Each is the contract of a function that does
// nothing.
ghost use Rattle.std.specs.Prelude.{ℕ, List};
ghost use Rattle.fip_machine.specs.cell_code.Plain.{plain};
ghost use Rattle.compiler_correctness.specs.machine_semantics.States.{State};
ghost use Rattle.compiler_correctness.specs.machine_semantics.Steps.{Kinds};
ghost use Rattle.run_loading.specs.separation.Starts.{IsStart};
ghost use Rattle.fip_machine.specs.code_verify.Checked.{Checked};
ghost use Rattle.fip_machine.specs.declared.gauge.Gauge.{Gauge};
ghost use Rattle.fip_machine.specs.declared.machine.Ended.{Ended};
ghost use Rattle.fip_machine.specs.Ending.{KnowsRun, RunsTo};
ghost use Rattle.fip_machine.specs.GaugeView.{ReportsRun};
ghost use Rattle.machine_correctness.specs.Ended.{RunsJustTo, ReportsJustRun};

/// Of each state of a run that begins rightly, what its Drop releases by the kinds is what the verifier knows. For who
/// runs a machine: with these kinds its end, its cells, its results and its gauge are those of the written run.
pub fn drops_are_known()
    ensures theorem { (v : Checked) (before waits : Kinds) (n : ℕ) (kept : List ℕ) (s : State) (calls : ℕ) →
        IsStart (plain v.code) before waits n kept s → KnowsRun v before s calls }
{}

/// A run that begins rightly never reaches an instruction that can't be done, where the machine says nothing: its end,
/// its last state and its results are those of the written run, and the gauge reports of all states of that run. For
/// who prints what a run ended in.
pub fn no_end_is_left_out()
    ensures run { (v : Checked) (before waits : Kinds) (n : ℕ) (kept : List ℕ) (s : State) (calls : ℕ) (e : Ended)
        (last : State) (given : List ℕ) → IsStart (plain v.code) before waits n kept s →
        RunsTo before (plain v.code) s calls e last given → RunsJustTo before (plain v.code) s calls e last given }
    ensures gauge { (v : Checked) (before waits : Kinds) (n : ℕ) (kept : List ℕ) (s : State) (calls : ℕ) (g : Gauge) →
        IsStart (plain v.code) before waits n kept s → ReportsRun before (plain v.code) s calls g →
        ReportsJustRun before (plain v.code) s calls g }
{}
