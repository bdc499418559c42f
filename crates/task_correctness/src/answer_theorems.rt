// The theorems on tasks of an accepted source's code. Each is the contract of a function that does nothing.
ghost use Rattle.std.specs.Prelude.{◌≡◌, ◌<◌, ℕ, List, [], Some, length, slice_get};
ghost use Rattle.fip_tasks.specs.fip_language.Core.{Core};
ghost use Rattle.fip_tasks.specs.fip_language.Meaning.{meaning};
ghost use Rattle.fip_tasks.specs.fip_language.Statics.{NoClosed};
ghost use Rattle.fip_tasks.specs.cell_code.declared.code.Code.{Code};
ghost use Rattle.fip_tasks.specs.cell_code.Plain.{plain};
ghost use Rattle.machine_correctness.specs.machine_semantics.Runs.{End, Over};
ghost use Rattle.machine_correctness.specs.machine_semantics.States.{State};
ghost use Rattle.machine_correctness.specs.machine_semantics.Steps.{Kinds};
ghost use Rattle.machine_correctness.specs.separation.Codes.{AreKinds};
ghost use Rattle.fip_tasks.specs.code_verify.Checked.{Checked};
ghost use Rattle.fip_tasks.specs.fip_machine.declared.machine.Ended.{Ended};
ghost use Rattle.fip_tasks.specs.fip_machine.Tasks.{state_with};
ghost use Rattle.machine_correctness.specs.tree_refinement.Runs.{IsSameEnd};
ghost use Rattle.fip_tasks.specs.task_semantics.Projected.{Begun};
ghost use Rattle.fip_tasks.specs.task_semantics.Schedules.{Shared, scheduled};
ghost use Rattle.fip_tasks.specs.task_semantics.Lying.{Lying, AreApart};
ghost use Rattle.fip_tasks.specs.task_semantics.Laid.{Task, AreLaid};
ghost use Rattle.fip_tasks.specs.Shown.{Shows};
ghost use Rattle.fip_tasks.specs.Turns.{Standing, Turns};
ghost use Rattle.machine_correctness.specs.Meant.{IsMeant};
ghost use Rattle.machine_correctness.specs.Starts.{IsCodeOf};

/// Where calls of functions of an accepted source's code are loaded one after another, a task that has ended, whatever
/// turns were taken, ended as the source means by the function of its name on its arguments, with its calls and
/// frames: with words that stand in the shared store for the values that are meant, in the same trap, or out of calls
/// or frames. For who prints what the tasks of a list ended in.
pub fn tasks_end_as_the_source_means()
    ensures theorem { (source : List ℕ) (core : Core) (code : Code) (before waits : Kinds) (tasks : List Task)
        (alone : List Begun) (first : Shared) (schedule : List ℕ) (k : ℕ) (t : Task) (e : End) (last : State)
        (left steps : ℕ) → IsCodeOf source core code → AreKinds (plain code) before waits →
        AreLaid (plain code) tasks alone first → slice_get tasks k ≡ Some t → 0 < length t.header.name →
        slice_get (scheduled before (plain code) schedule first).runs k ≡ Some (Over e last left steps) →
        IsSameEnd code.types t.header.results
        (record last { store = (scheduled before (plain code) schedule first).store }) left e
        (meaning core t.header.name NoClosed t.arguments t.calls t.frames).answer }
{}

/// And so the calls on tasks answer: where tasks are where the runs of a schedule are, whatever its turns are, one
/// that has an end has the one that the source means by the function of its name on its arguments, with its calls and
/// frames; after a value the words of its results stand in the store for the values that are meant. For who prints
/// what tasks answer.
pub fn tasks_answer_what_the_source_means()
    ensures theorem { (source : List ℕ) (core : Core) (v : Checked) (before waits : Kinds) (tasks : List Task)
        (alone : List Begun) (first : Shared) (schedule : List ℕ) (turns : Turns) (k : ℕ) (t : Task) (a : Standing)
        (e : Ended) → IsCodeOf source core v.code → AreKinds (plain v.code) before waits →
        AreLaid (plain v.code) tasks alone first →
        Shows v turns (scheduled before (plain v.code) schedule first) →
        slice_get tasks k ≡ Some t → 0 < length t.header.name → slice_get turns.tasks k ≡ Some a → a.ended ≡ Some e →
        IsMeant v.code.types t.header.results e (state_with a.stack [] turns.store) a.stack.given (meaning core
        t.header.name NoClosed t.arguments t.calls t.frames).answer }
{}

/// And so do tasks whose cells lie apart in the store, at any places. For who makes the cells of tasks in any order.
pub fn apart_tasks_answer_what_the_source_means()
    ensures theorem { (source : List ℕ) (core : Core) (v : Checked) (before waits : Kinds) (ls : List Lying)
        (alone : List Begun) (first : Shared) (schedule : List ℕ) (turns : Turns) (k : ℕ) (l : Lying) (a : Standing)
        (e : Ended) → IsCodeOf source core v.code → AreKinds (plain v.code) before waits →
        AreApart (plain v.code) ls alone first →
        Shows v turns (scheduled before (plain v.code) schedule first) →
        slice_get ls k ≡ Some l → 0 < length l.task.header.name → slice_get turns.tasks k ≡ Some a →
        a.ended ≡ Some e →
        IsMeant v.code.types l.task.header.results e (state_with a.stack [] turns.store) a.stack.given (meaning core
        l.task.header.name NoClosed l.task.arguments l.task.calls l.task.frames).answer }
{}
