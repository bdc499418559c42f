// The theorems that join tasks on the machine with what is known of schedules. Each is the contract of a function that does
// nothing.
ghost use Rattle.std.specs.Prelude.{◌≡◌, ℕ, List, Some, slice_get};
ghost use Rattle.fip_tasks.specs.cell_code.Plain.{plain};
ghost use Rattle.machine_correctness.specs.machine_semantics.Steps.{Kinds};
ghost use Rattle.machine_correctness.specs.code_rules.Breaks.{IsSound};
ghost use Rattle.machine_correctness.specs.separation.Codes.{HasLiterals, AreKinds};
ghost use Rattle.fip_tasks.specs.code_verify.Checked.{Checked};
ghost use Rattle.fip_tasks.specs.fip_machine.declared.machine.Ended.{Ended};
ghost use Rattle.fip_tasks.specs.task_semantics.Schedules.{Shared, scheduled};
ghost use Rattle.fip_tasks.specs.task_semantics.Projected.{Begun, BeginTogether, AreLoaded};
ghost use Rattle.fip_tasks.specs.task_semantics.Lying.{Lying, AreApart};
ghost use Rattle.fip_tasks.specs.task_semantics.Laid.{Task, AreLaid, shared_store};
ghost use Rattle.fip_tasks.specs.Shown.{Shows, CanTurn, CanFinish, AreStarted};
ghost use Rattle.fip_tasks.specs.Turns.{Standing, Turns};
ghost use Rattle.fip_tasks.specs.declared.task.Start.{Start};
ghost use Rattle.task_correctness.specs.Answered.{AreStartsOf, AreStartsAt, HasAnswered};

/// Loaded tasks that begin together can each have a turn after every schedule, and so be run to their ends: what their
/// Drop releases is what the verifier knows, and no instruction is one that can't be done. For who gives turns to
/// tasks: they are then where the runs of the schedule are.
pub fn loaded_tasks_can_turn()
    ensures turn { (v : Checked) (before waits : Kinds) (alone : List Begun) (first : Shared) (schedule : List ℕ)
        (k : ℕ) → AreLoaded before waits (plain v.code) alone →
        BeginTogether before waits (plain v.code) alone first →
        CanTurn v before (scheduled before (plain v.code) schedule first) k }
    ensures finish { (v : Checked) (before waits : Kinds) (alone : List Begun) (first : Shared) (schedule : List ℕ)
        (k : ℕ) → AreLoaded before waits (plain v.code) alone →
        BeginTogether before waits (plain v.code) alone first →
        CanFinish v before (scheduled before (plain v.code) schedule first) k }
{}

/// Calls that are loaded one after another begin where their functions are loaded, each with its words. For who starts
/// tasks: they are where a schedule of these calls begins.
pub fn laid_tasks_are_started()
    ensures theorem { (v : Checked) (tasks : List Task) (alone : List Begun) (first : Shared) (starts : List Start) →
        IsSound (plain v.code) → AreLaid (plain v.code) tasks alone first → AreStartsOf 0 tasks starts →
        AreStarted v (shared_store tasks) starts first }
{}

/// Where tasks that were loaded one after another are where the runs of a schedule are, whatever its turns are, one
/// that has an end ended as its function ends on trees with its arguments, calls and frames: its results stand in the
/// store for the same values, or it is in the same trap, or out of calls or frames. For who prints the answers of
/// tasks.
pub fn tasks_answer_as_alone()
    ensures theorem { (v : Checked) (before waits : Kinds) (tasks : List Task) (alone : List Begun) (first : Shared)
        (schedule : List ℕ) (turns : Turns) (k : ℕ) (t : Task) (a : Standing) (x : Ended) →
        IsSound (plain v.code) → HasLiterals (plain v.code) → AreKinds (plain v.code) before waits →
        AreLaid (plain v.code) tasks alone first →
        Shows v turns (scheduled before (plain v.code) schedule first) →
        slice_get tasks k ≡ Some t → slice_get turns.tasks k ≡ Some a → a.ended ≡ Some x →
        HasAnswered (plain v.code) t turns.store a }
{}

/// And so are calls started whose cells lie apart in a store, at any places. For who makes the cells of tasks in any
/// order.
pub fn apart_tasks_are_started()
    ensures theorem { (v : Checked) (ls : List Lying) (alone : List Begun) (first : Shared) (starts : List Start) →
        IsSound (plain v.code) → AreApart (plain v.code) ls alone first → AreStartsAt ls starts →
        AreStarted v first.store starts first }
{}

/// And so do they answer. For who prints the answers of tasks whose cells lie anywhere.
pub fn apart_tasks_answer_as_alone()
    ensures theorem { (v : Checked) (before waits : Kinds) (ls : List Lying) (alone : List Begun) (first : Shared)
        (schedule : List ℕ) (turns : Turns) (k : ℕ) (l : Lying) (a : Standing) (x : Ended) →
        IsSound (plain v.code) → HasLiterals (plain v.code) → AreKinds (plain v.code) before waits →
        AreApart (plain v.code) ls alone first →
        Shows v turns (scheduled before (plain v.code) schedule first) →
        slice_get ls k ≡ Some l → slice_get turns.tasks k ≡ Some a → a.ended ≡ Some x →
        HasAnswered (plain v.code) l.task turns.store a }
{}
