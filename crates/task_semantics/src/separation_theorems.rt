// The theorems of tasks that lie apart. Each is the contract of a function that does nothing.
ghost use Rattle.std.specs.Prelude.{◌≡◌, ℕ, List, Some, slice_get};
ghost use Rattle.run_loading.specs.machine_semantics.Cells.{Store};
ghost use Rattle.run_loading.specs.machine_semantics.Runs.{End, Over};
ghost use Rattle.run_loading.specs.machine_semantics.States.{State};
ghost use Rattle.run_loading.specs.machine_semantics.Steps.{Kinds};
ghost use Rattle.run_loading.specs.code_rules.Breaks.{IsSound};
ghost use Rattle.run_loading.specs.cell_code.Plain.{PlainCode};
ghost use Rattle.run_loading.specs.separation.Codes.{HasLiterals, AreKinds};
ghost use Rattle.task_semantics.specs.Projected.{Begun, BeginTogether, AreLoaded};
ghost use Rattle.task_semantics.specs.Schedules.{Shared, scheduled};
ghost use Rattle.task_semantics.specs.Ended.{EndsOnTrees};
ghost use Rattle.task_semantics.specs.Lying.{Lying, LieApart, AreApart};

/// Calls whose cells lie apart in a store, at any places, can begin there; they begin together then, and each of them
/// is loaded alone, so what is said of schedules is said of them. For who loads the arguments of tasks in any order.
pub fn apart_tasks_begin_together()
    ensures there { (c : PlainCode) (s : Store) (ls : List Lying) → LieApart c s ls →
        (alone : List Begun) × (first : Shared) × (first.store ≡ s) × AreApart c ls alone first }
    ensures together { (c : PlainCode) (before waits : Kinds) (ls : List Lying) (alone : List Begun) (first : Shared) →
        IsSound c → HasLiterals c → AreKinds c before waits → AreApart c ls alone first →
        BeginTogether before waits c alone first }
    ensures loaded { (c : PlainCode) (before waits : Kinds) (ls : List Lying) (alone : List Begun) (first : Shared) →
        IsSound c → HasLiterals c → AreKinds c before waits → AreApart c ls alone first →
        AreLoaded before waits c alone }
{}

/// A task that has ended, whatever turns were taken, ended as its function ends on trees with its arguments, calls and
/// frames: with words that stand in the shared store for the same values, in the same trap, or out of calls or frames.
/// For who reports what such tasks ended in.
pub fn apart_tasks_end_as_on_trees()
    ensures theorem { (c : PlainCode) (before waits : Kinds) (ls : List Lying) (alone : List Begun) (first : Shared)
        (schedule : List ℕ) (k : ℕ) (l : Lying) (e : End) (last : State) (left steps : ℕ) → IsSound c →
        HasLiterals c → AreKinds c before waits → AreApart c ls alone first → slice_get ls k ≡ Some l →
        slice_get (scheduled before c schedule first).runs k ≡ Some (Over e last left steps) →
        EndsOnTrees c l.task (record last { store = (scheduled before c schedule first).store }) e left
        steps }
{}
