// The theorems of tasks that are loaded one after another. Each is the contract of a function that does nothing.
ghost use Rattle.std.specs.Prelude.{◌≡◌, ℕ, pos, List, [], ◌∷◌, Some, slice_get};
ghost use Rattle.run_loading.specs.fip_language.Every.{Every};
ghost use Rattle.run_loading.specs.machine_semantics.Runs.{End, Over};
ghost use Rattle.run_loading.specs.machine_semantics.States.{State};
ghost use Rattle.run_loading.specs.machine_semantics.Steps.{Kinds};
ghost use Rattle.run_loading.specs.code_rules.Breaks.{IsSound};
ghost use Rattle.run_loading.specs.cell_code.Plain.{PlainCode};
ghost use Rattle.run_loading.specs.code_rules.Example.{reversal};
ghost use Rattle.run_loading.specs.separation.Codes.{HasLiterals, AreKinds};
ghost use Rattle.task_semantics.specs.ScheduleExample.{both, tasks_alone, two_tasks};
ghost use Rattle.task_semantics.specs.Projected.{Begun, BeginTogether, AreLoaded};
ghost use Rattle.task_semantics.specs.Schedules.{Shared, scheduled, EndsAll};
ghost use Rattle.task_semantics.specs.Laid.{Task, IsTask, shared_store, task_words, AreLaid};
ghost use Rattle.task_semantics.specs.Ended.{EndsAlone, EndsOnTrees};
ghost use Rattle.task_semantics.specs.LoadedExample.{rev_of, two_calls};

/// Calls of functions of a code, with arguments of their parameters' types, can be loaded one after another into one
/// store. They then begin together, and each of them is loaded alone, so what is said of schedules is said of them. For
/// who makes tasks of a list of calls.
pub fn loaded_tasks_begin_together()
    ensures there { (c : PlainCode) (tasks : List Task) → Every (IsTask c) tasks →
        (alone : List Begun) × (first : Shared) × AreLaid c tasks alone first }
    ensures together { (c : PlainCode) (before waits : Kinds) (tasks : List Task) (alone : List Begun)
        (first : Shared) → IsSound c → HasLiterals c → AreKinds c before waits → AreLaid c tasks alone first →
        BeginTogether before waits c alone first }
    ensures loaded { (c : PlainCode) (before waits : Kinds) (tasks : List Task) (alone : List Begun)
        (first : Shared) → IsSound c → HasLiterals c → AreKinds c before waits → AreLaid c tasks alone first →
        AreLoaded before waits c alone }
{}

/// A task that has ended, whatever turns were taken, has ended as alone in a new store, and as its function ends on
/// trees with its arguments: with words that stand in the shared store for the same values, in the same trap, or out of
/// calls or frames, with as many calls left and after as many steps. For who reports what the tasks of a list ended in.
pub fn what_tasks_come_to()
    ensures alone { (c : PlainCode) (before waits : Kinds) (tasks : List Task) (alone : List Begun)
        (first : Shared) (schedule : List ℕ) (k : ℕ) (b : Begun) (e : End) (last : State) (left steps : ℕ) →
        IsSound c → HasLiterals c → AreKinds c before waits → AreLaid c tasks alone first →
        slice_get alone k ≡ Some b →
        slice_get (scheduled before c schedule first).runs k ≡ Some (Over e last left steps) →
        EndsAlone c before b (scheduled before c schedule first).store e left steps }
    ensures trees { (c : PlainCode) (before waits : Kinds) (tasks : List Task) (alone : List Begun)
        (first : Shared) (schedule : List ℕ) (k : ℕ) (t : Task) (e : End) (last : State) (left steps : ℕ) →
        IsSound c → HasLiterals c → AreKinds c before waits → AreLaid c tasks alone first →
        slice_get tasks k ≡ Some t →
        slice_get (scheduled before c schedule first).runs k ≡ Some (Over e last left steps) →
        EndsOnTrees c t (record last { store = (scheduled before c schedule first).store }) e left steps }
{}

/// Whatever turns are drawn, each task reaches an end where it then has turns enough: some schedule that begins with
/// the drawn turns, and gives turns to the tasks in order after them, ends all. For who runs tasks to their ends.
pub fn all_tasks_end()
    ensures theorem { (c : PlainCode) (before waits : Kinds) (tasks : List Task) (alone : List Begun) (first : Shared)
        (drawn : List ℕ) → IsSound c → HasLiterals c → AreKinds c before waits → AreLaid c tasks alone first →
        (schedule : List ℕ) × EndsAll before c first drawn schedule }
{}

/// The two tasks of the examples of schedules are loaded so: the second has its cells after those of the first, and
/// its words name them. For who wants to see the numbers.
pub fn an_example_is_laid()
    ensures store { shared_store two_calls ≡ both }
    ensures words { task_words 6 (rev_of (pos 2) (pos 4)) ≡ 13 ∷ 19 ∷ [] }
    ensures laid { AreLaid reversal two_calls tasks_alone (two_tasks 2) }
{}
