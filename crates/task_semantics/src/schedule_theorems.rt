// The theorems of schedules. Each is the contract of a function that does nothing.
ghost use Rattle.std.specs.Prelude.{◌≡◌, ◌≢◌, ℕ, List, [], ◌∷◌, ◌++◌, Some, slice_get, map, replicate};
ghost use Rattle.run_loading.specs.cell_code.Plain.{PlainCode};
ghost use Rattle.run_loading.specs.machine_semantics.Cells.{Store, IsStore, count_held};
ghost use Rattle.run_loading.specs.machine_semantics.States.{State, frames_held, words_held};
ghost use Rattle.run_loading.specs.machine_semantics.Steps.{Kinds};
ghost use Rattle.run_loading.specs.machine_semantics.Runs.{End, Value, Out, Run, Over, begun, state_of};
ghost use Rattle.run_loading.specs.machine_semantics.Example.{reversing, unknown, at_start};
ghost use Rattle.run_loading.specs.code_rules.Example.{reversal};
ghost use Rattle.run_loading.specs.separation.Codes.{AreKinds};
ghost use Rattle.task_semantics.specs.Draws.{drawn, numbers};
ghost use Rattle.task_semantics.specs.Projected.{BeginTogether, Renaming, AreRenamed, IsProjected, held_among};
ghost use Rattle.task_semantics.specs.Projected.{AreLoaded, EachIsAlone, EachKeepsItsCells, EachIsSeenAsAlone};
ghost use Rattle.task_semantics.specs.Schedules.{Shared, turn, scheduled, alone, in_store};
ghost use Rattle.task_semantics.specs.ScheduleExample.{cells_of, store_of, both, both_done, rev_at, two_tasks, by_turns};
ghost use Rattle.task_semantics.specs.ScheduleExample.{second_first, tasks_alone};

/// A turn of one task changes no other task's frames, calls or end. For who reads a task between two turns of another.
#[tactic(auto, using(crate::proofs::Turns::others_stay))]
pub fn a_turn_is_of_one_task()
    ensures theorem { (kinds : Kinds) (code : PlainCode) (t : Shared) (j k : ℕ) → j ≢ k →
        slice_get (turn kinds code t k).runs j ≡ slice_get t.runs j }
{}

/// In the turn of a task that has ended no cell changes. For who gives a turn to a task that is over.
#[tactic(auto, using(crate::proofs::Turns::ended_stays))]
pub fn an_ended_task_changes_no_cell()
    ensures theorem { (kinds : Kinds) (code : PlainCode) (t : Shared) (k : ℕ) (e : End) (s : State) (left steps : ℕ) →
        slice_get t.runs k ≡ Some (Over e s left steps) → (turn kinds code t k).store ≡ t.store }
{}

/// A schedule after another goes on where that ended. For who hands out turns one by one.
#[tactic(auto, using(crate::proofs::Turns::goes_on))]
pub fn a_schedule_goes_on()
    ensures theorem { (kinds : Kinds) (code : PlainCode) (first more : List ℕ) (t : Shared) →
        scheduled kinds code (first ++ more) t ≡ scheduled kinds code more (scheduled kinds code first t) }
{}

/// A task that has the store for itself does as alone, at every turn. For who runs one task.
#[tactic(auto, using(crate::proofs::Turns::one_alone))]
pub fn one_task_is_alone()
    ensures theorem { (kinds : Kinds) (code : PlainCode) (r : Run) (n : ℕ) →
        scheduled kinds code (replicate n 0) (record { store = (state_of r).store; runs = r ∷ [] })
        ≡ record {
          store = (state_of (alone kinds code 0 (replicate n 0) r)).store;
          runs = alone kinds code 0 (replicate n 0) r ∷ [];
        } }
{}

/// The two tasks of the examples reach the same ends by both schedules, as alone: each gives its list, in its own
/// cells, after 7 steps. With one call each is out of calls. For who wants to see a schedule.
pub fn an_example_takes_turns()
    ensures alone { alone unknown reversing 1 by_turns (begun (rev_at 0 (store_of (cells_of 2 0 4)) 1 7 0) 2)
        ≡ Over (Value (1 ∷ [])) (rev_at 2 (store_of (cells_of 2 7 4)) 0 1 0) 0 7 }
    ensures turns { map (λ r. in_store both r) (scheduled unknown reversing by_turns (two_tasks 2)).runs
        ≡ Over (Value (1 ∷ [])) (rev_at 2 both 0 1 0) 0 7 ∷ Over (Value (13 ∷ [])) (rev_at 2 both 0 13 0) 0 7 ∷ [] }
    ensures store { (scheduled unknown reversing by_turns (two_tasks 2)).store ≡ both_done }
    ensures other { (scheduled unknown reversing second_first (two_tasks 2)).store ≡ both_done }
    ensures other_turns { map (λ r. in_store both r) (scheduled unknown reversing second_first (two_tasks 2)).runs
        ≡ map (λ r. in_store both r) (scheduled unknown reversing by_turns (two_tasks 2)).runs }
    ensures out { slice_get (scheduled unknown reversing by_turns (two_tasks 1)).runs 1
        ≡ Some (Over Out (rev_at 5 both_done 13 19 2) 0 4) }
{}

/// The turns of the seed 1 go to the tasks 0, 0 and 1 of two, by its first numbers; where there is no task there is no
/// turn. For who draws turns elsewhere.
#[tactic(auto, using(crate::proofs::ScheduleExamples::computed))]
pub fn an_example_of_draws()
    ensures numbers { numbers 3 1 ≡ 1103527590 ∷ 377401575 ∷ 662824084 ∷ [] }
    ensures drawn { drawn 1 3 2 ≡ 0 ∷ 0 ∷ 1 ∷ [] }
    ensures none { drawn 1 3 0 ≡ [] }
{}

/// The two tasks of the examples begin together, each at places of its own; and by the kinds of their code, which is
/// sound, each of them is loaded. For who wants to see that what is required of tasks can be met.
pub fn an_example_begins_together()
    ensures theorem { BeginTogether at_start at_start reversing tasks_alone (two_tasks 2) }
    ensures together { (before waits : Kinds) → AreKinds reversal before waits →
        BeginTogether before waits reversal tasks_alone (two_tasks 2) }
    ensures loaded { (before waits : Kinds) → AreKinds reversal before waits →
        AreLoaded before waits reversal tasks_alone }
{}

/// Of a task among others as much is seen as of it alone: as many held cells of each size, as many frames and words. So
/// it has the gauge that it has alone, after every schedule after which it is where it would be alone. For who reads a
/// task's gauge.
pub fn a_task_is_seen_as_alone()
    ensures held { (f : Renaming) (own shared : Store) (k : ℕ) → IsStore own → AreRenamed f own shared →
        held_among k f own shared ≡ count_held k own }
    ensures frames { (before waits : Kinds) (code : PlainCode) (f : Renaming) (a b : State) →
        IsProjected before waits code f a b → frames_held b ≡ frames_held a }
    ensures words { (before waits : Kinds) (code : PlainCode) (f : Renaming) (a b : State) →
        IsProjected before waits code f a b → words_held b ≡ words_held a }
{}

/// Loaded tasks that begin together are each where they would be alone, after every schedule: the same frames, words,
/// cells, calls and steps at the task's places, and the same end with the same results. No turn of one task changes a
/// cell of another, and as much is seen of each as of it alone. For who gives turns to tasks that share a store.
pub fn tasks_do_as_alone()
    ensures alone { (before waits : Kinds) (code : PlainCode) → EachIsAlone before waits code }
    ensures cells { (before waits : Kinds) (code : PlainCode) → EachKeepsItsCells before waits code }
    ensures seen { (before waits : Kinds) (code : PlainCode) → EachIsSeenAsAlone before waits code }
{}
