// The theorems of the definitions. Each is the contract of a function that does nothing.
ghost use Rattle.std.specs.Prelude.{◌≡◌, ℕ, ◌≤◌, [], ◌∷◌, Some};
ghost use Rattle.cell_code.specs.fip_language.Table.{Table};
ghost use Rattle.cell_code.specs.fip_language.Store.{Placed};
ghost use Rattle.cell_code.specs.fip_language.Gauge.{lowest, highest, highest_frames, highest_words};
ghost use Rattle.cell_code.specs.Plain.{PlainCode};
ghost use Rattle.machine_semantics.specs.Cells.{Store, Release};
ghost use Rattle.machine_semantics.specs.Trees.{IsTree, tree_of};
ghost use Rattle.machine_semantics.specs.States.{State, Went, Entered};
ghost use Rattle.machine_semantics.specs.Steps.{Kinds, next};
ghost use Rattle.machine_semantics.specs.Runs.{End, Value, Out, Run, Going, Over, Steps, state_of, begun, later, after, loaded};
ghost use Rattle.machine_semantics.specs.Kept.{Keeps};
ghost use Rattle.machine_semantics.specs.Gauges.{seen};
ghost use Rattle.machine_semantics.specs.Traces.{events, replay};
ghost use Rattle.machine_semantics.specs.Example.{reversing, unknown, listed, listed_reversed, flat, flat_reversed, first};
ghost use Rattle.machine_semantics.specs.Example.{last, forgetting, known, flat_forgotten, at};

/// At most one step leads on from a run, and from one that isn't over one does. For who steps a machine: there is
/// nothing to choose.
pub fn a_run_has_one_next_step()
    ensures one { (kinds : Kinds) (code : PlainCode) (r s t : Run) → Steps kinds code r s → Steps kinds code r t →
        s ≡ t }
    ensures some { (kinds : Kinds) (code : PlainCode) (s : State) (left steps : ℕ) →
        Steps kinds code (Going s left steps) (later kinds code (Going s left steps)) }
{}

/// No step leads on from a run that is over, and it stays as it is. For who asks a run twice how it ended.
pub fn an_ended_run_has_no_step()
    ensures none { (kinds : Kinds) (code : PlainCode) (e : End) (s : State) (left steps : ℕ) (t : Run) →
        Steps kinds code (Over e s left steps) t → ⊥ }
    ensures stays { (kinds : Kinds) (code : PlainCode) (n : ℕ) (e : End) (s : State) (left steps : ℕ) →
        after kinds code n (Over e s left steps) ≡ Over e s left steps }
{}

/// No step makes a cell, changes a cell's place or size, or takes a released cell back, whatever the code is. For who
/// has no allocator.
pub fn a_step_keeps_places_and_sizes()
    ensures went { (kinds : Kinds) (code : PlainCode) (s t : State) → next kinds code s ≡ Went t →
        Keeps s.store t.store }
    ensures entered { (kinds : Kinds) (code : PlainCode) (s t : State) → next kinds code s ≡ Entered t →
        Keeps s.store t.store }
{}

/// The tree that a Drop reads out of the store, by its word and type, is one that the word stands for. For who asks
/// which cells a Drop releases.
pub fn a_drop_reads_the_tree_of_its_word()
    ensures theorem { (types : Table) (s : Store) (t w : ℕ) (x : Placed) → tree_of types s t w ≡ Some x →
        IsTree types s t w x }
{}

/// Replay of a run's events up to a step gives the cells and released places of the state after that step. For who
/// reads a trace in place of the run.
#[tactic(auto, using(crate::proofs::Replayed::replay_is))]
pub fn replay_gives_the_cells()
    ensures theorem { (kinds : Kinds) (code : PlainCode) (s : State) (calls n i : ℕ) → i ≤ n →
        replay s.store (events kinds code n (begun s calls)) i
        ≡ (state_of (after kinds code i (begun s calls))).store }
{}

/// Replay of no events gives the loaded cells, whatever the number of steps is. For who reads an empty trace.
pub fn no_events_change_nothing()
    ensures theorem { (s : Store) (i : ℕ) → replay s [] i ≡ s }
{}

/// `rev` of two items and none, with 3 calls, gives the reversed list after 11 steps, in the same two cells, whether
/// they are in a list of cells or of words; with 2 calls it is out of calls after 8. Over its states there are two
/// cells of size 2, no frame beside the entry's, and 9 words. For who wants to see the numbers.
pub fn an_example_runs()
    ensures loaded { loaded reversing 0 listed (3 ∷ 0 ∷ []) 0 ≡ Some (first listed 3) }
    ensures value { after unknown reversing 11 (begun (first listed 3) 3)
        ≡ Over (Value (1 ∷ [])) (last listed_reversed) 0 11 }
    ensures flat { after unknown reversing 11 (begun (first flat 7) 3)
        ≡ Over (Value (1 ∷ [])) (last flat_reversed) 0 11 }
    ensures out { after unknown reversing 8 (begun (first listed 3) 2)
        ≡ Over Out (at 5 listed_reversed (1 ∷ 3 ∷ 2 ∷ 0 ∷ 0 ∷ 0 ∷ 0 ∷ [])) 0 8 }
    ensures lowest { lowest 2 (seen unknown reversing 11 (begun (first listed 3) 3)) ≡ 2 }
    ensures highest { highest 2 (seen unknown reversing 11 (begun (first listed 3) 3)) ≡ 2 }
    ensures frames { highest_frames (seen unknown reversing 11 (begun (first listed 3) 3)) ≡ 0 }
    ensures words { highest_words (seen unknown reversing 11 (begun (first listed 3) 3)) ≡ 9 }
    ensures replayed { replay listed (events unknown reversing 11 (begun (first listed 3) 3)) 11 ≡ listed_reversed }
    ensures before { replay listed (events unknown reversing 11 (begun (first listed 3) 3)) 2 ≡ listed }
{}

/// A function that drops a list of two items releases both cells, the root's first. For who counts released cells.
pub fn an_example_forgets()
    ensures value { after known forgetting 3 (begun (at 0 flat (7 ∷ 0 ∷ [])) 1)
        ≡ Over (Value (0 ∷ [])) (at 2 flat_forgotten (7 ∷ 0 ∷ [])) 0 3 }
    ensures events { events known forgetting 3 (begun (at 0 flat (7 ∷ 0 ∷ [])) 1)
        ≡ record { step = 1; change = Release 3 } ∷ record { step = 1; change = Release 0 } ∷ [] }
    ensures lowest { lowest 2 (seen known forgetting 3 (begun (at 0 flat (7 ∷ 0 ∷ [])) 1)) ≡ 0 }
    ensures highest { highest 2 (seen known forgetting 3 (begun (at 0 flat (7 ∷ 0 ∷ [])) 1)) ≡ 2 }
{}
