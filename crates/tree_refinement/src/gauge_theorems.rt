// The theorems on what is reported of runs of sound code. Each is the contract of a function that does nothing.
ghost use Rattle.std.specs.Prelude.{◌≡◌, ◌≤◌, ◌+◌, ℕ, List, []};
ghost use Rattle.tree_semantics.specs.fip_language.Gauge.{lowest, highest, highest_frames, highest_words};
ghost use Rattle.tree_semantics.specs.fip_language.Store.{count};
ghost use Rattle.tree_semantics.specs.fip_language.Values.{Values, cells_of_all};
ghost use Rattle.tree_semantics.specs.machine_semantics.Gauges.{seen};
ghost use Rattle.tree_semantics.specs.machine_semantics.Runs.{End, Ends, Value, begun};
ghost use Rattle.tree_semantics.specs.machine_semantics.States.{State};
ghost use Rattle.tree_semantics.specs.machine_semantics.Steps.{Kinds};
ghost use Rattle.separation_bounds.specs.cell_code.Plain.{PlainCode, results};
ghost use Rattle.separation_bounds.specs.separation.Starts.{IsStart};
ghost use Rattle.tree_refinement.specs.Agreement.{AreWordsOf};
ghost use Rattle.tree_refinement.specs.Runs.{BeginsWith};
ghost use Rattle.tree_refinement.specs.Alike.{IsAlike};
ghost use Rattle.tree_refinement.specs.LentValues.{lent_values};

/// Two runs of a function of sound code on the same values, with the same calls and free frames, end alike, wherever
/// the cells of each lie: with the same calls left, after the same steps. And both gauges report the same: of the
/// stack, and where no other cells are kept, of the cells too, of a run that gives values. For who loads a run
/// elsewhere.
pub fn a_run_is_the_same_wherever_its_cells_lie()
    ensures ends { (c : PlainCode) (before waits first other : Kinds) (n : ℕ) (kept more : List ℕ) (s u : State)
        (vs : Values) (calls : ℕ) (e d : End) (last end : State) (left rest steps done : ℕ) →
        IsStart c before waits n kept s → BeginsWith c n s vs → IsStart c first other n more u →
        BeginsWith c n u vs → s.free ≡ u.free → Ends before c s calls e last left steps →
        Ends first c u calls d end rest done →
        IsAlike c.types (results c n) last.store e end.store d × (left ≡ rest) × (steps ≡ done) }
    ensures frames { (c : PlainCode) (before waits first other : Kinds) (n : ℕ) (kept more : List ℕ) (s u : State)
        (vs : Values) (calls : ℕ) (e d : End) (last end : State) (left rest steps done : ℕ) →
        IsStart c before waits n kept s → BeginsWith c n s vs → IsStart c first other n more u →
        BeginsWith c n u vs → s.free ≡ u.free → (x : Ends before c s calls e last left steps) →
        (y : Ends first c u calls d end rest done) →
        highest_frames (seen before c x.enough (begun s calls))
        ≡ highest_frames (seen first c y.enough (begun u calls)) }
    ensures words { (c : PlainCode) (before waits first other : Kinds) (n : ℕ) (kept more : List ℕ) (s u : State)
        (vs : Values) (calls : ℕ) (e d : End) (last end : State) (left rest steps done : ℕ) →
        IsStart c before waits n kept s → BeginsWith c n s vs → IsStart c first other n more u →
        BeginsWith c n u vs → s.free ≡ u.free → (x : Ends before c s calls e last left steps) →
        (y : Ends first c u calls d end rest done) →
        highest_words (seen before c x.enough (begun s calls))
        ≡ highest_words (seen first c y.enough (begun u calls)) }
    ensures highest { (c : PlainCode) (before waits first other : Kinds) (n : ℕ) (s u : State) (vs : Values)
        (calls steps done size : ℕ) → IsStart c before waits n [] s → BeginsWith c n s vs →
        IsStart c first other n [] u → BeginsWith c n u vs → 1 ≤ size →
        highest size (seen before c steps (begun s calls))
        ≡ highest size (seen first c done (begun u calls)) }
    ensures lowest { (c : PlainCode) (before waits first other : Kinds) (n : ℕ) (s u : State) (vs : Values)
        (calls : ℕ) (ws us : List ℕ) (last end : State) (left rest steps done size : ℕ) →
        IsStart c before waits n [] s → BeginsWith c n s vs → IsStart c first other n [] u → BeginsWith c n u vs →
        s.free ≡ u.free → (x : Ends before c s calls (Value ws) last left steps) →
        (y : Ends first c u calls (Value us) end rest done) → 1 ≤ size →
        lowest size (seen before c x.enough (begun s calls))
        ≡ lowest size (seen first c y.enough (begun u calls)) }
{}

/// What the gauge of a run of sound code reports of the cells of each size, by trees: as the highest number that of the
/// arguments' cells and the credits, and where the run gives values, as the lowest that of the results' cells and the
/// borrowed arguments'. For who computes it without a run.
pub fn a_gauge_of_cells_is_said_by_trees()
    ensures highest { (c : PlainCode) (before waits : Kinds) (n : ℕ) (s : State) (vs : Values)
        (calls steps size : ℕ) → (t : IsStart c before waits n [] s) → BeginsWith c n s vs → 1 ≤ size →
        highest size (seen before c steps (begun s calls))
        ≡ cells_of_all size vs + count size t.function.credits }
    ensures lowest { (c : PlainCode) (before waits : Kinds) (n : ℕ) (s : State) (vs us : Values) (calls size : ℕ)
        (words : List ℕ) (last : State) (left steps : ℕ) → (t : IsStart c before waits n [] s) →
        BeginsWith c n s vs → 1 ≤ size → (e : Ends before c s calls (Value words) last left steps) →
        AreWordsOf c.types last.store (results c n) words us →
        lowest size (seen before c e.enough (begun s calls))
        ≡ cells_of_all size us + cells_of_all size (lent_values t.function.params vs) }
{}
