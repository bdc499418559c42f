// The theorems on calls over a store that holds what names hold. Each is the contract of a function that does nothing.
ghost use Rattle.std.specs.Prelude.{◌≡◌, ℕ, List};
ghost use Rattle.tree_refinement.specs.fip_language.Table.{Table};
ghost use Rattle.separation_bounds.specs.cell_code.Plain.{PlainCode, results};
ghost use Rattle.tree_refinement.specs.machine_semantics.Cells.{Store, count_held};
ghost use Rattle.tree_refinement.specs.machine_semantics.Runs.{Over, Value, state_of};
ghost use Rattle.tree_refinement.specs.machine_semantics.States.{State};
ghost use Rattle.tree_refinement.specs.machine_semantics.Steps.{Kinds};
ghost use Rattle.tree_refinement.specs.separation.Starts.{IsStart};
ghost use Rattle.session_correctness.specs.Called.{IsHeld, IsHeldWith, IsGivenUp, IsSwept};
ghost use Rattle.session_correctness.specs.Calling.{CallOf, held_after, lent, gone, run_after};
ghost use Rattle.session_correctness.specs.Counted.{lodged_cells};
ghost use Rattle.session_correctness.specs.Leaving.{Leaves};
ghost use Rattle.session_correctness.specs.Lodging.{Lodged, lodged_uses};

/// In each state of a run the cells that are kept beside it, and those of its borrowed arguments, are as they were. For
/// who holds values while a function runs on others.
pub fn a_run_leaves_what_it_is_not_given()
    ensures theorem { (c : PlainCode) (before waits : Kinds) (n : ℕ) (kept : List ℕ) (s : State)
        (t : IsStart c before waits n kept s) (calls k : ℕ) → Leaves c.types t.function.params t.given.arguments kept
        s.store (state_of (run_after c before s calls k)).store }
{}

/// After a call that gave words, with the line's borrowed values given up, the cells that aren't released are those of
/// what is held and of the results, each once. For who wants to know what a session's store has after `ok`.
pub fn a_call_leaves_its_results()
    ensures theorem { (c : PlainCode) (before waits : Kinds) (h : CallOf c before waits) (calls k : ℕ) (ws : List ℕ)
        (last : State) (left steps : ℕ) (u : Store) → run_after c before h.state calls k ≡
        Over (Value ws) last left steps → IsGivenUp (lent h) last.store u →
        IsHeldWith c.types (held_after c h) (results c h.entry) ws u }
{}

/// After any state of a call's run, with all that it was given gone, the cells that aren't released are those of what
/// is held. For who wants to know what a session's store has after a trap, or out of calls or frames.
pub fn a_call_without_a_value_leaves_what_is_held()
    ensures theorem { (c : PlainCode) (before waits : Kinds) (h : CallOf c before waits) (calls k : ℕ) (u : Store) →
        IsGivenUp (gone h) (state_of (run_after c before h.state calls k)).store u →
        IsHeld c.types (held_after c h) u }
{}

/// The same, where all cells but those of what is held are given up. For who looks through the whole store.
pub fn a_swept_store_has_what_is_held()
    ensures theorem { (c : PlainCode) (before waits : Kinds) (h : CallOf c before waits) (calls k : ℕ) (u : Store) →
        IsSwept (lodged_uses (held_after c h)) (state_of (run_after c before h.state calls k)).store u →
        IsHeld c.types (held_after c h) u }
{}

/// The cells of a size that aren't released are as many as those of the values that are held. For who counts the cells
/// of a session.
#[tactic(auto, using(crate::proofs::StoreFacts::counted))]
pub fn cells_are_those_of_what_is_held()
    ensures theorem { (tb : Table) (k : ℕ) (ls : List Lodged) (s : Store) → IsHeld tb ls s →
        count_held k s ≡ lodged_cells k ls }
{}
