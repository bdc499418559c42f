// The theorems on kept cells. Each is the contract of a function that does nothing.
ghost use Rattle.std.specs.Prelude.{◌≡◌, ◌<◌, ℕ, List};
ghost use Rattle.separation.specs.fip_language.Store.{count};
ghost use Rattle.separation.specs.machine_semantics.Cells.{cell_at, released_at};
ghost use Rattle.separation.specs.machine_semantics.Runs.{state_of, begun, after};
ghost use Rattle.separation.specs.machine_semantics.States.{State, Went, Entered};
ghost use Rattle.separation.specs.machine_semantics.Steps.{Kinds, next};
ghost use Rattle.separation.specs.code_rules.Breaks.{IsSound};
ghost use Rattle.separation.specs.cell_code.Plain.{PlainCode};
ghost use Rattle.separation.specs.Alive.{IsAlive};
ghost use Rattle.separation.specs.Codes.{HasLiterals, AreKinds};
ghost use Rattle.separation.specs.Starts.{IsStart};

/// A step of sound code from a state of a run leaves each kept cell with its constructor and its fields. For who steps a
/// machine over a store that others read.
pub fn no_step_changes_a_kept_cell()
    ensures went { (c : PlainCode) (before waits : Kinds) (types kept : List ℕ) (s t : State) (p : ℕ) → IsSound c →
        HasLiterals c → AreKinds c before waits → IsAlive c types kept s → 0 < count p kept →
        next before c s ≡ Went t → cell_at t.store p ≡ cell_at s.store p }
    ensures entered { (c : PlainCode) (before : Kinds) (s t : State) (p : ℕ) →
        next before c s ≡ Entered t → cell_at t.store p ≡ cell_at s.store p }
{}

/// After any steps of a run of sound code each kept cell has the constructor and the fields that it had before the
/// first, and isn't released. For who keeps values in a store that a stranger's code runs over.
pub fn a_run_leaves_kept_cells_as_they_were()
    ensures theorem { (c : PlainCode) (before waits : Kinds) (n : ℕ) (kept : List ℕ) (s : State) (calls steps p : ℕ) →
        IsStart c before waits n kept s → 0 < count p kept →
        cell_at (state_of (after before c steps (begun s calls))).store p ≡ cell_at s.store p }
    ensures held { (c : PlainCode) (before waits : Kinds) (n : ℕ) (kept : List ℕ) (s : State) (calls steps p : ℕ) →
        IsStart c before waits n kept s → 0 < count p kept →
        released_at (state_of (after before c steps (begun s calls))).store p ≡ 0 }
{}
