// The theorems on cells, stack and steps of runs of sound code. Each is the contract of a function that does nothing.
ghost use Rattle.std.specs.Prelude.{◌≡◌, ◌≤◌, ◌*◌, ◌+◌, ℕ, suc, List};
ghost use Rattle.separation.specs.fip_language.Values.{cells_of_all};
ghost use Rattle.separation.specs.fip_language.Store.{values_of, count};
ghost use Rattle.separation.specs.fip_base.declared.plain.Stack.{Stack};
ghost use Rattle.separation.specs.machine_semantics.Cells.{count_held};
ghost use Rattle.separation.specs.machine_semantics.Gauges.{seen};
ghost use Rattle.separation.specs.machine_semantics.States.{State, frames_held, words_held};
ghost use Rattle.separation.specs.machine_semantics.Steps.{Kinds};
ghost use Rattle.separation.specs.machine_semantics.Runs.{End, Ends, Value, Deep, Over, state_of, begun, after};
ghost use Rattle.separation.specs.machine_semantics.Apart.{GivesApart};
ghost use Rattle.separation.specs.cell_code.Plain.{PlainCode};
ghost use Rattle.separation.specs.code_rules.StackNumbers.{IsFip, IsStack};
ghost use Rattle.separation.specs.Codes.{AreKinds};
ghost use Rattle.separation.specs.Starts.{IsStart};
ghost use Rattle.separation_bounds.specs.ByTrees.{cells_of_trees, cells_at};
ghost use Rattle.separation_bounds.specs.Held.{IsHeld};
ghost use Rattle.separation_bounds.specs.Lengths.{steps_of, AreAtMost};

/// The held cells of each state of a run of sound code are among those of the state before, and there are no more of
/// any size. For who asks what an fbip entry may do: it may release cells, and makes none.
pub fn held_cells_only_fall()
    ensures among { (c : PlainCode) (before waits : Kinds) (n : ℕ) (kept : List ℕ) (s : State) (calls steps p : ℕ) →
        IsStart c before waits n kept s →
        IsHeld (state_of (after before c (suc steps) (begun s calls))).store p →
        IsHeld (state_of (after before c steps (begun s calls))).store p }
    ensures fewer { (c : PlainCode) (before waits : Kinds) (n : ℕ) (kept : List ℕ) (s : State)
        (calls steps size : ℕ) → IsStart c before waits n kept s →
        count_held size (state_of (after before c (suc steps) (begun s calls))).store
        ≤ count_held size (state_of (after before c steps (begun s calls))).store }
{}

/// In a run of a fip entry of sound code no cell is released, so as many are held of each size in every state as in the
/// first one. For who has no allocator.
pub fn fip_runs_release_nothing()
    ensures released { (c : PlainCode) (before waits : Kinds) (n : ℕ) (kept : List ℕ) (s : State)
        (calls steps : ℕ) → IsStart c before waits n kept s → IsFip c n →
        (state_of (after before c steps (begun s calls))).store.released ≡ s.store.released }
    ensures held { (c : PlainCode) (before waits : Kinds) (n : ℕ) (kept : List ℕ) (s : State)
        (calls steps size : ℕ) → IsStart c before waits n kept s → IsFip c n →
        count_held size (state_of (after before c steps (begun s calls))).store
        ≡ count_held size s.store }
{}

/// In every state of a run of a fip entry of sound code the frames beside the entry's and the words of all frames are
/// at most those of its stack number. For who reserves its stack.
pub fn fip_runs_stay_within_their_stack()
    ensures frames { (c : PlainCode) (before waits : Kinds) (n : ℕ) (kept : List ℕ) (s : State) (calls steps : ℕ)
        (stack : Stack) → IsStart c before waits n kept s → IsFip c n → IsStack c n stack →
        frames_held (state_of (after before c steps (begun s calls))) ≤ stack.frames }
    ensures words { (c : PlainCode) (before waits : Kinds) (n : ℕ) (kept : List ℕ) (s : State) (calls steps : ℕ)
        (stack : Stack) → IsStart c before waits n kept s → IsFip c n → IsStack c n stack →
        words_held (state_of (after before c steps (begun s calls))) ≤ stack.words }
{}

/// With as many free frames as its stack number says, a run of a fip entry of sound code never ends for lack of one.
/// For who grants it the frames.
pub fn fip_runs_are_never_too_deep()
    ensures theorem { (c : PlainCode) (before waits : Kinds) (n : ℕ) (kept : List ℕ) (s : State) (calls steps : ℕ)
        (stack : Stack) (last : State) (left done : ℕ) → IsStart c before waits n kept s → IsFip c n →
        IsStack c n stack → stack.frames ≤ s.free →
        after before c steps (begun s calls) ≡ Over Deep last left done → ⊥ }
{}

/// A run of sound code takes at most as many steps for each of its calls as its longest function has instructions, so
/// it ends. For who waits for it.
pub fn a_run_takes_few_steps()
    ensures theorem { (c : PlainCode) (before waits : Kinds) (n : ℕ) (kept : List ℕ) (s : State)
        (calls steps most : ℕ) → IsStart c before waits n kept s → AreAtMost c most →
        steps_of (after before c steps (begun s calls)) ≤ calls * most }
{}

/// A run of sound code ends, with any number of calls; and in one way, whichever kinds are given, and as much is seen
/// of its states. For who waits for its results.
pub fn a_run_ends()
    ensures some { (c : PlainCode) (before waits : Kinds) (n : ℕ) (kept : List ℕ) (s : State) (calls : ℕ) →
        IsStart c before waits n kept s → (e : End) × (last : State) × (left : ℕ) × (steps : ℕ)
        × Ends before c s calls e last left steps }
    ensures one { (c : PlainCode) (before waits first other : Kinds) (n : ℕ) (kept : List ℕ) (s : State)
        (calls : ℕ) (e d : End) (last end : State) (left more steps done : ℕ) → IsStart c before waits n kept s →
        AreKinds c first other → Ends before c s calls e last left steps →
        Ends first c s calls d end more done → Over e last left steps ≡ Over d end more done }
    ensures seen { (c : PlainCode) (before waits first other : Kinds) (n : ℕ) (kept : List ℕ) (s : State)
        (calls steps : ℕ) → IsStart c before waits n kept s → AreKinds c first other →
        seen before c steps (begun s calls) ≡ seen first c steps (begun s calls) }
{}

/// The held cells of each size are, in the first state, those of the arguments' values, the credits and the kept cells,
/// and where the run gave a value, those of the results' and the borrowed arguments' trees and the kept cells. So what
/// a gauge sees at both ends can be computed by trees. For who compares the two.
pub fn held_cells_are_those_of_the_trees()
    ensures first { (c : PlainCode) (before waits : Kinds) (n : ℕ) (kept : List ℕ) (s : State) (size : ℕ) →
        (t : IsStart c before waits n kept s) → count_held size s.store
        ≡ cells_of_all size (values_of t.given.arguments)
        + (count size t.function.credits + cells_at size s.store kept) }
    ensures last { (c : PlainCode) (before waits : Kinds) (n : ℕ) (kept : List ℕ) (s : State) (calls steps : ℕ)
        (words : List ℕ) (last : State) (left done size : ℕ) → IsStart c before waits n kept s →
        after before c steps (begun s calls) ≡ Over (Value words) last left done →
        (g : GivesApart c n kept last words) → count_held size last.store
        ≡ cells_of_trees size g.results + (cells_of_trees size g.lent + cells_at size last.store kept) }
{}

/// Where a run of a fip entry of sound code gives a value, the results and the borrowed arguments have together as many
/// cells of each size as the arguments and the entry's credits. For who knows no compiler, and asks for nothing but a
/// verified code.
pub fn fip_runs_give_back_their_cells()
    ensures theorem { (c : PlainCode) (before waits : Kinds) (n : ℕ) (kept : List ℕ) (s : State) (calls steps : ℕ)
        (words : List ℕ) (last : State) (left done size : ℕ) → (t : IsStart c before waits n kept s) → IsFip c n →
        after before c steps (begun s calls) ≡ Over (Value words) last left done →
        (g : GivesApart c n kept last words) →
        cells_of_trees size g.results + cells_of_trees size g.lent
        ≡ cells_of_all size (values_of t.given.arguments) + count size t.function.credits }
{}
