// The theorems of runs of sound code. Each is the contract of a function that does nothing.
ghost use Rattle.std.specs.Prelude.{◌≡◌, ℕ, List, []};
ghost use Rattle.separation_kinds.specs.cell_code.Plain.{PlainCode, results};
ghost use Rattle.separation_kinds.specs.machine_semantics.States.{State};
ghost use Rattle.separation_kinds.specs.machine_semantics.Steps.{Kinds, next};
ghost use Rattle.separation_kinds.specs.machine_semantics.Runs.{Value, Unsound, Over, state_of, begun, after};
ghost use Rattle.separation_kinds.specs.machine_semantics.Apart.{Apart, GivesApart};
ghost use Rattle.separation_kinds.specs.machine_semantics.Example.{listed, first};
ghost use Rattle.separation_kinds.specs.code_rules.Breaks.{IsSound};
ghost use Rattle.separation_kinds.specs.code_rules.Example.{reversal};
ghost use Rattle.separation.specs.Codes.{HasLiterals, AreKinds};
ghost use Rattle.separation.specs.Alive.{IsAlive, IsGood};
ghost use Rattle.separation.specs.Starts.{IsStart};

/// Every code has its kinds: those before each instruction that is reached, and those that wait at a Call. For who
/// doubts that a run can begin.
pub fn kinds_are_there()
    ensures theorem { (c : PlainCode) → (before : Kinds) × (waits : Kinds) × AreKinds c before waits }
{}

/// The state in which an entry of sound code begins has its cells apart. For who loads a run.
pub fn a_loaded_state_is_apart()
    ensures theorem { (c : PlainCode) (before waits : Kinds) (n : ℕ) (kept : List ℕ) (s : State) →
        IsStart c before waits n kept s → Apart before waits c kept s }
{}

/// What holds of every state of a run, in the form that each step keeps: it holds of the first one; what comes after
/// one where it holds is a state where it holds, a right end, or out of frames, and never that an instruction can't
/// be done; and where it holds the cells are apart. For who steps a machine and has no run at hand.
pub fn each_step_keeps_what_holds()
    ensures first { (c : PlainCode) (before waits : Kinds) (n : ℕ) (kept : List ℕ) (s : State) →
        IsStart c before waits n kept s → IsAlive c (results c n) kept s }
    ensures next { (c : PlainCode) (before waits : Kinds) (types kept : List ℕ) (s : State) → IsSound c →
        HasLiterals c → AreKinds c before waits → IsAlive c types kept s →
        IsGood c types kept s (next before c s) }
    ensures apart { (c : PlainCode) (before waits : Kinds) (types kept : List ℕ) (s : State) →
        AreKinds c before waits → IsAlive c types kept s → Apart before waits c kept s }
{}

/// Every state of a run of sound code has its cells apart, with the same kept cells, however the code was made. For who
/// runs the code of a stranger.
pub fn every_state_is_apart()
    ensures theorem { (c : PlainCode) (before waits : Kinds) (n : ℕ) (kept : List ℕ) (s : State) (calls steps : ℕ) →
        IsStart c before waits n kept s →
        Apart before waits c kept (state_of (after before c steps (begun s calls))) }
{}

/// No run of sound code ends because an instruction can't be done. For who runs it without a test.
pub fn no_instruction_is_stuck()
    ensures theorem { (c : PlainCode) (before waits : Kinds) (n : ℕ) (kept : List ℕ) (s : State) (calls steps : ℕ)
        (last : State) (left done : ℕ) → IsStart c before waits n kept s →
        after before c steps (begun s calls) ≡ Over Unsound last left done → ⊥ }
{}

/// The words that a run of sound code gives stand for trees of the entry's result types, which are apart from the
/// borrowed arguments, the kept and the released cells, and with these are all cells. For who reads the results.
pub fn results_are_apart()
    ensures theorem { (c : PlainCode) (before waits : Kinds) (n : ℕ) (kept : List ℕ) (s : State) (calls steps : ℕ)
        (words : List ℕ) (last : State) (left done : ℕ) → IsStart c before waits n kept s →
        after before c steps (begun s calls) ≡ Over (Value words) last left done →
        GivesApart c n kept last words }
{}

/// The reversal of a list of two items begins in the state that has just the two cells. For who wants to see that what
/// is required can be met.
pub fn an_example_begins()
    ensures theorem { (before waits : Kinds) → AreKinds reversal before waits →
        IsStart reversal before waits 0 [] (first listed 3) }
{}
