// The theorems of runs on cells and on trees. Each is the contract of a function that does nothing.
ghost use Rattle.std.specs.Prelude.{◌≡◌, ℕ, pos, List, [], ◌∷◌};
ghost use Rattle.tree_semantics.specs.fip_language.Values.{Value, Values};
ghost use Rattle.tree_semantics.specs.fip_language.Meaning.{Answer};
ghost use Rattle.tree_semantics.specs.fip_language.Table.{Table, HaveTypes};
ghost use Rattle.tree_semantics.specs.fip_language.Example.{empty, item, pair};
ghost use Rattle.tree_semantics.specs.machine_semantics.Cells.{Store};
ghost use Rattle.tree_semantics.specs.machine_semantics.States.{State};
ghost use Rattle.tree_semantics.specs.machine_semantics.Steps.{Kinds, next};
ghost use Rattle.tree_semantics.specs.machine_semantics.Runs.{End, begun, after, Ends};
ghost use Rattle.tree_semantics.specs.machine_semantics.Runs as R;
ghost use Rattle.tree_semantics.specs.machine_semantics.Example.{listed, first};
ghost use Rattle.tree_semantics.specs.States as U;
ghost use Rattle.tree_semantics.specs.Steps as N;
ghost use Rattle.tree_semantics.specs.Runs as T;
ghost use Rattle.separation_bounds.specs.cell_code.Plain.{PlainCode, results};
ghost use Rattle.separation_bounds.specs.code_rules.Breaks.{IsSound};
ghost use Rattle.separation_bounds.specs.code_rules.Example.{reversal};
ghost use Rattle.separation_bounds.specs.separation.Codes.{HasLiterals, AreKinds};
ghost use Rattle.separation_bounds.specs.separation.Alive.{IsAlive};
ghost use Rattle.separation_bounds.specs.separation.Starts.{IsStart};
ghost use Rattle.tree_refinement.specs.Agreement.{IsWordOf, AreWordsOf, IsSame, IsSameNext};
ghost use Rattle.tree_refinement.specs.Runs.{BeginsWith, IsSameEnd, IsSameRun};

/// A word of a type stands for one value at most. For who asks whether a word could be read in two ways.
pub fn a_word_stands_for_one_value()
    ensures theorem { (types : Table) (s : Store) (type word : ℕ) (v u : Value) → IsWordOf types s type word v →
        IsWordOf types s type word u → v ≡ u }
{}

/// Values that words of some types stand for have these types. For who reads the results of a machine.
pub fn words_stand_for_values_of_their_types()
    ensures theorem { (types : Table) (s : Store) (ts words : List ℕ) (values : Values) →
        AreWordsOf types s ts words values → HaveTypes types ts values }
{}

/// The first registers of an entry stand for its arguments. For who doubts that a run has some.
pub fn an_entry_has_arguments()
    ensures theorem { (c : PlainCode) (before waits : Kinds) (n : ℕ) (kept : List ℕ) (s : State) →
        IsStart c before waits n kept s → (arguments : Values) × BeginsWith c n s arguments }
{}

/// The state in which an entry of sound code begins is the same on cells and on trees, with the values of its
/// arguments; and where two states are the same, what comes after them is the same. For who steps a machine and has no
/// run at hand.
pub fn each_step_on_cells_is_the_step_on_trees()
    ensures first { (c : PlainCode) (before waits : Kinds) (n : ℕ) (kept : List ℕ) (s : State)
        (arguments : Values) → IsStart c before waits n kept s → BeginsWith c n s arguments →
        IsSame c.types before waits s (T.entry n arguments s.free) }
    ensures next { (c : PlainCode) (before waits : Kinds) (types kept : List ℕ) (s : State) (t : U.State) →
        IsSound c → HasLiterals c → AreKinds c before waits → IsAlive c types kept s →
        IsSame c.types before waits s t →
        IsSameNext c.types before waits types s (next before c s) (N.next c t) }
{}

/// A run of sound code on cells is at each moment the run on trees, from the entry with the values of its arguments.
/// For who knows what code does to trees, and wants to know what it does to cells.
pub fn a_run_on_cells_is_the_run_on_trees()
    ensures theorem { (c : PlainCode) (before waits : Kinds) (n : ℕ) (kept : List ℕ) (s : State)
        (arguments : Values) (calls steps : ℕ) → IsStart c before waits n kept s → BeginsWith c n s arguments →
        IsSameRun c.types before waits (results c n) (after before c steps (begun s calls))
        (T.after c steps (T.begun (T.entry n arguments s.free) calls)) }
{}

/// A run of sound code on cells ends where the run on trees ends, with the same calls left: with words that stand for
/// its values, in the same trap, or out of calls or frames. And the run on trees ends where the one on cells does. For
/// who reads the results of a machine.
pub fn a_run_on_cells_ends_as_the_run_on_trees()
    ensures cells { (c : PlainCode) (before waits : Kinds) (n : ℕ) (kept : List ℕ) (s : State)
        (arguments : Values) (calls enough : ℕ) (answer : Answer) (last : U.State) (left steps : ℕ) →
        IsStart c before waits n kept s → BeginsWith c n s arguments →
        T.after c enough (T.begun (T.entry n arguments s.free) calls) ≡ T.Over answer last left steps →
        (e : End) × (end : State) × Ends before c s calls e end left steps
        × IsSameEnd c.types (results c n) end left e answer }
    ensures trees { (c : PlainCode) (before waits : Kinds) (n : ℕ) (kept : List ℕ) (s : State)
        (arguments : Values) (calls : ℕ) (e : End) (end : State) (left steps : ℕ) →
        IsStart c before waits n kept s → BeginsWith c n s arguments →
        (ends : Ends before c s calls e end left steps) →
        (answer : Answer) × (last : U.State)
        × (T.after c ends.enough (T.begun (T.entry n arguments s.free) calls)
        ≡ T.Over answer last left steps) × IsSameEnd c.types (results c n) end left e answer }
{}

/// The reversal of Cons(1, Cons(2, Nil)) and Nil, whose words are 3 and 0, ends after 11 steps with a word that stands
/// for Cons(2, Cons(1, Nil)), since it does so on trees. For who wants to see that what is required can be met.
pub fn an_example_ends_as_on_trees()
    ensures begins { (before waits : Kinds) → AreKinds reversal before waits →
        IsStart reversal before waits 0 [] (first listed 3)
        × BeginsWith reversal 0 (first listed 3) (pair (item (pos 1) (item (pos 2) empty)) empty) }
    ensures ends { (before waits : Kinds) → AreKinds reversal before waits →
        (word : ℕ) × (end : State)
        × Ends before reversal (first listed 3) 3 (R.Value (word ∷ [])) end 0 11
        × IsWordOf reversal.types end.store 2 word (item (pos 2) (item (pos 1) empty)) }
{}
