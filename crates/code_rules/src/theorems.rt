// The theorems of sound code. Each is the contract of a function that does nothing.
ghost use Rattle.std.specs.Prelude.{◌≡◌, ◌↔◌, ℕ, List, Option, Some};
ghost use Rattle.cell_code.specs.fip_base.declared.plain.Stack.{Stack};
ghost use Rattle.cell_code.specs.declared.code.Instr.{Instr};
ghost use Rattle.cell_code.specs.declared.kind.Kind.{Kind};
ghost use Rattle.call_groups.specs.declared.search.Call.{Call};
ghost use Rattle.call_groups.specs.CallGraph as G;
ghost use Rattle.code_rules.specs.declared.rule.SoundRule.{SoundRule};
ghost use Rattle.cell_code.specs.Plain.{PlainFunction, PlainCode};
ghost use Rattle.code_rules.specs.Leaves.{Leaves};
ghost use Rattle.code_rules.specs.Flow.{KnownAt};
ghost use Rattle.code_rules.specs.Calls.{SameGroup, AreRows};
ghost use Rattle.code_rules.specs.declared.rule.SoundRule.TheVariants.{S0, S1, S2, S3, S4, S5, S6, S7, S8, S9};
ghost use Rattle.code_rules.specs.Breaks.{IsLeast, IsSound};
ghost use Rattle.code_rules.specs.Example.{reversal, bool_is_turned, takes_past_the_end, gives_what_is_gone};
ghost use Rattle.code_rules.specs.Example.{puts_into_a_tree, has_no_end, promises_an_int, leaves_a_tree, drops_a_tree};
ghost use Rattle.code_rules.specs.Example.{waits_for_itself, has_no_result, reads_after_a_take};
ghost use Rattle.code_rules.specs.Example.{takes_an_heir, BreaksJust};
ghost use Rattle.code_rules.specs.StackNumbers.{HasStack};

/// An instruction leaves one list of kinds at most, and one is known at most before each instruction. For who walks
/// over a function once.
#[tactic(auto, using(crate::proofs::Once::leaves_once, crate::proofs::Once::known_once))]
pub fn kinds_are_one()
    ensures after { (c : PlainCode) (ks : List Kind) (x : Instr) (a b : List Kind) → Leaves c ks x a →
        Leaves c ks x b → a ≡ b }
    ensures before { (c : PlainCode) (f : PlainFunction) (i : ℕ) (a b : List Kind) → KnownAt c f i a →
        KnownAt c f i b → a ≡ b }
{}

/// A code has one least violation at most. For who names it.
pub fn the_least_violation_is_one()
    ensures theorem { (c : PlainCode) (n i : ℕ) (r : SoundRule) (m j : ℕ) (s : SoundRule) → IsLeast c n i r →
        IsLeast c m j s → (n ≡ m) × (i ≡ j) × (r ≡ s) }
{}

/// A function has one stack number at most, and then it isn't one that has none. For who reserves the stack of a run.
#[tactic(auto, using(crate::proofs::Numbers::has_once))]
pub fn a_stack_number_is_one()
    ensures theorem { (c : PlainCode) (n : ℕ) (o p : Option Stack) → HasStack c n o → HasStack c n p → o ≡ p }
{}

/// Where rows list the calls of a code, its groups are those of the rows. For who finds groups by rows.
pub fn groups_are_those_of_rows()
    ensures theorem { (c : PlainCode) (rows : List (List Call)) → AreRows c rows → (a b : ℕ) →
        (SameGroup c a b ↔ G.SameGroup rows a b) }
{}

/// The reversal of a list breaks no rule. For who doubts that there is sound code.
pub fn an_example_is_sound()
    ensures theorem { IsSound reversal }
{}

/// A code that differs from the reversal in one place breaks just the rule that speaks of it, at one instruction. For
/// who reads what a rule refuses. Bool's constructors are the other way round (S0); a register isn't there (S1); what
/// is gone is given (S2); a tree is overwritten (S3); nothing follows the last instruction (S4).
pub fn turned_examples_break_one_rule()
    ensures of_tables { BreaksJust bool_is_turned 0 S0 }
    ensures of_ranges { BreaksJust takes_past_the_end 3 S1 }
    ensures of_sources { BreaksJust gives_what_is_gone 2 S2 }
    ensures of_destinations { BreaksJust puts_into_a_tree 4 S3 }
    ensures of_ends { BreaksJust has_no_end 4 S4 }
{}

/// The same of the other rules: a label map promises what doesn't arrive, named where it comes from (S5); a tree is
/// left at a Ret (S6); a fip function drops a tree (S7), and waits for itself (S8); it has no result (S9).
pub fn other_turned_examples_break_one_rule()
    ensures of_labels { BreaksJust promises_an_int 0 S5 }
    ensures of_leftovers { BreaksJust leaves_a_tree 2 S6 }
    ensures of_releases { BreaksJust drops_a_tree 1 S7 }
    ensures of_groups { BreaksJust waits_for_itself 5 S8 }
    ensures of_headers { BreaksJust has_no_result 0 S9 }
{}

/// A word that was read from a cell is Gone once the cell is taken into other registers, and owned where it is taken
/// into the word's own. For who reads After Take.
pub fn what_was_read_goes_with_its_cell()
    ensures lost { BreaksJust reads_after_a_take 5 S2 }
    ensures kept { IsSound takes_an_heir }
{}

/// The reversal holds no frame but its own, of 9 words. For who wants to see a stack number.
pub fn an_example_has_its_stack_number()
    ensures theorem { HasStack reversal 0 (Some (record { frames = 0; words = 9 })) }
{}
