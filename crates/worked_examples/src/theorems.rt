// What the definitions say of small programs and codes. Each theorem is the contract of a function that does nothing.
ghost use Rattle.std.specs.Prelude.{◌≡◌, ℕ, pos, Bool, true, false, List, [], ◌∷◌, Some, codes};
ghost use Rattle.source_report.specs.fip_language.declared.rule.Rule.TheVariants.{E10, E11, E12, E13, E30, E31, E56, E62};
ghost use Rattle.source_report.specs.fip_language.Example.{at, here};
ghost use Rattle.source_report.specs.fip_trees.declared.least.Violation.{Violation};
ghost use Rattle.source_report.specs.fip_trees.Least.{violation};
ghost use Rattle.source_report.specs.fip_trees.Tree.{Literal};
ghost use Rattle.source_report.specs.instance_semantics.Example.{lists, nil};
ghost use Rattle.source_report.specs.data_types.Answers as D;
ghost use Rattle.source_report.specs.data_types.Faults.{broken, written_violations};
ghost use Rattle.source_report.specs.data_types.Types.{IsValued};
ghost use Rattle.source_report.specs.type_check.Faults.{type_faults, filled};
ghost use Rattle.source_report.specs.match_cover.Missing.{IsMissingOf};
ghost use Rattle.source_report.specs.credit_check.Credits.{Violates};
ghost use Rattle.source_report.specs.credit_check.Needs.{need_block};
ghost use Rattle.source_report.specs.tail_groups.Registers.{registers};
ghost use Rattle.source_report.specs.tail_groups.Members.{frame};
ghost use Rattle.source_report.specs.tail_groups.Sites.{call_rows};
ghost use Rattle.source_report.specs.call_groups.Stacks.{AreStacks};
ghost use Rattle.source_report.specs.cell_code.declared.kind.Kind.TheVariants.{Gone, Scalar, Owned, Credit};
ghost use Rattle.source_report.specs.code_rules.Flow.{KnownAt};
ghost use Rattle.source_report.specs.code_rules.Example.{reversal};
ghost use Rattle.source_report.specs.ownership_calculus.Functions.{Derived};
ghost use Rattle.source_report.specs.Report.{IsAccepted};
ghost use Rattle.worked_examples.specs.Empty.{empty_program};
ghost use Rattle.worked_examples.specs.Terms.{given_back, dropped, twice};
ghost use Rattle.worked_examples.specs.Declared.{list_type, endless_type, growing_type};
ghost use Rattle.worked_examples.specs.Declaring.{list_with, with_brackets, without_brackets, endless, unknown};
ghost use Rattle.worked_examples.specs.Declaring.{with_two};
ghost use Rattle.worked_examples.specs.Programs.{number_with, unknown_variable, push, top, pushing, a_stack};
ghost use Rattle.worked_examples.specs.Matches.{two_or_none, just_one, one_or_two, literal};
ghost use Rattle.worked_examples.specs.Codes.{rev, four_known, a_list, any_list};

/// Lists of anything have a value, whatever their parameter is; a type whose one constructor needs a value of the type
/// has none, also where its argument grows. For who asks when E13 is broken.
#[tactic(auto, using(crate::proofs::Declared::computed))]
pub fn which_types_have_a_value()
    ensures list { IsValued list_type 0 }
    ensures endless { IsValued endless_type 0 → ⊥ }
    ensures growing { IsValued growing_type 0 → ⊥ }
{}

/// Lists of anything break no rule on declarations; without brackets the list in Cons has too few arguments (E12). A
/// type that holds itself has no value (E13), which is all that it breaks; a type that is unknown breaks E11 alone; and
/// a second constructor of a name breaks E10. For who reads what declarations break.
pub fn what_small_declarations_break()
    ensures none { (v : Violation) → D.Violates (list_with with_brackets) v → ⊥ }
    ensures brackets { written_violations (list_with without_brackets) ≡ broken E12 (at 1 29) (codes "list") ∷ [] }
    ensures endless { D.IsFirst endless (broken E13 (at 1 6) (codes "inf")) }
    ensures just_endless { (v : Violation) → D.Violates endless v → v ≡ broken E13 (at 1 6) (codes "inf") }
    ensures unknown { (v : Violation) → D.Violates unknown v → v ≡ broken E11 (at 1 12) (codes "nat") }
    ensures named { written_violations unknown ≡ broken E11 (at 1 12) (codes "nat") ∷ [] }
    ensures twice { written_violations with_two ≡ broken E10 (at 2 13) (codes "X") ∷ [] }
{}

/// The program of lists breaks no rule on types, and filling in its types changes nothing; with another body one of its
/// functions breaks just one: a list is no int (E30), and a variable is unknown (E31). For who reads what types break.
#[tactic(auto, using(crate::proofs::Typed::computed))]
pub fn types_of_small_programs()
    ensures none { type_faults lists ≡ [] }
    ensures filled { filled lists ≡ lists }
    ensures other_type { type_faults (number_with nil) ≡ violation E30 here 0 0 [] ∷ [] }
    ensures unknown { type_faults (number_with unknown_variable) ≡ violation E31 (at 4 40) 0 0 (codes "y") ∷ [] }
    ensures int { type_faults (number_with (Literal (pos 7) here)) ≡ [] }
{}

/// Nil and lists of two or more miss the list of just one; 1 and 2 miss 0. For who reads a missing pattern.
#[tactic(auto, using(crate::proofs::Missing::computed))]
pub fn missing_patterns()
    ensures list { IsMissingOf lists.types 2 two_or_none just_one }
    ensures number { IsMissingOf lists.types 0 one_or_two (literal 0) }
{}

/// A constructor with two fields needs a credit of size 2, which its header marks: without the mark E56 is broken, with
/// one no rule on credits is, and with two E62 is. For who writes a header.
#[tactic(auto, using(crate::proofs::Credits::computed))]
pub fn credits_of_a_header()
    ensures needs { need_block (pushing []) 2 (push []).body ≡ 1 }
    ensures calls { need_block (pushing (2 ∷ [])) 2 top.body ≡ 0 }
    ensures missing { Violates (pushing []) (violation E56 here 0 2 []) }
    ensures enough { (v : Violation) → Violates (pushing (2 ∷ [])) v → ⊥ }
    ensures many { Violates (pushing (2 ∷ 2 ∷ [])) (violation E62 here 0 2 []) }
{}

/// A credit of a header takes a register. push has 4 registers, so its frame has 6 words; top has 8, and its frame 10,
/// in whose place push's comes: they hold 6 and 10 words and no frame beside their own. For who reserves a stack.
#[tactic(auto, using(crate::proofs::Stacks::computed))]
pub fn stack_numbers_with_credits()
    ensures push { registers (push (2 ∷ [])) ≡ 4 }
    ensures top { registers top ≡ 8 }
    ensures frame { frame (push (2 ∷ [])) ≡ Some 6 }
    ensures stacks { AreStacks (call_rows (push (2 ∷ []) ∷ top ∷ [])) (Some 6 ∷ Some 10 ∷ [])
        (Some (a_stack 0 6) ∷ Some (a_stack 0 10) ∷ []) }
{}

/// What is known of the registers of the reversal before each of its instructions: which constructors the list may
/// have, and after the Take the item, the rest and the credit. For who reads a verifier's kinds.
#[tactic(auto, using(crate::proofs::Registers::computed))]
pub fn kinds_at_each_instruction()
    ensures test { KnownAt reversal rev 0 (four_known any_list any_list Gone Gone) }
    ensures nil_taken { KnownAt reversal rev 1 (four_known (a_list (0 ∷ [])) any_list Gone Gone) }
    ensures acc_given { KnownAt reversal rev 2 (four_known Gone any_list Gone Gone) }
    ensures cons_taken { KnownAt reversal rev 3 (four_known (a_list (1 ∷ [])) any_list Gone Gone) }
    ensures cons_put { KnownAt reversal rev 4 (four_known (Credit 2) any_list (Scalar 0) any_list) }
    ensures again { KnownAt reversal rev 5 (four_known (a_list (1 ∷ [])) Gone (Scalar 0) any_list) }
{}

/// A list that is given back is derived. One that is dropped isn't in fip, and is in fbip; one that is given twice is
/// in neither. For who asks what the calculus refuses.
#[tactic(auto, using(crate::proofs::Owning::computed))]
pub fn what_the_calculus_derives()
    ensures given { Derived true [] (0 ∷ []) [] given_back }
    ensures dropped { Derived true [] (0 ∷ []) [] dropped → ⊥ }
    ensures in_fbip { Derived false [] (0 ∷ []) [] dropped }
    ensures twice { (fip : Bool) → Derived fip [] (0 ∷ []) [] twice → ⊥ }
{}

/// The source without any text breaks no rule, and this is its program: what is said of accepted sources is said of
/// one. For who asks whether any source is accepted.
#[tactic(auto, using(crate::proofs::Empty::accepted))]
pub fn an_empty_source_is_accepted()
    ensures theorem { IsAccepted [] empty_program }
{}
