// What the texts of the library denote: each the program that is written out. The theorems are the contracts of
// functions that do nothing.
#![tactic(auto)]

ghost use Rattle.library_sources.specs.declared.list.TheConstants as list_text;
ghost use Rattle.library_sources.specs.declared.tree.TheConstants as tree_text;
ghost use Rattle.library_sources.specs.declared.rbtree.TheConstants as rbtree_text;
ghost use Rattle.library_sources.specs.declared.finger.TheConstants as finger_text;
ghost use Rattle.library_programs.specs.ListProgram.{list_program};
ghost use Rattle.library_programs.specs.TreeProgram.{tree_program};
ghost use Rattle.library_programs.specs.RedBlackProgram.{rbtree_program};
ghost use Rattle.library_programs.specs.FingerProgram.{finger_program};
ghost use Rattle.source_report.specs.Report.{IsTyped, IsAccepted};
ghost use Rattle.library_texts.specs.ComesTo.{ComesTo};

/// Each text of the library has just the typed program that is written out, places included, where it breaks no rule.
/// For who reads the theorems on these programs and runs the texts.
pub fn the_texts_come_to_the_programs()
    ensures list { ComesTo list_text.TEXT.now list_program }
    ensures tree { ComesTo tree_text.TEXT.now tree_program }
    ensures rbtree { ComesTo rbtree_text.TEXT.now rbtree_program }
    ensures finger { ComesTo finger_text.TEXT.now finger_program }
{}

/// Each text of the library is spelled, its declarations, its uses of functions and its types break no rule, and its
/// typed program is the one that is written out. For who has the program typed again.
pub fn the_texts_are_well_typed()
    ensures list { IsTyped list_text.TEXT.now list_program }
    ensures tree { IsTyped tree_text.TEXT.now tree_program }
    ensures rbtree { IsTyped rbtree_text.TEXT.now rbtree_program }
    ensures finger { IsTyped finger_text.TEXT.now finger_program }
{}

/// Each text of the library breaks no rule, and its typed program is the one that is written out. For who runs the texts.
pub fn the_texts_break_no_rule()
    ensures list { IsAccepted list_text.TEXT.now list_program }
    ensures tree { IsAccepted tree_text.TEXT.now tree_program }
    ensures rbtree { IsAccepted rbtree_text.TEXT.now rbtree_program }
    ensures finger { IsAccepted finger_text.TEXT.now finger_program }
{}
