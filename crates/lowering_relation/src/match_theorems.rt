// The theorems of the definitions. Each is the contract of a function that does nothing.
ghost use Rattle.std.specs.Prelude.{◌≡◌, ◌≤◌, ℕ, List, true, false, Some, slice_get};
ghost use Rattle.tree_semantics.specs.fip_language.Matching.{Binding};
ghost use Rattle.tree_semantics.specs.fip_language.Values.{Value};
ghost use Rattle.credit_check.specs.fip_trees.Tree.{Pattern};
ghost use Rattle.instance_semantics.specs.Matching.{matching};
ghost use Rattle.code_rules.specs.cell_code.declared.code.Instr.{Instr};
ghost use Rattle.tree_semantics.specs.Contents.{Contents};
ghost use Rattle.match_knowledge.specs.declared.verdicts.Verdict.TheVariants.{Fits, Asks};
ghost use Rattle.match_knowledge.specs.Known.{Known, compare, side};
ghost use Rattle.lowering_relation.specs.Known as L;
ghost use Rattle.lowering_relation.specs.Values.{Setting};
ghost use Rattle.lowering_relation.specs.Written.{Written, HasFrom, added, size};
ghost use Rattle.lowering_relation.specs.Spots.{Spot, register};
ghost use Rattle.lowering_relation.specs.Rows.{row_of};
ghost use Rattle.lowering_relation.specs.Reading.{Asked, Reading, asked, reading};
ghost use Rattle.lowering_relation.specs.Opening.{Opened, naming, taking};
ghost use Rattle.lowering_relation.specs.Landing.{Good, IsScene, LeadsTo, RuledOut, Scene, test_of};
ghost use Rattle.lowering_relation.specs.Entering.{IsSo, entering_root};

/// A test of the position that a clause asks for first leads to the right clauses where both its sides do. For who
/// writes the tests of a match.
pub fn a_test_leads_where_its_sides_do()
    ensures theorem { (s : Scene) → IsScene s → (n : ℕ) (to : ℕ → ℕ) (code : List Instr) (k : Known) (x : Reading)
        (i : ℕ) (q : Pattern) (a : Asked) (label : ℕ) → slice_get s.patterns i ≡ Some q →
        compare (row_of q) k ≡ Asks → asked (row_of q) k s.root ≡ Some a → n ≤ size x.written →
        HasFrom n (added (reading (row_of q) k s.root x).written (test_of a.register a.head label)) to code →
        Good s to code (size (added (reading (row_of q) k s.root x).written (test_of a.register a.head label)))
        (side true (row_of q) k) (reading (row_of q) k s.root x).read →
        Good s to code (to label) (side false (row_of q) k) (reading (row_of q) k s.root x).read →
        Good s to code (size x.written) k x.read }
{}

/// The first clause that isn't ruled out and asks for nothing more gets the fields of the cells that it takes apart.
pub fn a_chosen_clause_gets_its_cells()
    ensures theorem { (s : Scene) → IsScene s → (n : ℕ) (to : ℕ → ℕ) (code : List Instr) (k : Known) (read : List ℕ)
        (w : Written) (i : ℕ) (q : Pattern) → s.takes ≡ true → slice_get s.patterns i ≡ Some q → RuledOut s k i →
        compare (row_of q) k ≡ Fits → n ≤ size w → HasFrom n (taking q s.root w) to code →
        LeadsTo s to code (size (taking q s.root w)) i → Good s to code (size w) k read }
{}

/// Where its cells stay, it gets what it names.
pub fn a_chosen_clause_gets_its_values()
    ensures theorem { (s : Scene) → IsScene s → (n : ℕ) (to : ℕ → ℕ) (code : List Instr) (k : Known) (x : Reading)
        (i : ℕ) (q : Pattern) → s.takes ≡ false → slice_get s.patterns i ≡ Some q → RuledOut s k i →
        compare (row_of q) k ≡ Fits → n ≤ size x.written → HasFrom n (naming q s.root x).written to code →
        LeadsTo s to code (size (naming q s.root x).written) i → Good s to code (size x.written) k x.read }
{}

/// What is known at the entry of a clause's body is so, where registers hold what its pattern bound.
pub fn entries_report_what_is_so()
    ensures theorem { (s : Setting) (takes : _) (q : Pattern) (p : Spot) (v : Value) (k : L.Known) (cs : Contents)
        (ms : List Binding) → matching q v ≡ Some ms → cs (register p) ≡ v → Opened takes q p v cs →
        IsSo k (entering_root s takes q p k) ms cs }
{}
