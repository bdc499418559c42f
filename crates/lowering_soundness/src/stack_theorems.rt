// The theorems on calls and stack numbers of laid out code. Each is the contract of a function that does nothing.
ghost use Rattle.std.specs.Prelude.{◌≡◌, ℕ, List, Some, slice_get, not};
ghost use Rattle.lowering_relation.specs.fip_trees.declared.groups.Member.{Member};
ghost use Rattle.lowering_relation.specs.fip_trees.Tree.{Instance, Program};
ghost use Rattle.tail_groups.specs.call_groups.CallGraph.{In};
ghost use Rattle.tail_groups.specs.Members.{AreMembers, FipCallsFip};
ghost use Rattle.tail_groups.specs.Sites.{Site, instance_sites};
ghost use Rattle.separation.specs.code_rules.Breaks.{IsSound};
ghost use Rattle.separation.specs.code_rules.Calls.{Calls};
ghost use Rattle.separation.specs.cell_code.Plain.{PlainFunction, PlainCode, function_at};
ghost use Rattle.separation.specs.code_rules.StackNumbers.{HasStack};
ghost use Rattle.lowering_relation.specs.LoweredBodies.{function_of};
ghost use Rattle.lowering_relation.specs.Known.{joined};
ghost use Rattle.lowering_relation.specs.Values.{Setting};
ghost use Rattle.lowering_relation.specs.LaidFunctions.{IsLaid, AreLaid};
ghost use Rattle.lowering_soundness.specs.Alike.{Alike};

/// In sound code that is laid out as its program requires, each call in the body of an instance is a call of its
/// function, at an instruction that is reached; it waits for its callee just where it is outside tail position. For who
/// asks whether a code calls all that its program does.
pub fn calls_of_bodies_are_reached()
    ensures theorem { (c : PlainCode) (st : Setting) (p : Program) → AreLaid c st p → IsSound c → (n : ℕ)
        (f : PlainFunction) → function_at c n ≡ Some f → (l : IsLaid c st p n f) → (s : Site) →
        In s (instance_sites l.instance) → (g : ℕ) × (joined (slice_get st.functions s.callee) ≡ Some g)
        × Calls c n g (not s.is_tail) }
{}

/// Where the functions of a code call each other just as the instances of a program do, their frames have as many
/// words, and fip instances call fip ones alone, each function holds of the stack at the most what the groups of the
/// program report of its instance. For who gives a run its stack.
pub fn alike_functions_have_the_stack_numbers()
    ensures theorem { (c : PlainCode) (ds : List Instance) (ms : List Member) → Alike c ds → AreMembers ds ms →
        FipCallsFip ds → (i n : ℕ) (m : Member) → function_of ds i ≡ Some n → slice_get ms i ≡ Some m →
        HasStack c n m.stack }
{}
