// The theorems of the bytes of code files. Each is the contract of a function that does nothing.
ghost use Rattle.std.specs.Prelude.{◌≡◌, ℕ, Some, slice_get};
ghost use Rattle.code_bytes.specs.Bytes.{function_bytes, most_constructors, table_bytes};
ghost use Rattle.code_bytes.specs.Operands.{most_operands, HaveFew};
ghost use Rattle.fip_trees.specs.Tree.{Instance, Program};
ghost use Rattle.instance_semantics.specs.Example.{lists, rev};
ghost use Rattle.lowering_relation.specs.LaidFunctions.{AreLaid};
ghost use Rattle.lowering_relation.specs.LoweredBodies.{function_of};
ghost use Rattle.lowering_relation.specs.Values.{Setting};
ghost use Rattle.cell_code.specs.Plain.{PlainFunction, PlainCode, function_at};

/// No instruction of a function, reached or not, lists more registers than its instance's width allows, where its code
/// is laid out as the instances of a program require. For who bounds a code file.
pub fn laid_functions_list_few_registers()
    ensures theorem { (c : PlainCode) (st : Setting) (p : Program) → AreLaid c st p → (i n : ℕ) (d : Instance)
        (f : PlainFunction) → slice_get p.instances i ≡ Some d → function_of p.instances i ≡ Some n →
        function_at c n ≡ Some f → HaveFew (most_operands p.instances d) f.instrs }
{}

/// The reversal of a list lists at most 4 registers in an instruction, and its function has at most 167,854 bytes in a
/// file; the types of its program have at most 48.
#[tactic(auto, using(crate::proofs::Examples::computed))]
pub fn an_example_has_few_bytes()
    ensures operands { most_operands lists.instances rev ≡ 4 }
    ensures types { table_bytes lists.types ≡ 48 }
    ensures function { function_bytes lists.types (most_constructors lists.types)
        (most_operands lists.instances rev) rev ≡ 167854 }
{}
