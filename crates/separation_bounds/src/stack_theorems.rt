// The theorem on stack numbers of sound code. It is the contract of a function that does nothing.
ghost use Rattle.std.specs.Prelude.{ℕ, Option, Some};
ghost use Rattle.separation.specs.fip_base.declared.plain.Stack.{Stack};
ghost use Rattle.separation.specs.code_rules.Breaks.{IsSound};
ghost use Rattle.separation.specs.cell_code.Plain.{PlainCode};
ghost use Rattle.separation.specs.code_rules.StackNumbers.{HasStack};

/// It can't be that a function of sound code holds no number of frames and words at the most, and isn't one that has
/// none either: no function waits for a call of its own group, so what its calls hold is bounded. For who asks whether
/// the lines of `verify`, or the frames of a run, can be reported.
pub fn functions_have_stack_numbers()
    ensures theorem { (c : PlainCode) (n : ℕ) → IsSound c → ((held : Option Stack) → HasStack c n held → ⊥) → ⊥ }
{}
