// The theorems on laid out code. Each is the contract of a function that does nothing.
ghost use Rattle.std.specs.Prelude.{Bool};
ghost use Rattle.instance_semantics.specs.Example.{rev};
ghost use Rattle.lowering_relation.specs.LaidExample.{choosing_digit, digit, lists_code, pick, picking, reversing};
ghost use Rattle.lowering_relation.specs.LaidFunctions.{FunctionLaid};
ghost use Rattle.lowering_relation.specs.LoweredExample.{lists_setting};

/// The function of `rev` is laid out as its body requires. For who asks whether the definitions are met.
pub fn an_example_is_laid()
    ensures theorem { FunctionLaid lists_code lists_setting Bool.true reversing rev }
{}

/// The function of `digit`, whose body binds a match by a let, is laid out as it requires.
pub fn an_example_with_a_let_is_laid()
    ensures theorem { FunctionLaid lists_code lists_setting Bool.true choosing_digit digit }
{}

/// The fbip function of `pick`, whose body binds a match by a let, is laid out as it requires: each clause drops what
/// it leaves over.
pub fn an_example_that_drops_is_laid()
    ensures theorem { FunctionLaid lists_code lists_setting Bool.false picking pick }
{}
