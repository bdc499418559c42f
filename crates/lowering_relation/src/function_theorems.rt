// The theorems of the definitions. Each is the contract of a function that does nothing.
ghost use Rattle.instance_semantics.specs.Example.{rev};
ghost use Rattle.lowering_relation.specs.LoweredExample.{instrs, lists_setting};
ghost use Rattle.lowering_relation.specs.LoweredFunctions.{IsFunction};

/// The six instructions of `rev` are lowered from its body. For who asks whether the definitions are met.
pub fn an_example_is_lowered()
    ensures theorem { IsFunction lists_setting 7 instrs rev }
{}
