// What the definitions say of every program: it has one list of instances and one of types, and is either accepted,
// with one tree, or refused. Each theorem is the contract of a function that does nothing.
ghost use Rattle.std.specs.Prelude.{◌≡◌, List};
ghost use Rattle.fip_trees.specs.declared.least.Violation.{Violation};
ghost use Rattle.fip_trees.specs.declared.program.Program.{Program};
ghost use Rattle.fip_trees.specs.TreeView as W;
ghost use Rattle.static_params.specs.Answers.{AreFew, AreFewInstances, AreManyFunctions, AreManyTypes};
ghost use Rattle.static_params.specs.Answers.{IsAccepted, Names};
ghost use Rattle.reached_instances.specs.closed_types.Closed.{Closed};
ghost use Rattle.static_params.specs.FlatProgram.{Numbers};
ghost use Rattle.reached_instances.specs.closed_types.Instances.{AreInstances};
ghost use Rattle.reached_instances.specs.closed_types.Source.{Source};

/// Nothing; a program's instances are one list, and they are few or many.
pub fn instances_are_one()
    ensures one { (s : Source) (is js : List Closed) → AreInstances s is → AreInstances s js → is ≡ js }
    ensures few { (s : Source) (is : List Closed) → AreFewInstances s is → AreManyFunctions s → ⊥ }
{}

/// Nothing; a program's instances and types are two lists, and the types are few or many.
pub fn types_are_one()
    ensures one { (s : Source) (ns ms : Numbers) → AreFew s ns → AreFew s ms → ns ≡ ms }
    ensures few { (s : Source) (ns : Numbers) → AreFew s ns → AreManyTypes s ns.instances → ⊥ }
{}

/// Nothing; what is accepted has one tree, and isn't refused.
pub fn programs_are_one()
    ensures one { (s : Source) (p q : Program) → IsAccepted s p → IsAccepted s q → W.program p ≡ W.program q }
    ensures accepted { (s : Source) (p : Program) (v : Violation) → IsAccepted s p → Names s v → ⊥ }
{}
