// The theorem that the code of an accepted source can be written. It is the contract of a function that does nothing.
ghost use Rattle.std.specs.Prelude.{◌≡◌, ℕ, List, map};
ghost use Rattle.lowering_soundness.specs.cell_code.declared.code.Code.{Code};
ghost use Rattle.derivation_correctness.specs.cell_lower.Shape.{header, headers};
ghost use Rattle.derivation_correctness.specs.code_file.CodeText.{CodeText};
ghost use Rattle.lowering_soundness.specs.cell_code.Plain.{plain};
ghost use Rattle.derivation_correctness.specs.code_file.declared.tags.Version.TheVariants.{Second};
ghost use Rattle.lowering_soundness.specs.fip_trees.declared.groups.Member.{Member};
ghost use Rattle.lowering_soundness.specs.fip_trees.Tree.{Program};
ghost use Rattle.derivation_correctness.specs.lower_frame.Spelled.{AreSpelt};
ghost use Rattle.lowering_soundness.specs.code_rules.Breaks.{IsSound};
ghost use Rattle.derivation_correctness.specs.source_report.Report.{IsAccepted};
ghost use Rattle.lowering_soundness.specs.tail_groups.Members.{AreMembers};

/// Sound code of an accepted source has a code file of version 2, where it has the types and the headers of the
/// source's program, and its instructions and labels can be encoded. For who writes the code of a source: some bytes
/// encode it, and only their number may be too great.
pub fn the_code_of_an_accepted_source_has_a_file()
    ensures theorem { (source : List ℕ) (program : Program) (members : List Member) (code : Code) →
        IsAccepted source program → AreMembers program.instances members → code.types ≡ program.types →
        map header code.functions.items ≡ headers members program.instances → IsSound (plain code) →
        AreSpelt code.functions.items → (file : List ℕ) × CodeText file Second (plain code) }
{}
