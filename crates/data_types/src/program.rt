// A program beside what it declares, where its declarations break no rule.
ghost use Rattle.std.specs.Prelude.{◌≡◌};
ghost use Rattle.data_types.specs.DeclaredProgram.{AreDeclared};

use fip_base::core_form::Core;
use fip_trees::decls::Decls;
use std::marker::Model;

/// A program whose declarations break no rule, with these declarations: `declare` makes it.
#[derive(Drop)]
pub struct DeclaredProgram<'a> {
    core: &'a Core,
    decls: Decls<'a>,
}

impl<'a> Model for DeclaredProgram<'a> {
    ghost use Rattle.std.specs.Coded.{codes};
    ghost use Rattle.fip_base.specs.contracts.core_form.Core as of_core;
    ghost use Rattle.fip_trees.specs.contracts.decls.FieldType as of_field;
    ghost use Rattle.data_types.specs.DeclaredProgram.{AreDeclared, WithDeclarations};

    ghost Value = { WithDeclarations };

    ghost coded = { Prim.hlevel (codes, of_core.the_row.coded, of_field.the_row.coded) };

    ghost view = { λ p. record { core = p.core.now; decls = p.decls } };

    ghost invariant = { λ p. AreDeclared p.core.now p.decls };
}

impl<'a> DeclaredProgram<'a> {
    pub(crate) fn new(core: &'a Core, decls: Decls<'a>) -> Self
        requires declared { AreDeclared core.now decls }
        ensures core { result.core ≡ core.now }
        ensures decls { result.decls ≡ decls.entry }
        ensures declared { AreDeclared result.core result.decls }
    {
        DeclaredProgram { core, decls }
    }

    /// The program.
    pub fn core(&self) -> &'a Core
        ensures same { result.now ≡ self.now.core }
        ensures declared { AreDeclared self.now.core self.now.decls }
    {
        self.core
    }

    /// What it declares.
    pub fn decls(&self) -> &Decls<'a>
        ensures same { result.now ≡ self.now.decls }
        ensures declared { AreDeclared self.now.core self.now.decls }
    {
        &self.decls
    }
}
