// Types as they are written, their names looked up.
ghost use Rattle.std.specs.Prelude.{◌≡◌, ◌<◌, true, None, Some, IfOk, OnOk};
ghost use Rattle.fip_base.specs.CoreView as V;
ghost use Rattle.fip_trees.specs.Least.{after};
ghost use Rattle.fip_trees.specs.Names.{meaning};
ghost use Rattle.data_types.specs.Declarations.{all_looked_up, count_tys, looked_up, meant};
ghost use Rattle.data_types.specs.Faults.{use_faults, written_faults, writtens_faults};
ghost use Rattle.data_types.specs.Numbered.{is_numbered, are_numbered, HasNumbers};
ghost use Rattle.data_types.specs.View as v;

use crate::notes::note;
use fip_base::core_form::Written;
use fip_base::plain::{NoMemory, Place};
use fip_base::refusal::Rule;
use fip_trees::decls::{DeclaredNames, FieldType, TypeHead};
use fip_trees::least::Least;
use fip_trees::meanings::Meanings;
use std::alloc::Global;
use std::marker::Model;

/// The type parameters that are in scope, each with its number.
pub type TypeParameters<'a> = Meanings<'a, u32>;

/// What may be mentioned at a place: the names of the program, and the type parameters around.
#[derive(Drop)]
pub struct Scope<'s, 'a> {
    pub names: &'s DeclaredNames<'a>,
    pub parameters: &'s TypeParameters<'a>,
}

impl<'s, 'a> Model for Scope<'s, 'a> {
    ghost use Rattle.data_types.specs.Declarations as d;

    ghost Value = { d.Scope };

    ghost view = { λ s. record { names = s.names.now; parameters = s.parameters.now } };
}

impl<'s, 'a> Scope<'s, 'a> {
    /// A type, its names looked up; notes its violations of E11 and E12. A part that breaks one counts as int, so that
    /// a rule on values requires nothing of it.
    #[cycle(written)]
    #[tactic(auto, using(crate::proofs::Shared::noting, crate::proofs::Shared::counting))]
    pub fn look_up(
        &self,
        alloc: Global,
        written: &Written,
        least: &mut Least,
    ) -> Result<FieldType, NoMemory>
        ensures found { IfOk result (λ ty. v.ty ty ≡ looked_up self.now (V.written written.now)) }
        ensures numbered { HasNumbers self.now.names → IfOk result (λ ty. is_numbered ty ≡ true) }
        ensures faults { OnOk result (least.new ≡ after least.old (written_faults self.now (V.written written.now))) }
    {
        match written {
            Written::Int(_) => Ok(FieldType::Int),
            Written::Named {
                name,
                place,
                arguments,
            } => {
                let found = self.look_up_all(alloc, arguments, least)?;
                self.meant(name.as_slice(), *place, found, least)
            }
        }
    }

    /// The same of each type of a list.
    #[cycle(written)]
    #[tactic(auto, using(crate::proofs::Shared::noting))]
    pub fn look_up_all(
        &self,
        alloc: Global,
        list: &[Written],
        least: &mut Least,
    ) -> Result<Vec<FieldType>, NoMemory>
        ensures found { IfOk result (λ tys. v.tys tys.items ≡ all_looked_up self.now (V.writtens list.now)) }
        ensures numbered { HasNumbers self.now.names → IfOk result (λ tys. are_numbered tys.items ≡ true) }
        ensures faults { OnOk result (least.new ≡ after least.old (writtens_faults self.now (V.writtens list.now))) }
    {
        let mut found = Vec::new(alloc);
        for written in list {
            found.push(self.look_up(alloc, written, least)?)?;
        }
        Ok(found)
    }

    // What a name with arguments means.
    fn meant(
        &self,
        name: &[u8],
        place: Place,
        arguments: Vec<FieldType>,
        least: &mut Least,
    ) -> Result<FieldType, NoMemory>
        ensures found { IfOk result (λ ty. v.ty ty ≡ meant (meaning name.now self.now.parameters)
            (meaning name.now self.now.names.types) (v.tys arguments.items)) }
        ensures numbered { HasNumbers self.now.names → are_numbered arguments.items ≡ true →
            IfOk result (λ ty. is_numbered ty ≡ true) }
        ensures faults { OnOk result (least.new ≡ after least.old (use_faults (meaning name.now self.now.parameters)
            (meaning name.now self.now.names.types) name.now place (count_tys (v.tys arguments.items)))) }
    {
        match self.parameters.find(name) {
            Some(number) => parameter(number, name, place, &arguments, least),
            None => match self.names.find_type(name) {
                Some(head) => applied(head, name, place, arguments, least),
                None => {
                    note(least, Rule::E11, place, name)?;
                    Ok(FieldType::Int)
                }
            },
        }
    }
}

// A type parameter has no arguments.
#[tactic(auto, using(crate::proofs::Shared::counting))]
fn parameter(
    number: u32,
    name: &[u8],
    place: Place,
    arguments: &[FieldType],
    least: &mut Least,
) -> Result<FieldType, NoMemory>
    ensures found { IfOk result (λ ty. v.ty ty ≡ meant (Some number) None (v.tys arguments.now)) }
    ensures numbered { IfOk result (λ ty. is_numbered ty ≡ true) }
    ensures faults { OnOk result (least.new ≡
        after least.old (use_faults (Some number) None name.now place (count_tys (v.tys arguments.now)))) }
{
    if arguments.is_empty() {
        return Ok(FieldType::Parameter(number));
    }
    note(least, Rule::E12, place, name)?;
    Ok(FieldType::Int)
}

// A data type has as many arguments as type parameters.
#[tactic(auto, using(crate::proofs::Shared::counting))]
fn applied(
    head: TypeHead,
    name: &[u8],
    place: Place,
    arguments: Vec<FieldType>,
    least: &mut Least,
) -> Result<FieldType, NoMemory>
    ensures found { IfOk result (λ ty. v.ty ty ≡ meant None (Some head) (v.tys arguments.items)) }
    ensures numbered { 0 < head.number → are_numbered arguments.items ≡ true →
        IfOk result (λ ty. is_numbered ty ≡ true) }
    ensures faults { OnOk result (least.new ≡
        after least.old (use_faults None (Some head) name.now place (count_tys (v.tys arguments.items)))) }
{
    if head.arity == arguments.len() {
        return Ok(FieldType::Applied(head.number, arguments));
    }
    note(least, Rule::E12, place, name)?;
    Ok(FieldType::Int)
}
