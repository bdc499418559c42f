// What the numbers of a body mean: types and their constructors, and the headers of instances.
ghost use Rattle.std.specs.Prelude.{◌≡◌, ℕ, ◌≤◌, true, List, map, None, Some, IfOk, MatchOption, slice_get};
ghost use Rattle.type_check.specs.World as W;
ghost use Rattle.type_check.specs.World.{numbered, is_of, plain_type, chosen, fields_of, field_types};
ghost use Rattle.type_check.specs.World.{field_count, counts_of, head, head_of, or_zero, type_of};
ghost use Rattle.type_check.specs.Plain.{IsPlain, nothing, put_first, put_plain};
ghost use Rattle.fip_trees.specs.TreeView.{instance_of};
ghost use Rattle.type_check.specs.Wanted.{expects, types_of};

use crate::expected::{Found, Want, Wants, or_found};
use fip_base::plain::{NoMemory, Param};
use fip_base::table::TypeTable;
use fip_trees::program::Instance;
use std::alloc::Global;
use std::marker::Model;

/// The types of an instance's parameters and results.
#[derive(Drop)]
pub(crate) struct Head {
    parameters: Vec<u32>,
    results: Vec<u32>,
}

impl Model for Head {
    ghost Value = { W.Head };

    ghost view = { λ h. record { parameters = h.parameters.items; results = h.results.items } };
}

/// All of them. The lists by data type are those of the program.
#[derive(Drop)]
pub(crate) struct Tables {
    pub(crate) types: TypeTable,
    pub(crate) declaring: Vec<u32>,
    pub(crate) arities: Vec<usize>,
    pub(crate) field_counts: Vec<Vec<usize>>,
    /// For each data type without parameters its type, that of data type `d` at `d`.
    pub(crate) plain_types: Vec<Found>,
    pub(crate) heads: Vec<Head>,
}

impl Model for Tables {
    ghost Value = { W.World };

    ghost view = { λ t. record {
      types = t.types;
      declaring = t.declaring.items;
      arities = t.arities.items;
      counts = map (λ r. r.items) t.field_counts.items;
      heads = t.heads.items;
    } };

    ghost invariant = { λ t. IsPlain t.arities.items t.declaring.items t.plain_types.items };
}

impl Tables {
    // The data type that declares a type; int has none.
    fn data_of(&self, ty: u32) -> Option<u32>
        ensures { result ≡ numbered self.now.declaring ty }
    {
        at_number(&self.declaring, ty)
    }

    /// Whether a type is declared by a data type.
    pub(crate) fn is_of(&self, ty: u32, data_type: u32) -> bool
        ensures { result ≡ is_of self.now ty data_type }
    {
        match self.data_of(ty) {
            None => false,
            Some(declaring) => declaring == data_type,
        }
    }

    /// The type of a data type without parameters; none where it has parameters.
    pub(crate) fn plain_type(&self, data_type: u32) -> Found
        ensures { result ≡ plain_type self.now data_type }
    {
        match self.plain_types.get(data_type as usize) {
            None => None,
            Some(found) => *found,
        }
    }

    /// The type of a constructor of a data type: the one expected where that data type declares it, else that of the
    /// data type itself where it has no parameters.
    pub(crate) fn chosen(&self, want: Want, data_type: u32) -> Found
        ensures { result ≡ chosen self.now want data_type }
    {
        match want {
            None => self.plain_type(data_type),
            Some(None) => self.plain_type(data_type),
            Some(Some(ty)) => {
                if self.is_of(ty, data_type) {
                    Some(ty)
                } else {
                    self.plain_type(data_type)
                }
            }
        }
    }

    /// The types of the fields of a type's constructor.
    #[tactic(auto, using(crate::proofs::Worlds::constructors_past, crate::proofs::Worlds::fields_past))]
    pub(crate) fn fields(&self, ty: u32, number: u32) -> &[u32]
        ensures { result.now ≡ fields_of self.now ty number }
    {
        if ty as usize > self.types.len() {
            return &[];
        }
        if (number as usize) < self.types.constructors_of(ty).len() {
            self.types.fields_of(ty, number)
        } else {
            &[]
        }
    }

    /// What is expected of a constructor's arguments. Where its type isn't known, nor are its fields' types.
    pub(crate) fn wants(&self, ty: Found, number: u32) -> Wants<'_>
        ensures expected { expects result ≡ true }
        ensures types { types_of result ≡ field_types self.now ty number }
    {
        match ty {
            None => Wants::Partial(&[]),
            Some(ty) => Wants::Known(self.fields(ty, number)),
        }
    }

    /// The number of a constructor's fields, by its type where that is known, else by its data type.
    pub(crate) fn field_count(&self, ty: Found, data_type: u32, number: u32) -> usize
        ensures { result ≡ field_count self.now ty data_type number }
    {
        match ty {
            None => self.declared_count(data_type, number),
            Some(ty) => self.fields(ty, number).len(),
        }
    }

    // The number of fields that a data type declares for a constructor.
    fn declared_count(&self, data_type: u32, number: u32) -> usize
        ensures { result ≡ or_zero (slice_get (counts_of self.now.counts data_type) number) }
    {
        match row_of(&self.field_counts, data_type).get(number as usize) {
            None => 0,
            Some(count) => *count,
        }
    }

    /// The types of an instance's parameters.
    pub(crate) fn parameters(&self, instance: u32) -> &[u32]
        ensures { result.now ≡ (head self.now instance).parameters }
    {
        match self.heads.get(instance as usize) {
            None => &[],
            Some(head) => head.parameters.as_slice(),
        }
    }

    /// The types of an instance's results.
    pub(crate) fn results(&self, instance: u32) -> &[u32]
        ensures { result.now ≡ (head self.now instance).results }
    {
        match self.heads.get(instance as usize) {
            None => &[],
            Some(head) => head.results.as_slice(),
        }
    }
}

// What a list has for a number from 1.
fn at_number(list: &[u32], number: u32) -> Option<u32>
    ensures { result ≡ numbered list.now number }
{
    if number == 0 {
        None
    } else {
        list.get(number as usize - 1).copied()
    }
}

// How many type parameters the data type of a number from 1 has.
fn arity_of(arities: &[usize], number: u32) -> Option<usize>
    ensures { result ≡ numbered arities.now number }
{
    if number == 0 {
        None
    } else {
        arities.get(number as usize - 1).copied()
    }
}

// The row of a number from 1; an empty one where there is none.
#[tactic(auto, using(crate::proofs::Worlds::row_past, crate::proofs::Worlds::row_here))]
fn row_of(rows: &[Vec<usize>], number: u32) -> &[usize]
    ensures { result.now ≡ counts_of (map (λ r. r.items) rows.now) number }
{
    if number == 0 {
        return &[];
    }
    let index = number as usize - 1;
    if index < rows.len() {
        rows[index].as_slice()
    } else {
        &[]
    }
}

/// For each data type without parameters its type, from the data types that declare the types and the numbers of their
/// parameters.
pub(crate) fn plain_types(
    alloc: Global,
    declaring: &[u32],
    arities: &[usize],
) -> Result<Vec<Found>, NoMemory>
    ensures { IfOk result (λ v. IsPlain arities.now declaring.now v.items) }
{
    let mut found = nothing_found(alloc, arities)?;
    let mut number: usize = 0;
    for data_type in declaring {
        number += 1;
        put_plain(arities, *data_type, number, &mut found);
    }
    Ok(found)
}

// No type for 0, and none for each data type.
fn nothing_found(alloc: Global, arities: &[usize]) -> Result<Vec<Found>, NoMemory>
    ensures { IfOk result (λ v. v.items ≡ nothing arities.now) }
{
    let mut found = Vec::new(alloc);
    found.push(None)?;
    for arity in arities {
        found.push(not_found(*arity))?;
    }
    Ok(found)
}

// No type.
fn not_found(_arity: usize) -> Found
    ensures { result ≡ None }
{
    None
}

// Notes a type that a data type declares, where the data type has no parameters and no earlier type.
fn put_plain(arities: &[usize], data_type: u32, number: usize, found: &mut Vec<Found>)
    ensures { found.new.items ≡ put_plain arities.now data_type number found.old.items }
{
    if arity_of(arities, data_type) == Some(0) {
        put_first(found, data_type, u32::try_from(number).ok());
    }
}

// Writes a type where there is none.
#[tactic(auto, using(crate::proofs::Plains::put_here, crate::proofs::Plains::put_past))]
fn put_first(found: &mut Vec<Found>, data_type: u32, ty: Found)
    ensures { found.new.items ≡ put_first found.old.items data_type ty }
{
    let index = data_type as usize;
    if index < found.len() {
        found[index] = or_found(found[index], ty);
    }
}

/// The headers of the instances.
pub(crate) fn heads(alloc: Global, instances: &[Instance]) -> Result<Vec<Head>, NoMemory>
    ensures { IfOk result (λ v. v.items ≡ map head_of (map instance_of instances.now)) }
{
    let mut heads = Vec::new(alloc);
    for instance in instances {
        heads.push(head_of(alloc, instance)?)?;
    }
    Ok(heads)
}

fn head_of(alloc: Global, instance: &Instance) -> Result<Head, NoMemory>
    ensures { IfOk result (λ h. h ≡ head_of (instance_of instance.now)) }
{
    Ok(Head {
        parameters: types_of_params(alloc, instance.params.as_slice())?,
        results: instance.results.copy(alloc)?.into_vec(),
    })
}

fn types_of_params(alloc: Global, params: &[Param]) -> Result<Vec<u32>, NoMemory>
    ensures { IfOk result (λ v. v.items ≡ map type_of params.now) }
{
    let mut types = Vec::new(alloc);
    for param in params {
        types.push(param.ty)?;
    }
    Ok(types)
}
