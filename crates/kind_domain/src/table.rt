// What the numbers of types and constructors of a code mean.
ghost use Rattle.std.specs.Prelude.{◌≡◌, IfOk};
ghost use Rattle.cell_code.specs.fip_language.Table.{constructors};
ghost use Rattle.code_rules.specs.Ranges.{is_constructor};
ghost use Rattle.code_rules.specs.Types.{count, fields, is_scalar_type, is_type};
ghost use Rattle.kind_domain.specs.Scalars.{IsMarked};

use fip_base::plain::NoMemory;
use fip_base::table::{Constructor, TypeTable};
use std::alloc::Global;
use std::marker::Model;

/// The types of a code, with those that are scalar marked. Each read is total: a type that the table doesn't have has
/// no constructors and isn't scalar, and a constructor that a type doesn't have has no fields.
#[derive(Drop)]
pub struct Table<'a> {
    types: &'a TypeTable,
    // For int, and then for each data type.
    scalars: Vec<bool>,
}

impl<'a> Model for Table<'a> {
    ghost use Rattle.cell_code.specs.fip_language.Table.{Table as Types};
    ghost use Rattle.kind_domain.specs.Scalars.{IsMarked};

    ghost Value = { Types };

    ghost view = { λ t. t.types.now };

    ghost invariant = { λ t. IsMarked t.types.now t.scalars.items };
}

impl<'a> Table<'a> {
    /// NoMemory: no memory is left.
    pub fn new(alloc: Global, types: &'a TypeTable) -> Result<Table<'a>, NoMemory>
        ensures same { IfOk result (λ t. t ≡ types.now) }
    {
        let scalars = scalars_of(alloc, types)?;
        Ok(Table { types, scalars })
    }

    /// Whether there is such a type; 0 is int.
    pub fn is_type(&self, ty: u32) -> bool
        ensures is { result ≡ is_type self.now ty }
    {
        ty as usize <= self.types.len()
    }

    /// The constructors of a type.
    #[tactic(auto, using(crate::proofs::Types::constructors_past))]
    pub fn constructors(&self, ty: u32) -> &'a [Constructor]
        ensures same { result.now ≡ constructors self.now ty }
    {
        if ty as usize <= self.types.len() {
            self.types.constructors_of(ty)
        } else {
            &[]
        }
    }

    /// How many constructors a type has.
    pub fn count(&self, ty: u32) -> usize
        ensures count { result ≡ count self.now ty }
    {
        self.constructors(ty).len()
    }

    /// Whether the type has a constructor of this number.
    pub fn is_constructor(&self, ty: u32, constructor: u32) -> bool
        ensures is { result ≡ is_constructor self.now ty constructor }
    {
        (constructor as usize) < self.count(ty)
    }

    /// The types of a constructor's fields.
    pub fn fields(&self, ty: u32, constructor: u32) -> &'a [u32]
        ensures same { result.now ≡ fields self.now ty constructor }
    {
        match self.constructors(ty).get(constructor as usize) {
            Some(found) => found.fields(),
            None => &[],
        }
    }

    /// Whether it is int, or a type whose constructors all have no field.
    pub fn is_scalar(&self, ty: u32) -> bool
        ensures is { result ≡ is_scalar_type self.now ty }
    {
        match self.scalars.get(ty as usize) {
            Some(scalar) => *scalar,
            None => false,
        }
    }
}

// For int, and then for each data type, whether it is scalar.
fn scalars_of(alloc: Global, types: &TypeTable) -> Result<Vec<bool>, NoMemory>
    ensures marks { IfOk result (λ v. IsMarked types.now v.items) }
{
    let mut scalars = Vec::new(alloc);
    scalars.push(true)?;
    for place in 0..types.len() {
        scalars.push(types.is_scalar_at(place))?;
    }
    Ok(scalars)
}
