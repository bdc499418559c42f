// Copies of tables of types.
ghost use Rattle.std.specs.Prelude.{◌≡◌, ◌<◌, ◌≤◌, ◌^◌, IfOk, length};
ghost use Rattle.fip_language.specs.declared.limits.TheConstants.{MOST_INSTANCES};

use fip_base::plain::{Name, NoMemory, Types};
use fip_base::table::{Constructor, DataType, TypeTable};
use std::alloc::Global;

/// A table of the same types.
#[tactic(auto, using(crate::proofs::Headers::tables))]
pub fn table_of(alloc: Global, types: &TypeTable) -> Result<TypeTable, NoMemory>
    requires few { length types.now ≤ MOST_INSTANCES }
    ensures same { IfOk result (λ t. t ≡ types.now) }
{
    let mut table = TypeTable::new(alloc);
    for place in 0..types.len() {
        let ty = (place + 1) as u32;
        table.push(type_of(alloc, types.constructors_of(ty))?)?;
    }
    Ok(table)
}

fn type_of(alloc: Global, constructors: &[Constructor]) -> Result<DataType, NoMemory>
    requires few { length constructors.now < 2 ^ 32 }
    ensures same { IfOk result (λ d. d ≡ constructors.now) }
{
    Ok(DataType::new(copies_of(alloc, constructors)?))
}

fn copies_of(alloc: Global, constructors: &[Constructor]) -> Result<Vec<Constructor>, NoMemory>
    ensures same { IfOk result (λ v. v.items ≡ constructors.now) }
{
    let mut copies = Vec::new(alloc);
    for constructor in constructors {
        copies.push(copy_of(alloc, constructor)?)?;
    }
    Ok(copies)
}

fn copy_of(alloc: Global, constructor: &Constructor) -> Result<Constructor, NoMemory>
    ensures same { IfOk result (λ c. c ≡ constructor.now) }
{
    let mut name = Vec::new(alloc);
    name.extend_from_slice(constructor.name())?;
    let mut fields = Vec::new(alloc);
    fields.extend_from_slice(constructor.fields())?;
    Ok(Constructor::new(Name::new(name), Types::new(fields)))
}
