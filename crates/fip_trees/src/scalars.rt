// Which types are scalar, found once for all of them.
ghost use Rattle.std.specs.Prelude.{◌≡◌, ℕ, ◌≤◌, Bool, List, true, get_or, IfOk};
ghost use Rattle.fip_base.specs.fip_language.Table.{is_scalar};

use fip_base::plain::NoMemory;
use fip_base::table::TypeTable;
use std::alloc::Global;
use std::marker::Model;

/// Whether each type is scalar: int, or a type all of whose constructors have no field. A type's constructors are
/// looked through once, and not at each question.
#[derive(Drop)]
pub struct Scalars {
    // That of type t at t.
    flags: Vec<bool>,
}

impl Model for Scalars {
    ghost Value = { List Bool };

    ghost view = { λ s. s.flags.items };
}

impl Scalars {
    /// Looks through the types; an error where no memory is left.
    pub fn of(alloc: Global, types: &TypeTable) -> Result<Scalars, NoMemory>
        ensures exact { IfOk result (λ s. (t : ℕ) → get_or s t true ≡ is_scalar types.now t) }
    {
        let mut flags = Vec::new(alloc);
        flags.push(true)?;
        for place in 0..types.len() {
            flags.push(types.is_scalar_at(place))?;
        }
        Ok(Scalars { flags })
    }

    /// Whether the type is scalar; so is a number that is no type's.
    pub fn is_scalar(&self, ty: u32) -> bool
        ensures same { result ≡ get_or self.now ty true }
    {
        match self.flags.get(ty as usize) {
            Some(flag) => *flag,
            None => true,
        }
    }
}
