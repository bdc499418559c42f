// The table of types: type 0 is int, the others are data types, numbered from 1.
ghost use Rattle.std.specs.Prelude.{◌≡◌, ◌≢◌, ℕ, ◌+◌, ◌<◌, ◌≤◌, ◌^◌, List, [], ◌∷◌, ◌++◌, length, None, IfSome, OnOk, OnErr};
ghost use Rattle.std.specs.Prelude.{IfNone, slice_get, slice_index};
ghost use Rattle.fip_language.specs.Table.{Shape, Table, constructors, is_scalar, all_bare};
ghost use Rattle.fip_base.specs.TableView.{IsNamed, fields_at};

use crate::plain::{Name, NoMemory, Types};
use std::alloc::Global;
use std::marker::Model;

/// A constructor: its name, and the types of its fields.
#[derive(Drop)]
pub struct Constructor {
    name: Name,
    fields: Types,
}

impl Model for Constructor {
    ghost Value = { Shape };

    ghost view = { λ c. record { name = c.name; fields = c.fields } };
}

impl Constructor {
    /// The constructor of this name, with fields of these types.
    pub fn new(name: Name, fields: Types) -> Self
        ensures name { result.name ≡ name }
        ensures fields { result.fields ≡ fields }
    {
        Constructor { name, fields }
    }

    /// Its name.
    pub fn name(&self) -> &[u8]
        ensures same { result.now ≡ self.now.name }
    {
        self.name.as_slice()
    }

    /// The types of its fields.
    pub fn fields(&self) -> &[u32]
        ensures same { result.now ≡ self.now.fields }
    {
        self.fields.as_slice()
    }
}

/// A data type: its constructors, in the order of their numbers from 0.
#[derive(Drop)]
pub struct DataType {
    constructors: Vec<Constructor>,
}

impl Model for DataType {
    ghost Value = { List Shape };

    ghost view = { λ d. d.constructors.items };

    ghost invariant = { λ d. length d.constructors.items < 2 ^ 32 };
}

impl DataType {
    /// The data type with these constructors.
    pub fn new(constructors: Vec<Constructor>) -> Self
        requires { length constructors.items < 2 ^ 32 }
        ensures same { result ≡ constructors.items }
    {
        DataType { constructors }
    }

    /// Its constructors.
    pub fn constructors(&self) -> &[Constructor]
        ensures same { result.now ≡ self.now }
        ensures few { length self.now < 2 ^ 32 }
    {
        self.constructors.as_slice()
    }
}

/// The types of a program. Type 0 is int, and is in no list.
#[derive(Drop)]
pub struct TypeTable {
    types: Vec<DataType>,
}

impl Model for TypeTable {
    ghost Value = { Table };

    ghost view = { λ t. t.types.items };
}

impl TypeTable {
    /// The table of int alone.
    pub fn new(alloc: Global) -> Self
        ensures empty { result ≡ [] }
    {
        TypeTable {
            types: Vec::new(alloc),
        }
    }

    /// Puts a data type after the others; an error where no memory is left, and then nothing changes.
    pub fn push(&mut self, data_type: DataType) -> Result<(), NoMemory>
        ensures added { OnOk result (self.new ≡ self.old ++ data_type ∷ []) }
        ensures same { OnErr result (self.new ≡ self.old) }
    {
        self.types.push(data_type)?;
        Ok(())
    }

    /// The number of data types; int is none of them.
    pub fn len(&self) -> usize
        ensures count { result ≡ length self.now }
    {
        self.types.len()
    }

    /// The constructors of a type; int has none.
    pub fn constructors_of(&self, ty: u32) -> &[Constructor]
        requires of_table { ty ≤ length self.now }
        ensures same { result.now ≡ constructors self.now ty }
        ensures few { length (constructors self.now ty) < 2 ^ 32 }
    {
        match ty {
            0 => &[],
            _ => self.types[ty as usize - 1].constructors(),
        }
    }

    /// The types of a constructor's fields.
    pub fn fields_of(&self, ty: u32, c: u32) -> &[u32]
        requires of_table { ty ≤ length self.now }
        requires of_type { c < length (constructors self.now ty) }
        ensures fields { result.now ≡ fields_at (constructors self.now ty) c }
    {
        self.constructors_of(ty)[c as usize].fields()
    }

    /// The number of a constructor's fields.
    pub fn size_of(&self, ty: u32, c: u32) -> usize
        requires of_table { ty ≤ length self.now }
        requires of_type { c < length (constructors self.now ty) }
        ensures size { result ≡ length (fields_at (constructors self.now ty) c) }
    {
        self.fields_of(ty, c).len()
    }

    /// Whether this is int, or a type all of whose constructors have no field.
    pub fn is_scalar(&self, ty: u32) -> bool
        requires of_table { ty ≤ length self.now }
        ensures scalar { result ≡ is_scalar self.now ty }
    {
        are_bare(self.constructors_of(ty))
    }

    /// Whether the data type at a place of the list, from 0, has no constructor with fields.
    #[tactic(auto, using(crate::proofs::TableReads::reading))]
    pub fn is_scalar_at(&self, place: usize) -> bool
        requires of_table { place < length self.now }
        ensures scalar { result ≡ is_scalar self.now (place + 1) }
    {
        are_bare(self.types[place].constructors())
    }

    /// The number of the type's first constructor of this name; none where no constructor has it. The empty name
    /// names none.
    pub fn find(&self, ty: u32, name: &[u8]) -> Option<u32>
        requires of_table { ty ≤ length self.now }
        ensures found { IfSome result (λ c. IsNamed (constructors self.now ty) name.now c) }
        ensures first { IfSome result (λ c. (d : ℕ) → d < c → IsNamed (constructors self.now ty) name.now d → ⊥) }
        ensures none { IfNone result (name.now ≢ [] → (c : ℕ) → IsNamed (constructors self.now ty) name.now c → ⊥) }
        ensures empty { name.now ≡ [] → result ≡ None }
    {
        if name.is_empty() {
            return None;
        }
        match number_of(self.constructors_of(ty), name) {
            Some(c) => Some(c as u32),
            None => None,
        }
    }
}

// Whether none of them has a field.
fn are_bare(constructors: &[Constructor]) -> bool
    ensures { result ≡ all_bare constructors.now }
{
    for c in constructors {
        if !c.fields().is_empty() {
            return false;
        }
    }
    true
}

// The number of the first one of this name.
fn number_of(constructors: &[Constructor], name: &[u8]) -> Option<usize>
    ensures within { IfSome result (λ c. c < length constructors.now) }
    ensures found { IfSome result (λ c. IsNamed constructors.now name.now c) }
    ensures first { IfSome result (λ c. (d : ℕ) → d < c → IsNamed constructors.now name.now d → ⊥) }
    ensures none { IfNone result ((c : ℕ) → IsNamed constructors.now name.now c → ⊥) }
{
    for (i, c) in constructors.iter().enumerate() {
        if c.name() == name {
            return Some(i);
        }
    }
    None
}
