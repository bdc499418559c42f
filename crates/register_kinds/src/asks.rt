// What instructions ask of registers.
ghost use Rattle.std.specs.Prelude.{◌≡◌, ℕ, ◌∷◌, is_some, IfSome, List};
ghost use Rattle.kind_domain.specs.cell_code.declared.kind.Kind.TheVariants.{Owned};
ghost use Rattle.kind_domain.specs.code_rules.Asked.{may_have, known_fields, can_take, are_places};
ghost use Rattle.kind_domain.specs.code_rules.Handing.{is_lendable};
ghost use Rattle.kind_domain.specs.code_rules.Kinds.{at, has, is_free, are_free, is_gone, is_scalar_of, is_owned, is_owned_of};
ghost use Rattle.kind_domain.specs.code_rules.Kinds.{is_credit, is_credit_of};

use crate::registers::Registers;
use kind_domain::table::Table;

impl<'a> Registers<'a> {
    /// Whether a register may be overwritten.
    pub fn is_free(&self, register: u16) -> bool
        ensures is { result ≡ is_free (at self.now.kinds register) }
    {
        self.known(register).is_free()
    }

    /// Whether all registers may be overwritten: nothing is owned, and no credit is there.
    pub fn are_free(&self) -> bool
        ensures is { result ≡ are_free self.now.kinds }
    {
        self.known.are_free()
    }

    /// Whether nothing is known of a register.
    pub fn is_gone(&self, register: u16) -> bool
        ensures is { result ≡ is_gone (at self.now.kinds register) }
    {
        self.known(register).is_gone()
    }

    /// Whether a register is a scalar of a type.
    pub fn is_scalar_of(&self, register: u16, ty: u32) -> bool
        ensures is { result ≡ is_scalar_of ty (at self.now.kinds register) }
    {
        self.known(register).is_scalar_of(ty)
    }

    /// Whether a register owns a tree.
    pub fn is_owned(&self, register: u16) -> bool
        ensures is { result ≡ is_owned (at self.now.kinds register) }
    {
        self.known(register).is_owned()
    }

    /// Whether a register owns a tree of a type.
    pub fn is_owned_of(&self, register: u16, ty: u32) -> bool
        ensures is { result ≡ is_owned_of ty (at self.now.kinds register) }
    {
        self.known(register).is_owned_of(ty)
    }

    /// The type of the tree that a register owns.
    pub fn owned_type(&self, register: u16) -> Option<u32>
        ensures there { is_some result ≡ is_owned (at self.now.kinds register) }
        ensures is { IfSome result (λ t. (s : List ℕ) × at self.now.kinds register ≡ Owned t s) }
    {
        self.known(register).owned_type()
    }

    /// Whether a register is a credit.
    pub fn is_credit(&self, register: u16) -> bool
        ensures is { result ≡ is_credit (at self.now.kinds register) }
    {
        self.known(register).is_credit()
    }

    /// Whether a register is a credit of a size.
    pub fn is_credit_of(&self, register: u16, size: usize) -> bool
        ensures is { result ≡ is_credit_of size (at self.now.kinds register) }
    {
        self.known(register).is_credit_of(size)
    }

    /// Whether a register may be lent as a tree of a type: in a tail call only where a frame below owns it.
    pub fn is_lendable(&self, in_tail: bool, register: u16, ty: u32) -> bool
        ensures is { result ≡ is_lendable in_tail ty (at self.now.kinds register) }
    {
        self.known(register).is_lendable(in_tail, ty)
    }

    /// Whether a register's value may have a constructor.
    pub fn may_have(&self, table: &Table<'a>, register: u16, constructor: u32) -> bool
        ensures is { result ≡ may_have table.now constructor (at self.now.kinds register) }
    {
        self.known(register).may_have(table, constructor)
    }

    /// The types of the fields that can be read of a register's cell: none where its constructor isn't known.
    pub fn known_fields(&self, table: &Table<'a>, register: u16) -> &'a [u32]
        ensures is { result.now ≡ known_fields table.now (at self.now.kinds register) }
    {
        self.known(register).known_fields(table)
    }

    /// Whether a register owns a cell with one known constructor, of so many fields.
    pub fn can_take(&self, table: &Table<'a>, register: u16, size: usize) -> bool
        ensures is { result ≡ can_take table.now size (at self.now.kinds register) }
    {
        self.known(register).can_take(table, size)
    }

    /// Whether registers are distinct, and may be overwritten.
    pub fn are_places(&self, registers: &[u16]) -> bool
        ensures is { result ≡ are_places self.now.kinds registers.now }
    {
        for place in 0..registers.len() {
            if !self.is_free(registers[place])
                || stands_in(&registers[place + 1..], registers[place])
            {
                return false;
            }
        }
        true
    }
}

// Whether a number stands in a list.
fn stands_in(numbers: &[u16], number: u16) -> bool
    ensures is { result ≡ has numbers.now number }
{
    for other in numbers {
        if *other == number {
            return true;
        }
    }
    false
}
