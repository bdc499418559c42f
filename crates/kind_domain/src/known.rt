// What is known of one register.
ghost use Rattle.std.specs.Prelude.{◌≡◌, ◌==◌, ℕ, true, [], ◌∷◌, is_some, IfSome, List, Some};
ghost use Rattle.cell_code.specs.declared.kind.Kind.TheVariants as K;
ghost use Rattle.code_rules.specs.Asked.{may_have, known_fields, only_fields, can_take};
ghost use Rattle.code_rules.specs.Changes.{forget, forget_from, narrow};
ghost use Rattle.code_rules.specs.Handing.{is_lendable};
ghost use Rattle.code_rules.specs.Kinds.{is_free, is_gone, is_scalar_of, is_owned, is_owned_of, is_credit};
ghost use Rattle.code_rules.specs.Kinds.{is_credit_of, is_lent_of, same_root, from_of, root_of, set_of};
ghost use Rattle.code_rules.specs.Leaves.{atom_kind};
ghost use Rattle.code_rules.specs.Taking.{inherited, with_root};
ghost use Rattle.code_rules.specs.Types.{field_kind, lent_kind};
ghost use Rattle.kind_domain.specs.Leading.{is_lent_in};
ghost use Rattle.kind_domain.specs.Leading.{is_lent, leads, names};
ghost use Rattle.kind_domain.specs.Rising.{Rise};
ghost use Rattle.kind_domain.specs.Views.{kind_of, constructors_in};

use crate::set::Set;
use crate::table::Table;
use cell_code::{From, Kind};

/// What is known of a register. It is the kind of a label, save that sets of constructors take no memory.
#[derive(Clone, Copy)]
pub enum Known<'a> {
    /// Nothing; its word is not used any more.
    Gone,
    /// It holds a value of a scalar type.
    Scalar {
        ty: u32,
    },
    /// It owns a tree of the type, whose root has one of the constructors.
    Owned {
        ty: u32,
        set: Set<'a>,
    },
    /// It reads a tree of the type, whose root has one of the constructors. The tree lies in that of the register
    /// `root`, or, where there is none, in one that a frame below owns. Where `from` is there, the word is that field
    /// of that register's cell.
    Lent {
        ty: u32,
        set: Set<'a>,
        root: Option<u16>,
        from: Option<From>,
    },
    /// It names a cell of this size whose fields are no longer owned.
    Credit {
        size: usize,
    },
}

impl<'a> Known<'a> {
    /// What a label says.
    pub fn of(kind: &'a Kind) -> Known<'a>
        ensures same { kind_of result ≡ kind.now }
    {
        match kind {
            Kind::Gone => Known::Gone,
            Kind::Scalar { ty } => Known::Scalar { ty: *ty },
            Kind::Owned { ty, constructors } => Known::Owned {
                ty: *ty,
                set: Set::Listed(constructors.as_slice()),
            },
            Kind::Lent {
                ty,
                constructors,
                root,
                from,
            } => Known::Lent {
                ty: *ty,
                set: Set::Listed(constructors.as_slice()),
                root: *root,
                from: *from,
            },
            Kind::Credit { size } => Known::Credit {
                size: *size as usize,
            },
        }
    }

    /// Whether it may be overwritten.
    pub fn is_free(self) -> bool
        ensures is { result ≡ is_free (kind_of self.entry) }
    {
        match self {
            Known::Gone => true,
            Known::Scalar { .. } => true,
            Known::Owned { .. } => false,
            Known::Lent { .. } => true,
            Known::Credit { .. } => false,
        }
    }

    /// Whether nothing is known of it.
    pub fn is_gone(self) -> bool
        ensures is { result ≡ is_gone (kind_of self.entry) }
    {
        match self {
            Known::Gone => true,
            Known::Scalar { .. } => false,
            Known::Owned { .. } => false,
            Known::Lent { .. } => false,
            Known::Credit { .. } => false,
        }
    }

    /// Whether it is borrowed.
    pub fn is_lent(self) -> bool
        ensures is { result ≡ is_lent (kind_of self.entry) }
    {
        match self {
            Known::Gone => false,
            Known::Scalar { .. } => false,
            Known::Owned { .. } => false,
            Known::Lent { .. } => true,
            Known::Credit { .. } => false,
        }
    }

    /// Whether it is a scalar of this type.
    pub fn is_scalar_of(self, wanted: u32) -> bool
        ensures is { result ≡ is_scalar_of wanted (kind_of self.entry) }
    {
        match self {
            Known::Gone => false,
            Known::Scalar { ty } => ty == wanted,
            Known::Owned { .. } => false,
            Known::Lent { .. } => false,
            Known::Credit { .. } => false,
        }
    }

    /// Whether it owns a tree.
    pub fn is_owned(self) -> bool
        ensures is { result ≡ is_owned (kind_of self.entry) }
    {
        match self {
            Known::Gone => false,
            Known::Scalar { .. } => false,
            Known::Owned { .. } => true,
            Known::Lent { .. } => false,
            Known::Credit { .. } => false,
        }
    }

    /// Whether it owns a tree of this type.
    pub fn is_owned_of(self, wanted: u32) -> bool
        ensures is { result ≡ is_owned_of wanted (kind_of self.entry) }
    {
        match self {
            Known::Gone => false,
            Known::Scalar { .. } => false,
            Known::Owned { ty, .. } => ty == wanted,
            Known::Lent { .. } => false,
            Known::Credit { .. } => false,
        }
    }

    /// The type of the tree that it owns.
    pub fn owned_type(self) -> Option<u32>
        ensures there { is_some result ≡ is_owned (kind_of self.entry) }
        ensures is { IfSome result (λ t. (s : List ℕ) × kind_of self.entry ≡ K.Owned t s) }
    {
        match self {
            Known::Gone => None,
            Known::Scalar { .. } => None,
            Known::Owned { ty, .. } => Some(ty),
            Known::Lent { .. } => None,
            Known::Credit { .. } => None,
        }
    }

    /// Whether it is a credit.
    pub fn is_credit(self) -> bool
        ensures is { result ≡ is_credit (kind_of self.entry) }
    {
        match self {
            Known::Gone => false,
            Known::Scalar { .. } => false,
            Known::Owned { .. } => false,
            Known::Lent { .. } => false,
            Known::Credit { .. } => true,
        }
    }

    /// Whether it is a credit of this size.
    pub fn is_credit_of(self, wanted: usize) -> bool
        ensures is { result ≡ is_credit_of wanted (kind_of self.entry) }
    {
        match self {
            Known::Gone => false,
            Known::Scalar { .. } => false,
            Known::Owned { .. } => false,
            Known::Lent { .. } => false,
            Known::Credit { size } => size == wanted,
        }
    }

    /// Whether it may be borrowed as a tree of a type: in a tail call only where a frame below owns it.
    pub fn is_lendable(self, in_tail: bool, wanted: u32) -> bool
        ensures is { result ≡ is_lendable in_tail wanted (kind_of self.entry) }
    {
        match self {
            Known::Gone => false,
            Known::Scalar { .. } => false,
            Known::Owned { ty, .. } => ty == wanted && !in_tail,
            Known::Lent { ty, root, .. } => ty == wanted && !(in_tail && root.is_some()),
            Known::Credit { .. } => false,
        }
    }

    /// Whether its constructors are a long list, which is compared with another once.
    pub fn is_long(self) -> bool {
        match self {
            Known::Gone => false,
            Known::Scalar { .. } => false,
            Known::Owned { set, .. } => set.is_long(),
            Known::Lent { set, .. } => set.is_long(),
            Known::Credit { .. } => false,
        }
    }

    /// Whether its value may have a constructor.
    pub fn may_have(self, table: &Table<'a>, constructor: u32) -> bool
        ensures is { Rise (set_of (kind_of self.entry)) →
            result ≡ may_have table.now constructor (kind_of self.entry) }
    {
        match self {
            Known::Gone => false,
            Known::Scalar { ty } => table.is_constructor(ty, constructor),
            Known::Owned { set, .. } => set.has(constructor),
            Known::Lent { set, .. } => set.has(constructor),
            Known::Credit { .. } => false,
        }
    }

    /// The types of the fields that can be read of its cell: none where its constructor isn't known.
    pub fn known_fields(self, table: &Table<'a>) -> &'a [u32]
        ensures is { result.now ≡ known_fields table.now (kind_of self.entry) }
    {
        match self {
            Known::Gone => &[],
            Known::Scalar { .. } => &[],
            Known::Owned { ty, set } => fields_in(table, ty, set),
            Known::Lent { ty, set, .. } => fields_in(table, ty, set),
            Known::Credit { .. } => &[],
        }
    }

    /// Whether it owns a cell with one known constructor, of so many fields.
    pub fn can_take(self, table: &Table<'a>, size: usize) -> bool
        ensures is { result ≡ can_take table.now size (kind_of self.entry) }
    {
        match self {
            Known::Gone => false,
            Known::Scalar { .. } => false,
            Known::Owned { ty, set } => set.only().is_some()
                && fields_in(table, ty, set).len() == size,
            Known::Lent { .. } => false,
            Known::Credit { .. } => false,
        }
    }

    /// The register that owns its tree, where register `own` is of this kind; none where a frame below owns it, or it
    /// has no tree.
    pub fn root(self, own: u16) -> Option<u16>
        ensures is { result ≡ root_of own (kind_of self.entry) }
    {
        match self {
            Known::Gone => None,
            Known::Scalar { .. } => None,
            Known::Owned { .. } => Some(own),
            Known::Lent { root, .. } => root,
            Known::Credit { .. } => None,
        }
    }

    /// Where its word came from.
    pub fn from(self) -> Option<From>
        ensures is { result ≡ from_of (kind_of self.entry) }
    {
        match self {
            Known::Gone => None,
            Known::Scalar { .. } => None,
            Known::Owned { .. } => None,
            Known::Lent { from, .. } => from,
            Known::Credit { .. } => None,
        }
    }

    /// Whether its word is known to be a field of this register's cell.
    pub fn came_from(self, register: u16) -> bool
        ensures is { result ≡ names register (from_of (kind_of self.entry)) }
    {
        match self.from() {
            Some(from) => from.register == register,
            None => false,
        }
    }

    /// Whether it reads the tree of this register.
    pub fn is_lent_of(self, register: u16) -> bool
        ensures is { result ≡ is_lent_of register (kind_of self.entry) }
    {
        match self {
            Known::Gone => false,
            Known::Scalar { .. } => false,
            Known::Owned { .. } => false,
            Known::Lent { root, .. } => same_root(root, Some(register)),
            Known::Credit { .. } => false,
        }
    }

    /// Whether it reads the tree of this register, or, where there is none, of a frame below.
    pub fn is_lent_in(self, owner: Option<u16>) -> bool
        ensures is { result ≡ is_lent_in owner (kind_of self.entry) }
    {
        match self {
            Known::Gone => false,
            Known::Scalar { .. } => false,
            Known::Owned { .. } => false,
            Known::Lent { root, .. } => same_root(root, owner),
            Known::Credit { .. } => false,
        }
    }

    /// Whether it leads to this register: it reads its tree, or a field of its cell.
    pub fn leads_to(self, register: u16) -> bool
        ensures is { result ≡ leads register (kind_of self.entry) }
    {
        self.came_from(register) || self.is_lent_of(register)
    }

    /// The register of whose cell its word is known to be a field.
    pub fn source(self) -> Option<u16>
        ensures is { (r : ℕ) → names r (from_of (kind_of self.entry)) ≡ true → result ≡ Some r }
        ensures only { IfSome result (λ r. names r (from_of (kind_of self.entry)) ≡ true) }
    {
        match self.from() {
            None => None,
            Some(from) => Some(from.register),
        }
    }

    /// The register whose tree it reads.
    pub fn owner(self) -> Option<u16>
        ensures is { (r : ℕ) → is_lent_of r (kind_of self.entry) ≡ true → result ≡ Some r }
        ensures only { IfSome result (λ r. is_lent_of r (kind_of self.entry) ≡ true) }
    {
        match self {
            Known::Gone => None,
            Known::Scalar { .. } => None,
            Known::Owned { .. } => None,
            Known::Lent { root, .. } => root,
            Known::Credit { .. } => None,
        }
    }

    /// The same with the constructors of the root narrowed to one.
    pub fn narrowed(self, constructor: u32) -> Known<'a>
        ensures is { kind_of result ≡ narrow (constructor ∷ []) (kind_of self.entry) }
    {
        match self {
            Known::Gone => Known::Gone,
            Known::Scalar { ty } => Known::Scalar { ty },
            Known::Owned { ty, .. } => Known::Owned {
                ty,
                set: Set::One(constructor),
            },
            Known::Lent { ty, root, from, .. } => Known::Lent {
                ty,
                set: Set::One(constructor),
                root,
                from,
            },
            Known::Credit { size } => Known::Credit { size },
        }
    }

    /// The same, with the field that its word is forgotten where that is one of this register's cell.
    pub fn forgetting(self, register: u16) -> Known<'a>
        ensures is { kind_of result ≡ forget (λ q. q == register) (kind_of self.entry) }
    {
        match self {
            Known::Gone => Known::Gone,
            Known::Scalar { ty } => Known::Scalar { ty },
            Known::Owned { ty, set } => Known::Owned { ty, set },
            Known::Lent {
                ty,
                set,
                root,
                from,
            } => Known::Lent {
                ty,
                set,
                root,
                from: forgotten(register, from),
            },
            Known::Credit { size } => Known::Credit { size },
        }
    }

    /// The same, with the field that its word is forgotten.
    pub fn without_from(self) -> Known<'a>
        ensures is { kind_of result ≡ forget (λ q. true) (kind_of self.entry) }
    {
        match self {
            Known::Gone => Known::Gone,
            Known::Scalar { ty } => Known::Scalar { ty },
            Known::Owned { ty, set } => Known::Owned { ty, set },
            Known::Lent { ty, set, root, .. } => Known::Lent {
                ty,
                set,
                root,
                from: None,
            },
            Known::Credit { size } => Known::Credit { size },
        }
    }

    /// The same, owned where it was borrowed.
    pub fn inherited(self) -> Known<'a>
        ensures is { kind_of result ≡ inherited (kind_of self.entry) }
    {
        match self {
            Known::Gone => Known::Gone,
            Known::Scalar { ty } => Known::Scalar { ty },
            Known::Owned { ty, set } => Known::Owned { ty, set },
            Known::Lent { ty, set, .. } => Known::Owned { ty, set },
            Known::Credit { size } => Known::Credit { size },
        }
    }

    /// The same in the tree of another register.
    pub fn with_root(self, owner: u16) -> Known<'a>
        ensures is { kind_of result ≡ with_root owner (kind_of self.entry) }
    {
        match self {
            Known::Gone => Known::Gone,
            Known::Scalar { ty } => Known::Scalar { ty },
            Known::Owned { ty, set } => Known::Owned { ty, set },
            Known::Lent { ty, set, from, .. } => Known::Lent {
                ty,
                set,
                root: Some(owner),
                from,
            },
            Known::Credit { size } => Known::Credit { size },
        }
    }
}

// The types of the fields of a type's constructor, where a set has it alone.
fn fields_in<'a>(table: &Table<'a>, ty: u32, set: Set<'a>) -> &'a [u32]
    ensures is { result.now ≡ only_fields table.now ty (constructors_in set.entry) }
{
    match set.only() {
        None => &[],
        Some(constructor) => table.fields(ty, constructor),
    }
}

/// Whether two roots are one, or both none.
pub fn same_root(one: Option<u16>, other: Option<u16>) -> bool
    ensures is { result ≡ same_root one other }
{
    match one {
        None => match other {
            None => true,
            Some(_) => false,
        },
        Some(one) => match other {
            None => false,
            Some(other) => one == other,
        },
    }
}

// A from, but none where it names this register.
fn forgotten(register: u16, from: Option<From>) -> Option<From>
    ensures is { result ≡ forget_from (λ q. q == register) from }
{
    match from {
        None => None,
        Some(from) => {
            if from.register == register {
                None
            } else {
                Some(from)
            }
        }
    }
}

/// What is known of a register that gets a constructor without fields.
pub fn atom<'a>(table: &Table<'a>, ty: u32, constructor: u32) -> Known<'a>
    ensures is { kind_of result ≡ atom_kind table.now ty constructor }
    ensures rises { Rise (set_of (kind_of result)) }
{
    if table.is_scalar(ty) {
        Known::Scalar { ty }
    } else {
        Known::Owned {
            ty,
            set: Set::One(constructor),
        }
    }
}

/// What is known of a register that has a value of a type.
#[tactic(auto, using(crate::proofs::Subsets::numbers_rise))]
pub fn whole<'a>(table: &Table<'a>, ty: u32) -> Known<'a>
    ensures is { kind_of result ≡ field_kind table.now ty }
    ensures rises { Rise (set_of (kind_of result)) }
{
    if table.is_scalar(ty) {
        Known::Scalar { ty }
    } else {
        Known::Owned {
            ty,
            set: Set::All(table.count(ty)),
        }
    }
}

/// What is known of a register that reads a field of this type, in the tree of a root.
#[tactic(auto, using(crate::proofs::Subsets::numbers_rise))]
pub fn part_of<'a>(table: &Table<'a>, ty: u32, root: Option<u16>, from: From) -> Known<'a>
    ensures is { kind_of result ≡ lent_kind table.now ty root from.register from.field }
    ensures rises { Rise (set_of (kind_of result)) }
{
    if table.is_scalar(ty) {
        Known::Scalar { ty }
    } else {
        Known::Lent {
            ty,
            set: Set::All(table.count(ty)),
            root,
            from: Some(from),
        }
    }
}
