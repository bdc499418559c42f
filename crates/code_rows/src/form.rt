// S9: a function's header and label maps.
ghost use Rattle.std.specs.Prelude.{◌≡◌, ℕ, length};
ghost use Rattle.code_rules.specs.Asked.{known_fields, only_fields};
ghost use Rattle.cell_code.specs.Plain.{plain_function};
ghost use Rattle.code_rules.specs.Headers as h;
ghost use Rattle.code_rules.specs.Kinds.{at, root_of};
ghost use Rattle.code_rules.specs.Kinds as k;
ghost use Rattle.register_kinds.specs.State.{of_types};
ghost use Rattle.code_rows.specs.Numbering.{is_good_label, are_good_labels, has_registers, has_few, has_types};

use cell_code::{From, Function, Kind, Label};
use fip_base::plain::Param;
use fip_language::limits::{MOST_CREDITS, MOST_FIELDS, MOST_REGISTERS, MOST_RESULTS};
use register_kinds::Table;

/// Whether a function keeps S9.
#[tactic(auto, using(crate::proofs::Steps::formed_as))]
pub fn is_formed(table: &Table, function: &Function) -> bool
    ensures { result ≡ h.is_formed (of_types table.now) (plain_function function.now) }
{
    has_registers(function)
        && has_few(function)
        && has_types(table, function)
        && are_labels(table, function)
}

// Whether there are instructions, and registers for parameters and credits and not too many.
fn has_registers(function: &Function) -> bool
    ensures { result ≡ has_registers (plain_function function.now) }
{
    let registers = function.registers as usize;
    let given = function
        .params
        .as_slice()
        .len()
        .saturating_add(function.credits.len());
    function.instrs.len() != 0 && given <= registers && registers <= MOST_REGISTERS
}

// Whether there are results, not too many, and not too many credits.
fn has_few(function: &Function) -> bool
    ensures { result ≡ has_few (plain_function function.now) }
{
    let results = function.results.as_slice().len();
    results != 0 && results <= MOST_RESULTS && function.credits.len() <= MOST_CREDITS
}

// Whether the types and sizes of the header are there.
fn has_types(table: &Table, function: &Function) -> bool
    ensures { result ≡ has_types table.now (plain_function function.now) }
{
    are_params(table, function.params.as_slice())
        && are_sizes(&function.credits)
        && are_types(table, function.results.as_slice())
}

fn are_params(table: &Table, params: &[Param]) -> bool
    ensures { result ≡ h.are_params table.now params.now }
{
    for param in params {
        if !table.is_type(param.ty) {
            return false;
        }
    }
    true
}

// Whether these are all types of the table.
fn are_types(table: &Table, types: &[u32]) -> bool
    ensures { result ≡ h.are_types table.now types.now }
{
    for ty in types {
        if !table.is_type(*ty) {
            return false;
        }
    }
    true
}

fn are_sizes(sizes: &[u8]) -> bool
    ensures { result ≡ h.are_sizes sizes.now }
{
    for size in sizes {
        if !is_size(*size) {
            return false;
        }
    }
    true
}

// Whether cells have this size.
fn is_size(size: u8) -> bool
    ensures { result ≡ h.is_size size }
{
    0 < size && size as usize <= MOST_FIELDS
}

// Whether label maps rise, are after instruction 0 and within the function, and speak of its registers.
fn are_labels(table: &Table, function: &Function) -> bool
    ensures { result ≡ are_good_labels table.now (plain_function function.now) 0 function.now.labels.items }
{
    let mut low = 0u32;
    for label in &function.labels {
        if !is_label(table, function, low, label) {
            return false;
        }
        low = label.at;
    }
    true
}

// Whether a label map is after a number and within the function, and speaks of its registers.
fn is_label(table: &Table, function: &Function, low: u32, label: &Label) -> bool
    ensures { result ≡ is_good_label table.now (plain_function function.now) low label.now }
{
    low < label.at
        && (label.at as usize) < function.instrs.len()
        && label.kinds.len() == function.registers as usize
        && are_kinds(table, &label.kinds)
}

fn are_kinds(table: &Table, kinds: &[Kind]) -> bool
    ensures { result ≡ h.are_good_kinds table.now kinds.now 0 kinds.now }
{
    let mut register = 0usize;
    for kind in kinds {
        if !is_kind(table, kinds, register, kind) {
            return false;
        }
        register += 1;
    }
    true
}

// Whether what a label map says of one register may be beside what it says of the others.
fn is_kind(table: &Table, kinds: &[Kind], register: usize, kind: &Kind) -> bool
    ensures { result ≡ h.is_good_kind table.now kinds.now register kind.now }
{
    match kind {
        Kind::Gone => true,
        Kind::Scalar { ty } => table.is_type(*ty),
        Kind::Owned { ty, constructors } => is_set(table, *ty, constructors.as_slice()),
        Kind::Lent {
            ty,
            constructors,
            root,
            from,
        } => {
            is_set(table, *ty, constructors.as_slice())
                && is_root(kinds, *root)
                && is_from(table, kinds, register, *root, *from)
        }
        Kind::Credit { size } => is_size(*size),
    }
}

// Whether these are constructors of the type in rising order, at least one.
fn is_set(table: &Table, ty: u32, constructors: &[u32]) -> bool
    ensures { result ≡ h.is_set table.now ty constructors.now }
{
    constructors.len() != 0 && are_rising(table.count(ty), constructors)
}

// Whether numbers rise, and are below a number.
fn are_rising(count: usize, numbers: &[u32]) -> bool
    ensures { result ≡ h.are_rising count 0 numbers.now }
{
    let mut low = 0usize;
    for number in numbers {
        let number = *number as usize;
        if number < low || number >= count {
            return false;
        }
        low = number + 1;
    }
    true
}

// Whether a root is a register that owns a tree.
fn is_root(kinds: &[Kind], root: Option<u16>) -> bool
    ensures { result ≡ h.is_good_root kinds.now root }
{
    match root {
        None => true,
        Some(root) => is_owned(kinds, root),
    }
}

fn is_owned(kinds: &[Kind], register: u16) -> bool
    ensures { result ≡ k.is_owned (at kinds.now register) }
{
    match kinds.get(register as usize) {
        None => false,
        Some(kind) => match kind {
            Kind::Gone => false,
            Kind::Scalar { .. } => false,
            Kind::Owned { .. } => true,
            Kind::Lent { .. } => false,
            Kind::Credit { .. } => false,
        },
    }
}

// Whether a from names another register, owned or borrowed with this root, whose one constructor has that field.
fn is_from(
    table: &Table,
    kinds: &[Kind],
    register: usize,
    root: Option<u16>,
    from: Option<From>,
) -> bool
    ensures { result ≡ h.is_good_from table.now kinds.now register root from }
{
    match from {
        None => true,
        Some(from) => {
            from.register as usize != register
                && same_root(root_at(kinds, from.register), root)
                && (from.field as usize) < fields_at(table, kinds, from.register)
        }
    }
}

fn same_root(one: Option<u16>, other: Option<u16>) -> bool
    ensures { result ≡ k.same_root one other }
{
    match one {
        None => other.is_none(),
        Some(one) => match other {
            None => false,
            Some(other) => one == other,
        },
    }
}

// The register that owns the tree that a register owns or reads.
fn root_at(kinds: &[Kind], register: u16) -> Option<u16>
    ensures { result ≡ root_of register (at kinds.now register) }
{
    match kinds.get(register as usize) {
        None => None,
        Some(kind) => match kind {
            Kind::Gone => None,
            Kind::Scalar { .. } => None,
            Kind::Owned { .. } => Some(register),
            Kind::Lent { root, .. } => *root,
            Kind::Credit { .. } => None,
        },
    }
}

// How many fields can be read of the cell that a register owns or reads.
fn fields_at(table: &Table, kinds: &[Kind], register: u16) -> usize
    ensures { result ≡ length (known_fields table.now (at kinds.now register)) }
{
    match kinds.get(register as usize) {
        None => 0,
        Some(kind) => match kind {
            Kind::Gone => 0,
            Kind::Scalar { .. } => 0,
            Kind::Owned { ty, constructors } => fields_of(table, *ty, constructors.as_slice()),
            Kind::Lent {
                ty,
                constructors,
                ..
            } => fields_of(table, *ty, constructors.as_slice()),
            Kind::Credit { .. } => 0,
        },
    }
}

// How many fields a cell has, where it has one constructor.
fn fields_of(table: &Table, ty: u32, constructors: &[u32]) -> usize
    ensures { result ≡ length (only_fields table.now ty constructors.now) }
{
    match constructors {
        [constructor] => table.fields(ty, *constructor).len(),
        _ => 0,
    }
}
