// What label maps require of registers.
ghost use Rattle.std.specs.Prelude.{◌≡◌, ◌<◌, ◌≤◌, ◌++◌, ◌+◌, ℕ, length, map, IfOk, OnOk};
ghost use Rattle.cell_code.specs.Plain.{plain_label};
ghost use Rattle.code_rules.specs.Kinds.{is_free};
ghost use Rattle.kind_domain.specs.Busy.{IsAsked, ask_by, asks_from, busy_in, held, says_of};
ghost use Rattle.kind_domain.specs.Busy.{AreAsked};
ghost use Rattle.kind_domain.specs.Views.{kinds_of};

use crate::known::Known;
use cell_code::{Kind, Label};
use fip_base::plain::NoMemory;
use std::alloc::Global;

/// What a label map says of a register, where that is more than Gone; of a tree it says more than this.
#[derive(Clone, Copy)]
pub enum Says {
    /// It holds a value of this scalar type.
    Scalar(u32),
    /// It names a cell of this size.
    Credit(u8),
    /// It owns or reads a tree.
    Tree,
}

/// A register of which a label map says more than Gone.
#[derive(Clone, Copy)]
pub struct Ask {
    pub register: u16,
    pub says: Says,
}

/// What a label map requires: the registers of which it says more than Gone, and how many of them may not be
/// overwritten.
#[derive(Drop)]
pub struct Asked {
    pub asks: Vec<Ask>,
    pub busy: usize,
}

/// What each of some label maps requires, one after another. NoMemory: no memory is left.
pub fn asked_by(alloc: Global, labels: &[Label]) -> Result<Vec<Asked>, NoMemory>
    ensures asks { IfOk result (λ v. AreAsked (map plain_label labels.now) v.items) }
    ensures many { IfOk result (λ v. length v.items ≡ length labels.now) }
{
    let mut asked = Vec::new(alloc);
    for label in labels {
        asked.push(asked_of(alloc, label)?)?;
    }
    Ok(asked)
}

// What a label map requires.
fn asked_of(alloc: Global, label: &Label) -> Result<Asked, NoMemory>
    ensures is { IfOk result (λ a. length (plain_label label.now).kinds < 65536 →
        IsAsked (plain_label label.now).kinds a) }
{
    Ok(Asked {
        asks: asks_of(alloc, &label.kinds)?,
        busy: count_kinds(&label.kinds),
    })
}

// What kinds say, where that is more than Gone.
fn asks_of(alloc: Global, kinds: &[Kind]) -> Result<Vec<Ask>, NoMemory>
    ensures is { IfOk result (λ v. length kinds.now < 65536 → v.items ≡ asks_from 0 kinds.now) }
{
    let mut asks = Vec::new(alloc);
    let mut register = 0u16;
    for kind in kinds {
        add_ask(&mut asks, register, kind)?;
        register = register.saturating_add(1);
    }
    Ok(asks)
}

// One register more, where its kind says more than Gone.
fn add_ask(asks: &mut Vec<Ask>, register: u16, kind: &Kind) -> Result<(), NoMemory>
    ensures is { OnOk result (asks.new.items ≡ asks.old.items ++ ask_by (says_of kind.now) register) }
{
    match says_of(kind) {
        None => (),
        Some(says) => asks.push(Ask { register, says })?,
    }
    Ok(())
}

// What a kind says, where that is more than Gone.
fn says_of(kind: &Kind) -> Option<Says>
    ensures is { result ≡ says_of kind.now }
{
    match kind {
        Kind::Gone => None,
        Kind::Scalar { ty } => Some(Says::Scalar(*ty)),
        Kind::Owned { .. } => Some(Says::Tree),
        Kind::Lent { .. } => Some(Says::Tree),
        Kind::Credit { size } => Some(Says::Credit(*size)),
    }
}

// How many kinds may not be overwritten.
fn count_kinds(kinds: &[Kind]) -> usize
    ensures is { result ≡ busy_in kinds.now }
{
    let mut busy = 0usize;
    for kind in kinds {
        busy += one_if_held(is_free(kind));
    }
    busy
}

// Whether a kind may be overwritten.
fn is_free(kind: &Kind) -> bool
    ensures is { result ≡ is_free kind.now }
{
    match kind {
        Kind::Gone => true,
        Kind::Scalar { .. } => true,
        Kind::Owned { .. } => false,
        Kind::Lent { .. } => true,
        Kind::Credit { .. } => false,
    }
}

/// How many registers may not be overwritten.
pub fn count_known(known: &[Known]) -> usize
    ensures is { result ≡ busy_in (kinds_of known.now) }
{
    let mut busy = 0usize;
    for one in known {
        busy += one_if_held(one.is_free());
    }
    busy
}

// 1 for a register that may not be overwritten.
fn one_if_held(is_free: bool) -> usize
    ensures is { result ≡ held is_free }
    ensures few { result ≤ 1 }
{
    if is_free { 0 } else { 1 }
}

/// How many registers may not be overwritten once one of them changes: whether it may be, before and after.
pub fn recount(busy: usize, before: bool, after: bool) -> usize
    requires few { busy < 65536 }
    ensures is { (rest : ℕ) → busy ≡ held before + rest → result ≡ held after + rest }
{
    if before {
        if after { busy } else { busy + 1 }
    } else if after {
        busy.saturating_sub(1)
    } else {
        busy
    }
}
