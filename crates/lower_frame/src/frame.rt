// What is known of the registers of a function at a place of its code.
ghost use Rattle.std.specs.Prelude.{◌≡◌, ◌<◌, ◌^◌, ℕ, suc, max, true, [], ◌∷◌, Some, None, IfOk, IfSome, IfNone, OnOk};
ghost use Rattle.std.specs.Prelude.{get_or, length, map, slice_get};
ghost use Rattle.lowering_relation.specs.Choosing.{Meets, FewerCredits};
ghost use Rattle.lowering_relation.specs.LoweredBodies as B;
ghost use Rattle.lowering_relation.specs.LoweredFunctions.{nothing_known, unless_in, with_credit};
ghost use Rattle.lowering_relation.specs.Known as K;
ghost use Rattle.lowering_relation.specs.declared.held.Held.TheVariants as H;
ghost use Rattle.lowering_relation.specs.Entering.{unnaming};
ghost use Rattle.lowering_relation.specs.Losing.{Loses, Resumes};
ghost use Rattle.cell_code.specs.fip_language.Table.{constructors};
ghost use Rattle.lowering_relation.specs.Describing.{held_at};
ghost use Rattle.lowering_relation.specs.Joins.{Met, holds_credit, still_held};
ghost use Rattle.lowering_relation.specs.Matches.{wide, widened};
ghost use Rattle.lowering_relation.specs.code_rules.Types as Y;
ghost use Rattle.lower_frame.specs.Credits.{NoneBetween, is_credit, is_held_of, sized};
ghost use Rattle.lower_frame.specs.Credits as C;
ghost use Rattle.lower_frame.specs.Frames.{HasSize, Takes, TakesBare, IsBoth, HeldByBoth, NamedByBoth, kind_reported};
ghost use Rattle.lower_frame.specs.Frames.{kinds_reported};
ghost use Rattle.lower_frame.specs.Positions.{reaching};
ghost use Rattle.lower_frame.specs.Registers.{HasRoom, IsFull, IsHeld, holds, registers};

use cell_code::{Constructors, Kind};
use fip_base::plain::NoMemory;
use fip_base::table::{Constructor, TypeTable};
use lowering_relation::{Credit, Held};
use std::alloc::Global;
use std::cmp::max;
use std::marker::Model;

/// What the registers hold, which credits there are (a list that grows and shrinks at its end), the registers of the
/// variables by their binders' numbers, and the first register that isn't used yet.
#[derive(Drop)]
pub struct Frame {
    held: Vec<Held>,
    credits: Vec<Credit>,
    names: Vec<Option<u16>>,
    next: u16,
}

impl Model for Frame {
    ghost Value = { K.Known };

    ghost view = { λ f.
        record { held = f.held.items; credits = f.credits.items; names = f.names.items; next = f.next } };
}

impl Frame {
    /// So many registers that hold nothing, and so many variables without a register.
    pub fn new(alloc: Global, registers: usize, variables: usize) -> Result<Frame, NoMemory>
        ensures nothing { IfOk result (λ f. f ≡ nothing_known registers variables) }
    {
        let mut held = Vec::new(alloc);
        held.resize(registers, Held::Nothing)?;
        let mut names = Vec::new(alloc);
        names.resize(variables, None)?;
        Ok(Frame {
            held,
            credits: Vec::new(alloc),
            names,
            next: 0,
        })
    }

    /// One with the same registers, credits and variables.
    pub fn copy(&self, alloc: Global) -> Result<Frame, NoMemory>
        ensures same { IfOk result (λ f. f ≡ self.now) }
    {
        let mut held = Vec::new(alloc);
        held.extend_from_slice(self.held.as_slice())?;
        let mut credits = Vec::new(alloc);
        credits.extend_from_slice(self.credits.as_slice())?;
        let mut names = Vec::new(alloc);
        names.extend_from_slice(self.names.as_slice())?;
        Ok(Frame {
            held,
            credits,
            names,
            next: self.next,
        })
    }

    /// What is known is what was known elsewhere; registers that are used here or there stay used.
    #[tactic(auto, using(crate::proofs::Losing::resuming))]
    pub fn resume(&mut self, elsewhere: Frame)
        ensures resumed { Resumes elsewhere self.new }
        ensures held { self.new.held ≡ elsewhere.held }
        ensures whole { self.new ≡ reaching elsewhere self.new.next }
        ensures next { self.new.next ≡ max self.old.next elsewhere.next }
    {
        let next = max(self.next, elsewhere.next);
        *self = elsewhere;
        self.next = next;
    }

    /// The first register that isn't used yet.
    pub fn next(&self) -> u16
        ensures next { result ≡ self.now.next }
    {
        self.next
    }

    /// A register that isn't used yet. A function has as many as it needs.
    pub fn fresh(&mut self) -> Result<u16, NoMemory>
        ensures next { IfOk result (λ r. r ≡ self.old.next) }
        ensures used { OnOk result (self.new ≡ K.with_used self.old) }
        ensures room { OnOk result (HasRoom self.old self.new) }
    {
        let register = self.next;
        if register as usize >= self.held.len() {
            return Err(NoMemory);
        }
        self.next = register.checked_add(1).ok_or(NoMemory)?;
        Ok(register)
    }

    /// A variable has this register.
    pub fn bind(&mut self, number: usize, register: u16)
        ensures named { self.new ≡ K.naming self.old number register }
    {
        if let Some(place) = self.names.get_mut(number) {
            *place = Some(register);
        }
    }

    /// A variable has no register any more.
    pub fn unbind(&mut self, number: usize)
        ensures unnamed { self.new ≡ unnaming self.old number }
    {
        if let Some(place) = self.names.get_mut(number) {
            *place = None;
        }
    }

    /// The register of a variable; none where it has none.
    pub fn register_of(&self, binder: Option<usize>) -> Option<u16>
        ensures same { result ≡ K.register_of self.now.names binder }
    {
        match binder {
            None => None,
            Some(number) => match self.names.get(number) {
                None => None,
                Some(register) => *register,
            },
        }
    }

    /// What a register holds.
    pub fn at(&self, register: u16) -> Held
        ensures held { result ≡ get_or self.now.held register H.Nothing }
    {
        match self.held.get(register as usize) {
            Some(held) => *held,
            None => Held::Nothing,
        }
    }

    /// A register holds this from now on.
    pub fn set(&mut self, register: u16, held: Held)
        ensures held { self.new ≡ K.holding self.old register held }
    {
        if let Some(place) = self.held.get_mut(register as usize) {
            *place = held;
        }
    }

    /// Whether a register holds an owned tree.
    pub fn is_owned(&self, register: u16) -> bool
        ensures owned { result ≡ K.is_owned (slice_get self.now.held register) }
    {
        match self.held.get(register as usize) {
            Some(held) => is_owned(*held),
            None => false,
        }
    }

    /// Where a register holds an owned tree, this is used up, and what was borrowed from it isn't read any more.
    pub fn use_up(&mut self, register: u16)
        ensures used { self.new ≡ K.using self.old (K.used self.old.held register) }
    {
        if self.is_owned(register) {
            self.set(register, Held::Nothing);
            lose_lent(&mut self.held, register);
        }
    }

    /// A register with this constructor, which was matched; it is used up.
    pub fn take_bare(&mut self, ty: u32, constructor: u32) -> Option<u16>
        ensures taken { IfSome result (λ r. TakesBare self.old ty constructor r self.new) }
        ensures none { IfNone result (self.new ≡ self.old) }
    {
        let register = self.bare_of(ty, constructor)?;
        self.set(register, Held::Nothing);
        Some(register)
    }

    // The first register with this constructor, which was matched.
    fn bare_of(&self, ty: u32, constructor: u32) -> Option<u16>
        ensures there { IfSome result (λ r. slice_get self.now.held r ≡ Some (H.Bare ty constructor)) }
    {
        for (place, held) in self.held.iter().enumerate() {
            if *held == (Held::Bare { ty, constructor }) {
                return u16::try_from(place).ok();
            }
        }
        None
    }

    /// Whether a register holds a constructor that was matched.
    pub fn is_bare(&self, register: u16) -> bool
        ensures bare { result ≡ C.is_bare (slice_get self.now.held register) }
        ensures full { result ≡ true → IsFull (slice_get self.now.held register) }
    {
        match self.held.get(register as usize) {
            None => false,
            Some(held) => is_bare(*held),
        }
    }

    // Whether a register holds a credit.
    fn is_credit(&self, register: u16) -> bool
        ensures credit { result ≡ is_credit (slice_get self.now.held register) }
        ensures full { result ≡ true → IsFull (slice_get self.now.held register) }
    {
        match self.held.get(register as usize) {
            None => false,
            Some(held) => is_credit(*held),
        }
    }

    /// A register names a cell that can be used again; it is no variable's any more.
    pub fn add_credit(&mut self, size: usize, register: u16) -> Result<(), NoMemory>
        ensures added { OnOk result (self.new ≡ with_credit self.old size register) }
    {
        let marked = u8::try_from(size).map_err(|_| NoMemory)?;
        self.set(register, Held::Credit { size: marked });
        self.credits.push(Credit { size, register })?;
        lose_name(&mut self.names, register);
        Ok(())
    }

    /// The register of the last credit of a size, which is there no longer.
    #[tactic(auto, using(crate::proofs::Accounts::taking))]
    pub fn take_credit(&mut self, size: usize) -> Option<u16>
        ensures taken { IfSome result (λ r. Takes self.old size r self.new) }
        ensures full { IfSome result (λ r. IsFull (slice_get self.old.held r)) }
        ensures none { IfNone result (self.new ≡ self.old) }
        ensures left { IfNone result (NoneBetween 0 (length self.old.credits) self.old.held self.old.credits size) }
    {
        let place = self.last_of(size)?;
        let credit = self.credits.remove(place);
        self.set(credit.register, Held::Nothing);
        Some(credit.register)
    }

    // The place of the last credit of a size. A credit's register holds it.
    #[tactic(auto, using(crate::proofs::Accounts::looking))]
    fn last_of(&self, size: usize) -> Option<usize>
        ensures there { IfSome result (λ p. HasSize size (slice_get self.now.credits p)) }
        ensures full { IfSome result (λ p. IsHeld self.now.held (slice_get self.now.credits p)) }
        ensures within { IfSome result (λ p. p < length self.now.credits) }
        ensures last { IfSome result (λ p. NoneBetween (suc p) (length self.now.credits) self.now.held self.now.credits
            size) }
        ensures none { IfNone result (NoneBetween 0 (length self.now.credits) self.now.held self.now.credits size) }
    {
        let count = self.credits.len();
        for following in 0..count {
            let place = count - 1 - following;
            if self.is_held_of(place, size) {
                return Some(place);
            }
        }
        None
    }

    // Whether a credit of a size is at a place, whose register holds it.
    #[tactic(auto, using(crate::proofs::Accounts::looking))]
    fn is_held_of(&self, place: usize, size: usize) -> bool
        ensures is { result ≡ is_held_of self.now.held size (slice_get self.now.credits place) }
        ensures there { result ≡ true → HasSize size (slice_get self.now.credits place) }
        ensures full { result ≡ true → IsHeld self.now.held (slice_get self.now.credits place) }
        ensures within { result ≡ true → place < length self.now.credits }
    {
        match self.credits.get(place) {
            None => false,
            Some(credit) => credit.size == size && self.is_credit(credit.register),
        }
    }

    /// How many credits of a size there are.
    pub fn count(&self, size: usize) -> usize
        ensures count { result ≡ sized size self.now.credits }
    {
        let mut count: usize = 0;
        for credit in &self.credits {
            if credit.size == size {
                count += 1;
            }
        }
        count
    }

    /// Which constructor was built is known no longer.
    #[tactic(auto, using(crate::proofs::Losing::losing))]
    pub fn widen(&mut self)
        ensures loses { Loses self.old self.new }
        ensures held { self.new.held ≡ map widened self.old.held }
        ensures wide { self.new ≡ wide self.old }
    {
        widen_all(&mut self.held);
    }

    /// What is known here and in another frame, with the credits that are here and whose registers hold one in both.
    #[tactic(auto, using(crate::proofs::Meeting::meeting))]
    pub fn meet(&self, alloc: Global, other: &Frame) -> Result<Frame, NoMemory>
        ensures met { IfOk result (λ f. Met self.now other.now f) }
        ensures here { IfOk result (λ f. Meets self.now f) }
        ensures there { IfOk result (λ f. Meets other.now f) }
        ensures fewer { IfOk result (λ f. FewerCredits self.now.credits f.credits) }
        ensures credits { IfOk result (λ f. f.credits ≡ still_held f.held self.now.credits) }
        ensures next { IfOk result (λ f. f.next ≡ self.now.next) }
        ensures registers { IfOk result (λ f. registers f ≡ registers self.now) }
    {
        let held = held_by_both(alloc, self.held.as_slice(), other.held.as_slice())?;
        let credits = still_held(alloc, held.as_slice(), self.credits.as_slice())?;
        let names = named_by_both(alloc, self.names.as_slice(), other.names.as_slice())?;
        Ok(Frame {
            held,
            credits,
            names,
            next: self.next,
        })
    }

    /// What a verifier is reported of each register, which may have each constructor of its type.
    pub fn kinds(&self, alloc: Global, types: &TypeTable) -> Result<Vec<Kind>, NoMemory>
        ensures reported { IfOk result (λ v. v.items ≡ kinds_reported types.now self.now.held) }
    {
        kinds_of(alloc, types, self.held.as_slice())
    }
}

// Whether this is an owned tree.
fn is_owned(held: Held) -> bool
    ensures { result ≡ K.is_owned (Some held) }
{
    match held {
        Held::Nothing => false,
        Held::Scalar { .. } => false,
        Held::Owned { .. } => true,
        Held::Lent { .. } => false,
        Held::Credit { .. } => false,
        Held::Bare { .. } => false,
    }
}

// Whether this is a constructor that was matched.
fn is_bare(held: Held) -> bool
    ensures bare { result ≡ C.is_bare (Some held) }
    ensures full { result ≡ true → holds held ≡ 1 }
{
    match held {
        Held::Bare { .. } => true,
        _ => false,
    }
}

// Whether this is a credit.
fn is_credit(held: Held) -> bool
    ensures credit { result ≡ is_credit (Some held) }
    ensures holds { result ≡ holds_credit held }
    ensures full { result ≡ true → holds held ≡ 1 }
{
    match held {
        Held::Credit { .. } => true,
        _ => false,
    }
}

// What was borrowed from a register isn't read any more.
#[tactic(auto, using(crate::proofs::Frames::mapping))]
fn lose_lent(helds: &mut Vec<Held>, register: u16)
    ensures { helds.new.items ≡ map (K.without register) helds.old.items }
{
    for held in helds.iter_mut() {
        *held = without(*held, register);
    }
}

fn without(held: Held, register: u16) -> Held
    ensures { result ≡ K.without register held }
{
    match held {
        Held::Nothing => Held::Nothing,
        Held::Scalar { ty } => Held::Scalar { ty },
        Held::Owned { ty, built } => Held::Owned { ty, built },
        Held::Lent { ty, root } => lent_without(ty, root, register),
        Held::Credit { size } => Held::Credit { size },
        Held::Bare { ty, constructor } => Held::Bare { ty, constructor },
    }
}

fn lent_without(ty: u32, root: Option<u16>, register: u16) -> Held
    ensures { result ≡ K.lent_by register root (H.Lent ty root) }
{
    match root {
        None => Held::Lent { ty, root },
        Some(owner) => {
            if owner == register {
                Held::Nothing
            } else {
                Held::Lent { ty, root }
            }
        }
    }
}

#[tactic(auto, using(crate::proofs::Frames::mapping))]
fn widen_all(helds: &mut Vec<Held>)
    ensures { helds.new.items ≡ map widened helds.old.items }
{
    for held in helds.iter_mut() {
        *held = wide(*held);
    }
}

fn wide(held: Held) -> Held
    ensures { result ≡ widened held }
{
    match held {
        Held::Nothing => Held::Nothing,
        Held::Scalar { ty } => Held::Scalar { ty },
        Held::Owned { ty, .. } => Held::Owned { ty, built: None },
        Held::Lent { ty, root } => Held::Lent { ty, root },
        Held::Credit { size } => Held::Credit { size },
        Held::Bare { ty, constructor } => Held::Bare { ty, constructor },
    }
}

// What registers hold in both of two frames.
fn held_by_both(alloc: Global, here: &[Held], there: &[Held]) -> Result<Vec<Held>, NoMemory>
    ensures both { IfOk result (λ v. HeldByBoth here.now there.now v.items) }
    ensures as_many { IfOk result (λ v. length v.items ≡ length here.now) }
{
    let mut both = Vec::new(alloc);
    for held in here {
        let place = both.len();
        both.push(held_if(*held, there, place))?;
    }
    Ok(both)
}

fn held_if(held: Held, there: &[Held], place: usize) -> Held
    ensures both { IsBoth H.Nothing held (held_at there.now place) result }
{
    match there.get(place) {
        None => Held::Nothing,
        Some(other) => { if *other == held { held } else { Held::Nothing } }
    }
}

// The credits whose registers hold one.
fn still_held(alloc: Global, helds: &[Held], credits: &[Credit]) -> Result<Vec<Credit>, NoMemory>
    ensures same { IfOk result (λ v. v.items ≡ still_held helds.now credits.now) }
{
    let mut left = Vec::new(alloc);
    for credit in credits {
        if holds_credit(helds, credit.register) {
            left.push(*credit)?;
        }
    }
    Ok(left)
}

fn holds_credit(helds: &[Held], register: u16) -> bool
    ensures credit { result ≡ holds_credit (held_at helds.now register) }
{
    match helds.get(register as usize) {
        None => false,
        Some(held) => is_credit(*held),
    }
}

// The registers of variables that have the same one in both of two frames.
fn named_by_both(
    alloc: Global,
    here: &[Option<u16>],
    there: &[Option<u16>],
) -> Result<Vec<Option<u16>>, NoMemory>
    ensures both { IfOk result (λ v. NamedByBoth here.now there.now v.items) }
    ensures as_many { IfOk result (λ v. length v.items ≡ length here.now) }
{
    let mut both = Vec::new(alloc);
    for name in here {
        let place = both.len();
        both.push(name_if(*name, there, place))?;
    }
    Ok(both)
}

#[tactic(auto, using(crate::proofs::Meeting::agreeing))]
fn name_if(name: Option<u16>, there: &[Option<u16>], place: usize) -> Option<u16>
    ensures both { IsBoth None name (K.joined (slice_get there.now place)) result }
{
    match there.get(place) {
        None => None,
        Some(other) => { if *other == name { name } else { None } }
    }
}

// A register is no variable's any more.
#[tactic(auto, using(crate::proofs::Frames::mapping))]
fn lose_name(names: &mut Vec<Option<u16>>, register: u16)
    ensures { names.new.items ≡ map (unless_in register) names.old.items }
{
    for name in names.iter_mut() {
        *name = unless(*name, register);
    }
}

fn unless(name: Option<u16>, register: u16) -> Option<u16>
    ensures { result ≡ unless_in register name }
{
    match name {
        None => None,
        Some(one) => { if one == register { None } else { name } }
    }
}

/// What a register holds that gets the word of another: a constructor that was matched is a tree as any other.
pub fn as_value(held: Held) -> Held
    ensures same { result ≡ B.as_value held }
{
    match held {
        Held::Nothing => Held::Nothing,
        Held::Scalar { ty } => Held::Scalar { ty },
        Held::Owned { ty, built } => Held::Owned { ty, built },
        Held::Lent { ty, root } => Held::Lent { ty, root },
        Held::Credit { size } => Held::Credit { size },
        Held::Bare { ty, constructor } => Held::Owned {
            ty,
            built: Some(constructor),
        },
    }
}

fn kinds_of(alloc: Global, types: &TypeTable, helds: &[Held]) -> Result<Vec<Kind>, NoMemory>
    ensures reported { IfOk result (λ v. v.items ≡ kinds_reported types.now helds.now) }
{
    let mut kinds = Vec::new(alloc);
    for held in helds {
        kinds.push(kind_of(alloc, types, *held)?)?;
    }
    Ok(kinds)
}

// What a verifier is reported of a register, which may have each constructor of its type.
fn kind_of(alloc: Global, types: &TypeTable, held: Held) -> Result<Kind, NoMemory>
    ensures reported { IfOk result (λ k. k ≡ kind_reported types.now held) }
{
    match held {
        Held::Nothing => Ok(Kind::Gone),
        Held::Scalar { ty } => Ok(Kind::Scalar { ty }),
        Held::Owned { ty, .. } => Ok(Kind::Owned {
            ty,
            constructors: all_of(alloc, types, ty)?,
        }),
        Held::Lent { ty, root } => Ok(Kind::Lent {
            ty,
            constructors: all_of(alloc, types, ty)?,
            root,
            from: None,
        }),
        Held::Credit { size } => Ok(Kind::Credit { size }),
        Held::Bare { ty, constructor } => Ok(Kind::Owned {
            ty,
            constructors: one_of(alloc, constructor)?,
        }),
    }
}

// One constructor.
fn one_of(alloc: Global, constructor: u32) -> Result<Constructors, NoMemory>
    ensures one { IfOk result (λ s. s ≡ constructor ∷ []) }
{
    let mut numbers = Vec::new(alloc);
    numbers.push(constructor)?;
    Ok(Constructors::new(numbers))
}

// All constructors of a type.
fn all_of(alloc: Global, types: &TypeTable, ty: u32) -> Result<Constructors, NoMemory>
    ensures all { IfOk result (λ s. s ≡ Y.all types.now ty) }
{
    let mut numbers = Vec::new(alloc);
    let count = constructors_of(types, ty).len() as u32;
    for number in 0..count {
        numbers.push(number)?;
    }
    Ok(Constructors::new(numbers))
}

/// The constructors of a type; a number that is no type's has none.
#[tactic(auto, using(crate::proofs::Counting::numbering))]
pub fn constructors_of(types: &TypeTable, ty: u32) -> &[Constructor]
    ensures same { result.now ≡ constructors types.now ty }
    ensures few { length result.now < 2 ^ 32 }
{
    if ty as usize > types.len() {
        return &[];
    }
    types.constructors_of(ty)
}
