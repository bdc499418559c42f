// Claims that a data type has a value wherever some of its arguments have one: those that are asked, and those that are
// marked, which are known to be true. Of a type as few as serve are looked through: a marked claim makes all further
// ones of more arguments needless, and while one is asked all of fewer arguments wait for it.
ghost use Rattle.std.specs.Prelude.{◌≡◌, ◌<◌, ◌≤◌, ◌⊎◌, ℕ, length, true, false, Some, None, [], ◌++◌, ◌∷◌, slice_get};
ghost use Rattle.std.specs.Prelude.{OnOk, IfOk, IfSome, MatchOption, List, Bool};
ghost use Rattle.data_types.specs.Types.{Declarations};
ghost use Rattle.data_types.specs.Marks as m;
ghost use Rattle.data_types.specs.Steps as s;

use crate::found::{Found, gather, is_below};
use fip_base::plain::NoMemory;
use indexmap::IndexSet;
use std::alloc::Global;
use std::marker::Model;
use std::mem;

/// That a data type, by its place, has a value wherever some of its arguments have one.
#[derive(Drop)]
pub struct Claim {
    pub ty: usize,
    /// At the place of an argument whether it is one of them.
    pub arguments: Vec<bool>,
    /// Whether the claim is known to be true; else it is asked.
    pub is_marked: bool,
}

/// A constructor of the type of the claim at a place.
#[derive(Clone, Copy, PartialEq, Eq, Hash)]
pub struct Waiter {
    pub place: usize,
    pub number: usize,
}

/// The type and the arguments of a claim that is asked.
#[derive(Drop)]
pub struct Asked {
    pub ty: usize,
    pub arguments: Vec<bool>,
}

/// The claims that were asked for, and what waits for them.
#[derive(Drop)]
pub struct Claims {
    claims: Vec<Claim>,
    // At the place of a claim, what waits for it.
    waiting: Vec<IndexSet<Waiter>>,
    // The places of marked claims for which something may wait.
    todo: Vec<usize>,
    // At the place of a data type the places of its claims, those left out that a marked one makes needless.
    by_type: Vec<Vec<usize>>,
}

impl Model for Claims {
    ghost use Rattle.data_types.specs.Marks.{State};
    ghost use Rattle.data_types.specs.ClaimView.{claims as claims_of};

    ghost Value = { State };

    ghost view = { λ c. record { claims = claims_of c.claims.items; todo = c.todo.items } };
}

impl Claims {
    /// No claims.
    pub fn new(alloc: Global) -> Self
        ensures { result ≡ record { claims = []; todo = [] } }
    {
        Claims {
            claims: Vec::new(alloc),
            waiting: Vec::new(alloc),
            todo: Vec::new(alloc),
            by_type: Vec::new(alloc),
        }
    }

    /// How many there are.
    pub fn count(&self) -> usize
        ensures count { result ≡ length self.now.claims }
        ensures few { result ≤ m.most_claims }
    {
        self.claims.len()
    }

    /// Asks a claim, as the last one.
    pub fn list(&mut self, alloc: Global, ty: usize, arguments: Vec<bool>) -> Result<(), NoMemory>
        ensures listed { OnOk result (self.new ≡ m.with_claim self.old ty arguments.items) }
        ensures few { OnOk result (length self.new.claims ≤ m.most_claims) }
    {
        let place = self.claims.len();
        self.claims.push(Claim {
            ty,
            arguments,
            is_marked: false,
        })?;
        self.waiting.push(IndexSet::new(alloc))?;
        self.file(alloc, ty, place)?;
        Ok(())
    }

    // The claim at a place is one of a data type.
    fn file(&mut self, alloc: Global, ty: usize, place: usize) -> Result<(), NoMemory>
        ensures { OnOk result (self.new ≡ self.old) }
    {
        while self.by_type.len() <= ty {
            self.by_type.push(Vec::new(alloc))?;
        }
        self.by_type[ty].push(place)?;
        Ok(())
    }

    // A constructor waits for the claim at a place.
    fn wait(&mut self, place: usize, waiter: Waiter) -> Result<(), NoMemory>
        ensures { OnOk result (self.new ≡ self.old) }
    {
        if place < self.waiting.len() {
            self.waiting[place].insert(waiter)?;
        }
        Ok(())
    }

    /// A constructor waits for a claim of these arguments or more, which is asked.
    pub fn ask(
        &mut self,
        alloc: Global,
        waiter: Waiter,
        ty: usize,
        arguments: Vec<bool>,
    ) -> Result<(), NoMemory>
        ensures { OnOk result (s.IsAsking self.old self.new ty arguments.items) }
    {
        match self.asked_above(ty, arguments.as_slice()) {
            Some(place) => {
                self.wait(place, waiter)?;
                Ok(())
            }
            None => {
                let place = self.count();
                self.list(alloc, ty, arguments)?;
                self.wait(place, waiter)?;
                Ok(())
            }
        }
    }

    fn is_marked_below(&self, place: usize, ty: usize, arguments: &[bool]) -> bool
        ensures { result ≡ true → s.IsMarkedBelow self.now place ty arguments.now }
    {
        if place >= self.claims.len() {
            return false;
        }
        let claim = &self.claims[place];
        claim.is_marked && claim.ty == ty && is_below(claim.arguments.as_slice(), arguments)
    }

    fn is_asked_above(&self, place: usize, ty: usize, arguments: &[bool]) -> bool
        ensures { result ≡ true → s.IsAskedAbove self.now place ty arguments.now }
    {
        if place >= self.claims.len() {
            return false;
        }
        let claim = &self.claims[place];
        !claim.is_marked && claim.ty == ty && is_below(arguments, claim.arguments.as_slice())
    }

    /// A marked claim that needs no other arguments.
    pub fn marked_below(&self, ty: usize, arguments: &[bool]) -> Option<usize>
        ensures { IfSome result (λ i. s.IsMarkedBelow self.now i ty arguments.now) }
    {
        if ty >= self.by_type.len() {
            return None;
        }
        for place in &self.by_type[ty] {
            if self.is_marked_below(*place, ty, arguments) {
                return Some(*place);
            }
        }
        None
    }

    // A claim of at least these arguments that is asked.
    fn asked_above(&self, ty: usize, arguments: &[bool]) -> Option<usize>
        ensures { IfSome result (λ i. s.IsAskedAbove self.now i ty arguments.now) }
    {
        if ty >= self.by_type.len() {
            return None;
        }
        for place in &self.by_type[ty] {
            if self.is_asked_above(*place, ty, arguments) {
                return Some(*place);
            }
        }
        None
    }

    /// What the arguments of a marked claim need.
    pub fn needs_at(
        &self,
        alloc: Global,
        place: usize,
        found: &[Found],
    ) -> Result<Vec<usize>, NoMemory>
        requires within { place < length self.now.claims }
        ensures { IfOk result (λ ks. (t : ℕ) (bs : List Bool) →
            slice_get self.now.claims place ≡ Some (m.known t bs) → ks.items ≡ s.gathered 0 bs found.now) }
    {
        gather(alloc, self.claims[place].arguments.as_slice(), found)
    }

    /// A copy of the claim at a place, where one is asked.
    pub fn asked_at(&self, place: usize) -> Result<Option<Asked>, NoMemory>
        ensures { IfOk result (λ o. MatchOption o
            ((t : ℕ) (bs : List Bool) → slice_get self.now.claims place ≡ Some (m.asked t bs) → ⊥)
            (λ a. slice_get self.now.claims place ≡ Some (m.asked a.ty a.arguments.items))) }
    {
        if place >= self.claims.len() || self.claims[place].is_marked {
            return Ok(None);
        }
        let ty = self.claims[place].ty;
        let arguments = self.claims[place].arguments.clone()?;
        Ok(Some(Asked { ty, arguments }))
    }

    /// Whether the claim at a place is marked.
    pub fn is_marked_at(&self, place: usize) -> bool
        ensures { result ≡ m.is_marked self.now place }
    {
        if place >= self.claims.len() {
            return false;
        }
        self.claims[place].is_marked
    }

    // Marks a claim that is asked, with arguments that suffice.
    fn mark(&mut self, place: usize, ty: usize, arguments: Vec<bool>) -> Result<(), NoMemory>
        requires within { place < length self.now.claims }
        ensures { OnOk result (self.new ≡ m.with_mark self.old place ty arguments.items) }
    {
        self.claims[place] = Claim {
            ty,
            arguments,
            is_marked: true,
        };
        self.todo.push(place)?;
        Ok(())
    }

    /// Marks the claim at a place with arguments that suffice, and all claims that these make true.
    pub fn settle(
        &mut self,
        alloc: Global,
        place: usize,
        ty: usize,
        arguments: Vec<bool>,
    ) -> Result<(), NoMemory>
        requires asked { m.IsAskedAt self.now place ty }
        ensures { OnOk result ((ds : Declarations) → (m.IsSound ds self.old → m.Holds ds ty arguments.items) →
            s.IsStep ds self.old self.new true) }
    {
        let copy = Vec::from_slice(alloc, arguments.as_slice())?;
        self.mark(place, ty, copy)?;
        self.mark_above(alloc, place, ty, arguments.as_slice())?;
        Ok(())
    }

    // Marks the claims of more arguments than a claim that is marked now; these are looked through no more.
    fn mark_above(
        &mut self,
        alloc: Global,
        place: usize,
        ty: usize,
        arguments: &[bool],
    ) -> Result<(), NoMemory>
        ensures { OnOk result ((ds : Declarations) → s.GoesIf ds (m.Holds ds ty arguments.now) self.old self.new) }
    {
        let others = self.take_places(alloc, ty);
        for other in &others {
            self.mark_if_above(alloc, *other, ty, arguments)?;
        }
        self.file(alloc, ty, place)?;
        Ok(())
    }

    // The places of a data type's claims; none is left to look through.
    fn take_places(&mut self, alloc: Global, ty: usize) -> Vec<usize>
        ensures { self.new ≡ self.old }
    {
        let none = Vec::new(alloc);
        if ty < self.by_type.len() {
            mem::replace(&mut self.by_type[ty], none)
        } else {
            none
        }
    }

    fn mark_if_above(
        &mut self,
        alloc: Global,
        place: usize,
        ty: usize,
        arguments: &[bool],
    ) -> Result<(), NoMemory>
        ensures { OnOk result ((ds : Declarations) → s.GoesIf ds (m.Holds ds ty arguments.now) self.old self.new) }
    {
        if self.is_asked_above(place, ty, arguments) {
            let copy = Vec::from_slice(alloc, arguments)?;
            self.mark(place, ty, copy)?;
            return Ok(());
        }
        if !self.is_above(place, arguments) {
            self.file(alloc, ty, place)?;
        }
        Ok(())
    }

    fn is_above(&self, place: usize, arguments: &[bool]) -> bool {
        place < self.claims.len() && is_below(arguments, self.claims[place].arguments.as_slice())
    }

    /// The place of a marked claim for which something may wait.
    pub fn next(&mut self) -> Option<usize>
        ensures { MatchOption result (self.new ≡ self.old)
            (λ i. self.old ≡ record { claims = self.new.claims; todo = self.new.todo ++ i ∷ [] }) }
    {
        self.todo.pop()
    }

    /// What waits for the claim at a place; nothing waits for it then.
    pub fn take(&mut self, alloc: Global, place: usize) -> IndexSet<Waiter>
        ensures { self.new ≡ self.old }
    {
        let none = IndexSet::new(alloc);
        if place < self.waiting.len() {
            mem::replace(&mut self.waiting[place], none)
        } else {
            none
        }
    }
}
