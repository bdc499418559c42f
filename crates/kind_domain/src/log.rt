// Which label maps were seen to fit, and what has changed since.
ghost use Rattle.std.specs.Prelude.{◌≡◌, ℕ, true, false, None, Some, IfOk, IfSome, List, slice_get, set};
ghost use Rattle.code_rules.specs.Kinds.{has};
ghost use Rattle.kind_domain.specs.Sights.{HasBut};
ghost use Rattle.kind_domain.specs.Sights.{HasBefore};
ghost use Rattle.kind_domain.specs.declared.log.Seen.{Seen};

use fip_base::plain::NoMemory;
use std::alloc::Global;
use std::marker::Model;

/// When a label map was seen to fit: before which changes.
#[derive(Clone, Copy)]
pub struct Seen {
    turn: u64,
    changes: usize,
}

/// For each label map that was seen to fit the registers that have changed since.
#[derive(Drop)]
pub struct Log {
    items: Vec<u16>,
    top: usize,
    turn: u64,
    seen: Vec<Option<Seen>>,
}

impl Model for Log {
    ghost use Rattle.std.specs.Prelude.{List, Option, ℕ, map, take};
    ghost use Rattle.kind_domain.specs.Sights.{since_of, IsLog};

    ghost Value = { List (Option (List ℕ)) };

    ghost view = { λ l. map (since_of l.turn (take l.top l.items.items)) l.seen.items };

    ghost invariant = { λ l. IsLog l.items.items l.top l.turn l.seen.items };
}

impl Log {
    /// None of so many label maps was seen to fit. There is room for so many changes.
    pub fn new(alloc: Global, room: usize, labels: usize) -> Result<Log, NoMemory>
        ensures none { IfOk result (λ s. (l : ℕ) (xs : List ℕ) → slice_get s l ≡ Some (Some xs) → ⊥) }
    {
        let mut items = Vec::new(alloc);
        items.resize(room, 0)?;
        Ok(Log {
            items,
            top: 0,
            turn: 0,
            seen: none_seen(alloc, labels)?,
        })
    }

    /// The registers that have changed since a label map was seen to fit.
    pub fn since(&self, label: usize) -> Option<&[u16]>
        ensures is { IfSome result (λ xs. slice_get self.now label ≡ Some (Some xs.now)) }
    {
        match seen_at(&self.seen, label) {
            None => None,
            Some(seen) => {
                if seen.turn == self.turn {
                    self.items[..self.top].get(seen.changes..)
                } else {
                    None
                }
            }
        }
    }

    /// A label map was seen to fit.
    pub fn see(&mut self, label: usize)
        ensures seen { (l : ℕ) (xs : List ℕ) → slice_get self.new l ≡ Some (Some xs) →
            (label ≡ l → ⊥) → slice_get self.old l ≡ Some (Some xs) }
    {
        if label < self.seen.len() {
            self.seen[label] = Some(Seen {
                turn: self.turn,
                changes: self.top,
            });
        }
    }

    /// A label map was seen to fit but for one register.
    pub fn see_but(&mut self, label: usize, register: u16)
        ensures seen { (l : ℕ) (xs : List ℕ) → slice_get self.new l ≡ Some (Some xs) →
            HasBut self.old label register l xs }
    {
        self.see(label);
        self.add(register);
    }

    /// A register has changed. Where there is no room, no label map counts as seen any more.
    pub fn add(&mut self, register: u16)
        ensures added { (l : ℕ) (xs : List ℕ) → slice_get self.new l ≡ Some (Some xs) →
            HasBefore self.old l xs register }
    {
        if self.top < self.items.len() {
            self.items[self.top] = register;
            self.top += 1;
        } else {
            self.start();
        }
    }

    /// No label map was seen to fit.
    pub fn start(&mut self)
        ensures none { (l : ℕ) (xs : List ℕ) → slice_get self.new l ≡ Some (Some xs) → ⊥ }
    {
        match self.turn.checked_add(1) {
            Some(turn) => {
                self.turn = turn;
                self.top = 0;
            }
            None => self.seen.clear(),
        }
    }
}

// None of so many was seen.
fn none_seen(alloc: Global, labels: usize) -> Result<Vec<Option<Seen>>, NoMemory>
    ensures none { IfOk result (λ v. (l : ℕ) (s : Seen) → slice_get v.items l ≡ Some (Some s) → ⊥) }
{
    let mut seen = Vec::new(alloc);
    seen.resize(labels, None)?;
    Ok(seen)
}

// When a label map was seen to fit.
fn seen_at(seen: &[Option<Seen>], label: usize) -> Option<Seen>
    ensures is { IfSome result (λ s. slice_get seen.now label ≡ Some (Some s)) }
{
    match seen.get(label) {
        None => None,
        Some(seen) => *seen,
    }
}
