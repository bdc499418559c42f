// Credits counted by their sizes, and taken away one after another.
ghost use Rattle.std.specs.Prelude.{◌≡◌, ◌<◌, ◌≤◌, ◌+◌, ℕ, List, length, get_or, true, IsTrue};
ghost use Rattle.fip_trees.specs.Sizes.{number};
ghost use Rattle.fip_trees.specs.TreeView as V;
ghost use Rattle.ownership_calculus.specs.Terms.{given, paid, Credit as Size};
ghost use Rattle.derivation_check.specs.Owned.{amount, RisingSizes};
ghost use Rattle.derivation_check.specs.Patterns.{nodes, nodes_all};

use derivation_trees::Credit;
use fip_trees::program::Pattern;

/// The credits that are left, of each size.
#[derive(Clone, Copy)]
pub struct Counts {
    pub counts: [u32; 17],
    pub ghost long: { length counts ≡ 17 },
}

/// Whether the sizes of credits rise from 1 to 16, at least one of each.
pub fn are_sizes(credits: &[Credit]) -> bool
    ensures sound { IsTrue result → RisingSizes 1 credits.now }
    ensures complete { RisingSizes 1 credits.now → IsTrue result }
{
    let mut least: usize = 1;
    for credit in credits {
        let size = credit.size as usize;
        if size < least || size >= 17 || credit.count == 0 {
            return false;
        }
        least = size + 1;
    }
    true
}

impl Counts {
    /// These credits, whose sizes rise.
    pub fn of(credits: &[Credit]) -> Counts
        requires { RisingSizes 1 credits.now }
        ensures counted { (k : ℕ) → number result.counts k ≡ amount k credits.now }
    {
        let mut counts = Counts { counts: [0; 17] };
        for credit in credits {
            counts.put(credit.size as usize, credit.count);
        }
        counts
    }

    // So many credits of one size.
    fn put(&mut self, size: usize, count: u32)
        ensures there { size < 17 → number self.new.counts size ≡ count }
        ensures others { (k : ℕ) → (k ≡ size → ⊥) → number self.new.counts k ≡ number self.old.counts k }
    {
        if size < 17 {
            self.counts[size] = count;
        }
    }

    /// Takes credits of one size; false where there are fewer.
    pub fn take(&mut self, size: usize, taken: u32) -> bool
        ensures fewer { IsTrue result → number self.old.counts size ≡ taken + number self.new.counts size }
        ensures others { IsTrue result → (k : ℕ) → (k ≡ size → ⊥) →
            number self.new.counts k ≡ number self.old.counts k }
        ensures out_of_memory { taken ≤ number self.old.counts size → IsTrue result }
    {
        if size >= 17 {
            return taken == 0;
        }
        match self.counts[size].checked_sub(taken) {
            None => false,
            Some(left) => {
                self.counts[size] = left;
                true
            }
        }
    }

    /// Takes the credit of a constructor with so many fields, none where it has none; false where there is none.
    pub fn take_paid(&mut self, fields: usize) -> bool
        ensures taken { IsTrue result →
            (k : ℕ) → number self.old.counts k ≡ paid fields (Size k) + number self.new.counts k }
        ensures out_of_memory { ((k : ℕ) → paid fields (Size k) ≤ number self.old.counts k) → IsTrue result }
    {
        if fields == 0 {
            return true;
        }
        self.take(fields, 1)
    }

    /// Takes these; false where there are fewer.
    pub fn take_all(&mut self, credits: &[Credit]) -> bool
        ensures taken { IsTrue result →
            (k : ℕ) → number self.old.counts k ≡ amount k credits.now + number self.new.counts k }
        ensures out_of_memory { ((k : ℕ) → amount k credits.now ≤ number self.old.counts k) → IsTrue result }
    {
        for credit in credits {
            if !self.take(credit.size as usize, credit.count) {
                return false;
            }
        }
        true
    }

    /// Takes those that a header marks; false where there are fewer.
    pub fn take_marked(&mut self, sizes: &[u8]) -> bool
        ensures taken { IsTrue result →
            (k : ℕ) → number self.old.counts k ≡ given k sizes.now + number self.new.counts k }
        ensures out_of_memory { ((k : ℕ) → given k sizes.now ≤ number self.old.counts k) → IsTrue result }
    {
        for size in sizes {
            if !self.take(*size as usize, 1) {
                return false;
            }
        }
        true
    }

    /// Takes those that a pattern gives, one for each constructor with fields; false where there are fewer.
    #[cycle(pattern)]
    pub fn take_given(&mut self, pattern: &Pattern) -> bool
        ensures taken { IsTrue result →
            (k : ℕ) → number self.old.counts k ≡ nodes k (V.pattern pattern.now) + number self.new.counts k }
        ensures out_of_memory { ((k : ℕ) → nodes k (V.pattern pattern.now) ≤ number self.old.counts k) → IsTrue result }
    {
        match pattern {
            Pattern::Binder(_) => true,
            Pattern::Literal { .. } => true,
            Pattern::Constructor { patterns, .. } => {
                self.take_paid(patterns.len()) && self.take_given_all(patterns)
            }
        }
    }

    #[cycle(pattern)]
    fn take_given_all(&mut self, patterns: &[Pattern]) -> bool
        ensures taken { IsTrue result →
            (k : ℕ) → number self.old.counts k ≡ nodes_all k (V.patterns patterns.now) + number self.new.counts k }
        ensures out_of_memory { ((k : ℕ) → nodes_all k (V.patterns patterns.now) ≤ number self.old.counts k) → IsTrue result }
    {
        for pattern in patterns {
            if !self.take_given(pattern) {
                return false;
            }
        }
        true
    }

    /// Whether none is left.
    pub fn is_empty(&self) -> bool
        ensures sound { IsTrue result → (k : ℕ) → number self.now.counts k ≡ 0 }
        ensures complete { ((k : ℕ) → number self.now.counts k ≡ 0) → IsTrue result }
    {
        for k in 0..17 {
            if self.counts[k] != 0 {
                return false;
            }
        }
        true
    }
}
