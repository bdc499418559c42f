// What some nodes have together, whose trees come one after the other.
ghost use Rattle.std.specs.Prelude.{◌≡◌, ◌<◌, ◌≤◌, ◌+◌, ◌-◌, ℕ, List, false, true, length, get_or, IsTrue};
ghost use Rattle.std.specs.Prelude.{IfSome, IfNone};
ghost use Rattle.fip_trees.specs.Sizes.{number};
ghost use Rattle.ownership_calculus.specs.Terms.{Own, Credit as Size, given, one};
ghost use Rattle.derivation_check.specs.Owned.{root, roots, AreOwned, Rising, RisingSizes};
ghost use Rattle.derivation_check.specs.Places.{at, parts, flag, IsRising, Marked};

use crate::counts::Counts;
use crate::nodes::{credits_at, following, variables_at};
use derivation_trees::Node;

// Which of 256 places of a list, from one on, were seen.
#[derive(Drop)]
struct Window {
    start: usize,
    seen: [bool; 256],
    ghost long: { length seen ≡ 256 },
}

impl Window {
    fn new(start: usize) -> Window
        ensures start { result.start ≡ start }
        ensures none { (k : ℕ) → get_or result.seen k false ≡ false }
    {
        let seen = [false; 256];
        Window { start, seen }
    }

    // Sees a variable of the whole; false where it has no such variable, or this was seen before.
    fn see(&mut self, whole: &[usize], variable: usize) -> bool
        requires { IsRising whole.now }
        ensures start { self.new.start ≡ self.old.start }
        ensures seen { IsTrue result → (c : ℕ → ℕ) → Marked self.old.seen self.old.start whole.now c →
            Marked self.new.seen self.old.start whole.now (λ x. c x + one variable x) }
        ensures inside { IsTrue result → 0 < given variable whole.now }
        ensures new { (c : ℕ → ℕ) → Marked self.old.seen self.old.start whole.now c →
            c variable + 1 ≤ given variable whole.now → IsTrue result }
    {
        match place_of(whole, variable) {
            None => false,
            Some(place) => self.see_place(place),
        }
    }

    // Sees a place; false where it was seen before. Places outside the window are as they were.
    fn see_place(&mut self, place: usize) -> bool
        ensures start { self.new.start ≡ self.old.start }
        ensures others { IsTrue result → (k : ℕ) → (self.old.start + k ≡ place → ⊥) → k < 256 →
            get_or self.new.seen k false ≡ get_or self.old.seen k false }
        ensures here { IsTrue result → self.old.start ≤ place → place < self.old.start + 256 →
            (get_or self.old.seen (place - self.old.start) false ≡ false)
            × (get_or self.new.seen (place - self.old.start) false ≡ true) }
        ensures new { (self.old.start ≤ place → place < self.old.start + 256 →
            get_or self.old.seen (place - self.old.start) false ≡ false) → IsTrue result }
    {
        if place < self.start {
            return true;
        }
        let slot = place - self.start;
        if slot >= 256 {
            return true;
        }
        if self.seen[slot] {
            return false;
        }
        self.seen[slot] = true;
        true
    }

    // Sees some variables.
    fn see_all(&mut self, whole: &[usize], variables: &[usize]) -> bool
        requires { IsRising whole.now }
        ensures start { self.new.start ≡ self.old.start }
        ensures seen { IsTrue result → (c : ℕ → ℕ) → Marked self.old.seen self.old.start whole.now c →
            Marked self.new.seen self.old.start whole.now (λ x. c x + given x variables.now) }
        ensures inside { IsTrue result → (x : ℕ) → given x whole.now ≡ 0 → given x variables.now ≡ 0 }
        ensures new { (c : ℕ → ℕ) → Marked self.old.seen self.old.start whole.now c →
            ((x : ℕ) → c x + given x variables.now ≤ given x whole.now) → IsTrue result }
    {
        for variable in variables {
            if !self.see(whole, *variable) {
                return false;
            }
        }
        true
    }

    // Whether all places were seen that the whole has in the window.
    fn is_full(&self, whole: &[usize]) -> bool
        ensures sound { IsTrue result → (k : ℕ) → k < 256 → self.now.start + k < length whole.now →
            get_or self.now.seen k false ≡ true }
        ensures complete { ((k : ℕ) → k < 256 → self.now.start + k < length whole.now →
            get_or self.now.seen k false ≡ true) → IsTrue result }
    {
        for slot in 0..256 {
            if slot < whole.len().saturating_sub(self.start) && !self.seen[slot] {
                return false;
            }
        }
        true
    }
}

/// The place of a number in a list that rises.
pub fn place_of(list: &[usize], number: usize) -> Option<usize>
    ensures some { IfSome result (λ i. (i < length list.now) × (get_or list.now i 0 ≡ number)) }
    ensures none { IsRising list.now → IfNone result (given number list.now ≡ 0) }
{
    match list.binary_search(&number) {
        Ok(place) => Some(place),
        Err(_) => None,
    }
}

// Whether of the variables at 256 places of the whole, from one on, each is in just one of some nodes, which have
// no other but those of the whole.
fn is_parted_from(nodes: &[Node], first: usize, count: usize, whole: &[usize], start: usize) -> bool
    requires { IsRising whole.now }
    ensures sound { IsTrue result → (k : ℕ) → start ≤ k → k < start + 256 → k < length whole.now →
        roots (parts nodes.now first count) (Own (get_or whole.now k 0)) ≡ 1 }
    ensures inside { IsTrue result → (x : ℕ) → given x whole.now ≡ 0 → roots (parts nodes.now first count) (Own x) ≡ 0 }
    ensures complete { ((x : ℕ) → given x whole.now ≡ roots (parts nodes.now first count) (Own x)) → IsTrue result }
{
    let mut window = Window::new(start);
    let mut place = first;
    let mut left = count;
    while left > 0 {
        if !window.see_all(whole, variables_at(nodes, place)) {
            return false;
        }
        place = following(nodes, place);
        left -= 1;
    }
    window.is_full(whole)
}

/// Whether each variable of the whole, which rises, is in just one of some nodes, which have no other.
pub fn is_parted(nodes: &[Node], first: usize, count: usize, whole: &[usize]) -> bool
    requires { IsRising whole.now }
    ensures sound { IsTrue result → (x : ℕ) → given x whole.now ≡ roots (parts nodes.now first count) (Own x) }
    ensures complete { ((x : ℕ) → given x whole.now ≡ roots (parts nodes.now first count) (Own x)) → IsTrue result }
{
    if !is_parted_from(nodes, first, count, whole, 0) {
        return false;
    }
    let mut start: usize = 256;
    while start < whole.len() {
        if !is_parted_from(nodes, first, count, whole, start) {
            return false;
        }
        start += 256;
    }
    true
}

/// Takes the credits of some nodes; false where there are fewer.
pub fn take_parts(counts: &mut Counts, nodes: &[Node], first: usize, count: usize) -> bool
    ensures taken { IsTrue result → (k : ℕ) → number counts.old.counts k
        ≡ roots (parts nodes.now first count) (Size k) + number counts.new.counts k }
    ensures out_of_memory { ((k : ℕ) → roots (parts nodes.now first count) (Size k) ≤ number counts.old.counts k) →
        IsTrue result }
{
    let mut place = first;
    let mut left = count;
    while left > 0 {
        if !counts.take_all(credits_at(nodes, place)) {
            return false;
        }
        place = following(nodes, place);
        left -= 1;
    }
    true
}
