// Lists of variables that rise.
ghost use Rattle.std.specs.Prelude.{◌≡◌, ◌<◌, ◌≤◌, ◌+◌, ◌∷◌, ℕ, drop, take, length, IsTrue};
ghost use Rattle.ownership_calculus.specs.Terms.{given};
ghost use Rattle.derivation_check.specs.Owned.{Rising};

/// Whether numbers rise, all below a bound.
pub fn rises(numbers: &[usize], below: usize) -> bool
    ensures sound { IsTrue result → Rising 0 below numbers.now }
    ensures complete { Rising 0 below numbers.now → IsTrue result }
{
    let mut least: usize = 0;
    for number in numbers {
        let number = *number as usize;
        if number < least || number >= below {
            return false;
        }
        least = number + 1;
    }
    true
}

/// Whether each variable of the first list is in the second.
#[tactic(auto, using(crate::proofs::Numbers::within))]
pub fn is_within(few: &[usize], many: &[usize]) -> bool
    ensures sound { IsTrue result → (c d : ℕ) → Rising 0 c few.now → Rising 0 d many.now →
        (x : ℕ) → given x few.now ≤ given x many.now }
    ensures complete { (c d : ℕ) → Rising 0 c few.now → Rising 0 d many.now →
        ((x : ℕ) → given x few.now ≤ given x many.now) → IsTrue result }
{
    let mut place: usize = 0;
    for number in many {
        if stands_at(few, place, *number) {
            place += 1;
        }
    }
    place == few.len()
}

/// Whether a number is at a place of a list.
pub fn stands_at(list: &[usize], place: usize, number: usize) -> bool
    ensures here { IsTrue result → (place < length list.now) × (drop place list.now
        ≡ number ∷ drop (place + 1) list.now) }
    ensures other { drop place list.now ≡ number ∷ drop (place + 1) list.now → IsTrue result }
{
    match list.get(place) {
        Some(found) => *found == number,
        None => false,
    }
}

/// Whether each variable of the whole is in just one of two lists, which have no other.
#[tactic(auto, using(crate::proofs::Numbers::splitting))]
pub fn is_split(whole: &[usize], one: &[usize], other: &[usize]) -> bool
    ensures sound { IsTrue result → (x : ℕ) → given x whole.now ≡ given x one.now + given x other.now }
    ensures complete { (c d e : ℕ) → Rising 0 c whole.now → Rising 0 d one.now → Rising 0 e other.now →
        ((x : ℕ) → given x whole.now ≡ given x one.now + given x other.now) → IsTrue result }
{
    let mut taken: usize = 0;
    let mut left: usize = 0;
    for number in whole {
        if stands_at(one, taken, *number) {
            taken += 1;
        } else if stands_at(other, left, *number) {
            left += 1;
        } else {
            return false;
        }
    }
    taken == one.len() && left == other.len()
}

/// How many numbers at the front are below a bound.
pub fn front_below(numbers: &[usize], below: usize) -> usize
    ensures within { result ≤ length numbers.now }
    ensures low { (x : ℕ) → below ≤ x → given x (take result numbers.now) ≡ 0 }
    ensures high { (n d : ℕ) → Rising n d numbers.now → (x : ℕ) → x < below → given x (drop result numbers.now) ≡ 0 }
{
    let mut place: usize = 0;
    for number in numbers {
        if *number as usize >= below {
            return place;
        }
        place += 1;
    }
    place
}
