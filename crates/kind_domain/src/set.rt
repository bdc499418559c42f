// Sets of constructors of one type. None of them takes memory of its own: that of all constructors is a word, and a
// longer one is that of a label.
ghost use Rattle.std.specs.Prelude.{◌≡◌, ◌+◌, ◌<◌, ◌≤◌, ℕ, suc, true, false, List, [], ◌∷◌, None, IfSome};
ghost use Rattle.std.specs.Prelude.{drop, get_or, length, take};
ghost use Rattle.code_rules.specs.Changes.{without};
ghost use Rattle.code_rules.specs.Fitting.{is_subset};
ghost use Rattle.code_rules.specs.Kinds.{has};
ghost use Rattle.code_rules.specs.Types.{numbers};
ghost use Rattle.kind_domain.specs.Rising.{Rise, RiseFrom, less, beyond, is_one};
ghost use Rattle.kind_domain.specs.Views.{constructors_in};

// A list of no more is looked at one by one.
const FEW: usize = 8;

// Where a list has more, it is kept what came of a comparison with another.
const MANY: usize = 64;

// So many numbers of a list are compared at once.
const PIECE: usize = 256;

/// The constructors that a value may have.
#[derive(Clone, Copy)]
pub enum Set<'a> {
    /// All of a type with so many.
    All(usize),
    /// This one.
    One(u32),
    /// These, in rising order.
    Listed(&'a [u32]),
}

impl<'a> Set<'a> {
    /// Whether a constructor is in it.
    pub fn has(self, constructor: u32) -> bool
        ensures is { Rise (constructors_in self.entry) → result ≡ has (constructors_in self.entry) constructor }
    {
        match self {
            Set::All(count) => is_below(constructor, count),
            Set::One(own) => own == constructor,
            Set::Listed(own) => is_listed(own, constructor),
        }
    }

    /// Its constructor, where it has one alone.
    pub fn only(self) -> Option<u32>
        ensures one { IfSome result (λ c. constructors_in self.entry ≡ c ∷ []) }
        ensures other { result ≡ None → (c : ℕ) → constructors_in self.entry ≡ c ∷ [] → ⊥ }
    {
        match self {
            Set::All(count) => only_of(count),
            Set::One(own) => Some(own),
            Set::Listed([own]) => Some(*own),
            Set::Listed(_) => None,
        }
    }

    /// Whether it is a long list, which is compared with another once.
    pub fn is_long(self) -> bool {
        match self {
            Set::All(_) => false,
            Set::One(_) => false,
            Set::Listed(own) => own.len() > MANY,
        }
    }

    /// Whether all of them, but `lacked` where it is there, are among others, which are in rising order.
    pub fn is_within(self, lacked: Option<u32>, others: &[u32]) -> bool
        requires own_rise { Rise (constructors_in self) }
        requires others_rise { Rise others.now }
        ensures is { result ≡ is_subset (less lacked (constructors_in self.entry)) others.now }
    {
        match self {
            Set::All(count) => are_all_among(count, lacked, others),
            Set::One(own) => is_among(own, lacked, others),
            Set::Listed(own) => is_listed_within(own, lacked, others),
        }
    }
}

// Whether a number is among numbers, where they rise.
pub(crate) fn is_listed(numbers: &[u32], number: u32) -> bool
    ensures is { Rise numbers.now → result ≡ has numbers.now number }
{
    numbers.binary_search(&number).is_ok()
}

// Whether a number is below a count.
#[tactic(auto, using(crate::proofs::Sets::has_numbers))]
fn is_below(number: u32, count: usize) -> bool
    ensures is { result ≡ has (numbers 0 count) number }
{
    (number as usize) < count
}

// The constructor of a type with so many, where that is one.
fn only_of(count: usize) -> Option<u32>
    ensures one { IfSome result (λ c. numbers 0 count ≡ c ∷ []) }
    ensures other { result ≡ None → (c : ℕ) → numbers 0 count ≡ c ∷ [] → ⊥ }
{
    match count {
        1 => Some(0),
        _ => None,
    }
}

// Whether a number, if it isn't `lacked`, is among others, which rise.
fn is_among(own: u32, lacked: Option<u32>, others: &[u32]) -> bool
    requires rise { Rise others.now }
    ensures is { result ≡ is_subset (less lacked (own ∷ [])) others.now }
{
    match lacked {
        None => is_listed(others, own),
        Some(lacked) => own == lacked || is_listed(others, own),
    }
}

// Whether the numbers below a count, but `lacked`, are among others, which rise.
fn are_all_among(count: usize, lacked: Option<u32>, others: &[u32]) -> bool
    requires rise { Rise others.now }
    ensures is { result ≡ is_subset (less lacked (numbers 0 count)) others.now }
{
    match lacked {
        None => begin(0, count, others),
        Some(lacked) => all_but_one_among(count, lacked, others),
    }
}

// Whether the numbers below a count but one are among others, which rise.
fn all_but_one_among(count: usize, lacked: u32, others: &[u32]) -> bool
    requires rise { Rise others.now }
    ensures is { result ≡ is_subset (without lacked (numbers 0 count)) others.now }
{
    let below = lacked as usize;
    if count <= below {
        return begin(0, count, others);
    }
    if !begin(0, below, others) {
        return false;
    }
    begin(below + 1, count - below - 1, above(others, lacked))
}

// Whether rising numbers begin with so many, from a number on that none is below.
fn begin(low: usize, count: usize, others: &[u32]) -> bool
    requires rise { RiseFrom low others.now }
    ensures is { result ≡ is_subset (numbers low count) others.now }
{
    if count == 0 {
        return true;
    }
    match others.get(count - 1) {
        None => false,
        Some(last) => is_after(*last as usize, low, count - 1),
    }
}

// Whether a number is the sum of two.
fn is_after(number: usize, low: usize, count: usize) -> bool
    ensures yes { result ≡ true → number ≡ low + count }
    ensures no { result ≡ false → number ≡ low + count → ⊥ }
{
    match number.checked_sub(low) {
        None => false,
        Some(rest) => rest == count,
    }
}

// The numbers of a rising list that are greater than one.
fn above(numbers: &[u32], number: u32) -> &[u32]
    requires rise { Rise numbers.now }
    ensures is { result.now ≡ beyond number numbers.now }
{
    match numbers.binary_search(&number) {
        Ok(place) => &numbers[place + 1..],
        Err(place) => &numbers[place..],
    }
}

// Whether all of these, but `lacked`, are among others; both lists rise. Where there are many, and the others have all
// numbers from the first of them to the last, that is seen at once.
pub(crate) fn is_listed_within(own: &[u32], lacked: Option<u32>, others: &[u32]) -> bool
    requires own_rise { Rise own.now }
    requires others_rise { Rise others.now }
    ensures is { result ≡ is_subset (less lacked own.now) others.now }
{
    if own.len() > FEW && is_spanned(own, lacked, others) {
        return true;
    }
    are_among(own, lacked, others)
}

// Whether others have all numbers from the first of these to the last, but `lacked`.
fn is_spanned(own: &[u32], lacked: Option<u32>, others: &[u32]) -> bool
    requires own_rise { Rise own.now }
    requires others_rise { Rise others.now }
    ensures yes { result ≡ true → is_subset (less lacked own.now) others.now ≡ true }
{
    let count = own.len();
    if count == 0 {
        return true;
    }
    has_all_but(others, lacked, own[0], own[count - 1])
}

// Whether rising numbers have all from one to another, but `lacked`. No may also be said where they do.
fn has_all_but(numbers: &[u32], lacked: Option<u32>, low: u32, high: u32) -> bool
    requires rise { Rise numbers.now }
    ensures yes { result ≡ true → (x : ℕ) → low ≤ x → x ≤ high → is_one lacked x ≡ false →
        has numbers.now x ≡ true }
{
    match lacked {
        None => has_all(numbers, low, high),
        Some(lacked) => has_below(numbers, low, lacked) && has_after(numbers, lacked, high),
    }
}

// Whether rising numbers have all from one to before another.
fn has_below(numbers: &[u32], low: u32, end: u32) -> bool
    requires rise { Rise numbers.now }
    ensures yes { result ≡ true → (x : ℕ) → low ≤ x → x < end → has numbers.now x ≡ true }
{
    if end <= low {
        return true;
    }
    has_all(numbers, low, end - 1)
}

// Whether rising numbers have all from after one to another.
fn has_after(numbers: &[u32], start: u32, high: u32) -> bool
    requires rise { Rise numbers.now }
    ensures yes { result ≡ true → (x : ℕ) → start < x → x ≤ high → has numbers.now x ≡ true }
{
    if high <= start {
        return true;
    }
    has_all(numbers, start + 1, high)
}

// Whether rising numbers have all from one to another.
fn has_all(numbers: &[u32], low: u32, high: u32) -> bool
    requires rise { Rise numbers.now }
    ensures yes { result ≡ true → (x : ℕ) → low ≤ x → x ≤ high → has numbers.now x ≡ true }
{
    if !is_listed(numbers, low) {
        return false;
    }
    if high <= low {
        return true;
    }
    begin(low as usize + 1, (high - low) as usize, above(numbers, low))
}

// Whether all of these, but `lacked`, are among others; both lists rise. They are looked at piece by piece.
fn are_among(own: &[u32], lacked: Option<u32>, others: &[u32]) -> bool
    requires own_rise { Rise own.now }
    requires others_rise { Rise others.now }
    ensures is { result ≡ is_subset (less lacked own.now) others.now }
{
    let mut start = 0usize;
    let mut rest = others;
    while start < own.len() {
        let end = start + PIECE.min(own.len() - start);
        match after_piece(rest, lacked, own, start, end) {
            Some(next) => rest = next,
            None => return false,
        }
        start = end;
    }
    true
}

// Where the numbers of a piece of a list, but `lacked`, are among others, those among which the numbers after the
// piece can be looked for. Where others begin with the same numbers as the piece, that is seen at once.
fn after_piece<'b>(
    others: &'b [u32],
    lacked: Option<u32>,
    own: &[u32],
    start: usize,
    end: usize,
) -> Option<&'b [u32]>
    requires within { start ≤ end }
    requires there { end ≤ length own.now }
    requires own_rise { Rise (drop start own.now) }
    requires others_rise { Rise others.now }
    ensures rise { IfSome result (λ r. Rise r.now) }
    ensures found { IfSome result (λ r. is_subset (less lacked (drop end own.now)) r.now
        ≡ is_subset (less lacked (drop start own.now)) others.now) }
    ensures none { result ≡ None → is_subset (less lacked (drop start own.now)) others.now ≡ false }
{
    if begin_with(others, &own[start..end]) {
        return Some(&others[end - start..]);
    }
    after_each(others, lacked, own, start, end)
}

// The same number by number.
fn after_each<'b>(
    others: &'b [u32],
    lacked: Option<u32>,
    own: &[u32],
    start: usize,
    end: usize,
) -> Option<&'b [u32]>
    requires within { start ≤ end }
    requires there { end ≤ length own.now }
    requires own_rise { Rise (drop start own.now) }
    requires others_rise { Rise others.now }
    ensures rise { IfSome result (λ r. Rise r.now) }
    ensures found { IfSome result (λ r. is_subset (less lacked (drop end own.now)) r.now
        ≡ is_subset (less lacked (drop start own.now)) others.now) }
    ensures none { result ≡ None → is_subset (less lacked (drop start own.now)) others.now ≡ false }
{
    let mut rest = others;
    let mut place = start;
    while place < end {
        match after(rest, lacked, own[place]) {
            Some(next) => rest = next,
            None => return None,
        }
        place += 1;
    }
    Some(rest)
}

// Whether numbers begin with others. All are looked at in any case, which is quick.
fn begin_with(numbers: &[u32], others: &[u32]) -> bool
    ensures yes { result ≡ true → take (length others.now) numbers.now ≡ others.now }
{
    if numbers.len() < others.len() {
        return false;
    }
    let mut same = true;
    for place in 0..others.len() {
        if numbers[place] != others[place] {
            same = false;
        }
    }
    same
}

// Where a number, if it isn't `lacked`, is among others, those among which greater ones can be looked for.
fn after(others: &[u32], lacked: Option<u32>, number: u32) -> Option<&[u32]>
    requires rise { Rise others.now }
    ensures rise { IfSome result (λ r. Rise r.now) }
    ensures found { IfSome result (λ r. (own : List ℕ) → RiseFrom (suc number) own →
        is_subset (less lacked own) r.now ≡ is_subset (less lacked (number ∷ own)) others.now) }
    ensures none { result ≡ None → (own : List ℕ) → is_subset (less lacked (number ∷ own)) others.now ≡ false }
{
    if is_lacked(lacked, number) {
        return Some(others);
    }
    match following(others, number) {
        None => None,
        Some(rest) => Some(rest),
    }
}

// Whether a number is `lacked`.
pub(crate) fn is_lacked(lacked: Option<u32>, number: u32) -> bool
    ensures is { result ≡ is_one lacked number }
{
    match lacked {
        None => false,
        Some(lacked) => number == lacked,
    }
}

// What is after a number in a rising list; none where it isn't there. Numbers that follow one another are found at
// once.
pub(crate) fn following(numbers: &[u32], number: u32) -> Option<&[u32]>
    requires rise { Rise numbers.now }
    ensures found { IfSome result (λ r. (has numbers.now number ≡ true) × (r.now ≡ beyond number numbers.now)) }
    ensures none { result ≡ None → has numbers.now number ≡ false }
{
    match numbers {
        [] => None,
        [first, rest @ ..] => {
            if *first == number {
                Some(rest)
            } else {
                search(numbers, number)
            }
        }
    }
}

// The same by a search, among the first of the numbers where these suffice.
fn search(numbers: &[u32], number: u32) -> Option<&[u32]>
    requires rise { Rise numbers.now }
    ensures found { IfSome result (λ r. (has numbers.now number ≡ true) × (r.now ≡ beyond number numbers.now)) }
    ensures none { result ≡ None → has numbers.now number ≡ false }
{
    match numbers[..enough(numbers, number)].binary_search(&number) {
        Ok(place) => Some(&numbers[place + 1..]),
        Err(_) => None,
    }
}

// Among how many of rising numbers one has to be looked for: all after these are greater. It is at most twice the
// place where it is, but for one.
fn enough(numbers: &[u32], number: u32) -> usize
    ensures within { result ≤ length numbers.now }
    ensures greater { result < length numbers.now → number < get_or numbers.now result 0 }
{
    let mut end = 1usize;
    while end < numbers.len() {
        if number < numbers[end] {
            return end;
        }
        end += end;
    }
    numbers.len()
}
