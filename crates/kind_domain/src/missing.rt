// What of one set of constructors isn't in another.
ghost use Rattle.std.specs.Prelude.{◌≡◌, true, false, None, IfSome};
ghost use Rattle.code_rules.specs.Fitting.{is_subset};
ghost use Rattle.code_rules.specs.Kinds.{has};
ghost use Rattle.kind_domain.specs.LabelSets.{IsMissing, allows};
ghost use Rattle.kind_domain.specs.Rising.{Rise};

use crate::set::{following, is_lacked, is_listed_within};

/// What of a set isn't in another.
#[derive(Clone, Copy)]
pub enum Missing {
    /// All of it is.
    Nothing,
    /// This one isn't, and all others are.
    One(u32),
    /// More than one isn't.
    More,
}

impl Missing {
    /// Whether all but `lacked` are in the other set.
    pub fn allows(self, lacked: Option<u32>) -> bool
        ensures is { result ≡ allows self lacked }
    {
        match self {
            Missing::Nothing => true,
            Missing::One(number) => is_lacked(lacked, number),
            Missing::More => false,
        }
    }
}

/// What of these numbers isn't among others; both lists rise.
pub fn compare(own: &[u32], others: &[u32]) -> Missing
    requires own_rise { Rise own.now }
    requires others_rise { Rise others.now }
    ensures is { IsMissing own.now others.now result }
{
    if is_listed_within(own, None, others) {
        return Missing::Nothing;
    }
    match first_missing(own, others) {
        None => Missing::Nothing,
        Some(number) => {
            if is_listed_within(own, Some(number), others) {
                Missing::One(number)
            } else {
                Missing::More
            }
        }
    }
}

// The first of these numbers that isn't among others; both lists rise.
fn first_missing(own: &[u32], others: &[u32]) -> Option<u32>
    requires own_rise { Rise own.now }
    requires others_rise { Rise others.now }
    ensures missing { IfSome result (λ c. (has own.now c ≡ true) × (has others.now c ≡ false)) }
    ensures none { result ≡ None → is_subset own.now others.now ≡ true }
{
    let mut rest = others;
    for number in own {
        match following(rest, *number) {
            None => return Some(*number),
            Some(next) => rest = next,
        }
    }
    None
}
