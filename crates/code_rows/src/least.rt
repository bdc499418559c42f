// The least violation of a walk.
ghost use Rattle.std.specs.Prelude.{◌≡◌, None};
ghost use Rattle.code_rules.specs.Breaks.{digit};
ghost use Rattle.code_rows.specs.Noting.{broken, precedes, better, better_if, is_before};

use code_rules::SoundRule;

/// A rule that is broken, and where.
#[derive(Clone, Copy)]
pub struct Violation {
    pub function: usize,
    pub at: usize,
    pub rule: SoundRule,
}

/// The least of the violations that were noted: by function, then instruction, then rule. So the order in which they
/// are noted doesn't matter.
#[derive(Clone, Copy)]
pub struct Least {
    first: Option<Violation>,
}

impl Least {
    /// None was noted.
    pub fn new() -> Least
        ensures none { result.first ≡ None }
    {
        Least { first: None }
    }

    /// Notes a violation.
    pub fn note(&mut self, violation: Violation)
        ensures noted { self.new.first ≡ better self.old.first violation }
    {
        if !self.is_before(violation) {
            self.first = Some(violation);
        }
    }

    /// Notes a violation, where there is one.
    pub fn note_if_some(&mut self, violation: Option<Violation>)
        ensures noted { self.new.first ≡ better_if self.old.first violation }
    {
        if let Some(violation) = violation {
            self.note(violation);
        }
    }

    /// Whether one was noted that comes before this one, or is it.
    pub fn is_before(&self, violation: Violation) -> bool
        ensures before { result ≡ is_before self.now.first violation }
    {
        match self.first {
            Some(first) => !precedes(violation, first),
            None => false,
        }
    }

    /// The least violation; none where none was noted.
    pub fn first(&self) -> Option<Violation>
        ensures first { result ≡ self.now.first }
    {
        self.first
    }
}

// Whether a violation comes before another.
fn precedes(one: Violation, other: Violation) -> bool
    ensures { result ≡ precedes one other }
{
    if one.function != other.function {
        return one.function < other.function;
    }
    if one.at != other.at {
        return one.at < other.at;
    }
    digit(one.rule) < digit(other.rule)
}

// The digit of a rule's name.
fn digit(rule: SoundRule) -> u8
    ensures { result ≡ digit rule }
{
    match rule {
        SoundRule::S0 => 0,
        SoundRule::S1 => 1,
        SoundRule::S2 => 2,
        SoundRule::S3 => 3,
        SoundRule::S4 => 4,
        SoundRule::S5 => 5,
        SoundRule::S6 => 6,
        SoundRule::S7 => 7,
        SoundRule::S8 => 8,
        SoundRule::S9 => 9,
    }
}
