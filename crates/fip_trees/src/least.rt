// The least violation of a walk.
ghost use Rattle.std.specs.Prelude.{◌≡◌, ◌∷◌, Bool, None, Option, OnOk, OnErr, is_none, nat_lt, option_map};
ghost use Rattle.fip_base.specs.fip_language.RuleOrder.{number};
ghost use Rattle.fip_trees.specs.Least.{better, comes_before, smaller, violation, refusal};
ghost use Rattle.fip_trees.specs.declared.least.Violation.{Violation};

use fip_base::plain::{Detail, Name, NoMemory, Place};
use fip_base::refusal::{Refusal, Rule};
use std::alloc::Global;
use std::marker::Model;

/// A rule that is broken: where, in which instance (0 where there are none yet), the size of the cells that it speaks
/// of (0 where it speaks of none), and what it names (empty where it names nothing).
#[derive(Drop)]
pub struct Violation {
    pub rule: Rule,
    pub place: Place,
    pub instance: usize,
    pub size: u8,
    pub detail: Name,
}

/// The least of the violations that were noted: by place, then rule, then instance, then size, then detail. So the
/// order in which they are noted doesn't matter.
#[derive(Drop)]
pub struct Least {
    alloc: Global,
    first: Option<Violation>,
}

impl Model for Least {
    ghost Value = { Option Violation };

    ghost view = { λ l. l.first };
}

impl Least {
    /// None was noted.
    pub fn new(alloc: Global) -> Least
        ensures none { result ≡ None }
    {
        Least { alloc, first: None }
    }

    /// Whether none was noted.
    pub fn is_none(&self) -> bool
        ensures none { result ≡ is_none self.now }
    {
        self.first.is_none()
    }

    /// Notes a violation; an error where no memory is left, and then none is noted.
    pub fn note(
        &mut self,
        rule: Rule,
        place: Place,
        instance: usize,
        size: u8,
        detail: &[u8],
    ) -> Result<(), NoMemory>
        ensures noted { OnOk result (self.new ≡ better self.old (violation rule place instance size detail.now)) }
        ensures same { OnErr result (self.new ≡ self.old) }
    {
        let is_less = match &self.first {
            None => true,
            Some(first) => is_before(rule, place, instance, size, detail, first),
        };
        if is_less {
            let mut bytes = Vec::new(self.alloc);
            bytes.extend_from_slice(detail)?;
            self.first = Some(Violation {
                rule,
                place,
                instance,
                size,
                detail: Name::new(bytes),
            });
        }
        Ok(())
    }

    /// The refusal that names the least violation; none where none was noted.
    pub fn into_refusal(self) -> Option<Refusal>
        ensures least { result ≡ option_map refusal self }
    {
        match self.first {
            None => None,
            Some(violation) => Some(Refusal {
                rule: violation.rule,
                place: Some(violation.place),
                size: violation.size,
                detail: Detail::new(violation.detail.into_vec()),
            }),
        }
    }
}

// Whether a violation comes before another.
fn is_before(
    rule: Rule,
    place: Place,
    instance: usize,
    size: u8,
    detail: &[u8],
    other: &Violation,
) -> bool
    ensures { result ≡ comes_before (violation rule place instance size detail.now) other.now }
{
    if place.at != other.place.at {
        return place.at < other.place.at;
    }
    if is_rule_before(rule, other.rule) {
        return true;
    }
    if is_rule_before(other.rule, rule) {
        return false;
    }
    if instance != other.instance {
        return instance < other.instance;
    }
    if size != other.size {
        return size < other.size;
    }
    is_detail_before(detail, other.detail.as_slice())
}

// Whether a rule has a lesser number than another: their names are ordered as their numbers.
#[tactic(auto, using(crate::proofs::RuleNames::by_number))]
fn is_rule_before(rule: Rule, other: Rule) -> bool
    ensures { result ≡ nat_lt (number rule) (number other) }
{
    is_detail_before(rule.as_str().as_bytes(), other.as_str().as_bytes())
}

// Whether a detail comes before another: byte by byte, a front of one before it.
fn is_detail_before(detail: &[u8], other: &[u8]) -> bool
    ensures { result ≡ smaller detail.now other.now }
{
    detail < other
}
