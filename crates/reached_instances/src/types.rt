// Types that are written in an instance, as closed trees, and the rules on them.
ghost use Rattle.std.specs.Prelude.{◌≡◌, ◌==◌, ◌&&◌, None, Some, is_some, not, IfOk, OnOk, if◌then◌else◌};
ghost use Rattle.fip_base.specs.CoreView as V;
ghost use Rattle.fip_trees.specs.Least.{after};
ghost use Rattle.fip_trees.specs.Names.{meaning};
ghost use Rattle.closed_types.specs.SharedTrees.{Grows, trees};
ghost use Rattle.closed_types.specs.Source.{given_type};
ghost use Rattle.reached_instances.specs.SourceView as S;
ghost use Rattle.closed_types.specs.Uses.{applied_to, broken, closed_type, closed_types, named_type};
ghost use Rattle.closed_types.specs.Uses.{type_faults, type_name_faults, types_faults, when};
ghost use Rattle.closed_types.specs.UsesView.{ArePlacesOf, AreWithinIfSome, IsPlaceOf, trees_of, with_place};

use crate::source::{Here, Source};
use closed_types::closed::{Head, Shared};
use fip_base::core_form::Written;
use fip_base::plain::{NoMemory, Place};
use fip_base::refusal::Rule;
use fip_trees::decls::TypeHead;
use fip_trees::least::Least;

impl<'s, 'a> Source<'s, 'a> {
    /// The place of a type that is written in an instance; none where the type breaks E11 or E12, which is noted.
    #[cycle(types)]
    pub fn closed_type(
        &self,
        shared: &mut Shared,
        here: &Here,
        written: &Written,
        least: &mut Least,
    ) -> Result<Option<usize>, NoMemory>
        ensures grows { OnOk result (Grows shared.old.branches shared.new.branches) }
        ensures fits { OnOk result (shared.new.fits ≡ shared.old.fits) }
        ensures closed { S.IsReady self.now shared.old.branches here.now →
            IfOk result (λ o. IsPlaceOf shared.new.branches o (closed_type (S.source self.now)
            (S.instance (trees shared.old.branches) here.now) (V.written written.now))) }
        ensures faults { S.IsReady self.now shared.old.branches here.now → OnOk result (least.new ≡ after least.old
            (type_faults (S.source self.now) here.now.number (S.instance (trees shared.old.branches) here.now)
            (V.written written.now))) }
    {
        match written {
            Written::Int(_) => Ok(Some(0)),
            Written::Named {
                name,
                place,
                arguments,
            } => {
                let closed = self.closed_types(shared, here, arguments, least)?;
                let count = arguments.len();
                let found = self.named_type(
                    shared,
                    here,
                    name.as_slice(),
                    *place,
                    count,
                    closed,
                    least,
                )?;
                Ok(found)
            }
        }
    }

    // The places of types; none where one of them breaks a rule. All are looked at.
    #[cycle(types)]
    fn closed_types(
        &self,
        shared: &mut Shared,
        here: &Here,
        list: &[Written],
        least: &mut Least,
    ) -> Result<Option<Vec<usize>>, NoMemory>
        ensures grows { OnOk result (Grows shared.old.branches shared.new.branches) }
        ensures fits { OnOk result (shared.new.fits ≡ shared.old.fits) }
        ensures closed { S.IsReady self.now shared.old.branches here.now →
            IfOk result (λ o. ArePlacesOf shared.new.branches o (closed_types (S.source self.now)
            (S.instance (trees shared.old.branches) here.now) (V.writtens list.now))) }
        ensures faults { S.IsReady self.now shared.old.branches here.now → OnOk result (least.new ≡ after least.old
            (types_faults (S.source self.now) here.now.number (S.instance (trees shared.old.branches) here.now)
            (V.writtens list.now))) }
    {
        let mut places = Vec::new(self.alloc);
        let mut all = true;
        for written in list {
            let found = self.closed_type(shared, here, written, least)?;
            let is_found = push_some(&mut places, found)?;
            let next = both(all, is_found);
            all = next;
        }
        if all { Ok(Some(places)) } else { Ok(None) }
    }

    // The place of what a name with so many arguments is, where these are the arguments.
    fn named_type(
        &self,
        shared: &mut Shared,
        here: &Here,
        name: &[u8],
        place: Place,
        count: usize,
        closed: Option<Vec<usize>>,
        least: &mut Least,
    ) -> Result<Option<usize>, NoMemory>
        ensures grows { OnOk result (Grows shared.old.branches shared.new.branches) }
        ensures fits { OnOk result (shared.new.fits ≡ shared.old.fits) }
        ensures closed { S.IsReady self.now shared.old.branches here.now → AreWithinIfSome shared.old.branches closed →
            IfOk result (λ o. IsPlaceOf shared.new.branches o
            (named_type (given_type (S.source self.now) (S.instance (trees shared.old.branches) here.now) name.now)
            (meaning name.now (S.source self.now).names.types) count (trees_of (trees shared.old.branches) closed))) }
        ensures faults { S.IsReady self.now shared.old.branches here.now → OnOk result (least.new ≡
            after least.old (type_name_faults here.now.number
            (given_type (S.source self.now) (S.instance (trees shared.old.branches) here.now) name.now)
            (meaning name.now (S.source self.now).names.types) name.now place count)) }
    {
        match self.given_type(here, name) {
            Some(given) => {
                let found = parameter(given, count, Rule::E12, name, place, here, least)?;
                Ok(found)
            }
            None => match self.decls.names.find_type(name) {
                Some(head) => {
                    note_unless(head.arity == count, Rule::E12, name, place, here, least)?;
                    let found = applied_type(shared, head, count, closed)?;
                    Ok(found)
                }
                None => {
                    note_unless(false, Rule::E11, name, place, here, least)?;
                    Ok(None)
                }
            },
        }
    }
}

/// Whether both hold.
pub fn both(one: bool, other: bool) -> bool
    ensures { result ≡ (one && other) }
{
    one && other
}

// Puts a place, where there is one, after the others, and says whether there is.
fn push_some(places: &mut Vec<usize>, place: Option<usize>) -> Result<bool, NoMemory>
    ensures pushed { OnOk result (places.new.items ≡ with_place places.old.items place) }
    ensures some { IfOk result (λ b. b ≡ is_some place) }
{
    match place {
        Some(place) => {
            places.push(place)?;
            Ok(true)
        }
        None => Ok(false),
    }
}

/// What is given for a static parameter, which has no arguments.
pub fn parameter(
    given: usize,
    count: usize,
    rule: Rule,
    name: &[u8],
    place: Place,
    here: &Here,
    least: &mut Least,
) -> Result<Option<usize>, NoMemory>
    ensures closed { IfOk result (λ o. o ≡ (if count == 0 then Some given else None)) }
    ensures faults { OnOk result (least.new ≡
        after least.old (when (not (count == 0)) (broken rule place here.now.number name.now))) }
{
    note_unless(count == 0, rule, name, place, here, least)?;
    if count == 0 {
        return Ok(Some(given));
    }
    Ok(None)
}

// A data type has as many arguments as type parameters.
fn applied_type(
    shared: &mut Shared,
    head: TypeHead,
    count: usize,
    closed: Option<Vec<usize>>,
) -> Result<Option<usize>, NoMemory>
    ensures grows { OnOk result (Grows shared.old.branches shared.new.branches) }
    ensures fits { OnOk result (shared.new.fits ≡ shared.old.fits) }
    ensures closed { AreWithinIfSome shared.old.branches closed → IfOk result (λ o. IsPlaceOf shared.new.branches o
        (if head.arity == count then applied_to head.number (trees_of (trees shared.old.branches) closed) else None)) }
{
    if head.arity != count {
        return Ok(None);
    }
    match closed {
        Some(places) => {
            let place = shared.share(Head::Type(head.number), places)?;
            Ok(Some(place))
        }
        None => Ok(None),
    }
}

/// Notes a rule at a name unless it is kept.
pub fn note_unless(
    is_kept: bool,
    rule: Rule,
    name: &[u8],
    place: Place,
    here: &Here,
    least: &mut Least,
) -> Result<(), NoMemory>
    ensures { OnOk result (least.new ≡
        after least.old (when (not is_kept) (broken rule place here.now.number name.now))) }
{
    if !is_kept {
        least.note(rule, place, here.number, 0, name)?;
    }
    Ok(())
}
