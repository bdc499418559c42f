// Whether functions that are passed fit the signatures that are asked of them.
ghost use Rattle.std.specs.Prelude.{◌≡◌, ◌+◌, ◌<◌, ◌&&◌, ◌∷◌, List, [], bytes_eq, None, Some, get_or, length, map, not};
ghost use Rattle.std.specs.Prelude.{option_map};
ghost use Rattle.std.specs.Prelude.{slice_get, IfOk, OnOk, if◌then◌else◌};
ghost use Rattle.fip_base.specs.CoreView as V;
ghost use Rattle.fip_trees.specs.Least.{after};
ghost use Rattle.closed_types.specs.Closed.{Closed, Int};
ghost use Rattle.reached_instances.specs.KnownFits.{IsRight};
ghost use Rattle.closed_types.specs.SharedTrees.{AreWithin, Branch, Grows, NoneOrWithin, all_at, tree_at};
ghost use Rattle.closed_types.specs.SharedTrees.{trees, trees_at};
ghost use Rattle.closed_types.specs.Source.{statics_at};
ghost use Rattle.reached_instances.specs.SourceView as S;
ghost use Rattle.closed_types.specs.Uses as U;
ghost use Rattle.closed_types.specs.UsesView.{AreAllWithin, AreWithinIfSome, IsPlaceOf, all_trees, trees_of};
ghost use Rattle.closed_types.specs.UsesView.{AsksFor, argument_or_none, is_same_parameter, misfit_at};
ghost use Rattle.closed_types.specs.UsesView.{type_or_int};

use crate::source::{Here, Source};
use crate::types::both;
use closed_types::closed::{Head, Passing, Shared};
use fip_base::core_form::{Function, Parameter, ResultType, SignatureParameter, Static, Written};
use fip_base::plain::{CreditMark, NoMemory};
use fip_base::refusal::Rule;
use fip_trees::least::Least;
use std::alloc::Global;

impl<'s, 'a> Source<'s, 'a> {
    /// Whether the functions that are passed fit their signatures; one that doesn't is E22. That isn't asked where a
    /// type argument beside them breaks a rule.
    pub fn check_passed(
        &self,
        shared: &mut Shared,
        here: &Here,
        function: usize,
        statics: &[Written],
        arguments: &[Option<usize>],
        least: &mut Least,
    ) -> Result<bool, NoMemory>
        ensures grows { OnOk result (Grows shared.old.branches shared.new.branches) }
        ensures right { IsRight self.now shared.old → AreAllWithin shared.old.branches arguments.now →
            OnOk result (IsRight self.now shared.new) }
        ensures fit { IsRight self.now shared.old → AreAllWithin shared.old.branches arguments.now →
            IfOk result (λ b. b ≡ U.fit_if_known (S.source self.now) function (statics_at (S.source self.now) function)
            (all_trees (trees shared.old.branches) arguments.now)
            (U.types_given (statics_at (S.source self.now) function)
            (all_trees (trees shared.old.branches) arguments.now))) }
        ensures faults { IsRight self.now shared.old → AreAllWithin shared.old.branches arguments.now →
            OnOk result (least.new ≡ after least.old (U.misfits_if_known (S.source self.now) here.now.number function
            (V.writtens statics.now) (all_trees (trees shared.old.branches) arguments.now)
            (U.types_given (statics_at (S.source self.now) function)
            (all_trees (trees shared.old.branches) arguments.now)))) }
    {
        match types_of(self.alloc, self.statics(function), arguments)? {
            Some(given) => {
                let place = shared.share(Head::Function(function), given)?;
                match self.here(shared, place, here.number)? {
                    Some(there) => {
                        let fit = self.check_there(
                            shared, here, &there, place, statics, arguments, least,
                        )?;
                        Ok(fit)
                    }
                    None => Ok(false),
                }
            }
            None => Ok(false),
        }
    }

    // The same, where the function stands at a place.
    fn check_there(
        &self,
        shared: &mut Shared,
        here: &Here,
        there: &Here,
        place: usize,
        statics: &[Written],
        arguments: &[Option<usize>],
        least: &mut Least,
    ) -> Result<bool, NoMemory>
        ensures grows { OnOk result (Grows shared.old.branches shared.new.branches) }
        ensures right { IsRight self.now shared.old → S.IsAsked shared.old.branches place there.now →
            AreAllWithin shared.old.branches arguments.now → OnOk result (IsRight self.now shared.new) }
        ensures fit { IsRight self.now shared.old → S.IsAsked shared.old.branches place there.now →
            AreAllWithin shared.old.branches arguments.now → IfOk result (λ b. b ≡ U.all_fit (S.source self.now)
            (S.instance (trees shared.old.branches) there.now) (statics_at (S.source self.now) there.now.function)
            (all_trees (trees shared.old.branches) arguments.now)) }
        ensures faults { IsRight self.now shared.old → S.IsAsked shared.old.branches place there.now →
            AreAllWithin shared.old.branches arguments.now → OnOk result (least.new ≡ after least.old
            (U.misfits (S.source self.now) here.now.number (S.instance (trees shared.old.branches) there.now)
            (statics_at (S.source self.now) there.now.function) (V.writtens statics.now)
            (all_trees (trees shared.old.branches) arguments.now))) }
    {
        let parameters = self.statics(there.function);
        let mut all = true;
        let mut number = 0;
        for parameter in parameters {
            let argument = argument_at(arguments, number);
            let fit = self.check_one(shared, there, place, number, parameter, argument)?;
            note_misfit(fit, statics, number, here, least)?;
            let next = both(all, fit);
            all = next;
            number += 1;
        }
        Ok(all)
    }

    // Whether a static argument fits the parameter of a number. A type does, and so does what breaks a rule.
    fn check_one(
        &self,
        shared: &mut Shared,
        there: &Here,
        place: usize,
        number: usize,
        parameter: &Static,
        argument: Option<usize>,
    ) -> Result<bool, NoMemory>
        ensures grows { OnOk result (Grows shared.old.branches shared.new.branches) }
        ensures right { IsRight self.now shared.old → S.IsAsked shared.old.branches place there.now →
            NoneOrWithin shared.old.branches argument →
            slice_get (statics_at (S.source self.now) there.now.function) number ≡ Some (V.static parameter.now) →
            OnOk result (IsRight self.now shared.new) }
        ensures fit { IsRight self.now shared.old → S.IsAsked shared.old.branches place there.now →
            NoneOrWithin shared.old.branches argument →
            slice_get (statics_at (S.source self.now) there.now.function) number ≡ Some (V.static parameter.now) →
            IfOk result (λ b. b ≡ U.static_fits (S.source self.now) (S.instance (trees shared.old.branches) there.now)
            (V.static parameter.now) (option_map (tree_at (trees shared.old.branches)) argument)) }
    {
        match parameter {
            Static::Type { .. } => Ok(true),
            Static::Function {
                parameters,
                result,
                ..
            } => match argument {
                Some(passed) => {
                    let passing = Passing {
                        there: place,
                        parameter: number,
                        passed,
                    };
                    let fit = self.fits_once(shared, there, passing, parameters, result)?;
                    Ok(fit)
                }
                None => Ok(true),
            },
        }
    }

    // Whether a function fits its signature, which is asked once of each closed function in each place.
    fn fits_once(
        &self,
        shared: &mut Shared,
        there: &Here,
        passing: Passing,
        parameters: &[SignatureParameter],
        given: &ResultType,
    ) -> Result<bool, NoMemory>
        ensures grows { OnOk result (Grows shared.old.branches shared.new.branches) }
        ensures right { IsRight self.now shared.old → S.IsAsked shared.old.branches passing.there there.now →
            passing.passed < length shared.old.branches + 1 →
            AsksFor (S.source self.now) there.now.function passing.parameter
            (map V.signature_parameter parameters.now) (V.result_type given.now) →
            OnOk result (IsRight self.now shared.new) }
        ensures fit { IsRight self.now shared.old → S.IsAsked shared.old.branches passing.there there.now →
            passing.passed < length shared.old.branches + 1 →
            AsksFor (S.source self.now) there.now.function passing.parameter
            (map V.signature_parameter parameters.now) (V.result_type given.now) →
            IfOk result (λ b. b ≡ U.fits (S.source self.now) (S.instance (trees shared.old.branches) there.now)
            (map V.signature_parameter parameters.now) (V.result_type given.now)
            (tree_at (trees shared.old.branches) passing.passed)) }
    {
        match shared.known_fit(passing) {
            Some(fit) => Ok(fit),
            None => {
                let fit = self.fits(shared, there, passing.passed, parameters, given)?;
                shared.note_fit(passing, fit)?;
                Ok(fit)
            }
        }
    }

    // Whether a function states no credit and has the parameters, the marks on those that aren't scalar, and the
    // results of a signature.
    fn fits(
        &self,
        shared: &mut Shared,
        there: &Here,
        passed: usize,
        parameters: &[SignatureParameter],
        given: &ResultType,
    ) -> Result<bool, NoMemory>
        ensures grows { OnOk result (Grows shared.old.branches shared.new.branches) }
        ensures fits { OnOk result (shared.new.fits ≡ shared.old.fits) }
        ensures fit { S.IsReady self.now shared.old.branches there.now →
            IfOk result (λ b. b ≡ U.fits (S.source self.now) (S.instance (trees shared.old.branches) there.now)
            (map V.signature_parameter parameters.now) (V.result_type given.now)
            (tree_at (trees shared.old.branches) passed)) }
    {
        match self.here(shared, passed, there.number)? {
            Some(here) => match self.functions.get(here.function) {
                Some(found) => {
                    let fit = self.header_fits(
                        shared,
                        there,
                        &here,
                        found.function,
                        parameters,
                        given,
                    )?;
                    Ok(fit)
                }
                None => Ok(false),
            },
            None => Ok(false),
        }
    }

    fn header_fits(
        &self,
        shared: &mut Shared,
        there: &Here,
        here: &Here,
        function: &Function,
        parameters: &[SignatureParameter],
        given: &ResultType,
    ) -> Result<bool, NoMemory>
        ensures grows { OnOk result (Grows shared.old.branches shared.new.branches) }
        ensures fits { OnOk result (shared.new.fits ≡ shared.old.fits) }
        ensures fit { S.IsReady self.now shared.old.branches there.now →
            S.IsReady self.now shared.old.branches here.now →
            IfOk result (λ b. b ≡ (U.no_credit function.now.credits.items && (U.same_parameters (S.source self.now)
            (S.instance (trees shared.old.branches) there.now) (S.instance (trees shared.old.branches) here.now)
            (map V.signature_parameter parameters.now) (map V.parameter function.now.parameters.items) &&
            U.same_results (S.source self.now) (S.instance (trees shared.old.branches) there.now)
            (S.instance (trees shared.old.branches) here.now) (U.result_types (V.result_type given.now))
            (U.result_types (V.result_type function.now.result))))) }
    {
        if !states_none(&function.credits) {
            return Ok(false);
        }
        let same = self.same_parameters(shared, there, here, parameters, &function.parameters)?;
        if !same {
            return Ok(false);
        }
        let wanted = self.results(shared, there, given)?;
        let found = self.results(shared, here, &function.result)?;
        shared.hold();
        Ok(are_same(&wanted, &found))
    }

    fn same_parameters(
        &self,
        shared: &mut Shared,
        there: &Here,
        here: &Here,
        wanted: &[SignatureParameter],
        found: &[Parameter],
    ) -> Result<bool, NoMemory>
        ensures grows { OnOk result (Grows shared.old.branches shared.new.branches) }
        ensures fits { OnOk result (shared.new.fits ≡ shared.old.fits) }
        ensures same { S.IsReady self.now shared.old.branches there.now →
            S.IsReady self.now shared.old.branches here.now →
            IfOk result (λ b. b ≡ U.same_parameters (S.source self.now)
            (S.instance (trees shared.old.branches) there.now) (S.instance (trees shared.old.branches) here.now)
            (map V.signature_parameter wanted.now) (map V.parameter found.now)) }
    {
        if wanted.len() != found.len() {
            return Ok(false);
        }
        let mut place = 0;
        for p in wanted {
            match found.get(place) {
                Some(q) => {
                    let same = self.same_parameter(shared, there, here, p, q)?;
                    if !same {
                        return Ok(false);
                    }
                }
                None => return Ok(false),
            }
            place += 1;
        }
        Ok(true)
    }

    fn same_parameter(
        &self,
        shared: &mut Shared,
        there: &Here,
        here: &Here,
        wanted: &SignatureParameter,
        found: &Parameter,
    ) -> Result<bool, NoMemory>
        ensures grows { OnOk result (Grows shared.old.branches shared.new.branches) }
        ensures fits { OnOk result (shared.new.fits ≡ shared.old.fits) }
        ensures same { S.IsReady self.now shared.old.branches there.now →
            S.IsReady self.now shared.old.branches here.now →
            IfOk result (λ b. b ≡ is_same_parameter (S.source self.now)
            (S.instance (trees shared.old.branches) there.now) (S.instance (trees shared.old.branches) here.now)
            (V.signature_parameter wanted.now) (V.parameter found.now)) }
    {
        let first = self.declared_type(shared, there, &wanted.ty)?;
        let second = self.declared_type(shared, here, &found.ty)?;
        shared.hold();
        if first != second {
            return Ok(false);
        }
        if are_alike(wanted.lent, found.lent) {
            return Ok(true);
        }
        let scalar = self.is_scalar(shared, first);
        Ok(scalar)
    }

    /// The places of the types of results.
    pub fn results(
        &self,
        shared: &mut Shared,
        here: &Here,
        given: &ResultType,
    ) -> Result<Vec<usize>, NoMemory>
        ensures grows { OnOk result (Grows shared.old.branches shared.new.branches) }
        ensures fits { OnOk result (shared.new.fits ≡ shared.old.fits) }
        ensures within { S.IsReady self.now shared.old.branches here.now →
            IfOk result (λ v. AreWithin shared.new.branches v.items) }
        ensures trees { S.IsReady self.now shared.old.branches here.now →
            IfOk result (λ v. all_at (trees shared.new.branches) v.items ≡ map (U.declared_type (S.source self.now)
            (S.instance (trees shared.old.branches) here.now)) (U.result_types (V.result_type given.now))) }
    {
        match given {
            ResultType::One(written) => {
                let place = self.declared_type(shared, here, written)?;
                let mut places = Vec::new(self.alloc);
                places.push(place)?;
                Ok(places)
            }
            ResultType::Tuple(_, list) => {
                let places = self.declared_types(shared, here, list)?;
                Ok(places)
            }
        }
    }

    fn declared_types(
        &self,
        shared: &mut Shared,
        here: &Here,
        list: &[Written],
    ) -> Result<Vec<usize>, NoMemory>
        ensures grows { OnOk result (Grows shared.old.branches shared.new.branches) }
        ensures fits { OnOk result (shared.new.fits ≡ shared.old.fits) }
        ensures within { S.IsReady self.now shared.old.branches here.now →
            IfOk result (λ v. AreWithin shared.new.branches v.items) }
        ensures trees { S.IsReady self.now shared.old.branches here.now →
            IfOk result (λ v. all_at (trees shared.new.branches) v.items ≡ map (U.declared_type (S.source self.now)
            (S.instance (trees shared.old.branches) here.now)) (map V.written list.now)) }
    {
        let mut places = Vec::new(self.alloc);
        for written in list {
            let place = self.declared_type(shared, here, written)?;
            places.push(place)?;
        }
        Ok(places)
    }
}

// Whether two marks are the same.
fn are_alike(mark: bool, other: bool) -> bool
    ensures { result ≡ U.same_mark mark other }
{
    if mark {
        return other;
    }
    !other
}

// Whether a header states no credit.
fn states_none(credits: &[CreditMark]) -> bool
    ensures { result ≡ U.no_credit credits.now }
{
    credits.is_empty()
}

fn are_same(places: &[usize], others: &[usize]) -> bool
    ensures { result ≡ bytes_eq places.now others.now }
{
    places == others
}

fn argument_at(arguments: &[Option<usize>], number: usize) -> Option<usize>
    ensures { result ≡ argument_or_none (slice_get arguments.now number) }
{
    match arguments.get(number) {
        Some(argument) => *argument,
        None => None,
    }
}

// A function that is passed as the static argument of a number doesn't fit.
fn note_misfit(
    fit: bool,
    statics: &[Written],
    number: usize,
    here: &Here,
    least: &mut Least,
) -> Result<(), NoMemory>
    ensures { OnOk result (least.new ≡ after least.old
        (misfit_at here.now.number (not fit) (slice_get (map V.written statics.now) number))) }
{
    if fit {
        return Ok(());
    }
    match statics.get(number) {
        Some(written) => {
            note_at(written, here, least)?;
            Ok(())
        }
        None => Ok(()),
    }
}

fn note_at(written: &Written, here: &Here, least: &mut Least) -> Result<(), NoMemory>
    ensures { OnOk result (least.new ≡ after least.old (U.misfit here.now.number (V.written written.now) ∷ [])) }
{
    match written {
        Written::Named { name, place, .. } => {
            least.note(Rule::E22, *place, here.number, 0, name.as_slice())?;
            Ok(())
        }
        Written::Int(place) => {
            least.note(Rule::E22, *place, here.number, 0, b"int")?;
            Ok(())
        }
    }
}

/// The place of a function that is closed with these arguments, where they fit; none where one of them is missing.
pub fn applied_function(
    alloc: Global,
    shared: &mut Shared,
    function: usize,
    fit: bool,
    arguments: &[Option<usize>],
) -> Result<Option<usize>, NoMemory>
    ensures grows { OnOk result (Grows shared.old.branches shared.new.branches) }
    ensures fits { OnOk result (shared.new.fits ≡ shared.old.fits) }
    ensures closed { AreAllWithin shared.old.branches arguments.now → IfOk result (λ o. IsPlaceOf shared.new.branches o
        (if fit then U.applied_function function (U.all_given (all_trees (trees shared.old.branches) arguments.now))
        else None)) }
{
    if !fit {
        return Ok(None);
    }
    match all_of(alloc, arguments)? {
        Some(places) => {
            let place = shared.share(Head::Function(function), places)?;
            Ok(Some(place))
        }
        None => Ok(None),
    }
}

// All of the places; none where one of them is missing.
fn all_of(alloc: Global, arguments: &[Option<usize>]) -> Result<Option<Vec<usize>>, NoMemory>
    ensures within { (bs : List Branch) → AreAllWithin bs arguments.now → IfOk result (λ o. AreWithinIfSome bs o) }
    ensures trees { (ts : List Closed) → IfOk result (λ o. trees_of ts o ≡ U.all_given (all_trees ts arguments.now)) }
{
    let mut places = Vec::new(alloc);
    for argument in arguments {
        match argument {
            Some(place) => places.push(*place)?,
            None => return Ok(None),
        }
    }
    Ok(Some(places))
}

// The places of those arguments that are types, with int for those that are functions; none where one of them is
// missing.
fn types_of(
    alloc: Global,
    parameters: &[Static],
    arguments: &[Option<usize>],
) -> Result<Option<Vec<usize>>, NoMemory>
    ensures within { (bs : List Branch) → AreAllWithin bs arguments.now → IfOk result (λ o. AreWithinIfSome bs o) }
    ensures trees { (ts : List Closed) → get_or ts 0 Int ≡ Int → IfOk result (λ o. trees_of ts o ≡
        U.types_given (map V.static parameters.now) (all_trees ts arguments.now)) }
{
    let mut places = Vec::new(alloc);
    let mut number = 0;
    for parameter in parameters {
        match arguments.get(number) {
            Some(argument) => match type_of(parameter, *argument) {
                Some(place) => places.push(place)?,
                None => return Ok(None),
            },
            None => return Ok(Some(places)),
        }
        number += 1;
    }
    Ok(Some(places))
}

// What is given for a static parameter where that is a type, and else int.
fn type_of(parameter: &Static, argument: Option<usize>) -> Option<usize>
    ensures { result ≡ type_or_int (V.static parameter.now) argument }
{
    match parameter {
        Static::Type { .. } => argument,
        Static::Function { .. } => Some(0),
    }
}
