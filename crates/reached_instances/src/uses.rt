// Functions that are called or passed, as closed trees, and the rules on them.
ghost use Rattle.std.specs.Prelude.{◌≡◌, ◌+◌, ◌<◌, length, map, slice_get, IfOk, OnOk};
ghost use Rattle.fip_base.specs.fip_language.Core.{WrittenName};
ghost use Rattle.fip_base.specs.CoreView as V;
ghost use Rattle.fip_trees.specs.Least.{after};
ghost use Rattle.reached_instances.specs.KnownFits.{IsRight};
ghost use Rattle.closed_types.specs.SharedTrees.{AreWithin, Grows, tree_at, trees};
ghost use Rattle.closed_types.specs.Source.{statics_at};
ghost use Rattle.reached_instances.specs.SourceView as S;
ghost use Rattle.closed_types.specs.Uses as U;
ghost use Rattle.closed_types.specs.UsesView.{AreAllWithin, IsPlaceOf, all_trees, argument_of};
ghost use Rattle.closed_types.specs.UsesView.{faults_of_argument};

use crate::fits::applied_function;
use crate::source::{Here, Source};
use crate::types::{note_unless, parameter};
use closed_types::closed::Shared;
use fip_base::core_form::{Static, Written};
use fip_base::plain::{NoMemory, Place};
use fip_base::refusal::Rule;
use fip_trees::least::Least;

impl<'s, 'a> Source<'s, 'a> {
    /// The place of a type in a header or an annotation. The rules on these are asked where they are declared.
    pub fn declared_type(
        &self,
        shared: &mut Shared,
        here: &Here,
        written: &Written,
    ) -> Result<usize, NoMemory>
        ensures grows { OnOk result (Grows shared.old.branches shared.new.branches) }
        ensures fits { OnOk result (shared.new.fits ≡ shared.old.fits) }
        ensures within { S.IsReady self.now shared.old.branches here.now →
            IfOk result (λ i. i < length shared.new.branches + 1) }
        ensures tree { S.IsReady self.now shared.old.branches here.now →
            IfOk result (λ i. tree_at (trees shared.new.branches) i ≡ U.declared_type (S.source self.now)
            (S.instance (trees shared.old.branches) here.now) (V.written written.now)) }
    {
        let mut least = Least::new(self.alloc);
        let found = self.closed_type(shared, here, written, &mut least)?;
        match found {
            Some(place) => Ok(place),
            None => Ok(0),
        }
    }

    /// The place of a function that is called or passed, by its name and its static arguments. None where the use
    /// breaks E11, E12, E20, E22 or E23; each violation is noted.
    #[cycle(uses)]
    pub fn closed_use(
        &self,
        shared: &mut Shared,
        here: &Here,
        name: &[u8],
        place: Place,
        statics: &[Written],
        least: &mut Least,
    ) -> Result<Option<usize>, NoMemory>
        ensures grows { OnOk result (Grows shared.old.branches shared.new.branches) }
        ensures right { IsRight self.now shared.old → AreWithin shared.old.branches here.now.given.items →
            OnOk result (IsRight self.now shared.new) }
        ensures closed { IsRight self.now shared.old → AreWithin shared.old.branches here.now.given.items →
            IfOk result (λ o. IsPlaceOf shared.new.branches o (U.closed_function (S.source self.now)
            (S.instance (trees shared.old.branches) here.now)
            (WrittenName name.now place (V.writtens statics.now)))) }
        ensures faults { IsRight self.now shared.old → AreWithin shared.old.branches here.now.given.items →
            OnOk result (least.new ≡ after least.old (U.use_faults (S.source self.now) here.now.number
            (S.instance (trees shared.old.branches) here.now)
            (WrittenName name.now place (V.writtens statics.now)))) }
    {
        match self.given_function(here, name) {
            Some(given) => {
                let count = statics.len();
                let found = parameter(given, count, Rule::E23, name, place, here, least)?;
                Ok(found)
            }
            None => match self.decls.names.find_function(name) {
                Some(function) => {
                    let wanted = self.statics(function).len();
                    let given = statics.len();
                    if wanted == given {
                        let found = self.declared_use(shared, here, function, statics, least)?;
                        Ok(found)
                    } else {
                        note_unless(false, Rule::E23, name, place, here, least)?;
                        Ok(None)
                    }
                }
                None => {
                    note_unless(false, Rule::E20, name, place, here, least)?;
                    Ok(None)
                }
            },
        }
    }

    // The place of a declared function with as many static arguments as it has static parameters.
    #[cycle(uses)]
    fn declared_use(
        &self,
        shared: &mut Shared,
        here: &Here,
        function: usize,
        statics: &[Written],
        least: &mut Least,
    ) -> Result<Option<usize>, NoMemory>
        ensures grows { OnOk result (Grows shared.old.branches shared.new.branches) }
        ensures right { IsRight self.now shared.old → AreWithin shared.old.branches here.now.given.items →
            OnOk result (IsRight self.now shared.new) }
        ensures closed { IsRight self.now shared.old → AreWithin shared.old.branches here.now.given.items →
            IfOk result (λ o. IsPlaceOf shared.new.branches o (U.declared_use (S.source self.now) function
            (U.closed_arguments (S.source self.now) (S.instance (trees shared.old.branches) here.now)
            (statics_at (S.source self.now) function) (V.writtens statics.now)))) }
        ensures faults { IsRight self.now shared.old → AreWithin shared.old.branches here.now.given.items →
            OnOk result (least.new ≡ after least.old (U.declared_use_faults (S.source self.now) here.now.number
            function (V.writtens statics.now) (U.closed_arguments (S.source self.now)
            (S.instance (trees shared.old.branches) here.now) (statics_at (S.source self.now) function)
            (V.writtens statics.now)) (U.arguments_faults (S.source self.now) here.now.number
            (S.instance (trees shared.old.branches) here.now) (statics_at (S.source self.now) function)
            (V.writtens statics.now)))) }
    {
        let arguments = self.closed_arguments(shared, here, function, statics, least)?;
        let fit = self.check_passed(shared, here, function, statics, &arguments, least)?;
        let found = applied_function(self.alloc, shared, function, fit, &arguments)?;
        Ok(found)
    }

    // The places of static arguments, each none where it breaks a rule.
    #[cycle(uses)]
    fn closed_arguments(
        &self,
        shared: &mut Shared,
        here: &Here,
        function: usize,
        statics: &[Written],
        least: &mut Least,
    ) -> Result<Vec<Option<usize>>, NoMemory>
        ensures grows { OnOk result (Grows shared.old.branches shared.new.branches) }
        ensures right { IsRight self.now shared.old → AreWithin shared.old.branches here.now.given.items →
            OnOk result (IsRight self.now shared.new) }
        ensures within { IsRight self.now shared.old → AreWithin shared.old.branches here.now.given.items →
            IfOk result (λ v. AreAllWithin shared.new.branches v.items) }
        ensures closed { IsRight self.now shared.old → AreWithin shared.old.branches here.now.given.items →
            IfOk result (λ v. all_trees (trees shared.new.branches) v.items ≡ U.closed_arguments (S.source self.now)
            (S.instance (trees shared.old.branches) here.now) (statics_at (S.source self.now) function)
            (V.writtens statics.now)) }
        ensures faults { IsRight self.now shared.old → AreWithin shared.old.branches here.now.given.items →
            OnOk result (least.new ≡ after least.old (U.arguments_faults (S.source self.now) here.now.number
            (S.instance (trees shared.old.branches) here.now) (statics_at (S.source self.now) function)
            (V.writtens statics.now))) }
    {
        let parameters = self.statics(function);
        let mut arguments = Vec::new(self.alloc);
        let mut place = 0;
        for written in statics {
            let argument = self.closed_argument(shared, here, parameters, place, written, least)?;
            arguments.push(argument)?;
            place += 1;
        }
        Ok(arguments)
    }

    // The place of the static argument for the parameter at a place.
    #[cycle(uses)]
    fn closed_argument(
        &self,
        shared: &mut Shared,
        here: &Here,
        parameters: &[Static],
        place: usize,
        written: &Written,
        least: &mut Least,
    ) -> Result<Option<usize>, NoMemory>
        ensures grows { OnOk result (Grows shared.old.branches shared.new.branches) }
        ensures right { IsRight self.now shared.old → AreWithin shared.old.branches here.now.given.items →
            OnOk result (IsRight self.now shared.new) }
        ensures closed { IsRight self.now shared.old → AreWithin shared.old.branches here.now.given.items →
            IfOk result (λ o. IsPlaceOf shared.new.branches o (argument_of (S.source self.now)
            (S.instance (trees shared.old.branches) here.now) (slice_get (map V.static parameters.now) place)
            (V.written written.now))) }
        ensures faults { IsRight self.now shared.old → AreWithin shared.old.branches here.now.given.items →
            OnOk result (least.new ≡ after least.old (faults_of_argument (S.source self.now) here.now.number
            (S.instance (trees shared.old.branches) here.now) (slice_get (map V.static parameters.now) place)
            (V.written written.now))) }
    {
        match parameters.get(place) {
            Some(Static::Type { .. }) => {
                let found = self.closed_type(shared, here, written, least)?;
                Ok(found)
            }
            Some(Static::Function { .. }) => {
                let found = self.closed_passed(shared, here, written, least)?;
                Ok(found)
            }
            None => Ok(None),
        }
    }

    // The place of a function that is passed.
    #[cycle(uses)]
    fn closed_passed(
        &self,
        shared: &mut Shared,
        here: &Here,
        written: &Written,
        least: &mut Least,
    ) -> Result<Option<usize>, NoMemory>
        ensures grows { OnOk result (Grows shared.old.branches shared.new.branches) }
        ensures right { IsRight self.now shared.old → AreWithin shared.old.branches here.now.given.items →
            OnOk result (IsRight self.now shared.new) }
        ensures closed { IsRight self.now shared.old → AreWithin shared.old.branches here.now.given.items →
            IfOk result (λ o. IsPlaceOf shared.new.branches o (U.closed_function (S.source self.now)
            (S.instance (trees shared.old.branches) here.now) (V.written written.now))) }
        ensures faults { IsRight self.now shared.old → AreWithin shared.old.branches here.now.given.items →
            OnOk result (least.new ≡ after least.old (U.use_faults (S.source self.now) here.now.number
            (S.instance (trees shared.old.branches) here.now) (V.written written.now))) }
    {
        match written {
            Written::Int(place) => {
                note_unless(false, Rule::E20, b"int", *place, here, least)?;
                Ok(None)
            }
            Written::Named {
                name,
                place,
                arguments,
            } => {
                let found = self.closed_use(
                    shared,
                    here,
                    name.as_slice(),
                    *place,
                    arguments,
                    least,
                )?;
                Ok(found)
            }
        }
    }
}
