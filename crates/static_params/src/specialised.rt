// The program without static parameters, or the least violation.
ghost use Rattle.std.specs.Prelude.{◌≡◌, ◌++◌, [], None, Some, length, map, slice_get, IfErr, IfOk, IfSome, OnOk};
ghost use Rattle.fip_language.specs.Mentions.{all_of};
ghost use Rattle.fip_base.specs.CoreView as V;
ghost use Rattle.fip_trees.specs.TreeView as W;
ghost use Rattle.fip_language.specs.declared.rule.Rule.TheVariants.{E21};
ghost use Rattle.static_params.specs.Answers.{AreManyTypes, IsAccepted, Says, start};
ghost use Rattle.reached_instances.specs.closed_types.Binders.{binders_in};
ghost use Rattle.static_params.specs.FlatProgram.{bracket_of, count_tys, credit_size, field_counts};
ghost use Rattle.static_params.specs.FlatProgram.{flat_instance, flat_program, instance_if, instances_of, is_root};
ghost use Rattle.static_params.specs.FlatProgram.{signature_tuple};
ghost use Rattle.static_params.specs.FlatView.{AreNumbers, GoesOn, IsMaking, IsNamed, IsNumbered, IsTypes, Stays};
ghost use Rattle.static_params.specs.FlatView.{making};
ghost use Rattle.static_params.specs.FlatView.{bound_parameter_in, numbers_at, parameter_in};
ghost use Rattle.reached_instances.specs.closed_types.Instances.{ArePassed};
ghost use Rattle.reached_instances.specs.KnownFits.{AreRoots, IsRight};
ghost use Rattle.reached_instances.specs.closed_types.SharedTrees.{AreWithin, Grows, Kept, all_at, tree_at, trees};
ghost use Rattle.reached_instances.specs.closed_types.Source.{Constructor, Declared};
ghost use Rattle.reached_instances.specs.SourceView as S;
ghost use Rattle.reached_instances.specs.closed_types.Uses.{broken};

use crate::flatten::Flattening;
use crate::table::{Numbers, declaring_of, table_of};
use data_types::DeclaredProgram;
use fip_base::core_form::{Core, Parameter, ResultType, Static};
use fip_base::plain::{CreditMark, NoMemory, Param, Params, Place};
use fip_base::refusal::{PhaseError, Rule};
use fip_base::table::TypeTable;
use fip_language::limits::MOST_INSTANCES;
use fip_trees::decls::{DeclaredConstructor, DeclaredType, Decls, FieldType};
use fip_trees::least::Least;
use fip_trees::program::{Binder, Flat, Instance, Program, TupleResult};
use reached_instances::closed::Shared;
use reached_instances::instances::{Instances, Passed};
use reached_instances::numbering::{Places, number};
use reached_instances::source::{FunctionSource, Here, Source, source_of};
use reached_instances::type_instances::TypeInstances;
use std::alloc::Global;

// The first place of a source.
const START: Place = Place {
    line: 1,
    col: 1,
    at: 0,
};

/// The program without static parameters of a program, which breaks no rule on declarations. The least violation of E11
/// and E12 in static arguments and of E20 to E23 where there is one.
pub fn specialise(alloc: Global, declared: &DeclaredProgram<'_>) -> Result<Flat, PhaseError>
    ensures accepted { IfOk result (λ f. IsAccepted (S.source_of declared.now.core declared.now.decls) f) }
    ensures refused { IfErr result (λ e. Says (S.source_of declared.now.core declared.now.decls) e) }
{
    let mut least = Least::new(alloc);
    match specialised(alloc, declared.core(), declared.decls(), &mut least) {
        Err(NoMemory) => Err(PhaseError::NoMemory),
        Ok(found) => match found {
            Some(program) => Ok(Flat::new(program)),
            None => match least.into_refusal() {
                Some(refusal) => Err(PhaseError::Refused(refusal)),
                // A violation is noted where nothing is found.
                None => unreachable!(),
            },
        },
    }
}

// None where a violation is noted.
fn specialised(
    alloc: Global,
    core: &Core,
    decls: &Decls<'_>,
    least: &mut Least,
) -> Result<Option<Program>, NoMemory>
    ensures accepted { least.old ≡ None → IfOk result (λ o. IfSome o (λ p.
        IsAccepted (S.source_of core.now decls.now) p)) }
    ensures refused { least.old ≡ None → IfOk result (λ o. o ≡ None →
        IsNamed (S.source_of core.now decls.now) least.new) }
{
    let source = source_of(alloc, core, decls)?;
    let found = specialised_source(&source, least)?;
    Ok(found)
}

// The same of what is looked up.
fn specialised_source(
    source: &Source<'_, '_>,
    least: &mut Least,
) -> Result<Option<Program>, NoMemory>
    ensures accepted { S.IsLookedUp source.now → least.old ≡ None → IfOk result (λ o. IfSome o (λ p.
        IsAccepted (S.source source.now) p)) }
    ensures refused { S.IsLookedUp source.now → least.old ≡ None → IfOk result (λ o. o ≡ None →
        IsNamed (S.source source.now) least.new) }
{
    let mut shared = Shared::new(source.alloc);
    match numbers_of(source.alloc, source, &mut shared, least)? {
        Some(numbers) => flat_of(source, shared, &numbers, least),
        None => Ok(None),
    }
}

// None where a use breaks a rule.
fn flat_of(
    source: &Source<'_, '_>,
    shared: Shared,
    numbers: &Numbers,
    least: &Least,
) -> Result<Option<Program>, NoMemory>
    ensures accepted { IsNumbered source.now numbers.now shared least.now → IfOk result (λ o. IfSome o (λ p.
        IsAccepted (S.source source.now) p)) }
    ensures refused { IsNumbered source.now numbers.now shared least.now → IfOk result (λ o. o ≡ None →
        IsNamed (S.source source.now) least.now) }
{
    if !least.is_none() {
        return Ok(None);
    }
    let program = program_of(source, shared, numbers)?;
    Ok(Some(program))
}

// More than 4,096 instances or types are E21 at the source's first place, where there is no use.
fn too_many(alloc: Global, least: &mut Least, what: &[u8]) -> Result<(), NoMemory>
    ensures { OnOk result (least.new ≡ Some (broken E21 start 0 what.now)) }
{
    *least = Least::new(alloc);
    least.note(Rule::E21, START, 0, 0, what)
}

// The numbers of the instances and of the types; none where either are more than 4,096, which is noted.
fn numbers_of(
    alloc: Global,
    source: &Source<'_, '_>,
    shared: &mut Shared,
    least: &mut Least,
) -> Result<Option<Numbers>, NoMemory>
    ensures found { IsRight source.now shared.old → least.old ≡ None → IfOk result (λ o. IfSome o (λ ns.
        IsNumbered source.now ns shared.new least.new)) }
    ensures broken { IsRight source.now shared.old → IfOk result (λ o. o ≡ None →
        IsNamed (S.source source.now) least.new) }
{
    let reaching = Instances { source };
    match number(alloc, &reaching, MOST_INSTANCES, shared, least)? {
        Some(instances) => match types_of(alloc, source, shared, &instances)? {
            Some(types) => Ok(Some(Numbers { instances, types })),
            None => {
                too_many(alloc, least, b"types")?;
                Ok(None)
            }
        },
        None => {
            too_many(alloc, least, b"functions")?;
            Ok(None)
        }
    }
}

// The numbers of the types; none where they are more than 4,096.
fn types_of(
    alloc: Global,
    source: &Source<'_, '_>,
    shared: &mut Shared,
    instances: &Places,
) -> Result<Option<Places>, NoMemory>
    ensures grows { AreRoots source.now instances.now [] shared.old →
        OnOk result (Grows shared.old.branches shared.new.branches) }
    ensures right { AreRoots source.now instances.now [] shared.old →
        OnOk result (IsRight source.now shared.new) }
    ensures types { AreRoots source.now instances.now [] shared.old → IfOk result (λ o. IfSome o (λ v.
        IsTypes source.now (all_at (trees shared.old.branches) instances.now) shared.new v)) }
    ensures many { AreRoots source.now instances.now [] shared.old → IfOk result (λ o. o ≡ None →
        AreManyTypes (S.source source.now) (all_at (trees shared.old.branches) instances.now)) }
{
    let passed = passed_of(alloc, source, shared, instances)?;
    let types = types_with(alloc, source, shared, instances, &passed)?;
    Ok(types)
}

// The functions that are passed to instances, each once.
fn passed_of(
    alloc: Global,
    source: &Source<'_, '_>,
    shared: &mut Shared,
    instances: &Places,
) -> Result<Places, NoMemory>
    ensures grows { AreRoots source.now instances.now [] shared.old →
        OnOk result (Grows shared.old.branches shared.new.branches) }
    ensures roots { AreRoots source.now instances.now [] shared.old →
        IfOk result (λ v. AreRoots source.now instances.now v shared.new) }
    ensures passed { AreRoots source.now instances.now [] shared.old →
        IfOk result (λ v. ArePassed (all_at (trees shared.old.branches) instances.now)
        (all_at (trees shared.new.branches) v)) }
{
    let mut unused = Least::new(alloc);
    let reaching = Passed { source, instances };
    match number(alloc, &reaching, usize::MAX, shared, &mut unused)? {
        Some(passed) => Ok(passed),
        // There are never so many places.
        None => unreachable!(),
    }
}

// The numbers of the types, where these are the functions that are passed to the instances.
fn types_with(
    alloc: Global,
    source: &Source<'_, '_>,
    shared: &mut Shared,
    instances: &Places,
    passed: &Places,
) -> Result<Option<Places>, NoMemory>
    ensures grows { AreRoots source.now instances.now passed.now shared.old →
        OnOk result (Grows shared.old.branches shared.new.branches) }
    ensures right { AreRoots source.now instances.now passed.now shared.old →
        OnOk result (IsRight source.now shared.new) }
    ensures types { AreRoots source.now instances.now passed.now shared.old → (k : Kept) →
        AreWithin k.branches instances.now → Grows k.branches shared.old.branches →
        ArePassed (all_at (trees k.branches) instances.now) (all_at (trees shared.old.branches) passed.now) →
        IfOk result (λ o. IfSome o (λ v.
        IsTypes source.now (all_at (trees k.branches) instances.now) shared.new v)) }
    ensures many { AreRoots source.now instances.now passed.now shared.old → (k : Kept) →
        AreWithin k.branches instances.now → Grows k.branches shared.old.branches →
        ArePassed (all_at (trees k.branches) instances.now) (all_at (trees shared.old.branches) passed.now) →
        IfOk result (λ o. o ≡ None →
        AreManyTypes (S.source source.now) (all_at (trees k.branches) instances.now)) }
{
    let mut unused = Least::new(alloc);
    let reaching = TypeInstances {
        source,
        instances,
        passed,
    };
    let types = number(alloc, &reaching, MOST_INSTANCES, shared, &mut unused)?;
    Ok(types)
}

// The program of what is numbered.
fn program_of(
    source: &Source<'_, '_>,
    mut shared: Shared,
    numbers: &Numbers,
) -> Result<Program, NoMemory>
    ensures { IsRight source.now shared → AreNumbers shared numbers.now → IfOk result (λ p.
        W.program p ≡ flat_program (S.source source.now) (numbers_at (trees shared.branches) numbers.now)) }
{
    let declaring = declaring_of(source, &shared, numbers)?;
    let types = table_of(source, &mut shared, numbers)?;
    let instances = instances_of(source, shared, numbers)?;
    let program = program_with(source, types, declaring, instances)?;
    Ok(program)
}

// The program with these types and these instances.
fn program_with(
    source: &Source<'_, '_>,
    types: TypeTable,
    declaring: Vec<u32>,
    instances: Vec<Instance>,
) -> Result<Program, NoMemory>
    ensures types { IfOk result (λ p. (W.program p).types ≡ types) }
    ensures declaring { IfOk result (λ p. (W.program p).declaring ≡ declaring.items) }
    ensures arities { IfOk result (λ p. (W.program p).arities ≡
        map (λ (d : Declared). d.arity) (map S.declared source.now.decls.now.types.items)) }
    ensures field_counts { IfOk result (λ p. (W.program p).field_counts ≡
        map field_counts (map S.declared source.now.decls.now.types.items)) }
    ensures instances { IfOk result (λ p. (W.program p).instances ≡ W.instances instances.items) }
{
    let arities = arities_of(source.alloc, &source.decls.types)?;
    let field_counts = field_counts_of(source.alloc, &source.decls.types)?;
    Ok(Program {
        types,
        declaring,
        arities,
        field_counts,
        instances,
    })
}

// How many type parameters each data type has.
fn arities_of(alloc: Global, types: &[DeclaredType<'_>]) -> Result<Vec<usize>, NoMemory>
    ensures { IfOk result (λ v. v.items ≡ map (λ (d : Declared). d.arity) (map S.declared types.now)) }
{
    let mut arities = Vec::new(alloc);
    for declared in types {
        arities.push(declared.arity)?;
    }
    Ok(arities)
}

// The numbers of the fields of each data type's constructors, as they are declared.
fn field_counts_of(alloc: Global, types: &[DeclaredType<'_>]) -> Result<Vec<Vec<usize>>, NoMemory>
    ensures { IfOk result (λ v. map W.counts_row v.items ≡ map field_counts (map S.declared types.now)) }
{
    let mut counts = Vec::new(alloc);
    for declared in types {
        let row = counts_of(alloc, &declared.constructors)?;
        counts.push(row)?;
    }
    Ok(counts)
}

fn counts_of(
    alloc: Global,
    constructors: &[DeclaredConstructor<'_>],
) -> Result<Vec<usize>, NoMemory>
    ensures { IfOk result (λ v. v.items ≡
        map (λ (k : Constructor). count_tys k.fields) (map S.constructor constructors.now)) }
{
    let mut counts = Vec::new(alloc);
    for constructor in constructors {
        counts.push(count_of(&constructor.fields))?;
    }
    Ok(counts)
}

fn count_of(fields: &[FieldType]) -> usize
    ensures { result ≡ count_tys (S.tys_of (map S.ty fields.now)) }
{
    fields.len()
}

fn instances_of(
    source: &Source<'_, '_>,
    shared: Shared,
    numbers: &Numbers,
) -> Result<Vec<Instance>, NoMemory>
    ensures { IsRight source.now shared → AreNumbers shared numbers.now → IfOk result (λ v.
        W.instances v.items ≡ (flat_program (S.source source.now)
        (numbers_at (trees shared.branches) numbers.now)).instances) }
{
    let given = Vec::new(source.alloc);
    let here = Here {
        function: 0,
        given,
        number: 0,
    };
    let mut flattening = Flattening {
        source,
        numbers,
        here,
        shared,
    };
    let mut instances = Vec::new(source.alloc);
    put_instances(
        &mut flattening,
        numbers.instances.as_slice(),
        &mut instances,
    )?;
    Ok(instances)
}

// Puts the instances of the functions at these places after the others.
fn put_instances(
    flattening: &mut Flattening<'_, '_, '_>,
    places: &[usize],
    instances: &mut Vec<Instance>,
) -> Result<(), NoMemory>
    ensures { IsMaking flattening.old → AreWithin flattening.old.shared.branches places.now →
        OnOk result (W.instances instances.new.items ≡ W.instances instances.old.items ++
        all_of (instances_of (making flattening.old).source (making flattening.old).numbers)
        (all_at (trees flattening.old.shared.branches) places.now)) }
{
    for place in places {
        put_instance(flattening, *place, instances)?;
    }
    Ok(())
}

// Puts the instance of the function at a place after the others.
fn put_instance(
    flattening: &mut Flattening<'_, '_, '_>,
    place: usize,
    instances: &mut Vec<Instance>,
) -> Result<(), NoMemory>
    ensures goes { IsMaking flattening.old → OnOk result (GoesOn flattening.old flattening.new) }
    ensures made { IsMaking flattening.old → OnOk result (W.instances instances.new.items ≡
        W.instances instances.old.items ++ instances_of (making flattening.old).source
        (making flattening.old).numbers (tree_at (trees flattening.old.shared.branches) place)) }
{
    match flattening.source.here(&flattening.shared, place, 0)? {
        Some(here) => {
            flattening.here = here;
            put_found(flattening, instances)?;
            Ok(())
        }
        None => Ok(()),
    }
}

// Puts the instance that is made after the others.
fn put_found(
    flattening: &mut Flattening<'_, '_, '_>,
    instances: &mut Vec<Instance>,
) -> Result<(), NoMemory>
    ensures stays { IsMaking flattening.old → OnOk result (Stays flattening.old flattening.new) }
    ensures made { IsMaking flattening.old → OnOk result (W.instances instances.new.items ≡
        W.instances instances.old.items ++ instance_if (making flattening.old).source
        (making flattening.old).numbers (making flattening.old).here
        (slice_get (making flattening.old).source.functions flattening.old.here.function)) }
{
    match flattening.source.functions.get(flattening.here.function) {
        Some(found) => {
            let made = instance_of(flattening, found)?;
            instances.push(made)?;
            Ok(())
        }
        None => Ok(()),
    }
}

fn instance_of(
    flattening: &mut Flattening<'_, '_, '_>,
    found: &FunctionSource<'_>,
) -> Result<Instance, NoMemory>
    ensures stays { IsMaking flattening.old → OnOk result (Stays flattening.old flattening.new) }
    ensures made { IsMaking flattening.old →
        length found.now.mentions.binders.items ≡ binders_in (S.function_source found.now) →
        IfOk result (λ i. W.instance_of i ≡ flat_instance (making flattening.old).source
        (making flattening.old).numbers (making flattening.old).here (S.function_source found.now)) }
{
    let alloc = flattening.source.alloc;
    let function = found.function;
    let name = function.name.copy(alloc)?;
    let credits = sizes_of(alloc, &function.credits)?;
    let signature_tuples = signature_tuples_of(alloc, &function.statics)?;
    let params = params_of(flattening, &function.parameters)?;
    let binders = binders_of(flattening, &function.parameters)?;
    let results = flattening.results(&function.result)?;
    let body = flattening.block(&function.body)?;
    let root = is_root(&function.statics);
    let results_place = bracket_of(&function.result);
    Ok(Instance {
        name,
        place: function.place,
        root,
        kind: function.kind,
        params,
        binders,
        credits,
        results,
        results_place,
        signature_tuples,
        variables: found.mentions.binders.len(),
        body,
    })
}

fn is_root(statics: &[Static]) -> bool
    ensures { result ≡ is_root (map V.static statics.now) }
{
    statics.is_empty()
}

// The types of parameters, and which of them are borrowed.
fn params_of(
    flattening: &mut Flattening<'_, '_, '_>,
    parameters: &[Parameter],
) -> Result<Params, NoMemory>
    ensures stays { IsMaking flattening.old → OnOk result (Stays flattening.old flattening.new) }
    ensures made { IsMaking flattening.old → IfOk result (λ ps. ps ≡
        map (parameter_in (making flattening.old)) (map V.parameter parameters.now)) }
{
    let mut params = Vec::new(flattening.source.alloc);
    for parameter in parameters {
        let ty = flattening.ty(&parameter.ty)?;
        params.push(Param {
            ty,
            lent: parameter.lent,
        })?;
    }
    Ok(Params::new(params))
}

fn binders_of(
    flattening: &mut Flattening<'_, '_, '_>,
    parameters: &[Parameter],
) -> Result<Vec<Binder>, NoMemory>
    ensures stays { IsMaking flattening.old → OnOk result (Stays flattening.old flattening.new) }
    ensures made { IsMaking flattening.old → IfOk result (λ v. v.items ≡
        map (bound_parameter_in (making flattening.old)) (map V.parameter parameters.now)) }
{
    let mut binders = Vec::new(flattening.source.alloc);
    for parameter in parameters {
        let binder = flattening.binder(&parameter.binder)?;
        binders.push(binder)?;
    }
    Ok(binders)
}

// The sizes of the credits that a header states. Each is the size of a cell.
fn sizes_of(alloc: Global, credits: &[CreditMark]) -> Result<Vec<u8>, NoMemory>
    ensures { IfOk result (λ v. v.items ≡ map credit_size credits.now) }
{
    let mut sizes = Vec::new(alloc);
    for mark in credits {
        sizes.push(size_of(mark))?;
    }
    Ok(sizes)
}

fn size_of(mark: &CreditMark) -> u8
    ensures { result ≡ credit_size mark.now }
{
    match u8::try_from(mark.size) {
        Ok(size) => size,
        Err(_) => u8::MAX,
    }
}

// The tuples that function parameters give.
fn signature_tuples_of(alloc: Global, statics: &[Static]) -> Result<Vec<TupleResult>, NoMemory>
    ensures { IfOk result (λ v. v.items ≡ all_of signature_tuple (map V.static statics.now)) }
{
    let mut tuples = Vec::new(alloc);
    for parameter in statics {
        put_signature_tuple(&mut tuples, parameter)?;
    }
    Ok(tuples)
}

fn put_signature_tuple(tuples: &mut Vec<TupleResult>, parameter: &Static) -> Result<(), NoMemory>
    ensures { OnOk result (tuples.new.items ≡ tuples.old.items ++ signature_tuple (V.static parameter.now)) }
{
    match parameter {
        Static::Type { .. } => Ok(()),
        Static::Function { result, .. } => match result {
            ResultType::One(_) => Ok(()),
            ResultType::Tuple(place, list) => {
                tuples.push(TupleResult {
                    place: *place,
                    count: list.len(),
                })?;
                Ok(())
            }
        },
    }
}

// The place of a tuple's bracket.
fn bracket_of(given: &ResultType) -> Option<Place>
    ensures { result ≡ bracket_of (V.result_type given.now) }
{
    match given {
        ResultType::One(_) => None,
        ResultType::Tuple(place, _) => Some(*place),
    }
}
