// What specialising reads: the program, and what is looked up in it once for all instances.
ghost use Rattle.std.specs.Prelude.{◌≡◌, ◌++◌, List, map, not, option_map, slice_get, IfOk, OnOk};
ghost use Rattle.fip_base.specs.fip_language.Core as F;
ghost use Rattle.fip_base.specs.fip_language.Every.{Every};
ghost use Rattle.fip_base.specs.fip_language.Mentions.{all_of};
ghost use Rattle.fip_base.specs.CoreView as V;
ghost use Rattle.fip_trees.specs.Names.{meaning};
ghost use Rattle.closed_types.specs.Closed.{Closed, closed_at};
ghost use Rattle.closed_types.specs.SharedTrees.{AreWithin, Branch, NoneOrWithin, tree_at, trees, trees_at};
ghost use Rattle.closed_types.specs.Source.{declared_at, function_at, none_of, given_function, given_type};
ghost use Rattle.closed_types.specs.Source.{if_function, if_type, is_bare, is_scalar};
ghost use Rattle.closed_types.specs.Source.{static_name, static_places, statics_at, type_at};
ghost use Rattle.reached_instances.specs.SourceView as S;
ghost use Rattle.closed_types.specs.TypeInstances.{written_in_header, written_in_static};
ghost use Rattle.closed_types.specs.Uses.{result_types};

use closed_types::closed::{Head, Shared};
use closed_types::mentions::{Mentions, data_type_of, mentions_of};
use fip_base::core_form::{
    Core, Function, Parameter, ResultType, SignatureParameter, Static, Written,
};
use fip_base::plain::NoMemory;
use fip_trees::decls::{DeclaredConstructor, DeclaredType, Decls, FieldType};
use fip_trees::meanings::Meanings;
use std::alloc::Global;

/// A function, its static parameters by name, and what its body mentions.
#[derive(Drop)]
pub struct FunctionSource<'s> {
    pub function: &'s Function,
    pub statics: Meanings<'s, usize>,
    /// The types in its header, signatures included.
    pub header: Vec<&'s Written>,
    pub mentions: Mentions<'s>,
}

impl<'s> FunctionSource<'s> {
    // What is given for the type parameter of a name.
    fn given_type(&self, given: &[usize], name: &[u8]) -> Option<usize>
        ensures given { (ts : List Closed) → option_map (tree_at ts) result ≡
            type_at (map V.static self.now.function.now.statics.items) (trees_at ts given.now)
            (meaning name.now self.now.statics) }
        ensures within { (bs : List Branch) → AreWithin bs given.now → NoneOrWithin bs result }
    {
        match self.statics.find(name) {
            Some(place) => type_given(&self.function.statics, given, place),
            None => None,
        }
    }

    // What is given for the function parameter of a name.
    fn given_function(&self, given: &[usize], name: &[u8]) -> Option<usize>
        ensures given { (ts : List Closed) → option_map (tree_at ts) result ≡
            function_at (map V.static self.now.function.now.statics.items) (trees_at ts given.now)
            (meaning name.now self.now.statics) }
        ensures within { (bs : List Branch) → AreWithin bs given.now → NoneOrWithin bs result }
    {
        match self.statics.find(name) {
            Some(place) => function_given(&self.function.statics, given, place),
            None => None,
        }
    }
}

// What is given for the static parameter at a place, where that is a type.
fn type_given(statics: &[Static], given: &[usize], place: usize) -> Option<usize>
    ensures given { (ts : List Closed) → option_map (tree_at ts) result ≡
        if_type (slice_get (map V.static statics.now) place) (closed_at (trees_at ts given.now) place) }
    ensures within { (bs : List Branch) → AreWithin bs given.now → NoneOrWithin bs result }
{
    match statics.get(place) {
        Some(Static::Type { .. }) => at(given, place),
        Some(Static::Function { .. }) => None,
        None => None,
    }
}

// What is given for the static parameter at a place, where that is a function.
fn function_given(statics: &[Static], given: &[usize], place: usize) -> Option<usize>
    ensures given { (ts : List Closed) → option_map (tree_at ts) result ≡
        if_function (slice_get (map V.static statics.now) place) (closed_at (trees_at ts given.now) place) }
    ensures within { (bs : List Branch) → AreWithin bs given.now → NoneOrWithin bs result }
{
    match statics.get(place) {
        Some(Static::Type { .. }) => None,
        Some(Static::Function { .. }) => at(given, place),
        None => None,
    }
}

fn at(places: &[usize], i: usize) -> Option<usize>
    ensures { result ≡ slice_get places.now i }
{
    places.get(i).copied()
}

/// A program that is specialised.
#[derive(Drop)]
pub struct Source<'s, 'a> {
    pub alloc: Global,
    pub decls: &'s Decls<'a>,
    /// The functions, by their places in the core form.
    pub functions: Vec<FunctionSource<'s>>,
    // At the place of a data type whether none of its constructors has a field.
    scalars: Vec<bool>,
}

/// A function with what is given for its static parameters, and the number of the instance in which that is asked.
#[derive(Drop)]
pub struct Here {
    pub function: usize,
    pub given: Vec<usize>,
    pub number: usize,
}

/// What is looked up once.
pub fn source_of<'s, 'a>(
    alloc: Global,
    core: &'s Core,
    decls: &'s Decls<'a>,
) -> Result<Source<'s, 'a>, NoMemory>
    ensures source { IfOk result (λ s. S.source s ≡ S.source_of core.now decls.now) }
    ensures right { IfOk result (λ s. S.IsLookedUp s) }
{
    let functions = functions_of(alloc, core, decls)?;
    let scalars = scalars_of(alloc, &decls.types)?;
    Ok(Source {
        alloc,
        decls,
        functions,
        scalars,
    })
}

fn functions_of<'s>(
    alloc: Global,
    core: &'s Core,
    decls: &Decls<'_>,
) -> Result<Vec<FunctionSource<'s>>, NoMemory>
    ensures functions { IfOk result (λ v.
        map S.function_source v.items ≡ map V.function core.now.functions.items) }
    ensures right { IfOk result (λ v. Every (S.IsFunctionRight decls.now) v.items) }
{
    let mut functions = Vec::new(alloc);
    for function in &core.functions {
        let found = function_of(alloc, function, decls)?;
        functions.push(found)?;
    }
    Ok(functions)
}

fn function_of<'s>(
    alloc: Global,
    function: &'s Function,
    decls: &Decls<'_>,
) -> Result<FunctionSource<'s>, NoMemory>
    ensures function { IfOk result (λ f. S.function_source f ≡ V.function function.now) }
    ensures right { IfOk result (λ f. S.IsFunctionRight decls.now f) }
{
    let statics = static_places(alloc, &function.statics)?;
    let header = header_of(alloc, function)?;
    let mentions = mentions_of(alloc, decls, function)?;
    Ok(FunctionSource {
        function,
        statics,
        header,
        mentions,
    })
}

// At the place of each data type whether none of its constructors has a field.
fn scalars_of(alloc: Global, types: &[DeclaredType<'_>]) -> Result<Vec<bool>, NoMemory>
    ensures { IfOk result (λ v. v.items ≡ map is_bare (map S.declared types.now)) }
{
    let mut scalars = Vec::new(alloc);
    for declared in types {
        scalars.push(is_scalar(declared))?;
    }
    Ok(scalars)
}

// The types in a header: of its parameters, of its results, and of its signatures.
fn header_of<'s>(alloc: Global, function: &'s Function) -> Result<Vec<&'s Written>, NoMemory>
    ensures { IfOk result (λ v. map (λ w. V.written w.now) v.items ≡ written_in_header (V.function function.now)) }
{
    let mut header = Vec::new(alloc);
    add_parameters(&mut header, &function.parameters)?;
    add_result(&mut header, &function.result)?;
    add_signatures(&mut header, &function.statics)?;
    Ok(header)
}

fn add_parameters<'s>(header: &mut Vec<&'s Written>, list: &'s [Parameter]) -> Result<(), NoMemory>
    ensures { OnOk result (map (λ w. V.written w.now) header.new.items ≡
        map (λ w. V.written w.now) header.old.items ++ map (λ (p : F.Parameter). p.type) (map V.parameter list.now)) }
{
    for parameter in list {
        header.push(&parameter.ty)?;
    }
    Ok(())
}

fn add_result<'s>(header: &mut Vec<&'s Written>, given: &'s ResultType) -> Result<(), NoMemory>
    ensures { OnOk result (map (λ w. V.written w.now) header.new.items ≡
        map (λ w. V.written w.now) header.old.items ++ result_types (V.result_type given.now)) }
{
    match given {
        ResultType::One(written) => {
            header.push(written)?;
            Ok(())
        }
        ResultType::Tuple(_, list) => add_writtens(header, list),
    }
}

fn add_writtens<'s>(header: &mut Vec<&'s Written>, list: &'s [Written]) -> Result<(), NoMemory>
    ensures { OnOk result (map (λ w. V.written w.now) header.new.items ≡
        map (λ w. V.written w.now) header.old.items ++ map V.written list.now) }
{
    for written in list {
        header.push(written)?;
    }
    Ok(())
}

fn add_signatures<'s>(header: &mut Vec<&'s Written>, list: &'s [Static]) -> Result<(), NoMemory>
    ensures { OnOk result (map (λ w. V.written w.now) header.new.items ≡
        map (λ w. V.written w.now) header.old.items ++ all_of written_in_static (map V.static list.now)) }
{
    for parameter in list {
        add_signature(header, parameter)?;
    }
    Ok(())
}

fn add_signature<'s>(header: &mut Vec<&'s Written>, parameter: &'s Static) -> Result<(), NoMemory>
    ensures { OnOk result (map (λ w. V.written w.now) header.new.items ≡
        map (λ w. V.written w.now) header.old.items ++ written_in_static (V.static parameter.now)) }
{
    match parameter {
        Static::Type { .. } => Ok(()),
        Static::Function {
            parameters,
            result,
            ..
        } => {
            add_signature_parameters(header, parameters)?;
            add_result(header, result)
        }
    }
}

fn add_signature_parameters<'s>(
    header: &mut Vec<&'s Written>,
    list: &'s [SignatureParameter],
) -> Result<(), NoMemory>
    ensures { OnOk result (map (λ w. V.written w.now) header.new.items ≡ map (λ w. V.written w.now) header.old.items ++
        map (λ (p : F.SignatureParameter). p.type) (map V.signature_parameter list.now)) }
{
    for parameter in list {
        header.push(&parameter.ty)?;
    }
    Ok(())
}

// The static parameters by name, each with its place.
fn static_places<'s>(alloc: Global, statics: &'s [Static]) -> Result<Meanings<'s, usize>, NoMemory>
    ensures { IfOk result (λ places. places ≡ static_places (map V.static statics.now)) }
{
    let mut places = Meanings::new(alloc);
    let mut place = 0;
    for parameter in statics {
        places.add(name_of(parameter), place)?;
        place += 1;
    }
    Ok(places)
}

fn name_of(parameter: &Static) -> &[u8]
    ensures { result.now ≡ static_name (V.static parameter.now) }
{
    match parameter {
        Static::Type { name, .. } => name.as_slice(),
        Static::Function { name, .. } => name.as_slice(),
    }
}

fn is_scalar(declared: &DeclaredType<'_>) -> bool
    ensures { result ≡ is_bare (S.declared declared.now) }
{
    for constructor in &declared.constructors {
        if has_fields(constructor) {
            return false;
        }
    }
    true
}

fn has_fields(constructor: &DeclaredConstructor<'_>) -> bool
    ensures { result ≡ not (none_of (S.constructor constructor.now).fields) }
{
    are_some(&constructor.fields)
}

fn are_some(fields: &[FieldType]) -> bool
    ensures { result ≡ not (none_of (S.tys_of (map S.ty fields.now))) }
{
    match fields {
        [] => false,
        [_, ..] => true,
    }
}

impl<'s, 'a> Source<'s, 'a> {
    /// The static parameters of the function at a place.
    pub fn statics(&self, function: usize) -> &'s [Static]
        ensures { map V.static result.now ≡ statics_at (S.source self.now) function }
    {
        match self.functions.get(function) {
            Some(found) => found.function.statics.as_slice(),
            None => &[],
        }
    }

    /// The data type of a number; none for int and where there are fewer.
    pub fn data_type(&self, number: u32) -> Option<&'s DeclaredType<'a>>
        ensures { option_map (λ d. S.declared d.now) result ≡ declared_at (S.source self.now) number }
    {
        data_type_of(self.decls, number)
    }

    /// The closed function at a place; none where no function stands there.
    pub fn here(
        &self,
        shared: &Shared,
        place: usize,
        number: usize,
    ) -> Result<Option<Here>, NoMemory>
        ensures { IfOk result (λ o. S.IsHere shared.now.branches place number o) }
    {
        match shared.head_at(place) {
            Some(Head::Function(function)) => {
                let given = shared.arguments_at(self.alloc, place)?;
                Ok(Some(Here {
                    function,
                    given,
                    number,
                }))
            }
            Some(Head::Type(_)) => Ok(None),
            None => Ok(None),
        }
    }

    /// What is given for the type parameter of a name; none where there is no such parameter.
    pub fn given_type(&self, here: &Here, name: &[u8]) -> Option<usize>
        ensures given { S.IsLookedUp self.now → (ts : List Closed) → option_map (tree_at ts) result ≡
            given_type (S.source self.now) (S.instance ts here.now) name.now }
        ensures within { (bs : List Branch) → AreWithin bs here.now.given.items → NoneOrWithin bs result }
    {
        match self.functions.get(here.function) {
            Some(found) => found.given_type(&here.given, name),
            None => None,
        }
    }

    /// What is given for the function parameter of a name; none where there is no such parameter.
    pub fn given_function(&self, here: &Here, name: &[u8]) -> Option<usize>
        ensures given { S.IsLookedUp self.now → (ts : List Closed) → option_map (tree_at ts) result ≡
            given_function (S.source self.now) (S.instance ts here.now) name.now }
        ensures within { (bs : List Branch) → AreWithin bs here.now.given.items → NoneOrWithin bs result }
    {
        match self.functions.get(here.function) {
            Some(found) => found.given_function(&here.given, name),
            None => None,
        }
    }

    /// Whether the closed type at a place is int, or none of its constructors has a field.
    pub fn is_scalar(&self, shared: &Shared, place: usize) -> bool
        ensures { S.IsLookedUp self.now → result ≡
            is_scalar (S.source self.now) (tree_at (trees shared.now.branches) place) }
    {
        match shared.head_at(place) {
            Some(Head::Type(number)) => match self
                .scalars
                .get((number as usize).saturating_sub(1))
            {
                Some(scalar) => *scalar,
                None => true,
            },
            Some(Head::Function(_)) => true,
            None => true,
        }
    }
}
