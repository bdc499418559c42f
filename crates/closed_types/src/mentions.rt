// What the body of a function mentions, so that no instance walks through it for that again.
ghost use Rattle.std.specs.Prelude.{◌≡◌, ◌≤◌, [], ◌∷◌, ◌++◌, drop, length, map, option_map, reverse, take, IfOk, OnOk};
ghost use Rattle.fip_base.specs.fip_language.Core as C;
ghost use Rattle.fip_base.specs.CoreView as V;
ghost use Rattle.closed_types.specs.Instances.{place_of, put_in_order};
ghost use Rattle.closed_types.specs.MentionsView as M;
ghost use Rattle.closed_types.specs.Source.{declared_at};
ghost use Rattle.closed_types.specs.DeclaredView as S;
ghost use Rattle.closed_types.specs.TypeInstances.{annotation_of, arity};

use fip_base::core_form::{
    Argument, Binder, Binding, Block, Clause, Expression, Function, Parameter, Pattern, Written,
};
use fip_base::plain::{NoMemory, Place};
use fip_trees::decls::{DeclaredType, Decls};
use indexmap::IndexSet;
use std::alloc::Global;

/// A call: the callee's name and place, and the static arguments as they are written.
#[derive(Clone, Copy)]
pub struct CallSite<'a> {
    pub name: &'a [u8],
    pub place: Place,
    pub statics: &'a [Written],
}

/// What a body mentions.
#[derive(Drop)]
pub struct Mentions<'a> {
    /// The calls, in the text order of the callees' places.
    pub sites: Vec<CallSite<'a>>,
    /// The annotations of binders.
    pub annotations: Vec<&'a Written>,
    /// The data types without parameters whose constructors are named, each once.
    pub named: IndexSet<u32>,
    /// The binders, those of the parameters first.
    pub binders: Vec<&'a Binder>,
}

/// What the body of a function mentions.
pub fn mentions_of<'a>(
    alloc: Global,
    decls: &Decls<'_>,
    function: &'a Function,
) -> Result<Mentions<'a>, NoMemory>
    ensures { IfOk result (λ m. M.heard m ≡
        M.hears_block (S.declared_with decls.now [])
        (M.nothing (length function.now.parameters.items)) (V.block function.now.body)) }
{
    let mut mentions = Mentions {
        sites: Vec::new(alloc),
        annotations: Vec::new(alloc),
        named: IndexSet::new(alloc),
        binders: parameter_binders(alloc, &function.parameters)?,
    };
    mentions.add_block(decls, &function.body)?;
    Ok(mentions)
}

// The binders of parameters.
fn parameter_binders<'a>(alloc: Global, list: &'a [Parameter]) -> Result<Vec<&'a Binder>, NoMemory>
    ensures { IfOk result (λ v. length v.items ≡ length list.now) }
{
    let mut binders = Vec::new(alloc);
    for parameter in list {
        binders.push(&parameter.binder)?;
    }
    Ok(binders)
}

impl<'a> Mentions<'a> {
    #[cycle(blocks)]
    fn add_block(&mut self, decls: &Decls<'_>, block: &'a Block) -> Result<(), NoMemory>
        ensures { OnOk result (M.heard self.new ≡ M.hears_block (S.declared_with decls.now []) (M.heard self.old)
            (V.block block.now)) }
    {
        for binding in &block.bindings {
            self.add_binding(decls, binding)?;
        }
        self.add_expression(decls, &block.last)
    }

    #[cycle(blocks)]
    fn add_binding(&mut self, decls: &Decls<'_>, binding: &'a Binding) -> Result<(), NoMemory>
        ensures { OnOk result (M.heard self.new ≡ M.hears_expression (S.declared_with decls.now [])
            (M.hears_binders (M.heard self.old) (V.binding binding.now).binders) (V.binding binding.now).bound) }
    {
        self.add_binders(&binding.binders)?;
        self.add_expression(decls, &binding.bound)
    }

    #[cycle(blocks)]
    fn add_expression(
        &mut self,
        decls: &Decls<'_>,
        expression: &'a Expression,
    ) -> Result<(), NoMemory>
        ensures { OnOk result (M.heard self.new ≡ M.hears_expression (S.declared_with decls.now []) (M.heard self.old)
            (V.expression expression.now)) }
    {
        match expression {
            Expression::Give(argument) => self.add_argument(decls, argument),
            Expression::Tuple { arguments, .. } => self.add_arguments(decls, arguments),
            Expression::Operation { left, right, .. } => {
                self.add_argument(decls, left)?;
                self.add_argument(decls, right)
            }
            Expression::Call {
                name,
                place,
                statics,
                arguments,
            } => {
                self.add_site(name.as_slice(), *place, statics)?;
                self.add_arguments(decls, arguments)
            }
            Expression::Match {
                scrutinee,
                clauses,
                ..
            } => {
                self.add_argument(decls, scrutinee)?;
                self.add_clauses(decls, clauses)
            }
            Expression::Nested(block) => self.add_block(decls, block),
        }
    }

    #[cycle(blocks)]
    fn add_clauses(&mut self, decls: &Decls<'_>, clauses: &'a [Clause]) -> Result<(), NoMemory>
        ensures { OnOk result (M.heard self.new ≡ M.hears_clauses (S.declared_with decls.now []) (M.heard self.old)
            (V.clauses clauses.now)) }
    {
        for clause in clauses {
            self.add_clause(decls, clause)?;
        }
        Ok(())
    }

    #[cycle(blocks)]
    fn add_clause(&mut self, decls: &Decls<'_>, clause: &'a Clause) -> Result<(), NoMemory>
        ensures { OnOk result (M.heard self.new ≡ M.hears_block (S.declared_with decls.now [])
            (M.hears_pattern (S.declared_with decls.now []) (M.heard self.old) (V.clause clause.now).pattern)
            (V.clause clause.now).body) }
    {
        self.add_pattern(decls, &clause.pattern)?;
        self.add_block(decls, &clause.body)
    }

    // Puts a call in the text order of the callees' places. A callee stands before what its arguments call, so few
    // stand after it.
    fn add_site(
        &mut self,
        name: &'a [u8],
        place: Place,
        statics: &'a [Written],
    ) -> Result<(), NoMemory>
        ensures { OnOk result (M.heard self.new ≡
            M.with_site (M.heard self.old) (C.WrittenName name.now place (V.writtens statics.now))) }
    {
        let at = site_place(&self.sites, place);
        self.sites.insert(
            at,
            CallSite {
                name,
                place,
                statics,
            },
        )?;
        Ok(())
    }

    fn add_binder(&mut self, binder: &'a Binder) -> Result<(), NoMemory>
        ensures { OnOk result (M.heard self.new ≡ M.with_annotation (M.heard self.old)
            (option_map V.written binder.now.annotation)) }
    {
        self.binders.push(binder)?;
        self.add_annotation(&binder.annotation)
    }

    fn add_annotation(&mut self, annotation: &'a Option<Written>) -> Result<(), NoMemory>
        ensures sites { OnOk result (self.new.sites ≡ self.old.sites) }
        ensures annotations { OnOk result (map (λ w. V.written w.now) self.new.annotations.items ≡
            map (λ w. V.written w.now) self.old.annotations.items ++
            annotation_of (option_map V.written annotation.now)) }
        ensures named { OnOk result (self.new.named ≡ self.old.named) }
        ensures binders { OnOk result (self.new.binders ≡ self.old.binders) }
    {
        match annotation {
            Some(written) => {
                self.annotations.push(written)?;
                Ok(())
            }
            None => Ok(()),
        }
    }

    fn add_binders(&mut self, binders: &'a [Binder]) -> Result<(), NoMemory>
        ensures { OnOk result (M.heard self.new ≡ M.hears_binders (M.heard self.old) (V.binders binders.now)) }
    {
        for binder in binders {
            self.add_binder(binder)?;
        }
        Ok(())
    }

    // A constructor names its data type, where that has no parameters.
    fn add_constructor(&mut self, decls: &Decls<'_>, name: &[u8]) -> Result<(), NoMemory>
        ensures { OnOk result (M.heard self.new ≡ M.with_constructor (S.declared_with decls.now []) (M.heard self.old)
            name.now) }
    {
        if let Some(id) = decls.names.find_constructor(name) {
            if arity_of(decls, id.data) == 0 {
                self.named.insert(id.data)?;
            }
        }
        Ok(())
    }

    #[cycle(arguments)]
    fn add_argument(&mut self, decls: &Decls<'_>, argument: &Argument) -> Result<(), NoMemory>
        ensures { OnOk result (M.heard self.new ≡ M.hears_argument (S.declared_with decls.now []) (M.heard self.old)
            (V.argument argument.now)) }
    {
        match argument {
            Argument::Variable { .. } => Ok(()),
            Argument::Literal { .. } => Ok(()),
            Argument::Constructor {
                name,
                arguments,
                ..
            } => {
                self.add_constructor(decls, name.as_slice())?;
                self.add_arguments(decls, arguments)
            }
        }
    }

    #[cycle(arguments)]
    fn add_arguments(&mut self, decls: &Decls<'_>, list: &[Argument]) -> Result<(), NoMemory>
        ensures { OnOk result (M.heard self.new ≡ M.hears_arguments (S.declared_with decls.now []) (M.heard self.old)
            (V.arguments list.now)) }
    {
        for argument in list {
            self.add_argument(decls, argument)?;
        }
        Ok(())
    }

    #[cycle(patterns)]
    fn add_pattern(&mut self, decls: &Decls<'_>, pattern: &'a Pattern) -> Result<(), NoMemory>
        ensures { OnOk result (M.heard self.new ≡ M.hears_pattern (S.declared_with decls.now []) (M.heard self.old)
            (V.pattern pattern.now)) }
    {
        match pattern {
            Pattern::Binder(binder) => self.add_binder(binder),
            Pattern::Literal { .. } => Ok(()),
            Pattern::Constructor { name, patterns, .. } => {
                self.add_constructor(decls, name.as_slice())?;
                self.add_patterns(decls, patterns)
            }
        }
    }

    #[cycle(patterns)]
    fn add_patterns(&mut self, decls: &Decls<'_>, list: &'a [Pattern]) -> Result<(), NoMemory>
        ensures { OnOk result (M.heard self.new ≡ M.hears_patterns (S.declared_with decls.now []) (M.heard self.old)
            (V.patterns list.now)) }
    {
        for pattern in list {
            self.add_pattern(decls, pattern)?;
        }
        Ok(())
    }
}

// Where a call at a place stands among these: after the last that doesn't come after it.
fn site_place(sites: &[CallSite<'_>], place: Place) -> usize
    ensures within { result ≤ length sites.now }
    ensures place { (u : C.Written) → (place_of u).at ≡ place.at →
        put_in_order u (reverse (map M.use_of sites.now)) ≡
        reverse (map M.use_of (drop result sites.now)) ++ u ∷ reverse (map M.use_of (take result sites.now)) }
{
    let mut at = sites.len();
    while at > 0 && place.at < sites[at - 1].place.at {
        at -= 1;
    }
    at
}

// How many type parameters a data type has; int has none.
fn arity_of(decls: &Decls<'_>, number: u32) -> usize
    ensures { result ≡ arity (S.declared_with decls.now []) number }
{
    match data_type_of(decls, number) {
        Some(declared) => declared.arity,
        None => 0,
    }
}

/// The data type of a number; none for int and where there are fewer.
pub fn data_type_of<'s, 'a>(decls: &'s Decls<'a>, number: u32) -> Option<&'s DeclaredType<'a>>
    ensures { option_map (λ d. S.declared d.now) result ≡ declared_at (S.declared_with decls.now []) number }
{
    if number == 0 {
        return None;
    }
    match decls.types.get(number as usize - 1) {
        Some(declared) => Some(declared),
        None => None,
    }
}
