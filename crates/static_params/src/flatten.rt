// The trees of an instance, from those of its function.
ghost use Rattle.std.specs.Prelude.{◌≡◌, map, option_map, IfOk, OnOk};
ghost use Rattle.fip_base.specs.CoreView as V;
ghost use Rattle.fip_language.specs.Core as C;
ghost use Rattle.fip_trees.specs.Tree as T;
ghost use Rattle.fip_trees.specs.TreeView as W;
ghost use Rattle.static_params.specs.FlatProgram as P;
ghost use Rattle.static_params.specs.FlatView as F;
ghost use Rattle.reached_instances.specs.SourceView as S;
ghost use Rattle.reached_instances.specs.closed_types.Uses.{result_types};

use crate::table::Numbers;
use fip_base::core_form::{
    Argument, Binder, Binding, Block, Clause, Expression, MatchKind, Pattern, ResultType, Written,
};
use fip_base::plain::{Name, NoMemory, Operator, Place, Types};
use fip_trees::decls::ConstructorId;
use fip_trees::least::Least;
use fip_trees::program as flat;
use reached_instances::closed::Shared;
use reached_instances::source::{Here, Source};
use std::alloc::Global;

/// An instance whose trees are made, and the closed trees, of which more may come.
#[derive(Drop)]
pub struct Flattening<'r, 's, 'a> {
    pub source: &'r Source<'s, 'a>,
    pub numbers: &'r Numbers,
    pub here: Here,
    pub shared: Shared,
}

impl<'r, 's, 'a> Flattening<'r, 's, 'a> {
    /// The number of a type.
    pub fn ty(&mut self, written: &Written) -> Result<u32, NoMemory>
        ensures stays { F.IsMaking self.old → OnOk result (F.Stays self.old self.new) }
        ensures flat { F.IsMaking self.old →
            IfOk result (λ n. n ≡ F.type_in (F.making self.old) (V.written written.now)) }
    {
        let place = self
            .source
            .declared_type(&mut self.shared, &self.here, written)?;
        self.shared.hold();
        Ok(self.numbers.type_number(place))
    }

    /// The numbers of the types of a result.
    pub fn results(&mut self, given: &ResultType) -> Result<Types, NoMemory>
        ensures stays { F.IsMaking self.old → OnOk result (F.Stays self.old self.new) }
        ensures flat { F.IsMaking self.old → IfOk result (λ ns. ns ≡
            map (F.type_in (F.making self.old)) (result_types (V.result_type given.now))) }
    {
        let places = self.source.results(&mut self.shared, &self.here, given)?;
        self.shared.hold();
        let numbers = self.numbers.type_numbers(self.source.alloc, &places)?;
        Ok(numbers)
    }

    // The number of the instance that is called. No use in an instance breaks a rule by now.
    fn callee(&mut self, name: &Name, place: Place, statics: &[Written]) -> Result<u32, NoMemory>
        ensures stays { F.IsMaking self.old → OnOk result (F.Stays self.old self.new) }
        ensures flat { F.IsMaking self.old → IfOk result (λ n. n ≡
            F.call_in (F.making self.old) name.now place (V.writtens statics.now)) }
    {
        let mut least = Least::new(self.source.alloc);
        let callee = self.source.closed_use(
            &mut self.shared,
            &self.here,
            name.as_slice(),
            place,
            statics,
            &mut least,
        )?;
        self.shared.hold();
        match callee {
            Some(found) => Ok(self.numbers.instance_number(found)),
            None => Ok(0),
        }
    }

    // The constructor of a name. Each that is named is declared.
    fn constructor(&self, name: &Name) -> ConstructorId
        ensures { result ≡ P.constructor_of (S.source self.now.source.now) name.now }
    {
        match self.source.decls.names.find_constructor(name.as_slice()) {
            Some(id) => id,
            None => ConstructorId { data: 1, number: 0 },
        }
    }

    fn copied(&self, name: &Name) -> Result<Name, NoMemory>
        ensures { IfOk result (λ copy. copy ≡ name.now) }
    {
        let copy = name.copy(self.source.alloc)?;
        Ok(copy)
    }

    // The number of the type that is written at a binder.
    fn annotation(&mut self, annotation: &Option<Written>) -> Result<Option<u32>, NoMemory>
        ensures stays { F.IsMaking self.old → OnOk result (F.Stays self.old self.new) }
        ensures flat { F.IsMaking self.old → IfOk result (λ o. o ≡
            option_map (F.type_in (F.making self.old)) (option_map V.written annotation.now)) }
    {
        match annotation {
            None => Ok(None),
            Some(written) => {
                let ty = self.ty(written)?;
                Ok(Some(ty))
            }
        }
    }

    /// A binder, with the number of the type that is written at it.
    pub fn binder(&mut self, binder: &Binder) -> Result<flat::Binder, NoMemory>
        ensures stays { F.IsMaking self.old → OnOk result (F.Stays self.old self.new) }
        ensures flat { F.IsMaking self.old →
            IfOk result (λ b. b ≡ F.binder_in (F.making self.old) (V.binder binder.now)) }
    {
        let name = self.copied(&binder.name)?;
        let annotation = self.annotation(&binder.annotation)?;
        Ok(flat::Binder {
            number: binder.number,
            name,
            place: binder.place,
            annotation,
            ty: 0,
        })
    }

    fn binders(&mut self, list: &[Binder]) -> Result<Vec<flat::Binder>, NoMemory>
        ensures stays { F.IsMaking self.old → OnOk result (F.Stays self.old self.new) }
        ensures flat { F.IsMaking self.old →
            IfOk result (λ v. v.items ≡ map (F.binder_in (F.making self.old)) (map V.binder list.now)) }
    {
        let mut binders = Vec::with_capacity(self.source.alloc, list.len())?;
        for binder in list {
            let made = self.binder(binder)?;
            binders.push(made)?;
        }
        Ok(binders)
    }

    #[cycle(arguments)]
    fn argument(&self, argument: &Argument) -> Result<flat::Argument, NoMemory>
        ensures { IfOk result (λ a. W.argument a ≡
            P.flat_argument (S.source self.now.source.now) (V.argument argument.now)) }
    {
        match argument {
            Argument::Variable {
                binder,
                name,
                place,
            } => {
                let name = self.copied(name)?;
                Ok(flat::Argument::Variable {
                    binder: *binder,
                    name,
                    place: *place,
                })
            }
            Argument::Literal { value, place } => Ok(flat::Argument::Literal {
                value: *value,
                place: *place,
            }),
            Argument::Constructor {
                name,
                place,
                arguments,
            } => {
                let id = self.constructor(name);
                let arguments = self.arguments(arguments)?;
                let name = self.copied(name)?;
                Ok(flat::Argument::Constructor {
                    ty: 0,
                    data: id.data,
                    number: id.number,
                    name,
                    place: *place,
                    arguments,
                })
            }
        }
    }

    #[cycle(arguments)]
    fn arguments(&self, list: &[Argument]) -> Result<Vec<flat::Argument>, NoMemory>
        ensures { IfOk result (λ v. W.arguments v.items ≡
            P.flat_arguments (S.source self.now.source.now) (V.arguments list.now)) }
    {
        let mut arguments = Vec::new(self.source.alloc);
        for argument in list {
            let made = self.argument(argument)?;
            arguments.push(made)?;
        }
        Ok(arguments)
    }

    #[cycle(patterns)]
    fn pattern(&mut self, pattern: &Pattern) -> Result<flat::Pattern, NoMemory>
        ensures stays { F.IsMaking self.old → OnOk result (F.Stays self.old self.new) }
        ensures flat { F.IsMaking self.old →
            IfOk result (λ p. W.pattern p ≡ F.pattern_in (F.making self.old) (V.pattern pattern.now)) }
    {
        match pattern {
            Pattern::Binder(binder) => {
                let made = self.binder(binder)?;
                Ok(flat::Pattern::Binder(made))
            }
            Pattern::Literal { value, place } => Ok(flat::Pattern::Literal {
                value: *value,
                place: *place,
            }),
            Pattern::Constructor {
                name,
                place,
                patterns,
            } => {
                let id = self.constructor(name);
                let name = self.copied(name)?;
                let patterns = self.patterns(patterns)?;
                Ok(flat::Pattern::Constructor {
                    ty: 0,
                    data: id.data,
                    number: id.number,
                    name,
                    place: *place,
                    patterns,
                })
            }
        }
    }

    #[cycle(patterns)]
    fn patterns(&mut self, list: &[Pattern]) -> Result<Vec<flat::Pattern>, NoMemory>
        ensures stays { F.IsMaking self.old → OnOk result (F.Stays self.old self.new) }
        ensures flat { F.IsMaking self.old →
            IfOk result (λ v. W.patterns v.items ≡ F.patterns_in (F.making self.old) (V.patterns list.now)) }
    {
        let mut patterns = Vec::new(self.source.alloc);
        for pattern in list {
            let made = self.pattern(pattern)?;
            patterns.push(made)?;
        }
        Ok(patterns)
    }

    // A call: the instance that it reaches, with its arguments.
    fn call(
        &mut self,
        name: &Name,
        place: Place,
        statics: &[Written],
        arguments: &[Argument],
    ) -> Result<flat::Expression, NoMemory>
        ensures stays { F.IsMaking self.old → OnOk result (F.Stays self.old self.new) }
        ensures flat { F.IsMaking self.old → IfOk result (λ e. W.expression e ≡ F.expression_in (F.making self.old)
            (C.Call name.now place (V.writtens statics.now) (V.arguments arguments.now))) }
    {
        let arguments = self.arguments(arguments)?;
        let copy = self.copied(name)?;
        let callee = self.callee(name, place, statics)?;
        Ok(flat::Expression::Call {
            callee,
            name: copy,
            place,
            arguments,
        })
    }

    // An expression that is in no block and has no clauses.
    fn operation(
        &self,
        operator: Operator,
        place: Place,
        left: &Argument,
        right: &Argument,
    ) -> Result<flat::Expression, NoMemory>
        ensures { IfOk result (λ e. W.expression e ≡ T.Operation operator place
            (P.flat_argument (S.source self.now.source.now) (V.argument left.now))
            (P.flat_argument (S.source self.now.source.now) (V.argument right.now))) }
    {
        let left = self.argument(left)?;
        let right = self.argument(right)?;
        Ok(flat::Expression::Operation {
            operator,
            place,
            left,
            right,
        })
    }

    #[cycle(blocks)]
    fn expression(&mut self, expression: &Expression) -> Result<flat::Expression, NoMemory>
        ensures stays { F.IsMaking self.old → OnOk result (F.Stays self.old self.new) }
        ensures flat { F.IsMaking self.old → IfOk result (λ e. W.expression e ≡
            F.expression_in (F.making self.old) (V.expression expression.now)) }
    {
        match expression {
            Expression::Give(argument) => {
                let made = self.argument(argument)?;
                Ok(flat::Expression::Give(made))
            }
            Expression::Tuple { place, arguments } => {
                let arguments = self.arguments(arguments)?;
                Ok(flat::Expression::Tuple {
                    place: *place,
                    arguments,
                })
            }
            Expression::Operation {
                operator,
                place,
                left,
                right,
            } => {
                let made = self.operation(*operator, *place, left, right)?;
                Ok(made)
            }
            Expression::Call {
                name,
                place,
                statics,
                arguments,
            } => {
                let made = self.call(name, *place, statics, arguments)?;
                Ok(made)
            }
            Expression::Match {
                kind,
                place,
                scrutinee,
                clauses,
            } => {
                let scrutinee = self.argument(scrutinee)?;
                let clauses = self.clauses(clauses)?;
                let made = match_of(self.source.alloc, *kind, *place, scrutinee, clauses)?;
                Ok(made)
            }
            Expression::Nested(block) => {
                let block = self.block(block)?;
                let boxed = Box::new(self.source.alloc, block)?;
                Ok(flat::Expression::Nested(boxed))
            }
        }
    }

    #[cycle(blocks)]
    fn clause(&mut self, clause: &Clause) -> Result<flat::Clause, NoMemory>
        ensures stays { F.IsMaking self.old → OnOk result (F.Stays self.old self.new) }
        ensures flat { F.IsMaking self.old →
            IfOk result (λ c. W.clause c ≡ F.case_in (F.making self.old) (V.clause clause.now)) }
    {
        let pattern = self.pattern(&clause.pattern)?;
        let body = self.block(&clause.body)?;
        Ok(flat::Clause { pattern, body })
    }

    #[cycle(blocks)]
    fn clauses(&mut self, list: &[Clause]) -> Result<Vec<flat::Clause>, NoMemory>
        ensures stays { F.IsMaking self.old → OnOk result (F.Stays self.old self.new) }
        ensures flat { F.IsMaking self.old →
            IfOk result (λ v. W.clauses v.items ≡ F.clauses_in (F.making self.old) (V.clauses list.now)) }
    {
        let mut clauses = Vec::new(self.source.alloc);
        for clause in list {
            let made = self.clause(clause)?;
            clauses.push(made)?;
        }
        Ok(clauses)
    }

    #[cycle(blocks)]
    fn binding(&mut self, binding: &Binding) -> Result<flat::Binding, NoMemory>
        ensures stays { F.IsMaking self.old → OnOk result (F.Stays self.old self.new) }
        ensures flat { F.IsMaking self.old →
            IfOk result (λ b. W.binding b ≡ F.bound_in (F.making self.old) (V.binding binding.now)) }
    {
        let binders = self.binders(&binding.binders)?;
        let bound = self.expression(&binding.bound)?;
        Ok(flat::Binding { binders, bound })
    }

    #[cycle(blocks)]
    fn bindings(&mut self, list: &[Binding]) -> Result<Vec<flat::Binding>, NoMemory>
        ensures stays { F.IsMaking self.old → OnOk result (F.Stays self.old self.new) }
        ensures flat { F.IsMaking self.old →
            IfOk result (λ v. map W.binding v.items ≡ map (F.bound_in (F.making self.old)) (map V.binding list.now)) }
    {
        let mut bindings = Vec::new(self.source.alloc);
        for binding in list {
            let made = self.binding(binding)?;
            bindings.push(made)?;
        }
        Ok(bindings)
    }

    /// A block.
    #[cycle(blocks)]
    pub fn block(&mut self, block: &Block) -> Result<flat::Block, NoMemory>
        ensures stays { F.IsMaking self.old → OnOk result (F.Stays self.old self.new) }
        ensures flat { F.IsMaking self.old →
            IfOk result (λ b. W.block b ≡ F.block_in (F.making self.old) (V.block block.now)) }
    {
        let bindings = self.bindings(&block.bindings)?;
        let last = self.expression(&block.last)?;
        Ok(flat::Block { bindings, last })
    }
}

// A match without clauses, which no source has, gives its scrutinee.
fn match_of(
    alloc: Global,
    kind: MatchKind,
    place: Place,
    scrutinee: flat::Argument,
    mut clauses: Vec<flat::Clause>,
) -> Result<flat::Expression, NoMemory>
    ensures { IfOk result (λ e. W.expression e ≡
        P.match_of (W.is_destructive kind) place (W.argument scrutinee) (W.clauses clauses.items)) }
{
    if clauses.is_empty() {
        return Ok(flat::Expression::Give(scrutinee));
    }
    let first = Box::new(alloc, clauses.remove(0))?;
    Ok(flat::Expression::Match {
        kind,
        ty: 0,
        place,
        scrutinee,
        first,
        others: clauses,
    })
}
