// The core form of a program.
//
// An expression is a list of steps in postfix order. The operands that wait for their operator are kept on a stack,
// as arguments: each is bound as soon as it is complete, so that the lets are in order from left to right.
//
// The surface tree is taken apart: its names, its types, its static parameters and its data types move into the core
// form. Only the names that binders bring into scope are copied, and the names that no source has are made.
ghost use Rattle.std.specs.Prelude.{◌≡◌, ℕ, ◌+◌, List, [], ◌∷◌, ◌++◌, map, length, cond, Some, None, IfOk, OnOk};
ghost use Rattle.std.specs.Str.{bytes_eq};
ghost use Rattle.fip_base.specs.fip_language.Core as C;
ghost use Rattle.fip_base.specs.fip_language.Surface as S;
ghost use Rattle.fip_base.specs.fip_language.CoreForm as form;
ghost use Rattle.fip_base.specs.CoreView as core_view;
ghost use Rattle.fip_base.specs.SurfaceView as surface;
ghost use Rattle.fip_core.specs.Walk.{bindings, fresh, part_after, waiting, top_argument, under_top, stepped};
ghost use Rattle.fip_core.specs.Walk.{part_left, let_made, case_made, operands_of};

use crate::scope::Scope;
use fip_base::core_form::{
    Argument, Binder, Binding, Block, Clause, Core, Expression, Function, MatchKind, Parameter,
    Pattern,
};
use fip_base::plain::{Name, NoMemory, Operator, Place};
use fip_base::surface as tree;
use fip_base::surface::Step;
use std::alloc::Global;

// The first place of a text.
const ORIGIN: Place = Place {
    line: 1,
    col: 1,
    at: 0,
};

// A walk through one function: what is in scope, and the number of the next binder.
#[derive(Drop)]
struct Walk {
    alloc: Global,
    scope: Scope,
    next: usize,
}

/// The core form of a program; an error where no memory is left.
pub fn core_of(alloc: Global, program: tree::Program) -> Result<Core, NoMemory>
    ensures same { IfOk result (λ c. core_view.core c ≡ form.core_form (surface.program program)) }
{
    let mut types = Vec::new(alloc);
    let mut functions = Vec::new(alloc);
    for declaration in program.declarations {
        match declaration {
            tree::Declaration::Data { data } => types.push(data)?,
            tree::Declaration::Function { function } => functions.push(core_function(
                alloc, function,
            )?)?,
        }
    }
    Ok(Core { types, functions })
}

fn core_function(alloc: Global, f: tree::Function) -> Result<Function, NoMemory>
    ensures same { IfOk result (λ r. core_view.function r ≡ form.function (surface.function f)) }
{
    let mut walk = Walk {
        alloc,
        scope: Scope::new(alloc),
        next: 0,
    };
    let parameters = walk.parameters(f.parameters)?;
    let body = walk.block(f.body)?;
    Ok(Function {
        kind: f.kind,
        credits: f.credits,
        name: f.name,
        place: f.place,
        statics: f.statics,
        parameters,
        result: f.result,
        body,
    })
}

fn literal(value: i64, place: Place) -> Argument
    ensures same { core_view.argument result ≡ C.Literal value place }
{
    Argument::Literal { value, place }
}

// The operand on the top of the stack. A list of steps that was made from a source never lacks one.
fn pop_operand(stack: &mut Vec<Argument>) -> Argument
    ensures given { core_view.argument result ≡ top_argument (waiting stack.old.items) }
    ensures rest { waiting stack.new.items ≡ under_top (waiting stack.old.items) }
{
    match stack.pop() {
        Some(argument) => argument,
        None => literal(0, ORIGIN),
    }
}

// An operator's two operands are those on the top of the stack, the right one last.
fn operation(operator: Operator, place: Place, stack: &mut Vec<Argument>) -> Expression
    ensures same { core_view.expression result ≡ C.Operation operator place
        (top_argument (under_top (waiting stack.old.items))) (top_argument (waiting stack.old.items)) }
    ensures rest { waiting stack.new.items ≡ under_top (under_top (waiting stack.old.items)) }
{
    let right = pop_operand(stack);
    let left = pop_operand(stack);
    Expression::Operation {
        operator,
        place,
        left,
        right,
    }
}

fn match_of(
    destructive: bool,
    place: Place,
    scrutinee: Argument,
    clauses: Vec<Clause>,
) -> Expression
    ensures same { core_view.expression result ≡ C.Match destructive place (core_view.argument scrutinee)
        (core_view.clauses clauses.items) }
{
    let kind = if destructive {
        MatchKind::Destructive
    } else {
        MatchKind::Borrowing
    };
    Expression::Match {
        kind,
        place,
        scrutinee,
        clauses,
    }
}

fn constructor(name: Name, place: Place, arguments: Vec<Argument>) -> Expression
    ensures same { core_view.expression result
        ≡ C.Give (C.Constructor name place (core_view.arguments arguments.items)) }
{
    Expression::Give(Argument::Constructor {
        name,
        place,
        arguments,
    })
}

// How many operands a step takes.
fn operands(step: &Step) -> usize
    ensures count { result ≡ operands_of (surface.action step.now) }
{
    match step {
        Step::Binary { .. } => 2,
        Step::Match { .. } => 1,
        Step::If { .. } => 1,
        _ => 0,
    }
}

fn argument_place(argument: &Argument) -> Place
    ensures place { result ≡ form.argument_place (core_view.argument argument.now) }
{
    match argument {
        Argument::Variable { place, .. } => *place,
        Argument::Literal { place, .. } => *place,
        Argument::Constructor { place, .. } => *place,
    }
}

// The place of an expression's head; a block has its last expression's.
fn place_of(e: &Expression) -> Place
    ensures place { result ≡ form.place_of (core_view.expression e.now) }
{
    match e {
        Expression::Give(argument) => argument_place(argument),
        Expression::Tuple { place, .. } => *place,
        Expression::Operation { place, .. } => *place,
        Expression::Call { place, .. } => *place,
        Expression::Match { place, .. } => *place,
        Expression::Nested(block) => place_of(&block.last),
    }
}

// One more let.
fn put(out: &mut Vec<Binding>, binders: Vec<Binder>, bound: Expression) -> Result<(), NoMemory>
    ensures lets { OnOk result (bindings out.new.items ≡ bindings out.old.items
        ++ record { binders = core_view.binders binders.items; bound = core_view.expression bound } ∷ []) }
{
    out.push(Binding { binders, bound })?;
    Ok(())
}

impl Walk {
    // The number of a new binder. There are never more binders than memory holds.
    fn number(&mut self) -> Result<usize, NoMemory>
        ensures given { IfOk result (λ n. n ≡ self.old.next) }
        ensures next { OnOk result (self.new.next ≡ self.old.next + 1) }
        ensures scope { self.new.scope ≡ self.old.scope }
    {
        let number = self.next;
        self.next = number.checked_add(1).ok_or(NoMemory)?;
        Ok(number)
    }

    // A new binder of a name, which is in scope from here on.
    fn binder(&mut self, name: Name, place: Place) -> Result<Binder, NoMemory>
        ensures given { IfOk result (λ b. core_view.binder b ≡ fresh self.old.next name place) }
        ensures scope { OnOk result (self.new.scope ≡ form.with_binder self.old.scope
            (fresh self.old.next name place)) }
        ensures next { OnOk result (self.new.next ≡ self.old.next + 1) }
    {
        let number = self.number()?;
        self.enter(name.as_slice(), number)?;
        Ok(Binder {
            number,
            name,
            place,
            annotation: None,
        })
    }

    // A variable, as what its name has in scope.
    fn occurrence(&self, name: Name, place: Place) -> Argument
        ensures same { core_view.argument result ≡ C.Variable (form.lookup self.now.scope name) name place }
    {
        Argument::Variable {
            binder: self.scope.find(name.as_slice()),
            name,
            place,
        }
    }

    // A binder comes into scope; nothing names the one whose name is _.
    fn enter(&mut self, name: &[u8], number: usize) -> Result<(), NoMemory>
        ensures scope { let one = self.old.scope ++ record { name = name.now; number = number } ∷ [] in
            OnOk result (self.new.scope ≡ cond (bytes_eq name.now form.underscore) self.old.scope one) }
        ensures next { self.new.next ≡ self.old.next }
    {
        if name == b"_".as_slice() {
            return Ok(());
        }
        self.scope.bind(self.alloc, name, number)
    }

    fn parameters(&mut self, ps: Vec<tree::Parameter>) -> Result<Vec<Parameter>, NoMemory>
        ensures given { IfOk result (λ r. map core_view.parameter r.items
            ≡ form.parameters self.old.next (map surface.parameter ps.items)) }
        ensures scope { let made = form.parameters self.old.next (map surface.parameter ps.items) in
            OnOk result (self.new.scope ≡ form.with_binders self.old.scope (map (λ p. p.binder) made)) }
        ensures next { OnOk result (self.new.next ≡ self.old.next + length ps.items) }
    {
        let mut parameters = Vec::new(self.alloc);
        for p in ps {
            let binder = self.binder(p.name, p.place)?;
            parameters.push(Parameter {
                lent: p.lent,
                binder,
                ty: p.ty,
            })?;
        }
        Ok(parameters)
    }

    // The name _ at a place, bound to an expression by a let of its own.
    fn bind(&mut self, bound: Expression, out: &mut Vec<Binding>) -> Result<Argument, NoMemory>
        ensures given { IfOk result (λ a. core_view.argument a
            ≡ (form.bound (bindings out.old.items) (core_view.expression bound) self.old.next).argument) }
        ensures lets { OnOk result (bindings out.new.items
            ≡ (form.bound (bindings out.old.items) (core_view.expression bound) self.old.next).lets) }
        ensures next { OnOk result (self.new.next ≡ self.old.next + 1) }
        ensures scope { self.new.scope ≡ self.old.scope }
    {
        let number = self.number()?;
        let place = place_of(&bound);
        let binder = Binder {
            number,
            name: underscore(self.alloc)?,
            place,
            annotation: None,
        };
        let mut binders = Vec::with_capacity(self.alloc, 1)?;
        binders.push(binder)?;
        put(out, binders, bound)?;
        Ok(Argument::Variable {
            binder: Some(number),
            name: underscore(self.alloc)?,
            place,
        })
    }

    // An expression as a part. It is an argument only where no let was made for it.
    fn as_part(
        &mut self,
        e: Expression,
        is_free: bool,
        out: &mut Vec<Binding>,
    ) -> Result<Argument, NoMemory>
        ensures given { IfOk result (λ a. core_view.argument a
            ≡ (part_after is_free (bindings out.old.items) (core_view.expression e) self.old.next).argument) }
        ensures lets { OnOk result (bindings out.new.items
            ≡ (part_after is_free (bindings out.old.items) (core_view.expression e) self.old.next).lets) }
        ensures next { OnOk result (self.new.next ≡ (part_after is_free (bindings out.old.items)
            (core_view.expression e) self.old.next).next) }
        ensures scope { self.new.scope ≡ self.old.scope }
    {
        match e {
            Expression::Give(argument) => {
                if is_free {
                    Ok(argument)
                } else {
                    self.bind(Expression::Give(argument), out)
                }
            }
            other => self.bind(other, out),
        }
    }

    // A part as a scrutinee, which is a variable.
    fn as_variable(
        &mut self,
        argument: Argument,
        out: &mut Vec<Binding>,
    ) -> Result<Argument, NoMemory>
        ensures given { IfOk result (λ a. core_view.argument a
            ≡ (form.variable_from (bindings out.old.items) (core_view.argument argument) self.old.next).argument) }
        ensures lets { OnOk result (bindings out.new.items
            ≡ (form.variable_from (bindings out.old.items) (core_view.argument argument) self.old.next).lets) }
        ensures next { OnOk result (self.new.next ≡ (form.variable_from (bindings out.old.items)
            (core_view.argument argument) self.old.next).next) }
        ensures scope { self.new.scope ≡ self.old.scope }
    {
        match argument {
            Argument::Variable {
                binder,
                name,
                place,
            } => Ok(Argument::Variable {
                binder,
                name,
                place,
            }),
            other => self.bind(Expression::Give(other), out),
        }
    }

    // An expression as the last one of a block: an operation is bound, and the lets of a block go before it.
    fn as_last(&mut self, e: Expression, out: &mut Vec<Binding>) -> Result<Expression, NoMemory>
        ensures given { IfOk result (λ r. core_view.expression r
            ≡ (form.last_from (bindings out.old.items) (core_view.expression e) self.old.next).expression) }
        ensures lets { OnOk result (bindings out.new.items
            ≡ (form.last_from (bindings out.old.items) (core_view.expression e) self.old.next).lets) }
        ensures next { OnOk result (self.new.next ≡ (form.last_from (bindings out.old.items) (core_view.expression e)
            self.old.next).next) }
        ensures scope { self.new.scope ≡ self.old.scope }
    {
        match e {
            Expression::Operation {
                operator,
                place,
                left,
                right,
            } => {
                let bound = Expression::Operation {
                    operator,
                    place,
                    left,
                    right,
                };
                Ok(Expression::Give(self.bind(bound, out)?))
            }
            Expression::Nested(block) => {
                let Block { mut bindings, last } = Box::into_inner(block);
                out.append(&mut bindings)?;
                Ok(last)
            }
            other => Ok(other),
        }
    }

    // An expression that isn't bound yet, and before it the lets of its parts.
    #[cycle(walk)]
    fn whole(&mut self, e: tree::Expression, out: &mut Vec<Binding>) -> Result<Expression, NoMemory>
        ensures given { IfOk result (λ r. core_view.expression r
            ≡ (form.whole self.old.scope self.old.next (surface.expression e)).expression) }
        ensures lets { OnOk result (bindings out.new.items ≡ bindings out.old.items
            ++ (form.whole self.old.scope self.old.next (surface.expression e)).lets) }
        ensures next { OnOk result (self.new.next ≡ (form.whole self.old.scope self.old.next
            (surface.expression e)).next) }
        ensures scope { OnOk result (self.new.scope ≡ self.old.scope) }
    {
        let mut before = e.steps;
        let Some(last) = before.pop() else {
            return Ok(Expression::Give(literal(0, ORIGIN)));
        };
        let mut stack = Vec::new(self.alloc);
        for step in before {
            self.operand(step, &mut stack, out)?;
        }
        if stack.len() <= operands(&last) {
            return self.step(last, &mut stack, out);
        }
        self.operand(last, &mut stack, out)?;
        Ok(Expression::Tuple {
            place: ORIGIN,
            arguments: stack,
        })
    }

    // An expression as a part: an argument is itself, any other is bound.
    #[cycle(walk)]
    fn part(&mut self, e: tree::Expression, out: &mut Vec<Binding>) -> Result<Argument, NoMemory>
        ensures given { IfOk result (λ r. core_view.argument r
            ≡ (form.as_part (form.whole self.old.scope self.old.next (surface.expression e))).argument) }
        ensures lets { OnOk result (bindings out.new.items ≡ bindings out.old.items
            ++ (form.as_part (form.whole self.old.scope self.old.next (surface.expression e))).lets) }
        ensures next { OnOk result (self.new.next ≡ (form.as_part
            (form.whole self.old.scope self.old.next (surface.expression e))).next) }
        ensures scope { OnOk result (self.new.scope ≡ self.old.scope) }
    {
        let lets = out.len();
        let whole = self.whole(e, out)?;
        let is_free = out.len() == lets;
        self.as_part(whole, is_free, out)
    }

    // What a step gives, as a part that waits on the stack.
    #[cycle(walk)]
    fn operand(
        &mut self,
        step: Step,
        stack: &mut Vec<Argument>,
        out: &mut Vec<Binding>,
    ) -> Result<(), NoMemory>
        ensures given { OnOk result (waiting stack.new.items
            ≡ (part_left (stepped self.old.scope self.old.next (surface.action step)
            (waiting stack.old.items))).arguments) }
        ensures lets { OnOk result (bindings out.new.items ≡ bindings out.old.items
            ++ (part_left (stepped self.old.scope self.old.next (surface.action step)
            (waiting stack.old.items))).lets) }
        ensures next { OnOk result (self.new.next ≡ (part_left
            (stepped self.old.scope self.old.next (surface.action step) (waiting stack.old.items))).next) }
        ensures scope { OnOk result (self.new.scope ≡ self.old.scope) }
    {
        let lets = out.len();
        let whole = self.step(step, stack, out)?;
        let is_free = out.len() == lets;
        let part = self.as_part(whole, is_free, out)?;
        stack.push(part)?;
        Ok(())
    }

    // What a step gives, from the operands on the stack.
    #[cycle(walk)]
    fn step(
        &mut self,
        step: Step,
        stack: &mut Vec<Argument>,
        out: &mut Vec<Binding>,
    ) -> Result<Expression, NoMemory>
        ensures given { IfOk result (λ r. core_view.expression r
            ≡ (stepped self.old.scope self.old.next (surface.action step) (waiting stack.old.items)).expression) }
        ensures lets { OnOk result (bindings out.new.items ≡ bindings out.old.items
            ++ (stepped self.old.scope self.old.next (surface.action step) (waiting stack.old.items)).lets) }
        ensures stack { OnOk result (waiting stack.new.items
            ≡ (stepped self.old.scope self.old.next (surface.action step) (waiting stack.old.items)).stack) }
        ensures next { OnOk result (self.new.next ≡ (stepped self.old.scope self.old.next (surface.action step)
            (waiting stack.old.items)).next) }
        ensures scope { OnOk result (self.new.scope ≡ self.old.scope) }
    {
        match step {
            Step::Variable { name, place } => Ok(Expression::Give(self.occurrence(name, place))),
            Step::Literal { value, place } => Ok(Expression::Give(literal(value, place))),
            Step::Call {
                name,
                place,
                statics,
                arguments,
            } => Ok(Expression::Call {
                name,
                place,
                statics,
                arguments: self.parts(arguments, out)?,
            }),
            Step::Constructor {
                name,
                place,
                arguments,
            } => Ok(constructor(name, place, self.parts(arguments, out)?)),
            Step::Bracket { block } => self.brackets(block, out),
            Step::Tuple { place, parts } => Ok(Expression::Tuple {
                place,
                arguments: self.parts(parts, out)?,
            }),
            Step::Binary { operator, place } => Ok(operation(operator, place, stack)),
            Step::Match {
                destructive,
                place,
                clauses,
            } => {
                let scrutinee = self.as_variable(pop_operand(stack), out)?;
                let clauses = self.clauses(clauses)?;
                Ok(match_of(destructive, place, scrutinee, clauses))
            }
            Step::If { place, yes, no } => {
                let scrutinee = self.as_variable(pop_operand(stack), out)?;
                let met = self.block(yes)?;
                let unmet = self.block(no)?;
                self.choice(place, scrutinee, met, unmet)
            }
        }
    }

    // The match that an if is.
    fn choice(
        &self,
        place: Place,
        scrutinee: Argument,
        met: Block,
        unmet: Block,
    ) -> Result<Expression, NoMemory>
        ensures same { IfOk result (λ r. core_view.expression r ≡ form.if_match place (core_view.argument scrutinee)
            (core_view.block met) (core_view.block unmet)) }
    {
        let mut clauses = Vec::new(self.alloc);
        clauses.push(Clause {
            pattern: bare_pattern(self.alloc, b"True", place)?,
            body: met,
        })?;
        clauses.push(Clause {
            pattern: bare_pattern(self.alloc, b"False", place)?,
            body: unmet,
        })?;
        Ok(Expression::Match {
            kind: MatchKind::Borrowing,
            place,
            scrutinee,
            clauses,
        })
    }

    // The parts of a call, a tuple or a constructor, from left to right.
    #[cycle(walk)]
    fn parts(
        &mut self,
        es: Vec<tree::Expression>,
        out: &mut Vec<Binding>,
    ) -> Result<Vec<Argument>, NoMemory>
        ensures given { IfOk result (λ r. map core_view.argument r.items
            ≡ (form.parts self.old.scope self.old.next (surface.expressions es.items)).arguments) }
        ensures lets { OnOk result (bindings out.new.items ≡ bindings out.old.items
            ++ (form.parts self.old.scope self.old.next (surface.expressions es.items)).lets) }
        ensures next { OnOk result (self.new.next ≡ (form.parts self.old.scope self.old.next
            (surface.expressions es.items)).next) }
        ensures scope { OnOk result (self.new.scope ≡ self.old.scope) }
    {
        let mut arguments = Vec::new(self.alloc);
        for e in es {
            arguments.push(self.part(e, out)?)?;
        }
        Ok(arguments)
    }

    // Brackets vanish where there is no let in them.
    #[cycle(walk)]
    fn brackets(
        &mut self,
        block: tree::Block,
        out: &mut Vec<Binding>,
    ) -> Result<Expression, NoMemory>
        ensures given { IfOk result (λ r. core_view.expression r
            ≡ (form.whole self.old.scope self.old.next (S.Bracket (surface.block block))).expression) }
        ensures lets { OnOk result (bindings out.new.items ≡ bindings out.old.items
            ++ (form.whole self.old.scope self.old.next (S.Bracket (surface.block block))).lets) }
        ensures next { OnOk result (self.new.next ≡ (form.whole self.old.scope self.old.next
            (S.Bracket (surface.block block))).next) }
        ensures scope { OnOk result (self.new.scope ≡ self.old.scope) }
    {
        if block.lets.is_empty() {
            return self.whole(block.last, out);
        }
        let block = self.block(block)?;
        Ok(Expression::Nested(Box::new(self.alloc, block)?))
    }

    #[cycle(walk)]
    fn block(&mut self, block: tree::Block) -> Result<Block, NoMemory>
        ensures given { IfOk result (λ r. core_view.block r
            ≡ (form.as_block (form.contents self.old.scope self.old.next (surface.block block))).block) }
        ensures next { OnOk result (self.new.next ≡ (form.as_block
            (form.contents self.old.scope self.old.next (surface.block block))).next) }
        ensures scope { OnOk result (self.new.scope ≡ self.old.scope) }
    {
        let tree::Block { lets, last } = block;
        let kept = self.scope.len();
        let mut bindings = Vec::new(self.alloc);
        for l in lets {
            self.binding(l, &mut bindings)?;
        }
        let whole = self.whole(last, &mut bindings)?;
        self.scope.release(kept);
        let last = self.as_last(whole, &mut bindings)?;
        Ok(Block { bindings, last })
    }

    // A let: its bound expression, and then its binders, which are in scope from here on.
    #[cycle(walk)]
    fn binding(&mut self, l: tree::Let, out: &mut Vec<Binding>) -> Result<(), NoMemory>
        ensures lets { OnOk result (bindings out.new.items ≡ bindings out.old.items
            ++ (let_made self.old.scope self.old.next (surface.let_part l)).lets) }
        ensures scope { OnOk result (self.new.scope ≡ (let_made self.old.scope self.old.next
            (surface.let_part l)).scope) }
        ensures next { OnOk result (self.new.next ≡ (let_made self.old.scope self.old.next
            (surface.let_part l)).next) }
    {
        let bound = self.whole(l.bound, out)?;
        let binders = self.binders(l.binds)?;
        put(out, binders, bound)
    }

    fn binders(&mut self, binds: Vec<tree::Bind>) -> Result<Vec<Binder>, NoMemory>
        ensures given { IfOk result (λ r. core_view.binders r.items
            ≡ form.binders self.old.next (map surface.bind binds.items)) }
        ensures scope { let made = form.binders self.old.next (map surface.bind binds.items) in
            OnOk result (self.new.scope ≡ form.with_binders self.old.scope made) }
        ensures next { OnOk result (self.new.next ≡ self.old.next + length binds.items) }
    {
        let mut binders = Vec::new(self.alloc);
        for b in binds {
            let mut binder = self.binder(b.name, b.place)?;
            binder.annotation = b.annotation;
            binders.push(binder)?;
        }
        Ok(binders)
    }

    #[cycle(walk)]
    fn clauses(&mut self, cs: Vec<tree::Clause>) -> Result<Vec<Clause>, NoMemory>
        ensures given { IfOk result (λ r. core_view.clauses r.items
            ≡ (form.cases self.old.scope self.old.next (surface.clauses cs.items)).clauses) }
        ensures next { OnOk result (self.new.next ≡ (form.cases self.old.scope self.old.next
            (surface.clauses cs.items)).next) }
        ensures scope { OnOk result (self.new.scope ≡ self.old.scope) }
    {
        let mut clauses = Vec::new(self.alloc);
        for c in cs {
            clauses.push(self.clause(c)?)?;
        }
        Ok(clauses)
    }

    // A clause. The binders of its pattern are in scope in its body alone.
    #[cycle(walk)]
    fn clause(&mut self, c: tree::Clause) -> Result<Clause, NoMemory>
        ensures given { IfOk result (λ r. core_view.clause r
            ≡ (case_made self.old.scope self.old.next (surface.clause c)).case) }
        ensures next { OnOk result (self.new.next ≡ (case_made self.old.scope self.old.next
            (surface.clause c)).next) }
        ensures scope { OnOk result (self.new.scope ≡ self.old.scope) }
    {
        let kept = self.scope.len();
        let pattern = self.pattern(c.pattern)?;
        let body = self.block(c.body)?;
        self.scope.release(kept);
        Ok(Clause { pattern, body })
    }

    // A pattern, whose binders are in scope from here on.
    fn pattern(&mut self, p: tree::Pattern) -> Result<Pattern, NoMemory>
        ensures given { IfOk result (λ r. core_view.pattern r
            ≡ (form.pattern self.old.scope self.old.next (surface.pattern p)).pattern) }
        ensures scope { OnOk result (self.new.scope ≡ (form.pattern self.old.scope self.old.next
            (surface.pattern p)).scope) }
        ensures next { OnOk result (self.new.next ≡ (form.pattern self.old.scope self.old.next
            (surface.pattern p)).next) }
    {
        match p {
            tree::Pattern::Wildcard { place } => {
                let name = underscore(self.alloc)?;
                Ok(Pattern::Binder(self.binder(name, place)?))
            }
            tree::Pattern::Variable { name, place } => {
                Ok(Pattern::Binder(self.binder(name, place)?))
            }
            tree::Pattern::Literal { value, place } => Ok(Pattern::Literal { value, place }),
            tree::Pattern::Constructor {
                name,
                place,
                patterns,
            } => {
                let mut numbered = Vec::new(self.alloc);
                for q in patterns {
                    numbered.push(self.pattern(q)?)?;
                }
                Ok(Pattern::Constructor {
                    name,
                    place,
                    patterns: numbered,
                })
            }
        }
    }
}

// A name with these bytes.
fn name_of(alloc: Global, bytes: &[u8]) -> Result<Name, NoMemory>
    ensures same { IfOk result (λ x. x ≡ bytes.now) }
{
    Ok(Name::new(Vec::from_slice(alloc, bytes)?))
}

// The name of what nothing names.
fn underscore(alloc: Global) -> Result<Name, NoMemory>
    ensures same { IfOk result (λ x. x ≡ form.underscore) }
{
    name_of(alloc, b"_")
}

// The pattern of a constructor without fields.
fn bare_pattern(alloc: Global, name: &[u8], place: Place) -> Result<Pattern, NoMemory>
    ensures same { IfOk result (λ p. core_view.pattern p ≡ C.ConstructorPattern name.now place C.NoPatterns) }
{
    Ok(Pattern::Constructor {
        name: name_of(alloc, name)?,
        place,
        patterns: Vec::new(alloc),
    })
}
