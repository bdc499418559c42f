// The evaluator. What waits for a value is kept in a list: each binding whose bound expression is evaluated, the last
// one last. An evaluation goes by steps, each of which looks at one expression, or hands values to what waits for
// them.
ghost use Rattle.std.specs.Prelude.{◌≡◌, ◌≢◌, ℕ, suc, ◌+◌, ◌*◌, ◌<◌, ◌≤◌, [], ◌∷◌, Some, IfOk, OnOk};
ghost use Rattle.std.specs.Prelude.{IfSome, IfNone, ℤ, Result};
ghost use Rattle.fip_trees.specs.fip_language.Arithmetic.{operate};
ghost use Rattle.plain_eval.specs.Operating.{IsOutcome};
ghost use Rattle.fip_trees.specs.fip_language.Values.{Values, End, More};
ghost use Rattle.fip_trees.specs.fip_language.Table.{HaveTypes};
ghost use Rattle.fip_trees.specs.fip_language.PrintedText.{printed_lines};
ghost use Rattle.fip_trees.specs.fip_language.Meaning.{Answer, Gives, Deep, Stuck, Run, ends, with_value, with_values, operation};
ghost use Rattle.fip_trees.specs.fip_language.Meaning.{counted, in_frame, Environment, nothing_bound};
ghost use Rattle.fip_trees.specs.Tree as T;
ghost use Rattle.fip_trees.specs.TreeView as V;
ghost use Rattle.instance_semantics.specs.Meaning.{argument_value, argument_values, bind_binders};
ghost use Rattle.instance_semantics.specs.Meaning.{evaluate_clauses, flat_meaning};
ghost use Rattle.plain_eval.specs.Instances.{instance_meaning};
ghost use Rattle.plain_rows.specs.Rows.{AreRows, StandAll};
ghost use Rattle.plain_eval.specs.Ended.{IsEnd};
ghost use Rattle.plain_eval.specs.Slots.{CoversNow, Keeps, KeepsAll};
ghost use Rattle.plain_eval.specs.Machine.{Leads, LeadsAt, LeadsIn, Reaches, IsLast, last_end};
ghost use Rattle.plain_eval.specs.Machine.{work, here_size, step_size};
ghost use Rattle.plain_eval.specs.Work.{largest, clauses_size};

use crate::arguments::{give, give_all};
use crate::arithmetic::result_of;
use crate::patterns::chosen;
use crate::variables::{Variables, value_at};
use fip_base::plain::{NoMemory, Operator, Place, TrapKind};
use fip_base::table::TypeTable;
use fip_trees::program::{Argument, Binder, Block, Clause, Expression, Instance, Typed};
use plain_rows::{Rows, Store, Value, print_values};
use std::alloc::Global;

/// How an evaluation ended.
#[derive(Drop)]
pub enum PlainEnded {
    /// With values, as many as the function has results.
    Value(Rows),
    /// An operator has no value; its line and column count from 1, the column in bytes.
    Trap {
        kind: TrapKind,
        line: usize,
        col: usize,
    },
    /// A call found no call left, the entry's among them.
    Out,
    /// A call outside tail position found no free frame.
    Deep,
}

/// A binding that waits for what its bound expression gives.
#[derive(Clone, Copy)]
pub struct Waiting<'a> {
    binders: &'a [Binder],
    // The block that it is in, and the number of the binding after it.
    block: &'a Block,
    next: usize,
    // Whether that block is in tail position.
    is_tail: bool,
    // Where the variables of its function begin and end.
    base: usize,
    end: usize,
    // The frames that are free in its function.
    frames: usize,
}

/// Where an evaluation is.
#[derive(Clone, Copy)]
pub enum Here<'a> {
    // At a binding of a block, or past the last one at the last expression.
    Block(&'a Block, usize),
    Expression(&'a Expression),
    // At the values that an expression gave.
    Given,
}

/// What a step gives.
#[derive(Clone, Copy)]
pub enum Step<'a> {
    Went(Here<'a>),
    Value,
    Trap { kind: TrapKind, place: Place },
    Out,
    Deep,
}

/// An evaluation.
#[derive(Drop)]
pub struct Evaluation<'a> {
    instances: &'a [Instance],
    store: Store,
    variables: Variables,
    // What an expression gave, or the arguments of a call.
    given: Vec<Value>,
    waiting: Vec<Waiting<'a>>,
    // Whether what is evaluated is in tail position of its function.
    is_tail: bool,
    // The calls that are left, and the free frames.
    calls: u64,
    frames: usize,
    // The weight of the store past which rows are dropped.
    most: usize,
}

// Rows aren't dropped while the store has fewer rows and fields than this.
const LEAST_WEIGHT: usize = 1_048_576;

/// The value of a function of the program, with so many calls and free frames. Each entry of a function takes a call,
/// this one's too; a call outside tail position holds a frame until it has its value. The program must be typed, `f` be
/// the number of one of its instances, and the rows be of its parameters' types. An error where no memory is left.
pub fn eval(
    alloc: Global,
    typed: &Typed,
    f: usize,
    rows: Rows,
    calls: u64,
    frames: usize,
) -> Result<PlainEnded, NoMemory>
    // It ends as the program means on the trees that the rows stand for; no typed program gets stuck.
    ensures means { (vs : Values) (a : Answer) → AreRows rows vs →
        a ≡ (flat_meaning (V.program typed.now.program) f vs calls frames).answer → a ≢ Stuck →
        IfOk result (λ end. IsEnd end a) }
{
    let mut evaluation = Evaluation {
        instances: typed.program.instances.as_slice(),
        store: rows.store,
        variables: Variables::new(alloc),
        given: rows.values,
        waiting: Vec::new(alloc),
        is_tail: true,
        calls,
        frames,
        most: LEAST_WEIGHT,
    };
    let last = run(&mut evaluation, f)?;
    Ok(ended(evaluation, last))
}

// How an evaluation ended with its last step.
fn ended(evaluation: Evaluation, last: Step) -> PlainEnded
    ensures ends { (p : T.Program) (a : Answer) → IsLast last.entry →
        Reaches p evaluation.entry last.entry a → IsEnd result a }
{
    match last {
        Step::Value => PlainEnded::Value(Rows {
            store: evaluation.store,
            values: evaluation.given,
        }),
        Step::Trap { kind, place } => PlainEnded::Trap {
            kind,
            line: place.line,
            col: place.col,
        },
        Step::Deep => PlainEnded::Deep,
        Step::Out => PlainEnded::Out,
        Step::Went(_) => PlainEnded::Out,
    }
}

/// The canonical text of the results of an evaluation that ended with a value: one line for each, of the type beside
/// it, each ended by an LF; nothing for another end. An error where no memory is left.
pub fn print_rows(
    alloc: Global,
    types: &TypeTable,
    result_types: &[u32],
    ended: &PlainEnded,
) -> Result<Vec<u8>, NoMemory>
    // The text of the trees that the rows stand for, where they have these types.
    ensures lines { (rows : Rows) (vs : Values) → ended.now ≡ PlainEnded.Value rows → AreRows rows vs →
        HaveTypes types.now result_types.now vs →
        IfOk result (λ text. text.items ≡ printed_lines types.now result_types.now vs) }
{
    match ended {
        PlainEnded::Value(rows) => print_values(alloc, types, result_types, rows),
        _ => Ok(Vec::new(alloc)),
    }
}

// The last step of the evaluation of a function.
fn run<'a>(evaluation: &mut Evaluation<'a>, f: usize) -> Result<Step<'a>, NoMemory>
    ensures last { IfOk result IsLast }
    ensures leads { IfOk result (λ s. (p : T.Program) (a : Answer) →
        p.instances ≡ V.instances evaluation.old.instances.now → a ≢ Stuck → LeadsIn p evaluation.old f a →
        Reaches p evaluation.new s a) }
{
    let mut step = evaluation.call(f)?;
    'running: loop {
        match step {
            Step::Went(here) => step = evaluation.step(here)?,
            Step::Value => return Ok(Step::Value),
            Step::Trap { kind, place } => return Ok(Step::Trap { kind, place }),
            Step::Out => return Ok(Step::Out),
            Step::Deep => return Ok(Step::Deep),
        }
    }
}

impl<'a> Evaluation<'a> {
    fn step(&mut self, here: Here<'a>) -> Result<Step<'a>, NoMemory>
        ensures same { OnOk result (self.new.instances ≡ self.old.instances) }
        ensures leads { IfOk result (λ s. (p : T.Program) (a : Answer) →
            p.instances ≡ V.instances self.old.instances.now →
            a ≢ Stuck → LeadsAt p self.old here.entry a → Reaches p self.new s a) }
        ensures less { IfOk result (λ s.
            work (largest (V.instances self.old.instances.now)) self.new.calls (step_size s) self.new.waiting.items
            ≤ work (largest (V.instances self.old.instances.now)) self.old.calls (here_size here.entry)
            self.old.waiting.items) }
    {
        match here {
            Here::Block(block, next) => self.block(block, next),
            Here::Expression(expression) => self.expression(expression),
            Here::Given => self.hand(),
        }
    }

    // A binding waits for what its bound expression gives; past the last one comes the last expression.
    fn block(&mut self, block: &'a Block, next: usize) -> Result<Step<'a>, NoMemory>
        ensures same { OnOk result (self.new.instances ≡ self.old.instances) }
        ensures leads { IfOk result (λ s. (p : T.Program) (a : Answer) →
            LeadsAt p self.old (Here.Block block.entry next) a → Reaches p self.new s a) }
        ensures less { IfOk result (λ s. (most : ℕ) → work most self.new.calls (step_size s) self.new.waiting.items
            ≤ work most self.old.calls (here_size (Here.Block block.entry next)) self.old.waiting.items) }
    {
        let Some(binding) = block.bindings.get(next) else {
            return Ok(Step::Went(Here::Expression(&block.last)));
        };
        self.waiting.push(Waiting {
            binders: binding.binders.as_slice(),
            block,
            next: next + 1,
            is_tail: self.is_tail,
            base: self.variables.base(),
            end: self.variables.end(),
            frames: self.frames,
        })?;
        self.is_tail = false;
        Ok(Step::Went(Here::Expression(&binding.bound)))
    }

    fn expression(&mut self, expression: &'a Expression) -> Result<Step<'a>, NoMemory>
        ensures same { OnOk result (self.new.instances ≡ self.old.instances) }
        ensures leads { IfOk result (λ s. (p : T.Program) (a : Answer) →
            p.instances ≡ V.instances self.old.instances.now →
            a ≢ Stuck → LeadsAt p self.old (Here.Expression expression.entry) a → Reaches p self.new s a) }
        ensures less { IfOk result (λ s.
            work (largest (V.instances self.old.instances.now)) self.new.calls (step_size s) self.new.waiting.items
            ≤ work (largest (V.instances self.old.instances.now)) self.old.calls
            (here_size (Here.Expression expression.entry)) self.old.waiting.items) }
    {
        match expression {
            Expression::Give(argument) => self.give_one(argument),
            Expression::Tuple { arguments, .. } => self.give(arguments.as_slice()),
            Expression::Operation {
                operator,
                place,
                left,
                right,
            } => self.operation(*operator, *place, left, right),
            Expression::Call {
                callee,
                arguments,
                ..
            } => self.call_with(*callee, arguments.as_slice()),
            Expression::Match {
                scrutinee,
                first,
                others,
                ..
            } => self.choose(scrutinee, first, others.as_slice()),
            Expression::Nested(block) => Ok(Step::Went(Here::Block(block, 0))),
        }
    }

    // Gives the value of an argument.
    fn give_one(&mut self, argument: &Argument) -> Result<Step<'a>, NoMemory>
        ensures same { OnOk result (self.new.instances ≡ self.old.instances) }
        ensures leads { IfOk result (λ s. (p : T.Program) (a : Answer) → a ≢ Stuck →
            Leads p self.old (λ env words. with_value (argument_value env (V.argument argument.now))
            (λ v. ends (Gives (More v End) self.old.calls))) a → Reaches p self.new s a) }
        ensures calls { OnOk result (self.new.calls ≡ self.old.calls) }
        ensures waiting { OnOk result (self.new.waiting ≡ self.old.waiting) }
        ensures less { IfOk result (λ s. step_size s ≤ 1) }
    {
        give(&self.variables, argument, &mut self.store, &mut self.given)?;
        Ok(Step::Went(Here::Given))
    }

    // Gives the values of arguments.
    fn give(&mut self, arguments: &[Argument]) -> Result<Step<'a>, NoMemory>
        ensures same { OnOk result (self.new.instances ≡ self.old.instances) }
        ensures leads { IfOk result (λ s. (p : T.Program) (a : Answer) → a ≢ Stuck →
            Leads p self.old (λ env words. with_values (argument_values env (V.arguments arguments.now))
            (λ vs. ends (Gives vs self.old.calls))) a → Reaches p self.new s a) }
        ensures calls { OnOk result (self.new.calls ≡ self.old.calls) }
        ensures waiting { OnOk result (self.new.waiting ≡ self.old.waiting) }
        ensures less { IfOk result (λ s. step_size s ≤ 1) }
    {
        give_all(&self.variables, arguments, &mut self.store, &mut self.given)?;
        Ok(Step::Went(Here::Given))
    }

    // Gives the result of an operator.
    fn operation(
        &mut self,
        operator: Operator,
        place: Place,
        left: &Argument,
        right: &Argument,
    ) -> Result<Step<'a>, NoMemory>
        ensures same { OnOk result (self.new.instances ≡ self.old.instances) }
        ensures leads { IfOk result (λ s. (p : T.Program) (a : Answer) → a ≢ Stuck →
            Leads p self.old (λ env words. with_value (argument_value env (V.argument left.now))
            (λ v. with_value (argument_value env (V.argument right.now))
            (λ w. operation operator place self.old.calls v w))) a → Reaches p self.new s a) }
        ensures calls { OnOk result (self.new.calls ≡ self.old.calls) }
        ensures waiting { OnOk result (self.new.waiting ≡ self.old.waiting) }
        ensures less { IfOk result (λ s. step_size s ≤ 1) }
    {
        give(&self.variables, left, &mut self.store, &mut self.given)?;
        give(&self.variables, right, &mut self.store, &mut self.given)?;
        let left = value_at(self.given.as_slice(), 0);
        let right = value_at(self.given.as_slice(), 1);
        self.given.clear();
        match operate(operator, left, right) {
            None => Ok(Step::Out),
            Some(Ok(value)) => {
                self.given.push(value)?;
                Ok(Step::Went(Here::Given))
            }
            Some(Err(kind)) => Ok(Step::Trap { kind, place }),
        }
    }

    // Calls a function with the values of arguments.
    fn call_with(&mut self, callee: u32, arguments: &[Argument]) -> Result<Step<'a>, NoMemory>
        ensures same { OnOk result (self.new.instances ≡ self.old.instances) }
        ensures leads { IfOk result (λ s. (p : T.Program) (a : Answer) →
            p.instances ≡ V.instances self.old.instances.now →
            a ≢ Stuck → Leads p self.old (λ env words. with_values (argument_values env (V.arguments arguments.now))
            (λ vs. counted self.old.calls (λ left. in_frame self.old.is_tail words self.old.frames
            (λ free. instance_meaning p free callee vs left)))) a → Reaches p self.new s a) }
        ensures less { IfOk result (λ s.
            work (largest (V.instances self.old.instances.now)) self.new.calls (step_size s) self.new.waiting.items
            ≤ work (largest (V.instances self.old.instances.now)) self.old.calls 1 self.old.waiting.items) }
    {
        give_all(&self.variables, arguments, &mut self.store, &mut self.given)?;
        self.call(callee as usize)
    }

    // Goes to the body of the clause that is chosen.
    fn choose(
        &mut self,
        scrutinee: &Argument,
        first: &'a Clause,
        others: &'a [Clause],
    ) -> Result<Step<'a>, NoMemory>
        ensures same { OnOk result (self.new.instances ≡ self.old.instances) }
        ensures leads { IfOk result (λ s. (p : T.Program) (a : Answer) → a ≢ Stuck →
            Leads p self.old (λ env words. with_value (argument_value env (V.argument scrutinee.now))
            (λ v. evaluate_clauses p words (V.clauses (first.entry.now ∷ others.entry.now)) v self.old.is_tail
            self.old.frames env self.old.calls)) a →
            Reaches p self.new s a) }
        ensures calls { OnOk result (self.new.calls ≡ self.old.calls) }
        ensures waiting { OnOk result (self.new.waiting ≡ self.old.waiting) }
        ensures less { IfOk result (λ s.
            step_size s ≤ suc (clauses_size (V.clauses (first.entry.now ∷ others.entry.now)))) }
    {
        give(&self.variables, scrutinee, &mut self.store, &mut self.given)?;
        let value = value_at(self.given.as_slice(), 0);
        self.given.clear();
        match chosen(&self.store, &mut self.variables, first, others, value)? {
            Some(block) => Ok(Step::Went(Here::Block(block, 0))),
            None => Ok(Step::Out),
        }
    }

    // Hands the values to the binding that waited last; with none the evaluation is over.
    fn hand(&mut self) -> Result<Step<'a>, NoMemory>
        ensures same { OnOk result (self.new.instances ≡ self.old.instances) }
        ensures leads { IfOk result (λ s. (p : T.Program) (a : Answer) → LeadsAt p self.old Here.Given a →
            Reaches p self.new s a) }
        ensures less { IfOk result (λ s. (most : ℕ) → work most self.new.calls (step_size s) self.new.waiting.items
            ≤ work most self.old.calls 0 self.old.waiting.items) }
    {
        match self.waiting.pop() {
            None => Ok(Step::Value),
            Some(waiting) => {
                self.variables.leave(waiting.base, waiting.end);
                bind_all(&mut self.variables, waiting.binders, self.given.as_slice())?;
                self.given.clear();
                self.frames = waiting.frames;
                self.is_tail = waiting.is_tail;
                Ok(Step::Went(Here::Block(waiting.block, waiting.next)))
            }
        }
    }

    // Enters a function, whose arguments are given: with a call and, outside tail position, a frame.
    fn call(&mut self, callee: usize) -> Result<Step<'a>, NoMemory>
        ensures same { OnOk result (self.new.instances ≡ self.old.instances) }
        ensures leads { IfOk result (λ s. (p : T.Program) (a : Answer) →
            p.instances ≡ V.instances self.old.instances.now →
            a ≢ Stuck → LeadsIn p self.old callee a → Reaches p self.new s a) }
        ensures less { IfOk result (λ s.
            work (largest (V.instances self.old.instances.now)) self.new.calls (step_size s) self.new.waiting.items
            ≤ work (largest (V.instances self.old.instances.now)) self.old.calls 1 self.old.waiting.items) }
    {
        let Some(left) = self.calls.checked_sub(1) else {
            return Ok(Step::Out);
        };
        let Some(free) = frames_of(self.is_tail, self.frames) else {
            return Ok(Step::Deep);
        };
        let Some(instance) = self.instances.get(callee) else {
            return Ok(Step::Out);
        };
        self.calls = left;
        self.frames = free;
        self.is_tail = true;
        self.enter(instance)?;
        Ok(Step::Went(Here::Block(&instance.body, 0)))
    }

    // Binds the parameters of a function to the values that are given.
    fn enter(&mut self, instance: &Instance) -> Result<(), NoMemory>
        ensures covers { OnOk result ((vs : Values) → StandAll self.old.store self.old.given.items vs →
            CoversNow self.new.store self.new.variables (bind_binders nothing_bound instance.now.binders.items vs)) }
        ensures keeps { OnOk result (Keeps (last_end 0 self.old.waiting.items) self.old.store
            self.old.variables.values.items self.new.store self.new.variables.values.items) }
        ensures following { OnOk result (last_end 0 self.old.waiting.items ≤ self.new.variables.end) }
        ensures given { OnOk result (self.new.given.items ≡ []) }
        ensures instances { OnOk result (self.new.instances ≡ self.old.instances) }
        ensures waiting { OnOk result (self.new.waiting ≡ self.old.waiting) }
        ensures calls { OnOk result (self.new.calls ≡ self.old.calls) }
        ensures frames { OnOk result (self.new.frames ≡ self.old.frames) }
        ensures tail { OnOk result (self.new.is_tail ≡ self.old.is_tail) }
    {
        let end = end_of(self.waiting.as_slice());
        self.variables.enter(end, instance.variables)?;
        bind_all(
            &mut self.variables,
            instance.binders.as_slice(),
            self.given.as_slice(),
        )?;
        self.given.clear();
        self.drop_rows()
    }

    // Drops the rows that no variable reaches, where the store has grown enough since that was done last.
    fn drop_rows(&mut self) -> Result<(), NoMemory>
        ensures keeps { OnOk result (KeepsAll self.old.store self.old.variables.values.items
            self.new.store self.new.variables.values.items) }
        ensures base { OnOk result (self.new.variables.base ≡ self.old.variables.base) }
        ensures end { OnOk result (self.new.variables.end ≡ self.old.variables.end) }
        ensures given { OnOk result (self.new.given ≡ self.old.given) }
        ensures instances { OnOk result (self.new.instances ≡ self.old.instances) }
        ensures waiting { OnOk result (self.new.waiting ≡ self.old.waiting) }
        ensures calls { OnOk result (self.new.calls ≡ self.old.calls) }
        ensures frames { OnOk result (self.new.frames ≡ self.old.frames) }
        ensures tail { OnOk result (self.new.is_tail ≡ self.old.is_tail) }
    {
        if self.store.weight() < self.most {
            return Ok(());
        }
        self.store = self.variables.collect(&self.store)?;
        let kept = self.store.weight().saturating_mul(2);
        self.most = kept
            .saturating_add(self.variables.len())
            .saturating_add(LEAST_WEIGHT);
        Ok(())
    }
}

// What an operator gives on two ints; none on other values.
fn operate(operator: Operator, left: Value, right: Value) -> Option<Result<Value, TrapKind>>
    ensures ints { (i j : ℤ) → left ≡ Value.Int i → right ≡ Value.Int j →
        (r : Result Value TrapKind) × (result ≡ Some r) × IsOutcome (operate operator i j) r }
    ensures others { ((i j : ℤ) → left ≡ Value.Int i → right ≡ Value.Int j → ⊥) → result ≡ None }
{
    match (left, right) {
        (Value::Int(left), Value::Int(right)) => Some(result_of(operator, left, right)),
        _ => None,
    }
}

// The frames that are free in a callee; none where the caller needs one and there is none.
fn frames_of(is_tail: bool, frames: usize) -> Option<usize>
    ensures none { IfNone result ((words : ℕ) (go : ℕ → Run) → in_frame is_tail words frames go ≡ ends Deep) }
    ensures some { IfSome result (λ d. (words : ℕ) (go : ℕ → Run) →
        (in_frame is_tail words frames go).answer ≡ (go d).answer) }
{
    if is_tail {
        Some(frames)
    } else {
        frames.checked_sub(1)
    }
}

// Where the variables of the last one that waits end.
fn end_of(waiting: &[Waiting]) -> usize
    ensures end { result ≡ last_end 0 waiting.now }
{
    if waiting.is_empty() {
        0
    } else {
        waiting[waiting.len() - 1].end
    }
}

// Binds binders to values, one another.
fn bind_all(variables: &mut Variables, binders: &[Binder], values: &[Value]) -> Result<(), NoMemory>
    ensures covers { OnOk result ((s : Store) (env : Environment) (vs : Values) → CoversNow s variables.old env →
        StandAll s values.now vs → CoversNow s variables.new (bind_binders env binders.now vs)) }
    ensures keeps { OnOk result ((s : Store) → KeepsAll s variables.old.values.items s variables.new.values.items) }
    ensures longer { OnOk result (variables.old.end ≤ variables.new.end) }
{
    for (binder, value) in binders.iter().zip(values.iter()) {
        variables.bind(binder.number, *value)?;
    }
    Ok(())
}
