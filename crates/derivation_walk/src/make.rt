// Derivations of programs that keep the rules. Each part gets what it uses up and no more; in an fbip instance a node
// weakens where more is there.
//
// The walk goes down from what a function owns. Of what is there an expression asks for the variables that occur in it
// and for the credits that it needs. Of a let's own variables those that the bound expression uses up go there, all
// others to the rest, and the bound expression may borrow them.
ghost use Rattle.std.specs.Prelude.{◌≡◌, ◌+◌, ◌<◌, ◌≤◌, [], slice_get, filter, length, not, IfOk, OnOk, Err};
ghost use Rattle.fip_trees.specs.TreeView as V;
ghost use Rattle.fip_trees.specs.Sizes.{no_sizes};
ghost use Rattle.fip_trees.specs.Tree as T;
ghost use Rattle.credit_check.specs.Tallies as L;
ghost use Rattle.fip_rules.specs.World.{is_ruled};
ghost use Rattle.derivation_trees.specs.Building.{built, nothing_built, opened};
ghost use Rattle.derivation_trees.specs.Trees.{Tree, Trees, NoTrees, entry, entries};
ghost use Rattle.derivation_trees.specs.WholeTrees.{IsTree, IsWhole, AreTrees};
ghost use Rattle.derivation_walk.specs.Growing.{closed_times, grown, grown_all, Awaits, AwaitsOne};
ghost use Rattle.derivation_walk.specs.Guides.{guided, holding, asking, IsWalked};
ghost use Rattle.derivation_walk.specs.Seen.{world_of};
ghost use Rattle.derivation_walk.specs.Walked as W;
ghost use Rattle.derivation_walk.specs.Walks.{AreWalked};
ghost use Rattle.derivation_walk.specs.Costs.{cost, cost_all, total};
ghost use Rattle.derivation_walk.specs.declared.error.LineError.TheVariants.{TooLong};

use crate::credits::{are_same, credits_of};
use crate::error::LineError;
use crate::{Context, Uses};
use credit_check::{add_argument, add_pattern, marked};
use derivation_trees::{Builder, Derivation, Line, RuleName};
use fip_base::plain::{FunKind, NoMemory, Param};
use fip_trees::needs::{Need, Needs};
use fip_trees::program::{
    Argument, Binder, Binding, Block, Clause, Expression, Instance, Pattern, Typed,
};
use fip_trees::scalars::Scalars;
use fip_trees::sizes::Sizes;
use std::alloc::Global;

/// The derivation of a typed program, which must break no rule on ownership and credits, and whose needs these
/// are. NoMemory: no memory is left.
pub fn derive(alloc: Global, typed: &Typed, needs: &Needs) -> Result<Derivation, NoMemory>
    ensures trees { IfOk result (λ d. AreTrees d.lines.items) }
    ensures walked { IfOk result (λ d. AreWalked (V.program typed.now.program) needs.now 0
        (V.program typed.now.program).instances (entries d)) }
{
    let program = &typed.program;
    let scalars = Scalars::of(alloc, &program.types)?;
    let mut lines = Vec::new(alloc);
    for (number, instance) in program.instances.iter().enumerate() {
        if instance.kind.is_ruled() {
            let context = Context {
                program,
                scalars: &scalars,
                kind: instance.kind,
            };
            match line_of(
                alloc,
                &context,
                needs.of(number),
                number,
                instance,
                usize::MAX,
            ) {
                Ok(line) => lines.push(line)?,
                Err(_) => return Err(NoMemory),
            }
        }
    }
    Ok(Derivation::new(lines))
}

/// The derivation of an instance, of what its expressions need. TooLong: its text has more bytes than there is room, so
/// many that its variables and nodes alone need them. NoMemory: no memory is left.
pub fn line_of(
    alloc: Global,
    context: &Context<'_>,
    needs: &[Need],
    number: usize,
    instance: &Instance,
    room: usize,
) -> Result<Line, LineError>
    ensures tree { IfOk result (λ l. IsTree l) }
    ensures instance { IfOk result (λ l. l.instance ≡ number) }
    ensures walked { IfOk result (λ l. IsWalked (world_of context.now) needs.now (V.instance_of instance.now)
        (entry l).tree) }
    ensures long { result ≡ Err TooLong → (t : Tree) × IsWhole t × IsWalked (world_of context.now) needs.now
        (V.instance_of instance.now) t × (room < cost t) }
{
    let uses = Uses::of(alloc, context, instance)?;
    let guide = Guide {
        alloc,
        context,
        uses: &uses,
        needs,
    };
    let nodes = guide.nodes_of(instance, room)?;
    Ok(Line::new(number, nodes))
}

// Owned variables, rising, and credits.
#[derive(Drop)]
struct Owned {
    variables: Vec<usize>,
    credits: Sizes,
}

// What is asked: the variables that occur in an expression from `first` to before `end` (a number and a span, whose sum
// may pass 64 bits), and credits.
#[derive(Clone, Copy)]
struct Asked {
    first: u128,
    end: u128,
    need: Sizes,
}

// What the walk looks up.
#[derive(Drop)]
struct Guide<'a> {
    alloc: Global,
    context: &'a Context<'a>,
    uses: &'a Uses,
    needs: &'a [Need],
}

// Where the walk is: the number of the next expression, the nodes so far, and for how many bytes of their text
// there is room.
#[derive(Drop)]
struct Walk {
    next: usize,
    nodes: Builder,
    room: usize,
}

impl Guide<'_> {
    // The nodes of an instance.
    fn nodes_of(&self, instance: &Instance, room: usize) -> Result<Builder, LineError>
        ensures grows { IfOk result (λ b. built b ≡
            grown nothing_built (W.walked_instance (guided self.now) (V.instance_of instance.now))) }
        ensures short { result ≡ Err TooLong →
            room < cost (W.walked_instance (guided self.now) (V.instance_of instance.now)) }
    {
        let mut walk = Walk {
            next: 0,
            nodes: Builder::new(self.alloc),
            room,
        };
        let owned = self.owned_by(instance)?;
        self.block(&mut walk, &instance.body, owned)?;
        Ok(walk.nodes)
    }

    // What the parameters and the header give.
    fn owned_by(&self, instance: &Instance) -> Result<Owned, NoMemory>
        ensures { IfOk result (λ o. holding o ≡ record {
          variables = W.owned_parameters (guided self.now) [] 0 instance.now.params;
          credits = L.marked_from no_sizes instance.now.credits.items;
        }) }
    {
        let variables = self.owned_parameters(instance.params.as_slice())?;
        let credits = marked(&instance.credits)?;
        Ok(Owned { variables, credits })
    }

    fn owned_parameters(&self, params: &[Param]) -> Result<Vec<usize>, NoMemory>
        ensures { IfOk result (λ v. v.items ≡ W.owned_parameters (guided self.now) [] 0 params.now) }
    {
        let mut variables = Vec::new(self.alloc);
        let mut binder: usize = 0;
        for param in params {
            if !(param.lent || self.context.is_scalar(param.ty)) {
                variables.push(self.uses.number_of(binder))?;
            }
            binder += 1;
        }
        Ok(variables)
    }

    // What the expression of a number asks for.
    fn asked_by(&self, expression: usize) -> Asked
        ensures { asking result ≡ W.asked (guided self.now) expression }
    {
        let first = expression as u128;
        match self.needs.get(expression) {
            Some(need) => Asked {
                first,
                end: first + need.span as u128,
                need: need.sizes,
            },
            None => Asked {
                first,
                end: first,
                need: Sizes::none(),
            },
        }
    }

    // What the next expression asks for; the one after is the next.
    fn enter(&self, walk: &mut Walk) -> Result<Asked, NoMemory>
        ensures asked { IfOk result (λ a. asking a ≡ W.asked (guided self.now) walk.old.next) }
        ensures next { OnOk result (walk.new.next ≡ walk.old.next + 1) }
        ensures same { walk.new.nodes ≡ walk.old.nodes }
        ensures room { walk.new.room ≡ walk.old.room }
    {
        let asked = self.asked_by(walk.next);
        walk.next = walk.next.checked_add(1).ok_or(NoMemory)?;
        Ok(asked)
    }

    // One more node.
    fn open(
        &self,
        walk: &mut Walk,
        rule: RuleName,
        variables: Vec<usize>,
        credits: &Sizes,
    ) -> Result<(), LineError>
        ensures opened { OnOk result (built walk.new.nodes ≡
            opened (built walk.old.nodes) rule variables.items (W.credits credits.now)) }
        ensures kept { OnOk result (total walk.new ≡ total walk.old) }
        ensures short { result ≡ Err TooLong → walk.old.room < length variables.items + 1 }
        ensures next { walk.new.next ≡ walk.old.next }
    {
        walk.room = walk
            .room
            .checked_sub(variables.len())
            .ok_or(LineError::TooLong)?;
        walk.room = walk.room.checked_sub(1).ok_or(LineError::TooLong)?;
        let credits = credits_of(self.alloc, credits)?;
        walk.nodes.open(rule, variables, credits)?;
        Ok(())
    }

    // A node of these variables and credits, below one that weakens where more is there: how many nodes were opened.
    fn open_asked(
        &self,
        walk: &mut Walk,
        rule: RuleName,
        there: Owned,
        variables: Vec<usize>,
        need: &Sizes,
    ) -> Result<usize, LineError>
        ensures awaits { IfOk result (λ n. Awaits n (built walk.old.nodes) (built walk.new.nodes)
            (W.node rule (holding there) variables.items need.now)) }
        ensures few { IfOk result (λ n. n ≤ 2) }
        ensures kept { OnOk result (total walk.new ≡ total walk.old) }
        ensures short { result ≡ Err TooLong → (ts : Trees) →
            walk.old.room < cost (W.node rule (holding there) variables.items need.now ts) }
        ensures next { walk.new.next ≡ walk.old.next }
    {
        if variables.len() == there.variables.len() && are_same(&there.credits, need) {
            self.open(walk, rule, variables, need)?;
            return Ok(1);
        }
        self.open(walk, RuleName::Weaken, there.variables, &there.credits)?;
        self.open(walk, rule, variables, need)?;
        Ok(2)
    }

    // The node of the next expression: how many nodes were opened.
    fn begin(&self, walk: &mut Walk, rule: RuleName, there: Owned) -> Result<usize, LineError>
        ensures awaits { IfOk result (λ n. Awaits n (built walk.old.nodes) (built walk.new.nodes)
            (W.begun (guided self.now) walk.old.next rule (holding there))) }
        ensures kept { OnOk result (total walk.new ≡ total walk.old) }
        ensures short { result ≡ Err TooLong → (ts : Trees) →
            walk.old.room < cost (W.begun (guided self.now) walk.old.next rule (holding there) ts) }
        ensures next { OnOk result (walk.new.next ≡ walk.old.next + 1) }
    {
        let asked = self.enter(walk)?;
        let variables = self.those_in(&there.variables, &asked)?;
        self.open_asked(walk, rule, there, variables, &asked.need)
    }

    // Those of the variables that are asked for.
    fn those_in(&self, variables: &[usize], asked: &Asked) -> Result<Vec<usize>, NoMemory>
        ensures { IfOk result (λ v. v.items ≡ W.those (guided self.now) (asking asked.now) variables.now) }
    {
        let mut found = Vec::new(self.alloc);
        for number in variables {
            if self.uses.occurs(*number, asked.first, asked.end) {
                found.push(*number)?;
            }
        }
        Ok(found)
    }

    // Those that are used up in what is bound, or those that aren't.
    fn used_in(&self, variables: &[usize], bound: &Asked) -> Result<Vec<usize>, NoMemory>
        ensures { IfOk result (λ v. v.items ≡ W.used (guided self.now) (asking bound.now) variables.now) }
    {
        let mut found = Vec::new(self.alloc);
        for number in variables {
            if self.uses.is_used(*number, bound.first, bound.end) {
                found.push(*number)?;
            }
        }
        Ok(found)
    }

    fn unused_in(&self, variables: &[usize], bound: &Asked) -> Result<Vec<usize>, NoMemory>
        ensures { IfOk result (λ v. v.items ≡ W.unused (guided self.now) (asking bound.now) variables.now) }
    {
        let mut found = Vec::new(self.alloc);
        for number in variables {
            if !self.uses.is_used(*number, bound.first, bound.end) {
                found.push(*number)?;
            }
        }
        Ok(found)
    }

    // The variable of a binder joins the others where it isn't scalar.
    fn bind(&self, variables: &mut Vec<usize>, binder: usize, ty: u32) -> Result<(), NoMemory>
        ensures { OnOk result (variables.new.items ≡ W.bound (guided self.now) variables.old.items binder ty) }
    {
        if !self.context.is_scalar(ty) {
            variables.push(self.uses.number_of(binder))?;
        }
        Ok(())
    }

    fn bind_all(&self, variables: &mut Vec<usize>, binders: &[Binder]) -> Result<(), NoMemory>
        ensures { OnOk result (variables.new.items ≡
            W.bound_all (guided self.now) variables.old.items binders.now) }
    {
        for binder in binders {
            self.bind(variables, binder.number, binder.ty)?;
        }
        Ok(())
    }

    #[cycle(pattern)]
    fn bind_pattern(&self, variables: &mut Vec<usize>, pattern: &Pattern) -> Result<(), NoMemory>
        ensures { OnOk result (variables.new.items ≡
            W.bound_pattern (guided self.now) variables.old.items (V.pattern pattern.now)) }
    {
        match pattern {
            Pattern::Binder(binder) => self.bind(variables, binder.number, binder.ty),
            Pattern::Literal { .. } => Ok(()),
            Pattern::Constructor { patterns, .. } => self.bind_patterns(variables, patterns),
        }
    }

    #[cycle(pattern)]
    fn bind_patterns(
        &self,
        variables: &mut Vec<usize>,
        patterns: &[Pattern],
    ) -> Result<(), NoMemory>
        ensures { OnOk result (variables.new.items ≡
            W.bound_patterns (guided self.now) variables.old.items (V.patterns patterns.now)) }
    {
        for pattern in patterns {
            self.bind_pattern(variables, pattern)?;
        }
        Ok(())
    }

    #[cycle(block)]
    fn block(&self, walk: &mut Walk, block: &Block, owned: Owned) -> Result<(), LineError>
        ensures grows { OnOk result (built walk.new.nodes ≡ grown (built walk.old.nodes)
            (W.walked_block (guided self.now) walk.old.next (holding owned) (V.block block.now))) }
        ensures kept { OnOk result (total walk.new ≡ total walk.old) }
        ensures short { result ≡ Err TooLong → walk.old.room < cost
            (W.walked_block (guided self.now) walk.old.next (holding owned) (V.block block.now)) }
        ensures next { OnOk result (walk.new.next ≡ walk.old.next + (W.size_parts (V.block block.now) + 1)) }
    {
        let asked = self.enter(walk)?;
        self.parts(walk, block, asked, owned.variables, owned.credits)?;
        Ok(())
    }

    // What a block binds, and its last expression; it asks for so much.
    #[cycle(block)]
    fn parts(
        &self,
        walk: &mut Walk,
        block: &Block,
        asked: Asked,
        variables: Vec<usize>,
        credits: Sizes,
    ) -> Result<(), LineError>
        ensures grows { OnOk result (built walk.new.nodes ≡ grown (built walk.old.nodes)
            (W.walked_parts (guided self.now) walk.old.next
            record { variables = variables.items; credits = credits } (asking asked) (V.block block.now))) }
        ensures kept { OnOk result (total walk.new ≡ total walk.old) }
        ensures short { result ≡ Err TooLong → walk.old.room < cost
            (W.walked_parts (guided self.now) walk.old.next
            record { variables = variables.items; credits = credits } (asking asked) (V.block block.now)) }
        ensures next { OnOk result (walk.new.next ≡ walk.old.next + W.size_parts (V.block block.now)) }
    {
        let mut numbers = variables;
        let mut sizes = credits;
        let mut first = asked.first;
        let mut need = asked.need;
        let mut opened: usize = 0;
        for binding in &block.bindings {
            let whole = Asked {
                first,
                end: asked.end,
                need,
            };
            let bound = self.asked_by(walk.next);
            let there = Owned {
                variables: numbers,
                credits: sizes,
            };
            let (nodes, left) = self.binding(walk, binding, there, &whole, &bound)?;
            numbers = left.variables;
            sizes = left.credits;
            first = bound.end;
            need = left.credits;
            opened += nodes;
        }
        let there = Owned {
            variables: numbers,
            credits: sizes,
        };
        self.expression(walk, &block.last, there)?;
        close(walk, opened);
        Ok(())
    }

    // A binding of a block that asks for so much, where what it binds asks for so much: how many nodes were opened,
    // and what is there for the rest.
    #[cycle(block)]
    fn binding(
        &self,
        walk: &mut Walk,
        binding: &Binding,
        there: Owned,
        asked: &Asked,
        bound: &Asked,
    ) -> Result<(usize, Owned), LineError>
        ensures awaits { IfOk result (λ r. AwaitsOne r.0 (built walk.old.nodes) (built walk.new.nodes)
            (W.let_node (guided self.now) walk.old.next (holding there) (asking asked.now) (asking bound.now)
            (V.binding binding.now).bound)) }
        ensures few { IfOk result (λ r. r.0 ≤ 2) }
        ensures kept { OnOk result (total walk.new ≡ total walk.old) }
        ensures short { result ≡ Err TooLong → (t : Tree) → walk.old.room < cost
            (W.let_node (guided self.now) walk.old.next (holding there) (asking asked.now) (asking bound.now)
            (V.binding binding.now).bound t) }
        ensures rest { IfOk result (λ r. holding r.1 ≡ W.rest_owned (guided self.now) (asking asked.now)
            (asking bound.now) (holding there) (V.binding binding.now).binders) }
        ensures next { OnOk result (walk.new.next ≡ walk.old.next + W.size (V.binding binding.now).bound) }
    {
        let variables = self.those_in(&there.variables, asked)?;
        let used = self.used_in(&variables, bound)?;
        let mut left = self.unused_in(&variables, bound)?;
        self.bind_all(&mut left, &binding.binders)?;
        let nodes = self.open_asked(walk, RuleName::Let, there, variables, &asked.need)?;
        let mut credits = asked.need;
        credits.less(&bound.need);
        self.expression(
            walk,
            &binding.bound,
            Owned {
                variables: used,
                credits: bound.need,
            },
        )?;
        Ok((
            nodes,
            Owned {
                variables: left,
                credits,
            },
        ))
    }

    #[cycle(block)]
    fn expression(
        &self,
        walk: &mut Walk,
        expression: &Expression,
        owned: Owned,
    ) -> Result<(), LineError>
        ensures grows { OnOk result (built walk.new.nodes ≡ grown (built walk.old.nodes)
            (W.walked (guided self.now) walk.old.next (holding owned) (V.expression expression.now))) }
        ensures kept { OnOk result (total walk.new ≡ total walk.old) }
        ensures short { result ≡ Err TooLong → walk.old.room < cost
            (W.walked (guided self.now) walk.old.next (holding owned) (V.expression expression.now)) }
        ensures next { OnOk result (walk.new.next ≡ walk.old.next + W.size (V.expression expression.now)) }
    {
        match expression {
            Expression::Give(argument) => self.give(walk, argument, owned),
            Expression::Tuple { arguments, .. } => self.tuple(walk, arguments, owned),
            Expression::Operation { .. } => self.operation(walk, owned),
            Expression::Call {
                callee,
                arguments,
                ..
            } => self.call(walk, *callee, arguments, owned),
            Expression::Match {
                kind,
                ty,
                scrutinee,
                first,
                others,
                ..
            } => {
                let is_taken = self.context.takes(*kind, *ty);
                let binder = binder_of(scrutinee);
                let asked = self.enter(walk)?;
                let variables = self.those_in(&owned.variables, &asked)?;
                let has = Vec::from_slice(self.alloc, &variables)?;
                let opened = self.open_asked(walk, match_rule(is_taken), owned, has, &asked.need)?;
                self.clause(walk, is_taken, binder, &variables, &asked.need, first)?;
                self.clauses(walk, is_taken, binder, &variables, &asked.need, others)?;
                close(walk, opened);
                Ok(())
            }
            Expression::Nested(nested) => self.block(walk, nested, owned),
        }
    }

    // An operation has no parts.
    fn operation(&self, walk: &mut Walk, owned: Owned) -> Result<(), LineError>
        ensures grows { OnOk result (built walk.new.nodes ≡ grown (built walk.old.nodes)
            (W.begun (guided self.now) walk.old.next RuleName.Scalar (holding owned) NoTrees)) }
        ensures kept { OnOk result (total walk.new ≡ total walk.old) }
        ensures short { result ≡ Err TooLong → walk.old.room < cost
            (W.begun (guided self.now) walk.old.next RuleName.Scalar (holding owned) NoTrees) }
        ensures next { OnOk result (walk.new.next ≡ walk.old.next + 1) }
    {
        let opened = self.begin(walk, RuleName::Scalar, owned)?;
        close(walk, opened);
        Ok(())
    }

    fn tuple(&self, walk: &mut Walk, arguments: &[Argument], owned: Owned) -> Result<(), LineError>
        ensures grows { OnOk result (built walk.new.nodes ≡ grown (built walk.old.nodes)
            (W.begun (guided self.now) walk.old.next RuleName.Tuple (holding owned)
            (W.values (guided self.now) (V.arguments arguments.now)))) }
        ensures kept { OnOk result (total walk.new ≡ total walk.old) }
        ensures short { result ≡ Err TooLong → walk.old.room < cost
            (W.begun (guided self.now) walk.old.next RuleName.Tuple (holding owned)
            (W.values (guided self.now) (V.arguments arguments.now))) }
        ensures next { OnOk result (walk.new.next ≡ walk.old.next + 1) }
    {
        let opened = self.begin(walk, RuleName::Tuple, owned)?;
        self.values(walk, arguments)?;
        close(walk, opened);
        Ok(())
    }

    // A clause of a match that has these variables and credits, where it takes its scrutinee apart or not.
    #[cycle(block)]
    fn clause(
        &self,
        walk: &mut Walk,
        is_taken: bool,
        binder: Option<usize>,
        variables: &[usize],
        credits: &Sizes,
        clause: &Clause,
    ) -> Result<(), LineError>
        ensures grows { OnOk result (built walk.new.nodes ≡ grown (built walk.old.nodes)
            (W.walked_clause (guided self.now) walk.old.next is_taken binder
            record { variables = variables.now; credits = credits.now } (V.clause clause.now))) }
        ensures kept { OnOk result (total walk.new ≡ total walk.old) }
        ensures short { result ≡ Err TooLong → walk.old.room < cost
            (W.walked_clause (guided self.now) walk.old.next is_taken binder
            record { variables = variables.now; credits = credits.now } (V.clause clause.now)) }
        ensures next { OnOk result (walk.new.next ≡
            walk.old.next + (W.size_parts (V.clause clause.now).body + 1)) }
    {
        let owned = self.clause_owned(is_taken, binder, variables, credits, &clause.pattern)?;
        self.block(walk, &clause.body, owned)
    }

    fn clause_owned(
        &self,
        is_taken: bool,
        binder: Option<usize>,
        variables: &[usize],
        credits: &Sizes,
        pattern: &Pattern,
    ) -> Result<Owned, NoMemory>
        ensures { IfOk result (λ o. holding o ≡ W.clause_owned (guided self.now) is_taken
            binder record { variables = variables.now; credits = credits.now }
            (V.pattern pattern.now)) }
    {
        if !is_taken {
            return Ok(Owned {
                variables: Vec::from_slice(self.alloc, variables)?,
                credits: *credits,
            });
        }
        let mut left = self.all_but(binder, variables)?;
        self.bind_pattern(&mut left, pattern)?;
        let mut sizes = *credits;
        add_pattern(&mut sizes, pattern)?;
        Ok(Owned {
            variables: left,
            credits: sizes,
        })
    }

    // The variables but for that of a binder.
    fn all_but(&self, binder: Option<usize>, variables: &[usize]) -> Result<Vec<usize>, NoMemory>
        ensures { IfOk result (λ v. v.items ≡
            filter (λ n. not (W.is_scrutinee (guided self.now) n binder)) variables.now) }
    {
        let mut found = Vec::new(self.alloc);
        for number in variables {
            if !self.is_scrutinee(*number, binder) {
                found.push(*number)?;
            }
        }
        Ok(found)
    }

    fn is_scrutinee(&self, number: usize, binder: Option<usize>) -> bool
        ensures { result ≡ W.is_scrutinee (guided self.now) number binder }
    {
        match binder {
            None => false,
            Some(binder) => self.uses.is_bound_by(number, binder),
        }
    }

    #[cycle(block)]
    fn clauses(
        &self,
        walk: &mut Walk,
        is_taken: bool,
        binder: Option<usize>,
        variables: &[usize],
        credits: &Sizes,
        clauses: &[Clause],
    ) -> Result<(), LineError>
        ensures grows { OnOk result (built walk.new.nodes ≡ grown_all (built walk.old.nodes)
            (W.walked_clauses (guided self.now) walk.old.next is_taken binder
            record { variables = variables.now; credits = credits.now } (V.clauses clauses.now))) }
        ensures kept { OnOk result (total walk.new ≡ total walk.old) }
        ensures short { result ≡ Err TooLong → walk.old.room < cost_all
            (W.walked_clauses (guided self.now) walk.old.next is_taken binder
            record { variables = variables.now; credits = credits.now } (V.clauses clauses.now)) }
        ensures next { OnOk result (walk.new.next ≡ walk.old.next + W.size_clauses (V.clauses clauses.now)) }
    {
        for next in clauses {
            self.clause(walk, is_taken, binder, variables, credits, next)?;
        }
        Ok(())
    }

    fn call(
        &self,
        walk: &mut Walk,
        callee: u32,
        arguments: &[Argument],
        owned: Owned,
    ) -> Result<(), LineError>
        ensures grows { OnOk result (built walk.new.nodes ≡ grown (built walk.old.nodes)
            (W.begun (guided self.now) walk.old.next RuleName.Call (holding owned)
            (W.passed (guided self.now) (W.params_of (slice_get (guided self.now).world.instances callee))
            (V.arguments arguments.now)))) }
        ensures kept { OnOk result (total walk.new ≡ total walk.old) }
        ensures short { result ≡ Err TooLong → walk.old.room < cost
            (W.begun (guided self.now) walk.old.next RuleName.Call (holding owned)
            (W.passed (guided self.now) (W.params_of (slice_get (guided self.now).world.instances callee))
            (V.arguments arguments.now))) }
        ensures next { OnOk result (walk.new.next ≡ walk.old.next + 1) }
    {
        let opened = self.begin(walk, RuleName::Call, owned)?;
        self.passed_to(walk, callee, arguments)?;
        close(walk, opened);
        Ok(())
    }

    fn passed_to(
        &self,
        walk: &mut Walk,
        callee: u32,
        arguments: &[Argument],
    ) -> Result<(), LineError>
        ensures grows { OnOk result (built walk.new.nodes ≡ grown_all (built walk.old.nodes)
            (W.passed (guided self.now) (W.params_of (slice_get (guided self.now).world.instances callee))
            (V.arguments arguments.now))) }
        ensures kept { OnOk result (total walk.new ≡ total walk.old) }
        ensures short { result ≡ Err TooLong → walk.old.room < cost_all
            (W.passed (guided self.now) (W.params_of (slice_get (guided self.now).world.instances callee))
            (V.arguments arguments.now)) }
        ensures next { walk.new.next ≡ walk.old.next }
    {
        match self.context.program.instances.get(callee as usize) {
            None => Ok(()),
            Some(instance) => self.passed(walk, arguments, instance.params.as_slice()),
        }
    }

    // The arguments of a call in owned positions that aren't scalar.
    fn passed(
        &self,
        walk: &mut Walk,
        arguments: &[Argument],
        params: &[Param],
    ) -> Result<(), LineError>
        ensures grows { OnOk result (built walk.new.nodes ≡ grown_all (built walk.old.nodes)
            (W.passed (guided self.now) params.now (V.arguments arguments.now))) }
        ensures kept { OnOk result (total walk.new ≡ total walk.old) }
        ensures short { result ≡ Err TooLong → walk.old.room < cost_all
            (W.passed (guided self.now) params.now (V.arguments arguments.now)) }
        ensures next { walk.new.next ≡ walk.old.next }
    {
        let mut place: usize = 0;
        for argument in arguments {
            match params.get(place) {
                None => return Ok(()),
                Some(param) => {
                    if !(self.context.is_scalar(param.ty) || param.lent) {
                        self.value(walk, argument)?;
                    }
                }
            }
            place += 1;
        }
        Ok(())
    }

    // An argument as a result, of what is there.
    fn give(&self, walk: &mut Walk, argument: &Argument, owned: Owned) -> Result<(), LineError>
        ensures grows { OnOk result (built walk.new.nodes ≡ grown (built walk.old.nodes)
            (W.begun (guided self.now) walk.old.next (W.rule_of (guided self.now) (V.argument argument.now))
            (holding owned) (W.fields (guided self.now) (V.argument argument.now)))) }
        ensures kept { OnOk result (total walk.new ≡ total walk.old) }
        ensures short { result ≡ Err TooLong → walk.old.room < cost
            (W.begun (guided self.now) walk.old.next (W.rule_of (guided self.now) (V.argument argument.now))
            (holding owned) (W.fields (guided self.now) (V.argument argument.now))) }
        ensures next { OnOk result (walk.new.next ≡ walk.old.next + 1) }
    {
        let opened = self.begin(walk, self.rule_of(argument), owned)?;
        self.fields(walk, argument)?;
        close(walk, opened);
        Ok(())
    }

    // The fields of a constructor.
    #[cycle(argument)]
    fn fields(&self, walk: &mut Walk, argument: &Argument) -> Result<(), LineError>
        ensures grows { OnOk result (built walk.new.nodes ≡ grown_all (built walk.old.nodes)
            (W.fields (guided self.now) (V.argument argument.now))) }
        ensures kept { OnOk result (total walk.new ≡ total walk.old) }
        ensures short { result ≡ Err TooLong → walk.old.room < cost_all
            (W.fields (guided self.now) (V.argument argument.now)) }
        ensures next { walk.new.next ≡ walk.old.next }
    {
        match argument {
            Argument::Variable { .. } => Ok(()),
            Argument::Literal { .. } => Ok(()),
            Argument::Constructor { arguments, .. } => self.values(walk, arguments),
        }
    }

    // The rule by which an argument is derived.
    fn rule_of(&self, argument: &Argument) -> RuleName
        ensures { result ≡ W.rule_of (guided self.now) (V.argument argument.now) }
    {
        match argument {
            Argument::Variable { binder, .. } => self.rule_of_variable(*binder),
            Argument::Literal { .. } => RuleName::Scalar,
            Argument::Constructor { arguments, .. } => {
                if arguments.is_empty() {
                    RuleName::Atom
                } else {
                    RuleName::Reuse
                }
            }
        }
    }

    fn rule_of_variable(&self, binder: Option<usize>) -> RuleName
        ensures { result ≡ W.rule_of_variable (guided self.now) binder }
    {
        match binder {
            None => RuleName::Scalar,
            Some(binder) => {
                if self.uses.is_scalar(self.uses.number_of(binder)) {
                    RuleName::Scalar
                } else {
                    RuleName::Variable
                }
            }
        }
    }

    // Each argument uses up its own variables and credits.
    #[cycle(argument)]
    fn values(&self, walk: &mut Walk, arguments: &[Argument]) -> Result<(), LineError>
        ensures grows { OnOk result (built walk.new.nodes ≡ grown_all (built walk.old.nodes)
            (W.values (guided self.now) (V.arguments arguments.now))) }
        ensures kept { OnOk result (total walk.new ≡ total walk.old) }
        ensures short { result ≡ Err TooLong → walk.old.room < cost_all
            (W.values (guided self.now) (V.arguments arguments.now)) }
        ensures next { walk.new.next ≡ walk.old.next }
    {
        for argument in arguments {
            self.value(walk, argument)?;
        }
        Ok(())
    }

    #[cycle(argument)]
    fn value(&self, walk: &mut Walk, argument: &Argument) -> Result<(), LineError>
        ensures grows { OnOk result (built walk.new.nodes ≡ grown (built walk.old.nodes)
            (W.value (guided self.now) (V.argument argument.now))) }
        ensures kept { OnOk result (total walk.new ≡ total walk.old) }
        ensures short { result ≡ Err TooLong → walk.old.room < cost
            (W.value (guided self.now) (V.argument argument.now)) }
        ensures next { walk.new.next ≡ walk.old.next }
    {
        let variables = self.owning(argument)?;
        let mut credits = Sizes::none();
        add_argument(&mut credits, argument)?;
        self.open(walk, self.rule_of(argument), variables, &credits)?;
        self.fields(walk, argument)?;
        close(walk, 1);
        Ok(())
    }

    // The variables of an argument that aren't scalar, rising.
    fn owning(&self, argument: &Argument) -> Result<Vec<usize>, NoMemory>
        ensures { IfOk result (λ v. v.items ≡
            W.sorted (W.owning (guided self.now) [] (V.argument argument.now))) }
    {
        let mut variables = Vec::new(self.alloc);
        self.add_owning(&mut variables, argument)?;
        variables.sort_unstable();
        Ok(variables)
    }

    // Adds the variables of an argument that aren't scalar.
    #[cycle(owning)]
    fn add_owning(&self, variables: &mut Vec<usize>, argument: &Argument) -> Result<(), NoMemory>
        ensures { OnOk result (variables.new.items ≡
            W.owning (guided self.now) variables.old.items (V.argument argument.now)) }
    {
        match argument {
            Argument::Variable { binder, .. } => self.add_variable(variables, *binder),
            Argument::Literal { .. } => Ok(()),
            Argument::Constructor { arguments, .. } => self.add_all_owning(variables, arguments),
        }
    }

    #[cycle(owning)]
    fn add_all_owning(
        &self,
        variables: &mut Vec<usize>,
        arguments: &[Argument],
    ) -> Result<(), NoMemory>
        ensures { OnOk result (variables.new.items ≡
            W.owning_all (guided self.now) variables.old.items (V.arguments arguments.now)) }
    {
        for argument in arguments {
            self.add_owning(variables, argument)?;
        }
        Ok(())
    }

    fn add_variable(
        &self,
        variables: &mut Vec<usize>,
        binder: Option<usize>,
    ) -> Result<(), NoMemory>
        ensures { OnOk result (variables.new.items ≡
            W.owning_variable (guided self.now) variables.old.items binder) }
    {
        if let Some(binder) = binder {
            let number = self.uses.number_of(binder);
            if !self.uses.is_scalar(number) {
                variables.push(number)?;
            }
        }
        Ok(())
    }
}

// The binder of a scrutinee, which is a variable.
fn binder_of(scrutinee: &Argument) -> Option<usize>
    ensures { result ≡ W.binder_of (V.argument scrutinee.now) }
{
    match scrutinee {
        Argument::Variable { binder, .. } => *binder,
        Argument::Literal { .. } => None,
        Argument::Constructor { .. } => None,
    }
}

// The rule of a match that takes its scrutinee apart, or doesn't.
fn match_rule(is_taken: bool) -> RuleName
    ensures { result ≡ W.match_rule is_taken }
{
    if is_taken {
        RuleName::TakingMatch
    } else {
        RuleName::Match
    }
}

// So many nodes have all their parts.
fn close(walk: &mut Walk, nodes: usize)
    ensures closed { built walk.new.nodes ≡ closed_times nodes (built walk.old.nodes) }
    ensures room { walk.new.room ≡ walk.old.room }
    ensures next { walk.new.next ≡ walk.old.next }
{
    for i in 0..nodes {
        walk.nodes.close();
    }
}
