// The registers of an instance.
ghost use Rattle.std.specs.Prelude.{◌≡◌, ◌+◌, IfOk, OnOk};
ghost use Rattle.fip_trees.specs.TreeView as V;
ghost use Rattle.tail_groups.specs.Registers.{in_argument, in_arguments, in_pattern, in_patterns, in_expression};
ghost use Rattle.tail_groups.specs.Registers.{in_block};
ghost use Rattle.tail_groups.specs.Registers.{in_clauses};
ghost use Rattle.tail_groups.specs.Registers as R;

use fip_base::plain::NoMemory;
use fip_trees::program::{Argument, Block, Clause, Expression, Instance, Pattern};

/// The registers of an instance: its parameters, its header's credits, the binders of its body, and the constructors
/// and literals there, in expressions and in patterns. NoMemory: it is too large to be held in memory.
pub fn registers(instance: &Instance) -> Result<usize, NoMemory>
    ensures counted { IfOk result (λ n. n ≡ R.registers (V.instance_of instance.now)) }
{
    let mut count = Count { number: 0 };
    count.add(instance.params.as_slice().len())?;
    count.add(instance.credits.len())?;
    count.block(&instance.body)?;
    Ok(count.number)
}

// How many were counted.
#[derive(Clone, Copy)]
struct Count {
    number: usize,
}

impl Count {
    fn add(&mut self, more: usize) -> Result<(), NoMemory>
        ensures { OnOk result (self.new.number ≡ self.old.number + more) }
    {
        self.number = self.number.checked_add(more).ok_or(NoMemory)?;
        Ok(())
    }

    #[cycle(block)]
    fn block(&mut self, block: &Block) -> Result<(), NoMemory>
        ensures { OnOk result (self.new.number ≡ self.old.number + in_block (V.block block.now)) }
    {
        for binding in &block.bindings {
            self.add(binding.binders.len())?;
            self.expression(&binding.bound)?;
        }
        self.expression(&block.last)
    }

    #[cycle(block)]
    fn expression(&mut self, expression: &Expression) -> Result<(), NoMemory>
        ensures { OnOk result (self.new.number ≡ self.old.number + in_expression (V.expression expression.now)) }
    {
        match expression {
            Expression::Give(argument) => self.argument(argument),
            Expression::Tuple { arguments, .. } => self.arguments(arguments),
            Expression::Operation { left, right, .. } => {
                self.argument(left)?;
                self.argument(right)
            }
            Expression::Call { arguments, .. } => self.arguments(arguments),
            Expression::Match { first, others, .. } => {
                self.clause(first)?;
                self.clauses(others)
            }
            Expression::Nested(block) => self.block(block),
        }
    }

    #[cycle(block)]
    fn clauses(&mut self, clauses: &[Clause]) -> Result<(), NoMemory>
        ensures { OnOk result (self.new.number ≡ self.old.number + in_clauses (V.clauses clauses.now)) }
    {
        for next in clauses {
            self.clause(next)?;
        }
        Ok(())
    }

    #[cycle(block)]
    fn clause(&mut self, clause: &Clause) -> Result<(), NoMemory>
        ensures { OnOk result (self.new.number ≡ self.old.number
            + (in_pattern (V.clause clause.now).pattern + in_block (V.clause clause.now).body)) }
    {
        self.pattern(&clause.pattern)?;
        self.block(&clause.body)
    }

    #[cycle(argument)]
    fn arguments(&mut self, arguments: &[Argument]) -> Result<(), NoMemory>
        ensures { OnOk result (self.new.number ≡ self.old.number + in_arguments (V.arguments arguments.now)) }
    {
        for argument in arguments {
            self.argument(argument)?;
        }
        Ok(())
    }

    #[cycle(argument)]
    fn argument(&mut self, argument: &Argument) -> Result<(), NoMemory>
        ensures { OnOk result (self.new.number ≡ self.old.number + in_argument (V.argument argument.now)) }
    {
        match argument {
            Argument::Variable { .. } => Ok(()),
            Argument::Literal { .. } => self.add(1),
            Argument::Constructor { arguments, .. } => {
                self.add(1)?;
                self.arguments(arguments)
            }
        }
    }

    #[cycle(pattern)]
    fn patterns(&mut self, patterns: &[Pattern]) -> Result<(), NoMemory>
        ensures { OnOk result (self.new.number ≡ self.old.number + in_patterns (V.patterns patterns.now)) }
    {
        for pattern in patterns {
            self.pattern(pattern)?;
        }
        Ok(())
    }

    #[cycle(pattern)]
    fn pattern(&mut self, pattern: &Pattern) -> Result<(), NoMemory>
        ensures { OnOk result (self.new.number ≡ self.old.number + in_pattern (V.pattern pattern.now)) }
    {
        match pattern {
            Pattern::Binder(_) => self.add(1),
            Pattern::Literal { .. } => self.add(1),
            Pattern::Constructor { patterns, .. } => {
                self.add(1)?;
                self.patterns(patterns)
            }
        }
    }
}
