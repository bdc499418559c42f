// Marks of registers: which trees an expression may use up.
ghost use Rattle.std.specs.Prelude.{◌≡◌, true, IfSome, IfNone, None, Some, slice_get, slice_set};
ghost use Rattle.fip_trees.specs.TreeView as V;
ghost use Rattle.lower_parts.specs.lowering_relation.Uses.{takes_of};
ghost use Rattle.lower_parts.specs.Marks.{is_marked, marking, marking_all, marking_block, marking_clauses, marking_if};
ghost use Rattle.lower_parts.specs.Marks.{marking_in, marking_passed};
ghost use Rattle.lower_parts.specs.Writing.{setting};

use crate::lowerer::{Lowerer, is_destructive};
use fip_trees::program::{Argument, Block, Clause, Expression, Instance};

impl<'a> Lowerer<'a> {
    /// Marks the registers of the variables that a block may use up.
    pub fn used_in(&self, marks: &mut Vec<bool>, block: &Block)
        ensures marked { marks.new.items ≡ marking_block self.now.frame.names (setting self.now.context.now).instances
            (V.block block.now) marks.old.items }
    {
        self.mark_block(marks, block)
    }

    #[cycle(used)]
    fn mark_block(&self, marks: &mut Vec<bool>, block: &Block)
        ensures marked { marks.new.items ≡ marking_block self.now.frame.names (setting self.now.context.now).instances
            (V.block block.now) marks.old.items }
    {
        for binding in &block.bindings {
            self.mark_expression(marks, &binding.bound);
        }
        self.mark_expression(marks, &block.last)
    }

    #[cycle(used)]
    fn mark_expression(&self, marks: &mut Vec<bool>, expression: &Expression)
        ensures marked { marks.new.items ≡ marking_in self.now.frame.names (setting self.now.context.now).instances
            (V.expression expression.now) marks.old.items }
    {
        match expression {
            Expression::Give(argument) => self.mark(marks, argument),
            Expression::Tuple { arguments, .. } => self.mark_all(marks, arguments.as_slice()),
            // Operators are applied to ints, which nobody owns.
            Expression::Operation { .. } => {}
            Expression::Call {
                callee,
                arguments,
                ..
            } => self.mark_call(marks, *callee, arguments.as_slice()),
            Expression::Match {
                kind,
                scrutinee,
                first,
                others,
                ..
            } => {
                self.mark_if(marks, is_destructive(*kind), scrutinee);
                self.mark_block(marks, &first.body);
                self.mark_clauses(marks, others.as_slice())
            }
            Expression::Nested(block) => self.mark_block(marks, block),
        }
    }

    /// Marks the registers of the variables that clauses may use up.
    #[cycle(used)]
    pub fn mark_clauses(&self, marks: &mut Vec<bool>, clauses: &[Clause])
        ensures marked { marks.new.items ≡ marking_clauses self.now.frame.names
            (setting self.now.context.now).instances (V.clauses clauses.now) marks.old.items }
    {
        for clause in clauses {
            self.mark_block(marks, &clause.body);
        }
    }

    // A call may use up what it doesn't only lend.
    fn mark_call(&self, marks: &mut Vec<bool>, callee: u32, arguments: &[Argument])
        ensures marked { marks.new.items ≡ marking_passed self.now.frame.names
            (slice_get (setting self.now.context.now).instances callee) 0 (V.arguments arguments.now) marks.old.items }
    {
        match self.context.program.instances.get(callee as usize) {
            None => {}
            Some(instance) => self.mark_passed(marks, instance, arguments),
        }
    }

    fn mark_passed(&self, marks: &mut Vec<bool>, instance: &Instance, arguments: &[Argument])
        ensures marked { marks.new.items ≡ marking_passed self.now.frame.names (Some (V.instance_of instance.now)) 0
            (V.arguments arguments.now) marks.old.items }
    {
        let mut place = 0;
        for argument in arguments {
            self.mark_if(marks, takes(instance, place), argument);
            place += 1;
        }
    }

    /// Marks the registers of the variables of an argument, where it is used up.
    pub fn mark_if(&self, marks: &mut Vec<bool>, used: bool, argument: &Argument)
        ensures marked { marks.new.items ≡ marking_if self.now.frame.names used (V.argument argument.now)
            marks.old.items }
    {
        if used {
            self.mark(marks, argument);
        }
    }

    #[cycle(marking)]
    fn mark_all(&self, marks: &mut Vec<bool>, arguments: &[Argument])
        ensures marked { marks.new.items ≡ marking_all self.now.frame.names (V.arguments arguments.now)
            marks.old.items }
    {
        for argument in arguments {
            self.mark(marks, argument);
        }
    }

    // Marks the registers of the variables of an argument.
    #[cycle(marking)]
    fn mark(&self, marks: &mut Vec<bool>, argument: &Argument)
        ensures marked { marks.new.items ≡ marking self.now.frame.names (V.argument argument.now) marks.old.items }
    {
        match argument {
            Argument::Variable { binder, .. } => {
                if let Some(register) = self.frame.register_of(*binder) {
                    set_mark(marks, register);
                }
            }
            Argument::Literal { .. } => {}
            Argument::Constructor { arguments, .. } => self.mark_all(marks, arguments.as_slice()),
        }
    }
}

// Whether a call uses up what it is passed in a place.
fn takes(instance: &Instance, place: usize) -> bool
    ensures { result ≡ takes_of (Some (V.instance_of instance.now)) place }
{
    match instance.params.as_slice().get(place) {
        None => false,
        Some(param) => !param.lent,
    }
}

fn set_mark(marks: &mut Vec<bool>, register: u16)
    ensures { marks.new.items ≡ slice_set marks.old.items register true }
{
    if let Some(place) = marks.get_mut(register as usize) {
        *place = true;
    }
}

/// Whether a register is marked.
pub fn is_marked(marks: &[bool], register: u16) -> bool
    ensures { result ≡ is_marked marks.now register }
{
    match marks.get(register as usize) {
        None => false,
        Some(mark) => *mark,
    }
}
