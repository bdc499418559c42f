// Bodies of functions.
ghost use Rattle.std.specs.Prelude.{◌≡◌, ◌≤◌, ◌<◌, ◌+◌, ℕ, suc, not, IfOk, OnOk, drop, length, slice_get};
ghost use Rattle.fip_trees.specs.Tree as T;
ghost use Rattle.fip_trees.specs.TreeView as V;
ghost use Rattle.lower_parts.specs.lowering_relation.LoweredBodies as B;
ghost use Rattle.lower_parts.specs.lowering_relation.WellMatched.{WellMatched, WellMatchedBlock};
ghost use Rattle.lower_parts.specs.lower_frame.Registers.{HasRoom};
ghost use Rattle.lower_parts.specs.Bodies.{span, span_block, span_clauses, Asked, AskedBlock, AskedClauses};
ghost use Rattle.lower_parts.specs.Bodies.{Lays, LaysBlock, LaysLet};
ghost use Rattle.lower_parts.specs.Clauses.{WritesClause, WritesClauses};
ghost use Rattle.lower_parts.specs.Laying.{AppliedLaid, AppliesLaid, GivesValuesLaid};
ghost use Rattle.lower_parts.specs.Matches.{ClauseLays, ClausesLay};
ghost use Rattle.lower_parts.specs.Scenes.{IsWhole};
ghost use Rattle.lower_parts.specs.Writing.{setting, target_of, named_at, AppliesTo, Binds, GivesValues, Writes};
ghost use Rattle.lower_parts.specs.Writing.{WritesBlock};

use crate::calls::Applied;
use crate::lowerer::{Lowerer, is_destructive};
use crate::matches::Written;
use fip_base::plain::NoMemory;
use fip_trees::program::{Argument, Binder, Binding, Block, Clause, Expression};
use lower_parts::context::Target;
use lower_parts::match_state::{Matching, Progress};

impl<'a> Lowerer<'a> {
    /// A block: what it binds, then its last expression.
    #[cycle(block)]
    #[tactic(auto, using(lower_parts::proofs::Blocks::blocks))]
    pub fn block(&mut self, block: &Block, target: Target<'_>) -> Result<(), NoMemory>
        ensures writes { OnOk result (WellMatchedBlock self.old.context.now.program.now.types (V.block block.now) →
            WritesBlock (setting self.old.context.now) self.old.frame self.old.buffer (V.block block.now)
            (target_of target.entry) self.new.frame self.new.buffer) }
        ensures laid { OnOk result (AskedBlock (setting self.old.context.now) (drop 1 self.old.walk.needs.now)
            (V.block block.now) → LaysBlock (setting self.old.context.now) (not self.old.gives_up) self.old.frame
            self.old.buffer (V.block block.now) (target_of target.entry) self.new.frame self.new.buffer) }
        ensures context { OnOk result (self.new.context ≡ self.old.context) }
        ensures gives_up { OnOk result (self.new.gives_up ≡ self.old.gives_up) }
        ensures walk { OnOk result (self.new.walk.needs.now ≡
            drop (span_block (V.block block.now)) self.old.walk.needs.now) }
    {
        self.walk.enter();
        for binding in &block.bindings {
            self.binding(binding)?;
        }
        self.expression(&block.last, target)?;
        Ok(())
    }

    // A let without its body.
    #[cycle(block)]
    #[tactic(auto, using(lower_parts::proofs::Blocks::binding_one))]
    fn binding(&mut self, binding: &Binding) -> Result<(), NoMemory>
        ensures binds { OnOk result (WellMatched self.old.context.now.program.now.types (V.binding binding.now).bound →
            Binds (setting self.old.context.now) self.old.frame self.old.buffer (V.binding binding.now).binders
            (V.binding binding.now).bound self.new.frame self.new.buffer) }
        ensures laid { OnOk result (Asked (setting self.old.context.now) self.old.walk.needs.now
            (V.binding binding.now).bound → 0 < length (V.binding binding.now).binders →
            LaysLet (setting self.old.context.now) (not self.old.gives_up) self.old.frame self.old.buffer
            (V.binding binding.now).binders (V.binding binding.now).bound self.new.frame self.new.buffer) }
        ensures context { OnOk result (self.new.context ≡ self.old.context) }
        ensures gives_up { OnOk result (self.new.gives_up ≡ self.old.gives_up) }
        ensures walk { OnOk result (self.new.walk.needs.now ≡
            drop (span (V.binding binding.now).bound) self.old.walk.needs.now) }
    {
        match &binding.bound {
            Expression::Give(argument) => {
                self.walk.enter();
                let register = self.value(argument)?;
                self.name_all(binding.binders.as_slice(), &[register]);
                Ok(())
            }
            Expression::Tuple { arguments, .. } => {
                self.walk.enter();
                let registers = self.values(arguments.as_slice())?;
                self.name_all(binding.binders.as_slice(), registers.as_slice());
                Ok(())
            }
            bound => {
                let registers = self.reserve(binding.binders.as_slice())?;
                self.expression(bound, Target::Into(registers.as_slice()))?;
                self.name_all(binding.binders.as_slice(), registers.as_slice());
                Ok(())
            }
        }
    }

    // Variables get these registers.
    #[tactic(auto, using(lower_parts::proofs::Blocks::naming_all))]
    fn name_all(&mut self, binders: &[Binder], registers: &[u16])
        ensures named { self.new.frame ≡ B.with_names self.old.frame binders.now registers.now }
        ensures context { self.new.context ≡ self.old.context }
        ensures gives_up { self.new.gives_up ≡ self.old.gives_up }
        ensures walk { self.new.walk ≡ self.old.walk }
        ensures buffer { self.new.buffer ≡ self.old.buffer }
    {
        let mut place = 0;
        for binder in binders {
            self.name_one(binder, registers, place);
            place += 1;
        }
    }

    fn name_one(&mut self, binder: &Binder, registers: &[u16], place: usize)
        ensures named { self.new.frame ≡ named_at self.old.frame binder.now (slice_get registers.now place) }
        ensures context { self.new.context ≡ self.old.context }
        ensures gives_up { self.new.gives_up ≡ self.old.gives_up }
        ensures walk { self.new.walk ≡ self.old.walk }
        ensures buffer { self.new.buffer ≡ self.old.buffer }
    {
        if let Some(register) = registers.get(place) {
            self.frame.bind(binder.number, *register);
        }
    }

    // Registers for the variables of a let.
    #[tactic(auto, using(lower_parts::proofs::Blocks::reserving))]
    fn reserve(&mut self, binders: &[Binder]) -> Result<Vec<u16>, NoMemory>
        ensures registers { IfOk result (λ rs. rs.items ≡ B.registers_for self.old.frame.next binders.now) }
        ensures reserved { OnOk result (self.new.frame ≡ B.reserved self.old.frame binders.now) }
        ensures room { OnOk result (HasRoom self.old.frame self.new.frame) }
        ensures context { OnOk result (self.new.context ≡ self.old.context) }
        ensures gives_up { OnOk result (self.new.gives_up ≡ self.old.gives_up) }
        ensures walk { OnOk result (self.new.walk ≡ self.old.walk) }
        ensures buffer { OnOk result (self.new.buffer ≡ self.old.buffer) }
    {
        let mut registers = Vec::new(self.context.alloc);
        for _ in 0..binders.len() {
            registers.push(self.frame.fresh()?)?;
        }
        Ok(registers)
    }

    #[cycle(block)]
    #[tactic(auto, using(lower_parts::proofs::Blocks::expressions))]
    fn expression(&mut self, expression: &Expression, target: Target<'_>) -> Result<(), NoMemory>
        ensures writes { OnOk result (WellMatched self.old.context.now.program.now.types (V.expression expression.now) →
            Writes (setting self.old.context.now) self.old.frame self.old.buffer (V.expression expression.now)
            (target_of target.entry) self.new.frame self.new.buffer) }
        ensures laid { OnOk result (Asked (setting self.old.context.now) self.old.walk.needs.now
            (V.expression expression.now) → Lays (setting self.old.context.now) (not self.old.gives_up) self.old.frame
            self.old.buffer (V.expression expression.now) (target_of target.entry) self.new.frame self.new.buffer) }
        ensures context { OnOk result (self.new.context ≡ self.old.context) }
        ensures gives_up { OnOk result (self.new.gives_up ≡ self.old.gives_up) }
        ensures walk { OnOk result (self.new.walk.needs.now ≡
            drop (span (V.expression expression.now)) self.old.walk.needs.now) }
    {
        match expression {
            Expression::Give(argument) => {
                self.give_one(argument, target)?;
                Ok(())
            }
            Expression::Tuple { arguments, .. } => {
                self.give_all(arguments.as_slice(), target)?;
                Ok(())
            }
            Expression::Operation {
                operator,
                place,
                left,
                right,
            } => {
                let applied = Applied {
                    operator: *operator,
                    place: *place,
                };
                self.operate(applied, left, right, target)?;
                Ok(())
            }
            Expression::Call {
                callee,
                arguments,
                ..
            } => {
                self.apply(*callee, arguments.as_slice(), target)?;
                Ok(())
            }
            Expression::Match {
                kind,
                ty,
                scrutinee,
                first,
                others,
                ..
            } => {
                let written = Written {
                    destructive: is_destructive(*kind),
                    ty: *ty,
                    scrutinee,
                    first,
                    others: others.as_slice(),
                };
                let matching = self.start_match(&written, target)?;
                let mut progress = Progress::new(self.context.alloc)?;
                self.clause(&matching, &mut progress, first, target)?;
                self.clauses(&matching, &mut progress, written.others, target)?;
                self.end_match(matching, progress)?;
                Ok(())
            }
            Expression::Nested(block) => {
                self.block(block, target)?;
                Ok(())
            }
        }
    }

    #[tactic(auto, using(lower_parts::proofs::Blocks::expressions))]
    fn give_one(&mut self, argument: &Argument, target: Target<'_>) -> Result<(), NoMemory>
        ensures writes { OnOk result (Writes (setting self.old.context.now) self.old.frame self.old.buffer
            (T.Give (V.argument argument.now)) (target_of target.entry) self.new.frame self.new.buffer) }
        ensures context { OnOk result (self.new.context ≡ self.old.context) }
        ensures gives_up { OnOk result (self.new.gives_up ≡ self.old.gives_up) }
        ensures walk { OnOk result (self.new.walk.needs.now ≡ drop 1 self.old.walk.needs.now) }
        ensures laid { OnOk result (GivesValuesLaid (setting self.old.context.now) (not self.old.gives_up)
            self.old.frame self.old.buffer (T.MoreArguments (V.argument argument.now) T.NoArguments)
            (target_of target.entry) self.new.frame self.new.buffer) }
    {
        self.walk.enter();
        let register = self.value(argument)?;
        self.give(&[register], target)?;
        Ok(())
    }

    #[tactic(auto, using(lower_parts::proofs::Blocks::expressions))]
    fn give_all(&mut self, arguments: &[Argument], target: Target<'_>) -> Result<(), NoMemory>
        ensures gives { OnOk result (GivesValues (setting self.old.context.now) self.old.frame self.old.buffer
            (V.arguments arguments.now) (target_of target.entry) self.new.frame self.new.buffer) }
        ensures context { OnOk result (self.new.context ≡ self.old.context) }
        ensures gives_up { OnOk result (self.new.gives_up ≡ self.old.gives_up) }
        ensures walk { OnOk result (self.new.walk.needs.now ≡ drop 1 self.old.walk.needs.now) }
        ensures laid { OnOk result (GivesValuesLaid (setting self.old.context.now) (not self.old.gives_up)
            self.old.frame self.old.buffer (V.arguments arguments.now) (target_of target.entry) self.new.frame
            self.new.buffer) }
    {
        self.walk.enter();
        let registers = self.values(arguments)?;
        self.give(registers.as_slice(), target)?;
        Ok(())
    }

    // A call.
    #[tactic(auto, using(lower_parts::proofs::Blocks::expressions))]
    fn apply(
        &mut self,
        callee: u32,
        arguments: &[Argument],
        target: Target<'_>,
    ) -> Result<(), NoMemory>
        ensures applies { OnOk result (AppliesTo (setting self.old.context.now) self.old.frame self.old.buffer callee
            (V.arguments arguments.now) (target_of target.entry) self.new.frame self.new.buffer) }
        ensures context { OnOk result (self.new.context ≡ self.old.context) }
        ensures gives_up { OnOk result (self.new.gives_up ≡ self.old.gives_up) }
        ensures walk { OnOk result (self.new.walk.needs.now ≡ drop 1 self.old.walk.needs.now) }
        ensures laid { OnOk result (AppliesLaid (setting self.old.context.now) (not self.old.gives_up) self.old.frame
            self.old.buffer callee (V.arguments arguments.now) (target_of target.entry) self.new.frame
            self.new.buffer) }
    {
        self.walk.enter();
        let registers = self.values(arguments)?;
        self.call(callee, registers, target)?;
        Ok(())
    }

    #[tactic(auto, using(lower_parts::proofs::Blocks::expressions))]
    fn operate(
        &mut self,
        applied: Applied,
        left: &Argument,
        right: &Argument,
        target: Target<'_>,
    ) -> Result<(), NoMemory>
        ensures writes { OnOk result (Writes (setting self.old.context.now) self.old.frame self.old.buffer
            (T.Operation applied.operator applied.place (V.argument left.now) (V.argument right.now))
            (target_of target.entry) self.new.frame self.new.buffer) }
        ensures context { OnOk result (self.new.context ≡ self.old.context) }
        ensures gives_up { OnOk result (self.new.gives_up ≡ self.old.gives_up) }
        ensures walk { OnOk result (self.new.walk.needs.now ≡ drop 1 self.old.walk.needs.now) }
        ensures laid { OnOk result (AppliedLaid (setting self.old.context.now) (not self.old.gives_up) self.old.frame
            self.old.buffer applied.operator applied.place (V.argument left.now) (V.argument right.now)
            (target_of target.entry) self.new.frame self.new.buffer) }
    {
        self.walk.enter();
        let first = self.value(left)?;
        let second = self.value(right)?;
        self.operation(applied, first, second, target)?;
        Ok(())
    }

    #[cycle(block)]
    fn clause(
        &mut self,
        matching: &Matching<'_>,
        progress: &mut Progress,
        clause: &Clause,
        target: Target<'_>,
    ) -> Result<(), NoMemory>
        requires whole { IsWhole matching.now.choice }
        requires there { progress.old.clause < length matching.now.choice.entries.items }
        ensures next { OnOk result (progress.new.clause ≡ suc progress.old.clause) }
        ensures writes { OnOk result (WritesClause (setting self.old.context.now) matching.now (V.clause clause.now)
            (target_of target.entry) progress.old self.old.buffer progress.new self.new.buffer) }
        ensures laid { OnOk result (AskedBlock (setting self.old.context.now) (drop 1 self.old.walk.needs.now)
            (V.clause clause.now).body → ClauseLays (setting self.old.context.now) (not self.old.gives_up) matching.now
            (V.clause clause.now) (target_of target.entry) progress.old self.old.frame self.old.buffer progress.new
            self.new.frame self.new.buffer) }
        ensures context { OnOk result (self.new.context ≡ self.old.context) }
        ensures gives_up { OnOk result (self.new.gives_up ≡ self.old.gives_up) }
        ensures walk { OnOk result (self.new.walk.needs.now ≡
            drop (span_block (V.clause clause.now).body) self.old.walk.needs.now) }
    {
        self.start_clause(matching, progress, clause)?;
        self.block(&clause.body, target)?;
        self.end_clause(matching, progress, target)?;
        Ok(())
    }

    #[cycle(block)]
    fn clauses(
        &mut self,
        matching: &Matching<'_>,
        progress: &mut Progress,
        clauses: &[Clause],
        target: Target<'_>,
    ) -> Result<(), NoMemory>
        requires whole { IsWhole matching.now.choice }
        requires there { progress.old.clause + length clauses.now ≤ length matching.now.choice.entries.items }
        ensures writes { OnOk result (WritesClauses (setting self.old.context.now) matching.now
            (V.clauses clauses.now) (target_of target.entry) progress.old self.old.buffer progress.new
            self.new.buffer) }
        ensures laid { OnOk result ((t : ℕ) → AskedClauses (setting self.old.context.now) self.old.walk.needs.now t
            (V.clauses clauses.now) → ClausesLay (setting self.old.context.now) (not self.old.gives_up) matching.now
            (V.clauses clauses.now) (target_of target.entry) progress.old self.old.frame self.old.buffer progress.new
            self.new.frame self.new.buffer) }
        ensures context { OnOk result (self.new.context ≡ self.old.context) }
        ensures gives_up { OnOk result (self.new.gives_up ≡ self.old.gives_up) }
        ensures walk { OnOk result (self.new.walk.needs.now ≡
            drop (span_clauses (V.clauses clauses.now)) self.old.walk.needs.now) }
    {
        for clause in clauses {
            self.clause(matching, progress, clause, target)?;
        }
        Ok(())
    }
}
