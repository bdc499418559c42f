// Matches: for each clause the tests that choose it and its body, then the place where the clauses meet.
ghost use Rattle.std.specs.Prelude.{◌≡◌, ◌≤◌, ◌<◌, ◌+◌, ◌&&◌, not, suc, ◌∷◌, None, Some, IfOk, OnOk, drop, length};
ghost use Rattle.fip_trees.specs.TreeView as V;
ghost use Rattle.match_knowledge.specs.View as View;
ghost use Rattle.lower_parts.specs.lowering_relation.Entering.{entering, entering_all, entering_root, root_of};
ghost use Rattle.lower_parts.specs.lowering_relation.Entering.{variable_held, with_cell, with_variable, spent_if};
ghost use Rattle.lower_parts.specs.lowering_relation.Losing.{Loses};
ghost use Rattle.lower_parts.specs.lowering_relation.Rows.{row_of, rows_of};
ghost use Rattle.lower_parts.specs.lowering_relation.Written.{Extends, GivesUp, size};
ghost use Rattle.lower_parts.specs.lower_frame.Positions.{reaching, spot_of, spots_of};
ghost use Rattle.lower_parts.specs.Scenes.{AtSpot, IsWhole, patterns_of, sides_of};
ghost use Rattle.lower_parts.specs.Clauses.{AddsPattern, IsBegun, EndsIn, EndsMatch, GoesToEnd, HasPositions};
ghost use Rattle.lower_parts.specs.Clauses.{JoinsKnown, StartsIn};
ghost use Rattle.lower_parts.specs.lower_frame.Registers.{HasRoom, registers};
ghost use Rattle.lower_parts.specs.Growth.{Sheds};
ghost use Rattle.lower_parts.specs.Laying.{ForgetsLaid, is_built};
ghost use Rattle.lower_parts.specs.Leaving.{ClauseLeavesLaid, EndsMatchedLaid};
ghost use Rattle.lower_parts.specs.Marks.{MarkedFor, MarkedIf};
ghost use Rattle.lower_parts.specs.Matches.{BeginsLaid, EndsInLaid, EndsMatchLaid, GoesLaid, JoinsLaid, StartsLaid};
ghost use Rattle.lower_parts.specs.lower_frame.Labels.{labels};
ghost use Rattle.lower_parts.specs.lowering_relation.Values.{is_scalar};
ghost use Rattle.lower_parts.specs.lowering_relation.Rows.{patterns_in};
ghost use Rattle.lower_parts.specs.Writing.{setting, target_of};

use crate::lowerer::Lowerer;
use cell_code::Instr;
use fip_base::plain::NoMemory;
use fip_trees::program::{Argument, Binder, Clause, Pattern};
use lower_parts::choice::{Choice, is_named};
use lower_parts::context::Target;
use lower_parts::frame::relation::Held;
use lower_parts::frame::{Frame, Spot, add_spots, field_at};
use lower_parts::match_state::{Matching, Progress};
use match_knowledge::{Head, Row};
use std::alloc::Global;

/// A match as it is written.
#[derive(Clone, Copy)]
pub struct Written<'t> {
    pub destructive: bool,
    pub ty: u32,
    pub scrutinee: &'t Argument,
    pub first: &'t Clause,
    pub others: &'t [Clause],
}

// A constructor of a pattern, and the register of its position.
#[derive(Clone, Copy)]
struct Cell {
    ty: u32,
    constructor: u32,
    register: u16,
}

impl<'a> Lowerer<'a> {
    /// Begins a match.
    pub fn start_match<'t>(
        &mut self,
        written: &Written<'t>,
        target: Target<'_>,
    ) -> Result<Matching<'t>, NoMemory>
        ensures begins { IfOk result (λ g. IsBegun (setting self.old.context.now) self.old.frame self.old.buffer
            (V.argument written.now.scrutinee.now) written.now.ty (V.clause written.now.first.now).pattern
            (V.clauses written.now.others.now) g self.new.buffer) }
        ensures laid { IfOk result (λ g. BeginsLaid (setting self.old.context.now) (not self.old.gives_up)
            self.old.walk.needs.now self.old.frame self.old.buffer written.now.destructive
            (V.argument written.now.scrutinee.now) written.now.ty (V.clause written.now.first.now)
            (V.clauses written.now.others.now) (target_of target.entry) g self.new.buffer) }
        ensures whole { IfOk result (λ g. IsWhole g.choice) }
        ensures clauses { IfOk result (λ g. length g.choice.entries.items ≡ suc (length written.now.others.now)) }
        ensures frame { IfOk result (λ g. self.new.frame ≡ g.entry) }
        ensures context { OnOk result (self.new.context ≡ self.old.context) }
        ensures gives_up { OnOk result (self.new.gives_up ≡ self.old.gives_up) }
        ensures walk { OnOk result (self.new.walk.needs.now ≡ drop 1 self.old.walk.needs.now) }
    {
        let need = self.walk.enter();
        let register = self.value(written.scrutinee)?;
        // A value is in a register that is used.
        if register >= self.frame.next() {
            return Err(NoMemory);
        }
        self.end_matched(target)?;
        self.forget_built(register)?;
        let used = self.used_by(written, target)?;
        let choice = self.choice_of(written, register)?;
        let end = self.buffer.new_label()?;
        Ok(Matching {
            choice,
            entry: self.frame.copy(self.context.alloc)?,
            used,
            need,
            end,
        })
    }

    // Where the clauses meet, no constructor that was matched before is used in them.
    #[tactic(auto, using(lower_parts::proofs::Losing::giving_up, lower_parts::proofs::Leaving::ending_bares))]
    fn end_matched(&mut self, target: Target<'_>) -> Result<(), NoMemory>
        ensures given_up { OnOk result (GivesUp self.old.buffer self.new.buffer) }
        ensures loses { OnOk result (Loses self.old.frame self.new.frame) }
        ensures sheds { OnOk result (Sheds self.old.frame self.old.buffer self.new.frame self.new.buffer) }
        ensures context { OnOk result (self.new.context ≡ self.old.context) }
        ensures gives_up { OnOk result (self.new.gives_up ≡ self.old.gives_up) }
        ensures walk { OnOk result (self.new.walk ≡ self.old.walk) }
        ensures laid { OnOk result (EndsMatchedLaid (target_of target.entry) self.old.frame self.old.buffer
            self.new.frame self.new.buffer) }
    {
        match target {
            Target::Return => Ok(()),
            Target::Into(_) => self.end_bare(),
        }
    }

    // A tree that was just built has one constructor; tests ask for others too, so a label stands before them.
    #[tactic(auto, using(lower_parts::proofs::Losing::forgetting))]
    fn forget_built(&mut self, register: u16) -> Result<(), NoMemory>
        ensures loses { OnOk result (Loses self.old.frame self.new.frame) }
        ensures registers { OnOk result (registers self.new.frame ≡ registers self.old.frame) }
        ensures extends { OnOk result (Extends self.old.buffer self.new.buffer) }
        ensures as_long { OnOk result (size self.new.buffer ≡ size self.old.buffer) }
        ensures labels { OnOk result (labels self.new.buffer ≤ suc (labels self.old.buffer)) }
        ensures context { OnOk result (self.new.context ≡ self.old.context) }
        ensures gives_up { OnOk result (self.new.gives_up ≡ self.old.gives_up) }
        ensures walk { OnOk result (self.new.walk ≡ self.old.walk) }
        ensures forgets { OnOk result (ForgetsLaid self.old.context.now.program.now.types register self.old.frame
            self.old.buffer self.new.frame self.new.buffer) }
    {
        if !is_built(self.frame.at(register)) {
            return Ok(());
        }
        let label = self.buffer.new_label()?;
        self.put_label(label)?;
        Ok(())
    }

    // The registers of trees that a clause may use up, where the clauses meet again and may leave something.
    fn used_by(&self, written: &Written<'_>, target: Target<'_>) -> Result<Vec<bool>, NoMemory>
        ensures marked { IfOk result (λ v. MarkedFor (not self.now.gives_up) (target_of target.entry)
            (setting self.now.context.now) self.now.frame written.now.destructive
            (V.argument written.now.scrutinee.now) (V.clause written.now.first.now)
            (V.clauses written.now.others.now) v.items) }
    {
        match target {
            Target::Return => Ok(Vec::new(self.context.alloc)),
            Target::Into(_) => self.marks_of(written),
        }
    }

    // The registers of trees that a clause may use up, where it may leave something.
    #[tactic(auto, using(lower_parts::proofs::Marking::marks))]
    fn marks_of(&self, written: &Written<'_>) -> Result<Vec<bool>, NoMemory>
        ensures marked { IfOk result (λ v. MarkedIf (not self.now.gives_up) (setting self.now.context.now)
            self.now.frame written.now.destructive (V.argument written.now.scrutinee.now)
            (V.clause written.now.first.now) (V.clauses written.now.others.now) v.items) }
    {
        let mut used = Vec::new(self.context.alloc);
        if !self.gives_up {
            return Ok(used);
        }
        used.resize(self.frame.next() as usize, false)?;
        self.mark_if(&mut used, written.destructive, written.scrutinee);
        self.used_in(&mut used, &written.first.body);
        self.mark_clauses(&mut used, written.others);
        Ok(used)
    }

    fn choice_of<'t>(
        &mut self,
        written: &Written<'t>,
        register: u16,
    ) -> Result<Choice<'t>, NoMemory>
        ensures positions { IfOk result (λ c. HasPositions c register written.now.ty self.old.frame.next
            self.new.frame.next) }
        ensures patterns { IfOk result (λ c. patterns_of c ≡ (V.clause written.now.first.now).pattern
            ∷ patterns_in (V.clauses written.now.others.now)) }
        ensures entries { IfOk result (λ c. length c.entries.items ≡ length (patterns_of c)) }
        ensures takes { IfOk result (λ c. c.takes ≡ (written.now.destructive
            && not (is_scalar (setting self.old.context.now) written.now.ty))) }
        ensures frame { OnOk result (self.new.frame ≡ reaching self.old.frame self.new.frame.next) }
        ensures room { OnOk result (HasRoom self.old.frame self.new.frame) }
        ensures extends { OnOk result (Extends self.old.buffer self.new.buffer) }
        ensures as_long { OnOk result (size self.new.buffer ≡ size self.old.buffer) }
        ensures labels { IfOk result (λ c. labels self.new.buffer ≡ labels self.old.buffer
            + length (patterns_of c)) }
        ensures maps { OnOk result (self.new.buffer.maps ≡ self.old.buffer.maps) }
        ensures context { OnOk result (self.new.context ≡ self.old.context) }
        ensures gives_up { OnOk result (self.new.gives_up ≡ self.old.gives_up) }
        ensures walk { OnOk result (self.new.walk ≡ self.old.walk) }
    {
        let takes = self.takes_apart(written.destructive, written.ty);
        let mut choice = Choice::new(self.context.alloc, register, written.ty, takes);
        self.add_pattern(&mut choice, &written.first.pattern)?;
        for clause in written.others {
            self.add_pattern(&mut choice, &clause.pattern)?;
        }
        Ok(choice)
    }

    #[tactic(auto, using(lower_parts::proofs::Beginning::adding))]
    fn add_pattern<'t>(
        &mut self,
        choice: &mut Choice<'t>,
        pattern: &'t Pattern,
    ) -> Result<(), NoMemory>
        ensures adds { OnOk result (AddsPattern choice.old choice.new (V.pattern pattern.now) self.old.frame.next
            self.new.frame.next) }
        ensures entries { OnOk result (length choice.new.entries.items ≡ suc (length choice.old.entries.items)) }
        ensures takes { OnOk result (choice.new.takes ≡ choice.old.takes) }
        ensures frame { OnOk result (self.new.frame ≡ reaching self.old.frame self.new.frame.next) }
        ensures room { OnOk result (HasRoom self.old.frame self.new.frame) }
        ensures extends { OnOk result (Extends self.old.buffer self.new.buffer) }
        ensures as_long { OnOk result (size self.new.buffer ≡ size self.old.buffer) }
        ensures one { OnOk result (labels self.new.buffer ≡ suc (labels self.old.buffer)) }
        ensures maps { OnOk result (self.new.buffer.maps ≡ self.old.buffer.maps) }
        ensures context { OnOk result (self.new.context ≡ self.old.context) }
        ensures gives_up { OnOk result (self.new.gives_up ≡ self.old.gives_up) }
        ensures walk { OnOk result (self.new.walk ≡ self.old.walk) }
    {
        let alloc = self.context.alloc;
        add_spots(alloc, pattern, &mut choice.root, &mut self.frame)?;
        let entry = self.buffer.new_label()?;
        choice.add(pattern, row_of(alloc, pattern)?, entry)?;
        Ok(())
    }

    /// Writes the tests that choose the next clause, and begins its body, with its variables and credits.
    pub fn start_clause(
        &mut self,
        matching: &Matching<'_>,
        progress: &mut Progress,
        clause: &Clause,
    ) -> Result<(), NoMemory>
        requires whole { IsWhole matching.now.choice }
        requires there { progress.old.clause < length matching.now.choice.entries.items }
        ensures starts { OnOk result (StartsIn (setting self.old.context.now) matching.now
            (V.clause clause.now).pattern progress.old.clause self.old.buffer (sides_of progress.old.sides.items)
            self.new.frame self.new.buffer (sides_of progress.new.sides.items)) }
        ensures laid { OnOk result (StartsLaid (setting self.old.context.now) matching.now
            (V.clause clause.now).pattern progress.old.clause self.old.frame self.old.buffer
            (sides_of progress.old.sides.items) self.new.frame self.new.buffer (sides_of progress.new.sides.items)) }
        ensures next { OnOk result (progress.new.clause ≡ suc progress.old.clause) }
        ensures joined { OnOk result (progress.new.joined ≡ progress.old.joined) }
        ensures context { OnOk result (self.new.context ≡ self.old.context) }
        ensures gives_up { OnOk result (self.new.gives_up ≡ self.old.gives_up) }
        ensures walk { OnOk result (self.new.walk ≡ self.old.walk) }
    {
        let number = progress.clause;
        progress.clause = number + 1;
        self.frame.resume(matching.entry.copy(self.context.alloc)?);
        self.choose(&matching.choice, &mut progress.sides, number)?;
        self.open_root(
            matching.choice.takes,
            &clause.pattern,
            &matching.choice.root,
        )?;
        let entry = matching.choice.entry(number);
        self.put_label(entry)?;
        Ok(())
    }

    // What a clause knows of the scrutinee. A variable is another name of it.
    fn open_root(&mut self, takes: bool, pattern: &Pattern, root: &Spot) -> Result<(), NoMemory>
        ensures opens { OnOk result (self.new.frame ≡ entering_root (setting self.old.context.now) takes
            (V.pattern pattern.now) (spot_of root.now) self.old.frame) }
        ensures buffer { OnOk result (self.new.buffer ≡ self.old.buffer) }
        ensures context { OnOk result (self.new.context ≡ self.old.context) }
        ensures gives_up { OnOk result (self.new.gives_up ≡ self.old.gives_up) }
        ensures walk { OnOk result (self.new.walk ≡ self.old.walk) }
    {
        match pattern {
            Pattern::Binder(binder) => {
                self.frame.bind(binder.number, root.register);
                Ok(())
            }
            Pattern::Literal { .. } => Ok(()),
            Pattern::Constructor { .. } => {
                let within = root_within(root.register, self.frame.at(root.register));
                self.spend(takes, root.register);
                self.open_part(takes, within, pattern, root)?;
                Ok(())
            }
        }
    }

    // Where the cells of the scrutinee are taken apart, it is used up.
    fn spend(&mut self, takes: bool, register: u16)
        ensures spent { self.new.frame ≡ spent_if takes register self.old.frame }
        ensures buffer { self.new.buffer ≡ self.old.buffer }
        ensures context { self.new.context ≡ self.old.context }
        ensures gives_up { self.new.gives_up ≡ self.old.gives_up }
        ensures walk { self.new.walk ≡ self.old.walk }
    {
        if takes {
            self.frame.use_up(register);
        }
    }

    // What a clause knows below the scrutinee.
    #[cycle(opening)]
    fn open_part(
        &mut self,
        takes: bool,
        root: Option<u16>,
        pattern: &Pattern,
        spot: &Spot,
    ) -> Result<(), NoMemory>
        ensures opens { OnOk result (self.new.frame ≡ entering (setting self.old.context.now) takes root
            (V.pattern pattern.now) (spot_of spot.now) self.old.frame) }
        ensures buffer { OnOk result (self.new.buffer ≡ self.old.buffer) }
        ensures context { OnOk result (self.new.context ≡ self.old.context) }
        ensures gives_up { OnOk result (self.new.gives_up ≡ self.old.gives_up) }
        ensures walk { OnOk result (self.new.walk ≡ self.old.walk) }
    {
        match pattern {
            Pattern::Binder(binder) => {
                self.open_variable(takes, root, binder, spot.register);
                Ok(())
            }
            Pattern::Literal { .. } => Ok(()),
            Pattern::Constructor {
                ty,
                number,
                patterns,
                ..
            } => {
                let cell = Cell {
                    ty: *ty,
                    constructor: *number,
                    register: spot.register,
                };
                self.open_cell(takes, cell, patterns.as_slice())?;
                self.open_all(takes, root, patterns.as_slice(), spot.fields.as_slice())?;
                Ok(())
            }
        }
    }

    #[cycle(opening)]
    fn open_all(
        &mut self,
        takes: bool,
        root: Option<u16>,
        patterns: &[Pattern],
        fields: &[Spot],
    ) -> Result<(), NoMemory>
        ensures opens { OnOk result (self.new.frame ≡ entering_all (setting self.old.context.now) takes root
            (V.patterns patterns.now) (spots_of fields.now) self.old.frame) }
        ensures buffer { OnOk result (self.new.buffer ≡ self.old.buffer) }
        ensures context { OnOk result (self.new.context ≡ self.old.context) }
        ensures gives_up { OnOk result (self.new.gives_up ≡ self.old.gives_up) }
        ensures walk { OnOk result (self.new.walk ≡ self.old.walk) }
    {
        let mut place: usize = 0;
        for part in patterns {
            self.open_field(takes, root, part, fields, place)?;
            place += 1;
        }
        Ok(())
    }

    #[cycle(opening)]
    fn open_field(
        &mut self,
        takes: bool,
        root: Option<u16>,
        part: &Pattern,
        fields: &[Spot],
        place: usize,
    ) -> Result<(), NoMemory>
        ensures opens { OnOk result (AtSpot (entering (setting self.old.context.now) takes root
            (V.pattern part.now)) (spots_of fields.now) place self.old.frame self.new.frame) }
        ensures buffer { OnOk result (self.new.buffer ≡ self.old.buffer) }
        ensures context { OnOk result (self.new.context ≡ self.old.context) }
        ensures gives_up { OnOk result (self.new.gives_up ≡ self.old.gives_up) }
        ensures walk { OnOk result (self.new.walk ≡ self.old.walk) }
    {
        let field = field_at(fields, place)?;
        self.open_part(takes, root, part, field)?;
        Ok(())
    }

    // A variable has the register of its position. In a match that takes no cells apart, _ has none.
    fn open_variable(&mut self, takes: bool, root: Option<u16>, binder: &Binder, register: u16)
        ensures opens { self.new.frame ≡ with_variable (setting self.old.context.now) takes root binder.now register
            self.old.frame }
        ensures buffer { self.new.buffer ≡ self.old.buffer }
        ensures context { self.new.context ≡ self.old.context }
        ensures gives_up { self.new.gives_up ≡ self.old.gives_up }
        ensures walk { self.new.walk ≡ self.old.walk }
    {
        if takes || is_named(binder) {
            let held = self.variable_held(takes, root, binder.ty);
            self.frame.bind(binder.number, register);
            self.frame.set(register, held);
        } else {
            self.frame.unbind(binder.number);
        }
    }

    fn variable_held(&self, takes: bool, root: Option<u16>, ty: u32) -> Held
        ensures held { result ≡ variable_held (setting self.now.context.now) takes root ty }
    {
        if takes || self.context.is_scalar(ty) {
            self.context.given(ty)
        } else {
            Held::Lent { ty, root }
        }
    }

    // A cell that was taken apart is a credit; a constructor without fields can be used again.
    #[tactic(auto, using(lower_parts::proofs::Beginning::cells))]
    fn open_cell(&mut self, takes: bool, cell: Cell, patterns: &[Pattern]) -> Result<(), NoMemory>
        ensures opens { OnOk result (self.new.frame ≡ with_cell (setting self.old.context.now) takes cell.ty
            cell.constructor (V.patterns patterns.now) cell.register self.old.frame) }
        ensures buffer { OnOk result (self.new.buffer ≡ self.old.buffer) }
        ensures context { OnOk result (self.new.context ≡ self.old.context) }
        ensures gives_up { OnOk result (self.new.gives_up ≡ self.old.gives_up) }
        ensures walk { OnOk result (self.new.walk ≡ self.old.walk) }
    {
        if !takes {
            return Ok(());
        }
        if !patterns.is_empty() {
            self.frame.add_credit(patterns.len(), cell.register)?;
            return Ok(());
        }
        if self.context.is_scalar(cell.ty) {
            return Ok(());
        }
        let held = Held::Bare {
            ty: cell.ty,
            constructor: cell.constructor,
        };
        self.frame.set(cell.register, held);
        Ok(())
    }

    /// Ends the body of a clause: where the match gives its value to what follows, the code goes there, which stands
    /// after the last clause.
    pub fn end_clause(
        &mut self,
        matching: &Matching<'_>,
        progress: &mut Progress,
        target: Target<'_>,
    ) -> Result<(), NoMemory>
        ensures ends { OnOk result (EndsIn matching.now (target_of target.entry) progress.old.clause self.old.frame
            self.old.buffer progress.old.joined self.new.buffer progress.new.joined) }
        ensures laid { OnOk result (EndsInLaid (setting self.old.context.now) (not self.old.gives_up) matching.now
            (target_of target.entry) progress.old.clause self.old.frame self.old.buffer progress.old.joined
            self.new.buffer progress.new.joined) }
        ensures next { OnOk result (self.new.frame.next ≡ self.old.frame.next) }
        ensures clause { OnOk result (progress.new.clause ≡ progress.old.clause) }
        ensures sides { OnOk result (progress.new.sides ≡ progress.old.sides) }
        ensures context { OnOk result (self.new.context ≡ self.old.context) }
        ensures gives_up { OnOk result (self.new.gives_up ≡ self.old.gives_up) }
        ensures walk { OnOk result (self.new.walk ≡ self.old.walk) }
    {
        match target {
            Target::Return => Ok(()),
            Target::Into(given) => {
                self.leave(matching, given)?;
                self.go_to_end(matching, progress.clause)?;
                progress.joined = Some(self.joined(&progress.joined)?);
                Ok(())
            }
        }
    }

    // Gives up what a clause leaves and another doesn't.
    #[tactic(auto, using(lower_parts::proofs::Losing::leaving))]
    fn leave(&mut self, matching: &Matching<'_>, given: &[u16]) -> Result<(), NoMemory>
        ensures given_up { OnOk result (GivesUp self.old.buffer self.new.buffer) }
        ensures loses { OnOk result (Loses self.old.frame self.new.frame) }
        ensures sheds { OnOk result (Sheds self.old.frame self.old.buffer self.new.frame self.new.buffer) }
        ensures context { OnOk result (self.new.context ≡ self.old.context) }
        ensures gives_up { OnOk result (self.new.gives_up ≡ self.old.gives_up) }
        ensures walk { OnOk result (self.new.walk ≡ self.old.walk) }
        ensures laid { OnOk result (ClauseLeavesLaid (setting self.old.context.now) (not self.old.gives_up)
            self.old.frame self.old.buffer matching.now.entry matching.now.used.items matching.now.need given.now
            self.new.frame self.new.buffer) }
    {
        self.end_bare()?;
        self.give_up_to(
            &matching.entry,
            matching.used.as_slice(),
            &matching.need,
            given,
        )?;
        self.frame.widen();
        Ok(())
    }

    // After the last clause the code goes on.
    fn go_to_end(&mut self, matching: &Matching<'_>, next: usize) -> Result<(), NoMemory>
        ensures goes { OnOk result (GoesToEnd matching.now next self.old.buffer self.new.buffer) }
        ensures laid { OnOk result (GoesLaid matching.now next self.old.buffer self.new.buffer) }
        ensures frame { OnOk result (self.new.frame ≡ self.old.frame) }
        ensures context { OnOk result (self.new.context ≡ self.old.context) }
        ensures gives_up { OnOk result (self.new.gives_up ≡ self.old.gives_up) }
        ensures walk { OnOk result (self.new.walk ≡ self.old.walk) }
    {
        if next < matching.choice.len() {
            let target = matching.end;
            self.buffer.add(Instr::Jump { target })?;
            Ok(())
        } else {
            Ok(())
        }
    }

    // What is known at the ends of the clauses so far and of this one.
    #[tactic(auto, using(lower_parts::proofs::Clauses::joining, lower_parts::proofs::Matched::joining_laid))]
    fn joined(&self, before: &Option<Frame>) -> Result<Frame, NoMemory>
        ensures joins { IfOk result (λ f. JoinsKnown self.now.frame before.now (Some f)) }
        ensures laid { IfOk result (λ f. JoinsLaid before.now self.now.frame (Some f)) }
    {
        match before {
            None => {
                let met = self.frame.copy(self.context.alloc)?;
                Ok(met)
            }
            Some(frame) => {
                let met = frame.meet(self.context.alloc, &self.frame)?;
                Ok(met)
            }
        }
    }

    /// The place where the clauses meet.
    #[tactic(auto, using(crate::proofs::Parts::losing))]
    pub fn end_match(&mut self, matching: Matching<'_>, progress: Progress) -> Result<(), NoMemory>
        ensures ends { OnOk result (EndsMatch matching.entry progress.joined self.old.buffer
            self.new.frame self.new.buffer) }
        ensures laid { OnOk result (EndsMatchLaid (setting self.old.context.now) matching.entry progress.joined
            self.old.frame self.old.buffer self.new.frame self.new.buffer) }
        ensures context { OnOk result (self.new.context ≡ self.old.context) }
        ensures gives_up { OnOk result (self.new.gives_up ≡ self.old.gives_up) }
        ensures walk { OnOk result (self.new.walk ≡ self.old.walk) }
    {
        let Matching { end, .. } = matching;
        let Progress { joined, .. } = progress;
        match joined {
            None => Ok(()),
            Some(frame) => {
                self.frame.resume(frame);
                self.put_label(end)?;
                Ok(())
            }
        }
    }
}

// Whether this is a tree that was just built, so that its constructor is known.
fn is_built(held: Held) -> bool
    ensures { result ≡ is_built held }
{
    match held {
        Held::Nothing => false,
        Held::Scalar { .. } => false,
        Held::Owned { built, .. } => built.is_some(),
        Held::Lent { .. } => false,
        Held::Credit { .. } => false,
        Held::Bare { .. } => false,
    }
}

// The register in whose tree lies what is read of the tree in a register.
fn root_within(register: u16, held: Held) -> Option<u16>
    ensures { result ≡ root_of register held }
{
    match held {
        Held::Nothing => None,
        Held::Scalar { .. } => None,
        Held::Owned { .. } => Some(register),
        Held::Lent { root, .. } => root,
        Held::Credit { .. } => None,
        Held::Bare { .. } => None,
    }
}

// A pattern without names. A literal is a test of an int, type 0.
#[cycle(rows)]
fn row_of(alloc: Global, pattern: &Pattern) -> Result<Row, NoMemory>
    ensures row { IfOk result (λ r. View.row r ≡ row_of (V.pattern pattern.now)) }
{
    match pattern {
        Pattern::Binder(_) => Ok(Row::Any),
        Pattern::Literal { value, .. } => Ok(Row::Test {
            ty: 0,
            head: Head::Number(*value),
            parts: Vec::new(alloc),
        }),
        Pattern::Constructor {
            ty,
            number,
            patterns,
            ..
        } => {
            let parts = rows_of(alloc, patterns.as_slice())?;
            Ok(Row::Test {
                ty: *ty,
                head: Head::Tag(*number),
                parts,
            })
        }
    }
}

#[cycle(rows)]
fn rows_of(alloc: Global, patterns: &[Pattern]) -> Result<Vec<Row>, NoMemory>
    ensures rows { IfOk result (λ rs. View.parts rs.items ≡ rows_of (V.patterns patterns.now)) }
{
    let mut rows = Vec::new(alloc);
    for pattern in patterns {
        rows.push(row_of(alloc, pattern)?)?;
    }
    Ok(rows)
}
