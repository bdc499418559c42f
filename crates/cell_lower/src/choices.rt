// The tests by which the first clause that matches is chosen.
//
// The first clause that isn't ruled out is looked at. Where it asks for nothing more, it is chosen. Else its first open
// test is made; where no value fails it, it isn't written. A position below the scrutinee is read into its register
// before the first test of it. A chosen clause that takes its cells apart gets their fields with them, so that a field
// that isn't tested is read once; one that lends reads what it names.
//
// The tests are written as far as the clauses ask for them: those that choose the next clause, and then its body, to
// which the last of them goes on. In `match! xs { Nil -> a; Cons(x, t) -> b }` the test of Nil stands first, then a,
// then what fails the test, and b.
ghost use Rattle.std.specs.Prelude.{◌≡◌, ◌≤◌, ◌<◌, ◌^◌, ℕ, suc, true, [], ◌∷◌, ◌++◌, IfOk, OnOk, Some, None};
ghost use Rattle.std.specs.Prelude.{false, get_or, length};
ghost use Rattle.fip_trees.specs.TreeView as V;
ghost use Rattle.lower_parts.specs.lower_frame.code_rules.Types.{fields};
ghost use Rattle.match_knowledge.specs.declared.verdicts.Verdict.TheVariants as D;
ghost use Rattle.match_knowledge.specs.Known as K;
ghost use Rattle.match_knowledge.specs.Known.{row_tests};
ghost use Rattle.match_knowledge.specs.View as View;
ghost use Rattle.lower_parts.specs.lowering_relation.Spots as S;
ghost use Rattle.lower_parts.specs.lowering_relation.Reading.{asked, contains, read_one, reading};
ghost use Rattle.lower_parts.specs.lowering_relation.Opening.{naming, naming_all, take_if, taking, taking_all};
ghost use Rattle.lower_parts.specs.lowering_relation.Landing.{test_of};
ghost use Rattle.lower_parts.specs.lowering_relation.Entering.{root_of};
ghost use Rattle.lower_parts.specs.lowering_relation.Written.{size};
ghost use Rattle.lower_parts.specs.lowering_relation.declared.held.Held.TheVariants as H;
ghost use Rattle.lower_parts.specs.lowering_relation.Sights.{left};
ghost use Rattle.lower_parts.specs.lower_frame.Positions.{spot_at, spot_of, spots_of};
ghost use Rattle.lower_parts.specs.Chosen.{ChoosesLaid};
ghost use Rattle.lower_parts.specs.Overlays.{failed_reported, field_overlaid, overlaid, overlaid_all, part_reported};
ghost use Rattle.lower_parts.specs.Overlays.{with_root};
ghost use Rattle.lower_parts.specs.Writing.{setting};
ghost use Rattle.lower_parts.specs.Scenes.{asked_of, reading_of, side_of};
ghost use Rattle.lower_parts.specs.Scenes.{Advances, AtSpot, ChoosesIf, Follows, IsWhole};
ghost use Rattle.lower_parts.specs.Scenes.{Asks, PlacesSide, Settles, SettlesBy, Tests, naming_part, sides_of};

use crate::lowerer::Lowerer;
use cell_code::{From, Instr, Kind};
use fip_base::plain::NoMemory;
use fip_trees::program::{Binder, Pattern};
use lower_parts::choice::{
    Asked, Choice, First, Overlay, Side, asking_at, contains, fields_of, is_named, is_start,
    known_at, left_of, names_any, registers_of, row_at, set_kind, test_of,
};
use lower_parts::frame::relation::Held;
use lower_parts::frame::{Spot, field_at};
use match_knowledge::{Head, Knowledge, Row, compare, is_last, side};

impl<'a> Lowerer<'a> {
    /// Writes the tests of a match until all that choose this clause are there. Where the last of them chooses it, the
    /// code goes on to the next instruction, else there are jumps alone.
    pub fn choose(
        &mut self,
        choice: &Choice<'_>,
        sides: &mut Vec<Side>,
        clause: usize,
    ) -> Result<(), NoMemory>
        requires whole { IsWhole choice.now }
        ensures chooses { OnOk result (ChoosesIf self.old.context.now.program.now.types choice.now clause
            self.old.buffer (sides_of sides.old.items) self.new.buffer (sides_of sides.new.items) true) }
        ensures laid { OnOk result (ChoosesLaid (setting self.old.context.now) self.old.frame.held choice.now clause
            self.old.buffer (sides_of sides.old.items) self.new.buffer (sides_of sides.new.items) true) }
        ensures all { OnOk result (length choice.now.rows.items ≤ suc clause → sides.new.items ≡ []) }
        ensures frame { OnOk result (self.new.frame ≡ self.old.frame) }
        ensures context { OnOk result (self.new.context ≡ self.old.context) }
        ensures gives_up { OnOk result (self.new.gives_up ≡ self.old.gives_up) }
        ensures walk { OnOk result (self.new.walk ≡ self.old.walk) }
    {
        // Each turn but the last writes a jump, and code has fewer than 2 ^ 32 instructions.
        'turns: loop {
            if self.choose_on(choice, sides, clause)? {
                return Ok(());
            }
        }
    }

    // A turn: whether it was the last.
    #[tactic(auto, using(lower_parts::proofs::Choosing::turning))]
    fn choose_on(
        &mut self,
        choice: &Choice<'_>,
        sides: &mut Vec<Side>,
        clause: usize,
    ) -> Result<bool, NoMemory>
        requires whole { IsWhole choice.now }
        ensures longer { IfOk result (λ b. b ≡ false → size self.old.buffer < size self.new.buffer) }
        ensures few { IfOk result (λ b. b ≡ false → size self.new.buffer < 2 ^ 32) }
        ensures turn { IfOk result (ChoosesIf self.old.context.now.program.now.types choice.now clause
            self.old.buffer (sides_of sides.old.items) self.new.buffer (sides_of sides.new.items)) }
        ensures laid { IfOk result (ChoosesLaid (setting self.old.context.now) self.old.frame.held choice.now clause
            self.old.buffer (sides_of sides.old.items) self.new.buffer (sides_of sides.new.items)) }
        ensures all { IfOk result (λ b. b ≡ true → length choice.now.rows.items ≤ suc clause → sides.new.items ≡ []) }
        ensures frame { OnOk result (self.new.frame ≡ self.old.frame) }
        ensures context { OnOk result (self.new.context ≡ self.old.context) }
        ensures gives_up { OnOk result (self.new.gives_up ≡ self.old.gives_up) }
        ensures walk { OnOk result (self.new.walk ≡ self.old.walk) }
    {
        if choice.is_written(sides.as_slice(), clause) {
            return Ok(true);
        }
        match sides.pop() {
            // Where no side is left, all is written.
            None => unreachable!(),
            Some(next) => {
                let last = self.choose_from(choice, sides, next, clause)?;
                Ok(last)
            }
        }
    }

    fn choose_from(
        &mut self,
        choice: &Choice<'_>,
        sides: &mut Vec<Side>,
        next: Side,
        clause: usize,
    ) -> Result<bool, NoMemory>
        requires whole { IsWhole choice.now }
        ensures longer { IfOk result (λ b. b ≡ false → size self.old.buffer < size self.new.buffer) }
        ensures few { IfOk result (λ b. b ≡ false → size self.new.buffer < 2 ^ 32) }
        ensures turn { IfOk result (ChoosesIf self.old.context.now.program.now.types choice.now clause
            self.old.buffer (sides_of sides.old.items ++ side_of next ∷ []) self.new.buffer
            (sides_of sides.new.items)) }
        ensures laid { IfOk result (ChoosesLaid (setting self.old.context.now) self.old.frame.held choice.now clause
            self.old.buffer (sides_of sides.old.items ++ side_of next ∷ []) self.new.buffer
            (sides_of sides.new.items)) }
        ensures all { IfOk result (λ b. b ≡ true → length choice.now.rows.items ≤ suc clause → sides.new.items ≡ []) }
        ensures frame { OnOk result (self.new.frame ≡ self.old.frame) }
        ensures context { OnOk result (self.new.context ≡ self.old.context) }
        ensures gives_up { OnOk result (self.new.gives_up ≡ self.old.gives_up) }
        ensures walk { OnOk result (self.new.walk ≡ self.old.walk) }
    {
        let chosen = self.follow(choice, sides, next)?;
        if chosen == clause && choice.is_written(sides.as_slice(), clause) {
            return Ok(true);
        }
        let target = choice.entry(chosen);
        self.buffer.add(Instr::Jump { target })?;
        // The number of the next instruction fits a u32.
        let _next = self.buffer.here();
        Ok(false)
    }

    // Writes the tests from a side on, up to the clause that is chosen where all hold.
    fn follow(
        &mut self,
        choice: &Choice<'_>,
        sides: &mut Vec<Side>,
        from: Side,
    ) -> Result<usize, NoMemory>
        requires whole { IsWhole choice.now }
        ensures there { IfOk result (λ i. i < length choice.now.rows.items) }
        ensures grows { OnOk result (size self.old.buffer ≤ size self.new.buffer) }
        ensures follows { IfOk result (Follows self.old.context.now.program.now.types (failed_reported
            (setting self.old.context.now) self.old.frame.held choice.now.ty (spot_of choice.now.root)
            (View.known from.known) from.read.items) choice.now self.old.buffer (side_of from)
            (sides_of sides.old.items) self.new.buffer (sides_of sides.new.items)) }
        ensures frame { OnOk result (self.new.frame ≡ self.old.frame) }
        ensures context { OnOk result (self.new.context ≡ self.old.context) }
        ensures gives_up { OnOk result (self.new.gives_up ≡ self.old.gives_up) }
        ensures walk { OnOk result (self.new.walk ≡ self.old.walk) }
    {
        let Side {
            mut known,
            mut read,
            label,
        } = from;
        self.put_side(choice, &known, read.as_slice(), label)?;
        // Each step settles a test of the patterns.
        'steps: loop {
            match self.advance(choice, sides, &mut known, &mut read)? {
                Some(clause) => return Ok(clause),
                None => {}
            }
        }
    }

    // The place of a side is here.
    fn put_side(
        &mut self,
        choice: &Choice<'_>,
        known: &Knowledge,
        read: &[u16],
        label: Option<u32>,
    ) -> Result<(), NoMemory>
        ensures placed { OnOk result (PlacesSide self.old.buffer label (failed_reported (setting self.old.context.now)
            self.old.frame.held choice.now.ty (spot_of choice.now.root) (View.known known.now) read.now)
            self.new.buffer) }
        ensures frame { OnOk result (self.new.frame ≡ self.old.frame) }
        ensures context { OnOk result (self.new.context ≡ self.old.context) }
        ensures gives_up { OnOk result (self.new.gives_up ≡ self.old.gives_up) }
        ensures walk { OnOk result (self.new.walk ≡ self.old.walk) }
    {
        match label {
            None => Ok(()),
            Some(label) => {
                let kinds = self.failed_kinds(choice, known, read)?;
                self.buffer.put_label(label, kinds)?;
                Ok(())
            }
        }
    }

    // A step: what the first clause that isn't ruled out asks for is tested, or that clause is chosen.
    fn advance(
        &mut self,
        choice: &Choice<'_>,
        sides: &mut Vec<Side>,
        known: &mut Knowledge,
        read: &mut Vec<u16>,
    ) -> Result<Option<usize>, NoMemory>
        requires whole { IsWhole choice.now }
        ensures there { IfOk result (λ o. (i : ℕ) → o ≡ Some i → i < length choice.now.rows.items) }
        ensures fewer { IfOk result (λ o. o ≡ None → row_tests (View.rows choice.now.rows.items)
            (View.known known.new) < row_tests (View.rows choice.now.rows.items) (View.known known.old)) }
        ensures grows { OnOk result (size self.old.buffer ≤ size self.new.buffer) }
        ensures advances { IfOk result (Advances self.old.context.now.program.now.types choice.now
            self.old.buffer (View.known known.old) read.old.items (sides_of sides.old.items)
            self.new.buffer (View.known known.new) read.new.items (sides_of sides.new.items)) }
        ensures frame { OnOk result (self.new.frame ≡ self.old.frame) }
        ensures context { OnOk result (self.new.context ≡ self.old.context) }
        ensures gives_up { OnOk result (self.new.gives_up ≡ self.old.gives_up) }
        ensures walk { OnOk result (self.new.walk ≡ self.old.walk) }
    {
        match choice.first_left(known)? {
            First::Chosen(clause) => {
                self.settle(choice, clause, read)?;
                Ok(Some(clause))
            }
            First::Asks(row) => {
                self.ask(choice, sides, row, known, read)?;
                Ok(None)
            }
        }
    }

    // A test, where some value fails it; then it is known that it holds.
    fn ask(
        &mut self,
        choice: &Choice<'_>,
        sides: &mut Vec<Side>,
        row: &Row,
        known: &mut Knowledge,
        read: &mut Vec<u16>,
    ) -> Result<(), NoMemory>
        requires asks { K.compare (View.row row.now) (View.known known.old) ≡ D.Asks }
        ensures knows { OnOk result (View.known known.new ≡ K.side true (View.row row.now) (View.known known.old)) }
        ensures grows { OnOk result (size self.old.buffer ≤ size self.new.buffer) }
        ensures asks { OnOk result (Asks self.old.context.now.program.now.types choice.now (View.row row.now)
            self.old.buffer (View.known known.old) read.old.items (sides_of sides.old.items)
            self.new.buffer (View.known known.new) read.new.items (sides_of sides.new.items)) }
        ensures frame { OnOk result (self.new.frame ≡ self.old.frame) }
        ensures context { OnOk result (self.new.context ≡ self.old.context) }
        ensures gives_up { OnOk result (self.new.gives_up ≡ self.old.gives_up) }
        ensures walk { OnOk result (self.new.walk ≡ self.old.walk) }
    {
        let yes = side(self.context.alloc, true, row, known)?;
        if is_last(&self.context.program.types, row, known) {
            *known = yes;
            return Ok(());
        }
        let failed = self.test(choice, row, known, read)?;
        sides.push(failed)?;
        *known = yes;
        Ok(())
    }

    // A test; the side where it fails.
    #[tactic(auto, using(lower_parts::proofs::Choosing::testing))]
    fn test(
        &mut self,
        choice: &Choice<'_>,
        row: &Row,
        known: &Knowledge,
        read: &mut Vec<u16>,
    ) -> Result<Side, NoMemory>
        requires asks { K.compare (View.row row.now) (View.known known.now) ≡ D.Asks }
        ensures tests { IfOk result (λ d. Tests (View.row row.now) (View.known known.now) (spot_of choice.now.root)
            (reading_of self.old.buffer read.old.items) self.new.buffer read.new.items (side_of d)) }
        ensures frame { OnOk result (self.new.frame ≡ self.old.frame) }
        ensures context { OnOk result (self.new.context ≡ self.old.context) }
        ensures gives_up { OnOk result (self.new.gives_up ≡ self.old.gives_up) }
        ensures walk { OnOk result (self.new.walk ≡ self.old.walk) }
    {
        let alloc = self.context.alloc;
        let Asked { register, head } = self.read_asked(row, known, &choice.root, read)?;
        let target = self.buffer.new_label()?;
        self.buffer.add(test_of(register, head, target))?;
        let mut seen = Vec::new(alloc);
        seen.extend_from_slice(read.as_slice())?;
        Ok(Side {
            known: side(alloc, false, row, known)?,
            read: seen,
            label: Some(target),
        })
    }

    // Reads the position that a pattern asks for first, and those above it.
    fn read_asked(
        &mut self,
        row: &Row,
        known: &Knowledge,
        spot: &Spot,
        read: &mut Vec<u16>,
    ) -> Result<Asked, NoMemory>
        requires asks { K.compare (View.row row.now) (View.known known.now) ≡ D.Asks }
        ensures asks { IfOk result (λ a. asked (View.row row.now) (View.known known.now) (spot_of spot.now)
            ≡ Some (asked_of a)) }
        ensures reads { OnOk result (reading_of self.new.buffer read.new.items ≡ reading (View.row row.now)
            (View.known known.now) (spot_of spot.now) (reading_of self.old.buffer read.old.items)) }
        ensures frame { OnOk result (self.new.frame ≡ self.old.frame) }
        ensures context { OnOk result (self.new.context ≡ self.old.context) }
        ensures gives_up { OnOk result (self.new.gives_up ≡ self.old.gives_up) }
        ensures walk { OnOk result (self.new.walk ≡ self.old.walk) }
    {
        let Row::Test { head, parts, .. } = row else {
            unreachable!()
        };
        match known {
            Knowledge::Open(_) => Ok(Asked {
                register: spot.register,
                head: *head,
            }),
            Knowledge::Is(_, knowns) => {
                let field = asking_at(parts.as_slice(), knowns.as_slice());
                let part = row_at(parts.as_slice(), field);
                let part_known = known_at(knowns.as_slice(), field);
                let part_spot = spot.field(field)?;
                self.read(spot.register, field, part_spot.register, read)?;
                let asked = self.read_asked(part, part_known, part_spot, read)?;
                Ok(asked)
            }
        }
    }

    // Reads a field of a register's cell, where this isn't done yet.
    fn read(
        &mut self,
        register: u16,
        field: usize,
        destination: u16,
        read: &mut Vec<u16>,
    ) -> Result<(), NoMemory>
        ensures reads { OnOk result (reading_of self.new.buffer read.new.items ≡ read_one
            (reading_of self.old.buffer read.old.items) register field destination) }
        ensures frame { OnOk result (self.new.frame ≡ self.old.frame) }
        ensures context { OnOk result (self.new.context ≡ self.old.context) }
        ensures gives_up { OnOk result (self.new.gives_up ≡ self.old.gives_up) }
        ensures walk { OnOk result (self.new.walk ≡ self.old.walk) }
    {
        if contains(read.as_slice(), destination) {
            return Ok(());
        }
        read.push(destination)?;
        self.buffer.add(Instr::Peek {
            destination,
            register,
            field: u8::try_from(field).map_err(|_| NoMemory)?,
        })?;
        Ok(())
    }

    // A clause is chosen: its cells are taken apart, or what it names is read.
    fn settle(
        &mut self,
        choice: &Choice<'_>,
        clause: usize,
        read: &mut Vec<u16>,
    ) -> Result<(), NoMemory>
        requires there { clause < length choice.now.patterns.items }
        ensures settles { OnOk result (Settles choice.now clause (reading_of self.old.buffer read.old.items)
            (reading_of self.new.buffer read.new.items)) }
        ensures frame { OnOk result (self.new.frame ≡ self.old.frame) }
        ensures context { OnOk result (self.new.context ≡ self.old.context) }
        ensures gives_up { OnOk result (self.new.gives_up ≡ self.old.gives_up) }
        ensures walk { OnOk result (self.new.walk ≡ self.old.walk) }
    {
        match choice.patterns.get(clause) {
            None => unreachable!(),
            Some(pattern) => {
                self.settle_by(choice.takes, pattern, &choice.root, read)?;
                Ok(())
            }
        }
    }

    fn settle_by(
        &mut self,
        takes: bool,
        pattern: &Pattern,
        root: &Spot,
        read: &mut Vec<u16>,
    ) -> Result<(), NoMemory>
        ensures settles { OnOk result (SettlesBy takes (V.pattern pattern.now) (spot_of root.now)
            (reading_of self.old.buffer read.old.items) (reading_of self.new.buffer read.new.items)) }
        ensures frame { OnOk result (self.new.frame ≡ self.old.frame) }
        ensures context { OnOk result (self.new.context ≡ self.old.context) }
        ensures gives_up { OnOk result (self.new.gives_up ≡ self.old.gives_up) }
        ensures walk { OnOk result (self.new.walk ≡ self.old.walk) }
    {
        if takes {
            self.take_apart(pattern, root)?;
            Ok(())
        } else {
            self.read_named(pattern, root, read)?;
            Ok(())
        }
    }

    // Reads what a pattern names below a position.
    #[cycle(naming)]
    fn read_named(
        &mut self,
        pattern: &Pattern,
        spot: &Spot,
        read: &mut Vec<u16>,
    ) -> Result<(), NoMemory>
        ensures reads { OnOk result (reading_of self.new.buffer read.new.items ≡ naming (V.pattern pattern.now)
            (spot_of spot.now) (reading_of self.old.buffer read.old.items)) }
        ensures frame { OnOk result (self.new.frame ≡ self.old.frame) }
        ensures context { OnOk result (self.new.context ≡ self.old.context) }
        ensures gives_up { OnOk result (self.new.gives_up ≡ self.old.gives_up) }
        ensures walk { OnOk result (self.new.walk ≡ self.old.walk) }
    {
        match pattern {
            Pattern::Binder(_) => Ok(()),
            Pattern::Literal { .. } => Ok(()),
            Pattern::Constructor { patterns, .. } => {
                self.read_fields(patterns.as_slice(), spot, read)?;
                Ok(())
            }
        }
    }

    #[cycle(naming)]
    fn read_fields(
        &mut self,
        patterns: &[Pattern],
        spot: &Spot,
        read: &mut Vec<u16>,
    ) -> Result<(), NoMemory>
        ensures reads { OnOk result (reading_of self.new.buffer read.new.items ≡ naming_all (V.patterns patterns.now)
            (S.fields (spot_of spot.now)) (S.register (spot_of spot.now)) 0
            (reading_of self.old.buffer read.old.items)) }
        ensures frame { OnOk result (self.new.frame ≡ self.old.frame) }
        ensures context { OnOk result (self.new.context ≡ self.old.context) }
        ensures gives_up { OnOk result (self.new.gives_up ≡ self.old.gives_up) }
        ensures walk { OnOk result (self.new.walk ≡ self.old.walk) }
    {
        let mut place: usize = 0;
        for part in patterns {
            self.read_field(part, spot, place, read)?;
            place += 1;
        }
        Ok(())
    }

    #[cycle(naming)]
    fn read_field(
        &mut self,
        part: &Pattern,
        spot: &Spot,
        place: usize,
        read: &mut Vec<u16>,
    ) -> Result<(), NoMemory>
        ensures reads { OnOk result (AtSpot (naming_part (S.register (spot_of spot.now)) place (V.pattern part.now))
            (S.fields (spot_of spot.now)) place (reading_of self.old.buffer read.old.items)
            (reading_of self.new.buffer read.new.items)) }
        ensures frame { OnOk result (self.new.frame ≡ self.old.frame) }
        ensures context { OnOk result (self.new.context ≡ self.old.context) }
        ensures gives_up { OnOk result (self.new.gives_up ≡ self.old.gives_up) }
        ensures walk { OnOk result (self.new.walk ≡ self.old.walk) }
    {
        let field = spot.field(place)?;
        if !names_any(part) {
            return Ok(());
        }
        self.read(spot.register, place, field.register, read)?;
        self.read_named(part, field, read)?;
        Ok(())
    }

    // What is known where a test failed.
    fn failed_kinds(
        &self,
        choice: &Choice<'_>,
        known: &Knowledge,
        read: &[u16],
    ) -> Result<Vec<Kind>, NoMemory>
        ensures reported { IfOk result (λ v. v.items ≡ failed_reported (setting self.now.context.now) self.now.frame.held
            choice.now.ty (spot_of choice.now.root) (View.known known.now) read.now) }
    {
        let mut kinds = self
            .frame
            .kinds(self.context.alloc, &self.context.program.types)?;
        let root = self.overlay_root(&mut kinds, choice, known)?;
        let overlay = Overlay { root, read };
        self.overlay_fields(&mut kinds, &choice.root, choice.ty, known, overlay)?;
        Ok(kinds)
    }

    // What is known of the scrutinee; the register in whose tree its fields are.
    fn overlay_root(
        &self,
        kinds: &mut Vec<Kind>,
        choice: &Choice<'_>,
        known: &Knowledge,
    ) -> Result<Option<u16>, NoMemory>
        ensures root { IfOk result (λ o. o ≡ root_of (S.register (spot_of choice.now.root))
            (get_or self.now.frame.held (S.register (spot_of choice.now.root)) H.Nothing)) }
        ensures kinds { OnOk result (kinds.new.items ≡ with_root self.now.context.now.program.now.types choice.now.ty
            (get_or self.now.frame.held (S.register (spot_of choice.now.root)) H.Nothing) (View.known known.now)
            (S.register (spot_of choice.now.root)) kinds.old.items) }
    {
        let register = choice.root.register;
        let ty = choice.ty;
        let constructors = left_of(self.context.alloc, &self.context.program.types, ty, known)?;
        match self.frame.at(register) {
            Held::Owned { .. } => {
                set_kind(kinds, register, Kind::Owned { ty, constructors });
                Ok(Some(register))
            }
            Held::Lent { root, .. } => {
                let kind = Kind::Lent {
                    ty,
                    constructors,
                    root,
                    from: None,
                };
                set_kind(kinds, register, kind);
                Ok(root)
            }
            Held::Nothing => Ok(None),
            Held::Scalar { .. } => Ok(None),
            Held::Credit { .. } => Ok(None),
            Held::Bare { .. } => Ok(None),
        }
    }

    // What is known of the fields of a position whose constructor is known.
    #[cycle(overlay)]
    fn overlay_fields(
        &self,
        kinds: &mut Vec<Kind>,
        spot: &Spot,
        ty: u32,
        known: &Knowledge,
        overlay: Overlay<'_>,
    ) -> Result<(), NoMemory>
        ensures kinds { OnOk result (kinds.new.items ≡ overlaid (setting self.now.context.now) overlay.entry.root
            overlay.entry.read.now ty (View.known known.now) (spot_of spot.now) kinds.old.items) }
    {
        match known {
            Knowledge::Open(_) => Ok(()),
            Knowledge::Is(head, parts) => match head {
                Head::Number(_) => Ok(()),
                Head::Tag(constructor) => {
                    let types = fields_of(&self.context.program.types, ty, *constructor);
                    self.overlay_all(kinds, spot, types, parts.as_slice(), overlay)?;
                    Ok(())
                }
            },
        }
    }

    #[cycle(overlay)]
    fn overlay_all(
        &self,
        kinds: &mut Vec<Kind>,
        spot: &Spot,
        types: &[u32],
        parts: &[Knowledge],
        overlay: Overlay<'_>,
    ) -> Result<(), NoMemory>
        ensures kinds { OnOk result (kinds.new.items ≡ overlaid_all (setting self.now.context.now) overlay.entry.root
            overlay.entry.read.now types.now (View.knowns parts.now) (S.fields (spot_of spot.now))
            (S.register (spot_of spot.now)) 0 kinds.old.items) }
    {
        let mut field: usize = 0;
        for part in parts {
            match types.get(field) {
                None => {}
                Some(ty) => self.overlay_field(kinds, spot, *ty, part, field, overlay)?,
            }
            field += 1;
        }
        Ok(())
    }

    // What is known of a field, where it was read.
    #[cycle(overlay)]
    fn overlay_field(
        &self,
        kinds: &mut Vec<Kind>,
        spot: &Spot,
        ty: u32,
        part: &Knowledge,
        field: usize,
        overlay: Overlay<'_>,
    ) -> Result<(), NoMemory>
        ensures kinds { OnOk result (kinds.new.items ≡ field_overlaid (setting self.now.context.now) overlay.entry.root
            overlay.entry.read.now ty (View.known part.now) (spot_at (S.fields (spot_of spot.now)) field)
            (S.register (spot_of spot.now)) field kinds.old.items) }
    {
        match spot.fields.get(field) {
            None => Ok(()),
            Some(child) => {
                if contains(overlay.read, child.register) {
                    let from = From {
                        register: spot.register,
                        field: u8::try_from(field).map_err(|_| NoMemory)?,
                    };
                    let kind = self.part_kind(overlay.root, from, ty, part)?;
                    set_kind(kinds, child.register, kind);
                    self.overlay_fields(kinds, child, ty, part, overlay)?;
                }
                Ok(())
            }
        }
    }

    // The kind of a field that was read.
    fn part_kind(
        &self,
        root: Option<u16>,
        from: From,
        ty: u32,
        known: &Knowledge,
    ) -> Result<Kind, NoMemory>
        ensures kind { IfOk result (λ k. k ≡ part_reported (setting self.now.context.now) root ty (View.known known.now)
            from.register from.field) }
    {
        if self.context.is_scalar(ty) {
            return Ok(Kind::Scalar { ty });
        }
        Ok(Kind::Lent {
            ty,
            constructors: left_of(self.context.alloc, &self.context.program.types, ty, known)?,
            root,
            from: Some(from),
        })
    }

    // Takes the cells of a pattern's constructors apart, from the root on. One without fields stays for its clause.
    #[cycle(taking)]
    fn take_apart(&mut self, pattern: &Pattern, spot: &Spot) -> Result<(), NoMemory>
        ensures takes { OnOk result (self.new.buffer ≡ taking (V.pattern pattern.now) (spot_of spot.now)
            self.old.buffer) }
        ensures frame { OnOk result (self.new.frame ≡ self.old.frame) }
        ensures context { OnOk result (self.new.context ≡ self.old.context) }
        ensures gives_up { OnOk result (self.new.gives_up ≡ self.old.gives_up) }
        ensures walk { OnOk result (self.new.walk ≡ self.old.walk) }
    {
        match pattern {
            Pattern::Binder(_) => Ok(()),
            Pattern::Literal { .. } => Ok(()),
            Pattern::Constructor { patterns, .. } => {
                self.take_cell(patterns.as_slice(), spot)?;
                self.take_all(patterns.as_slice(), spot.fields.as_slice())?;
                Ok(())
            }
        }
    }

    #[cycle(taking)]
    fn take_all(&mut self, patterns: &[Pattern], fields: &[Spot]) -> Result<(), NoMemory>
        ensures takes { OnOk result (self.new.buffer ≡ taking_all (V.patterns patterns.now) (spots_of fields.now)
            self.old.buffer) }
        ensures frame { OnOk result (self.new.frame ≡ self.old.frame) }
        ensures context { OnOk result (self.new.context ≡ self.old.context) }
        ensures gives_up { OnOk result (self.new.gives_up ≡ self.old.gives_up) }
        ensures walk { OnOk result (self.new.walk ≡ self.old.walk) }
    {
        let mut place: usize = 0;
        for part in patterns {
            self.take_part(part, fields, place)?;
            place += 1;
        }
        Ok(())
    }

    #[cycle(taking)]
    fn take_part(&mut self, part: &Pattern, fields: &[Spot], place: usize) -> Result<(), NoMemory>
        ensures takes { OnOk result (AtSpot (taking (V.pattern part.now)) (spots_of fields.now) place self.old.buffer
            self.new.buffer) }
        ensures frame { OnOk result (self.new.frame ≡ self.old.frame) }
        ensures context { OnOk result (self.new.context ≡ self.old.context) }
        ensures gives_up { OnOk result (self.new.gives_up ≡ self.old.gives_up) }
        ensures walk { OnOk result (self.new.walk ≡ self.old.walk) }
    {
        let field = field_at(fields, place)?;
        self.take_apart(part, field)?;
        Ok(())
    }

    // Takes the cell of a constructor with fields apart.
    fn take_cell(&mut self, patterns: &[Pattern], spot: &Spot) -> Result<(), NoMemory>
        ensures takes { OnOk result (self.new.buffer ≡ take_if (S.register (spot_of spot.now))
            (V.patterns patterns.now) (S.fields (spot_of spot.now)) self.old.buffer) }
        ensures frame { OnOk result (self.new.frame ≡ self.old.frame) }
        ensures context { OnOk result (self.new.context ≡ self.old.context) }
        ensures gives_up { OnOk result (self.new.gives_up ≡ self.old.gives_up) }
        ensures walk { OnOk result (self.new.walk ≡ self.old.walk) }
    {
        if patterns.is_empty() {
            return Ok(());
        }
        self.buffer.add(Instr::Take {
            register: spot.register,
            fields: registers_of(self.context.alloc, patterns, spot.fields.as_slice())?,
        })?;
        Ok(())
    }
}
