// Values of arguments, and where they go.
ghost use Rattle.std.specs.Prelude.{◌≡◌, true, false, not, [], IfOk, OnOk, slice_get};
ghost use Rattle.fip_trees.specs.TreeView as V;
ghost use Rattle.cell_code.specs.declared.code.Instr.TheVariants as I;
ghost use Rattle.lower_parts.specs.lowering_relation.declared.held.Held.TheVariants as H;
ghost use Rattle.lower_parts.specs.lowering_relation.Known as K;
ghost use Rattle.lower_parts.specs.lowering_relation.Losing.{Loses};
ghost use Rattle.lower_parts.specs.lowering_relation.Written.{GivesUp, added};
ghost use Rattle.lower_parts.specs.lower_frame.Credits.{NoBares, is_bare};
ghost use Rattle.lower_parts.specs.lower_frame.Registers.{HasRoom};
ghost use Rattle.lower_parts.specs.Growth.{Sheds};
ghost use Rattle.lower_parts.specs.Laying.{GivesLaid, GivesUpLaid};
ghost use Rattle.lower_parts.specs.Writing.{setting, target_of, Builds, Computes, ComputesAll, Gives, Moves};
ghost use Rattle.lower_parts.specs.Writing.{MovesOne, MovesTo};

use crate::lowerer::Lowerer;
use cell_code::{Instr, Registers};
use fip_base::plain::NoMemory;
use fip_trees::program::Argument;
use lower_parts::context::Target;
use lower_parts::frame::as_value;
use lower_parts::frame::relation::Held;

impl<'a> Lowerer<'a> {
    /// The register that holds the value of an argument: a variable's own, or that of what is built.
    #[cycle(value)]
    #[tactic(auto, using(lower_parts::proofs::Writing::writing))]
    pub fn value(&mut self, argument: &Argument) -> Result<u16, NoMemory>
        ensures computes { IfOk result (λ r. Computes (setting self.old.context.now) self.old.frame self.old.buffer
            (V.argument argument.now) r self.new.frame self.new.buffer) }
        ensures context { OnOk result (self.new.context ≡ self.old.context) }
        ensures walk { OnOk result (self.new.walk ≡ self.old.walk) }
        ensures gives_up { OnOk result (self.new.gives_up ≡ self.old.gives_up) }
    {
        match argument {
            // A variable of a typed program is bound before it is used.
            Argument::Variable { binder, .. } => self.frame.register_of(*binder).ok_or(NoMemory),
            Argument::Literal { value, .. } => {
                let register = self.literal(*value)?;
                Ok(register)
            }
            Argument::Constructor {
                ty,
                number,
                arguments,
                ..
            } => {
                let fields = self.values(arguments.as_slice())?;
                let register = self.construct(*ty, *number, fields.as_slice())?;
                Ok(register)
            }
        }
    }

    /// The registers that hold the values of arguments.
    #[cycle(value)]
    #[tactic(auto, using(lower_parts::proofs::Writing::following))]
    pub fn values(&mut self, arguments: &[Argument]) -> Result<Vec<u16>, NoMemory>
        ensures computes { IfOk result (λ rs. ComputesAll (setting self.old.context.now) self.old.frame
            self.old.buffer (V.arguments arguments.now) rs.items self.new.frame self.new.buffer) }
        ensures context { OnOk result (self.new.context ≡ self.old.context) }
        ensures walk { OnOk result (self.new.walk ≡ self.old.walk) }
        ensures gives_up { OnOk result (self.new.gives_up ≡ self.old.gives_up) }
    {
        let mut registers = Vec::new(self.context.alloc);
        for argument in arguments {
            registers.push(self.value(argument)?)?;
        }
        Ok(registers)
    }

    fn literal(&mut self, value: i64) -> Result<u16, NoMemory>
        ensures register { IfOk result (λ r. r ≡ self.old.frame.next) }
        ensures known { OnOk result (self.new.frame ≡ K.with_next self.old.frame (H.Scalar 0)) }
        ensures written { OnOk result (self.new.buffer ≡ added self.old.buffer (I.Const self.old.frame.next value)) }
        ensures room { OnOk result (HasRoom self.old.frame self.new.frame) }
        ensures context { OnOk result (self.new.context ≡ self.old.context) }
        ensures walk { OnOk result (self.new.walk ≡ self.old.walk) }
        ensures gives_up { OnOk result (self.new.gives_up ≡ self.old.gives_up) }
    {
        let destination = self.frame.fresh()?;
        self.buffer.add(Instr::Const { destination, value })?;
        self.frame.set(destination, Held::Scalar { ty: 0 });
        Ok(destination)
    }

    // A constructor of these fields. One with fields is put into the cell of the last credit of its size, which is
    // there since no body needs more than it has.
    #[tactic(auto, using(lower_parts::proofs::Writing::writing))]
    fn construct(&mut self, ty: u32, constructor: u32, fields: &[u16]) -> Result<u16, NoMemory>
        ensures builds { IfOk result (λ r. Builds (setting self.old.context.now) self.old.frame self.old.buffer ty
            constructor fields.now r self.new.frame self.new.buffer) }
        ensures context { OnOk result (self.new.context ≡ self.old.context) }
        ensures walk { OnOk result (self.new.walk ≡ self.old.walk) }
        ensures gives_up { OnOk result (self.new.gives_up ≡ self.old.gives_up) }
    {
        if fields.is_empty() {
            return self.atom(ty, constructor);
        }
        let register = self.frame.take_credit(fields.len()).ok_or(NoMemory)?;
        self.buffer.add(Instr::Put {
            register,
            ty,
            constructor,
            fields: Registers::of(self.context.alloc, fields)?,
        })?;
        self.use_up_all(fields);
        let built = Some(constructor);
        self.frame.set(register, Held::Owned { ty, built });
        Ok(register)
    }

    // A constructor without fields: one that was matched, or a new one.
    #[tactic(auto, using(lower_parts::proofs::Writing::writing))]
    fn atom(&mut self, ty: u32, constructor: u32) -> Result<u16, NoMemory>
        ensures builds { IfOk result (λ r. Builds (setting self.old.context.now) self.old.frame self.old.buffer ty
            constructor [] r self.new.frame self.new.buffer) }
        ensures context { OnOk result (self.new.context ≡ self.old.context) }
        ensures walk { OnOk result (self.new.walk ≡ self.old.walk) }
        ensures gives_up { OnOk result (self.new.gives_up ≡ self.old.gives_up) }
    {
        match self.frame.take_bare(ty, constructor) {
            Some(register) => {
                let built = Some(constructor);
                self.frame.set(register, Held::Owned { ty, built });
                Ok(register)
            }
            None => {
                let destination = self.frame.fresh()?;
                self.buffer.add(Instr::Atom {
                    destination,
                    ty,
                    constructor,
                })?;
                let held = self.context.built(ty, constructor);
                self.frame.set(destination, held);
                Ok(destination)
            }
        }
    }

    /// What these registers own is used up.
    #[tactic(auto, using(lower_parts::proofs::Writing::using_up))]
    pub fn use_up_all(&mut self, registers: &[u16])
        ensures used { self.new.frame ≡ K.using self.old.frame (K.used_all self.old.frame.held registers.now) }
        ensures context { self.new.context ≡ self.old.context }
        ensures walk { self.new.walk ≡ self.old.walk }
        ensures buffer { self.new.buffer ≡ self.old.buffer }
        ensures gives_up { self.new.gives_up ≡ self.old.gives_up }
    {
        for register in registers {
            self.frame.use_up(*register);
        }
    }

    /// Uses up each constructor without fields that was matched and is not used.
    #[tactic(auto, using(lower_parts::proofs::Losing::giving_up, lower_parts::proofs::Laying::spending))]
    pub fn end_bare(&mut self) -> Result<(), NoMemory>
        ensures given_up { OnOk result (GivesUp self.old.buffer self.new.buffer) }
        ensures loses { OnOk result (Loses self.old.frame self.new.frame) }
        ensures sheds { OnOk result (Sheds self.old.frame self.old.buffer self.new.frame self.new.buffer) }
        ensures context { OnOk result (self.new.context ≡ self.old.context) }
        ensures laid { OnOk result (GivesUpLaid true self.old.frame self.old.buffer self.new.frame self.new.buffer) }
        ensures bares { OnOk result (NoBares self.old.frame.next self.new.frame.held) }
        ensures gives_up { OnOk result (self.new.gives_up ≡ self.old.gives_up) }
        ensures walk { OnOk result (self.new.walk ≡ self.old.walk) }
    {
        for register in 0..self.frame.next() {
            self.end_one(register)?;
        }
        Ok(())
    }

    #[tactic(auto, using(lower_parts::proofs::Losing::giving_up, lower_parts::proofs::Laying::spending))]
    fn end_one(&mut self, register: u16) -> Result<(), NoMemory>
        ensures given_up { OnOk result (GivesUp self.old.buffer self.new.buffer) }
        ensures loses { OnOk result (Loses self.old.frame self.new.frame) }
        ensures sheds { OnOk result (Sheds self.old.frame self.old.buffer self.new.frame self.new.buffer) }
        ensures context { OnOk result (self.new.context ≡ self.old.context) }
        ensures laid { OnOk result (GivesUpLaid true self.old.frame self.old.buffer self.new.frame self.new.buffer) }
        ensures bare { OnOk result (is_bare (slice_get self.new.frame.held register) ≡ false) }
        ensures gives_up { OnOk result (self.new.gives_up ≡ self.old.gives_up) }
        ensures walk { OnOk result (self.new.walk ≡ self.old.walk) }
    {
        if self.frame.is_bare(register) {
            self.frame.set(register, Held::Nothing);
            self.buffer.add(Instr::Take {
                register,
                fields: Registers::new(self.context.alloc),
            })?;
        }
        Ok(())
    }

    /// Hands results on.
    #[tactic(auto, using(lower_parts::proofs::Writing::giving, lower_parts::proofs::Laying::ending))]
    pub fn give(&mut self, results: &[u16], target: Target<'_>) -> Result<(), NoMemory>
        ensures gives { OnOk result (Gives self.old.frame self.old.buffer results.now (target_of target.entry)
            self.new.frame self.new.buffer) }
        ensures context { OnOk result (self.new.context ≡ self.old.context) }
        ensures gives_up { OnOk result (self.new.gives_up ≡ self.old.gives_up) }
        ensures walk { OnOk result (self.new.walk ≡ self.old.walk) }
        ensures laid { OnOk result (GivesLaid (not self.old.gives_up) self.old.frame self.old.buffer results.now
            (target_of target.entry) self.new.frame self.new.buffer) }
    {
        match target {
            Target::Return => {
                self.use_up_all(results);
                self.end_bare()?;
                self.give_up_all()?;
                self.buffer.add(Instr::Ret {
                    results: Registers::of(self.context.alloc, results)?,
                })?;
                Ok(())
            }
            Target::Into(destinations) => {
                self.move_all(results, destinations)?;
                Ok(())
            }
        }
    }

    // Registers get the words of others.
    #[tactic(auto, using(lower_parts::proofs::Writing::moving))]
    fn move_all(&mut self, sources: &[u16], destinations: &[u16]) -> Result<(), NoMemory>
        ensures moves { OnOk result (Moves self.old.frame self.old.buffer sources.now destinations.now
            self.new.frame self.new.buffer) }
        ensures context { OnOk result (self.new.context ≡ self.old.context) }
        ensures gives_up { OnOk result (self.new.gives_up ≡ self.old.gives_up) }
        ensures walk { OnOk result (self.new.walk ≡ self.old.walk) }
    {
        let mut place = 0;
        for source in sources {
            self.move_to(*source, destinations, place)?;
            place += 1;
        }
        Ok(())
    }

    // A register's word goes to the destination at a place, where there is one.
    fn move_to(&mut self, source: u16, destinations: &[u16], place: usize) -> Result<(), NoMemory>
        ensures moves { OnOk result (MovesTo self.old.frame self.old.buffer source (slice_get destinations.now place)
            self.new.frame self.new.buffer) }
        ensures context { OnOk result (self.new.context ≡ self.old.context) }
        ensures gives_up { OnOk result (self.new.gives_up ≡ self.old.gives_up) }
        ensures walk { OnOk result (self.new.walk ≡ self.old.walk) }
    {
        match destinations.get(place) {
            None => Ok(()),
            Some(destination) => self.move_word(source, *destination),
        }
    }

    // A register gets the word of another.
    #[tactic(auto, using(lower_parts::proofs::Writing::moving))]
    fn move_word(&mut self, source: u16, destination: u16) -> Result<(), NoMemory>
        ensures moves { OnOk result (MovesOne self.old.frame self.old.buffer source destination
            self.new.frame self.new.buffer) }
        ensures context { OnOk result (self.new.context ≡ self.old.context) }
        ensures gives_up { OnOk result (self.new.gives_up ≡ self.old.gives_up) }
        ensures walk { OnOk result (self.new.walk ≡ self.old.walk) }
    {
        if source == destination {
            return Ok(());
        }
        self.buffer.add(Instr::Move {
            destination,
            source,
        })?;
        let held = as_value(self.frame.at(source));
        self.frame.use_up(source);
        self.frame.set(destination, held);
        Ok(())
    }
}
