// Operators and calls.
ghost use Rattle.std.specs.Prelude.{◌≡◌, not, IfOk, OnOk, Some, slice_get};
ghost use Rattle.lower_parts.specs.lowering_relation.declared.held.Held.{Held as a_held};
ghost use Rattle.fip_trees.specs.TreeView as V;
ghost use Rattle.lower_parts.specs.lowering_relation.LoweredBodies as B;
ghost use Rattle.lower_parts.specs.lowering_relation.Known as K;
ghost use Rattle.lower_parts.specs.lower_frame.Registers.{HasRoom};
ghost use Rattle.lower_parts.specs.Laying.{CallsLaid, EndsLaid, OperatesLaid};
ghost use Rattle.lower_parts.specs.Writing.{setting, target_of, handed_at, received_at, CallsAt, EndsCall, Operates};
ghost use Rattle.lower_parts.specs.Writing.{TakesAll, TakesOne};

use crate::lowerer::Lowerer;
use cell_code::{Instr, Registers};
use fip_base::plain::{NoMemory, Operator, Param, Place};
use fip_trees::program::Instance;
use lower_parts::context::{Context, Target};
use lower_parts::frame::relation::Held;

/// An operator and where it stands.
#[derive(Clone, Copy)]
pub struct Applied {
    pub operator: Operator,
    pub place: Place,
}

impl<'a> Lowerer<'a> {
    /// An operator applied to two registers.
    #[tactic(auto, using(lower_parts::proofs::Calling::operating))]
    pub fn operation(
        &mut self,
        applied: Applied,
        left: u16,
        right: u16,
        target: Target<'_>,
    ) -> Result<(), NoMemory>
        ensures operates { OnOk result (Operates self.old.frame self.old.buffer applied.operator applied.place left
            right (target_of target.entry) self.new.frame self.new.buffer) }
        ensures context { OnOk result (self.new.context ≡ self.old.context) }
        ensures gives_up { OnOk result (self.new.gives_up ≡ self.old.gives_up) }
        ensures walk { OnOk result (self.new.walk ≡ self.old.walk) }
        ensures laid { OnOk result (OperatesLaid (not self.old.gives_up) self.old.frame self.old.buffer applied.operator
            applied.place left right (target_of target.entry) self.new.frame self.new.buffer) }
    {
        let destination = self.first_of(target)?;
        self.buffer.add(Instr::Arith {
            destination,
            operator: applied.operator,
            left,
            right,
            line: narrow(applied.place.line)?,
            col: narrow(applied.place.col)?,
        })?;
        let ty = result_of(applied.operator);
        self.frame.set(destination, Held::Scalar { ty });
        self.give(&[destination], target)?;
        Ok(())
    }

    // The register that a single result goes to.
    fn first_of(&mut self, target: Target<'_>) -> Result<u16, NoMemory>
        ensures goes { IfOk result (λ d. (h : a_held) → B.GoesTo (target_of target.entry) self.old.frame h d
            (K.holding self.new.frame d h)) }
        ensures context { OnOk result (self.new.context ≡ self.old.context) }
        ensures walk { OnOk result (self.new.walk ≡ self.old.walk) }
        ensures gives_up { OnOk result (self.new.gives_up ≡ self.old.gives_up) }
        ensures buffer { OnOk result (self.new.buffer ≡ self.old.buffer) }
        ensures room { OnOk result (HasRoom self.old.frame self.new.frame) }
    {
        match target {
            Target::Return => self.frame.fresh(),
            Target::Into(registers) => match registers.first() {
                Some(register) => Ok(*register),
                None => self.frame.fresh(),
            },
        }
    }

    /// A call of an instance with arguments in these registers; where its results are the function's own, its frame
    /// takes the place of this one.
    #[tactic(auto, using(lower_parts::proofs::Calling::calling))]
    pub fn call(
        &mut self,
        callee: u32,
        arguments: Vec<u16>,
        target: Target<'_>,
    ) -> Result<(), NoMemory>
        ensures calls { OnOk result (CallsAt (setting self.old.context.now) self.old.frame self.old.buffer callee
            arguments.items (target_of target.entry) self.new.frame self.new.buffer) }
        ensures context { OnOk result (self.new.context ≡ self.old.context) }
        ensures gives_up { OnOk result (self.new.gives_up ≡ self.old.gives_up) }
        ensures walk { OnOk result (self.new.walk ≡ self.old.walk) }
        ensures laid { OnOk result (CallsLaid (setting self.old.context.now) (not self.old.gives_up) self.old.frame
            self.old.buffer callee arguments.items (target_of target.entry) self.new.frame self.new.buffer) }
    {
        let context = self.context;
        let function = function_of(context, callee)?;
        let instance = instance_of(context, callee)?;
        let mut registers = arguments;
        self.hand_over(instance.params.as_slice(), registers.as_slice());
        self.take_credits(instance.credits.as_slice(), &mut registers)?;
        let arguments = Registers::of(context.alloc, registers.as_slice())?;
        self.end_call(function, arguments, instance, target)?;
        Ok(())
    }

    // A call or a tail call, with these arguments and credits.
    #[tactic(auto, using(lower_parts::proofs::Calling::calling))]
    fn end_call(
        &mut self,
        function: u32,
        arguments: Registers,
        instance: &Instance,
        target: Target<'_>,
    ) -> Result<(), NoMemory>
        ensures ends { OnOk result (EndsCall (setting self.old.context.now) self.old.frame self.old.buffer function
            arguments instance.now.results (target_of target.entry) self.new.frame self.new.buffer) }
        ensures context { OnOk result (self.new.context ≡ self.old.context) }
        ensures gives_up { OnOk result (self.new.gives_up ≡ self.old.gives_up) }
        ensures walk { OnOk result (self.new.walk ≡ self.old.walk) }
        ensures laid { OnOk result (EndsLaid (setting self.old.context.now) (not self.old.gives_up) self.old.frame
            self.old.buffer function arguments instance.now.results (target_of target.entry) self.new.frame
            self.new.buffer) }
    {
        match target {
            Target::Return => {
                self.end_bare()?;
                self.give_up_all()?;
                self.buffer.add(Instr::Tail {
                    function,
                    arguments,
                })?;
                Ok(())
            }
            Target::Into(destinations) => {
                self.buffer.add(Instr::Call {
                    function,
                    arguments,
                    destinations: Registers::of(self.context.alloc, destinations)?,
                })?;
                self.receive(instance.results.as_slice(), destinations);
                Ok(())
            }
        }
    }

    // What isn't lent is used up.
    #[tactic(auto, using(lower_parts::proofs::Calling::handing))]
    fn hand_over(&mut self, params: &[Param], registers: &[u16])
        ensures handed { self.new.frame ≡ K.using self.old.frame
            (B.handed self.old.frame.held params.now registers.now) }
        ensures context { self.new.context ≡ self.old.context }
        ensures walk { self.new.walk ≡ self.old.walk }
        ensures gives_up { self.new.gives_up ≡ self.old.gives_up }
        ensures buffer { self.new.buffer ≡ self.old.buffer }
    {
        let mut place = 0;
        for param in params {
            self.hand_one(param, registers, place);
            place += 1;
        }
    }

    fn hand_one(&mut self, param: &Param, registers: &[u16], place: usize)
        ensures handed { self.new.frame ≡ K.using self.old.frame
            (handed_at self.old.frame.held param.now (slice_get registers.now place)) }
        ensures context { self.new.context ≡ self.old.context }
        ensures walk { self.new.walk ≡ self.old.walk }
        ensures gives_up { self.new.gives_up ≡ self.old.gives_up }
        ensures buffer { self.new.buffer ≡ self.old.buffer }
    {
        if let Some(register) = registers.get(place)
            && !param.lent
        {
            self.frame.use_up(*register);
        }
    }

    // Credits of these sizes are handed over too.
    #[tactic(auto, using(lower_parts::proofs::Calling::taking))]
    fn take_credits(&mut self, sizes: &[u8], registers: &mut Vec<u16>) -> Result<(), NoMemory>
        ensures taken { OnOk result (TakesAll self.old.frame sizes.now registers.old.items registers.new.items
            self.new.frame) }
        ensures context { OnOk result (self.new.context ≡ self.old.context) }
        ensures walk { OnOk result (self.new.walk ≡ self.old.walk) }
        ensures gives_up { OnOk result (self.new.gives_up ≡ self.old.gives_up) }
        ensures buffer { OnOk result (self.new.buffer ≡ self.old.buffer) }
    {
        for size in sizes {
            self.take_one(*size, registers)?;
        }
        Ok(())
    }

    fn take_one(&mut self, size: u8, registers: &mut Vec<u16>) -> Result<(), NoMemory>
        ensures taken { OnOk result (TakesOne self.old.frame size registers.old.items registers.new.items
            self.new.frame) }
        ensures context { OnOk result (self.new.context ≡ self.old.context) }
        ensures walk { OnOk result (self.new.walk ≡ self.old.walk) }
        ensures gives_up { OnOk result (self.new.gives_up ≡ self.old.gives_up) }
        ensures buffer { OnOk result (self.new.buffer ≡ self.old.buffer) }
    {
        let credit = self.frame.take_credit(size as usize).ok_or(NoMemory)?;
        registers.push(credit)?;
        Ok(())
    }

    // The results of a call are in these registers.
    #[tactic(auto, using(lower_parts::proofs::Calling::handing))]
    fn receive(&mut self, types: &[u32], destinations: &[u16])
        ensures received { self.new.frame ≡ K.using self.old.frame
            (B.received (setting self.old.context.now) self.old.frame.held types.now destinations.now) }
        ensures context { self.new.context ≡ self.old.context }
        ensures gives_up { self.new.gives_up ≡ self.old.gives_up }
        ensures walk { self.new.walk ≡ self.old.walk }
        ensures buffer { self.new.buffer ≡ self.old.buffer }
    {
        let mut place = 0;
        for ty in types {
            self.receive_one(*ty, destinations, place);
            place += 1;
        }
    }

    fn receive_one(&mut self, ty: u32, destinations: &[u16], place: usize)
        ensures received { self.new.frame ≡ K.using self.old.frame (received_at (setting self.old.context.now)
            self.old.frame.held ty (slice_get destinations.now place)) }
        ensures context { self.new.context ≡ self.old.context }
        ensures gives_up { self.new.gives_up ≡ self.old.gives_up }
        ensures walk { self.new.walk ≡ self.old.walk }
        ensures buffer { self.new.buffer ≡ self.old.buffer }
    {
        if let Some(register) = destinations.get(place) {
            let held = self.context.given(ty);
            self.frame.set(*register, held);
        }
    }
}

// The number of an instance's function. No instance that keeps the rules calls a plain one.
fn function_of(context: &Context<'_>, instance: u32) -> Result<u32, NoMemory>
    ensures numbered { IfOk result (λ f. K.joined (slice_get context.now.functions.items instance) ≡ Some f) }
{
    match context.functions.get(instance as usize) {
        None => Err(NoMemory),
        Some(function) => match *function {
            None => Err(NoMemory),
            Some(number) => Ok(number),
        },
    }
}

#[tactic(auto, using(lower_parts::proofs::Calling::numbering))]
fn instance_of<'a>(context: &Context<'a>, number: u32) -> Result<&'a Instance, NoMemory>
    ensures there { IfOk result (λ d. slice_get (V.instances context.now.program.now.instances.items) number
        ≡ Some (V.instance_of d.now)) }
{
    match context.program.instances.get(number as usize) {
        None => Err(NoMemory),
        Some(instance) => Ok(instance),
    }
}

// A number that an instruction can hold.
fn narrow(number: usize) -> Result<u32, NoMemory>
    ensures same { IfOk result (λ n. n ≡ number) }
{
    u32::try_from(number).map_err(|_| NoMemory)
}

// The type of an operator's result: int, or bool.
fn result_of(operator: Operator) -> u32
    ensures same { result ≡ B.result_type operator }
{
    match operator {
        Operator::Add => 0,
        Operator::Subtract => 0,
        Operator::Multiply => 0,
        Operator::Divide => 0,
        Operator::Remainder => 0,
        Operator::Equal => 1,
        Operator::NotEqual => 1,
        Operator::Less => 1,
        Operator::LessOrEqual => 1,
        Operator::Greater => 1,
        Operator::GreaterOrEqual => 1,
    }
}
