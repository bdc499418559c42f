// What all functions of a program share while they are lowered, and what is known where one starts.
ghost use Rattle.std.specs.Prelude.{◌≡◌, ◌&&◌, IfOk, OnOk, slice_get};
ghost use Rattle.fip_trees.specs.TreeView as V;
ghost use Rattle.lower_frame.specs.lowering_relation.LoweredBodies as B;
ghost use Rattle.lower_frame.specs.lowering_relation.LoweredFunctions as F;
ghost use Rattle.lower_frame.specs.lowering_relation.Values as S;
ghost use Rattle.lower_frame.specs.lowering_relation.Written.{size};
ghost use Rattle.lower_parts.specs.Writing.{IsInRoom};
ghost use Rattle.lower_parts.specs.Writing.{param_at};
ghost use Rattle.lower_frame.specs.Registers.{registers};
ghost use Rattle.lower_parts.specs.Writing.{setting};

use fip_base::plain::{NoMemory, Param};
use fip_trees::program::{Binder, Instance, Program};
use fip_trees::scalars::Scalars;
use lower_frame::Frame;
use lower_frame::relation::Held;
use std::alloc::Global;

/// What all functions of a program share.
#[derive(Drop)]
pub struct Context<'a> {
    pub alloc: Global,
    pub program: &'a Program,
    pub scalars: Scalars,
    /// For each instance the number of its function; none for a plain one.
    pub functions: Vec<Option<u32>>,
}

/// Where the results of an expression go.
#[derive(Clone, Copy)]
pub enum Target<'t> {
    /// They are the function's.
    Return,
    /// Into these registers.
    Into(&'t [u16]),
}

impl<'a> Context<'a> {
    /// Whether a type is scalar.
    pub fn is_scalar(&self, ty: u32) -> bool
        ensures same { result ≡ S.is_scalar (setting self.now) ty }
    {
        self.scalars.is_scalar(ty)
    }

    /// What a register holds that was given a value of a type.
    pub fn given(&self, ty: u32) -> Held
        ensures same { result ≡ B.given (setting self.now) ty }
    {
        if self.is_scalar(ty) {
            Held::Scalar { ty }
        } else {
            Held::Owned { ty, built: None }
        }
    }

    /// What a register holds that has just got a constructor without fields.
    pub fn built(&self, ty: u32, constructor: u32) -> Held
        ensures same { result ≡ S.built (setting self.now) ty constructor }
    {
        if self.is_scalar(ty) {
            Held::Scalar { ty }
        } else {
            Held::Owned {
                ty,
                built: Some(constructor),
            }
        }
    }

    // What the register of a parameter holds.
    fn param_held(&self, param: &Param) -> Held
        ensures same { result ≡ F.param_held (setting self.now) param.now }
    {
        if param.lent && !self.is_scalar(param.ty) {
            Held::Lent {
                ty: param.ty,
                root: None,
            }
        } else {
            self.given(param.ty)
        }
    }

    /// What is known at the start of the function of an instance with so many registers: its parameters and credits are
    /// in the first ones.
    pub fn start(&self, instance: &Instance, registers: usize) -> Result<Frame, NoMemory>
        ensures start { IfOk result (λ f.
            f ≡ F.known_at_start (setting self.now) registers (V.instance_of instance.now)) }
        ensures room { IfOk result (λ f. IsInRoom f) }
    {
        let mut frame = Frame::new(self.alloc, registers, instance.variables)?;
        self.add_params(
            &mut frame,
            instance.params.as_slice(),
            instance.binders.as_slice(),
        )?;
        add_credits(&mut frame, instance.credits.as_slice())?;
        Ok(frame)
    }

    #[tactic(auto, using(crate::proofs::Starts::starting))]
    fn add_params(
        &self,
        frame: &mut Frame,
        params: &[Param],
        binders: &[Binder],
    ) -> Result<(), NoMemory>
        ensures added { OnOk result (frame.new ≡ F.with_params (setting self.now) frame.old params.now binders.now) }
        ensures room { OnOk result (IsInRoom frame.old → IsInRoom frame.new) }
    {
        let mut place = 0;
        for param in params {
            self.add_param(frame, param, binders, place)?;
            place += 1;
        }
        Ok(())
    }

    // A parameter, where it has a binder.
    fn add_param(
        &self,
        frame: &mut Frame,
        param: &Param,
        binders: &[Binder],
        place: usize,
    ) -> Result<(), NoMemory>
        ensures added { OnOk result (frame.new ≡ param_at (setting self.now) frame.old param.now
            (slice_get binders.now place)) }
        ensures room { OnOk result (IsInRoom frame.old → IsInRoom frame.new) }
    {
        match binders.get(place) {
            None => Ok(()),
            Some(binder) => {
                let register = frame.fresh()?;
                frame.bind(binder.number, register);
                frame.set(register, self.param_held(param));
                Ok(())
            }
        }
    }
}

#[tactic(auto, using(crate::proofs::Starts::starting))]
pub fn add_credits(frame: &mut Frame, sizes: &[u8]) -> Result<(), NoMemory>
    ensures added { OnOk result (frame.new ≡ F.with_credits frame.old sizes.now) }
    ensures room { OnOk result (IsInRoom frame.old → IsInRoom frame.new) }
{
    for size in sizes {
        add_one_credit(frame, *size)?;
    }
    Ok(())
}

pub fn add_one_credit(frame: &mut Frame, size: u8) -> Result<(), NoMemory>
    ensures added { OnOk result (frame.new ≡ F.with_next_credit frame.old size) }
    ensures room { OnOk result (IsInRoom frame.old → IsInRoom frame.new) }
{
    let register = frame.fresh()?;
    frame.add_credit(size as usize, register)
}
