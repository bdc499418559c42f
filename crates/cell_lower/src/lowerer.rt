// What the lowering of a function knows and has written.
ghost use Rattle.std.specs.Prelude.{◌≡◌, ◌&&◌, not, [], IfOk, OnOk, drop, slice_get};
ghost use Rattle.fip_trees.specs.TreeView as V;
ghost use Rattle.lower_parts.specs.lowering_relation.LoweredFunctions as F;
ghost use Rattle.lower_parts.specs.lowering_relation.Values as S;
ghost use Rattle.lower_parts.specs.lowering_relation.Losing.{Loses};
ghost use Rattle.lower_parts.specs.lowering_relation.Written.{Extends, IsAt, size};
ghost use Rattle.lower_parts.specs.Leaving.{is_fbip, sizes_of};
ghost use Rattle.lower_parts.specs.Writing.{IsInRoom};
ghost use Rattle.lower_parts.specs.lowering_relation.Matches.{wide};
ghost use Rattle.lower_parts.specs.lower_frame.Frames.{kinds_reported};
ghost use Rattle.lower_parts.specs.lower_frame.Labels.{labels, telling};
ghost use Rattle.lower_parts.specs.lower_frame.Registers.{registers};
ghost use Rattle.lower_parts.specs.Leaving.{is_fbip, sizes_of};
ghost use Rattle.lower_parts.specs.Writing.{setting};

use fip_base::core_form::MatchKind;
use fip_base::plain::{FunKind, NoMemory};
use fip_trees::needs::Need;
use fip_trees::program::Instance;
use fip_trees::sizes::Sizes;
use lower_parts::context::Context;
use lower_parts::frame::relation::Held;
use lower_parts::frame::{Buffer, Frame};

/// The expressions of a function, one after another.
#[derive(Drop)]
pub struct Walk<'a> {
    /// The needs of those that are still to come, each before its parts.
    needs: &'a [Need],
}

impl<'a> Walk<'a> {
    /// Goes on to the next expression; what it needs.
    pub fn enter(&mut self) -> Sizes
        ensures need { result ≡ sizes_of (slice_get self.old.needs.now 0) }
        ensures needs { self.new.needs.now ≡ drop 1 self.old.needs.now }
    {
        match self.needs.split_first() {
            None => Sizes::none(),
            Some((need, rest)) => {
                self.needs = rest;
                need.sizes
            }
        }
    }
}

/// A function that is being lowered.
#[derive(Drop)]
pub struct Lowerer<'a> {
    pub context: &'a Context<'a>,
    /// The function's expressions.
    pub walk: Walk<'a>,
    /// Whether what is left over is given up.
    pub gives_up: bool,
    pub frame: Frame,
    pub buffer: Buffer,
}

impl<'a> Lowerer<'a> {
    /// At the start of a function.
    pub fn new(
        context: &'a Context<'a>,
        needs: &'a [Need],
        instance: &Instance,
        registers: usize,
    ) -> Result<Lowerer<'a>, NoMemory>
        ensures context { IfOk result (λ l. l.context.now ≡ context.now) }
        ensures known { IfOk result (λ l.
            l.frame ≡ F.known_at_start (setting context.now) registers (V.instance_of instance.now)) }
        ensures room { IfOk result (λ l. IsInRoom l.frame) }
        ensures empty { IfOk result (λ l. l.buffer ≡ record { instrs = []; places = []; maps = [] }) }
        ensures walk { IfOk result (λ l. l.walk.needs.now ≡ needs.now) }
        ensures gives_up { IfOk result (λ l. l.gives_up ≡ is_fbip instance.now.kind) }
    {
        Ok(Lowerer {
            context,
            walk: Walk { needs },
            gives_up: is_fbip(instance.kind),
            frame: context.start(instance, registers)?,
            buffer: Buffer::new(context.alloc),
        })
    }

    /// Whether a type is scalar.
    pub fn is_scalar(&self, ty: u32) -> bool
        ensures same { result ≡ S.is_scalar (setting self.now.context.now) ty }
    {
        self.context.is_scalar(ty)
    }

    /// Whether a match takes cells apart.
    pub fn takes_apart(&self, destructive: bool, ty: u32) -> bool
        ensures takes { result ≡ (destructive && not (S.is_scalar (setting self.now.context.now) ty)) }
    {
        destructive && !self.is_scalar(ty)
    }

    /// What a register holds that was given a value of a type.
    pub fn given(&self, ty: u32) -> Held {
        self.context.given(ty)
    }

    /// A register that isn't used yet.
    pub fn fresh(&mut self) -> Result<u16, NoMemory> {
        self.frame.fresh()
    }

    /// The place of a label is here, and it is reported what is known here, but for constructors that were built.
    #[tactic(auto, using(lower_parts::proofs::Shedding::widening))]
    pub fn put_label(&mut self, label: u32) -> Result<(), NoMemory>
        ensures loses { OnOk result (Loses self.old.frame self.new.frame) }
        ensures wide { OnOk result (self.new.frame ≡ wide self.old.frame) }
        ensures reported { OnOk result (self.new.buffer.maps ≡ telling (size self.old.buffer)
            (kinds_reported self.old.context.now.program.now.types self.new.frame.held) self.old.buffer.maps) }
        ensures registers { OnOk result (registers self.new.frame ≡ registers self.old.frame) }
        ensures extends { OnOk result (Extends self.old.buffer self.new.buffer) }
        ensures instrs { OnOk result (self.new.buffer.instrs ≡ self.old.buffer.instrs) }
        ensures placed { OnOk result (IsAt self.new.buffer label (size self.old.buffer)) }
        ensures labels { OnOk result (labels self.new.buffer ≡ labels self.old.buffer) }
        ensures context { OnOk result (self.new.context ≡ self.old.context) }
        ensures gives_up { OnOk result (self.new.gives_up ≡ self.old.gives_up) }
        ensures walk { OnOk result (self.new.walk ≡ self.old.walk) }
    {
        self.frame.widen();
        let program = self.context.program;
        let kinds = self.frame.kinds(self.context.alloc, &program.types)?;
        self.buffer.put_label(label, kinds)?;
        Ok(())
    }
}

// Whether what is left over in a function is given up.
fn is_fbip(kind: FunKind) -> bool
    ensures { result ≡ is_fbip kind }
{
    match kind {
        FunKind::Fip => false,
        FunKind::Fbip => true,
        FunKind::Fun => false,
    }
}

/// Whether a match is destructive.
pub fn is_destructive(kind: MatchKind) -> bool
    ensures { result ≡ V.is_destructive kind }
{
    match kind {
        MatchKind::Borrowing => false,
        MatchKind::Destructive => true,
    }
}
