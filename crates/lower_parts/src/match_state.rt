// A match that is being written.
ghost use Rattle.std.specs.Prelude.{◌≡◌, ◌<◌, [], ◌∷◌, None, IfOk};
ghost use Rattle.lower_parts.specs.Scenes.{first_side, sides_of};
ghost use Rattle.lower_frame.specs.Registers.{registers};

use crate::choice::{Choice, Side, start_of};
use fip_base::plain::NoMemory;
use fip_trees::sizes::Sizes;
use lower_frame::Frame;
use std::alloc::Global;

/// A match that is being written.
#[derive(Drop)]
pub struct Matching<'c> {
    pub choice: Choice<'c>,
    /// What is known at its start; the positions have registers.
    pub entry: Frame,
    /// The registers of trees that a clause may use up.
    pub used: Vec<bool>,
    pub need: Sizes,
    /// The label of the place where the clauses meet.
    pub end: u32,
}

/// How far a match is written.
#[derive(Drop)]
pub struct Progress {
    /// Where tests aren't written yet; the last one is next.
    pub sides: Vec<Side>,
    /// The number of the next clause.
    pub clause: usize,
    /// What is known at the ends of all clauses so far.
    pub joined: Option<Frame>,
}

impl Progress {
    /// At the start of a match.
    pub fn new(alloc: Global) -> Result<Progress, NoMemory>
        ensures sides { IfOk result (λ p. sides_of p.sides.items ≡ first_side ∷ []) }
        ensures clause { IfOk result (λ p. p.clause ≡ 0) }
        ensures joined { IfOk result (λ p. p.joined ≡ None) }
    {
        Ok(Progress {
            sides: start_of(alloc)?,
            clause: 0,
            joined: None,
        })
    }
}
