// What is left over in an fbip function is given up: trees are dropped, cells of credits are freed.
ghost use Rattle.std.specs.Prelude.{◌≡◌, ◌-◌, false, not, OnOk, slice_get};
ghost use Rattle.lower_parts.specs.lowering_relation.Known.{is_owned};
ghost use Rattle.lower_parts.specs.lowering_relation.Losing.{Loses};
ghost use Rattle.lower_parts.specs.lowering_relation.Written.{GivesUp};
ghost use Rattle.lower_parts.specs.lower_frame.Credits.{NoTrees, sized};
ghost use Rattle.lower_parts.specs.Growth.{Sheds};
ghost use Rattle.lower_parts.specs.Laying.{AllGone, GivesUpLaid, SpendsAll, SpendsPast};
ghost use Rattle.lower_parts.specs.Leaving.{DropsBut, DropsUnless, FreesBut, FreesPast, LeavesLaid, kept_of, stays_at};
ghost use Rattle.lower_parts.specs.Writing.{setting};
ghost use Rattle.fip_language.specs.declared.limits.TheConstants.{MOST_FIELDS};

use crate::lowerer::Lowerer;
use crate::marks::is_marked;
use cell_code::Instr;
use fip_base::plain::NoMemory;
use fip_language::limits::MOST_FIELDS;
use fip_trees::sizes::Sizes;
use lower_parts::choice::contains;
use lower_parts::frame::Frame;

impl<'a> Lowerer<'a> {
    /// Gives up all that is left when the function ends.
    #[tactic(auto, using(lower_parts::proofs::Losing::giving_up, lower_parts::proofs::Laying::spending))]
    pub fn give_up_all(&mut self) -> Result<(), NoMemory>
        ensures given_up { OnOk result (GivesUp self.old.buffer self.new.buffer) }
        ensures loses { OnOk result (Loses self.old.frame self.new.frame) }
        ensures sheds { OnOk result (Sheds self.old.frame self.old.buffer self.new.frame self.new.buffer) }
        ensures context { OnOk result (self.new.context ≡ self.old.context) }
        ensures gives_up { OnOk result (self.new.gives_up ≡ self.old.gives_up) }
        ensures walk { OnOk result (self.new.walk ≡ self.old.walk) }
        ensures laid { OnOk result (GivesUpLaid (not self.old.gives_up) self.old.frame self.old.buffer self.new.frame
            self.new.buffer) }
        ensures gone { OnOk result (AllGone (not self.old.gives_up) self.old.frame self.new.frame) }
    {
        if !self.gives_up {
            return Ok(());
        }
        self.drop_all()?;
        self.free_all()?;
        Ok(())
    }

    #[tactic(auto, using(lower_parts::proofs::Losing::giving_up, lower_parts::proofs::Laying::spending))]
    fn drop_all(&mut self) -> Result<(), NoMemory>
        ensures given_up { OnOk result (GivesUp self.old.buffer self.new.buffer) }
        ensures loses { OnOk result (Loses self.old.frame self.new.frame) }
        ensures sheds { OnOk result (Sheds self.old.frame self.old.buffer self.new.frame self.new.buffer) }
        ensures context { OnOk result (self.new.context ≡ self.old.context) }
        ensures gives_up { OnOk result (self.new.gives_up ≡ self.old.gives_up) }
        ensures walk { OnOk result (self.new.walk ≡ self.old.walk) }
        ensures laid { OnOk result (GivesUpLaid false self.old.frame self.old.buffer self.new.frame self.new.buffer) }
        ensures trees { OnOk result (NoTrees self.old.frame.next self.new.frame.held) }
    {
        for register in 0..self.frame.next() {
            self.drop_tree(register)?;
        }
        Ok(())
    }

    #[tactic(auto, using(lower_parts::proofs::Losing::giving_up, lower_parts::proofs::Laying::spending))]
    fn free_all(&mut self) -> Result<(), NoMemory>
        ensures given_up { OnOk result (GivesUp self.old.buffer self.new.buffer) }
        ensures loses { OnOk result (Loses self.old.frame self.new.frame) }
        ensures sheds { OnOk result (Sheds self.old.frame self.old.buffer self.new.frame self.new.buffer) }
        ensures context { OnOk result (self.new.context ≡ self.old.context) }
        ensures gives_up { OnOk result (self.new.gives_up ≡ self.old.gives_up) }
        ensures walk { OnOk result (self.new.walk ≡ self.old.walk) }
        ensures laid { OnOk result (GivesUpLaid false self.old.frame self.old.buffer self.new.frame self.new.buffer) }
        ensures spent { OnOk result (SpendsAll self.old.frame self.new.frame) }
    {
        for below in 0..MOST_FIELDS {
            self.free_past(below + 1, 0)?;
        }
        Ok(())
    }

    /// Gives up what a clause leaves and another doesn't: trees that weren't there at the entry of its match or that a
    /// clause may use up, and credits past those that are left where the match took what it needs. What the clause
    /// gives is kept.
    #[tactic(auto, using(lower_parts::proofs::Losing::giving_up, lower_parts::proofs::Leaving::leaving_over))]
    pub fn give_up_to(
        &mut self,
        entry: &Frame,
        used: &[bool],
        need: &Sizes,
        given: &[u16],
    ) -> Result<(), NoMemory>
        ensures given_up { OnOk result (GivesUp self.old.buffer self.new.buffer) }
        ensures loses { OnOk result (Loses self.old.frame self.new.frame) }
        ensures sheds { OnOk result (Sheds self.old.frame self.old.buffer self.new.frame self.new.buffer) }
        ensures context { OnOk result (self.new.context ≡ self.old.context) }
        ensures gives_up { OnOk result (self.new.gives_up ≡ self.old.gives_up) }
        ensures walk { OnOk result (self.new.walk ≡ self.old.walk) }
        ensures laid { OnOk result (GivesUpLaid (not self.old.gives_up) self.old.frame self.old.buffer self.new.frame
            self.new.buffer) }
        ensures over { OnOk result (LeavesLaid (setting self.old.context.now) (not self.old.gives_up) self.old.frame
            self.old.buffer entry.now used.now need.now given.now self.new.frame self.new.buffer) }
    {
        if !self.gives_up {
            return Ok(());
        }
        self.drop_but(entry, used, given)?;
        self.free_but(entry, need)?;
        Ok(())
    }

    // Drops what wasn't there at the entry of the match, or what a clause may use up, but not what the clause gives.
    #[tactic(auto, using(lower_parts::proofs::Losing::giving_up, lower_parts::proofs::Leaving::leaving_over))]
    fn drop_but(&mut self, entry: &Frame, used: &[bool], given: &[u16]) -> Result<(), NoMemory>
        ensures given_up { OnOk result (GivesUp self.old.buffer self.new.buffer) }
        ensures loses { OnOk result (Loses self.old.frame self.new.frame) }
        ensures sheds { OnOk result (Sheds self.old.frame self.old.buffer self.new.frame self.new.buffer) }
        ensures context { OnOk result (self.new.context ≡ self.old.context) }
        ensures gives_up { OnOk result (self.new.gives_up ≡ self.old.gives_up) }
        ensures walk { OnOk result (self.new.walk ≡ self.old.walk) }
        ensures laid { OnOk result (GivesUpLaid false self.old.frame self.old.buffer self.new.frame self.new.buffer) }
        ensures drops { OnOk result (DropsBut entry.now used.now given.now self.old.frame.next self.old.frame
            self.new.frame) }
    {
        for register in 0..self.frame.next() {
            self.drop_unless(register, stays(entry, used, given, register))?;
        }
        Ok(())
    }

    #[tactic(auto, using(lower_parts::proofs::Losing::giving_up, lower_parts::proofs::Leaving::leaving_over))]
    fn drop_unless(&mut self, register: u16, stays: bool) -> Result<(), NoMemory>
        ensures given_up { OnOk result (GivesUp self.old.buffer self.new.buffer) }
        ensures loses { OnOk result (Loses self.old.frame self.new.frame) }
        ensures sheds { OnOk result (Sheds self.old.frame self.old.buffer self.new.frame self.new.buffer) }
        ensures context { OnOk result (self.new.context ≡ self.old.context) }
        ensures gives_up { OnOk result (self.new.gives_up ≡ self.old.gives_up) }
        ensures walk { OnOk result (self.new.walk ≡ self.old.walk) }
        ensures laid { OnOk result (GivesUpLaid false self.old.frame self.old.buffer self.new.frame self.new.buffer) }
        ensures drops { OnOk result (DropsUnless stays register self.old.frame self.new.frame) }
    {
        if stays {
            return Ok(());
        }
        self.drop_tree(register)
    }

    // Frees the credits past those that are left where the match took what it needs.
    #[tactic(auto, using(lower_parts::proofs::Losing::giving_up, lower_parts::proofs::Leaving::leaving_over))]
    fn free_but(&mut self, entry: &Frame, need: &Sizes) -> Result<(), NoMemory>
        ensures given_up { OnOk result (GivesUp self.old.buffer self.new.buffer) }
        ensures loses { OnOk result (Loses self.old.frame self.new.frame) }
        ensures sheds { OnOk result (Sheds self.old.frame self.old.buffer self.new.frame self.new.buffer) }
        ensures context { OnOk result (self.new.context ≡ self.old.context) }
        ensures gives_up { OnOk result (self.new.gives_up ≡ self.old.gives_up) }
        ensures walk { OnOk result (self.new.walk ≡ self.old.walk) }
        ensures laid { OnOk result (GivesUpLaid false self.old.frame self.old.buffer self.new.frame self.new.buffer) }
        ensures frees { OnOk result (FreesBut entry.now need.now MOST_FIELDS self.old.frame self.new.frame) }
    {
        for below in 0..MOST_FIELDS {
            let size = below + 1;
            self.free_past(size, kept_of(entry, need, size))?;
        }
        Ok(())
    }

    #[tactic(auto, using(lower_parts::proofs::Losing::giving_up, lower_parts::proofs::Leaving::leaving_over))]
    fn drop_tree(&mut self, register: u16) -> Result<(), NoMemory>
        ensures given_up { OnOk result (GivesUp self.old.buffer self.new.buffer) }
        ensures loses { OnOk result (Loses self.old.frame self.new.frame) }
        ensures sheds { OnOk result (Sheds self.old.frame self.old.buffer self.new.frame self.new.buffer) }
        ensures context { OnOk result (self.new.context ≡ self.old.context) }
        ensures gives_up { OnOk result (self.new.gives_up ≡ self.old.gives_up) }
        ensures walk { OnOk result (self.new.walk ≡ self.old.walk) }
        ensures laid { OnOk result (GivesUpLaid false self.old.frame self.old.buffer self.new.frame self.new.buffer) }
        ensures tree { OnOk result (is_owned (slice_get self.new.frame.held register) ≡ false) }
        ensures drops { OnOk result (DropsUnless false register self.old.frame self.new.frame) }
    {
        if !self.frame.is_owned(register) {
            return Ok(());
        }
        self.frame.use_up(register);
        self.buffer.add(Instr::Drop { register })?;
        Ok(())
    }

    // Frees all credits of a size but so many.
    #[tactic(auto, using(lower_parts::proofs::Losing::giving_up, lower_parts::proofs::Leaving::leaving_over))]
    fn free_past(&mut self, size: usize, kept: usize) -> Result<(), NoMemory>
        ensures given_up { OnOk result (GivesUp self.old.buffer self.new.buffer) }
        ensures loses { OnOk result (Loses self.old.frame self.new.frame) }
        ensures sheds { OnOk result (Sheds self.old.frame self.old.buffer self.new.frame self.new.buffer) }
        ensures context { OnOk result (self.new.context ≡ self.old.context) }
        ensures gives_up { OnOk result (self.new.gives_up ≡ self.old.gives_up) }
        ensures walk { OnOk result (self.new.walk ≡ self.old.walk) }
        ensures laid { OnOk result (GivesUpLaid false self.old.frame self.old.buffer self.new.frame self.new.buffer) }
        ensures spent { OnOk result (SpendsPast size kept self.old.frame self.new.frame) }
        ensures frees { OnOk result (FreesPast size kept self.old.frame self.new.frame) }
    {
        let count = self.frame.count(size);
        for _freed in kept..count {
            self.free_one(size)?;
        }
        Ok(())
    }

    #[tactic(auto, using(lower_parts::proofs::Losing::giving_up, lower_parts::proofs::Leaving::leaving_over))]
    fn free_one(&mut self, size: usize) -> Result<(), NoMemory>
        ensures given_up { OnOk result (GivesUp self.old.buffer self.new.buffer) }
        ensures loses { OnOk result (Loses self.old.frame self.new.frame) }
        ensures sheds { OnOk result (Sheds self.old.frame self.old.buffer self.new.frame self.new.buffer) }
        ensures context { OnOk result (self.new.context ≡ self.old.context) }
        ensures gives_up { OnOk result (self.new.gives_up ≡ self.old.gives_up) }
        ensures walk { OnOk result (self.new.walk ≡ self.old.walk) }
        ensures laid { OnOk result (GivesUpLaid false self.old.frame self.old.buffer self.new.frame self.new.buffer) }
        ensures spent { OnOk result (SpendsPast size (sized size self.old.frame.credits - 1) self.old.frame
            self.new.frame) }
        ensures frees { OnOk result (FreesPast size (sized size self.old.frame.credits - 1) self.old.frame
            self.new.frame) }
    {
        match self.frame.take_credit(size) {
            Some(register) => self.buffer.add(Instr::Free { register }),
            None => Ok(()),
        }
    }
}

// Whether a tree in a register stays: it was there at the entry of the match, and no clause uses it up, or the clause
// gives it.
fn stays(entry: &Frame, used: &[bool], given: &[u16], register: u16) -> bool
    ensures { result ≡ stays_at entry.now used.now given.now register }
{
    (entry.is_owned(register) && !is_marked(used, register)) || contains(given, register)
}

// How many credits of a size are left where the match took what it needs.
fn kept_of(entry: &Frame, need: &Sizes, size: usize) -> usize
    ensures { result ≡ kept_of entry.now need.now size }
{
    entry.count(size).saturating_sub(need.of(size) as usize)
}
