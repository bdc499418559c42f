// What the commands on derivations end in: which object is called when.
ghost use Rattle.std.specs.Prelude.{◌≡◌, ◌≤◌, ℕ, List, Option, IfOk, IfErr, OnOk, Some};
ghost use Rattle.fip_outside.specs.Faults.{Rose};
ghost use Rattle.fip_outside.specs.Files.{HoldsFile};
ghost use Rattle.code_verify.specs.Checked.{Checked as a_code};
ghost use Rattle.command_words.specs.Words as W;
ghost use Rattle.command_outcome.specs.Successes.{derived_text};
ghost use Rattle.fip_trees.specs.TreeView as V;
ghost use Rattle.command_answers.specs.command_library.command_source.Judged.{IsProofOf, IsRejectedOf};
ghost use Rattle.fip_driver.specs.Fetched.{JudgeFails};
ghost use Rattle.fip_driver.specs.Turns.{IsCounted, end_of};
ghost use Rattle.fip_driver.specs.HandedOut.{bytes_in};
ghost use Rattle.fip_driver.specs.Made.{MadeBy};
ghost use Rattle.fip_driver.specs.Outcome.{AuditOutcome, FileOutcome, AreKept, IsBeforeSource};
ghost use Rattle.fip_driver.specs.Outcome.{IsDone, IsRefused};

use crate::fetched::{fetch_proof, fetch_source};
use crate::stored::store;
use command_outcome::Failure;
use fip_outside::outside::Folder;
use fip_trees::program::Typed;
use std::alloc::Global;

/// Stores the derivation of a source that breaks no rule; the line that it is derived. The source that was fetched is handed
/// out.
pub fn derive<F: Folder>(
    alloc: Global,
    file: &str,
    out: &str,
    folder: &mut F,
    fetched: &mut Option<Vec<u8>>,
) -> Result<Vec<u8>, Failure>
    ensures outcome { (left : Option (List ℕ)) → FileOutcome (W.Derive file.now out.now) (F.files folder.old) left
        (Rose (F.faults folder.old) (F.faults folder.new)) ⊥ (end_of result) }
    ensures kept { (left : Option (List ℕ)) → AreKept (W.Derive file.now out.now) left (Some out.now)
        (Rose (F.faults folder.old) (F.faults folder.new)) (F.files folder.old) (F.files folder.new) result }
    ensures counted { IsCounted (F.files folder.old) (Rose (F.faults folder.old) (F.faults folder.new)) result }
    ensures understood { IsBeforeSource result → ⊥ }
    ensures made { (reported : Option (List ℕ)) (made : Option a_code) → MadeBy (W.Derive file.now out.now)
        (F.files folder.old) (F.files folder.new) reported (IsDone result) (IsRefused result) (bytes_in fetched.new) made }
{
    *fetched = None;
    match fetch_source(alloc, folder, file) {
        Ok(bytes) => match command_answers::source::derive(alloc, bytes.as_slice()) {
            Ok(derived) => {
                *fetched = Some(bytes);
                store(folder, out, derived)
            }
            Err(failure) => {
                *fetched = Some(bytes);
                Err(failure)
            }
        },
        Err(failure) => Err(failure),
    }
}

// Fetches the proof file of a program, and judges it.
fn judge<F: Folder>(
    alloc: Global,
    typed: &Typed,
    proof: &str,
    folder: &mut F,
) -> Result<Vec<u8>, Failure>
    ensures derived { IfOk result (λ v. v.items ≡ derived_text) }
    ensures accepted { OnOk result ((bytes : List ℕ) × HoldsFile (F.files folder.old) proof.now bytes
        × IsProofOf bytes (V.program typed.now.program)) }
    ensures fails { IfErr result (JudgeFails (λ bytes. IsRejectedOf bytes (V.program typed.now.program))
        (F.files folder.old) proof.now (F.faults folder.old) (F.faults folder.new)) }
    ensures later { F.faults folder.old ≤ F.faults folder.new }
    ensures counted { IsCounted (F.files folder.old) (Rose (F.faults folder.old) (F.faults folder.new)) result }
    ensures understood { IsBeforeSource result → ⊥ }
    ensures files { F.files folder.new ≡ F.files folder.old }
{
    match fetch_proof(alloc, folder, proof) {
        Ok(bytes) => command_answers::source::audit(alloc, typed, bytes.as_slice()),
        Err(failure) => Err(failure),
    }
}

/// Judges whether a proof file is a derivation of a source. It is fetched once the types and matches of the source are
/// known to be right; the rules on ownership and on credits aren't checked, since a derivation shows that they are
/// kept.
pub fn audit<F: Folder>(
    alloc: Global,
    file: &str,
    proof: &str,
    folder: &mut F,
) -> Result<Vec<u8>, Failure>
    ensures outcome { (left : Option (List ℕ)) → AuditOutcome (W.Audit file.now proof.now) (F.files folder.old) left
        (Rose (F.faults folder.old) (F.faults folder.new)) ⊥ (end_of result) }
    ensures counted { IsCounted (F.files folder.old) (Rose (F.faults folder.old) (F.faults folder.new)) result }
    ensures understood { IsBeforeSource result → ⊥ }
    ensures files { F.files folder.new ≡ F.files folder.old }
{
    match fetch_source(alloc, folder, file) {
        Ok(source) => match command_answers::source::typed_of(alloc, source.as_slice()) {
            Ok(typed) => judge(alloc, &typed, proof, folder),
            Err(failure) => Err(failure),
        },
        Err(failure) => Err(failure),
    }
}
