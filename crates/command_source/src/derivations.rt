// Derivations that a program keeps the discipline of ownership: made for it, and judged.
ghost use Rattle.std.specs.Prelude.{◌≡◌, ℕ, List, Err, OnOk, IfOk, IfErr};
ghost use Rattle.std.specs.Fmt.{decimal};
ghost use Rattle.fip_language.specs.declared.rule.Rule.TheVariants.{E72, E74};
ghost use Rattle.command_outcome.specs.Stages.{IsOfSource};
ghost use Rattle.command_outcome.specs.Successes.{derived_text};
ghost use Rattle.fip_base.specs.declared.refusal.Refusal.{Refusal as a_refusal};
ghost use Rattle.command_outcome.specs.declared.failure.Failure.TheVariants.{Refused};
ghost use Rattle.program_front.specs.source_report.Report.{bare, IsAccepted};
ghost use Rattle.fip_proof.specs.credit_check.Tallies.{all_needs};
ghost use Rattle.fip_proof.specs.derivation_trees.Trees.{entries};
ghost use Rattle.fip_trees.specs.TreeView as V;
ghost use Rattle.fip_proof.specs.derivation_check.Accepted.{IsDerivation};
ghost use Rattle.command_source.specs.Derived.{IsDerivedFile, IsUnderived, KeepsFromDerive};
ghost use Rattle.command_source.specs.Judged.{IsProofOf, IsRejectedOf, IsNoDerivation};
ghost use Rattle.command_source.specs.Wanted.{Lawful, IsReady, IsRefusedBy, of_entry};

use crate::files::Compiled;
use crate::phases::{bare_refusal, lawful};
use command_outcome::{Failure, derived_line};
use fip_base::plain::{Detail, NoMemory};
use fip_base::refusal::{Refusal, Rule};
use fip_language::limits::MOST_FILE_BYTES;
use fip_proof::{Derivation, ProofError, TextError, check, derivation_text, read_derivation};
use fip_trees::needs::Needs;
use fip_trees::program::Typed;
use std::alloc::Global;

// The line of a program that is derived.
fn derived(alloc: Global) -> Result<Vec<u8>, NoMemory>
    ensures text { IfOk result (λ v. v.items ≡ derived_text) }
{
    Ok(Vec::from_slice(alloc, derived_line().as_bytes())?)
}

// The text of the derivation of a program, and the line that it is derived; E74 where it is too long.
fn derivation_of(alloc: Global, typed: &Typed, needs: &Needs) -> Result<Compiled, Failure>
    ensures derived { IfOk result (λ c. c.text.items ≡ derived_text) }
    ensures stored { (source : List ℕ) → IsAccepted source (V.program typed.now.program) →
        needs.now ≡ all_needs (V.program typed.now.program) (V.program typed.now.program).instances →
        IfOk result (λ c. IsDerivedFile source c.file.items) }
    ensures underived { (source : List ℕ) → IsAccepted source (V.program typed.now.program) →
        needs.now ≡ all_needs (V.program typed.now.program) (V.program typed.now.program).instances →
        (r : a_refusal) → result ≡ Err (Refused r) → IsUnderived source }
    ensures long { IfErr result (IsRefusedBy (λ r. r ≡ bare E74)) }
    ensures stage { IfErr result IsOfSource }
{
    match derivation_text(alloc, typed, needs, MOST_FILE_BYTES) {
        Ok(file) => {
            let text = derived(alloc)?;
            Ok(Compiled { file, text })
        }
        Err(TextError::TooLong) => Err(Failure::Refused(bare_refusal(alloc, Rule::E74))),
        Err(TextError::NoMemory) => Err(Failure::NoMemory),
    }
}

/// The text of the derivation of a source that breaks no rule, and the line that it is derived. Else the source's
/// report, and after it E74 where the text has more than 16,777,216 bytes.
pub fn derive(alloc: Global, source: &[u8]) -> Result<Compiled, Failure>
    ensures ready { IfOk result (λ _. IsReady source.now Lawful) }
    ensures derived { IfOk result (λ c. c.text.items ≡ derived_text) }
    ensures stored { IfOk result (λ c. IsDerivedFile source.now c.file.items) }
    ensures kept { IfErr result (KeepsFromDerive source.now) }
    ensures stage { IfErr result IsOfSource }
{
    match lawful(alloc, source) {
        Ok(front) => derivation_of(alloc, &front.typed, &front.needs),
        Err(failure) => Err(failure),
    }
}

/// The refusal E72 of a proof file that is no derivation's text. Its detail is the least offset, in bytes, at which the
/// file can't go on; of a file that is too long it is the most bytes that a file may have.
pub fn bad_proof(alloc: Global, at: usize) -> Failure
    ensures names { IsRefusedBy (λ r. r ≡ of_entry E72 (decimal at)) result }
    ensures stage { IsOfSource result }
{
    match format!(in alloc; "{at}") {
        Ok(offset) => Failure::Refused(Refusal {
            rule: Rule::E72,
            place: None,
            size: 0,
            detail: Detail::new(offset.into_bytes()),
        }),
        Err(_) => Failure::NoMemory,
    }
}

// The line that a program is derived, where this is a derivation of it; else E73.
fn judge(alloc: Global, typed: &Typed, derivation: &Derivation) -> Result<Vec<u8>, Failure>
    ensures derived { IfOk result (λ v. v.items ≡ derived_text) }
    ensures right { OnOk result (IsDerivation (V.program typed.now.program) (entries derivation.now)) }
    ensures wrong { IfErr result (IsRefusedBy (IsNoDerivation (V.program typed.now.program) (entries derivation.now))) }
    ensures stage { IfErr result IsOfSource }
{
    if check(typed, derivation) {
        return Ok(derived(alloc)?);
    }
    Err(Failure::Refused(bare_refusal(alloc, Rule::E73)))
}

/// Judges a proof file of a program whose types and matches are right: the line that the program is derived. E72 where
/// the bytes are no derivation's text, or more than 16,777,216; E73 where they are no derivation of this program.
pub fn audit(alloc: Global, typed: &Typed, proof: &[u8]) -> Result<Vec<u8>, Failure>
    ensures derived { IfOk result (λ v. v.items ≡ derived_text) }
    ensures accepted { OnOk result (IsProofOf proof.now (V.program typed.now.program)) }
    ensures rejected { IfErr result (IsRefusedBy (IsRejectedOf proof.now (V.program typed.now.program))) }
    ensures stage { IfErr result IsOfSource }
{
    if proof.len() > MOST_FILE_BYTES {
        return Err(bad_proof(alloc, MOST_FILE_BYTES));
    }
    match read_derivation(alloc, proof) {
        Ok(derivation) => judge(alloc, typed, &derivation),
        Err(ProofError::BadProof { at }) => Err(bad_proof(alloc, at)),
        Err(ProofError::NoMemory) => Err(Failure::NoMemory),
    }
}
