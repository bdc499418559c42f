// A program with its proof file: what is made for one, and how one is judged.
ghost use Rattle.std.specs.Prelude.{◌≡◌, ◌<◌, ◌≤◌, ℕ, List, length, IfOk, IfErr, OnOk, Err};
ghost use Rattle.fip_language.specs.Prefix.{IsPlace};
ghost use Rattle.fip_language.specs.declared.limits.TheConstants.{MOST_FILE_BYTES};
ghost use Rattle.fip_trees.specs.TreeView as V;
ghost use Rattle.derivation_trees.specs.Trees.{Entry, entries};
ghost use Rattle.derivation_check.specs.Accepted.{IsDerivation};
ghost use Rattle.derivation_text.specs.declared.error.TextError.TheVariants.{TooLong};
ghost use Rattle.derivation_text.specs.Limited.{Limited};
ghost use Rattle.derivation_text.specs.ProofText.{lines_text, IsProofText};
ghost use Rattle.derivation_agreement.specs.derivation_making.Made.{made_entries};
ghost use Rattle.derivation_agreement.specs.derivation_making.Weakening.{AllLean};
ghost use Rattle.derivation_agreement.specs.Limits.{HasFewRegisters};
ghost use Rattle.derivation_walk.specs.Seen.{world_of};
ghost use Rattle.fip_proof.specs.Ready.{IsReady};
ghost use Rattle.fip_proof.specs.Lines.{IsLine};
ghost use Rattle.fip_proof.specs.declared.error.AuditError.TheVariants.{BadProof, NotDerived};

use crate::error::AuditError;
use derivation_check::check;
use derivation_text::{ProofError, Text, TextError, read_derivation};
use derivation_trees::Derivation;
use derivation_walk::{Context, LineError, line_of};
use fip_language::limits::MOST_FILE_BYTES;
use fip_trees::needs::{Need, Needs};
use fip_trees::program::{Instance, Typed};
use fip_trees::scalars::Scalars;
use std::alloc::Global;

/// The text of the derivation of a typed program, which must break no rule on ownership and credits, and whose
/// needs these are. TooLong: it has more than `limit` bytes. NoMemory: no memory is left. It takes memory for one
/// instance and for the limit.
pub fn derivation_text(
    alloc: Global,
    typed: &Typed,
    needs: &Needs,
    limit: usize,
) -> Result<Vec<u8>, TextError>
    // Of a program that is as required it is the text of what is made.
    ensures text { IfOk result (λ t. IsReady (V.program typed.now.program) needs.now →
        t.items ≡ lines_text (made_entries (V.program typed.now.program) 0 (V.program typed.now.program).instances)) }
    // Where the program keeps the limit on registers, too, it is read again as that.
    ensures read { IfOk result (λ t. IsReady (V.program typed.now.program) needs.now →
        HasFewRegisters (V.program typed.now.program) → IsProofText t.items
        (made_entries (V.program typed.now.program) 0 (V.program typed.now.program).instances)) }
    // What it is the text of is a derivation of the program, and weakens no more than it must.
    ensures derived { IfOk result (λ t. IsReady (V.program typed.now.program) needs.now →
        HasFewRegisters (V.program typed.now.program) → (es : List Entry) → IsProofText t.items es →
        IsDerivation (V.program typed.now.program) es × AllLean es) }
    // It has no more bytes than it may.
    ensures within { IfOk result (λ t. length t.items ≤ limit) }
    // TooLong: the text of what is made has more.
    ensures long { result ≡ Err TooLong → IsReady (V.program typed.now.program) needs.now → limit < length
        (lines_text (made_entries (V.program typed.now.program) 0 (V.program typed.now.program).instances)) }
{
    let program = &typed.program;
    let scalars = Scalars::of(alloc, &program.types)?;
    let mut text = Text::new(alloc, limit);
    for (number, instance) in program.instances.iter().enumerate() {
        if instance.kind.is_ruled() {
            let context = Context {
                program,
                scalars: &scalars,
                kind: instance.kind,
            };
            add_line(
                alloc,
                &context,
                needs.of(number),
                number,
                instance,
                &mut text,
            )?;
        }
    }
    Ok(text.into_bytes())
}

// The line of an instance comes after a text.
fn add_line(
    alloc: Global,
    context: &Context<'_>,
    needs: &[Need],
    number: usize,
    instance: &Instance,
    text: &mut Text,
) -> Result<(), TextError>
    ensures line { OnOk result (IsLine (world_of context.now) needs.now (V.instance_of instance.now) number
        text.old text.new) }
    ensures within { OnOk result (length text.new.bytes ≤ text.new.limit) }
    ensures long { result ≡ Err TooLong → (new : Limited) × IsLine (world_of context.now) needs.now
        (V.instance_of instance.now) number text.old new × (text.old.limit < length new.bytes) }
{
    match line_of(alloc, context, needs, number, instance, text.room()) {
        Ok(line) => text.line(&line),
        Err(LineError::TooLong) => Err(TextError::TooLong),
        Err(LineError::NoMemory) => Err(TextError::NoMemory),
    }
}

/// Judges a proof file of a typed program. BadProof: its bytes are no derivation's text, or more than 16,777,216.
/// NotDerived: it is no derivation of the program. NoMemory: no memory is left.
pub fn audit(alloc: Global, typed: &Typed, bytes: &[u8]) -> Result<(), AuditError>
    // What is accepted is the text of a derivation of the program.
    ensures derived { OnOk result ((es : List Entry) × IsProofText bytes.now es
        × IsDerivation (V.program typed.now.program) es) }
    // A text of another derivation is none of the program.
    ensures other { result ≡ Err NotDerived → (es : List Entry) × IsProofText bytes.now es
        × (IsDerivation (V.program typed.now.program) es → ⊥) }
    // Too many bytes are reported by their most, ..
    ensures long { MOST_FILE_BYTES < length bytes.now → result ≡ Err (BadProof MOST_FILE_BYTES) }
    // .. and else the place is the least with which no text begins.
    ensures place { (at : ℕ) → length bytes.now ≤ MOST_FILE_BYTES → result ≡ Err (BadProof at) →
        IsPlace IsProofText bytes.now at }
{
    if bytes.len() > MOST_FILE_BYTES {
        return Err(AuditError::BadProof {
            at: MOST_FILE_BYTES,
        });
    }
    match read_derivation(alloc, bytes) {
        Ok(derivation) => judge(typed, &derivation),
        Err(ProofError::BadProof { at }) => Err(AuditError::BadProof { at }),
        Err(ProofError::NoMemory) => Err(AuditError::NoMemory),
    }
}

// Whether a derivation is one of a program.
fn judge(typed: &Typed, derivation: &Derivation) -> Result<(), AuditError>
    ensures derived { OnOk result (IsDerivation (V.program typed.now.program) (entries derivation.now)) }
    ensures other { IfErr result (λ e. (e ≡ NotDerived)
        × (IsDerivation (V.program typed.now.program) (entries derivation.now) → ⊥)) }
{
    if check(typed, derivation) {
        return Ok(());
    }
    Err(AuditError::NotDerived)
}
