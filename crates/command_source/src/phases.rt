// From the bytes of a source, or of a code file, to what is known of it.
ghost use Rattle.std.specs.Prelude.{◌≡◌, IfOk, IfErr};
ghost use Rattle.cell_code.specs.Plain.{plain};
ghost use Rattle.code_verify.specs.code_rules.Breaks.{IsSound};
ghost use Rattle.command_source.specs.Codes.{IsSoundFile, IsLeastOf, KeepsFromCode};
ghost use Rattle.command_source.specs.ProgramCode.{IsLoweredFrom, HasFile};
ghost use Rattle.command_outcome.specs.Stages.{IsOfSource};
ghost use Rattle.command_outcome.specs.declared.failure.Failure.TheVariants.{NoMemory};
ghost use Rattle.fip_trees.specs.TreeView as V;
ghost use Rattle.fip_proof.specs.credit_check.Tallies.{all_needs};
ghost use Rattle.program_front.specs.source_report.Report.{bare, IsAccepted, IsMatched, Says};
ghost use Rattle.command_source.specs.Wanted.{Wanted, Lawful, IsReport, IsRefusedBy, KeepsFrom};
ghost use Rattle.program_front.specs.Unmatched.{IsUnmatched};
ghost use Rattle.command_source.specs.Judged.{IsEarlyReport};
ghost use Rattle.program_front.specs.tail_groups.Members.{AreMembers};

use crate::known::Front;
use crate::places::placed;
use crate::stacks::verified_with;
use cell_code::Code;
use code_file::{ReadCodeError, read_code};
use code_verify::{Verified, VerifyError, verify};
use command_outcome::Failure;
use fip_base::plain::Detail;
use fip_base::refusal::{PhaseError, Refusal, Rule};
use fip_language::limits::MOST_FILE_BYTES;
use fip_trees::program::Typed;
use program_front::Lowered;
use std::alloc::Global;

/// A rule that is broken without a place and a name.
pub(crate) fn bare_refusal(alloc: Global, rule: Rule) -> Refusal
    ensures bare { result ≡ bare rule }
{
    Refusal {
        rule,
        place: None,
        size: 0,
        detail: Detail::new(Vec::new(alloc)),
    }
}

/// The program of a source whose types and matches are right; else the source's report (`program_front::typed_of`).
pub fn typed_of(alloc: Global, source: &[u8]) -> Result<Typed, Failure>
    ensures typed { IfOk result (λ t. IsMatched source.now (V.program t.program)) }
    ensures reported { IfErr result (IsRefusedBy (IsEarlyReport source.now)) }
    ensures stage { IfErr result IsOfSource }
{
    match program_front::typed_of(alloc, source) {
        Ok(typed) => Ok(typed),
        Err(error) => Err(failure_of(source, error)),
    }
}

// How a source is reported that a phase gives nothing of: its report, with the line and the column of its offset.
fn failure_of(source: &[u8], error: PhaseError) -> Failure
    ensures reported { Says source.now error → IsRefusedBy (IsReport source.now) result }
    ensures early { Says source.now error → IsUnmatched source.now error →
        IsRefusedBy (IsEarlyReport source.now) result }
    ensures stage { IsOfSource result }
{
    match error {
        PhaseError::Refused(refusal) => Failure::Refused(placed(source, refusal)),
        PhaseError::NoMemory => Failure::NoMemory,
    }
}

/// What is known of a source that breaks no rule, its code as it was lowered, which is sound and has a file; else the
/// source's report (`program_front::front`).
pub(crate) fn lawful(alloc: Global, source: &[u8]) -> Result<Lowered, Failure>
    ensures accepted { IfOk result (λ l. IsAccepted source.now (V.program l.typed.program)) }
    ensures needs { IfOk result (λ l. l.needs ≡
        all_needs (V.program l.typed.program) (V.program l.typed.program).instances) }
    ensures groups { IfOk result (λ l. AreMembers (V.program l.typed.program).instances l.groups) }
    ensures code { IfOk result (λ l. IsLoweredFrom (V.program l.typed.program) (plain l.code)) }
    ensures sound { IfOk result (λ l. IsSound (plain l.code)) }
    ensures filed { IfOk result (λ l. HasFile (plain l.code)) }
    ensures kept { (w : Wanted) → IfErr result (KeepsFrom source.now w) }
    ensures stage { IfErr result IsOfSource }
{
    match program_front::front(alloc, source) {
        Err(error) => Err(failure_of(source, error)),
        Ok(lowered) => Ok(lowered),
    }
}

/// What is known of a source that breaks no rule, its code verified; else the source's report. Code that was lowered is
/// sound, so it is verified. A file encodes it, which may be too long.
pub fn front(alloc: Global, source: &[u8]) -> Result<Front, Failure>
    ensures accepted { IfOk result (λ f. IsAccepted source.now (V.program f.typed.program)) }
    ensures groups { IfOk result (λ f. AreMembers (V.program f.typed.program).instances f.groups) }
    ensures sound { IfOk result (λ f. IsSound (plain f.verified.code)) }
    ensures code { IfOk result (λ f. IsLoweredFrom (V.program f.typed.program) (plain f.verified.code)) }
    ensures filed { IfOk result (λ f. HasFile (plain f.verified.code)) }
    ensures kept { IfErr result (KeepsFrom source.now Lawful) }
    ensures stage { IfErr result IsOfSource }
{
    match lawful(alloc, source) {
        Err(failure) => Err(failure),
        Ok(lowered) => verified_front(alloc, lowered),
    }
}

/// The same with the code verified, whose stack numbers are those of the groups.
pub(crate) fn verified_front(alloc: Global, lowered: Lowered) -> Result<Front, Failure>
    requires groups { AreMembers (V.program lowered.typed.program).instances lowered.groups }
    requires code { IsLoweredFrom (V.program lowered.typed.program) (plain lowered.code) }
    requires sound { IsSound (plain lowered.code) }
    ensures typed { IfOk result (λ f. V.program f.typed.program ≡ V.program lowered.typed.program) }
    ensures groups { IfOk result (λ f. f.groups ≡ lowered.groups) }
    ensures code { IfOk result (λ f. f.verified.code ≡ lowered.code) }
    ensures sound { IfOk result (λ f. IsSound (plain f.verified.code)) }
    ensures out_of_memory { IfErr result (λ f. f ≡ NoMemory) }
    ensures stage { IfErr result IsOfSource }
{
    let Lowered {
        typed,
        groups,
        code,
        ..
    } = lowered;
    match verified_with(alloc, &typed, &groups, code) {
        Err(_) => Err(Failure::NoMemory),
        Ok(verified) => Ok(Front {
            typed,
            groups,
            verified,
        }),
    }
}

/// A code that is sound; else the least violation.
pub(crate) fn verified_of(alloc: Global, code: Code) -> Result<Verified, Failure>
    ensures same { IfOk result (λ v. v.code ≡ code) }
    ensures sound { IfOk result (λ v. IsSound (plain code)) }
    ensures least { IfErr result (IsLeastOf (plain code)) }
    ensures stage { IfErr result IsOfSource }
{
    match verify(alloc, code) {
        Ok(verified) => Ok(verified),
        Err(VerifyError::Unsound { function, at, rule }) => {
            Err(Failure::Unsound { function, at, rule })
        }
        Err(VerifyError::NoMemory) => Err(Failure::NoMemory),
    }
}

/// The sound code of a code file. Bad code where the bytes are no code file, or too many; unsound where the code
/// isn't sound.
pub(crate) fn code_of(alloc: Global, bytes: &[u8]) -> Result<Verified, Failure>
    ensures sound { IfOk result (λ v. IsSoundFile bytes.now (plain v.code)) }
    ensures kept { IfErr result (KeepsFromCode bytes.now) }
    ensures stage { IfErr result IsOfSource }
{
    if bytes.len() > MOST_FILE_BYTES {
        return Err(Failure::BadCode {
            at: MOST_FILE_BYTES,
        });
    }
    match read_code(alloc, bytes) {
        Ok(code) => verified_of(alloc, code),
        Err(ReadCodeError::BadCode { at }) => Err(Failure::BadCode { at }),
        Err(ReadCodeError::NoMemory) => Err(Failure::NoMemory),
    }
}
