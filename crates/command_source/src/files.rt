// The commands that check a source or a code, and store a code.
ghost use Rattle.std.specs.Prelude.{◌≡◌, ◌≤◌, length, Err, IfOk, IfErr, IfSome};
ghost use Rattle.code_file.specs.CodeText.{CodeText};
ghost use Rattle.cell_code.specs.Plain.{PlainCode, plain};
ghost use Rattle.code_file.specs.declared.tags.Version.TheVariants.{Second};
ghost use Rattle.fip_base.specs.declared.refusal.Refusal.{Refusal as a_refusal};
ghost use Rattle.fip_language.specs.declared.limits.TheConstants.{MOST_FILE_BYTES};
ghost use Rattle.command_outcome.specs.declared.failure.Failure.TheVariants.{Refused};
ghost use Rattle.command_source.specs.Codes.{IsCodeListing, IsSoundFile, IsUpgraded, IsUnspelt};
ghost use Rattle.command_source.specs.Codes.{KeepsFromCode, KeepsFromUpgrade};
ghost use Rattle.command_source.specs.ProgramCode.{IsCodeOfSource, IsCompiledFile, IsFileOfMade};
ghost use Rattle.command_source.specs.ProgramCode.{KeepsFromCompile, KeepsFromFile};
ghost use Rattle.fip_language.specs.declared.rule.Rule.TheVariants.{E61};
ghost use Rattle.command_outcome.specs.Stages.{IsOfSource};
ghost use Rattle.program_front.specs.source_report.Report.{bare};
ghost use Rattle.command_source.specs.Roots.{IsListing, root_lines};
ghost use Rattle.fip_trees.specs.TreeView as V;
ghost use Rattle.command_source.specs.Wanted.{Lawful, IsRefusedBy, KeepsFrom};

use crate::known::Front;
use crate::listing::{functions_text, roots_text};
use crate::phases::{bare_refusal, code_of, front, lawful};
use code_file::{WriteError, write_code};
use code_verify::Verified;
use command_outcome::Failure;
use fip_base::refusal::Rule;
use fip_language::limits::MOST_FILE_BYTES;
use std::alloc::Global;

/// A file to be stored, and the text that is printed after it.
#[derive(Drop)]
pub struct Compiled {
    pub file: Vec<u8>,
    pub text: Vec<u8>,
}

// The code file of version 2 that encodes a code; E61 where none of at most 16,777,216 bytes does.
fn written(alloc: Global, verified: &Verified) -> Result<Vec<u8>, Failure>
    ensures spelt { IfOk result (λ v. CodeText v.items Second (plain verified.now.code)) }
    ensures short { IfOk result (λ v. length v.items ≤ MOST_FILE_BYTES) }
    ensures unspelt { (r : a_refusal) → result ≡ Err (Refused r) → IsUnspelt (plain verified.now.code) }
    ensures long { IfErr result (IsRefusedBy (λ r. r ≡ bare E61)) }
    ensures stage { IfErr result IsOfSource }
{
    match write_code(alloc, verified.code(), MOST_FILE_BYTES) {
        Ok(bytes) => Ok(bytes),
        Err(WriteError::NotSpelled) => Err(Failure::Refused(bare_refusal(alloc, Rule::E61))),
        Err(WriteError::NoMemory) => Err(Failure::NoMemory),
    }
}

/// A line for each root of a source that breaks no rule: its name, its kind, its header's credits, and for a fip one
/// what a run of it holds of the stack at the most. Else the source's report.
pub fn check(alloc: Global, source: &[u8]) -> Result<Vec<u8>, Failure>
    ensures listed { IfOk result (λ v. IsListing source.now v.items) }
    ensures kept { IfErr result (KeepsFrom source.now Lawful) }
    ensures stage { IfErr result IsOfSource }
{
    match lawful(alloc, source) {
        Ok(front) => Ok(roots_text(alloc, &front.typed.program, &front.groups)?),
        Err(failure) => Err(failure),
    }
}

/// The file of version 2 of just the code that was made of a source, and the lines of `check`. E61 just where that code
/// has no file of at most 16,777,216 bytes.
pub fn file_of(alloc: Global, front: &Front) -> Result<Compiled, Failure>
    ensures spelt { IfOk result (λ c. CodeText c.file.items Second (plain front.now.verified.code)) }
    ensures short { IfOk result (λ c. length c.file.items ≤ MOST_FILE_BYTES) }
    ensures unspelt { (r : a_refusal) → result ≡ Err (Refused r) → IsUnspelt (plain front.now.verified.code) }
    ensures long { IfErr result (IsRefusedBy (λ r. r ≡ bare E61)) }
    ensures lines { IfOk result (λ c. c.text.items
        ≡ root_lines front.now.groups 0 (V.program front.now.typed.program).instances) }
    ensures stage { IfErr result IsOfSource }
{
    match written(alloc, &front.verified) {
        Ok(file) => {
            let text = roots_text(alloc, &front.typed.program, &front.groups)?;
            Ok(Compiled { file, text })
        }
        Err(failure) => Err(failure),
    }
}

/// The code file of a source that breaks no rule, and the lines of `check`: what `file_of` makes of the code of `front`.
/// The refusals are those of `front`, and after them E61. The code that was made is handed out, also with E61; none where
/// `front` gives none.
pub fn compile(
    alloc: Global,
    source: &[u8],
    made: &mut Option<Verified>,
) -> Result<Compiled, Failure>
    ensures listed { IfOk result (λ c. IsListing source.now c.text.items) }
    ensures sound { IfOk result (λ c. (code : PlainCode) × IsSoundFile c.file.items code) }
    ensures stored { IfOk result (λ c. IsCompiledFile source.now c.file.items) }
    ensures kept { IfErr result (KeepsFromCompile source.now) }
    ensures made { IfSome made.new (λ v. IsCodeOfSource source.now (plain v.code)) }
    // The file is that of just this code; E61 is reported where it has none that isn't too long.
    ensures own { IfOk result (λ c. IsFileOfMade made.new c.file.items) }
    ensures unspelt { IfErr result (IsRefusedBy (KeepsFromFile source.now made.new)) }
    ensures stage { IfErr result IsOfSource }
{
    *made = None;
    match front(alloc, source) {
        Ok(front) => {
            let end = file_of(alloc, &front);
            let Front { verified, .. } = front;
            *made = Some(verified);
            end
        }
        Err(failure) => Err(failure),
    }
}

/// A line for each function of a code file that has a name. Bad code where the bytes are no code file, unsound where
/// its code isn't sound.
pub fn verify_file(alloc: Global, bytes: &[u8]) -> Result<Vec<u8>, Failure>
    ensures listed { IfOk result (λ v. IsCodeListing bytes.now v.items) }
    ensures kept { IfErr result (KeepsFromCode bytes.now) }
    ensures stage { IfErr result IsOfSource }
{
    match code_of(alloc, bytes) {
        Ok(verified) => Ok(functions_text(alloc, &verified)?),
        Err(failure) => Err(failure),
    }
}

/// The code file of version 2 that encodes the code of a code file of either version, and the lines of `verify_file`.
/// The refusals are those of `verify_file`, and after them E61 where no code file of at most 16,777,216 bytes encodes
/// it.
pub fn upgrade(alloc: Global, bytes: &[u8]) -> Result<Compiled, Failure>
    ensures listed { IfOk result (λ c. IsCodeListing bytes.now c.text.items) }
    ensures spelt { IfOk result (λ c. IsUpgraded bytes.now c.file.items) }
    ensures kept { IfErr result (KeepsFromUpgrade bytes.now) }
    ensures stage { IfErr result IsOfSource }
{
    match code_of(alloc, bytes) {
        Ok(verified) => match written(alloc, &verified) {
            Ok(file) => {
                let text = functions_text(alloc, &verified)?;
                Ok(Compiled { file, text })
            }
            Err(failure) => Err(failure),
        },
        Err(failure) => Err(failure),
    }
}
