// What comes from a host: the source's bytes and the input's.
ghost use Rattle.std.specs.Prelude.{◌≡◌, ◌≤◌, length, IfOk, OnOk, IfErr};
ghost use Rattle.std.specs.Io.KnownBytes.{Consumes, IsAtEnd};
ghost use Rattle.fip_language.specs.declared.limits.TheConstants.{MOST_FILE_BYTES, MOST_SOURCE_BYTES};
ghost use Rattle.fip_outside.specs.Files.{HoldsFile};
ghost use Rattle.command_outcome.specs.declared.failure.Failure.TheVariants.{BadCode, BadTrace};
ghost use Rattle.command_answers.specs.command_library.command_source.Judged.{IsBadProof};
ghost use Rattle.fip_driver.specs.Fetched.{FetchFails, FileFails, JudgeFails, ReadFails, IsEarlyFailure};

use command_answers::source::bad_proof;
use command_outcome::{Failure, Object};
use fip_base::plain::Detail;
use fip_base::refusal::{Refusal, Rule};
use fip_language::limits::{MOST_FILE_BYTES, MOST_SOURCE_BYTES};
use fip_outside::all::{ReadError, read_all};
use fip_outside::outside::{FetchError, Folder, Source};
use std::alloc::Global;

/// The bytes of the source's file, at most 1,048,576. E05 where there are more; a fault of the folder where it failed
/// or has no file of that name.
pub fn fetch_source<F: Folder>(
    alloc: Global,
    folder: &mut F,
    name: &str,
) -> Result<Vec<u8>, Failure>
    ensures found { IfOk result (λ v. HoldsFile (F.files folder.old) name.now v.items) }
    ensures within { IfOk result (λ v. length v.items ≤ MOST_SOURCE_BYTES) }
    ensures fails { IfErr result (λ e. FetchFails (F.files folder.old) name.now (F.faults folder.old)
        (F.faults folder.new) e) }
    ensures same { F.files folder.new ≡ F.files folder.old }
    ensures later { F.faults folder.old ≤ F.faults folder.new }
{
    match folder.fetch(name, MOST_SOURCE_BYTES) {
        Ok(bytes) => Ok(bytes),
        Err(FetchError::TooLong) => Err(Failure::Refused(Refusal {
            rule: Rule::E05,
            place: None,
            size: 0,
            detail: Detail::new(Vec::new(alloc)),
        })),
        Err(FetchError::Failed) => Err(Failure::Fault(Object::Folder)),
        Err(FetchError::NoMemory) => Err(Failure::NoMemory),
    }
}

/// The bytes of a code file, at most 16,777,216. Bad code at that offset where there are more; a fault of the folder
/// where it failed or has no file of that name.
pub fn fetch_code<F: Folder>(folder: &mut F, name: &str) -> Result<Vec<u8>, Failure>
    ensures found { IfOk result (λ v. HoldsFile (F.files folder.old) name.now v.items) }
    ensures fails { IfErr result (λ e. FileFails (λ f. f ≡ BadCode MOST_FILE_BYTES) (F.files folder.old) name.now
        (F.faults folder.old) (F.faults folder.new) e) }
    ensures early { IfErr result IsEarlyFailure }
    ensures same { F.files folder.new ≡ F.files folder.old }
    ensures later { F.faults folder.old ≤ F.faults folder.new }
{
    match folder.fetch(name, MOST_FILE_BYTES) {
        Ok(bytes) => Ok(bytes),
        Err(FetchError::TooLong) => Err(Failure::BadCode {
            at: MOST_FILE_BYTES,
        }),
        Err(FetchError::Failed) => Err(Failure::Fault(Object::Folder)),
        Err(FetchError::NoMemory) => Err(Failure::NoMemory),
    }
}

/// The bytes of a proof file, at most 16,777,216. E72 with that number where there are more; a fault of the folder
/// where it failed or has no file of that name.
pub fn fetch_proof<F: Folder>(alloc: Global, folder: &mut F, name: &str) -> Result<Vec<u8>, Failure>
    ensures found { IfOk result (λ v. HoldsFile (F.files folder.old) name.now v.items) }
    ensures fails { IfErr result (λ e. JudgeFails IsBadProof (F.files folder.old) name.now (F.faults folder.old)
        (F.faults folder.new) e) }
    ensures early { IfErr result IsEarlyFailure }
    ensures same { F.files folder.new ≡ F.files folder.old }
    ensures later { F.faults folder.old ≤ F.faults folder.new }
{
    match folder.fetch(name, MOST_FILE_BYTES) {
        Ok(bytes) => Ok(bytes),
        Err(FetchError::TooLong) => Err(bad_proof(alloc, MOST_FILE_BYTES)),
        Err(FetchError::Failed) => Err(Failure::Fault(Object::Folder)),
        Err(FetchError::NoMemory) => Err(Failure::NoMemory),
    }
}

/// The bytes of a trace's file, at most 16,777,216. A bad trace at that offset where there are more; a fault of the
/// folder where it failed or has no file of that name.
pub fn fetch_trace<F: Folder>(folder: &mut F, name: &str) -> Result<Vec<u8>, Failure>
    ensures found { IfOk result (λ v. HoldsFile (F.files folder.old) name.now v.items) }
    ensures fails { IfErr result (λ e. FileFails (λ f. f ≡ BadTrace MOST_FILE_BYTES) (F.files folder.old) name.now
        (F.faults folder.old) (F.faults folder.new) e) }
    ensures early { IfErr result IsEarlyFailure }
    ensures same { F.files folder.new ≡ F.files folder.old }
{
    match folder.fetch(name, MOST_FILE_BYTES) {
        Ok(bytes) => Ok(bytes),
        Err(FetchError::TooLong) => Err(Failure::BadTrace {
            at: MOST_FILE_BYTES,
        }),
        Err(FetchError::Failed) => Err(Failure::Fault(Object::Folder)),
        Err(FetchError::NoMemory) => Err(Failure::NoMemory),
    }
}

/// The bytes of the input up to its end, at most 16,777,216. A bad input at that offset where there are more; a fault
/// of the input where it failed.
pub fn read_input<S: Source>(alloc: Global, input: &mut S) -> Result<Vec<u8>, Failure>
    ensures all { IfOk result (λ v. Consumes (S.left input.old) (S.left input.new) v.items) }
    ensures end { OnOk result (IsAtEnd (S.left input.new)) }
    ensures within { IfOk result (λ v. length v.items ≤ MOST_FILE_BYTES) }
    ensures fails { IfErr result (λ e. ReadFails (S.left input.old) (S.left input.new) (S.faults input.old)
        (S.faults input.new) e) }
    ensures later { S.faults input.old ≤ S.faults input.new }
{
    match read_all(alloc, input, MOST_FILE_BYTES) {
        Ok(bytes) => Ok(bytes),
        Err(ReadError::TooLong) => Err(Failure::BadInput {
            at: MOST_FILE_BYTES,
        }),
        Err(ReadError::Fault) => Err(Failure::Fault(Object::Input)),
        Err(ReadError::NoMemory) => Err(Failure::NoMemory),
    }
}
