// What the writes of a run make of its cells.
ghost use Rattle.std.specs.Prelude.{◌≡◌, ◌≤◌, ◌<◌, ℕ, length, Err, IfOk, IfErr, OnOk};
ghost use Rattle.fip_language.specs.declared.limits.TheConstants.{MOST_FILE_BYTES};
ghost use Rattle.command_outcome.specs.declared.failure.Failure.TheVariants.{BadTrace};
ghost use Rattle.command_outcome.specs.Stages.{IsOfReplay};
ghost use Rattle.command_trace.specs.Replayed.{IsReplayed, KeepsFromReplay};

use cell_trace::ReadTraceError;
use command_outcome::Failure;
use fip_language::limits::MOST_FILE_BYTES;
use std::alloc::Global;
use trace_files::{cells_after, read_trace};

/// A line for each cell of a trace's file, in order of place, as it is after so many steps, or after the last. A bad
/// trace where the bytes are no trace, or more than 16,777,216.
pub fn replay(alloc: Global, bytes: &[u8], step: u64) -> Result<Vec<u8>, Failure>
    ensures shown { IfOk result (λ v. IsReplayed bytes.now step v.items) }
    ensures bad { IfErr result (KeepsFromReplay bytes.now) }
    ensures short { OnOk result (length bytes.now ≤ MOST_FILE_BYTES) }
    ensures long { (at : ℕ) → result ≡ Err (BadTrace at) → MOST_FILE_BYTES < length bytes.now →
        at ≡ MOST_FILE_BYTES }
    ensures stage { IfErr result IsOfReplay }
{
    if bytes.len() > MOST_FILE_BYTES {
        return Err(Failure::BadTrace {
            at: MOST_FILE_BYTES,
        });
    }
    match read_trace(alloc, bytes) {
        Ok(trace) => Ok(cells_after(alloc, &trace, step)?),
        Err(ReadTraceError::BadTrace { at }) => Err(Failure::BadTrace { at }),
        Err(ReadTraceError::NoMemory) => Err(Failure::NoMemory),
    }
}
