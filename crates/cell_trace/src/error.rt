// Why there is no trace.
ghost use Rattle.std.specs.Prelude.{◌≡◌};

use fip_base::plain::NoMemory;
use std::alloc::{AllocError, AllocFailed};
use thiserror::Error;

/// Why a run that gave a value has no trace.
#[derive(Clone, Copy, Debug, PartialEq, Eq, Error)]
pub enum TraceError {
    /// Its file would have more bytes than the limit, or there are more than 4,294,967,295 events, or more steps than a
    /// number of 64 bits counts.
    #[error("the trace is too long")]
    TooLong,
    /// No memory was left.
    #[error("no memory is left")]
    NoMemory,
}

impl From<AllocError> for TraceError {
    ghost use Rattle.cell_trace.specs.declared.error.TraceError.TheVariants.{NoMemory as trace_no_memory};

    ghost from_gives = { λ _ e. e ≡ trace_no_memory };

    fn from(_: AllocError) -> TraceError {
        TraceError::NoMemory
    }
}

impl<T: Drop> From<AllocFailed<T>> for TraceError {
    ghost use Rattle.cell_trace.specs.declared.error.TraceError.TheVariants.{NoMemory as trace_no_memory};

    ghost from_gives = { λ _ e. e ≡ trace_no_memory };

    fn from(_: AllocFailed<T>) -> TraceError {
        TraceError::NoMemory
    }
}

impl From<NoMemory> for TraceError {
    ghost use Rattle.cell_trace.specs.declared.error.TraceError.TheVariants.{NoMemory as trace_no_memory};

    ghost from_gives = { λ _ e. e ≡ trace_no_memory };

    fn from(_: NoMemory) -> TraceError {
        TraceError::NoMemory
    }
}

/// Why bytes gave no trace.
#[derive(Clone, Copy, Debug, PartialEq, Eq, Error)]
pub enum ReadTraceError {
    /// They are no trace. The place, from 0, is the length where the file ends early, and else that of the first byte
    /// of the magic, the version or an operation that isn't as it must be, of the first cell or event that breaks a
    /// condition, of a number of steps below the last event's, or of the first byte after the end: the first from the
    /// front.
    #[error("bad trace at {at}")]
    BadTrace { at: usize },
    /// No memory was left.
    #[error("no memory is left")]
    NoMemory,
}

impl From<AllocError> for ReadTraceError {
    ghost use Rattle.cell_trace.specs.declared.error.ReadTraceError.TheVariants.{NoMemory as read_no_memory};

    ghost from_gives = { λ _ e. e ≡ read_no_memory };

    fn from(_: AllocError) -> ReadTraceError {
        ReadTraceError::NoMemory
    }
}

impl<T: Drop> From<AllocFailed<T>> for ReadTraceError {
    ghost use Rattle.cell_trace.specs.declared.error.ReadTraceError.TheVariants.{NoMemory as read_no_memory};

    ghost from_gives = { λ _ e. e ≡ read_no_memory };

    fn from(_: AllocFailed<T>) -> ReadTraceError {
        ReadTraceError::NoMemory
    }
}
