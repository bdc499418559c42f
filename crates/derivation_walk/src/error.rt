// Why no derivation was made.
ghost use Rattle.std.specs.Prelude.{◌≡◌};

use fip_base::plain::NoMemory;
use std::alloc::{AllocError, AllocFailed};
use thiserror::Error;

/// Why an instance's derivation wasn't made.
#[derive(Clone, Copy, Debug, PartialEq, Eq, Error)]
pub enum LineError {
    /// Its text has more bytes than there is room.
    #[error("the derivation is too long")]
    TooLong,
    /// No memory was left.
    #[error("no memory is left")]
    NoMemory,
}

impl From<NoMemory> for LineError {
    ghost use Rattle.derivation_walk.specs.declared.error.LineError.TheVariants.{NoMemory as line_no_memory};

    ghost from_gives = { λ _ e. e ≡ line_no_memory };

    fn from(_: NoMemory) -> LineError {
        LineError::NoMemory
    }
}

impl From<AllocError> for LineError {
    ghost use Rattle.derivation_walk.specs.declared.error.LineError.TheVariants.{NoMemory as line_no_memory};

    ghost from_gives = { λ _ e. e ≡ line_no_memory };

    fn from(_: AllocError) -> LineError {
        LineError::NoMemory
    }
}

impl<T: Drop> From<AllocFailed<T>> for LineError {
    ghost use Rattle.derivation_walk.specs.declared.error.LineError.TheVariants.{NoMemory as line_no_memory};

    ghost from_gives = { λ _ e. e ≡ line_no_memory };

    fn from(_: AllocFailed<T>) -> LineError {
        LineError::NoMemory
    }
}
