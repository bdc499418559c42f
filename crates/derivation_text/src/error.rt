// Why a derivation isn't read or written.
ghost use Rattle.std.specs.Prelude.{◌≡◌};

use fip_base::plain::NoMemory;
use std::alloc::{AllocError, AllocFailed};
use thiserror::Error;

/// Why bytes gave no derivation.
#[derive(Clone, Copy, Debug, PartialEq, Eq, Error)]
pub enum ProofError {
    /// They are no derivation's text: none begins with the bytes up to this one, from 0, the end counting as a byte. It
    /// is the least such place; where a node lies too deep it is the bracket that opens it.
    #[error("bad proof at {at}")]
    BadProof { at: usize },
    /// No memory was left.
    #[error("no memory is left")]
    NoMemory,
}

/// Why a byte wasn't taken.
#[derive(Clone, Copy, PartialEq, Eq)]
pub enum ByteError {
    /// No text goes on with it.
    Bad,
    /// No memory was left.
    NoMemory,
}

impl From<NoMemory> for ByteError {
    ghost use Rattle.derivation_text.specs.declared.error.ByteError.TheVariants.{NoMemory as byte_no_memory};

    ghost from_gives = { λ _ e. e ≡ byte_no_memory };

    fn from(_: NoMemory) -> ByteError {
        ByteError::NoMemory
    }
}

impl<T: Drop> From<AllocFailed<T>> for ByteError {
    ghost use Rattle.derivation_text.specs.declared.error.ByteError.TheVariants.{NoMemory as byte_no_memory};

    ghost from_gives = { λ _ e. e ≡ byte_no_memory };

    fn from(_: AllocFailed<T>) -> ByteError {
        ByteError::NoMemory
    }
}

/// Why a derivation gave no text.
#[derive(Clone, Copy, Debug, PartialEq, Eq, Error)]
pub enum TextError {
    /// It has more bytes than were allowed.
    #[error("the text is too long")]
    TooLong,
    /// No memory was left.
    #[error("no memory is left")]
    NoMemory,
}

impl From<NoMemory> for TextError {
    ghost use Rattle.derivation_text.specs.declared.error.TextError.TheVariants.{NoMemory as text_no_memory};

    ghost from_gives = { λ _ e. e ≡ text_no_memory };

    fn from(_: NoMemory) -> TextError {
        TextError::NoMemory
    }
}

impl From<AllocError> for TextError {
    ghost use Rattle.derivation_text.specs.declared.error.TextError.TheVariants.{NoMemory as text_no_memory};

    ghost from_gives = { λ _ e. e ≡ text_no_memory };

    fn from(_: AllocError) -> TextError {
        TextError::NoMemory
    }
}

impl<T: Drop> From<AllocFailed<T>> for TextError {
    ghost use Rattle.derivation_text.specs.declared.error.TextError.TheVariants.{NoMemory as text_no_memory};

    ghost from_gives = { λ _ e. e ≡ text_no_memory };

    fn from(_: AllocFailed<T>) -> TextError {
        TextError::NoMemory
    }
}
