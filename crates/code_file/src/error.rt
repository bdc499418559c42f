// Why a code isn't read or written.
ghost use Rattle.std.specs.Prelude.{◌≡◌};

use fip_base::plain::NoMemory;
use std::alloc::{AllocError, AllocFailed};
use thiserror::Error;

/// Why bytes gave no code.
#[derive(Clone, Copy, Debug, PartialEq, Eq, Error)]
pub enum ReadCodeError {
    /// They are no code file: none begins with the bytes up to this one, from 0, the end counting as a byte. It is the
    /// least such place.
    #[error("bad code at {at}")]
    BadCode { at: usize },
    /// No memory was left.
    #[error("no memory is left")]
    NoMemory,
}

/// Why reading stopped.
#[derive(Clone, Copy, PartialEq, Eq)]
pub enum ReadStop {
    /// No code file goes on with the next byte, or the end; so many bytes were left, that one among them.
    Left(usize),
    /// No memory was left.
    NoMemory,
}

impl From<NoMemory> for ReadStop {
    ghost use Rattle.code_file.specs.declared.error.ReadStop.TheVariants.{NoMemory as read_no_memory};

    ghost from_gives = { λ _ e. e ≡ read_no_memory };

    fn from(_: NoMemory) -> ReadStop {
        ReadStop::NoMemory
    }
}

impl From<AllocError> for ReadStop {
    ghost use Rattle.code_file.specs.declared.error.ReadStop.TheVariants.{NoMemory as read_no_memory};

    ghost from_gives = { λ _ e. e ≡ read_no_memory };

    fn from(_: AllocError) -> ReadStop {
        ReadStop::NoMemory
    }
}

impl<T: Drop> From<AllocFailed<T>> for ReadStop {
    ghost use Rattle.code_file.specs.declared.error.ReadStop.TheVariants.{NoMemory as read_no_memory};

    ghost from_gives = { λ _ e. e ≡ read_no_memory };

    fn from(_: AllocFailed<T>) -> ReadStop {
        ReadStop::NoMemory
    }
}

/// Why a code gave no bytes.
#[derive(Clone, Copy, Debug, PartialEq, Eq, Error)]
pub enum WriteError {
    /// No code file of version 2 of at most the given number of bytes encodes the code.
    #[error("no code file spells the code")]
    NotSpelled,
    /// No memory was left.
    #[error("no memory is left")]
    NoMemory,
}

impl From<AllocError> for WriteError {
    ghost use Rattle.code_file.specs.declared.error.WriteError.TheVariants.{NoMemory as write_no_memory};

    ghost from_gives = { λ _ e. e ≡ write_no_memory };

    fn from(_: AllocError) -> WriteError {
        WriteError::NoMemory
    }
}
