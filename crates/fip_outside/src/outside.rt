// What a source, a sink and a folder are: all that the product reads and writes goes through these.
ghost use Rattle.std.specs.Prelude.{◌≡◌, ℕ, ◌<◌, ◌≤◌, ◌⊎◌, Option, List, Err, length, IfOk, OnOk, OnErr};
ghost use Rattle.std.specs.Io.{ReadsAtMost, WritesAtMost};
ghost use Rattle.std.specs.Io.KnownBytes.{ReadConsumes, WriteAppends};
ghost use Rattle.fip_outside.specs.Faults.{Rose};
ghost use Rattle.fip_outside.specs.Files.{File, HoldsFile, HoldsLonger, IsMissing, KeepsOthers};

use std::alloc::AllocError;
use thiserror::Error;

/// A read or a write that failed.
#[derive(Clone, Copy, PartialEq, Eq)]
pub struct Failed;

/// Why a file wasn't fetched.
#[derive(Clone, Copy, Debug, PartialEq, Eq, Error)]
pub enum FetchError {
    /// The folder failed, or it has no file of that name.
    #[error("the file could not be read")]
    Failed,
    /// The file has more bytes than were allowed.
    #[error("the file is too long")]
    TooLong,
    /// There was no memory for the bytes.
    #[error("out of memory")]
    NoMemory,
}

impl From<AllocError> for FetchError {
    ghost use Rattle.fip_outside.specs.declared.outside.FetchError.TheVariants.{NoMemory};

    ghost from_gives = { λ _ e. e ≡ NoMemory };

    fn from(_: AllocError) -> FetchError {
        FetchError::NoMemory
    }
}

/// Why a file wasn't stored.
#[derive(Clone, Copy, Debug, PartialEq, Eq, Error)]
pub enum StoreError {
    /// The folder failed.
    #[error("the file could not be written")]
    Failed,
    /// There was no memory for the bytes.
    #[error("out of memory")]
    NoMemory,
}

impl From<AllocError> for StoreError {
    ghost use Rattle.fip_outside.specs.declared.outside.StoreError.TheVariants.{NoMemory};

    ghost from_gives = { λ _ e. e ≡ NoMemory };

    fn from(_: AllocError) -> StoreError {
        StoreError::NoMemory
    }
}

/// Bytes that are read from their start to their end.
pub trait Source {
    /// The bytes that are left, where the source reports them.
    ghost left: { Self → Option (List ℕ) };

    /// How often the source has failed.
    ghost faults: { Self → ℕ };

    /// Reads the next bytes into the front of `buf`, and gives their number. For a buffer that isn't
    /// empty, 0 is the end. Failed comes only where the count of faults rose, and takes no byte.
    fn read(&mut self, buf: &mut [u8]) -> Result<usize, Failed>
        ensures bound { ReadsAtMost result buf.new }
        ensures bytes { ReadConsumes (left self.old) (left self.new) result buf.new }
        ensures failed { OnErr result (Rose (faults self.old) (faults self.new)) }
        ensures later { faults self.old ≤ faults self.new };
}

/// Bytes that are written one after the other.
pub trait Sink {
    /// The bytes that were written, where the sink reports them.
    ghost written: { Self → Option (List ℕ) };

    /// How often the sink has failed.
    ghost faults: { Self → ℕ };

    /// Writes the front of `piece` and gives the number of bytes that it took, at least one where
    /// there are any. Failed comes only where the count of faults rose, and writes nothing.
    fn write(&mut self, piece: &[u8]) -> Result<usize, Failed>
        ensures some { IfOk result (λ n. 0 < length piece.now → 0 < n) }
        ensures bound { WritesAtMost result piece.now }
        ensures bytes { WriteAppends (written self.old) (written self.new) result piece.now }
        ensures failed { OnErr result (Rose (faults self.old) (faults self.new)) }
        ensures later { faults self.old ≤ faults self.new };
}

/// Files, each a name and bytes.
pub trait Folder {
    /// The files, where the folder reports them.
    ghost files: { Self → Option (List File) };

    /// How often the folder has failed.
    ghost faults: { Self → ℕ };

    /// The bytes of a file, of which there may be `limit`. It changes no file.
    ///
    /// TooLong: the file has more bytes than that. Failed: the count of faults rose, or the folder
    /// reports its files and has none of that name. NoMemory raises no count.
    fn fetch(&mut self, name: &str, limit: usize) -> Result<Vec<u8>, FetchError>
        ensures found { IfOk result (λ bytes. HoldsFile (files self.old) name.now bytes.items) }
        ensures within { IfOk result (λ bytes. length bytes.items ≤ limit) }
        ensures long { result ≡ Err FetchError.TooLong → HoldsLonger (files self.old) name.now limit }
        ensures failed { result ≡ Err FetchError.Failed → Rose (faults self.old) (faults self.new)
            ⊎ IsMissing (files self.old) name.now }
        ensures memory { result ≡ Err FetchError.NoMemory → faults self.new ≡ faults self.old }
        ensures same { files self.new ≡ files self.old }
        ensures later { faults self.old ≤ faults self.new };

    /// Makes `bytes` the file of this name, whether there was one or not. No other file changes.
    ///
    /// Failed: the count of faults rose, and what the file holds isn't known. NoMemory changes no
    /// file and raises no count.
    fn store(&mut self, name: &str, bytes: &[u8]) -> Result<(), StoreError>
        ensures stored { OnOk result (HoldsFile (files self.new) name.now bytes.now) }
        ensures others { KeepsOthers (files self.old) (files self.new) name.now }
        ensures failed { result ≡ Err StoreError.Failed → Rose (faults self.old) (faults self.new) }
        ensures memory { result ≡ Err StoreError.NoMemory → files self.new ≡ files self.old }
        ensures uncounted { result ≡ Err StoreError.NoMemory → faults self.new ≡ faults self.old }
        ensures later { faults self.old ≤ faults self.new };
}
