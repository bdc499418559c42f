// Why a proof file isn't accepted.
use thiserror::Error;

/// Why a proof file isn't accepted.
#[derive(Clone, Copy, Debug, PartialEq, Eq, Error)]
pub enum AuditError {
    /// It is no derivation's text, with the place that is bad; or it has more than 16,777,216 bytes, and the place is
    /// that number.
    #[error("bad proof at {at}")]
    BadProof { at: usize },
    /// It is no derivation of the program.
    #[error("no derivation of the program")]
    NotDerived,
    /// No memory was left.
    #[error("no memory is left")]
    NoMemory,
}
