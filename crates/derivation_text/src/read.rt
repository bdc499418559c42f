// Derivations read from their text.
ghost use Rattle.std.specs.Prelude.{◌≡◌, ℕ, List, IfOk, MatchResult, Err};
ghost use Rattle.fip_language.specs.Prefix.{IsPlace};
ghost use Rattle.derivation_trees.specs.Trees.{Entry, entries};
ghost use Rattle.derivation_text.specs.declared.error.ProofError.TheVariants.{BadProof, NoMemory};
ghost use Rattle.derivation_trees.specs.WholeTrees.{AreTrees};
ghost use Rattle.derivation_text.specs.ProofText.{IsProofText};
ghost use Rattle.derivation_text.specs.Machine.{flats, start};
ghost use Rattle.derivation_text.specs.Reading.{Runs, runs};

use crate::error::{ByteError, ProofError};
use crate::reader::Reader;
use derivation_trees::{Derivation, Line};
use std::alloc::Global;

/// The derivation that a text encodes. BadProof where the bytes are no derivation's text, with the least place that is
/// bad; NoMemory where no memory is left. No call nests deeper for nodes that do. It takes memory for what was read.
pub fn read_derivation(alloc: Global, bytes: &[u8]) -> Result<Derivation, ProofError>
    // What is read is encoded so.
    ensures text { IfOk result (λ d. IsProofText bytes.now (entries d)) }
    // What is encoded so is read, unless memory runs out.
    ensures only { (es : List Entry) → IsProofText bytes.now es →
        MatchResult result (λ d. entries d ≡ es) (λ e. e ≡ NoMemory) }
    // Its lines' nodes are those of trees, so that it is written as it was read.
    ensures trees { IfOk result (λ d. AreTrees d.lines.items) }
    // Else the place is the least with which no text begins.
    ensures place { (at : ℕ) → result ≡ Err (BadProof at) → IsPlace IsProofText bytes.now at }
{
    match read_lines(alloc, bytes) {
        Ok(lines) => Ok(Derivation::new(lines)),
        Err(error) => Err(error),
    }
}

// The lines that all of the bytes encode.
fn read_lines(alloc: Global, bytes: &[u8]) -> Result<Vec<Line>, ProofError>
    ensures { Runs result (runs (start flats) bytes.now 0) }
{
    let mut reader = Reader::new(alloc);
    for (at, byte) in bytes.iter().enumerate() {
        match reader.take(*byte) {
            Ok(()) => {}
            Err(ByteError::Bad) => return Err(ProofError::BadProof { at }),
            Err(ByteError::NoMemory) => return Err(ProofError::NoMemory),
        }
    }
    match reader.end() {
        Some(lines) => Ok(lines),
        None => Err(ProofError::BadProof { at: bytes.len() }),
    }
}
