// Texts with a limit, a line after another.
ghost use Rattle.std.specs.Prelude.{◌≡◌, ◌-◌, ◌<◌, ◌≤◌, [], ◌++◌, length, Err, OnOk};
ghost use Rattle.derivation_trees.specs.Trees.{entry};
ghost use Rattle.derivation_text.specs.declared.error.TextError.TheVariants.{TooLong};
ghost use Rattle.derivation_trees.specs.WholeTrees.{IsTree};
ghost use Rattle.derivation_text.specs.ProofText.{line_text};
ghost use Rattle.derivation_text.specs.Limited.{Limited};

use crate::error::TextError;
use crate::write::write_line;
use derivation_trees::Line;
use std::alloc::Global;
use std::marker::Model;

/// What was written, and the most bytes that may be.
#[derive(Drop)]
pub struct Text {
    alloc: Global,
    bytes: Vec<u8>,
    limit: usize,
}

impl Model for Text {
    ghost Value = { Limited };

    ghost view = { λ t. record { bytes = t.bytes.items; limit = t.limit } };
}

impl Text {
    /// Nothing was written.
    pub fn new(alloc: Global, limit: usize) -> Text
        ensures { result ≡ record { bytes = []; limit = limit } }
    {
        Text {
            alloc,
            bytes: Vec::new(alloc),
            limit,
        }
    }

    /// How many more bytes may be written.
    pub fn room(&self) -> usize
        ensures { result ≡ self.now.limit - length self.now.bytes }
    {
        self.limit.saturating_sub(self.bytes.len())
    }

    /// What was written.
    pub fn into_bytes(self) -> Vec<u8>
        ensures { result.items ≡ self.bytes }
    {
        self.bytes
    }

    /// The text of a line. After an error the text is not to be used.
    pub fn line(&mut self, line: &Line) -> Result<(), TextError>
        // It is after what was written, where the nodes are those of a tree.
        ensures line { IsTree line.now → OnOk result (self.new ≡ record {
          bytes = self.old.bytes ++ line_text (entry line.now) [];
          limit = self.old.limit;
        }) }
        // No more bytes than may be are written.
        ensures within { OnOk result (length self.new.bytes ≤ self.new.limit) }
        // TooLong: the text with the line has more.
        ensures long { IsTree line.now → result ≡ Err TooLong →
            self.old.limit < length (self.old.bytes ++ line_text (entry line.now) []) }
    {
        write_line(self.alloc, &mut self.bytes, line)?;
        if self.bytes.len() > self.limit {
            return Err(TextError::TooLong);
        }
        Ok(())
    }
}
