// Bytes of a trace read from the front to the end.
ghost use Rattle.std.specs.Prelude.{◌≡◌, ◌<◌, ◌≤◌, ◌^◌, IfOk, vec_items};
ghost use Rattle.run_loading.specs.TraceReading.{read_number, read_words, read_exactly, read_end};
ghost use Rattle.trace_files.specs.Reading.{Reads, same, nothing, read_byte};

use cell_trace::ReadTraceError;
use std::alloc::Global;
use std::marker::Model;

/// The bytes that are left, and the offset of the first of them.
#[derive(Drop)]
pub struct Reader<'a> {
    rest: &'a [u8],
    at: usize,
}

impl<'a> Model for Reader<'a> {
    ghost use Rattle.std.specs.Prelude.{◌≤◌, ◌+◌, length};
    ghost use Rattle.trace_files.specs.Reading.{Spot};

    ghost Value = { Spot };

    ghost view = { λ r. record { at = r.at; rest = r.rest.now } };

    ghost invariant = { λ r. r.at + length r.rest.now ≤ 18446744073709551615 };
}

impl<'a> Reader<'a> {
    /// Before the first byte.
    pub fn new(bytes: &'a [u8]) -> Reader<'a>
        ensures begins { result ≡ record { at = 0; rest = bytes.now } }
    {
        Reader { rest: bytes, at: 0 }
    }

    /// The offset of the next byte.
    pub fn at(&self) -> usize
        ensures at { result ≡ self.now.at }
    {
        self.at
    }

    // A byte. Bytes that end early are bad at their end.
    #[tactic(auto, using(crate::proofs::Steps::bytes))]
    fn byte(&mut self) -> Result<u8, ReadTraceError>
        ensures reads { Reads same result self.new (read_byte self.old.at self.old.rest) }
        ensures small { IfOk result (λ b. b < 256) }
    {
        match self.rest.split_first() {
            Some((byte, rest)) => {
                self.rest = rest;
                self.at += 1;
                Ok(*byte)
            }
            None => Err(ReadTraceError::BadTrace { at: self.at }),
        }
    }

    // A number of so many bytes, at most eight.
    fn number(&mut self, width: usize) -> Result<u64, ReadTraceError>
        requires few { width ≤ 8 }
        ensures reads { Reads same result self.new (read_number width 0 self.old.at self.old.rest) }
        ensures below { IfOk result (λ n. n < 256 ^ width) }
    {
        let mut number: u64 = 0;
        for i in 0..width {
            number = number * 256 + u64::from(self.byte()?);
        }
        Ok(number)
    }

    /// A number of one byte.
    #[tactic(auto, using(crate::proofs::Steps::one_byte))]
    pub fn u8(&mut self) -> Result<u8, ReadTraceError>
        ensures reads { Reads same result self.new (read_number 1 0 self.old.at self.old.rest) }
    {
        self.byte()
    }

    /// A number of four bytes, the first the highest.
    pub fn u32(&mut self) -> Result<u32, ReadTraceError>
        ensures reads { Reads same result self.new (read_number 4 0 self.old.at self.old.rest) }
    {
        Ok(self.number(4)? as u32)
    }

    /// A number of eight bytes.
    pub fn u64(&mut self) -> Result<u64, ReadTraceError>
        ensures reads { Reads same result self.new (read_number 8 0 self.old.at self.old.rest) }
    {
        self.number(8)
    }

    /// So many words.
    pub fn words(&mut self, alloc: Global, count: usize) -> Result<Vec<u64>, ReadTraceError>
        ensures reads { Reads vec_items result self.new (read_words count self.old.at self.old.rest) }
    {
        let mut words = Vec::new(alloc);
        for i in 0..count {
            words.push(self.u64()?)?;
        }
        Ok(words)
    }

    /// These bytes; the first other one is bad.
    pub fn exactly(&mut self, wanted: &[u8]) -> Result<(), ReadTraceError>
        ensures reads { Reads nothing result self.new (read_exactly wanted.now self.old.at self.old.rest) }
    {
        for byte in wanted {
            let at = self.at;
            if self.byte()? != *byte {
                return Err(ReadTraceError::BadTrace { at });
            }
        }
        Ok(())
    }

    /// That no byte is left; else the next one is bad.
    pub fn end(&self) -> Result<(), ReadTraceError>
        ensures reads { Reads nothing result self.now (read_end tt self.now.at self.now.rest) }
    {
        if self.rest.is_empty() {
            Ok(())
        } else {
            Err(ReadTraceError::BadTrace { at: self.at })
        }
    }
}
