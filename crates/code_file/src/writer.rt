// Bytes written one after the other, up to a limit.
ghost use Rattle.std.specs.Prelude.{◌≡◌, [], length, Some, IfOk};
ghost use Rattle.code_file.specs.Spelling.{each, mark, one, two, four, eight, name_text, upper_name_text};
ghost use Rattle.code_file.specs.Spelling.{function_name_text};
ghost use Rattle.code_file.specs.CodeText.{list_text, arguments_text, types_text, register_text};
ghost use Rattle.code_file.specs.Written.{Written, Writes, after};

use crate::error::WriteError;
use crate::names::{is_function_name, is_upper_name};
use crate::tags::NO_REGISTER;
use byteorder::{BigEndian, ByteOrder};
use std::alloc::Global;
use std::marker::Model;

/// What was written so far, and the most bytes that may be.
#[derive(Drop)]
pub struct Writer {
    bytes: Vec<u8>,
    limit: usize,
}

impl Model for Writer {
    ghost Value = { Written };

    ghost view = { λ w. record { bytes = w.bytes.items; limit = w.limit } };
}

impl Writer {
    /// Nothing was written.
    pub fn new(alloc: Global, limit: usize) -> Writer
        ensures { result ≡ record { bytes = []; limit = limit } }
    {
        Writer {
            bytes: Vec::new(alloc),
            limit,
        }
    }

    /// What was written.
    pub fn into_bytes(self) -> Vec<u8>
        ensures { result.items ≡ self.bytes }
    {
        self.bytes
    }

    /// These bytes.
    #[tactic(auto, unfolding(crate::specs::Written::after))]
    pub fn bytes(&mut self, bytes: &[u8]) -> Result<(), WriteError>
        ensures { Writes result self.new (after self.old (Some bytes.now)) }
    {
        if self.limit.saturating_sub(self.bytes.len()) < bytes.len() {
            return Err(WriteError::NotSpelled);
        }
        self.bytes.extend_from_slice(bytes)?;
        Ok(())
    }

    pub fn byte(&mut self, byte: u8) -> Result<(), WriteError>
        ensures { Writes result self.new (after self.old (mark byte)) }
    {
        self.bytes(&[byte])
    }

    #[tactic(auto, using(crate::proofs::Numbers::one_fits))]
    pub fn u8(&mut self, number: u8) -> Result<(), WriteError>
        ensures { Writes result self.new (after self.old (one number)) }
    {
        self.byte(number)
    }

    #[tactic(auto, using(crate::proofs::Numbers::two_fits))]
    pub fn u16(&mut self, number: u16) -> Result<(), WriteError>
        ensures { Writes result self.new (after self.old (two number)) }
    {
        let mut bytes = [0; 2];
        BigEndian::write_u16(&mut bytes, number);
        self.bytes(&bytes)
    }

    #[tactic(auto, using(crate::proofs::Numbers::four_fits))]
    pub fn u32(&mut self, number: u32) -> Result<(), WriteError>
        ensures { Writes result self.new (after self.old (four number)) }
    {
        let mut bytes = [0; 4];
        BigEndian::write_u32(&mut bytes, number);
        self.bytes(&bytes)
    }

    #[tactic(auto, using(crate::proofs::Numbers::eight_fits))]
    pub fn i64(&mut self, number: i64) -> Result<(), WriteError>
        ensures { Writes result self.new (after self.old (eight number)) }
    {
        let mut bytes = [0; 8];
        BigEndian::write_i64(&mut bytes, number);
        self.bytes(&bytes)
    }

    /// A count in one byte.
    #[tactic(auto, using(crate::proofs::Numbers::one_fits, crate::proofs::Numbers::one_none))]
    pub fn count8(&mut self, count: usize) -> Result<(), WriteError>
        ensures { Writes result self.new (after self.old (one count)) }
    {
        match u8::try_from(count) {
            Ok(count) => self.byte(count),
            Err(_) => Err(WriteError::NotSpelled),
        }
    }

    /// A count in two bytes.
    #[tactic(auto, using(crate::proofs::Numbers::two_none))]
    pub fn count16(&mut self, count: usize) -> Result<(), WriteError>
        ensures { Writes result self.new (after self.old (two count)) }
    {
        match u16::try_from(count) {
            Ok(count) => self.u16(count),
            Err(_) => Err(WriteError::NotSpelled),
        }
    }

    /// A count in four bytes.
    #[tactic(auto, using(crate::proofs::Numbers::four_none))]
    pub fn count32(&mut self, count: usize) -> Result<(), WriteError>
        ensures { Writes result self.new (after self.old (four count)) }
    {
        match u32::try_from(count) {
            Ok(count) => self.u32(count),
            Err(_) => Err(WriteError::NotSpelled),
        }
    }

    /// The number of a type.
    pub fn ty(&mut self, ty: u32) -> Result<(), WriteError>
        ensures { Writes result self.new (after self.old (two ty)) }
    {
        self.count16(ty as usize)
    }

    /// Types, after their count.
    #[tactic(auto, unfolding(crate::specs::CodeText::types_text), using(crate::proofs::Writing::joins))]
    pub fn types(&mut self, types: &[u32]) -> Result<(), WriteError>
        ensures { Writes result self.new (after self.old (types_text types.now)) }
    {
        self.count8(types.len())?;
        self.each_type(types)
    }

    fn each_type(&mut self, types: &[u32]) -> Result<(), WriteError>
        ensures { Writes result self.new (after self.old (each two types.now)) }
    {
        for ty in types {
            self.ty(*ty)?;
        }
        Ok(())
    }

    /// A register where there may be none. The register that stands for none can't be written.
    #[tactic(auto, unfolding(crate::specs::CodeText::register_text), using(crate::proofs::Writing::after_missing))]
    pub fn register_or_none(&mut self, register: Option<u16>) -> Result<(), WriteError>
        ensures { Writes result self.new (after self.old (register_text register)) }
    {
        match register {
            Some(register) => {
                if register == NO_REGISTER {
                    return Err(WriteError::NotSpelled);
                }
                self.u16(register)
            }
            None => self.bytes(&[0xff, 0xff]),
        }
    }

    /// A list of registers with its count in one byte.
    #[tactic(auto, unfolding(crate::specs::CodeText::list_text), using(crate::proofs::Writing::joins))]
    pub fn list(&mut self, registers: &[u16]) -> Result<(), WriteError>
        ensures { Writes result self.new (after self.old (list_text registers.now)) }
    {
        self.count8(registers.len())?;
        self.registers(registers)
    }

    /// A list of registers with its count in two bytes.
    #[tactic(auto, unfolding(crate::specs::CodeText::arguments_text), using(crate::proofs::Writing::joins))]
    pub fn arguments(&mut self, registers: &[u16]) -> Result<(), WriteError>
        ensures { Writes result self.new (after self.old (arguments_text registers.now)) }
    {
        self.count16(registers.len())?;
        self.registers(registers)
    }

    fn registers(&mut self, registers: &[u16]) -> Result<(), WriteError>
        ensures { Writes result self.new (after self.old (each two registers.now)) }
    {
        for register in registers {
            self.u16(*register)?;
        }
        Ok(())
    }

    /// The name of a constructor.
    #[tactic(auto, unfolding(crate::specs::Spelling::upper_name_text))]
    pub fn upper_name(&mut self, name: &[u8]) -> Result<(), WriteError>
        ensures { Writes result self.new (after self.old (upper_name_text name.now)) }
    {
        if !is_upper_name(name) {
            return Err(WriteError::NotSpelled);
        }
        self.name(name)
    }

    /// The name of a function, or the empty name.
    #[tactic(auto, unfolding(crate::specs::Spelling::function_name_text))]
    pub fn function_name(&mut self, name: &[u8]) -> Result<(), WriteError>
        ensures { Writes result self.new (after self.old (function_name_text name.now)) }
    {
        if !is_function_name(name) {
            return Err(WriteError::NotSpelled);
        }
        self.name(name)
    }

    #[tactic(auto, unfolding(crate::specs::Spelling::name_text), using(crate::proofs::Writing::joins))]
    fn name(&mut self, name: &[u8]) -> Result<(), WriteError>
        ensures { Writes result self.new (after self.old (name_text name.now)) }
    {
        self.count32(name.len())?;
        self.bytes(name)
    }
}
