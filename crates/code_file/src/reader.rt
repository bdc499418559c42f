// Bytes read from the front to the end. Each byte is judged as it comes, so that a refusal names the least place with
// which no code file begins.
ghost use Rattle.std.specs.Prelude.{◌≡◌, ◌<◌, ℕ, suc, List, [], ◌∷◌, length, vec_items, IfOk};
ghost use Rattle.std.specs.Int.{is_in_range};
ghost use Rattle.code_file.specs.Reading.{Reads, read, same, with_front, byte, any, two_reader, four_reader, times};
ghost use Rattle.code_file.specs.Reading.{eight_reader, list_reader, arguments_reader, length_reader, is_name_byte};
ghost use Rattle.code_file.specs.Reading.{upper_name_reader, may_follow, name_on, function_name_reader};
ghost use Rattle.code_file.specs.Reading.{register_reader};
ghost use Rattle.code_file.specs.declared.error.ReadStop.TheVariants.{Left};
ghost use Rattle.fip_language.specs.Character.{is_upper};

use crate::error::ReadStop;
use crate::names::{is_between, may_follow};
use crate::tags::NO_REGISTER;
use cell_code::Registers;
use fip_base::plain::{Name, Types};
use fip_language::characters::{is_keyword, is_name_byte, is_upper};
use std::alloc::Global;
use std::marker::Model;

/// The bytes that are left. A contract sees them as a list.
#[derive(Drop)]
pub struct Reader<'a> {
    pub alloc: Global,
    rest: &'a [u8],
}

impl<'a> Model for Reader<'a> {
    ghost Value = { List ℕ };

    ghost view = { λ r. r.rest.now };
}

impl<'a> Reader<'a> {
    /// Before the first byte.
    pub fn new(alloc: Global, bytes: &'a [u8]) -> Reader<'a>
        ensures { result ≡ bytes.now }
    {
        Reader { alloc, rest: bytes }
    }

    /// How many bytes are left.
    pub fn left(&self) -> usize
        ensures { result ≡ length self.now }
    {
        self.rest.len()
    }

    /// The refusal of the byte that was read last.
    pub fn stop_last(&self) -> ReadStop
        ensures { result ≡ Left (suc (length self.now)) }
    {
        ReadStop::Left(self.rest.len() + 1)
    }

    /// Any byte.
    #[tactic(auto, using(crate::proofs::Steps::bytes))]
    pub fn byte(&mut self) -> Result<u8, ReadStop>
        ensures { Reads same result self.new (read any self.old) }
    {
        match self.rest.split_first() {
            Some((byte, rest)) => {
                self.rest = rest;
                Ok(*byte)
            }
            None => Err(ReadStop::Left(0)),
        }
    }

    /// A byte within a range.
    #[tactic(auto, using(crate::proofs::Steps::bytes))]
    pub fn byte_in(&mut self, least: u8, greatest: u8) -> Result<u8, ReadStop>
        ensures { Reads same result self.new (read (byte (is_in_range least greatest)) self.old) }
    {
        match self.rest.split_first() {
            Some((byte, rest)) => {
                if !is_between(*byte, least, greatest) {
                    return Err(ReadStop::Left(self.rest.len()));
                }
                self.rest = rest;
                Ok(*byte)
            }
            None => Err(ReadStop::Left(0)),
        }
    }

    #[tactic(auto, using(crate::proofs::Got::of_two))]
    pub fn u16(&mut self) -> Result<u16, ReadStop>
        ensures { Reads same result self.new (read two_reader self.old) }
    {
        Ok(u16::from_be_bytes([self.byte()?, self.byte()?]))
    }

    #[tactic(auto, using(crate::proofs::Got::of_four))]
    pub fn u32(&mut self) -> Result<u32, ReadStop>
        ensures { Reads same result self.new (read four_reader self.old) }
    {
        Ok(u32::from_be_bytes([self.byte()?, self.byte()?, self.byte()?, self.byte()?]))
    }

    #[tactic(auto, using(crate::proofs::Got::of_eight))]
    pub fn i64(&mut self) -> Result<i64, ReadStop>
        ensures { Reads same result self.new (read eight_reader self.old) }
    {
        Ok(i64::from_be_bytes([
            self.byte()?,
            self.byte()?,
            self.byte()?,
            self.byte()?,
            self.byte()?,
            self.byte()?,
            self.byte()?,
            self.byte()?,
        ]))
    }

    /// The number of a type.
    pub fn ty(&mut self) -> Result<u32, ReadStop>
        ensures { Reads same result self.new (read two_reader self.old) }
    {
        Ok(u32::from(self.u16()?))
    }

    /// Types, after their count.
    #[tactic(auto, using(crate::proofs::Got::of_list))]
    pub fn types(&mut self) -> Result<Types, ReadStop>
        ensures { Reads same result self.new (read list_reader self.old) }
    {
        let count = self.byte()?;
        Ok(Types::new(self.type_numbers(count)?))
    }

    fn type_numbers(&mut self, count: u8) -> Result<Vec<u32>, ReadStop>
        ensures { Reads vec_items result self.new (read (times count two_reader) self.old) }
    {
        let mut types = Vec::new(self.alloc);
        for i in 0..count {
            types.push(self.ty()?)?;
        }
        Ok(types)
    }

    /// A register, or none.
    #[tactic(auto, using(crate::proofs::Steps::registers))]
    pub fn register_or_none(&mut self) -> Result<Option<u16>, ReadStop>
        ensures { Reads same result self.new (read register_reader self.old) }
    {
        let register = self.u16()?;
        if register == NO_REGISTER {
            Ok(None)
        } else {
            Ok(Some(register))
        }
    }

    // Registers, as many as given.
    fn registers(&mut self, count: u16) -> Result<Registers, ReadStop>
        ensures { Reads same result self.new (read (times count two_reader) self.old) }
    {
        let mut registers = Registers::new(self.alloc);
        for i in 0..count {
            registers.push(self.u16()?)?;
        }
        Ok(registers)
    }

    /// A list of registers with its count in one byte.
    #[tactic(auto, using(crate::proofs::Got::of_list))]
    pub fn list(&mut self) -> Result<Registers, ReadStop>
        ensures { Reads same result self.new (read list_reader self.old) }
    {
        let count = self.byte()?;
        self.registers(u16::from(count))
    }

    /// A list of registers with its count in two bytes.
    #[tactic(auto, using(crate::proofs::Got::of_arguments))]
    pub fn arguments(&mut self) -> Result<Registers, ReadStop>
        ensures { Reads same result self.new (read arguments_reader self.old) }
    {
        let count = self.u16()?;
        self.registers(count)
    }

    /// The name of a constructor. An empty one is bad at the last byte of its length.
    #[tactic(auto, using(crate::proofs::Got::of_upper_name))]
    pub fn upper_name(&mut self) -> Result<Name, ReadStop>
        ensures { Reads same result self.new (read upper_name_reader self.old) }
    {
        let length = self.length()?;
        let first = self.upper()?;
        Ok(Name::new(self.name_bytes(first, length - 1)?))
    }

    // The length of a name that isn't empty.
    #[tactic(auto, using(crate::proofs::Steps::lengths))]
    fn length(&mut self) -> Result<u32, ReadStop>
        ensures reads { Reads same result self.new (read length_reader self.old) }
        ensures some { IfOk result (λ n. 0 < n) }
    {
        let length = self.u32()?;
        if length == 0 {
            return Err(self.stop_last());
        }
        Ok(length)
    }

    #[tactic(auto, using(crate::proofs::Steps::bytes))]
    fn upper(&mut self) -> Result<u8, ReadStop>
        ensures { Reads same result self.new (read (byte is_upper) self.old) }
    {
        match self.rest.split_first() {
            Some((byte, rest)) => {
                if !is_upper(*byte) {
                    return Err(ReadStop::Left(self.rest.len()));
                }
                self.rest = rest;
                Ok(*byte)
            }
            None => Err(ReadStop::Left(0)),
        }
    }

    #[tactic(auto, using(crate::proofs::Steps::bytes))]
    fn name_byte(&mut self) -> Result<u8, ReadStop>
        ensures { Reads same result self.new (read (byte is_name_byte) self.old) }
    {
        match self.rest.split_first() {
            Some((byte, rest)) => {
                if !is_name_byte(*byte) {
                    return Err(ReadStop::Left(self.rest.len()));
                }
                self.rest = rest;
                Ok(*byte)
            }
            None => Err(ReadStop::Left(0)),
        }
    }

    // A byte, and so many after it with which a name may go on.
    fn name_bytes(&mut self, first: u8, count: u32) -> Result<Vec<u8>, ReadStop>
        ensures { Reads vec_items result self.new
            (with_front (first ∷ []) (read (times count (byte is_name_byte)) self.old)) }
    {
        let mut name = Vec::new(self.alloc);
        name.push(first)?;
        for i in 0..count {
            name.push(self.name_byte()?)?;
        }
        Ok(name)
    }

    /// The name of a function, or the empty name. A keyword is bad at its last byte.
    #[tactic(auto, using(crate::proofs::Got::of_function_name))]
    pub fn function_name(&mut self) -> Result<Name, ReadStop>
        ensures { Reads same result self.new (read function_name_reader self.old) }
    {
        let length = self.u32()?;
        Ok(Name::new(self.function_bytes(length)?))
    }

    #[tactic(auto, using(crate::proofs::Steps::names))]
    fn function_bytes(&mut self, length: u32) -> Result<Vec<u8>, ReadStop>
        ensures { Reads vec_items result self.new (read (name_on length []) self.old) }
    {
        let mut name = Vec::new(self.alloc);
        for i in 0..length {
            name.push(self.following(name.as_slice())?)?;
            if i + 1 == length && is_keyword(name.as_slice()) {
                return Err(self.stop_last());
            }
        }
        Ok(name)
    }

    // The next byte of a function's name that begins so.
    #[tactic(auto, using(crate::proofs::Steps::bytes))]
    fn following(&mut self, front: &[u8]) -> Result<u8, ReadStop>
        ensures { Reads same result self.new (read (byte (may_follow front.now)) self.old) }
    {
        match self.rest.split_first() {
            Some((byte, rest)) => {
                if !may_follow(front, *byte) {
                    return Err(ReadStop::Left(self.rest.len()));
                }
                self.rest = rest;
                Ok(*byte)
            }
            None => Err(ReadStop::Left(0)),
        }
    }
}
