// Reading a code file: types, functions, the whole.
ghost use Rattle.std.specs.Prelude.{◌≡◌, ℕ, List, map, vec_items, vec_len, IfOk, MatchResult, Err};
ghost use Rattle.fip_language.specs.Prefix.{IsPlace};
ghost use Rattle.code_file.specs.declared.tags.Version.{Version as a_version};
ghost use Rattle.code_file.specs.declared.error.ReadCodeError.TheVariants.{BadCode, NoMemory};
ghost use Rattle.cell_code.specs.Plain.{PlainCode, plain_label, plain_function, plain};
ghost use Rattle.code_file.specs.CodeText.{CodeText, IsFileOf};
ghost use Rattle.code_file.specs.Reading.{ReadsFile, Reads, read, same, times, shape_reader, type_reader, table_reader};
ghost use Rattle.code_file.specs.Reading.{code_kind_reader, param_reader, params_reader, size_reader, credits_reader};
ghost use Rattle.code_file.specs.Reading.{instr_reader, instrs_reader, label_reader, labels_reader, function_reader};
ghost use Rattle.code_file.specs.Reading.{functions_reader, magic_reader, code_reader};

use crate::error::{ReadCodeError, ReadStop};
use crate::reader::Reader;
use crate::tags::{FBIP, FIP, LENT_PARAM, OWNED_PARAM, VERSION_1, VERSION_2, Version};
use cell_code::{Code, CodeKind, Function, Instr, Label};
use fip_base::plain::{Param, Params};
use fip_base::table::{Constructor, DataType, TypeTable};
use fip_language::limits::{MOST_CREDITS, MOST_FIELDS};
use std::alloc::Global;

/// The code that the bytes encode, in version 1 or 2; in version 1 no function states a credit. It takes memory for
/// what was read, not for what a count announces.
pub fn read_code(alloc: Global, bytes: &[u8]) -> Result<Code, ReadCodeError>
    // What is read is encoded so.
    ensures text { IfOk result (λ c. IsFileOf bytes.now (plain c)) }
    // What is encoded so is read, unless memory runs out.
    ensures only { (v : a_version) (c : PlainCode) → CodeText bytes.now v c →
        MatchResult result (λ d. plain d ≡ c) (λ e. e ≡ NoMemory) }
    // Else the place is the least with which no file begins.
    ensures place { (at : ℕ) → result ≡ Err (BadCode at) → IsPlace IsFileOf bytes.now at }
{
    match whole(alloc, bytes) {
        Ok(code) => Ok(code),
        Err(ReadStop::Left(left)) => Err(ReadCodeError::BadCode {
            at: bytes.len().saturating_sub(left),
        }),
        Err(ReadStop::NoMemory) => Err(ReadCodeError::NoMemory),
    }
}

// The code that all of the bytes encode.
#[tactic(auto, using(crate::proofs::Steps::wholes))]
fn whole(alloc: Global, bytes: &[u8]) -> Result<Code, ReadStop>
    ensures { ReadsFile result bytes.now }
{
    let mut reader = Reader::new(alloc, bytes);
    let (_, code) = reader.code()?;
    if 0 < reader.left() {
        return Err(ReadStop::Left(reader.left()));
    }
    Ok(code)
}

impl<'a> Reader<'a> {
    #[tactic(auto, using(crate::proofs::Got::of_code))]
    fn code(&mut self) -> Result<(Version, Code), ReadStop>
        ensures { Reads (λ p. (p.0, plain p.1)) result self.new (read code_reader self.old) }
    {
        let version = self.version()?;
        let types = self.type_table()?;
        let functions = self.functions(version)?;
        Ok((version, Code { types, functions }))
    }

    // The bytes before the types.
    #[tactic(auto, using(crate::proofs::Got::of_magic))]
    fn version(&mut self) -> Result<Version, ReadStop>
        ensures { Reads same result self.new (read magic_reader self.old) }
    {
        self.byte_in(b'F', b'F')?;
        self.byte_in(b'P', b'P')?;
        self.byte_in(b'2', b'2')?;
        self.byte_in(b'C', b'C')?;
        self.byte_in(0, 0)?;
        if self.byte_in(VERSION_1, VERSION_2)? == VERSION_1 {
            Ok(Version::First)
        } else {
            Ok(Version::Second)
        }
    }

    #[tactic(auto, using(crate::proofs::Got::of_table))]
    fn type_table(&mut self) -> Result<TypeTable, ReadStop>
        ensures { Reads same result self.new (read table_reader self.old) }
    {
        let count = self.u16()?;
        self.data_types(count)
    }

    fn data_types(&mut self, count: u16) -> Result<TypeTable, ReadStop>
        ensures { Reads same result self.new (read (times count type_reader) self.old) }
    {
        let mut types = TypeTable::new(self.alloc);
        for i in 0..count {
            types.push(self.data_type()?)?;
        }
        Ok(types)
    }

    #[tactic(auto, using(crate::proofs::Got::of_type))]
    fn data_type(&mut self) -> Result<DataType, ReadStop>
        ensures { Reads same result self.new (read type_reader self.old) }
    {
        let count = self.u32()?;
        let constructors = self.declared(count)?;
        Ok(DataType::new(constructors))
    }

    // Constructors with their fields' types, as many as given.
    fn declared(&mut self, count: u32) -> Result<Vec<Constructor>, ReadStop>
        ensures reads { Reads vec_items result self.new (read (times count shape_reader) self.old) }
        ensures all { IfOk result (λ v. vec_len v ≡ count) }
    {
        let mut constructors = Vec::new(self.alloc);
        for i in 0..count {
            constructors.push(self.constructor()?)?;
        }
        Ok(constructors)
    }

    #[tactic(auto, using(crate::proofs::Got::of_shape))]
    fn constructor(&mut self) -> Result<Constructor, ReadStop>
        ensures { Reads same result self.new (read shape_reader self.old) }
    {
        let name = self.upper_name()?;
        let fields = self.types()?;
        Ok(Constructor::new(name, fields))
    }

    #[tactic(auto, using(crate::proofs::Got::of_functions))]
    fn functions(&mut self, version: Version) -> Result<Vec<Function>, ReadStop>
        ensures { Reads (λ v. map plain_function v.items) result self.new (read (functions_reader version) self.old) }
    {
        let count = self.u16()?;
        self.each_function(version, count)
    }

    fn each_function(&mut self, version: Version, count: u16) -> Result<Vec<Function>, ReadStop>
        ensures { Reads (λ v. map plain_function v.items) result self.new
            (read (times count (function_reader version)) self.old) }
    {
        let mut functions = Vec::new(self.alloc);
        for i in 0..count {
            functions.push(self.function(version)?)?;
        }
        Ok(functions)
    }

    #[tactic(auto, using(crate::proofs::Got::of_function))]
    fn function(&mut self, version: Version) -> Result<Function, ReadStop>
        ensures { Reads plain_function result self.new (read (function_reader version) self.old) }
    {
        let kind = self.code_kind()?;
        let name = self.function_name()?;
        let params = self.params()?;
        let credits = self.credits(version)?;
        let results = self.types()?;
        let registers = self.u16()?;
        let instrs = self.instrs()?;
        let labels = self.labels(registers)?;
        Ok(Function {
            kind,
            name,
            params,
            credits,
            results,
            registers,
            instrs,
            labels,
        })
    }

    #[tactic(auto, using(crate::proofs::Steps::code_kinds))]
    fn code_kind(&mut self) -> Result<CodeKind, ReadStop>
        ensures { Reads same result self.new (read code_kind_reader self.old) }
    {
        if self.byte_in(FIP, FBIP)? == FIP {
            Ok(CodeKind::Fip)
        } else {
            Ok(CodeKind::Fbip)
        }
    }

    #[tactic(auto, using(crate::proofs::Got::of_params))]
    fn params(&mut self) -> Result<Params, ReadStop>
        ensures { Reads same result self.new (read params_reader self.old) }
    {
        let count = self.u16()?;
        Ok(Params::new(self.each_param(count)?))
    }

    fn each_param(&mut self, count: u16) -> Result<Vec<Param>, ReadStop>
        ensures { Reads vec_items result self.new (read (times count param_reader) self.old) }
    {
        let mut params = Vec::new(self.alloc);
        for i in 0..count {
            params.push(self.param()?)?;
        }
        Ok(params)
    }

    #[tactic(auto, using(crate::proofs::Got::of_param))]
    fn param(&mut self) -> Result<Param, ReadStop>
        ensures { Reads same result self.new (read param_reader self.old) }
    {
        let mark = self.byte_in(OWNED_PARAM, LENT_PARAM)?;
        let ty = self.ty()?;
        Ok(Param {
            ty,
            lent: mark == LENT_PARAM,
        })
    }

    // The sizes of a header's credits; in the first version there are none.
    #[tactic(auto, using(crate::proofs::Got::of_credits))]
    fn credits(&mut self, version: Version) -> Result<Vec<u8>, ReadStop>
        ensures { Reads vec_items result self.new (read (credits_reader version) self.old) }
    {
        match version {
            Version::First => Ok(Vec::new(self.alloc)),
            Version::Second => {
                let count = self.byte_in(0, MOST_CREDITS as u8)?;
                self.each_size(count)
            }
        }
    }

    fn each_size(&mut self, count: u8) -> Result<Vec<u8>, ReadStop>
        ensures { Reads vec_items result self.new (read (times count size_reader) self.old) }
    {
        let mut sizes = Vec::new(self.alloc);
        for i in 0..count {
            sizes.push(self.size()?)?;
        }
        Ok(sizes)
    }

    #[tactic(auto, using(crate::proofs::Got::of_size))]
    fn size(&mut self) -> Result<u8, ReadStop>
        ensures { Reads same result self.new (read size_reader self.old) }
    {
        self.byte_in(1, MOST_FIELDS as u8)
    }

    #[tactic(auto, using(crate::proofs::Got::of_instrs))]
    fn instrs(&mut self) -> Result<Vec<Instr>, ReadStop>
        ensures { Reads vec_items result self.new (read instrs_reader self.old) }
    {
        let count = self.u32()?;
        self.each_instr(count)
    }

    fn each_instr(&mut self, count: u32) -> Result<Vec<Instr>, ReadStop>
        ensures { Reads vec_items result self.new (read (times count instr_reader) self.old) }
    {
        let mut instrs = Vec::new(self.alloc);
        for i in 0..count {
            instrs.push(self.instr()?)?;
        }
        Ok(instrs)
    }

    #[tactic(auto, using(crate::proofs::Got::of_labels))]
    fn labels(&mut self, registers: u16) -> Result<Vec<Label>, ReadStop>
        ensures { Reads (λ v. map plain_label v.items) result self.new (read (labels_reader registers) self.old) }
    {
        let count = self.u32()?;
        self.each_label(count, registers)
    }

    fn each_label(&mut self, count: u32, registers: u16) -> Result<Vec<Label>, ReadStop>
        ensures { Reads (λ v. map plain_label v.items) result self.new
            (read (times count (label_reader registers)) self.old) }
    {
        let mut labels = Vec::new(self.alloc);
        for i in 0..count {
            labels.push(self.label(registers)?)?;
        }
        Ok(labels)
    }
}
