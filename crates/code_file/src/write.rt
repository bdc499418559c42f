// Writing a code file: types, functions, the whole.
ghost use Rattle.std.specs.Prelude.{◌≡◌, ◌<◌, ◌≤◌, ℕ, List, length, map, Some, Err, IfOk};
ghost use Rattle.code_file.specs.declared.tags.Version.TheVariants.{Second};
ghost use Rattle.code_file.specs.declared.error.WriteError.TheVariants.{NotSpelled};
ghost use Rattle.cell_code.specs.Plain.{plain_label, plain_function, plain};
ghost use Rattle.code_file.specs.Spelling.{each};
ghost use Rattle.code_file.specs.CodeText.{CodeText, shape_text, type_text, types_text, table_text, code_kind_text};
ghost use Rattle.code_file.specs.CodeText.{param_text, params_text, credit_count_text, size_text, credits_text};
ghost use Rattle.code_file.specs.CodeText.{function_text, functions_text, instr_text, instrs_text, label_text};
ghost use Rattle.code_file.specs.CodeText.{labels_text, code_text};
ghost use Rattle.code_file.specs.Written.{Writes, after, second_text, label_in};

use crate::error::WriteError;
use crate::tags::{FBIP, FIP, LENT_PARAM, MAGIC, OWNED_PARAM, VERSION_2};
use crate::writer::Writer;
use cell_code::{Code, CodeKind, Function, Instr, Label};
use fip_base::plain::Param;
use fip_base::table::{Constructor, TypeTable};
use fip_language::limits::{MOST_CREDITS, MOST_FIELDS};
use std::alloc::Global;

/// The code file of version 2 that encodes the code, where it has at most `limit` bytes.
#[tactic(auto, using(crate::proofs::Writing::ends))]
pub fn write_code(alloc: Global, code: &Code, limit: usize) -> Result<Vec<u8>, WriteError>
    // What is written encodes the code.
    ensures text { IfOk result (λ v. CodeText v.items Second (plain code.now)) }
    ensures short { IfOk result (λ v. length v.items ≤ limit) }
    // It refuses only a code that no file encodes, or too long a one.
    ensures refused { result ≡ Err NotSpelled → (bytes : List ℕ) → CodeText bytes Second (plain code.now) →
        limit < length bytes }
{
    let mut writer = Writer::new(alloc, limit);
    match writer.code(code) {
        Ok(()) => Ok(writer.into_bytes()),
        Err(e) => Err(e),
    }
}

impl Writer {
    #[tactic(auto, unfolding(crate::specs::CodeText::code_text), using(crate::proofs::Writing::joins))]
    fn code(&mut self, code: &Code) -> Result<(), WriteError>
        ensures { Writes result self.new (after self.old (code_text Second (plain code.now))) }
    {
        self.bytes(MAGIC)?;
        self.bytes(&[0, VERSION_2])?;
        self.type_table(&code.types)?;
        self.functions(&code.functions)
    }

    #[tactic(auto, unfolding(crate::specs::CodeText::table_text), using(crate::proofs::Writing::joins))]
    fn type_table(&mut self, types: &TypeTable) -> Result<(), WriteError>
        ensures { Writes result self.new (after self.old (table_text types.now)) }
    {
        match u16::try_from(types.len()) {
            Ok(count) => {
                self.u16(count)?;
                self.data_types(types, count)
            }
            Err(_) => Err(WriteError::NotSpelled),
        }
    }

    // All data types, as many as given.
    fn data_types(&mut self, types: &TypeTable, count: u16) -> Result<(), WriteError>
        requires all { count ≡ length types.now }
        ensures { Writes result self.new (after self.old (each type_text types.now)) }
    {
        for i in 0..count {
            self.data_type(types.constructors_of(u32::from(i) + 1))?;
        }
        Ok(())
    }

    #[tactic(auto, unfolding(crate::specs::CodeText::type_text), using(crate::proofs::Writing::joins))]
    fn data_type(&mut self, constructors: &[Constructor]) -> Result<(), WriteError>
        ensures { Writes result self.new (after self.old (type_text constructors.now)) }
    {
        self.count32(constructors.len())?;
        self.constructors(constructors)
    }

    fn constructors(&mut self, constructors: &[Constructor]) -> Result<(), WriteError>
        ensures { Writes result self.new (after self.old (each shape_text constructors.now)) }
    {
        for constructor in constructors {
            self.constructor(constructor)?;
        }
        Ok(())
    }

    #[tactic(auto, unfolding(crate::specs::CodeText::shape_text), using(crate::proofs::Writing::joins))]
    fn constructor(&mut self, constructor: &Constructor) -> Result<(), WriteError>
        ensures { Writes result self.new (after self.old (shape_text constructor.now)) }
    {
        self.upper_name(constructor.name())?;
        self.types(constructor.fields())
    }

    #[tactic(auto, using(crate::proofs::Writing::functions_are, crate::proofs::Writing::joins))]
    fn functions(&mut self, functions: &[Function]) -> Result<(), WriteError>
        ensures { Writes result self.new (after self.old (functions_text Second (map plain_function functions.now))) }
    {
        self.count16(functions.len())?;
        self.each_function(functions)
    }

    fn each_function(&mut self, functions: &[Function]) -> Result<(), WriteError>
        ensures { Writes result self.new (after self.old (each second_text functions.now)) }
    {
        for function in functions {
            self.function(function)?;
        }
        Ok(())
    }

    #[tactic(auto, unfolding(crate::specs::CodeText::function_text), using(crate::proofs::Writing::joins))]
    fn function(&mut self, function: &Function) -> Result<(), WriteError>
        ensures { Writes result self.new (after self.old (function_text Second (plain_function function.now))) }
    {
        self.code_kind(function.kind)?;
        self.function_name(function.name.as_slice())?;
        self.params(function.params.as_slice())?;
        self.credits(&function.credits)?;
        self.types(function.results.as_slice())?;
        self.u16(function.registers)?;
        self.instrs(&function.instrs)?;
        self.labels(&function.labels, function.registers)
    }

    #[tactic(auto, using(crate::proofs::Writing::after_missing))]
    fn code_kind(&mut self, kind: CodeKind) -> Result<(), WriteError>
        ensures { Writes result self.new (after self.old (code_kind_text kind)) }
    {
        match kind {
            CodeKind::Fip => self.byte(FIP),
            CodeKind::Fbip => self.byte(FBIP),
        }
    }

    #[tactic(auto, unfolding(crate::specs::CodeText::params_text), using(crate::proofs::Writing::joins))]
    fn params(&mut self, params: &[Param]) -> Result<(), WriteError>
        ensures { Writes result self.new (after self.old (params_text params.now)) }
    {
        self.count16(params.len())?;
        self.each_param(params)
    }

    fn each_param(&mut self, params: &[Param]) -> Result<(), WriteError>
        ensures { Writes result self.new (after self.old (each param_text params.now)) }
    {
        for param in params {
            self.param(*param)?;
        }
        Ok(())
    }

    #[tactic(auto, unfolding(crate::specs::CodeText::param_text), using(crate::proofs::Writing::joins))]
    fn param(&mut self, param: Param) -> Result<(), WriteError>
        ensures { Writes result self.new (after self.old (param_text param)) }
    {
        if param.lent {
            self.byte(LENT_PARAM)?;
        } else {
            self.byte(OWNED_PARAM)?;
        }
        self.ty(param.ty)
    }

    // The sizes of a header's credits.
    #[tactic(auto, unfolding(crate::specs::CodeText::credits_text), using(crate::proofs::Writing::joins))]
    fn credits(&mut self, sizes: &[u8]) -> Result<(), WriteError>
        ensures { Writes result self.new (after self.old (credits_text Second sizes.now)) }
    {
        self.credit_count(sizes.len())?;
        self.each_size(sizes)
    }

    #[tactic(auto, unfolding(crate::specs::CodeText::credit_count_text), using(crate::proofs::Writing::after_missing))]
    fn credit_count(&mut self, count: usize) -> Result<(), WriteError>
        ensures { Writes result self.new (after self.old (credit_count_text count)) }
    {
        if count > MOST_CREDITS {
            return Err(WriteError::NotSpelled);
        }
        self.byte(count as u8)
    }

    fn each_size(&mut self, sizes: &[u8]) -> Result<(), WriteError>
        ensures { Writes result self.new (after self.old (each size_text sizes.now)) }
    {
        for size in sizes {
            self.size(*size)?;
        }
        Ok(())
    }

    #[tactic(auto, unfolding(crate::specs::CodeText::size_text), using(crate::proofs::Writing::after_missing))]
    fn size(&mut self, size: u8) -> Result<(), WriteError>
        ensures { Writes result self.new (after self.old (size_text size)) }
    {
        if size == 0 {
            return Err(WriteError::NotSpelled);
        }
        if size as usize > MOST_FIELDS {
            return Err(WriteError::NotSpelled);
        }
        self.byte(size)
    }

    #[tactic(auto, unfolding(crate::specs::CodeText::instrs_text), using(crate::proofs::Writing::joins))]
    fn instrs(&mut self, instrs: &[Instr]) -> Result<(), WriteError>
        ensures { Writes result self.new (after self.old (instrs_text instrs.now)) }
    {
        self.count32(instrs.len())?;
        self.each_instr(instrs)
    }

    fn each_instr(&mut self, instrs: &[Instr]) -> Result<(), WriteError>
        ensures { Writes result self.new (after self.old (each instr_text instrs.now)) }
    {
        for instr in instrs {
            self.instr(instr)?;
        }
        Ok(())
    }

    #[tactic(auto, using(crate::proofs::Writing::labels_are, crate::proofs::Writing::joins))]
    fn labels(&mut self, labels: &[Label], registers: u16) -> Result<(), WriteError>
        ensures { Writes result self.new (after self.old (labels_text registers (map plain_label labels.now))) }
    {
        self.count32(labels.len())?;
        self.each_label(labels, registers)
    }

    fn each_label(&mut self, labels: &[Label], registers: u16) -> Result<(), WriteError>
        ensures { Writes result self.new (after self.old (each (label_in registers) labels.now)) }
    {
        for label in labels {
            self.label(label, registers)?;
        }
        Ok(())
    }
}
