// Writing instructions.
ghost use Rattle.std.specs.Prelude.{◌≡◌};
ghost use Rattle.cell_code.specs.declared.code.Instr.TheVariants as I;
ghost use Rattle.code_file.specs.Spelling.{mark};
ghost use Rattle.code_file.specs.CodeText.{instr_text, operator_number};
ghost use Rattle.code_file.specs.Written.{Writes, after};

use crate::error::WriteError;
use crate::tags::{
    ARITH, ATOM, CALL, CONST, DROP, FREE, JUMP, MOVE, PEEK, PUT, RET, TAIL, TAKE, TEST, TEST_INT,
    number_of,
};
use crate::writer::Writer;
use cell_code::Instr;
use fip_base::plain::Operator;

impl Writer {
    /// An instruction.
    #[tactic(auto)]
    pub fn instr(&mut self, instr: &Instr) -> Result<(), WriteError>
        ensures { Writes result self.new (after self.old (instr_text instr.now)) }
    {
        match instr {
            Instr::Const { destination, value } => self.const_(*destination, *value),
            Instr::Atom {
                destination,
                ty,
                constructor,
            } => self.atom(*destination, *ty, *constructor),
            Instr::Move {
                destination,
                source,
            } => self.move_(*destination, *source),
            Instr::Arith {
                destination,
                operator,
                left,
                right,
                line,
                col,
            } => self.arith(*destination, *operator, *left, *right, *line, *col),
            Instr::Test {
                register,
                constructor,
                target,
            } => self.test(*register, *constructor, *target),
            Instr::TestInt {
                register,
                value,
                target,
            } => self.test_int(*register, *value, *target),
            Instr::Peek {
                destination,
                register,
                field,
            } => self.peek(*destination, *register, *field),
            Instr::Take { register, fields } => self.take(*register, fields.as_slice()),
            Instr::Put {
                register,
                ty,
                constructor,
                fields,
            } => self.put(*register, *ty, *constructor, fields.as_slice()),
            Instr::Drop { register } => self.drop_(*register),
            Instr::Free { register } => self.free(*register),
            Instr::Call {
                function,
                arguments,
                destinations,
            } => self.call(*function, arguments.as_slice(), destinations.as_slice()),
            Instr::Tail {
                function,
                arguments,
            } => self.tail(*function, arguments.as_slice()),
            Instr::Ret { results } => self.ret(results.as_slice()),
            Instr::Jump { target } => self.jump(*target),
        }
    }

    fn operator(&mut self, operator: Operator) -> Result<(), WriteError>
        ensures { Writes result self.new (after self.old (mark (operator_number operator))) }
    {
        self.byte(number_of(operator))
    }

    #[tactic(auto, using(crate::proofs::InstrTexts::const_is, crate::proofs::Writing::joins))]
    fn const_(&mut self, destination: u16, value: i64) -> Result<(), WriteError>
        ensures { Writes result self.new (after self.old (instr_text (I.Const destination value))) }
    {
        self.byte(CONST)?;
        self.u16(destination)?;
        self.i64(value)
    }

    #[tactic(auto, using(crate::proofs::InstrTexts::atom_is, crate::proofs::Writing::joins))]
    fn atom(&mut self, destination: u16, ty: u32, constructor: u32) -> Result<(), WriteError>
        ensures { Writes result self.new (after self.old (instr_text (I.Atom destination ty constructor))) }
    {
        self.byte(ATOM)?;
        self.u16(destination)?;
        self.ty(ty)?;
        self.u32(constructor)
    }

    #[tactic(auto, using(crate::proofs::InstrTexts::move_is, crate::proofs::Writing::joins))]
    fn move_(&mut self, destination: u16, source: u16) -> Result<(), WriteError>
        ensures { Writes result self.new (after self.old (instr_text (I.Move destination source))) }
    {
        self.byte(MOVE)?;
        self.u16(destination)?;
        self.u16(source)
    }

    #[tactic(auto, using(crate::proofs::InstrTexts::arith_is, crate::proofs::Writing::joins))]
    fn arith(
        &mut self,
        destination: u16,
        operator: Operator,
        left: u16,
        right: u16,
        line: u32,
        col: u32,
    ) -> Result<(), WriteError>
        ensures { Writes result self.new (after self.old (instr_text
            (I.Arith destination operator left right line col))) }
    {
        self.byte(ARITH)?;
        self.u16(destination)?;
        self.operator(operator)?;
        self.u16(left)?;
        self.u16(right)?;
        self.u32(line)?;
        self.u32(col)
    }

    #[tactic(auto, using(crate::proofs::InstrTexts::test_is, crate::proofs::Writing::joins))]
    fn test(&mut self, register: u16, constructor: u32, target: u32) -> Result<(), WriteError>
        ensures { Writes result self.new (after self.old (instr_text (I.Test register constructor target))) }
    {
        self.byte(TEST)?;
        self.u16(register)?;
        self.u32(constructor)?;
        self.u32(target)
    }

    #[tactic(auto, using(crate::proofs::InstrTexts::test_int_is, crate::proofs::Writing::joins))]
    fn test_int(&mut self, register: u16, value: i64, target: u32) -> Result<(), WriteError>
        ensures { Writes result self.new (after self.old (instr_text (I.TestInt register value target))) }
    {
        self.byte(TEST_INT)?;
        self.u16(register)?;
        self.i64(value)?;
        self.u32(target)
    }

    #[tactic(auto, using(crate::proofs::InstrTexts::peek_is, crate::proofs::Writing::joins))]
    fn peek(&mut self, destination: u16, register: u16, field: u8) -> Result<(), WriteError>
        ensures { Writes result self.new (after self.old (instr_text (I.Peek destination register field))) }
    {
        self.byte(PEEK)?;
        self.u16(destination)?;
        self.u16(register)?;
        self.u8(field)
    }

    #[tactic(auto, using(crate::proofs::InstrTexts::take_is, crate::proofs::Writing::joins))]
    fn take(&mut self, register: u16, fields: &[u16]) -> Result<(), WriteError>
        ensures { Writes result self.new (after self.old (instr_text (I.Take register fields.now))) }
    {
        self.byte(TAKE)?;
        self.u16(register)?;
        self.list(fields)
    }

    #[tactic(auto, using(crate::proofs::InstrTexts::put_is, crate::proofs::Writing::joins))]
    fn put(
        &mut self,
        register: u16,
        ty: u32,
        constructor: u32,
        fields: &[u16],
    ) -> Result<(), WriteError>
        ensures { Writes result self.new (after self.old (instr_text (I.Put register ty constructor fields.now))) }
    {
        self.byte(PUT)?;
        self.u16(register)?;
        self.ty(ty)?;
        self.u32(constructor)?;
        self.list(fields)
    }

    #[tactic(auto, using(crate::proofs::InstrTexts::drop_is, crate::proofs::Writing::joins))]
    fn drop_(&mut self, register: u16) -> Result<(), WriteError>
        ensures { Writes result self.new (after self.old (instr_text (I.Drop register))) }
    {
        self.byte(DROP)?;
        self.u16(register)
    }

    #[tactic(auto, using(crate::proofs::InstrTexts::free_is, crate::proofs::Writing::joins))]
    fn free(&mut self, register: u16) -> Result<(), WriteError>
        ensures { Writes result self.new (after self.old (instr_text (I.Free register))) }
    {
        self.byte(FREE)?;
        self.u16(register)
    }

    #[tactic(auto, using(crate::proofs::InstrTexts::call_is, crate::proofs::Writing::joins))]
    fn call(
        &mut self,
        function: u32,
        arguments: &[u16],
        destinations: &[u16],
    ) -> Result<(), WriteError>
        ensures { Writes result self.new (after self.old (instr_text
            (I.Call function arguments.now destinations.now))) }
    {
        self.byte(CALL)?;
        self.u32(function)?;
        self.arguments(arguments)?;
        self.list(destinations)
    }

    #[tactic(auto, using(crate::proofs::InstrTexts::tail_is, crate::proofs::Writing::joins))]
    fn tail(&mut self, function: u32, arguments: &[u16]) -> Result<(), WriteError>
        ensures { Writes result self.new (after self.old (instr_text (I.Tail function arguments.now))) }
    {
        self.byte(TAIL)?;
        self.u32(function)?;
        self.arguments(arguments)
    }

    #[tactic(auto, using(crate::proofs::InstrTexts::ret_is, crate::proofs::Writing::joins))]
    fn ret(&mut self, results: &[u16]) -> Result<(), WriteError>
        ensures { Writes result self.new (after self.old (instr_text (I.Ret results.now))) }
    {
        self.byte(RET)?;
        self.list(results)
    }

    #[tactic(auto, using(crate::proofs::InstrTexts::jump_is, crate::proofs::Writing::joins))]
    fn jump(&mut self, target: u32) -> Result<(), WriteError>
        ensures { Writes result self.new (after self.old (instr_text (I.Jump target))) }
    {
        self.byte(JUMP)?;
        self.u32(target)
    }
}
