// Instructions.
ghost use Rattle.std.specs.Prelude.{◌≡◌};
ghost use Rattle.code_file.specs.Reading.{Reads, read, same, instr_reader, operator_reader};
ghost use Rattle.code_file.specs.Reading.{const_reader, atom_reader, move_reader, arith_reader, test_reader};
ghost use Rattle.code_file.specs.Reading.{test_int_reader, peek_reader, take_reader, put_reader, drop_reader};
ghost use Rattle.code_file.specs.Reading.{free_reader, call_reader, tail_reader, ret_reader, jump_reader};

use crate::error::ReadStop;
use crate::reader::Reader;
use crate::tags::{
    ARITH, ATOM, CALL, CONST, DROP, FREE, JUMP, MOVE, PEEK, PUT, RET, TAIL, TAKE, TEST, TEST_INT,
    operator_at,
};
use cell_code::Instr;
use fip_base::plain::Operator;

impl<'a> Reader<'a> {
    /// An instruction.
    #[tactic(auto, using(crate::proofs::Got::of_instr))]
    pub fn instr(&mut self) -> Result<Instr, ReadStop>
        ensures { Reads same result self.new (read instr_reader self.old) }
    {
        match self.byte_in(CONST, JUMP)? {
            CONST => self.const_(),
            ATOM => self.atom(),
            MOVE => self.move_(),
            ARITH => self.arith(),
            TEST => self.test(),
            TEST_INT => self.test_int(),
            PEEK => self.peek(),
            TAKE => self.take(),
            PUT => self.put(),
            DROP => self.drop_(),
            FREE => self.free(),
            CALL => self.call(),
            TAIL => self.tail(),
            RET => self.ret(),
            _ => self.jump(),
        }
    }

    #[tactic(auto, using(crate::proofs::Got::of_const))]
    fn const_(&mut self) -> Result<Instr, ReadStop>
        ensures { Reads same result self.new (read const_reader self.old) }
    {
        Ok(Instr::Const {
            destination: self.u16()?,
            value: self.i64()?,
        })
    }

    #[tactic(auto, using(crate::proofs::Got::of_atom))]
    fn atom(&mut self) -> Result<Instr, ReadStop>
        ensures { Reads same result self.new (read atom_reader self.old) }
    {
        Ok(Instr::Atom {
            destination: self.u16()?,
            ty: self.ty()?,
            constructor: self.u32()?,
        })
    }

    #[tactic(auto, using(crate::proofs::Got::of_move))]
    fn move_(&mut self) -> Result<Instr, ReadStop>
        ensures { Reads same result self.new (read move_reader self.old) }
    {
        Ok(Instr::Move {
            destination: self.u16()?,
            source: self.u16()?,
        })
    }

    #[tactic(auto, using(crate::proofs::Got::of_arith))]
    fn arith(&mut self) -> Result<Instr, ReadStop>
        ensures { Reads same result self.new (read arith_reader self.old) }
    {
        Ok(Instr::Arith {
            destination: self.u16()?,
            operator: self.operator()?,
            left: self.u16()?,
            right: self.u16()?,
            line: self.u32()?,
            col: self.u32()?,
        })
    }

    #[tactic(auto, using(crate::proofs::Got::of_operator))]
    fn operator(&mut self) -> Result<Operator, ReadStop>
        ensures { Reads same result self.new (read operator_reader self.old) }
    {
        let number = self.byte_in(0, 10)?;
        Ok(operator_at(number))
    }

    #[tactic(auto, using(crate::proofs::Got::of_test))]
    fn test(&mut self) -> Result<Instr, ReadStop>
        ensures { Reads same result self.new (read test_reader self.old) }
    {
        Ok(Instr::Test {
            register: self.u16()?,
            constructor: self.u32()?,
            target: self.u32()?,
        })
    }

    #[tactic(auto, using(crate::proofs::Got::of_test_int))]
    fn test_int(&mut self) -> Result<Instr, ReadStop>
        ensures { Reads same result self.new (read test_int_reader self.old) }
    {
        Ok(Instr::TestInt {
            register: self.u16()?,
            value: self.i64()?,
            target: self.u32()?,
        })
    }

    #[tactic(auto, using(crate::proofs::Got::of_peek))]
    fn peek(&mut self) -> Result<Instr, ReadStop>
        ensures { Reads same result self.new (read peek_reader self.old) }
    {
        Ok(Instr::Peek {
            destination: self.u16()?,
            register: self.u16()?,
            field: self.byte()?,
        })
    }

    #[tactic(auto, using(crate::proofs::Got::of_take))]
    fn take(&mut self) -> Result<Instr, ReadStop>
        ensures { Reads same result self.new (read take_reader self.old) }
    {
        Ok(Instr::Take {
            register: self.u16()?,
            fields: self.list()?,
        })
    }

    #[tactic(auto, using(crate::proofs::Got::of_put))]
    fn put(&mut self) -> Result<Instr, ReadStop>
        ensures { Reads same result self.new (read put_reader self.old) }
    {
        Ok(Instr::Put {
            register: self.u16()?,
            ty: self.ty()?,
            constructor: self.u32()?,
            fields: self.list()?,
        })
    }

    #[tactic(auto, using(crate::proofs::Got::of_drop))]
    fn drop_(&mut self) -> Result<Instr, ReadStop>
        ensures { Reads same result self.new (read drop_reader self.old) }
    {
        Ok(Instr::Drop {
            register: self.u16()?,
        })
    }

    #[tactic(auto, using(crate::proofs::Got::of_free))]
    fn free(&mut self) -> Result<Instr, ReadStop>
        ensures { Reads same result self.new (read free_reader self.old) }
    {
        Ok(Instr::Free {
            register: self.u16()?,
        })
    }

    #[tactic(auto, using(crate::proofs::Got::of_call))]
    fn call(&mut self) -> Result<Instr, ReadStop>
        ensures { Reads same result self.new (read call_reader self.old) }
    {
        Ok(Instr::Call {
            function: self.u32()?,
            arguments: self.arguments()?,
            destinations: self.list()?,
        })
    }

    #[tactic(auto, using(crate::proofs::Got::of_tail))]
    fn tail(&mut self) -> Result<Instr, ReadStop>
        ensures { Reads same result self.new (read tail_reader self.old) }
    {
        Ok(Instr::Tail {
            function: self.u32()?,
            arguments: self.arguments()?,
        })
    }

    #[tactic(auto, using(crate::proofs::Got::of_ret))]
    fn ret(&mut self) -> Result<Instr, ReadStop>
        ensures { Reads same result self.new (read ret_reader self.old) }
    {
        Ok(Instr::Ret {
            results: self.list()?,
        })
    }

    #[tactic(auto, using(crate::proofs::Got::of_jump))]
    fn jump(&mut self) -> Result<Instr, ReadStop>
        ensures { Reads same result self.new (read jump_reader self.old) }
    {
        Ok(Instr::Jump {
            target: self.u32()?,
        })
    }
}
