// Labels, and what they say of registers.
ghost use Rattle.std.specs.Prelude.{◌≡◌, vec_items};
ghost use Rattle.cell_code.specs.Plain.{plain_label};
ghost use Rattle.code_file.specs.Reading.{Reads, read, same, times, label_reader, kind_reader, owned_reader};
ghost use Rattle.code_file.specs.Reading.{lent_reader, scalar_reader, credit_reader, from_reader, set_reader};
ghost use Rattle.code_file.specs.Reading.{four_reader};

use crate::error::ReadStop;
use crate::reader::Reader;
use crate::tags::{CREDIT, GONE, LENT, OWNED, SCALAR};
use cell_code::{Constructors, From, Kind, Label};

impl<'a> Reader<'a> {
    /// A label of a function with so many registers.
    #[tactic(auto, using(crate::proofs::Got::of_label))]
    pub fn label(&mut self, registers: u16) -> Result<Label, ReadStop>
        ensures { Reads plain_label result self.new (read (label_reader registers) self.old) }
    {
        let at = self.u32()?;
        let kinds = self.kinds(registers)?;
        Ok(Label { at, kinds })
    }

    fn kinds(&mut self, registers: u16) -> Result<Vec<Kind>, ReadStop>
        ensures { Reads vec_items result self.new (read (times registers kind_reader) self.old) }
    {
        let mut kinds = Vec::new(self.alloc);
        for i in 0..registers {
            kinds.push(self.kind()?)?;
        }
        Ok(kinds)
    }

    #[tactic(auto, using(crate::proofs::Got::of_kind))]
    fn kind(&mut self) -> Result<Kind, ReadStop>
        ensures { Reads same result self.new (read kind_reader self.old) }
    {
        match self.byte_in(GONE, CREDIT)? {
            GONE => Ok(Kind::Gone),
            OWNED => self.owned(),
            LENT => self.lent(),
            SCALAR => self.scalar(),
            _ => self.credit(),
        }
    }

    #[tactic(auto, using(crate::proofs::Got::of_owned))]
    fn owned(&mut self) -> Result<Kind, ReadStop>
        ensures { Reads same result self.new (read owned_reader self.old) }
    {
        Ok(Kind::Owned {
            ty: self.ty()?,
            constructors: self.constructors()?,
        })
    }

    #[tactic(auto, using(crate::proofs::Got::of_lent))]
    fn lent(&mut self) -> Result<Kind, ReadStop>
        ensures { Reads same result self.new (read lent_reader self.old) }
    {
        Ok(Kind::Lent {
            ty: self.ty()?,
            constructors: self.constructors()?,
            root: self.register_or_none()?,
            from: self.from()?,
        })
    }

    #[tactic(auto, using(crate::proofs::Got::of_scalar))]
    fn scalar(&mut self) -> Result<Kind, ReadStop>
        ensures { Reads same result self.new (read scalar_reader self.old) }
    {
        Ok(Kind::Scalar { ty: self.ty()? })
    }

    #[tactic(auto, using(crate::proofs::Got::of_credit))]
    fn credit(&mut self) -> Result<Kind, ReadStop>
        ensures { Reads same result self.new (read credit_reader self.old) }
    {
        Ok(Kind::Credit { size: self.byte()? })
    }

    // Where a borrowed word came from. After none comes the field 0.
    #[tactic(auto, using(crate::proofs::Got::of_from))]
    fn from(&mut self) -> Result<Option<From>, ReadStop>
        ensures { Reads same result self.new (read from_reader self.old) }
    {
        match self.register_or_none()? {
            None => {
                self.byte_in(0, 0)?;
                Ok(None)
            }
            Some(register) => Ok(Some(From {
                register,
                field: self.byte()?,
            })),
        }
    }

    #[tactic(auto, using(crate::proofs::Got::of_set))]
    fn constructors(&mut self) -> Result<Constructors, ReadStop>
        ensures { Reads same result self.new (read set_reader self.old) }
    {
        let count = self.u16()?;
        Ok(Constructors::new(self.numbers(count)?))
    }

    fn numbers(&mut self, count: u16) -> Result<Vec<u32>, ReadStop>
        ensures { Reads vec_items result self.new (read (times count four_reader) self.old) }
    {
        let mut numbers = Vec::new(self.alloc);
        for i in 0..count {
            numbers.push(self.u32()?)?;
        }
        Ok(numbers)
    }
}
