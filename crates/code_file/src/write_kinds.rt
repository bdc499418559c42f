// Writing labels, and what they say of registers.
ghost use Rattle.std.specs.Prelude.{◌≡◌, length};
ghost use Rattle.cell_code.specs.declared.kind.Kind.TheVariants as K;
ghost use Rattle.cell_code.specs.Plain.{plain_label};
ghost use Rattle.code_file.specs.Spelling.{each, four};
ghost use Rattle.code_file.specs.CodeText.{label_text, kind_text, from_text, set_text};
ghost use Rattle.code_file.specs.Written.{Writes, after};

use crate::error::WriteError;
use crate::tags::{CREDIT, GONE, LENT, OWNED, SCALAR};
use crate::writer::Writer;
use cell_code::{From, Kind, Label};

impl Writer {
    /// A label of a function with so many registers, for each of which it says something.
    #[tactic(auto, unfolding(crate::specs::CodeText::label_text), using(crate::proofs::Writing::joins))]
    pub fn label(&mut self, label: &Label, registers: u16) -> Result<(), WriteError>
        ensures { Writes result self.new (after self.old (label_text registers (plain_label label.now))) }
    {
        if label.kinds.len() != registers as usize {
            return Err(WriteError::NotSpelled);
        }
        self.u32(label.at)?;
        self.kinds(&label.kinds)
    }

    fn kinds(&mut self, kinds: &[Kind]) -> Result<(), WriteError>
        ensures { Writes result self.new (after self.old (each kind_text kinds.now)) }
    {
        for kind in kinds {
            self.kind(kind)?;
        }
        Ok(())
    }

    fn kind(&mut self, kind: &Kind) -> Result<(), WriteError>
        ensures { Writes result self.new (after self.old (kind_text kind.now)) }
    {
        match kind {
            Kind::Gone => self.gone(),
            Kind::Scalar { ty } => self.scalar(*ty),
            Kind::Owned { ty, constructors } => self.owned(*ty, constructors.as_slice()),
            Kind::Lent {
                ty,
                constructors,
                root,
                from,
            } => self.lent(*ty, constructors.as_slice(), *root, *from),
            Kind::Credit { size } => self.credit(*size),
        }
    }

    #[tactic(auto, unfolding(crate::specs::CodeText::kind_text), using(crate::proofs::Writing::joins))]
    fn gone(&mut self) -> Result<(), WriteError>
        ensures { Writes result self.new (after self.old (kind_text K.Gone)) }
    {
        self.byte(GONE)
    }

    #[tactic(auto, unfolding(crate::specs::CodeText::kind_text), using(crate::proofs::Writing::joins))]
    fn scalar(&mut self, ty: u32) -> Result<(), WriteError>
        ensures { Writes result self.new (after self.old (kind_text (K.Scalar ty))) }
    {
        self.byte(SCALAR)?;
        self.ty(ty)
    }

    #[tactic(auto, unfolding(crate::specs::CodeText::kind_text), using(crate::proofs::Writing::joins))]
    fn owned(&mut self, ty: u32, constructors: &[u32]) -> Result<(), WriteError>
        ensures { Writes result self.new (after self.old (kind_text (K.Owned ty constructors.now))) }
    {
        self.byte(OWNED)?;
        self.ty(ty)?;
        self.set(constructors)
    }

    #[tactic(auto, unfolding(crate::specs::CodeText::kind_text), using(crate::proofs::Writing::joins))]
    fn lent(
        &mut self,
        ty: u32,
        constructors: &[u32],
        root: Option<u16>,
        from: Option<From>,
    ) -> Result<(), WriteError>
        ensures { Writes result self.new (after self.old (kind_text (K.Lent ty constructors.now root from))) }
    {
        self.byte(LENT)?;
        self.ty(ty)?;
        self.set(constructors)?;
        self.register_or_none(root)?;
        self.from(from)
    }

    #[tactic(auto, unfolding(crate::specs::CodeText::kind_text), using(crate::proofs::Writing::joins))]
    fn credit(&mut self, size: u8) -> Result<(), WriteError>
        ensures { Writes result self.new (after self.old (kind_text (K.Credit size))) }
    {
        self.byte(CREDIT)?;
        self.u8(size)
    }

    // Where a borrowed word came from. After none comes the field 0.
    #[tactic(auto, unfolding(crate::specs::CodeText::from_text), using(crate::proofs::Writing::joins))]
    fn from(&mut self, from: Option<From>) -> Result<(), WriteError>
        ensures { Writes result self.new (after self.old (from_text from)) }
    {
        match from {
            None => {
                self.register_or_none(None)?;
                self.byte(0)
            }
            Some(from) => {
                self.register_or_none(Some(from.register))?;
                self.u8(from.field)
            }
        }
    }

    #[tactic(auto, unfolding(crate::specs::CodeText::set_text), using(crate::proofs::Writing::joins))]
    fn set(&mut self, constructors: &[u32]) -> Result<(), WriteError>
        ensures { Writes result self.new (after self.old (set_text constructors.now)) }
    {
        self.count16(constructors.len())?;
        self.numbers(constructors)
    }

    fn numbers(&mut self, numbers: &[u32]) -> Result<(), WriteError>
        ensures { Writes result self.new (after self.old (each four numbers.now)) }
    {
        for number in numbers {
            self.u32(*number)?;
        }
        Ok(())
    }
}
