// Registers that are handed over: as the fields of a Put, as results, and as arguments. Each is used up in its turn.
ghost use Rattle.std.specs.Prelude.{◌≡◌};
ghost use Rattle.kind_domain.specs.code_rules.Handing.{give, give_all, pass, pass_all, hand, hand_all, lends, lend_all, kept_if};
ghost use Rattle.register_kinds.specs.State.{handed};

use crate::registers::Registers;
use kind_domain::base::plain::Param;
use kind_domain::table::Table;

impl<'a> Registers<'a> {
    /// Gives a register as a value of a type. Whether it was one.
    pub fn give(&mut self, source: u16, ty: u32) -> bool
        ensures is { kept_if result self.new.kinds ≡ give self.old.kinds source ty }
        ensures maps { self.new.maps ≡ self.old.maps }
    {
        if self.is_scalar_of(source, ty) {
            return true;
        }
        if self.is_owned_of(source, ty) {
            self.use_up(source);
            return true;
        }
        false
    }

    /// Gives registers as values of these types. Whether there was one for each type, of that type.
    #[tactic(auto, using(crate::proofs::Short::drop_none))]
    pub fn give_all(&mut self, sources: &[u16], types: &[u32]) -> bool
        ensures is { kept_if result self.new.kinds ≡ give_all self.old.kinds sources.now types.now }
        ensures maps { self.new.maps ≡ self.old.maps }
    {
        let mut place = 0usize;
        for source in sources {
            match types.get(place) {
                None => return false,
                Some(ty) => {
                    if !self.give(*source, *ty) {
                        return false;
                    }
                }
            }
            place += 1;
        }
        types.get(place).is_none()
    }

    // Passes a register for a parameter; what is lent stays. Whether it fits.
    fn pass(&mut self, table: &Table<'a>, param: Param, register: u16) -> bool
        ensures is { kept_if result self.new.kinds ≡ pass table.now self.old.kinds param register }
        ensures maps { self.new.maps ≡ self.old.maps }
    {
        if table.is_scalar(param.ty) {
            return self.is_scalar_of(register, param.ty);
        }
        if param.lent {
            return true;
        }
        if self.is_owned_of(register, param.ty) {
            self.use_up(register);
            return true;
        }
        false
    }

    // Passes registers for parameters. Whether there was one for each, and all fit.
    fn pass_all(&mut self, table: &Table<'a>, params: &[Param], registers: &[u16]) -> bool
        ensures is { kept_if result self.new.kinds
            ≡ pass_all table.now self.old.kinds params.now registers.now }
        ensures maps { self.new.maps ≡ self.old.maps }
    {
        let mut place = 0usize;
        for param in params {
            match registers.get(place) {
                None => return false,
                Some(register) => {
                    if !self.pass(table, *param, *register) {
                        return false;
                    }
                }
            }
            place += 1;
        }
        true
    }

    // Hands a register over as a credit of a size. Whether it was one.
    fn hand(&mut self, size: u8, register: u16) -> bool
        ensures is { kept_if result self.new.kinds ≡ hand self.old.kinds size register }
        ensures maps { self.new.maps ≡ self.old.maps }
    {
        if self.is_credit_of(register, size as usize) {
            self.write_gone(register);
            return true;
        }
        false
    }

    // Hands registers over as credits of these sizes. Whether there was one for each, and all were.
    fn hand_all(&mut self, sizes: &[u8], registers: &[u16]) -> bool
        ensures is { kept_if result self.new.kinds ≡ hand_all self.old.kinds sizes.now registers.now }
        ensures maps { self.new.maps ≡ self.old.maps }
    {
        let mut place = 0usize;
        for size in sizes {
            match registers.get(place) {
                None => return false,
                Some(register) => {
                    if !self.hand(*size, *register) {
                        return false;
                    }
                }
            }
            place += 1;
        }
        true
    }

    // Whether a register may be lent for a parameter, where that is lent.
    fn lends(&self, table: &Table<'a>, in_tail: bool, param: Param, register: u16) -> bool
        ensures is { result ≡ lends table.now in_tail self.now.kinds param register }
    {
        table.is_scalar(param.ty) || !param.lent || self.is_lendable(in_tail, register, param.ty)
    }

    // Whether registers may be lent for parameters, where these are lent.
    fn lend_all(
        &self,
        table: &Table<'a>,
        in_tail: bool,
        params: &[Param],
        registers: &[u16],
    ) -> bool
        ensures is { result ≡ lend_all table.now in_tail self.now.kinds params.now registers.now }
    {
        let mut place = 0usize;
        for param in params {
            match registers.get(place) {
                None => return true,
                Some(register) => {
                    if !self.lends(table, in_tail, *param, *register) {
                        return false;
                    }
                }
            }
            place += 1;
        }
        true
    }

    /// Hands registers over as the arguments of a call of a function with these parameters and credits. Whether they
    /// fit.
    pub fn hand_over(
        &mut self,
        table: &Table<'a>,
        in_tail: bool,
        params: &[Param],
        credits: &[u8],
        registers: &[u16],
    ) -> bool
        ensures is { kept_if result self.new.kinds
            ≡ handed table.now in_tail self.old.kinds params.now credits.now registers.now }
        ensures maps { self.new.maps ≡ self.old.maps }
    {
        if registers.len() != params.len().saturating_add(credits.len()) {
            return false;
        }
        let cells = match registers.get(params.len()..) {
            None => return false,
            Some(cells) => cells,
        };
        if !self.pass_all(table, params, registers) {
            return false;
        }
        if !self.hand_all(credits, cells) {
            return false;
        }
        self.lend_all(table, in_tail, params, registers)
    }
}
