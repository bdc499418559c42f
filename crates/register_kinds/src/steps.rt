// What becomes of all registers where one is written, used up, moved or tested.
ghost use Rattle.std.specs.Prelude.{◌≡◌, ◌==◌, ℕ, [], ◌∷◌, true, Some, map, set};
ghost use Rattle.kind_domain.specs.cell_code.declared.kind.Kind.TheVariants.{Gone, Scalar, Owned};
ghost use Rattle.kind_domain.specs.code_rules.Changes.{written, used_up, moved, tested, forget, goes};
ghost use Rattle.kind_domain.specs.code_rules.Kinds.{at, has, is_lent_of, root_of, set_of};
ghost use Rattle.kind_domain.specs.Leading.{Gathers, leads};
ghost use Rattle.kind_domain.specs.declared.label_sets.Origin.{Origin};
ghost use Rattle.kind_domain.specs.LabelSets.{set_at};
ghost use Rattle.kind_domain.specs.code_rules.Leaves.{atom_kind, received};
ghost use Rattle.kind_domain.specs.code_rules.Types.{field_kind, lent_kind};
ghost use Rattle.kind_domain.specs.Rising.{Rise};
ghost use Rattle.register_kinds.specs.Steps.{forgets, lose};
ghost use Rattle.kind_domain.specs.Views.{kind_of};

use crate::held::mended;
use crate::registers::Registers;
use kind_domain::code::From;
use kind_domain::known::{Known, atom, part_of, whole};
use kind_domain::label_sets::Origin;
use kind_domain::set::Set;
use kind_domain::table::Table;

impl<'a> Registers<'a> {
    // No from names a register any more.
    fn forget(&mut self, register: u16)
        ensures kinds { self.new.kinds ≡ map (forgets register) self.old.kinds }
        ensures maps { self.new.maps ≡ self.old.maps }
    {
        self.list_none();
        self.list_to(register);
        self.forget_listed(register);
        self.tidy(register);
    }

    // The same where all whose froms name it are listed.
    fn forget_listed(&mut self, register: u16)
        requires listed { (q : ℕ) → leads register (at self.now.kinds q) ≡ true → has self.now.lent q ≡ true }
        ensures kinds { self.new.kinds ≡ map (forgets register) self.old.kinds }
        ensures maps { self.new.maps ≡ self.old.maps }
    {
        for place in 0..self.lent_len() {
            self.forget_in(self.lent_at(place), register);
        }
    }

    // The from of one register doesn't name another any more.
    fn forget_in(&mut self, lent: u16, register: u16)
        ensures kinds { self.new.kinds ≡ set self.old.kinds lent (forgets register (at self.old.kinds lent)) }
        ensures maps { self.new.maps ≡ self.old.maps }
        ensures lent { self.new.lent ≡ self.old.lent }
    {
        let known = self.known(lent);
        if known.came_from(register) {
            self.put_alike(lent, known.forgetting(register));
        }
    }

    // What is lent of a register is gone, and no from names that, or the register.
    fn lose(&mut self, register: u16)
        ensures kinds { self.new.kinds
            ≡ map (lose register) (map (forget (goes self.old.kinds register)) self.old.kinds) }
        ensures maps { self.new.maps ≡ self.old.maps }
    {
        self.gather(register);
        self.forget_going(register);
        self.lose_listed(register);
        self.tidy(register);
    }

    // No from names a register, or what is lent of it, where all that lead to these are listed.
    fn forget_going(&mut self, register: u16)
        requires gathered { Gathers self.now.kinds register self.now.lent }
        ensures kinds { self.new.kinds ≡ map (forget (goes self.old.kinds register)) self.old.kinds }
        ensures maps { self.new.maps ≡ self.old.maps }
        ensures lent { self.new.lent ≡ self.old.lent }
    {
        for place in 0..self.lent_len() {
            self.forget_going_in(self.lent_at(place), register);
        }
    }

    // The from of one register doesn't name another, or what is lent of that.
    fn forget_going_in(&mut self, lent: u16, register: u16)
        ensures kinds { self.new.kinds
            ≡ set self.old.kinds lent (forget (goes self.old.kinds register) (at self.old.kinds lent)) }
        ensures maps { self.new.maps ≡ self.old.maps }
        ensures lent { self.new.lent ≡ self.old.lent }
    {
        let known = self.known(lent);
        match known.from() {
            None => (),
            Some(from) => {
                if self.is_going(register, from.register) {
                    self.put_alike(lent, known.without_from());
                }
            }
        }
    }

    // Whether a register is another, or lent of it.
    fn is_going(&self, register: u16, other: u16) -> bool
        ensures is { result ≡ goes self.now.kinds register other }
    {
        other == register || self.known(other).is_lent_of(register)
    }

    // What is lent of a register is gone, where all that is lent of it is listed.
    fn lose_listed(&mut self, register: u16)
        requires listed { (q : ℕ) → is_lent_of register (at self.now.kinds q) ≡ true → has self.now.lent q ≡ true }
        ensures kinds { self.new.kinds ≡ map (lose register) self.old.kinds }
        ensures maps { self.new.maps ≡ self.old.maps }
    {
        for place in 0..self.lent_len() {
            self.lose_in(self.lent_at(place), register);
        }
    }

    // A register is gone where it is lent of another.
    fn lose_in(&mut self, lent: u16, register: u16)
        ensures kinds { self.new.kinds ≡ set self.old.kinds lent (lose register (at self.old.kinds lent)) }
        ensures maps { self.new.maps ≡ self.old.maps }
        ensures lent { self.new.lent ≡ self.old.lent }
    {
        if self.known(lent).is_lent_of(register) {
            self.put(lent, Known::Gone);
        }
    }

    // Another thing is known of a register, and no from names it any more.
    fn write(&mut self, register: u16, known: Known<'a>)
        requires rises { Rise (set_of (kind_of known)) }
        ensures kinds { self.new.kinds ≡ written self.old.kinds register (kind_of known.entry) }
        ensures maps { self.new.maps ≡ self.old.maps }
    {
        self.write_from(register, known, None);
    }

    // The same, where the set may be that of a register of a label map.
    fn write_from(&mut self, register: u16, known: Known<'a>, origin: Option<Origin>)
        requires rises { Rise (set_of (kind_of known)) }
        requires origin { (o : Origin) → origin ≡ Some o → set_of (kind_of known) ≡ set_at self.now.maps o }
        ensures kinds { self.new.kinds ≡ written self.old.kinds register (kind_of known.entry) }
        ensures maps { self.new.maps ≡ self.old.maps }
    {
        let before = self.take_held();
        let held = self.stays_held(before, register, known);
        self.forget(register);
        self.change(register, known.forgetting(register), origin);
        self.set_held(held);
    }

    /// A register gets a scalar of a type.
    pub fn write_scalar(&mut self, destination: u16, ty: u32)
        ensures kinds { self.new.kinds ≡ written self.old.kinds destination (Scalar ty) }
        ensures maps { self.new.maps ≡ self.old.maps }
    {
        self.write(destination, Known::Scalar { ty })
    }

    /// A register gets a constructor without fields.
    pub fn write_atom(&mut self, table: &Table<'a>, destination: u16, ty: u32, constructor: u32)
        ensures kinds { self.new.kinds
            ≡ written self.old.kinds destination (atom_kind table.now ty constructor) }
        ensures maps { self.new.maps ≡ self.old.maps }
    {
        self.write(destination, atom(table, ty, constructor))
    }

    /// A register owns a cell with this constructor.
    pub fn write_cell(&mut self, destination: u16, ty: u32, constructor: u32)
        ensures kinds { self.new.kinds ≡ written self.old.kinds destination (Owned ty (constructor ∷ [])) }
        ensures maps { self.new.maps ≡ self.old.maps }
    {
        self.write(
            destination,
            Known::Owned {
                ty,
                set: Set::One(constructor),
            },
        )
    }

    /// Nothing is known of a register any more.
    pub fn write_gone(&mut self, register: u16)
        ensures kinds { self.new.kinds ≡ written self.old.kinds register Gone }
        ensures maps { self.new.maps ≡ self.old.maps }
    {
        self.write(register, Known::Gone)
    }

    /// A register gets a value of a type, as a result.
    pub fn receive(&mut self, table: &Table<'a>, destination: u16, ty: u32)
        ensures kinds { self.new.kinds ≡ written self.old.kinds destination (field_kind table.now ty) }
        ensures maps { self.new.maps ≡ self.old.maps }
    {
        self.write(destination, whole(table, ty))
    }

    /// Registers get values of these types, one after another.
    pub fn receive_all(&mut self, table: &Table<'a>, destinations: &[u16], types: &[u32])
        ensures kinds { self.new.kinds ≡ received table.now self.old.kinds destinations.now types.now }
        ensures maps { self.new.maps ≡ self.old.maps }
    {
        let mut place = 0usize;
        for destination in destinations {
            match types.get(place) {
                None => return,
                Some(ty) => self.receive(table, *destination, *ty),
            }
            place += 1;
        }
    }

    /// A register reads a field, of this type, of the cell in another register.
    pub fn peek(&mut self, table: &Table<'a>, destination: u16, from: From, ty: u32)
        ensures kinds { self.new.kinds ≡ written self.old.kinds destination
            (lent_kind table.now ty (root_of from.register (at self.old.kinds from.register))
            from.register from.field) }
        ensures maps { self.new.maps ≡ self.old.maps }
    {
        let root = self.known(from.register).root(from.register);
        self.write(destination, part_of(table, ty, root, from))
    }

    /// One register gets the word of another.
    pub fn move_word(&mut self, destination: u16, source: u16)
        ensures kinds { self.new.kinds
            ≡ written (moved self.old.kinds source) destination (at self.old.kinds source) }
        ensures maps { self.new.maps ≡ self.old.maps }
    {
        let known = self.known(source);
        let origin = self.origin(source);
        match known {
            Known::Gone => (),
            Known::Scalar { .. } => (),
            Known::Owned { .. } => self.use_up(source),
            Known::Lent { .. } => (),
            Known::Credit { .. } => self.write_gone(source),
        }
        self.write_from(destination, known, origin)
    }

    /// A register was tested: the root of the tree that it owns or reads has this constructor.
    pub fn narrow(&mut self, register: u16, constructor: u32)
        ensures kinds { self.new.kinds ≡ tested self.old.kinds register (constructor ∷ []) }
        ensures maps { self.new.maps ≡ self.old.maps }
    {
        let known = self.known(register);
        let held = self.take_held();
        self.put(register, known.narrowed(constructor));
        self.set_held(held);
    }

    /// A register that owns a tree gives it up: it is gone, and so is each register that reads the tree.
    pub fn use_up(&mut self, register: u16)
        ensures kinds { self.new.kinds ≡ used_up self.old.kinds register }
        ensures maps { self.new.maps ≡ self.old.maps }
    {
        let held = self.take_held();
        self.lose(register);
        self.put(register, Known::Gone);
        self.set_held(mended(held, register));
    }
}
