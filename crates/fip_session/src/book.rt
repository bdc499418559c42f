// What a session knows beside the cells: the program, the room of each run, and what names hold.
ghost use Rattle.std.specs.Prelude.{◌≡◌, ◌<◌, ◌≤◌, ◌^◌, ℕ, List, [], length, IfOk, IfSome, OnOk, Some, None, slice_get};
ghost use Rattle.std.specs.Map.{update};
ghost use Rattle.std.specs.Str.{bytes_eq};
ghost use Rattle.cell_code.specs.declared.code.Function.{Function as a_function};
ghost use Rattle.fip_language.specs.Core.{Name};
ghost use Rattle.fip_language.specs.Table.{is_scalar};
ghost use Rattle.fip_language.specs.declared.limits.TheConstants.{MOST_FRAMES, MOST_STORE_WORDS};
ghost use Rattle.cell_code.specs.Plain.{plain};
ghost use Rattle.session_lines.specs.Named.{AreEntries, HasFrames, HasName};
ghost use Rattle.store_trees.specs.Added.{places_of};
ghost use Rattle.fip_language.specs.PrintedText.{printed};
ghost use Rattle.fip_language.specs.Store.{Placed, count, places, uses, value_of, word_of};
ghost use Rattle.fip_language.specs.Every.{Every};
ghost use Rattle.fip_machine.specs.machine_cells.Small.{store_of};
ghost use Rattle.session_correctness.specs.Lodging.{Lodged, AreDistinct, lodged_uses};
ghost use Rattle.session_correctness.specs.tree_refinement.machine_semantics.Cells.{there};
ghost use Rattle.value_text.specs.Standing.{Stands};
ghost use Rattle.fip_session.specs.Planned.{Finds};
ghost use Rattle.fip_session.specs.Named.{found};

use cell_code::Function;
use cell_store::{Cells, Sealed};
use code_verify::Verified;
use fip_base::plain::NoMemory;
use fip_base::table::TypeTable;
use fip_language::limits::MOST_STORE_WORDS;
use fip_room::Room;
use session_lines::{Entries, frames_of};
use std::alloc::Global;
use std::collections::BTreeMap;
use store_trees::Trees;
use value_text::print_value;

/// What a name holds: a value, as its type and its word.
#[derive(Clone, Copy, PartialEq, Eq)]
pub struct Held {
    pub ty: u32,
    pub word: u64,
}

/// The program of a session, the room of each run, and what each name holds.
#[derive(Drop)]
pub struct Book<'a> {
    pub alloc: Global,
    pub table: &'a TypeTable,
    pub verified: &'a Verified,
    pub room: Room,
    entries: Entries<'a>,
    held: BTreeMap<Vec<u8>, Held>,
}

impl<'a> Book<'a> {
    /// The book of a program, in which no name holds a value.
    pub fn new(
        alloc: Global,
        table: &'a TypeTable,
        verified: &'a Verified,
        room: Room,
    ) -> Result<Book<'a>, NoMemory>
        ensures table { IfOk result (λ b. b.table.now ≡ table.now) }
        ensures verified { IfOk result (λ b. b.verified.now ≡ verified.now) }
        ensures room { IfOk result (λ b. b.room ≡ room) }
        ensures entries { IfOk result (λ b. AreEntries verified.now.code.functions.items b.entries.numbers) }
        ensures empty { IfOk result (λ b. (name : Name) → found b.held name ≡ None) }
    {
        Ok(Book {
            alloc,
            table,
            verified,
            room,
            entries: Entries::of(alloc, verified)?,
            held: BTreeMap::new(alloc),
        })
    }

    /// The number of the entry with a name.
    pub fn entry(&self, name: &[u8]) -> Option<usize>
        ensures same { (fs : List a_function) → AreEntries fs self.now.entries.numbers →
            IfSome result (HasName fs name.now) }
        ensures none { (fs : List a_function) → AreEntries fs self.now.entries.numbers → result ≡ None → (n : ℕ) →
            HasName fs name.now n → ⊥ }
    {
        self.entries.find(name)
    }

    /// The function of a number.
    pub fn function(&self, number: usize) -> Option<&'a Function>
        ensures there { IfSome result (λ f. number < length self.now.verified.now.code.functions.items) }
        ensures is { IfSome result (λ f. slice_get self.now.verified.now.code.functions.items number ≡ Some f.now) }
        ensures none { result ≡ None → length self.now.verified.now.code.functions.items ≤ number }
    {
        let verified = self.verified;
        verified.code().functions.get(number)
    }

    /// The frames that a run of an entry is given.
    pub fn frames_for(&self, entry: usize) -> usize
        ensures few { result ≤ MOST_FRAMES }
        ensures exact { HasFrames (plain self.now.verified.now.code) entry self.now.room.frames result }
    {
        frames_of(self.verified, entry, self.room.frames)
    }

    /// Whether no value of a type has a cell.
    pub fn is_scalar(&self, ty: u32) -> bool
        ensures known { ty ≤ length self.now.table.now → result ≡ is_scalar self.now.table.now ty }
    {
        ty as usize > self.table.len() || self.table.is_scalar(ty)
    }

    /// What a name holds.
    pub fn find(&self, name: &[u8]) -> Option<Held>
        ensures held { result ≡ found self.now.held name.now }
    {
        self.held.get(name).copied()
    }

    /// The name holds this from now on.
    pub fn hold(&mut self, name: &[u8], held: Held) -> Result<(), NoMemory>
        ensures others { self.new ≡ record self.old { held = self.new.held } }
        ensures holds { OnOk result ((other : Name) →
            found self.new.held other ≡ update bytes_eq (found self.old.held) name.now (Some held) other) }
    {
        let name = Vec::from_slice(self.alloc, name)?;
        self.held.insert(name, held)?;
        Ok(())
    }

    /// The name holds nothing from now on; what it held.
    pub fn forget(&mut self, name: &[u8]) -> Option<Held>
        ensures held { result ≡ found self.old.held name.now }
        ensures others { self.new ≡ record self.old { held = self.new.held } }
        ensures forgets { (other : Name) →
            found self.new.held other ≡ update bytes_eq (found self.old.held) name.now None other }
    {
        self.held.remove(name)
    }

    /// The text of what is held.
    pub fn text_of(&self, cells: &Sealed, held: Held) -> Result<Vec<u8>, NoMemory>
        ensures text { length cells.now.cells ≤ 2 ^ 32 → (x : Placed) →
            Stands self.now.table.now cells.now.cells held.ty x → word_of x ≡ held.word →
            IfOk result (λ text. text.items ≡ printed self.now.table.now held.ty (value_of x) []) }
    {
        print_value(self.alloc, self.table, cells, held.ty, held.word)
    }

    /// The trees of a value.
    pub fn trees_of(&self, cells: &Sealed, held: Held) -> Result<Trees, NoMemory>
        // The clause speaks of stores of at most 2^32 places, and of values of at most 16,777,216 cells.
        ensures trees { length cells.now.cells ≤ 2 ^ 32 → (x : Placed) →
            Stands self.now.table.now cells.now.cells held.ty x → word_of x ≡ held.word →
            length (places x) ≤ MOST_STORE_WORDS → IfOk result (λ t. (q : ℕ) →
            count q (places_of t.list.items) ≡ uses q x) }
    {
        let mut trees = Trees::none(self.alloc);
        trees.add(self.table, cells, held.ty, held.word, MOST_STORE_WORDS)?;
        Ok(trees)
    }

    /// The trees of all values that are held.
    pub fn all_trees(&self, cells: &Sealed) -> Result<Trees, NoMemory>
        // The clause speaks of values that lie apart, in a store of at most 16,777,216 places.
        ensures trees { length cells.now.cells ≤ MOST_STORE_WORDS → (ls : List Lodged) → Finds self.now.held ls →
            AreDistinct ls → Every (λ l. Stands self.now.table.now cells.now.cells l.type l.tree) ls → ((q : ℕ) →
            lodged_uses ls q ≤ there (store_of cells.now.cells cells.now.released) q) → IfOk result (λ t. (q : ℕ) →
            count q (places_of t.list.items) ≡ lodged_uses ls q) }
    {
        let mut trees = Trees::none(self.alloc);
        for entry in &self.held {
            let held = *entry.1;
            trees.add(self.table, cells, held.ty, held.word, MOST_STORE_WORDS)?;
        }
        Ok(trees)
    }
}
