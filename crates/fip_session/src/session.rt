// A session: a store whose values have names.
ghost use Rattle.fip_language.specs.declared.limits.TheConstants.{MOST_FILE_BYTES};
ghost use Rattle.std.specs.Prelude.{◌≡◌, ◌≤◌, ◌++◌, ◌^◌, ℕ, List, codes, length, Some, None, IfOk, IfSome};
ghost use Rattle.session_lines.specs.Said.{Says};
ghost use Rattle.session_lines.specs.session_semantics.Lines.{Line as a_line, SpellsLine, GivesUp};
ghost use Rattle.fip_session.specs.Answered.{LineAnswered};
ghost use Rattle.session_lines.specs.command_outcome.Texts.{line_end};
ghost use Rattle.session_lines.specs.session_semantics.Talk.{Setting, State, at_first, reported};
ghost use Rattle.fip_language.specs.PrintedText.{printed};
ghost use Rattle.fip_language.specs.Store.{value_of};
ghost use Rattle.session_values.specs.Readable.{IsLine};
ghost use Rattle.value_text.specs.Standing.{Stands};
ghost use Rattle.session_correctness.specs.Lodging.{Lodged, lodged_as};
ghost use Rattle.fip_session.specs.Planned.{Finds};
ghost use Rattle.fip_session.specs.Said.{said};
ghost use Rattle.fip_session.specs.Opened.{IsSession, RepliesTo};
ghost use Rattle.session_code.specs.Served.{IsServed};
ghost use Rattle.fip_session.specs.Named.{found};

use crate::book::{Book, Held};
use crate::call::{Store, call, release_held};
use crate::reply::{Reply, reply_text};
use cell_store::{Loader, Sealed, seal};
use code_verify::Verified;
use fip_base::plain::NoMemory;
use fip_room::Room;
use fip_trees::program::Typed;
use session_lines::{Line, line_of};
use std::alloc::Global;

/// A session over one store. Each name holds a value; the cells that aren't released are those of the held values. A
/// line calls an entry and names its results, shows what a name holds, or gives it up:
///
///     a, b = split(Cons(1, xs), 0)
///     ? a
///     - b
///
/// A call uses up the names that it gives to parameters that aren't lent, unless their type is scalar. The values in
/// a line come to life at the call, and those that are lent are given up after it.
#[derive(Drop)]
pub struct Session<'a> {
    book: Book<'a>,
    store: Store,
}

impl<'a> Session<'a> {
    /// A session of a program and the code that it was lowered to, in which no name holds a value: over a store of the
    /// room's words, with its calls for each run, and its frames for each run of a function that isn't fip. An error
    /// where memory runs out.
    pub fn new(
        alloc: Global,
        typed: &'a Typed,
        verified: &'a Verified,
        room: Room,
    ) -> Result<Session<'a>, NoMemory>
        ensures opens { (o : Setting) → IsServed o verified.now.code → typed.now.program.types ≡ o.program.types →
            room.words ≡ o.words → room.calls ≡ o.calls → room.frames ≡ o.frames →
            IfOk result (λ t. IsSession o t at_first) }
    {
        Ok(Session {
            book: Book::new(alloc, &typed.program.types, verified, room)?,
            store: Store {
                cells: seal(Loader::new(alloc, room.words)),
                left: room.words,
            },
        })
    }

    /// Does a line, which has no LF, and answers the reply, without an LF. Where memory runs out, the session is
    /// given up.
    ///
    /// | Reply | Where |
    /// |---|---|
    /// | `bad line` | the line has none of the three forms |
    /// | `no name X` | X isn't held |
    /// | `no entry F` | no fip or fbip function without static parameters is named F |
    /// | `wrong number` | F has another number of parameters, or of results |
    /// | `bad argument I` | the Ith is no value of its parameter's type and no held name of it, or repeats a name |
    /// | `bad result X` | X repeats a result's name, or is held and not used up by this call |
    /// | `store too small: n needed, m left` | n is above m |
    /// | `trap ..`, `out of calls: n`, `out of frames: n` | the run ends so; what it used up is gone |
    /// | `ok` | the line was done |
    ///
    /// The first that holds is answered, and the least argument and result. Refusals down to the store's change
    /// nothing.
    pub fn line(self, bytes: &[u8]) -> Result<(Session<'a>, Vec<u8>), NoMemory>
        ensures replies { (o : Setting) (s : State) → IsSession o self.entry s → IsLine bytes.now →
            length bytes.now ≤ MOST_FILE_BYTES → IfOk result (λ r. RepliesTo o s bytes.now r.1.items r.0) }
    {
        let Session { mut book, store } = self;
        let alloc = book.alloc;
        let read = line_of(alloc, bytes)?;
        let (store, reply) = answer(&mut book, bytes, read, store)?;
        let text = reply_text(alloc, reply)?;
        Ok((Session { book, store }, text))
    }

    /// What a name holds; none where it isn't held.
    pub fn held(&self, name: &[u8]) -> Option<Held>
        ensures same { result ≡ found self.now.book.held name.now }
    {
        self.book.find(name)
    }

    /// The cells, as they are between lines.
    pub fn cells(&self) -> &Sealed
        ensures same { result.now ≡ self.now.store.cells }
    {
        &self.store.cells
    }
}

// The text of what a name holds.
fn show<'l>(book: &Book, cells: &Sealed, name: &'l [u8]) -> Result<Reply<'l>, NoMemory>
    ensures none { found book.now.held name.now ≡ None → IfOk result (λ r. said r ≡ reported (codes "no name ") name.now) }
    ensures shown { (ls : List Lodged) → Finds book.now.held ls → length cells.now.cells ≤ 2 ^ 32 → (l : Lodged) →
        lodged_as name.now ls ≡ Some l → Stands book.now.table.now cells.now.cells l.type l.tree →
        IfOk result (λ r. said r ≡ printed book.now.table.now l.type (value_of l.tree) line_end) }
{
    match book.find(name) {
        Some(held) => Ok(Reply::Text(book.text_of(cells, held)?)),
        None => Ok(Reply::NoName(name)),
    }
}

// Gives up what a name holds.
fn give<'l>(book: &mut Book, store: Store, name: &'l [u8]) -> Result<(Store, Reply<'l>), NoMemory>
    ensures gives { (o : Setting) (s : State) → IsSession o (record { book = book.old; store = store }) s →
        (bytes : List ℕ) → SpellsLine bytes (GivesUp name.now) →
        IfOk result (λ r. LineAnswered o s bytes book.new r.0 r.1) }
{
    let Some(held) = book.find(name) else {
        return Ok((store, Reply::NoName(name)));
    };
    book.forget(name);
    let Store { mut cells, left } = store;
    release_held(book, &mut cells, held)?;
    Ok((Store { cells, left }, Reply::Done))
}

// Does a line that was read so.
fn answer<'l>(
    book: &mut Book,
    bytes: &[u8],
    read: Option<Line<'l>>,
    store: Store,
) -> Result<(Store, Reply<'l>), NoMemory>
    ensures answers { (o : Setting) (s : State) → IsSession o (record { book = book.old; store = store }) s →
        IsLine bytes.now → length bytes.now ≤ MOST_FILE_BYTES → IfSome read.entry (Says bytes.now) →
        (read.entry ≡ None → (l : a_line) → SpellsLine bytes.now l → ⊥) →
        IfOk result (λ r. LineAnswered o s bytes.now book.new r.0 r.1) }
{
    match read {
        None => Ok((store, Reply::BadLine)),
        Some(Line::Show(name)) => {
            let reply = show(book, &store.cells, name)?;
            Ok((store, reply))
        }
        Some(Line::Give(name)) => give(book, store, name),
        Some(Line::Call(line)) => call(book, bytes, &line, store),
    }
}
