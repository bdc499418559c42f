// What a call of a session asks for, before anything changes.
ghost use Rattle.std.specs.Prelude.{◌≡◌, ◌↔◌, ◌<◌, ◌≤◌, ◌+◌, ◌-◌, ◌*◌, ◌^◌, ℕ, suc, List, [], true, false, None, Some, length, map, drop};
ghost use Rattle.std.specs.Prelude.{IfOk, IfErr, IfSome, IsTrue, slice_get, slice_index_or, ◌&&◌};
ghost use Rattle.fip_language.specs.Declarations.{same_name};
ghost use Rattle.fip_session.specs.Named.{found};
ghost use Rattle.fip_language.specs.declared.limits.TheConstants.{MOST_FIELDS};
ghost use Rattle.fip_language.specs.Every.{times};
ghost use Rattle.fip_language.specs.Store.{count as cells_in};
ghost use Rattle.fip_language.specs.Values.{Value};
ghost use Rattle.session_lines.specs.session_semantics.Lines.{Given as a_given, Held as held_name, Written as a_written};
ghost use Rattle.session_lines.specs.session_semantics.Lines.{WrittenText, symbols};
ghost use Rattle.session_lines.specs.session_semantics.Typed.{IsValue};
ghost use Rattle.session_lines.specs.session_semantics.Talk.{IsFree, AreFree, IsTakenName, Setting, State};
ghost use Rattle.session_lines.specs.session_semantics.Talk.{credits_of, over_sizes};
ghost use Rattle.session_lines.specs.Said.{IsGiven, AreGiven, names_of};
ghost use Rattle.session_values.specs.Readable.{IsLine};
ghost use Rattle.value_text.specs.Counting.{count_at};
ghost use Rattle.value_text.specs.Loaded.{types_of, AreCredits, AreSizes, free_in, words_up_to};
ghost use Rattle.value_text.specs.Single.{AreCellsOf};
ghost use Rattle.session_correctness.specs.Lodging.{Lodged, holding_of};
ghost use Rattle.fip_session.specs.Planned.{Finds, CanTake, CanTakeAll, TakesIn, TakesAll, IsHeld, AreHeldTo, AreHeld};
ghost use Rattle.fip_session.specs.Planned.{IsBadAt, IsRefused, names_given, names_used};
ghost use Rattle.fip_session.specs.Refused.{IsPlanned, Refuses};
ghost use Rattle.fip_session.specs.Planned.{IsWeighed};
ghost use Rattle.fip_session.specs.Booked.{IsBook};

use crate::book::{Book, Held};
use crate::reply::{Reply, Stop};
use cell_code::Function;
use cell_store::Loader;
use fip_base::plain::{NoMemory, Param};
use fip_language::limits::MOST_FIELDS;
use session_lines::{CallLine, Span, Written};
use std::alloc::Global;
use value_text::{Counts, ReadError, read_value};

/// A name that a call is given and whose type isn't scalar.
#[derive(Clone, Copy, PartialEq, Eq)]
pub struct Given<'l> {
    pub name: &'l [u8],
    /// Whether the call uses it up: its parameter isn't lent.
    pub is_used_up: bool,
}

/// The arguments of a call, once they are right.
#[derive(Drop)]
pub struct Arguments<'l> {
    /// The names that are given and whose type isn't scalar, in their order.
    pub given: Vec<Given<'l>>,
    /// The cells of the values in the line.
    pub fresh: Counts,
}

// The cells of a value of a type, which stands at a place of a line. None where it is no value of this type.
fn counted(book: &Book, bytes: &[u8], ty: u32, span: Span) -> Result<Option<Counts>, NoMemory>
    ensures counts { CanTake book.now.table.now ty bytes.now → (w : a_written) →
        WrittenText (symbols (drop span.start bytes.now)) w (symbols (drop span.end bytes.now)) →
        IfOk result (λ o. IfSome o (λ counts. (v : Value) × IsValue book.now.table.now ty w v × AreCellsOf counts v)) }
    ensures none { CanTake book.now.table.now ty bytes.now → (w : a_written) →
        WrittenText (symbols (drop span.start bytes.now)) w (symbols (drop span.end bytes.now)) →
        IfOk result (λ o. o ≡ None → (v : Value) → IsValue book.now.table.now ty w v → ⊥) }
{
    match read_value(book.alloc, book.table, ty, bytes, span.start) {
        Ok((end, counts)) => {
            if end == span.end.min(bytes.len()) {
                Ok(Some(counts))
            } else {
                Ok(None)
            }
        }
        Err(ReadError::BadValue { .. }) => Ok(None),
        Err(ReadError::NoMemory) => Err(NoMemory),
    }
}

// Whether two names are the same.
fn is_same(name: &[u8], other: &[u8]) -> bool
    ensures { result ≡ same_name name.now other.now }
{
    name == other
}

// Whether this is a name, which is used up.
fn is_used(given: &Given, name: &[u8]) -> bool
    ensures { result ≡ (given.now.is_used_up && same_name name.now given.now.name.now) }
{
    given.is_used_up && is_same(name, given.name)
}

// An argument of a line.
fn argument_at<'l>(arguments: &[Written<'l>], i: usize) -> Option<Written<'l>>
    ensures { result ≡ slice_get arguments.now i }
{
    arguments.get(i).copied()
}

impl<'l> Arguments<'l> {
    fn none(alloc: Global) -> Arguments<'l>
        ensures given { result.given.items ≡ [] }
        ensures fresh { (k : ℕ) → slice_index_or result.fresh.numbers k 0 ≡ 0 }
    {
        Arguments {
            given: Vec::new(alloc),
            fresh: Counts::none(),
        }
    }

    // Takes in one more. False where it is bad.
    fn accept(
        &mut self,
        book: &Book,
        bytes: &[u8],
        param: Param,
        written: Written<'l>,
    ) -> Result<bool, NoMemory>
        ensures takes { CanTake book.now.table.now param.ty bytes.now → (ls : List Lodged) → Finds book.now.held ls →
            (g : a_given) → IsGiven bytes.now written.entry g → IfOk result (λ ok. ok ≡ true →
            TakesIn book.now.table.now (map holding_of ls) param g self.old self.new) }
        ensures refuses { CanTake book.now.table.now param.ty bytes.now → (ls : List Lodged) → Finds book.now.held ls →
            (g : a_given) → IsGiven bytes.now written.entry g → IfOk result (λ ok. ok ≡ false →
            IsRefused book.now.table.now (map holding_of ls) self.old param g) }
        ensures held { IfOk result (λ ok. ok ≡ true → IsHeld book.now.held written.entry) }
    {
        match written {
            Written::Value(span) => {
                let Some(counts) = counted(book, bytes, param.ty, span)? else {
                    return Ok(false);
                };
                self.fresh.add(&counts);
                Ok(true)
            }
            Written::Name(name) => self.accept_name(book, param, name),
        }
    }

    // Takes in a name. False where it holds no value of its parameter's type, or was given before; scalars may be.
    fn accept_name(&mut self, book: &Book, param: Param, name: &'l [u8]) -> Result<bool, NoMemory>
        ensures takes { param.ty ≤ length book.now.table.now → (ls : List Lodged) → Finds book.now.held ls →
            IfOk result (λ ok. ok ≡ true →
            TakesIn book.now.table.now (map holding_of ls) param (held_name name.now) self.old self.new) }
        ensures refuses { param.ty ≤ length book.now.table.now → (ls : List Lodged) → Finds book.now.held ls →
            IfOk result (λ ok. ok ≡ false →
            IsRefused book.now.table.now (map holding_of ls) self.old param (held_name name.now)) }
        ensures held { IfOk result (λ ok. ok ≡ true → found book.now.held name.now ≡ None → ⊥) }
    {
        match book.find(name) {
            None => Ok(false),
            Some(held) => self.accept_held(book, param, name, held),
        }
    }

    // Takes in a name that holds this.
    fn accept_held(
        &mut self,
        book: &Book,
        param: Param,
        name: &'l [u8],
        held: Held,
    ) -> Result<bool, NoMemory>
        ensures takes { param.ty ≤ length book.now.table.now → (ls : List Lodged) → Finds book.now.held ls →
            found book.now.held name.now ≡ Some held → IfOk result (λ ok. ok ≡ true →
            TakesIn book.now.table.now (map holding_of ls) param (held_name name.now) self.old self.new) }
        ensures refuses { param.ty ≤ length book.now.table.now → (ls : List Lodged) → Finds book.now.held ls →
            found book.now.held name.now ≡ Some held → IfOk result (λ ok. ok ≡ false →
            IsRefused book.now.table.now (map holding_of ls) self.old param (held_name name.now)) }
    {
        if held.ty != param.ty {
            return Ok(false);
        }
        if book.is_scalar(param.ty) {
            return Ok(true);
        }
        if self.is_given(name) {
            return Ok(false);
        }
        self.given.push(Given {
            name,
            is_used_up: !param.lent,
        })?;
        Ok(true)
    }

    // Takes in the arguments of a call, of which there are as many as parameters; the number, from 1, of the first that
    // is bad.
    fn accept_all(
        &mut self,
        book: &Book,
        bytes: &[u8],
        params: &[Param],
        arguments: &[Written<'l>],
    ) -> Result<Option<usize>, NoMemory>
        ensures takes { CanTakeAll book.now.table.now (types_of params.now) bytes.now → (ls : List Lodged) →
            Finds book.now.held ls → (gs : List a_given) → AreGiven bytes.now arguments.now gs →
            length gs ≡ length params.now → IfOk result (λ o. o ≡ None →
            TakesAll book.now.table.now (map holding_of ls) params.now gs self.old self.new) }
        ensures wrong { CanTakeAll book.now.table.now (types_of params.now) bytes.now → (ls : List Lodged) →
            Finds book.now.held ls → (gs : List a_given) → AreGiven bytes.now arguments.now gs →
            length gs ≡ length params.now → IfOk result (λ o. IfSome o (IsBadAt book.now.table.now (map holding_of ls)
            (names_given self.old.given.items) params.now gs)) }
        ensures held { IfOk result (λ o. o ≡ None → AreHeldTo (length params.now) book.now.held arguments.now) }
    {
        for (i, param) in params.iter().enumerate() {
            let Some(written) = argument_at(arguments, i) else {
                return Ok(Some(i + 1));
            };
            if !self.accept(book, bytes, *param, written)? {
                return Ok(Some(i + 1));
            }
        }
        Ok(None)
    }

    // Whether a name is given.
    fn is_given(&self, name: &[u8]) -> bool
        ensures found { result ≡ true → 0 < times name.now (names_given self.now.given.items) }
        ensures none { result ≡ false → times name.now (names_given self.now.given.items) ≡ 0 }
    {
        for given in &self.given {
            if is_same(name, given.name) {
                return true;
            }
        }
        false
    }

    // Whether the call uses up a name.
    fn uses_up(&self, name: &[u8]) -> bool
        ensures found { result ≡ true → 0 < times name.now (names_used self.now.given.items) }
        ensures none { result ≡ false → times name.now (names_used self.now.given.items) ≡ 0 }
    {
        for given in &self.given {
            if is_used(given, name) {
                return true;
            }
        }
        false
    }
}

// The cells of credits are counted too.
fn add_credits(cells: &mut Counts, credits: &[u8])
    ensures counts { AreSizes credits.now → ((k : ℕ) → k ≤ MOST_FIELDS →
        count_at cells.old k + length credits.now < 2 ^ 64) → (k : ℕ) → k ≤ MOST_FIELDS →
        count_at cells.new k ≡ count_at cells.old k + cells_in k credits.now }
{
    for size in credits {
        cells.add_one(*size as usize);
    }
}

// The words of the cells that no released cell serves.
fn words_needed(cells: &Counts, loader: &Loader) -> usize
    ensures words { words_up_to MOST_FIELDS (count_at cells.now) (λ _. 0) < 2 ^ 64 →
        result ≡ words_up_to MOST_FIELDS (count_at cells.now) (free_in loader.now) }
{
    let mut needed = 0usize;
    for k in 1..MOST_FIELDS + 1 {
        let more = cells.of(k).saturating_sub(loader.spare(k));
        needed = needed.saturating_add((k + 1).saturating_mul(more));
    }
    needed
}

/// A call that isn't refused, but that the store may be too small for.
#[derive(Drop)]
pub struct Plan<'a, 'l> {
    pub entry: usize,
    pub function: &'a Function,
    pub arguments: Arguments<'l>,
}

impl<'a, 'l> Plan<'a, 'l> {
    /// The words that the cells of its values and of its entry's credits need of a loader: those of the cells that no
    /// released one serves. The clause speaks of values with at most 2^32 cells of each size.
    pub fn needed(&self, loader: &Loader) -> usize
        ensures words { AreCredits self.now.function.now.credits.items → (fresh : ℕ → ℕ) →
            IsWeighed self.now.arguments.fresh fresh → result ≡ over_sizes MOST_FIELDS (λ k.
            (fresh k + credits_of k self.now.function.now.credits.items - free_in loader.now k) * suc k) }
    {
        let mut cells = self.arguments.fresh;
        add_credits(&mut cells, self.function.credits.as_slice());
        words_needed(&cells, loader)
    }
}

// Whether a name is among these.
fn has_name(names: &[&[u8]], name: &[u8]) -> bool
    ensures found { result ≡ true → 0 < times name.now (names_of names.now) }
    ensures none { result ≡ false → times name.now (names_of names.now) ≡ 0 }
{
    for other in names {
        if is_same(name, other) {
            return true;
        }
    }
    false
}

// Whether a result can't get a name: it repeats one before it, or is held and not used up.
fn is_taken(book: &Book, arguments: &Arguments, before: &[&[u8]], name: &[u8]) -> bool
    ensures free { (ls : List Lodged) → Finds book.now.held ls → result ≡ false →
        IsFree (map holding_of ls) (names_used arguments.now.given.items) (names_of before.now) name.now }
    ensures taken { (ls : List Lodged) → Finds book.now.held ls → result ≡ true →
        IsFree (map holding_of ls) (names_used arguments.now.given.items) (names_of before.now) name.now → ⊥ }
{
    if has_name(before, name) {
        return true;
    }
    match book.find(name) {
        None => false,
        Some(_) => !arguments.uses_up(name),
    }
}

// The first result's name that repeats one before it, or that is held and not used up.
fn bad_result<'l>(book: &Book, arguments: &Arguments<'l>, results: &[&'l [u8]]) -> Option<&'l [u8]>
    ensures none { (ls : List Lodged) → Finds book.now.held ls → result ≡ None →
        AreFree (map holding_of ls) (names_used arguments.now.given.items) [] (names_of results.now) }
    ensures bad { (ls : List Lodged) → Finds book.now.held ls → IfSome result (λ name.
        IsTakenName (map holding_of ls) (names_used arguments.now.given.items) [] (names_of results.now) name.now) }
{
    for (i, name) in results.iter().enumerate() {
        if is_taken(book, arguments, &results[..i], name) {
            return Some(*name);
        }
    }
    None
}

// Whether a call gives as many arguments as a function has parameters, and names as many results.
fn has_right_numbers(function: &Function, line: &CallLine) -> bool
    ensures { IsTrue result ↔ ((length line.now.arguments.items ≡ length function.now.params)
        × (length line.now.results.items ≡ length function.now.results)) }
{
    let are_enough = line.arguments.len() == function.params.as_slice().len();
    are_enough && line.results.len() == function.results.as_slice().len()
}

/// What a call asks for, or why it is refused.
pub fn plan_of<'a, 'l>(
    book: &Book<'a>,
    bytes: &[u8],
    line: &CallLine<'l>,
) -> Result<Plan<'a, 'l>, Stop<'l>>
    ensures there { IfOk result (λ p. p.entry < length book.now.verified.now.code.functions.items) }
    ensures held { IfOk result (λ p. AreHeld book.now.held line.now.arguments.items) }
    ensures planned { (o : Setting) (s : State) (ls : List Lodged) → IsBook o book.now ls → s.held ≡ map holding_of ls →
        IsLine bytes.now → (gs : List a_given) → AreGiven bytes.now line.now.arguments.items gs →
        IfOk result (IsPlanned o s book.now (names_of line.now.results.items) line.now.entry.now gs) }
    ensures refused { (o : Setting) (s : State) (ls : List Lodged) → IsBook o book.now ls → s.held ≡ map holding_of ls →
        IsLine bytes.now → (gs : List a_given) → AreGiven bytes.now line.now.arguments.items gs →
        0 < length line.now.entry.now → IfErr result (Refuses o s (names_of line.now.results.items) line.now.entry.now gs) }
{
    let Some(entry) = book.entry(line.entry) else {
        return Err(Stop::Reply(Reply::NoEntry(line.entry)));
    };
    let Some(function) = book.function(entry) else {
        return Err(Stop::Reply(Reply::NoEntry(line.entry)));
    };
    if !has_right_numbers(function, line) {
        return Err(Stop::Reply(Reply::WrongNumber));
    }
    let mut arguments = Arguments::none(book.alloc);
    let params = function.params.as_slice();
    let bad = arguments.accept_all(book, bytes, params, line.arguments.as_slice())?;
    if let Some(number) = bad {
        return Err(Stop::Reply(Reply::BadArgument(number)));
    }
    if let Some(name) = bad_result(book, &arguments, line.results.as_slice()) {
        return Err(Stop::Reply(Reply::BadResult(name)));
    }
    Ok(Plan {
        entry,
        function,
        arguments,
    })
}
