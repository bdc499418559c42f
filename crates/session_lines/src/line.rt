// The lines of a session:
//
//     call = name {"," name} "=" name "(" [argument {"," argument}] ")"
//     show = "?" name
//     give = "-" name
//
// An argument is a name or a value.
ghost use Rattle.std.specs.Prelude.{◌≡◌, ◌≤◌, ℕ, List, true, false, Ok, None, IfOk, IfSome};
ghost use Rattle.fip_language.specs.Core.{Name};
ghost use Rattle.session_semantics.specs.Lines as L;
ghost use Rattle.session_semantics.specs.Lines.{Symbol, GivenText, AllGivenText, MoreGivenText};
ghost use Rattle.session_semantics.specs.Lines.{MoreNamesText, SignText, LineText, SpellsLine, symbols};
ghost use Rattle.session_lines.specs.Scanned.{left};
ghost use Rattle.session_lines.specs.Said.{AreGiven, names_of, Says};
ghost use Rattle.session_lines.specs.Parts.{GivenRead, MoreNames, MoreGiven, Results, AllGiven, InBrackets, LastName};
ghost use Rattle.session_lines.specs.Parts.{CallRead};

use crate::{Scanner, Span};
use fip_base::plain::NoMemory;
use std::alloc::Global;

/// An argument, as it is written.
#[derive(Clone, Copy, PartialEq, Eq)]
pub enum Written<'l> {
    /// What a name holds.
    Name(&'l [u8]),
    /// A value, which is there.
    Value(Span),
}

/// A call: the names of its results, that of the function, and its arguments.
#[derive(Drop)]
pub struct CallLine<'l> {
    pub results: Vec<&'l [u8]>,
    pub entry: &'l [u8],
    pub arguments: Vec<Written<'l>>,
}

/// A line of a session.
#[derive(Drop)]
pub enum Line<'l> {
    /// The text of the value that a name holds is asked for.
    Show(&'l [u8]),
    /// The value that a name holds is given up.
    Give(&'l [u8]),
    /// A function is called, and its results get names.
    Call(CallLine<'l>),
}

// An argument that comes next.
fn argument<'l>(scanner: &mut Scanner<'l>) -> Option<Written<'l>>
    ensures bytes { scanner.new.bytes.now ≡ scanner.old.bytes.now }
    ensures on { scanner.old.at ≤ scanner.new.at }
    ensures read { IfSome result (λ a. GivenRead scanner.old.bytes.now a (left scanner.old) (left scanner.new)) }
    ensures none { result ≡ None → (g : L.Given) (rest : List Symbol) → GivenText (left scanner.old) g rest → ⊥ }
{
    match scanner.name() {
        Some(name) => Some(Written::Name(name)),
        None => match scanner.value() {
            Some(span) => Some(Written::Value(span)),
            None => None,
        },
    }
}

// The arguments after an argument, and the bracket after them. Whether these come next.
fn more_arguments<'l>(
    scanner: &mut Scanner<'l>,
    list: &mut Vec<Written<'l>>,
) -> Result<bool, NoMemory>
    ensures bytes { scanner.new.bytes.now ≡ scanner.old.bytes.now }
    ensures read { IfOk result (λ found. found ≡ true →
        MoreGiven scanner.old.bytes.now list.old.items list.new.items (left scanner.old) (left scanner.new)) }
    ensures none { IfOk result (λ found. found ≡ false → (gs : List L.Given) (rest : List Symbol) →
        MoreGivenText (left scanner.old) gs rest → ⊥) }
{
    while scanner.sign(b',') {
        let Some(next) = argument(scanner) else {
            return Ok(false);
        };
        list.push(next)?;
    }
    Ok(scanner.sign(b')'))
}

// The arguments between the brackets, and the bracket after them. None where these don't come next.
fn given<'l>(alloc: Global, scanner: &mut Scanner<'l>) -> Result<Option<Vec<Written<'l>>>, NoMemory>
    ensures bytes { scanner.new.bytes.now ≡ scanner.old.bytes.now }
    ensures read { IfOk result (λ o. IfSome o (λ list.
        AllGiven scanner.old.bytes.now list.items (left scanner.old) (left scanner.new))) }
    ensures none { result ≡ Ok None → (gs : List L.Given) (rest : List Symbol) →
        AllGivenText (left scanner.old) gs rest → ⊥ }
{
    let mut list = Vec::new(alloc);
    if scanner.sign(b')') {
        return Ok(Some(list));
    }
    let Some(first) = argument(scanner) else {
        return Ok(None);
    };
    list.push(first)?;
    if more_arguments(scanner, &mut list)? {
        Ok(Some(list))
    } else {
        Ok(None)
    }
}

// The arguments in their brackets. None where they aren't that.
fn arguments<'l>(
    alloc: Global,
    scanner: &mut Scanner<'l>,
) -> Result<Option<Vec<Written<'l>>>, NoMemory>
    ensures bytes { scanner.new.bytes.now ≡ scanner.old.bytes.now }
    ensures read { IfOk result (λ o. IfSome o (λ list.
        (gs : List L.Given) × AreGiven scanner.old.bytes.now list.items gs
        × InBrackets (left scanner.old) gs (left scanner.new))) }
    ensures none { result ≡ Ok None → (gs : List L.Given) (rest : List Symbol) →
        InBrackets (left scanner.old) gs rest → ⊥ }
{
    if !scanner.sign(b'(') {
        return Ok(None);
    }
    match given(alloc, scanner)? {
        Some(given) => Ok(Some(given)),
        None => Ok(None),
    }
}

// The names after a result's name, and the `=` after them. Whether these come next.
fn more_results<'l>(scanner: &mut Scanner<'l>, names: &mut Vec<&'l [u8]>) -> Result<bool, NoMemory>
    ensures bytes { scanner.new.bytes.now ≡ scanner.old.bytes.now }
    ensures read { IfOk result (λ found. found ≡ true →
        MoreNames (names_of names.old.items) (names_of names.new.items) (left scanner.old) (left scanner.new)) }
    ensures none { IfOk result (λ found. found ≡ false → (ns : List Name) (rest : List Symbol) →
        MoreNamesText (left scanner.old) ns rest → ⊥) }
{
    while scanner.sign(b',') {
        let Some(name) = scanner.name() else {
            return Ok(false);
        };
        names.push(name)?;
    }
    Ok(scanner.sign(b'='))
}

// The names before the `=`. None where they aren't that.
fn results<'l>(alloc: Global, scanner: &mut Scanner<'l>) -> Result<Option<Vec<&'l [u8]>>, NoMemory>
    ensures bytes { scanner.new.bytes.now ≡ scanner.old.bytes.now }
    ensures read { IfOk result (λ o. IfSome o (λ names.
        Results (left scanner.old) (names_of names.items) (left scanner.new))) }
    ensures none { result ≡ Ok None → (ns : List Name) (rest : List Symbol) →
        Results (left scanner.old) ns rest → ⊥ }
{
    let Some(first) = scanner.name() else {
        return Ok(None);
    };
    let mut names = Vec::new(alloc);
    names.push(first)?;
    if more_results(scanner, &mut names)? {
        Ok(Some(names))
    } else {
        Ok(None)
    }
}

// The function that is called and its arguments, after the names of its results, to the end of the line. None where
// these don't come next.
fn called<'l>(
    alloc: Global,
    scanner: &mut Scanner<'l>,
    results: Vec<&'l [u8]>,
) -> Result<Option<CallLine<'l>>, NoMemory>
    ensures read { (cs : List Symbol) → Results cs (names_of results.entry.items) (left scanner.old) →
        IfOk result (λ o. IfSome o (λ c. CallRead scanner.old.bytes.now c cs)) }
    ensures none { (cs : List Symbol) → Results cs (names_of results.entry.items) (left scanner.old) →
        result ≡ Ok None → (n : Name) (ns : List Name) (f : Name) (gs : List L.Given) →
        LineText cs (L.Calls n ns f gs) → ⊥ }
{
    let Some(entry) = scanner.name() else {
        return Ok(None);
    };
    match arguments(alloc, scanner)? {
        Some(arguments) => {
            if scanner.is_at_end() {
                Ok(Some(CallLine {
                    results,
                    entry,
                    arguments,
                }))
            } else {
                Ok(None)
            }
        }
        None => Ok(None),
    }
}

// A call. None where the line isn't one.
fn call_line<'l>(alloc: Global, scanner: &mut Scanner<'l>) -> Result<Option<CallLine<'l>>, NoMemory>
    ensures read { IfOk result (λ o. IfSome o (λ c. CallRead scanner.old.bytes.now c (left scanner.old))) }
    ensures none { result ≡ Ok None → (n : Name) (ns : List Name) (f : Name) (gs : List L.Given) →
        LineText (left scanner.old) (L.Calls n ns f gs) → ⊥ }
{
    match results(alloc, scanner)? {
        Some(results) => called(alloc, scanner, results),
        None => Ok(None),
    }
}

// A name, after which the line ends.
fn last_name<'l>(scanner: &mut Scanner<'l>) -> Option<&'l [u8]>
    ensures read { IfSome result (λ n. LastName (left scanner.old) n.now) }
    ensures none { result ≡ None → (n : Name) → LastName (left scanner.old) n → ⊥ }
{
    match scanner.name() {
        Some(name) if scanner.is_at_end() => Some(name),
        _ => None,
    }
}

// What a line asks after its `?`. None where no name ends it.
fn shown<'l>(scanner: &mut Scanner<'l>) -> Option<Line<'l>>
    ensures read { (bytes : List ℕ) → SignText L.Question (symbols bytes) (left scanner.old) →
        IfSome result (λ line. Says bytes line) }
    ensures none { result ≡ None → (cs : List Symbol) → SignText L.Question cs (left scanner.old) → (l : L.Line) →
        LineText cs l → ⊥ }
{
    match last_name(scanner) {
        Some(name) => Some(Line::Show(name)),
        None => None,
    }
}

// What a line gives up after its `-`. None where no name ends it.
fn given_up<'l>(scanner: &mut Scanner<'l>) -> Option<Line<'l>>
    ensures read { (bytes : List ℕ) → SignText L.Minus (symbols bytes) (left scanner.old) →
        IfSome result (λ line. Says bytes line) }
    ensures none { result ≡ None → (cs : List Symbol) → SignText L.Minus cs (left scanner.old) → (l : L.Line) →
        LineText cs l → ⊥ }
{
    match last_name(scanner) {
        Some(name) => Some(Line::Give(name)),
        None => None,
    }
}

/// What a line says. None where it has none of the three forms.
pub fn line_of<'l>(alloc: Global, bytes: &'l [u8]) -> Result<Option<Line<'l>>, NoMemory>
    ensures read { IfOk result (λ o. IfSome o (λ line. Says bytes.now line)) }
    ensures none { result ≡ Ok None → (l : L.Line) → SpellsLine bytes.now l → ⊥ }
{
    let mut scanner = Scanner::new(bytes);
    if scanner.sign(b'?') {
        return Ok(shown(&mut scanner));
    }
    if scanner.sign(b'-') {
        return Ok(given_up(&mut scanner));
    }
    match call_line(alloc, &mut scanner)? {
        Some(call) => Ok(Some(Line::Call(call))),
        None => Ok(None),
    }
}
