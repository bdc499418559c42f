// The tokens of a line: names, values of any type, and signs, with blanks (space, tab, CR) between them. There are no
// comments.
ghost use Rattle.std.specs.Prelude.{◌≡◌, ◌<◌, ◌≤◌, ◌-◌, ◌||◌, ℕ, List, [], true, false, None, IfSome};
ghost use Rattle.std.specs.Prelude.{length, take, drop};
ghost use Rattle.fip_language.specs.Character.{is_blank, is_digit, is_letter, is_upper};
ghost use Rattle.fip_language.specs.Core.{Name};
ghost use Rattle.session_semantics.specs.Lines as L;
ghost use Rattle.session_semantics.specs.Lines.{Symbol, symbols, skip, word, following, after_number, NameText, SignText};
ghost use Rattle.session_semantics.specs.Lines.{Written, WrittenText};
ghost use Rattle.session_lines.specs.Scanned.{left, IsSignOf};
ghost use Rattle.session_lines.specs.Completed.{BeginsDigit, IsUnsigned, HasParts, Completes, GoesOn};
ghost use Rattle.session_lines.specs.declared.scan.Step.TheVariants.{Wants, Read};

use fip_language::characters::{is_keyword, is_name_byte, is_upper};

// Whether the byte is a space, a tab or a CR.
fn is_blank(byte: u8) -> bool
    ensures { result ≡ is_blank byte }
{
    byte == b' ' || byte == b'\t' || byte == b'\r'
}

// The first place from `at` on where there is no blank, or the end.
fn after_blanks(bytes: &[u8], at: usize) -> usize
    ensures from { at ≤ result }
    ensures within { at ≤ length bytes.now → result ≤ length bytes.now }
    ensures skips { skip (symbols (drop at bytes.now)) ≡ symbols (drop result bytes.now) }
{
    for i in at..bytes.len() {
        if !is_blank(bytes[i]) {
            return i;
        }
    }
    at.max(bytes.len())
}

// The first place from `at` on with which no name goes on, or the end.
fn after_name(bytes: &[u8], at: usize) -> usize
    ensures from { at ≤ result }
    ensures within { at ≤ length bytes.now → result ≤ length bytes.now }
    ensures name { word (symbols (drop at bytes.now)) ≡ take (result - at) (drop at bytes.now) }
    ensures following { following (symbols (drop at bytes.now)) ≡ symbols (drop result bytes.now) }
{
    for i in at..bytes.len() {
        if !is_name_byte(bytes[i]) {
            return i;
        }
    }
    at.max(bytes.len())
}

// The first place from `at` on where there is no digit, or the end.
fn after_digits(bytes: &[u8], at: usize) -> usize
    ensures from { at ≤ result }
    ensures within { at ≤ length bytes.now → result ≤ length bytes.now }
    ensures following { after_number (symbols (drop at bytes.now)) ≡ symbols (drop result bytes.now) }
    ensures some { at < result → BeginsDigit (symbols (drop at bytes.now)) }
    ensures none { result ≡ at → BeginsDigit (symbols (drop at bytes.now)) → ⊥ }
{
    for i in at..bytes.len() {
        if !bytes[i].is_ascii_digit() {
            return i;
        }
    }
    at.max(bytes.len())
}

// Where the digits of an int begin that is at a place: there, or after a minus.
fn after_minus(bytes: &[u8], at: usize) -> usize
    requires there { at < length bytes.now }
    ensures from { at ≤ result }
    ensures within { result ≤ length bytes.now }
    ensures digits { IsUnsigned (symbols (drop at bytes.now)) (symbols (drop result bytes.now)) }
{
    if bytes[at] == b'-' {
        at.saturating_add(1)
    } else {
        at
    }
}

/// Where a value is in a line: the place of its first byte, and the place after its last one.
#[derive(Clone, Copy, PartialEq, Eq)]
pub struct Span {
    pub start: usize,
    pub end: usize,
}

// What the reader of a value is at.
#[derive(Clone, Copy)]
enum Step {
    // A value comes next.
    Wants,
    // A value was read.
    Read,
}

// Whether more of a value is to come, of which so many brackets are open.
fn is_part(step: Step, depth: usize) -> bool
    ensures more { result ≡ true → step ≡ Read → 0 < depth }
    ensures whole { result ≡ false → (step ≡ Read) × (depth ≡ 0) }
{
    match step {
        Step::Wants => true,
        Step::Read => depth > 0,
    }
}

/// Reads the tokens of a line from the left. A call that doesn't find what it asks for leaves it where it was.
#[derive(Clone, Copy)]
pub struct Scanner<'l> {
    bytes: &'l [u8],
    at: usize,
}

impl<'l> Scanner<'l> {
    /// A scanner before the first token.
    pub fn new(bytes: &'l [u8]) -> Scanner<'l>
        ensures start { result.at ≡ 0 }
        ensures bytes { result.bytes.now ≡ bytes.now }
    {
        Scanner { bytes, at: 0 }
    }

    /// The place after the last token that was read.
    pub fn at(&self) -> usize
        ensures is { result ≡ self.now.at }
    {
        self.at
    }

    /// Goes on at a place after tokens that were read otherwise.
    pub fn go_to(&mut self, at: usize)
        ensures at { self.new.at ≡ at }
        ensures bytes { self.new.bytes.now ≡ self.old.bytes.now }
    {
        self.at = at;
    }

    /// Whether this sign comes next; it is read.
    pub fn sign(&mut self, wanted: u8) -> bool
        ensures bytes { self.new.bytes.now ≡ self.old.bytes.now }
        ensures within { self.old.at ≤ length self.old.bytes.now → self.new.at ≤ length self.old.bytes.now }
        ensures kept { result ≡ false → self.new ≡ self.old }
        ensures on { result ≡ true → self.old.at < self.new.at }
        ensures inside { result ≡ true → self.new.at ≤ length self.old.bytes.now }
        ensures read { result ≡ true → (c : Symbol) → IsSignOf wanted c → SignText c (left self.old) (left self.new) }
        ensures none { result ≡ false → (c : Symbol) (rest : List Symbol) → IsSignOf wanted c →
            SignText c (left self.old) rest → ⊥ }
    {
        let place = after_blanks(self.bytes, self.at);
        let is_next = self.bytes.get(place).copied() == Some(wanted);
        if is_next {
            self.at = place.saturating_add(1);
        }
        is_next
    }

    /// The lower-case name that comes next; none where a keyword or no such name does.
    pub fn name(&mut self) -> Option<&'l [u8]>
        ensures bytes { self.new.bytes.now ≡ self.old.bytes.now }
        ensures within { self.old.at ≤ length self.old.bytes.now → self.new.at ≤ length self.old.bytes.now }
        ensures on { self.old.at ≤ self.new.at }
        ensures kept { result ≡ None → self.new ≡ self.old }
        ensures read { IfSome result (λ n. NameText (left self.old) n.now (left self.new)) }
        ensures none { result ≡ None → (name : Name) (rest : List Symbol) → NameText (left self.old) name rest → ⊥ }
    {
        let start = after_blanks(self.bytes, self.at);
        let first = self.bytes.get(start)?;
        if !first.is_ascii_lowercase() {
            return None;
        }
        let end = after_name(self.bytes, start);
        let name = self.bytes.get(start..end)?;
        if is_keyword(name) {
            return None;
        }
        self.at = end;
        Some(name)
    }

    /// Whether nothing but blanks is left.
    pub fn is_at_end(&self) -> bool
        ensures end { result ≡ true → skip (left self.now) ≡ [] }
        ensures more { result ≡ false → skip (left self.now) ≡ [] → ⊥ }
    {
        after_blanks(self.bytes, self.at) >= self.bytes.len()
    }

    // The bracket after the name of a constructor with fields; it is read and counted.
    fn fields(&mut self, depth: &mut usize) -> Step
        ensures bytes { self.new.bytes.now ≡ self.old.bytes.now }
        ensures on { self.old.at ≤ self.new.at }
        ensures within { self.old.at ≤ length self.old.bytes.now → self.new.at ≤ length self.old.bytes.now }
        ensures few { depth.old < self.old.at → depth.new ≤ self.new.at }
        ensures alike { depth.old < length self.old.bytes.now →
            GoesOn (HasParts depth.old (left self.old)) (Completes result depth.new (left self.new)) }
    {
        if self.sign(b'(') {
            *depth = depth.saturating_add(1);
            return Step::Wants;
        }
        Step::Read
    }

    // The digits of an int, which begin at a place. Whether there are some.
    fn digits(&mut self, place: usize) -> bool
        ensures bytes { self.new.bytes.now ≡ self.old.bytes.now }
        ensures kept { result ≡ false → self.new ≡ self.old }
        ensures on { result ≡ true → place < self.new.at }
        ensures within { place ≤ length self.old.bytes.now → result ≡ true →
            self.new.at ≤ length self.old.bytes.now }
        ensures some { result ≡ true → BeginsDigit (symbols (drop place self.old.bytes.now)) }
        ensures following { result ≡ true → after_number (symbols (drop place self.old.bytes.now)) ≡ left self.new }
        ensures none { result ≡ false → BeginsDigit (symbols (drop place self.old.bytes.now)) → ⊥ }
    {
        let end = after_digits(self.bytes, place);
        let is_some = end > place;
        if is_some {
            self.at = end;
        }
        is_some
    }

    // The first token of a value: an int, or the name of a constructor and the bracket after it where it has fields,
    // which is counted.
    fn first(&mut self, depth: &mut usize) -> Option<Step>
        ensures bytes { self.new.bytes.now ≡ self.old.bytes.now }
        ensures on { IfSome result (λ s. self.old.at < self.new.at) }
        ensures within { IfSome result (λ s. self.new.at ≤ length self.old.bytes.now) }
        ensures few { IfSome result (λ s. depth.old ≤ self.old.at → depth.new ≤ self.new.at) }
        ensures alike { IfSome result (λ s. depth.old ≤ self.old.at →
            GoesOn (Completes Wants depth.old (left self.old)) (Completes s depth.new (left self.new))) }
        ensures none { result ≡ None → (rest : List Symbol) → Completes Wants depth.old (left self.old) rest → ⊥ }
    {
        let start = after_blanks(self.bytes, self.at);
        if start >= self.bytes.len() {
            return None;
        }
        if is_upper(self.bytes[start]) {
            self.at = after_name(self.bytes, start);
            return Some(self.fields(depth));
        }
        if self.digits(after_minus(self.bytes, start)) {
            Some(Step::Read)
        } else {
            None
        }
    }

    // After a value in brackets is a comma, or their `)`.
    fn next_or_close(&mut self, depth: &mut usize) -> Option<Step>
        requires some { 0 < depth.old }
        ensures bytes { self.new.bytes.now ≡ self.old.bytes.now }
        ensures on { IfSome result (λ s. self.old.at < self.new.at) }
        ensures within { IfSome result (λ s. self.new.at ≤ length self.old.bytes.now) }
        ensures few { IfSome result (λ s. depth.new ≤ depth.old) }
        ensures alike { IfSome result (λ s.
            GoesOn (Completes Read depth.old (left self.old)) (Completes s depth.new (left self.new))) }
        ensures none { result ≡ None → (rest : List Symbol) → Completes Read depth.old (left self.old) rest → ⊥ }
    {
        if self.sign(b',') {
            return Some(Step::Wants);
        }
        if self.sign(b')') {
            *depth = depth.saturating_sub(1);
            return Some(Step::Read);
        }
        None
    }

    // The next token of a value that isn't whole.
    fn token(&mut self, step: Step, depth: &mut usize) -> Option<Step>
        requires more { step ≡ Read → 0 < depth.old }
        ensures bytes { self.new.bytes.now ≡ self.old.bytes.now }
        ensures on { IfSome result (λ s. self.old.at < self.new.at) }
        ensures within { IfSome result (λ s. self.new.at ≤ length self.old.bytes.now) }
        ensures few { IfSome result (λ s. depth.old ≤ self.old.at → depth.new ≤ self.new.at) }
        ensures alike { IfSome result (λ s. depth.old ≤ self.old.at →
            GoesOn (Completes step depth.old (left self.old)) (Completes s depth.new (left self.new))) }
        ensures none { result ≡ None → (rest : List Symbol) → Completes step depth.old (left self.old) rest → ⊥ }
    {
        match step {
            Step::Wants => self.first(depth),
            Step::Read => self.next_or_close(depth),
        }
    }

    // Reads a value. Whether one comes next; where none does, the scanner is anywhere.
    fn whole_value(&mut self) -> bool
        ensures bytes { self.new.bytes.now ≡ self.old.bytes.now }
        ensures on { result ≡ true → self.old.at ≤ self.new.at }
        ensures within { result ≡ true → self.old.at ≤ length self.old.bytes.now →
            self.new.at ≤ length self.old.bytes.now }
        ensures read { result ≡ true → (w : Written) × WrittenText (left self.old) w (left self.new) }
        ensures none { result ≡ false → (w : Written) (rest : List Symbol) → WrittenText (left self.old) w rest → ⊥ }
    {
        let mut depth = 0;
        let mut step = Step::Wants;
        while is_part(step, depth) {
            match self.token(step, &mut depth) {
                Some(next) => step = next,
                None => return false,
            }
        }
        true
    }

    /// The value that comes next, with any names of constructors, any numbers of fields, and ints of any size. Each
    /// step reads a byte at least. Brackets are counted, so that nesting costs no stack of the program.
    pub fn value(&mut self) -> Option<Span>
        ensures bytes { self.new.bytes.now ≡ self.old.bytes.now }
        ensures on { self.old.at ≤ self.new.at }
        ensures within { self.old.at ≤ length self.old.bytes.now → self.new.at ≤ length self.old.bytes.now }
        ensures kept { result ≡ None → self.new ≡ self.old }
        ensures read { IfSome result (λ s. (w : Written) × WrittenText (left self.old) w (left self.new)) }
        ensures start { IfSome result (λ s. symbols (drop s.start self.old.bytes.now) ≡ skip (left self.old)) }
        ensures end { IfSome result (λ s. s.end ≡ self.new.at) }
        ensures none { result ≡ None → (w : Written) (rest : List Symbol) → WrittenText (left self.old) w rest → ⊥ }
    {
        let start = after_blanks(self.bytes, self.at);
        let mut ahead = *self;
        if !ahead.whole_value() {
            return None;
        }
        *self = ahead;
        Some(Span {
            start,
            end: ahead.at,
        })
    }
}
