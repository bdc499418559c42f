// The tokens of a text of values. Each function begins at a place in the bytes and gives the place after its token,
// or the place of the first byte that doesn't fit, where the end counts as one.
ghost use Rattle.std.specs.Prelude.{◌≡◌, ◌↔◌, ℕ, suc, ◌+◌, ◌*◌, ◌-◌, ◌<◌, ◌≤◌, ◌||◌, Bool, true, false, IsTrue};
ghost use Rattle.std.specs.Prelude.{MatchOption, MatchResult, Some, None, length, take, drop, slice_get};
ghost use Rattle.std.specs.Prelude.{slice_index_or, nat_le, nat_eq, max, FitsSigned, [], List, IfSome};
ghost use Rattle.fip_base.specs.TableView.{IsNamed};
ghost use Rattle.std.specs.Int.{w64};
ghost use Rattle.fip_language.specs.Prefix.{Accepted, Stopped};
ghost use Rattle.fip_language.specs.Values.{Int, Values};
ghost use Rattle.fip_language.specs.Table.{Table, Shape, constructors};
ghost use Rattle.fip_language.specs.Character.{Blank, is_blank, is_digit, is_letter, are_name_bytes, character};
ghost use Rattle.fip_language.specs.Character.{characters};
ghost use Rattle.fip_language.specs.ValueText.{bound, int_of};
ghost use Rattle.fip_language.specs.SoundTable.{IsSoundTable};
ghost use Rattle.value_text.specs.Machine.{Around, State, Want, Number, Await, Over, filled, named, act, is_sign};
ghost use Rattle.value_text.specs.Machine.{begins, any_begins};
ghost use Rattle.value_text.specs.Scan.{runs, is_name_byte, before_digits, begins_bytes, IsLongest};

use fip_base::table::{Constructor, TypeTable};

#[inline(always)]
fn blank(b: u8) -> bool
    ensures { result ≡ is_blank b }
{
    b == b' ' || b == b'\t' || b == b'\r'
}

fn blank_or_line(b: u8) -> bool
    ensures { result ≡ (is_blank b || nat_eq b 10) }
{
    blank(b) || b == b'\n'
}

#[inline(always)]
fn digit(b: u8) -> bool
    ensures { result ≡ is_digit b }
{
    48 <= b && b <= 57
}

#[inline(always)]
fn name_byte(b: u8) -> bool
    ensures { result ≡ is_name_byte b }
{
    if b < 48 {
        return false;
    }
    digit(b) || 65 <= b && b <= 90 || 97 <= b && b <= 122 || b == b'_'
}

// The place after the blanks; most often there is none, or one space.
#[inline(always)]
fn skip_blanks(bytes: &[u8], at: usize) -> usize
    requires { at ≤ length bytes.now }
    ensures from { at ≤ result }
    ensures within { result ≤ length bytes.now }
    ensures skips { (tb : Table) (s : State) → act tb s Blank ≡ Some s →
        runs tb bytes.now s at ≡ runs tb bytes.now s result }
    ensures following { result < length bytes.now → is_blank (slice_index_or bytes.now result 0) ≡ false }
{
    if at < bytes.len() {
        if bytes[at] > b' ' {
            return at;
        }
        if bytes[at] == b' ' && at + 1 < bytes.len() && bytes[at + 1] > b' ' {
            return at + 1;
        }
    }
    skip_all_blanks(bytes, at)
}

// The same, one by one.
#[cold]
#[inline(never)]
fn skip_all_blanks(bytes: &[u8], at: usize) -> usize
    requires { at ≤ length bytes.now }
    ensures from { at ≤ result }
    ensures within { result ≤ length bytes.now }
    ensures skips { (tb : Table) (s : State) → act tb s Blank ≡ Some s →
        runs tb bytes.now s at ≡ runs tb bytes.now s result }
    ensures following { result < length bytes.now → is_blank (slice_index_or bytes.now result 0) ≡ false }
{
    for i in at..bytes.len() {
        if !blank(bytes[i]) {
            return i;
        }
    }
    bytes.len()
}

// The place after blanks and this sign: an LF or one of ( ) and comma.
#[inline(always)]
pub fn sign(bytes: &[u8], at: usize, byte: u8) -> Result<usize, usize>
    requires place { at ≤ length bytes.now }
    requires sign { is_sign (character byte) (character byte) ≡ true }
    ensures within { MatchResult result (λ next. (at < next) × (next ≤ length bytes.now)) (λ k. ℕ) }
    ensures reads { (tb : Table) (s : State) → MatchResult result
        (λ next. runs tb bytes.now (Await (character byte) s) at ≡ runs tb bytes.now s next)
        (λ k. runs tb bytes.now (Await (character byte) s) at ≡ Stopped k) }
{
    if at < bytes.len() {
        if bytes[at] == byte {
            return Ok(at + 1);
        }
    }
    let i = skip_all_blanks(bytes, at);
    if i >= bytes.len() {
        return Err(i);
    }
    if bytes[i] == byte { Ok(i + 1) } else { Err(i) }
}

// Only blanks and ends of lines come.
#[inline(never)]
pub fn end_of_text(bytes: &[u8], at: usize) -> Result<(), usize>
    requires { at ≤ length bytes.now }
    ensures { (tb : Table) (vs : Values) → MatchResult result (λ u. runs tb bytes.now (Over vs) at ≡ Accepted vs)
        (λ k. runs tb bytes.now (Over vs) at ≡ Stopped k) }
{
    for i in at..bytes.len() {
        if !blank_or_line(bytes[i]) {
            return Err(i);
        }
    }
    Ok(())
}

#[inline(always)]
fn int_from(negative: bool, n: u64) -> i64
    requires { n ≤ bound negative }
    ensures { result ≡ int_of negative n }
{
    if !negative {
        n as i64
    } else if n == 9223372036854775808 {
        i64::MIN
    } else {
        -(n as i64)
    }
}

// So many digits never leave the range of an int.
const SAFE_DIGITS: usize = 18;

// The number of a digit; none of another byte.
#[inline(always)]
fn figure(byte: u8) -> Option<u64>
    ensures { MatchOption result (is_digit byte ≡ false)
        (λ d. (is_digit byte ≡ true) × (d ≡ byte - 48) × (d ≤ 9)) }
{
    let d = (byte as u64).wrapping_sub(48);
    if d <= 9 { Some(d) } else { None }
}

// The number with one digit more, which no digit takes out of the range of an int.
#[inline(always)]
fn with_digit(n: u64, d: u64) -> u64
    requires small { n < 922337203685477580 }
    requires digit { d ≤ 9 }
    ensures number { result ≡ 10 * n + d }
    ensures range { result ≤ bound false }
{
    10 * n + d
}

// The number with one digit more, unless it leaves the range of an int.
#[inline(never)]
fn with_last_digit(negative: bool, n: u64, d: u64) -> Option<u64>
    requires range { n ≤ bound negative }
    requires digit { d ≤ 9 }
    ensures { MatchOption result (nat_le (10 * n + d) (bound negative) ≡ false)
        (λ m. (m ≡ 10 * n + d) × (m ≤ bound negative)) }
{
    let most = if negative {
        9223372036854775808
    } else {
        9223372036854775807
    };
    let m = 10 * n as u128 + d as u128;
    if m <= most { Some(m as u64) } else { None }
}

// A number, its sign read.
#[inline(always)]
fn digits(bytes: &[u8], at: usize, negative: bool) -> Result<(i64, usize), usize>
    requires place { at ≤ length bytes.now }
    requires blank { negative ≡ false → at < length bytes.now → is_blank (slice_index_or bytes.now at 0) ≡ false }
    requires minus { negative ≡ false → at < length bytes.now → nat_eq (slice_index_or bytes.now at 0) 45 ≡ false }
    ensures within { MatchResult result (λ r. (at < r.1) × (r.1 ≤ length bytes.now)) (λ k. ℕ) }
    ensures fits { MatchResult result (λ r. FitsSigned w64 r.0) (λ k. ℕ) }
    ensures reads { (tb : Table) (around : Around) → MatchResult result
        (λ r. runs tb bytes.now (before_digits negative around) at ≡ runs tb bytes.now (filled around (Int r.0)) r.1)
        (λ k. runs tb bytes.now (before_digits negative around) at ≡ Stopped k) }
{
    if at >= bytes.len() {
        return Err(at);
    }
    let Some(first) = figure(bytes[at]) else {
        return Err(at);
    };
    let mut n = first;
    let few = bytes.len().min(at + SAFE_DIGITS);
    for i in at + 1..few {
        let Some(d) = figure(bytes[i]) else {
            return Ok((int_from(negative, n), i));
        };
        n = with_digit(n, d);
    }
    further_digits(bytes, few, negative, n)
}

// The rest of a number, of which so much is read. The answer has a place of its own here, so that that of a short
// number stays in registers.
#[inline(always)]
fn further_digits(bytes: &[u8], at: usize, negative: bool, n: u64) -> Result<(i64, usize), usize>
    requires place { at ≤ length bytes.now }
    requires range { n ≤ bound negative }
    ensures within { MatchResult result (λ r. (at ≤ r.1) × (r.1 ≤ length bytes.now)) (λ k. ℕ) }
    ensures fits { MatchResult result (λ r. FitsSigned w64 r.0) (λ k. ℕ) }
    ensures reads { (tb : Table) (around : Around) → MatchResult result
        (λ r. runs tb bytes.now (Number negative n around) at ≡ runs tb bytes.now (filled around (Int r.0)) r.1)
        (λ k. runs tb bytes.now (Number negative n around) at ≡ Stopped k) }
{
    match last_digits(bytes, at, negative, n) {
        Ok(number) => Ok(number),
        Err(place) => Err(place),
    }
}

// The same.
#[cold]
#[inline(never)]
fn last_digits(bytes: &[u8], at: usize, negative: bool, n: u64) -> Result<(i64, usize), usize>
    requires place { at ≤ length bytes.now }
    requires range { n ≤ bound negative }
    ensures within { MatchResult result (λ r. (at ≤ r.1) × (r.1 ≤ length bytes.now)) (λ k. ℕ) }
    ensures fits { MatchResult result (λ r. FitsSigned w64 r.0) (λ k. ℕ) }
    ensures reads { (tb : Table) (around : Around) → MatchResult result
        (λ r. runs tb bytes.now (Number negative n around) at ≡ runs tb bytes.now (filled around (Int r.0)) r.1)
        (λ k. runs tb bytes.now (Number negative n around) at ≡ Stopped k) }
{
    let mut n = n;
    for i in at..bytes.len() {
        let Some(d) = figure(bytes[i]) else {
            return Ok((int_from(negative, n), i));
        };
        match with_last_digit(negative, n, d) {
            Some(m) => n = m,
            None => return Err(i),
        }
    }
    Ok((int_from(negative, n), bytes.len()))
}

// An int after blanks, and the place after it.
#[inline(always)]
pub fn int(bytes: &[u8], at: usize) -> Result<(i64, usize), usize>
    requires { at ≤ length bytes.now }
    ensures within { MatchResult result (λ r. (at < r.1) × (r.1 ≤ length bytes.now)) (λ k. ℕ) }
    ensures fits { MatchResult result (λ r. FitsSigned w64 r.0) (λ k. ℕ) }
    ensures reads { (tb : Table) (around : Around) → MatchResult result
        (λ r. runs tb bytes.now (Want 0 around) at ≡ runs tb bytes.now (filled around (Int r.0)) r.1)
        (λ k. runs tb bytes.now (Want 0 around) at ≡ Stopped k) }
{
    let start = skip_blanks(bytes, at);
    if start >= bytes.len() {
        return Err(start);
    }
    if digit(bytes[start]) {
        return digits(bytes, start, false);
    }
    if bytes[start] != b'-' {
        return Err(start);
    }
    digits(bytes, start + 1, true)
}

// The place after the name that begins here.
fn name_end(bytes: &[u8], at: usize) -> usize
    requires { at ≤ length bytes.now }
    ensures from { at ≤ result }
    ensures within { result ≤ length bytes.now }
    ensures name { are_name_bytes (take (result - at) (drop at bytes.now)) ≡ true }
    ensures following { result < length bytes.now → is_name_byte (slice_index_or bytes.now result 0) ≡ false }
{
    for i in at..bytes.len() {
        if !name_byte(bytes[i]) {
            return i;
        }
    }
    bytes.len()
}

// How many bytes of a text another text begins with.
fn common(text: &[u8], other: &[u8]) -> usize
    ensures within { result ≤ length text.now }
    ensures begun { begins_bytes (take result text.now) other.now ≡ true }
    ensures longest { result < length text.now → begins_bytes (take (suc result) text.now) other.now ≡ false }
{
    for i in 0..text.len() {
        if i >= other.len() {
            return i;
        }
        if text[i] != other[i] {
            return i;
        }
    }
    text.len()
}

fn larger(a: usize, b: usize) -> usize
    ensures { result ≡ max a b }
{
    if a < b { b } else { a }
}

// The length of the longest front of a text with which the name of a constructor begins.
fn longest_front(constructors: &[Constructor], text: &[u8]) -> usize
    ensures { IsLongest text.now constructors.now result }
{
    let mut longest = 0;
    for c in constructors {
        longest = larger(longest, common(text, c.name()));
    }
    longest
}

// Whether four bytes are alike, compared at once.
#[inline(always)]
fn four_alike(text: [u8; 4], other: [u8; 4]) -> bool
    ensures { IsTrue result → text ≡ other }
{
    u32::from_le_bytes(text) == u32::from_le_bytes(other)
}

// Whether two texts of the same length are alike.
#[inline(always)]
fn alike(text: &[u8], other: &[u8]) -> bool
    requires { length text.now ≡ length other.now }
    ensures { IsTrue result → text.now ≡ other.now }
{
    match text {
        [a, b, c, d] => match other {
            [x, y, z, w] => four_alike([*a, *b, *c, *d], [*x, *y, *z, *w]),
            _ => false,
        },
        [a, b, c] => match other {
            [x, y, z] => *a == *x && *b == *y && *c == *z,
            _ => false,
        },
        _ => all_alike(text, other),
    }
}

// The same, byte by byte.
#[inline(always)]
fn all_alike(text: &[u8], other: &[u8]) -> bool
    requires { length text.now ≡ length other.now }
    ensures { IsTrue result → text.now ≡ other.now }
{
    for i in 0..text.len() {
        if text[i] != other[i] {
            return false;
        }
    }
    true
}

// Whether this name stands at a place, and no further byte of a name after it.
#[inline(always)]
fn stands(name: &[u8], bytes: &[u8], at: usize) -> bool
    requires { at ≤ length bytes.now }
    ensures some { IsTrue result → 0 < length name.now }
    ensures within { IsTrue result → at + length name.now ≤ length bytes.now }
    ensures same { IsTrue result → name.now ≡ take (length name.now) (drop at bytes.now) }
    ensures following { IsTrue result → at + length name.now < length bytes.now →
        is_name_byte (slice_index_or bytes.now (at + length name.now) 0) ≡ false }
{
    let size = name.len();
    if size == 0 || size > bytes.len() - at {
        return false;
    }
    let end = at + size;
    alike(name, &bytes[at..end]) && (end == bytes.len() || !name_byte(bytes[end]))
}

// The constructor whose name stands at a place, and the place after the name. The last one is tried first: a list has
// more cells than ends.
#[inline(always)]
fn constructor_here(constructors: &[Constructor], bytes: &[u8], at: usize) -> Option<(usize, usize)>
    requires { at ≤ length bytes.now }
    ensures within { IfSome result (λ r. (at < r.1) × (r.1 ≤ length bytes.now)) }
    ensures named { IfSome result (λ r. IsNamed constructors.now (take (r.1 - at) (drop at bytes.now)) r.0) }
    ensures following { IfSome result (λ r. r.1 < length bytes.now →
        is_name_byte (slice_index_or bytes.now r.1 0) ≡ false) }
{
    for i in (0..constructors.len()).rev() {
        let name = constructors[i].name();
        if stands(name, bytes, at) {
            return Some((i, at + name.len()));
        }
    }
    None
}

// The constructor whose name comes after blanks, and the place after the name.
#[inline(always)]
pub fn name(table: &TypeTable, ty: u32, bytes: &[u8], at: usize) -> Result<(usize, usize), usize>
    requires known { ty ≤ length table.now }
    requires data { 0 < ty }
    requires place { at ≤ length bytes.now }
    ensures within { MatchResult result (λ r. (at < r.1) × (r.1 ≤ length bytes.now)) (λ k. ℕ) }
    ensures there { MatchResult result (λ r. (s : Shape) × (slice_get (constructors table.now ty) r.0 ≡ Some s))
        (λ k. ℕ) }
    ensures reads { IsSoundTable table.now → MatchResult result (λ r. (s : Shape)
        × (slice_get (constructors table.now ty) r.0 ≡ Some s) × ((around : Around) →
        runs table.now bytes.now (Want ty around) at ≡ runs table.now bytes.now (named r.0 s.fields around) r.1))
        (λ k. (around : Around) → runs table.now bytes.now (Want ty around) at ≡ Stopped k) }
{
    let start = skip_blanks(bytes, at);
    match constructor_here(table.constructors_of(ty), bytes, start) {
        Some(found) => Ok(found),
        None => name_otherwise(table, ty, bytes, at),
    }
}

// The same where no name of the type stands after the blanks. The answer has a place of its own here, so that where a
// name is found it stays in registers.
#[inline(always)]
fn name_otherwise(
    table: &TypeTable,
    ty: u32,
    bytes: &[u8],
    at: usize,
) -> Result<(usize, usize), usize>
    requires known { ty ≤ length table.now }
    requires data { 0 < ty }
    requires place { at ≤ length bytes.now }
    ensures within { MatchResult result (λ r. (at < r.1) × (r.1 ≤ length bytes.now)) (λ k. ℕ) }
    ensures there { MatchResult result (λ r. (s : Shape) × (slice_get (constructors table.now ty) r.0 ≡ Some s))
        (λ k. ℕ) }
    ensures reads { IsSoundTable table.now → MatchResult result (λ r. (s : Shape)
        × (slice_get (constructors table.now ty) r.0 ≡ Some s) × ((around : Around) →
        runs table.now bytes.now (Want ty around) at ≡ runs table.now bytes.now (named r.0 s.fields around) r.1))
        (λ k. (around : Around) → runs table.now bytes.now (Want ty around) at ≡ Stopped k) }
{
    match name_or_place(table, ty, bytes, at) {
        Ok(found) => Ok(found),
        Err(place) => Err(place),
    }
}

// The same by the longest name that comes, and where no constructor has it, the place that reports so.
#[inline(never)]
fn name_or_place(
    table: &TypeTable,
    ty: u32,
    bytes: &[u8],
    at: usize,
) -> Result<(usize, usize), usize>
    requires known { ty ≤ length table.now }
    requires data { 0 < ty }
    requires place { at ≤ length bytes.now }
    ensures within { MatchResult result (λ r. (at < r.1) × (r.1 ≤ length bytes.now)) (λ k. ℕ) }
    ensures there { MatchResult result (λ r. (s : Shape) × (slice_get (constructors table.now ty) r.0 ≡ Some s))
        (λ k. ℕ) }
    ensures reads { IsSoundTable table.now → MatchResult result (λ r. (s : Shape)
        × (slice_get (constructors table.now ty) r.0 ≡ Some s) × ((around : Around) →
        runs table.now bytes.now (Want ty around) at ≡ runs table.now bytes.now (named r.0 s.fields around) r.1))
        (λ k. (around : Around) → runs table.now bytes.now (Want ty around) at ≡ Stopped k) }
{
    let start = skip_blanks(bytes, at);
    let end = name_end(bytes, start);
    let name = &bytes[start..end];
    match table.find(ty, name) {
        Some(c) => Ok((c as usize, end)),
        None => Err(start + longest_front(table.constructors_of(ty), name)),
    }
}
