//! Cutting a source into tokens.

ghost use Rattle.std.specs.Prelude.{false, ◌≡◌, ℕ, ◌+◌, ◌^◌, ◌<◌, ◌≤◌, length, IfSome, IfOk, IfErr, MatchOption};
ghost use Rattle.std.specs.Prelude.{MatchResult, map, Option, Some, option_map, List, [], ◌∷◌, take, codes};
ghost use Rattle.std.specs.List.{prefix_len};
ghost use Rattle.std.specs.Str.{bytes_eq};
ghost use Rattle.fip_language.specs.declared.Place.{Place};
ghost use Rattle.fip_grammar.specs.Token as Pure;
ghost use Rattle.fip_grammar.specs.Token.{Number, Upper, Mark};
ghost use Rattle.fip_grammar.specs.Cut as C;
ghost use Rattle.fip_grammar.specs.WordView as V;
ghost use Rattle.fip_grammar.specs.Claims.{IsFrontOf, IsFirstOf, double_start, firsts, Bad};

use crate::Sign;
use crate::token::{Token, Tokens, Word};
use fip_language::characters::{is_digit, is_lower, is_upper};
use fip_language::{Operator, Place};
use std::alloc::{AllocError, AllocFailed, Global};

/// Why a source isn't cut.
#[derive(Drop)]
pub enum LexError {
    /// Out of memory.
    Memory,
    /// A byte begins no token (E01).
    BadByte { place: Place },
}

impl From<AllocError> for LexError {
    ghost use Rattle.fip_grammar.specs.declared.lexer.LexError.TheVariants.{Memory};

    ghost from_gives = { λ _ e. e ≡ Memory };

    fn from(_: AllocError) -> LexError {
        LexError::Memory
    }
}

impl<T: Drop> From<AllocFailed<T>> for LexError {
    ghost use Rattle.fip_grammar.specs.declared.lexer.LexError.TheVariants.{Memory};

    ghost from_gives = { λ _ e. e ≡ Memory };

    fn from(_: AllocFailed<T>) -> LexError {
        LexError::Memory
    }
}

fn is_name(byte: u8) -> bool
    ensures { result ≡ C.is_name byte }
{
    is_lower(byte) || is_upper(byte) || is_digit(byte) || byte == b'_'
}

fn is_blank(byte: u8) -> bool
    ensures { result ≡ C.is_blank byte }
{
    byte == b' ' || byte == b'\t' || byte == b'\n' || byte == b'\r'
}

// How many bytes of a name are at the start.
fn name_length(text: &[u8]) -> usize
    ensures exact { result ≡ prefix_len C.is_name text.now }
    ensures most { result ≤ length text.now }
{
    for (at, byte) in text.iter().enumerate() {
        if !is_name(*byte) {
            return at;
        }
    }
    text.len()
}

// How many digits are at the start.
fn digits_length(text: &[u8]) -> usize
    ensures exact { result ≡ prefix_len C.is_digit text.now }
    ensures most { result ≤ length text.now }
{
    for (at, byte) in text.iter().enumerate() {
        if !is_digit(*byte) {
            return at;
        }
    }
    text.len()
}

fn is_no_lf(byte: u8) -> bool
    ensures { result ≡ C.is_no_lf byte }
{
    byte != b'\n'
}

// How many bytes are before the first LF, or in all.
fn line_length(text: &[u8]) -> usize
    ensures exact { result ≡ prefix_len C.is_no_lf text.now }
    ensures most { result ≤ length text.now }
{
    for (at, byte) in text.iter().enumerate() {
        if !is_no_lf(*byte) {
            return at;
        }
    }
    text.len()
}

fn is(text: &[u8], other: &[u8]) -> bool
    ensures { result ≡ bytes_eq text.now other.now }
{
    text == other
}

fn keyword_or_name<'a>(text: &'a [u8]) -> Word<'a>
    ensures { V.word result ≡ C.keyword_or_name text.now }
{
    if is(text, b"data") {
        Word::Sign(Sign::Data)
    } else if is(text, b"fip") {
        Word::Sign(Sign::Fip)
    } else if is(text, b"fbip") {
        Word::Sign(Sign::Fbip)
    } else if is(text, b"fun") {
        Word::Sign(Sign::Fun)
    } else if is(text, b"match") {
        Word::Sign(Sign::Match)
    } else if is(text, b"let") {
        Word::Sign(Sign::Let)
    } else if is(text, b"if") {
        Word::Sign(Sign::If)
    } else if is(text, b"else") {
        Word::Sign(Sign::Else)
    } else if is(text, b"int") {
        Word::Sign(Sign::Int)
    } else {
        Word::Lower(text)
    }
}

// A sign of two bytes.
fn double_sign(first: u8, second: u8) -> Option<Word<'static>>
    ensures { option_map V.word result ≡ C.double_sign first second }
{
    if first == b'-' && second == b'>' {
        Some(Word::Sign(Sign::Arrow))
    } else if first == b'=' && second == b'=' {
        Some(Word::Operator(Operator::Equal))
    } else if first == b'!' && second == b'=' {
        Some(Word::Operator(Operator::NotEqual))
    } else if first == b'<' && second == b'=' {
        Some(Word::Operator(Operator::LessOrEqual))
    } else if first == b'>' && second == b'=' {
        Some(Word::Operator(Operator::GreaterOrEqual))
    } else {
        None
    }
}

// A sign of one byte.
fn single_sign(byte: u8) -> Option<Word<'static>>
    ensures { option_map V.word result ≡ C.single_sign byte }
{
    match byte {
        b'_' => Some(Word::Sign(Sign::Underscore)),
        b'(' => Some(Word::Sign(Sign::RoundOpen)),
        b')' => Some(Word::Sign(Sign::RoundClose)),
        b'[' => Some(Word::Sign(Sign::SquareOpen)),
        b']' => Some(Word::Sign(Sign::SquareClose)),
        b'{' => Some(Word::Sign(Sign::CurlyOpen)),
        b'}' => Some(Word::Sign(Sign::CurlyClose)),
        b',' => Some(Word::Sign(Sign::Comma)),
        b';' => Some(Word::Sign(Sign::Semicolon)),
        b':' => Some(Word::Sign(Sign::Colon)),
        b'^' => Some(Word::Sign(Sign::Caret)),
        b'=' => Some(Word::Sign(Sign::Equals)),
        b'+' => Some(Word::Operator(Operator::Add)),
        b'-' => Some(Word::Operator(Operator::Subtract)),
        b'*' => Some(Word::Operator(Operator::Multiply)),
        b'/' => Some(Word::Operator(Operator::Divide)),
        b'%' => Some(Word::Operator(Operator::Remainder)),
        b'<' => Some(Word::Operator(Operator::Less)),
        b'>' => Some(Word::Operator(Operator::Greater)),
        _ => None,
    }
}

// The first byte of a text, and those after it.
fn split<'a>(text: &'a [u8]) -> Option<(u8, &'a [u8])>
    ensures { MatchOption result (text.now ≡ []) (λ r. text.now ≡ r.0 ∷ r.1.now) }
{
    match text.split_first() {
        Some((first, rest)) => Some((*first, rest)),
        None => None,
    }
}

// A sign of two bytes that begins a text.
fn double_start(first: u8, rest: &[u8]) -> Option<Word<'static>>
    ensures { option_map V.word result ≡ double_start first rest.now }
{
    match split(rest) {
        Some((second, _more)) => double_sign(first, second),
        None => None,
    }
}

// The sign that begins a text, and how many bytes it has.
fn first_sign(first: u8, rest: &[u8]) -> Option<(Word<'static>, usize)>
    requires lower { C.is_lower first ≡ false }
    requires upper { C.is_upper first ≡ false }
    requires digit { C.is_digit first ≡ false }
    ensures { IsFirstOf (first ∷ rest.now) (option_map firsts result) }
{
    match double_start(first, rest) {
        Some(word) => Some((word, 2)),
        None => match single_sign(first) {
            Some(word) => Some((word, 1)),
            None => None,
        },
    }
}

fn begins_match_bang(text: &[u8]) -> bool
    ensures { result ≡ bytes_eq (take 6 text.now) (codes "match!") }
{
    text.len() >= 6 && is(&text[..6], b"match!")
}

// The token at the start of a text, and how many bytes it has.
fn first_word<'a>(text: &'a [u8], first: u8, rest: &[u8]) -> Option<(Word<'a>, usize)>
    requires { text.now ≡ first ∷ rest.now }
    ensures { IsFirstOf text.now (option_map firsts result) }
{
    if begins_match_bang(text) {
        return Some((Word::Sign(Sign::MatchBang), 6));
    }
    if is_lower(first) {
        let count = name_length(rest) + 1;
        return Some((keyword_or_name(&text[..count]), count));
    }
    if is_upper(first) {
        let count = name_length(rest) + 1;
        return Some((Word::Upper(&text[..count]), count));
    }
    if is_digit(first) {
        let count = digits_length(rest) + 1;
        return Some((Word::Int(&text[..count]), count));
    }
    first_sign(first, rest)
}

// What is after the two slashes of a comment.
fn comment_rest<'a>(first: u8, rest: &'a [u8]) -> Option<&'a [u8]>
    ensures { MatchOption result (C.is_comment (first ∷ rest.now) ≡ false) (λ r. first ∷ rest.now ≡ 47 ∷ 47 ∷ r.now) }
{
    match split(rest) {
        Some((second, more)) => {
            if first == b'/' && second == b'/' {
                Some(more)
            } else {
                None
            }
        }
        None => None,
    }
}

/// What is at the start of a text.
#[derive(Clone, Copy)]
enum Front<'a> {
    /// A blank or a comment, and the place after it.
    Gap { next: Place },
    /// A token, and the place after it.
    Token { word: Word<'a>, next: Place },
    /// Neither.
    Nothing,
}

// The place so many bytes on in the same line.
fn along(place: Place, count: usize) -> Place
    requires line { place.col + count < 2 ^ 64 }
    requires text { place.at + count < 2 ^ 64 }
    ensures { result ≡ C.along place count }
{
    Place {
        line: place.line,
        col: place.col + count,
        at: place.at + count,
    }
}

// What is at the start of a text at this place.
fn first_piece<'a>(text: &'a [u8], place: Place) -> Front<'a>
    requires line { place.line + length text.now < 2 ^ 64 }
    requires col { place.col + length text.now < 2 ^ 64 }
    requires text { place.at + length text.now < 2 ^ 64 }
    ensures { IsFrontOf text.now place result }
{
    match split(text) {
        None => Front::Nothing,
        Some((first, rest)) => {
            if first == b'\n' {
                return Front::Gap {
                    next: Place {
                        line: place.line + 1,
                        col: 1,
                        at: place.at + 1,
                    },
                };
            }
            if is_blank(first) {
                return Front::Gap {
                    next: along(place, 1),
                };
            }
            match comment_rest(first, rest) {
                Some(more) => Front::Gap {
                    next: along(place, line_length(more) + 2),
                },
                None => match first_word(text, first, rest) {
                    None => Front::Nothing,
                    Some((word, count)) => Front::Token {
                        word,
                        next: along(place, count),
                    },
                },
            }
        }
    }
}

/// The tokens of a source. A byte that is no blank, is in no comment and begins no token is refused (E01).
pub fn lex<'a>(alloc: Global, source: &'a [u8]) -> Result<Tokens<'a>, LexError>
    // The source is cut into these tokens, and ends at this place.
    ensures found { IfOk result (λ t. C.IsCut source.now (V.tokens t.tokens.items) t.end) }
    // Else, unless memory ran out, its first byte that begins nothing is at the place of the error.
    ensures bad { IfErr result (λ e. Bad source.now e) }
    // A source that can be cut is cut so, unless memory runs out.
    ensures only { (ts : List Pure.Token) (end : Place) → C.IsCut source.now ts end →
        MatchResult result (λ t. (V.tokens t.tokens.items ≡ ts) × (t.end ≡ end)) (λ e. e ≡ LexError.Memory) }
{
    let mut tokens = Vec::new(alloc);
    let mut place = Place {
        line: 1,
        col: 1,
        at: 0,
    };
    while place.at < source.len() {
        match first_piece(&source[place.at..], place) {
            Front::Nothing => return Err(LexError::BadByte { place }),
            Front::Gap { next } => place = next,
            Front::Token { word, next } => {
                tokens.push(Token { word, place })?;
                place = next;
            }
        }
    }
    Ok(Tokens { tokens, end: place })
}
