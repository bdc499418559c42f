//! Tokens.

use crate::Sign;
use fip_language::{Operator, Place};

/// What a token is. A name and a literal are a piece of the source.
#[derive(Clone, Copy, PartialEq, Eq)]
pub enum Word<'a> {
    Lower(&'a [u8]),
    Upper(&'a [u8]),
    Int(&'a [u8]),
    Operator(Operator),
    Sign(Sign),
}

/// A token, and the place of its first byte.
#[derive(Clone, Copy, PartialEq, Eq)]
pub struct Token<'a> {
    pub word: Word<'a>,
    pub place: Place,
}

/// The tokens of a source in order, and the place of its end.
#[derive(Drop)]
pub struct Tokens<'a> {
    pub tokens: Vec<Token<'a>>,
    pub end: Place,
}
