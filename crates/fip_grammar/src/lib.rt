// The tokens of the language and their grammar. Both are defined in specs/.
#![tactic(auto)]

pub mod lexer;
pub mod token;

/// A keyword or a sign that is no operator.
#[derive(Clone, Copy, PartialEq, Eq)]
pub enum Sign {
    Data,
    Fip,
    Fbip,
    Fun,
    Match,
    MatchBang,
    Let,
    If,
    Else,
    Int,
    Underscore,
    RoundOpen,
    RoundClose,
    SquareOpen,
    SquareClose,
    CurlyOpen,
    CurlyClose,
    Comma,
    Semicolon,
    Colon,
    Caret,
    Equals,
    Arrow,
}
