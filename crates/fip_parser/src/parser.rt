//! From a source to a program.

ghost use Rattle.std.specs.Prelude.{◌≡◌, ℕ, ◌≤◌, true, false, Err, IfOk, IfErr, MatchResult};
ghost use Rattle.fip_language.specs.declared.limits.TheConstants.{MOST_BRACKETS};
ghost use Rattle.fip_language.specs.declared.Place.{Place};
ghost use Rattle.fip_language.specs.declared.rule.Rule.{Rule};
ghost use Rattle.fip_language.specs.Surface as Surface;
ghost use Rattle.fip_base.specs.SurfaceView as surface;
ghost use Rattle.fip_base.specs.declared.refusal.Refusal.{Refusal};
ghost use Rattle.fip_grammar.specs.WordView as tokens_view;
ghost use Rattle.fip_grammar.specs.Limits as limits;
ghost use Rattle.fip_grammar.specs.Limits.{IsSpelt, IsMisspelt};
ghost use Rattle.fip_grammar.specs.Machine as machine;
ghost use Rattle.parser_state.specs.StateView as view;
ghost use Rattle.parser_state.specs.declared.state.State.TheVariants.{Top};
ghost use Rattle.parser_state.specs.StateView.{IsAbove};
ghost use Rattle.fip_parser.specs.Parsed.{seen_of, machine_of, Takes, Stops, IsWithin, refusal_of};
ghost use Rattle.fip_parser.specs.Parsed.{fault_rule, reading_of, Goes, Fails, IsSpeltBy, IsMisspeltBy, IsRefused};

use crate::step::step;
use fip_base::plain::Detail;
use fip_base::refusal::{Refusal, Rule};
use fip_base::surface::{Declaration, Program};
use fip_grammar::Sign;
use fip_grammar::lexer::{LexError, lex};
use fip_grammar::token::{Token, Tokens, Word};
use fip_language::limits::MOST_BRACKETS;
use fip_language::{Operator, Place};
use parser_state::literal::magnitude;
use parser_state::state::{Next, State};
use std::alloc::{AllocError, Global};

/// Why a source isn't parsed.
#[derive(Drop)]
pub enum ParseError {
    /// Out of memory.
    NoMemory,
    /// A rule from E01 to E04 is broken at a place.
    Refused(Refusal),
}

// A rule that a token breaks although it fits.
#[derive(Clone, Copy, PartialEq, Eq)]
enum Fault {
    TooDeep,
    TooLarge,
}

// The tokens before a token, as far as brackets and literals go.
#[derive(Clone, Copy)]
struct Before {
    // How many brackets are open.
    brackets: usize,
    // Whether the last token can end an operand: a literal, a name, `)` or `}`.
    ends_operand: bool,
    // Whether the last token is a `-` that isn't binary.
    is_sign: bool,
}

// The declarations that ended, the state, and what the tokens so far are like.
#[derive(Drop)]
struct Reading {
    declarations: Vec<Declaration>,
    state: State,
    before: Before,
}

// What a token does to the declarations and the state.
#[derive(Drop)]
enum Taken {
    Refused,
    TooLarge,
    Goes {
        declarations: Vec<Declaration>,
        state: State,
    },
}

fn opens(word: Word) -> bool
    ensures { result ≡ limits.is_opening (tokens_view.word word.entry) }
{
    matches!(
        word,
        Word::Sign(Sign::RoundOpen | Sign::SquareOpen | Sign::CurlyOpen)
    )
}

fn closes(word: Word) -> bool
    ensures { result ≡ limits.is_closing (tokens_view.word word.entry) }
{
    matches!(
        word,
        Word::Sign(Sign::RoundClose | Sign::SquareClose | Sign::CurlyClose)
    )
}

fn ends_operand(word: Word) -> bool
    ensures { result ≡ limits.ends_operand (tokens_view.word word.entry) }
{
    matches!(
        word,
        Word::Int(_)
            | Word::Lower(_)
            | Word::Upper(_)
            | Word::Sign(Sign::RoundClose | Sign::CurlyClose)
    )
}

fn is_minus(word: Word) -> bool
    ensures { result ≡ limits.is_minus (tokens_view.word word.entry) }
{
    matches!(word, Word::Operator(Operator::Subtract))
}

fn is_too_large(is_sign: bool, word: Word) -> bool
    ensures over { result ≡ true → IsAbove is_sign (tokens_view.word word.entry) }
    ensures within { result ≡ false → IsAbove is_sign (tokens_view.word word.entry) → ⊥ }
{
    match word {
        Word::Int(digits) => match magnitude(digits) {
            None => true,
            Some(value) => !is_sign && value == 1 << 63,
        },
        _ => false,
    }
}

// How many brackets are open after this token.
fn open_after(count: usize, word: Word) -> Result<usize, Fault>
    ensures count { IfOk result (λ n. n ≡ limits.open_after count (tokens_view.word word.entry)) }
    ensures within { IfOk result (λ n. limits.is_opening (tokens_view.word word.entry) ≡ true →
        MOST_BRACKETS ≤ count → ⊥) }
    ensures deep { IfErr result (λ f. (fault_rule f ≡ Rule.E03)
        × (limits.is_opening (tokens_view.word word.entry) ≡ true) × (MOST_BRACKETS ≤ count)) }
{
    if opens(word) {
        if count >= MOST_BRACKETS {
            return Err(Fault::TooDeep);
        }
        return Ok(count + 1);
    }
    if closes(word) && count > 0 {
        return Ok(count - 1);
    }
    Ok(count)
}

// What the tokens up to and with this one are like, or the rule that it breaks although it fits.
fn following(before: Before, word: Word) -> Result<Before, Fault>
    ensures next { IfOk result (λ b. seen_of b ≡ limits.following (seen_of before) (tokens_view.word word.entry)) }
    ensures within { IfOk result (λ b. IsWithin (seen_of before) (tokens_view.word word.entry)) }
    ensures stops { IfErr result (λ f. Stops (seen_of before) (tokens_view.word word.entry) (fault_rule f)) }
{
    let brackets = open_after(before.brackets, word)?;
    if is_too_large(before.is_sign, word) {
        return Err(Fault::TooLarge);
    }
    let is_sign = is_minus(word) && !before.ends_operand;
    Ok(Before {
        brackets,
        ends_operand: ends_operand(word),
        is_sign,
    })
}

// The declarations and the state after a token.
fn take(
    alloc: Global,
    declarations: Vec<Declaration>,
    state: State,
    token: Token,
) -> Result<Taken, AllocError>
    requires well { view.IsWell state }
    ensures takes { IfOk result (λ k. Takes (view.negated state) (tokens_view.token token.entry) k
        (machine.machine_step (machine_of declarations.items state) (tokens_view.token token.entry))) }
{
    match step(alloc, state, token)? {
        Next::Refused => Ok(Taken::Refused),
        Next::TooLarge => Ok(Taken::TooLarge),
        Next::Stays { state } => Ok(Taken::Goes {
            declarations,
            state,
        }),
        Next::Declares { declaration } => {
            let mut declarations = declarations;
            declarations.push(declaration)?;
            Ok(Taken::Goes {
                declarations,
                state: State::Top,
            })
        }
    }
}

// The refusal by this rule at this place.
fn refused(alloc: Global, rule: Rule, place: Place) -> ParseError
    ensures { result ≡ ParseError.Refused (refusal_of rule place) }
{
    ParseError::Refused(Refusal {
        rule,
        place: Some(place),
        size: 0,
        detail: Detail::new(Vec::new(alloc)),
    })
}

// The reading after a token.
fn advance(alloc: Global, reading: Reading, token: Token) -> Result<Reading, ParseError>
    requires well { view.IsWell reading.state }
    ensures goes { IfOk result (λ r. Goes (reading_of reading) (reading_of r) (tokens_view.token token.entry)) }
    ensures well { IfOk result (λ r. view.IsWell r.state) }
    ensures fails { IfErr result (λ e. Fails (view.negated reading.state) (reading_of reading)
        (tokens_view.token token.entry) e) }
{
    let Reading {
        declarations,
        state,
        before,
    } = reading;
    match take(alloc, declarations, state, token) {
        Err(_) => Err(ParseError::NoMemory),
        Ok(Taken::Refused) => Err(refused(alloc, Rule::E02, token.place)),
        Ok(Taken::TooLarge) => Err(refused(alloc, Rule::E04, token.place)),
        Ok(
            Taken::Goes {
                declarations,
                state,
            },
        ) => match following(before, token.word) {
            Ok(before) => Ok(Reading {
                declarations,
                state,
                before,
            }),
            Err(Fault::TooDeep) => Err(refused(alloc, Rule::E03, token.place)),
            Err(Fault::TooLarge) => Err(refused(alloc, Rule::E04, token.place)),
        },
    }
}

// The program that the tokens spell.
fn parse_tokens(alloc: Global, tokens: &Tokens) -> Result<Program, ParseError>
    ensures spelt { IfOk result (λ p. IsSpeltBy (tokens_view.tokens tokens.now.tokens.items) (surface.program p)) }
    ensures misspelt { IfErr result (λ e. IsMisspeltBy (tokens_view.tokens tokens.now.tokens.items) tokens.now.end e) }
{
    let mut reading = Reading {
        declarations: Vec::new(alloc),
        state: State::Top,
        before: Before {
            brackets: 0,
            ends_operand: false,
            is_sign: false,
        },
    };
    for token in tokens.tokens.as_slice() {
        match advance(alloc, reading, *token) {
            Ok(next) => reading = next,
            Err(error) => return Err(error),
        }
    }
    let Reading {
        declarations,
        state,
        before: _,
    } = reading;
    let is_ended = is_top(&state);
    drop(state);
    if is_ended {
        return Ok(Program { declarations });
    }
    Err(refused(alloc, Rule::E02, tokens.end))
}

// Whether no declaration is open.
fn is_top(state: &State) -> bool
    ensures top { result ≡ true → state.now ≡ Top }
    ensures open { result ≡ false → state.now ≡ Top → ⊥ }
{
    matches!(state, State::Top)
}

// The program of a source.
fn parse_source(alloc: Global, source: &[u8]) -> Result<Program, ParseError>
    ensures spelt { IfOk result (λ p. IsSpelt source.now (surface.program p)) }
    ensures misspelt { IfErr result (λ e. IsRefused source.now e) }
{
    match lex(alloc, source) {
        Err(LexError::Memory) => Err(ParseError::NoMemory),
        Err(LexError::BadByte { place }) => Err(refused(alloc, Rule::E01, place)),
        Ok(tokens) => parse_tokens(alloc, &tokens),
    }
}

/// The program of a source. Where it breaks a rule from E01 to E04, the one that is named, at its place.
pub fn parse(alloc: Global, source: &[u8]) -> Result<Program, ParseError>
    ensures spelt { IfOk result (λ p. IsSpelt source.now (surface.program p)) }
    ensures misspelt { (r : Refusal) → result ≡ Err (ParseError.Refused r) → (rule : Rule) × (place : Place)
        × IsMisspelt source.now rule place × (r ≡ refusal_of rule place) }
    ensures only { (p : Surface.Program) → IsSpelt source.now p →
        MatchResult result (λ q. surface.program q ≡ p) (λ e. e ≡ ParseError.NoMemory) }
{
    parse_source(alloc, source)
}
