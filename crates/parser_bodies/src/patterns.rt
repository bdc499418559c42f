//! The patterns of clauses.

ghost use Rattle.std.specs.Prelude.{false, true, [], ◌∷◌};
ghost use Rattle.fip_base.specs.SurfaceView.{pattern as pattern_view};
ghost use Rattle.fip_grammar.specs.Machine as machine;
ghost use Rattle.parser_state.specs.StateView as view;
ghost use Rattle.parser_state.specs.StateView.{Leads, Follows};

use fip_base::plain::Name;
use fip_base::surface::Pattern;
use fip_grammar::Sign;
use fip_grammar::token::{Token, Word};
use fip_language::{Operator, Place};
use parser_state::literal::{literal, negated_literal};
use parser_state::moves::{enter, name_of, refused, stays_in_body, stays_in_pattern};
use parser_state::state::{Body, BodyPosition, Next, OpenMatch, OpenPattern, PatternPosition, Use};
use std::alloc::{AllocError, Global};

// After a pattern.
fn pattern_read(
    pattern: Pattern,
    open: Vec<OpenPattern>,
    body: Body,
    clauses: OpenMatch,
) -> Result<Next, AllocError>
    requires well { view.IsWellUnder body }
    ensures next { Leads result (machine.in_pattern (machine.PatternDone (pattern_view pattern))
        (view.open_patterns «open».items) (view.under_operand body) (view.open_match clauses (view.operand body))) }
{
    stays_in_pattern(PatternPosition::Done { pattern }, open, body, clauses)
}

/// A token in a pattern.
pub fn step_pattern(
    alloc: Global,
    position: PatternPosition,
    open: Vec<OpenPattern>,
    body: Body,
    clauses: OpenMatch,
    token: Token,
) -> Result<Next, AllocError>
    requires well { view.IsWellUnder body }
    ensures next { Follows (view.is_negated_pattern position) token.entry result
        (machine.step_pattern (view.pattern_position position) (view.open_patterns «open».items)
        (view.under_operand body) (view.open_match clauses (view.operand body))) }
{
    match position {
        PatternPosition::Wanted => pattern_wanted(alloc, open, body, clauses, token),
        PatternPosition::Minus { place } => pattern_minus(place, open, body, clauses, token),
        PatternPosition::Named { name, place } => pattern_named(
            alloc, name, place, open, body, clauses, token,
        ),
        PatternPosition::Done { pattern } => pattern_done(
            alloc, pattern, open, body, clauses, token,
        ),
    }
}

/// The first token of a pattern.
pub fn pattern_wanted(
    alloc: Global,
    open: Vec<OpenPattern>,
    body: Body,
    clauses: OpenMatch,
    token: Token,
) -> Result<Next, AllocError>
    requires well { view.IsWellUnder body }
    ensures next { Follows false token.entry result (machine.pattern_wanted (view.open_patterns «open».items)
        (view.under_operand body) (view.open_match clauses (view.operand body))) }
{
    let place = token.place;
    match token.word {
        Word::Sign(Sign::Underscore) => {
            pattern_read(Pattern::Wildcard { place }, open, body, clauses)
        }
        Word::Lower(text) => {
            let name = name_of(alloc, text)?;
            pattern_read(Pattern::Variable { name, place }, open, body, clauses)
        }
        Word::Upper(text) => {
            let name = name_of(alloc, text)?;
            stays_in_pattern(PatternPosition::Named { name, place }, open, body, clauses)
        }
        Word::Operator(Operator::Subtract) => {
            stays_in_pattern(PatternPosition::Minus { place }, open, body, clauses)
        }
        Word::Int(digits) => match literal(digits) {
            Some(value) => pattern_read(Pattern::Literal { value, place }, open, body, clauses),
            None => Ok(Next::TooLarge),
        },
        _ => refused(body),
    }
}

fn pattern_minus(
    place: Place,
    open: Vec<OpenPattern>,
    body: Body,
    clauses: OpenMatch,
    token: Token,
) -> Result<Next, AllocError>
    requires well { view.IsWellUnder body }
    ensures next { Follows true token.entry result (machine.step_pattern (machine.PatternMinus place)
        (view.open_patterns «open».items) (view.under_operand body) (view.open_match clauses (view.operand body))) }
{
    match token.word {
        Word::Int(digits) => match negated_literal(digits) {
            Some(value) => pattern_read(Pattern::Literal { value, place }, open, body, clauses),
            None => Ok(Next::TooLarge),
        },
        _ => refused(body),
    }
}

fn pattern_named(
    alloc: Global,
    name: Name,
    place: Place,
    open: Vec<OpenPattern>,
    body: Body,
    clauses: OpenMatch,
    token: Token,
) -> Result<Next, AllocError>
    requires well { view.IsWellUnder body }
    ensures next { Follows false token.entry result (machine.step_pattern (machine.PatternNamed name place)
        (view.open_patterns «open».items) (view.under_operand body) (view.open_match clauses (view.operand body))) }
{
    match token.word {
        Word::Sign(Sign::RoundOpen) => {
            let mut open = open;
            open.push(OpenPattern {
                name,
                place,
                done: Vec::new(alloc),
            })?;
            stays_in_pattern(PatternPosition::Wanted, open, body, clauses)
        }
        _ => pattern_done(
            alloc,
            Pattern::Constructor {
                name,
                place,
                patterns: Vec::new(alloc),
            },
            open,
            body,
            clauses,
            token,
        ),
    }
}

fn pattern_done(
    alloc: Global,
    pattern: Pattern,
    open: Vec<OpenPattern>,
    body: Body,
    clauses: OpenMatch,
    token: Token,
) -> Result<Next, AllocError>
    requires well { view.IsWellUnder body }
    ensures next { Follows false token.entry result (λ w p. machine.pattern_done (pattern_view pattern)
        (view.open_patterns «open».items) (view.under_operand body) (view.open_match clauses (view.operand body)) w) }
{
    let mut open = open;
    match open.pop() {
        None => after_pattern(alloc, pattern, body, clauses, token),
        Some(around) => pattern_part(around, pattern, open, body, clauses, token),
    }
}

fn pattern_part(
    around: OpenPattern,
    pattern: Pattern,
    open: Vec<OpenPattern>,
    body: Body,
    clauses: OpenMatch,
    token: Token,
) -> Result<Next, AllocError>
    requires well { view.IsWellUnder body }
    ensures next { Follows false token.entry result (λ w p. machine.pattern_done (pattern_view pattern)
        (view.open_pattern around ∷ (view.open_patterns «open».items)) (view.under_operand body)
        (view.open_match clauses (view.operand body)) w) }
{
    let mut open = open;
    let OpenPattern { name, place, done } = around;
    let mut done = done;
    done.push(pattern)?;
    match token.word {
        Word::Sign(Sign::Comma) => {
            open.push(OpenPattern { name, place, done })?;
            stays_in_pattern(PatternPosition::Wanted, open, body, clauses)
        }
        Word::Sign(Sign::RoundClose) => pattern_read(
            Pattern::Constructor {
                name,
                place,
                patterns: done,
            },
            open,
            body,
            clauses,
        ),
        _ => refused(body),
    }
}

// After a clause's pattern.
fn after_pattern(
    alloc: Global,
    pattern: Pattern,
    body: Body,
    clauses: OpenMatch,
    token: Token,
) -> Result<Next, AllocError>
    requires well { view.IsWellUnder body }
    ensures next { Follows false token.entry result (λ w p. machine.pattern_done (pattern_view pattern) []
        (view.under_operand body) (view.open_match clauses (view.operand body)) w) }
{
    match token.word {
        Word::Sign(Sign::Arrow) => stays_in_body(
            BodyPosition::Block,
            enter(
                alloc,
                body,
                Use::Clause {
                    open: clauses,
                    pattern,
                },
            )?,
        ),
        _ => refused(body),
    }
}
