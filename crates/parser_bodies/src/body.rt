//! A function's body, a place at a time: blocks, lets and the first tokens of operands.

ghost use Rattle.std.specs.Prelude.{false, true, map};
ghost use Rattle.fip_base.specs.CoreView.{written};
ghost use Rattle.fip_base.specs.SurfaceView.{bind as bind_view, block as block_view};
ghost use Rattle.fip_grammar.specs.Token as Pure;
ghost use Rattle.fip_grammar.specs.Machine as machine;
ghost use Rattle.parser_state.specs.StateView as view;
ghost use Rattle.parser_state.specs.StateView.{Leads, Follows};

use crate::patterns::pattern_wanted;
use fip_base::plain::Name;
use fip_base::surface::{Bind, Block, Step, Written};
use fip_grammar::Sign;
use fip_grammar::token::{Token, Word};
use fip_language::{Operator, Place};
use parser_state::literal::{literal, negated_literal};
use parser_state::moves::{
    close_match, enter, name_of, none_waits, operand, refused, start_expression, stays_in_body,
    wants_type,
};
use parser_state::state::{Binds, Body, BodyPosition, Next, OpenMatch, Opener, TypeUse, Use};
use std::alloc::{AllocError, Global};

/// A let or an expression.
pub fn block_start(alloc: Global, body: Body, token: Token) -> Result<Next, AllocError>
    requires well { view.IsWellBody body }
    ensures next { Follows false token.entry result (machine.step_body machine.AtBlock (view.body body)) }
{
    match token.word {
        Word::Sign(Sign::Let) => stays_in_body(BodyPosition::LetStart, body),
        _ => operand_start(alloc, start_expression(alloc, body, None), token),
    }
}

/// After `let`.
pub fn let_start(alloc: Global, body: Body, token: Token) -> Result<Next, AllocError>
    requires well { view.IsWellBody body }
    ensures next { Follows false token.entry result (machine.step_body machine.LetStart (view.body body)) }
{
    match token.word {
        Word::Sign(Sign::RoundOpen) => stays_in_body(
            BodyPosition::BindStart {
                done: Vec::new(alloc),
            },
            body,
        ),
        _ => bind_start(alloc, Binds::Alone, body, token),
    }
}

/// A bind in a let.
pub fn bind_start(alloc: Global, binds: Binds, body: Body, token: Token) -> Result<Next, AllocError>
    requires well { view.IsWellBody body }
    ensures next { Follows false token.entry result (machine.bind_start (view.binds binds) (view.body body)) }
{
    let place = token.place;
    match token.word {
        Word::Lower(text) => stays_in_body(
            BodyPosition::BindNamed {
                binds,
                name: name_of(alloc, text)?,
                place,
            },
            body,
        ),
        Word::Sign(Sign::Underscore) => stays_in_body(
            BodyPosition::BindNamed {
                binds,
                name: name_of(alloc, b"_")?,
                place,
            },
            body,
        ),
        _ => refused(body),
    }
}

/// After a bind's name.
pub fn bind_named(
    alloc: Global,
    binds: Binds,
    name: Name,
    place: Place,
    body: Body,
    token: Token,
) -> Result<Next, AllocError>
    requires well { view.IsWellBody body }
    ensures next { Follows false token.entry result (machine.step_body
        (machine.BindNamed (view.binds binds) name place) (view.body body)) }
{
    match token.word {
        Word::Sign(Sign::Colon) => wants_type(
            alloc,
            TypeUse::Annotation {
                body,
                binds,
                name,
                place,
            },
        ),
        _ => end_bind(
            alloc,
            body,
            binds,
            Bind {
                name,
                place,
                annotation: None,
            },
            token,
        ),
    }
}

/// After a bind.
pub fn end_bind(
    alloc: Global,
    body: Body,
    binds: Binds,
    bind: Bind,
    token: Token,
) -> Result<Next, AllocError>
    requires well { view.IsWellBody body }
    ensures next { Follows false token.entry result (λ w p. machine.end_bind (view.body body) (view.binds binds)
        (bind_view bind) w) }
{
    match binds {
        Binds::Alone => {
            let mut binds = Vec::new(alloc);
            binds.push(bind)?;
            let_equals(alloc, binds, body, token)
        }
        Binds::Bracketed { done } => end_bracketed_bind(body, done, bind, token),
    }
}

fn end_bracketed_bind(
    body: Body,
    done: Vec<Bind>,
    bind: Bind,
    token: Token,
) -> Result<Next, AllocError>
    requires well { view.IsWellBody body }
    ensures next { Follows false token.entry result (λ w p. machine.end_bind (view.body body)
        (machine.Bracketed (map bind_view done.items)) (bind_view bind) w) }
{
    let is_first = done.is_empty();
    let mut done = done;
    done.push(bind)?;
    match token.word {
        Word::Sign(Sign::Comma) => stays_in_body(BodyPosition::BindStart { done }, body),
        Word::Sign(Sign::RoundClose) => {
            if is_first {
                return Ok(Next::Refused);
            }
            stays_in_body(BodyPosition::LetEquals { binds: done }, body)
        }
        _ => refused(body),
    }
}

/// After the binds of a let.
pub fn let_equals(
    alloc: Global,
    binds: Vec<Bind>,
    body: Body,
    token: Token,
) -> Result<Next, AllocError>
    requires well { view.IsWellBody body }
    ensures next { Follows false token.entry result (λ w p. machine.let_equals (map bind_view binds.items)
        (view.body body) w) }
{
    match token.word {
        Word::Sign(Sign::Equals) => {
            stays_in_body(
                BodyPosition::Operand,
                start_expression(alloc, body, Some(binds)),
            )
        }
        _ => refused(body),
    }
}

/// The first token of an operand.
pub fn operand_start(alloc: Global, body: Body, token: Token) -> Result<Next, AllocError>
    requires well { view.IsWellBody body }
    ensures next { Follows false token.entry result (machine.operand_start (view.body body)) }
{
    let place = token.place;
    match token.word {
        Word::Lower(text) => stays_in_body(
            BodyPosition::LowerName {
                name: name_of(alloc, text)?,
                place,
            },
            body,
        ),
        Word::Upper(text) => stays_in_body(
            BodyPosition::UpperName {
                name: name_of(alloc, text)?,
                place,
            },
            body,
        ),
        Word::Int(digits) => match literal(digits) {
            Some(value) => operand(Step::Literal { value, place }, body),
            None => Ok(Next::TooLarge),
        },
        Word::Operator(Operator::Subtract) => stays_in_body(BodyPosition::Minus { place }, body),
        Word::Operator(_) => Ok(Next::Refused),
        Word::Sign(sign) => operand_sign(sign, place, body),
    }
}

fn operand_sign(sign: Sign, place: Place, body: Body) -> Result<Next, AllocError>
    requires well { view.IsWellBody body }
    ensures next { Leads result (machine.operand_start (view.body body) (Pure.Mark sign) place) }
{
    match sign {
        Sign::RoundOpen => stays_in_body(BodyPosition::Parenthesis { place }, body),
        Sign::Match => open_match(false, place, body),
        Sign::MatchBang => open_match(true, place, body),
        Sign::If => {
            let mut body = body;
            let waiting = body.partial.waiting;
            body.partial.waiting = none_waits();
            body.partial.openers.push(Opener::If { waiting, place })?;
            stays_in_body(BodyPosition::Operand, body)
        }
        _ => refused(body),
    }
}

fn open_match(destructive: bool, place: Place, body: Body) -> Result<Next, AllocError>
    requires well { view.IsWellBody body }
    ensures next { Leads result (machine.in_body machine.AtOperand
        (machine.with_opener (view.body body)
        (machine.MatchOpener (view.body body).partial.waiting destructive place))) }
{
    let mut body = body;
    let waiting = body.partial.waiting;
    body.partial.waiting = none_waits();
    body.partial.openers.push(Opener::Match {
        waiting,
        destructive,
        place,
    })?;
    stays_in_body(BodyPosition::Operand, body)
}

/// After the static arguments of a call.
pub fn call_open(
    name: Name,
    place: Place,
    statics: Vec<Written>,
    body: Body,
    token: Token,
) -> Result<Next, AllocError>
    requires well { view.IsWellBody body }
    ensures next { Follows false token.entry result (machine.step_body
        (machine.CallOpen name place (map written statics.items)) (view.body body)) }
{
    match token.word {
        Word::Sign(Sign::RoundOpen) => stays_in_body(
            BodyPosition::ArgumentFirst {
                name,
                place,
                statics,
            },
            body,
        ),
        _ => refused(body),
    }
}

/// A call's first argument, or `)`.
pub fn argument_first(
    alloc: Global,
    name: Name,
    place: Place,
    statics: Vec<Written>,
    body: Body,
    token: Token,
) -> Result<Next, AllocError>
    requires well { view.IsWellBody body }
    ensures next { Follows false token.entry result (machine.step_body
        (machine.ArgumentFirst name place (map written statics.items)) (view.body body)) }
{
    match token.word {
        Word::Sign(Sign::RoundClose) => operand(
            Step::Call {
                name,
                place,
                statics,
                arguments: Vec::new(alloc),
            },
            body,
        ),
        _ => {
            let inner = enter(
                alloc,
                body,
                Use::Arguments {
                    name,
                    place,
                    statics,
                    done: Vec::new(alloc),
                },
            )?;
            operand_start(alloc, inner, token)
        }
    }
}

/// A literal, after its minus.
pub fn minus(place: Place, body: Body, token: Token) -> Result<Next, AllocError>
    requires well { view.IsWellBody body }
    ensures next { Follows true token.entry result (machine.step_body (machine.Minus place) (view.body body)) }
{
    match token.word {
        Word::Int(digits) => match negated_literal(digits) {
            Some(value) => operand(Step::Literal { value, place }, body),
            None => Ok(Next::TooLarge),
        },
        _ => refused(body),
    }
}

/// After `(` where an operand begins.
pub fn parenthesis(
    alloc: Global,
    place: Place,
    body: Body,
    token: Token,
) -> Result<Next, AllocError>
    requires well { view.IsWellBody body }
    ensures next { Follows false token.entry result (machine.step_body (machine.Parenthesis place) (view.body body)) }
{
    match token.word {
        Word::Sign(Sign::Let) => stays_in_body(
            BodyPosition::LetStart,
            enter(alloc, body, Use::Bracket)?,
        ),
        _ => operand_start(
            alloc,
            enter(alloc, body, Use::Parenthesis { place })?,
            token,
        ),
    }
}

/// A further clause, or `}`.
pub fn clause_next(
    alloc: Global,
    clauses: OpenMatch,
    body: Body,
    token: Token,
) -> Result<Next, AllocError>
    requires well { view.IsWellUnder body }
    ensures next { Follows false token.entry result (machine.step_body
        (machine.ClauseNext (view.open_match clauses (view.operand body))) (view.under_operand body)) }
{
    match token.word {
        Word::Sign(Sign::CurlyClose) => close_match(clauses, body),
        _ => pattern_wanted(alloc, Vec::new(alloc), body, clauses, token),
    }
}

/// After the first block of an if.
pub fn else_keyword(place: Place, yes: Block, body: Body, token: Token) -> Result<Next, AllocError>
    requires well { view.IsWellUnder body }
    ensures next { Follows false token.entry result (machine.step_body
        (machine.Else place (view.operand body) (block_view yes)) (view.under_operand body)) }
{
    match token.word {
        Word::Sign(Sign::Else) => stays_in_body(BodyPosition::ElseOpen { place, yes }, body),
        _ => refused(body),
    }
}

/// After `else`.
pub fn else_open(
    alloc: Global,
    place: Place,
    yes: Block,
    body: Body,
    token: Token,
) -> Result<Next, AllocError>
    requires well { view.IsWellUnder body }
    ensures next { Follows false token.entry result (machine.step_body
        (machine.ElseOpen place (view.operand body) (block_view yes)) (view.under_operand body)) }
{
    match token.word {
        Word::Sign(Sign::CurlyOpen) => stays_in_body(
            BodyPosition::Block,
            enter(alloc, body, Use::No { place, yes })?,
        ),
        _ => refused(body),
    }
}
