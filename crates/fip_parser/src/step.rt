//! What a token does in each place of a program.

ghost use Rattle.std.specs.Prelude.{false};
ghost use Rattle.fip_grammar.specs.Machine as machine;
ghost use Rattle.parser_state.specs.StateView as view;
ghost use Rattle.parser_state.specs.StateView.{Follows};

use crate::types::step_type;
use fip_grammar::Sign;
use fip_grammar::token::{Token, Word};
use fip_language::FunKind;
use parser_bodies::body::{
    argument_first, bind_named, bind_start, block_start, call_open, clause_next, else_keyword,
    else_open, let_equals, let_start, minus, operand_start, parenthesis,
};
use parser_bodies::patterns::step_pattern;
use parser_heads::data_type::step_data;
use parser_heads::function_head::step_function;
use parser_operators::names::{lower_name, upper_name};
use parser_operators::operators::after_operand;
use parser_state::moves::{stays_in_data, stays_in_function};
use parser_state::state::{Binds, Body, BodyPosition, DataHeading, FunctionHeading, Next, State};
use std::alloc::{AllocError, Global};

/// A token in a program.
pub fn step(alloc: Global, state: State, token: Token) -> Result<Next, AllocError>
    requires well { view.IsWell state }
    ensures next { Follows (view.negated state) token.entry result (machine.step (view.state state)) }
{
    match state {
        State::Top => step_top(alloc, token),
        State::Function { heading } => step_function(alloc, heading, token),
        State::Data { heading } => step_data(alloc, heading, token),
        State::Typing {
            position,
            open,
            purpose,
        } => step_type(alloc, position, open, purpose, token),
        State::Matching {
            position,
            open,
            body,
            clauses,
        } => step_pattern(alloc, position, open, body, clauses, token),
        State::Body { position, body } => step_body(alloc, position, body, token),
    }
}

// Between two declarations.
fn step_top(alloc: Global, token: Token) -> Result<Next, AllocError>
    ensures next { Follows false token.entry result (machine.step_top) }
{
    match token.word {
        Word::Sign(Sign::Data) => stays_in_data(DataHeading::DataName),
        Word::Sign(Sign::Fip) => stays_in_function(FunctionHeading::FunctionKeyword {
            kind: FunKind::Fip,
            credits: Vec::new(alloc),
        }),
        Word::Sign(Sign::Fbip) => stays_in_function(FunctionHeading::FunctionKeyword {
            kind: FunKind::Fbip,
            credits: Vec::new(alloc),
        }),
        Word::Sign(Sign::Fun) => stays_in_function(FunctionHeading::FunctionName {
            kind: FunKind::Fun,
            credits: Vec::new(alloc),
        }),
        _ => Ok(Next::Refused),
    }
}

// A token in a body.
fn step_body(
    alloc: Global,
    position: BodyPosition,
    body: Body,
    token: Token,
) -> Result<Next, AllocError>
    requires well { view.IsWellIn position body }
    ensures next { Follows (view.is_negated position) token.entry result (machine.step (view.in_body position body)) }
{
    match position {
        BodyPosition::Block => block_start(alloc, body, token),
        BodyPosition::LetStart => let_start(alloc, body, token),
        BodyPosition::BindStart { done } => bind_start(
            alloc,
            Binds::Bracketed { done },
            body,
            token,
        ),
        BodyPosition::BindNamed { binds, name, place } => bind_named(
            alloc, binds, name, place, body, token,
        ),
        BodyPosition::LetEquals { binds } => let_equals(alloc, binds, body, token),
        BodyPosition::Operand => operand_start(alloc, body, token),
        BodyPosition::LowerName { name, place } => lower_name(alloc, name, place, body, token),
        BodyPosition::CallOpen {
            name,
            place,
            statics,
        } => call_open(name, place, statics, body, token),
        BodyPosition::ArgumentFirst {
            name,
            place,
            statics,
        } => argument_first(alloc, name, place, statics, body, token),
        BodyPosition::UpperName { name, place } => upper_name(alloc, name, place, body, token),
        BodyPosition::Minus { place } => minus(place, body, token),
        BodyPosition::Parenthesis { place } => parenthesis(alloc, place, body, token),
        BodyPosition::Operator => after_operand(alloc, body, token),
        BodyPosition::ClauseNext { open } => clause_next(alloc, open, body, token),
        BodyPosition::Else { place, yes } => else_keyword(place, yes, body, token),
        BodyPosition::ElseOpen { place, yes } => else_open(alloc, place, yes, body, token),
    }
}
