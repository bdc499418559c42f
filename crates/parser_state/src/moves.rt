//! The moves from state to state that several parts of the parser make.

ghost use Rattle.std.specs.Prelude.{◌≡◌, false, List, [], Err, IfOk, MatchOption};
ghost use Rattle.std.specs.List.{All};
ghost use Rattle.fip_language.specs.Surface as Surface;
ghost use Rattle.fip_base.specs.CoreView.{result_type};
ghost use Rattle.fip_base.specs.SurfaceView.{action, acted, kept};
ghost use Rattle.fip_grammar.specs.Machine as machine;
ghost use Rattle.fip_grammar.specs.WordView.{word};
ghost use Rattle.parser_state.specs.StateView as view;
ghost use Rattle.parser_state.specs.StateView.{Leads, Follows};

use crate::state::{
    Body, BodyPosition, DataHeading, FunctionHead, FunctionHeading, Level, Next, OpenMatch,
    OpenPattern, OpenType, Partial, PatternPosition, State, TypePosition, TypeUse, Use, Waiting,
};
use fip_base::plain::Name;
use fip_base::surface::{Bind, ResultType, Step, Written};
use fip_grammar::Sign;
use fip_grammar::token::{Token, Word};
use std::alloc::{AllocError, Global};

/// The name of these bytes.
pub fn name_of(alloc: Global, bytes: &[u8]) -> Result<Name, AllocError>
    ensures same { IfOk result (λ x. x ≡ bytes.now) }
{
    Ok(Name::new(bytes.to_vec(alloc)?))
}

/// No operator waits.
pub fn none_waits() -> Waiting
    ensures { result ≡ view.nothing_waits }
{
    Waiting {
        comparison: None,
        sum: None,
        product: None,
    }
}

/// Nothing is read yet.
pub fn new_partial(alloc: Global) -> Partial
    ensures new { (es : List Surface.Expression) → view.partial result es ≡ machine.new_partial }
    ensures steps { view.left result.steps.items ≡ [] }
    ensures well { view.IsWellPartial result [] }
{
    Partial {
        lets: Vec::new(alloc),
        binds: None,
        steps: Vec::new(alloc),
        openers: Vec::new(alloc),
        waiting: none_waits(),
    }
}

/// The token is refused, and what was read is given up.
pub fn refused<T: Drop>(_read: T) -> Result<Next, AllocError>
    ensures next { Leads result machine.Refused }
{
    Ok(Next::Refused)
}

/// No memory is left, and what was read is given up.
pub fn failed<T: Drop>(_read: T, error: AllocError) -> Result<Next, AllocError>
    ensures next { result ≡ Err error }
{
    Err(error)
}

/// A place in the head of a function.
pub fn stays_in_function(heading: FunctionHeading) -> Result<Next, AllocError>
    ensures next { Leads result (machine.in_function (view.function_heading heading)) }
{
    Ok(Next::Stays {
        state: State::Function { heading },
    })
}

/// A place in a data type.
pub fn stays_in_data(heading: DataHeading) -> Result<Next, AllocError>
    ensures next { Leads result (machine.in_data (view.data_heading heading)) }
{
    Ok(Next::Stays {
        state: State::Data { heading },
    })
}

/// A place in a type.
pub fn stays_in_type(
    position: TypePosition,
    open: Vec<OpenType>,
    purpose: TypeUse,
) -> Result<Next, AllocError>
    requires well { view.IsWellUse purpose }
    ensures next { Leads result (machine.Stays (machine.InType (view.type_position position)
        (view.open_types «open».items) (view.type_use purpose))) }
{
    Ok(Next::Stays {
        state: State::Typing {
            position,
            open,
            purpose,
        },
    })
}

/// A type comes next.
pub fn wants_type(alloc: Global, purpose: TypeUse) -> Result<Next, AllocError>
    requires well { view.IsWellUse purpose }
    ensures next { Leads result (machine.wants_type (view.type_use purpose)) }
{
    Ok(Next::Stays {
        state: State::Typing {
            position: TypePosition::Wanted,
            open: Vec::new(alloc),
            purpose,
        },
    })
}

/// A place in a body.
pub fn stays_in_body(position: BodyPosition, body: Body) -> Result<Next, AllocError>
    requires well { view.IsWellIn position body }
    ensures next { Leads result (machine.Stays (view.in_body position body)) }
{
    Ok(Next::Stays {
        state: State::Body { position, body },
    })
}

/// A place in a pattern.
pub fn stays_in_pattern(
    position: PatternPosition,
    open: Vec<OpenPattern>,
    body: Body,
    clauses: OpenMatch,
) -> Result<Next, AllocError>
    requires well { view.IsWellUnder body }
    ensures next { Leads result (machine.in_pattern (view.pattern_position position) (view.open_patterns «open».items)
        (view.under_operand body) (view.open_match clauses (view.operand body))) }
{
    Ok(Next::Stays {
        state: State::Matching {
            position,
            open,
            body,
            clauses,
        },
    })
}

/// A bracket is opened.
pub fn enter(alloc: Global, body: Body, purpose: Use) -> Result<Body, AllocError>
    requires well { view.IsWellWith body (view.after_purpose purpose (view.operands body)) }
    ensures inner { IfOk result (λ b. view.body b ≡ machine.enter
        (view.body_with body (view.after_purpose purpose (view.operands body)))
        (view.purpose purpose (view.operands body))) }
    ensures well { IfOk result (λ b. view.IsWellBody b) }
{
    let Body {
        head,
        gives,
        levels,
        partial,
    } = body;
    let mut levels = levels;
    levels.push(Level {
        before: partial,
        purpose,
    })?;
    Ok(Body {
        head,
        gives,
        levels,
        partial: new_partial(alloc),
    })
}

/// An expression of a block begins: it is bound to these binds, or the block's last.
pub fn start_expression(alloc: Global, body: Body, binds: Option<Vec<Bind>>) -> Body
    requires well { All view.IsWellLevel body.levels.items }
    ensures started { view.body result ≡ view.started (view.body body) (view.bound_binds binds) }
    ensures well { view.IsWellBody result }
{
    let Body {
        head,
        gives,
        levels,
        partial,
    } = body;
    let Partial {
        lets,
        binds: _,
        steps: _,
        openers: _,
        waiting: _,
    } = partial;
    let partial = Partial {
        lets,
        binds,
        steps: Vec::new(alloc),
        openers: Vec::new(alloc),
        waiting: none_waits(),
    };
    Body {
        head,
        gives,
        levels,
        partial,
    }
}

/// After an operand, which is this step.
pub fn operand(step: Step, body: Body) -> Result<Next, AllocError>
    requires well { view.IsWellWith body (kept (action step) (view.operands body)) }
    ensures next { Leads result (machine.in_body (machine.AtOperator (acted (action step) (view.operands body)))
        (view.body_with body (kept (action step) (view.operands body)))) }
{
    let mut body = body;
    body.partial.steps.push(step)?;
    stays_in_body(BodyPosition::Operator, body)
}

/// The end of a match.
pub fn close_match(clauses: OpenMatch, body: Body) -> Result<Next, AllocError>
    requires well { view.IsWellUnder body }
    ensures next { Leads result (machine.close_match (view.open_match clauses (view.operand body))
        (view.under_operand body)) }
{
    let OpenMatch {
        destructive,
        place,
        clauses,
    } = clauses;
    operand(
        Step::Match {
            destructive,
            place,
            clauses,
        },
        body,
    )
}

/// What a static parameter's end leads to.
pub fn static_end(head: FunctionHead, token: Token) -> Result<Next, AllocError>
    ensures next { Follows false token.entry result (λ w p. machine.static_end (view.function_head head) w) }
{
    match token.word {
        Word::Sign(Sign::Comma) => stays_in_function(FunctionHeading::StaticName { head }),
        Word::Sign(Sign::SquareClose) => stays_in_function(FunctionHeading::ParametersOpen {
            head,
        }),
        _ => Ok(Next::Refused),
    }
}

/// The body's `{`.
pub fn body_open(
    alloc: Global,
    head: FunctionHead,
    gives: ResultType,
    token: Token,
) -> Result<Next, AllocError>
    ensures next { Follows false token.entry result (λ w p. machine.body_open (view.function_head head)
        (result_type gives) w) }
{
    match token.word {
        Word::Sign(Sign::CurlyOpen) => {
            let body = Body {
                head,
                gives,
                levels: Vec::new(alloc),
                partial: new_partial(alloc),
            };
            stays_in_body(BodyPosition::Block, body)
        }
        _ => Ok(Next::Refused),
    }
}

/// The first token of a type.
pub fn type_wanted(
    alloc: Global,
    open: Vec<OpenType>,
    purpose: TypeUse,
    token: Token,
) -> Result<Next, AllocError>
    requires well { view.IsWellUse purpose }
    ensures next { Follows false token.entry result (machine.type_wanted (view.open_types «open».items)
        (view.type_use purpose)) }
{
    match type_begun(alloc, token) {
        Ok(Some(position)) => stays_in_type(position, open, purpose),
        Ok(None) => refused(purpose),
        Err(error) => failed(purpose, error),
    }
}

// The place after the first token of a type; none where no type begins with the token.
fn type_begun(alloc: Global, token: Token) -> Result<Option<TypePosition>, AllocError>
    ensures begun { (around : List machine.OpenType) (purpose : machine.TypeUse) → IfOk result (λ found.
        MatchOption found
        (machine.type_wanted around purpose (word token.entry.word) token.entry.place ≡ machine.Refused)
        (λ position. machine.type_wanted around purpose (word token.entry.word) token.entry.place ≡
        machine.Stays (machine.InType (view.type_position position) around purpose))) }
{
    match token.word {
        Word::Sign(Sign::Int) => Ok(Some(TypePosition::Done {
            written: Written::Int(token.place),
        })),
        Word::Lower(text) => Ok(Some(TypePosition::Named {
            name: name_of(alloc, text)?,
            place: token.place,
        })),
        _ => Ok(None),
    }
}
