//! After a name in an expression: the brackets of a call, or the end of the operand.

ghost use Rattle.std.specs.Prelude.{false};
ghost use Rattle.fip_grammar.specs.Machine as machine;
ghost use Rattle.parser_state.specs.StateView as view;
ghost use Rattle.parser_state.specs.StateView.{Follows};

use crate::operators::after_operand;
use fip_base::plain::Name;
use fip_base::surface::Step;
use fip_grammar::Sign;
use fip_grammar::token::{Token, Word};
use fip_language::Place;
use parser_state::moves::{enter, stays_in_body, wants_type};
use parser_state::state::{Body, BodyPosition, Next, TypeUse, Use};
use std::alloc::{AllocError, Global};

/// After a lower name: the brackets of a call, or the end of a variable.
pub fn lower_name(
    alloc: Global,
    name: Name,
    place: Place,
    body: Body,
    token: Token,
) -> Result<Next, AllocError>
    requires well { view.IsWellBody body }
    ensures next { Follows false token.entry result (machine.step_body (machine.LowerName name place)
        (view.body body)) }
{
    match token.word {
        Word::Sign(Sign::SquareOpen) => wants_type(
            alloc,
            TypeUse::StaticArgument {
                body,
                name,
                place,
                statics: Vec::new(alloc),
            },
        ),
        Word::Sign(Sign::RoundOpen) => stays_in_body(
            BodyPosition::ArgumentFirst {
                name,
                place,
                statics: Vec::new(alloc),
            },
            body,
        ),
        _ => {
            let mut body = body;
            body.partial.steps.push(Step::Variable { name, place })?;
            after_operand(alloc, body, token)
        }
    }
}

/// After an upper name: a constructor's arguments, or the end of one without.
pub fn upper_name(
    alloc: Global,
    name: Name,
    place: Place,
    body: Body,
    token: Token,
) -> Result<Next, AllocError>
    requires well { view.IsWellBody body }
    ensures next { Follows false token.entry result (machine.step_body (machine.UpperName name place)
        (view.body body)) }
{
    match token.word {
        Word::Sign(Sign::RoundOpen) => {
            let inner = enter(
                alloc,
                body,
                Use::Fields {
                    name,
                    place,
                    done: Vec::new(alloc),
                },
            )?;
            stays_in_body(BodyPosition::Operand, inner)
        }
        _ => {
            let mut body = body;
            body.partial.steps.push(Step::Constructor {
                name,
                place,
                arguments: Vec::new(alloc),
            })?;
            after_operand(alloc, body, token)
        }
    }
}
