//! The head of a function, a place at a time.

ghost use Rattle.std.specs.Prelude.{false};
ghost use Rattle.fip_grammar.specs.Machine as machine;
ghost use Rattle.parser_state.specs.StateView as view;
ghost use Rattle.parser_state.specs.StateView.{Follows};

use fip_base::plain::Name;
use fip_base::surface::Static;
use fip_grammar::Sign;
use fip_grammar::token::{Token, Word};
use fip_language::{CreditMark, FunKind, Operator, Place};
use parser_state::literal::magnitude;
use parser_state::moves::{
    body_open, name_of, static_end, stays_in_function, type_wanted, wants_type,
};
use parser_state::state::{FunctionHead, FunctionHeading, Next, ResultOwner, Signature, TypeUse};
use std::alloc::{AllocError, Global};

fn function_keyword(
    kind: FunKind,
    credits: Vec<CreditMark>,
    token: Token,
) -> Result<Next, AllocError>
    ensures next { Follows false token.entry result (machine.step_function
        (machine.FunctionKeyword kind credits.items)) }
{
    match token.word {
        Word::Sign(Sign::Fun) => stays_in_function(FunctionHeading::FunctionName { kind, credits }),
        Word::Operator(Operator::Add) => stays_in_function(FunctionHeading::CreditSize {
            kind,
            credits,
            plus: token.place,
        }),
        _ => Ok(Next::Refused),
    }
}

fn credit_size(
    kind: FunKind,
    credits: Vec<CreditMark>,
    plus: Place,
    token: Token,
) -> Result<Next, AllocError>
    ensures next { Follows false token.entry result (machine.step_function
        (machine.CreditSize kind credits.items plus)) }
{
    match token.word {
        Word::Int(digits) => match magnitude(digits) {
            Some(size) => {
                let mut credits = credits;
                credits.push(CreditMark {
                    place: plus,
                    size_place: token.place,
                    size,
                })?;
                stays_in_function(FunctionHeading::FunctionKeyword { kind, credits })
            }
            None => Ok(Next::TooLarge),
        },
        _ => Ok(Next::Refused),
    }
}

fn function_name(
    alloc: Global,
    kind: FunKind,
    credits: Vec<CreditMark>,
    token: Token,
) -> Result<Next, AllocError>
    ensures next { Follows false token.entry result (machine.step_function (machine.FunctionName kind credits.items)) }
{
    match token.word {
        Word::Lower(text) => {
            let name = name_of(alloc, text)?;
            stays_in_function(FunctionHeading::FunctionStart {
                head: FunctionHead {
                    kind,
                    credits,
                    name,
                    place: token.place,
                    statics: Vec::new(alloc),
                    parameters: Vec::new(alloc),
                },
            })
        }
        _ => Ok(Next::Refused),
    }
}

fn function_start(head: FunctionHead, token: Token) -> Result<Next, AllocError>
    ensures next { Follows false token.entry result (machine.step_function
        (machine.FunctionStart (view.function_head head))) }
{
    match token.word {
        Word::Sign(Sign::SquareOpen) => stays_in_function(FunctionHeading::StaticName { head }),
        Word::Sign(Sign::RoundOpen) => stays_in_function(FunctionHeading::ParameterFirst { head }),
        _ => Ok(Next::Refused),
    }
}

fn static_name(alloc: Global, head: FunctionHead, token: Token) -> Result<Next, AllocError>
    ensures next { Follows false token.entry result (machine.step_function
        (machine.StaticName (view.function_head head))) }
{
    match token.word {
        Word::Lower(text) => stays_in_function(FunctionHeading::StaticStart {
            head,
            name: name_of(alloc, text)?,
            place: token.place,
        }),
        _ => Ok(Next::Refused),
    }
}

fn static_start(
    alloc: Global,
    head: FunctionHead,
    name: Name,
    place: Place,
    token: Token,
) -> Result<Next, AllocError>
    ensures next { Follows false token.entry result (machine.step_function
        (machine.StaticStart (view.function_head head) name place)) }
{
    match token.word {
        Word::Sign(Sign::Colon) => {
            let signature = Signature {
                name,
                place,
                parameters: Vec::new(alloc),
            };
            stays_in_function(FunctionHeading::SignatureKeyword { head, signature })
        }
        _ => {
            let mut head = head;
            head.statics.push(Static::Type { name, place })?;
            static_end(head, token)
        }
    }
}

fn signature_keyword(
    head: FunctionHead,
    signature: Signature,
    token: Token,
) -> Result<Next, AllocError>
    ensures next { Follows false token.entry result (machine.step_function
        (machine.SignatureKeyword (view.function_head head) (view.signature signature))) }
{
    match token.word {
        Word::Sign(Sign::Fun) => stays_in_function(FunctionHeading::SignatureOpen {
            head,
            signature,
        }),
        _ => Ok(Next::Refused),
    }
}

fn signature_open(
    head: FunctionHead,
    signature: Signature,
    token: Token,
) -> Result<Next, AllocError>
    ensures next { Follows false token.entry result (machine.step_function
        (machine.SignatureOpen (view.function_head head) (view.signature signature))) }
{
    match token.word {
        Word::Sign(Sign::RoundOpen) => stays_in_function(FunctionHeading::SignatureFirst {
            head,
            signature,
        }),
        _ => Ok(Next::Refused),
    }
}

fn signature_next(
    alloc: Global,
    head: FunctionHead,
    signature: Signature,
    token: Token,
) -> Result<Next, AllocError>
    ensures next { Follows false token.entry result (machine.signature_next (view.function_head head)
        (view.signature signature)) }
{
    match token.word {
        Word::Sign(Sign::Caret) => wants_type(
            alloc,
            TypeUse::SignatureParameter {
                head,
                signature,
                lent: true,
            },
        ),
        _ => type_wanted(
            alloc,
            Vec::new(alloc),
            TypeUse::SignatureParameter {
                head,
                signature,
                lent: false,
            },
            token,
        ),
    }
}

fn signature_first(
    alloc: Global,
    head: FunctionHead,
    signature: Signature,
    token: Token,
) -> Result<Next, AllocError>
    ensures next { Follows false token.entry result (machine.step_function
        (machine.SignatureFirst (view.function_head head) (view.signature signature))) }
{
    match token.word {
        Word::Sign(Sign::RoundClose) => stays_in_function(FunctionHeading::SignatureColon {
            head,
            signature,
        }),
        _ => signature_next(alloc, head, signature, token),
    }
}

fn signature_colon(
    head: FunctionHead,
    signature: Signature,
    token: Token,
) -> Result<Next, AllocError>
    ensures next { Follows false token.entry result (machine.step_function
        (machine.SignatureColon (view.function_head head) (view.signature signature))) }
{
    match token.word {
        Word::Sign(Sign::Colon) => stays_in_function(FunctionHeading::ResultStart {
            owner: ResultOwner::Signature { head, signature },
        }),
        _ => Ok(Next::Refused),
    }
}

fn result_start(alloc: Global, owner: ResultOwner, token: Token) -> Result<Next, AllocError>
    ensures next { Follows false token.entry result (machine.step_function
        (machine.ResultStart (view.result_owner owner))) }
{
    match token.word {
        Word::Sign(Sign::RoundOpen) => wants_type(
            alloc,
            TypeUse::ResultPart {
                owner,
                place: token.place,
                parts: Vec::new(alloc),
            },
        ),
        _ => type_wanted(alloc, Vec::new(alloc), TypeUse::Result { owner }, token),
    }
}

fn parameters_open(head: FunctionHead, token: Token) -> Result<Next, AllocError>
    ensures next { Follows false token.entry result (machine.step_function
        (machine.ParametersOpen (view.function_head head))) }
{
    match token.word {
        Word::Sign(Sign::RoundOpen) => stays_in_function(FunctionHeading::ParameterFirst { head }),
        _ => Ok(Next::Refused),
    }
}

fn parameter_name(
    alloc: Global,
    head: FunctionHead,
    lent: bool,
    token: Token,
) -> Result<Next, AllocError>
    ensures next { Follows false token.entry result (machine.parameter_name (view.function_head head) lent) }
{
    match token.word {
        Word::Lower(text) => stays_in_function(FunctionHeading::ParameterColon {
            head,
            lent,
            name: name_of(alloc, text)?,
            place: token.place,
        }),
        _ => Ok(Next::Refused),
    }
}

fn parameter_next(alloc: Global, head: FunctionHead, token: Token) -> Result<Next, AllocError>
    ensures next { Follows false token.entry result (machine.parameter_next (view.function_head head)) }
{
    match token.word {
        Word::Sign(Sign::Caret) => stays_in_function(FunctionHeading::ParameterName { head }),
        _ => parameter_name(alloc, head, false, token),
    }
}

fn parameter_first(alloc: Global, head: FunctionHead, token: Token) -> Result<Next, AllocError>
    ensures next { Follows false token.entry result (machine.step_function
        (machine.ParameterFirst (view.function_head head))) }
{
    match token.word {
        Word::Sign(Sign::RoundClose) => stays_in_function(FunctionHeading::ResultColon { head }),
        _ => parameter_next(alloc, head, token),
    }
}

fn parameter_colon(
    alloc: Global,
    head: FunctionHead,
    lent: bool,
    name: Name,
    place: Place,
    token: Token,
) -> Result<Next, AllocError>
    ensures next { Follows false token.entry result (machine.step_function
        (machine.ParameterColon (view.function_head head) lent name place)) }
{
    match token.word {
        Word::Sign(Sign::Colon) => wants_type(
            alloc,
            TypeUse::Parameter {
                head,
                lent,
                name,
                place,
            },
        ),
        _ => Ok(Next::Refused),
    }
}

fn result_colon(head: FunctionHead, token: Token) -> Result<Next, AllocError>
    ensures next { Follows false token.entry result (machine.step_function
        (machine.ResultColon (view.function_head head))) }
{
    match token.word {
        Word::Sign(Sign::Colon) => stays_in_function(FunctionHeading::ResultStart {
            owner: ResultOwner::Function { head },
        }),
        _ => Ok(Next::Refused),
    }
}

/// A token in the head of a function.
pub fn step_function(
    alloc: Global,
    heading: FunctionHeading,
    token: Token,
) -> Result<Next, AllocError>
    ensures next { Follows false token.entry result (machine.step_function (view.function_heading heading)) }
{
    match heading {
        FunctionHeading::FunctionKeyword { kind, credits } => function_keyword(
            kind, credits, token,
        ),
        FunctionHeading::CreditSize {
            kind,
            credits,
            plus,
        } => credit_size(kind, credits, plus, token),
        FunctionHeading::FunctionName { kind, credits } => function_name(
            alloc, kind, credits, token,
        ),
        FunctionHeading::FunctionStart { head } => function_start(head, token),
        FunctionHeading::StaticName { head } => static_name(alloc, head, token),
        FunctionHeading::StaticStart { head, name, place } => static_start(
            alloc, head, name, place, token,
        ),
        FunctionHeading::SignatureKeyword { head, signature } => signature_keyword(
            head, signature, token,
        ),
        FunctionHeading::SignatureOpen { head, signature } => signature_open(
            head, signature, token,
        ),
        FunctionHeading::SignatureFirst { head, signature } => signature_first(
            alloc, head, signature, token,
        ),
        FunctionHeading::SignatureNext { head, signature } => signature_next(
            alloc, head, signature, token,
        ),
        FunctionHeading::SignatureColon { head, signature } => signature_colon(
            head, signature, token,
        ),
        FunctionHeading::ResultStart { owner } => result_start(alloc, owner, token),
        FunctionHeading::StaticEnd { head } => static_end(head, token),
        FunctionHeading::ParametersOpen { head } => parameters_open(head, token),
        FunctionHeading::ParameterFirst { head } => parameter_first(alloc, head, token),
        FunctionHeading::ParameterNext { head } => parameter_next(alloc, head, token),
        FunctionHeading::ParameterName { head } => parameter_name(alloc, head, true, token),
        FunctionHeading::ParameterColon {
            head,
            lent,
            name,
            place,
        } => parameter_colon(alloc, head, lent, name, place, token),
        FunctionHeading::ResultColon { head } => result_colon(head, token),
        FunctionHeading::BodyOpen { head, gives } => body_open(alloc, head, gives, token),
    }
}
