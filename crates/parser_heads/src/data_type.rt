//! A data type, a place at a time.

ghost use Rattle.std.specs.Prelude.{false};
ghost use Rattle.fip_language.specs.Surface as Surface;
ghost use Rattle.fip_grammar.specs.Machine as machine;
ghost use Rattle.parser_state.specs.StateView as view;
ghost use Rattle.parser_state.specs.StateView.{Leads, Follows};

use fip_base::plain::Name;
use fip_base::surface::{Data, DataConstructor, Declaration, TypeName};
use fip_grammar::Sign;
use fip_grammar::token::{Token, Word};
use fip_language::Place;
use parser_state::moves::{name_of, stays_in_data, wants_type};
use parser_state::state::{DataHead, DataHeading, Next, TypeUse};
use std::alloc::{AllocError, Global};

fn data_name(alloc: Global, token: Token) -> Result<Next, AllocError>
    ensures next { Follows false token.entry result (machine.step_data machine.DataName) }
{
    match token.word {
        Word::Lower(text) => {
            let name = name_of(alloc, text)?;
            let data = DataHead {
                name,
                place: token.place,
                parameters: Vec::new(alloc),
                constructors: Vec::new(alloc),
            };
            stays_in_data(DataHeading::DataStart { data })
        }
        _ => Ok(Next::Refused),
    }
}

fn data_start(data: DataHead, token: Token) -> Result<Next, AllocError>
    ensures next { Follows false token.entry result (machine.step_data (machine.DataStart (view.data_head «data»))) }
{
    match token.word {
        Word::Sign(Sign::SquareOpen) => stays_in_data(DataHeading::DataParameter { data }),
        Word::Sign(Sign::CurlyOpen) => stays_in_data(DataHeading::ConstructorFirst { data }),
        _ => Ok(Next::Refused),
    }
}

fn data_parameter(alloc: Global, data: DataHead, token: Token) -> Result<Next, AllocError>
    ensures next { Follows false token.entry result (machine.step_data
        (machine.DataParameter (view.data_head «data»))) }
{
    match token.word {
        Word::Lower(text) => {
            let mut data = data;
            let name = name_of(alloc, text)?;
            data.parameters.push(TypeName {
                name,
                place: token.place,
            })?;
            stays_in_data(DataHeading::DataParameterEnd { data })
        }
        _ => Ok(Next::Refused),
    }
}

fn data_parameter_end(data: DataHead, token: Token) -> Result<Next, AllocError>
    ensures next { Follows false token.entry result (machine.step_data
        (machine.DataParameterEnd (view.data_head «data»))) }
{
    match token.word {
        Word::Sign(Sign::Comma) => stays_in_data(DataHeading::DataParameter { data }),
        Word::Sign(Sign::SquareClose) => stays_in_data(DataHeading::DataOpen { data }),
        _ => Ok(Next::Refused),
    }
}

fn data_open(data: DataHead, token: Token) -> Result<Next, AllocError>
    ensures next { Follows false token.entry result (machine.step_data (machine.DataOpen (view.data_head «data»))) }
{
    match token.word {
        Word::Sign(Sign::CurlyOpen) => stays_in_data(DataHeading::ConstructorFirst { data }),
        _ => Ok(Next::Refused),
    }
}

fn constructor_first(alloc: Global, data: DataHead, token: Token) -> Result<Next, AllocError>
    ensures next { Follows false token.entry result (machine.constructor_first (view.data_head «data»)) }
{
    match token.word {
        Word::Upper(text) => stays_in_data(DataHeading::ConstructorStart {
            data,
            name: name_of(alloc, text)?,
            place: token.place,
        }),
        _ => Ok(Next::Refused),
    }
}

// The end of a data type.
fn data_close(data: DataHead) -> Result<Next, AllocError>
    ensures next { Leads result (machine.Declares (Surface.DataDeclaration (view.data_head «data»))) }
{
    let DataHead {
        name,
        place,
        parameters,
        constructors,
    } = data;
    let data = Data {
        name,
        place,
        parameters,
        constructors,
    };
    Ok(Next::Declares {
        declaration: Declaration::Data { data },
    })
}

fn constructor_next(alloc: Global, data: DataHead, token: Token) -> Result<Next, AllocError>
    ensures next { Follows false token.entry result (machine.step_data
        (machine.ConstructorNext (view.data_head «data»))) }
{
    match token.word {
        Word::Sign(Sign::CurlyClose) => data_close(data),
        _ => constructor_first(alloc, data, token),
    }
}

fn constructor_end(data: DataHead, token: Token) -> Result<Next, AllocError>
    ensures next { Follows false token.entry result (λ w p. machine.constructor_end (view.data_head «data») w) }
{
    match token.word {
        Word::Sign(Sign::Semicolon) => stays_in_data(DataHeading::ConstructorNext { data }),
        Word::Sign(Sign::CurlyClose) => data_close(data),
        _ => Ok(Next::Refused),
    }
}

fn constructor_start(
    alloc: Global,
    data: DataHead,
    name: Name,
    place: Place,
    token: Token,
) -> Result<Next, AllocError>
    ensures next { Follows false token.entry result (machine.step_data
        (machine.ConstructorStart (view.data_head «data») name place)) }
{
    match token.word {
        Word::Sign(Sign::RoundOpen) => wants_type(
            alloc,
            TypeUse::Field {
                data,
                name,
                place,
                fields: Vec::new(alloc),
            },
        ),
        _ => {
            let mut data = data;
            data.constructors.push(DataConstructor {
                name,
                place,
                fields: Vec::new(alloc),
            })?;
            constructor_end(data, token)
        }
    }
}

/// A token in a data type.
pub fn step_data(alloc: Global, heading: DataHeading, token: Token) -> Result<Next, AllocError>
    ensures next { Follows false token.entry result (machine.step_data (view.data_heading heading)) }
{
    match heading {
        DataHeading::DataName => data_name(alloc, token),
        DataHeading::DataStart { data } => data_start(data, token),
        DataHeading::DataParameter { data } => data_parameter(alloc, data, token),
        DataHeading::DataParameterEnd { data } => data_parameter_end(data, token),
        DataHeading::DataOpen { data } => data_open(data, token),
        DataHeading::ConstructorFirst { data } => constructor_first(alloc, data, token),
        DataHeading::ConstructorNext { data } => constructor_next(alloc, data, token),
        DataHeading::ConstructorStart { data, name, place } => constructor_start(
            alloc, data, name, place, token,
        ),
        DataHeading::ConstructorEnd { data } => constructor_end(data, token),
    }
}
