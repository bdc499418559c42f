//! After a type, by what it is read for.

ghost use Rattle.std.specs.Prelude.{◌≡◌, false, ◌∷◌, map, IfOk, MatchOption};
ghost use Rattle.fip_language.specs.Core as C;
ghost use Rattle.fip_base.specs.CoreView.{written as written_view, result_type};
ghost use Rattle.fip_grammar.specs.Machine as machine;
ghost use Rattle.fip_grammar.specs.WordView.{word};
ghost use Rattle.parser_state.specs.StateView as view;
ghost use Rattle.parser_state.specs.StateView.{Leads, Follows};

use fip_base::plain::Name;
use fip_base::surface::{
    DataConstructor, Parameter, ResultType, SignatureParameter, Static, Written,
};
use fip_grammar::Sign;
use fip_grammar::token::{Token, Word};
use fip_language::Place;
use parser_state::moves::{
    body_open, failed, refused, static_end, stays_in_body, stays_in_data, stays_in_function,
    stays_in_type, wants_type,
};
use parser_state::state::{
    Body, BodyPosition, DataHead, DataHeading, FunctionHead, FunctionHeading, Next, OpenType,
    ResultOwner, Signature, TypePosition, TypeUse,
};
use std::alloc::{AllocError, Global};

/// After an argument of a type whose brackets are open.
pub fn type_argument(
    open: Vec<OpenType>,
    around: OpenType,
    purpose: TypeUse,
    written: Written,
    token: Token,
) -> Result<Next, AllocError>
    requires well { view.IsWellUse purpose }
    ensures next { Follows false token.entry result (λ w p. machine.type_done
        (view.open_type around ∷ (view.open_types «open».items)) (view.type_use purpose) (written_view written) w) }
{
    match argument_read(open, around, written, token) {
        Ok(Some((position, open))) => stays_in_type(position, open, purpose),
        Ok(None) => refused(purpose),
        Err(error) => failed(purpose, error),
    }
}

// The place after an argument of a type whose brackets are open, and the types around; none where no type goes on so.
fn argument_read(
    open: Vec<OpenType>,
    around: OpenType,
    written: Written,
    token: Token,
) -> Result<Option<(TypePosition, Vec<OpenType>)>, AllocError>
    ensures read { (purpose : machine.TypeUse) → IfOk result (λ found. MatchOption found
        (machine.type_done (view.open_type around ∷ (view.open_types «open».items)) purpose (written_view written)
        (word token.entry.word) ≡ machine.Refused)
        (λ r. machine.type_done (view.open_type around ∷ (view.open_types «open».items)) purpose (written_view written)
        (word token.entry.word) ≡ machine.Stays (machine.InType (view.type_position r.0)
        (view.open_types r.1.items) purpose))) }
{
    let mut open = open;
    let OpenType { name, place, done } = around;
    let mut done = done;
    done.push(written)?;
    match token.word {
        Word::Sign(Sign::Comma) => {
            open.push(OpenType { name, place, done })?;
            Ok(Some((TypePosition::Wanted, open)))
        }
        Word::Sign(Sign::SquareClose) => {
            let written = Written::Named {
                name,
                place,
                arguments: done,
            };
            Ok(Some((TypePosition::Done { written }, open)))
        }
        _ => Ok(None),
    }
}

/// After the type of a constructor's field.
pub fn after_field(
    alloc: Global,
    data: DataHead,
    name: Name,
    place: Place,
    fields: Vec<Written>,
    written: Written,
    token: Token,
) -> Result<Next, AllocError>
    ensures next { Follows false token.entry result (λ w p. machine.after_type
        (machine.ForField (view.data_head «data») name place (map written_view fields.items))
        (written_view written) w) }
{
    let mut fields = fields;
    fields.push(written)?;
    match token.word {
        Word::Sign(Sign::Comma) => wants_type(
            alloc,
            TypeUse::Field {
                data,
                name,
                place,
                fields,
            },
        ),
        Word::Sign(Sign::RoundClose) => {
            let mut data = data;
            data.constructors.push(DataConstructor {
                name,
                place,
                fields,
            })?;
            stays_in_data(DataHeading::ConstructorEnd { data })
        }
        _ => refused(data),
    }
}

/// After the type of a signature's parameter.
pub fn after_signature_parameter(
    head: FunctionHead,
    signature: Signature,
    lent: bool,
    written: Written,
    token: Token,
) -> Result<Next, AllocError>
    ensures next { Follows false token.entry result (λ w p. machine.after_type
        (machine.ForSignatureParameter (view.function_head head) (view.signature signature) lent) (written_view written)
        w) }
{
    let mut signature = signature;
    signature
        .parameters
        .push(SignatureParameter { lent, ty: written })?;
    match token.word {
        Word::Sign(Sign::Comma) => stays_in_function(FunctionHeading::SignatureNext {
            head,
            signature,
        }),
        Word::Sign(Sign::RoundClose) => stays_in_function(FunctionHeading::SignatureColon {
            head,
            signature,
        }),
        _ => refused(head),
    }
}

/// After the type of a function's parameter.
pub fn after_parameter(
    head: FunctionHead,
    lent: bool,
    name: Name,
    place: Place,
    written: Written,
    token: Token,
) -> Result<Next, AllocError>
    ensures next { Follows false token.entry result (λ w p. machine.after_type
        (machine.ForParameter (view.function_head head) lent name place) (written_view written) w) }
{
    let mut head = head;
    head.parameters.push(Parameter {
        lent,
        name,
        place,
        ty: written,
    })?;
    match token.word {
        Word::Sign(Sign::Comma) => stays_in_function(FunctionHeading::ParameterNext { head }),
        Word::Sign(Sign::RoundClose) => stays_in_function(FunctionHeading::ResultColon { head }),
        _ => refused(head),
    }
}

// A function's head with a static parameter that is a function.
fn with_signature(
    head: FunctionHead,
    signature: Signature,
    gives: ResultType,
) -> Result<FunctionHead, AllocError>
    ensures with { IfOk result (λ h. view.function_head h ≡ machine.with_signature (view.function_head head)
        (view.signature signature) (result_type gives)) }
{
    let Signature {
        name,
        place,
        parameters,
    } = signature;
    let mut head = head;
    head.statics.push(Static::Function {
        name,
        place,
        parameters,
        result: gives,
    })?;
    Ok(head)
}

/// After a result that is no tuple.
pub fn after_one_result(
    alloc: Global,
    owner: ResultOwner,
    written: Written,
    token: Token,
) -> Result<Next, AllocError>
    ensures next { Follows false token.entry result (λ w p. machine.after_one_result (view.result_owner owner)
        (C.OneResult (written_view written)) w) }
{
    let gives = ResultType::One(written);
    match owner {
        ResultOwner::Function { head } => body_open(alloc, head, gives, token),
        ResultOwner::Signature { head, signature } => static_end(
            with_signature(head, signature, gives)?,
            token,
        ),
    }
}

// After a tuple of results.
fn after_tuple_result(owner: ResultOwner, gives: ResultType) -> Result<Next, AllocError>
    ensures next { Leads result (machine.after_tuple_result (view.result_owner owner) (result_type gives)) }
{
    match owner {
        ResultOwner::Function { head } => stays_in_function(FunctionHeading::BodyOpen {
            head,
            gives,
        }),
        ResultOwner::Signature { head, signature } => stays_in_function(
            FunctionHeading::StaticEnd {
                head: with_signature(head, signature, gives)?,
            },
        ),
    }
}

/// After a part of a result.
pub fn after_result_part(
    alloc: Global,
    owner: ResultOwner,
    place: Place,
    parts: Vec<Written>,
    written: Written,
    token: Token,
) -> Result<Next, AllocError>
    ensures next { Follows false token.entry result (λ w p. machine.after_type
        (machine.ForResultPart (view.result_owner owner) place (map written_view parts.items))
        (written_view written) w) }
{
    let is_first = parts.is_empty();
    let mut parts = parts;
    parts.push(written)?;
    match token.word {
        Word::Sign(Sign::Comma) => wants_type(
            alloc,
            TypeUse::ResultPart {
                owner,
                place,
                parts,
            },
        ),
        Word::Sign(Sign::RoundClose) => {
            if is_first {
                return Ok(Next::Refused);
            }
            after_tuple_result(owner, ResultType::Tuple(place, parts))
        }
        _ => refused(owner),
    }
}

/// After a static argument of a call.
pub fn after_static_argument(
    alloc: Global,
    body: Body,
    name: Name,
    place: Place,
    statics: Vec<Written>,
    written: Written,
    token: Token,
) -> Result<Next, AllocError>
    requires well { view.IsWellBody body }
    ensures next { Follows false token.entry result (λ w p. machine.after_type
        (machine.ForStaticArgument (view.body body) name place (map written_view statics.items))
        (written_view written) w) }
{
    let mut statics = statics;
    statics.push(written)?;
    match token.word {
        Word::Sign(Sign::Comma) => wants_type(
            alloc,
            TypeUse::StaticArgument {
                body,
                name,
                place,
                statics,
            },
        ),
        Word::Sign(Sign::SquareClose) => stays_in_body(
            BodyPosition::CallOpen {
                name,
                place,
                statics,
            },
            body,
        ),
        _ => refused(body),
    }
}
