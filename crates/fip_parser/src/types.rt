//! Types, a place at a time.

ghost use Rattle.std.specs.Prelude.{false};
ghost use Rattle.fip_base.specs.CoreView.{written as written_view};
ghost use Rattle.fip_grammar.specs.Machine as machine;
ghost use Rattle.parser_state.specs.StateView as view;
ghost use Rattle.parser_state.specs.StateView.{Follows};

use fip_base::plain::Name;
use fip_base::surface::{Bind, Written};
use fip_grammar::Sign;
use fip_grammar::token::{Token, Word};
use fip_language::Place;
use parser_bodies::body::end_bind;
use parser_state::moves::{stays_in_type, type_wanted};
use parser_state::state::{Binds, Body, Next, OpenType, TypePosition, TypeUse};
use parser_types::following::{
    after_field, after_one_result, after_parameter, after_result_part, after_signature_parameter,
    after_static_argument, type_argument,
};
use std::alloc::{AllocError, Global};

/// A token in a type.
pub fn step_type(
    alloc: Global,
    position: TypePosition,
    open: Vec<OpenType>,
    purpose: TypeUse,
    token: Token,
) -> Result<Next, AllocError>
    requires well { view.IsWellUse purpose }
    ensures next { Follows false token.entry result (machine.step_type (view.type_position position)
        (view.open_types «open».items) (view.type_use purpose)) }
{
    match position {
        TypePosition::Wanted => type_wanted(alloc, open, purpose, token),
        TypePosition::Named { name, place } => type_named(alloc, open, purpose, name, place, token),
        TypePosition::Done { written } => type_done(alloc, open, purpose, written, token),
    }
}

fn type_named(
    alloc: Global,
    open: Vec<OpenType>,
    purpose: TypeUse,
    name: Name,
    place: Place,
    token: Token,
) -> Result<Next, AllocError>
    requires well { view.IsWellUse purpose }
    ensures next { Follows false token.entry result (machine.step_type (machine.TypeNamed name place)
        (view.open_types «open».items) (view.type_use purpose)) }
{
    match token.word {
        Word::Sign(Sign::SquareOpen) => {
            let mut open = open;
            open.push(OpenType {
                name,
                place,
                done: Vec::new(alloc),
            })?;
            stays_in_type(TypePosition::Wanted, open, purpose)
        }
        _ => type_done(
            alloc,
            open,
            purpose,
            Written::Named {
                name,
                place,
                arguments: Vec::new(alloc),
            },
            token,
        ),
    }
}

fn type_done(
    alloc: Global,
    open: Vec<OpenType>,
    purpose: TypeUse,
    written: Written,
    token: Token,
) -> Result<Next, AllocError>
    requires well { view.IsWellUse purpose }
    ensures next { Follows false token.entry result (λ w p. machine.type_done (view.open_types «open».items)
        (view.type_use purpose) (written_view written) w) }
{
    let mut open = open;
    match open.pop() {
        None => after_type(alloc, purpose, written, token),
        Some(around) => type_argument(open, around, purpose, written, token),
    }
}

// After an outermost type.
fn after_type(
    alloc: Global,
    purpose: TypeUse,
    written: Written,
    token: Token,
) -> Result<Next, AllocError>
    requires well { view.IsWellUse purpose }
    ensures next { Follows false token.entry result (λ w p. machine.after_type (view.type_use purpose)
        (written_view written) w) }
{
    match purpose {
        TypeUse::Field {
            data,
            name,
            place,
            fields,
        } => after_field(alloc, data, name, place, fields, written, token),
        TypeUse::SignatureParameter {
            head,
            signature,
            lent,
        } => after_signature_parameter(head, signature, lent, written, token),
        TypeUse::Parameter {
            head,
            lent,
            name,
            place,
        } => after_parameter(head, lent, name, place, written, token),
        TypeUse::Result { owner } => after_one_result(alloc, owner, written, token),
        TypeUse::ResultPart {
            owner,
            place,
            parts,
        } => after_result_part(alloc, owner, place, parts, written, token),
        TypeUse::Annotation {
            body,
            binds,
            name,
            place,
        } => after_annotation(alloc, body, binds, name, place, written, token),
        TypeUse::StaticArgument {
            body,
            name,
            place,
            statics,
        } => after_static_argument(alloc, body, name, place, statics, written, token),
    }
}

fn after_annotation(
    alloc: Global,
    body: Body,
    binds: Binds,
    name: Name,
    place: Place,
    written: Written,
    token: Token,
) -> Result<Next, AllocError>
    requires well { view.IsWellBody body }
    ensures next { Follows false token.entry result (λ w p. machine.after_type
        (machine.ForAnnotation (view.body body) (view.binds binds) name place) (written_view written) w) }
{
    let bind = Bind {
        name,
        place,
        annotation: Some(written),
    };
    end_bind(alloc, body, binds, bind, token)
}
