//! After an operand: operators, and the end of an expression.

ghost use Rattle.std.specs.Prelude.{◌≡◌, false, OnOk};
ghost use Rattle.fip_base.specs.SurfaceView.{top, below};
ghost use Rattle.fip_grammar.specs.Machine as machine;
ghost use Rattle.parser_state.specs.StateView as view;
ghost use Rattle.parser_state.specs.StateView.{Leads, Follows};
ghost use Rattle.parser_operators.specs.Tightness.{tightness};

use crate::levels::{end_block, end_bound};
use fip_base::surface::Step;
use fip_grammar::Sign;
use fip_grammar::token::{Token, Word};
use fip_language::{Operator, Place};
use parser_state::moves::{enter, none_waits, refused, stays_in_body, stays_in_pattern};
use parser_state::state::{
    Body, BodyPosition, Next, OpenMatch, Opener, PatternPosition, Pending, Use, Waiting,
};
use std::alloc::{AllocError, Global};

/// How tightly an operator binds.
#[derive(Clone, Copy, PartialEq, Eq)]
pub enum Tightness {
    /// A comparison: no other one is beside it.
    Comparison,
    /// A sum or a difference.
    Sum,
    /// A product, a quotient or a remainder.
    Product,
}

/// How tightly an operator binds.
pub fn tightness_of(operator: Operator) -> Tightness
    ensures { tightness result ≡ machine.tightness_of operator }
{
    match operator {
        Operator::Multiply | Operator::Divide | Operator::Remainder => Tightness::Product,
        Operator::Add | Operator::Subtract => Tightness::Sum,
        _ => Tightness::Comparison,
    }
}

// The operation of an operator that waited is done.
fn apply(steps: &mut Vec<Step>, pending: Option<Pending>) -> Result<(), AllocError>
    ensures top { OnOk result (top (view.left steps.new.items)
        ≡ machine.applied (view.pending pending (below (view.left steps.old.items)))
        (top (view.left steps.old.items))) }
    ensures below { OnOk result (below (view.left steps.new.items)
        ≡ view.after_pending pending (below (view.left steps.old.items))) }
{
    match pending {
        None => Ok(()),
        Some(pending) => {
            steps.push(Step::Binary {
                operator: pending.operator,
                place: pending.place,
            })?;
            Ok(())
        }
    }
}

// The operations of all operators that waited are done.
fn apply_all(steps: &mut Vec<Step>, waiting: Waiting) -> Result<(), AllocError>
    ensures top { OnOk result (top (view.left steps.new.items)
        ≡ machine.all_applied (view.waiting waiting (below (view.left steps.old.items)))
        (top (view.left steps.old.items))) }
    ensures below { OnOk result (below (view.left steps.new.items)
        ≡ view.after_waiting waiting (below (view.left steps.old.items))) }
{
    apply(steps, waiting.product)?;
    apply(steps, waiting.sum)?;
    apply(steps, waiting.comparison)
}

/// After an operand.
pub fn after_operand(alloc: Global, body: Body, token: Token) -> Result<Next, AllocError>
    requires well { view.IsWellUnder body }
    ensures next { Follows false token.entry result (machine.after_operand (view.under_operand body)
        (view.operand body)) }
{
    match token.word {
        Word::Operator(operator) => after_operator(body, operator, token.place),
        Word::Sign(sign) => end_expression(alloc, body, sign),
        _ => refused(body),
    }
}

// An operator after an operand: by how tightly it binds.
fn after_operator(body: Body, operator: Operator, place: Place) -> Result<Next, AllocError>
    requires well { view.IsWellUnder body }
    ensures next { Leads result (machine.after_operator (machine.tightness_of operator) (view.under_operand body)
        (view.operand body) operator place) }
{
    let pending = Pending { operator, place };
    match tightness_of(operator) {
        Tightness::Product => after_product(body, pending),
        Tightness::Sum => after_sum(body, pending),
        Tightness::Comparison => after_comparison(body, pending),
    }
}

// The factors so far are one operand of this operator.
fn after_product(body: Body, pending: Pending) -> Result<Next, AllocError>
    requires well { view.IsWellUnder body }
    ensures next { Leads result (machine.after_operator machine.Product (view.under_operand body) (view.operand body)
        pending.operator pending.place) }
{
    let mut body = body;
    let waiting = body.partial.waiting;
    apply(&mut body.partial.steps, waiting.product)?;
    body.partial.waiting.product = Some(pending);
    stays_in_body(BodyPosition::Operand, body)
}

// The summands so far are one operand of this operator.
fn after_sum(body: Body, pending: Pending) -> Result<Next, AllocError>
    requires well { view.IsWellUnder body }
    ensures next { Leads result (machine.after_operator machine.Sum (view.under_operand body) (view.operand body)
        pending.operator pending.place) }
{
    let mut body = body;
    let waiting = body.partial.waiting;
    apply(&mut body.partial.steps, waiting.product)?;
    apply(&mut body.partial.steps, waiting.sum)?;
    body.partial.waiting.sum = Some(pending);
    body.partial.waiting.product = None;
    stays_in_body(BodyPosition::Operand, body)
}

// One comparison at most is between two brackets.
fn after_comparison(body: Body, pending: Pending) -> Result<Next, AllocError>
    requires well { view.IsWellUnder body }
    ensures next { Leads result (machine.after_operator machine.Comparison (view.under_operand body) (view.operand body)
        pending.operator pending.place) }
{
    let mut body = body;
    let waiting = body.partial.waiting;
    if waiting.comparison.is_some() {
        return Ok(Next::Refused);
    }
    apply_all(&mut body.partial.steps, waiting)?;
    body.partial.waiting = none_waits();
    body.partial.waiting.comparison = Some(pending);
    stays_in_body(BodyPosition::Operand, body)
}

// The end of an expression: all operators that wait are done.
fn end_expression(alloc: Global, body: Body, sign: Sign) -> Result<Next, AllocError>
    requires well { view.IsWellUnder body }
    ensures next { Leads result (view.ended (view.under_operand body) (view.operand body) sign) }
{
    let mut body = body;
    apply_all(&mut body.partial.steps, body.partial.waiting)?;
    body.partial.waiting = none_waits();
    match body.partial.openers.pop() {
        Some(opener) => end_head(alloc, body, opener, sign),
        None => match body.partial.binds.take() {
            Some(binds) => end_bound(alloc, body, binds, sign),
            None => end_block(alloc, body, sign),
        },
    }
}

// The end of a scrutinee or a condition.
fn end_head(alloc: Global, body: Body, opener: Opener, sign: Sign) -> Result<Next, AllocError>
    requires well { view.IsWellUnder (view.inside body opener) }
    ensures next { Leads result (machine.end_head (view.under_operand (view.inside body opener))
        (view.opener opener (below (view.operands body))) (view.operand body) sign) }
{
    let mut body = body;
    match sign {
        Sign::CurlyOpen => match opener {
            Opener::Match {
                waiting,
                destructive,
                place,
            } => {
                body.partial.waiting = waiting;
                let open = OpenMatch {
                    destructive,
                    place,
                    clauses: Vec::new(alloc),
                };
                stays_in_pattern(PatternPosition::Wanted, Vec::new(alloc), body, open)
            }
            Opener::If { waiting, place } => {
                body.partial.waiting = waiting;
                stays_in_body(BodyPosition::Block, enter(alloc, body, Use::Yes { place })?)
            }
        },
        _ => refused(body),
    }
}
