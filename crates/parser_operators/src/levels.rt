//! The end of what is in a bracket, or of a part of it.

ghost use Rattle.std.specs.Prelude.{◌≡◌, [], map, IfOk};
ghost use Rattle.std.specs.List.{All};
ghost use Rattle.fip_language.specs.Surface as Surface;
ghost use Rattle.fip_base.specs.SurfaceView.{bind as bind_view, block as block_view, pattern as pattern_view};
ghost use Rattle.fip_base.specs.CoreView.{written, result_type};
ghost use Rattle.fip_base.specs.SurfaceView.{expression, below};
ghost use Rattle.fip_grammar.specs.Machine as machine;
ghost use Rattle.parser_state.specs.StateView as view;
ghost use Rattle.parser_state.specs.StateView.{Leads};

use fip_base::plain::Name;
use fip_base::surface::{
    Bind, Block, Clause, Declaration, Expression, Function, Let, Pattern, ResultType, Step, Written,
};
use fip_grammar::Sign;
use fip_language::Place;
use parser_state::moves::{close_match, enter, operand, refused, start_expression, stays_in_body};
use parser_state::state::{Body, BodyPosition, FunctionHead, Level, Next, OpenMatch, Use};
use std::alloc::{AllocError, Global};
use std::mem;

/// The end of a let's bound expression.
pub fn end_bound(
    alloc: Global,
    body: Body,
    binds: Vec<Bind>,
    sign: Sign,
) -> Result<Next, AllocError>
    requires levels { All view.IsWellLevel body.levels.items }
    requires whole { below (view.operands body) ≡ [] }
    ensures next { Leads result (machine.end_bound (view.body body) (map bind_view binds.items) (view.operand body)
        sign) }
{
    match sign {
        Sign::Semicolon => {
            let mut body = body;
            let steps = mem::replace(&mut body.partial.steps, Vec::new(alloc));
            body.partial.lets.push(Let {
                binds,
                bound: Expression { steps },
            })?;
            stays_in_body(BodyPosition::Block, start_expression(alloc, body, None))
        }
        _ => refused(body),
    }
}

/// The end of a block's last expression, or of one that is in no block.
pub fn end_block(alloc: Global, body: Body, sign: Sign) -> Result<Next, AllocError>
    requires levels { All view.IsWellLevel body.levels.items }
    requires whole { below (view.operands body) ≡ [] }
    ensures next { Leads result (machine.end_last (view.function_head body.head) (result_type body.gives)
        (view.levels body.levels.items) (machine.onto_block (view.bindings body.partial.lets.items)
        (Surface.Last (view.operand body))) sign) }
{
    let Body {
        head,
        gives,
        levels,
        partial,
    } = body;
    let block = Block {
        lets: partial.lets,
        last: Expression {
            steps: partial.steps,
        },
    };
    end_last(alloc, head, gives, levels, block, sign)
}

// The end of a block, or of what is in none.
fn end_last(
    alloc: Global,
    head: FunctionHead,
    gives: ResultType,
    levels: Vec<Level>,
    block: Block,
    sign: Sign,
) -> Result<Next, AllocError>
    requires levels { All view.IsWellLevel levels.items }
    ensures next { Leads result (machine.end_last (view.function_head head) (result_type gives)
        (view.levels levels.items) (block_view block) sign) }
{
    let mut levels = levels;
    match levels.pop() {
        None => end_body(head, gives, block, sign),
        Some(level) => {
            let Level { before, purpose } = level;
            let body = Body {
                head,
                gives,
                levels,
                partial: before,
            };
            end_level(alloc, body, purpose, block, sign)
        }
    }
}

fn end_body(
    head: FunctionHead,
    gives: ResultType,
    body: Block,
    sign: Sign,
) -> Result<Next, AllocError>
    ensures next { Leads result (machine.end_body (view.function_head head) (result_type gives) (block_view body)
        sign) }
{
    match sign {
        Sign::CurlyClose => {
            let FunctionHead {
                kind,
                credits,
                name,
                place,
                statics,
                parameters,
            } = head;
            let function = Function {
                kind,
                credits,
                name,
                place,
                statics,
                parameters,
                result: gives,
                body,
            };
            Ok(Next::Declares {
                declaration: Declaration::Function { function },
            })
        }
        _ => refused(head),
    }
}

// The end of what is in a bracket, or of a part of it.
fn end_level(
    alloc: Global,
    body: Body,
    purpose: Use,
    block: Block,
    sign: Sign,
) -> Result<Next, AllocError>
    requires well { view.IsWellWith body (view.after_purpose purpose (view.operands body)) }
    ensures next { Leads result (machine.end_level (view.body_with body
        (view.after_purpose purpose (view.operands body))) (view.purpose purpose (view.operands body))
        (block_view block) sign) }
{
    match purpose {
        Use::Arguments {
            name,
            place,
            statics,
            done,
        } => end_argument(alloc, body, name, place, statics, done, block, sign),
        Use::Fields { name, place, done } => end_field(alloc, body, name, place, done, block, sign),
        Use::Parenthesis { place } => end_parenthesis(alloc, body, place, block, sign),
        Use::Bracket => end_bracket(body, block, sign),
        Use::Tuple { place, done } => end_part(alloc, body, place, done, block, sign),
        Use::Clause { open, pattern } => end_clause(open, pattern, body, block, sign),
        Use::Yes { place } => end_yes(body, place, block, sign),
        Use::No { place, yes } => end_no(body, place, yes, block, sign),
    }
}

// One part more. What is in no block has no lets.
fn with_part(done: Vec<Expression>, block: Block) -> Result<Vec<Expression>, AllocError>
    ensures { IfOk result (λ es. map expression es.items
        ≡ machine.part (block_view block) (map expression done.items)) }
{
    let Block { lets: _, last } = block;
    let mut done = done;
    done.push(last)?;
    Ok(done)
}

fn end_argument(
    alloc: Global,
    body: Body,
    name: Name,
    place: Place,
    statics: Vec<Written>,
    done: Vec<Expression>,
    block: Block,
    sign: Sign,
) -> Result<Next, AllocError>
    requires well { view.IsWellBody body }
    ensures next { Leads result (machine.end_level (view.body body)
        (machine.ForArguments name place (map written statics.items) (map expression done.items))
        (block_view block) sign) }
{
    let done = with_part(done, block)?;
    match sign {
        Sign::Comma => stays_in_body(
            BodyPosition::Operand,
            enter(
                alloc,
                body,
                Use::Arguments {
                    name,
                    place,
                    statics,
                    done,
                },
            )?,
        ),
        Sign::RoundClose => operand(
            Step::Call {
                name,
                place,
                statics,
                arguments: done,
            },
            body,
        ),
        _ => refused(body),
    }
}

fn end_field(
    alloc: Global,
    body: Body,
    name: Name,
    place: Place,
    done: Vec<Expression>,
    block: Block,
    sign: Sign,
) -> Result<Next, AllocError>
    requires well { view.IsWellBody body }
    ensures next { Leads result (machine.end_level (view.body body)
        (machine.ForFields name place (map expression done.items)) (block_view block) sign) }
{
    let done = with_part(done, block)?;
    match sign {
        Sign::Comma => stays_in_body(
            BodyPosition::Operand,
            enter(alloc, body, Use::Fields { name, place, done })?,
        ),
        Sign::RoundClose => operand(
            Step::Constructor {
                name,
                place,
                arguments: done,
            },
            body,
        ),
        _ => refused(body),
    }
}

fn end_parenthesis(
    alloc: Global,
    body: Body,
    place: Place,
    block: Block,
    sign: Sign,
) -> Result<Next, AllocError>
    requires well { view.IsWellBody body }
    ensures next { Leads result (machine.end_level (view.body body) (machine.ForParenthesis place) (block_view block)
        sign) }
{
    match sign {
        Sign::RoundClose => operand(Step::Bracket { block }, body),
        Sign::Comma => {
            let done = with_part(Vec::new(alloc), block)?;
            stays_in_body(
                BodyPosition::Operand,
                enter(alloc, body, Use::Tuple { place, done })?,
            )
        }
        _ => refused(body),
    }
}

fn end_bracket(body: Body, block: Block, sign: Sign) -> Result<Next, AllocError>
    requires well { view.IsWellBody body }
    ensures next { Leads result (machine.end_level (view.body body) machine.ForBracket (block_view block) sign) }
{
    match sign {
        Sign::RoundClose => operand(Step::Bracket { block }, body),
        _ => refused(body),
    }
}

fn end_yes(body: Body, place: Place, block: Block, sign: Sign) -> Result<Next, AllocError>
    requires well { view.IsWellUnder body }
    ensures next { Leads result (machine.end_level (view.under_operand body) (machine.ForYes place (view.operand body))
        (block_view block) sign) }
{
    match sign {
        Sign::CurlyClose => stays_in_body(BodyPosition::Else { place, yes: block }, body),
        _ => refused(body),
    }
}

fn end_no(
    body: Body,
    place: Place,
    yes: Block,
    block: Block,
    sign: Sign,
) -> Result<Next, AllocError>
    requires well { view.IsWellUnder body }
    ensures next { Leads result (machine.end_level (view.under_operand body)
        (machine.ForNo place (view.operand body) (block_view yes)) (block_view block) sign) }
{
    match sign {
        Sign::CurlyClose => operand(
            Step::If {
                place,
                yes,
                no: block,
            },
            body,
        ),
        _ => refused(body),
    }
}

fn end_part(
    alloc: Global,
    body: Body,
    place: Place,
    done: Vec<Expression>,
    block: Block,
    sign: Sign,
) -> Result<Next, AllocError>
    requires well { view.IsWellBody body }
    ensures next { Leads result (machine.end_level (view.body body) (machine.ForTuple place (map expression done.items))
        (block_view block) sign) }
{
    let done = with_part(done, block)?;
    match sign {
        Sign::Comma => stays_in_body(
            BodyPosition::Operand,
            enter(alloc, body, Use::Tuple { place, done })?,
        ),
        Sign::RoundClose => operand(Step::Tuple { place, parts: done }, body),
        _ => refused(body),
    }
}

fn end_clause(
    clauses: OpenMatch,
    pattern: Pattern,
    body: Body,
    block: Block,
    sign: Sign,
) -> Result<Next, AllocError>
    requires well { view.IsWellUnder body }
    ensures next { Leads result (machine.end_level (view.under_operand body)
        (machine.ForClause (view.open_match clauses (view.operand body)) (pattern_view pattern)) (block_view block)
        sign) }
{
    let mut open = clauses;
    open.clauses.push(Clause {
        pattern,
        body: block,
    })?;
    match sign {
        Sign::Semicolon => stays_in_body(BodyPosition::ClauseNext { open }, body),
        Sign::CurlyClose => close_match(open, body),
        _ => refused(body),
    }
}
