// Operators on ints.
ghost use Rattle.std.specs.Prelude.{ℤ, Some, None, int_div};
ghost use Rattle.std.specs.Prelude.{int_rem};
ghost use Rattle.fip_trees.specs.fip_language.Arithmetic.{Is, operate, int_or_overflow, unless_zero};
ghost use Rattle.fip_trees.specs.fip_language.Arithmetic.{truth as truth_of};
ghost use Rattle.fip_trees.specs.fip_language.Values.{Int};
ghost use Rattle.plain_eval.specs.Operating.{IsOutcome, IsExact};

use fip_base::plain::{Operator, TrapKind};
use plain_rows::Value;

// A bool: False is constructor 0, True is 1.
fn truth(holds: bool) -> Result<Value, TrapKind>
    ensures outcome { IsOutcome (truth_of holds) result }
{
    Ok(Value::Bare(holds as u64))
}

fn in_range(exact: Option<i64>) -> Result<Value, TrapKind>
    ensures outcome { (i : ℤ) → IsExact exact i → IsOutcome (int_or_overflow i) result }
{
    match exact {
        Some(value) => Ok(Value::Int(value)),
        None => Err(TrapKind::Overflow),
    }
}

// The quotient truncates toward zero.
fn quotient(left: i64, right: i64) -> Result<Value, TrapKind>
    ensures outcome { IsOutcome (unless_zero right (int_or_overflow (int_div left right))) result }
{
    if right == 0 {
        return Err(TrapKind::DivideByZero);
    }
    in_range(left.checked_div(right))
}

// The remainder has the sign of the dividend; by -1 it is 0, where the quotient may be out of range.
fn remainder(left: i64, right: i64) -> Result<Value, TrapKind>
    ensures outcome { IsOutcome (unless_zero right (Is (Int (int_rem left right)))) result }
{
    if right == 0 {
        return Err(TrapKind::DivideByZero);
    }
    if right == -1 {
        return Ok(Value::Int(0));
    }
    Ok(Value::Int(left % right))
}

/// The value of an operator's result, or why it has none: the exact result isn't from `-2^63` to `2^63 - 1`, or the
/// divisor is 0.
pub fn result_of(operator: Operator, left: i64, right: i64) -> Result<Value, TrapKind>
    ensures outcome { IsOutcome (operate operator left right) result }
{
    match operator {
        Operator::Add => in_range(left.checked_add(right)),
        Operator::Subtract => in_range(left.checked_sub(right)),
        Operator::Multiply => in_range(left.checked_mul(right)),
        Operator::Divide => quotient(left, right),
        Operator::Remainder => remainder(left, right),
        Operator::Equal => truth(left == right),
        Operator::NotEqual => truth(left != right),
        Operator::Less => truth(left < right),
        Operator::LessOrEqual => truth(left <= right),
        Operator::Greater => truth(left > right),
        Operator::GreaterOrEqual => truth(left >= right),
    }
}
