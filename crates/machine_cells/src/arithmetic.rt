// Operators on ints.
ghost use Rattle.std.specs.Prelude.{◌≡◌, ℤ, ◌*ℤ◌, FitsSigned, IfSome, IfNone, int_div, int_rem};
ghost use Rattle.std.specs.Int.{w64, CanDivide, IsNonZero};
ghost use Rattle.std.specs.Option.{SomeIff};
ghost use Rattle.fip_language.specs.Arithmetic.{operate, int_or_overflow};
ghost use Rattle.fip_language.specs.declared.Operator.TheVariants.{Divide, Remainder};
ghost use Rattle.machine_cells.specs.Outcomes.{Reports, truth_word};

use fip_base::plain::{Operator, TrapKind};

/// What an operator gives: the word of an int, whether a comparison holds, or why there is no result.
#[derive(Clone, Copy)]
pub enum Outcome {
    Int(u64),
    Flag(bool),
    Trap(TrapKind),
}

/// The word of a bool: False is constructor 0, True is 1.
#[inline(always)]
pub fn bool_word(holds: bool) -> u64
    ensures { result ≡ truth_word holds }
{
    2 * (holds as u64)
}

#[inline(always)]
fn in_range(exact: Option<i64>) -> Outcome
    ensures { (i : ℤ) → IfSome exact (λ v. v ≡ i) → IfNone exact (FitsSigned w64 i → ⊥) →
        Reports (int_or_overflow i) result }
{
    match exact {
        Some(value) => Outcome::Int(value.cast_unsigned()),
        None => Outcome::Trap(TrapKind::Overflow),
    }
}

// Products, quotients and remainders are calls, whose results are one or two words: an outcome that a call wrote would lie
// in memory also where a sum or a comparison makes it.
#[inline(never)]
fn product(left: i64, right: i64) -> Option<i64>
    ensures { SomeIff result (FitsSigned w64 (left *ℤ right)) (left *ℤ right) }
{
    left.checked_mul(right)
}

#[inline(never)]
fn divide(left: i64, right: i64) -> Option<i64>
    ensures { SomeIff result (CanDivide w64 left right) (int_div left right) }
{
    left.checked_div(right)
}

#[inline(always)]
fn quotient(left: i64, right: i64) -> Outcome
    ensures { Reports (operate Divide left right) result }
{
    if right == 0 {
        return Outcome::Trap(TrapKind::DivideByZero);
    }
    in_range(divide(left, right))
}

// The remainder has the sign of the dividend; by -1 it is 0, where the quotient may be out of range.
#[inline(never)]
fn modulo(left: i64, right: i64) -> i64
    requires { IsNonZero w64 right }
    ensures { result ≡ int_rem left right }
{
    if right == -1 {
        return 0;
    }
    left % right
}

#[inline(always)]
fn remainder(left: i64, right: i64) -> Outcome
    ensures { Reports (operate Remainder left right) result }
{
    if right == 0 {
        return Outcome::Trap(TrapKind::DivideByZero);
    }
    Outcome::Int(modulo(left, right).cast_unsigned())
}

/// What an operator gives.
#[inline(always)]
pub fn outcome_of(operator: Operator, left: i64, right: i64) -> Outcome
    ensures { Reports (operate operator left right) result }
{
    match operator {
        Operator::Add => in_range(left.checked_add(right)),
        Operator::Subtract => in_range(left.checked_sub(right)),
        Operator::Multiply => in_range(product(left, right)),
        Operator::Divide => quotient(left, right),
        Operator::Remainder => remainder(left, right),
        Operator::Equal => Outcome::Flag(left == right),
        Operator::NotEqual => Outcome::Flag(left != right),
        Operator::Less => Outcome::Flag(left < right),
        Operator::LessOrEqual => Outcome::Flag(left <= right),
        Operator::Greater => Outcome::Flag(left > right),
        Operator::GreaterOrEqual => Outcome::Flag(left >= right),
    }
}
