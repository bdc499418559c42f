//! The values of literals.

ghost use Rattle.std.specs.Prelude.{◌≡◌, ◌<◌, ◌≤◌, ◌^◌, pos, neg_ℤ, false, true, IfSome, None};
ghost use Rattle.fip_grammar.specs.Token.{value_of};
ghost use Rattle.fip_grammar.specs.Limits.{limit};

/// The value of digits where it is at most 2^63.
pub fn magnitude(digits: &[u8]) -> Option<u64>
    ensures some { IfSome result (λ v. v ≡ value_of digits.now) }
    ensures within { IfSome result (λ v. v ≤ 2 ^ 63) }
    ensures none { result ≡ None → 2 ^ 63 < value_of digits.now }
{
    let limit: u64 = 1 << 63;
    let mut value: u64 = 0;
    for digit in digits {
        let next = value
            .checked_mul(10)?
            .checked_add(u64::from(digit.saturating_sub(b'0')))?;
        if next > limit {
            return None;
        }
        value = next;
    }
    Some(value)
}

/// The value of a literal without a minus where it is at most 2^63 - 1.
pub fn literal(digits: &[u8]) -> Option<i64>
    ensures some { IfSome result (λ v. v ≡ pos (value_of digits.now)) }
    ensures none { result ≡ None → limit false < value_of digits.now }
{
    i64::try_from(magnitude(digits)?).ok()
}

/// The value of a literal after a minus where it is at least -2^63.
pub fn negated_literal(digits: &[u8]) -> Option<i64>
    ensures some { IfSome result (λ v. v ≡ neg_ℤ (pos (value_of digits.now))) }
    ensures none { result ≡ None → limit true < value_of digits.now }
{
    let value = magnitude(digits)?;
    match i64::try_from(value) {
        Ok(small) => Some(-small),
        Err(_) => Some(i64::MIN),
    }
}
