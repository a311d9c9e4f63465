//! Arithmetic on integers of 128 bits.
#![tactic(auto)]

ghost use Rattle.std.specs.Prelude.{◌≡◌, ◌≢◌, ℤ, pos, Ok, IfOk};
ghost use Rattle.b_arith.specs.Rows.{sum_of, difference_of, product_of, negation_of, quotient_of, remainder_of, natural_power, power_of, kept};
ghost use Rattle.b_arith.specs.Division.{IsQuotient, IsRemainder};

use b_values::FaultKind;

/// The sum `a + b`.
pub fn add(a: i128, b: i128) -> Result<i128, FaultKind>
    ensures { result ≡ sum_of a b }
{
    a.checked_add(b).ok_or(FaultKind::Overflow)
}

/// The difference `a - b`.
pub fn sub(a: i128, b: i128) -> Result<i128, FaultKind>
    ensures { result ≡ difference_of a b }
{
    a.checked_sub(b).ok_or(FaultKind::Overflow)
}

/// The product `a * b`.
pub fn mul(a: i128, b: i128) -> Result<i128, FaultKind>
    ensures { result ≡ product_of a b }
{
    a.checked_mul(b).ok_or(FaultKind::Overflow)
}

/// The number `-a`.
pub fn neg(a: i128) -> Result<i128, FaultKind>
    ensures { result ≡ negation_of a }
{
    a.checked_neg().ok_or(FaultKind::Overflow)
}

/// The quotient `a / b`, rounded toward zero.
pub fn div(a: i128, b: i128) -> Result<i128, FaultKind>
    ensures value { result ≡ quotient_of a b }
    ensures quotient_exists { b ≢ pos 0 → (q : ℤ) × IsQuotient a b q }
    ensures quotient_only { (q : ℤ) → IsQuotient a b q → result ≡ kept q }
{
    if b == 0 {
        return Err(FaultKind::IllDefined);
    }
    a.checked_div(b).ok_or(FaultKind::Overflow)
}

/// The remainder `a mod b`.
pub fn modulo(a: i128, b: i128) -> Result<i128, FaultKind>
    ensures value { result ≡ remainder_of a b }
    ensures remainder { IfOk result (λ r. IsRemainder a b r) }
    ensures remainder_only { (r : ℤ) → IsRemainder a b r → result ≡ Ok r }
{
    if a < 0 || b <= 0 {
        return Err(FaultKind::IllDefined);
    }
    Ok(a % b)
}

/// The power `a ** b`. Its cost is the number of bits of `b`.
pub fn power(a: i128, b: i128) -> Result<i128, FaultKind>
    ensures { result ≡ power_of a b }
{
    if b < 0 {
        return Err(FaultKind::IllDefined);
    }
    raise(a, b.unsigned_abs())
}

// The power by squares of half powers.
fn raise(a: i128, exponent: u128) -> Result<i128, FaultKind>
    ensures { result ≡ kept (natural_power a exponent) }
{
    if exponent == 0 {
        return Ok(1);
    }
    match raise(a, exponent / 2) {
        Err(fault) => Err(fault),
        Ok(half) => match mul(half, half) {
            Err(fault) => Err(fault),
            Ok(square) if exponent % 2 == 0 => Ok(square),
            Ok(square) => mul(square, a),
        },
    }
}
