//! Operators on numbers as operators on values.

ghost use Rattle.std.specs.Prelude.{◌≡◌, pos, IfOk};
ghost use Rattle.b_arith.specs.Rows as arith;
ghost use Rattle.b_values.specs.Values.{IsKept};
ghost use Rattle.b_rows.specs.Rows.{number_of, on_number, on_numbers, an_integer};

use b_values::{FaultKind, Value};

/// The number that a value is. A value of another kind doesn't come where the types are right.
pub fn number(x: &Value) -> Result<i128, FaultKind>
    ensures { result ≡ number_of x.now }
{
    match x {
        Value::Int(n) => Ok(*n),
        _ => Err(FaultKind::IllDefined),
    }
}

#[tactic(auto, using(crate::proofs::Kept::kept_int))]
fn integer(n: Result<i128, FaultKind>) -> Result<Value, FaultKind>
    ensures value { result ≡ an_integer n }
    ensures kept { IfOk result (λ v. IsKept v) }
{
    match n {
        Ok(n) => Ok(Value::Int(n)),
        Err(kind) => Err(kind),
    }
}

pub(crate) fn negative(x: &Value) -> Result<Value, FaultKind>
    ensures value { result ≡ on_number arith.negation_of x.now }
    ensures kept { IfOk result (λ v. IsKept v) }
{
    match number(x) {
        Ok(n) => integer(b_arith::neg(n)),
        Err(kind) => Err(kind),
    }
}

pub(crate) fn successor(x: &Value) -> Result<Value, FaultKind>
    ensures value { result ≡ on_number (λ n. arith.sum_of n (pos 1)) x.now }
    ensures kept { IfOk result (λ v. IsKept v) }
{
    match number(x) {
        Ok(n) => integer(b_arith::add(n, 1)),
        Err(kind) => Err(kind),
    }
}

pub(crate) fn predecessor(x: &Value) -> Result<Value, FaultKind>
    ensures value { result ≡ on_number (λ n. arith.difference_of n (pos 1)) x.now }
    ensures kept { IfOk result (λ v. IsKept v) }
{
    match number(x) {
        Ok(n) => integer(b_arith::sub(n, 1)),
        Err(kind) => Err(kind),
    }
}

pub(crate) fn sum(x: &Value, y: &Value) -> Result<Value, FaultKind>
    ensures value { result ≡ on_numbers arith.sum_of x.now y.now }
    ensures kept { IfOk result (λ v. IsKept v) }
{
    match number(x) {
        Ok(m) => match number(y) {
            Ok(n) => integer(b_arith::add(m, n)),
            Err(kind) => Err(kind),
        },
        Err(kind) => Err(kind),
    }
}

pub(crate) fn difference(x: &Value, y: &Value) -> Result<Value, FaultKind>
    ensures value { result ≡ on_numbers arith.difference_of x.now y.now }
    ensures kept { IfOk result (λ v. IsKept v) }
{
    match number(x) {
        Ok(m) => match number(y) {
            Ok(n) => integer(b_arith::sub(m, n)),
            Err(kind) => Err(kind),
        },
        Err(kind) => Err(kind),
    }
}

pub(crate) fn product(x: &Value, y: &Value) -> Result<Value, FaultKind>
    ensures value { result ≡ on_numbers arith.product_of x.now y.now }
    ensures kept { IfOk result (λ v. IsKept v) }
{
    match number(x) {
        Ok(m) => match number(y) {
            Ok(n) => integer(b_arith::mul(m, n)),
            Err(kind) => Err(kind),
        },
        Err(kind) => Err(kind),
    }
}

pub(crate) fn quotient(x: &Value, y: &Value) -> Result<Value, FaultKind>
    ensures value { result ≡ on_numbers arith.quotient_of x.now y.now }
    ensures kept { IfOk result (λ v. IsKept v) }
{
    match number(x) {
        Ok(m) => match number(y) {
            Ok(n) => integer(b_arith::div(m, n)),
            Err(kind) => Err(kind),
        },
        Err(kind) => Err(kind),
    }
}

pub(crate) fn remainder(x: &Value, y: &Value) -> Result<Value, FaultKind>
    ensures value { result ≡ on_numbers arith.remainder_of x.now y.now }
    ensures kept { IfOk result (λ v. IsKept v) }
{
    match number(x) {
        Ok(m) => match number(y) {
            Ok(n) => integer(b_arith::modulo(m, n)),
            Err(kind) => Err(kind),
        },
        Err(kind) => Err(kind),
    }
}

pub(crate) fn raised(x: &Value, y: &Value) -> Result<Value, FaultKind>
    ensures value { result ≡ on_numbers arith.power_of x.now y.now }
    ensures kept { IfOk result (λ v. IsKept v) }
{
    match number(x) {
        Ok(m) => match number(y) {
            Ok(n) => integer(b_arith::power(m, n)),
            Err(kind) => Err(kind),
        },
        Err(kind) => Err(kind),
    }
}
