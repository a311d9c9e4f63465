//! Comparisons, and membership in the sets of words and in intervals.

ghost use Rattle.std.specs.Prelude.{◌≡◌, int_le};
ghost use Rattle.b_values.specs.Values.{IsKept};
ghost use Rattle.b_values.specs.declared.values.Value.{out-Value};
ghost use Rattle.std.specs.List.{list_all};
ghost use Rattle.b_values.specs.Values.{elements};
ghost use Rattle.set_making.specs.Making as making;
ghost use Rattle.b_rows.specs.Tests as spec;

use b_tree::{Comparison, Word};
use b_values::{Value, order, same_value};
use set_making::is_among;

fn is_below(x: &Value, y: &Value) -> bool
    ensures { result ≡ spec.is_below x.now y.now }
{
    order(x, y).is_lt()
}

fn is_at_most(x: &Value, y: &Value) -> bool
    ensures { result ≡ spec.is_at_most x.now y.now }
{
    order(x, y).is_le()
}

fn is_strict_part(s: &Value, t: &Value) -> bool
    requires { IsKept t.now }
    ensures { result ≡ spec.is_strict_part s.now t.now }
{
    if same_value(s, t) {
        return false;
    }
    is_part(s.members(), t)
}

#[tactic(auto, using(crate::proofs::Kept::members_rise))]
fn is_part(xs: &[Value], t: &Value) -> bool
    requires { IsKept t.now }
    ensures { result ≡ list_all (λ x. making.is_among (elements t.now) x) xs.now }
{
    for x in xs {
        if !is_among(t.members(), x) {
            return false;
        }
    }
    true
}

/// Whether two values stand as a comparison says.
pub fn compare(op: Comparison, x: &Value, y: &Value) -> bool
    requires { IsKept y.now }
    ensures { result ≡ spec.compare op x.now y.now }
{
    match op {
        Comparison::Equal => same_value(x, y),
        Comparison::NotEqual => !same_value(x, y),
        Comparison::Less => is_below(x, y),
        Comparison::LessOrEqual => is_at_most(x, y),
        Comparison::Greater => is_below(y, x),
        Comparison::GreaterOrEqual => is_at_most(y, x),
        Comparison::StrictSubset => is_strict_part(x, y),
        Comparison::NotStrictSubset => !is_strict_part(x, y),
    }
}

fn is_number_from(low: i128, v: &Value) -> bool
    ensures { result ≡ spec.is_number_from low (out-Value v.now) }
{
    match v {
        Value::Int(n) => low <= *n,
        _ => false,
    }
}

/// Whether a value belongs to the set that a word stands for.
pub fn belongs(w: Word, v: &Value) -> bool
    ensures { result ≡ spec.belongs w v.now }
{
    match (w, v) {
        (Word::Integer, Value::Int(_)) => true,
        (Word::Natural, _) => is_number_from(0, v),
        (Word::Natural1, _) => is_number_from(1, v),
        (Word::String, Value::Text(_)) => true,
        (Word::Bool, Value::Truth(_)) => true,
        _ => false,
    }
}

/// Whether `x <= v` and `v <= y`.
pub fn is_between(x: &Value, y: &Value, v: &Value) -> bool
    ensures { result ≡ spec.is_between x.now y.now v.now }
{
    is_at_most(x, v) && is_at_most(v, y)
}
