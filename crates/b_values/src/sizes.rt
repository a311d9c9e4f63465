ghost use Rattle.std.specs.Prelude.{◌≡◌, ◌+◌, ◌≤◌, ◌<◌, ◌↔◌, IsTrue, MatchOption, map, min, sum};
ghost use Rattle.b_values.specs.Values.{node_count};

use crate::values::Value;

/// The greatest number of nodes that a value may have.
pub const NODE_LIMIT: u64 = 1_000_000;

/// How many nodes a value has: a couple and a set one more than their parts, any other value one. The number stays at
/// 2^64 - 1.
pub fn nodes(v: &Value) -> u64
    ensures { result ≡ min (node_count v.now) u64.MAX }
{
    match spend(v, u64::MAX) {
        Some(left) => u64::MAX - left,
        None => u64::MAX,
    }
}

/// Whether a value has at most so many nodes. It stops at the first node past the limit.
pub fn fits(v: &Value, limit: u64) -> bool
    ensures { IsTrue result ↔ (node_count v.now ≤ limit) }
{
    spend(v, limit).is_some()
}

/// What is left of a budget after one for each node of the value; None where the value has more nodes.
#[cycle(spend)]
pub fn spend(v: &Value, budget: u64) -> Option<u64>
    ensures { MatchOption result (budget < node_count v.now) (λ left. node_count v.now + left ≡ budget) }
{
    if budget == 0 {
        return None;
    }
    match v {
        Value::Int(_) => Some(budget - 1),
        Value::Truth(_) => Some(budget - 1),
        Value::Text(_) => Some(budget - 1),
        Value::Elem { .. } => Some(budget - 1),
        Value::Pair(a, b) => {
            let left = spend(a.get(), budget - 1)?;
            spend(b.get(), left)
        }
        Value::Set(xs) => spend_all(xs.get().as_slice(), budget - 1),
    }
}

/// What is left of a budget after one for each node of the values; None where they have more nodes.
#[cycle(spend)]
pub fn spend_all(xs: &[Value], budget: u64) -> Option<u64>
    ensures { MatchOption result (budget < sum (map node_count xs.now)) (λ left. sum (map node_count xs.now) + left ≡ budget) }
{
    let mut left = budget;
    for x in xs {
        left = spend(x, left)?;
    }
    Some(left)
}
