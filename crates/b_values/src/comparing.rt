ghost use Rattle.std.specs.Prelude.{◌≡◌, ◌↔◌, Some, IsTrue, refl};
ghost use Rattle.std.specs.Cmp.{eq_by_cmp_equiv, partial_equiv_from_equiv, partial_order_from_total};
ghost use Rattle.std.specs.Cmp.Lexicographic.{slice_cmp};
ghost use Rattle.b_values.specs.OrderLaws.{value_total};
ghost use Rattle.b_values.specs.Values.{rank, same_state, same_value, value_cmp};
ghost use Rattle.b_values.specs.declared.values.Value.{out-Value};

use crate::values::{State, Value};
use std::cmp::Ordering;

/// The order of values: integers by number, FALSE before TRUE, texts by bytes, elements by set and then position,
/// couples by their first and then their second parts, sets as ascending lists in dictionary order, a proper prefix
/// first. Values of different kinds stand in the order of this list, so that it is total. It takes no memory.
#[cycle(order)]
pub fn order(a: &Value, b: &Value) -> Ordering
    ensures { result ≡ value_cmp a.now b.now }
{
    match (a, b) {
        (Value::Int(m), Value::Int(n)) => m.cmp(n),
        (Value::Truth(p), Value::Truth(q)) => p.cmp(q),
        (Value::Text(s), Value::Text(t)) => s.get().as_slice().cmp(t.get().as_slice()),
        (Value::Elem { set: s, index: i }, Value::Elem { set: t, index: j }) => s
            .cmp(t)
            .then(i.cmp(j)),
        (Value::Pair(a, b), Value::Pair(c, d)) => match order(a.get(), c.get()) {
            Ordering::Equal => order(b.get(), d.get()),
            other => other,
        },
        (Value::Set(xs), Value::Set(ys)) => order_items(xs.get().as_slice(), ys.get().as_slice()),
        _ => rank_of(a).cmp(&rank_of(b)),
    }
}

/// Lists of values in dictionary order, a proper prefix first.
#[cycle(order)]
pub fn order_items(xs: &[Value], ys: &[Value]) -> Ordering
    ensures { result ≡ slice_cmp value_cmp xs.now ys.now }
{
    for (x, y) in xs.iter().zip(ys) {
        match order(x, y) {
            Ordering::Equal => {}
            other => return other,
        }
    }
    xs.len().cmp(&ys.len())
}

fn rank_of(v: &Value) -> u8
    ensures { result ≡ rank (out-Value v.now) }
{
    match v {
        Value::Int(_) => 0,
        Value::Truth(_) => 1,
        Value::Text(_) => 2,
        Value::Elem { .. } => 3,
        Value::Pair(_, _) => 4,
        Value::Set(_) => 5,
    }
}

impl PartialEq for Value {
    ghost eq = { same_value };

    ghost laws = { partial_equiv_from_equiv (eq_by_cmp_equiv value_total) };

    fn eq(&self, other: &Value) -> bool {
        order(self, other).is_eq()
    }
}

impl Eq for Value {
    ghost laws = { eq_by_cmp_equiv value_total };
}

impl PartialOrd for Value {
    ghost partial_cmp = { λ a b. Some (value_cmp a b) };

    ghost laws = { partial_order_from_total value_total };

    fn partial_cmp(&self, other: &Value) -> Option<Ordering> {
        Some(order(self, other))
    }
}

impl Ord for Value {
    ghost cmp = { value_cmp };

    ghost total = { value_total };

    ghost matches_partial_cmp = { λ a b. refl };

    ghost matches_eq = { λ a b. refl };

    fn cmp(&self, other: &Value) -> Ordering {
        order(self, other)
    }
}

/// Whether two values are one.
pub fn same_value(a: &Value, b: &Value) -> bool
    ensures value { result ≡ same_value a.now b.now }
    ensures equal { IsTrue result ↔ (a.now ≡ b.now) }
{
    a == b
}

/// Whether two states are one.
pub fn same_state(a: &State, b: &State) -> bool
    ensures value { result ≡ same_state a.now b.now }
    ensures equal { IsTrue result ↔ (a.now ≡ b.now) }
{
    match (a, b) {
        (State::Root, State::Root) => true,
        (State::Constants(cs), State::Constants(ds)) => cs.as_slice() == ds.as_slice(),
        (State::Running(cs, vs), State::Running(ds, ws)) => {
            cs.as_slice() == ds.as_slice() && vs.as_slice() == ws.as_slice()
        }
        _ => false,
    }
}
