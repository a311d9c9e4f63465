ghost use Rattle.std.specs.Prelude.{◌≡◌, ◌++◌, map, filter, IfOk, OnOk};
ghost use Rattle.std.specs.declared.cmp.Ordering.TheVariants.{Less, Greater};
ghost use Rattle.ascending.specs.Ascending.{IsAscending};
ghost use Rattle.b_values.specs.Values.{value_cmp};
ghost use Rattle.b_values.specs.declared.values.Value.{out-Value};
ghost use Rattle.b_relations.specs.Parts as spec;
ghost use Rattle.b_relations.specs.Parts.{begins_with, passes};
ghost use Rattle.b_relations.specs.Relations.{couples_in};

use b_values::{Value, order};
use set_making::{couple, is_among};
use sqlite_items::Items;
use std::alloc::{AllocError, Global};
use std::cmp::Ordering;

/// What is taken of a couple.
#[derive(Clone, Copy)]
pub enum Taken {
    First,
    Second,
    /// The couple with its parts the other way round.
    Turned,
}

/// A side of a couple.
#[derive(Clone, Copy)]
pub enum Side {
    Left,
    Right,
}

fn take_from(alloc: Global, what: Taken, a: &Value, b: &Value) -> Result<Value, AllocError>
    ensures { IfOk result (λ v. v ≡ spec.taken what (a.now, b.now)) }
{
    match what {
        Taken::First => a.share(),
        Taken::Second => b.share(),
        Taken::Turned => couple(alloc, b, a),
    }
}

/// Puts what is taken of each couple at the end.
pub fn take_into(
    alloc: Global,
    found: &mut Vec<Value>,
    members: &[Value],
    what: Taken,
) -> Result<(), AllocError>
    ensures { OnOk result (found.new.items ≡ found.old.items ++ map (spec.taken what) (couples_in members.now)) }
{
    for m in members {
        if let Value::Pair(a, b) = m {
            found.push(take_from(alloc, what, a.get(), b.get())?)?;
        }
    }
    Ok(())
}

/// What is taken of each couple, in their order.
pub fn take_all(alloc: Global, members: &[Value], what: Taken) -> Result<Vec<Value>, AllocError>
    ensures { IfOk result (λ v. v.items ≡ map (spec.taken what) (couples_in members.now)) }
{
    let mut found = Vec::new(alloc);
    take_into(alloc, &mut found, members, what)?;
    Ok(found)
}

/// Whether a value is a couple whose part at the side is in the set, or, where not `within`, isn't.
fn keeps(m: &Value, side: Side, set: &[Value], within: bool) -> bool
    requires { IsAscending value_cmp set.now }
    ensures { result ≡ passes (spec.keeps side set.now within) m.now }
{
    match m {
        Value::Pair(a, b) => {
            let part = match side {
                Side::Left => a.get(),
                Side::Right => b.get(),
            };
            if within {
                is_among(set, part)
            } else {
                !is_among(set, part)
            }
        }
        _ => false,
    }
}

/// The couples whose part at the side is in the set, or, where not `within`, isn't, in their order.
pub fn kept_couples(
    alloc: Global,
    members: &[Value],
    side: Side,
    set: &[Value],
    within: bool,
) -> Result<Items<Value>, AllocError>
    requires { IsAscending value_cmp set.now }
    ensures { IfOk result (λ kept. kept ≡ filter (passes (spec.keeps side set.now within)) members.now) }
{
    let mut kept = Items::new(alloc);
    for m in members {
        if keeps(m, side, set, within) {
            kept.push(m.share()?)?;
        }
    }
    Ok(kept)
}

/// How a member stands to the couples whose first part is x.
fn first_order(m: &Value, x: &Value) -> Ordering
    ensures { result ≡ spec.first_cmp (out-Value m.now) x.now }
{
    match m {
        Value::Pair(a, _) => order(a.get(), x),
        Value::Set(_) => Ordering::Greater,
        _ => Ordering::Less,
    }
}

/// The couples whose first part is x: they stand together. Two binary searches.
pub fn couples_from<'a>(members: &'a [Value], x: &Value) -> &'a [Value]
    requires { IsAscending value_cmp members.now }
    ensures { result.now ≡ filter (begins_with x.now) members.now }
{
    let low = members.partition_point(|m| first_order(m, x).is_lt());
    let rest = &members[low..];
    let count = rest.partition_point(|m| !first_order(m, x).is_gt());
    &rest[..count]
}
