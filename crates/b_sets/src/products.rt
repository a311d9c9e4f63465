ghost use Rattle.std.specs.Prelude.{◌≡◌, ◌↔◌, ◌≤◌, ◌++◌, length, map, sum, IfOk, OnOk};
ghost use Rattle.ascending.specs.Ascending.{In, IsAscending};
ghost use Rattle.b_sets.specs.Members.{IsCoupleOf};
ghost use Rattle.b_sets.specs.Rows as spec;
ghost use Rattle.b_sets.specs.Rows.{times_row};
ghost use Rattle.b_values.specs.Values.{elements, node_count, value_cmp, IsKept};
ghost use Rattle.b_values.specs.declared.values.Value.{Value};
ghost use Rattle.b_values.specs.declared.values.Value.TheVariants.{Pair};
ghost use Rattle.set_making.specs.Making as making;
ghost use Rattle.set_making.specs.Making.{Answers};

use b_values::{FaultKind, NODE_LIMIT, Value, spend_all};
use set_making::{OpFault, set_in_order};
use shared::Shared;
use sqlite_items::Items;
use std::alloc::{AllocError, Global};

/// `S * T`. What is too large is refused before a couple is built.
pub fn times(alloc: Global, a: &Value, b: &Value) -> Result<Value, OpFault>
    requires left { IsKept a.now }
    requires right { IsKept b.now }
    ensures value { Answers (times_row a.now b.now) result }
    ensures kept { IfOk result (λ v. IsKept v) }
    ensures members { IfOk result (λ v. (x : Value) → In x (elements v) ↔ IsCoupleOf (elements a.now) (elements b.now) x) }
{
    product(alloc, a.members(), b.members())
}

fn product(alloc: Global, xs: &[Value], ys: &[Value]) -> Result<Value, OpFault>
    requires first { IsAscending value_cmp xs.now }
    requires second { IsAscending value_cmp ys.now }
    requires left { sum (map node_count xs.now) ≤ 1000000 }
    requires right { sum (map node_count ys.now) ≤ 1000000 }
    ensures { Answers (making.set_with (spec.couples xs.now ys.now)) result }
{
    if nodes_of_couples(xs, ys) >= NODE_LIMIT {
        return Err(OpFault::Fault(FaultKind::TooLarge));
    }
    match couples(alloc, xs, ys) {
        Ok(items) => set_in_order(alloc, items),
        Err(_) => Err(OpFault::Memory),
    }
}

/// How many nodes the couples of two lists have.
fn nodes_of_couples(xs: &[Value], ys: &[Value]) -> u64
    requires left { sum (map node_count xs.now) ≤ 1000000 }
    requires right { sum (map node_count ys.now) ≤ 1000000 }
    ensures { result ≡ sum (map node_count (spec.couples xs.now ys.now)) }
{
    let left = xs.len() as u64;
    let right = ys.len() as u64;
    left * (right + nodes_of_all(ys)) + right * nodes_of_all(xs)
}

fn nodes_of_all(xs: &[Value]) -> u64
    requires { sum (map node_count xs.now) ≤ 1000000 }
    ensures { result ≡ sum (map node_count xs.now) }
{
    match spend_all(xs, NODE_LIMIT) {
        Some(left) => NODE_LIMIT - left,
        None => unreachable!(),
    }
}

/// Each value of the first list with each of the second. Each value is shared by all of its couples.
fn couples(alloc: Global, xs: &[Value], ys: &[Value]) -> Result<Items<Value>, AllocError>
    ensures { IfOk result (λ zs. zs ≡ spec.couples xs.now ys.now) }
{
    let seconds = handles(alloc, ys)?;
    let mut found = Items::new(alloc);
    for x in xs {
        let first = Shared::new(alloc, x.share()?)?;
        push_couples(&mut found, &first, seconds.as_slice())?;
    }
    Ok(found)
}

fn handles(alloc: Global, ys: &[Value]) -> Result<Items<Shared<Value>>, AllocError>
    ensures { IfOk result (λ zs. zs ≡ ys.now) }
{
    let mut made = Items::new(alloc);
    for y in ys {
        made.push(Shared::new(alloc, y.share()?)?)?;
    }
    Ok(made)
}

fn push_couples(
    found: &mut Items<Value>,
    first: &Shared<Value>,
    seconds: &[Shared<Value>],
) -> Result<(), AllocError>
    ensures { OnOk result (found.new ≡ found.old ++ map (λ y. Pair first.now y) seconds.now) }
{
    for second in seconds {
        found.push(Value::Pair(first.share()?, second.share()?))?;
    }
    Ok(())
}
