ghost use Rattle.std.specs.Prelude.{◌≡◌, ◌⊎◌, ◌↔◌, ◌++◌, filter, not, IfOk};
ghost use Rattle.ascending.specs.Ascending.{In, IsAscending};
ghost use Rattle.b_sets.specs.Rows.{union_row, intersect_row, difference_row};
ghost use Rattle.b_values.specs.Values.{elements, value_cmp, IsKept};
ghost use Rattle.b_values.specs.declared.values.Value.{Value};
ghost use Rattle.set_making.specs.Making as spec;
ghost use Rattle.set_making.specs.Making.{Answers};

use b_values::Value;
use set_making::{OpFault, is_among, merge, set_in_order};
use sqlite_items::Items;
use std::alloc::{AllocError, Global};

/// `S \/ T`, by one merge.
pub fn union(alloc: Global, a: &Value, b: &Value) -> Result<Value, OpFault>
    requires left { IsKept a.now }
    requires right { IsKept b.now }
    ensures value { Answers (union_row a.now b.now) result }
    ensures kept { IfOk result (λ v. IsKept v) }
    ensures members { IfOk result (λ v. (x : Value) → In x (elements v) ↔ (In x (elements a.now) ⊎ In x (elements b.now))) }
{
    merged(alloc, a.members(), b.members())
}

/// `S /\ T`: a binary search in the larger for each member of the smaller.
pub fn intersect(alloc: Global, a: &Value, b: &Value) -> Result<Value, OpFault>
    requires left { IsKept a.now }
    requires right { IsKept b.now }
    ensures value { Answers (intersect_row a.now b.now) result }
    ensures kept { IfOk result (λ v. IsKept v) }
    ensures members { IfOk result (λ v. (x : Value) → In x (elements v) ↔ (In x (elements a.now) × In x (elements b.now))) }
{
    intersection(alloc, a.members(), b.members())
}

/// `S - T`: a binary search in T for each member of S.
pub fn difference(alloc: Global, a: &Value, b: &Value) -> Result<Value, OpFault>
    requires left { IsKept a.now }
    requires right { IsKept b.now }
    ensures value { Answers (difference_row a.now b.now) result }
    ensures kept { IfOk result (λ v. IsKept v) }
    ensures members { IfOk result (λ v. (x : Value) → In x (elements v) ↔ (In x (elements a.now) × (In x (elements b.now) → ⊥))) }
{
    others(alloc, a.members(), b.members())
}

/// The set of the values of two lists.
fn merged(alloc: Global, xs: &[Value], ys: &[Value]) -> Result<Value, OpFault>
    requires left { IsAscending value_cmp xs.now }
    requires right { IsAscending value_cmp ys.now }
    ensures { Answers (spec.set_with (xs.now ++ ys.now)) result }
{
    match merge(alloc, xs, ys) {
        Ok(items) => set_in_order(alloc, items),
        Err(_) => Err(OpFault::Memory),
    }
}

/// The set of the values of the first list that are in the second, by the shorter of them.
fn intersection(alloc: Global, xs: &[Value], ys: &[Value]) -> Result<Value, OpFault>
    requires left { IsAscending value_cmp xs.now }
    requires right { IsAscending value_cmp ys.now }
    ensures { Answers (spec.set_with (filter (λ x. spec.is_among ys.now x) xs.now)) result }
{
    if xs.len() <= ys.len() {
        common(alloc, xs, ys)
    } else {
        common(alloc, ys, xs)
    }
}

/// The set of the values of the first list that are not in the second.
fn others(alloc: Global, xs: &[Value], ys: &[Value]) -> Result<Value, OpFault>
    requires left { IsAscending value_cmp xs.now }
    requires right { IsAscending value_cmp ys.now }
    ensures { Answers (spec.set_with (filter (λ x. not (spec.is_among ys.now x)) xs.now)) result }
{
    match those_not_among(alloc, xs, ys) {
        Ok(items) => set_in_order(alloc, items),
        Err(_) => Err(OpFault::Memory),
    }
}

/// The set of the values of the first list that are in the second.
fn common(alloc: Global, xs: &[Value], ys: &[Value]) -> Result<Value, OpFault>
    requires left { IsAscending value_cmp xs.now }
    requires right { IsAscending value_cmp ys.now }
    ensures { Answers (spec.set_with (filter (λ x. spec.is_among ys.now x) xs.now)) result }
{
    match those_among(alloc, xs, ys) {
        Ok(items) => set_in_order(alloc, items),
        Err(_) => Err(OpFault::Memory),
    }
}

/// The values of the first list that are in the second.
fn those_among(alloc: Global, xs: &[Value], ys: &[Value]) -> Result<Items<Value>, AllocError>
    requires { IsAscending value_cmp ys.now }
    ensures { IfOk result (λ zs. zs ≡ filter (λ x. spec.is_among ys.now x) xs.now) }
{
    let mut found = Items::new(alloc);
    for x in xs {
        if is_among(ys, x) {
            found.push(x.share()?)?;
        }
    }
    Ok(found)
}

/// The values of the first list that are not in the second.
fn those_not_among(alloc: Global, xs: &[Value], ys: &[Value]) -> Result<Items<Value>, AllocError>
    requires { IsAscending value_cmp ys.now }
    ensures { IfOk result (λ zs. zs ≡ filter (λ x. not (spec.is_among ys.now x)) xs.now) }
{
    let mut found = Items::new(alloc);
    for x in xs {
        if !is_among(ys, x) {
            found.push(x.share()?)?;
        }
    }
    Ok(found)
}
