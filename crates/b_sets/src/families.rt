ghost use Rattle.std.specs.Prelude.{◌≡◌, ◌↔◌, ◌++◌, filter, IfOk, OnOk};
ghost use Rattle.std.specs.List.{AllByRecursion};
ghost use Rattle.ascending.specs.Ascending.{In, IsAscending};
ghost use Rattle.b_sets.specs.Rows as spec;
ghost use Rattle.b_sets.specs.Rows.{big_union_row, big_inter_row};
ghost use Rattle.b_values.specs.Values.{elements, value_cmp, IsKept, IsValue};
ghost use Rattle.b_values.specs.declared.values.Value.{Value};
ghost use Rattle.set_making.specs.Making.{Answers};
ghost use Rattle.std.specs.List.{flat_map};

use b_values::{FaultKind, Value};
use set_making::{OpFault, is_among, set_in_order, set_with};
use sqlite_items::Items;
use std::alloc::{AllocError, Global};

/// `union(U)`, in n log n comparisons of the members of members.
pub fn big_union(alloc: Global, a: &Value) -> Result<Value, OpFault>
    requires { IsKept a.now }
    ensures value { Answers (big_union_row a.now) result }
    ensures kept { IfOk result (λ v. IsKept v) }
    ensures members { IfOk result (λ v. (x : Value) → In x (elements v) ↔ ((s : Value) × In s (elements a.now) × In x (elements s))) }
{
    match members_of_all(alloc, a.members()) {
        Ok(found) => set_with(alloc, found),
        Err(_) => Err(OpFault::Memory),
    }
}

/// `inter(U)`, ill-defined where U is empty. There are at most as many binary searches as members of members.
pub fn big_inter(alloc: Global, a: &Value) -> Result<Value, OpFault>
    requires { IsKept a.now }
    ensures value { Answers (big_inter_row a.now) result }
    ensures kept { IfOk result (λ v. IsKept v) }
    ensures members { IfOk result (λ v. (x : Value) → In x (elements v) ↔ ((s : Value) → In s (elements a.now) → In x (elements s))) }
{
    common(alloc, a.members())
}

/// The set of the members of the first set that are members of each other.
fn common(alloc: Global, sets: &[Value]) -> Result<Value, OpFault>
    requires { AllByRecursion IsValue sets.now }
    ensures { Answers (spec.common_row sets.now) result }
{
    match sets {
        [] => Err(OpFault::Fault(FaultKind::IllDefined)),
        [first, others @ ..] => match those_in_each(alloc, first.members(), others) {
            Ok(items) => set_in_order(alloc, items),
            Err(_) => Err(OpFault::Memory),
        },
    }
}

fn members_of_all(alloc: Global, sets: &[Value]) -> Result<Vec<Value>, AllocError>
    ensures { IfOk result (λ found. found.items ≡ flat_map elements sets.now) }
{
    let mut found = Vec::new(alloc);
    for set in sets {
        push_shares(&mut found, set.members())?;
    }
    Ok(found)
}

fn push_shares(found: &mut Vec<Value>, more: &[Value]) -> Result<(), AllocError>
    ensures { OnOk result (found.new.items ≡ found.old.items ++ more.now) }
{
    for x in more {
        found.push(x.share()?)?;
    }
    Ok(())
}

/// The values that are members of each set.
fn those_in_each(alloc: Global, xs: &[Value], sets: &[Value]) -> Result<Items<Value>, AllocError>
    requires { AllByRecursion IsValue sets.now }
    ensures { IfOk result (λ zs. zs ≡ filter (spec.in_each sets.now) xs.now) }
{
    let mut found = Items::new(alloc);
    for x in xs {
        if in_each(sets, x) {
            found.push(x.share()?)?;
        }
    }
    Ok(found)
}

/// Whether a value is a member of each set.
fn in_each(sets: &[Value], x: &Value) -> bool
    requires { AllByRecursion IsValue sets.now }
    ensures { result ≡ spec.in_each sets.now x.now }
{
    for set in sets {
        if !is_among(set.members(), x) {
            return false;
        }
    }
    true
}
