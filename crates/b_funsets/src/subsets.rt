ghost use Rattle.std.specs.Prelude.{◌≡◌, ◌+◌, ◌*◌, ◌^◌, ◌≤◌, ◌↔◌, [], ◌∷◌, ◌++◌, length, map, sum, IsTrue, IfOk, OnOk};
ghost use Rattle.ascending.specs.Ascending.{In, IsAscending};
ghost use Rattle.b_values.specs.Values.{elements, node_count, value_cmp, IsKept};
ghost use Rattle.b_values.specs.declared.values.Value.TheVariants.{Pair, Set};
ghost use Rattle.set_making.specs.Making.{set_with, Answers};
ghost use Rattle.b_funsets.specs.Families.{couples, nonempty_sublists, sublists, pow_row, pow1_row, relations_row, IsSubset, IsNonemptySubset, IsRelation};

use b_values::{FaultKind, Value, spend_all};
use set_making::{OpFault, couple, set_in_order};
use shared::Shared;
use sqlite_items::Items;
use std::alloc::{AllocError, Global};

/// A set of all subsets of n elements has 2^n members. Twice its nodes without its own is 2^n times two more than the
/// nodes of the elements; this is the most that the limit leaves of that.
const TWICE_ALL: u64 = 1_999_998;

/// The same without the empty set.
const TWICE_NONEMPTY: u64 = 2_000_000;

/// `POW(S)` and `FIN(S)`: the subsets of S. It is refused from the number of nodes alone, before a subset is built.
pub fn pow(alloc: Global, s: &Value) -> Result<Value, OpFault>
    requires { IsKept s.now }
    ensures value { Answers (pow_row s.now) result }
    ensures kept { IfOk result (λ v. IsKept v) }
    ensures members { IfOk result (λ v. (x : Value) → In x (elements v) ↔ IsSubset s.now x) }
{
    all_subsets(alloc, s.members())
}

/// `POW1(S)` and `FIN1(S)`: the nonempty subsets of S. It is refused from the number of nodes alone.
pub fn pow1(alloc: Global, s: &Value) -> Result<Value, OpFault>
    requires { IsKept s.now }
    ensures value { Answers (pow1_row s.now) result }
    ensures kept { IfOk result (λ v. IsKept v) }
    ensures members { IfOk result (λ v. (x : Value) → In x (elements v) ↔ IsNonemptySubset s.now x) }
{
    some_subsets(alloc, s.members())
}

/// `S <-> T`: the relations between S and T. It is refused from the numbers of elements and nodes alone.
pub fn relations(alloc: Global, s: &Value, t: &Value) -> Result<Value, OpFault>
    requires left { IsKept s.now }
    requires right { IsKept t.now }
    ensures value { Answers (relations_row s.now t.now) result }
    ensures kept { IfOk result (λ v. IsKept v) }
    ensures members { IfOk result (λ v. (x : Value) → In x (elements v) ↔ IsRelation s.now t.now x) }
{
    if !is_product_within(s.members().len(), t.members().len(), 20) {
        return Err(OpFault::Fault(FaultKind::TooLarge));
    }
    match couples_of(alloc, s.members(), t.members()) {
        Ok(cs) => all_subsets(alloc, cs.as_slice()),
        Err(_) => Err(OpFault::Memory),
    }
}

fn all_subsets(alloc: Global, members: &[Value]) -> Result<Value, OpFault>
    requires { IsAscending value_cmp members.now }
    ensures { Answers (set_with (map Set (sublists members.now))) result }
{
    if !is_within(members, TWICE_ALL) {
        return Err(OpFault::Fault(FaultKind::TooLarge));
    }
    match with_empty(alloc, members) {
        Ok(sets) => set_in_order(alloc, sets),
        Err(_) => Err(OpFault::Memory),
    }
}

fn some_subsets(alloc: Global, members: &[Value]) -> Result<Value, OpFault>
    requires { IsAscending value_cmp members.now }
    ensures { Answers (set_with (map Set (nonempty_sublists members.now))) result }
{
    if !is_within(members, TWICE_NONEMPTY) {
        return Err(OpFault::Fault(FaultKind::TooLarge));
    }
    match nonempty(alloc, members) {
        Ok(sets) => set_in_order(alloc, sets),
        Err(_) => Err(OpFault::Memory),
    }
}

/// Whether 2^n times two more than the nodes of n values is within a limit.
fn is_within(members: &[Value], limit: u64) -> bool
    requires { limit ≤ 2000000 }
    ensures { IsTrue result ↔ (2 ^ length members.now * (2 + sum (map node_count members.now)) ≤ limit) }
{
    if members.len() > 20 {
        return false;
    }
    match spend_all(members, limit) {
        Some(left) => (1u64 << members.len()) * (2 + (limit - left)) <= limit,
        None => false,
    }
}

fn is_product_within(m: usize, n: usize, limit: usize) -> bool
    ensures { IsTrue result ↔ (m * n ≤ limit) }
{
    n == 0 || m <= limit / n
}

/// The subsets, in dictionary order.
fn with_empty(alloc: Global, members: &[Value]) -> Result<Items<Value>, AllocError>
    ensures { IfOk result (λ sets. sets ≡ map Set (sublists members.now)) }
{
    let mut sets = only_empty(alloc)?;
    sets.append(nonempty(alloc, members)?)?;
    Ok(sets)
}

/// The empty set alone.
pub fn only_empty(alloc: Global) -> Result<Items<Value>, AllocError>
    ensures { IfOk result (λ sets. sets ≡ Set [] ∷ []) }
{
    let mut sets = Items::new(alloc);
    sets.push(Value::Set(Shared::new(alloc, Items::new(alloc))?))?;
    Ok(sets)
}

/// The nonempty subsets, in dictionary order.
fn nonempty(alloc: Global, members: &[Value]) -> Result<Items<Value>, AllocError>
    ensures { IfOk result (λ sets. sets ≡ map Set (nonempty_sublists members.now)) }
{
    let mut sets = Items::new(alloc);
    let mut i = members.len();
    while i > 0 {
        i -= 1;
        sets = with_first(alloc, &members[i], sets)?;
    }
    Ok(sets)
}

/// The value alone, the value before the members of each of the sets, and the sets.
fn with_first(alloc: Global, x: &Value, sets: Items<Value>) -> Result<Items<Value>, AllocError>
    ensures { IfOk result (λ more. more ≡ map (λ v. Set (x.now ∷ elements v)) (Set [] ∷ sets) ++ sets) }
{
    let mut more = Items::new(alloc);
    more.push(set_beginning(alloc, x, &[])?)?;
    for v in sets.as_slice() {
        more.push(set_beginning(alloc, x, v.members())?)?;
    }
    more.append(sets)?;
    Ok(more)
}

fn set_beginning(alloc: Global, x: &Value, rest: &[Value]) -> Result<Value, AllocError>
    ensures { IfOk result (λ v. v ≡ Set (x.now ∷ rest.now)) }
{
    let mut items = Items::new(alloc);
    items.push(x.share()?)?;
    for y in rest {
        items.push(y.share()?)?;
    }
    Ok(Value::Set(Shared::new(alloc, items)?))
}

/// The couples of a member of the first list and a member of the second, in order.
fn couples_of(alloc: Global, s: &[Value], t: &[Value]) -> Result<Items<Value>, AllocError>
    ensures { IfOk result (λ cs. cs ≡ couples s.now t.now) }
{
    let mut cs = Items::new(alloc);
    for x in s {
        push_couples(alloc, &mut cs, x, t)?;
    }
    Ok(cs)
}

pub fn push_couples(
    alloc: Global,
    cs: &mut Items<Value>,
    x: &Value,
    t: &[Value],
) -> Result<(), AllocError>
    ensures { OnOk result (cs.new ≡ cs.old ++ map (λ y. Pair x.now y) t.now) }
{
    for y in t {
        cs.push(couple(alloc, x, y)?)?;
    }
    Ok(())
}
