ghost use Rattle.std.specs.Prelude.{◌≡◌, ◌↔◌, [], ◌∷◌, filter, map, IfOk};
ghost use Rattle.std.specs.List.{flat_map};
ghost use Rattle.ascending.specs.Ascending.{In, IsAscending};
ghost use Rattle.b_values.specs.Values.{IsKept, elements, value_cmp};
ghost use Rattle.b_values.specs.declared.values.Value.{Value};
ghost use Rattle.b_values.specs.declared.values.Value.TheVariants.{Pair};
ghost use Rattle.set_making.specs.Making as sets;
ghost use Rattle.set_making.specs.Making.{Answers};
ghost use Rattle.b_relations.specs.Joining as spec;
ghost use Rattle.b_relations.specs.Joining.{Adds, joined};
ghost use Rattle.b_relations.specs.Relations.{Relates, compose_row, couples, couples_in, direct_row, parallel_row, prj1_row, prj2_row};

use crate::walking::{Side, couples_from};
use b_values::Value;
use set_making::{Gathering, OpFault, couple};
use std::alloc::{AllocError, Global};

/// How couples of two relations are joined.
#[derive(Clone, Copy)]
pub enum Join {
    /// One after the other.
    Compose,
    /// From one first part to both second parts.
    Direct,
    /// Side by side.
    Parallel,
}

/// `r ; s`
pub fn compose(alloc: Global, r: &Value, s: &Value) -> Result<Value, OpFault>
    requires first { IsKept r.now }
    requires second { IsKept s.now }
    ensures value { Answers (compose_row r.now s.now) result }
    ensures kept { IfOk result (λ v. IsKept v) }
    ensures members { IfOk result (λ v. (x z : Value) → Relates v x z ↔ ((y : Value) × Relates r.now x y × Relates s.now y z)) }
{
    join_all(alloc, Join::Compose, r.members(), s.members())
}

/// `r >< s`
pub fn direct(alloc: Global, r: &Value, s: &Value) -> Result<Value, OpFault>
    requires first { IsKept r.now }
    requires second { IsKept s.now }
    ensures value { Answers (direct_row r.now s.now) result }
    ensures kept { IfOk result (λ v. IsKept v) }
    ensures members { IfOk result (λ v. (x y z : Value) → Relates v x (Pair y z) ↔ (Relates r.now x y × Relates s.now x z)) }
{
    join_all(alloc, Join::Direct, r.members(), s.members())
}

/// `r || s`
pub fn parallel(alloc: Global, r: &Value, s: &Value) -> Result<Value, OpFault>
    requires first { IsKept r.now }
    requires second { IsKept s.now }
    ensures value { Answers (parallel_row r.now s.now) result }
    ensures kept { IfOk result (λ v. IsKept v) }
    ensures members { IfOk result (λ v. (x y z w : Value) → Relates v (Pair x y) (Pair z w) ↔ (Relates r.now x z × Relates s.now y w)) }
{
    join_all(alloc, Join::Parallel, r.members(), s.members())
}

/// `prj1(S,T)`
pub fn prj1(alloc: Global, s: &Value, t: &Value) -> Result<Value, OpFault>
    requires first { IsKept s.now }
    requires second { IsKept t.now }
    ensures value { Answers (prj1_row s.now t.now) result }
    ensures kept { IfOk result (λ v. IsKept v) }
    ensures members { IfOk result (λ v. (x y z : Value) → Relates v (Pair x y) z ↔ (In x (elements s.now) × In y (elements t.now) × (z ≡ x))) }
{
    project(alloc, Side::Left, s.members(), t.members())
}

/// `prj2(S,T)`
pub fn prj2(alloc: Global, s: &Value, t: &Value) -> Result<Value, OpFault>
    requires first { IsKept s.now }
    requires second { IsKept t.now }
    ensures value { Answers (prj2_row s.now t.now) result }
    ensures kept { IfOk result (λ v. IsKept v) }
    ensures members { IfOk result (λ v. (x y z : Value) → Relates v (Pair x y) z ↔ (In x (elements s.now) × In y (elements t.now) × (z ≡ y))) }
{
    project(alloc, Side::Right, s.members(), t.members())
}

/// What is made of each couple of the first and each of the second that goes with it.
fn join_all(alloc: Global, how: Join, r: &[Value], s: &[Value]) -> Result<Value, OpFault>
    requires { IsAscending value_cmp s.now }
    ensures { Answers (sets.set_with (joined how (couples_in r.now) (couples_in s.now))) result }
{
    let mut gathering = Gathering::new(alloc);
    for m in r {
        if let Err(fault) = add_joined(alloc, &mut gathering, how, m, s) {
            return Err(fault);
        }
    }
    gathering.finish()
}

/// Gathers what is made of one member, where it is a couple, and of each couple of s that goes with it.
fn add_joined(
    alloc: Global,
    gathering: &mut Gathering,
    how: Join,
    m: &Value,
    s: &[Value],
) -> Result<(), OpFault>
    requires { IsAscending value_cmp s.now }
    ensures { Adds gathering.old (joined how (couples_in (m.now ∷ [])) (couples_in s.now)) result gathering.new }
{
    match m {
        Value::Pair(a, b) => {
            let group = partners(how, a.get(), b.get(), s);
            add_group(alloc, gathering, how, a.get(), b.get(), group)
        }
        _ => Ok(()),
    }
}

/// The members of s that go with a couple; all, where every couple does.
fn partners<'a>(how: Join, a: &Value, b: &Value, s: &'a [Value]) -> &'a [Value]
    requires { IsAscending value_cmp s.now }
    ensures { couples_in result.now ≡ filter (spec.meets how (a.now, b.now)) (couples_in s.now) }
{
    match how {
        Join::Compose => couples_from(s, b),
        Join::Direct => couples_from(s, a),
        Join::Parallel => s,
    }
}

/// Gathers what is made of a couple and each couple of the group.
fn add_group(
    alloc: Global,
    gathering: &mut Gathering,
    how: Join,
    a: &Value,
    b: &Value,
    group: &[Value],
) -> Result<(), OpFault>
    ensures { Adds gathering.old (map (spec.made how (a.now, b.now)) (couples_in group.now)) result gathering.new }
{
    for m in group {
        if let Err(fault) = add_made(alloc, gathering, how, a, b, m) {
            return Err(fault);
        }
    }
    Ok(())
}

fn add_made(
    alloc: Global,
    gathering: &mut Gathering,
    how: Join,
    a: &Value,
    b: &Value,
    m: &Value,
) -> Result<(), OpFault>
    ensures { Adds gathering.old (map (spec.made how (a.now, b.now)) (couples_in (m.now ∷ []))) result gathering.new }
{
    match m {
        Value::Pair(c, d) => match make(alloc, how, a, b, c.get(), d.get()) {
            Ok(v) => gathering.add(v),
            Err(_) => Err(OpFault::Memory),
        },
        _ => Ok(()),
    }
}

fn make(
    alloc: Global,
    how: Join,
    a: &Value,
    b: &Value,
    c: &Value,
    d: &Value,
) -> Result<Value, AllocError>
    ensures { IfOk result (λ v. v ≡ spec.made how (a.now, b.now) (c.now, d.now)) }
{
    match how {
        Join::Compose => couple(alloc, a, d),
        Join::Direct => couple(alloc, a, &couple(alloc, b, d)?),
        Join::Parallel => couple(alloc, &couple(alloc, a, c)?, &couple(alloc, b, d)?),
    }
}

/// Each couple of a member of s and one of t, coupled with its part at the side.
fn project(alloc: Global, side: Side, s: &[Value], t: &[Value]) -> Result<Value, OpFault>
    ensures { Answers (sets.set_with (flat_map (λ x. map (spec.projection side x) t.now) s.now)) result }
{
    let mut gathering = Gathering::new(alloc);
    for x in s {
        if let Err(fault) = add_row(alloc, &mut gathering, side, x, t) {
            return Err(fault);
        }
    }
    gathering.finish()
}

fn add_row(
    alloc: Global,
    gathering: &mut Gathering,
    side: Side,
    x: &Value,
    t: &[Value],
) -> Result<(), OpFault>
    ensures { Adds gathering.old (map (spec.projection side x.now) t.now) result gathering.new }
{
    for y in t {
        if let Err(fault) = add_projection(alloc, gathering, side, x, y) {
            return Err(fault);
        }
    }
    Ok(())
}

fn add_projection(
    alloc: Global,
    gathering: &mut Gathering,
    side: Side,
    x: &Value,
    y: &Value,
) -> Result<(), OpFault>
    ensures { Adds gathering.old (spec.projection side x.now y.now ∷ []) result gathering.new }
{
    match projection(alloc, side, x, y) {
        Ok(v) => gathering.add(v),
        Err(_) => Err(OpFault::Memory),
    }
}

fn projection(alloc: Global, side: Side, x: &Value, y: &Value) -> Result<Value, AllocError>
    ensures { IfOk result (λ v. v ≡ spec.projection side x.now y.now) }
{
    let whole = couple(alloc, x, y)?;
    match side {
        Side::Left => couple(alloc, &whole, x),
        Side::Right => couple(alloc, &whole, y),
    }
}
