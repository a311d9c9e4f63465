ghost use Rattle.std.specs.Prelude.{◌≡◌, ◌↔◌, ◌++◌, [], ◌∷◌, ℕ, pos, negsuc, map, IfOk, OnOk, MatchOption};
ghost use Rattle.ascending.specs.Ascending.{IsAscending, set_of};
ghost use Rattle.b_values.specs.Values.{IsKept, value_cmp};
ghost use Rattle.b_values.specs.declared.values.Value.{Value};
ghost use Rattle.b_values.specs.declared.values.Value.TheVariants.{Int};
ghost use Rattle.set_making.specs.Making as sets;
ghost use Rattle.set_making.specs.Making.{Answers};
ghost use Rattle.b_relations.specs.Joining.{joined};
ghost use Rattle.b_relations.specs.Listed.{SameMembers};
ghost use Rattle.b_relations.specs.Relations as rows;
ghost use Rattle.b_relations.specs.declared.joining.Join.TheVariants.{Compose};
ghost use Rattle.b_relations.specs.Relations.{Leads, Relates, composed, couples, couples_in, iterate_row};

use crate::turning::twins;
use crate::walking::{Taken, couples_from, take_all, take_into};
use ascending::make_ascending;
use b_values::{FaultKind, Value, set_from};
use set_making::{OpFault, couple, set_in_order};
use sqlite_items::Items;
use std::alloc::{AllocError, Global};

/// How many values may be gathered before doubles go for the first time.
const FIRST_ROOM: usize = 65_536;

/// `iterate(r,n)`: by squaring, so that at most twice the binary digits of n many compositions are made. Only the result
/// has a limit of nodes.
pub fn iterate(alloc: Global, r: &Value, n: &Value) -> Result<Value, OpFault>
    requires relation { IsKept r.now }
    requires times { IsKept n.now }
    ensures value { Answers (iterate_row r.now n.now) result }
    ensures kept { IfOk result (λ v. IsKept v) }
    ensures members { (k : ℕ) → n.now ≡ Int (pos k) → IfOk result (λ v. (x z : Value) → Relates v x z ↔ Leads r.now k x z) }
{
    match n {
        Value::Int(number) => match times_of(*number) {
            Some(times) => iterated(alloc, r, times),
            None => Err(OpFault::Fault(FaultKind::IllDefined)),
        },
        _ => Err(OpFault::Fault(FaultKind::IllDefined)),
    }
}

/// The number as a count; None where it is negative.
fn times_of(number: i128) -> Option<u128>
    ensures { MatchOption result ((m : ℕ) × (number ≡ negsuc m)) (λ k. number ≡ pos k) }
{
    if number < 0 {
        None
    } else {
        Some(number as u128)
    }
}

fn iterated(alloc: Global, r: &Value, times: u128) -> Result<Value, OpFault>
    requires { IsKept r.now }
    ensures { Answers (sets.set_with (map rows.couple (rows.iterated (couples r.now) times))) result }
{
    match steps(alloc, r.members(), times) {
        Ok(members) => set_in_order(alloc, members),
        Err(_) => Err(OpFault::Memory),
    }
}

/// The iterate for a number of times: the square of that for half of it, and once more where it is odd.
fn steps(alloc: Global, relation: &[Value], times: u128) -> Result<Items<Value>, AllocError>
    requires { IsAscending value_cmp relation.now }
    ensures { IfOk result (λ items. items ≡ set_of value_cmp (map rows.couple (rows.iterated (couples_in relation.now) times))) }
{
    if times == 0 {
        return standing(alloc, relation);
    }
    let half = steps(alloc, relation, times / 2)?;
    let square = composition(alloc, half.as_slice(), half.as_slice())?;
    if times % 2 == 0 {
        Ok(square)
    } else {
        composition(alloc, square.as_slice(), relation)
    }
}

/// What stands in a couple, coupled with itself.
pub fn standing(alloc: Global, relation: &[Value]) -> Result<Items<Value>, AllocError>
    ensures { IfOk result (λ items. items ≡ set_of value_cmp (map rows.couple (rows.iterated (couples_in relation.now) 0))) }
{
    let mut found = take_all(alloc, relation, Taken::First)?;
    take_into(alloc, &mut found, relation, Taken::Second)?;
    let field = set_from(found);
    Ok(set_from(twins(alloc, field.as_slice())?))
}

/// The composition, however large. Doubles go whenever what is gathered has doubled, so that at most some twice the
/// result and one more group stand in memory.
fn composition(alloc: Global, r: &[Value], s: &[Value]) -> Result<Items<Value>, AllocError>
    requires { IsAscending value_cmp s.now }
    ensures { IfOk result (λ items. items ≡ set_of value_cmp (map rows.couple (composed (couples_in r.now) (couples_in s.now)))) }
{
    let mut found = Vec::new(alloc);
    let mut room = FIRST_ROOM;
    for m in r {
        push_compositions(alloc, &mut found, m, s)?;
        room = make_room(&mut found, room);
    }
    Ok(set_from(found))
}

/// Takes out doubles where the room is full, and says how much room there is then.
fn make_room(found: &mut Vec<Value>, room: usize) -> usize
    ensures { SameMembers found.new.items found.old.items }
{
    if found.len() < room {
        return room;
    }
    make_ascending(found);
    found.len().saturating_mul(2).max(FIRST_ROOM)
}

/// Puts the compositions of one member with the couples of s at the end.
fn push_compositions(
    alloc: Global,
    found: &mut Vec<Value>,
    m: &Value,
    s: &[Value],
) -> Result<(), AllocError>
    requires { IsAscending value_cmp s.now }
    ensures { OnOk result (found.new.items ≡ found.old.items ++ joined Compose (couples_in (m.now ∷ [])) (couples_in s.now)) }
{
    match m {
        Value::Pair(a, b) => push_ends(alloc, found, a.get(), couples_from(s, b.get())),
        _ => Ok(()),
    }
}

fn push_ends(
    alloc: Global,
    found: &mut Vec<Value>,
    a: &Value,
    group: &[Value],
) -> Result<(), AllocError>
    ensures { OnOk result (found.new.items ≡ found.old.items ++ map (λ q. rows.couple (a.now, q.1)) (couples_in group.now)) }
{
    for m in group {
        if let Value::Pair(_, d) = m {
            found.push(couple(alloc, a, d.get())?)?;
        }
    }
    Ok(())
}
