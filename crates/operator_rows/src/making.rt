// Sets made by their members.
ghost use Rattle.std.specs.Prelude.{◌<◌};
ghost use Rattle.ascending.specs.Ascending.{IsAscending};
ghost use Rattle.b_values.specs.Values.{value_cmp};
ghost use Rattle.set_making.specs.Making.{Answers};
ghost use Rattle.set_making.specs.Making as spec;

use b_values::{FaultKind, Value, same_value, set_from};
use set_making::{
    Gathering, Growing, OpFault, couple, is_among, merge, set_in_order, set_with, within_limit,
};
use std::alloc::{AllocError, Global};
use std::process::Abort;

fn numbers(alloc: Global, ns: &[i128]) -> Result<Vec<Value>, AllocError> {
    let mut members = Vec::new(alloc);
    for n in ns {
        members.push(Value::Int(*n))?;
    }
    Ok(members)
}

/// The numbers below `end`.
fn below(alloc: Global, end: u32) -> Result<Vec<Value>, AllocError> {
    let mut members = Vec::new(alloc);
    for n in 0..end {
        members.push(Value::Int(i128::from(n)))?;
    }
    Ok(members)
}

/// Asserts that values are just these numbers, in this order.
fn are(rt: &impl Abort, values: &[Value], ns: &[i128]) {
    assert_eq!(rt; values.len(), ns.len());
    for (value, n) in values.iter().zip(ns) {
        assert!(rt; same_value(value, &Value::Int(*n)));
    }
}

/// Asserts that there is an answer, and that its members are these numbers.
fn has(rt: &impl Abort, answer: Result<Value, OpFault>, ns: &[i128]) {
    let set = answer.expect(rt, "a set");
    are(rt, set.members(), ns);
}

/// Asserts that there is an answer with so many members.
fn counts(rt: &impl Abort, answer: Result<Value, OpFault>, count: usize) {
    let set = answer.expect(rt, "a set");
    assert_eq!(rt; set.members().len(), count);
}

#[test]
fn makes_sets(rt: HostRuntime) {
    let members = numbers(rt.alloc(), &[3, 1, 2, 3, 1]).expect(&rt, "memory");
    has(&rt, set_with(rt.alloc(), members), &[1, 2, 3]);
    let members = numbers(rt.alloc(), &[5, 4]).expect(&rt, "memory");
    let ordered = set_in_order(rt.alloc(), set_from(members)).expect(&rt, "a set");
    are(&rt, ordered.members(), &[4, 5]);
    has(&rt, within_limit(ordered), &[4, 5]);
}

/// Asserts that a couple is one of two values.
fn is_couple(rt: &impl Abort, made: &Value, a: &Value, b: &Value) {
    match made {
        Value::Pair(first, second) => {
            assert!(rt; same_value(first.get(), a));
            assert!(rt; same_value(second.get(), b));
        }
        _ => panic!(rt; "a couple is no pair"),
    }
}

#[test]
fn makes_couples(rt: HostRuntime) {
    let members = numbers(rt.alloc(), &[3, 1, 2]).expect(&rt, "memory");
    let set = set_with(rt.alloc(), members).expect(&rt, "a set");
    let made = couple(rt.alloc(), &Value::Int(1), &set).expect(&rt, "memory");
    is_couple(&rt, &made, &Value::Int(1), &set);
}

/// Merges two lists both ways.
fn merges(rt: &impl Abort, alloc: Global, a: &[i128], b: &[i128], ns: &[i128]) {
    let a = set_from(numbers(alloc, a).expect(rt, "memory"));
    let b = set_from(numbers(alloc, b).expect(rt, "memory"));
    let one = merge(alloc, a.as_slice(), b.as_slice()).expect(rt, "memory");
    are(rt, one.as_slice(), ns);
    let other = merge(alloc, b.as_slice(), a.as_slice()).expect(rt, "memory");
    are(rt, other.as_slice(), ns);
}

#[test]
fn merges_lists(rt: HostRuntime) {
    merges(&rt, rt.alloc(), &[5, 3, 1], &[2, 3], &[1, 2, 3, 5]);
    merges(&rt, rt.alloc(), &[], &[2, 3], &[2, 3]);
}

#[test]
fn finds_members(rt: HostRuntime) {
    let odd = set_from(numbers(rt.alloc(), &[5, 3, 1]).expect(&rt, "memory"));
    for (n, is) in [(0, false), (1, true), (4, false), (5, true), (6, false)] {
        assert_eq!(rt; is_among(odd.as_slice(), &Value::Int(n)), is);
    }
}

/// The set of the remainders by `period` of the numbers below `end`, or why there is none.
fn remainders(alloc: Global, end: u32, period: u32) -> Result<Value, OpFault>
    requires { 0 < period }
{
    let mut found = Gathering::new(alloc);
    for k in 0..end {
        found.add(Value::Int(i128::from(k % period)))?;
    }
    found.finish()
}

#[test]
fn gathers(rt: HostRuntime) {
    has(&rt, remainders(rt.alloc(), 0, 3), &[]);
    has(&rt, remainders(rt.alloc(), 8, 3), &[0, 1, 2]);
    has(&rt, remainders(rt.alloc(), 2_000_001, 3), &[0, 1, 2]);
}

fn numbered(alloc: Global, n: u32, beside: &Value) -> Result<Value, OpFault> {
    match couple(alloc, &Value::Int(i128::from(n)), beside) {
        Ok(v) => Ok(v),
        Err(_) => Err(OpFault::Memory),
    }
}

/// The set of the couples of such remainders and a value, or why there is none.
fn couples(alloc: Global, end: u32, period: u32, beside: &Value) -> Result<Value, OpFault>
    requires { 0 < period }
{
    let mut found = Gathering::new(alloc);
    for k in 0..end {
        found.add(numbered(alloc, k % period, beside)?)?;
    }
    found.finish()
}

const TOO_LARGE: Option<OpFault> = Some(OpFault::Fault(FaultKind::TooLarge));

/// With the set of 998 numbers each couple has 1001 nodes, so that 999 of them are as many as there may be. Of more no
/// further one is asked for once two million nodes are gathered.
#[test]
fn gathers_until_too_large(rt: HostRuntime) {
    let members = below(rt.alloc(), 998).expect(&rt, "memory");
    let block = set_with(rt.alloc(), members).expect(&rt, "a set");
    counts(&rt, couples(rt.alloc(), 4_000, 999, &block), 999);
    let refused = couples(rt.alloc(), u32::MAX, 1_000, &block);
    assert_eq!(rt; refused.err(), TOO_LARGE);
}

/// The set of these members, put in one after the other.
fn grown(alloc: Global, members: &[Value]) -> Result<Value, OpFault>
    requires { IsAscending value_cmp members.now }
    ensures { Answers (spec.set_with members.now) result }
{
    let mut found = Growing::new(alloc);
    for member in members {
        match member.share() {
            Ok(member) => match found.add(member) {
                Ok(()) => {}
                Err(fault) => return Err(fault),
            },
            Err(_) => return Err(OpFault::Memory),
        }
    }
    found.finish()
}

#[test]
fn grows_in_order_until_too_large(rt: HostRuntime) {
    let few = set_from(numbers(rt.alloc(), &[3, 1, 2]).expect(&rt, "memory"));
    has(&rt, grown(rt.alloc(), few.as_slice()), &[1, 2, 3]);
    let most = set_from(below(rt.alloc(), 999_999).expect(&rt, "memory"));
    counts(&rt, grown(rt.alloc(), most.as_slice()), 999_999);
    let many = set_from(below(rt.alloc(), 1_000_000).expect(&rt, "memory"));
    assert_eq!(rt; grown(rt.alloc(), many.as_slice()).err(), TOO_LARGE);
}
