// Values in their order, their sizes, the making of sets, and the sharing of values.
use b_values::{
    FaultKind, NODE_LIMIT, Prefs, State, Value, fits, is_member, limited, make_set, nodes, order,
    order_items, same_state, same_value, set_from, share_all, spend, spend_all,
};
use shared::Shared;
use sqlite_items::Items;
use std::alloc::Global;
use std::cmp::Ordering;
use std::process::Abort;

fn text(alloc: Global, inner: &str) -> Option<Value> {
    let bytes = Items::from_slice(alloc, inner.as_bytes()).ok()?;
    Some(Value::Text(Shared::new(alloc, bytes).ok()?))
}

fn pair(alloc: Global, a: Value, b: Value) -> Option<Value> {
    let a = Shared::new(alloc, a).ok()?;
    let b = Shared::new(alloc, b).ok()?;
    Some(Value::Pair(a, b))
}

fn number(text: &str) -> Option<Value> {
    Some(Value::Int(text.parse::<i128>().ok()?))
}

/// The numbers in a text, with commas between them.
fn numbers(alloc: Global, text: &str) -> Option<Vec<Value>> {
    let mut items = Vec::new(alloc);
    for n in text.split(',') {
        if !n.is_empty() {
            items.push(number(n)?).ok()?;
        }
    }
    Some(items)
}

fn set(alloc: Global, text: &str) -> Option<Value> {
    make_set(alloc, numbers(alloc, text)?).ok()
}

/// A set of one member.
fn only(alloc: Global, member: Value) -> Option<Value> {
    let mut items = Vec::new(alloc);
    items.push(member).ok()?;
    make_set(alloc, items).ok()
}

fn element(text: &str) -> Option<Value> {
    let (set, index) = text.split_once('.')?;
    let set = set.parse::<u32>().ok()?;
    let index = index.parse::<u32>().ok()?;
    Some(Value::Elem { set, index })
}

/// The value of a word: a number `n:7`, a truth value `t:TRUE`, a text `x:a`, an element `e:0.5`, a couple of numbers
/// `c:0,9`, a set of numbers `s:0,1`, a set of one such set `f:0,1`, a couple of such sets `d:0|1`. None for want of memory.
fn value(alloc: Global, word: &str) -> Option<Value> {
    let (kind, rest) = word.split_once(':')?;
    match kind {
        "n" => number(rest),
        "t" => Some(Value::Truth(rest == "TRUE")),
        "x" => text(alloc, rest),
        "e" => element(rest),
        "c" => {
            let (a, b) = rest.split_once(',')?;
            pair(alloc, number(a)?, number(b)?)
        }
        "s" => set(alloc, rest),
        "f" => only(alloc, set(alloc, rest)?),
        "d" => {
            let (a, b) = rest.split_once('|')?;
            pair(alloc, set(alloc, a)?, set(alloc, b)?)
        }
        _ => None,
    }
}

/// Values, ascending. By length, the text b would stand before ab; by index, the last element of the first set behind
/// the first of the second; by size, {1} before {0,1}. A proper prefix stands first.
const ASCENDING: &str = "n:-170141183460469231731687303715884105728
n:-1
n:0
n:7
n:170141183460469231731687303715884105727
t:FALSE
t:TRUE
x:
x:a
x:ab
x:b
x:ba
x:é
e:0.0
e:0.5
e:1.0
e:1.1
c:0,9
c:1,0
c:1,2
s:
s:0
s:1,0
s:0,1,5
s:0,2
s:1
f:
f:0,3
f:1";

fn ascending(alloc: Global) -> Option<Vec<Value>> {
    let mut table = Vec::new(alloc);
    for word in ASCENDING.lines() {
        table.push(value(alloc, word)?).ok()?;
    }
    Some(table)
}

/// Whether two values of the table are ordered as their places are.
fn are_ordered(a: &Value, b: &Value, i: usize, j: usize) -> bool {
    order(a, b) == i.cmp(&j) && same_value(a, b) == (i == j)
}

#[test]
fn orders_all_values(rt: HostRuntime) {
    let table = ascending(rt.alloc()).expect(&rt, "memory");
    assert_eq!(rt; table.len(), 29);
    for (i, a) in table.iter().enumerate() {
        for (j, b) in table.iter().enumerate() {
            assert!(rt; are_ordered(a, b, i, j), "at {i} and {j}");
        }
    }
    assert_eq!(rt; order_items(table.as_slice(), &[]), Ordering::Greater);
}

/// Values and how many nodes they have.
const SIZES: &str = "n:5 1
x:abc 1
e:0.9 1
s: 1
s:3,4 3
d:1,2| 5";

/// Whether a value has so many nodes, by each of the counts.
fn has_nodes(v: &Value, want: u64) -> bool {
    nodes(v) == want
        && fits(v, want)
        && !fits(v, want.saturating_sub(1))
        && spend(v, want.saturating_add(3)) == Some(3)
}

fn check_size(rt: &impl Abort, alloc: Global, line: &str) {
    let (word, want) = line.split_once(' ').expect(rt, line);
    let want = want.parse::<u64>().expect(rt, line);
    let v = value(alloc, word).expect(rt, line);
    assert!(rt; has_nodes(&v, want), "{line}");
}

#[test]
fn counts_nodes(rt: HostRuntime) {
    for line in SIZES.lines() {
        check_size(&rt, rt.alloc(), line);
    }
    assert_eq!(rt; spend_all(&[Value::Int(1), Value::Truth(true)], 1), None);
}

/// A set of 1,000,000 nodes.
fn largest(alloc: Global) -> Option<Value> {
    let mut items = Vec::new(alloc);
    for n in 0..999_999u32 {
        items.push(Value::Int(i128::from(n))).ok()?;
    }
    make_set(alloc, items).ok()
}

#[test]
fn limits_nodes(rt: HostRuntime) {
    let largest = largest(rt.alloc()).expect(&rt, "memory");
    assert_eq!(rt; nodes(&largest), NODE_LIMIT);
    let again = largest.share().expect(&rt, "memory");
    assert!(rt; limited(again).is_ok());
    let couple = pair(rt.alloc(), largest, Value::Int(0)).expect(&rt, "memory");
    assert!(rt; limited(couple) == Err(FaultKind::TooLarge));
}

#[test]
fn makes_sets(rt: HostRuntime) {
    let made = set(rt.alloc(), "5,1,5,3,1").expect(&rt, "memory");
    let same = set(rt.alloc(), "1,3,5").expect(&rt, "memory");
    assert!(rt; made == same);
    assert_eq!(rt; made.members().len(), 3);
    assert_eq!(rt; Value::Int(3).members().len(), 0);
}

#[test]
fn finds_members(rt: HostRuntime) {
    let items = set_from(numbers(rt.alloc(), "4,2").expect(&rt, "memory"));
    assert!(rt; is_member(items.as_slice(), &Value::Int(2)));
    assert!(rt; !is_member(items.as_slice(), &Value::Int(3)));
}

/// Met by what may go between threads.
fn crosses<T: Send + Sync>(_value: &T) {}

/// A set of two numbers and a truth value, shared.
fn constants(alloc: Global) -> Option<Items<Value>> {
    let set = set(alloc, "1,2")?;
    crosses(&set);
    share_all(alloc, &[set, Value::Truth(true)]).ok()
}

#[test]
fn copies_states(rt: HostRuntime) {
    let values = constants(rt.alloc()).expect(&rt, "memory");
    let running = State::Running(Items::new(rt.alloc()), values);
    let copied = running.copy(rt.alloc()).expect(&rt, "memory");
    crosses(&copied);
    assert!(rt; same_state(&running, &copied));
}

#[test]
fn tells_states_apart(rt: HostRuntime) {
    let values = constants(rt.alloc()).expect(&rt, "memory");
    let running = State::Running(Items::new(rt.alloc()), values);
    let values = constants(rt.alloc()).expect(&rt, "memory");
    let fixed = State::Constants(values);
    assert!(rt; !same_state(&running, &fixed));
    assert!(rt; !same_state(&State::Root, &fixed));
    let copied = fixed.copy(rt.alloc()).expect(&rt, "memory");
    assert!(rt; same_state(&fixed, &copied));
}

const PREFS: Prefs = Prefs {
    minint: -1,
    maxint: 3,
    max_operations: 10,
    max_initialisations: 4,
    default_setsize: 2,
    cache_steps: 1_000,
    cache_values: 10_000,
};

const RIGHT_PREFS: [Prefs; 3] = [
    PREFS,
    Prefs {
        maxint: 1_000_000_000,
        ..PREFS
    },
    Prefs {
        cache_values: 1_000_000,
        ..PREFS
    },
];

const WRONG_PREFS: [Prefs; 7] = [
    Prefs { minint: 1, ..PREFS },
    Prefs {
        minint: -1_000_000_001,
        ..PREFS
    },
    Prefs { maxint: 0, ..PREFS },
    Prefs {
        max_operations: 1_001,
        ..PREFS
    },
    Prefs {
        max_initialisations: 0,
        ..PREFS
    },
    Prefs {
        default_setsize: 1_001,
        ..PREFS
    },
    Prefs {
        cache_steps: 1_000_001,
        ..PREFS
    },
];

#[test]
fn ranges_of_preferences(rt: HostRuntime) {
    assert_eq!(rt; Prefs::default(), PREFS);
    for prefs in RIGHT_PREFS.iter() {
        assert!(rt; prefs.are_in_range(), "at {prefs:?}");
    }
    for prefs in WRONG_PREFS.iter() {
        assert!(rt; !prefs.are_in_range(), "at {prefs:?}");
    }
}
