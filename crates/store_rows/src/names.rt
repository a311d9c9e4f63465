// Names and their numbers.
use crate::hashes::{FIRST, SECOND, hash_of};
use engine_face::Packed;
use names_list::Names;
use sqlite_items::Items;
use std::alloc::{AllocError, Global};
use std::test::Fail;

fn state(alloc: Global, bytes: &[u8]) -> Result<Packed, AllocError> {
    Packed::of_bytes(alloc, Items::from_slice(alloc, bytes)?)
}

/// The number of a state, in a list that has its root.
fn number_of(alloc: Global, names: &mut Names, bytes: &[u8]) -> Result<u64, Fail> {
    if names.len() == 0 {
        return Err(Fail::from("no root"));
    }
    Ok(names.name(state(alloc, bytes)?)?)
}

/// The bytes of the state of a number, or none.
fn bytes_at(names: &Names, id: u64) -> Option<&[u8]> {
    match names.get(id) {
        Some(state) => Some(state.bytes()),
        None => None,
    }
}

#[test]
fn a_state_keeps_its_number(rt: HostRuntime) -> Result<(), Fail> {
    let mut names = Names::new(rt.alloc(), state(rt.alloc(), b"root")?)?;
    // The empty bytes and those of which others are a beginning are states like others.
    for (bytes, wanted) in [
        ("a", 1),
        ("root", 0),
        ("b", 2),
        ("a", 1),
        ("", 3),
        ("ab", 4),
        ("b", 2),
        ("", 3),
        ("roo", 5),
        ("ab", 4),
    ] {
        let number = number_of(rt.alloc(), &mut names, bytes.as_bytes())?;
        assert_eq!(rt; number, wanted, "{bytes}");
    }
    assert_eq!(rt; names.len(), 6);
    Ok(())
}

#[test]
fn a_number_has_its_state(rt: HostRuntime) -> Result<(), Fail> {
    let mut names = Names::new(rt.alloc(), state(rt.alloc(), b"root")?)?;
    number_of(rt.alloc(), &mut names, b"x")?;
    number_of(rt.alloc(), &mut names, b"y")?;
    for (id, wanted) in [(0, "root"), (1, "x"), (2, "y")] {
        assert!(rt; bytes_at(&names, id) == Some(wanted.as_bytes()), "{id}");
    }
    for id in [3, 4, u64::MAX] {
        assert!(rt; names.get(id).is_none(), "{id}");
    }
    Ok(())
}

#[test]
fn a_list_may_have_no_state(rt: HostRuntime) {
    let names = Names::none(rt.alloc());
    assert_eq!(rt; names.len(), 0);
    assert!(rt; names.get(0).is_none());
}

/// Names so many states, and says whether each has the number behind the one before.
fn named_in_order(alloc: Global, names: &mut Names, count: u32) -> Result<bool, Fail> {
    let mut in_order = true;
    for n in 0..count {
        let number = number_of(alloc, names, &n.to_be_bytes())?;
        in_order = in_order && number == u64::from(n) + 1;
    }
    Ok(in_order)
}

// Among so many states many stand in one place of the table behind the list.
#[test]
fn each_of_many_states_has_its_own_number(rt: HostRuntime) -> Result<(), Fail> {
    let mut names = Names::new(rt.alloc(), state(rt.alloc(), b"root")?)?;
    assert!(rt; named_in_order(rt.alloc(), &mut names, 3000)?);
    assert!(rt; named_in_order(rt.alloc(), &mut names, 3000)?);
    assert_eq!(rt; names.len(), 3001);
    Ok(())
}

#[test]
fn states_of_equal_hash_have_numbers_of_their_own(rt: HostRuntime) -> Result<(), Fail> {
    let root = state(rt.alloc(), &FIRST)?;
    let other = state(rt.alloc(), &SECOND)?;
    assert_eq!(rt; hash_of(&root), hash_of(&other));
    assert!(rt; root != other);
    let mut names = Names::new(rt.alloc(), root)?;
    assert_eq!(rt; number_of(rt.alloc(), &mut names, &SECOND)?, 1);
    assert_eq!(rt; number_of(rt.alloc(), &mut names, &FIRST)?, 0);
    assert_eq!(rt; number_of(rt.alloc(), &mut names, &SECOND)?, 1);
    assert!(rt; bytes_at(&names, 1) == Some(SECOND.as_slice()));
    assert_eq!(rt; names.len(), 2);
    Ok(())
}
