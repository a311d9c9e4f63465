// Step lists by state.
use crate::hashes::{FIRST, SECOND, hash_of};
use crate::scripts::ROWS;
use b_values::OpId;
use engine_face::{ListEnd, OpList, Packed, StepList};
use shared::Shared;
use sqlite_items::Items;
use std::alloc::{AllocError, Global};
use std::test::Fail;
use step_cache::StepStore;

/// The state of a letter. The hashes of a and b are equal.
fn state(alloc: Global, letter: u8) -> Result<Packed, AllocError> {
    let bytes = match letter {
        b'a' => Items::from_slice(alloc, &FIRST)?,
        b'b' => Items::from_slice(alloc, &SECOND)?,
        _ => Items::from_slice(alloc, &[letter])?,
    };
    Packed::of_bytes(alloc, bytes)
}

#[test]
fn two_states_have_one_hash(rt: HostRuntime) -> Result<(), Fail> {
    let first = state(rt.alloc(), b'a')?;
    let second = state(rt.alloc(), b'b')?;
    assert_eq!(rt; hash_of(&first), hash_of(&second));
    assert!(rt; first != second);
    Ok(())
}

/// A list that tells its letter as the number of its one operation.
fn list_of(alloc: Global, letter: u8) -> Result<Shared<StepList<Packed>>, AllocError> {
    let mut lists = Items::new(alloc);
    lists.push(OpList {
        op: OpId::Op(u32::from(letter)),
        steps: Items::new(alloc),
        end: ListEnd::Complete,
    })?;
    Shared::new(alloc, StepList { lists })
}

fn letter_of(list: &StepList<Packed>) -> u32 {
    match list.lists.as_slice() {
        [
            OpList {
                op: OpId::Op(letter),
                ..
            },
        ] => *letter,
        _ => 0,
    }
}

/// What a look found.
fn letter_at(store: &mut StepStore, at: &Packed) -> Result<u32, AllocError> {
    match store.look(at)? {
        Some(list) => Ok(letter_of(list.get())),
        None => Ok(u32::from(b'.')),
    }
}

/// A call of a script: what it shows.
fn called(
    alloc: Global,
    store: &mut StepStore,
    call: u8,
    key: u8,
    entry: u8,
) -> Result<Option<u32>, AllocError> {
    let at = state(alloc, key)?;
    match call {
        b'?' => Ok(Some(letter_at(store, &at)?)),
        b'+' => {
            store.put(at, list_of(alloc, entry)?)?;
            Ok(None)
        }
        _ => {
            store.evict(&at);
            Ok(None)
        }
    }
}

/// What a script shows; a call that wants memory shows `!`.
fn shown(alloc: Global, capacity: u64, script: &[u8]) -> Result<String, Fail> {
    if capacity == 0 {
        return Err(Fail::from("no room"));
    }
    let mut store = StepStore::new(alloc, capacity)?;
    let mut shown = String::new(alloc);
    for i in 0..script.len() / 3 {
        match called(
            alloc,
            &mut store,
            script[3 * i],
            script[3 * i + 1],
            script[3 * i + 2],
        ) {
            Ok(Some(letter)) => shown.push(char::from_u32(letter).unwrap_or('#'))?,
            Ok(None) => {}
            Err(_) => shown.push('!')?,
        }
    }
    Ok(format!(in alloc; "{shown} {} {}", store.misses(), store.len())?)
}

#[test]
fn the_least_recently_used_state_is_lost(rt: HostRuntime) -> Result<(), Fail> {
    for row in &ROWS {
        let shown = shown(rt.alloc(), row.capacity, row.script)?;
        assert!(rt;
            shown.as_str() == row.shown,
            "{} with room for {} shows {shown}",
            row.script.escape_ascii(),
            row.capacity
        );
    }
    Ok(())
}

/// The state of a number, in four bytes.
fn numbered(alloc: Global, n: u32) -> Result<Packed, AllocError> {
    Packed::of_bytes(alloc, Items::from_slice(alloc, &n.to_be_bytes())?)
}

fn put_numbered(alloc: Global, store: &mut StepStore, n: u32) -> Result<(), AllocError> {
    store.put(numbered(alloc, n)?, list_of(alloc, (n % 256) as u8)?)
}

// Among so many entries many stand in one place of the table behind the store.
#[test]
fn each_of_many_states_has_its_own_list(rt: HostRuntime) -> Result<(), Fail> {
    let mut store = StepStore::new(rt.alloc(), 1500)?;
    for n in 0..2000 {
        put_numbered(rt.alloc(), &mut store, n)?;
    }
    assert_eq!(rt; store.len(), 1500);
    for n in 0..2000u32 {
        let letter = letter_at(&mut store, &numbered(rt.alloc(), n)?)?;
        let wanted = if n < 500 { u32::from(b'.') } else { n % 256 };
        assert_eq!(rt; letter, wanted, "at {n}");
    }
    assert_eq!(rt; store.misses(), 500);
    Ok(())
}
