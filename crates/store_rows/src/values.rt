// Values by state and formula.
use crate::hashes::{FIRST, OTHER_TEXT, SECOND, TEXT, hash_of};
use crate::scripts::ROWS;
use b_values::Value;
use engine_face::{FormulaKey, Packed, SharedBytes, ValueAnswer};
use shared::Shared;
use sqlite_items::Items;
use std::alloc::{AllocError, Global};
use std::test::Fail;
use value_cache::{ValueKey, ValueStore};

/// The bytes of a letter's state, and the text of its formula. The hashes of all are equal.
fn parts_of(letter: u8) -> ([u8; 8], [u8; 8]) {
    let at = if letter.wrapping_sub(b'a') / 2 % 2 == 0 {
        FIRST
    } else {
        SECOND
    };
    (at, if letter < b'e' { TEXT } else { OTHER_TEXT })
}

/// A key: of each two letters one state, of the first four one text, and by turns a predicate and an expression.
fn key_at(alloc: Global, letter: u8) -> Result<ValueKey, AllocError> {
    let (at, text) = parts_of(letter);
    Ok(ValueKey {
        at: Packed::of_bytes(alloc, Items::from_slice(alloc, &at)?)?,
        key: FormulaKey {
            text: SharedBytes::new(alloc, Items::from_slice(alloc, &text)?)?,
            predicate: letter % 2 == 1,
        },
    })
}

#[test]
fn four_keys_have_one_hash(rt: HostRuntime) -> Result<(), Fail> {
    let first = key_at(rt.alloc(), b'a')?;
    for other in b"ceg" {
        let key = key_at(rt.alloc(), *other)?;
        assert_eq!(rt; hash_of(&key), hash_of(&first));
        assert!(rt; key != first);
    }
    Ok(())
}

fn answer_of(alloc: Global, letter: u8) -> Result<Shared<ValueAnswer>, AllocError> {
    Shared::new(
        alloc,
        ValueAnswer::Value {
            value: Value::Int(i128::from(letter)),
            bounded: false,
        },
    )
}

fn letter_of(answer: &ValueAnswer) -> u32 {
    match answer {
        ValueAnswer::Value {
            value: Value::Int(n),
            ..
        } => u32::try_from(*n).unwrap_or(0),
        _ => 0,
    }
}

/// What a look found.
fn letter_at(store: &mut ValueStore, key: &ValueKey) -> Result<u32, AllocError> {
    match store.look(key)? {
        Some(answer) => Ok(letter_of(answer.get())),
        None => Ok(u32::from(b'.')),
    }
}

/// A call of a script: what it shows.
fn called(
    alloc: Global,
    store: &mut ValueStore,
    call: u8,
    key: u8,
    entry: u8,
) -> Result<Option<u32>, AllocError> {
    let key = key_at(alloc, key)?;
    match call {
        b'?' => Ok(Some(letter_at(store, &key)?)),
        b'+' => {
            store.put(key, answer_of(alloc, entry)?)?;
            Ok(None)
        }
        _ => {
            store.evict(&key);
            Ok(None)
        }
    }
}

/// What a script shows; a call that wants memory shows `!`.
fn shown(alloc: Global, capacity: u64, script: &[u8]) -> Result<String, Fail> {
    if capacity == 0 {
        return Err(Fail::from("no room"));
    }
    let mut store = ValueStore::new(alloc, capacity)?;
    let mut shown = String::new(alloc);
    for i in 0..script.len() / 3 {
        match called(
            alloc,
            &mut store,
            script[3 * i],
            script[3 * i + 1],
            script[3 * i + 2],
        ) {
            Ok(Some(letter)) => shown.push(char::from_u32(letter).unwrap_or('#'))?,
            Ok(None) => {}
            Err(_) => shown.push('!')?,
        }
    }
    Ok(format!(in alloc; "{shown} {} {}", store.misses(), store.len())?)
}

#[test]
fn the_least_recently_used_key_is_lost(rt: HostRuntime) -> Result<(), Fail> {
    for row in &ROWS {
        let shown = shown(rt.alloc(), row.capacity, row.script)?;
        assert!(rt;
            shown.as_str() == row.shown,
            "{} with room for {} shows {shown}",
            row.script.escape_ascii(),
            row.capacity
        );
    }
    Ok(())
}

#[test]
fn a_shared_key_is_the_same_key(rt: HostRuntime) -> Result<(), Fail> {
    let key = key_at(rt.alloc(), b'c')?;
    let same = key.share()?;
    assert!(rt; key == same);
    for other in b"abdefgh" {
        assert!(rt; key != key_at(rt.alloc(), *other)?);
    }
    Ok(())
}
