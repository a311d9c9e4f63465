// The rows of the tables.
use super::tables::{
    BYTES, CHARACTERS, COMMENTS, FAULTS, NAMES, NUMBERS, PAIRS, SEPARATORS, STRINGS, TOKENS, WORDS,
};
use super::*;

// The value of a digit of base 16.
fn digit(b: u8) -> u8 {
    if b.is_ascii_digit() {
        b.wrapping_sub(b'0')
    } else {
        b.wrapping_sub(b'A').wrapping_add(10)
    }
}

// The bytes that a field of a table stands for.
fn bytes_of(alloc: Global, field: &str) -> Result<Vec<u8>, AllocError> {
    let mut bytes = Vec::new(alloc);
    let mut high = None;
    let mut digits = 0u8;
    for b in field.bytes() {
        if digits == 2 {
            high = Some(digit(b));
            digits = 1;
        } else if let Some(h) = high {
            bytes.push(h.wrapping_mul(16).wrapping_add(digit(b)))?;
            high = None;
            digits = 0;
        } else if b == b'@' {
            digits = 2;
        } else {
            bytes.push(b)?;
        }
    }
    Ok(bytes)
}

fn expect_rows(rt: &impl Abort, alloc: Global, table: &str) -> Result<(), Fail> {
    for line in table.lines() {
        let Some((text, wanted)) = line.split_once('`') else {
            return Err(Fail::from("a line without an answer"));
        };
        let text = bytes_of(alloc, text)?;
        expect_shown(rt, alloc, text.as_slice(), wanted.as_bytes())?;
    }
    Ok(())
}

#[test]
fn rows(rt: HostRuntime) -> Result<(), Fail> {
    for table in [
        TOKENS, FAULTS, SEPARATORS, COMMENTS, STRINGS, CHARACTERS, NUMBERS, NAMES,
    ] {
        expect_rows(&rt, rt.alloc(), table)?;
    }
    Ok(())
}

// Two signs are cut as their row says, and as two signs where a space stands between them.
fn expect_pair(rt: &impl Abort, alloc: Global, a: &str, b: &str, wanted: &str) -> Result<(), Fail> {
    let mut joined = a.as_bytes().to_vec(alloc)?;
    joined.extend_from_slice(b.as_bytes())?;
    expect_shown(rt, alloc, joined.as_slice(), wanted.as_bytes())?;
    let mut apart = a.as_bytes().to_vec(alloc)?;
    apart.push(b' ')?;
    apart.extend_from_slice(b.as_bytes())?;
    let mut signs = Vec::new(alloc);
    add_token(&mut signs, b's', a.len() as u64)?;
    signs.push(b'.')?;
    add_token(&mut signs, b's', b.len() as u64)?;
    expect_shown(rt, alloc, apart.as_slice(), signs.as_slice())
}

#[test]
fn pairs_of_signs(rt: HostRuntime) -> Result<(), Fail> {
    let mut count = 0u64;
    for line in PAIRS.lines() {
        let Some((signs, wanted)) = line.split_once('`') else {
            return Err(Fail::from("a line without an answer"));
        };
        let Some((a, b)) = signs.split_once(' ') else {
            return Err(Fail::from("a line of one sign"));
        };
        expect_pair(&rt, rt.alloc(), a, b, wanted)?;
        count = count.saturating_add(1);
    }
    assert_eq!(rt; count, 254);
    Ok(())
}

// A reserved word is a name where a letter stands directly before it, and where a `_` stands directly behind it.
#[test]
fn words_that_go_on(rt: HostRuntime) -> Result<(), Fail> {
    let alloc = rt.alloc();
    for word in WORDS.split_whitespace() {
        let mut name = Vec::new(alloc);
        add_token(&mut name, b'n', (word.len() as u64).saturating_add(1))?;
        let before = format!(in alloc; "x{word}")?;
        expect_shown(&rt, alloc, before.as_bytes(), name.as_slice())?;
        let behind = format!(in alloc; "{word}_")?;
        expect_shown(&rt, alloc, behind.as_bytes(), name.as_slice())?;
    }
    Ok(())
}

// A byte that stands alone is what its letter says.
fn expect_byte(rt: &impl Abort, alloc: Global, byte: u8, letter: u8) -> Result<(), Fail> {
    if letter == b'B' {
        expect_shown(rt, alloc, &[byte], b"!BadByte 0")
    } else if letter == b'Q' {
        expect_shown(rt, alloc, &[byte], b"!OpenString 0")
    } else {
        expect_shown(rt, alloc, &[byte], &[letter])
    }
}

#[test]
fn single_bytes(rt: HostRuntime) -> Result<(), Fail> {
    let mut byte = 0u8;
    for line in BYTES.lines() {
        for wanted in line.bytes() {
            expect_byte(&rt, rt.alloc(), byte, wanted)?;
            byte = byte.wrapping_add(1);
        }
    }
    assert_eq!(rt; byte, 0);
    Ok(())
}
