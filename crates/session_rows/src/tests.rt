// What each test shares.
use std::alloc::{AllocError, Global};
use std::process::Abort;
use std::test::Fail;

mod lines;
mod tables;

// Two texts are the same.
fn expect_text(rt: &impl Abort, row: usize, shown: &[u8], wanted: &[u8]) {
    assert!(rt;
        shown == wanted,
        "row {row}: {} and not {}",
        shown.escape_ascii(),
        wanted.escape_ascii()
    );
}

// The value of a digit of base 16.
fn digit(b: u8) -> u8 {
    if b.is_ascii_digit() {
        b.wrapping_sub(b'0')
    } else {
        b.wrapping_sub(b'A').wrapping_add(10)
    }
}

// The bytes that a field of a table stands for.
fn bytes_of(alloc: Global, field: &str) -> Result<Vec<u8>, AllocError> {
    let mut bytes = Vec::new(alloc);
    let mut high = None;
    let mut digits = 0u8;
    for b in field.bytes() {
        if digits == 2 {
            high = Some(digit(b));
            digits = 1;
        } else if let Some(h) = high {
            bytes.push(h.wrapping_mul(16).wrapping_add(digit(b)))?;
            high = None;
            digits = 0;
        } else if b == b'@' {
            digits = 2;
        } else {
            bytes.push(b)?;
        }
    }
    Ok(bytes)
}
