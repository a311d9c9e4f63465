//! What numbers and strings stand for.
ghost use Rattle.std.specs.Prelude.{◌≡◌, ◌≤◌, ◌^◌, ◌-◌, ℕ, List, false, IfOk};
ghost use Rattle.std.specs.Option.{SomeIff};
ghost use Rattle.std.specs.Str.{IsUtf8};
ghost use Rattle.b_lex.specs.Bytes.{decimal};
ghost use Rattle.b_lex.specs.Spelling.{IsText, unescape, inside_of};

use crate::strings::escaped;
use std::alloc::{AllocError, Global};

const MOST: u128 = (1 << 127) - 1;

/// The number that digits spell, where it is at most 2^127 - 1.
pub fn number_value(digits: &[u8]) -> Option<u128>
    ensures { SomeIff result (decimal digits.now ≤ 2 ^ 127 - 1) (decimal digits.now) }
{
    let mut value = 0u128;
    for b in digits {
        let Some(tens) = value.checked_mul(10) else {
            return None;
        };
        let Some(next) = tens.checked_add(b.saturating_sub(b'0') as u128) else {
            return None;
        };
        value = next;
    }
    if value <= MOST { Some(value) } else { None }
}

// What stands between the first byte and the last.
fn inside(spelling: &[u8]) -> &[u8]
    ensures { result.now ≡ inside_of spelling.entry.now }
{
    let n = spelling.len();
    if n < 2 {
        return &[];
    }
    let (_, behind) = spelling.split_at(1);
    let (inside, _) = behind.split_at(n - 2);
    inside
}

// Bytes between quotes, with each letter behind a backslash replaced by what it stands for.
fn unescaped(alloc: Global, bytes: &[u8]) -> Result<Vec<u8>, AllocError>
    ensures { IfOk result (λ value. value.items ≡ unescape false bytes.now) }
{
    let mut value = Vec::new(alloc);
    let mut behind_slash = false;
    for b in bytes {
        if behind_slash {
            value.push(escaped(*b).unwrap_or(*b))?;
            behind_slash = false;
        } else if *b == b'\\' {
            behind_slash = true;
        } else {
            value.push(*b)?;
        }
    }
    Ok(value)
}

/// The bytes that a string stands for, by its spelling with the quotes.
pub fn text_value(alloc: Global, spelling: &[u8]) -> Result<Vec<u8>, AllocError>
    // What stands between the first byte and the last, each escape replaced, of any bytes.
    ensures bytes { IfOk result (λ found. found.items ≡ unescape false (inside_of spelling.now)) }
    ensures value { IfOk result (λ found. (value : List ℕ) → IsText spelling.now value → found.items ≡ value) }
    ensures utf8 { IfOk result (λ found. (value : List ℕ) → IsText spelling.now value → IsUtf8 found.items) }
{
    let found = unescaped(alloc, inside(spelling))?;
    Ok(found)
}
