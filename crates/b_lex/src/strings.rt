//! What a quote begins.
ghost use Rattle.std.specs.Prelude.{◌≡◌, ◌≤◌, ◌<◌, ◌+◌, ◌^◌, length, MatchOption};
ghost use Rattle.std.specs.Str.{StartsWithNoChar, continuation_len};
ghost use Rattle.b_lex.specs.Strings.{IsPart, IsStringFront, BeginsChar, escape_of, IsEscape};

use crate::fronts::{Front, Part};
use crate::{LexKind, TokenKind};
use std::str;

// How many bytes a character has, by its first.
fn char_width(b: u8) -> usize
    ensures value { result ≡ continuation_len b + 1 }
    ensures small { result ≤ 4 }
{
    if b < 128 {
        1
    } else if b < 224 {
        2
    } else if b < 240 {
        3
    } else {
        4
    }
}

// How many bytes the character at the front of a text has.
fn char_len(text: &[u8]) -> Option<usize>
    ensures { MatchOption result (StartsWithNoChar text.now) (BeginsChar text.now) }
{
    let [b, ..] = text else {
        return None;
    };
    let n = char_width(*b);
    if n > text.len() {
        return None;
    }
    let (front, _) = text.split_at(n);
    match str::from_utf8(front) {
        Ok(_) => Some(n),
        Err(_) => None,
    }
}

// What a letter behind a backslash stands for.
pub(crate) fn escaped(letter: u8) -> Option<u8>
    ensures { result ≡ escape_of letter }
{
    if letter == b'"' {
        Some(b'"')
    } else if letter == b'\\' {
        Some(b'\\')
    } else if letter == b'n' {
        Some(b'\n')
    } else if letter == b't' {
        Some(b'\t')
    } else {
        None
    }
}

// What stands behind a backslash that follows so many bytes.
fn escape_part(after: &[u8], body: usize) -> Part
    requires { body + 2 < 2 ^ 64 }
    ensures { IsEscape body after.now result }
{
    let cut = Part::End(Front::Stop(LexKind::OpenString, 0));
    match after {
        [] => cut,
        [letter, ..] => {
            if *letter == b'\n' {
                cut
            } else if escaped(*letter).is_some() {
                Part::More(2, 1)
            } else {
                Part::End(Front::Stop(LexKind::BadByte, body + 2))
            }
        }
    }
}

// What stands behind so many bytes of a string, which stand for so many.
fn string_part(rest: &[u8], body: usize, value: usize) -> Part
    requires { body + 2 < 2 ^ 64 }
    ensures { IsPart body value rest.now result }
{
    let open = Part::End(Front::Stop(LexKind::OpenString, 0));
    match rest {
        [] => open,
        [b, after @ ..] => {
            if *b == b'"' {
                if value < 1 << 32 {
                    Part::End(Front::Take(TokenKind::Text, body + 2))
                } else {
                    open
                }
            } else if *b == b'\n' {
                open
            } else if *b == b'\\' {
                escape_part(after, body)
            } else {
                match char_len(rest) {
                    Some(n) => Part::More(n, n),
                    None => Part::End(Front::Stop(LexKind::BadByte, body + 1)),
                }
            }
        }
    }
}

// What a quote begins that has this text behind it.
pub(crate) fn string_front(text: &[u8]) -> Front
    ensures { IsStringFront text.now result }
{
    let mut at = 0;
    let mut value = 0;
    'parts: loop {
        let (_, rest) = text.split_at(at);
        match string_part(rest, at, value) {
            Part::More(n, m) => {
                at += n;
                value += m;
            }
            Part::End(front) => return front,
        }
    }
}
