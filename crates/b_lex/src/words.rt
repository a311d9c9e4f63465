//! What stands at the front of a text, but for strings.
ghost use Rattle.std.specs.Prelude.{◌≡◌, ◌≤◌, ◌+◌, ◌^◌, ◌-◌, length, IfSome};
ghost use Rattle.std.specs.List.{list_all, prefix_len, take_while};
ghost use Rattle.b_lex.specs.Bytes.{is_space, is_blank, is_letter, is_digit, is_name_byte, is_in_line, before_close};
ghost use Rattle.b_lex.specs.Spelling.{is_name};
ghost use Rattle.b_lex.specs.Tables.{longest, signs};
ghost use Rattle.b_lex.specs.Fronts.{word_front, number_front, comment_front, sign_front, front_of};

use crate::fronts::Front;
use crate::tables::{reserved_word, sign_len};
use crate::values::number_value;
use crate::{LexKind, TokenKind};

fn space(b: u8) -> bool
    ensures { result ≡ is_space b }
{
    b == b' ' || b == b'\t' || b == b'\r' || b == b'\n'
}

fn letter(b: u8) -> bool
    ensures { result ≡ is_letter b }
{
    b >= b'A' && b <= b'Z' || b >= b'a' && b <= b'z'
}

/// Whether this is one of the digits `0` to `9`.
pub fn is_digit(b: u8) -> bool
    ensures { result ≡ is_digit b }
{
    b >= b'0' && b <= b'9'
}

/// Whether this is a letter, a digit or `_`.
pub fn is_name_byte(b: u8) -> bool
    ensures { result ≡ is_name_byte b }
{
    letter(b) || is_digit(b) || b == b'_'
}

/// Whether this is a space or a tab, which separate within a line.
pub fn is_blank(b: u8) -> bool
    ensures { result ≡ is_blank b }
{
    b == b' ' || b == b'\t'
}

fn name_bytes(bytes: &[u8]) -> bool
    ensures { result ≡ list_all is_name_byte bytes.now }
{
    bytes.iter().all(|b| is_name_byte(*b))
}

/// Whether this is a name of B: a letter, then letters, digits and `_`, and no reserved word.
pub fn is_name(word: &[u8]) -> bool
    ensures { result ≡ is_name word.now }
{
    match word {
        [] => false,
        [first, behind @ ..] => { letter(*first) && name_bytes(behind) && !reserved_word(word) }
    }
}

fn in_line(b: u8) -> bool
    ensures { result ≡ is_in_line b }
{
    b != b'\n'
}

fn name_len(text: &[u8]) -> usize
    ensures { result ≡ prefix_len is_name_byte text.now }
{
    text.iter().take_while(|b| is_name_byte(**b)).count()
}

fn digits_len(text: &[u8]) -> usize
    ensures { result ≡ prefix_len is_digit text.now }
{
    text.iter().take_while(|b| is_digit(**b)).count()
}

fn line_len(text: &[u8]) -> usize
    ensures { result ≡ prefix_len is_in_line text.now }
{
    text.iter().take_while(|b| in_line(**b)).count()
}

// How many bytes stand before the first `*/`.
fn close_at(text: &[u8]) -> Option<usize>
    ensures value { result ≡ before_close text.now }
    ensures within { IfSome result (λ n. n + 2 ≤ length text.now) }
{
    let mut rest = text;
    let mut at = 0;
    while let [_, more @ ..] = rest {
        if rest.starts_with(b"*/") {
            return Some(at);
        }
        rest = more;
        at += 1;
    }
    None
}

// A comment between `/*` and `*/`, by what stands behind the `/*`.
fn comment_at(inside: &[u8]) -> Front
    ensures { result ≡ comment_front (before_close inside.now) }
{
    match close_at(inside) {
        Some(n) => Front::Skip(n + 4),
        None => Front::Stop(LexKind::OpenComment, 0),
    }
}

fn word_at(text: &[u8]) -> Front
    ensures { result ≡ word_front (take_while is_name_byte text.now) }
{
    let (word, _) = text.split_at(name_len(text));
    let kind = if reserved_word(word) {
        TokenKind::Word
    } else {
        TokenKind::Name
    };
    Front::Take(kind, word.len())
}

fn number_at(text: &[u8]) -> Front
    ensures { result ≡ number_front (take_while is_digit text.now) }
{
    let (digits, _) = text.split_at(digits_len(text));
    if number_value(digits).is_some() {
        Front::Take(TokenKind::Number, digits.len())
    } else {
        Front::Stop(LexKind::NumberTooWide, 0)
    }
}

fn sign_at(text: &[u8]) -> Front
    ensures { result ≡ sign_front (longest signs text.now) }
{
    let n = sign_len(text);
    if n == 0 {
        Front::Stop(LexKind::BadByte, 0)
    } else {
        Front::Take(TokenKind::Sign, n)
    }
}

// What stands at the front of a text that begins with no quote.
pub(crate) fn plain_front(text: &[u8]) -> Front
    ensures { result ≡ front_of text.now }
{
    match text {
        [] => Front::Skip(0),
        [b, ..] => {
            if text.starts_with(b"/*") {
                let (_, behind) = text.split_at(2);
                comment_at(behind)
            } else if text.starts_with(b"//") {
                let (_, inside) = text.split_at(2);
                Front::Skip(line_len(inside) + 2)
            } else if space(*b) {
                Front::Skip(1)
            } else if letter(*b) {
                word_at(text)
            } else if is_digit(*b) {
                number_at(text)
            } else {
                sign_at(text)
            }
        }
    }
}
