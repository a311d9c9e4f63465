// How a line is cut, and what its arguments are.
ghost use Rattle.std.specs.Prelude.{◌≡◌, not};
ghost use Rattle.std.specs.List.{find, list_all, prefix_len};
ghost use Rattle.b_lex.specs.Bytes.{is_blank, is_digit};
ghost use Rattle.b_lex.specs.Spelling.{are_digits};
ghost use Rattle.session_words.specs.Arguments.{without_front, without_end, trimmed, first_word, behind_word, number_of, is_document_byte, is_document, is_operation};
ghost use Rattle.std.specs.Str.{bytes_eq};
ghost use Rattle.session_words.specs.Verbs.{spelling, verb_of};

use b_lex::{is_blank, is_digit, is_name, is_name_byte, number_value};
use session_words::{VERBS, Verb};

// How many blanks stand at the front.
fn blanks_len(bytes: &[u8]) -> usize
    ensures { result ≡ prefix_len is_blank bytes.now }
{
    bytes.iter().take_while(|b| is_blank(**b)).count()
}

// How many bytes stand before the first blank.
fn word_len(bytes: &[u8]) -> usize
    ensures { result ≡ prefix_len (λ b. not (is_blank b)) bytes.now }
{
    bytes.iter().take_while(|b| !is_blank(**b)).count()
}

fn cut_front(bytes: &[u8]) -> &[u8]
    ensures { result.now ≡ without_front bytes.now }
{
    let (_, rest) = bytes.split_at(blanks_len(bytes));
    rest
}

fn cut_end(bytes: &[u8]) -> &[u8]
    ensures { result.now ≡ without_end bytes.entry.now }
{
    let mut rest = bytes;
    while let [front @ .., last] = rest {
        if is_blank(*last) {
            rest = front;
        } else {
            return rest;
        }
    }
    rest
}

// A line without the blanks at its ends.
pub(crate) fn trim(line: &[u8]) -> &[u8]
    ensures { result.now ≡ trimmed line.now }
{
    cut_end(cut_front(line))
}

// What stands before the first blank, and what stands behind the blanks there.
pub(crate) fn cut_word(bytes: &[u8]) -> (&[u8], &[u8])
    ensures word { result.0.now ≡ first_word bytes.now }
    ensures behind { result.1.now ≡ behind_word bytes.now }
{
    let (word, rest) = bytes.split_at(word_len(bytes));
    (word, cut_front(rest))
}

// The first of the verbs that is written so.
fn find_among(verbs: &[Verb], word: &[u8]) -> Option<Verb>
    ensures { result ≡ find (λ verb. bytes_eq word.now (spelling verb)) verbs.now }
{
    for verb in verbs {
        if word == verb.word() {
            return Some(*verb);
        }
    }
    None
}

pub(crate) fn find_verb(word: &[u8]) -> Option<Verb>
    ensures { result ≡ verb_of word.now }
{
    find_among(&VERBS, word)
}

fn digits_alone(bytes: &[u8]) -> bool
    ensures { result ≡ list_all is_digit bytes.now }
{
    bytes.iter().all(|b| is_digit(*b))
}

fn digits(bytes: &[u8]) -> bool
    ensures { result ≡ are_digits bytes.now }
{
    match bytes {
        [] => false,
        [first, behind @ ..] => is_digit(*first) && digits_alone(behind),
    }
}

pub(crate) fn read_number(bytes: &[u8]) -> Option<u64>
    ensures { result ≡ number_of bytes.now }
{
    if !digits(bytes) {
        return None;
    }
    let Some(n) = number_value(bytes) else {
        return None;
    };
    if n <= u64::MAX as u128 {
        Some(n as u64)
    } else {
        None
    }
}

fn document_byte(b: u8) -> bool
    ensures { result ≡ is_document_byte b }
{
    is_name_byte(b) || b == b'-' || b == b'.'
}

fn document_bytes(bytes: &[u8]) -> bool
    ensures { result ≡ list_all is_document_byte bytes.now }
{
    bytes.iter().all(|b| document_byte(*b))
}

pub(crate) fn document(bytes: &[u8]) -> bool
    ensures { result ≡ is_document bytes.now }
{
    match bytes {
        [] => false,
        [first, behind @ ..] => is_name_byte(*first) && document_bytes(behind),
    }
}

pub(crate) fn operation(bytes: &[u8]) -> bool
    ensures { result ≡ is_operation bytes.now }
{
    is_name(bytes)
        || bytes == b"$setup_constants".as_slice()
        || bytes == b"$initialise_machine".as_slice()
}
