// Reads a machine of one counter.
ghost use Rattle.std.specs.Prelude.{◌≡◌, ◌≤◌, ◌+◌, ◌-◌, ◌^◌, ◌++◌, not, length, map, IfOk, IfSome, None};
ghost use Rattle.std.specs.List.{position, list_any};
ghost use Rattle.std.specs.Str.{bytes_eq};
ghost use Rattle.animator.specs.Words.{is_digit};
ghost use Rattle.host_top.specs.ReservedWords.{words, left_out_words, is_reserved};
ghost use Rattle.host_top.specs.MachineTexts.{is_space, is_letter, is_name_byte, all_differ, IsMachineText, IsNoMachineText, OneMachine};
ghost use Rattle.host_top.specs.Reading.{Gives, past_space, token_len, token_of, behind_token, names, behind_sign, name_at, number_at, sum_at, operation_at, operations_at, head_at, start_at, ends, machine_of};

use crate::machine::{Machine, Operation};
use crate::words::{before, read_number};
use sqlite_items::Items;
use std::alloc::{AllocError, Global};

const MOST: u128 = (1 << 127) - 1;

// The reserved words that are read.
const WORDS: [&[u8]; 85] = [
    b"or",
    b"not",
    b"mod",
    b"POW",
    b"POW1",
    b"FIN",
    b"FIN1",
    b"UNION",
    b"INTER",
    b"SIGMA",
    b"PI",
    b"union",
    b"inter",
    b"dom",
    b"ran",
    b"id",
    b"prj1",
    b"prj2",
    b"iterate",
    b"closure",
    b"closure1",
    b"card",
    b"min",
    b"max",
    b"succ",
    b"pred",
    b"bool",
    b"seq",
    b"seq1",
    b"iseq",
    b"perm",
    b"size",
    b"first",
    b"last",
    b"front",
    b"tail",
    b"rev",
    b"conc",
    b"INTEGER",
    b"NATURAL",
    b"NATURAL1",
    b"INT",
    b"NAT",
    b"NAT1",
    b"STRING",
    b"BOOL",
    b"TRUE",
    b"FALSE",
    b"MININT",
    b"MAXINT",
    b"skip",
    b"BEGIN",
    b"PRE",
    b"ASSERT",
    b"CHOICE",
    b"OR",
    b"IF",
    b"THEN",
    b"ELSIF",
    b"ELSE",
    b"SELECT",
    b"WHEN",
    b"CASE",
    b"OF",
    b"EITHER",
    b"ANY",
    b"WHERE",
    b"LET",
    b"BE",
    b"IN",
    b"END",
    b"MACHINE",
    b"SETS",
    b"CONSTANTS",
    b"CONCRETE_CONSTANTS",
    b"ABSTRACT_CONSTANTS",
    b"PROPERTIES",
    b"VARIABLES",
    b"ABSTRACT_VARIABLES",
    b"CONCRETE_VARIABLES",
    b"INVARIANT",
    b"ASSERTIONS",
    b"DEFINITIONS",
    b"INITIALISATION",
    b"OPERATIONS",
];

// The reserved words that are left out of this profile of B.
const LEFT_OUT: [&[u8]; 18] = [
    b"REFINEMENT",
    b"IMPLEMENTATION",
    b"REFINES",
    b"INCLUDES",
    b"SEES",
    b"USES",
    b"EXTENDS",
    b"PROMOTES",
    b"IMPORTS",
    b"CONSTRAINTS",
    b"VALUES",
    b"LOCAL_OPERATIONS",
    b"VAR",
    b"WHILE",
    b"DO",
    b"VARIANT",
    b"rec",
    b"struct",
];

// Whether the table has this word.
fn find_word(table: &[&[u8]], word: &[u8]) -> bool
    ensures { result ≡ list_any (λ e. bytes_eq word.now e.now) table.now }
{
    table.iter().any(|e| word == *e)
}

#[tactic(auto, unfolding(crate::specs::ReservedWords::words))]
fn in_words(word: &[u8]) -> bool
    ensures { result ≡ list_any (bytes_eq word.now) words }
{
    find_word(&WORDS, word)
}

#[tactic(auto, unfolding(crate::specs::ReservedWords::left_out_words))]
fn left_out(word: &[u8]) -> bool
    ensures { result ≡ list_any (bytes_eq word.now) left_out_words }
{
    find_word(&LEFT_OUT, word)
}

fn reserved(word: &[u8]) -> bool
    ensures { result ≡ is_reserved word.now }
{
    in_words(word) || left_out(word)
}

fn space(b: u8) -> bool
    ensures { result ≡ is_space b }
{
    b == 32 || b == 9 || b == 13 || b == 10
}

fn letter(b: u8) -> bool
    ensures { result ≡ is_letter b }
{
    b >= 65 && b <= 90 || b >= 97 && b <= 122
}

fn digit(b: u8) -> bool
    ensures { result ≡ is_digit b }
{
    b >= 48 && b <= 57
}

fn name_byte(b: u8) -> bool
    ensures { result ≡ is_name_byte b }
{
    letter(b) || digit(b) || b == 95
}

fn token_start(text: &[u8]) -> Option<usize>
    ensures { result ≡ position (λ b. not (is_space b)) text.now }
{
    text.iter().position(|b| !space(*b))
}

fn name_end(text: &[u8]) -> Option<usize>
    ensures { result ≡ position (λ b. not (is_name_byte b)) text.now }
{
    text.iter().position(|b| !name_byte(*b))
}

fn number_end(text: &[u8]) -> Option<usize>
    ensures { result ≡ position (λ b. not (is_digit b)) text.now }
{
    text.iter().position(|b| !digit(*b))
}

// How many bytes the token at the front has.
fn token_size(text: &[u8]) -> usize
    ensures size { result ≡ token_len text.now }
    ensures within { result ≤ length text.now }
{
    match text {
        [] => 0,
        [b, rest @ ..] => {
            if letter(*b) {
                1 + before(rest, name_end(rest))
            } else if digit(*b) {
                1 + before(rest, number_end(rest))
            } else if text.starts_with(b":=") {
                2
            } else {
                1
            }
        }
    }
}

fn skip_space(text: &[u8]) -> &[u8]
    ensures { result.now ≡ past_space text.now }
{
    let (_, rest) = text.split_at(before(text, token_start(text)));
    rest
}

// The next token, and what stands behind it.
fn split_token(text: &[u8]) -> (&[u8], &[u8])
    ensures token { result.0.now ≡ token_of text.now }
    ensures behind { result.1.now ≡ behind_token text.now }
{
    let text = skip_space(text);
    text.split_at(token_size(text))
}

fn expect_sign<'a>(text: &'a [u8], sign: &[u8]) -> Option<&'a [u8]>
    ensures { Gives (λ rest. rest.now) result (behind_sign sign.now text.entry.now) }
{
    let (token, rest) = split_token(text);
    if token == sign { Some(rest) } else { None }
}

fn may_name(token: &[u8]) -> bool
    ensures { result ≡ names token.now }
{
    match token {
        [] => false,
        [b, ..] => letter(*b) && !reserved(token),
    }
}

fn expect_name(text: &[u8]) -> Option<(&[u8], &[u8])>
    ensures { Gives (λ x. (x.0.now, x.1.now)) result (name_at text.now) }
{
    let (token, rest) = split_token(text);
    if may_name(token) {
        Some((token, rest))
    } else {
        None
    }
}

fn expect_number(text: &[u8]) -> Option<(u128, &[u8])>
    ensures number { Gives (λ x. (x.0, x.1.now)) result (number_at text.now) }
    ensures within { IfSome result (λ x. x.0 ≤ 2 ^ 127 - 1) }
{
    let (token, rest) = split_token(text);
    match read_number(MOST, token) {
        Some(n) => Some((n, rest)),
        None => None,
    }
}

// `x := x +`, and how many bytes stand from the `+` on.
#[tactic(auto, unfolding(crate::specs::Reading::sum_at))]
fn expect_sum<'a>(text: &'a [u8], x: &[u8]) -> Option<(usize, &'a [u8])>
    ensures { Gives (λ s. (s.0, s.1.now)) result (sum_at x.now text.entry.now) }
{
    let text = expect_sign(text, x)?;
    let text = expect_sign(text, b":=")?;
    let text = expect_sign(text, x)?;
    let rest = expect_sign(text, b"+")?;
    Some((skip_space(text).len(), rest))
}

// `o = x := x + n`, in a text of so many bytes.
#[tactic(auto, unfolding(crate::specs::Reading::operation_at))]
fn read_operation<'a>(
    alloc: Global,
    size: usize,
    x: &[u8],
    text: &'a [u8],
) -> Result<Option<(Operation, &'a [u8])>, AllocError>
    ensures { IfOk result (λ o. Gives (λ op. (op.0, op.1.now)) o (operation_at size x.now text.entry.now)) }
{
    let Some((name, rest)) = expect_name(text) else {
        return Ok(None);
    };
    let Some(rest) = expect_sign(rest, b"=") else {
        return Ok(None);
    };
    let Some((from_end, rest)) = expect_sum(rest, x) else {
        return Ok(None);
    };
    let Some((amount, rest)) = expect_number(rest) else {
        return Ok(None);
    };
    let op = Operation {
        name: Items::from_slice(alloc, name)?,
        amount: amount as i128,
        at: size.saturating_sub(from_end) as u64,
    };
    Ok(Some((op, rest)))
}

// END and nothing behind it.
fn is_end(text: &[u8]) -> bool
    ensures { result ≡ ends text.now }
{
    let (token, rest) = split_token(text);
    let (last, _) = split_token(rest);
    token == b"END".as_slice() && last.is_empty()
}

// Operations with `;` between them, and END behind the last.
fn read_operations(
    alloc: Global,
    size: usize,
    x: &[u8],
    text: &[u8],
) -> Result<Option<Items<Operation>>, AllocError>
    ensures { IfOk result (λ ops. ops ≡ operations_at size size x.now text.now) }
{
    let mut ops = Items::new(alloc);
    let mut rest = text;
    for _ in 0..size {
        let Some((op, behind)) = read_operation(alloc, size, x, rest)? else {
            return Ok(None);
        };
        ops.push(op)?;
        let (token, next) = split_token(behind);
        if token == b";".as_slice() {
            rest = next;
        } else if is_end(behind) {
            return Ok(Some(ops));
        } else {
            return Ok(None);
        }
    }
    Ok(None)
}

// `MACHINE M VARIABLES x INVARIANT x : INTEGER`
#[tactic(auto, unfolding(crate::specs::Reading::head_at))]
fn expect_head(text: &[u8]) -> Option<(&[u8], &[u8], &[u8])>
    ensures { Gives (λ h. (h.0.now, h.1.now, h.2.now)) result (head_at text.now) }
{
    let text = expect_sign(text, b"MACHINE")?;
    let (name, text) = expect_name(text)?;
    let text = expect_sign(text, b"VARIABLES")?;
    let (x, text) = expect_name(text)?;
    let text = expect_sign(text, b"INVARIANT")?;
    let text = expect_sign(text, x)?;
    let text = expect_sign(text, b":")?;
    let text = expect_sign(text, b"INTEGER")?;
    Some((name, x, text))
}

// `INITIALISATION x := n OPERATIONS`
#[tactic(auto, unfolding(crate::specs::Reading::start_at))]
fn expect_start<'a>(text: &'a [u8], x: &[u8]) -> Option<(u128, &'a [u8])>
    ensures start { Gives (λ s. (s.0, s.1.now)) result (start_at x.now text.entry.now) }
    ensures within { IfSome result (λ s. s.0 ≤ 2 ^ 127 - 1) }
{
    let text = expect_sign(text, b"INITIALISATION")?;
    let text = expect_sign(text, x)?;
    let text = expect_sign(text, b":=")?;
    let (n, text) = expect_number(text)?;
    let text = expect_sign(text, b"OPERATIONS")?;
    Some((n, text))
}

// Whether one of the operations has this name.
fn names_one(ops: &[Operation], name: &[u8]) -> bool
    ensures { result ≡ list_any (bytes_eq name.now) (map (λ op. op.name) ops.now) }
{
    for op in ops {
        if name == op.name.as_slice() {
            return true;
        }
    }
    false
}

fn names_differ(ops: &[Operation]) -> bool
    ensures { result ≡ all_differ (map (λ op. op.name) ops.now) }
{
    let mut rest = ops;
    while let [op, more @ ..] = rest {
        if names_one(more, op.name.as_slice()) {
            return false;
        }
        rest = more;
    }
    true
}

// The machine that the descent reads.
#[tactic(auto, unfolding(crate::specs::Reading::machine_of))]
fn descend(alloc: Global, text: &[u8]) -> Result<Option<Machine>, AllocError>
    ensures { IfOk result (λ machine. machine ≡ machine_of text.now) }
{
    let Some((name, x, rest)) = expect_head(text) else {
        return Ok(None);
    };
    let Some((start, rest)) = expect_start(rest, x) else {
        return Ok(None);
    };
    let Some(ops) = read_operations(alloc, text.len(), x, rest)? else {
        return Ok(None);
    };
    if names_one(ops.as_slice(), x) || !names_differ(ops.as_slice()) {
        return Ok(None);
    }
    Ok(Some(Machine {
        name: Items::from_slice(alloc, name)?,
        start: start as i128,
        ops,
    }))
}

/// The machine that a text is one of, or None where it is one of none.
#[tactic(auto, using(crate::proofs::MachineTextLaws::sound))]
pub fn read_machine(alloc: Global, text: &[u8]) -> Result<Option<Machine>, AllocError>
    ensures accepted { IfOk result (λ read. IfSome read (λ m. IsMachineText text.now m)) }
    ensures refused { IfOk result (λ read. read ≡ None → IsNoMachineText text.now) }
{
    match descend(alloc, text)? {
        Some(machine) => Ok(Some(machine)),
        None => Ok(None),
    }
}

/// A text is one of at most one machine.
pub fn machine_is_unique()
    ensures { OneMachine }
{}
