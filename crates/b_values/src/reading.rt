ghost use Rattle.std.specs.Prelude.{◌≡◌, ◌≤◌, ◌<◌, ◌-◌, ◌^◌, ℕ, suc, true, false, cond, List, [], IfOk, IfSome, MatchOption, codes, drop, length, neg_ℤ, pos, position, bytes_eq};
ghost use Rattle.std.specs.List.{list_all};
ghost use Rattle.b_values.specs.declared.types.SetFace.{SetFace};
ghost use Rattle.b_values.specs.declared.types.Ty.{Ty};
ghost use Rattle.b_values.specs.declared.types.Ty.TheVariants as variants;
ghost use Rattle.b_values.specs.declared.values.Value.{Value};
ghost use Rattle.b_values.specs.declared.values.Value.TheVariants.{Int, Text, Pair, Set};
ghost use Rattle.b_values.specs.Types.{HasType};
ghost use Rattle.b_values.specs.Values.{IsKept};
ghost use Rattle.b_values.specs.Texts.{names_of};
ghost use Rattle.b_values.specs.Reading as grammar;
ghost use Rattle.b_values.specs.ReadingDescent as spec;
ghost use Rattle.b_values.specs.ReadingAnswers.{IsRead, IsPlace, Strips, Finds, FindsIn, FindsList, LinksIn, chain_of};

use crate::sets::make_set;
use crate::sizes::{NODE_LIMIT, fits};
use crate::types::{Face, SetFace, Ty};
use crate::values::Value;
use shared::Shared;
use sqlite_items::Items;
use std::alloc::{AllocError, Global};
use thiserror::Error;

/// How many brackets may be open at one place of a text.
pub const BRACKET_LIMIT: u32 = 100;

/// Why a text isn't read.
#[derive(Debug, Drop, Error)]
pub enum ReadFault {
    #[error("the text is no text of a value of the type")]
    NotAValue,
    #[error("memory ran out")]
    Memory,
}

/// What a byte between quotes does: it closes the string, is no byte of one, begins an escape, or stands for a byte.
#[derive(Clone, Copy, Debug, PartialEq, Eq)]
enum StringStep {
    Closes,
    Breaks,
    BeginsEscape,
    Gives(u8),
}

/// A value that was read, how many of the brackets before it are still open, whether it needs no brackets of its own,
/// and the place after it.
#[derive(Drop)]
struct Link {
    value: Value,
    left: u32,
    closed: bool,
    end: usize,
}

/// The value of a type that a text stands for: what `write_value` writes, with blanks before each sign and at the
/// end, elements in any order and repeated, `[a,b]` and `<>` for sequences, and couples as `a|->b` with or without
/// brackets, grouping from the left, or as `(a,b)`. At most 100 brackets may be open at one place.
///
/// # Errors
/// `NotAValue` exactly where the text is none of a value of the type with at most 1,000,000 nodes; `Memory`.
pub fn read_value(alloc: Global, face: &Face, ty: &Ty, text: &[u8]) -> Result<Value, ReadFault>
    ensures value { IsRead face.now.sets ty.now text.now result }
    ensures typed { IfOk result (λ v. HasType face.now.sets ty.now v) }
    ensures kept { IfOk result (λ v. IsKept v) }
{
    match read_front(
        alloc,
        ty,
        face.sets.as_slice(),
        text,
        0,
        BRACKET_LIMIT,
        false,
    ) {
        Err(_) => Err(ReadFault::Memory),
        Ok(None) => Err(ReadFault::NotAValue),
        Ok(Some((value, end))) => {
            if blanks_end(text, end) < text.len() {
                return Err(ReadFault::NotAValue);
            }
            if fits(&value, NODE_LIMIT) {
                Ok(value)
            } else {
                Err(ReadFault::NotAValue)
            }
        }
    }
}

/// A text stands for at most one value of a type.
pub fn one_value()
    ensures { (sets : List SetFace) (t : Ty) (text : List ℕ) (v w : Value) → grammar.IsTextOf sets t text v → grammar.IsTextOf sets t text w → v ≡ w }
{}

/// What `write_value` writes reads back, where the elements' names are names of the language and differ in each set,
/// and at most 100 brackets are open at one place of the text.
pub fn reads_back()
    ensures { grammar.ReadsBack }
{}

// ---- blanks, signs and runs of bytes

/// The place after the blanks.
fn blanks_end(text: &[u8], at: usize) -> usize
    requires { at ≤ length text.now }
    ensures skipped { drop result text.now ≡ spec.skip (drop at text.now) }
    ensures place { IsPlace text.now at result }
{
    for to in at..text.len() {
        if text[to] != b' ' {
            return to;
        }
    }
    text.len()
}

/// The place after a sign that stands at a place.
fn strip_at(text: &[u8], at: usize, sign: &[u8]) -> Option<usize>
    requires { at ≤ length text.now }
    ensures { Strips (spec.strip sign.now (drop at text.now)) text.now at result }
{
    let mut to = at;
    for b in sign {
        if to == text.len() {
            return None;
        }
        if text[to] != *b {
            return None;
        }
        to += 1;
    }
    Some(to)
}

/// The place after a sign before which blanks may stand.
fn after_at(text: &[u8], at: usize, sign: &[u8]) -> Option<usize>
    requires { at ≤ length text.now }
    ensures { Strips (spec.after sign.now (drop at text.now)) text.now at result }
{
    let from = blanks_end(text, at);
    strip_at(text, from, sign)
}

fn is_letter(b: u8) -> bool
    ensures { result ≡ grammar.is_letter b }
{
    (65 <= b && b <= 90) || (97 <= b && b <= 122)
}

fn is_digit(b: u8) -> bool
    ensures { result ≡ grammar.is_digit b }
{
    48 <= b && b <= 57
}

fn is_name_byte(b: u8) -> bool
    ensures { result ≡ grammar.is_name_byte b }
{
    is_letter(b) || is_digit(b) || b == b'_'
}

fn are_name_bytes(bytes: &[u8]) -> bool
    ensures { result ≡ list_all grammar.is_name_byte bytes.now }
{
    bytes.iter().all(|b| is_name_byte(*b))
}

fn is_name(name: &[u8]) -> bool
    ensures { result ≡ grammar.is_name name.now }
{
    match name {
        [] => false,
        [first, rest @ ..] => is_letter(*first) && are_name_bytes(rest),
    }
}

/// The place after a run of bytes of a name.
fn name_end(text: &[u8], at: usize) -> usize
    requires { at ≤ length text.now }
    ensures past { drop result text.now ≡ spec.past grammar.is_name_byte (drop at text.now) }
    ensures place { IsPlace text.now at result }
{
    for to in at..text.len() {
        if !is_name_byte(text[to]) {
            return to;
        }
    }
    text.len()
}

// ---- numbers and truth values

/// A run of digits whose value is at most this.
fn magnitude_at(text: &[u8], at: usize, most: u128) -> Option<(u128, usize)>
    requires place { at ≤ length text.now }
    requires nine { 9 ≤ most }
    requires half { most ≤ 2 ^ 127 }
    ensures found { Finds (spec.magnitude most (drop at text.now)) text.now at result }
    ensures small { IfSome result (λ p. p.0 ≤ most) }
{
    let mut n: u128 = 0;
    for to in at..text.len() {
        let b = text[to];
        if !is_digit(b) {
            return if to == at { None } else { Some((n, to)) };
        }
        let digit = u128::from(b - b'0');
        if n > (most - digit) / 10 {
            return None;
        }
        n = n * 10 + digit;
    }
    if text.len() == at {
        None
    } else {
        Some((n, text.len()))
    }
}

/// Minus a number.
fn negated(n: u128) -> i128
    requires { n ≤ 2 ^ 127 }
    ensures { result ≡ neg_ℤ (pos n) }
{
    if n == 0 { 0 } else { -((n - 1) as i128) - 1 }
}

fn unsigned(n: u128) -> i128
    requires { n < 2 ^ 127 }
    ensures { result ≡ pos n }
{
    n as i128
}

/// The greatest number of 128 bits.
const GREATEST: u128 = 170141183460469231731687303715884105727;

fn read_number(text: &[u8], at: usize) -> Option<(Value, usize)>
    requires { at ≤ length text.now }
    ensures { Finds (spec.read_number (drop at text.now)) text.now at result }
{
    match after_at(text, at, b"-") {
        Some(next) => {
            let from = blanks_end(text, next);
            match magnitude_at(text, from, GREATEST + 1) {
                Some((n, end)) => Some((Value::Int(negated(n)), end)),
                None => None,
            }
        }
        None => {
            let from = blanks_end(text, at);
            match magnitude_at(text, from, GREATEST) {
                Some((n, end)) => Some((Value::Int(unsigned(n)), end)),
                None => None,
            }
        }
    }
}

fn read_truth(text: &[u8], at: usize) -> Option<(Value, usize)>
    requires { at ≤ length text.now }
    ensures { Finds (spec.read_truth (drop at text.now)) text.now at result }
{
    if let Some(to) = after_at(text, at, b"TRUE") {
        return Some((Value::Truth(true), to));
    }
    match after_at(text, at, b"FALSE") {
        Some(to) => Some((Value::Truth(false), to)),
        None => None,
    }
}

// ---- elements

/// The place of a name among names.
fn place_of(names: &[Items<u8>], name: &[u8]) -> Option<usize>
    ensures { result ≡ position (bytes_eq name.now) names.now }
{
    names.iter().position(|other| name == other.as_slice())
}

/// The place of a name among those of a set of the machine.
fn element_of(sets: &[SetFace], set: u32, name: &[u8]) -> Option<usize>
    ensures { result ≡ position (bytes_eq name.now) (names_of sets.now set) }
{
    match sets.get(set as usize) {
        Some(face) => place_of(face.elements.as_slice(), name),
        None => None,
    }
}

fn read_element(sets: &[SetFace], set: u32, text: &[u8], at: usize) -> Option<(Value, usize)>
    requires { at ≤ length text.now }
    ensures { Finds (spec.read_element sets.now set (drop at text.now)) text.now at result }
{
    let from = blanks_end(text, at);
    let to = name_end(text, from);
    let name = &text[from..to];
    if !is_name(name) {
        return None;
    }
    match element_of(sets, set, name) {
        Some(index) => {
            if index > u32::MAX as usize {
                return None;
            }
            Some((
                Value::Elem {
                    set,
                    index: index as u32,
                },
                to,
            ))
        }
        None => None,
    }
}

// ---- strings

fn escape_step(b: u8) -> StringStep
    ensures { result ≡ spec.escape_step (grammar.escape_of b) }
{
    match b {
        b'"' => StringStep::Gives(b'"'),
        b'\\' => StringStep::Gives(b'\\'),
        b'n' => StringStep::Gives(b'\n'),
        b't' => StringStep::Gives(b'\t'),
        _ => StringStep::Breaks,
    }
}

/// The step of a byte, after a backslash or not.
fn step_of(is_escaping: bool, b: u8) -> StringStep
    ensures { result ≡ spec.step_of is_escaping b }
{
    if is_escaping {
        return escape_step(b);
    }
    match b {
        b'"' => StringStep::Closes,
        b'\n' => StringStep::Breaks,
        b'\\' => StringStep::BeginsEscape,
        _ => StringStep::Gives(b),
    }
}

/// The bytes that a string stands for, up to its closing quote.
fn string_at(
    alloc: Global,
    text: &[u8],
    at: usize,
) -> Result<Option<(Items<u8>, usize)>, AllocError>
    requires { at ≤ length text.now }
    ensures { FindsIn (spec.string_from false (drop at text.now)) text.now at result }
{
    let mut bytes: Items<u8> = Items::new(alloc);
    let mut is_escaping = false;
    for to in at..text.len() {
        match step_of(is_escaping, text[to]) {
            StringStep::Closes => return Ok(Some((bytes, to + 1))),
            StringStep::Breaks => return Ok(None),
            StringStep::BeginsEscape => {
                is_escaping = true;
            }
            StringStep::Gives(b) => {
                bytes.push(b)?;
                is_escaping = false;
            }
        }
    }
    Ok(None)
}

/// UTF-8 of fewer than 2^32 bytes.
fn is_text(bytes: &[u8]) -> bool
    ensures { result ≡ spec.is_text bytes.now }
{
    match str::from_utf8(bytes) {
        Ok(_) => bytes.len() < 4_294_967_296,
        Err(_) => false,
    }
}

fn text_value(alloc: Global, bytes: Items<u8>) -> Result<Option<Value>, AllocError>
    ensures { IfOk result (λ o. o ≡ cond (spec.is_text bytes) (Some (Text bytes)) None) }
{
    if is_text(bytes.as_slice()) {
        Ok(Some(Value::Text(Shared::new(alloc, bytes)?)))
    } else {
        Ok(None)
    }
}

fn read_string(alloc: Global, text: &[u8], at: usize) -> Result<Option<(Value, usize)>, AllocError>
    requires { at ≤ length text.now }
    ensures { FindsIn (spec.read_string (drop at text.now)) text.now at result }
{
    let Some(from) = after_at(text, at, b"\"") else {
        return Ok(None);
    };
    match string_at(alloc, text, from)? {
        Some((bytes, end)) => match text_value(alloc, bytes)? {
            Some(value) => Ok(Some((value, end))),
            None => Ok(None),
        },
        None => Ok(None),
    }
}

// ---- couples

/// How many brackets stand at the front, at most so many, and the place after them.
fn opened_at(text: &[u8], at: usize, limit: u32) -> (u32, usize)
    requires { at ≤ length text.now }
    ensures opened { spec.opened limit (drop at text.now) ≡ (result.0, drop result.1 text.now) }
    ensures place { IsPlace text.now at result.1 }
    ensures within { result.0 ≤ limit }
{
    let mut to = at;
    for count in 0..limit {
        match after_at(text, to, b"(") {
            Some(next) => {
                to = next;
            }
            None => return (count, to),
        }
    }
    (limit, to)
}

/// What needs no brackets.
fn lone(found: Option<(Value, usize)>, left: u32) -> Option<Link>
    ensures { MatchOption result (found ≡ None) (λ l. (found ≡ Some (l.value, l.end)) × (l.left ≡ left) × (l.closed ≡ true)) }
{
    match found {
        Some((value, end)) => Some(Link {
            value,
            left,
            closed: true,
            end,
        }),
        None => None,
    }
}

/// What was linked, where no bracket before it is open and it needs none of its own where it is to have them.
fn ended(link: Link, is_bracketed: bool) -> Option<(Value, usize)>
    ensures { result ≡ cond (spec.is_whole (spec.form_of is_bracketed) (chain_of [] link)) (Some (link.value, link.end)) None }
{
    if link.left == 0 && (link.closed || !is_bracketed) {
        Some((link.value, link.end))
    } else {
        None
    }
}

/// The couple of a first part and a second one that ends at a place; a bracket that closes there is its own.
fn arrow_end(
    alloc: Global,
    text: &[u8],
    first: Link,
    second: Value,
    end: usize,
) -> Result<Option<Link>, AllocError>
    requires first { first.end ≤ end }
    requires place { end ≤ length text.now }
    ensures { LinksIn (spec.arrow_end (chain_of text.now first) second (drop end text.now)) text.now first.left first.end result }
{
    let left = first.left;
    let value = Value::Pair(
        Shared::new(alloc, first.value)?,
        Shared::new(alloc, second)?,
    );
    if left == 0 {
        return Ok(Some(Link {
            value,
            left,
            closed: false,
            end,
        }));
    }
    match after_at(text, end, b")") {
        Some(next) => Ok(Some(Link {
            value,
            left: left - 1,
            closed: true,
            end: next,
        })),
        None => Ok(Some(Link {
            value,
            left,
            closed: false,
            end,
        })),
    }
}

/// The couple of a first part and a second one that ends at a place, where a bracket closes.
fn comma_end(
    alloc: Global,
    text: &[u8],
    first: Link,
    second: Value,
    end: usize,
) -> Result<Option<Link>, AllocError>
    requires opens { 0 < first.left }
    requires first { first.end ≤ end }
    requires place { end ≤ length text.now }
    ensures { LinksIn (spec.comma_end (chain_of text.now first) (first.left - 1) second (drop end text.now)) text.now first.left first.end result }
{
    match after_at(text, end, b")") {
        Some(next) => Ok(Some(Link {
            value: Value::Pair(
                Shared::new(alloc, first.value)?,
                Shared::new(alloc, second)?,
            ),
            left: first.left - 1,
            closed: true,
            end: next,
        })),
        None => Ok(None),
    }
}

// ---- by type

/// What a text has at its front by a type, where so many brackets stand before it and this many may be open.
#[cycle(read)]
fn read_chain(
    alloc: Global,
    ty: &Ty,
    sets: &[SetFace],
    text: &[u8],
    at: usize,
    limit: u32,
    opens: u32,
) -> Result<Option<Link>, AllocError>
    requires place { at ≤ length text.now }
    requires within { opens ≤ limit }
    ensures { LinksIn ((spec.reader sets.now ty.now).chain limit opens (drop at text.now)) text.now opens at result }
{
    match ty {
        Ty::Int => Ok(lone(read_number(text, at), opens)),
        Ty::Truth => Ok(lone(read_truth(text, at), opens)),
        Ty::Text => Ok(lone(read_string(alloc, text, at)?, opens)),
        Ty::Elem(set) => Ok(lone(read_element(sets, *set, text, at), opens)),
        Ty::Pair(a, b) => match read_chain(alloc, a.get(), sets, text, at, limit, opens)? {
            Some(first) => read_second(alloc, b.get(), sets, text, limit, first),
            None => Ok(None),
        },
        Ty::Set(a) => Ok(lone(
            read_set(alloc, a.get(), sets, text, at, limit - opens)?,
            opens,
        )),
    }
}

/// The value of a type at the front of a text, where so many brackets may be open.
#[cycle(read)]
fn read_front(
    alloc: Global,
    ty: &Ty,
    sets: &[SetFace],
    text: &[u8],
    at: usize,
    depth: u32,
    is_bracketed: bool,
) -> Result<Option<(Value, usize)>, AllocError>
    requires { at ≤ length text.now }
    ensures { FindsIn (spec.front (spec.form_of is_bracketed) (spec.reader sets.now ty.now).chain depth (drop at text.now)) text.now at result }
{
    let (opens, from) = opened_at(text, at, depth);
    match read_chain(alloc, ty, sets, text, from, depth, opens)? {
        Some(link) => Ok(ended(link, is_bracketed)),
        None => Ok(None),
    }
}

/// A couple, after its first part.
#[cycle(read)]
fn read_second(
    alloc: Global,
    ty: &Ty,
    sets: &[SetFace],
    text: &[u8],
    limit: u32,
    first: Link,
) -> Result<Option<Link>, AllocError>
    requires place { first.end ≤ length text.now }
    requires within { first.left ≤ limit }
    ensures { LinksIn (spec.second (spec.reader sets.now ty.now).chain limit (chain_of text.now first)) text.now first.left first.end result }
{
    match after_at(text, first.end, b"|->") {
        Some(next) => match read_front(alloc, ty, sets, text, next, limit - first.left, true)? {
            Some((second, end)) => arrow_end(alloc, text, first, second, end),
            None => Ok(None),
        },
        None => read_after_comma(alloc, ty, sets, text, limit, first),
    }
}

/// A couple in brackets with a comma, after its first part.
#[cycle(read)]
fn read_after_comma(
    alloc: Global,
    ty: &Ty,
    sets: &[SetFace],
    text: &[u8],
    limit: u32,
    first: Link,
) -> Result<Option<Link>, AllocError>
    requires place { first.end ≤ length text.now }
    requires within { first.left ≤ limit }
    ensures { LinksIn (spec.by_comma (spec.front grammar.free (spec.reader sets.now ty.now).chain) limit (chain_of text.now first) first.left (spec.after (codes ",") (drop first.end text.now))) text.now first.left first.end result }
{
    if first.left == 0 {
        return Ok(None);
    }
    match after_at(text, first.end, b",") {
        Some(next) => match read_front(alloc, ty, sets, text, next, limit - first.left, false)? {
            Some((second, end)) => comma_end(alloc, text, first, second, end),
            None => Ok(None),
        },
        None => Ok(None),
    }
}

/// Values of a type with commas between them.
#[cycle(read)]
fn read_pieces(
    alloc: Global,
    ty: &Ty,
    sets: &[SetFace],
    text: &[u8],
    at: usize,
    depth: u32,
) -> Result<Option<(Vec<Value>, usize)>, AllocError>
    requires { at ≤ length text.now }
    ensures { FindsList (spec.pieces (spec.front grammar.free (spec.reader sets.now ty.now).chain depth) (suc (length (drop at text.now))) (drop at text.now)) text.now at result }
{
    let mut values = Vec::new(alloc);
    let mut from = at;
    loop {
        match read_front(alloc, ty, sets, text, from, depth, false)? {
            None => return Ok(None),
            Some((value, to)) => {
                values.push(value)?;
                match after_at(text, to, b",") {
                    Some(next) => {
                        from = next;
                    }
                    None => return Ok(Some((values, to))),
                }
            }
        }
    }
}

/// Values of a type with commas between them, up to a closing bracket.
#[cycle(read)]
fn read_list(
    alloc: Global,
    ty: &Ty,
    sets: &[SetFace],
    text: &[u8],
    at: usize,
    depth: u32,
    close: &[u8],
) -> Result<Option<(Vec<Value>, usize)>, AllocError>
    requires { at ≤ length text.now }
    ensures { FindsList (spec.list_up_to close.now (spec.front grammar.free (spec.reader sets.now ty.now).chain depth) (drop at text.now)) text.now at result }
{
    if let Some(end) = after_at(text, at, close) {
        return Ok(Some((Vec::new(alloc), end)));
    }
    match read_pieces(alloc, ty, sets, text, at, depth)? {
        Some((values, to)) => match after_at(text, to, close) {
            Some(end) => Ok(Some((values, end))),
            None => Ok(None),
        },
        None => Ok(None),
    }
}

/// A set whose elements are of a type.
#[cycle(read)]
fn read_set(
    alloc: Global,
    ty: &Ty,
    sets: &[SetFace],
    text: &[u8],
    at: usize,
    depth: u32,
) -> Result<Option<(Value, usize)>, AllocError>
    requires { at ≤ length text.now }
    ensures { FindsIn (spec.read_set (spec.reader sets.now ty.now) depth (drop at text.now)) text.now at result }
{
    match after_at(text, at, b"{") {
        Some(next) => {
            if depth == 0 {
                return Ok(None);
            }
            match read_list(alloc, ty, sets, text, next, depth - 1, b"}")? {
                Some((values, end)) => Ok(Some((make_set(alloc, values)?, end))),
                None => Ok(None),
            }
        }
        None => match part_of(ty) {
            Some(part) => read_sequence(alloc, part, sets, text, at, depth),
            None => Ok(None),
        },
    }
}

/// A sequence whose parts are of a type.
#[cycle(read)]
fn read_sequence(
    alloc: Global,
    ty: &Ty,
    sets: &[SetFace],
    text: &[u8],
    at: usize,
    depth: u32,
) -> Result<Option<(Value, usize)>, AllocError>
    requires { at ≤ length text.now }
    ensures { FindsIn (spec.sequence_or (spec.front grammar.free (spec.reader sets.now ty.now).chain) depth (drop at text.now) (spec.after (codes "[") (drop at text.now))) text.now at result }
{
    match after_at(text, at, b"[") {
        Some(next) => {
            if depth == 0 {
                return Ok(None);
            }
            match read_list(alloc, ty, sets, text, next, depth - 1, b"]")? {
                Some((values, end)) => Ok(Some((sequence_of(alloc, values)?, end))),
                None => Ok(None),
            }
        }
        None => match after_at(text, at, b"<>") {
            Some(end) => Ok(Some((sequence_of(alloc, Vec::new(alloc))?, end))),
            None => Ok(None),
        },
    }
}

/// The type of the second parts of couples whose first parts are numbers.
fn part_of(ty: &Ty) -> Option<&Ty>
    ensures { MatchOption result ((b : Ty) → ty.now ≡ variants.Pair variants.Int b → ⊥) (λ b. ty.now ≡ variants.Pair variants.Int b.now) }
{
    match ty {
        Ty::Pair(number, part) => match number.get() {
            Ty::Int => Some(part.get()),
            _ => None,
        },
        _ => None,
    }
}

/// The couples of 1, 2 and so on with the parts of a sequence.
fn sequence_of(alloc: Global, parts: Vec<Value>) -> Result<Value, AllocError>
    ensures { IfOk result (λ v. v ≡ Set (grammar.numbered 1 parts.items)) }
{
    let mut couples: Items<Value> = Items::new(alloc);
    let mut n: u64 = 1;
    for part in parts {
        couples.push(item_of(alloc, n, part)?)?;
        n += 1;
    }
    Ok(Value::Set(Shared::new(alloc, couples)?))
}

fn item_of(alloc: Global, n: u64, part: Value) -> Result<Value, AllocError>
    ensures { IfOk result (λ v. v ≡ Pair (Int (pos n)) part) }
{
    Ok(Value::Pair(
        Shared::new(alloc, Value::Int(i128::from(n)))?,
        Shared::new(alloc, part)?,
    ))
}
