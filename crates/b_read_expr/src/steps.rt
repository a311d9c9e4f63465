//! Small steps of reading.
ghost use Rattle.std.specs.Prelude.{◌≡◌, ◌≤◌, false, length};
ghost use Rattle.b_grammar.specs.Grammar as grammar;
ghost use Rattle.b_grammar.specs.Descent as descent;
ghost use Rattle.b_read_expr.specs.Reading as spec;

use crate::Unread;
use crate::nodes::leaf;
use crate::reading::{Bracket, Opener};
use b_ast::priorities::priority;
use b_ast::{Formula, Operator, Place};
use b_grammar::{Lexeme, Mark, Symbol};
use sqlite_items::{Boxed, Items};
use std::alloc::Global;

/// Reading stopped before these lexemes.
pub fn no_tree(lexemes: &[Lexeme]) -> Unread
    ensures { spec.IsNoTree result }
{
    Unread::NoTree(lexemes.len())
}

/// The first lexeme and the others.
pub fn next(lexemes: &[Lexeme]) -> Result<(&Lexeme, &[Lexeme]), Unread>
    ensures { spec.IsFirst lexemes.now result }
{
    match lexemes {
        [first, rest @ ..] => Ok((first, rest)),
        [] => Err(Unread::NoTree(0)),
    }
}

pub fn mark_of(symbol: &Symbol) -> Option<Mark>
    ensures { result ≡ grammar.mark_of symbol.now }
{
    match symbol {
        Symbol::Mark(mark) => Some(*mark),
        _ => None,
    }
}

pub fn is_minus(symbol: &Symbol) -> bool
    ensures { result ≡ grammar.is_minus symbol.now }
{
    matches!(symbol, Symbol::Operator(Operator::Minus))
}

fn is_mark(mark: Mark, symbol: &Symbol) -> bool
    ensures { result ≡ descent.is_mark mark (grammar.mark_of symbol.now) }
{
    match symbol {
        Symbol::Mark(found) => *found == mark,
        _ => false,
    }
}

/// What stands behind this mark.
pub fn behind(lexemes: &[Lexeme], mark: Mark) -> Result<&[Lexeme], Unread>
    ensures { spec.Leaves (spec.behind mark) lexemes.now result }
{
    let (first, rest) = next(lexemes)?;
    if is_mark(mark, &first.symbol) {
        Ok(rest)
    } else {
        Err(no_tree(lexemes))
    }
}

/// What stands behind a dot and an opening bracket.
pub fn after_dot(lexemes: &[Lexeme]) -> Result<&[Lexeme], Unread>
    ensures { spec.Leaves grammar.after_dot lexemes.now result }
{
    behind(behind(lexemes, Mark::Dot)?, Mark::RoundOpen)
}

fn opener_of(symbol: &Symbol) -> Option<Opener>
    ensures { result ≡ spec.opener_of symbol.now }
{
    match symbol {
        Symbol::Mark(Mark::Converse) => Some(Opener::Converse),
        Symbol::Mark(Mark::RoundOpen) => Some(Opener::Application),
        Symbol::Mark(Mark::SquareOpen) => Some(Opener::Image),
        _ => None,
    }
}

/// What begins a form after an operand, if it stands at the front, its place, and what stands behind it.
pub fn opener_at(lexemes: &[Lexeme]) -> Option<(Opener, Place, &[Lexeme])>
    ensures { spec.BeginsAfter lexemes.now result }
{
    match next(lexemes) {
        Ok((first, rest)) => match opener_of(&first.symbol) {
            Some(opener) => Some((opener, first.at, rest)),
            None => None,
        },
        Err(_) => None,
    }
}

/// What stands behind a comma.
pub fn after_comma(lexemes: &[Lexeme]) -> Option<&[Lexeme]>
    ensures { spec.AfterComma lexemes.now result }
{
    match behind(lexemes, Mark::Comma) {
        Ok(rest) => Some(rest),
        Err(_) => None,
    }
}

fn is_among(levels: &[u64], level: u64) -> bool
    ensures { result ≡ descent.is_among levels.now false level }
{
    let mut found = false;
    for one in levels {
        found = level == *one || found;
    }
    found
}

fn operator_of(symbol: &Symbol, levels: &[u64]) -> Option<Operator>
    ensures { result ≡ spec.operator_of levels.now symbol.now }
{
    match symbol {
        Symbol::Operator(found) => {
            if is_among(levels, priority(*found)) {
                Some(*found)
            } else {
                None
            }
        }
        _ => None,
    }
}

/// The operator of one of these priorities at the front, its place, and what stands behind it.
pub fn operator_at<'a>(
    lexemes: &'a [Lexeme],
    levels: &[u64],
) -> Option<(Operator, Place, &'a [Lexeme])>
    ensures { spec.BeginsWith levels.now lexemes.now result }
{
    match next(lexemes) {
        Ok((first, rest)) => match operator_of(&first.symbol, levels) {
            Some(operator) => Some((operator, first.at, rest)),
            None => None,
        },
        Err(_) => None,
    }
}

/// The place of a comma at the front, and what stands behind it.
pub fn comma_at(lexemes: &[Lexeme]) -> Option<(Place, &[Lexeme])>
    ensures { spec.BeginsWithComma lexemes.now result }
{
    match next(lexemes) {
        Ok((first, rest)) => {
            if is_mark(Mark::Comma, &first.symbol) {
                Some((first.at, rest))
            } else {
                None
            }
        }
        Err(_) => None,
    }
}

pub fn close_of(bracket: Bracket) -> Mark
    ensures { result ≡ spec.close_of bracket }
{
    match bracket {
        Bracket::Round => Mark::RoundClose,
        Bracket::Curly => Mark::CurlyClose,
        Bracket::Square => Mark::SquareClose,
    }
}

/// A name, or the old value of a variable.
pub fn named<'a>(
    alloc: Global,
    name: &Items<u8>,
    at: Place,
    lexemes: &'a [Lexeme],
) -> Result<(Boxed<Formula>, &'a [Lexeme]), Unread>
    ensures { spec.Reads (spec.named name.now at) lexemes.now result }
{
    let name = Items::from_slice(alloc, name.as_slice())?;
    match behind(lexemes, Mark::Old) {
        Ok(rest) => leaf(alloc, Formula::Old(at, name), rest),
        Err(_) => leaf(alloc, Formula::Name(at, name), lexemes),
    }
}
