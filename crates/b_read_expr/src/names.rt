//! Bound names.
ghost use Rattle.std.specs.Prelude.{◌≡◌, ◌≤◌, length};
ghost use Rattle.b_grammar.specs.Grammar as grammar;
ghost use Rattle.b_read_expr.specs.Reading as spec;

use crate::Unread;
use crate::steps::{after_dot, mark_of, next, no_tree};
use b_ast::Bound;
use b_grammar::{Lexeme, Mark, Symbol};
use sqlite_items::Items;
use std::alloc::Global;

// A name and a mark behind it.
fn name_and_mark(alloc: Global, lexemes: &[Lexeme]) -> Result<(Bound, Mark, &[Lexeme]), Unread>
    ensures { spec.IsNameAndMark lexemes.now result }
{
    let (first, rest) = next(lexemes)?;
    let (second, rest) = next(rest)?;
    match &first.symbol {
        Symbol::Name(name) => match mark_of(&second.symbol) {
            Some(mark) => {
                let name = Items::from_slice(alloc, name.as_slice())?;
                Ok((Bound { name, at: first.at }, mark, rest))
            }
            None => Err(no_tree(lexemes)),
        },
        _ => Err(no_tree(lexemes)),
    }
}

/// Names with commas between them and a bar.
pub fn names_to_bar(alloc: Global, lexemes: &[Lexeme]) -> Result<(Items<Bound>, &[Lexeme]), Unread>
    ensures { spec.Reads grammar.names_to_bar lexemes.now result }
{
    let mut names = Items::new(alloc);
    let mut rest = lexemes;
    loop {
        let (name, mark, after) = name_and_mark(alloc, rest)?;
        names.push(name)?;
        match mark {
            Mark::Bar => return Ok((names, after)),
            Mark::Comma => rest = after,
            _ => return Err(no_tree(after)),
        }
    }
}

// Names with commas between them, a closing bracket, a dot and an opening bracket.
fn names_to_dot(alloc: Global, lexemes: &[Lexeme]) -> Result<(Items<Bound>, &[Lexeme]), Unread>
    ensures { spec.Reads grammar.names_to_dot lexemes.now result }
{
    let mut names = Items::new(alloc);
    let mut rest = lexemes;
    loop {
        let (name, mark, after) = name_and_mark(alloc, rest)?;
        names.push(name)?;
        match mark {
            Mark::RoundClose => {
                let after = after_dot(after)?;
                return Ok((names, after));
            }
            Mark::Comma => rest = after,
            _ => return Err(no_tree(after)),
        }
    }
}

/// The names of a quantifier or collector.
pub fn bound_names(alloc: Global, lexemes: &[Lexeme]) -> Result<(Items<Bound>, &[Lexeme]), Unread>
    ensures { spec.Reads grammar.bound_names lexemes.now result }
{
    let (first, rest) = next(lexemes)?;
    match &first.symbol {
        Symbol::Mark(Mark::RoundOpen) => names_to_dot(alloc, rest),
        Symbol::Name(name) => {
            let rest = after_dot(rest)?;
            let mut names = Items::new(alloc);
            names.push(Bound {
                name: Items::from_slice(alloc, name.as_slice())?,
                at: first.at,
            })?;
            Ok((names, rest))
        }
        _ => Err(no_tree(lexemes)),
    }
}
