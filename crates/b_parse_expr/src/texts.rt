//! The tree of a text, before its definitions are expanded.
ghost use Rattle.std.specs.Prelude.{false, ◌≡◌, ◌≤◌, length, is_some};
ghost use Rattle.b_lex.specs.Reading.{AreSpans};
ghost use Rattle.b_grammar.specs.Symbols as symbols;
ghost use Rattle.b_parse_expr.specs.Parsing as spec;

use b_ast::Formula;
use b_expand::{ParseFault, ParseKind};
use b_grammar::Lexeme;
use b_grammar::symbols::lexemes;
use b_lex::Token;
use b_read_expr::{Unread, tree_of};
use std::alloc::Global;

// How many brackets may be open at one place.
const MOST_OPEN: u64 = 100;

// The first lexeme and the others, if there are some.
fn split(lexemes: &[Lexeme]) -> Option<(&Lexeme, &[Lexeme])>
    ensures { spec.IsSplit lexemes.now result }
{
    match lexemes {
        [first, rest @ ..] => Some((first, rest)),
        [] => None,
    }
}

// The place of the first lexeme behind which more brackets are open.
#[tactic(auto, using(crate::proofs::Deep::deep_first, crate::proofs::Deep::shallow_first))]
fn first_deep(lexemes: &[Lexeme]) -> Option<u64>
    ensures { is_some result ≡ spec.is_deep lexemes.now }
{
    let mut left = lexemes;
    while let Some((lexeme, rest)) = split(left) {
        if lexeme.at.depth > MOST_OPEN {
            return Some(lexeme.at.at);
        }
        left = rest;
    }
    None
}

// The place of the lexeme behind which so many are left, or the end of the text.
fn place_before(lexemes: &[Lexeme], left: usize, end: u64) -> u64 {
    match lexemes.get(lexemes.len().saturating_sub(left)) {
        Some(lexeme) => lexeme.at.at,
        None => end,
    }
}

// Why the lexemes of a text that ends there have no tree.
fn fault_of(unread: Unread, lexemes: &[Lexeme], end: u64) -> ParseFault
    ensures { spec.FaultFits unread end result }
{
    match unread {
        Unread::NoTree(left) => {
            let at = place_before(lexemes, left, end).min(end);
            ParseFault::Refused {
                kind: ParseKind::NotASentence,
                at,
            }
        }
        Unread::Memory => ParseFault::Memory,
    }
}

fn shallow_tree(alloc: Global, lexemes: &[Lexeme], end: u64) -> Result<Formula, ParseFault>
    requires { spec.is_deep lexemes.now ≡ false }
    ensures { spec.IsCheckedTree lexemes.now end result }
{
    match tree_of(alloc, lexemes) {
        Ok(tree) => Ok(tree),
        Err(unread) => Err(fault_of(unread, lexemes, end)),
    }
}

fn checked_tree(alloc: Global, lexemes: &[Lexeme], end: u64) -> Result<Formula, ParseFault>
    ensures { spec.IsCheckedTree lexemes.now end result }
{
    match first_deep(lexemes) {
        Some(place) => {
            let at = place.min(end);
            Err(ParseFault::Refused {
                kind: ParseKind::TooDeep,
                at,
            })
        }
        None => shallow_tree(alloc, lexemes, end),
    }
}

/// The tree of a formula's text as it stands, with uses of definitions as names and applications.
pub fn tree_of_text(alloc: Global, text: &[u8], tokens: &[Token]) -> Result<Formula, ParseFault>
    requires { AreSpans 0 (length text.now) tokens.now }
    ensures { spec.IsCheckedTree (symbols.lexemes false text.now tokens.now) (length text.now) result }
{
    match lexemes(alloc, false, text, tokens) {
        Ok(all) => checked_tree(alloc, all.as_slice(), text.len() as u64),
        Err(_) => Err(ParseFault::Memory),
    }
}
