//! Reading by descent. `depth` says how many brackets may open yet.
ghost use Rattle.std.specs.Prelude.{◌≡◌, ◌≤◌, length};
ghost use Rattle.b_read_expr.specs.Reading.{Reads};
ghost use Rattle.b_read_expr.specs.Reading as spec;

use crate::Unread;
use crate::grouping::{Part, grouped};
use crate::names::{bound_names, names_to_bar};
use crate::nodes::{
    call_of, collected_of, comprehension_of, conditional_of, leaf, node, quantified_of, row_of,
};
use crate::steps::{
    after_comma, behind, close_of, comma_at, is_minus, named, next, no_tree, opener_at, operator_at,
};
use b_ast::{After, Collector, Formula, Function, Link, Operator, Place, Quantifier};
use b_grammar::{Lexeme, Mark, Symbol};
use sqlite_items::{Boxed, Items};
use std::alloc::Global;

/// What stands in a bracket.
#[derive(Clone, Copy)]
pub enum Content {
    /// A formula.
    Inner,
    /// A part of a conditional.
    Part,
    /// Formulas with commas between them, as a chain of this operator.
    List(Operator),
}

/// What begins a form after an operand.
#[derive(Clone, Copy)]
pub enum Opener {
    Converse,
    Application,
    Image,
}

#[derive(Clone, Copy)]
pub enum Bracket {
    Round,
    Curly,
    Square,
}

// The priorities of a formula, the loosest first.
pub const PLAIN: [u64; 10] = [30, 40, 50, 60, 125, 160, 170, 180, 190, 200];

// The priorities of a formula directly inside brackets.
pub const BRACKETED: [u64; 11] = [20, 30, 40, 50, 60, 125, 160, 170, 180, 190, 200];

/// A formula with operators of these priorities.
#[cycle(reading)]
pub fn formula<'a>(
    alloc: Global,
    lexemes: &'a [Lexeme],
    levels: &[u64],
    depth: usize,
) -> Result<(Boxed<Formula>, &'a [Lexeme]), Unread>
    ensures { Reads (spec.piece depth levels.now) lexemes.now result }
{
    let (first, rest) = operand(alloc, lexemes, depth)?;
    let (more, rest) = parts(alloc, rest, levels, depth)?;
    match grouped(alloc, levels, first, more)? {
        Some(tree) => Ok((tree, rest)),
        None => Err(no_tree(rest)),
    }
}

#[cycle(reading)]
fn parts<'a>(
    alloc: Global,
    lexemes: &'a [Lexeme],
    levels: &[u64],
    depth: usize,
) -> Result<(Items<Part>, &'a [Lexeme]), Unread>
    ensures { Reads (spec.parts depth levels.now) lexemes.now result }
{
    let mut all = Items::new(alloc);
    let mut rest = lexemes;
    while let Some((operator, at, after)) = operator_at(rest, levels) {
        let (operand, further) = operand(alloc, after, depth)?;
        all.push(Part {
            operator,
            at,
            operand,
        })?;
        rest = further;
    }
    Ok((all, rest))
}

// Formulas with commas between them, as a chain of this operator.
#[cycle(reading)]
fn list<'a>(
    alloc: Global,
    lexemes: &'a [Lexeme],
    operator: Operator,
    depth: usize,
) -> Result<(Boxed<Formula>, &'a [Lexeme]), Unread>
    ensures { Reads (spec.list depth operator) lexemes.now result }
{
    let (first, rest) = formula(alloc, lexemes, &BRACKETED, depth)?;
    let (more, rest) = links(alloc, rest, operator, depth)?;
    Ok((node(alloc, first, more)?, rest))
}

#[cycle(reading)]
fn links<'a>(
    alloc: Global,
    lexemes: &'a [Lexeme],
    operator: Operator,
    depth: usize,
) -> Result<(Items<Link>, &'a [Lexeme]), Unread>
    ensures { Reads (spec.links depth operator) lexemes.now result }
{
    let mut all = Items::new(alloc);
    let mut rest = lexemes;
    while let Some((at, after)) = comma_at(rest) {
        let (operand, further) = formula(alloc, after, &BRACKETED, depth)?;
        all.push(Link {
            operator,
            at,
            operand: operand.into_inner(),
        })?;
        rest = further;
    }
    Ok((all, rest))
}

#[cycle(reading)]
fn operand<'a>(
    alloc: Global,
    lexemes: &'a [Lexeme],
    depth: usize,
) -> Result<(Boxed<Formula>, &'a [Lexeme]), Unread>
    ensures { Reads (spec.operand depth) lexemes.now result }
{
    let (first, rest) = next(lexemes)?;
    if is_minus(&first.symbol) {
        let (tree, rest) = row(alloc, rest, depth)?;
        Ok((Boxed::new(alloc, Formula::Negative(first.at, tree))?, rest))
    } else {
        row(alloc, lexemes, depth)
    }
}

#[cycle(reading)]
fn row<'a>(
    alloc: Global,
    lexemes: &'a [Lexeme],
    depth: usize,
) -> Result<(Boxed<Formula>, &'a [Lexeme]), Unread>
    ensures { Reads (spec.whole_row depth) lexemes.now result }
{
    let (head, rest) = form(alloc, lexemes, depth)?;
    let (more, rest) = afters(alloc, rest, depth)?;
    Ok((row_of(alloc, head, more)?, rest))
}

#[cycle(reading)]
fn afters<'a>(
    alloc: Global,
    lexemes: &'a [Lexeme],
    depth: usize,
) -> Result<(Items<After>, &'a [Lexeme]), Unread>
    ensures { Reads (spec.afters depth) lexemes.now result }
{
    let mut all = Items::new(alloc);
    let mut rest = lexemes;
    while let Some((opener, at, behind)) = opener_at(rest) {
        let (one, further) = after(alloc, behind, opener, at, depth)?;
        all.push(one)?;
        rest = further;
    }
    Ok((all, rest))
}

#[cycle(reading)]
fn after<'a>(
    alloc: Global,
    lexemes: &'a [Lexeme],
    opener: Opener,
    at: Place,
    depth: usize,
) -> Result<(After, &'a [Lexeme]), Unread>
    ensures { Reads (spec.one_after depth opener at) lexemes.now result }
{
    match opener {
        Opener::Converse => Ok((After::Converse(at), lexemes)),
        Opener::Application => {
            let content = Content::List(Operator::Comma);
            let (argument, rest) = enclosed(alloc, lexemes, content, Mark::RoundClose, depth)?;
            Ok((After::Apply(at, argument.into_inner()), rest))
        }
        Opener::Image => {
            let (argument, rest) = enclosed(
                alloc,
                lexemes,
                Content::Inner,
                Mark::SquareClose,
                depth,
            )?;
            Ok((After::Image(at, argument.into_inner()), rest))
        }
    }
}

#[cycle(reading)]
fn form<'a>(
    alloc: Global,
    lexemes: &'a [Lexeme],
    depth: usize,
) -> Result<(Boxed<Formula>, &'a [Lexeme]), Unread>
    ensures { Reads (spec.form depth) lexemes.now result }
{
    let (first, rest) = next(lexemes)?;
    let at = first.at;
    match &first.symbol {
        Symbol::Number(number) => leaf(alloc, Formula::Number(at, *number), rest),
        Symbol::Text(text) => {
            let text = Items::from_slice(alloc, text.as_slice())?;
            leaf(alloc, Formula::Text(at, text), rest)
        }
        Symbol::Name(name) => named(alloc, name, at, rest),
        Symbol::Constant(constant) => leaf(alloc, Formula::Constant(at, *constant), rest),
        Symbol::Function(function) => call(alloc, rest, *function, at, depth),
        Symbol::Quantifier(quantifier) => quantified(alloc, rest, *quantifier, at, depth),
        Symbol::Collector(collector) => collected(alloc, rest, *collector, at, depth),
        Symbol::Mark(mark) => marked(alloc, rest, *mark, at, depth),
        Symbol::Operator(_) => Err(no_tree(lexemes)),
        Symbol::Other => Err(no_tree(lexemes)),
    }
}

#[cycle(reading)]
fn call<'a>(
    alloc: Global,
    lexemes: &'a [Lexeme],
    function: Function,
    at: Place,
    depth: usize,
) -> Result<(Boxed<Formula>, &'a [Lexeme]), Unread>
    ensures { Reads (spec.call depth function at) lexemes.now result }
{
    let rest = behind(lexemes, Mark::RoundOpen)?;
    let (arguments, rest) = listing(alloc, rest, Bracket::Round, depth)?;
    match call_of(at, function, arguments) {
        Some(tree) => leaf(alloc, tree, rest),
        None => Err(no_tree(rest)),
    }
}

#[cycle(reading)]
fn quantified<'a>(
    alloc: Global,
    lexemes: &'a [Lexeme],
    quantifier: Quantifier,
    at: Place,
    depth: usize,
) -> Result<(Boxed<Formula>, &'a [Lexeme]), Unread>
    ensures { Reads (spec.quantified depth quantifier at) lexemes.now result }
{
    let (names, rest) = bound_names(alloc, lexemes)?;
    let (body, rest) = enclosed(alloc, rest, Content::Inner, Mark::RoundClose, depth)?;
    Ok((quantified_of(alloc, at, quantifier, names, body)?, rest))
}

#[cycle(reading)]
fn collected<'a>(
    alloc: Global,
    lexemes: &'a [Lexeme],
    collector: Collector,
    at: Place,
    depth: usize,
) -> Result<(Boxed<Formula>, &'a [Lexeme]), Unread>
    ensures { Reads (spec.collected depth collector at) lexemes.now result }
{
    let (names, rest) = bound_names(alloc, lexemes)?;
    let (condition, rest) = enclosed(alloc, rest, Content::Inner, Mark::Bar, depth)?;
    let (body, rest) = enclosed(alloc, rest, Content::Inner, Mark::RoundClose, depth)?;
    Ok((
        collected_of(alloc, at, collector, names, condition, body)?,
        rest,
    ))
}

#[cycle(reading)]
fn marked<'a>(
    alloc: Global,
    lexemes: &'a [Lexeme],
    mark: Mark,
    at: Place,
    depth: usize,
) -> Result<(Boxed<Formula>, &'a [Lexeme]), Unread>
    ensures { Reads (spec.marked depth mark at) lexemes.now result }
{
    match mark {
        Mark::RoundOpen => enclosed(
            alloc,
            lexemes,
            Content::List(Operator::Maplet),
            Mark::RoundClose,
            depth,
        ),
        Mark::CurlyOpen => curly(alloc, lexemes, at, depth),
        Mark::SquareOpen => {
            let (items, rest) = listing(alloc, lexemes, Bracket::Square, depth)?;
            leaf(alloc, Formula::Sequence(at, items), rest)
        }
        Mark::Empty => leaf(alloc, Formula::Sequence(at, Items::new(alloc)), lexemes),
        Mark::If => conditional(alloc, lexemes, at, depth),
        _ => Err(no_tree(lexemes)),
    }
}

#[cycle(reading)]
fn curly<'a>(
    alloc: Global,
    lexemes: &'a [Lexeme],
    at: Place,
    depth: usize,
) -> Result<(Boxed<Formula>, &'a [Lexeme]), Unread>
    ensures { Reads (spec.curly depth at) lexemes.now result }
{
    match names_to_bar(alloc, lexemes) {
        Ok((names, rest)) => {
            let (body, rest) = enclosed(alloc, rest, Content::Inner, Mark::CurlyClose, depth)?;
            Ok((comprehension_of(alloc, at, names, body)?, rest))
        }
        Err(Unread::Memory) => Err(Unread::Memory),
        Err(Unread::NoTree(_)) => {
            let (items, rest) = listing(alloc, lexemes, Bracket::Curly, depth)?;
            leaf(alloc, Formula::Set(at, items), rest)
        }
    }
}

#[cycle(reading)]
fn conditional<'a>(
    alloc: Global,
    lexemes: &'a [Lexeme],
    at: Place,
    depth: usize,
) -> Result<(Boxed<Formula>, &'a [Lexeme]), Unread>
    ensures { Reads (spec.conditional depth at) lexemes.now result }
{
    let (condition, rest) = enclosed(alloc, lexemes, Content::Part, Mark::Then, depth)?;
    let (then, rest) = enclosed(alloc, rest, Content::Part, Mark::Else, depth)?;
    let (other, rest) = enclosed(alloc, rest, Content::Part, Mark::End, depth)?;
    Ok((conditional_of(alloc, at, condition, then, other)?, rest))
}

#[cycle(reading)]
fn enclosed<'a>(
    alloc: Global,
    lexemes: &'a [Lexeme],
    content: Content,
    close: Mark,
    depth: usize,
) -> Result<(Boxed<Formula>, &'a [Lexeme]), Unread>
    ensures { Reads (spec.enclosed depth content close) lexemes.now result }
{
    let (tree, rest) = contents(alloc, lexemes, content, depth)?;
    let rest = behind(rest, close)?;
    Ok((tree, rest))
}

#[cycle(reading)]
fn contents<'a>(
    alloc: Global,
    lexemes: &'a [Lexeme],
    content: Content,
    depth: usize,
) -> Result<(Boxed<Formula>, &'a [Lexeme]), Unread>
    ensures { Reads (spec.contents depth content) lexemes.now result }
{
    if depth == 0 {
        return Err(no_tree(lexemes));
    }
    match content {
        Content::Inner => formula(alloc, lexemes, &BRACKETED, depth - 1),
        Content::Part => formula(alloc, lexemes, &PLAIN, depth - 1),
        Content::List(operator) => list(alloc, lexemes, operator, depth - 1),
    }
}

#[cycle(reading)]
fn listing<'a>(
    alloc: Global,
    lexemes: &'a [Lexeme],
    bracket: Bracket,
    depth: usize,
) -> Result<(Items<Formula>, &'a [Lexeme]), Unread>
    ensures { Reads (spec.listing depth bracket) lexemes.now result }
{
    match behind(lexemes, close_of(bracket)) {
        Ok(rest) => Ok((Items::new(alloc), rest)),
        Err(_) => {
            let (all, rest) = items(alloc, lexemes, depth)?;
            let rest = behind(rest, close_of(bracket))?;
            Ok((all, rest))
        }
    }
}

#[cycle(reading)]
fn items<'a>(
    alloc: Global,
    lexemes: &'a [Lexeme],
    depth: usize,
) -> Result<(Items<Formula>, &'a [Lexeme]), Unread>
    ensures { Reads (spec.items depth) lexemes.now result }
{
    let mut all = Items::new(alloc);
    let (first, mut rest) = contents(alloc, lexemes, Content::Inner, depth)?;
    all.push(first.into_inner())?;
    while let Some(after) = after_comma(rest) {
        let (item, further) = contents(alloc, after, Content::Inner, depth)?;
        all.push(item.into_inner())?;
        rest = further;
    }
    Ok((all, rest))
}
