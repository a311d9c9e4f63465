//! Nodes of trees.
ghost use Rattle.std.specs.Prelude.{◌≡◌, IfOk};
ghost use Rattle.b_ast.specs.declared.Formula.TheVariants as formula;
ghost use Rattle.b_grammar.specs.Grammar as grammar;
ghost use Rattle.b_grammar.specs.Descent.{done};
ghost use Rattle.b_read_expr.specs.Reading as spec;

use crate::Unread;
use b_ast::{After, Bound, Collector, Formula, Function, Link, Place, Quantifier};
use b_grammar::Lexeme;
use sqlite_items::{Boxed, Items};
use std::alloc::{AllocError, Global};

/// A chain; one piece stands for itself.
pub fn node(
    alloc: Global,
    first: Boxed<Formula>,
    links: Items<Link>,
) -> Result<Boxed<Formula>, AllocError>
    ensures { IfOk result (λ t. t ≡ spec.node first links) }
{
    if links.is_empty() {
        Ok(first)
    } else {
        Boxed::new(alloc, Formula::Chain(first, links))
    }
}

/// An operand with the forms after it; without them it stands for itself.
pub fn row_of(
    alloc: Global,
    first: Boxed<Formula>,
    afters: Items<After>,
) -> Result<Boxed<Formula>, AllocError>
    ensures { IfOk result (λ t. t ≡ grammar.row (first, afters)) }
{
    if afters.is_empty() {
        Ok(first)
    } else {
        Boxed::new(alloc, Formula::Row(first, afters))
    }
}

/// A tree, and what is left behind it.
#[inline(never)]
pub fn leaf(
    alloc: Global,
    tree: Formula,
    lexemes: &[Lexeme],
) -> Result<(Boxed<Formula>, &[Lexeme]), Unread>
    ensures { spec.Reads (done tree) lexemes.now result }
{
    Ok((Boxed::new(alloc, tree)?, lexemes))
}

// How many arguments a function word has.
fn arity(function: Function) -> usize
    ensures { result ≡ grammar.arity function }
{
    match function {
        Function::Prj1 | Function::Prj2 | Function::Iterate => 2,
        _ => 1,
    }
}

/// A function word with its arguments, if there are as many as it has.
pub fn call_of(at: Place, function: Function, arguments: Items<Formula>) -> Option<Formula>
    ensures { result ≡ spec.call_node at function arguments }
{
    if arguments.len() == arity(function) {
        Some(Formula::Call(at, function, arguments))
    } else {
        None
    }
}

pub fn quantified_of(
    alloc: Global,
    at: Place,
    quantifier: Quantifier,
    names: Items<Bound>,
    body: Boxed<Formula>,
) -> Result<Boxed<Formula>, AllocError>
    ensures { IfOk result (λ t. t ≡ formula.Quantified at quantifier names body) }
{
    Boxed::new(alloc, Formula::Quantified(at, quantifier, names, body))
}

pub fn collected_of(
    alloc: Global,
    at: Place,
    collector: Collector,
    names: Items<Bound>,
    condition: Boxed<Formula>,
    body: Boxed<Formula>,
) -> Result<Boxed<Formula>, AllocError>
    ensures { IfOk result (λ t. t ≡ formula.Collected at collector names condition body) }
{
    Boxed::new(
        alloc,
        Formula::Collected(at, collector, names, condition, body),
    )
}

pub fn comprehension_of(
    alloc: Global,
    at: Place,
    names: Items<Bound>,
    body: Boxed<Formula>,
) -> Result<Boxed<Formula>, AllocError>
    ensures { IfOk result (λ t. t ≡ formula.Comprehension at names body) }
{
    Boxed::new(alloc, Formula::Comprehension(at, names, body))
}

pub fn conditional_of(
    alloc: Global,
    at: Place,
    condition: Boxed<Formula>,
    then: Boxed<Formula>,
    other: Boxed<Formula>,
) -> Result<Boxed<Formula>, AllocError>
    ensures { IfOk result (λ t. t ≡ formula.If at condition then other) }
{
    Boxed::new(alloc, Formula::If(at, condition, then, other))
}
