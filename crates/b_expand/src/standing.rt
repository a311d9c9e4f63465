//! Where a text stands: what names may mean in it, and the arguments for its parameters.

use b_ast::machine::Def;
use b_ast::{Formula, Link};
use b_names::TableIndex;

/// A table of definitions with its index.
#[derive(Clone, Copy)]
pub struct Table<'a> {
    /// The definitions: a body knows those before it.
    pub defs: &'a [Def],
    /// Their index.
    pub index: &'a TableIndex,
}

/// The arguments of a use as they stand in the text that it is a part of: none, or one and the operands of links.
#[derive(Clone, Copy)]
pub struct Arguments<'a> {
    pub first: Option<&'a Formula>,
    pub others: &'a [Link],
}

/// A text at a use.
#[derive(Clone, Copy)]
pub struct Frame<'a> {
    /// The place of the definition whose body the text is; the table's length for a text outside of it.
    pub place: usize,
    /// How many brackets are open round the text.
    pub round: u64,
    /// The arguments for its parameters, in the text that uses it.
    pub arguments: Arguments<'a>,
}

/// The texts that a use stands in.
#[cycle(callers)]
#[derive(Clone, Copy)]
pub enum Callers<'a> {
    /// None: the formula itself.
    Outside,
    /// The nearest one, and those that it is used in.
    Within(&'a Caller<'a>),
}

/// A text that a use stands in, with those that it is used in itself. It stands on the stack of the call that fills the use
/// in, so nothing is copied at a use.
#[cycle(callers)]
#[derive(Clone, Copy)]
pub struct Caller<'a> {
    pub text: Frame<'a>,
    pub callers: Callers<'a>,
}

/// A text with those that it is used in.
#[derive(Clone, Copy)]
pub struct Standing<'a> {
    pub table: Table<'a>,
    pub here: Frame<'a>,
    /// The texts that the use stands in.
    pub callers: Callers<'a>,
    /// How many brackets are added to all places, if any are: those of the parameters that the text stands for.
    pub extra: Option<u64>,
}
