//! What is known of trees without them.

use b_ast::Sort;
use sqlite_items::Items;

/// How wide and how deep a part of a tree is.
#[derive(Clone, Copy)]
pub struct Size {
    /// Counted up to 1,000,001.
    pub nodes: u64,
    /// How many brackets are open at its deepest place; None without a place.
    pub depth: Option<u64>,
}

/// What is known of a tree that has a sort.
#[derive(Clone, Copy)]
pub struct Facts {
    pub sort: Sort,
    pub size: Size,
}

/// Which sorts are asked of an argument.
#[derive(Clone, Copy)]
pub struct Asked {
    pub expression: bool,
    pub predicate: bool,
    pub implication: bool,
}

/// What an argument adds to the tree of a body.
#[derive(Clone, Copy)]
pub struct Share {
    /// How often it stands in the tree, counted up to 1,000,001.
    pub count: u64,
    /// The most brackets that are added to its own; None where it stands nowhere.
    pub offset: Option<u64>,
    pub asked: Asked,
}

/// The share of the argument for the parameter at a place.
#[derive(Clone, Copy)]
pub struct Entry {
    pub parameter: usize,
    pub share: Share,
}

/// The sort of a tree: its own, or that of the argument for the parameter at a place.
#[derive(Clone, Copy)]
pub enum Kind {
    Own(Sort),
    Argument(usize),
}

/// What parts of a body are together: their own size, and what arguments add.
#[derive(Drop)]
pub struct Parts {
    pub size: Size,
    pub entries: Items<Entry>,
}

/// What a tree of a body is, by the arguments.
#[derive(Drop)]
pub struct Summary {
    pub kind: Kind,
    pub parts: Parts,
}

/// What a use of a definition gives, by its arguments: one share for each parameter.
#[derive(Drop)]
pub struct Told {
    pub kind: Kind,
    pub size: Size,
    pub shares: Items<Share>,
}
