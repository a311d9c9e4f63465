//! Resolved trees: slots in place of names, numbers in place of preferences, and a plan for the range of each bound
//! variable.
#![tactic(auto)]

use b_values::Text;
use shared::Shared;
use sqlite_items::{Boxed, Items};

mod machine;
mod operators;
mod substitutions;

pub use machine::{Formula, FormulaTree, Machine, Needs, OpTree};
pub use operators::{
    BinaryOperator, Collector, Comparison, Connective, Family, Membership, SetOperator,
    UnaryOperator, Word,
};
pub use substitutions::{
    Assignment, Branch, CaseBranch, Guarded, Joint, Selection, Step, SubstTree,
};

/// Where an operator begins: the first byte of its sign, word or bracket, in the machine's text or a formula's own.
#[derive(Clone, Copy, Debug, PartialEq, Eq)]
pub struct Place {
    pub text: Text,
    pub at: u64,
}

/// An expression. Operators of one priority that group from the left are one node, so that only brackets, and the sets
/// of products and of functions, of which a type has at most 500, make a tree deep.
#[cycle(tree)]
#[derive(Drop)]
pub enum ExprTree {
    Number(i128),
    /// `TRUE`, `FALSE`
    Truth(bool),
    Text(Shared<Items<u8>>),
    /// An element of a set of the machine, by their places from 0.
    Element(u32, u32),
    /// A name: a slot, counted from 0 and from the outermost.
    Slot(usize),
    /// A set of the machine, by its place from 0, with the number of its elements.
    Given(Place, u32, u32),
    Word(Place, Word),
    Unary(UnaryOperator, Place, Boxed<ExprTree>),
    /// Operators that group from the left and the forms after an operand, each with its right operand if it has one.
    Chain(Boxed<ExprTree>, Items<Link>),
    /// `a ** b ** c`: all but the last operand, which come with their signs, and the last.
    Powers(Items<Power>, Boxed<ExprTree>),
    /// `POW(E)` and its kin
    Over(Family, Place, Boxed<ExprTree>),
    /// `..`, products, relations and functions
    Between(SetOperator, Place, Boxed<Sides>),
    /// `{E,F,..}`
    Set(Place, Items<ExprTree>),
    /// `[E,F,..]`
    Sequence(Place, Items<ExprTree>),
    /// `bool(P)`
    Bool(Boxed<PredTree>),
    /// `IF P THEN E ELSE F END`
    If(Boxed<PredTree>, Boxed<ExprTree>, Boxed<ExprTree>),
    /// `{x,y | P}`
    Comprehension(Place, Shared<Binder>),
    /// `%x.(P | E)` and its kin
    Collected(Collector, Place, Shared<Collection>),
}

/// An operator and its right operand.
#[cycle(tree)]
#[derive(Drop)]
pub enum Link {
    /// An operator after an operand: `~`
    After(UnaryOperator, Place),
    With(BinaryOperator, Place, ExprTree),
}

/// An operand of `**` and the sign after it.
#[cycle(tree)]
#[derive(Drop)]
pub struct Power {
    pub base: ExprTree,
    pub at: Place,
}

/// The two operands of a set.
#[cycle(tree)]
#[derive(Drop)]
pub struct Sides {
    pub left: Shared<ExprTree>,
    pub right: Shared<ExprTree>,
}

/// A predicate. Connectives of one priority are one node.
#[cycle(tree)]
#[derive(Drop)]
pub enum PredTree {
    /// What stands for a predicate that is absent.
    True,
    Compare(Comparison, Shared<ExprTree>, Shared<ExprTree>),
    /// `:` and `<:`, which are tested by the form of the right side
    Member(Membership, Shared<ExprTree>, Shared<ExprTree>),
    Chain(Boxed<PredTree>, Items<Clause>),
    /// `not(P)`
    Not(Boxed<PredTree>),
    /// `#x.(P)`
    Exists(Shared<Binder>),
    /// `!x.(P => Q)`
    ForAll(Shared<Universal>),
}

/// A connective and its right side.
#[cycle(tree)]
#[derive(Drop)]
pub struct Clause {
    pub connective: Connective,
    pub predicate: PredTree,
}

/// The bound variables and their predicate. Their slots follow those in scope, in their order.
#[cycle(tree)]
#[derive(Drop)]
pub struct Binder {
    pub variables: Items<Variable>,
    pub predicate: PredTree,
}

/// `!x.(P => Q)`: the binder has P.
#[cycle(tree)]
#[derive(Drop)]
pub struct Universal {
    pub binder: Binder,
    pub consequent: PredTree,
}

/// `%x.(P | E)`: the binder has P.
#[cycle(tree)]
#[derive(Drop)]
pub struct Collection {
    pub binder: Binder,
    pub value: ExprTree,
}

/// A bound variable, with the place of its name.
#[cycle(tree)]
#[derive(Drop)]
pub struct Variable {
    pub name: Items<u8>,
    pub at: Place,
    /// Its range is cut by MININT or MAXINT.
    pub bounded: bool,
    pub plan: Plan,
}

/// How a variable gets its values, by those in scope and the earlier variables.
#[cycle(tree)]
#[derive(Drop)]
pub enum Plan {
    /// `x = E`
    Only(Shared<ExprTree>),
    /// `x : E`: the members of E's value.
    Members(Shared<ExprTree>),
    /// The integers between two bounds, none of them built. A cut range of integers is one of two numbers.
    Numbers(Bounds, Shared<ExprTree>, Shared<ExprTree>),
    /// `x <: E`: the subsets of E's value. That they are too many is a fault of the name.
    Subsets(Shared<ExprTree>),
    /// The members of E's value, all of whose faults are faults of the name: a set with its infinite words cut, or all
    /// values of a type. `seq(S)` cut to a length is `UNION(n).(n : 0..length | 1..n --> S)`.
    Cut(Shared<ExprTree>),
}

/// What the two bounds of a range of integers are.
#[derive(Clone, Copy, Debug, PartialEq, Eq)]
pub struct Bounds {
    /// The lower bound itself is left out.
    pub above: bool,
    /// The upper bound itself is left out.
    pub below: bool,
    /// The upper bound stands first in the text, and is evaluated first.
    pub upper_first: bool,
}

#[cfg(test)]
mod tests;
