//! Resolved substitutions.

use crate::{Binder, ExprTree, Place, PredTree};
use sqlite_items::{Boxed, Items};

/// How two substitutions stand together.
#[derive(Clone, Copy, Debug, PartialEq, Eq)]
pub enum Joint {
    /// `||`
    Parallel,
    /// `;`
    Sequence,
}

/// A generalised substitution. What is written is a slot of a result or of a variable.
#[cycle(substitution)]
#[derive(Drop)]
pub enum SubstTree {
    Skip,
    /// `x,y := E,F`
    Assign(Items<Assignment>),
    /// `f(E) := F`: the place of its `(`, f, E and F.
    Update(Place, usize, ExprTree, ExprTree),
    /// `x :: E`
    From(usize, ExprTree),
    /// `x,y : (P)`: the binder gives the new values, and in P the slots of the targets have the old ones.
    Such(Items<usize>, Binder),
    /// `PRE P THEN S END`, `ASSERT P THEN S END`
    Guarded(Boxed<Guarded>),
    /// `IF P THEN S ELSIF Q THEN T ELSE U END`; U is `skip` where it is absent.
    If(Items<Branch>, Boxed<SubstTree>),
    /// `SELECT P THEN S WHEN Q THEN T ELSE U END`
    Select(Items<Branch>, Option<Boxed<SubstTree>>),
    /// `CHOICE S OR T END`
    Choice(Items<SubstTree>),
    /// `CASE E OF EITHER l,m THEN S OR n THEN T ELSE U END END`; U is `skip` where it is absent.
    Case(ExprTree, Items<CaseBranch>, Boxed<SubstTree>),
    /// `ANY x,y WHERE P THEN S END`
    Any(Boxed<Selection>),
    /// `LET x,y BE x = E & y = F IN S END`: the values, whose slots follow those in scope, and S.
    Let(Items<ExprTree>, Boxed<SubstTree>),
    /// `||` and `;` with their sides in order
    Chain(Boxed<SubstTree>, Items<Step>),
}

/// A slot and its new value.
#[derive(Drop)]
pub struct Assignment {
    pub target: usize,
    pub value: ExprTree,
}

/// A predicate and what is done where it holds.
#[cycle(substitution)]
#[derive(Drop)]
pub struct Guarded {
    pub guard: PredTree,
    pub body: SubstTree,
}

/// A predicate and what is done where it holds, in an IF or a SELECT.
#[cycle(substitution)]
#[derive(Drop)]
pub struct Branch {
    pub guard: PredTree,
    pub body: SubstTree,
}

/// The labels of a branch of CASE and what is done at them.
#[cycle(substitution)]
#[derive(Drop)]
pub struct CaseBranch {
    pub labels: Items<ExprTree>,
    pub body: SubstTree,
}

/// The bound variables and what is done for each of their tuples for which the predicate holds.
#[cycle(substitution)]
#[derive(Drop)]
pub struct Selection {
    pub binder: Binder,
    pub body: SubstTree,
}

/// `||` or `;` and the right side, with the slots that it may write.
#[cycle(substitution)]
#[derive(Drop)]
pub struct Step {
    pub joint: Joint,
    pub targets: Items<usize>,
    pub body: SubstTree,
}
