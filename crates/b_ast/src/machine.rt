//! Trees of substitutions, machines and definitions.

use crate::{Bound, Expr, Formula, Place, Pred};
use sqlite_items::{Boxed, Items};

/// Which predicate stands before a substitution.
#[derive(Clone, Copy, Debug, PartialEq, Eq)]
pub enum Guard {
    Pre,
    Assert,
}

/// How two substitutions stand together.
#[derive(Clone, Copy, Debug, PartialEq, Eq)]
pub enum Joint {
    /// `||`
    Parallel,
    /// `;`
    Sequence,
}

/// A generalised substitution.
#[cycle(substitution)]
#[derive(Drop)]
pub enum Subst {
    Skip(Place),
    /// `BEGIN S END`
    Block(Place, Boxed<Subst>),
    /// `x,y := E,F`
    Assign(Place, Items<Bound>, Items<Formula>),
    /// `f(E) := F`, with the place of its `(`
    Update(Place, Bound, Formula, Formula),
    /// `x :: E`
    ChooseFrom(Place, Bound, Formula),
    /// `x,y : (P)`
    ChooseSuch(Place, Items<Bound>, Formula),
    /// `PRE P THEN S END`, `ASSERT P THEN S END`
    Guarded(Place, Guard, Formula, Boxed<Subst>),
    /// `IF P THEN S ELSIF Q THEN T ELSE U END`
    If(Place, Items<Branch>, Option<Boxed<Subst>>),
    /// `SELECT P THEN S WHEN Q THEN T ELSE U END`
    Select(Place, Items<Branch>, Option<Boxed<Subst>>),
    /// `CHOICE S OR T END`
    Choice(Place, Items<Subst>),
    /// `CASE E OF EITHER l,m THEN S OR n THEN T ELSE U END END`
    Case(Place, Formula, Items<CaseBranch>, Option<Boxed<Subst>>),
    /// `ANY x,y WHERE P THEN S END`
    Any(Place, Items<Bound>, Formula, Boxed<Subst>),
    /// `LET x,y BE x = E & y = F IN S END`
    Let(Place, Items<Bound>, Items<Formula>, Boxed<Subst>),
    /// `||` and `;` with their sides in order
    Chain(Boxed<Subst>, Items<Step>),
    /// A use of a definition, with its arguments.
    Use(Place, Items<u8>, Items<Formula>),
}

/// A predicate and what is done where it holds.
#[cycle(substitution)]
#[derive(Drop)]
pub struct Branch {
    pub guard: Formula,
    pub body: Subst,
}

/// The labels of a branch of CASE and what is done at them.
#[cycle(substitution)]
#[derive(Drop)]
pub struct CaseBranch {
    pub labels: Items<Formula>,
    pub body: Subst,
}

/// `||` or `;` and the right side.
#[cycle(substitution)]
#[derive(Drop)]
pub struct Step {
    pub joint: Joint,
    pub at: Place,
    pub body: Subst,
}

/// What a definition stands for.
#[derive(Drop)]
pub enum DefBody {
    Expr(Expr),
    Pred(Pred),
    Subst(Subst),
}

/// `d == body` or `d(p,q) == body`, with the place of its name.
#[derive(Drop)]
pub struct Def {
    pub name: Items<u8>,
    pub params: Items<Items<u8>>,
    pub body: DefBody,
    pub at: u64,
}

/// The definitions of a machine, each behind those that its body uses: the order in which a table is read.
#[derive(Drop)]
pub struct DefTable {
    pub defs: Items<Def>,
}

/// A set of SETS: its name, and its listed elements if it has some.
#[derive(Drop)]
pub struct SetDecl {
    pub name: Bound,
    pub elements: Option<Items<Bound>>,
}

/// `r,s <-- name(p,q) = S`
#[derive(Drop)]
pub struct Operation {
    pub name: Bound,
    pub results: Items<Bound>,
    pub params: Items<Bound>,
    pub body: Subst,
}

/// A machine with its clauses; an absent list is empty.
#[derive(Drop)]
pub struct MachineText {
    pub name: Bound,
    pub sets: Items<SetDecl>,
    /// CONSTANTS and ABSTRACT_CONSTANTS in text order.
    pub constants: Items<Bound>,
    pub properties: Option<Pred>,
    /// VARIABLES and CONCRETE_VARIABLES in text order.
    pub variables: Items<Bound>,
    pub invariant: Option<Pred>,
    pub assertions: Items<Pred>,
    pub defs: DefTable,
    pub initialisation: Option<Subst>,
    pub operations: Items<Operation>,
}
