//! Trees of machines as they stand in their texts, before definitions are expanded.

use b_ast::machine::{Operation, SetDecl, Subst};
use b_ast::{Bound, Formula, Place};
use sqlite_items::Items;

/// What stands behind `==`. What a name means there is known once definitions are expanded, so a text that reads as a
/// formula and as a substitution keeps both: the formula counts where it fits.
#[derive(Drop)]
pub enum BodyText {
    Formula(Formula),
    Subst(Subst),
    Either(Formula, Subst),
}

/// `d == body` or `d(p,q) == body`
#[derive(Drop)]
pub struct DefText {
    pub name: Bound,
    pub params: Items<Bound>,
    pub body: BodyText,
}

/// A clause with the place of its word.
#[derive(Drop)]
pub enum Clause {
    Sets(Place, Items<SetDecl>),
    /// CONSTANTS and CONCRETE_CONSTANTS
    Constants(Place, Items<Bound>),
    AbstractConstants(Place, Items<Bound>),
    Properties(Place, Formula),
    /// VARIABLES and ABSTRACT_VARIABLES
    Variables(Place, Items<Bound>),
    ConcreteVariables(Place, Items<Bound>),
    Invariant(Place, Formula),
    Assertions(Place, Items<Formula>),
    Definitions(Place, Items<DefText>),
    Initialisation(Place, Subst),
    Operations(Place, Items<Operation>),
}

/// A machine with its clauses in text order.
#[derive(Drop)]
pub struct MachineTree {
    pub name: Bound,
    pub clauses: Items<Clause>,
}
