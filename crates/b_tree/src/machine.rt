//! Resolved machines, operations and formulas.

ghost use Rattle.std.specs.Prelude.{◌≡◌, MatchOption};
ghost use Rattle.b_tree.specs.Operations.{op_of};

use crate::{Binder, ExprTree, PredTree, SubstTree};
use b_ast::machine::DefTable;
use b_values::{Face, OpId};
use sqlite_items::Items;

/// A machine. Its slots are the constants and then the variables; in an operation the results stand between them, and
/// the parameters follow.
#[derive(Drop)]
pub struct Machine {
    pub face: Face,
    /// PROPERTIES, which binds the constants; none exactly where that clause is absent.
    pub properties: Option<Binder>,
    pub invariant: PredTree,
    /// The word INITIALISATION, or 0 where it is absent.
    pub init_at: u64,
    pub init: SubstTree,
    pub ops: Items<OpTree>,
    /// The definitions that formulas may use.
    pub defs: DefTable,
}

/// An operation, with the place of its name.
#[derive(Drop)]
pub struct OpTree {
    pub id: OpId,
    pub at: u64,
    pub params: Binder,
    pub body: SubstTree,
}

/// A formula, with what a state must have before it has a value.
#[derive(Drop)]
pub struct Formula {
    pub tree: FormulaTree,
    pub needs: Needs,
    /// The range of a bound variable is cut by MININT or MAXINT.
    pub bounded: bool,
}

/// An expression or a predicate.
#[derive(Drop)]
pub enum FormulaTree {
    Expr(ExprTree),
    Pred(PredTree),
}

/// Which names a formula has.
#[derive(Clone, Copy, Debug, PartialEq, Eq)]
pub enum Needs {
    Nothing,
    /// Constants, and no variables.
    Constants,
    Variables,
}

impl Machine {
    /// The operation of a number. Setup and Init are none of `ops`.
    pub fn op(&self, id: OpId) -> Option<&OpTree>
        ensures { MatchOption result (op_of self.now.ops id ≡ None) (λ o. op_of self.now.ops id ≡ Some o.now) }
    {
        find_op(self.ops.as_slice(), id)
    }
}

fn find_op(ops: &[OpTree], id: OpId) -> Option<&OpTree>
    ensures { MatchOption result (op_of ops.now id ≡ None) (λ o. op_of ops.now id ≡ Some o.now) }
{
    for op in ops {
        if op.id == id {
            return Some(op);
        }
    }
    None
}
