//! Places, and words that are values.
ghost use Rattle.std.specs.Prelude.{◌≡◌, IfOk};
ghost use Rattle.tree_parts.specs.Constants as spec;

use b_ast::Constant;
use b_tree::{ExprTree, Place, SetOperator, Sides, Word};
use b_values::Text;
use shared::Shared;
use sqlite_items::Boxed;
use std::alloc::{AllocError, Global};

/// A place of the machine's text, or of a formula's own.
pub fn place(at: b_ast::Place) -> Place
    ensures { result ≡ spec.place at }
{
    Place {
        text: if at.machine {
            Text::Machine
        } else {
            Text::Formula
        },
        at: at.at,
    }
}

// The numbers between two.
pub(crate) fn interval(
    alloc: Global,
    at: Place,
    least: i128,
    most: i128,
) -> Result<Boxed<ExprTree>, AllocError>
    ensures { IfOk result (λ e. e ≡ spec.interval at least most) }
{
    let left = Shared::new(alloc, ExprTree::Number(least))?;
    let right = Shared::new(alloc, ExprTree::Number(most))?;
    let sides = Boxed::new(alloc, Sides { left, right })?;
    Boxed::new(alloc, ExprTree::Between(SetOperator::Interval, at, sides))
}

/// A word, where MININT and MAXINT are these: INT, NAT and NAT1 are intervals.
pub fn constant(
    alloc: Global,
    word: Constant,
    at: Place,
    minint: i128,
    maxint: i128,
) -> Result<Boxed<ExprTree>, AllocError>
    ensures { IfOk result (λ e. e ≡ spec.constant word at minint maxint) }
{
    match word {
        Constant::Integer => Boxed::new(alloc, ExprTree::Word(at, Word::Integer)),
        Constant::Natural => Boxed::new(alloc, ExprTree::Word(at, Word::Natural)),
        Constant::Natural1 => Boxed::new(alloc, ExprTree::Word(at, Word::Natural1)),
        Constant::Int => interval(alloc, at, minint, maxint),
        Constant::Nat => interval(alloc, at, 0, maxint),
        Constant::Nat1 => interval(alloc, at, 1, maxint),
        Constant::String => Boxed::new(alloc, ExprTree::Word(at, Word::String)),
        Constant::Bool => Boxed::new(alloc, ExprTree::Word(at, Word::Bool)),
        Constant::True => Boxed::new(alloc, ExprTree::Truth(true)),
        Constant::False => Boxed::new(alloc, ExprTree::Truth(false)),
        Constant::MinInt => Boxed::new(alloc, ExprTree::Number(minint)),
        Constant::MaxInt => Boxed::new(alloc, ExprTree::Number(maxint)),
    }
}
