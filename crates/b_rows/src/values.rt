//! Operators that give a value.

ghost use Rattle.std.specs.Prelude.{◌≡◌, IfOk};
ghost use Rattle.b_values.specs.Values.{IsKept, limited};
ghost use Rattle.b_values.specs.declared.values.Value.TheVariants.{Pair};
ghost use Rattle.set_making.specs.Making.{Answers};
ghost use Rattle.b_rows.specs.Answers.{Means, placed};
ghost use Rattle.b_rows.specs.Rows.{unary_row, binary_row, power_row};

use crate::EvalStop;
use crate::numbers::{
    difference, negative, predecessor, product, quotient, raised, remainder, successor, sum,
};
use crate::sets::at_place;
use b_tree::{BinaryOperator, Place, UnaryOperator};
use b_values::{FaultKind, Value};
use set_making::{OpFault, couple, within_limit};
use std::alloc::Global;

/// An operator that takes no memory.
pub(crate) fn plain(r: Result<Value, FaultKind>) -> Result<Value, OpFault>
    requires { IfOk r (λ v. IsKept v) }
    ensures value { Answers r result }
    ensures kept { IfOk result (λ v. IsKept v) }
{
    match r {
        Ok(v) => Ok(v),
        Err(kind) => Err(OpFault::Fault(kind)),
    }
}

/// `a |-> b`
#[tactic(auto, using(crate::proofs::Kept::kept_pair))]
fn pair(alloc: Global, x: &Value, y: &Value) -> Result<Value, OpFault>
    requires left { IsKept x.now }
    requires right { IsKept y.now }
    ensures value { Answers (limited (Pair x.now y.now)) result }
    ensures kept { IfOk result (λ v. IsKept v) }
{
    match couple(alloc, x, y) {
        Ok(v) => within_limit(v),
        Err(_) => Err(OpFault::Memory),
    }
}

fn unary(alloc: Global, op: UnaryOperator, x: &Value) -> Result<Value, OpFault>
    requires { IsKept x.now }
    ensures value { Answers (unary_row op x.now) result }
    ensures kept { IfOk result (λ v. IsKept v) }
{
    match op {
        UnaryOperator::Negative => plain(negative(x)),
        UnaryOperator::Successor => plain(successor(x)),
        UnaryOperator::Predecessor => plain(predecessor(x)),
        UnaryOperator::Minimum => b_setops::min(alloc, x),
        UnaryOperator::Maximum => b_setops::max(alloc, x),
        UnaryOperator::Cardinality => b_setops::card(alloc, x),
        UnaryOperator::Union => b_setops::big_union(alloc, x),
        UnaryOperator::Intersection => b_setops::big_inter(alloc, x),
        UnaryOperator::Domain => b_setops::dom(alloc, x),
        UnaryOperator::Range => b_setops::ran(alloc, x),
        UnaryOperator::Converse => b_setops::converse(alloc, x),
        UnaryOperator::Identity => b_setops::identity(alloc, x),
        UnaryOperator::Closure => b_setops::closure(alloc, x),
        UnaryOperator::Closure1 => b_setops::closure1(alloc, x),
        UnaryOperator::Size => b_setops::size(alloc, x),
        UnaryOperator::Reverse => b_setops::rev(alloc, x),
        UnaryOperator::First => b_setops::first(alloc, x),
        UnaryOperator::Last => b_setops::last(alloc, x),
        UnaryOperator::Front => b_setops::front(alloc, x),
        UnaryOperator::Tail => b_setops::tail(alloc, x),
        UnaryOperator::Concatenation => b_setops::conc(alloc, x),
    }
}

fn binary(alloc: Global, op: BinaryOperator, x: &Value, y: &Value) -> Result<Value, OpFault>
    requires left { IsKept x.now }
    requires right { IsKept y.now }
    ensures value { Answers (binary_row op x.now y.now) result }
    ensures kept { IfOk result (λ v. IsKept v) }
{
    match op {
        BinaryOperator::Times => plain(product(x, y)),
        BinaryOperator::Divide => plain(quotient(x, y)),
        BinaryOperator::Modulo => plain(remainder(x, y)),
        BinaryOperator::Plus => plain(sum(x, y)),
        BinaryOperator::Minus => plain(difference(x, y)),
        BinaryOperator::Couple => pair(alloc, x, y),
        BinaryOperator::Union => b_setops::union(alloc, x, y),
        BinaryOperator::Intersection => b_setops::intersect(alloc, x, y),
        BinaryOperator::Difference => b_setops::difference(alloc, x, y),
        BinaryOperator::Concatenation => b_setops::concat(alloc, x, y),
        BinaryOperator::Prepend => b_setops::prepend(alloc, x, y),
        BinaryOperator::Append => b_setops::append(alloc, x, y),
        BinaryOperator::Take => b_setops::take(alloc, x, y),
        BinaryOperator::Drop => b_setops::drop_first(alloc, x, y),
        BinaryOperator::DomainRestriction => b_setops::dom_restrict(alloc, x, y),
        BinaryOperator::RangeRestriction => b_setops::ran_restrict(alloc, x, y),
        BinaryOperator::DomainSubtraction => b_setops::dom_subtract(alloc, x, y),
        BinaryOperator::RangeSubtraction => b_setops::ran_subtract(alloc, x, y),
        BinaryOperator::Overriding => b_setops::overwrite(alloc, x, y),
        BinaryOperator::DirectProduct => b_setops::direct(alloc, x, y),
        BinaryOperator::Composition => b_setops::compose(alloc, x, y),
        BinaryOperator::ParallelProduct => b_setops::parallel(alloc, x, y),
        BinaryOperator::Projection1 => b_setops::prj1(alloc, x, y),
        BinaryOperator::Projection2 => b_setops::prj2(alloc, x, y),
        BinaryOperator::Iterate => b_setops::iterate(alloc, x, y),
        BinaryOperator::Apply => b_setops::apply(alloc, x, y),
        BinaryOperator::Image => b_setops::image(alloc, x, y),
    }
}

/// The value of an operator of one operand, its fault at its place.
pub fn apply(alloc: Global, op: UnaryOperator, at: Place, x: &Value) -> Result<Value, EvalStop>
    requires { IsKept x.now }
    ensures value { Means (placed at (unary_row op x.now)) result }
    ensures kept { IfOk result (λ v. IsKept v) }
{
    at_place(at, unary(alloc, op, x))
}

/// The value of an operator of two operands, its fault at its place.
pub fn combine(
    alloc: Global,
    op: BinaryOperator,
    at: Place,
    x: &Value,
    y: &Value,
) -> Result<Value, EvalStop>
    requires left { IsKept x.now }
    requires right { IsKept y.now }
    ensures value { Means (placed at (binary_row op x.now y.now)) result }
    ensures kept { IfOk result (λ v. IsKept v) }
{
    at_place(at, binary(alloc, op, x, y))
}

/// The value of `x ** y`, its fault at its place.
pub fn power(at: Place, x: &Value, y: &Value) -> Result<Value, EvalStop>
    ensures value { Means (placed at (power_row x.now y.now)) result }
    ensures kept { IfOk result (λ v. IsKept v) }
{
    at_place(at, plain(raised(x, y)))
}
