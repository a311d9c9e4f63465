ghost use Rattle.std.specs.Prelude.{◌++◌, map, IfOk};
ghost use Rattle.ascending.specs.Ascending.{IsAscending, set_of};
ghost use Rattle.b_values.specs.Values.{IsKept, elements, value_cmp};
ghost use Rattle.set_making.specs.Making as sets;
ghost use Rattle.set_making.specs.Making.{Answers};
ghost use Rattle.b_relations.specs.Closing.{IsRelation};
ghost use Rattle.b_relations.specs.Relations as rows;
ghost use Rattle.b_relations.specs.Relations.{IsReflexiveClosure, IsTransitiveClosure, closure1_row, closure_row, compose_members, couples};

use crate::iterating::standing;
use crate::joining::compose;
use crate::walking::{Side, kept_couples};
use b_values::Value;
use set_making::{OpFault, merge, set_in_order};
use std::alloc::Global;

/// `closure1(r)`: the relation and its square together, until they grow no more. So the compositions are at most one more
/// than the binary digits of the longest way.
pub fn closure1(alloc: Global, r: &Value) -> Result<Value, OpFault>
    requires { IsKept r.now }
    ensures value { Answers (closure1_row r.now) result }
    ensures kept { IfOk result (λ v. IsKept v) }
    ensures closure { IfOk result (λ v. IsTransitiveClosure r.now v) }
{
    match couples_alone(alloc, r) {
        Ok(relation) => grown(alloc, &relation),
        Err(fault) => Err(fault),
    }
}

/// `closure(r)`
pub fn closure(alloc: Global, r: &Value) -> Result<Value, OpFault>
    requires { IsKept r.now }
    ensures value { Answers (closure_row r.now) result }
    ensures kept { IfOk result (λ v. IsKept v) }
    ensures closure { IfOk result (λ v. IsReflexiveClosure r.now v) }
{
    match closure1(alloc, r) {
        Ok(ways) => with_standing(alloc, &ways, r),
        Err(fault) => Err(fault),
    }
}

/// The members that are couples.
fn couples_alone(alloc: Global, r: &Value) -> Result<Value, OpFault>
    requires { IsKept r.now }
    ensures { Answers (sets.set_with (map rows.couple (couples r.now))) result }
{
    match kept_couples(alloc, r.members(), Side::Left, &[], false) {
        Ok(members) => set_in_order(alloc, members),
        Err(_) => Err(OpFault::Memory),
    }
}

/// The closure of a set of couples.
fn grown(alloc: Global, s: &Value) -> Result<Value, OpFault>
    requires kept { IsKept s.now }
    requires relation { IsRelation s.now }
    ensures { Answers (closure1_row s.now) result }
{
    match doubled(alloc, s) {
        Ok(more) => {
            if more.members().len() == s.members().len() {
                Ok(more)
            } else {
                grown(alloc, &more)
            }
        }
        Err(fault) => Err(fault),
    }
}

/// A relation and its square.
fn doubled(alloc: Global, s: &Value) -> Result<Value, OpFault>
    requires { IsKept s.now }
    ensures { Answers (sets.set_with (elements s.now ++ compose_members s.now s.now)) result }
{
    match compose(alloc, s, s) {
        Ok(square) => united(alloc, s.members(), square.members()),
        Err(fault) => Err(fault),
    }
}

fn united(alloc: Global, xs: &[Value], ys: &[Value]) -> Result<Value, OpFault>
    requires left { IsAscending value_cmp xs.now }
    requires right { IsAscending value_cmp ys.now }
    ensures { Answers (sets.set_with (xs.now ++ ys.now)) result }
{
    match merge(alloc, xs, ys) {
        Ok(members) => set_in_order(alloc, members),
        Err(_) => Err(OpFault::Memory),
    }
}

/// The ways of the relation, and from what stands in its couples to itself.
fn with_standing(alloc: Global, ways: &Value, r: &Value) -> Result<Value, OpFault>
    requires { IsKept ways.now }
    ensures { Answers (sets.set_with (elements ways.now ++ set_of value_cmp (map rows.couple (rows.iterated (couples r.now) 0)))) result }
{
    match standing(alloc, r.members()) {
        Ok(members) => united(alloc, ways.members(), members.as_slice()),
        Err(_) => Err(OpFault::Memory),
    }
}
