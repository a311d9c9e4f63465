ghost use Rattle.std.specs.Prelude.{◌≡◌, ◌↔◌, map, IfOk};
ghost use Rattle.ascending.specs.Ascending.{In};
ghost use Rattle.b_values.specs.Values.{IsKept, elements};
ghost use Rattle.b_values.specs.declared.values.Value.{Value};
ghost use Rattle.b_values.specs.declared.values.Value.TheVariants.{Pair};
ghost use Rattle.set_making.specs.Making as sets;
ghost use Rattle.set_making.specs.Making.{Answers};
ghost use Rattle.b_relations.specs.Parts as spec;
ghost use Rattle.b_relations.specs.Relations.{InDomain, InRange, Relates, converse_row, couples, dom_row, identity_row, ran_row};

use crate::walking::{Taken, take_all};
use b_values::Value;
use set_making::{OpFault, couple, set_with};
use std::alloc::{AllocError, Global};

/// `dom(r)`
pub fn dom(alloc: Global, r: &Value) -> Result<Value, OpFault>
    requires { IsKept r.now }
    ensures value { Answers (dom_row r.now) result }
    ensures kept { IfOk result (λ v. IsKept v) }
    ensures members { IfOk result (λ v. (x : Value) → In x (elements v) ↔ InDomain r.now x) }
{
    taken_of_all(alloc, r, Taken::First)
}

/// `ran(r)`
pub fn ran(alloc: Global, r: &Value) -> Result<Value, OpFault>
    requires { IsKept r.now }
    ensures value { Answers (ran_row r.now) result }
    ensures kept { IfOk result (λ v. IsKept v) }
    ensures members { IfOk result (λ v. (y : Value) → In y (elements v) ↔ InRange r.now y) }
{
    taken_of_all(alloc, r, Taken::Second)
}

/// `r~`
pub fn converse(alloc: Global, r: &Value) -> Result<Value, OpFault>
    requires { IsKept r.now }
    ensures value { Answers (converse_row r.now) result }
    ensures kept { IfOk result (λ v. IsKept v) }
    ensures members { IfOk result (λ v. (x y : Value) → Relates v x y ↔ Relates r.now y x) }
{
    taken_of_all(alloc, r, Taken::Turned)
}

/// `id(S)`
pub fn identity(alloc: Global, s: &Value) -> Result<Value, OpFault>
    requires { IsKept s.now }
    ensures value { Answers (identity_row s.now) result }
    ensures kept { IfOk result (λ v. IsKept v) }
    ensures members { IfOk result (λ v. (x y : Value) → Relates v x y ↔ ((x ≡ y) × In x (elements s.now))) }
{
    match twins(alloc, s.members()) {
        Ok(found) => set_with(alloc, found),
        Err(_) => Err(OpFault::Memory),
    }
}

fn taken_of_all(alloc: Global, r: &Value, what: Taken) -> Result<Value, OpFault>
    ensures { Answers (sets.set_with (map (spec.taken what) (couples r.now))) result }
{
    match take_all(alloc, r.members(), what) {
        Ok(found) => set_with(alloc, found),
        Err(_) => Err(OpFault::Memory),
    }
}

/// Each value coupled with itself.
pub fn twins(alloc: Global, values: &[Value]) -> Result<Vec<Value>, AllocError>
    ensures { IfOk result (λ v. v.items ≡ map (λ x. Pair x x) values.now) }
{
    let mut found = Vec::new(alloc);
    for x in values {
        found.push(couple(alloc, x, x)?)?;
    }
    Ok(found)
}
