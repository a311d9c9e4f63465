ghost use Rattle.std.specs.Prelude.{◌≡◌, ◌↔◌, [], ◌∷◌, map, filter, IfOk};
ghost use Rattle.std.specs.List.{flat_map};
ghost use Rattle.ascending.specs.Ascending.{In, IsAscending};
ghost use Rattle.b_values.specs.Values.{IsKept, elements, value_cmp};
ghost use Rattle.b_values.specs.declared.values.Value.{Value};
ghost use Rattle.set_making.specs.Making.{Answers};
ghost use Rattle.b_relations.specs.Parts.{begins_with};
ghost use Rattle.b_relations.specs.Relations.{Relates, apply_row, couples_in, image_row, only};

use crate::walking::{Taken, couples_from, take_into};
use b_values::{FaultKind, Value};
use set_making::{OpFault, set_with};
use std::alloc::{AllocError, Global};

/// `r[S]`: for each member of S two binary searches in r.
pub fn image(alloc: Global, r: &Value, s: &Value) -> Result<Value, OpFault>
    requires relation { IsKept r.now }
    requires set { IsKept s.now }
    ensures value { Answers (image_row r.now s.now) result }
    ensures kept { IfOk result (λ v. IsKept v) }
    ensures members { IfOk result (λ v. (y : Value) → In y (elements v) ↔ ((x : Value) × In x (elements s.now) × Relates r.now x y)) }
{
    match images(alloc, r.members(), s.members()) {
        Ok(found) => set_with(alloc, found),
        Err(_) => Err(OpFault::Memory),
    }
}

fn images(alloc: Global, relation: &[Value], set: &[Value]) -> Result<Vec<Value>, AllocError>
    requires { IsAscending value_cmp relation.now }
    ensures { IfOk result (λ v. v.items ≡ flat_map (λ x. map (λ p. p.1) (couples_in (filter (begins_with x) relation.now))) set.now) }
{
    let mut found = Vec::new(alloc);
    for x in set {
        take_into(alloc, &mut found, couples_from(relation, x), Taken::Second)?;
    }
    Ok(found)
}

/// `f(x)`: two binary searches. It builds nothing.
pub fn apply(_alloc: Global, f: &Value, x: &Value) -> Result<Value, OpFault>
    requires function { IsKept f.now }
    requires argument { IsKept x.now }
    ensures value { Answers (apply_row f.now x.now) result }
    ensures kept { IfOk result (λ v. IsKept v) }
    ensures image { IfOk result (λ v. (y : Value) → Relates f.now x.now y ↔ (y ≡ v)) }
{
    let images = couples_from(f.members(), x);
    if images.len() == 1 {
        second_of(&images[0])
    } else {
        Err(OpFault::Fault(FaultKind::IllDefined))
    }
}

/// The second part of a couple.
fn second_of(m: &Value) -> Result<Value, OpFault>
    ensures { Answers (only (map (λ p. p.1) (couples_in (m.now ∷ [])))) result }
{
    match m {
        Value::Pair(_, y) => y.get().share().map_err(|_| OpFault::Memory),
        _ => Err(OpFault::Fault(FaultKind::IllDefined)),
    }
}
