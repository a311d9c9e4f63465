ghost use Rattle.std.specs.Prelude.{◌≡◌, ◌↔◌, ◌⊎◌, ◌++◌, map, filter, IfOk};
ghost use Rattle.ascending.specs.Ascending.{In, IsAscending, set_of};
ghost use Rattle.b_values.specs.Values.{IsKept, elements, value_cmp};
ghost use Rattle.b_values.specs.declared.values.Value.{Value};
ghost use Rattle.set_making.specs.Making as sets;
ghost use Rattle.set_making.specs.Making.{Answers};
ghost use Rattle.b_relations.specs.Parts as spec;
ghost use Rattle.b_relations.specs.Relations as rows;
ghost use Rattle.b_relations.specs.Relations.{InDomain, Relates, couple, couples, dom_restrict_row, dom_subtract_row, overwrite_row, ran_restrict_row, ran_subtract_row};

use crate::walking::{Side, Taken, kept_couples, take_all};
use b_values::{Value, set_from};
use set_making::{OpFault, merge, set_in_order};
use sqlite_items::Items;
use std::alloc::{AllocError, Global};

/// `S <| r`
pub fn dom_restrict(alloc: Global, s: &Value, r: &Value) -> Result<Value, OpFault>
    requires set { IsKept s.now }
    requires relation { IsKept r.now }
    ensures value { Answers (dom_restrict_row s.now r.now) result }
    ensures kept { IfOk result (λ v. IsKept v) }
    ensures members { IfOk result (λ v. (x y : Value) → Relates v x y ↔ (In x (elements s.now) × Relates r.now x y)) }
{
    restricted(alloc, r, Side::Left, s, true)
}

/// `S <<| r`
pub fn dom_subtract(alloc: Global, s: &Value, r: &Value) -> Result<Value, OpFault>
    requires set { IsKept s.now }
    requires relation { IsKept r.now }
    ensures value { Answers (dom_subtract_row s.now r.now) result }
    ensures kept { IfOk result (λ v. IsKept v) }
    ensures members { IfOk result (λ v. (x y : Value) → Relates v x y ↔ ((¬ In x (elements s.now)) × Relates r.now x y)) }
{
    restricted(alloc, r, Side::Left, s, false)
}

/// `r |> S`
pub fn ran_restrict(alloc: Global, r: &Value, s: &Value) -> Result<Value, OpFault>
    requires relation { IsKept r.now }
    requires set { IsKept s.now }
    ensures value { Answers (ran_restrict_row r.now s.now) result }
    ensures kept { IfOk result (λ v. IsKept v) }
    ensures members { IfOk result (λ v. (x y : Value) → Relates v x y ↔ (Relates r.now x y × In y (elements s.now))) }
{
    restricted(alloc, r, Side::Right, s, true)
}

/// `r |>> S`
pub fn ran_subtract(alloc: Global, r: &Value, s: &Value) -> Result<Value, OpFault>
    requires relation { IsKept r.now }
    requires set { IsKept s.now }
    ensures value { Answers (ran_subtract_row r.now s.now) result }
    ensures kept { IfOk result (λ v. IsKept v) }
    ensures members { IfOk result (λ v. (x y : Value) → Relates v x y ↔ (Relates r.now x y × (¬ In y (elements s.now)))) }
{
    restricted(alloc, r, Side::Right, s, false)
}

/// `r <+ s`
pub fn overwrite(alloc: Global, r: &Value, s: &Value) -> Result<Value, OpFault>
    requires relation { IsKept r.now }
    requires over { IsKept s.now }
    ensures value { Answers (overwrite_row r.now s.now) result }
    ensures kept { IfOk result (λ v. IsKept v) }
    ensures members { IfOk result (λ v. (x y : Value) → Relates v x y ↔ (Relates s.now x y ⊎ (Relates r.now x y × (¬ InDomain s.now x)))) }
{
    match overwritten(alloc, r, s) {
        Ok(members) => set_in_order(alloc, members),
        Err(_) => Err(OpFault::Memory),
    }
}

/// The couples whose part at the side is in the set, or, where not `within`, isn't.
fn restricted(
    alloc: Global,
    r: &Value,
    side: Side,
    s: &Value,
    within: bool,
) -> Result<Value, OpFault>
    requires relation { IsKept r.now }
    requires set { IsKept s.now }
    ensures { Answers (sets.set_with (map couple (filter (spec.keeps side (elements s.now) within) (couples r.now)))) result }
{
    match kept_couples(alloc, r.members(), side, s.members(), within) {
        Ok(members) => set_in_order(alloc, members),
        Err(_) => Err(OpFault::Memory),
    }
}

fn overwritten(alloc: Global, r: &Value, s: &Value) -> Result<Items<Value>, AllocError>
    requires relation { IsKept r.now }
    requires over { IsKept s.now }
    ensures { IfOk result (λ items. items ≡ set_of value_cmp (rows.overwrite_members r.now s.now)) }
{
    let firsts = set_from(take_all(alloc, s.members(), Taken::First)?);
    let old = kept_couples(alloc, r.members(), Side::Left, firsts.as_slice(), false)?;
    let new = kept_couples(alloc, s.members(), Side::Left, &[], false)?;
    merge(alloc, old.as_slice(), new.as_slice())
}
