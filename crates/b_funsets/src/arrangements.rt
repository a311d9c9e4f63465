ghost use Rattle.std.specs.Prelude.{◌≡◌, suc, ◌+◌, ◌^◌, ◌<◌, ◌↔◌, pos, [], ◌++◌, map, reverse, length, IfOk, IfErr};
ghost use Rattle.ascending.specs.Ascending.{In, IsAscending};
ghost use Rattle.b_values.specs.Values.{elements, value_cmp, IsKept};
ghost use Rattle.b_values.specs.declared.values.Value.TheVariants.{Int, Set};
ghost use Rattle.set_making.specs.declared.OpFault.TheVariants.{Memory};
ghost use Rattle.set_making.specs.Making.{set_with, Answers, FaultOf};
ghost use Rattle.b_funsets.specs.Arrangements.{injections_below, places, iseq_row, perm_row, IsArrangement, IsPermutation};
ghost use Rattle.b_funsets.specs.Levels.{level, read, Gives, GrowsLarge};

use crate::arrows::{TOTAL_INJ, bijections};
use crate::levels::{functions, sets_of};
use b_values::Value;
use set_making::{OpFault, set_with};
use shared::Shared;
use sqlite_items::Items;
use std::alloc::{AllocError, Global};

/// `perm(S)`: the sequences of all members of S, each once.
pub fn perm(alloc: Global, s: &Value) -> Result<Value, OpFault>
    requires { IsKept s.now }
    ensures value { Answers (perm_row s.now) result }
    ensures kept { IfOk result (λ v. IsKept v) }
    ensures members { IfOk result (λ v. (x : Value) → In x (elements v) ↔ IsPermutation s.now x) }
{
    let Ok(ps) = places_to(alloc, s.members().len()) else {
        return Err(OpFault::Memory);
    };
    match Shared::new(alloc, ps) {
        Ok(ps) => bijections(alloc, &Value::Set(ps), s),
        Err(_) => Err(OpFault::Memory),
    }
}

fn places_to(alloc: Global, n: usize) -> Result<Items<Value>, AllocError>
    ensures { IfOk result (λ ps. ps ≡ places n) }
{
    let mut ps = Items::new(alloc);
    for k in 0..n {
        ps.push(place_after(k))?;
    }
    Ok(ps)
}

fn place_after(k: usize) -> Value
    requires { k + 1 < 2 ^ 64 }
    ensures { result ≡ Int (pos (k + 1)) }
{
    Value::Int(i128::from(k as u64 + 1))
}

/// `iseq(S)`: the sequences of members of S, none twice. The work for a length is that of the result of that length.
pub fn iseq(alloc: Global, s: &Value) -> Result<Value, OpFault>
    requires { IsKept s.now }
    ensures value { Answers (iseq_row s.now) result }
    ensures kept { IfOk result (λ v. IsKept v) }
    ensures members { IfOk result (λ v. (x : Value) → In x (elements v) ↔ IsArrangement s.now x) }
{
    match arrangements(alloc, s.members()) {
        Ok(sets) => set_with(alloc, sets),
        Err(fault) => Err(fault),
    }
}

/// The one-to-one sequences, a length after another.
fn arrangements(alloc: Global, t: &[Value]) -> Result<Vec<Value>, OpFault>
    requires { IsAscending value_cmp t.now }
    ensures found { IfOk result (λ sets. (z : Value) → In z sets.items ↔ In z (map Set (injections_below (suc (length t.now)) t.now))) }
    ensures refused { IfErr result (λ e. FaultOf (set_with (map Set (injections_below (suc (length t.now)) t.now))) e) }
{
    let mut sets = Vec::new(alloc);
    let mut k = 0;
    while k <= t.len() {
        match with_injections(alloc, k, t, sets) {
            Ok(more) => sets = more,
            Err(fault) => return Err(fault),
        }
        k += 1;
    }
    Ok(sets)
}

fn with_injections(
    alloc: Global,
    k: usize,
    t: &[Value],
    sets: Vec<Value>,
) -> Result<Vec<Value>, OpFault>
    ensures found { IfOk result (λ more. more.items ≡ sets.items ++ map (λ row. Set (read row)) (reverse (level TOTAL_INJ t.now 0 (places k)))) }
    ensures refused { IfErr result (λ e. Gives [] (GrowsLarge TOTAL_INJ t.now (places k)) (Err e)) }
{
    let Ok(ps) = places_to(alloc, k) else {
        return Err(OpFault::Memory);
    };
    match functions(alloc, TOTAL_INJ, ps.as_slice(), t) {
        Ok(rows) => match sets_of(alloc, rows) {
            Ok(found) => joined(sets, found),
            Err(_) => Err(OpFault::Memory),
        },
        Err(fault) => Err(fault),
    }
}

fn joined(sets: Vec<Value>, found: Vec<Value>) -> Result<Vec<Value>, OpFault>
    ensures found { IfOk result (λ more. more.items ≡ sets.items ++ found.items) }
    ensures refused { IfErr result (λ e. e ≡ Memory) }
{
    let mut sets = sets;
    let mut found = found;
    match sets.append(&mut found) {
        Ok(_) => Ok(sets),
        Err(_) => Err(OpFault::Memory),
    }
}
