ghost use Rattle.std.specs.Prelude.{◌≡◌, ◌+◌, ◌<◌, ◌≤◌, nat_lt, [], ◌∷◌, ◌++◌, length, map, filter, reverse, IfOk, OnOk};
ghost use Rattle.std.specs.List.{flat_map};
ghost use Rattle.b_values.specs.Values.{node_count};
ghost use Rattle.b_values.specs.declared.values.Value.TheVariants.{Pair, Set};
ghost use Rattle.b_funsets.specs.Arrows.{second};
ghost use Rattle.b_funsets.specs.Levels.{extended, hits, children, left_after, level, read, skips, start, takes, viable, weight, Gives, GrowsLarge, Spends};

use crate::subsets::push_couples;
use b_values::{FaultKind, Value, same_value, share_all, spend};
use set_making::OpFault;
use shared::Shared;
use sqlite_items::Items;
use std::alloc::{AllocError, Global};

/// The most nodes that the members of a set may have together.
const MEMBER_LIMIT: u64 = 999_999;

/// Which functions are asked for.
#[derive(Clone, Copy, Debug)]
pub struct Arrow {
    pub total: bool,
    pub one_to_one: bool,
    pub onto: bool,
}

/// A function in the making: its couples, the last first, how many elements of T are no images yet where that matters,
/// and the nodes of the function as a set.
#[derive(Debug, Drop)]
pub struct Row {
    pub couples: Items<Value>,
    pub left: usize,
    pub nodes: u64,
}

/// The functions from s to t, an element of s after another from the last; a row that no function completes is never
/// made, so the work is that of the result. It stops at the first row past the limit of nodes.
pub fn functions(alloc: Global, a: Arrow, s: &[Value], t: &[Value]) -> Result<Items<Row>, OpFault>
    ensures { Gives (level a t.now 0 s.now) (GrowsLarge a t.now s.now) result }
{
    let mut i = s.len();
    let mut rows = match first_rows(alloc, a, t.len(), i) {
        Ok(rows) => rows,
        Err(_) => return Err(OpFault::Memory),
    };
    while i > 0 {
        i -= 1;
        match next_level(alloc, a, i, &s[i], t, rows) {
            Ok(next) => rows = next,
            Err(fault) => return Err(fault),
        }
    }
    Ok(rows)
}

fn first_rows(alloc: Global, a: Arrow, n: usize, k: usize) -> Result<Items<Row>, AllocError>
    ensures { IfOk result (λ rows. rows ≡ start a n k) }
{
    let mut rows = Items::new(alloc);
    let left = if a.onto || (a.total && a.one_to_one) {
        n
    } else {
        0
    };
    if is_viable(a, k, left, n > 0) {
        rows.push(Row {
            couples: Items::new(alloc),
            left,
            nodes: 1,
        })?;
    }
    Ok(rows)
}

fn next_level(
    alloc: Global,
    a: Arrow,
    k: usize,
    x: &Value,
    t: &[Value],
    rows: Items<Row>,
) -> Result<Items<Row>, OpFault>
    ensures { let next = flat_map (children a k (nat_lt 0 (length t.now)) (map (λ y. Pair x.now y) t.now)) (reverse rows) in Gives next (999999 < weight next) result }
{
    let mut cs = Items::new(alloc);
    if push_couples(alloc, &mut cs, x, t).is_err() {
        return Err(OpFault::Memory);
    }
    grown(alloc, a, k, !t.is_empty(), cs.as_slice(), rows)
}

fn grown(
    alloc: Global,
    a: Arrow,
    k: usize,
    some: bool,
    cs: &[Value],
    rows: Items<Row>,
) -> Result<Items<Row>, OpFault>
    ensures { let next = flat_map (children a k some cs.now) (reverse rows) in Gives next (999999 < weight next) result }
{
    let mut rows = rows;
    let mut next = Items::new(alloc);
    let mut budget = MEMBER_LIMIT;
    while let Some(row) = rows.pop() {
        match push_children(alloc, a, k, some, cs, row, &mut next, budget) {
            Ok(rest) => budget = rest,
            Err(fault) => return Err(fault),
        }
    }
    Ok(next)
}

/// The rows that one becomes. The last of them takes its couples, the others share them.
fn push_children(
    alloc: Global,
    a: Arrow,
    k: usize,
    some: bool,
    cs: &[Value],
    row: Row,
    rows: &mut Items<Row>,
    budget: u64,
) -> Result<u64, OpFault>
    ensures spends { Spends (weight (children a k some cs.now row)) budget result }
    ensures pushed { OnOk result (rows.new ≡ rows.old ++ children a k some cs.now row) }
{
    let mut ps = match taken(alloc, a, k, some, &row, cs) {
        Ok(ps) => ps,
        Err(_) => return Err(OpFault::Memory),
    };
    if can_skip(a, k, some, &row) {
        let rest = push_copies(alloc, rows, budget, &row, ps.as_slice())?;
        push_row(rows, rest, row)
    } else {
        match ps.pop() {
            None => Ok(budget),
            Some(last) => {
                let rest = push_copies(alloc, rows, budget, &row, ps.as_slice())?;
                push_extended(rows, rest, row, last)
            }
        }
    }
}

fn push_copies(
    alloc: Global,
    rows: &mut Items<Row>,
    budget: u64,
    row: &Row,
    ps: &[Value],
) -> Result<u64, OpFault>
    ensures spends { Spends (weight (map (extended row.now) ps.now)) budget result }
    ensures pushed { OnOk result (rows.new ≡ rows.old ++ map (extended row.now) ps.now) }
{
    let mut rest = budget;
    for c in ps {
        match push_copy(alloc, rows, rest, row, c) {
            Ok(left) => rest = left,
            Err(fault) => return Err(fault),
        }
    }
    Ok(rest)
}

fn push_copy(
    alloc: Global,
    rows: &mut Items<Row>,
    budget: u64,
    row: &Row,
    c: &Value,
) -> Result<u64, OpFault>
    ensures spends { Spends (row.now.nodes + node_count c.now) budget result }
    ensures pushed { OnOk result (rows.new ≡ rows.old ++ extended row.now c.now ∷ []) }
{
    match (copied(alloc, row), c.share()) {
        (Ok(copy), Ok(d)) => push_extended(rows, budget, copy, d),
        _ => Err(OpFault::Memory),
    }
}

fn copied(alloc: Global, row: &Row) -> Result<Row, AllocError>
    ensures { IfOk result (λ copy. copy ≡ row.now) }
{
    Ok(Row {
        couples: share_all(alloc, row.couples.as_slice())?,
        left: row.left,
        nodes: row.nodes,
    })
}

fn push_extended(rows: &mut Items<Row>, budget: u64, row: Row, c: Value) -> Result<u64, OpFault>
    ensures spends { Spends (row.nodes + node_count c) budget result }
    ensures pushed { OnOk result (rows.new ≡ rows.old ++ extended row c ∷ []) }
{
    let left = next_left(&row, &c);
    if budget < row.nodes {
        return Err(OpFault::Fault(FaultKind::TooLarge));
    }
    let Some(rest) = spend(&c, budget - row.nodes) else {
        return Err(OpFault::Fault(FaultKind::TooLarge));
    };
    let Row {
        mut couples,
        left: _,
        nodes: _,
    } = row;
    if couples.push(c).is_err() {
        return Err(OpFault::Memory);
    }
    let longer = Row {
        couples,
        left,
        nodes: budget - rest,
    };
    match rows.push(longer) {
        Ok(_) => Ok(rest),
        Err(_) => Err(OpFault::Memory),
    }
}

fn push_row(rows: &mut Items<Row>, budget: u64, row: Row) -> Result<u64, OpFault>
    ensures spends { Spends row.nodes budget result }
    ensures pushed { OnOk result (rows.new ≡ rows.old ++ row ∷ []) }
{
    let nodes = row.nodes;
    if budget < nodes {
        return Err(OpFault::Fault(FaultKind::TooLarge));
    }
    match rows.push(row) {
        Ok(_) => Ok(budget - nodes),
        Err(_) => Err(OpFault::Memory),
    }
}

fn taken(
    alloc: Global,
    a: Arrow,
    k: usize,
    some: bool,
    row: &Row,
    cs: &[Value],
) -> Result<Items<Value>, AllocError>
    ensures { IfOk result (λ ps. ps ≡ filter (takes a k some row.now) cs.now) }
{
    let mut ps = Items::new(alloc);
    for c in cs {
        if can_take(a, k, some, row, c) {
            ps.push(c.share()?)?;
        }
    }
    Ok(ps)
}

fn can_take(a: Arrow, k: usize, some: bool, row: &Row, c: &Value) -> bool
    ensures { result ≡ takes a k some row.now c.now }
{
    (!a.one_to_one || !is_hit(row.couples.as_slice(), second_part(c)))
        && is_viable(a, k, next_left(row, c), some)
}

fn can_skip(a: Arrow, k: usize, some: bool, row: &Row) -> bool
    ensures { result ≡ skips a k some row.now }
{
    !a.total && is_viable(a, k, row.left, some)
}

fn is_viable(a: Arrow, k: usize, left: usize, some: bool) -> bool
    ensures { result ≡ viable a k left some }
{
    (!a.onto || left <= k)
        && (!(a.total && a.one_to_one) || k <= left)
        && (!a.total || k == 0 || some)
}

/// How many elements of T are left after another couple; where none is left the row need not be searched.
fn next_left(row: &Row, c: &Value) -> usize
    ensures { result ≡ left_after row.now.left (hits row.now.couples (second c.now)) }
{
    if row.left == 0 || is_hit(row.couples.as_slice(), second_part(c)) {
        row.left
    } else {
        row.left - 1
    }
}

fn is_hit(couples: &[Value], y: &Value) -> bool
    ensures { result ≡ hits couples.now y.now }
{
    couples.iter().any(|p| same_value(second_part(p), y))
}

fn second_part(v: &Value) -> &Value
    ensures { result.now ≡ second v.now }
{
    match v {
        Value::Pair(_, b) => b.get(),
        other => other,
    }
}

/// The functions as sets.
pub fn sets_of(alloc: Global, rows: Items<Row>) -> Result<Vec<Value>, AllocError>
    ensures { IfOk result (λ sets. sets.items ≡ map (λ row. Set (read row)) (reverse rows)) }
{
    let mut rows = rows;
    let mut sets = Vec::new(alloc);
    while let Some(row) = rows.pop() {
        sets.push(set_of_row(alloc, row)?)?;
    }
    Ok(sets)
}

fn set_of_row(alloc: Global, row: Row) -> Result<Value, AllocError>
    ensures { IfOk result (λ v. v ≡ Set (read row)) }
{
    let Row {
        couples: mut rest,
        left: _,
        nodes: _,
    } = row;
    let mut items = Items::new(alloc);
    while let Some(c) = rest.pop() {
        items.push(c)?;
    }
    Ok(Value::Set(Shared::new(alloc, items)?))
}
