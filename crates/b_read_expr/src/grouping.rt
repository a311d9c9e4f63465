//! A row of operands grouped by the priorities of its operators. However many priorities there are, nothing recurs.
ghost use Rattle.std.specs.Prelude.{◌≡◌, ◌<◌, IfOk, map, reverse};
ghost use Rattle.std.specs.Option.{option_map};
ghost use Rattle.std.specs.List.{list_any};
ghost use Rattle.b_grammar.specs.Grammar as grammar;
ghost use Rattle.b_grammar.specs.Descent as descent;
ghost use Rattle.b_read_expr.specs.Grouping as spec;

use crate::nodes::node;
use b_ast::priorities::priority;
use b_ast::{Formula, Link, Operator, Place};
use sqlite_items::{Boxed, Items};
use std::alloc::{AllocError, Global};

/// An operator, its place and the operand behind it.
#[derive(Drop)]
pub struct Part {
    pub operator: Operator,
    pub at: Place,
    pub operand: Boxed<Formula>,
}

// An operand and the parts behind it.
#[derive(Drop)]
struct Row {
    first: Boxed<Formula>,
    parts: Items<Part>,
}

// Parts from the last on: those of the first chain, and those behind it.
#[derive(Drop)]
struct Gathered {
    run: Items<Part>,
    rest: Items<Part>,
}

// Two comparisons don't stand in one chain.
fn may_chain(level: u64, run: &Items<Part>) -> bool
    ensures { result ≡ grammar.may_chain level run.now }
{
    level != 60 || run.len() < 2
}

fn links_of(alloc: Global, run: Items<Part>) -> Result<Items<Link>, AllocError>
    ensures { IfOk result (λ ls. ls ≡ map grammar.link (spec.from_last run)) }
{
    let mut left = run;
    let mut links = Items::new(alloc);
    while let Some(part) = left.pop() {
        let Part {
            operator,
            at,
            operand,
        } = part;
        links.push(Link {
            operator,
            at,
            operand: operand.into_inner(),
        })?;
    }
    Ok(links)
}

fn chain_of(
    alloc: Global,
    level: u64,
    first: Boxed<Formula>,
    run: Items<Part>,
) -> Result<Option<Boxed<Formula>>, AllocError>
    ensures { IfOk result (λ q. q ≡ descent.chain_at level first (spec.from_last run)) }
{
    if may_chain(level, &run) {
        let links = links_of(alloc, run)?;
        Ok(Some(node(alloc, first, links)?))
    } else {
        Ok(None)
    }
}

// One part more in front of gathered ones.
fn before(
    alloc: Global,
    level: u64,
    part: Part,
    gathered: Gathered,
) -> Result<Option<Gathered>, AllocError>
    ensures { IfOk result (λ q. option_map spec.lists q ≡ descent.before level (spec.as_part part) (spec.lists gathered)) }
{
    let Gathered { mut run, mut rest } = gathered;
    if priority(part.operator) == level {
        run.push(part)?;
        Ok(Some(Gathered { run, rest }))
    } else {
        let Part {
            operator,
            at,
            operand,
        } = part;
        match chain_of(alloc, level, operand, run)? {
            Some(operand) => {
                rest.push(Part {
                    operator,
                    at,
                    operand,
                })?;
                Ok(Some(Gathered {
                    run: Items::new(alloc),
                    rest,
                }))
            }
            None => Ok(None),
        }
    }
}

fn gathered_at(
    alloc: Global,
    level: u64,
    parts: Items<Part>,
) -> Result<Option<Gathered>, AllocError>
    ensures { IfOk result (λ q. option_map spec.lists q ≡ descent.gathered level (spec.parts_of parts)) }
{
    let mut left = parts;
    let mut gathered = Gathered {
        run: Items::new(alloc),
        rest: Items::new(alloc),
    };
    while let Some(part) = left.pop() {
        match before(alloc, level, part, gathered)? {
            Some(more) => gathered = more,
            None => return Ok(None),
        }
    }
    Ok(Some(gathered))
}

fn reversed(alloc: Global, parts: Items<Part>) -> Result<Items<Part>, AllocError>
    ensures { IfOk result (λ r. r ≡ reverse parts) }
{
    let mut left = parts;
    let mut all = Items::new(alloc);
    while let Some(part) = left.pop() {
        all.push(part)?;
    }
    Ok(all)
}

// The chains of one priority.
fn merged(alloc: Global, level: u64, row: Row) -> Result<Option<Row>, AllocError>
    ensures { IfOk result (λ q. option_map spec.row_of q ≡ descent.merged level (spec.row_of row)) }
{
    let Row { first, parts } = row;
    match gathered_at(alloc, level, parts)? {
        Some(gathered) => {
            let Gathered { run, rest } = gathered;
            match chain_of(alloc, level, first, run)? {
                Some(first) => {
                    let parts = reversed(alloc, rest)?;
                    Ok(Some(Row { first, parts }))
                }
                None => Ok(None),
            }
        }
        None => Ok(None),
    }
}

fn has_level(parts: &[Part], level: u64) -> bool
    ensures { result ≡ list_any (spec.is_at level) parts.now }
{
    for part in parts {
        if priority(part.operator) == level {
            return true;
        }
    }
    false
}

// The chains of one priority, where there are any.
fn level_merged(alloc: Global, level: u64, row: Row) -> Result<Option<Row>, AllocError>
    ensures { IfOk result (λ q. option_map spec.row_of q ≡ descent.merged level (spec.row_of row)) }
{
    if has_level(row.parts.as_slice(), level) {
        merged(alloc, level, row)
    } else {
        Ok(Some(row))
    }
}

fn alone(row: Row) -> Option<Boxed<Formula>>
    ensures { result ≡ descent.alone (spec.row_of row) }
{
    let Row { first, parts } = row;
    if parts.is_empty() { Some(first) } else { None }
}

/// The tree of a row of operands whose operators have these priorities, the loosest first. The tightest ones are grouped
/// first, each in one pass over the row.
#[inline(never)]
pub fn grouped(
    alloc: Global,
    levels: &[u64],
    first: Boxed<Formula>,
    parts: Items<Part>,
) -> Result<Option<Boxed<Formula>>, AllocError>
    ensures { IfOk result (λ q. q ≡ spec.tree levels.now first parts) }
{
    let mut row = Row { first, parts };
    let mut looser = levels;
    while let Some((level, rest)) = looser.split_last() {
        match level_merged(alloc, *level, row)? {
            Some(more) => row = more,
            None => return Ok(None),
        }
        looser = rest;
    }
    Ok(alone(row))
}
