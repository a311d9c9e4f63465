//! The first definition of each name, and those that are never meant.
ghost use Rattle.std.specs.Prelude.{◌≡◌, ◌++◌, not, reverse, IfOk};
ghost use Rattle.b_definitions.specs.Parting as spec;

use b_ast::machine::{Def, DefTable};
use b_names::Index;
use sqlite_items::Items;
use std::alloc::{AllocError, Global};

/// The definitions of a table: the first of each name, and those of a name that has one before.
#[derive(Drop)]
pub struct Parted {
    pub firsts: Items<Def>,
    pub later: Items<Def>,
}

// The same from behind, so far.
#[derive(Drop)]
struct Found {
    firsts: Vec<Def>,
    later: Vec<Def>,
}

// Whether the definition at a place is the first of its name.
fn is_first(index: &Index, place: usize, def: &Def) -> bool
    ensures { result ≡ spec.is_first index.now place def.now }
{
    match index.first(def.name.as_slice()) {
        Some(first) => first == place,
        None => false,
    }
}

fn with_def(found: Found, def: Def, first: bool) -> Result<Found, AllocError>
    ensures firsts { IfOk result (λ f. f.firsts.items ≡ found.firsts.items ++ spec.listed_if first def) }
    ensures later { IfOk result (λ f. f.later.items ≡ found.later.items ++ spec.listed_if (not first) def) }
{
    let mut found = found;
    if first {
        found.firsts.push(def)?;
    } else {
        found.later.push(def)?;
    }
    Ok(found)
}

#[tactic(auto, using(crate::proofs::Parts::firsts_on, crate::proofs::Parts::later_on))]
fn found_in(alloc: Global, defs: Items<Def>, index: &Index) -> Result<Found, AllocError>
    ensures firsts { IfOk result (λ f. reverse f.firsts.items ≡ spec.firsts index.now 0 defs) }
    ensures later { IfOk result (λ f. reverse f.later.items ≡ spec.later index.now 0 defs) }
{
    let mut left = defs;
    let mut found = Found {
        firsts: Vec::new(alloc),
        later: Vec::new(alloc),
    };
    while let Some(def) = left.pop() {
        let first = is_first(index, left.len(), &def);
        found = with_def(found, def, first)?;
    }
    Ok(found)
}

/// The first definition of each name, and the others, each in the order of the table.
pub fn parts_of(alloc: Global, table: DefTable, index: &Index) -> Result<Parted, AllocError>
    ensures firsts { IfOk result (λ p. p.firsts ≡ spec.firsts index.now 0 table.defs) }
    ensures later { IfOk result (λ p. p.later ≡ spec.later index.now 0 table.defs) }
{
    let Found {
        mut firsts,
        mut later,
    } = found_in(alloc, table.defs, index)?;
    firsts.reverse();
    later.reverse();
    Ok(Parted {
        firsts: Items::from_vec(firsts),
        later: Items::from_vec(later),
    })
}
