//! The sizes of deferred sets, by name.
ghost use Rattle.std.specs.Prelude.{◌≡◌, IfOk, option_copied};
ghost use Rattle.set_elements.specs.Sizes.{AreIndexed, or_default, size_by, size_in, sized_names, sizings_of};

use crate::conjuncts::{Sizing, shape_in, taken};
use b_ast::Pred;
use b_names::{Index, index_of_names};
use sqlite_items::Items;
use std::alloc::{AllocError, Global};

/// What PROPERTIES says of the sizes of deferred sets, and the size of all others.
#[derive(Drop)]
pub struct Sizes {
    pub sizings: Items<Sizing>,
    pub other: u64,
    pub index: Index,
}

fn sizings_in(alloc: Global, properties: &Option<Pred>) -> Result<Items<Sizing>, AllocError>
    ensures { IfOk result (λ v. v ≡ sizings_of properties.now) }
{
    match properties {
        None => Ok(Items::new(alloc)),
        Some(p) => {
            let found = shape_in(&p.formula, alloc)?;
            Ok(taken(found))
        }
    }
}

fn names_of(alloc: Global, sizings: &[Sizing]) -> Result<Items<Items<u8>>, AllocError>
    ensures { IfOk result (λ names. names ≡ sized_names sizings.now) }
{
    let mut names = Items::new(alloc);
    for sizing in sizings {
        names.push(Items::from_slice(alloc, sizing.name.as_slice())?)?;
    }
    Ok(names)
}

fn or_default(other: u64, size: Option<u64>) -> u64
    ensures { result ≡ or_default other size }
{
    match size {
        None => other,
        Some(n) => n,
    }
}

fn size_by(other: u64, sizing: Option<&Sizing>) -> u64
    ensures { result ≡ size_by other (option_copied sizing.entry) }
{
    match sizing {
        None => other,
        Some(sizing) => or_default(other, sizing.size),
    }
}

impl Sizes {
    /// The sizes that PROPERTIES gives, and the one of all other sets.
    pub fn of(alloc: Global, properties: &Option<Pred>, other: u64) -> Result<Sizes, AllocError>
        ensures sizings { IfOk result (λ s. s.sizings ≡ sizings_of properties.now) }
        ensures other { IfOk result (λ s. s.other ≡ other) }
        ensures indexed { IfOk result AreIndexed }
    {
        let found = sizings_in(alloc, properties)?;
        let names = names_of(alloc, found.as_slice())?;
        let index = index_of_names(alloc, names.as_slice())?;
        Ok(Sizes {
            sizings: found,
            other,
            index,
        })
    }

    /// The number of elements of a deferred set.
    pub fn get(&self, set: &[u8]) -> u64
        requires { AreIndexed self.now }
        ensures { result ≡ size_in self.now.sizings self.now.other set.now }
    {
        match self.index.first(set) {
            None => self.other,
            Some(i) => size_by(self.other, self.sizings.get(i)),
        }
    }
}
