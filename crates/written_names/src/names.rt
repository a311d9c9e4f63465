//! Sets of names, and rows of them.
ghost use Rattle.std.specs.Prelude.{◌≡◌, ◌∷◌, ◌&&◌, ◌||◌, not, [], ℕ, List, IfOk, OnOk, bytes_eq};
ghost use Rattle.written_names.specs.Names as spec;
ghost use Rattle.written_names.specs.Names.{either, among, has, in_set, is_among, named, none};

use b_ast::{Bound, Place};
use sqlite_items::Items;
use std::alloc::{AllocError, Global};
use std::collections::HashSet;

/// A set of names.
#[derive(Drop)]
pub struct Names {
    set: HashSet<Vec<u8>>,
}

/// Names as a row of sets, each of which adds to the names before it or hides some of them.
#[derive(Clone, Copy)]
pub enum Among<'a> {
    /// All of a set.
    All(&'a Names),
    /// Those of a set, and those of a row.
    With(&'a Names, &'a Among<'a>),
    /// Those of a row that a set doesn't hide.
    Without(&'a Names, &'a Among<'a>),
}

// Adds a name, whether it was there or not.
fn put(set: &mut HashSet<Vec<u8>>, alloc: Global, name: &[u8]) -> Result<(), AllocError>
    ensures { OnOk result ((x : List ℕ) → in_set set.new x ≡ (bytes_eq x name.now || in_set set.old x)) }
{
    let key = Vec::from_slice(alloc, name)?;
    set.insert(key)?;
    Ok(())
}

impl Names {
    /// No names.
    #[tactic(auto, using(crate::proofs::Which::emptied))]
    pub fn new(alloc: Global) -> Names
        ensures { has result ≡ none }
    {
        Names {
            set: HashSet::new(alloc),
        }
    }

    /// Whether a name is one of them.
    #[tactic(auto, unfolding(crate::specs::Names::has))]
    pub fn has(&self, name: &[u8]) -> bool
        ensures { result ≡ has self.now name.now }
    {
        self.set.contains(name)
    }

    /// Adds a name.
    #[tactic(auto, using(crate::proofs::Which::putting))]
    pub fn put(&mut self, alloc: Global, name: &[u8]) -> Result<(), AllocError>
        ensures { OnOk result (has self.new ≡ either (among (name.now ∷ [])) (has self.old)) }
    {
        put(&mut self.set, alloc, name)
    }
}

impl Among<'_> {
    /// Whether a name is one of the row.
    #[tactic(auto, unfolding(crate::specs::Names::either, crate::specs::Names::without))]
    pub fn has(&self, name: &[u8]) -> bool
        ensures { result ≡ is_among self.now name.now }
    {
        match self {
            Among::All(names) => names.has(name),
            Among::With(names, outer) => names.has(name) || outer.has(name),
            Among::Without(hidden, outer) => outer.has(name) && !hidden.has(name),
        }
    }
}

// Adds names one after another.
fn put_all(into: &mut Names, alloc: Global, names: &[Items<u8>]) -> Result<(), AllocError>
    ensures { OnOk result (has into.new ≡ spec.added (has into.old) names.now) }
{
    for name in names {
        into.put(alloc, name.as_slice())?;
    }
    Ok(())
}

/// Adds names, whether they were there or not.
#[tactic(auto, using(crate::proofs::Which::added_all))]
pub fn add_all(into: &mut Names, alloc: Global, names: &[Items<u8>]) -> Result<(), AllocError>
    ensures { OnOk result (has into.new ≡ either (has into.old) (among names.now)) }
{
    put_all(into, alloc, names)
}

/// The set of some names.
#[tactic(auto, using(crate::proofs::Which::gathers))]
pub fn set_of(alloc: Global, names: &[Items<u8>]) -> Result<Names, AllocError>
    ensures { IfOk result (λ n. has n ≡ among names.now) }
{
    let mut set = Names::new(alloc);
    add_all(&mut set, alloc, names)?;
    Ok(set)
}

/// The names that stand there, in their order.
pub fn list_of(alloc: Global, bounds: &[Bound]) -> Result<Items<Items<u8>>, AllocError>
    ensures { IfOk result (λ names. names ≡ spec.names_of bounds.now) }
{
    let mut names = Items::new(alloc);
    for bound in bounds {
        names.push(Items::from_slice(alloc, bound.name.as_slice())?)?;
    }
    Ok(names)
}

/// The names that stand there.
pub fn names_of(alloc: Global, bounds: &[Bound]) -> Result<Names, AllocError>
    ensures { IfOk result (λ n. has n ≡ named bounds.now) }
{
    let list = list_of(alloc, bounds)?;
    set_of(alloc, list.as_slice())
}

/// The list of one name.
pub fn list_of_one(alloc: Global, bound: &Bound) -> Result<Items<Items<u8>>, AllocError>
    ensures { IfOk result (λ names. names ≡ bound.now.name ∷ []) }
{
    let mut names = Items::new(alloc);
    names.push(Items::from_slice(alloc, bound.name.as_slice())?)?;
    Ok(names)
}

/// The first of two places.
pub fn first_of(first: Option<Place>, second: Option<Place>) -> Option<Place>
    ensures { result ≡ spec.or_else first second }
{
    match first {
        Some(at) => Some(at),
        None => second,
    }
}

/// The place, where the test holds.
pub fn at_if(test: bool, at: Place) -> Option<Place>
    ensures { result ≡ spec.at_if test at }
{
    if test { Some(at) } else { None }
}
