//! For a name its place in a table or among parameters, without a search through them.
ghost use Rattle.std.specs.Prelude.{◌≡◌, ℕ, ◌<◌, List, Some, cond, length, IfOk, IfSome, OnOk, position, bytes_eq};
ghost use Rattle.b_ast.specs.declared.machine.Def.{Def};
ghost use Rattle.b_names.specs.Index.{IsIndexOf, IsIndexOfNames, AreOfParameters, IsTableIndex, answer_of, place_in, place_of};

use b_ast::machine::Def;
use sqlite_items::Items;
use std::alloc::{AllocError, Global};
use std::collections::HashMap;

/// The first place of each name, in a table of definitions or in a list of names.
#[derive(Drop)]
pub struct Index {
    // At a copy of each name its first place.
    places: HashMap<Vec<u8>, usize>,
}

/// The names of a table of definitions, made once for a table.
#[derive(Drop)]
pub struct TableIndex {
    /// The place of the first definition of each name.
    pub definitions: Index,
    /// For each definition the first place of each of its parameters.
    pub parameters: Items<Index>,
}

impl Index {
    /// The first place of a name.
    pub fn first(&self, name: &[u8]) -> Option<usize>
        ensures answer { result ≡ answer_of self.now name.now }
        ensures place { (ds : List Def) → IsIndexOf ds self.now → result ≡ place_of ds name.now }
        ensures within { (ds : List Def) → IsIndexOf ds self.now → IfSome result (λ i. i < length ds) }
        ensures among { (xs : List (List ℕ)) → IsIndexOfNames xs self.now → result ≡ position (bytes_eq name.now) xs }
    {
        self.places.get(name).copied()
    }
}

/// The index of the definitions of a table.
pub fn index_of(alloc: Global, defs: &[Def]) -> Result<Index, AllocError>
    ensures { IfOk result (IsIndexOf defs.now) }
{
    let mut places = HashMap::with_capacity(alloc, defs.len())?;
    let mut i = defs.len();
    while i > 0 {
        i -= 1;
        put(&mut places, alloc, defs[i].name.as_slice(), i)?;
    }
    Ok(Index { places })
}

/// The index of a list of names: of equal names the first counts.
pub fn index_of_names(alloc: Global, names: &[Items<u8>]) -> Result<Index, AllocError>
    ensures { IfOk result (IsIndexOfNames names.now) }
{
    let mut places = HashMap::with_capacity(alloc, names.len())?;
    let mut left = names.len();
    while left > 0 {
        left -= 1;
        put(&mut places, alloc, names[left].as_slice(), left)?;
    }
    Ok(Index { places })
}

fn indexes_of_parameters(alloc: Global, defs: &[Def]) -> Result<Items<Index>, AllocError>
    ensures indexes { IfOk result (AreOfParameters defs.now) }
    ensures as_many { IfOk result (λ is. length is ≡ length defs.now) }
{
    let mut indexes = Items::new(alloc);
    for def in defs {
        let index = index_of_names(alloc, def.params.as_slice())?;
        indexes.push(index)?;
    }
    Ok(indexes)
}

/// The index of a table: of its definitions, and of the parameters of each.
pub fn table_index(alloc: Global, defs: &[Def]) -> Result<TableIndex, AllocError>
    ensures { IfOk result (IsTableIndex defs.now) }
{
    let definitions = index_of(alloc, defs)?;
    let parameters = indexes_of_parameters(alloc, defs)?;
    Ok(TableIndex {
        definitions,
        parameters,
    })
}

// Sets the place of a name, whether it had one or not.
fn put(
    places: &mut HashMap<Vec<u8>, usize>,
    alloc: Global,
    name: &[u8],
    place: usize,
) -> Result<(), AllocError>
    ensures { OnOk result ((x : List ℕ) → place_in places.new x ≡ cond (bytes_eq x name.now) (Some place) (place_in places.old x)) }
{
    let key = Vec::from_slice(alloc, name)?;
    places.insert(key, place)?;
    Ok(())
}
