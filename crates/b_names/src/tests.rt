// The place of a name that is defined twice, and of a name that isn't defined.
use super::*;
use b_ast::machine::{Def, DefBody};
use b_ast::{Expr, Formula, Place};
use sqlite_items::Items;
use std::alloc::{AllocError, Global};
use std::test::Fail;

const HERE: Place = Place {
    machine: true,
    at: 0,
    depth: 0,
};

// A definition of a name as a number.
fn definition(alloc: Global, name: &[u8], number: u128) -> Result<Def, AllocError> {
    Ok(Def {
        name: Items::from_slice(alloc, name)?,
        params: Items::new(alloc),
        body: DefBody::Expr(Expr {
            formula: Formula::Number(HERE, number),
        }),
        at: 0,
    })
}

#[test]
fn finds_first_definitions(rt: HostRuntime) -> Result<(), Fail> {
    let alloc = rt.alloc();
    let mut defs = Items::new(alloc);
    defs.push(definition(alloc, b"one", 1)?)?;
    defs.push(definition(alloc, b"two", 2)?)?;
    defs.push(definition(alloc, b"one", 3)?)?;
    let index = index_of(alloc, defs.as_slice())?;
    assert_eq!(rt; index.first(b"one"), Some(0));
    assert_eq!(rt; index.first(b"two"), Some(1));
    assert_eq!(rt; index.first(b"three"), None);
    assert_eq!(rt; index.first(b""), None);
    Ok(())
}
