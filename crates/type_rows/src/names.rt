// Known names of many types, and what is said of a formula beside them.
ghost use Rattle.std.specs.Prelude.{◌<◌, length};
ghost use Rattle.type_table.specs.Tables.{IsTable};

use b_ast::Formula;
use b_expand::ParseFault;
use b_lex::lex;
use b_parse_expr::tree_of_text;
use b_values::{NameFace, SetFace, Ty};
use sqlite_items::{Boxed, Items};
use std::alloc::{AllocError, Global};
use std::test::Fail;
use type_count::type_of;
use type_formulas::{Answer, TYPE_LIMIT, type_formula};
use type_table::Row;
use type_texts::type_text;

fn set(alloc: Global, of: Ty) -> Result<Ty, AllocError> {
    Ok(Ty::Set(Boxed::new(alloc, of)?))
}

fn pairs(alloc: Global, left: Ty, right: Ty) -> Result<Ty, AllocError> {
    set(
        alloc,
        Ty::Pair(Boxed::new(alloc, left)?, Boxed::new(alloc, right)?),
    )
}

fn add(alloc: Global, names: &mut Vec<NameFace>, name: &str, ty: Ty) -> Result<(), AllocError> {
    names.push(NameFace {
        name: Items::from_slice(alloc, name.as_bytes())?,
        ty,
    })?;
    Ok(())
}

// The type of a name that isn't that of a relation.
fn plain(alloc: Global, name: &str) -> Result<Ty, AllocError> {
    if name == "n" {
        return Ok(Ty::Int);
    }
    if name == "b" {
        return Ok(Ty::Truth);
    }
    if name == "p" {
        return Ok(Ty::Elem(0));
    }
    if name == "u" {
        return Ok(Ty::Elem(1));
    }
    if name == "S" {
        return set(alloc, Ty::Elem(0));
    }
    if name == "T" {
        return set(alloc, Ty::Elem(1));
    }
    relation(alloc, name)
}

// Relations: r of P and Q, z of Q and numbers, h in P, q a sequence in P, c sequences of those, w sets of sets of P.
fn relation(alloc: Global, name: &str) -> Result<Ty, AllocError> {
    if name == "r" {
        return pairs(alloc, Ty::Elem(0), Ty::Elem(1));
    }
    if name == "z" {
        return pairs(alloc, Ty::Elem(1), Ty::Int);
    }
    if name == "h" {
        return pairs(alloc, Ty::Elem(0), Ty::Elem(0));
    }
    if name == "q" {
        return pairs(alloc, Ty::Int, Ty::Elem(0));
    }
    if name == "c" {
        let sequence = pairs(alloc, Ty::Int, Ty::Elem(0))?;
        return pairs(alloc, Ty::Int, sequence);
    }
    let inner = set(alloc, Ty::Elem(0))?;
    set(alloc, inner)
}

const NAMES: &str = "n
b
p
u
S
T
r
z
h
q
c
w";

pub fn known(alloc: Global) -> Result<Vec<NameFace>, AllocError> {
    let mut names = Vec::new(alloc);
    for name in NAMES.lines() {
        let ty = plain(alloc, name)?;
        add(alloc, &mut names, name, ty)?;
    }
    Ok(names)
}

fn add_set_face(alloc: Global, sets: &mut Vec<SetFace>, name: &str) -> Result<(), AllocError> {
    sets.push(SetFace {
        name: Items::from_slice(alloc, name.as_bytes())?,
        elements: Items::new(alloc),
    })?;
    Ok(())
}

fn machine_sets(alloc: Global) -> Result<Vec<SetFace>, AllocError> {
    let mut sets = Vec::new(alloc);
    add_set_face(alloc, &mut sets, "P")?;
    add_set_face(alloc, &mut sets, "Q")?;
    Ok(sets)
}

fn part_text(alloc: Global, rows: &[Row], part: usize) -> Result<Vec<u8>, Fail>
    requires table { IsTable rows.now }
    requires inside { part < length rows.now }
{
    let sets = machine_sets(alloc)?;
    match type_of(alloc, rows, part, TYPE_LIMIT)? {
        None => Err(Fail::from("a part without a type")),
        Some(ty) => Ok(type_text(alloc, &sets, &ty)?),
    }
}

fn kind(alloc: Global, text: &str) -> Result<Vec<u8>, Fail> {
    Ok(Vec::from_slice(alloc, text.as_bytes())?)
}

fn tree_of(alloc: Global, text: &[u8]) -> Result<Formula, Fail> {
    let tokens = lex(alloc, text)?;
    match tree_of_text(alloc, text, &tokens) {
        Ok(tree) => Ok(tree),
        Err(ParseFault::Refused { kind: _, at: _ }) => Err(Fail::from("no formula")),
        Err(ParseFault::Memory) => Err(Fail::from("no memory")),
    }
}

fn said(alloc: Global, names: &[NameFace], tree: &Formula) -> Result<Vec<u8>, Fail> {
    match type_formula(alloc, names, tree)? {
        Answer::UnknownName => kind(alloc, "C1"),
        Answer::EqualNames => kind(alloc, "C2"),
        Answer::NoTyping => kind(alloc, "C3"),
        Answer::ManyTypings => kind(alloc, "C4"),
        Answer::Typed(rows, whole) => part_text(alloc, &rows, whole),
    }
}

// The type of a formula's text, or the kind of its refusal.
pub fn answer(alloc: Global, names: &[NameFace], text: &[u8]) -> Result<Vec<u8>, Fail> {
    let tree = tree_of(alloc, text)?;
    said(alloc, names, &tree)
}
