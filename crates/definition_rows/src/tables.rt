// Tables of definitions that are written as text.
use b_ast::machine::{Def, DefBody, DefTable, Subst};
use b_ast::{Expr, Formula, Place, Pred};
use b_lex::lex;
use b_parse_expr::tree_of_text;
use sqlite_items::Items;
use std::alloc::{AllocError, Global};
use std::test::Fail;

pub fn tree(alloc: Global, text: &str) -> Result<Formula, Fail> {
    let tokens = lex(alloc, text.as_bytes())?;
    match tree_of_text(alloc, text.as_bytes(), &tokens) {
        Ok(tree) => Ok(tree),
        Err(_) => Err(Fail::from("a body without a tree")),
    }
}

fn params(alloc: Global, text: &str) -> Result<Items<Items<u8>>, AllocError> {
    let mut names = Items::new(alloc);
    for name in text.bytes() {
        if name != b',' {
            names.push(Items::from_slice(alloc, &[name])?)?;
        }
    }
    Ok(names)
}

const HERE: Place = Place {
    machine: true,
    at: 0,
    depth: 0,
};

fn formula_body(alloc: Global, text: &str) -> Result<DefBody, Fail> {
    match text.strip_prefix('?') {
        Some(text) => {
            let formula = tree(alloc, text)?;
            Ok(DefBody::Pred(Pred { formula }))
        }
        None => {
            let formula = tree(alloc, text)?;
            Ok(DefBody::Expr(Expr { formula }))
        }
    }
}

fn use_body(alloc: Global, name: &str) -> Result<DefBody, Fail> {
    let name = Items::from_slice(alloc, name.as_bytes())?;
    Ok(DefBody::Subst(Subst::Use(HERE, name, Items::new(alloc))))
}

// A body of a predicate begins with `?`; `skip` is a substitution, and so is a use `do d`.
fn body_of(alloc: Global, text: &str) -> Result<DefBody, Fail> {
    if text == "skip" {
        return Ok(DefBody::Subst(Subst::Skip(HERE)));
    }
    match text.strip_prefix("do ") {
        Some(name) => use_body(alloc, name),
        None => formula_body(alloc, text),
    }
}

fn definition(alloc: Global, name: &str, names: &str, body: &str) -> Result<Def, Fail> {
    let body = body_of(alloc, body)?;
    let params = params(alloc, names)?;
    let name = Items::from_slice(alloc, name.as_bytes())?;
    Ok(Def {
        name,
        params,
        body,
        at: 0,
    })
}

// The name, the parameters and the body of `d:p,q:body`.
fn cut(text: &str) -> Option<(&str, &str, &str)> {
    let (name, rest) = text.split_once(':')?;
    let (names, body) = rest.split_once(':')?;
    Some((name, names, body))
}

// With a definition `d:p,q:body`, whose parameters have one letter.
fn with_definition(alloc: Global, defs: Items<Def>, text: &str) -> Result<Items<Def>, Fail> {
    match cut(text) {
        Some((name, names, body)) => {
            let mut defs = defs;
            let def = definition(alloc, name, names, body)?;
            defs.push(def)?;
            Ok(defs)
        }
        None => Err(Fail::from("no definition")),
    }
}

// Definitions with `;;` between them.
fn definitions(alloc: Global, text: &str) -> Result<Items<Def>, Fail> {
    let mut defs = Items::new(alloc);
    for part in text.split(";;") {
        if !part.is_empty() {
            defs = with_definition(alloc, defs, part)?;
        }
    }
    Ok(defs)
}

pub fn table(alloc: Global, text: &str) -> Result<DefTable, Fail> {
    let defs = definitions(alloc, text)?;
    Ok(DefTable { defs })
}

// With the definition behind that of a number by a pattern, in which `#` is the name of the one before.
fn with_next(
    alloc: Global,
    defs: Items<Def>,
    pattern: &str,
    number: usize,
) -> Result<Items<Def>, Fail> {
    let next = number.saturating_add(1);
    let name = format!(in alloc; "d{number}")?;
    let rest = pattern.replace(alloc, "#", name.as_str())?;
    let text = format!(in alloc; "d{next}{rest}")?;
    with_definition(alloc, defs, text.as_str())
}

/// Definitions, and behind them d2 and so on up to so many.
pub fn growing(alloc: Global, first: &str, pattern: &str, count: usize) -> Result<DefTable, Fail> {
    let mut defs = definitions(alloc, first)?;
    for number in 1..count {
        defs = with_next(alloc, defs, pattern, number)?;
    }
    Ok(DefTable { defs })
}

/// The definitions from behind.
pub fn reversed(alloc: Global, table: DefTable) -> Result<DefTable, AllocError> {
    let DefTable { mut defs } = table;
    let mut all = Items::new(alloc);
    for _ in 0..defs.len() {
        if let Some(def) = defs.pop() {
            all.push(def)?;
        }
    }
    Ok(DefTable { defs: all })
}
