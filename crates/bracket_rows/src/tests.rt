use b_ast::machine::DefTable;
use b_grammar::symbols::lexemes;
use b_lex::lex;
use b_parse_expr::parse_formula;
use b_read_expr::tree_of;
use sqlite_items::Items;
use std::alloc::{AllocError, Global};
use std::test::Fail;
use std::thread::Builder;

// What opens a bracket, what stands in the innermost one, and what closes one.
type Nest = (&'static str, &'static str, &'static str);

const NESTS: [Nest; 22] = [
    ("(", "1", ")"),
    ("{", "1", "}"),
    ("[", "1", "]"),
    ("card(", "1", ")"),
    ("prj1(1,", "1", ")"),
    ("bool(", "1", ")"),
    ("IF 1=1 THEN ", "1", " ELSE 1 END"),
    ("IF ", "1=1", " THEN 1 ELSE 1 END"),
    ("IF 1=1 THEN 1 ELSE ", "1", " END"),
    ("#x.(", "1=1", ")"),
    ("!(x,y).(", "1=1", ")"),
    ("%x.(1=1|", "1", ")"),
    ("SIGMA(x).(", "1", "|1)"),
    ("{x|", "1=1", "}"),
    ("f(", "1", ")"),
    ("f(1,", "1", ")"),
    ("f[", "1", "]"),
    ("-(", "1", ")"),
    ("(1,", "1", ")"),
    ("[1,", "1", "]"),
    ("(a;a=>a&a<=>a:a<->a|->a..a+a*a**", "1", ")"),
    ("(1**1*1+1..1|->1<->1:1<=>1&1=>1;", "1", ")"),
];

// So many of these brackets in one another.
fn nested(alloc: Global, nest: Nest, count: u64) -> Result<Vec<u8>, AllocError> {
    let (open, inner, close) = nest;
    let mut text = Vec::new(alloc);
    for _ in 0..count {
        text.extend_from_slice(open.as_bytes())?;
    }
    text.extend_from_slice(inner.as_bytes())?;
    for _ in 0..count {
        text.extend_from_slice(close.as_bytes())?;
    }
    Ok(text)
}

// Whether the text has a tree.
fn is_read(alloc: Global, text: &[u8]) -> bool {
    match lex(alloc, text) {
        Ok(tokens) => match lexemes(alloc, false, text, tokens.as_slice()) {
            Ok(all) => tree_of(alloc, all.as_slice()).is_ok(),
            Err(_) => false,
        },
        Err(_) => false,
    }
}

fn is_nest_read(alloc: Global, nest: Nest, count: u64) -> bool {
    match nested(alloc, nest, count) {
        Ok(text) => is_read(alloc, text.as_slice()),
        Err(_) => false,
    }
}

// 100 brackets may be open at one place, and 2 MB hold five times as many: a bracket takes at most 4 KB of the stack.
#[test]
fn brackets_in_a_small_thread(rt: HostRuntime) -> Result<(), Fail> {
    let alloc = rt.alloc();
    for nest in NESTS {
        for count in [100u64, 500] {
            let child = Builder::new()
                .stack_size(2 << 20)
                .spawn(&rt, move || is_nest_read(alloc, nest, count))?;
            let read = child.join(&rt);
            let (open, _, _) = nest;
            assert!(rt; read, "{count} brackets of {open}");
        }
    }
    Ok(())
}

// Whether the text is a formula without definitions.
fn is_formula(alloc: Global, text: &[u8]) -> bool {
    let defs = DefTable {
        defs: Items::new(alloc),
    };
    match lex(alloc, text) {
        Ok(tokens) => parse_formula(alloc, text, tokens.as_slice(), defs).is_ok(),
        Err(_) => false,
    }
}

fn is_nest_formula(alloc: Global, nest: Nest) -> bool {
    match nested(alloc, nest, 99) {
        Ok(text) => is_formula(alloc, text.as_slice()),
        Err(_) => false,
    }
}

// What opens a bracket under an operator of each priority, behind or before it.
const FULL: [Nest; 2] = [
    ("bool(1=1=>1=1&1=1<=>{1}={1}<->1|->1..1+1*1**", "1", ")"),
    ("bool(", "1", "**1*1+1..1|->1<->1=1<=>1=1&1=1=>1=1)"),
];

// A formula is judged and put together in a thread with a stack of 2 MB, also where 99 brackets are open at one place and
// each stands under operators of all priorities.
#[test]
fn formulas_in_a_small_thread(rt: HostRuntime) -> Result<(), Fail> {
    let alloc = rt.alloc();
    for nest in FULL {
        let child = Builder::new()
            .stack_size(2 << 20)
            .spawn(&rt, move || is_nest_formula(alloc, nest))?;
        let read = child.join(&rt);
        let (open, _, _) = nest;
        assert!(rt; read, "99 brackets of {open}");
    }
    Ok(())
}
