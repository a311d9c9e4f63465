// What a formula is worth, as a text, and tables of formulas with such texts.
use b_meaning::{eval, holds};
use b_places::Scope;
use b_rows::EvalStop;
use b_tree::{ExprTree, FormulaTree, PredTree};
use b_values::{EvalFault, Face, FaultKind, Prefs, SetFace, Text, Value, write_value};
use sqlite_items::Items;
use std::alloc::{AllocError, Global};
use std::process::Abort;
use std::test::Fail;
use tree_notation::tree_of;

fn names(alloc: Global, text: &str) -> Result<Items<Items<u8>>, AllocError> {
    let mut all = Items::new(alloc);
    for name in text.split_whitespace() {
        all.push(Items::from_slice(alloc, name.as_bytes())?)?;
    }
    Ok(all)
}

fn set_face(alloc: Global, name: &str, elements: &str) -> Result<SetFace, AllocError> {
    Ok(SetFace {
        name: Items::from_slice(alloc, name.as_bytes())?,
        elements: names(alloc, elements)?,
    })
}

fn sets(alloc: Global) -> Result<Items<SetFace>, AllocError> {
    let mut all = Items::new(alloc);
    all.push(set_face(alloc, "S", "a b c")?)?;
    all.push(set_face(alloc, "T", "d e")?)?;
    Ok(all)
}

// A machine with two sets.
pub fn face(alloc: Global) -> Result<Face, AllocError> {
    Ok(Face {
        name: Items::new(alloc),
        sets: sets(alloc)?,
        constants: Items::new(alloc),
        variables: Items::new(alloc),
        ops: Items::new(alloc),
        prefs: Prefs::default(),
    })
}

fn kind_word(kind: FaultKind) -> &'static str {
    match kind {
        FaultKind::IllDefined => "ill-defined ",
        FaultKind::Overflow => "overflow ",
        FaultKind::TooLarge => "too-large ",
    }
}

const LOWER: &[u8] = b".abcdefghij";

const UPPER: &[u8] = b".ABCDEFGHIJ";

fn letter(f: EvalFault) -> u8 {
    let letters = match f.text {
        Text::Formula => LOWER,
        Text::Machine => UPPER,
    };
    match usize::try_from(f.at) {
        Ok(i) => *letters.get(i).unwrap_or(&b'?'),
        Err(_) => b'?',
    }
}

pub fn fault_text(alloc: Global, f: EvalFault) -> Result<Vec<u8>, AllocError> {
    let mut bytes = kind_word(f.kind).as_bytes().to_vec(alloc)?;
    bytes.push(letter(f))?;
    Ok(bytes)
}

fn stop_text(alloc: Global, s: EvalStop) -> Result<Vec<u8>, AllocError> {
    match s {
        EvalStop::Fault(f) => fault_text(alloc, f),
        EvalStop::Memory => b"memory".to_vec(alloc),
    }
}

pub fn value_text(
    alloc: Global,
    face: &Face,
    answer: Result<Value, EvalStop>,
) -> Result<Vec<u8>, AllocError> {
    match answer {
        Ok(v) => write_value(alloc, face, &v),
        Err(s) => stop_text(alloc, s),
    }
}

pub fn truth_text(alloc: Global, answer: Result<bool, EvalStop>) -> Result<Vec<u8>, AllocError> {
    match answer {
        Ok(true) => b"TRUE".to_vec(alloc),
        Ok(false) => b"FALSE".to_vec(alloc),
        Err(s) => stop_text(alloc, s),
    }
}

fn expr_text(alloc: Global, face: &Face, e: &ExprTree) -> Result<Vec<u8>, AllocError> {
    value_text(alloc, face, eval(alloc, e, &Scope::Slots(&[])))
}

fn pred_text(alloc: Global, p: &PredTree) -> Result<Vec<u8>, AllocError> {
    truth_text(alloc, holds(alloc, p, &Scope::Slots(&[])))
}

// What the formula of a notation is worth.
pub fn worth(alloc: Global, face: &Face, notation: &str) -> Result<Vec<u8>, AllocError> {
    match tree_of(alloc, notation)? {
        FormulaTree::Expr(e) => expr_text(alloc, face, &e),
        FormulaTree::Pred(p) => pred_text(alloc, &p),
    }
}

fn check_row(
    rt: &impl Abort,
    alloc: Global,
    face: &Face,
    notation: &str,
    want: &str,
) -> Result<(), Fail> {
    let got = worth(alloc, face, notation);
    match got {
        Ok(text) => assert_eq!(rt; text.as_slice(), want.as_bytes(), "{notation}"),
        Err(_) => assert!(rt; false, "no tree: {notation}"),
    }
    Ok(())
}

/// Each line of a table has a notation and what it is worth, with ` ? ` between them.
pub fn check(rt: &impl Abort, alloc: Global, table: &str) -> Result<(), Fail> {
    let face = face(alloc)?;
    for line in table.lines() {
        let (notation, want) = line.split_once(" ? ").ok_or("a line without a question")?;
        check_row(rt, alloc, &face, notation, want)?;
    }
    Ok(())
}
