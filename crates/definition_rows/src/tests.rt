// Texts with definitions, and the canonical texts of what they stand for.
ghost use Rattle.b_summaries.specs.Made.{IsMade};

use crate::rows::{
    ANY_ORDER, ARRANGED, DEPTHS, GROWING, IN_ORDER, MEASURED, REFUSED, ROWS, WRONG_USES,
};
use crate::tables::{growing, reversed, table, tree};
use b_ast::machine::DefTable;
use b_ast::{FormulaText, Operator, Place};
use b_definitions::{Disorder, arranged};
use b_expand::places::refused_at;
use b_expand::{
    ParseFault, ParseKind, Unexpanded, Unfit, brackets, deeper_place, expanded_operator, is_comma,
};
use b_lex::lex;
use b_names::index_of;
use b_parse_expr::{parse_formula, parse_formula_in_order, parse_formula_under};
use b_print::texts::{print_expr, print_pred};
use b_summaries::{
    BRACKET_LIMIT, Definitions, Facts, NODE_LIMIT, definitions_of, expand, measured,
};
use std::alloc::{AllocError, Global};
use std::test::Fail;

fn kind_name(kind: ParseKind) -> &'static str {
    match kind {
        ParseKind::NotASentence => "none",
        ParseKind::TooDeep => "deep",
        ParseKind::TooWide => "wide",
        ParseKind::RecursiveDefinition => "circle",
        _ => "another",
    }
}

// The canonical text of a formula, or why there is none.
fn written(alloc: Global, answer: Result<FormulaText, ParseFault>) -> Result<Vec<u8>, Fail> {
    match answer {
        Ok(FormulaText::Expr(e)) => Ok(print_expr(alloc, &e)?),
        Ok(FormulaText::Pred(p)) => Ok(print_pred(alloc, &p)?),
        Err(ParseFault::Refused { kind, at: _ }) => Ok(kind_name(kind).as_bytes().to_vec(alloc)?),
        Err(ParseFault::Memory) => Err(Fail::from("no memory")),
    }
}

// Whether a text has that answer under these definitions.
fn holds(alloc: Global, defs: DefTable, text: &[u8], wanted: &str) -> Result<bool, Fail> {
    let tokens = lex(alloc, text)?;
    let answer = parse_formula(alloc, text, &tokens, defs);
    let said = written(alloc, answer)?;
    Ok(said.as_slice() == wanted.as_bytes())
}

// The three parts of a line.
fn parts(line: &str) -> Option<(&str, &str, &str)> {
    let (defs, rest) = line.split_once('@')?;
    let (text, wanted) = rest.split_once('@')?;
    Some((defs, text, wanted))
}

fn row_holds(alloc: Global, line: &str) -> Result<bool, Fail> {
    match parts(line) {
        Some((defs, text, wanted)) => {
            let defs = table(alloc, defs)?;
            holds(alloc, defs, text.as_bytes(), wanted)
        }
        None => Ok(false),
    }
}

// Whether each line has the answer that stands at its end.
fn all_hold(alloc: Global, rows: &str) -> Result<(), Fail> {
    for line in rows.lines() {
        if !row_holds(alloc, line)? {
            return Err(Fail::from(line));
        }
    }
    Ok(())
}

#[test]
fn any_order(rt: HostRuntime) -> Result<(), Fail> {
    all_hold(rt.alloc(), ANY_ORDER)
}

#[test]
fn rows(rt: HostRuntime) -> Result<(), Fail> {
    all_hold(rt.alloc(), ROWS)
}

// ---- wrong uses

// How a wrong use stands in a text: in a table in the order of use or from behind, or in an argument that vanishes.
#[derive(Clone, Copy)]
enum Way {
    Direct,
    Behind,
    Vanishing,
}

fn wrong_behind(alloc: Global, defs: &str, text: &str) -> Result<bool, Fail> {
    let defs = table(alloc, defs)?;
    let defs = reversed(alloc, defs)?;
    holds(alloc, defs, text.as_bytes(), "none")
}

fn wrong_direct(alloc: Global, defs: &str, text: &str) -> Result<bool, Fail> {
    let defs = table(alloc, defs)?;
    holds(alloc, defs, text.as_bytes(), "none")
}

fn wrong_in_vain(alloc: Global, defs: &str, text: &str) -> Result<bool, Fail> {
    let defs = format!(in alloc; "{defs};;z:y:1")?;
    let text = format!(in alloc; "z({text})")?;
    wrong_direct(alloc, defs.as_str(), text.as_str())
}

fn wrong_by(alloc: Global, way: Way, line: &str) -> Result<bool, Fail> {
    match line.split_once('@') {
        Some((defs, text)) => match way {
            Way::Direct => wrong_direct(alloc, defs, text),
            Way::Behind => wrong_behind(alloc, defs, text),
            Way::Vanishing => wrong_in_vain(alloc, defs, text),
        },
        None => Ok(false),
    }
}

fn all_wrong(alloc: Global, way: Way) -> Result<(), Fail> {
    for line in WRONG_USES.lines() {
        if !wrong_by(alloc, way, line)? {
            return Err(Fail::from(line));
        }
    }
    Ok(())
}

#[test]
fn wrong_uses(rt: HostRuntime) -> Result<(), Fail> {
    all_wrong(rt.alloc(), Way::Direct)
}

#[test]
fn wrong_uses_from_behind(rt: HostRuntime) -> Result<(), Fail> {
    all_wrong(rt.alloc(), Way::Behind)
}

#[test]
fn wrong_uses_in_arguments(rt: HostRuntime) -> Result<(), Fail> {
    all_wrong(rt.alloc(), Way::Vanishing)
}

// ---- depth and growth

fn number(text: &str) -> usize {
    match text.parse::<usize>() {
        Ok(number) => number,
        Err(_) => 0,
    }
}

// A text in so many round brackets.
fn in_brackets(alloc: Global, text: &str, count: usize) -> Result<Vec<u8>, AllocError> {
    let mut all = Vec::new(alloc);
    for _ in 0..count {
        all.push(b'(')?;
    }
    all.extend_from_slice(text.as_bytes())?;
    for _ in 0..count {
        all.push(b')')?;
    }
    Ok(all)
}

fn nested_holds(
    alloc: Global,
    defs: &str,
    text: &str,
    count: usize,
    wanted: &str,
) -> Result<bool, Fail> {
    let text = in_brackets(alloc, text, count)?;
    let defs = table(alloc, defs)?;
    holds(alloc, defs, &text, wanted)
}

fn depth_holds(alloc: Global, line: &str) -> Result<bool, Fail> {
    match parts(line) {
        Some((defs, text, rest)) => match rest.split_once('@') {
            Some((count, wanted)) => nested_holds(alloc, defs, text, number(count), wanted),
            None => Ok(false),
        },
        None => Ok(false),
    }
}

#[test]
fn depths(rt: HostRuntime) -> Result<(), Fail> {
    for line in DEPTHS.lines() {
        if !depth_holds(rt.alloc(), line)? {
            return Err(Fail::from(line));
        }
    }
    Ok(())
}

// The table of a line of growing definitions, from behind if that is wanted.
fn grown(
    alloc: Global,
    first: &str,
    pattern: &str,
    count: usize,
    behind: bool,
) -> Result<DefTable, Fail> {
    let defs = growing(alloc, first, pattern, count)?;
    if behind {
        let defs = reversed(alloc, defs)?;
        return Ok(defs);
    }
    Ok(defs)
}

fn growth_holds(alloc: Global, line: &str, behind: bool) -> Result<bool, Fail> {
    let Some((first, pattern, rest)) = parts(line) else {
        return Ok(false);
    };
    let Some((count, text, wanted)) = parts(rest) else {
        return Ok(false);
    };
    let defs = grown(alloc, first, pattern, number(count), behind)?;
    holds(alloc, defs, text.as_bytes(), wanted)
}

fn all_grow(alloc: Global, behind: bool) -> Result<(), Fail> {
    for line in GROWING.lines() {
        if !growth_holds(alloc, line, behind)? {
            return Err(Fail::from(line));
        }
    }
    Ok(())
}

#[test]
fn growth(rt: HostRuntime) -> Result<(), Fail> {
    all_grow(rt.alloc(), false)
}

#[test]
fn growth_from_behind(rt: HostRuntime) -> Result<(), Fail> {
    all_grow(rt.alloc(), true)
}

// ---- the parts of a verdict

// What is known of an expanded tree.
fn facts_text(alloc: Global, facts: Option<Facts>) -> Result<String, AllocError> {
    match facts {
        Some(facts) => {
            let Facts { sort, size } = facts;
            format!(in alloc; "{sort:?} {} {:?}", size.nodes, size.depth)
        }
        None => String::from_str(alloc, "nothing"),
    }
}

fn facts_of(alloc: Global, defs: &str, text: &str) -> Result<String, Fail> {
    let defs = table(alloc, defs)?;
    let formula = tree(alloc, text)?;
    let made = definitions_of(alloc, &defs)?;
    let facts = measured(alloc, &made, &formula)?;
    Ok(facts_text(alloc, facts)?)
}

// The place at which a text is refused, twice: by the call that finds it, and by expansion.
fn refusal_text(alloc: Global, answer: Result<FormulaText, Unexpanded>) -> Result<String, Fail> {
    match answer {
        Ok(_) => Ok(String::from_str(alloc, "fits")?),
        Err(Unexpanded::Refused(Unfit::NotASentence, at)) => Ok(format!(in alloc; "{at}")?),
        Err(_) => Err(Fail::from("another refusal")),
    }
}

fn refusal_of(alloc: Global, defs: &str, text: &str) -> Result<String, Fail> {
    let defs = table(alloc, defs)?;
    let formula = tree(alloc, text)?;
    let made = definitions_of(alloc, &defs)?;
    let answer = expand(alloc, &made, formula);
    refusal_text(alloc, answer)
}

fn said_in_order(alloc: Global, defs: &str, text: &str) -> Result<String, Fail> {
    let defs = table(alloc, defs)?;
    let tokens = lex(alloc, text.as_bytes())?;
    let answer = parse_formula_in_order(alloc, text.as_bytes(), &tokens, &defs);
    let said = written(alloc, answer)?;
    match String::from_utf8(said) {
        Ok(said) => Ok(said),
        Err(_) => Err(Fail::from("no text")),
    }
}

// What is asked of a line.
#[derive(Clone, Copy)]
enum Asked {
    Facts,
    Refusal,
    InOrder,
}

fn said_of(alloc: Global, asked: Asked, defs: &str, text: &str) -> Result<String, Fail> {
    match asked {
        Asked::Facts => facts_of(alloc, defs, text),
        Asked::Refusal => refusal_of(alloc, defs, text),
        Asked::InOrder => said_in_order(alloc, defs, text),
    }
}

fn part_holds(alloc: Global, asked: Asked, line: &str) -> Result<bool, Fail> {
    match parts(line) {
        Some((defs, text, wanted)) => {
            let said = said_of(alloc, asked, defs, text)?;
            Ok(said.as_str() == wanted)
        }
        None => Ok(false),
    }
}

fn all_parts(alloc: Global, asked: Asked, rows: &str) -> Result<(), Fail> {
    for line in rows.lines() {
        if !part_holds(alloc, asked, line)? {
            return Err(Fail::from(line));
        }
    }
    Ok(())
}

#[test]
fn measures(rt: HostRuntime) -> Result<(), Fail> {
    assert_eq!(rt; BRACKET_LIMIT, 100);
    assert_eq!(rt; NODE_LIMIT, 1_000_000);
    all_parts(rt.alloc(), Asked::Facts, MEASURED)
}

#[test]
fn refusals(rt: HostRuntime) -> Result<(), Fail> {
    all_parts(rt.alloc(), Asked::Refusal, REFUSED)
}

#[test]
fn in_order(rt: HostRuntime) -> Result<(), Fail> {
    all_parts(rt.alloc(), Asked::InOrder, IN_ORDER)
}

fn refusal_place(alloc: Global, text: &str) -> Result<u64, Fail> {
    let defs = table(alloc, "k:x:1")?;
    let formula = tree(alloc, text)?;
    let index = index_of(alloc, defs.defs.as_slice())?;
    Ok(refused_at(&formula, &index))
}

// A use with too many arguments stands at its byte; a formula without uses at its own.
#[test]
fn places_of_refusals(rt: HostRuntime) -> Result<(), Fail> {
    assert_eq!(rt; refusal_place(rt.alloc(), "1 + k(1, 2)")?, 4);
    assert_eq!(rt; refusal_place(rt.alloc(), " x + 1")?, 1);
    Ok(())
}

fn said_under(alloc: Global, made: &Definitions<'_>, text: &str) -> Result<Vec<u8>, Fail>
    requires { IsMade made.now }
{
    let tokens = lex(alloc, text.as_bytes())?;
    let answer = parse_formula_under(alloc, text.as_bytes(), &tokens, made);
    written(alloc, answer)
}

// Two texts under definitions that are made once.
#[test]
fn made_once(rt: HostRuntime) -> Result<(), Fail> {
    let defs = table(rt.alloc(), "d::1 + 2;;k:x:1")?;
    let made = definitions_of(rt.alloc(), &defs)?;
    let first = said_under(rt.alloc(), &made, "d * k(d)")?;
    assert!(rt; first.as_slice() == b"(1 + 2) * 1".as_slice());
    let second = said_under(rt.alloc(), &made, "k + 1")?;
    assert!(rt; second.as_slice() == b"none".as_slice());
    Ok(())
}

// ---- the order of use

fn names_of(alloc: Global, table: &DefTable) -> Result<Vec<u8>, AllocError> {
    let mut names = Vec::new(alloc);
    for def in table.defs.as_slice() {
        names.extend_from_slice(def.name.as_slice())?;
    }
    Ok(names)
}

// The names of an arranged table, or the place of a definition in a circle.
fn arranged_text(alloc: Global, answer: Result<DefTable, Disorder>) -> Result<Vec<u8>, Fail> {
    match answer {
        Ok(table) => Ok(names_of(alloc, &table)?),
        Err(Disorder::Circle(at)) => Ok(format!(in alloc; "{at}")?.into_bytes()),
        Err(Disorder::Memory) => Err(Fail::from("no memory")),
    }
}

fn arranges(alloc: Global, line: &str) -> Result<bool, Fail> {
    match line.split_once('@') {
        Some((defs, wanted)) => {
            let defs = table(alloc, defs)?;
            let said = arranged_text(alloc, arranged(alloc, defs))?;
            Ok(said.as_slice() == wanted.as_bytes())
        }
        None => Ok(false),
    }
}

#[test]
fn arranged_names(rt: HostRuntime) -> Result<(), Fail> {
    for line in ARRANGED.lines() {
        if !arranges(rt.alloc(), line)? {
            return Err(Fail::from(line));
        }
    }
    Ok(())
}

// What a body of three definitions may use.
const BODIES: &str = "1 a b c a+b a+c b+c a+b+c";

// Whether three bodies of a, b and c use one another in a circle.
fn have_circle(x: &str, y: &str, z: &str) -> bool {
    let alone = x.contains('a') || (y.contains('b') || z.contains('c'));
    let two = (x.contains('b') && y.contains('a'))
        || ((x.contains('c') && z.contains('a')) || (y.contains('c') && z.contains('b')));
    let three = (x.contains('b') && (y.contains('c') && z.contains('a')))
        || (x.contains('c') && (z.contains('b') && y.contains('a')));
    alone || (two || three)
}

fn three_hold(alloc: Global, x: &str, y: &str, z: &str) -> Result<bool, Fail> {
    let defs = format!(in alloc; "a::{x};;b::{y};;c::{z}")?;
    let defs = table(alloc, defs.as_str())?;
    let wanted = if have_circle(x, y, z) { "circle" } else { "1" };
    holds(alloc, defs, b"1", wanted)
}

fn each_third(alloc: Global, x: &str, y: &str) -> Result<(), Fail> {
    for z in BODIES.split(' ') {
        if !three_hold(alloc, x, y, z)? {
            return Err(Fail::from(z));
        }
    }
    Ok(())
}

fn each_second(alloc: Global, x: &str) -> Result<(), Fail> {
    for y in BODIES.split(' ') {
        each_third(alloc, x, y)?;
    }
    Ok(())
}

// Each of the 512 tables of three definitions has an order of use or a circle, and exactly where it should.
#[test]
fn every_small_table(rt: HostRuntime) -> Result<(), Fail> {
    for x in BODIES.split(' ') {
        each_second(rt.alloc(), x)?;
    }
    Ok(())
}

// ---- brackets and commas

fn place(depth: u64) -> Place {
    Place {
        machine: true,
        at: 7,
        depth,
    }
}

// Brackets are counted up to 101, and commas become maplets.
#[test]
fn brackets_and_commas(rt: HostRuntime) -> Result<(), Fail> {
    assert_eq!(rt; brackets(2, 3), 5);
    assert_eq!(rt; brackets(100, 5), 101);
    assert!(rt; deeper_place(2, place(3)) == place(5));
    assert!(rt; expanded_operator(Operator::Comma) == Operator::Maplet);
    assert!(rt; expanded_operator(Operator::Plus) == Operator::Plus);
    assert!(rt; is_comma(Operator::Comma) && !is_comma(Operator::Maplet));
    Ok(())
}
