// Expressions with operators before their operands, and tables of what they are worth.
ghost use Rattle.std.specs.Prelude.{IfOk};
ghost use Rattle.b_values.specs.Values.{IsKept};

use b_funsets::{
    bijections, iseq, partial, partial_inj, partial_surj, perm, pow, pow1, relations, seq, seq1,
    total, total_inj, total_surj,
};
use b_setops::{
    append, apply, big_inter, big_union, card, closure, closure1, compose, conc, concat, converse,
    difference, direct, dom, dom_restrict, dom_subtract, drop_first, first, front, identity, image,
    intersect, interval, iterate, last, max, min, overwrite, parallel, prepend, prj1, prj2, ran,
    ran_restrict, ran_subtract, rev, size, tail, take, times, union,
};
use b_values::{Face, FaultKind, Prefs, ReadFault, Ty, Value, read_value, same_value, write_value};
use set_making::OpFault;
use sqlite_items::{Boxed, Items};
use std::alloc::{AllocError, Global};
use std::process::Abort;
use std::str::SplitWhitespace;

/// Why an expression has no value.
#[derive(Clone, Copy, Debug, PartialEq, Eq)]
pub enum Stop {
    Fault(FaultKind),
    NoExpression,
    Memory,
}

impl From<OpFault> for Stop {
    fn from(fault: OpFault) -> Stop {
        match fault {
            OpFault::Fault(kind) => Stop::Fault(kind),
            OpFault::Memory => Stop::Memory,
        }
    }
}

impl From<ReadFault> for Stop {
    fn from(fault: ReadFault) -> Stop {
        match fault {
            ReadFault::NotAValue => Stop::NoExpression,
            ReadFault::Memory => Stop::Memory,
        }
    }
}

impl From<AllocError> for Stop {
    fn from(_fault: AllocError) -> Stop {
        Stop::Memory
    }
}

/// An operator on one operand.
#[derive(Clone, Copy, Debug)]
enum One {
    Min,
    Max,
    Card,
    BigUnion,
    BigInter,
    Dom,
    Ran,
    Converse,
    Identity,
    Closure1,
    Closure,
    Size,
    Rev,
    First,
    Last,
    Front,
    Tail,
    Conc,
    Pow,
    Pow1,
    Seq,
    Seq1,
    Iseq,
    Perm,
}

/// An operator on two operands.
#[derive(Clone, Copy, Debug)]
enum Two {
    Interval,
    Union,
    Intersect,
    Difference,
    Times,
    Image,
    DomRestrict,
    DomSubtract,
    RanRestrict,
    RanSubtract,
    Overwrite,
    Compose,
    Direct,
    Parallel,
    Prj1,
    Prj2,
    Iterate,
    Apply,
    Concat,
    Prepend,
    Append,
    Take,
    DropFirst,
    Relations,
    Partial,
    PartialInj,
    PartialSurj,
    Total,
    TotalInj,
    TotalSurj,
    Bijections,
}

fn one_named(word: &str) -> Option<One> {
    Some(match word {
        "min" => One::Min,
        "max" => One::Max,
        "card" => One::Card,
        "big_union" => One::BigUnion,
        "big_inter" => One::BigInter,
        "dom" => One::Dom,
        "ran" => One::Ran,
        "converse" => One::Converse,
        "identity" => One::Identity,
        "closure1" => One::Closure1,
        "closure" => One::Closure,
        "size" => One::Size,
        "rev" => One::Rev,
        "first" => One::First,
        "last" => One::Last,
        "front" => One::Front,
        "tail" => One::Tail,
        "conc" => One::Conc,
        "pow" => One::Pow,
        "pow1" => One::Pow1,
        "seq" => One::Seq,
        "seq1" => One::Seq1,
        "iseq" => One::Iseq,
        "perm" => One::Perm,
        _ => return None,
    })
}

fn two_named(word: &str) -> Option<Two> {
    Some(match word {
        "interval" => Two::Interval,
        "union" => Two::Union,
        "intersect" => Two::Intersect,
        "difference" => Two::Difference,
        "times" => Two::Times,
        "image" => Two::Image,
        "dom_restrict" => Two::DomRestrict,
        "dom_subtract" => Two::DomSubtract,
        "ran_restrict" => Two::RanRestrict,
        "ran_subtract" => Two::RanSubtract,
        "overwrite" => Two::Overwrite,
        "compose" => Two::Compose,
        "direct" => Two::Direct,
        "parallel" => Two::Parallel,
        "prj1" => Two::Prj1,
        "prj2" => Two::Prj2,
        "iterate" => Two::Iterate,
        "apply" => Two::Apply,
        "concat" => Two::Concat,
        "prepend" => Two::Prepend,
        "append" => Two::Append,
        "take" => Two::Take,
        "drop_first" => Two::DropFirst,
        "relations" => Two::Relations,
        "partial" => Two::Partial,
        "partial_inj" => Two::PartialInj,
        "partial_surj" => Two::PartialSurj,
        "total" => Two::Total,
        "total_inj" => Two::TotalInj,
        "total_surj" => Two::TotalSurj,
        "bijections" => Two::Bijections,
        _ => return None,
    })
}

fn apply_one(alloc: Global, op: One, a: &Value) -> Result<Value, OpFault>
    requires { IsKept a.now }
    ensures { IfOk result (λ v. IsKept v) }
{
    match op {
        One::Min => min(alloc, a),
        One::Max => max(alloc, a),
        One::Card => card(alloc, a),
        One::BigUnion => big_union(alloc, a),
        One::BigInter => big_inter(alloc, a),
        One::Dom => dom(alloc, a),
        One::Ran => ran(alloc, a),
        One::Converse => converse(alloc, a),
        One::Identity => identity(alloc, a),
        One::Closure1 => closure1(alloc, a),
        One::Closure => closure(alloc, a),
        One::Size => size(alloc, a),
        One::Rev => rev(alloc, a),
        One::First => first(alloc, a),
        One::Last => last(alloc, a),
        One::Front => front(alloc, a),
        One::Tail => tail(alloc, a),
        One::Conc => conc(alloc, a),
        One::Pow => pow(alloc, a),
        One::Pow1 => pow1(alloc, a),
        One::Seq => seq(alloc, a),
        One::Seq1 => seq1(alloc, a),
        One::Iseq => iseq(alloc, a),
        One::Perm => perm(alloc, a),
    }
}

fn apply_two(alloc: Global, op: Two, a: &Value, b: &Value) -> Result<Value, OpFault>
    requires left { IsKept a.now }
    requires right { IsKept b.now }
    ensures { IfOk result (λ v. IsKept v) }
{
    match op {
        Two::Interval => interval(alloc, a, b),
        Two::Union => union(alloc, a, b),
        Two::Intersect => intersect(alloc, a, b),
        Two::Difference => difference(alloc, a, b),
        Two::Times => times(alloc, a, b),
        Two::Image => image(alloc, a, b),
        Two::DomRestrict => dom_restrict(alloc, a, b),
        Two::DomSubtract => dom_subtract(alloc, a, b),
        Two::RanRestrict => ran_restrict(alloc, a, b),
        Two::RanSubtract => ran_subtract(alloc, a, b),
        Two::Overwrite => overwrite(alloc, a, b),
        Two::Compose => compose(alloc, a, b),
        Two::Direct => direct(alloc, a, b),
        Two::Parallel => parallel(alloc, a, b),
        Two::Prj1 => prj1(alloc, a, b),
        Two::Prj2 => prj2(alloc, a, b),
        Two::Iterate => iterate(alloc, a, b),
        Two::Apply => apply(alloc, a, b),
        Two::Concat => concat(alloc, a, b),
        Two::Prepend => prepend(alloc, a, b),
        Two::Append => append(alloc, a, b),
        Two::Take => take(alloc, a, b),
        Two::DropFirst => drop_first(alloc, a, b),
        Two::Relations => relations(alloc, a, b),
        Two::Partial => partial(alloc, a, b),
        Two::PartialInj => partial_inj(alloc, a, b),
        Two::PartialSurj => partial_surj(alloc, a, b),
        Two::Total => total(alloc, a, b),
        Two::TotalInj => total_inj(alloc, a, b),
        Two::TotalSurj => total_surj(alloc, a, b),
        Two::Bijections => bijections(alloc, a, b),
    }
}

/// A machine with no names at all.
fn empty_face(alloc: Global) -> Face {
    Face {
        name: Items::new(alloc),
        sets: Items::new(alloc),
        constants: Items::new(alloc),
        variables: Items::new(alloc),
        ops: Items::new(alloc),
        prefs: Prefs::default(),
    }
}

fn set_type(alloc: Global, member: Ty) -> Result<Ty, AllocError> {
    Ok(Ty::Set(Boxed::new(alloc, member)?))
}

/// Couples of an integer and what stands here.
fn numbered_type(alloc: Global, part: Ty) -> Result<Ty, AllocError> {
    let couple = Ty::Pair(Boxed::new(alloc, Ty::Int)?, Boxed::new(alloc, part)?);
    set_type(alloc, couple)
}

/// The type that a literal's letter names: numbers, truth values, sets of numbers, families of those, relations of numbers
/// and sequences of such relations.
fn type_of(alloc: Global, letter: &str) -> Result<Ty, Stop> {
    match letter {
        "n" => Ok(Ty::Int),
        "t" => Ok(Ty::Truth),
        "s" => Ok(set_type(alloc, Ty::Int)?),
        "f" => Ok(set_type(alloc, set_type(alloc, Ty::Int)?)?),
        "r" => Ok(numbered_type(alloc, Ty::Int)?),
        "q" => Ok(numbered_type(alloc, numbered_type(alloc, Ty::Int)?)?),
        _ => Err(Stop::NoExpression),
    }
}

/// The value of a literal, as `s:{1,2}`.
fn literal(alloc: Global, word: &str) -> Result<Value, Stop>
    ensures { IfOk result (λ v. IsKept v) }
{
    let Some((letter, text)) = word.split_once(':') else {
        return Err(Stop::NoExpression);
    };
    let ty = type_of(alloc, letter)?;
    let face = empty_face(alloc);
    Ok(read_value(alloc, &face, &ty, text.as_bytes())?)
}

/// The value of the expression that the words begin with, which are read to its end.
fn begun(alloc: Global, words: &mut SplitWhitespace<'_>, depth: u32) -> Result<Value, Stop>
    ensures { IfOk result (λ v. IsKept v) }
{
    if depth == 0 {
        return Err(Stop::NoExpression);
    }
    let Some(word) = words.next() else {
        return Err(Stop::NoExpression);
    };
    if let Some(op) = one_named(word) {
        let a = begun(alloc, words, depth - 1)?;
        return Ok(apply_one(alloc, op, &a)?);
    }
    if let Some(op) = two_named(word) {
        let a = begun(alloc, words, depth - 1)?;
        let b = begun(alloc, words, depth - 1)?;
        return Ok(apply_two(alloc, op, &a, &b)?);
    }
    literal(alloc, word)
}

/// The value of an expression: literals, and operators before their operands.
pub fn value(alloc: Global, text: &str) -> Result<Value, Stop> {
    let mut words = text.split_whitespace();
    let v = begun(alloc, &mut words, 20)?;
    if words.next().is_some() {
        return Err(Stop::NoExpression);
    }
    Ok(v)
}

fn stop_text(stop: Stop) -> &'static [u8] {
    match stop {
        Stop::Fault(FaultKind::IllDefined) => b"ill-defined",
        Stop::Fault(FaultKind::Overflow) => b"overflow",
        Stop::Fault(FaultKind::TooLarge) => b"too-large",
        Stop::NoExpression => b"no expression",
        Stop::Memory => b"memory",
    }
}

/// What an expression is worth: its value's text, or why it has none.
fn told(alloc: Global, text: &str) -> Result<Vec<u8>, AllocError> {
    match value(alloc, text) {
        Ok(v) => write_value(alloc, &empty_face(alloc), &v),
        Err(stop) => stop_text(stop).to_vec(alloc),
    }
}

fn check_row(rt: &impl Abort, alloc: Global, expression: &str, want: &str) {
    let got = told(alloc, expression).expect(rt, expression);
    assert_eq!(rt; got.as_slice(), want.as_bytes(), "{expression}");
}

fn check_law(rt: &impl Abort, alloc: Global, line: &str) {
    let (left, right) = line.split_once('=').expect(rt, line);
    let a = value(alloc, left).expect(rt, left);
    let b = value(alloc, right).expect(rt, right);
    assert!(rt; same_value(&a, &b) && a == b, "{line}");
}

/// Each line of a table has an expression, a semicolon and what it is worth, or two expressions of one value with an
/// equals sign between them.
pub fn check(rt: &impl Abort, alloc: Global, table: &str) {
    for line in table.lines() {
        match line.split_once(';') {
            Some((expression, want)) => check_row(rt, alloc, expression, want),
            None => check_law(rt, alloc, line),
        }
    }
}
