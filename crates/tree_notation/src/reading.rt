//! A machine that reads words one after another.
//!
//! One space stands between words. A word may end in a letter after a quote, which is its place: `a` is place 1 of a
//! formula, `A` of a machine. A digit at the end of a word for a list or a binder says how many operands or bound names it
//! takes: `{2`, `[3`, `#1`, `!2`, `{|1`, `%1`, `SIGMA1`. `s0` is a slot, `e0.1` an element, `S0.3` a set of the machine with
//! three elements, `"a` a text, `T` and `F` what is true and what isn't, `a ^^ b ^^ c **2` a power. A bound name is its
//! range: `only`, `in`, `num` (with `>`, `<`, `^` for the bounds), `sub`, `cut`.
use crate::operators;
use b_tree::{
    BinaryOperator, Binder, Clause, Collection, Collector, Comparison, Connective, ExprTree,
    Family, FormulaTree, Link, Membership, Place, Plan, Power, PredTree, SetOperator, Sides,
    UnaryOperator, Universal, Variable,
};
use b_values::Text;
use shared::Shared;
use sqlite_items::{Boxed, Items};
use std::alloc::{AllocError, Global};

/// What was read and isn't part of a tree yet, the last at the end of each list.
#[derive(Drop)]
pub struct Reader {
    pub alloc: Global,
    pub exprs: Vec<ExprTree>,
    pub preds: Vec<PredTree>,
    pub powers: Vec<Power>,
    pub variables: Vec<Variable>,
}

type Step = Result<(), AllocError>;

// A word that isn't read is told as want of memory: a row without a tree fails.
const UNREAD: AllocError = AllocError;

// ---- the lists

fn put(r: &mut Reader, e: ExprTree) -> Step {
    r.exprs.push(e)?;
    Ok(())
}

fn put_pred(r: &mut Reader, p: PredTree) -> Step {
    r.preds.push(p)?;
    Ok(())
}

/// The last expression.
pub fn take(r: &mut Reader) -> Result<ExprTree, AllocError> {
    match r.exprs.pop() {
        Some(e) => Ok(e),
        None => Err(UNREAD),
    }
}

/// The last predicate.
pub fn take_pred(r: &mut Reader) -> Result<PredTree, AllocError> {
    match r.preds.pop() {
        Some(p) => Ok(p),
        None => Err(UNREAD),
    }
}

fn take_box(r: &mut Reader) -> Result<Boxed<ExprTree>, AllocError> {
    let e = take(r)?;
    Boxed::new(r.alloc, e)
}

fn take_shared(r: &mut Reader) -> Result<Shared<ExprTree>, AllocError> {
    let e = take(r)?;
    Shared::new(r.alloc, e)
}

fn take_pred_box(r: &mut Reader) -> Result<Boxed<PredTree>, AllocError> {
    let p = take_pred(r)?;
    Boxed::new(r.alloc, p)
}

/// The last n, in their order.
pub fn last_of<T: Drop>(alloc: Global, from: &mut Vec<T>, n: u64) -> Result<Items<T>, AllocError> {
    let mut found = Vec::new(alloc);
    for _ in 0..n {
        match from.pop() {
            Some(x) => found.push(x)?,
            None => return Err(UNREAD),
        }
    }
    found.reverse();
    Ok(Items::from_vec(found))
}

// ---- leaves

fn constant(word: &str) -> Option<ExprTree> {
    match word {
        "TRUE" => Some(ExprTree::Truth(true)),
        "FALSE" => Some(ExprTree::Truth(false)),
        "MAX" => Some(ExprTree::Number(i128::MAX)),
        "MIN" => Some(ExprTree::Number(i128::MIN)),
        _ => None,
    }
}

fn number(word: &str) -> Option<ExprTree> {
    match word.parse::<i128>() {
        Ok(n) => Some(ExprTree::Number(n)),
        Err(_) => None,
    }
}

fn slot(word: &str) -> Option<ExprTree> {
    match word.strip_prefix("s")?.parse::<usize>() {
        Ok(i) => Some(ExprTree::Slot(i)),
        Err(_) => None,
    }
}

fn two_numbers(text: &str) -> Option<(u32, u32)> {
    let (a, b) = text.split_once(".")?;
    match (a.parse::<u32>(), b.parse::<u32>()) {
        (Ok(m), Ok(n)) => Some((m, n)),
        _ => None,
    }
}

fn element(word: &str) -> Option<ExprTree> {
    let (set, index) = two_numbers(word.strip_prefix("e")?)?;
    Some(ExprTree::Element(set, index))
}

fn given(word: &str, at: Place) -> Option<ExprTree> {
    let (set, size) = two_numbers(word.strip_prefix("S")?)?;
    Some(ExprTree::Given(at, set, size))
}

fn set_word(word: &str, at: Place) -> Option<ExprTree> {
    match operators::word(word) {
        Some(w) => Some(ExprTree::Word(at, w)),
        None => None,
    }
}

fn leaf(word: &str, at: Place) -> Option<ExprTree> {
    constant(word)
        .or(number(word))
        .or(slot(word))
        .or(element(word))
        .or(given(word, at))
        .or(set_word(word, at))
}

fn text(r: &mut Reader, letters: &str) -> Step {
    let bytes = Items::from_slice(r.alloc, letters.as_bytes())?;
    let shared = Shared::new(r.alloc, bytes)?;
    put(r, ExprTree::Text(shared))
}

// ---- expressions

fn put_unary(r: &mut Reader, op: UnaryOperator, at: Place) -> Step {
    let a = take_box(r)?;
    put(r, ExprTree::Unary(op, at, a))
}

fn chain_of(alloc: Global, head: ExprTree, link: Link) -> Result<ExprTree, AllocError> {
    let mut links = Items::new(alloc);
    links.push(link)?;
    Ok(ExprTree::Chain(Boxed::new(alloc, head)?, links))
}

// A chain on the left is made longer.
fn linked(alloc: Global, left: ExprTree, link: Link) -> Result<ExprTree, AllocError> {
    match left {
        ExprTree::Chain(head, mut links) => {
            links.push(link)?;
            Ok(ExprTree::Chain(head, links))
        }
        head => chain_of(alloc, head, link),
    }
}

fn put_link(r: &mut Reader, link: Link) -> Step {
    let left = take(r)?;
    let chain = linked(r.alloc, left, link)?;
    put(r, chain)
}

fn put_binary(r: &mut Reader, op: BinaryOperator, at: Place) -> Step {
    let right = take(r)?;
    put_link(r, Link::With(op, at, right))
}

fn put_family(r: &mut Reader, f: Family, at: Place) -> Step {
    let a = take_box(r)?;
    put(r, ExprTree::Over(f, at, a))
}

fn put_between(r: &mut Reader, op: SetOperator, at: Place) -> Step {
    let right = take_shared(r)?;
    let left = take_shared(r)?;
    let sides = Boxed::new(r.alloc, Sides { left, right })?;
    put(r, ExprTree::Between(op, at, sides))
}

fn put_base(r: &mut Reader, at: Place) -> Step {
    let base = take(r)?;
    r.powers.push(Power { base, at })?;
    Ok(())
}

fn put_powers(r: &mut Reader, n: u64) -> Step {
    let last = take_box(r)?;
    let powers = last_of(r.alloc, &mut r.powers, n)?;
    put(r, ExprTree::Powers(powers, last))
}

fn put_set(r: &mut Reader, n: u64, at: Place) -> Step {
    let es = last_of(r.alloc, &mut r.exprs, n)?;
    put(r, ExprTree::Set(at, es))
}

fn put_sequence(r: &mut Reader, n: u64, at: Place) -> Step {
    let es = last_of(r.alloc, &mut r.exprs, n)?;
    put(r, ExprTree::Sequence(at, es))
}

fn put_bool(r: &mut Reader) -> Step {
    let p = take_pred_box(r)?;
    put(r, ExprTree::Bool(p))
}

fn put_if(r: &mut Reader) -> Step {
    let p = take_pred_box(r)?;
    let b = take_box(r)?;
    let a = take_box(r)?;
    put(r, ExprTree::If(p, a, b))
}

// ---- binders

fn put_variable(r: &mut Reader, plan: Plan, at: Place) -> Step {
    let name = Items::from_slice(r.alloc, b"x")?;
    r.variables.push(Variable {
        name,
        at,
        bounded: false,
        plan,
    })?;
    Ok(())
}

fn put_numbers(r: &mut Reader, word: &str, at: Place) -> Result<bool, AllocError> {
    match operators::bounds(word) {
        None => Ok(false),
        Some(bounds) => {
            let upper = take_shared(r)?;
            let lower = take_shared(r)?;
            put_variable(r, Plan::Numbers(bounds, lower, upper), at)?;
            Ok(true)
        }
    }
}

fn plan_of(word: &str, e: Shared<ExprTree>) -> Plan {
    match word {
        "only" => Plan::Only(e),
        "in" => Plan::Members(e),
        "sub" => Plan::Subsets(e),
        _ => Plan::Cut(e),
    }
}

fn range(r: &mut Reader, word: &str, at: Place) -> Result<bool, AllocError> {
    match word {
        "only" | "in" | "sub" | "cut" => {
            let e = take_shared(r)?;
            put_variable(r, plan_of(word, e), at)?;
            Ok(true)
        }
        _ => put_numbers(r, word, at),
    }
}

/// The last predicate, over the last n bound names.
pub fn take_binder(r: &mut Reader, n: u64) -> Result<Binder, AllocError> {
    let predicate = take_pred(r)?;
    let variables = last_of(r.alloc, &mut r.variables, n)?;
    Ok(Binder {
        variables,
        predicate,
    })
}

fn put_comprehension(r: &mut Reader, n: u64, at: Place) -> Step {
    let binder = take_binder(r, n)?;
    let binder = Shared::new(r.alloc, binder)?;
    put(r, ExprTree::Comprehension(at, binder))
}

fn put_exists(r: &mut Reader, n: u64) -> Step {
    let binder = take_binder(r, n)?;
    let binder = Shared::new(r.alloc, binder)?;
    put_pred(r, PredTree::Exists(binder))
}

fn put_for_all(r: &mut Reader, n: u64) -> Step {
    let consequent = take_pred(r)?;
    let binder = take_binder(r, n)?;
    let universal = Shared::new(r.alloc, Universal { binder, consequent })?;
    put_pred(r, PredTree::ForAll(universal))
}

fn put_collected(r: &mut Reader, c: Collector, n: u64, at: Place) -> Step {
    let value = take(r)?;
    let binder = take_binder(r, n)?;
    let collection = Shared::new(r.alloc, Collection { binder, value })?;
    put(r, ExprTree::Collected(c, at, collection))
}

// ---- predicates

fn put_compare(r: &mut Reader, op: Comparison) -> Step {
    let b = take_shared(r)?;
    let a = take_shared(r)?;
    put_pred(r, PredTree::Compare(op, a, b))
}

fn put_member(r: &mut Reader, op: Membership) -> Step {
    let b = take_shared(r)?;
    let a = take_shared(r)?;
    put_pred(r, PredTree::Member(op, a, b))
}

fn put_not(r: &mut Reader) -> Step {
    let p = take_pred_box(r)?;
    put_pred(r, PredTree::Not(p))
}

fn clauses_of(alloc: Global, head: PredTree, clause: Clause) -> Result<PredTree, AllocError> {
    let mut clauses = Items::new(alloc);
    clauses.push(clause)?;
    Ok(PredTree::Chain(Boxed::new(alloc, head)?, clauses))
}

fn joined(alloc: Global, left: PredTree, clause: Clause) -> Result<PredTree, AllocError> {
    match left {
        PredTree::Chain(head, mut clauses) => {
            clauses.push(clause)?;
            Ok(PredTree::Chain(head, clauses))
        }
        head => clauses_of(alloc, head, clause),
    }
}

fn put_connective(r: &mut Reader, connective: Connective) -> Step {
    let predicate = take_pred(r)?;
    let left = take_pred(r)?;
    let chain = joined(
        r.alloc,
        left,
        Clause {
            connective,
            predicate,
        },
    )?;
    put_pred(r, chain)
}

fn untrue(alloc: Global) -> Result<PredTree, AllocError> {
    Ok(PredTree::Not(Boxed::new(alloc, PredTree::True)?))
}

// ---- words

fn operator(r: &mut Reader, word: &str, at: Place) -> Result<bool, AllocError> {
    if let Some(op) = operators::unary(word) {
        put_unary(r, op, at)?;
        return Ok(true);
    }
    if let Some(op) = operators::binary(word) {
        put_binary(r, op, at)?;
        return Ok(true);
    }
    set_operator(r, word, at)
}

fn set_operator(r: &mut Reader, word: &str, at: Place) -> Result<bool, AllocError> {
    if let Some(f) = operators::family(word) {
        put_family(r, f, at)?;
        return Ok(true);
    }
    if let Some(op) = operators::set_operator(word) {
        put_between(r, op, at)?;
        return Ok(true);
    }
    predicate(r, word)
}

fn predicate(r: &mut Reader, word: &str) -> Result<bool, AllocError> {
    if let Some(op) = operators::comparison(word) {
        put_compare(r, op)?;
        return Ok(true);
    }
    if let Some(op) = operators::membership(word) {
        put_member(r, op)?;
        return Ok(true);
    }
    if let Some(op) = operators::connective(word) {
        put_connective(r, op)?;
        return Ok(true);
    }
    Ok(false)
}

fn other(r: &mut Reader, word: &str, at: Place) -> Result<bool, AllocError> {
    let done = match word {
        "~" => put_link(r, Link::After(UnaryOperator::Converse, at)),
        "^^" => put_base(r, at),
        "bool" => put_bool(r),
        "if" => put_if(r),
        "not" => put_not(r),
        "T" => put_pred(r, PredTree::True),
        "F" => put_untrue(r),
        _ => return Ok(false),
    };
    match done {
        Ok(()) => Ok(true),
        Err(e) => Err(e),
    }
}

fn put_untrue(r: &mut Reader) -> Step {
    let p = untrue(r.alloc)?;
    put_pred(r, p)
}

fn counted(r: &mut Reader, word: &str, n: u64, at: Place) -> Step {
    match word {
        "{" => put_set(r, n, at),
        "[" => put_sequence(r, n, at),
        "**" => put_powers(r, n),
        "{|" => put_comprehension(r, n, at),
        "#" => put_exists(r, n),
        "!" => put_for_all(r, n),
        _ => match operators::collector(word) {
            Some(c) => put_collected(r, c, n, at),
            None => Err(UNREAD),
        },
    }
}

const DIGITS: &str = "0 1 2 3 4 5 6 7 8 9";

// A word and the digit at its end.
pub(crate) fn count_of(word: &str) -> Option<(&str, u64)> {
    for digit in DIGITS.split_whitespace() {
        if let Some(front) = word.strip_suffix(digit) {
            if let Ok(n) = digit.parse::<u64>() {
                return Some((front, n));
            }
        }
    }
    None
}

fn read_counted(r: &mut Reader, word: &str, at: Place) -> Step {
    match count_of(word) {
        Some((front, n)) => counted(r, front, n, at),
        None => Err(UNREAD),
    }
}

fn read_word(r: &mut Reader, word: &str, at: Place) -> Step {
    if let Some(letters) = word.strip_prefix("\"") {
        return text(r, letters);
    }
    if let Some(e) = leaf(word, at) {
        return put(r, e);
    }
    if operator(r, word, at)? || other(r, word, at)? || range(r, word, at)? {
        return Ok(());
    }
    read_counted(r, word, at)
}

// The place of a letter.
pub(crate) fn place_of(letter: &str) -> Place {
    match letter.as_bytes() {
        [b @ b'a'..=b'z'] => Place {
            text: Text::Formula,
            at: u64::from(*b - b'a') + 1,
        },
        [b @ b'A'..=b'Z'] => Place {
            text: Text::Machine,
            at: u64::from(*b - b'A') + 1,
        },
        _ => NO_PLACE,
    }
}

pub(crate) const NO_PLACE: Place = Place {
    text: Text::Formula,
    at: 0,
};

/// Reads a word.
pub fn read_token(r: &mut Reader, token: &str) -> Step {
    match token.split_once("'") {
        Some((word, letter)) => read_word(r, word, place_of(letter)),
        None => read_word(r, token, NO_PLACE),
    }
}

/// Nothing read yet.
pub fn nothing_read(alloc: Global) -> Reader {
    Reader {
        alloc,
        exprs: Vec::new(alloc),
        preds: Vec::new(alloc),
        powers: Vec::new(alloc),
        variables: Vec::new(alloc),
    }
}

fn read_all(alloc: Global, notation: &str) -> Result<Reader, AllocError> {
    let mut r = nothing_read(alloc);
    for token in notation.split_whitespace() {
        read_token(&mut r, token)?;
    }
    Ok(r)
}

// What is left at the end must be one tree.
fn only_one(r: &Reader) -> bool {
    r.exprs.len() + r.preds.len() == 1 && r.powers.is_empty() && r.variables.is_empty()
}

/// The tree of a notation.
pub fn tree_of(alloc: Global, notation: &str) -> Result<FormulaTree, AllocError> {
    let mut r = read_all(alloc, notation)?;
    if !only_one(&r) {
        return Err(UNREAD);
    }
    match r.exprs.pop() {
        Some(e) => Ok(FormulaTree::Expr(e)),
        None => Ok(FormulaTree::Pred(take_pred(&mut r)?)),
    }
}

/// The expression of a notation.
pub fn expr_of(alloc: Global, notation: &str) -> Result<ExprTree, AllocError> {
    match tree_of(alloc, notation)? {
        FormulaTree::Expr(e) => Ok(e),
        FormulaTree::Pred(_) => Err(UNREAD),
    }
}

/// The binder of a `#`.
pub fn binder_of(alloc: Global, notation: &str) -> Result<Shared<Binder>, AllocError> {
    match tree_of(alloc, notation)? {
        FormulaTree::Pred(PredTree::Exists(b)) => Ok(b),
        _ => Err(UNREAD),
    }
}
