//! Substitutions from the same notation, by the same machine with a few lists more.
//!
//! What a form has stands before its word. `E w0` is a value for the slot 0, and `:=2` an assignment of the last two such
//! values; `E F put0` is `f(E) := F` with f in the slot 0; `E ::0` takes a member for the slot 0; ranges, P and `such0,1` are
//! `x,y : (P)` for the slots 0 and 1. P, S and `pre` are a PRE or an ASSERT; P, S and `when` a branch. `IF2` is two branches
//! and then what is done else, `SELECT2` two branches, `SELECT+2` two and what is done else; `CHOICE2` two substitutions.
//! Two labels, S and `of2` are a branch of a CASE; E, two such branches, what is done else and `CASE2` a CASE. Ranges, P, S
//! and `ANY1`; E, S and `LET1`. S, T and `with0,1` are `S || T` where T may write the slots 0 and 1, `with` where it writes
//! none; `then0,1` and `then` are `S ; T` in the same way. A row of `||` and `;` on the left is made longer.
use crate::reading::{
    NO_PLACE, Reader, count_of, last_of, nothing_read, place_of, read_token, take, take_binder,
    take_pred,
};
use b_tree::{Assignment, Branch, CaseBranch, Guarded, Joint, Place, Selection, Step, SubstTree};
use sqlite_items::{Boxed, Items};
use std::alloc::{AllocError, Global};

// What was read and isn't part of a substitution yet, the last at the end of each list.
#[derive(Drop)]
struct SubstReader {
    reader: Reader,
    substs: Vec<SubstTree>,
    assignments: Vec<Assignment>,
    branches: Vec<Branch>,
    cases: Vec<CaseBranch>,
}

type Done = Result<(), AllocError>;

// A word that isn't read is told as want of memory: a row without a tree fails.
const UNREAD: AllocError = AllocError;

// ---- the lists

fn put(r: &mut SubstReader, s: SubstTree) -> Done {
    r.substs.push(s)?;
    Ok(())
}

fn take_subst(r: &mut SubstReader) -> Result<SubstTree, AllocError> {
    match r.substs.pop() {
        Some(s) => Ok(s),
        None => Err(UNREAD),
    }
}

fn take_boxed(r: &mut SubstReader) -> Result<Boxed<SubstTree>, AllocError> {
    let s = take_subst(r)?;
    Boxed::new(r.reader.alloc, s)
}

// ---- single forms

fn put_assigned(r: &mut SubstReader, target: usize) -> Done {
    let value = take(&mut r.reader)?;
    r.assignments.push(Assignment { target, value })?;
    Ok(())
}

fn put_assignments(r: &mut SubstReader, n: u64) -> Done {
    let parts = last_of(r.reader.alloc, &mut r.assignments, n)?;
    put(r, SubstTree::Assign(parts))
}

fn put_update(r: &mut SubstReader, target: usize, at: Place) -> Done {
    let value = take(&mut r.reader)?;
    let argument = take(&mut r.reader)?;
    put(r, SubstTree::Update(at, target, argument, value))
}

fn put_member(r: &mut SubstReader, target: usize) -> Done {
    let e = take(&mut r.reader)?;
    put(r, SubstTree::From(target, e))
}

fn put_such(r: &mut SubstReader, slots: &str) -> Done {
    let targets = targets_of(r.reader.alloc, slots)?;
    let binder = take_binder(&mut r.reader, targets.len() as u64)?;
    put(r, SubstTree::Such(targets, binder))
}

// ---- forms with substitutions in them

fn put_guarded(r: &mut SubstReader) -> Done {
    let guard = take_pred(&mut r.reader)?;
    let body = take_subst(r)?;
    let guarded = Boxed::new(r.reader.alloc, Guarded { guard, body })?;
    put(r, SubstTree::Guarded(guarded))
}

fn put_branch(r: &mut SubstReader) -> Done {
    let guard = take_pred(&mut r.reader)?;
    let body = take_subst(r)?;
    r.branches.push(Branch { guard, body })?;
    Ok(())
}

fn put_if(r: &mut SubstReader, n: u64) -> Done {
    let branches = last_of(r.reader.alloc, &mut r.branches, n)?;
    let other = take_boxed(r)?;
    put(r, SubstTree::If(branches, other))
}

fn put_select(r: &mut SubstReader, n: u64) -> Done {
    let branches = last_of(r.reader.alloc, &mut r.branches, n)?;
    put(r, SubstTree::Select(branches, None))
}

fn put_select_else(r: &mut SubstReader, n: u64) -> Done {
    let branches = last_of(r.reader.alloc, &mut r.branches, n)?;
    let other = take_boxed(r)?;
    put(r, SubstTree::Select(branches, Some(other)))
}

fn put_choice(r: &mut SubstReader, n: u64) -> Done {
    let ss = last_of(r.reader.alloc, &mut r.substs, n)?;
    put(r, SubstTree::Choice(ss))
}

fn put_labels(r: &mut SubstReader, n: u64) -> Done {
    let labels = last_of(r.reader.alloc, &mut r.reader.exprs, n)?;
    let body = take_subst(r)?;
    r.cases.push(CaseBranch { labels, body })?;
    Ok(())
}

fn put_case(r: &mut SubstReader, n: u64) -> Done {
    let branches = last_of(r.reader.alloc, &mut r.cases, n)?;
    let other = take_boxed(r)?;
    let e = take(&mut r.reader)?;
    put(r, SubstTree::Case(e, branches, other))
}

fn put_any(r: &mut SubstReader, n: u64) -> Done {
    let binder = take_binder(&mut r.reader, n)?;
    let body = take_subst(r)?;
    let selection = Boxed::new(r.reader.alloc, Selection { binder, body })?;
    put(r, SubstTree::Any(selection))
}

fn put_let(r: &mut SubstReader, n: u64) -> Done {
    let values = last_of(r.reader.alloc, &mut r.reader.exprs, n)?;
    let body = take_boxed(r)?;
    put(r, SubstTree::Let(values, body))
}

// ---- rows of `||` and `;`

// `0,1`
fn targets_of(alloc: Global, slots: &str) -> Result<Items<usize>, AllocError> {
    let mut targets = Items::new(alloc);
    if slots.is_empty() {
        return Ok(targets);
    }
    for part in slots.split(',') {
        match part.parse::<usize>() {
            Ok(i) => targets.push(i)?,
            Err(_) => return Err(UNREAD),
        }
    }
    Ok(targets)
}

// The last substitution as the right side.
fn take_step(r: &mut SubstReader, joint: Joint, slots: &str) -> Result<Items<Step>, AllocError> {
    let targets = targets_of(r.reader.alloc, slots)?;
    let body = take_subst(r)?;
    let mut steps = Items::new(r.reader.alloc);
    steps.push(Step {
        joint,
        targets,
        body,
    })?;
    Ok(steps)
}

// A row on the left is made longer.
fn followed(alloc: Global, left: SubstTree, more: Items<Step>) -> Result<SubstTree, AllocError> {
    match left {
        SubstTree::Chain(head, mut steps) => {
            steps.append(more)?;
            Ok(SubstTree::Chain(head, steps))
        }
        head => {
            let head = Boxed::new(alloc, head)?;
            Ok(SubstTree::Chain(head, more))
        }
    }
}

fn put_step(r: &mut SubstReader, joint: Joint, slots: &str) -> Done {
    let more = take_step(r, joint, slots)?;
    let left = take_subst(r)?;
    let row = followed(r.reader.alloc, left, more)?;
    put(r, row)
}

// ---- words

fn plain(r: &mut SubstReader, word: &str) -> Option<Done> {
    match word {
        "skip" => Some(put(r, SubstTree::Skip)),
        "pre" => Some(put_guarded(r)),
        "when" => Some(put_branch(r)),
        _ => None,
    }
}

// A slot behind a word.
fn slot_behind(word: &str, front: &str) -> Option<usize> {
    match word.strip_prefix(front)?.parse::<usize>() {
        Ok(i) => Some(i),
        Err(_) => None,
    }
}

fn with_slot(r: &mut SubstReader, word: &str, at: Place) -> Option<Done> {
    if let Some(i) = slot_behind(word, "w") {
        return Some(put_assigned(r, i));
    }
    if let Some(i) = slot_behind(word, "put") {
        return Some(put_update(r, i, at));
    }
    if let Some(i) = slot_behind(word, "::") {
        return Some(put_member(r, i));
    }
    None
}

fn with_slots(r: &mut SubstReader, word: &str) -> Option<Done> {
    if let Some(slots) = word.strip_prefix("such") {
        return Some(put_such(r, slots));
    }
    if let Some(slots) = word.strip_prefix("with") {
        return Some(put_step(r, Joint::Parallel, slots));
    }
    if let Some(slots) = word.strip_prefix("then") {
        return Some(put_step(r, Joint::Sequence, slots));
    }
    None
}

fn counted(r: &mut SubstReader, word: &str) -> Option<Done> {
    let (front, n) = count_of(word)?;
    match front {
        ":=" => Some(put_assignments(r, n)),
        "IF" => Some(put_if(r, n)),
        "SELECT" => Some(put_select(r, n)),
        "SELECT+" => Some(put_select_else(r, n)),
        "CHOICE" => Some(put_choice(r, n)),
        "of" => Some(put_labels(r, n)),
        "CASE" => Some(put_case(r, n)),
        "ANY" => Some(put_any(r, n)),
        "LET" => Some(put_let(r, n)),
        _ => None,
    }
}

// What a word of a substitution does; none where it is a word of a formula.
fn read_form(r: &mut SubstReader, word: &str, at: Place) -> Option<Done> {
    if let Some(done) = plain(r, word) {
        return Some(done);
    }
    if let Some(done) = with_slot(r, word, at) {
        return Some(done);
    }
    if let Some(done) = with_slots(r, word) {
        return Some(done);
    }
    counted(r, word)
}

fn read_placed(r: &mut SubstReader, token: &str) -> Option<Done> {
    match token.split_once("'") {
        Some((word, letter)) => read_form(r, word, place_of(letter)),
        None => read_form(r, token, NO_PLACE),
    }
}

fn read(r: &mut SubstReader, token: &str) -> Done {
    match read_placed(r, token) {
        Some(done) => done,
        None => read_token(&mut r.reader, token),
    }
}

fn read_all(alloc: Global, notation: &str) -> Result<SubstReader, AllocError> {
    let mut r = SubstReader {
        reader: nothing_read(alloc),
        substs: Vec::new(alloc),
        assignments: Vec::new(alloc),
        branches: Vec::new(alloc),
        cases: Vec::new(alloc),
    };
    for token in notation.split_whitespace() {
        read(&mut r, token)?;
    }
    Ok(r)
}

// What is left at the end must be one substitution.
fn is_whole(r: &SubstReader) -> bool {
    is_read_up(&r.reader)
        && r.substs.len() == 1
        && r.assignments.is_empty()
        && r.branches.is_empty()
        && r.cases.is_empty()
}

fn is_read_up(r: &Reader) -> bool {
    r.exprs.is_empty() && r.preds.is_empty() && r.powers.is_empty() && r.variables.is_empty()
}

/// The substitution of a notation.
pub fn subst_of(alloc: Global, notation: &str) -> Result<Boxed<SubstTree>, AllocError> {
    let mut r = read_all(alloc, notation)?;
    if !is_whole(&r) {
        return Err(UNREAD);
    }
    take_boxed(&mut r)
}
