// What substitutions read as.
use crate::readings::{row, tree_of};
use b_ast::machine::{Branch, CaseBranch, Step, Subst};
use b_machine_grammar::trees::{Clause, MachineTree};
use sqlite_items::Boxed;
use std::alloc::Global;
use std::test::Fail;

fn form_of(tree: &Subst) -> &'static str {
    match tree {
        Subst::Skip(_) => "skip",
        Subst::Block(_, _) => "block",
        Subst::Assign(_, _, _) => "assign",
        Subst::Update(_, _, _, _) => "update",
        Subst::ChooseFrom(_, _, _) => "from",
        Subst::ChooseSuch(_, _, _) => "such",
        Subst::Guarded(_, _, _, _) => "guarded",
        Subst::If(_, _, _) => "if",
        Subst::Select(_, _, _) => "select",
        Subst::Choice(_, _) => "choice",
        Subst::Case(_, _, _, _) => "case",
        Subst::Any(_, _, _, _) => "any",
        Subst::Let(_, _, _, _) => "let",
        Subst::Chain(_, _) => "chain",
        Subst::Use(_, _, _) => "use",
    }
}

fn other_form(tree: &Option<Boxed<Subst>>) -> &'static str {
    match tree {
        Some(body) => form_of(body.get()),
        None => "-",
    }
}

fn first_branch(branches: &[Branch]) -> &'static str {
    match branches {
        [branch, ..] => form_of(&branch.body),
        [] => "-",
    }
}

fn first_case(branches: &[CaseBranch]) -> &'static str {
    match branches {
        [branch, ..] => form_of(&branch.body),
        [] => "-",
    }
}

fn last_step(steps: &[Step]) -> &'static str {
    match steps {
        [.., step] => form_of(&step.body),
        [] => "-",
    }
}

fn first_choice(parts: &[Subst]) -> &'static str {
    match parts {
        [part, ..] => form_of(part),
        [] => "-",
    }
}

// How many parts a substitution has, and the forms of the first and of the last, or of what stands behind ELSE.
fn parts_of(tree: &Subst) -> (usize, &'static str, &'static str) {
    match tree {
        Subst::Block(_, body) => (1, form_of(body.get()), "-"),
        Subst::Assign(_, targets, _) => (targets.len(), "-", "-"),
        Subst::ChooseSuch(_, targets, _) => (targets.len(), "-", "-"),
        Subst::Guarded(_, _, _, body) => (1, form_of(body.get()), "-"),
        Subst::If(_, branches, other) => {
            (
                branches.len(),
                first_branch(branches.as_slice()),
                other_form(other),
            )
        }
        Subst::Select(_, branches, other) => {
            (
                branches.len(),
                first_branch(branches.as_slice()),
                other_form(other),
            )
        }
        Subst::Choice(_, parts) => (parts.len(), first_choice(parts.as_slice()), "-"),
        Subst::Case(_, _, branches, other) => {
            (
                branches.len(),
                first_case(branches.as_slice()),
                other_form(other),
            )
        }
        Subst::Any(_, names, _, body) => (names.len(), form_of(body.get()), "-"),
        Subst::Let(_, names, _, body) => (names.len(), form_of(body.get()), "-"),
        Subst::Chain(first, steps) => (
            steps.len(),
            form_of(first.get()),
            last_step(steps.as_slice()),
        ),
        Subst::Use(_, _, arguments) => (arguments.len(), "-", "-"),
        _ => (0, "-", "-"),
    }
}

fn body_in(machine: &MachineTree) -> Option<&Subst> {
    match machine.clauses.as_slice() {
        [Clause::Initialisation(_, body), ..] => Some(body),
        _ => None,
    }
}

fn shape_of(alloc: Global, tree: &Subst) -> Result<String, Fail> {
    let form = form_of(tree);
    let (count, first, last) = parts_of(tree);
    Ok(format!(in alloc; "{form} {count} {first} {last}")?)
}

// What stands at the top of a substitution and under it.
fn shown(alloc: Global, body: &str) -> Result<String, Fail> {
    let text = format!(in alloc; "MACHINE M INITIALISATION {body} END")?;
    match tree_of(alloc, text.as_str())? {
        Some(machine) => match body_in(&machine) {
            Some(tree) => shape_of(alloc, tree),
            None => Err(Fail::from("no initialisation")),
        },
        None => Ok(format!(in alloc; "none")?),
    }
}

// Each line has the form of a substitution with its parts, and the substitution.
const FORMS: &str = "skip 0 - -@skip
block 1 skip -@BEGIN skip END
assign 1 - -@x := 1
assign 2 - -@x,y := 1,2
update 0 - -@f(1) := 2
update 0 - -@f(1,2) := 3
from 0 - -@x :: 1..2
such 1 - -@x : (x = 1)
such 2 - -@x,y : (x = y & x = x$0)
guarded 1 skip -@PRE x = 1 THEN skip END
guarded 1 skip -@ASSERT x = 1 THEN skip END
if 1 skip -@IF x = 1 THEN skip END
if 2 skip use@IF x = 1 THEN skip ELSIF x = 2 THEN d ELSE e END
if 1 if -@IF x = 1 THEN IF x = 2 THEN skip ELSE d END END
if 1 if skip@IF x = 1 THEN IF x = 2 THEN skip END ELSE skip END
select 1 skip -@SELECT x = 1 THEN skip END
select 2 skip assign@SELECT x = 1 THEN skip WHEN x = 2 THEN d ELSE x := 1 END
choice 1 skip -@CHOICE skip END
choice 3 skip -@CHOICE skip OR d OR e END
case 1 skip -@CASE x OF EITHER 1 THEN skip END END
case 2 skip use@CASE x OF EITHER 1,2 THEN skip OR 3 THEN d ELSE e END END
any 2 skip -@ANY x,y WHERE x = y THEN skip END
let 2 skip -@LET x,y BE x = 1 & y = 2 IN skip END
chain 2 skip assign@skip || d ; x := 1
use 0 - -@d
use 1 - -@d(1)
use 1 - -@d(1,2)
none@skip skip
none@(skip)
none@x := 1,2
none@x,y := 1
none@x,y :: 1
none@x : x = 1
none@x : (x = 1) & x = 2
none@f(1)(2) := 3
none@x := y := 1
none@skip ||
none@|| skip
none@skip || || skip
none@LET x BE y = 1 IN skip END
none@LET x,y BE y = 2 & x = 1 IN skip END
none@LET x BE (x = 1) IN skip END
none@LET x BE x = 1 & y = 2 IN skip END
none@ANY (x,y) WHERE x = y THEN skip END
none@CASE x OF 1 THEN skip END
none@IF x = 1 THEN skip ELSE skip ELSE skip END
none@CHOICE skip ELSE skip END";

#[test]
fn forms(rt: HostRuntime) -> Result<(), Fail> {
    for line in FORMS.lines() {
        let (want, body) = row(line)?;
        let found = shown(rt.alloc(), body)?;
        assert_eq!(rt; found.as_str(), want, "{body}");
    }
    Ok(())
}

// Each form with words.
const WORDED: &str = "BEGIN skip END
PRE x = 1 THEN skip END
ASSERT x = 1 THEN skip END
IF x = 1 THEN skip ELSIF x = 2 THEN skip ELSE skip END
SELECT x = 1 THEN skip WHEN x = 2 THEN skip ELSE skip END
CHOICE skip OR skip END
CASE x OF EITHER 1 THEN skip OR 2 THEN skip ELSE skip END END
ANY y WHERE y = 1 THEN skip END
LET y BE y = 1 IN skip END";

// The words of a line, that of this number so many times.
fn with_times(alloc: Global, line: &str, number: usize, times: usize) -> Result<String, Fail> {
    let mut text = String::new(alloc);
    for (i, word) in line.split_whitespace().enumerate() {
        let count = if i == number { times } else { 1 };
        for _ in 0..count {
            text.push_str(word)?;
            text.push_str(" ")?;
        }
    }
    Ok(text)
}

// Whether a machine with this initialisation is read.
fn is_read(alloc: Global, body: &str) -> Result<bool, Fail> {
    let text = format!(in alloc; "MACHINE M INITIALISATION {body} END")?;
    Ok(tree_of(alloc, text.as_str())?.is_some())
}

fn is_read_with(alloc: Global, line: &str, number: usize, times: usize) -> Result<bool, Fail> {
    let text = with_times(alloc, line, number, times)?;
    is_read(alloc, text.as_str())
}

fn is_keyword(word: &str) -> bool {
    match word.as_bytes() {
        [first, ..] => *first >= b'A' && *first <= b'Z',
        [] => false,
    }
}

// Whether a machine is read though this word is missing or doubled.
fn is_read_anyhow(alloc: Global, line: &str, number: usize) -> Result<bool, Fail> {
    let missing = is_read_with(alloc, line, number, 0)?;
    let doubled = is_read_with(alloc, line, number, 2)?;
    Ok(missing || doubled)
}

#[test]
fn words_missing_and_doubled(rt: HostRuntime) -> Result<(), Fail> {
    for line in WORDED.lines() {
        assert!(rt; is_read(rt.alloc(), line)?, "{line}");
        for (number, word) in line.split_whitespace().enumerate() {
            if is_keyword(word) {
                assert!(rt;
                    !is_read_anyhow(rt.alloc(), line, number)?,
                    "{line} {number}"
                );
            }
        }
    }
    Ok(())
}

// Each form with a word in the wrong place.
const MISPLACED: &str = "skip BEGIN END
BEGIN END skip
x = 1 PRE THEN skip END
PRE THEN x = 1 skip END
PRE x = 1 skip THEN END
IF x = 1 THEN skip ELSE skip ELSIF x = 2 THEN skip END
IF x = 1 skip THEN ELSE skip END
IF ELSE skip x = 1 THEN skip END
SELECT x = 1 THEN skip ELSE skip WHEN x = 2 THEN skip END
SELECT WHEN x = 1 THEN skip END
CHOICE OR skip skip END
CHOICE skip skip OR END
CASE x EITHER OF 1 THEN skip END END
CASE OF x EITHER 1 THEN skip END END
CASE x OF EITHER 1 THEN skip ELSE skip OR 2 THEN skip END END
ANY WHERE y y = 1 THEN skip END
ANY y THEN skip WHERE y = 1 END
LET BE y y = 1 IN skip END
LET y IN skip BE y = 1 END
LET y BE IN y = 1 skip END";

#[test]
fn words_in_the_wrong_place(rt: HostRuntime) -> Result<(), Fail> {
    for body in MISPLACED.lines() {
        assert!(rt; !is_read(rt.alloc(), body)?, "{body}");
    }
    Ok(())
}
