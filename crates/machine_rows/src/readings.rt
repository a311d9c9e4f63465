// What texts read as: machines, their clauses, and the first reason why a text is none.
use b_expand::{ParseFault, ParseKind};
use b_lex::lex;
use b_machine_grammar::trees::{BodyText, Clause, DefText, MachineTree};
use b_read_machine::{clause_missing, clause_twice, machine_of_text};
use std::alloc::Global;
use std::test::Fail;

// The tree of a text, or none.
pub fn tree_of(alloc: Global, text: &str) -> Result<Option<MachineTree>, Fail> {
    let bytes = text.as_bytes();
    let tokens = lex(alloc, bytes)?;
    match machine_of_text(alloc, bytes, &tokens) {
        Ok(tree) => Ok(Some(tree)),
        Err(ParseFault::Memory) => Err(Fail::from("no memory")),
        Err(_) => Ok(None),
    }
}

fn reason(kind: ParseKind) -> &'static str {
    match kind {
        ParseKind::NotASentence => "no-sentence",
        ParseKind::TooDeep => "too-deep",
        ParseKind::LeftOut => "left-out",
        _ => "another",
    }
}

// What becomes of a text, with the place where that is seen.
fn verdict(alloc: Global, text: &[u8]) -> Result<(&'static str, u64), Fail> {
    let tokens = lex(alloc, text)?;
    match machine_of_text(alloc, text, &tokens) {
        Ok(_) => Ok(("read", 0)),
        Err(ParseFault::Memory) => Err(Fail::from("no memory")),
        Err(ParseFault::Refused { kind, at }) => Ok((reason(kind), at)),
    }
}

// A line's want and its text.
pub fn row(line: &str) -> Result<(&str, &str), Fail> {
    match line.split_once('@') {
        Some(parts) => Ok(parts),
        None => Err(Fail::from("a line without a text")),
    }
}

// Each line has what becomes of a text, with the place, and the text.
const TEXTS: &str = "read 0@MACHINE M END
read 0@MACHINE Lift VARIABLES fl INVARIANT fl : 0..3 INITIALISATION fl := 0 OPERATIONS up = PRE fl < 3 THEN fl := fl + 1 END; down = PRE fl > 0 THEN fl := fl - 1 END END
read 0@MACHINE Q VARIABLES x INVARIANT x : NATURAL INITIALISATION x := 0 OPERATIONS pick(n) = PRE n : 1..12 THEN x := n END END
read 0@MACHINE D VARIABLES x INVARIANT x : INTEGER INITIALISATION x := 0 OPERATIONS div(n) = PRE n : 0..2 THEN x := 10 / (1 - n) END END
read 0@MACHINE C VARIABLES x INVARIANT x : NAT INITIALISATION x := 1 OPERATIONS op = CHOICE x := 1 OR x := 1 END END
read 0@MACHINE W VARIABLES x, y INVARIANT x : NAT & y : NAT INITIALISATION x := 1 || y := 2 OPERATIONS swp = BEGIN x := y || y := x END END
read 0@MACHINE K CONSTANTS c PROPERTIES c : 1..2 & c > 2 END
read 0@MACHINE B VARIABLES x INVARIANT x : NAT INITIALISATION x := 0 OPERATIONS op(n) = PRE n : NATURAL THEN x := n END END
left-out 10@MACHINE M SEES N END
left-out 0@MACHINE M(p) END
left-out 10@MACHINE M DEFINITIONS \"f\" END
no-sentence 0@
no-sentence 9@MACHINE M
no-sentence 14@MACHINE M END END
no-sentence 10@MACHINE M N END
no-sentence 8@MACHINE END
no-sentence 15@MACHINE M SETS END
no-sentence 26@MACHINE M INVARIANT x = 1 x = 2 END
no-sentence 34@MACHINE M INITIALISATION IF x = 1 END END";

#[test]
fn texts(rt: HostRuntime) -> Result<(), Fail> {
    for line in TEXTS.lines() {
        let (want, text) = row(line)?;
        let (what, at) = verdict(rt.alloc(), text.as_bytes())?;
        let found = format!(in rt.alloc(); "{what} {at}")?;
        assert_eq!(rt; found.as_str(), want, "{text}");
    }
    Ok(())
}

const SCHED: &str = "MACHINE Sched
SETS PID; MODE = {idle, busy}
DEFINITIONS free == PID - (ran(queue) \\/ dom(cpu))
VARIABLES queue, cpu, mode
INVARIANT queue : iseq(PID) & cpu : PID +-> 1..2 & mode : MODE
INITIALISATION queue := [] || cpu := {} || mode := idle
OPERATIONS
  arrive(p) = PRE p : free THEN queue := queue <- p END;
  run(c) = SELECT c : 1..2 & queue /= [] & c /: ran(cpu)
    THEN cpu := cpu \\/ {first(queue) |-> c} || queue := tail(queue) || mode := busy END;
  done(p) = PRE p : dom(cpu)
    THEN cpu := {p} <<| cpu || IF card(cpu) = 1 THEN mode := idle END END;
  n <-- waiting = BEGIN n := size(queue) END
END";

// The kind of a clause and how many entries it has.
fn shape_of(clause: &Clause) -> (&'static str, usize) {
    match clause {
        Clause::Sets(_, sets) => ("sets", sets.len()),
        Clause::Constants(_, names) => ("constants", names.len()),
        Clause::AbstractConstants(_, names) => ("abstract-constants", names.len()),
        Clause::Properties(_, _) => ("properties", 1),
        Clause::Variables(_, names) => ("variables", names.len()),
        Clause::ConcreteVariables(_, names) => ("concrete-variables", names.len()),
        Clause::Invariant(_, _) => ("invariant", 1),
        Clause::Assertions(_, predicates) => ("assertions", predicates.len()),
        Clause::Definitions(_, definitions) => ("definitions", definitions.len()),
        Clause::Initialisation(_, _) => ("initialisation", 1),
        Clause::Operations(_, operations) => ("operations", operations.len()),
    }
}

#[test]
fn the_clauses_of_sched(rt: HostRuntime) -> Result<(), Fail> {
    let Some(tree) = tree_of(rt.alloc(), SCHED)? else {
        return Err(Fail::from("Sched isn't read"));
    };
    let mut found = String::new(rt.alloc());
    for clause in tree.clauses.as_slice() {
        let (kind, count) = shape_of(clause);
        found.push_str(format!(in rt.alloc(); "{kind} {count},")?.as_str())?;
    }
    assert_eq!(rt;
        found.as_str(),
        "sets 2,definitions 1,variables 3,invariant 1,initialisation 1,operations 4,"
    );
    Ok(())
}

// Each line has the kind of a clause and how many entries it has, and the clause.
const CLAUSES: &str = "sets 1@SETS S
sets 2@SETS S; T = {a,b}
constants 2@CONSTANTS a, b
constants 1@CONCRETE_CONSTANTS a
abstract-constants 1@ABSTRACT_CONSTANTS a
properties 1@PROPERTIES a = 1 & b = 2
variables 3@VARIABLES a,b,c
variables 1@ABSTRACT_VARIABLES a
concrete-variables 1@CONCRETE_VARIABLES a
invariant 1@INVARIANT a = 1
assertions 2@ASSERTIONS a = 1; b = 2
definitions 1@DEFINITIONS d == 1
definitions 2@DEFINITIONS d == 1; e(p,q) == p + q;
initialisation 1@INITIALISATION a := 1 ; b := 2
operations 3@OPERATIONS o = skip; p(x,y) = BEGIN a := x ; b := y END; r,s <-- q = r,s := 1,2
none 0@SETS
none 0@SETS S;
none 0@SETS S = {}
none 0@SETS S = {a,}
none 0@SETS S, T
none 0@SETS S = {a} {b}
none 0@CONSTANTS
none 0@CONSTANTS a,
none 0@CONSTANTS a b
none 0@VARIABLES a; b
none 0@PROPERTIES
none 0@INVARIANT a := 1
none 0@ASSERTIONS
none 0@ASSERTIONS a = 1;
none 0@DEFINITIONS
none 0@DEFINITIONS d
none 0@DEFINITIONS d = 1
none 0@DEFINITIONS d ==
none 0@DEFINITIONS d == 1;;
none 0@DEFINITIONS d() == 1
none 0@DEFINITIONS d(1) == 1
none 0@DEFINITIONS 1 == 1
none 0@INITIALISATION
none 0@INITIALISATION a = 1
none 0@OPERATIONS
none 0@OPERATIONS o = skip;
none 0@OPERATIONS o == skip
none 0@OPERATIONS o() = skip
none 0@OPERATIONS <-- o = skip
none 0@OPERATIONS r <-- = skip
none 0@OPERATIONS r <-- s <-- o = skip
none 0@OPERATIONS o = a := 1 ; b := 2
none 0@OPERATIONS o(p = skip";

fn first_shape(tree: Option<MachineTree>) -> (&'static str, usize) {
    match tree {
        Some(machine) => match machine.clauses.as_slice() {
            [clause, ..] => shape_of(clause),
            [] => ("empty", 0),
        },
        None => ("none", 0),
    }
}

#[test]
fn clauses(rt: HostRuntime) -> Result<(), Fail> {
    for line in CLAUSES.lines() {
        let (want, clause) = row(line)?;
        let text = format!(in rt.alloc(); "MACHINE M {clause} END")?;
        let (kind, count) = first_shape(tree_of(rt.alloc(), text.as_str())?);
        let found = format!(in rt.alloc(); "{kind} {count}")?;
        assert_eq!(rt; found.as_str(), want, "{clause}");
    }
    Ok(())
}

// Each line has what a body reads as, and the body.
const BODIES: &str = "formula@1 + 2
formula@x = 1
formula@(x)
formula@IF x = 1 THEN 2 ELSE 3 END
subst@x := 1
subst@skip
subst@x := 1 || y := 2
subst@BEGIN x := 1 ; y := 2 END
subst@IF x = 1 THEN skip END
subst@d || e
either@x
either@d(1)
either@d(1,2)
either@x : (x = 1)
none@x := 1 ; y := 2
none@BEGIN x END END
none@x y";

fn body_of(definition: &DefText) -> &'static str {
    match &definition.body {
        BodyText::Formula(_) => "formula",
        BodyText::Subst(_) => "subst",
        BodyText::Either(_, _) => "either",
    }
}

fn body_in(clause: &Clause) -> &'static str {
    match clause {
        Clause::Definitions(_, definitions) => match definitions.as_slice() {
            [definition, ..] => body_of(definition),
            [] => "empty",
        },
        _ => "another clause",
    }
}

fn first_body(tree: Option<MachineTree>) -> &'static str {
    match tree {
        Some(machine) => match machine.clauses.as_slice() {
            [clause, ..] => body_in(clause),
            [] => "empty",
        },
        None => "none",
    }
}

#[test]
fn bodies(rt: HostRuntime) -> Result<(), Fail> {
    for line in BODIES.lines() {
        let (want, body) = row(line)?;
        let text = format!(in rt.alloc(); "MACHINE M DEFINITIONS d == {body} END")?;
        let found = first_body(tree_of(rt.alloc(), text.as_str())?);
        assert_eq!(rt; found, want, "{body}");
    }
    Ok(())
}

// One clause of each kind.
const KINDS: [&str; 11] = [
    "SETS S",
    "CONSTANTS a",
    "ABSTRACT_CONSTANTS a",
    "PROPERTIES a = 1",
    "VARIABLES a",
    "CONCRETE_VARIABLES a",
    "INVARIANT a = 1",
    "ASSERTIONS a = 1",
    "DEFINITIONS d == 1",
    "INITIALISATION a := 1",
    "OPERATIONS o = skip",
];

fn stands_twice(alloc: Global, text: &str) -> Result<bool, Fail> {
    match tree_of(alloc, text)? {
        Some(machine) => Ok(clause_twice(&machine).is_some()),
        None => Err(Fail::from("a machine isn't read")),
    }
}

#[test]
fn clauses_that_are_read_twice(rt: HostRuntime) -> Result<(), Fail> {
    for clause in KINDS {
        let twice = format!(in rt.alloc(); "MACHINE M {clause} ASSERTIONS 1 = 1 {clause} END")?;
        assert!(rt; stands_twice(rt.alloc(), twice.as_str())?, "{clause}");
    }
    assert!(rt; !stands_twice(rt.alloc(), SCHED)?);
    Ok(())
}

fn is_incomplete(alloc: Global, text: &str) -> Result<bool, Fail> {
    match tree_of(alloc, text)? {
        Some(machine) => Ok(clause_missing(&machine).is_some()),
        None => Err(Fail::from("a machine isn't read")),
    }
}

// Each line has whether a clause is missing, and the clauses.
const MISSING: &str = "no@INVARIANT a = 1 VARIABLES a INITIALISATION a := 1
yes@VARIABLES a INITIALISATION a := 1
yes@CONCRETE_VARIABLES a INVARIANT a = 1
yes@CONSTANTS c
no@PROPERTIES c = 1 ABSTRACT_CONSTANTS c";

#[test]
fn clauses_that_are_missed(rt: HostRuntime) -> Result<(), Fail> {
    for line in MISSING.lines() {
        let (want, clauses) = row(line)?;
        let text = format!(in rt.alloc(); "MACHINE M {clauses} END")?;
        assert_eq!(rt;
            is_incomplete(rt.alloc(), text.as_str())?,
            want == "yes",
            "{clauses}"
        );
    }
    Ok(())
}

fn brackets(alloc: Global, count: usize) -> Result<String, Fail> {
    let mut text = String::new(alloc);
    text.push_str("MACHINE M INVARIANT ")?;
    for _ in 0..count {
        text.push_str("(")?;
    }
    text.push_str("x = 1")?;
    for _ in 0..count {
        text.push_str(")")?;
    }
    text.push_str(" SEES END")?;
    Ok(text)
}

#[test]
fn too_deep_comes_first(rt: HostRuntime) -> Result<(), Fail> {
    let deep = brackets(rt.alloc(), 100)?;
    let (why, at) = verdict(rt.alloc(), deep.as_str().as_bytes())?;
    assert_eq!(rt; why, "too-deep");
    assert_eq!(rt; at, 119);
    let less = brackets(rt.alloc(), 99)?;
    let (why, _) = verdict(rt.alloc(), less.as_str().as_bytes())?;
    assert_eq!(rt; why, "left-out");
    Ok(())
}

fn repeated(alloc: Global, front: &str, part: &str, count: usize) -> Result<String, Fail> {
    let mut text = String::new(alloc);
    text.push_str(front)?;
    for _ in 0..count {
        text.push_str(part)?;
    }
    text.push_str(" END")?;
    Ok(text)
}

// How many entries the first clause of such a text has.
fn entries(alloc: Global, front: &str, part: &str, count: usize) -> Result<usize, Fail> {
    let text = repeated(alloc, front, part, count)?;
    let (_, found) = first_shape(tree_of(alloc, text.as_str())?);
    Ok(found)
}

#[test]
fn long_texts(rt: HostRuntime) -> Result<(), Fail> {
    let definitions = entries(rt.alloc(), "MACHINE M DEFINITIONS ", "d(p) == p + 1;", 2000)?;
    assert_eq!(rt; definitions, 2000);
    let operations = entries(
        rt.alloc(),
        "MACHINE M OPERATIONS o = skip",
        ";p = x := x + 1",
        2000,
    )?;
    assert_eq!(rt; operations, 2001);
    let chains = entries(
        rt.alloc(),
        "MACHINE M INITIALISATION skip",
        "||x := 1",
        5000,
    )?;
    assert_eq!(rt; chains, 1);
    Ok(())
}
