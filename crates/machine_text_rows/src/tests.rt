// Machines with definitions, and what becomes of them.
use b_ast::machine::{MachineText, Operation, Subst};
use b_ast::{Bound, Expr, Formula, Pred};
use b_lex::lex;
use b_parse_machine::{ParseFault, ParseKind, parse_machine};
use b_print::texts::{print_expr, print_pred};
use sqlite_items::Items;
use std::alloc::Global;
use std::test::Fail;

fn name_of(kind: ParseKind) -> &'static [u8] {
    match kind {
        ParseKind::NotASentence => b"none",
        ParseKind::TooDeep => b"deep",
        ParseKind::LeftOut => b"left out",
        ParseKind::RecursiveDefinition => b"circle",
        ParseKind::ClauseTwice => b"twice",
        ParseKind::ClauseMissing => b"missing",
        ParseKind::TooWide => b"wide",
    }
}

// `x := E`, of one target.
fn assigned(alloc: Global, names: &[Bound], values: Items<Formula>) -> Result<Vec<u8>, Fail> {
    let mut values = values;
    match values.pop() {
        Some(formula) => written(alloc, names, &Expr { formula }),
        None => Err(Fail::from("no value")),
    }
}

fn written(alloc: Global, names: &[Bound], value: &Expr) -> Result<Vec<u8>, Fail> {
    match names {
        [name, ..] => {
            let value = print_expr(alloc, value)?;
            let mut text = Vec::from_slice(alloc, name.name.as_slice())?;
            text.extend_from_slice(b" := ")?;
            text.extend_from_slice(value.as_slice())?;
            Ok(text)
        }
        [] => Err(Fail::from("no target")),
    }
}

fn word_of(subst: &Subst) -> &'static [u8] {
    match subst {
        Subst::Skip(_) => b"skip",
        Subst::Any(_, _, _, _) => b"any",
        Subst::Chain(_, _) => b"chain",
        Subst::Use(_, _, _) => b"use",
        _ => b"other",
    }
}

// What a substitution is, as far as the rows ask for it.
fn shown_body(alloc: Global, subst: Subst) -> Result<Vec<u8>, Fail> {
    match subst {
        Subst::Assign(_, names, values) => assigned(alloc, names.as_slice(), values),
        other => {
            let word = word_of(&other);
            drop(other);
            Ok(word.to_vec(alloc)?)
        }
    }
}

fn shown_operation(alloc: Global, operation: Operation) -> Result<Vec<u8>, Fail> {
    let Operation {
        name: _,
        results: _,
        params: _,
        body,
    } = operation;
    shown_body(alloc, body)
}

fn shown_invariant(alloc: Global, invariant: Option<Pred>) -> Result<Vec<u8>, Fail> {
    match invariant {
        Some(invariant) => Ok(print_pred(alloc, &invariant)?),
        None => Ok(b"ok".to_vec(alloc)?),
    }
}

// The last operation's body, or else the invariant.
fn shown(alloc: Global, machine: MachineText) -> Result<Vec<u8>, Fail> {
    let MachineText {
        name: _,
        sets: _,
        constants: _,
        properties: _,
        variables: _,
        invariant,
        assertions: _,
        defs: _,
        initialisation,
        mut operations,
    } = machine;
    drop(initialisation);
    match operations.pop() {
        Some(operation) => shown_operation(alloc, operation),
        None => shown_invariant(alloc, invariant),
    }
}

fn answer(alloc: Global, text: &[u8]) -> Result<Vec<u8>, Fail> {
    let tokens = lex(alloc, text)?;
    match parse_machine(alloc, text, &tokens) {
        Ok(machine) => shown(alloc, machine),
        Err(ParseFault::Refused { kind, at: _ }) => Ok(name_of(kind).to_vec(alloc)?),
        Err(ParseFault::Memory) => Err(Fail::from("no memory")),
    }
}

// Whether the machine of each line has the answer that stands at its end.
fn answers(alloc: Global, rows: &str) -> Result<(), Fail> {
    for line in rows.lines() {
        let Some((text, wanted)) = line.split_once('@') else {
            return Err(Fail::from("a line without an answer"));
        };
        let said = answer(alloc, text.as_bytes())?;
        if said.as_slice() != wanted.as_bytes() {
            return Err(Fail::from(line));
        }
    }
    Ok(())
}

// Definitions that are formulas.
const FORMULAS: &str = "MACHINE M END@ok
MACHINE M INVARIANT 1 = 1 END@1 = 1
MACHINE M DEFINITIONS d == 1 = 1 INVARIANT d END@1 = 1
MACHINE M INVARIANT d & e(2) DEFINITIONS e(p) == p = f; f == 3; d == 1 = 1; END@1 = 1 & 2 = 3
MACHINE M DEFINITIONS d == 1 = 1; d == 2 = 2 INVARIANT d END@1 = 1
MACHINE M DEFINITIONS e == d; d == 1 = 1 INVARIANT e & e END@1 = 1 & 1 = 1
MACHINE M DEFINITIONS d(p) == p + 1 INVARIANT (d)(1) = 2 END@1 + 1 = 2
MACHINE M DEFINITIONS d == 1 = 1 => 2 = 2 INVARIANT !x.(d) END@!x.(1 = 1 => 2 = 2)";

// Definitions that are substitutions.
const SUBSTITUTIONS: &str = "MACHINE M OPERATIONS o = skip END@skip
MACHINE M DEFINITIONS d == skip OPERATIONS o = d END@skip
MACHINE M DEFINITIONS d == x := 1 OPERATIONS o = d END@x := 1
MACHINE M OPERATIONS o = d(3) DEFINITIONS d(p) == x := p + 1 END@x := 3 + 1
MACHINE M DEFINITIONS d(x) == x := 5 OPERATIONS o = d(7) END@x := 5
MACHINE M DEFINITIONS d == 1 OPERATIONS o = d := d + 2 END@d := 1 + 2
MACHINE M DEFINITIONS e == d; d == x := 1 OPERATIONS o = e END@x := 1
MACHINE M DEFINITIONS e(p) == d(p + 1); d(q) == x := q * 2 OPERATIONS o = e(3) END@x := (3 + 1) * 2
MACHINE M DEFINITIONS d == x := 1; d == x := 2 OPERATIONS o = d END@x := 1
MACHINE M DEFINITIONS d == skip || skip OPERATIONS o = d END@chain
MACHINE M DEFINITIONS d(p) == ANY x WHERE x = p THEN skip END OPERATIONS o = d(1) END@any
MACHINE M DEFINITIONS d(p) == x := 1; e(q) == d(q) OPERATIONS o = e(1 = 1) END@x := 1";

// Wrong uses, and bodies that nobody uses.
const WRONG: &str = "MACHINE M DEFINITIONS d == 1 OPERATIONS o = d END@none
MACHINE M OPERATIONS o = d END@none
MACHINE M DEFINITIONS d == skip INVARIANT d END@none
MACHINE M DEFINITIONS d == skip INVARIANT d = 1 END@none
MACHINE M DEFINITIONS d == 1 INVARIANT d END@none
MACHINE M DEFINITIONS d == skip OPERATIONS o = d(1) END@none
MACHINE M DEFINITIONS d(p) == x := p OPERATIONS o = d END@none
MACHINE M DEFINITIONS d(p) == x := p OPERATIONS o = d(1,2) END@none
MACHINE M DEFINITIONS d(p) == x := p OPERATIONS o = d(1 = 1) END@none
MACHINE M DEFINITIONS d == 1 OPERATIONS o = ANY d WHERE d = 1 THEN skip END END@none
MACHINE M DEFINITIONS d == 1 OPERATIONS o = LET d BE d = 1 IN skip END END@none
MACHINE M DEFINITIONS d(p) == ANY p WHERE p = 1 THEN skip END END@none
MACHINE M DEFINITIONS d == 1 + (1 = 1) END@none
MACHINE M DEFINITIONS d == x := (1 = 1) END@none
MACHINE M DEFINITIONS d == !x.(1 = 1) END@none
MACHINE M DEFINITIONS e == (d); d == skip OPERATIONS o = e END@none
MACHINE M DEFINITIONS d == skip; e == d + 1 END@none";

// Circles of one, two and three, used or not.
const CIRCLES: &str = "MACHINE M DEFINITIONS d == d END@circle
MACHINE M DEFINITIONS d == d + 1 INVARIANT 1 = 1 END@circle
MACHINE M DEFINITIONS d == e; e == d OPERATIONS o = d END@circle
MACHINE M DEFINITIONS d == BEGIN e END; e == IF 1 = 1 THEN f END; f == x := 1 ; skip END@none
MACHINE M DEFINITIONS d == BEGIN e END; e == IF 1 = 1 THEN f END; f == BEGIN skip; d END END@circle
MACHINE M DEFINITIONS d(p) == x := e(p); e(q) == f(q); f(r) == e(r) END@circle
MACHINE M DEFINITIONS d == x := d END@circle
MACHINE M DEFINITIONS d == d := 1 OPERATIONS o = d END@d := 1
MACHINE M DEFINITIONS d == 1; d == d INVARIANT d = 1 END@1 = 1";

// Of two refusals the first in order.
const ORDER: &str = "MACHINE M INVARIANT 1 = 1 INVARIANT 1 = 1 END@twice
MACHINE M VARIABLES x INVARIANT x = 1 END@missing
MACHINE M INVARIANT 1 = 1 DEFINITIONS d == d INVARIANT 1 = 1 END@twice
MACHINE M VARIABLES x DEFINITIONS d == d END@missing
MACHINE M DEFINITIONS d == 1 INVARIANT d INVARIANT 1 = 1 END@none
MACHINE M DEFINITIONS d == 1 VARIABLES x INVARIANT d END@none
MACHINE M VARIABLES x VARIABLES y END@twice
MACHINE M DEFINITIONS d == 1 + (1 = 1) VARIABLES x END@none";

// One more bracket than may be open, and twice as many nodes with each definition.
const LIMITS: &str =
    "MACHINE M DEFINITIONS a == 1; b == ((((a)))); c == ((((b)))); d == ((((c)))); e == ((((d)))); f == ((((e)))); g == ((((f)))); h == ((((g)))); i == ((((h)))); j == ((((i)))); k == ((((j)))); l == ((((k)))); m == ((((l)))); n == ((((m)))); o == ((((n)))); p == ((((o)))); q == ((((p)))); r == ((((q)))); s == ((((r)))); t == ((((s)))); u == ((((t)))) INVARIANT t = 1 END@1 = 1
MACHINE M DEFINITIONS a == 1; b == ((((a)))); c == ((((b)))); d == ((((c)))); e == ((((d)))); f == ((((e)))); g == ((((f)))); h == ((((g)))); i == ((((h)))); j == ((((i)))); k == ((((j)))); l == ((((k)))); m == ((((l)))); n == ((((m)))); o == ((((n)))); p == ((((o)))); q == ((((p)))); r == ((((q)))); s == ((((r)))); t == ((((s)))); u == ((((t)))) INVARIANT u = 1 END@deep
MACHINE M DEFINITIONS a == 1; b == a+a; c == b+b; d == c+c; e == d+d; f == e+e; g == f+f; h == g+g; i == h+h; j == i+i; k == j+j; l == k+k; m == l+l; n == m+m; o == n+n; p == o+o; q == p+p; r == q+q; s == r+r; t == s+s; u == t+t INVARIANT 1 = 1 END@1 = 1
MACHINE M DEFINITIONS a == 1; b == a+a; c == b+b; d == c+c; e == d+d; f == e+e; g == f+f; h == g+g; i == h+h; j == i+i; k == j+j; l == k+k; m == l+l; n == m+m; o == n+n; p == o+o; q == p+p; r == q+q; s == r+r; t == s+s; u == t+t INVARIANT u = 1 END@wide
MACHINE M DEFINITIONS a == x := 1; b == a||a; c == b||b; d == c||c; e == d||d; f == e||e; g == f||f; h == g||g; i == h||h; j == i||i; k == j||j; l == k||k; m == l||l; n == m||m; o == n||n; p == o||o; q == p||p; r == q||q; s == r||r; t == s||s; u == t||t OPERATIONS op = u END@wide";

#[test]
fn formulas(rt: HostRuntime) -> Result<(), Fail> {
    answers(rt.alloc(), FORMULAS)
}

#[test]
fn substitutions(rt: HostRuntime) -> Result<(), Fail> {
    answers(rt.alloc(), SUBSTITUTIONS)
}

#[test]
fn wrong_uses(rt: HostRuntime) -> Result<(), Fail> {
    answers(rt.alloc(), WRONG)
}

#[test]
fn circles(rt: HostRuntime) -> Result<(), Fail> {
    answers(rt.alloc(), CIRCLES)
}

#[test]
fn order_of_refusals(rt: HostRuntime) -> Result<(), Fail> {
    answers(rt.alloc(), ORDER)
}

#[test]
fn limits(rt: HostRuntime) -> Result<(), Fail> {
    answers(rt.alloc(), LIMITS)
}
