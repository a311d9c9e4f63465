// The nodes at the top of the trees of texts.
use b_ast::machine::DefTable;
use b_ast::{Formula, FormulaText};
use b_expand::{ParseFault, ParseKind};
use b_grammar::symbols::lexemes;
use b_lex::lex;
use b_parse_expr::{Unread, parse_formula, tree_of, tree_of_text};
use sqlite_items::Items;
use std::alloc::{AllocError, Global};
use std::test::Fail;

fn name_of(tree: &Formula) -> &'static str {
    match tree {
        Formula::Number(_, _) => "number",
        Formula::Text(_, _) => "text",
        Formula::Name(_, _) => "name",
        Formula::Old(_, _) => "old",
        Formula::Constant(_, _) => "constant",
        Formula::Negative(_, _) => "negative",
        Formula::Chain(_, _) => "chain",
        Formula::Row(_, _) => "row",
        Formula::Call(_, _, _) => "call",
        Formula::Set(_, _) => "set",
        Formula::Sequence(_, _) => "sequence",
        Formula::Comprehension(_, _, _) => "comprehension",
        Formula::Quantified(_, _, _, _) => "quantified",
        Formula::Collected(_, _, _, _, _) => "collected",
        Formula::If(_, _, _, _) => "if",
    }
}

// How many links, forms, arguments, elements or names the node at the top has, and what its first part is.
fn parts_of(tree: &Formula) -> (usize, &'static str) {
    match tree {
        Formula::Negative(_, e) => (1, name_of(e.get())),
        Formula::Chain(e, links) => (links.len(), name_of(e.get())),
        Formula::Row(e, forms) => (forms.len(), name_of(e.get())),
        Formula::Call(_, _, arguments) => (arguments.len(), "-"),
        Formula::Set(_, elements) => (elements.len(), "-"),
        Formula::Sequence(_, elements) => (elements.len(), "-"),
        Formula::Comprehension(_, names, p) => (names.len(), name_of(p.get())),
        Formula::Quantified(_, _, names, p) => (names.len(), name_of(p.get())),
        Formula::Collected(_, _, names, p, _) => (names.len(), name_of(p.get())),
        Formula::If(_, p, _, _) => (0, name_of(p.get())),
        _ => (0, "-"),
    }
}

fn shown(alloc: Global, text: &[u8]) -> Result<String, Fail> {
    let tokens = lex(alloc, text)?;
    let all = lexemes(alloc, false, text, &tokens)?;
    match tree_of(alloc, &all) {
        Ok(tree) => {
            let (count, first) = parts_of(&tree);
            let name = name_of(&tree);
            Ok(format!(in alloc; "{name} {count} {first}")?)
        }
        Err(Unread::NoTree(_)) => Ok(format!(in alloc; "none")?),
        Err(Unread::Memory) => Err(Fail::from("no memory")),
    }
}

// Each line has what stands at the top of a tree, and the text.
const TREES: &str = "chain 2 number@1 - 2 - 3
chain 1 chain@(1 - 2) - 3
chain 1 negative@-2 ** 2
negative 1 number@-2
chain 1 number@2 - -3
chain 2 chain@1 = 1 or 1 = 2 & 1 = 2
chain 2 number@2 ** 3 ** 2
chain 1 number@1 + 2 * 3
collected 1 chain@%(x).(x:1..2|x)
collected 2 chain@SIGMA(x,y).(x=y|x)
quantified 1 chain@!x.(x = 1 => x = 2)
row 2 name@f(1)(2)
row 1 name@f(1,2)
row 1 name@d(1)
row 1 name@(d)(1)
row 1 name@((d))(1)
row 1 row@(d(1))(2)
row 2 name@(d)(1)(2)
chain 1 number@1 + (2) * 3
chain 3 number@1 => 2 => 3 => 4
chain 1 chain@1 & 2 => 3 or 4
chain 2 chain@1 <=> 2 & 3 <=> 4 & 5 => 6 => 7
chain 1 number@1 : 2 |-> 3 .. 4 - 5
row 2 name@r~[{1}]
comprehension 1 chain@{x | x : 1..2}
comprehension 2 chain@{x,y | x = y}
set 2 -@{x,y}
set 0 -@{}
sequence 0 -@[]
sequence 0 -@<>
sequence 2 -@[1,2]
chain 2 number@(1,2,3)
call 1 -@card(r ; s)
call 2 -@prj1(S,T)
if 0 chain@IF x = 1 THEN 2 ELSE 3 END
old 0 -@x$0
constant 0 -@TRUE
none@1 = 2 = 3
none@r ; s
none@(IF TRUE = TRUE THEN r ; s ELSE t END)
none@card(1,2)
none@card()
none@prj1(S)
none@- - 1
none@{(x) | x = 1}
none@1 +
none@)
none@
none@x y
none@r[1,2]
none@!x(x = 1)
none@{1,}
none@(1
none@1)
none@skip";

#[test]
fn trees(rt: HostRuntime) -> Result<(), Fail> {
    for line in TREES.lines() {
        let Some((want, text)) = line.split_once('@') else {
            return Err(Fail::from("a line without a text"));
        };
        assert_eq!(rt;
            shown(rt.alloc(), text.as_bytes())?.as_str(),
            want,
            "{text}"
        );
    }
    Ok(())
}

// A chain nearly as long as a text may be is read by a loop.
#[test]
fn long_chain(rt: HostRuntime) -> Result<(), Fail> {
    let mut text = Vec::new(rt.alloc());
    for _ in 0..500_000 {
        text.extend_from_slice(b"1-")?;
    }
    text.push(b'1')?;
    assert_eq!(rt; shown(rt.alloc(), &text)?.as_str(), "chain 500000 number");
    Ok(())
}

// So many brackets round 1.
fn nested(alloc: Global, open: &str, close: &str, count: usize) -> Result<Vec<u8>, AllocError> {
    let mut text = Vec::new(alloc);
    for _ in 0..count {
        text.extend_from_slice(open.as_bytes())?;
    }
    text.push(b'1')?;
    for _ in 0..count {
        text.extend_from_slice(close.as_bytes())?;
    }
    Ok(text)
}

// A hundred brackets may be open at one place.
#[test]
fn brackets(rt: HostRuntime) -> Result<(), Fail> {
    let kinds = [
        ("(", ")"),
        ("{", "}"),
        ("[", "]"),
        ("IF 1=1 THEN ", " ELSE 1 END"),
    ];
    for (open, close) in kinds {
        let most = nested(rt.alloc(), open, close, 100)?;
        let tokens = lex(rt.alloc(), &most)?;
        assert!(rt; tree_of_text(rt.alloc(), &most, &tokens).is_ok(), "{open}");
        let more = nested(rt.alloc(), open, close, 101)?;
        let tokens = lex(rt.alloc(), &more)?;
        let answer = tree_of_text(rt.alloc(), &more, &tokens);
        let deep = matches!(
            &answer,
            Err(ParseFault::Refused {
                kind: ParseKind::TooDeep,
                at: _
            })
        );
        assert!(rt; deep, "{open}");
    }
    Ok(())
}

// A refusal stands where reading stopped.
#[test]
fn places(rt: HostRuntime) -> Result<(), Fail> {
    let cases: [(&[u8], u64); 3] = [(b"x y", 2), (b"1 +", 3), (b"(1", 2)];
    for (text, want) in cases {
        let tokens = lex(rt.alloc(), text)?;
        let answer = tree_of_text(rt.alloc(), text, &tokens);
        match answer {
            Err(ParseFault::Refused { kind, at }) => {
                assert_eq!(rt; kind, ParseKind::NotASentence);
                assert_eq!(rt; at, want);
            }
            _ => return Err(Fail::from("it is read")),
        }
    }
    Ok(())
}

fn sort_of_text(alloc: Global, text: &[u8]) -> Result<&'static str, Fail> {
    let tokens = lex(alloc, text)?;
    let defs = DefTable {
        defs: Items::new(alloc),
    };
    match parse_formula(alloc, text, &tokens, defs) {
        Ok(FormulaText::Expr(_)) => Ok("expression"),
        Ok(FormulaText::Pred(_)) => Ok("predicate"),
        Err(ParseFault::Refused { kind, at: _ }) => match kind {
            ParseKind::NotASentence => Ok("none"),
            ParseKind::TooDeep => Ok("deep"),
            ParseKind::TooWide => Ok("wide"),
            _ => Err(Fail::from("another kind")),
        },
        Err(ParseFault::Memory) => Err(Fail::from("no memory")),
    }
}

// Each line has what a text is without definitions, and the text.
const SORTS: &str = "expression@1 - 2 - 3
expression@f(1,2)
expression@bool(1 = 2)
predicate@1 = 1
predicate@1 = 1 => 2 = 2
predicate@!x.(x = 1 => x = 2)
none@bool(1)
none@1 + (1 = 2)
none@!x.(x = 1)
none@1 & 2
none@1 = 2 = 3
none@r ; s
none@x y";

#[test]
fn sorts(rt: HostRuntime) -> Result<(), Fail> {
    for line in SORTS.lines() {
        let Some((want, text)) = line.split_once('@') else {
            return Err(Fail::from("a line without a text"));
        };
        assert_eq!(rt; sort_of_text(rt.alloc(), text.as_bytes())?, want, "{text}");
    }
    Ok(())
}
