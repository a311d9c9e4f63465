use b_ast::machine::Subst;
use b_ast::{Bound, Formula, Place};
use b_grammar::symbols::lexemes;
use b_lex::lex;
use b_machine_grammar::trees::{Clause, MachineTree};
use b_machine_grammar::words::{
    Separator, Word, begins_clause, closes, opens, separates, word_of, words,
};
use b_machine_grammar::{cuts_outside_brackets, one_machine};
use b_read_machine::{clause_missing, clause_twice, left_out};
use sqlite_items::Items;
use std::alloc::{AllocError, Global};
use std::test::Fail;

fn is_left_out(alloc: Global, text: &[u8]) -> Result<bool, Fail> {
    let tokens = lex(alloc, text)?;
    let words = words(alloc, text, &tokens)?;
    let all = lexemes(alloc, true, text, &tokens)?;
    Ok(left_out(&words, &all).is_some())
}

const LEFT_OUT: [&str; 18] = [
    "REFINEMENT",
    "IMPLEMENTATION",
    "REFINES",
    "INCLUDES",
    "SEES",
    "USES",
    "EXTENDS",
    "PROMOTES",
    "IMPORTS",
    "CONSTRAINTS",
    "VALUES",
    "LOCAL_OPERATIONS",
    "VAR",
    "WHILE",
    "DO",
    "VARIANT",
    "rec",
    "struct",
];

// Each line says whether something is left out, and has the text.
const FORMS: &str = "yes@MACHINE M(p) END
yes@MACHINE M SEES N END
yes@MACHINE M DEFINITIONS \"f\" END
yes@MACHINE M DEFINITIONS d == 1; \"f\" END
yes@x MACHINE y ( z
yes@MACHINE M DEFINITIONS ( INVARIANT ) ; \"f\" END
no@MACHINE M END
no@MACHINE M DEFINITIONS d == \"f\" END
no@MACHINE M DEFINITIONS d == (1; \"f\") END
no@MACHINE M DEFINITIONS d == 1 INVARIANT x = 1 ; \"f\" END
no@MACHINE M INVARIANT f(x) = 1 END
no@DO_IT := VARS";

#[test]
fn left_out_words_and_forms(rt: HostRuntime) -> Result<(), Fail> {
    for word in LEFT_OUT {
        let texts = [
            format!(in rt.alloc(); "{word} M END")?,
            format!(in rt.alloc(); "MACHINE M {word} N END")?,
            format!(in rt.alloc(); "MACHINE M OPERATIONS o = x := ) {word} (")?,
        ];
        for text in texts {
            assert!(rt;
                is_left_out(rt.alloc(), text.as_str().as_bytes())?,
                "{word}"
            );
        }
    }
    for line in FORMS.lines() {
        let Some((want, text)) = line.split_once('@') else {
            return Err(Fail::from("a line without a text"));
        };
        let found = is_left_out(rt.alloc(), text.as_bytes())?;
        assert_eq!(rt; found, want == "yes", "{text}");
    }
    Ok(())
}

const HERE: Place = Place {
    machine: true,
    at: 0,
    depth: 1,
};

// A clause that begins with this word.
fn clause_of(alloc: Global, word: &str) -> Result<Clause, Fail> {
    match word {
        "SETS" => Ok(Clause::Sets(HERE, Items::new(alloc))),
        "CONSTANTS" => Ok(Clause::Constants(HERE, Items::new(alloc))),
        "ABSTRACT_CONSTANTS" => Ok(Clause::AbstractConstants(HERE, Items::new(alloc))),
        "PROPERTIES" => Ok(Clause::Properties(HERE, Formula::Number(HERE, 1))),
        "VARIABLES" => Ok(Clause::Variables(HERE, Items::new(alloc))),
        "CONCRETE_VARIABLES" => Ok(Clause::ConcreteVariables(HERE, Items::new(alloc))),
        "INVARIANT" => Ok(Clause::Invariant(HERE, Formula::Number(HERE, 1))),
        "ASSERTIONS" => Ok(Clause::Assertions(HERE, Items::new(alloc))),
        "DEFINITIONS" => Ok(Clause::Definitions(HERE, Items::new(alloc))),
        "INITIALISATION" => Ok(Clause::Initialisation(HERE, Subst::Skip(HERE))),
        "OPERATIONS" => Ok(Clause::Operations(HERE, Items::new(alloc))),
        _ => Err(Fail::from("no clause begins so")),
    }
}

fn named(alloc: Global, name: &[u8]) -> Result<Bound, AllocError> {
    Ok(Bound {
        name: Items::from_slice(alloc, name)?,
        at: HERE,
    })
}

// A machine with clauses that begin with these words.
fn machine_with(alloc: Global, words: &str) -> Result<MachineTree, Fail> {
    let mut clauses = Items::new(alloc);
    for word in words.split_whitespace() {
        clauses.push(clause_of(alloc, word)?)?;
    }
    Ok(MachineTree {
        name: named(alloc, b"M")?,
        clauses,
    })
}

const CLAUSES: [&str; 11] = [
    "SETS",
    "CONSTANTS",
    "ABSTRACT_CONSTANTS",
    "PROPERTIES",
    "VARIABLES",
    "CONCRETE_VARIABLES",
    "INVARIANT",
    "ASSERTIONS",
    "DEFINITIONS",
    "INITIALISATION",
    "OPERATIONS",
];

fn is_twice(alloc: Global, first: &str, second: &str) -> Result<bool, Fail> {
    let words = format!(in alloc; "{first} {second}")?;
    let machine = machine_with(alloc, words.as_str())?;
    Ok(clause_twice(&machine).is_some())
}

// Whether of all clauses this one alone is the same.
fn is_same_alone(alloc: Global, first: &str) -> Result<bool, Fail> {
    for second in CLAUSES {
        if is_twice(alloc, first, second)? != (first == second) {
            return Ok(false);
        }
    }
    Ok(true)
}

#[test]
fn clauses_twice(rt: HostRuntime) -> Result<(), Fail> {
    one_machine();
    cuts_outside_brackets();
    for first in CLAUSES {
        assert!(rt; is_same_alone(rt.alloc(), first)?, "{first}");
    }
    Ok(())
}

#[test]
fn clauses_far_apart(rt: HostRuntime) -> Result<(), Fail> {
    let far = machine_with(rt.alloc(), "SETS VARIABLES INVARIANT SETS")?;
    assert!(rt; clause_twice(&far).is_some());
    let none = machine_with(rt.alloc(), "")?;
    assert!(rt; clause_twice(&none).is_none());
    Ok(())
}

// Each line says whether a clause is missing, and has the words of the clauses.
const MISSING: &str = "no@
no@SETS
yes@VARIABLES
yes@VARIABLES INVARIANT
yes@CONCRETE_VARIABLES INITIALISATION
no@VARIABLES INVARIANT INITIALISATION
no@INITIALISATION CONCRETE_VARIABLES INVARIANT
yes@CONSTANTS
yes@ABSTRACT_CONSTANTS INVARIANT
no@PROPERTIES CONSTANTS
no@ABSTRACT_CONSTANTS PROPERTIES
yes@CONSTANTS VARIABLES INVARIANT INITIALISATION
yes@CONSTANTS PROPERTIES VARIABLES INVARIANT
yes@CONSTANTS PROPERTIES VARIABLES INITIALISATION
no@INVARIANT
no@PROPERTIES";

#[test]
fn clauses_missing(rt: HostRuntime) -> Result<(), Fail> {
    for line in MISSING.lines() {
        let Some((want, words)) = line.split_once('@') else {
            return Err(Fail::from("a line without clauses"));
        };
        let machine = machine_with(rt.alloc(), words)?;
        let missing = clause_missing(&machine).is_some();
        assert_eq!(rt; missing, want == "yes", "{words}");
    }
    Ok(())
}

#[test]
fn words_and_separators(rt: HostRuntime) -> Result<(), Fail> {
    assert_eq!(rt; word_of(b_lex::TokenKind::Word, b"ELSIF"), Word::Elsif);
    assert_eq!(rt; word_of(b_lex::TokenKind::Sign, b"<--"), Word::Results);
    assert_eq!(rt; word_of(b_lex::TokenKind::Sign, b"+"), Word::Other);
    assert_eq!(rt; word_of(b_lex::TokenKind::Name, b"x"), Word::Name);
    assert_eq!(rt; word_of(b_lex::TokenKind::Text, b"\"x\""), Word::Text);
    assert_eq!(rt; word_of(b_lex::TokenKind::Number, b"1"), Word::Other);
    assert!(rt; opens(Word::Either) && !opens(Word::End));
    assert!(rt; closes(Word::End) && !closes(Word::Or));
    assert!(rt; begins_clause(Word::Sets) && !begins_clause(Word::Machine));
    assert!(rt; separates(Separator::Joint, Word::Semicolon));
    assert!(rt; separates(Separator::Becoming, Word::ChosenFrom));
    assert!(rt; separates(Separator::At(Word::Or), Word::Or));
    assert!(rt; !separates(Separator::Clause, Word::End));
    Ok(())
}
