//! What is left out, and which clauses a machine must and mustn't have.
ghost use Rattle.std.specs.Prelude.{◌≡◌, ◌||◌, is_some, map, nat_eq};
ghost use Rattle.std.specs.List.{list_any};
ghost use Rattle.b_machine_grammar.specs.Words as words;
ghost use Rattle.b_stretches.specs.Stretches.{pieces, zipped};
ghost use Rattle.b_read_machine.specs.Rules as spec;

use b_ast::Place;
use b_grammar::Lexeme;
use b_machine_grammar::trees::{Clause, MachineTree};
use b_machine_grammar::words::{Word, begins_clause};
use b_stretches::{Stretch, first, is_word};

// Whether the first word is this one.
fn begins_with(s: Stretch<'_>, wanted: Word) -> bool
    ensures { result ≡ spec.begins_with wanted (pieces s.entry) }
{
    match first(s) {
        None => false,
        Some((word, _, _)) => is_word(wanted, word),
    }
}

// A name and an opening round bracket stand first.
fn is_head(s: Stretch<'_>) -> bool
    ensures { result ≡ spec.is_head (pieces s.entry) }
{
    match first(s) {
        None => false,
        Some((word, _, more)) => { is_word(Word::Name, word) && begins_with(more, Word::RoundOpen) }
    }
}

// A string stands where a definition should begin, in a clause at this depth of brackets. `begins` says that one should
// begin here.
fn has_file(s: Stretch<'_>, depth: u64, begins: bool) -> bool
    ensures { result ≡ spec.has_file depth begins (pieces s.entry) }
{
    let mut rest = s;
    let mut fresh = begins;
    while let Some((word, lexeme, more)) = first(rest) {
        if fresh && is_word(Word::Text, word) {
            return true;
        }
        let level = lexeme.at.depth == depth;
        if level && begins_clause(word) {
            return false;
        }
        fresh = level && is_word(Word::Semicolon, word);
        rest = more;
    }
    false
}

// Whether a left-out word or form begins here.
fn is_left_out(word: Word, depth: u64, more: Stretch<'_>) -> bool
    ensures { result ≡ spec.is_left_out word depth (pieces more.entry) }
{
    match word {
        Word::LeftOut => true,
        Word::Machine => is_head(more),
        Word::Definitions => has_file(more, depth, true),
        _ => false,
    }
}

/// The place of the first left-out word or form, if there is one.
pub fn left_out(words: &[Word], lexemes: &[Lexeme]) -> Option<u64>
    ensures { is_some result ≡ spec.has_left_out (zipped words.now lexemes.now) }
{
    let mut rest = Stretch {
        words,
        lexemes,
        end: 0,
    };
    while let Some((word, lexeme, more)) = first(rest) {
        if is_left_out(word, lexeme.at.depth, more) {
            return Some(lexeme.at.at);
        }
        rest = more;
    }
    None
}

// The word of a clause; of two words for one clause the first.
fn kind_of(clause: &Clause) -> Word
    ensures { result ≡ spec.kind_of clause.now }
{
    match clause {
        Clause::Sets(_, _) => Word::Sets,
        Clause::Constants(_, _) => Word::Constants,
        Clause::AbstractConstants(_, _) => Word::AbstractConstants,
        Clause::Properties(_, _) => Word::Properties,
        Clause::Variables(_, _) => Word::Variables,
        Clause::ConcreteVariables(_, _) => Word::ConcreteVariables,
        Clause::Invariant(_, _) => Word::Invariant,
        Clause::Assertions(_, _) => Word::Assertions,
        Clause::Definitions(_, _) => Word::Definitions,
        Clause::Initialisation(_, _) => Word::Initialisation,
        Clause::Operations(_, _) => Word::Operations,
    }
}

fn place_of(clause: &Clause) -> Place {
    match clause {
        Clause::Sets(at, _) => *at,
        Clause::Constants(at, _) => *at,
        Clause::AbstractConstants(at, _) => *at,
        Clause::Properties(at, _) => *at,
        Clause::Variables(at, _) => *at,
        Clause::ConcreteVariables(at, _) => *at,
        Clause::Invariant(at, _) => *at,
        Clause::Assertions(at, _) => *at,
        Clause::Definitions(at, _) => *at,
        Clause::Initialisation(at, _) => *at,
        Clause::Operations(at, _) => *at,
    }
}

// The place of the first clause of this kind.
fn find_clause(clauses: &[Clause], kind: Word) -> Option<Place>
    ensures { is_some result ≡ list_any (words.is_word kind) (map spec.kind_of clauses.now) }
{
    let mut rest = clauses;
    while let [clause, more @ ..] = rest {
        if is_word(kind, kind_of(clause)) {
            return Some(place_of(clause));
        }
        rest = more;
    }
    None
}

/// The place of a clause that stands there again, if one does.
pub fn clause_twice(machine: &MachineTree) -> Option<Place>
    ensures { is_some result ≡ spec.has_twice (map spec.kind_of machine.now.clauses) }
{
    let mut rest = machine.clauses.as_slice();
    while let [clause, more @ ..] = rest {
        let again = find_clause(more, kind_of(clause));
        if again.is_some() {
            return again;
        }
        rest = more;
    }
    None
}

// The place of the first of these clauses that is there.
fn either_clause(clauses: &[Clause], kind: Word, other: Word) -> Option<Place>
    ensures { is_some result ≡ spec.has_either kind other (map spec.kind_of clauses.now) }
{
    match find_clause(clauses, kind) {
        Some(place) => Some(place),
        None => find_clause(clauses, other),
    }
}

/// The place of a clause that asks for another one that isn't there, if there is one.
pub fn clause_missing(machine: &MachineTree) -> Option<Place>
    ensures { is_some result ≡ spec.is_missing (map spec.kind_of machine.now.clauses) }
{
    let clauses = machine.clauses.as_slice();
    let variables = either_clause(clauses, Word::Variables, Word::ConcreteVariables);
    let invariant = find_clause(clauses, Word::Invariant);
    let initialisation = find_clause(clauses, Word::Initialisation);
    if variables.is_some() && (invariant.is_none() || initialisation.is_none()) {
        return variables;
    }
    let constants = either_clause(clauses, Word::Constants, Word::AbstractConstants);
    if constants.is_some() && find_clause(clauses, Word::Properties).is_none() {
        constants
    } else {
        None
    }
}
