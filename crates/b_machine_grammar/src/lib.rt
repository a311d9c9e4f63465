//! Machines of the language B: words, the grammar, and its one reading.
#![tactic(auto)]

ghost use Rattle.b_machine_grammar.specs.Laws.{StandsForAtMostOneMachine, CutsOutsideBrackets};

pub mod trees;
pub mod words;

/// A list of lexemes stands for at most one machine.
pub fn one_machine()
    ensures { StandsForAtMostOneMachine }
{}

/// A list is cut at the first separator outside brackets, and nowhere else.
pub fn cuts_outside_brackets()
    ensures { CutsOutsideBrackets }
{}
