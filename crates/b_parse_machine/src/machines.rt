//! Machines with their definitions expanded.
ghost use Rattle.std.specs.Prelude.{◌≡◌, length};
ghost use Rattle.b_lex.specs.Reading.{AreSpans};
ghost use Rattle.b_machine_text.specs.Verdicts.{kind_of_fault};
ghost use Rattle.b_parse_machine.specs.Parsing as spec;

use b_ast::machine::MachineText;
use b_expand::{ParseFault, ParseKind};
use b_lex::Token;
use b_machine_grammar::trees::MachineTree;
use b_machine_text::{Refusal, machine_text};
use b_read_machine::{clause_missing, clause_twice, machine_of_text};
use std::alloc::Global;

// A clause that stands there twice, or else one that is missing.
fn clause_fault(tree: &MachineTree) -> Option<Refusal>
    ensures { kind_of_fault result ≡ spec.clause_fault tree.now.clauses }
{
    if let Some(place) = clause_twice(tree) {
        return Some(Refusal {
            kind: ParseKind::ClauseTwice,
            at: place.at,
        });
    }
    match clause_missing(tree) {
        Some(place) => Some(Refusal {
            kind: ParseKind::ClauseMissing,
            at: place.at,
        }),
        None => None,
    }
}

// The machine of a tree, in a text that ends there.
fn machine_of(alloc: Global, tree: MachineTree, end: u64) -> Result<MachineText, ParseFault>
    ensures { spec.IsMachineOf tree end result }
{
    let fault = clause_fault(&tree);
    machine_text(alloc, tree, fault, end)
}

/// The machine of a text with its definitions expanded and their table. Refusals come in the order of `ParsesMachine`. A
/// refusal has a place of the text: of the token where no machine can go on, or of what is refused.
pub fn parse_machine(
    alloc: Global,
    text: &[u8],
    tokens: &[Token],
) -> Result<MachineText, ParseFault>
    requires { AreSpans 0 (length text.now) tokens.now }
    ensures { spec.ParsesMachine text.now tokens.now result }
{
    match machine_of_text(alloc, text, tokens) {
        Ok(tree) => machine_of(alloc, tree, text.len() as u64),
        Err(fault) => Err(fault),
    }
}
