//! Formulas with their definitions expanded.
ghost use Rattle.std.specs.Prelude.{◌≡◌, ◌≤◌, length};
ghost use Rattle.b_definitions.specs.Arranging.{HasCircle, HasNoCircle};
ghost use Rattle.b_lex.specs.Reading.{AreSpans};
ghost use Rattle.b_parse_expr.specs.Verdicts as spec;
ghost use Rattle.b_summaries.specs.Made.{IsMade};

use crate::texts::tree_of_text;
use b_ast::FormulaText;
use b_ast::machine::DefTable;
use b_definitions::{Disorder, arranged};
use b_expand::{ParseFault, ParseKind, Unexpanded, Unfit};
use b_lex::Token;
use b_summaries::{Definitions, definitions_of, expand};
use std::alloc::Global;

fn kind_of(why: Unfit) -> ParseKind
    ensures { result ≡ spec.kind_of why }
{
    match why {
        Unfit::NotASentence => ParseKind::NotASentence,
        Unfit::TooDeep => ParseKind::TooDeep,
        Unfit::TooWide => ParseKind::TooWide,
    }
}

fn fault_of(unexpanded: Unexpanded, end: u64) -> ParseFault
    ensures { result ≡ spec.fault_of unexpanded end }
{
    match unexpanded {
        Unexpanded::Refused(why, at) => ParseFault::Refused {
            kind: kind_of(why),
            at: at.min(end),
        },
        Unexpanded::Memory => ParseFault::Memory,
    }
}

// The answer of an expansion for a text that ends there.
fn answer_of(answer: Result<FormulaText, Unexpanded>, end: u64) -> Result<FormulaText, ParseFault>
    ensures { result ≡ spec.passed_on answer end }
{
    match answer {
        Ok(formula) => Ok(formula),
        Err(unexpanded) => Err(fault_of(unexpanded, end)),
    }
}

/// The formula of a text, with definitions expanded that are indexed and summed up already.
pub fn parse_formula_under(
    alloc: Global,
    text: &[u8],
    tokens: &[Token],
    defs: &Definitions<'_>,
) -> Result<FormulaText, ParseFault>
    requires spans { AreSpans 0 (length text.now) tokens.now }
    requires made { IsMade defs.now }
    ensures { spec.Parses text.now tokens.now defs.now.table.now.defs result }
{
    match tree_of_text(alloc, text, tokens) {
        Ok(tree) => {
            let answer = expand(alloc, defs, tree);
            answer_of(answer, text.len() as u64)
        }
        Err(fault) => Err(fault),
    }
}

/// The formula of a text, with the definitions of the table expanded, where each of them uses only those before it.
pub fn parse_formula_in_order(
    alloc: Global,
    text: &[u8],
    tokens: &[Token],
    defs: &DefTable,
) -> Result<FormulaText, ParseFault>
    requires { AreSpans 0 (length text.now) tokens.now }
    ensures { spec.Parses text.now tokens.now defs.now.defs result }
{
    match definitions_of(alloc, defs) {
        Ok(made) => parse_formula_under(alloc, text, tokens, &made),
        Err(_) => Err(ParseFault::Memory),
    }
}

/// The formula of a text, with the definitions of the table expanded, in whatever order they stand: of two definitions of
/// one name the first is meant. A table in which a definition uses itself, be it through others, is refused at the
/// beginning of the text. A table that serves many formulas is best arranged and made to `Definitions` once.
pub fn parse_formula(
    alloc: Global,
    text: &[u8],
    tokens: &[Token],
    defs: DefTable,
) -> Result<FormulaText, ParseFault>
    requires { AreSpans 0 (length text.now) tokens.now }
    ensures parses { HasNoCircle defs.defs → spec.ParsesUnder text.now tokens.now defs.defs result }
    ensures circle { HasCircle defs.defs → spec.TellsCircle result }
{
    match arranged(alloc, defs) {
        Ok(table) => parse_formula_in_order(alloc, text, tokens, &table),
        Err(Disorder::Circle(_)) => Err(ParseFault::Refused {
            kind: ParseKind::RecursiveDefinition,
            at: 0,
        }),
        Err(Disorder::Memory) => Err(ParseFault::Memory),
    }
}
