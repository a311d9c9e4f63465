//! A machine's tree as the machine that it stands for.
ghost use Rattle.std.specs.Prelude.{◌≡◌, Some, None, not, is_some, slice_get, option_map, option_and_then, reverse};
ghost use Rattle.b_definitions.specs.Arranging.{HasCircle, HasNoCircle};
ghost use Rattle.b_expand.specs.declared.faults.ParseKind.TheVariants as kinds;
ghost use Rattle.b_summaries.specs.Standing.{meaning_in, depth_or_none};
ghost use Rattle.b_substitutions.specs.Standing.{use_in};
ghost use Rattle.b_substitutions.specs.Made.{IsMade};
ghost use Rattle.b_machine_defs.specs.Declaring.{all_unsorted};
ghost use Rattle.b_clauses.specs.Clauses as clauses_of;
ghost use Rattle.b_machine_text.specs.Limits as limits;
ghost use Rattle.b_machine_text.specs.Machines as machines;
ghost use Rattle.b_machine_text.specs.Verdicts as spec;

use crate::building::turned_clauses;
use crate::measuring::{measured_clauses, with_clause};
use b_ast::Bound;
use b_ast::machine::{DefTable, MachineText};
use b_clauses::{Parted, assembled, parts_of, with_table};
use b_definitions::Disorder;
use b_expand::{ParseFault, ParseKind};
use b_machine_defs::table_of;
use b_machine_grammar::trees::{Clause, DefText, MachineTree};
use b_substitutions::{Substitutions, substitutions_of};
use b_summaries::{BRACKET_LIMIT, NODE_LIMIT, Size, Told};
use std::alloc::Global;

/// Why a machine is refused, and where.
#[derive(Clone, Copy, Debug, PartialEq, Eq)]
pub struct Refusal {
    pub kind: ParseKind,
    pub at: u64,
}

fn refusal_of(kind: ParseKind, at: u64) -> Refusal
    ensures { result.kind ≡ kind }
{
    Refusal { kind, at }
}

// A refusal in a text that ends there.
fn refused(refusal: Refusal, end: u64) -> ParseFault
    ensures { spec.IsRefusal refusal.kind end result }
{
    ParseFault::Refused {
        kind: refusal.kind,
        at: refusal.at.min(end),
    }
}

fn is_told(told: &[Option<Told>], place: usize) -> bool
    ensures { result ≡ is_some (option_and_then (λ t. t) (slice_get told.now place)) }
{
    match sqlite_items::at(told, place) {
        Some(told) => told.is_some(),
        None => false,
    }
}

// Whether a use of the definition at a place can be right as a formula.
fn is_formula(defs: &Substitutions<'_>, place: usize) -> bool
    requires { IsMade defs.now }
    ensures { result ≡ is_some (option_and_then (λ m. m.told) (meaning_in defs.now.formulas.table.now.defs place)) }
{
    let known = defs.formulas.known.as_slice();
    is_told(known, place)
}

// Whether a use of the definition at a place can be right as a substitution.
fn is_substitution(defs: &Substitutions<'_>, place: usize) -> bool
    requires { IsMade defs.now }
    ensures { result ≡ is_some (option_and_then (λ t. t) (use_in defs.now.formulas.table.now.defs place)) }
{
    let uses = defs.uses.as_slice();
    is_told(uses, place)
}

// Whether a use of the definition at a place can be right.
fn is_usable(defs: &Substitutions<'_>, place: usize) -> bool
    requires { IsMade defs.now }
    ensures { result ≡ spec.is_usable defs.now.formulas.table.now.defs place }
{
    is_formula(defs, place) || is_substitution(defs, place)
}

// The place of the first definition that no use can be right of.
fn unusable(defs: &Substitutions<'_>) -> Option<u64>
    requires { IsMade defs.now }
    ensures { is_some result ≡ not (spec.are_usable defs.now.formulas.table.now.defs) }
{
    let table = defs.formulas.table.defs.as_slice();
    for (i, def) in table.iter().enumerate() {
        if !is_usable(defs, i) {
            return Some(def.at);
        }
    }
    None
}

fn depth_of(size: Size) -> u64
    ensures { result ≡ depth_or_none size.depth }
{
    match size.depth {
        Some(depth) => depth,
        None => 0,
    }
}

// Why a size is past the limits.
fn past_limits(size: Size) -> Option<ParseKind>
    ensures { result ≡ spec.past_limits size }
{
    if depth_of(size) > BRACKET_LIMIT {
        return Some(ParseKind::TooDeep);
    }
    if size.nodes > NODE_LIMIT {
        return Some(ParseKind::TooWide);
    }
    None
}

fn put_together(name: Bound, turned: Vec<Clause>, alloc: Global) -> Result<MachineText, ParseFault>
    ensures { spec.IsText (clauses_of.assembled name (reverse turned.items)) result }
{
    match assembled(name, turned, alloc) {
        Ok(text) => Ok(text),
        Err(_) => Err(ParseFault::Memory),
    }
}

// The machine of clauses that are within the limits.
fn built(
    name: Bound,
    clauses: Vec<Clause>,
    alloc: Global,
    defs: &Substitutions<'_>,
) -> Result<MachineText, ParseFault>
    requires made { IsMade defs.now }
    requires fits { limits.AreClausesWithin defs.now.formulas.table.now.defs clauses.items }
    ensures { spec.IsBuilt name (machines.expanded_clauses defs.now.formulas.table.now.defs clauses.items) result }
{
    match turned_clauses(clauses, alloc, defs) {
        Ok(turned) => put_together(name, turned, alloc),
        Err(_) => Err(ParseFault::Memory),
    }
}

// The machine of clauses of a size.
fn within_limits(
    size: Size,
    name: Bound,
    clauses: Vec<Clause>,
    end: u64,
    alloc: Global,
    defs: &Substitutions<'_>,
) -> Result<MachineText, ParseFault>
    requires made { IsMade defs.now }
    requires size { option_map machines.size_of_clauses (machines.expanded_clauses defs.now.formulas.table.now.defs clauses.items) ≡ Some size }
    ensures { spec.Gives (spec.judged name None (machines.expanded_clauses defs.now.formulas.table.now.defs clauses.items)) end result }
{
    match past_limits(size) {
        Some(kind) => Err(refused(refusal_of(kind, name.at.at), end)),
        None => built(name, clauses, alloc, defs),
    }
}

// The machine of clauses that stand for something.
fn unless_fault(
    size: Size,
    name: Bound,
    clauses: Vec<Clause>,
    fault: Option<Refusal>,
    end: u64,
    alloc: Global,
    defs: &Substitutions<'_>,
) -> Result<MachineText, ParseFault>
    requires made { IsMade defs.now }
    requires size { option_map machines.size_of_clauses (machines.expanded_clauses defs.now.formulas.table.now.defs clauses.items) ≡ Some size }
    ensures { spec.Gives (spec.judged name (spec.kind_of_fault fault) (machines.expanded_clauses defs.now.formulas.table.now.defs clauses.items)) end result }
{
    match fault {
        Some(refusal) => Err(refused(refusal, end)),
        None => within_limits(size, name, clauses, end, alloc, defs),
    }
}

fn place_of(clause: &Clause) -> u64 {
    match clause {
        Clause::Sets(at, _)
        | Clause::Constants(at, _)
        | Clause::AbstractConstants(at, _)
        | Clause::Properties(at, _)
        | Clause::Variables(at, _)
        | Clause::ConcreteVariables(at, _)
        | Clause::Invariant(at, _)
        | Clause::Assertions(at, _)
        | Clause::Definitions(at, _)
        | Clause::Initialisation(at, _)
        | Clause::Operations(at, _) => at.at,
    }
}

fn is_wrong(clause: &Clause, alloc: Global, defs: &Substitutions<'_>) -> bool
    requires { IsMade defs.now }
{
    let start = Some(Size {
        nodes: 0,
        depth: None,
    });
    match with_clause(start, clause, alloc, defs) {
        Ok(size) => size.is_none(),
        Err(_) => false,
    }
}

// The place of the first clause that stands for nothing, or else one that is given.
fn wrong_at(clauses: &[Clause], otherwise: u64, alloc: Global, defs: &Substitutions<'_>) -> u64
    requires { IsMade defs.now }
{
    for clause in clauses {
        if is_wrong(clause, alloc, defs) {
            return place_of(clause);
        }
    }
    otherwise
}

// The machine of clauses by what is known of their size.
fn of_size(
    size: Option<Size>,
    name: Bound,
    clauses: Vec<Clause>,
    fault: Option<Refusal>,
    end: u64,
    alloc: Global,
    defs: &Substitutions<'_>,
) -> Result<MachineText, ParseFault>
    requires made { IsMade defs.now }
    requires size { size ≡ option_map machines.size_of_clauses (machines.expanded_clauses defs.now.formulas.table.now.defs clauses.items) }
    ensures { spec.Gives (spec.judged name (spec.kind_of_fault fault) (machines.expanded_clauses defs.now.formulas.table.now.defs clauses.items)) end result }
{
    match size {
        Some(size) => unless_fault(size, name, clauses, fault, end, alloc, defs),
        None => {
            let at = wrong_at(clauses.as_slice(), name.at.at, alloc, defs);
            Err(refused(no_sentence(at), end))
        }
    }
}

fn no_sentence(at: u64) -> Refusal
    ensures { result.kind ≡ kinds.NotASentence }
{
    Refusal {
        kind: ParseKind::NotASentence,
        at,
    }
}

// The machine of clauses under definitions each of which a use can be right of.
fn judged(
    name: Bound,
    clauses: Vec<Clause>,
    fault: Option<Refusal>,
    end: u64,
    alloc: Global,
    defs: &Substitutions<'_>,
) -> Result<MachineText, ParseFault>
    requires { IsMade defs.now }
    ensures { spec.Gives (spec.judged name (spec.kind_of_fault fault) (machines.expanded_clauses defs.now.formulas.table.now.defs clauses.items)) end result }
{
    match measured_clauses(alloc, defs, clauses.as_slice()) {
        Ok(size) => of_size(size, name, clauses, fault, end, alloc, defs),
        Err(_) => Err(ParseFault::Memory),
    }
}

// The machine of clauses under definitions.
fn under_definitions(
    name: Bound,
    clauses: Vec<Clause>,
    fault: Option<Refusal>,
    end: u64,
    alloc: Global,
    defs: &Substitutions<'_>,
) -> Result<MachineText, ParseFault>
    requires { IsMade defs.now }
    ensures { spec.Gives (spec.verdict_by defs.now.formulas.table.now.defs name (spec.kind_of_fault fault) clauses.items) end result }
{
    match unusable(defs) {
        Some(at) => Err(refused(no_sentence(at), end)),
        None => judged(name, clauses, fault, end, alloc, defs),
    }
}

fn under_table(
    name: Bound,
    clauses: Vec<Clause>,
    fault: Option<Refusal>,
    end: u64,
    alloc: Global,
    table: &DefTable,
) -> Result<MachineText, ParseFault>
    ensures { spec.Gives (spec.verdict_by table.now.defs name (spec.kind_of_fault fault) clauses.items) end result }
{
    match substitutions_of(alloc, table) {
        Ok(defs) => under_definitions(name, clauses, fault, end, alloc, &defs),
        Err(_) => Err(ParseFault::Memory),
    }
}

fn tabled(
    name: Bound,
    clauses: Vec<Clause>,
    fault: Option<Refusal>,
    end: u64,
    alloc: Global,
    table: DefTable,
) -> Result<MachineText, ParseFault>
    ensures { spec.Gives (spec.tabled table.defs (spec.verdict_by table.defs name (spec.kind_of_fault fault) clauses.items)) end result }
{
    match under_table(name, clauses, fault, end, alloc, &table) {
        Ok(text) => Ok(with_table(text, table)),
        Err(fault) => Err(fault),
    }
}

// Faults of clauses come before a circle.
fn circle_or(fault: Option<Refusal>, at: u64) -> Refusal
    ensures { result.kind ≡ spec.circle_or (spec.kind_of_fault fault) }
{
    match fault {
        Some(refusal) => refusal,
        None => Refusal {
            kind: ParseKind::RecursiveDefinition,
            at,
        },
    }
}

// Why there is no table.
fn disordered(disorder: Disorder, fault: Option<Refusal>, at: u64, end: u64) -> ParseFault
    ensures { spec.IsToldOf disorder (spec.kind_of_fault fault) end result }
{
    match disorder {
        Disorder::Circle(_) => refused(circle_or(fault, at), end),
        Disorder::Memory => ParseFault::Memory,
    }
}

fn turned_back(clauses: Vec<Clause>) -> Vec<Clause>
    ensures { result.items ≡ reverse clauses.items }
{
    let mut clauses = clauses;
    clauses.reverse();
    clauses
}

fn of_parts(
    name: Bound,
    texts: Vec<DefText>,
    clauses: Vec<Clause>,
    fault: Option<Refusal>,
    end: u64,
    alloc: Global,
) -> Result<MachineText, ParseFault>
    ensures text { HasNoCircle (all_unsorted (reverse texts.items)) → spec.GivesUnder (reverse texts.items) name (spec.kind_of_fault fault) clauses.items end result }
    ensures circle { HasCircle (all_unsorted (reverse texts.items)) → spec.Gives (spec.circle_verdict (spec.kind_of_fault fault)) end result }
{
    match table_of(alloc, texts) {
        Ok(table) => tabled(name, clauses, fault, end, alloc, table),
        Err(disorder) => Err(disordered(disorder, fault, name.at.at, end)),
    }
}

/// The machine that a machine's tree stands for, in a text that ends there. `fault` is a refusal for its clauses, as that
/// one stands there twice. Refusals come in this order: a definition that no use can be right of, or a clause that stands for
/// nothing; the fault; what is too deep or too wide once definitions are expanded. Where a definition uses itself, be it
/// through others, that comes behind the fault, and uses aren't judged.
pub fn machine_text(
    alloc: Global,
    tree: MachineTree,
    fault: Option<Refusal>,
    end: u64,
) -> Result<MachineText, ParseFault>
    ensures text { HasNoCircle (all_unsorted (clauses_of.definitions_in tree.clauses)) → spec.GivesText tree (spec.kind_of_fault fault) end result }
    ensures circle { HasCircle (all_unsorted (clauses_of.definitions_in tree.clauses)) → spec.Gives (spec.circle_verdict (spec.kind_of_fault fault)) end result }
{
    let MachineTree { name, clauses } = tree;
    match parts_of(alloc, clauses) {
        Ok(parts) => {
            let Parted { texts, others } = parts;
            let clauses = turned_back(others);
            of_parts(name, texts, clauses, fault, end, alloc)
        }
        Err(_) => Err(ParseFault::Memory),
    }
}
