ghost use Rattle.engine_face.specs.Packing.{IsPacked, state_of};
ghost use Rattle.std.specs.Option.{option_copied};
ghost use Rattle.std.specs.Prelude.{◌≡◌, ◌∷◌, [], IfOk, Some, map};
ghost use Rattle.table_engine.specs.TableLaws.{SmallNumber};
ghost use Rattle.table_engine.specs.Tables as spec;

use crate::listing::{
    Answered, Confirming, Finding, FormulaRow, Listed, Row, TableList, TableOp, TableState,
};
use b_values::{OpId, Value};
use engine_face::{
    Confirmed, FormulaKey, Found, OpList, Packed, SharedBytes, Step, StepItem, StepList,
    ValueAnswer,
};
use sqlite_items::Items;
use std::alloc::{AllocError, Global};

fn byte_of(state: TableState) -> u8
    ensures { result ≡ spec.byte_of state }
{
    match state {
        TableState::Root => 0,
        TableState::A => 1,
        TableState::B => 2,
        TableState::C => 3,
        TableState::D => 4,
    }
}

/// A state of a table, packed.
#[tactic(auto, using(crate::specs::TableLaws::packs))]
pub fn packed_state(alloc: Global, state: TableState) -> Result<Packed, AllocError>
    ensures bytes { IfOk result (λ p. p ≡ spec.byte_of state ∷ []) }
    ensures stands { IfOk result (λ p. spec.table_unpack p ≡ Some (spec.numbered_state (spec.byte_of state))) }
{
    let byte = byte_of(state);
    Packed::of_bytes(alloc, Items::from_slice(alloc, &[byte])?)
}

/// The number of a packed state.
#[tactic(auto, using(crate::specs::TableLaws::number_at, crate::specs::TableLaws::packed_some))]
pub fn number(at: &Packed) -> u8
    requires { IsPacked spec.table_unpack at.now }
    ensures { result ≡ spec.number_of (state_of spec.table_unpack at.now) }
{
    at.bytes()[0]
}

fn op_of(op: TableOp) -> OpId
    ensures { result ≡ spec.op_of op }
{
    match op {
        TableOp::Setup => OpId::Setup,
        TableOp::Init => OpId::Init,
        TableOp::Up => OpId::Op(0),
        TableOp::Down => OpId::Op(1),
    }
}

fn packed_step(alloc: Global, op: OpId, to: TableState) -> Result<StepItem, AllocError>
    ensures { IfOk result (λ step. step ≡ spec.packed_step op to) }
{
    Ok(Step {
        op,
        params: Items::new(alloc),
        results: Items::new(alloc),
        dest: packed_state(alloc, to)?,
    })
}

fn packed_list(alloc: Global, list: &TableList) -> Result<OpList<Packed>, AllocError>
    ensures { IfOk result (λ packed. packed ≡ spec.packed_list list.now) }
{
    let op = op_of(list.op);
    let mut steps = Items::new(alloc);
    for to in list.to.as_slice() {
        steps.push(packed_step(alloc, op, *to)?)?;
    }
    Ok(OpList {
        op,
        steps,
        end: list.end,
    })
}

fn packed_lists(alloc: Global, lists: &[TableList]) -> Result<Items<OpList<Packed>>, AllocError>
    ensures { IfOk result (λ packed. packed ≡ map spec.packed_list lists.now) }
{
    let mut packed = Items::new(alloc);
    for list in lists {
        packed.push(packed_list(alloc, list)?)?;
    }
    Ok(packed)
}

/// The lists of the state of a number.
pub fn lists_of(alloc: Global, rows: &[Row], n: u8) -> Result<StepList<Packed>, AllocError>
    ensures { IfOk result (λ list. list ≡ spec.lists_of rows.now n) }
{
    match rows.get(usize::from(n)) {
        None => Ok(StepList {
            lists: Items::new(alloc),
        }),
        Some(row) => Ok(StepList {
            lists: packed_lists(alloc, row.lists.as_slice())?,
        }),
    }
}

fn same_op(a: OpId, b: OpId) -> bool
    ensures { result ≡ spec.same_op a b }
{
    match (a, b) {
        (OpId::Setup, OpId::Setup) => true,
        (OpId::Init, OpId::Init) => true,
        (OpId::Op(m), OpId::Op(n)) => m == n,
        _ => false,
    }
}

fn packed_found(alloc: Global, op: OpId, listed: Listed) -> Result<Found<Packed>, AllocError>
    ensures { IfOk result (λ found. found ≡ spec.packed_found op listed) }
{
    Ok(match listed {
        Listed::To(to) => Found::Step(packed_step(alloc, op, to)?),
        Listed::Nothing => Found::Nothing,
        Listed::Fault(fault) => Found::Fault(fault),
    })
}

fn found_in(alloc: Global, op: OpId, finds: &[Finding]) -> Result<Found<Packed>, AllocError>
    ensures { IfOk result (λ found. found ≡ spec.found_in op finds.now) }
{
    for finding in finds {
        if same_op(finding.op, op) {
            return packed_found(alloc, op, finding.listed);
        }
    }
    Ok(Found::Nothing)
}

/// The answer to a search in the state of a number.
pub fn found_of(alloc: Global, rows: &[Row], op: OpId, n: u8) -> Result<Found<Packed>, AllocError>
    ensures { IfOk result (λ found. found ≡ spec.found_of rows.now op n) }
{
    match rows.get(usize::from(n)) {
        None => Ok(Found::Nothing),
        Some(row) => found_in(alloc, op, row.finds.as_slice()),
    }
}

fn confirmed_in(
    alloc: Global,
    name: &[u8],
    confirms: &[Confirming],
) -> Result<Confirmed<Packed>, AllocError>
    ensures { IfOk result (λ confirmed. confirmed ≡ spec.confirmed_in name.now confirms.now) }
{
    for confirming in confirms {
        if confirming.name.as_slice() == name {
            return Ok(Confirmed::Step(packed_step(alloc, op_of(confirming.op), confirming.to)?));
        }
    }
    Ok(Confirmed::NotAStep)
}

/// The step of the state of a number that confirms a saved one of that name.
pub fn confirmed_of(
    alloc: Global,
    rows: &[Row],
    name: &[u8],
    n: u8,
) -> Result<Confirmed<Packed>, AllocError>
    ensures { IfOk result (λ confirmed. confirmed ≡ spec.confirmed_of rows.now name.now n) }
{
    match rows.get(usize::from(n)) {
        None => Ok(Confirmed::NotAStep),
        Some(row) => confirmed_in(alloc, name, row.confirms.as_slice()),
    }
}

/// The first row of a text.
pub fn formula_row<'a>(rows: &'a [FormulaRow], text: &[u8]) -> Option<&'a FormulaRow>
    ensures { option_copied result ≡ spec.formula_row rows.now text.now }
{
    for row in rows {
        if row.text.as_slice() == text {
            return Some(row);
        }
    }
    None
}

pub fn key_of(alloc: Global, row: &FormulaRow) -> Result<FormulaKey, AllocError>
    ensures { IfOk result (λ key. key ≡ spec.key_of row.now) }
{
    Ok(FormulaKey {
        text: SharedBytes::new(alloc, Items::from_slice(alloc, row.text.as_slice())?)?,
        predicate: row.predicate,
    })
}

/// What is listed of a formula for the state of a number.
fn listed_answer(row: Option<&FormulaRow>, n: u8) -> Option<Answered>
    ensures answer { result ≡ spec.listed_answer (option_copied row.entry) n }
    ensures small { SmallNumber result }
{
    let answered = *row?.answers.get(usize::from(n))?;
    Some(match answered {
        Answered::NotInitialised => Answered::NotInitialised,
        Answered::Fault(fault) => Answered::Fault(fault),
        Answered::Truth(b) => Answered::Truth(b),
        Answered::Number(n) => Answered::Number(n),
    })
}

fn answer_of(predicate: bool, answered: Option<Answered>) -> ValueAnswer
    ensures { result ≡ spec.answer_of predicate answered }
{
    match (predicate, answered) {
        (_, Some(Answered::Fault(fault))) => ValueAnswer::Fault(fault),
        (_, Some(Answered::Truth(b))) => ValueAnswer::Value {
            value: Value::Truth(b),
            bounded: false,
        },
        (false, Some(Answered::Number(n))) => ValueAnswer::Value {
            value: Value::Int(i128::from(n)),
            bounded: false,
        },
        _ => ValueAnswer::NotInitialised,
    }
}

/// The value of a formula in the state of a number.
pub fn value_of(formulas: &[FormulaRow], key: &FormulaKey, n: u8) -> ValueAnswer
    ensures answer { result ≡ spec.answer_of key.now.predicate (spec.listed_answer (spec.formula_row formulas.now key.now.text) n) }
    ensures small { SmallNumber (spec.listed_answer (spec.formula_row formulas.now key.now.text) n) }
{
    let row = formula_row(formulas, key.text.as_slice());
    answer_of(key.predicate, listed_answer(row, n))
}
