// Writes the parts of replies: refusals, faults, answers, steps.
ghost use Rattle.std.specs.Prelude.{◌≡◌, ◌<◌, ◌+◌, ◌++◌, length, codes, OnOk, OnErr};
ghost use Rattle.std.specs.Fmt.{decimal};
ghost use Rattle.b_values.specs.Texts.{text_of, commas};
ghost use Rattle.session_words.specs.Texts.{place_text, kind_text, text_name, fault_text, fault_code, refusal_text, bounded_mark, end_text, shown_value, answer_by};
ghost use Rattle.session_words.specs.Replies.{op_name, values_text, results_text, params_text};

use crate::text::ReplyText;
use crate::values::{add_inside, add_value, add_values};
use b_values::{EvalFault, Face, FaultKind, OpId, Text, Value};
use engine_face::{ListEnd, ValueAnswer};
use session_words::Refusal;
use std::alloc::AllocError;

fn kind_bytes(kind: FaultKind) -> &'static [u8]
    ensures { result.now ≡ kind_text kind }
{
    match kind {
        FaultKind::IllDefined => b"ill-defined",
        FaultKind::Overflow => b"overflow",
        FaultKind::TooLarge => b"too-large",
    }
}

fn code_bytes(kind: FaultKind) -> &'static [u8]
    ensures { result.now ≡ fault_code kind }
{
    match kind {
        FaultKind::IllDefined => b"E6 ",
        FaultKind::Overflow => b"E7 ",
        FaultKind::TooLarge => b"E8 ",
    }
}

fn text_bytes(text: Text) -> &'static [u8]
    ensures { result.now ≡ text_name text }
{
    match text {
        Text::Machine => b"machine:",
        Text::Formula => b"formula:",
    }
}

fn add_fault(out: &mut ReplyText, fault: EvalFault) -> Result<(), AllocError>
    ensures added { OnOk result (out.new ≡ out.old ++ fault_text fault) }
    ensures long { OnErr result (64 < length out.old + length (fault_text fault)) }
{
    out.add(kind_bytes(fault.kind))?;
    out.add(b" ")?;
    out.add(text_bytes(fault.text))?;
    out.add_number(fault.at)
}

// A text and the number of an entry.
fn add_entry(out: &mut ReplyText, text: &[u8], entry: u64) -> Result<(), AllocError>
    ensures added { OnOk result (out.new ≡ out.old ++ (text.now ++ decimal entry)) }
    ensures long { OnErr result (64 < length out.old + length (text.now ++ decimal entry)) }
{
    out.add(text)?;
    out.add_number(entry)
}

fn add_coded(out: &mut ReplyText, fault: EvalFault) -> Result<(), AllocError>
    ensures added { OnOk result (out.new ≡ out.old ++ (fault_code fault.kind ++ fault_text fault)) }
    ensures long { OnErr result (64 < length out.old + length (fault_code fault.kind ++ fault_text fault)) }
{
    out.add(code_bytes(fault.kind))?;
    add_fault(out, fault)
}

pub(crate) fn add_refusal(out: &mut ReplyText, refusal: Refusal) -> Result<(), AllocError>
    ensures added { OnOk result (out.new ≡ out.old ++ refusal_text refusal) }
    ensures long { OnErr result (64 < length out.old + length (refusal_text refusal)) }
{
    match refusal {
        Refusal::LineTooLong => out.add(b"E22 line-too-long"),
        Refusal::NoCommand => out.add(b"E1 command"),
        Refusal::AtStart => out.add(b"E9 at-start"),
        Refusal::AtEnd => out.add(b"E10 at-end"),
        Refusal::NoPosition => out.add(b"E11 no-position"),
        Refusal::NotShown => out.add(b"E12 not-shown"),
        Refusal::NoSub => out.add(b"E16 no-sub"),
        Refusal::NoKept => out.add(b"E18 no-kept"),
        Refusal::NoEvent => out.add(b"E24 no-event"),
        Refusal::KeptFull => out.add(b"E17 kept-full"),
        Refusal::UnknownName => out.add(b"E4 unknown-name"),
        Refusal::Syntax => out.add(b"E2 syntax"),
        Refusal::WrongType => out.add(b"E3 type"),
        Refusal::SubsFull => out.add(b"E15 subs-full"),
        Refusal::Document => out.add(b"E19 document"),
        Refusal::TraceFile => out.add(b"E20 trace-file"),
        Refusal::PostForm(entry) => add_entry(out, b"E25 post-form ", entry),
        Refusal::NotInitialised => out.add(b"E13 not-initialised"),
        Refusal::Fault(fault) => add_coded(out, fault),
        Refusal::NoStep => out.add(b"E5 no-step"),
        Refusal::TraceFull => out.add(b"E14 trace-full"),
        Refusal::NotAStep(entry) => add_entry(out, b"E21 not-a-step ", entry),
        Refusal::Memory => out.add(b"E23 memory"),
    }
}

pub(crate) fn add_mark(out: &mut ReplyText, bounded: bool) -> Result<(), AllocError>
    ensures added { OnOk result (out.new ≡ out.old ++ bounded_mark bounded) }
    ensures long { OnErr result (64 < length out.old + length (bounded_mark bounded)) }
{
    if bounded {
        out.add(b" bounded")
    } else {
        Ok(())
    }
}

// The value of an item: of a string what stands between its quotes.
fn add_shown(out: &mut ReplyText, face: &Face, v: &Value) -> Result<(), AllocError>
    ensures added { OnOk result (out.new ≡ out.old ++ shown_value face.now v.now) }
    ensures long { OnErr result (64 < length out.old + length (shown_value face.now v.now)) }
{
    match v {
        Value::Text(s) => add_inside(out, s.get().as_slice()),
        _ => add_value(out, face.sets.as_slice(), v),
    }
}

fn add_fault_answer(out: &mut ReplyText, fault: EvalFault) -> Result<(), AllocError>
    ensures added { OnOk result (out.new ≡ out.old ++ (codes "fault " ++ fault_text fault)) }
    ensures long { OnErr result (64 < length out.old + length (codes "fault " ++ fault_text fault)) }
{
    out.add(b"fault ")?;
    add_fault(out, fault)
}

fn add_value_answer(
    out: &mut ReplyText,
    face: &Face,
    value: &Value,
    bounded: bool,
) -> Result<(), AllocError>
    ensures added { OnOk result (out.new ≡ out.old ++ (text_of face.now.sets value.now ++ bounded_mark bounded)) }
    ensures long { OnErr result (64 < length out.old + length (text_of face.now.sets value.now ++ bounded_mark bounded)) }
{
    add_value(out, face.sets.as_slice(), value)?;
    add_mark(out, bounded)
}

fn add_shown_answer(
    out: &mut ReplyText,
    face: &Face,
    value: &Value,
    bounded: bool,
) -> Result<(), AllocError>
    ensures added { OnOk result (out.new ≡ out.old ++ (shown_value face.now value.now ++ bounded_mark bounded)) }
    ensures long { OnErr result (64 < length out.old + length (shown_value face.now value.now ++ bounded_mark bounded)) }
{
    add_shown(out, face, value)?;
    add_mark(out, bounded)
}

pub(crate) fn add_answer(
    out: &mut ReplyText,
    face: &Face,
    answer: &ValueAnswer,
) -> Result<(), AllocError>
    ensures added { OnOk result (out.new ≡ out.old ++ answer_by (text_of face.now.sets) answer.now) }
    ensures long { OnErr result (64 < length out.old + length (answer_by (text_of face.now.sets) answer.now)) }
{
    match answer {
        ValueAnswer::NotInitialised => out.add(b"not-initialised"),
        ValueAnswer::Fault(fault) => add_fault_answer(out, *fault),
        ValueAnswer::Value { value, bounded } => add_value_answer(out, face, value, *bounded),
    }
}

pub(crate) fn add_item_answer(
    out: &mut ReplyText,
    face: &Face,
    answer: &ValueAnswer,
) -> Result<(), AllocError>
    ensures added { OnOk result (out.new ≡ out.old ++ answer_by (shown_value face.now) answer.now) }
    ensures long { OnErr result (64 < length out.old + length (answer_by (shown_value face.now) answer.now)) }
{
    match answer {
        ValueAnswer::NotInitialised => out.add(b"not-initialised"),
        ValueAnswer::Fault(fault) => add_fault_answer(out, *fault),
        ValueAnswer::Value { value, bounded } => add_shown_answer(out, face, value, *bounded),
    }
}

pub(crate) fn add_end(out: &mut ReplyText, end: ListEnd) -> Result<(), AllocError>
    ensures added { OnOk result (out.new ≡ out.old ++ end_text end) }
    ensures long { OnErr result (64 < length out.old + length (end_text end)) }
{
    match end {
        ListEnd::Complete => out.add(b" complete"),
        ListEnd::Reached => out.add(b" reached"),
        ListEnd::Fault(fault) => {
            out.add(b" ")?;
            add_fault_answer(out, fault)
        }
    }
}

pub(crate) fn add_op(out: &mut ReplyText, face: &Face, op: OpId) -> Result<(), AllocError>
    ensures added { OnOk result (out.new ≡ out.old ++ op_name face.now op) }
    ensures long { OnErr result (64 < length out.old + length (op_name face.now op)) }
{
    match op {
        OpId::Setup => out.add(b"$setup_constants"),
        OpId::Init => out.add(b"$initialise_machine"),
        OpId::Op(n) => match face.ops.get(n as usize) {
            Some(op) => out.add(op.name.as_slice()),
            None => Ok(()),
        },
    }
}

fn add_some_results(out: &mut ReplyText, face: &Face, values: &[Value]) -> Result<(), AllocError>
    ensures added { OnOk result (out.new ≡ out.old ++ (values_text face.now values.now ++ codes " <-- ")) }
    ensures long { OnErr result (64 < length out.old + length (values_text face.now values.now ++ codes " <-- ")) }
{
    add_values(out, face.sets.as_slice(), values)?;
    out.add(b" <-- ")
}

pub(crate) fn add_results(
    out: &mut ReplyText,
    face: &Face,
    values: &[Value],
) -> Result<(), AllocError>
    ensures added { OnOk result (out.new ≡ out.old ++ results_text face.now values.now) }
    ensures long { OnErr result (64 < length out.old + length (results_text face.now values.now)) }
{
    match values {
        [] => Ok(()),
        [_, ..] => add_some_results(out, face, values),
    }
}

fn add_some_params(out: &mut ReplyText, face: &Face, values: &[Value]) -> Result<(), AllocError>
    ensures added { OnOk result (out.new ≡ out.old ++ (codes "(" ++ values_text face.now values.now ++ codes ")")) }
    ensures long { OnErr result (64 < length out.old + length (codes "(" ++ values_text face.now values.now ++ codes ")")) }
{
    out.add(b"(")?;
    add_values(out, face.sets.as_slice(), values)?;
    out.add(b")")
}

pub(crate) fn add_params(
    out: &mut ReplyText,
    face: &Face,
    values: &[Value],
) -> Result<(), AllocError>
    ensures added { OnOk result (out.new ≡ out.old ++ params_text face.now values.now) }
    ensures long { OnErr result (64 < length out.old + length (params_text face.now values.now)) }
{
    match values {
        [] => Ok(()),
        [_, ..] => add_some_params(out, face, values),
    }
}
