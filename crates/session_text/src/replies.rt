// Writes replies, line by line.
ghost use Rattle.std.specs.Prelude.{◌≡◌, ◌<◌, ◌≤◌, ◌^◌, ◌+◌, ◌++◌, length, drop, codes, flat_map, Some, OnOk, OnErr, IfOk, IsOk};
ghost use Rattle.std.specs.Fmt.{decimal};
ghost use Rattle.b_values.specs.Texts.{text_of};
ghost use Rattle.session_words.specs.Texts.{line, refusal_text, bounded_mark, end_text};
ghost use Rattle.session_words.specs.Replies.{op_name, named_values, sub_line, sub_text, item_line, position_line, state_line, step_line, step_lines, list_lines, state_lines, sub_lines, trace_lines, reply_lines, truth_text};
ghost use Rattle.session_text.specs.Writing.{text_of_reply, IsWritten, its_number};
ghost use Rattle.session_text.specs.Brief.{IsBrief};

use crate::parts::{
    add_answer, add_end, add_item_answer, add_mark, add_op, add_params, add_refusal, add_results,
};
use crate::text::ReplyText;
use crate::values::{add_truth, add_value};
use b_values::{Face, NameFace, Value};
use engine_face::{OpList, Step};
use itoa::Buffer;
use session_words::{ItemValue, Numbered, Refusal, Reply, SubText, SubValue};
use shared::Shared;
use std::alloc::{AllocError, Global};

// A line of a text, a number and an end.
fn add_counted(out: &mut ReplyText, text: &[u8], n: u64) -> Result<(), AllocError>
    ensures added { OnOk result (out.new ≡ out.old ++ line (text.now ++ decimal n)) }
    ensures long { OnErr result (64 < length out.old + length (line (text.now ++ decimal n))) }
{
    out.add(text)?;
    out.add_number(n)?;
    out.add(b"\n")
}

fn add_position(out: &mut ReplyText, position: u64, len: u64) -> Result<(), AllocError>
    ensures added { OnOk result (out.new ≡ out.old ++ position_line position len) }
    ensures long { OnErr result (64 < length out.old + length (position_line position len)) }
{
    out.add(b"position ")?;
    out.add_number(position)?;
    out.add(b" of ")?;
    out.add_number(len)?;
    out.add(b"\n")
}

// `RESULTS <-- NAME(PARAMS) : ID`.
fn add_step(out: &mut ReplyText, face: &Face, step: &Step<Numbered>) -> Result<(), AllocError>
    ensures added { OnOk result (out.new ≡ out.old ++ step_line face.now its_number step.now) }
    ensures long { OnErr result (64 < length out.old + length (step_line face.now its_number step.now)) }
{
    add_results(out, face, step.results.as_slice())?;
    add_op(out, face, step.op)?;
    add_params(out, face, step.params.as_slice())?;
    add_counted(out, b" : ", step.dest.number)
}

fn add_wide(out: &mut ReplyText, n: u128) -> Result<(), AllocError>
    ensures added { OnOk result (out.new ≡ out.old ++ decimal n) }
    ensures long { OnErr result (64 < length out.old + length (decimal n)) }
{
    let mut buffer = Buffer::new();
    out.add(buffer.format(n).as_bytes())
}

// `K STEP`.
fn add_numbered(
    out: &mut ReplyText,
    face: &Face,
    k: u128,
    step: &Step<Numbered>,
) -> Result<(), AllocError>
    ensures added { OnOk result (out.new ≡ out.old ++ (decimal k ++ codes " " ++ step_line face.now its_number step.now)) }
    ensures long { OnErr result (64 < length out.old + length (decimal k ++ codes " " ++ step_line face.now its_number step.now)) }
{
    add_wide(out, k)?;
    out.add(b" ")?;
    add_step(out, face, step)
}

// Steps, counted from 1 on.
fn add_trace_steps(
    out: &mut ReplyText,
    face: &Face,
    steps: &[Shared<Step<Numbered>>],
) -> Result<(), AllocError>
    ensures added { OnOk result (out.new ≡ out.old ++ step_lines face.now its_number 1 steps.now) }
    ensures long { OnErr result (64 < length out.old + length (step_lines face.now its_number 1 steps.now)) }
{
    let mut k = 1u128;
    for step in steps {
        add_numbered(out, face, k, step.get())?;
        k += 1;
    }
    Ok(())
}

// Steps of a list, counted from `first` on: the number behind the last.
fn add_list_steps(
    out: &mut ReplyText,
    face: &Face,
    first: u128,
    steps: &[Step<Numbered>],
) -> Result<u128, AllocError>
    requires { first ≤ 2 ^ 127 + 1 }
    ensures next { IfOk result (λ k. k ≡ first + length steps.now) }
    ensures added { OnOk result (out.new ≡ out.old ++ step_lines face.now its_number first steps.now) }
    ensures long { OnErr result (64 < length out.old + length (step_lines face.now its_number first steps.now)) }
{
    let mut k = first;
    for step in steps {
        add_numbered(out, face, k, step)?;
        k += 1;
    }
    Ok(k)
}

// The name of an operation and how its list ends.
fn add_list_end(out: &mut ReplyText, face: &Face, list: &OpList<Numbered>) -> Result<(), AllocError>
    ensures added { OnOk result (out.new ≡ out.old ++ line (op_name face.now list.now.op ++ end_text list.now.end)) }
    ensures long { OnErr result (64 < length out.old + length (line (op_name face.now list.now.op ++ end_text list.now.end))) }
{
    add_op(out, face, list.op)?;
    add_end(out, list.end)?;
    out.add(b"\n")
}

// The steps of lists, counted through, and how each list ends.
fn add_lists(out: &mut ReplyText, face: &Face, lists: &[OpList<Numbered>]) -> Result<(), AllocError>
    ensures added { OnOk result (out.new ≡ out.old ++ list_lines face.now its_number 1 lists.now) }
    ensures long { OnErr result (64 < length out.old + length (list_lines face.now its_number 1 lists.now)) }
{
    let mut k = 1u128;
    for list in lists {
        k = add_list_steps(out, face, k, list.steps.as_slice())?;
        add_list_end(out, face, list)?;
    }
    Ok(())
}

fn add_named_value(
    out: &mut ReplyText,
    face: &Face,
    name: &NameFace,
    v: &Value,
) -> Result<(), AllocError>
    ensures added { OnOk result (out.new ≡ out.old ++ line (name.now.name ++ codes " = " ++ text_of face.now.sets v.now)) }
    ensures long { OnErr result (64 < length out.old + length (line (name.now.name ++ codes " = " ++ text_of face.now.sets v.now))) }
{
    out.add(name.name.as_slice())?;
    out.add(b" = ")?;
    add_value(out, face.sets.as_slice(), v)?;
    out.add(b"\n")
}

// `NAME = VALUE` for each name that has a value.
fn add_named(
    out: &mut ReplyText,
    face: &Face,
    names: &[NameFace],
    values: &[Value],
) -> Result<(), AllocError>
    ensures added { OnOk result (out.new ≡ out.old ++ named_values face.now names.now values.now) }
    ensures long { OnErr result (64 < length out.old + length (named_values face.now names.now values.now)) }
{
    let mut rest = names;
    let mut left = values;
    while let [name, more @ ..] = rest {
        let [v, behind @ ..] = left else {
            return Ok(());
        };
        add_named_value(out, face, name, v)?;
        rest = more;
        left = behind;
    }
    Ok(())
}

// What stands behind the first values, if anything.
fn behind(values: &[Value], count: usize) -> &[Value]
    ensures { result.now ≡ drop count values.now }
{
    if count < values.len() {
        let (_, rest) = values.split_at(count);
        rest
    } else {
        &[]
    }
}

fn add_state(out: &mut ReplyText, face: &Face, values: &[Value]) -> Result<(), AllocError>
    ensures added { OnOk result (out.new ≡ out.old ++ state_lines face.now its_number (Some values.now)) }
    ensures long { OnErr result (64 < length out.old + length (state_lines face.now its_number (Some values.now))) }
{
    let count = face.constants.len();
    add_named(out, face, face.constants.as_slice(), values)?;
    add_named(out, face, face.variables.as_slice(), behind(values, count))
}

fn add_sub(out: &mut ReplyText, face: &Face, sub: &SubValue) -> Result<(), AllocError>
    ensures added { OnOk result (out.new ≡ out.old ++ sub_line face.now sub.now) }
    ensures long { OnErr result (64 < length out.old + length (sub_line face.now sub.now)) }
{
    out.add(b"sub ")?;
    out.add_number(sub.number)?;
    out.add(b" = ")?;
    add_answer(out, face, sub.answer.get())?;
    out.add(b"\n")
}

fn add_subs(out: &mut ReplyText, face: &Face, subs: &[SubValue]) -> Result<(), AllocError>
    ensures added { OnOk result (out.new ≡ out.old ++ flat_map (sub_line face.now) subs.now) }
    ensures long { OnErr result (64 < length out.old + length (flat_map (sub_line face.now) subs.now)) }
{
    for sub in subs {
        add_sub(out, face, sub)?;
    }
    Ok(())
}

fn add_sub_text(out: &mut ReplyText, sub: &SubText) -> Result<(), AllocError>
    ensures added { OnOk result (out.new ≡ out.old ++ sub_text sub.now) }
    ensures long { OnErr result (64 < length out.old + length (sub_text sub.now)) }
{
    out.add(b"sub ")?;
    out.add_number(sub.number)?;
    out.add(b" ")?;
    out.add(sub.text.as_slice())?;
    out.add(b"\n")
}

fn add_sub_texts(out: &mut ReplyText, subs: &[SubText]) -> Result<(), AllocError>
    ensures added { OnOk result (out.new ≡ out.old ++ flat_map sub_text subs.now) }
    ensures long { OnErr result (64 < length out.old + length (flat_map sub_text subs.now)) }
{
    for sub in subs {
        add_sub_text(out, sub)?;
    }
    Ok(())
}

fn add_item(out: &mut ReplyText, face: &Face, item: &ItemValue) -> Result<(), AllocError>
    ensures added { OnOk result (out.new ≡ out.old ++ item_line face.now item.now) }
    ensures long { OnErr result (64 < length out.old + length (item_line face.now item.now)) }
{
    out.add(b"item ")?;
    out.add(item.id.get().as_slice())?;
    out.add(b" ")?;
    out.add(item.attr.get().as_slice())?;
    out.add(b" = ")?;
    add_item_answer(out, face, item.answer.get())?;
    out.add(b"\n")
}

fn add_items(out: &mut ReplyText, face: &Face, items: &[ItemValue]) -> Result<(), AllocError>
    ensures added { OnOk result (out.new ≡ out.old ++ flat_map (item_line face.now) items.now) }
    ensures long { OnErr result (64 < length out.old + length (flat_map (item_line face.now) items.now)) }
{
    for item in items {
        add_item(out, face, item)?;
    }
    Ok(())
}

fn add_walk(
    out: &mut ReplyText,
    face: &Face,
    steps: &[Shared<Step<Numbered>>],
) -> Result<(), AllocError>
    ensures added { OnOk result (out.new ≡ out.old ++ flat_map (step_line face.now its_number) steps.now) }
    ensures long { OnErr result (64 < length out.old + length (flat_map (step_line face.now its_number) steps.now)) }
{
    for step in steps {
        add_step(out, face, step.get())?;
    }
    Ok(())
}

fn add_info(
    out: &mut ReplyText,
    face: &Face,
    state: &Numbered,
    position: u64,
    len: u64,
) -> Result<(), AllocError>
    ensures added { OnOk result (out.new ≡ out.old ++ (line (codes "machine " ++ face.now.name) ++ state_line face.now its_number state.now ++ position_line position len)) }
    ensures long { OnErr result (64 < length out.old + length (line (codes "machine " ++ face.now.name) ++ state_line face.now its_number state.now ++ position_line position len)) }
{
    out.add(b"machine ")?;
    out.add(face.name.as_slice())?;
    out.add(b"\n")?;
    add_counted(out, b"state ", state.number)?;
    add_position(out, position, len)?;
    Ok(())
}

fn add_trace(
    out: &mut ReplyText,
    face: &Face,
    position: u64,
    steps: &[Shared<Step<Numbered>>],
) -> Result<(), AllocError>
    ensures added { OnOk result (out.new ≡ out.old ++ trace_lines face.now its_number position steps.now) }
    ensures long { OnErr result (64 < length out.old + length (trace_lines face.now its_number position steps.now)) }
{
    add_position(out, position, steps.len() as u64)?;
    add_trace_steps(out, face, steps)
}

fn add_evaluated(
    out: &mut ReplyText,
    face: &Face,
    v: &Value,
    bounded: bool,
) -> Result<(), AllocError>
    ensures added { OnOk result (out.new ≡ out.old ++ line (codes "value " ++ text_of face.now.sets v.now ++ bounded_mark bounded)) }
    ensures long { OnErr result (64 < length out.old + length (line (codes "value " ++ text_of face.now.sets v.now ++ bounded_mark bounded))) }
{
    out.add(b"value ")?;
    add_value(out, face.sets.as_slice(), v)?;
    add_mark(out, bounded)?;
    out.add(b"\n")
}

fn add_invariant(out: &mut ReplyText, holds: bool, bounded: bool) -> Result<(), AllocError>
    ensures added { OnOk result (out.new ≡ out.old ++ line (codes "invariant " ++ truth_text holds ++ bounded_mark bounded)) }
    ensures long { OnErr result (64 < length out.old + length (line (codes "invariant " ++ truth_text holds ++ bounded_mark bounded))) }
{
    out.add(b"invariant ")?;
    add_truth(out, holds)?;
    add_mark(out, bounded)?;
    out.add(b"\n")
}

fn add_lines(out: &mut ReplyText, face: &Face, reply: &Reply<Numbered>) -> Result<(), AllocError>
    ensures added { OnOk result (out.new ≡ out.old ++ reply_lines face.now its_number reply.now) }
    ensures long { OnErr result (64 < length out.old + length (reply_lines face.now its_number reply.now)) }
{
    match reply {
        Reply::Silent => Ok(()),
        Reply::Done => Ok(()),
        Reply::Info {
            state,
            position,
            length,
        } => add_info(out, face, state, *position, *length),
        Reply::Lists(list) => add_lists(out, face, list.lists.as_slice()),
        Reply::Added { step, subs } => {
            add_step(out, face, step.get())?;
            add_subs(out, face, subs.as_slice())
        }
        Reply::Moved { state, subs } => {
            add_counted(out, b"state ", state.number)?;
            add_subs(out, face, subs.as_slice())
        }
        Reply::Trace { position, steps } => add_trace(out, face, *position, steps.as_slice()),
        Reply::State { state, values } => {
            add_counted(out, b"state ", state.number)?;
            match values {
                Some(values) => add_state(out, face, values.as_slice()),
                None => out.add(b"root\n"),
            }
        }
        Reply::Value { value, bounded } => add_evaluated(out, face, value, *bounded),
        Reply::Subscribed(sub) => add_sub(out, face, sub),
        Reply::Subscriptions(subs) => add_sub_texts(out, subs.as_slice()),
        Reply::Invariant { holds, bounded } => add_invariant(out, *holds, *bounded),
        Reply::Saved(len) => add_counted(out, b"saved ", *len),
        Reply::Migrated(len) => add_counted(out, b"migrated ", *len),
        Reply::Replayed { steps, subs } => {
            add_trace(out, face, steps.len() as u64, steps.as_slice())?;
            add_subs(out, face, subs.as_slice())
        }
        Reply::VisbItems(items) => add_items(out, face, items.as_slice()),
        Reply::Walked { steps, subs } => {
            add_walk(out, face, steps.as_slice())?;
            add_subs(out, face, subs.as_slice())
        }
        Reply::Refused(_) => Ok(()),
    }
}

fn add_error(out: &mut ReplyText, refusal: Refusal) -> Result<(), AllocError>
    ensures added { OnOk result (out.new ≡ out.old ++ line (codes "error " ++ refusal_text refusal)) }
    ensures long { OnErr result (64 < length out.old + length (line (codes "error " ++ refusal_text refusal))) }
{
    out.add(b"error ")?;
    add_refusal(out, refusal)?;
    out.add(b"\n")
}

fn add_reply(out: &mut ReplyText, face: &Face, reply: &Reply<Numbered>) -> Result<(), AllocError>
    ensures added { OnOk result (out.new ≡ out.old ++ text_of_reply face.now reply.now) }
    ensures long { OnErr result (64 < length out.old + length (text_of_reply face.now reply.now)) }
{
    match reply {
        Reply::Silent => Ok(()),
        Reply::Refused(refusal) => add_error(out, *refusal),
        _ => {
            add_lines(out, face, reply)?;
            out.add(b"ok\n")
        }
    }
}

/// The text of a reply. A text of at most 64 bytes takes no memory; errors, a lone `ok` and a state alone are such.
pub fn write_reply(
    alloc: Global,
    face: &Face,
    reply: &Reply<Numbered>,
) -> Result<ReplyText, AllocError>
    ensures text { IsWritten (text_of_reply face.now reply.now) result }
    ensures brief { IsBrief reply.now → IsOk result }
{
    let mut out = ReplyText::new(alloc);
    match add_reply(&mut out, face, reply) {
        Ok(()) => Ok(out),
        Err(AllocError) => Err(AllocError),
    }
}

fn add_moved(out: &mut ReplyText, number: u64) -> Result<(), AllocError>
    ensures added { OnOk result (out.new ≡ out.old ++ (line (codes "state " ++ decimal number) ++ line (codes "ok"))) }
    ensures long { OnErr result (64 < length out.old + length (line (codes "state " ++ decimal number) ++ line (codes "ok"))) }
{
    add_counted(out, b"state ", number)?;
    out.add(b"ok\n")
}

/// The text of a reply that tells a state alone, by its number. It takes no memory.
pub fn write_moved(alloc: Global, number: u64) -> ReplyText
    ensures { result ≡ line (codes "state " ++ decimal number) ++ line (codes "ok") }
{
    let mut out = ReplyText::new(alloc);
    match add_moved(&mut out, number) {
        Ok(()) => out,
        Err(AllocError) => ReplyText::new(alloc),
    }
}
