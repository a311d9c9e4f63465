// What a command does to a session, and its reply.
ghost use Rattle.std.specs.Prelude.{◌≡◌, ◌≤◌, [], ◌++◌, ◌+◌, List, length, IfOk, OnOk, OnErr, IsOk, true};
ghost use Rattle.std.specs.Option.{option_copied};
ghost use Rattle.animator.specs.Names.{place, IsNamed, Extends, Covers, text_of};
ghost use Rattle.b_values.specs.declared.values.State.{State};
ghost use Rattle.animator.specs.Replies.{current, answer, added, back_from, taken, done, step_parts, numbered, kind_text, text_name, end_text, fault_text, lists_parts, line_said, step_of};
ghost use Rattle.animator.specs.Private.{takes_none};
ghost use Rattle.host_top.specs.Machines.{meaning_of, lists_of};
ghost use Rattle.host_top.specs.Sessions.{session_of, IsNumbered};
ghost use Rattle.host_top.specs.Writing.{Writes};

use crate::machine::Machine;
use crate::names::Names;
use crate::reply::ReplyText;
use crate::session::{Running, ShownStep};
use animator::{Command, ListEnd, OpList, Step};
use b_values::{EvalFault, FaultKind, Text};
use sqlite_items::Items;
use std::alloc::{AllocError, Global};

/// Writes the line of a step, whose state gets a number: the number.
fn write_step(
    alloc: Global,
    names: &mut Names,
    out: &mut ReplyText,
    step: &Step,
) -> Result<u64, AllocError>
    ensures named { OnOk result (IsNamed names.new step.now.dest) }
    ensures number { IfOk result (λ n. n ≡ place names.new step.now.dest) }
    ensures covers { OnOk result (Covers names.new (step_parts step.now)) }
    ensures text { OnOk result (out.new ≡ out.old ++ text_of names.new (step_parts step.now)) }
    ensures extends { Extends names.old names.new }
{
    let number = names.name(alloc, &step.dest)?;
    out.add(step.op.as_slice())?;
    out.add(b" : ")?;
    out.add_number(number)?;
    out.add(b"\n")?;
    Ok(number)
}

// Writes the lines of steps, numbered from `first` on: the number after the last.
fn write_steps(
    alloc: Global,
    names: &mut Names,
    out: &mut ReplyText,
    first: u64,
    steps: &[Step],
) -> Result<u64, AllocError>
    ensures next { IfOk result (λ k. k ≡ first + length steps.now) }
    ensures written { OnOk result (Writes names.old names.new out.old out.new (numbered first steps.now)) }
    ensures extends { Extends names.old names.new }
{
    let mut k = first;
    for step in steps {
        out.add_number(k)?;
        out.add(b" ")?;
        write_step(alloc, names, out, step)?;
        k = k.checked_add(1).ok_or(AllocError)?;
    }
    Ok(k)
}

fn kind_bytes(kind: FaultKind) -> &'static [u8]
    ensures { result.now ≡ kind_text kind }
{
    match kind {
        FaultKind::IllDefined => b"ill-defined",
        FaultKind::Overflow => b"overflow",
        FaultKind::TooLarge => b"too-large",
    }
}

fn text_bytes(text: Text) -> &'static [u8]
    ensures { result.now ≡ text_name text }
{
    match text {
        Text::Machine => b"machine",
        Text::Formula => b"formula",
    }
}

fn write_fault(out: &mut ReplyText, fault: EvalFault) -> Result<(), AllocError>
    ensures { OnOk result (out.new ≡ out.old ++ fault_text fault) }
{
    out.add(kind_bytes(fault.kind))?;
    out.add(b" ")?;
    out.add(text_bytes(fault.text))?;
    out.add(b":")?;
    out.add_number(fault.at)
}

// Writes the end of an operation's list.
fn write_end(out: &mut ReplyText, end: ListEnd) -> Result<(), AllocError>
    ensures { OnOk result (out.new ≡ out.old ++ end_text end) }
{
    match end {
        ListEnd::Complete => out.add(b" complete"),
        ListEnd::Reached => out.add(b" reached"),
        ListEnd::Fault(fault) => {
            out.add(b" fault ")?;
            write_fault(out, fault)
        }
    }
}

// Writes the steps of an operation's list, numbered from `first` on, and its end: the number after the last.
fn write_list(
    alloc: Global,
    names: &mut Names,
    out: &mut ReplyText,
    first: u64,
    list: &OpList,
) -> Result<u64, AllocError>
    ensures next { IfOk result (λ k. k ≡ first + length list.now.steps) }
    ensures written { OnOk result (Writes names.old names.new out.old out.new (numbered first list.now.steps ++ line_said (list.now.op ++ end_text list.now.end))) }
    ensures extends { Extends names.old names.new }
{
    let next = write_steps(alloc, names, out, first, list.steps.as_slice())?;
    out.add(list.op.as_slice())?;
    write_end(out, list.end)?;
    out.add(b"\n")?;
    Ok(next)
}

// Writes the lists of a state, their steps numbered through.
fn write_lists(
    alloc: Global,
    names: &mut Names,
    out: &mut ReplyText,
    lists: &[OpList],
) -> Result<(), AllocError>
    ensures written { OnOk result (Writes names.old names.new out.old out.new (lists_parts 1 lists.now)) }
    ensures extends { Extends names.old names.new }
{
    let mut k = 1u64;
    for list in lists {
        k = write_list(alloc, names, out, k, list)?;
    }
    Ok(())
}

/// The step that has this number in a reply.
fn step_numbered(lists: &[OpList], k: u64) -> Option<&Step>
    ensures { option_copied result ≡ step_of lists.now k }
{
    if k == 0 {
        return None;
    }
    let mut left = k - 1;
    for list in lists {
        let count = list.steps.len() as u64;
        if left < count {
            return list.steps.get(left as usize);
        }
        left -= count;
    }
    None
}

fn copy_step(alloc: Global, step: &Step) -> Result<Step, AllocError>
    ensures { IfOk result (λ copy. copy ≡ step.now) }
{
    Ok(Step {
        op: Items::from_slice(alloc, step.op.as_slice())?,
        dest: step.dest.copy(alloc)?,
    })
}

// Writes the lists that the current state offers.
fn answer_ops(
    alloc: Global,
    machine: &Machine,
    names: &mut Names,
    running: &Running,
    out: &mut ReplyText,
) -> Result<(), AllocError>
    ensures written { OnOk result (Writes names.old names.new out.old out.new (lists_parts 1 (lists_of machine.now (current (session_of running.now))) ++ done)) }
    ensures extends { Extends names.old names.new }
{
    let lists = running.lists(alloc, machine)?;
    write_lists(alloc, names, out, lists.as_slice())?;
    out.add(b"ok\n")
}

// Writes a step and adds it to the trace, unless memory refuses one of the two.
fn take_step(
    alloc: Global,
    names: &mut Names,
    running: &mut Running,
    out: &mut ReplyText,
    step: &Step,
) -> Result<(), AllocError>
    requires numbered { IsNumbered names.old running.old }
    ensures session { OnOk result (session_of running.new ≡ added (session_of running.old) step.now) }
    ensures refused { OnErr result (session_of running.new ≡ session_of running.old) }
    ensures written { OnOk result (Writes names.old names.new out.old out.new (step_parts step.now ++ done)) }
    ensures extends { Extends names.old names.new }
    ensures numbered { IsNumbered names.new running.new }
{
    let number = write_step(alloc, names, out, step)?;
    out.add(b"ok\n")?;
    let step = copy_step(alloc, step)?;
    running.reserve()?;
    running.add(ShownStep { step, number });
    Ok(())
}

// Takes the step of that number, where it is listed.
fn answer_take(
    alloc: Global,
    machine: &Machine,
    names: &mut Names,
    running: &mut Running,
    out: &mut ReplyText,
    k: u64,
) -> Result<(), AllocError>
    requires numbered { IsNumbered names.old running.old }
    requires empty { out.old ≡ [] }
    ensures session { OnOk result (session_of running.new ≡ (taken (session_of running.old) (step_of (lists_of machine.now (current (session_of running.old))) k)).session) }
    ensures refused { OnErr result (session_of running.new ≡ session_of running.old) }
    ensures written { OnOk result (Writes names.old names.new out.old out.new (taken (session_of running.old) (step_of (lists_of machine.now (current (session_of running.old))) k)).reply) }
    ensures extends { Extends names.old names.new }
    ensures numbered { IsNumbered names.new running.new }
{
    let lists = running.lists(alloc, machine)?;
    match step_numbered(lists.as_slice(), k) {
        Some(step) => take_step(alloc, names, running, out, step),
        None => {
            out.put(b"error E5 no-step\n");
            Ok(())
        }
    }
}

// Goes one step back. It takes no memory.
fn answer_back(running: &mut Running, out: &mut ReplyText)
    requires within { running.old.position ≤ length running.old.steps.items }
    requires empty { out.old ≡ [] }
    ensures session { session_of running.new ≡ (back_from (session_of running.old) running.old.position).session }
    ensures written { (names : List State) → IsNumbered names running.old → Writes names names out.old out.new (back_from (session_of running.old) running.old.position).reply }
    ensures numbered { (names : List State) → IsNumbered names running.old → IsNumbered names running.new }
{
    if running.position == 0 {
        out.put(b"error E9 at-start\n");
        return;
    }
    let position = running.position - 1;
    let number = running.number_at(position);
    running.position = position;
    out.put(b"state ");
    out.put_number(number);
    out.put(b"\nok\n");
}

/// Does what a command says, and writes its reply. Where memory refuses it, the session stays as it was; `back` and a
/// blank line are never refused.
pub fn answer_command(
    alloc: Global,
    machine: &Machine,
    names: &mut Names,
    running: &mut Running,
    out: &mut ReplyText,
    command: Command,
) -> Result<(), AllocError>
    requires numbered { IsNumbered names.old running.old }
    requires empty { out.old ≡ [] }
    ensures session { OnOk result (session_of running.new ≡ (answer (meaning_of machine.now) (session_of running.old) command).session) }
    ensures refused { OnErr result (session_of running.new ≡ session_of running.old) }
    ensures written { OnOk result (Writes names.old names.new out.old out.new (answer (meaning_of machine.now) (session_of running.old) command).reply) }
    ensures extends { Extends names.old names.new }
    ensures numbered { IsNumbered names.new running.new }
    ensures spared { takes_none command ≡ true → IsOk result }
{
    match command {
        Command::Blank => Ok(()),
        Command::Unknown => {
            out.put(b"error E1 command\n");
            Ok(())
        }
        Command::Ops => answer_ops(alloc, machine, names, running, out),
        Command::Take(k) => answer_take(alloc, machine, names, running, out, k),
        Command::Back => {
            answer_back(running, out);
            Ok(())
        }
    }
}
