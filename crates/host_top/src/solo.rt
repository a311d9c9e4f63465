// One session: its lines are taken from a source, and the replies go to a sink.
ghost use Rattle.std.specs.Prelude.{◌≡◌, ◌≤◌, [], ℕ, List, length, take, OnOk, OnErr, IfSome, vec_capacity, true, false};
ghost use Rattle.host_io.specs.Outside.{HasCause, Rose, Told, behind_told};
ghost use Rattle.animator.specs.Names.{Extends, Covers, BeginsWithRoot, text_of};
ghost use Rattle.animator.specs.Words.{command_of};
ghost use Rattle.animator.specs.Private.{line_answer, takes_none, IsAnimated};
ghost use Rattle.host_top.specs.Machines.{meaning_of};
ghost use Rattle.host_top.specs.Sessions.{session_of, IsNumbered};

use crate::answers::answer_command;
use crate::machine::Machine;
use crate::names::Names;
use crate::reader::{Taken, give_all, take_line};
use crate::reply::ReplyText;
use crate::session::Running;
use crate::words::read_command;
use animator::End;
use host_io::{Failed, Sink, Source};
use std::alloc::{AllocError, Global};

/// Whether memory refused a line, and whether its reply was given.
#[derive(Drop)]
pub struct LineEnd {
    pub marked: bool,
    pub given: Result<(), Failed>,
}

/// Answers a line. Memory may refuse it, and then it leaves the session as it was; it never refuses one whose reply takes
/// none.
pub fn answer_line<K: Sink>(
    alloc: Global,
    machine: &Machine,
    names: &mut Names,
    running: &mut Running,
    out: &mut ReplyText,
    line: &[u8],
    sink: &mut K,
) -> LineEnd
    requires { IsNumbered names.old running.old }
    ensures session { session_of running.new ≡ (line_answer (meaning_of machine.now) (session_of running.old) result.marked line.now).session }
    ensures named { Covers names.new (line_answer (meaning_of machine.now) (session_of running.old) result.marked line.now).reply }
    ensures text { OnOk result.given (K.held sink.new ≡ behind_told (K.held sink.old) (text_of names.new (line_answer (meaning_of machine.now) (session_of running.old) result.marked line.now).reply)) }
    ensures front { OnErr result.given ((n : ℕ) × (K.held sink.new ≡ behind_told (K.held sink.old) (take n (text_of names.new (line_answer (meaning_of machine.now) (session_of running.old) result.marked line.now).reply)))) }
    ensures extends { Extends names.old names.new }
    ensures numbered { IsNumbered names.new running.new }
    ensures spared { takes_none (command_of line.now) ≡ true → result.marked ≡ false }
    ensures cause { HasCause (K.faults sink.old) (K.faults sink.new) result.given }
{
    out.clear();
    match answer_command(alloc, machine, names, running, out, read_command(line)) {
        Ok(()) => LineEnd {
            marked: false,
            given: give_all(sink, out.as_slice()),
        },
        Err(AllocError) => LineEnd {
            marked: true,
            given: give_all(sink, b"error E23 memory\n"),
        },
    }
}

/// Answers the lines of a source of at most 65,536 bytes.
pub fn run_lines<S: Source, K: Sink>(
    alloc: Global,
    machine: &Machine,
    names: &mut Names,
    source: &mut S,
    sink: &mut K,
    line: &mut Vec<u8>,
    marks: &mut Vec<bool>,
    out: &mut ReplyText,
) -> End
    requires root { BeginsWithRoot names.old }
    requires line_room { 65536 ≤ vec_capacity line.old }
    requires marks_room { 65536 ≤ vec_capacity marks.old }
    requires no_marks { marks.old.items ≡ [] }
    ensures extends { Extends names.old names.new }
    ensures animated { IfSome (S.left source.old) (λ bytes. IfSome (K.held sink.old) (λ before.
        (documents : List ℕ → Told (List ℕ)) → IsAnimated (meaning_of machine.now) names.new (record { source = bytes; sink = before; documents = documents })
        (record { end = result; lines = length marks.new.items; marks = marks.new.items; held = K.held sink.new; source_faults = S.faults source.new; sink_faults = K.faults sink.new }))) }
    ensures root { BeginsWithRoot names.new }
    ensures source_later { S.faults source.old ≤ S.faults source.new }
    ensures sink_later { K.faults sink.old ≤ K.faults sink.new }
    ensures source_fault { result ≡ End.SourceFault → Rose (S.faults source.old) (S.faults source.new) }
    ensures sink_fault { result ≡ End.SinkFault → Rose (K.faults sink.old) (K.faults sink.new) }
    ensures ends { (result ≡ End.Quit → ⊥) × (result ≡ End.NoMemory → ⊥) }
{
    let mut running = Running::new(alloc);
    let mut room = 65_536u32;
    loop {
        let taken = take_line(source, line, &mut room);
        match taken {
            Taken::Fault => return End::SourceFault,
            Taken::Limit => return End::LineLimit,
            Taken::Line => {
                let answered = answer_line(alloc, machine, names, &mut running, out, line, sink);
                marks.push_reserved(answered.marked);
                if answered.given.is_err() {
                    return End::SinkFault;
                }
            }
            Taken::End => {
                if line.is_empty() {
                    return End::EndOfInput;
                }
                let answered = answer_line(alloc, machine, names, &mut running, out, line, sink);
                marks.push_reserved(answered.marked);
                if answered.given.is_err() {
                    return End::SinkFault;
                }
                return End::EndOfInput;
            }
        }
    }
}
