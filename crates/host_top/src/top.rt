// The top call: from the words to the status.
ghost use Rattle.std.specs.Prelude.{◌≡◌, ◌≤◌, ◌↔◌, [], ◌∷◌, ◌++◌, length, codes, map, IfOk, IfErr, IfSome, OnOk, OnErr, IsErrOf, string_bytes, vec_capacity};
ghost use Rattle.host_io.specs.Outside.{HasCause, Rose, behind_told, IsTooLong, IsToldDesk, SameTold};
ghost use Rattle.animator.specs.declared.model.End.TheVariants.{SourceFault, SinkFault, NoMemory};
ghost use Rattle.animator.specs.Names.{BeginsWithRoot, AreDistinct};
ghost use Rattle.host_top.specs.Asking.{asked_of, asked_by};
ghost use Rattle.host_top.specs.Summary.{session_line, states_line, summary};
ghost use Rattle.host_top.specs.Runs.{IsRun, SaysFront, SaysWhole, Says, IsRefused, ends_of};
ghost use Rattle.host_top.specs.Stops.{IsLoaded, HasStopCause, HasSummed, Ran, stop_status, stop_text, status_of};

use crate::asking::{Words, WordsFault, read_words};
use crate::driver::solo_session;
use crate::finish::{Finished, SessionEnd, push_session_line, push_states_line};
use crate::load::read_machine;
use crate::machine::Machine;
use crate::names::Names;
use crate::reader::give_all;
use animator::End;
use host_io::{CabinetFault, Desk, Failed, OpenFault, Opener, Sink};
use std::alloc::{AllocError, Global};
use std::sync::Wait;
use std::thread::Threads;

// How many bytes a document may have.
const MOST_DOCUMENT: u64 = 1_048_576;

/// Why a run ends before its sessions.
#[derive(Clone, Copy, Debug, PartialEq, Eq)]
pub enum Stop {
    NoMachine,
    TooLong,
    Refused,
    NoSession,
    Memory,
}

// The machine of that name.
fn load<O: Opener>(alloc: Global, name: &str, opener: &mut O) -> Result<Machine, Stop>
    ensures loaded { IfOk result (λ m. IsLoaded (O.document_of opener.old name.now) m) }
    ensures stopped { IfErr result (λ stop. HasStopCause (O.document_of opener.old name.now) (O.faults opener.old) (O.faults opener.new) stop) }
    ensures no_session { IsErrOf result Stop.NoSession → ⊥ }
    ensures later { O.faults opener.old ≤ O.faults opener.new }
    ensures sessions { SameTold (O.session_of opener.old) (O.session_of opener.new) }
{
    let text = match opener.document(alloc, name, MOST_DOCUMENT) {
        Ok(text) => text,
        Err(CabinetFault::Failed) => return Err(Stop::NoMachine),
        Err(CabinetFault::TooLong) => return Err(Stop::TooLong),
        Err(CabinetFault::Memory) => return Err(Stop::Memory),
    };
    match read_machine(alloc, &text) {
        Ok(Some(machine)) => Ok(machine),
        Ok(None) => Err(Stop::Refused),
        Err(AllocError) => Err(Stop::Memory),
    }
}

// Gives two texts.
fn say_both<K: Sink>(out: &mut K, text: &[u8], more: &[u8]) -> Result<(), Failed>
    ensures given { OnOk result (K.held out.new ≡ behind_told (K.held out.old) (text.now ++ more.now)) }
    ensures front { OnErr result (SaysFront (K.held out.old) (K.held out.new) (text.now ++ more.now)) }
    ensures cause { HasCause (K.faults out.old) (K.faults out.new) result }
{
    give_all(out, text)?;
    give_all(out, more)
}

// Gives a line of two texts.
fn say<K: Sink>(out: &mut K, text: &[u8], name: &[u8]) -> Result<(), Failed>
    ensures given { OnOk result (K.held out.new ≡ behind_told (K.held out.old) (text.now ++ name.now ++ codes "\n")) }
    ensures front { OnErr result (SaysFront (K.held out.old) (K.held out.new) (text.now ++ name.now ++ codes "\n")) }
    ensures cause { HasCause (K.faults out.old) (K.faults out.new) result }
{
    say_both(out, text, name)?;
    give_all(out, b"\n")
}

// The name of the one session.
fn session_name(words: &Words) -> &str
    requires { length words.now.sessions.items ≡ 1 }
    ensures { (asked_by words.now).sessions ≡ result.now ∷ [] }
{
    words.sessions[0].as_str()
}

/// What a run has before its first line: the machine, the desk of its session, and room for the session's end.
#[derive(Drop)]
struct Opened<O: Opener> {
    machine: Machine,
    desk: Desk<O::Source, O::Sink, O::Cabinet>,
    sessions: Vec<SessionEnd<O::Source, O::Sink, O::Cabinet>>,
}

fn open<O: Opener>(
    alloc: Global,
    machine: &str,
    session: &str,
    opener: &mut O,
) -> Result<Opened<O>, Stop>
    ensures loaded { IfOk result (λ opened. IsLoaded (O.document_of opener.old machine.now) opened.machine) }
    ensures desk { IfOk result (λ opened. IsToldDesk (O.session_of opener.old session.now) (O.Source.left opened.desk.source) (O.Sink.held opened.desk.sink) (O.Cabinet.told opened.desk.cabinet)) }
    ensures source_count { IfOk result (λ opened. O.Source.faults opened.desk.source ≡ 0) }
    ensures sink_count { IfOk result (λ opened. O.Sink.faults opened.desk.sink ≡ 0) }
    ensures none { IfOk result (λ opened. opened.sessions.items ≡ []) }
    ensures room { IfOk result (λ opened. 1 ≤ vec_capacity opened.sessions) }
    ensures stopped { IfErr result (λ stop. HasStopCause (O.document_of opener.old machine.now) (O.faults opener.old) (O.faults opener.new) stop) }
{
    let machine = load(alloc, machine, opener)?;
    let desk = match opener.session(alloc, session) {
        Ok(desk) => desk,
        Err(OpenFault::Failed) => return Err(Stop::NoSession),
        Err(OpenFault::Memory) => return Err(Stop::Memory),
    };
    match Vec::with_capacity(alloc, 1) {
        Ok(sessions) => Ok(Opened {
            machine,
            desk,
            sessions,
        }),
        Err(AllocError) => Err(Stop::Memory),
    }
}

fn stop_code(stop: Stop) -> u8
    ensures { result ≡ stop_status stop }
{
    match stop {
        Stop::NoMachine | Stop::NoSession => 3,
        Stop::TooLong => 7,
        Stop::Refused => 4,
        Stop::Memory => 1,
    }
}

// Says why the run ends before its sessions. A fault of out never replaces that cause.
fn say_stop<K: Sink>(out: &mut K, machine: &str, session: &str, stop: Stop)
    ensures { Says (K.held out.old) (K.held out.new) (K.faults out.old) (K.faults out.new) (stop_text machine.now session.now stop) }
{
    let _ = match stop {
        Stop::NoMachine => say(out, b"document ", machine.as_bytes()),
        Stop::TooLong => say(out, b"limit ", machine.as_bytes()),
        Stop::Refused => give_all(out, b"refused P0 machine:0\n"),
        Stop::NoSession => say(out, b"document ", session.as_bytes()),
        Stop::Memory => give_all(out, b"memory\n"),
    };
}

// A run of no session.
fn without_session<O: Opener>(alloc: Global, status: u8) -> Finished<O>
    ensures status { result.status ≡ status }
    ensures names { result.names ≡ [] }
    ensures sessions { result.sessions.items ≡ [] }
{
    Finished {
        status,
        names: Names::none(alloc),
        sessions: Vec::new(alloc),
    }
}

/// How the text of a run went out.
#[derive(Clone, Copy, Debug, PartialEq, Eq)]
pub enum Summed {
    Whole,
    Failed,
    Memory,
}

fn summary_text(
    alloc: Global,
    name: &str,
    end: End,
    lines: u64,
    marks: &[bool],
    count: u64,
) -> Result<Vec<u8>, AllocError>
    ensures { IfOk result (λ text. text.items ≡ session_line name.now end lines marks.now ++ states_line count) }
{
    let mut text = Vec::new(alloc);
    push_session_line(alloc, &mut text, name, end, lines, marks)?;
    push_states_line(alloc, &mut text, count)?;
    Ok(text)
}

// The summary goes out, after the run.
fn give_summary<K: Sink>(
    alloc: Global,
    out: &mut K,
    name: &str,
    end: End,
    lines: u64,
    marks: &[bool],
    count: u64,
) -> Summed
    ensures { HasSummed (K.held out.old) (K.held out.new) (K.faults out.old) (K.faults out.new) (session_line name.now end lines marks.now ++ states_line count) result }
{
    match summary_text(alloc, name, end, lines, marks, count) {
        Ok(text) => match give_all(out, &text) {
            Ok(()) => Summed::Whole,
            Err(Failed) => Summed::Failed,
        },
        Err(AllocError) => Summed::Memory,
    }
}

fn solo_status(end: End, summed: Summed) -> u8
    ensures { result ≡ status_of end summed }
{
    match (end, summed) {
        (_, Summed::Memory) => 1,
        (End::SourceFault | End::SinkFault | End::LineLimit, _) => 6,
        (_, Summed::Failed) => 5,
        (End::NoMemory, _) => 1,
        (End::Quit | End::EndOfInput, Summed::Whole) => 0,
    }
}

// One session over its desk, and its summary.
fn run_desk<O: Opener, K: Sink>(
    alloc: Global,
    session: &str,
    opened: Opened<O>,
    out: &mut K,
) -> Finished<O>
    requires none { opened.sessions.items ≡ [] }
    requires room { 1 ≤ vec_capacity opened.sessions }
    requires source_count { O.Source.faults opened.desk.source ≡ 0 }
    requires sink_count { O.Sink.faults opened.desk.sink ≡ 0 }
    ensures { Ran (O.Source.left opened.desk.source) (O.Sink.held opened.desk.sink) opened.machine session.now
        (record { held = K.held out.old; faults = K.faults out.old }) (record { held = K.held out.new; faults = K.faults out.new })
        (record { status = result.status; names = result.names; ends = ends_of O.Source.faults O.Sink.held O.Sink.faults result.sessions.items }) }
{
    let Opened {
        machine,
        desk,
        mut sessions,
    } = opened;
    let (ended, names) = solo_session(alloc, &machine, desk);
    let summed = give_summary(
        alloc,
        out,
        session,
        ended.end,
        ended.lines,
        ended.marks.as_slice(),
        names.len(),
    );
    let status = solo_status(ended.end, summed);
    sessions.push_reserved(ended);
    Finished {
        status,
        names,
        sessions,
    }
}

/// One session of one machine. The words ask for one session.
pub fn host_solo<O: Opener, K: Sink>(
    alloc: Global,
    words: &Words,
    opener: &mut O,
    out: &mut K,
) -> Finished<O>
    requires { length words.now.sessions.items ≡ 1 }
    ensures { IsRun (asked_by words.now)
        (record { documents = O.document_of opener.old; sessions = O.session_of opener.old; faults = O.faults opener.old; held = K.held out.old; out_faults = K.faults out.old })
        (record { documents = O.document_of opener.new; sessions = O.session_of opener.new; faults = O.faults opener.new; held = K.held out.new; out_faults = K.faults out.new })
        (record { status = result.status; names = result.names; ends = ends_of O.Source.faults O.Sink.held O.Sink.faults result.sessions.items }) }
{
    let machine = words.machine.as_str();
    let session = session_name(words);
    match open(alloc, machine, session, opener) {
        Ok(opened) => run_desk(alloc, session, opened, out),
        Err(stop) => {
            say_stop(out, machine, session, stop);
            without_session(alloc, stop_code(stop))
        }
    }
}

/// All that the program does: from the words of its command line to its status.
pub fn host<Rt: Threads + Wait + Sync, O: Opener, K: Sink>(
    _rt: &Rt,
    alloc: Global,
    words: &[String],
    opener: &mut O,
    out: &mut K,
) -> Finished<O>
    // 2 exactly where the words have no form of the program.
    ensures usage { (result.status ≡ 2) ↔ (asked_of (map (λ word. string_bytes word) words.now) ≡ None) }
    ensures says_usage { result.status ≡ 2 → Says (K.held out.old) (K.held out.new) (K.faults out.old) (K.faults out.new) (codes "usage\n") }
    ensures no_run { result.status ≡ 2 → (result.sessions.items ≡ []) × (result.names ≡ []) }

    // The private-animator theorem, and each other status with its cause and its text.
    ensures run { IfSome (asked_of (map (λ word. string_bytes word) words.now)) (λ asked. IsRun asked
        (record { documents = O.document_of opener.old; sessions = O.session_of opener.old; faults = O.faults opener.old; held = K.held out.old; out_faults = K.faults out.old })
        (record { documents = O.document_of opener.new; sessions = O.session_of opener.new; faults = O.faults opener.new; held = K.held out.new; out_faults = K.faults out.new })
        (record { status = result.status; names = result.names; ends = ends_of O.Source.faults O.Sink.held O.Sink.faults result.sessions.items })) }
{
    match read_words(alloc, words) {
        Ok(read) => host_solo(alloc, &read, opener, out),
        Err(WordsFault::Usage) => {
            // A fault of out never replaces the cause.
            let _ = give_all(out, b"usage\n");
            without_session(alloc, 2)
        }
        Err(WordsFault::Memory) => {
            let _ = give_all(out, b"memory\n");
            without_session(alloc, 1)
        }
    }
}
