// Whole runs over the forms in memory.
use animator::End;
use host_io::{Failed, MemDocument, MemOpener, MemSession, MemSink, Sink};
use host_top::{Finished, Form, Names, host, host_solo, machine_is_unique, read_words};
use sqlite_items::Items;
use std::alloc::{AllocError, Global};
use std::process::Abort;
use std::sync::Wait;
use std::test::Fail;
use std::thread::Threads;

mod faults;
mod limits;
mod memory;
mod texts;

// The machine and the session of the worked row.
const COUNTER: &[u8] =
    b"MACHINE A VARIABLES x INVARIANT x : INTEGER INITIALISATION x := 5 OPERATIONS inc = x := x + 2; big = x := x + 170141183460469231731687303715884105727 END";

const LINES: &[u8] = b"back\nops\nstep 1\nops\nstep 2\nstep 1\nback\n";

// The replies to its lines.
const REPLIES: [&[u8]; 7] = [
    b"error E9 at-start\n",
    b"1 $initialise_machine : 1\n$initialise_machine complete\nok\n",
    b"$initialise_machine : 1\nok\n",
    b"1 inc : 2\ninc complete\nbig fault overflow machine:108\nok\n",
    b"error E5 no-step\n",
    b"inc : 2\nok\n",
    b"state 1\nok\n",
];

// What fails in a run, and the greatest piece of its source.
#[derive(Clone, Copy)]
struct Failing<'a> {
    opener: &'a [u64],
    source: &'a [u64],
    sink: &'a [u64],
    piece: usize,
}

const NONE: Failing<'static> = Failing {
    opener: &[],
    source: &[],
    sink: &[],
    piece: 1,
};

fn opener(
    alloc: Global,
    machine: &[u8],
    lines: &[u8],
    faults: Failing<'_>,
) -> Result<MemOpener, AllocError> {
    let mut documents = Items::new(alloc);
    documents.push(MemDocument::new(
        Items::from_slice(alloc, b"m")?,
        Items::from_slice(alloc, machine)?,
    ))?;
    let mut sessions = Items::new(alloc);
    sessions.push(MemSession {
        name: Items::from_slice(alloc, b"s")?,
        source: Items::from_slice(alloc, lines)?,
        piece: faults.piece,
        source_fails: Items::from_slice(alloc, faults.source)?,
        sink: Items::new(alloc),
        room: 1_000_000,
        sink_fails: Items::from_slice(alloc, faults.sink)?,
        documents: Items::new(alloc),
        cabinet_fails: Items::new(alloc),
    })?;
    Ok(MemOpener::new(
        documents,
        sessions,
        Items::from_slice(alloc, faults.opener)?,
    ))
}

fn words(alloc: Global, given: &[&str]) -> Result<Vec<String>, AllocError> {
    let mut words = Vec::new(alloc);
    for word in given {
        words.push(String::from_str(alloc, word)?)?;
    }
    Ok(words)
}

// What a run left: its status, its text, and of its session the end, the lines, the marks, how many are set, and the
// output.
#[derive(Drop)]
struct Seen {
    status: u8,
    text: Vec<u8>,
    end: Option<End>,
    lines: u64,
    marks: Vec<bool>,
    marked: usize,
    states: u64,
    output: Vec<u8>,
}

fn see(alloc: Global, finished: Finished<MemOpener>, out: &MemSink) -> Result<Seen, AllocError> {
    let mut seen = Seen {
        status: finished.status,
        text: Vec::from_slice(alloc, out.bytes())?,
        end: None,
        lines: 0,
        marks: Vec::new(alloc),
        marked: 0,
        states: finished.names.len(),
        output: Vec::new(alloc),
    };
    for end in &finished.sessions {
        seen.end = Some(end.end);
        seen.lines = end.lines;
        seen.marks = Vec::from_slice(alloc, end.marks.as_slice())?;
        seen.marked = end.marks.as_slice().iter().filter(|mark| **mark).count();
        seen.output = Vec::from_slice(alloc, end.desk.sink.bytes())?;
    }
    Ok(seen)
}

// `solo m s` over a machine and the lines of a session; the calls of out that fail.
fn solo<Rt: Threads + Wait + Sync>(
    rt: &Rt,
    alloc: Global,
    machine: &[u8],
    lines: &[u8],
    faults: Failing<'_>,
    out_fails: &[u64],
) -> Result<Seen, AllocError> {
    let mut opener = opener(alloc, machine, lines, faults)?;
    let mut out = MemSink::new(alloc, 4096, Items::from_slice(alloc, out_fails)?)?;
    let words = words(alloc, &["solo", "m", "s"])?;
    let finished = host(rt, alloc, words.as_slice(), &mut opener, &mut out);
    see(alloc, finished, &out)
}

// The first replies, one after another.
fn replies(alloc: Global, count: usize) -> Result<Vec<u8>, AllocError> {
    let mut all = Vec::new(alloc);
    for reply in REPLIES.iter().take(count) {
        all.extend_from_slice(reply)?;
    }
    Ok(all)
}

// What a run is to leave.
#[derive(Clone, Copy)]
struct Wanted<'a> {
    status: u8,
    text: &'a [u8],
    end: Option<End>,
    lines: u64,
    states: u64,
    output: &'a [u8],
}

fn compare(rt: &impl Abort, at: usize, seen: &Seen, wanted: &Wanted<'_>) {
    assert_eq!(rt; seen.status, wanted.status, "the status at {at}");
    assert_eq!(rt; seen.text.as_slice(), wanted.text, "the text at {at}");
    assert_eq!(rt; seen.end, wanted.end, "the end at {at}");
    assert_eq!(rt; seen.lines, wanted.lines, "the lines at {at}");
    assert_eq!(rt; seen.marked, 0, "the marks at {at}");
    assert_eq!(rt; seen.states, wanted.states, "the states at {at}");
    assert_eq!(rt; seen.output.as_slice(), wanted.output, "the output at {at}");
}

#[test]
fn a_session_and_an_empty_one(rt: HostRuntime) -> Result<(), Fail> {
    let alloc = rt.alloc();
    let all = replies(alloc, 7)?;
    for (at, (lines, count, states, output)) in [(LINES, 7, 3, all.as_slice()), (b"", 0, 1, b"")]
        .into_iter()
        .enumerate()
    {
        let text = format!(in alloc;
            "session s end-of-input lines {count} memory 0\nstates {states}\n"
        )?;
        let seen = solo(&rt, alloc, COUNTER, lines, NONE, &[])?;
        let wanted = Wanted {
            status: 0,
            text: text.as_bytes(),
            end: Some(End::EndOfInput),
            lines: count,
            states,
            output,
        };
        compare(&rt, at, &seen, &wanted);
    }
    Ok(())
}

#[test]
fn the_calls_below_the_top(rt: HostRuntime) -> Result<(), Fail> {
    let alloc = rt.alloc();
    let mut opener = opener(alloc, COUNTER, LINES, NONE)?;
    let mut out = MemSink::new(alloc, 4096, Items::new(alloc))?;
    let words = words(alloc, &["solo", "m", "s"])?;
    let Ok(read) = read_words(alloc, words.as_slice()) else {
        return Err(Fail::from("the words"));
    };
    assert_eq!(rt; read.form, Form::Solo);
    let finished = host_solo(alloc, &read, &mut opener, &mut out);
    assert_eq!(rt; finished.status, 0);
    assert_eq!(rt; finished.names.len(), 3);
    assert!(rt; finished.names.get(2).is_some());
    assert!(rt; finished.names.get(3).is_none());
    assert_eq!(rt; Names::none(alloc).len(), 0);
    machine_is_unique();
    Ok(())
}
