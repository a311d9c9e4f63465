// Tables of calls, with what each answers and leaves.
use host_io::{
    Cabinet, CabinetFault, Desk, Failed, MemCabinet, MemDocument, MemOpener, MemSession, MemSink,
    MemSource, Opener, Sink, Source,
};
use sqlite_items::Items;
use std::alloc::{AllocError, Global};
use std::process::Abort;

fn bytes_of(alloc: Global, text: &str) -> Result<Items<u8>, AllocError> {
    Items::from_slice(alloc, text.as_bytes())
}

fn document(alloc: Global, name: &str, text: &str) -> Result<MemDocument, AllocError> {
    let name = bytes_of(alloc, name)?;
    Ok(MemDocument::new(name, bytes_of(alloc, text)?))
}

/// Takes piece after piece, with commas between them; `!` is a call that fails.
fn takes(rt: &impl Abort, source: &mut MemSource, wants: &str) {
    for want in wants.split(',') {
        let mut into = [b'.'; 4];
        match source.take(&mut into) {
            Ok(count) => assert_eq!(rt; into.get(..count), Some(want.as_bytes()), "{wants}"),
            Err(Failed) => assert_eq!(rt; want, "!", "{wants}"),
        }
    }
}

/// A source of five bytes, its greatest piece, the calls that fail, what it gives, and how many calls that is.
struct Taken {
    piece: usize,
    fails: &'static [u64],
    wants: &'static str,
    made: u64,
    faults: u64,
}

const TAKEN: [Taken; 5] = [
    Taken {
        piece: 1,
        fails: &[],
        wants: "a,b,c,d,e,,",
        made: 7,
        faults: 0,
    },
    Taken {
        piece: 3,
        fails: &[],
        wants: "abc,de,",
        made: 3,
        faults: 0,
    },
    Taken {
        piece: 9,
        fails: &[],
        wants: "abcd,e,",
        made: 3,
        faults: 0,
    },
    Taken {
        piece: 3,
        fails: &[2],
        wants: "abc,!,de,",
        made: 4,
        faults: 1,
    },
    Taken {
        piece: 9,
        fails: &[1, 4],
        wants: "!,abcd,e,!,",
        made: 5,
        faults: 2,
    },
];

fn source(alloc: Global, row: &Taken) -> Result<MemSource, AllocError> {
    let bytes = bytes_of(alloc, "abcde")?;
    let fails = Items::from_slice(alloc, row.fails)?;
    Ok(MemSource::new(bytes, row.piece.max(1), fails))
}

fn check_source(rt: &impl Abort, alloc: Global, row: &Taken) {
    let mut source = source(alloc, row).expect(rt, row.wants);
    takes(rt, &mut source, row.wants);
    assert_eq!(rt; source.calls.made, row.made, "{}", row.wants);
    assert_eq!(rt; source.calls.faults, row.faults, "{}", row.wants);
}

#[test]
fn sources(rt: HostRuntime) {
    for row in TAKEN.iter() {
        check_source(&rt, rt.alloc(), row);
    }
}

#[test]
fn a_small_sink(rt: HostRuntime) {
    let mut sink = MemSink::new(rt.alloc(), 1, Items::new(rt.alloc())).expect(&rt, "a sink");
    assert_eq!(rt; sink.give(b"ab"), Err(Failed));
    assert_eq!(rt; sink.give(b"a"), Ok(1));
    assert_eq!(rt; sink.bytes(), b"a".as_slice());
}

/// A piece, the answer, what the sink then holds, and the room left.
struct Given {
    piece: &'static str,
    answer: Result<usize, Failed>,
    held: &'static str,
    room: usize,
}

const GIVEN: [Given; 7] = [
    Given {
        piece: "ab",
        answer: Ok(2),
        held: "<ab",
        room: 3,
    },
    Given {
        piece: "cd",
        answer: Err(Failed),
        held: "<ab",
        room: 3,
    },
    Given {
        piece: "cd",
        answer: Ok(2),
        held: "<abcd",
        room: 1,
    },
    Given {
        piece: "xy",
        answer: Err(Failed),
        held: "<abcd",
        room: 1,
    },
    Given {
        piece: "",
        answer: Ok(0),
        held: "<abcd",
        room: 1,
    },
    Given {
        piece: "e",
        answer: Ok(1),
        held: "<abcde",
        room: 0,
    },
    Given {
        piece: "f",
        answer: Err(Failed),
        held: "<abcde",
        room: 0,
    },
];

fn check_given(rt: &impl Abort, sink: &mut MemSink, row: &Given) {
    assert_eq!(rt;
        sink.give(row.piece.as_bytes()),
        row.answer,
        "{}",
        row.piece
    );
    assert_eq!(rt; sink.bytes(), row.held.as_bytes());
    assert_eq!(rt; sink.room, row.room);
}

#[test]
fn sinks(rt: HostRuntime) {
    let fails = Items::from_slice(rt.alloc(), &[2]).expect(&rt, "memory");
    let mut sink = MemSink::holding(rt.alloc(), b"<", 5, fails).expect(&rt, "a sink");
    for row in GIVEN.iter() {
        check_given(&rt, &mut sink, row);
    }
    assert_eq!(rt; sink.calls.made, 7);
    assert_eq!(rt; sink.calls.faults, 3);
}

fn fault_text(fault: CabinetFault) -> &'static str {
    match fault {
        CabinetFault::Failed => "!failed",
        CabinetFault::TooLong => "!too-long",
        CabinetFault::Memory => "!memory",
    }
}

/// Asserts what a document was read as, or why it wasn't.
fn answers(rt: &impl Abort, found: Result<Vec<u8>, CabinetFault>, want: &str, line: &str) {
    match found {
        Ok(bytes) => assert_eq!(rt; bytes.as_slice(), want.as_bytes(), "{line}"),
        Err(fault) => assert_eq!(rt; fault_text(fault), want, "{line}"),
    }
}

/// Asserts that a document was stored, or why it wasn't.
fn stored(rt: &impl Abort, found: Result<(), CabinetFault>, want: &str, line: &str) {
    match found {
        Ok(()) => assert_eq!(rt; "stored", want, "{line}"),
        Err(fault) => assert_eq!(rt; fault_text(fault), want, "{line}"),
    }
}

/// A call of a cabinet, and its answer: a limit, a name, and behind a sign what is stored or what is read.
fn call(rt: &impl Abort, alloc: Global, cabinet: &mut MemCabinet, line: &str) {
    let (call, want) = line.split_once('@').expect(rt, line);
    let (limit, call) = call.split_once(' ').expect(rt, line);
    let limit = limit.parse::<u64>().expect(rt, line);
    match call.split_once('=') {
        Some((name, bytes)) => {
            let found = cabinet.store(alloc, name.as_bytes(), bytes.as_bytes(), limit);
            stored(rt, found, want, line);
        }
        None => answers(rt, cabinet.load(alloc, call.as_bytes(), limit), want, line),
    }
}

fn calls(rt: &impl Abort, alloc: Global, cabinet: &mut MemCabinet, table: &str) {
    for line in table.lines() {
        call(rt, alloc, cabinet, line);
    }
}

/// A cabinet of two documents, whose sixth call fails.
fn cabinet(alloc: Global) -> Result<MemCabinet, AllocError> {
    let mut documents = Items::new(alloc);
    documents.push(document(alloc, "x", "12345")?)?;
    documents.push(document(alloc, "y", "678")?)?;
    Ok(MemCabinet::new(documents, Items::from_slice(alloc, &[6])?))
}

const CALLS: &str = "5 x@12345
4 x@!too-long
9 z@!failed
3 z=abc@stored
3 y=abcd@!too-long
9 x=new@!failed
9 y@678
9 z@abc";

const LATER_CALLS: &str = "9 x=again@stored
9 x@again";

#[test]
fn cabinets(rt: HostRuntime) {
    let mut cabinet = cabinet(rt.alloc()).expect(&rt, "a cabinet");
    calls(&rt, rt.alloc(), &mut cabinet, CALLS);
    let told = cabinet.document(b"x").map(|document| document.told);
    assert_eq!(rt; told, Some(false));
    calls(&rt, rt.alloc(), &mut cabinet, LATER_CALLS);
    assert_eq!(rt; (cabinet.calls.made, cabinet.calls.faults), (10, 2));
}

/// A session whose second take, first give and second call of the cabinet fail.
fn session(alloc: Global) -> Result<MemSession, AllocError> {
    let mut kept = Items::new(alloc);
    kept.push(document(alloc, "d", "trace")?)?;
    Ok(MemSession {
        name: bytes_of(alloc, "s")?,
        source: bytes_of(alloc, "back\n")?,
        piece: 0,
        source_fails: Items::from_slice(alloc, &[2])?,
        sink: bytes_of(alloc, ">")?,
        room: 3,
        sink_fails: Items::from_slice(alloc, &[1])?,
        documents: kept,
        cabinet_fails: Items::from_slice(alloc, &[2])?,
    })
}

/// An opener of one document and one session, whose third call fails.
fn opener(alloc: Global) -> Result<MemOpener, AllocError> {
    let mut documents = Items::new(alloc);
    documents.push(document(alloc, "m", "mm")?)?;
    let mut sessions = Items::new(alloc);
    sessions.push(session(alloc)?)?;
    Ok(MemOpener::new(documents, sessions, Items::from_slice(alloc, &[3])?))
}

const LOADS: &str = "5 d@trace
5 d@!failed";

/// Uses the desk of the session: what it reads and writes, with the calls that fail.
fn uses_desk(rt: &impl Abort, alloc: Global, mut desk: Desk<MemSource, MemSink, MemCabinet>) {
    takes(rt, &mut desk.source, "b,!,a");
    assert_eq!(rt; desk.sink.give(b"ok\n"), Err(Failed));
    assert_eq!(rt; desk.sink.give(b"ok\n"), Ok(3));
    assert_eq!(rt; desk.sink.bytes(), b">ok\n".as_slice());
    calls(rt, alloc, &mut desk.cabinet, LOADS);
}

const DOCUMENTS: &str = "2 m@mm
1 m@!too-long
2 m@!failed
2 s@!failed";

fn opens(rt: &impl Abort, alloc: Global, opener: &mut MemOpener, line: &str) {
    let (call, want) = line.split_once('@').expect(rt, line);
    let (limit, name) = call.split_once(' ').expect(rt, line);
    let limit = limit.parse::<u64>().expect(rt, line);
    answers(rt, opener.document(alloc, name, limit), want, line);
}

#[test]
fn openers(rt: HostRuntime) {
    let mut opener = opener(rt.alloc()).expect(&rt, "an opener");
    for line in DOCUMENTS.lines() {
        opens(&rt, rt.alloc(), &mut opener, line);
    }
    assert!(rt; opener.session(rt.alloc(), "m").is_err());
    let desk = opener.session(rt.alloc(), "s").expect(&rt, "a session");
    uses_desk(&rt, rt.alloc(), desk);
    assert_eq!(rt; (opener.calls.made, opener.calls.faults), (6, 3));
}
