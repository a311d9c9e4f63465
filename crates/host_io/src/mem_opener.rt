// An opener in memory.
ghost use Rattle.std.specs.Prelude.{◌≡◌, ◌≤◌, ◌||◌, length, IfOk, IfSome, IsErrOf, MatchResult, Ok, Some, is_none, max};
ghost use Rattle.std.specs.Option.{option_copied};
ghost use Rattle.host_io.specs.Outside.{Rose, IsTold, IsTooLong, IsToldDesk};
ghost use Rattle.host_io.specs.Memory.{fresh, is_listed, called, left_of, held_of, document_in, told_of, has_failed, has_not_opened, load_answer, IsFault, session_in, told_session, Opens};

use crate::calls::Calls;
use crate::mem_cabinet::{MemCabinet, MemDocument, read_document};
use crate::mem_sink::MemSink;
use crate::mem_source::MemSource;
use crate::outside::{CabinetFault, Desk, OpenFault, Opener};
use sqlite_items::Items;
use std::alloc::{AllocError, Global};

/// A session that an opener has: its source's bytes with the greatest piece, the bytes that are in its sink already
/// with the room for more, its documents, and the numbers of the calls of each that fail. A piece of 0 counts as 1.
#[derive(Debug, Drop)]
pub struct MemSession {
    pub name: Items<u8>,
    pub source: Items<u8>,
    pub piece: usize,
    pub source_fails: Items<u64>,
    pub sink: Items<u8>,
    pub room: usize,
    pub sink_fails: Items<u64>,
    pub documents: Items<MemDocument>,
    pub cabinet_fails: Items<u64>,
}

/// Documents and sessions by name, of which the first of a name counts. Its calls of both kinds are counted together.
#[derive(Debug, Drop)]
pub struct MemOpener {
    pub documents: Items<MemDocument>,
    pub sessions: Items<MemSession>,
    pub calls: Calls,
}

// The first session of a name.
fn find_session<'a>(sessions: &'a [MemSession], name: &[u8]) -> Option<&'a MemSession>
    ensures { option_copied result ≡ session_in sessions.entry.now name.now }
{
    for session in sessions {
        if session.name.as_slice() == name {
            return Some(session);
        }
    }
    None
}

fn copy_document(alloc: Global, document: &MemDocument) -> Result<MemDocument, AllocError>
    ensures { IfOk result (λ copy. copy ≡ document.now) }
{
    let name = Items::from_slice(alloc, document.name.as_slice())?;
    let bytes = Items::from_slice(alloc, document.bytes.as_slice())?;
    Ok(MemDocument {
        name,
        bytes,
        told: document.told,
    })
}

fn copy_documents(
    alloc: Global,
    documents: &[MemDocument],
) -> Result<Items<MemDocument>, AllocError>
    ensures { IfOk result (λ copies. copies ≡ documents.now) }
{
    let mut copies = Items::new(alloc);
    for document in documents {
        copies.push(copy_document(alloc, document)?)?;
    }
    Ok(copies)
}

fn source_of(alloc: Global, session: &MemSession) -> Result<MemSource, AllocError>
    ensures left { IfOk result (λ source. left_of source ≡ session.now.source) }
    ensures piece { IfOk result (λ source. source.piece ≡ max session.now.piece 1) }
    ensures calls { IfOk result (λ source. source.calls ≡ fresh session.now.source_fails) }
{
    let bytes = Items::from_slice(alloc, session.source.as_slice())?;
    let fails = Items::from_slice(alloc, session.source_fails.as_slice())?;
    Ok(MemSource::new(bytes, session.piece.max(1), fails))
}

fn sink_of(alloc: Global, session: &MemSession) -> Result<MemSink, AllocError>
    ensures held { IfOk result (λ sink. held_of sink ≡ session.now.sink) }
    ensures room { IfOk result (λ sink. sink.room ≡ session.now.room) }
    ensures calls { IfOk result (λ sink. sink.calls ≡ fresh session.now.sink_fails) }
{
    let fails = Items::from_slice(alloc, session.sink_fails.as_slice())?;
    MemSink::holding(alloc, session.sink.as_slice(), session.room, fails)
}

fn cabinet_of(alloc: Global, session: &MemSession) -> Result<MemCabinet, AllocError>
    ensures { IfOk result (λ cabinet. cabinet ≡ record { documents = session.now.documents; calls = fresh session.now.cabinet_fails }) }
{
    let documents = copy_documents(alloc, session.documents.as_slice())?;
    let fails = Items::from_slice(alloc, session.cabinet_fails.as_slice())?;
    Ok(MemCabinet::new(documents, fails))
}

fn desk_of(
    alloc: Global,
    session: &MemSession,
) -> Result<Desk<MemSource, MemSink, MemCabinet>, AllocError>
    ensures { IfOk result (λ desk. Opens session.now desk.source desk.sink desk.cabinet) }
{
    let source = source_of(alloc, session)?;
    let sink = sink_of(alloc, session)?;
    let cabinet = cabinet_of(alloc, session)?;
    Ok(Desk {
        source,
        sink,
        cabinet,
    })
}

impl MemOpener {
    pub fn new(
        documents: Items<MemDocument>,
        sessions: Items<MemSession>,
        fails: Items<u64>,
    ) -> MemOpener
        ensures { result ≡ record { documents = documents; sessions = sessions; calls = fresh fails } }
    {
        MemOpener {
            documents,
            sessions,
            calls: Calls::new(fails),
        }
    }
}

impl Opener for MemOpener {
    type Source = MemSource;

    type Sink = MemSink;

    type Cabinet = MemCabinet;

    ghost document_of = { λ o n. told_of (document_in o.documents n) };

    ghost session_of = { λ o n. told_session (session_in o.sessions n) };

    ghost faults = { λ o. o.calls.faults };

    fn document(&mut self, alloc: Global, name: &str, limit: u64) -> Result<Vec<u8>, CabinetFault>
        ensures told { IfOk result (λ bytes. IsTold (told_of (document_in self.old.documents name.now)) bytes.items) }
        ensures within { IfOk result (λ bytes. length bytes.items ≤ limit) }
        ensures too_long { IsErrOf result CabinetFault.TooLong → IsTooLong (told_of (document_in self.old.documents name.now)) limit }
        ensures failed { IsErrOf result CabinetFault.Failed → Rose self.old.calls.faults self.new.calls.faults }
        ensures later { self.old.calls.faults ≤ self.new.calls.faults }
        ensures documents { self.new.documents ≡ self.old.documents }
        ensures sessions { self.new.sessions ≡ self.old.sessions }
        ensures exact { MatchResult result (λ bytes. load_answer self.old.calls (document_in self.old.documents name.now) limit ≡ Ok bytes.items) (λ fault. IsFault fault (load_answer self.old.calls (document_in self.old.documents name.now) limit)) }
        ensures fails { has_failed result ≡ (is_listed self.old.calls || is_none (document_in self.old.documents name.now)) }
        ensures calls { self.new.calls ≡ called self.old.calls (has_failed result) }
    {
        if self.calls.begin() {
            self.calls.fail();
            return Err(CabinetFault::Failed);
        }
        match read_document(alloc, self.documents.as_slice(), name.as_bytes(), limit) {
            Ok(bytes) => Ok(bytes),
            Err(CabinetFault::Failed) => {
                self.calls.fail();
                Err(CabinetFault::Failed)
            }
            Err(CabinetFault::TooLong) => Err(CabinetFault::TooLong),
            Err(CabinetFault::Memory) => Err(CabinetFault::Memory),
        }
    }

    fn session(
        &mut self,
        alloc: Global,
        name: &str,
    ) -> Result<Desk<MemSource, MemSink, MemCabinet>, OpenFault>
        ensures told { IfOk result (λ desk. IsToldDesk (told_session (session_in self.old.sessions name.now)) (Some (left_of desk.source)) (Some (held_of desk.sink)) (λ n. told_of (document_in desk.cabinet.documents n))) }
        ensures source_count { IfOk result (λ desk. desk.source.calls.faults ≡ 0) }
        ensures sink_count { IfOk result (λ desk. desk.sink.calls.faults ≡ 0) }
        ensures cabinet_count { IfOk result (λ desk. desk.cabinet.calls.faults ≡ 0) }
        ensures failed { IsErrOf result OpenFault.Failed → Rose self.old.calls.faults self.new.calls.faults }
        ensures later { self.old.calls.faults ≤ self.new.calls.faults }
        ensures documents { self.new.documents ≡ self.old.documents }
        ensures sessions { self.new.sessions ≡ self.old.sessions }
        ensures desk { IfOk result (λ desk. IfSome (session_in self.old.sessions name.now) (λ session. Opens session desk.source desk.sink desk.cabinet)) }
        ensures fails { has_not_opened result ≡ (is_listed self.old.calls || is_none (session_in self.old.sessions name.now)) }
        ensures calls { self.new.calls ≡ called self.old.calls (has_not_opened result) }
    {
        if self.calls.begin() {
            self.calls.fail();
            return Err(OpenFault::Failed);
        }
        let Some(session) = find_session(self.sessions.as_slice(), name.as_bytes()) else {
            self.calls.fail();
            return Err(OpenFault::Failed);
        };
        match desk_of(alloc, session) {
            Ok(desk) => Ok(desk),
            Err(AllocError) => Err(OpenFault::Memory),
        }
    }
}
