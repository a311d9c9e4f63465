// A cabinet in memory.
ghost use Rattle.std.specs.Prelude.{◌≡◌, ◌≤◌, ◌<◌, ◌||◌, [], length, IfOk, OnOk, OnErr, IsErrOf, MatchResult, Option, Some, Ok, Err, is_none, true, false, position, bytes_eq};
ghost use Rattle.std.specs.Option.{option_copied};
ghost use Rattle.host_io.specs.Outside.{Rose, Untold, Present, IsTold, IsTooLong, SameTold, SameOthers};
ghost use Rattle.host_io.specs.Memory.{fresh, is_listed, called, document_in, told_of, has_failed, read_of, load_answer, store_answer, IsFault, Writes};

use crate::calls::Calls;
use crate::outside::{Cabinet, CabinetFault};
use sqlite_items::Items;
use std::alloc::{AllocError, Global};

/// A document, and whether its bytes are told.
#[derive(Debug, Drop)]
pub struct MemDocument {
    pub name: Items<u8>,
    pub bytes: Items<u8>,
    pub told: bool,
}

impl MemDocument {
    /// A document that is told.
    pub fn new(name: Items<u8>, bytes: Items<u8>) -> MemDocument
        ensures { result ≡ record { name = name; bytes = bytes; told = true } }
    {
        MemDocument {
            name,
            bytes,
            told: true,
        }
    }
}

/// Documents by name, of which the first of a name counts.
#[derive(Debug, Drop)]
pub struct MemCabinet {
    pub documents: Items<MemDocument>,
    pub calls: Calls,
}

// The first document of a name.
pub(crate) fn find_document<'a>(
    documents: &'a [MemDocument],
    name: &[u8],
) -> Option<&'a MemDocument>
    ensures { option_copied result ≡ document_in documents.entry.now name.now }
{
    for document in documents {
        if document.name.as_slice() == name {
            return Some(document);
        }
    }
    None
}

// The place of the first document of a name.
fn place_of(documents: &[MemDocument], name: &[u8]) -> Option<usize>
    ensures { result ≡ position (λ d. bytes_eq d.name name.now) documents.now }
{
    documents
        .iter()
        .position(|document| document.name.as_slice() == name)
}

// A copy of the bytes of the first document of a name.
pub(crate) fn read_document(
    alloc: Global,
    documents: &[MemDocument],
    name: &[u8],
    limit: u64,
) -> Result<Vec<u8>, CabinetFault>
    ensures told { IfOk result (λ bytes. IsTold (told_of (document_in documents.now name.now)) bytes.items) }
    ensures within { IfOk result (λ bytes. length bytes.items ≤ limit) }
    ensures too_long { IsErrOf result CabinetFault.TooLong → IsTooLong (told_of (document_in documents.now name.now)) limit }
    ensures absent { has_failed result ≡ is_none (document_in documents.now name.now) }
    ensures exact { MatchResult result (λ bytes. read_of (document_in documents.now name.now) limit ≡ Ok bytes.items) (λ fault. IsFault fault (read_of (document_in documents.now name.now) limit)) }
{
    let Some(document) = find_document(documents, name) else {
        return Err(CabinetFault::Failed);
    };
    if document.bytes.len() as u64 > limit {
        return Err(CabinetFault::TooLong);
    }
    match Vec::from_slice(alloc, document.bytes.as_slice()) {
        Ok(bytes) => Ok(bytes),
        Err(AllocError) => Err(CabinetFault::Memory),
    }
}

impl MemCabinet {
    pub fn new(documents: Items<MemDocument>, fails: Items<u64>) -> MemCabinet
        ensures { result ≡ record { documents = documents; calls = fresh fails } }
    {
        MemCabinet {
            documents,
            calls: Calls::new(fails),
        }
    }

    /// The document of a name, told or not.
    pub fn document(&self, name: &[u8]) -> Option<&MemDocument>
        ensures { option_copied result ≡ document_in self.entry.now.documents name.now }
    {
        find_document(self.documents.as_slice(), name)
    }

    // Puts a document in place of the one of its name, or at the end.
    fn put(&mut self, document: MemDocument) -> Result<(), AllocError>
        ensures put { OnOk result (Writes self.old.documents document self.new.documents) }
        ensures same { OnErr result (self.new.documents ≡ self.old.documents) }
        ensures calls { self.new.calls ≡ self.old.calls }
    {
        match place_of(self.documents.as_slice(), document.name.as_slice()) {
            Some(place) => {
                self.documents.set(place, document);
                Ok(())
            }
            None => {
                self.documents.push(document)?;
                Ok(())
            }
        }
    }

    // Puts these bytes under a name.
    fn write(
        &mut self,
        alloc: Global,
        name: &[u8],
        bytes: &[u8],
        told: bool,
    ) -> Result<(), AllocError>
        ensures put { OnOk result (Writes self.old.documents (record { name = name.now; bytes = bytes.now; told = told }) self.new.documents) }
        ensures same { OnErr result (self.new.documents ≡ self.old.documents) }
        ensures calls { self.new.calls ≡ self.old.calls }
    {
        let name = Items::from_slice(alloc, name)?;
        let bytes = Items::from_slice(alloc, bytes)?;
        self.put(MemDocument { name, bytes, told })
    }
}

impl Cabinet for MemCabinet {
    ghost tells = { true };

    ghost told = { λ c n. told_of (document_in c.documents n) };

    ghost faults = { λ c. c.calls.faults };

    fn load(&mut self, alloc: Global, name: &[u8], limit: u64) -> Result<Vec<u8>, CabinetFault>
        ensures document { IfOk result (λ bytes. IsTold (told_of (document_in self.old.documents name.now)) bytes.items) }
        ensures within { IfOk result (λ bytes. length bytes.items ≤ limit) }
        ensures too_long { IsErrOf result CabinetFault.TooLong → IsTooLong (told_of (document_in self.old.documents name.now)) limit }
        ensures failed { IsErrOf result CabinetFault.Failed → Rose self.old.calls.faults self.new.calls.faults }
        ensures later { self.old.calls.faults ≤ self.new.calls.faults }
        ensures same { self.new.documents ≡ self.old.documents }
        ensures exact { MatchResult result (λ bytes. load_answer self.old.calls (document_in self.old.documents name.now) limit ≡ Ok bytes.items) (λ fault. IsFault fault (load_answer self.old.calls (document_in self.old.documents name.now) limit)) }
        ensures fails { has_failed result ≡ (is_listed self.old.calls || is_none (document_in self.old.documents name.now)) }
        ensures calls { self.new.calls ≡ called self.old.calls (has_failed result) }
    {
        if self.calls.begin() {
            self.calls.fail();
            return Err(CabinetFault::Failed);
        }
        match read_document(alloc, self.documents.as_slice(), name, limit) {
            Ok(bytes) => Ok(bytes),
            Err(CabinetFault::Failed) => {
                self.calls.fail();
                Err(CabinetFault::Failed)
            }
            Err(CabinetFault::TooLong) => Err(CabinetFault::TooLong),
            Err(CabinetFault::Memory) => Err(CabinetFault::Memory),
        }
    }

    fn store(
        &mut self,
        alloc: Global,
        name: &[u8],
        bytes: &[u8],
        limit: u64,
    ) -> Result<(), CabinetFault>
        ensures stored { OnOk result (told_of (document_in self.new.documents name.now) ≡ Present bytes.now) }
        ensures within { OnOk result (length bytes.now ≤ limit) }
        ensures others { SameOthers name.now (λ n. told_of (document_in self.old.documents n)) (λ n. told_of (document_in self.new.documents n)) }
        ensures untold { IsErrOf result CabinetFault.Failed → told_of (document_in self.new.documents name.now) ≡ Untold }
        ensures too_long { IsErrOf result CabinetFault.TooLong → limit < length bytes.now }
        ensures same { IsErrOf result CabinetFault.TooLong → self.new.documents ≡ self.old.documents }
        ensures memory { IsErrOf result CabinetFault.Memory → self.new.documents ≡ self.old.documents }
        ensures failed { IsErrOf result CabinetFault.Failed → Rose self.old.calls.faults self.new.calls.faults }
        ensures later { self.old.calls.faults ≤ self.new.calls.faults }
        ensures exact { MatchResult result (λ _. store_answer self.old.calls bytes.now limit ≡ Ok bytes.now) (λ fault. IsFault fault (store_answer self.old.calls bytes.now limit)) }
        ensures written { OnOk result (Writes self.old.documents (record { name = name.now; bytes = bytes.now; told = true }) self.new.documents) }
        ensures emptied { IsErrOf result CabinetFault.Failed → Writes self.old.documents (record { name = name.now; bytes = []; told = false }) self.new.documents }
        ensures calls { self.new.calls ≡ called self.old.calls (has_failed result) }
    {
        if self.calls.begin() {
            if self.write(alloc, name, &[], false).is_err() {
                return Err(CabinetFault::Memory);
            }
            self.calls.fail();
            return Err(CabinetFault::Failed);
        }
        if bytes.len() as u64 > limit {
            return Err(CabinetFault::TooLong);
        }
        match self.write(alloc, name, bytes, true) {
            Ok(()) => Ok(()),
            Err(AllocError) => Err(CabinetFault::Memory),
        }
    }
}
