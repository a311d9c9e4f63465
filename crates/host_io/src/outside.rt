// The traits of the outside. Each counts its faults, and its ghost members say what it tells of its content.
ghost use Rattle.std.specs.Prelude.{◌≡◌, ◌≤◌, ◌<◌, ℕ, Bool, List, Option, IfOk, OnOk, OnErr, IsErrOf, length};
ghost use Rattle.host_io.specs.Outside.{HasCause, Rose, Takes, Gives, Told, Untold, told_stored, IsTold, IsTooLong, SameTold, SameOthers, ToldDesk, IsToldDesk};

use std::alloc::Global;

/// A call of the outside failed.
#[derive(Clone, Copy, Debug, PartialEq, Eq)]
pub struct Failed;

/// Why a document wasn't read or written.
#[derive(Clone, Copy, Debug, PartialEq, Eq)]
pub enum CabinetFault {
    Failed,
    /// The document has more bytes than the limit.
    TooLong,
    /// Memory was wanted.
    Memory,
}

/// Why a session wasn't opened.
#[derive(Clone, Copy, Debug, PartialEq, Eq)]
pub enum OpenFault {
    Failed,
    /// Memory was wanted.
    Memory,
}

/// Gives the bytes of a session, piece by piece.
pub trait Source {
    /// The bytes that are left, where the source tells them.
    ghost left: { Self → Option (List ℕ) };

    /// How often it has failed.
    ghost faults: { Self → ℕ };

    /// Takes some bytes into the front of the piece. 0 is the end: then nothing is left, and every later call that
    /// doesn't fail answers 0 too.
    fn take(&mut self, into: &mut [u8]) -> Result<usize, Failed>
        requires { 0 < length into.old }
        ensures taken { IfOk result (λ count. Takes (left self.old) count into.new (left self.new)) }
        ensures failed { OnErr result (left self.new ≡ left self.old) }
        ensures cause { HasCause (faults self.old) (faults self.new) result };
}

/// Takes the replies of a session, or the text of a run.
pub trait Sink {
    /// The bytes that it holds, where it tells them.
    ghost held: { Self → Option (List ℕ) };

    /// How often it has failed.
    ghost faults: { Self → ℕ };

    /// Takes a front of the piece, at least one byte of one that isn't empty.
    fn give(&mut self, bytes: &[u8]) -> Result<usize, Failed>
        ensures given { IfOk result (λ count. Gives (held self.old) count bytes.now (held self.new)) }
        ensures failed { OnErr result (held self.new ≡ held self.old) }
        ensures cause { HasCause (faults self.old) (faults self.new) result };
}

/// Keeps the trace documents of a session.
pub trait Cabinet {
    /// Whether cabinets of this kind tell what they keep.
    ghost tells: { Bool };

    /// What is told of the document of each name.
    ghost told: { Self → List ℕ → Told (List ℕ) };

    /// How often it has failed.
    ghost faults: { Self → ℕ };

    /// The document of that name, of at most `limit` bytes. A missing one is Failed.
    fn load(&mut self, alloc: Global, name: &[u8], limit: u64) -> Result<Vec<u8>, CabinetFault>
        ensures document { IfOk result (λ bytes. IsTold (told self.old name.now) bytes.items) }
        ensures within { IfOk result (λ bytes. length bytes.items ≤ limit) }
        ensures too_long { IsErrOf result CabinetFault.TooLong → IsTooLong (told self.old name.now) limit }
        ensures failed { IsErrOf result CabinetFault.Failed → Rose (faults self.old) (faults self.new) }
        ensures later { faults self.old ≤ faults self.new }
        ensures same { SameTold (told self.old) (told self.new) };

    /// Makes these bytes the document of that name, where they are at most `limit`.
    fn store(
        &mut self,
        alloc: Global,
        name: &[u8],
        bytes: &[u8],
        limit: u64,
    ) -> Result<(), CabinetFault>
        ensures stored { OnOk result (told self.new name.now ≡ told_stored tells bytes.now) }
        ensures within { OnOk result (length bytes.now ≤ limit) }
        ensures others { SameOthers name.now (told self.old) (told self.new) }
        ensures untold { IsErrOf result CabinetFault.Failed → told self.new name.now ≡ Untold }
        ensures too_long { IsErrOf result CabinetFault.TooLong → limit < length bytes.now }
        ensures same { IsErrOf result CabinetFault.TooLong → SameTold (told self.old) (told self.new) }
        ensures memory { IsErrOf result CabinetFault.Memory → SameTold (told self.old) (told self.new) }
        ensures failed { IsErrOf result CabinetFault.Failed → Rose (faults self.old) (faults self.new) }
        ensures later { faults self.old ≤ faults self.new };
}

/// What one session reads, writes and keeps.
#[derive(Drop)]
pub struct Desk<S, K, C> {
    pub source: S,
    pub sink: K,
    pub cabinet: C,
}

/// Hands out the documents and the desks of a run.
pub trait Opener {
    type Source: Source + Send + Drop;

    type Sink: Sink + Send + Drop;

    type Cabinet: Cabinet + Send + Drop;

    /// What is told of the document of each name.
    ghost document_of: { Self → List ℕ → Told (List ℕ) };

    /// What is told of the session of each name.
    ghost session_of: { Self → List ℕ → Told ToldDesk };

    /// How often it has failed.
    ghost faults: { Self → ℕ };

    /// The document of that name, of at most `limit` bytes. A missing one is Failed.
    fn document(&mut self, alloc: Global, name: &str, limit: u64) -> Result<Vec<u8>, CabinetFault>
        ensures told { IfOk result (λ bytes. IsTold (document_of self.old name.now) bytes.items) }
        ensures within { IfOk result (λ bytes. length bytes.items ≤ limit) }
        ensures too_long { IsErrOf result CabinetFault.TooLong → IsTooLong (document_of self.old name.now) limit }
        ensures failed { IsErrOf result CabinetFault.Failed → Rose (faults self.old) (faults self.new) }
        ensures later { faults self.old ≤ faults self.new }
        ensures documents { SameTold (document_of self.old) (document_of self.new) }
        ensures sessions { SameTold (session_of self.old) (session_of self.new) };

    /// The desk of the session of that name. A missing one is Failed.
    fn session(
        &mut self,
        alloc: Global,
        name: &str,
    ) -> Result<Desk<Self::Source, Self::Sink, Self::Cabinet>, OpenFault>
        ensures told { IfOk result (λ desk. IsToldDesk (session_of self.old name.now) (Self.Source.left desk.source) (Self.Sink.held desk.sink) (Self.Cabinet.told desk.cabinet)) }
        ensures source_count { IfOk result (λ desk. Self.Source.faults desk.source ≡ 0) }
        ensures sink_count { IfOk result (λ desk. Self.Sink.faults desk.sink ≡ 0) }
        ensures cabinet_count { IfOk result (λ desk. Self.Cabinet.faults desk.cabinet ≡ 0) }
        ensures failed { IsErrOf result OpenFault.Failed → Rose (faults self.old) (faults self.new) }
        ensures later { faults self.old ≤ faults self.new }
        ensures documents { SameTold (document_of self.old) (document_of self.new) }
        ensures sessions { SameOthers name.now (session_of self.old) (session_of self.new) };
}
