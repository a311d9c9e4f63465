// What a run leaves, and the summary of its sessions.
ghost use Rattle.std.specs.Prelude.{◌≡◌, ◌++◌, OnOk};
ghost use Rattle.host_top.specs.Summary.{end_name, session_line, states_line, marked};

use crate::names::Names;
use animator::End;
use host_io::{Desk, Opener};
use sqlite_items::Items;
use std::alloc::{AllocError, Global};

/// The end of a session: its desk, how it ended, how many lines were answered, and which of them memory refused.
#[derive(Drop)]
pub struct SessionEnd<S, K, C> {
    pub desk: Desk<S, K, C>,
    pub end: End,
    pub lines: u64,
    pub marks: Items<bool>,
}

/// What a run leaves.
#[derive(Drop)]
pub struct Finished<O: Opener> {
    pub status: u8,
    pub names: Names,
    pub sessions: Vec<SessionEnd<O::Source, O::Sink, O::Cabinet>>,
}

fn end_bytes(end: End) -> &'static [u8]
    ensures { result.now ≡ end_name end }
{
    match end {
        End::Quit => b"quit",
        End::EndOfInput => b"end-of-input",
        End::SourceFault => b"source-fault",
        End::SinkFault => b"sink-fault",
        End::LineLimit => b"line-limit",
        End::NoMemory => b"no-memory",
    }
}

/// The number of set marks.
pub fn count_marked(marks: &[bool]) -> usize
    ensures { result ≡ marked marks.now }
{
    marks.iter().filter(|mark| **mark).count()
}

/// The line of a session in the summary.
pub fn push_session_line(
    alloc: Global,
    out: &mut Vec<u8>,
    name: &str,
    end: End,
    lines: u64,
    marks: &[bool],
) -> Result<(), AllocError>
    ensures { OnOk result (out.new.items ≡ out.old.items ++ session_line name.now end lines marks.now) }
{
    out.extend_from_slice(b"session ")?;
    out.extend_from_slice(name.as_bytes())?;
    out.extend_from_slice(b" ")?;
    out.extend_from_slice(end_bytes(end))?;
    let memory = count_marked(marks);
    out.extend_from_slice(format!(in alloc; " lines {lines} memory {memory}\n")?.as_bytes())
}

/// The line of the names in the summary.
pub fn push_states_line(alloc: Global, out: &mut Vec<u8>, count: u64) -> Result<(), AllocError>
    ensures { OnOk result (out.new.items ≡ out.old.items ++ states_line count) }
{
    out.extend_from_slice(format!(in alloc; "states {count}\n")?.as_bytes())
}
