// One session, from its desk to its end.
ghost use Rattle.std.specs.Prelude.{◌≡◌, ◌≢◌, ◌≤◌, [], ◌∷◌, ℕ, List, IfOk, IfSome, vec_capacity};
ghost use Rattle.host_io.specs.Outside.{Rose, Told};
ghost use Rattle.b_values.specs.declared.values.State.TheVariants.{Root};
ghost use Rattle.animator.specs.declared.model.End.TheVariants.{Quit, SourceFault, SinkFault, NoMemory};
ghost use Rattle.animator.specs.Names.{BeginsWithRoot, AreDistinct};
ghost use Rattle.animator.specs.Private.{IsAnimated};
ghost use Rattle.host_top.specs.Machines.{meaning_of};

use crate::finish::SessionEnd;
use crate::machine::Machine;
use crate::names::Names;
use crate::reply::ReplyText;
use crate::solo::run_lines;
use animator::End;
use host_io::{Desk, Sink, Source};
use sqlite_items::Items;
use std::alloc::{AllocError, Global};

const MOST_BYTES: usize = 65_536;

struct Buffers {
    names: Names,
    line: Vec<u8>,
    marks: Vec<bool>,
    reply: ReplyText,
}

// What a session needs before its first line.
fn take_buffers(alloc: Global) -> Result<Buffers, AllocError>
    ensures names { IfOk result (λ b. b.names ≡ Root ∷ []) }
    ensures line { IfOk result (λ b. 65536 ≤ vec_capacity b.line) }
    ensures marks { IfOk result (λ b. 65536 ≤ vec_capacity b.marks) }
    ensures no_marks { IfOk result (λ b. b.marks.items ≡ []) }
{
    Ok(Buffers {
        names: Names::new(alloc)?,
        line: Vec::with_capacity(alloc, MOST_BYTES)?,
        marks: Vec::with_capacity(alloc, MOST_BYTES)?,
        reply: ReplyText::new(alloc)?,
    })
}

/// Runs one session over its desk.
pub fn solo_session<S: Source + Drop, K: Sink + Drop, C: Drop>(
    alloc: Global,
    machine: &Machine,
    desk: Desk<S, K, C>,
) -> (SessionEnd<S, K, C>, Names)
    ensures animated { IfSome (S.left desk.source) (λ bytes. IfSome (K.held desk.sink) (λ before. (documents : List ℕ → Told (List ℕ))
        → IsAnimated (meaning_of machine.now) result.1 (record { source = bytes; sink = before; documents = documents })
        (record { end = result.0.end; lines = result.0.lines; marks = result.0.marks; held = K.held result.0.desk.sink; source_faults = S.faults result.0.desk.source; sink_faults = K.faults result.0.desk.sink }))) }
    ensures names { result.0.end ≢ NoMemory → BeginsWithRoot result.1 }
    ensures distinct { AreDistinct result.1 }
    ensures source_later { S.faults desk.source ≤ S.faults result.0.desk.source }
    ensures sink_later { K.faults desk.sink ≤ K.faults result.0.desk.sink }
    ensures source_fault { result.0.end ≡ SourceFault → Rose (S.faults desk.source) (S.faults result.0.desk.source) }
    ensures sink_fault { result.0.end ≡ SinkFault → Rose (K.faults desk.sink) (K.faults result.0.desk.sink) }
    ensures no_memory { result.0.end ≡ NoMemory → result.0.lines ≡ 0 }
    ensures no_quit { result.0.end ≢ Quit }
{
    let buffers = match take_buffers(alloc) {
        Ok(buffers) => buffers,
        Err(AllocError) => {
            let end = SessionEnd {
                desk,
                end: End::NoMemory,
                lines: 0,
                marks: Items::new(alloc),
            };
            return (end, Names::none(alloc));
        }
    };
    let Buffers {
        mut names,
        mut line,
        mut marks,
        mut reply,
    } = buffers;
    let Desk {
        mut source,
        mut sink,
        cabinet,
    } = desk;
    let end = run_lines(
        alloc,
        machine,
        &mut names,
        &mut source,
        &mut sink,
        &mut line,
        &mut marks,
        &mut reply,
    );
    let session = SessionEnd {
        desk: Desk {
            source,
            sink,
            cabinet,
        },
        end,
        lines: marks.len() as u64,
        marks: Items::from_vec(marks),
    };
    let _count = names.len();
    (session, names)
}
