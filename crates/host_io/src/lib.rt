//! What the host takes from outside and gives back: sources, sinks, cabinets and the opener that hands them out,
//! and forms of them in memory.
#![tactic(auto)]

mod calls;
mod mem_cabinet;
mod mem_opener;
mod mem_sink;
mod mem_source;
mod outside;

pub use calls::Calls;
pub use mem_cabinet::{MemCabinet, MemDocument};
pub use mem_opener::{MemOpener, MemSession};
pub use mem_sink::MemSink;
pub use mem_source::MemSource;
pub use outside::{Cabinet, CabinetFault, Desk, Failed, OpenFault, Opener, Sink, Source};
