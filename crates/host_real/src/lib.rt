//! The outside as files of the current folder and the standard streams.
#![tactic(auto)]

mod real;

pub use real::{RealCabinet, RealOpener, RealSink, RealSource};
