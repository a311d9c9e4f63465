//! The host over real files: the words of the command line, the machine's document and the session's from the current
//! folder, and the run's text on standard output.
#![tactic(auto)]

use host_real::{RealOpener, RealSink};
use host_top::host;
use std::process::ExitCode;
use std::{env, io};

fn main(rt: HostRuntime) -> io::Result<ExitCode> {
    let alloc = rt.alloc();
    let mut words = Vec::new(alloc);
    for word in env::args(&rt)?.skip(1) {
        words.push(word)?;
    }
    let mut opener = RealOpener::new(&rt);
    let mut out = RealSink::new(io::writer(&rt));
    let finished = host(&rt, alloc, words.as_slice(), &mut opener, &mut out);
    Ok(ExitCode::from(finished.status))
}
