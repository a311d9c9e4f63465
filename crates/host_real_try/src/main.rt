//! Tries the adapters over real files and the standard streams, each call once: what it prints is compared.
#![tactic(auto)]

use host_io::{Cabinet, CabinetFault, OpenFault, Opener, Sink, Source};
use host_real::RealOpener;
use std::alloc::Global;
use std::io;

fn show(rt: &impl io::Print, read: Result<Vec<u8>, CabinetFault>) -> io::Result<()> {
    match read {
        Ok(bytes) => println!(rt; "{:?}", str::from_utf8(bytes.as_slice())),
        Err(fault) => println!(rt; "{fault:?}"),
    }
}

fn documents(rt: &impl io::Print, alloc: Global, opener: &mut impl Opener) -> io::Result<()> {
    show(rt, opener.document(alloc, "m.mch", 12))?;
    show(rt, opener.document(alloc, "m.mch", 11))?;
    show(rt, opener.document(alloc, "none", 11))
}

fn kept(rt: &impl io::Print, alloc: Global, cabinet: &mut impl Cabinet) -> io::Result<()> {
    show(rt, cabinet.load(alloc, b"doc", 5))?;
    println!(rt; "{:?}", cabinet.store(alloc, b"doc", b"traces", 5))?;
    println!(rt; "{:?}", cabinet.store(alloc, b"doc", b"trace", 5))?;
    show(rt, cabinet.load(alloc, b"doc", 5))?;
    show(rt, cabinet.load(alloc, b"doc", 4))
}

fn session(
    rt: &impl io::Print,
    alloc: Global,
    opener: &mut impl Opener,
    name: &str,
) -> io::Result<()> {
    match opener.session(alloc, name) {
        Ok(mut desk) => {
            for _ in 0..6 {
                let mut byte = [b'.'];
                println!(rt; "{:?} {byte:?}", desk.source.take(&mut byte))?;
            }
            println!(rt; "{:?}", desk.sink.give(b""))?;
            println!(rt; "{:?}", desk.sink.give(b"reply\n"))?;
            kept(rt, alloc, &mut desk.cabinet)
        }
        Err(fault) => println!(rt; "{fault:?}"),
    }
}

fn main(rt: HostRuntime) -> io::Result<()> {
    let alloc = rt.alloc();
    let mut opener = RealOpener::new(&rt);
    documents(&rt, alloc, &mut opener)?;
    session(&rt, alloc, &mut opener, "s.txt")?;
    show(&rt, opener.document(alloc, "s.txt.out", 6))?;
    session(&rt, alloc, &mut opener, "none")?;
    session(&rt, alloc, &mut opener, "console")
}
