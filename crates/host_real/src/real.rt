// The outside as real files of the current folder and the standard streams. What they hold isn't told.
ghost use Rattle.std.specs.Prelude.{◌≡◌, ◌≢◌, ◌≤◌, None, false, IfOk, IfErr, IsErrOf, length};
ghost use Rattle.host_io.specs.Outside.{Rose, Untold};

use either::Either;
use host_io::{Cabinet, CabinetFault, Desk, Failed, OpenFault, Opener, Sink, Source};
use std::alloc::Global;
use std::io::{BufReader, ErrorKind, Input, Printer, Read, Write};
use std::rt::Files;
use std::{fs, io};

/// A source over a reader, which it buffers. At its end it stays there.
#[derive(Drop)]
pub struct RealSource<R> {
    reader: BufReader<R>,
    ended: bool,
    faults: u64,
}

impl<R: Read + Drop> RealSource<R> {
    /// The error is want of memory for the buffer.
    pub fn new(alloc: Global, reader: R) -> io::Result<RealSource<R>>
        ensures { IfOk result (λ s. s.faults ≡ 0) }
    {
        Ok(RealSource {
            reader: BufReader::new(alloc, reader)?,
            ended: false,
            faults: 0,
        })
    }
}

impl<R: Read> Source for RealSource<R> {
    ghost left = { λ s. None };

    ghost faults = { λ s. s.faults };

    fn take(&mut self, into: &mut [u8]) -> Result<usize, Failed> {
        if self.ended {
            return Ok(0);
        }
        match self.reader.read(into) {
            Ok(count) => {
                self.ended = count == 0;
                Ok(count)
            }
            Err(_) => {
                self.faults = self.faults.saturating_add(1);
                Err(Failed)
            }
        }
    }
}

/// A sink over a writer.
#[derive(Drop)]
pub struct RealSink<W> {
    writer: W,
    faults: u64,
}

impl<W> RealSink<W> {
    pub fn new(writer: W) -> RealSink<W>
        ensures { result.faults ≡ 0 }
    {
        RealSink { writer, faults: 0 }
    }
}

impl<W: Write> Sink for RealSink<W> {
    ghost held = { λ k. None };

    ghost faults = { λ k. k.faults };

    fn give(&mut self, bytes: &[u8]) -> Result<usize, Failed> {
        if bytes.is_empty() {
            return Ok(0);
        }
        match self.writer.write(bytes) {
            Ok(count) if count > 0 => Ok(count),
            _ => {
                self.faults = self.faults.saturating_add(1);
                Err(Failed)
            }
        }
    }
}

// The bytes of a file, of which one more than the limit is read at most.
fn read_file<R: Files>(files: &R, alloc: Global, path: &str, limit: u64) -> io::Result<Vec<u8>> {
    let mut bytes = Vec::new(alloc);
    fs::open(files, path)?
        .take(limit.saturating_add(1))
        .read_to_end(&mut bytes)?;
    Ok(bytes)
}

// Raises the count.
fn count_fault(faults: &mut u64)
    ensures rose { Rose faults.old faults.new }
    ensures later { faults.old ≤ faults.new }
{
    *faults = faults.saturating_add(1);
}

// What an error says, where nothing was written yet: want of memory is no fault.
fn fault_of(faults: &mut u64, error: &io::Error) -> CabinetFault
    ensures failed { result ≡ CabinetFault.Failed → Rose faults.old faults.new }
    ensures later { faults.old ≤ faults.new }
    ensures limit { result ≢ CabinetFault.TooLong }
{
    if error.kind() == ErrorKind::OutOfMemory {
        return CabinetFault::Memory;
    }
    count_fault(faults);
    CabinetFault::Failed
}

// The answer to a reading.
fn read_answer(
    faults: &mut u64,
    read: io::Result<Vec<u8>>,
    limit: u64,
) -> Result<Vec<u8>, CabinetFault>
    ensures within { IfOk result (λ bytes. length bytes.items ≤ limit) }
    ensures failed { IsErrOf result CabinetFault.Failed → Rose faults.old faults.new }
    ensures later { faults.old ≤ faults.new }
{
    match read {
        Ok(bytes) => {
            if bytes.len() as u64 > limit {
                Err(CabinetFault::TooLong)
            } else {
                Ok(bytes)
            }
        }
        Err(error) => Err(fault_of(faults, &error)),
    }
}

// Writes these bytes to an opened file. Every error is a fault, since some of them may be written.
fn write_answer<W: Write + Drop>(
    faults: &mut u64,
    mut file: W,
    bytes: &[u8],
) -> Result<(), CabinetFault>
    ensures failed { IsErrOf result CabinetFault.Failed → Rose faults.old faults.new }
    ensures later { faults.old ≤ faults.new }
    ensures only { IfErr result (λ fault. fault ≡ CabinetFault.Failed) }
{
    match file.write_all(bytes) {
        Ok(()) => Ok(()),
        Err(_) => {
            count_fault(faults);
            Err(CabinetFault::Failed)
        }
    }
}

/// Files of the current folder, by their names.
#[derive(Drop)]
pub struct RealCabinet<'a, R> {
    files: &'a R,
    faults: u64,
}

impl<'a, R> RealCabinet<'a, R> {
    pub fn new(files: &'a R) -> RealCabinet<'a, R>
        ensures { result.faults ≡ 0 }
    {
        RealCabinet { files, faults: 0 }
    }
}

impl<'a, R: Files> Cabinet for RealCabinet<'a, R> {
    ghost tells = { false };

    ghost told = { λ c n. Untold };

    ghost faults = { λ c. c.faults };

    fn load(&mut self, alloc: Global, name: &[u8], limit: u64) -> Result<Vec<u8>, CabinetFault> {
        let Ok(path) = str::from_utf8(name) else {
            count_fault(&mut self.faults);
            return Err(CabinetFault::Failed);
        };
        let read = read_file(self.files, alloc, path, limit);
        read_answer(&mut self.faults, read, limit)
    }

    fn store(
        &mut self,
        alloc: Global,
        name: &[u8],
        bytes: &[u8],
        limit: u64,
    ) -> Result<(), CabinetFault> {
        if bytes.len() as u64 > limit {
            return Err(CabinetFault::TooLong);
        }
        let Ok(path) = str::from_utf8(name) else {
            count_fault(&mut self.faults);
            return Err(CabinetFault::Failed);
        };
        match fs::create(self.files, path) {
            Ok(file) => write_answer(&mut self.faults, file, bytes),
            Err(error) => Err(fault_of(&mut self.faults, &error)),
        }
    }
}

/// Documents and sessions as files of the current folder: a session reads the file of its name, and writes that name
/// with `.out`. The session `console` reads standard input and writes standard output.
#[derive(Drop)]
pub struct RealOpener<'a, R> {
    rt: &'a R,
    faults: u64,
}

impl<'a, R> RealOpener<'a, R> {
    pub fn new(rt: &'a R) -> RealOpener<'a, R>
        ensures { result.faults ≡ 0 }
    {
        RealOpener { rt, faults: 0 }
    }
}

// The reader and the writer of a session.
fn open_streams<'a, R: Files + Input + Print>(
    rt: &'a R,
    alloc: Global,
    name: &str,
) -> io::Result<(Either<R::File, R::Reader>, Either<R::File, Printer<'a, R>>)> {
    if name == "console" {
        return Ok((Either::Right(rt.reader()), Either::Right(io::writer(rt))));
    }
    let out_name = format!(in alloc; "{name}.out")?;
    let reader = fs::open(rt, name)?;
    let writer = fs::create(rt, out_name.as_str())?;
    Ok((Either::Left(reader), Either::Left(writer)))
}

impl<'a, R: Files + Input + Print + Sync> Opener for RealOpener<'a, R>
where
    R::File: Send + Drop,
    R::Reader: Send + Drop,
{
    type Source = RealSource<Either<R::File, R::Reader>>;

    type Sink = RealSink<Either<R::File, Printer<'a, R>>>;

    type Cabinet = RealCabinet<'a, R>;

    ghost document_of = { λ o n. Untold };

    ghost session_of = { λ o n. Untold };

    ghost faults = { λ o. o.faults };

    fn document(&mut self, alloc: Global, name: &str, limit: u64) -> Result<Vec<u8>, CabinetFault> {
        let read = read_file(self.rt, alloc, name, limit);
        read_answer(&mut self.faults, read, limit)
    }

    fn session(
        &mut self,
        alloc: Global,
        name: &str,
    ) -> Result<Desk<Self::Source, Self::Sink, Self::Cabinet>, OpenFault> {
        match open_streams(self.rt, alloc, name) {
            Ok((reader, writer)) => match RealSource::new(alloc, reader) {
                Ok(source) => Ok(Desk {
                    source,
                    sink: RealSink::new(writer),
                    cabinet: RealCabinet::new(self.rt),
                }),
                Err(_) => Err(OpenFault::Memory),
            },
            Err(error) => {
                if error.kind() == ErrorKind::OutOfMemory {
                    return Err(OpenFault::Memory);
                }
                count_fault(&mut self.faults);
                Err(OpenFault::Failed)
            }
        }
    }
}
