//! Files, standard output and standard error. Whatever bytes the system's files and streams have, a source hands out those
//! of its file, and a sink passes on those that it takes.
ghost use Rattle.std.specs.Prelude.{◌≡◌, ◌≤◌, ◌<◌, ◌^◌, ◌&&◌, ℕ, List, true, length, None, IfOk, IsErrOf, is_err, nat_lt, string_bytes};
ghost use Rattle.std.specs.Str.{bytes_eq};
ghost use Rattle.std.specs.Io.{ReadsAtMost};
ghost use Rattle.std.specs.Io.KnownBytes.{Keeps, ReadConsumes, WriteAppends};
ghost use Rattle.timing_outside.specs.Causes.{Rose};
ghost use Rattle.timing_outside.specs.Counts.{has_failed, raised_if};

use crate::shelf::{OpenFault, Shelf};
use crate::sink::Sink;
use crate::source::{Failed, Source};
use std::alloc::AllocError as OutOfMemory;
use std::collections::BTreeMap;
use std::io::{ErrorKind, Read, Write};
use std::rt::{Clock, Files};
use std::time::Duration;
use std::{fmt, fs, io, thread};

/// The number of tries after which a call that signals interrupt counts as failed.
const TRIES: u32 = 1000;

/// The pause before another write to a stream that had no room, in milliseconds.
const REST: u64 = 1;

/// The reason why a file couldn't be opened or read.
#[derive(Clone, Copy)]
pub enum FileFault {
    /// The system returned this error.
    System(io::Error),
    /// The name was fetched before and isn't that of a regular file, so its contents can't be read
    /// again.
    ReadBefore,
}

impl fmt::Display for FileFault {
    fn fmt<W: fmt::Write>(&self, f: &mut fmt::Formatter<W>) -> fmt::Result {
        match self {
            FileFault::System(error) => write!(f, "{error}"),
            FileFault::ReadBefore => f.write_str(
                "what isn't a regular file can be read only once, and it is named twice",
            ),
        }
    }
}

/// The reason why a file wasn't opened.
enum Unopened {
    /// This fault, which has to be counted.
    Fault(FileFault),
    /// Memory ran out.
    OutOfMemory,
}

/// The count of faults of a name, and its last fault.
#[derive(Drop)]
pub(crate) struct NameCount {
    faults: u64,
    fault: Option<FileFault>,
    ghost within: { faults < 2 ^ 64 },
}

/// The files of the system.
///
/// Each name that was fetched has a count of faults of its own. All other names share one count.
#[derive(Drop)]
pub struct FileShelf<R: Drop> {
    rt: R,
    names: BTreeMap<String, NameCount>,
    others: u64,
}

/// An open file with its name. It counts the reads that failed, and keeps the last error.
#[derive(Drop)]
pub struct FileSource<F: Drop> {
    name: String,
    file: F,
    faults: u64,
    fault: Option<FileFault>,
}

/// A sink over a stream, as standard output or standard error. A write that fails is counted as a
/// fault. So is one that writes no byte although there is one. If the stream is non-blocking and has
/// no room, a write waits.
#[derive(Drop)]
pub struct StdSink<C: Drop, W: Drop> {
    clock: C,
    stream: W,
    faults: u64,
}

impl<R: Files + AllocGlobal + Drop> FileShelf<R> {
    ghost use Rattle.timing_outside.specs.Files.{count_of, count_after, fault_of, is_known, name_of, source_faults};

    /// Returns the files that this runtime gives access to. No name was fetched yet.
    pub fn new(rt: R) -> FileShelf<R>
        ensures { (n : List ℕ) → count_of result n ≡ 0 }
    {
        let names = BTreeMap::new(rt.alloc());
        FileShelf {
            rt,
            names,
            others: 0,
        }
    }

    /// Gives this name a count of its own if it has none, and returns whether it had one, that is,
    /// whether it was fetched before. Returns `Err` if memory runs out.
    #[tactic(auto, using(std::proofs::lemmas::Map::Text::text_keys))]
    fn admit(&mut self, name: &str) -> Result<bool, OutOfMemory>
        ensures again { IfOk result (λ again. again ≡ is_known self.old name.now) }
        ensures known { IfOk result (λ _. is_known self.new name.now ≡ true) }
        ensures counts { (n : List ℕ) → count_of self.new n ≡ count_of self.old n }
    {
        if self.names.contains_key(name) {
            return Ok(true);
        }
        let key = String::from_str(self.rt.alloc(), name)?;
        let faults = self.faults_of(name);
        let count = NameCount {
            faults,
            fault: None,
        };
        self.names.insert(key, count)?;
        Ok(false)
    }

    /// Returns the number of faults of this name.
    fn faults_of(&self, name: &str) -> u64
        ensures { result ≡ count_of self.now name.now }
    {
        match self.names.get(name) {
            Some(count) => count.faults,
            None => self.others,
        }
    }

    /// Returns the last fault of this name, if it was fetched and has failed.
    pub fn fault_of(&self, name: &str) -> Option<FileFault>
        ensures { result ≡ fault_of self.now name.now }
    {
        match self.names.get(name) {
            Some(count) => count.fault,
            None => None,
        }
    }

    /// Counts a fault of this name, and keeps the fault if the name was fetched.
    #[tactic(auto, using(std::proofs::lemmas::Map::Text::text_keys))]
    fn raise(&mut self, name: &str, fault: Option<FileFault>)
        ensures { (n : List ℕ) → count_of self.new n ≡ count_after true self.old name.now n }
    {
        match self.names.get_mut(name) {
            Some(count) => {
                count.faults = count.faults.saturating_add(1);
                count.fault = fault;
            }
            None => self.others = self.others.saturating_add(1),
        }
    }

    /// Returns whether this name is that of a regular file, which can be read more than once. A
    /// pipe isn't one.
    fn is_regular(&self, name: &str) -> bool {
        match fs::metadata(&self.rt, name) {
            Ok(metadata) => metadata.is_file(),
            Err(_) => false,
        }
    }

    /// Opens the file of this name. If the name was fetched before (`again`) and isn't that of a
    /// regular file, nothing is opened.
    fn open(&self, name: String, again: bool) -> Result<FileSource<R::File>, Unopened>
        ensures named { IfOk result (λ s. name_of s ≡ string_bytes name) }
        ensures fresh { IfOk result (λ s. source_faults s ≡ 0) }
    {
        if again && !self.is_regular(name.as_str()) {
            return Err(Unopened::Fault(FileFault::ReadBefore));
        }
        match fs::open(&self.rt, name.as_str()) {
            Ok(file) => Ok(FileSource {
                name,
                file,
                faults: 0,
                fault: None,
            }),
            Err(error) if error.kind() == ErrorKind::OutOfMemory => Err(Unopened::OutOfMemory),
            Err(error) => Err(Unopened::Fault(FileFault::System(error))),
        }
    }
}

impl<R: Files + AllocGlobal + Drop> Shelf for FileShelf<R>
where
    R::File: Send,
{
    ghost use Rattle.timing_outside.specs.Files.{count_of, count_after, source_faults, name_of};

    type Source = FileSource<R::File>;

    ghost text = { λ _ _. None };

    ghost lacks = { λ _ _. ⊥ };

    ghost faults = { λ s n. count_of s n };

    /// Opens the file of this name. An error of the system is counted and returned as `Failed`. An
    /// error that means that memory ran out isn't counted and is returned as `OutOfMemory`. If
    /// there is no memory to keep the name, nothing is opened.
    ///
    /// A name that was fetched before is opened only if it is that of a regular file. Otherwise the
    /// result is `Failed`, because the contents can't be read again.
    fn fetch(&mut self, name: &str) -> Result<FileSource<R::File>, OpenFault>
        ensures named { IfOk result (λ s. name_of s ≡ name.now) }
        ensures fresh { IfOk result (λ s. source_faults s ≡ 0) }
        ensures later { (n : List ℕ) → count_of self.old n ≤ count_of self.new n }
        ensures failed { IsErrOf result OpenFault.Failed
            → Rose (count_of self.old name.now) (count_of self.new name.now) }

        // The count of no other name changes.
        ensures counts { (n : List ℕ) → count_of self.new n
            ≡ raised_if (has_failed result && bytes_eq name.now n) (count_of self.old n) }
    {
        let held = String::from_str(self.rt.alloc(), name)?;
        let again = self.admit(name)?;
        match self.open(held, again) {
            Ok(source) => Ok(source),
            Err(Unopened::Fault(fault)) => {
                self.raise(name, Some(fault));
                Err(OpenFault::Failed)
            }
            Err(Unopened::OutOfMemory) => Err(OpenFault::OutOfMemory),
        }
    }

    /// Counts a fault of the source's name if a read of the source has failed.
    fn give_back(&mut self, source: FileSource<R::File>)
        ensures raised { 0 < source_faults source
            → Rose (count_of self.old (name_of source)) (count_of self.new (name_of source)) }
        ensures later { (n : List ℕ) → count_of self.old n ≤ count_of self.new n }

        ensures counts { (n : List ℕ) → count_of self.new n
            ≡ count_after (nat_lt 0 (source_faults source)) self.old (name_of source) n }
    {
        if source.faults > 0 {
            self.raise(source.name.as_str(), source.fault);
        }
    }
}

impl<F: Read + Send + Drop> Source for FileSource<F> {
    ghost use Rattle.timing_outside.specs.Files.{file_of, source_faults, name_of};

    ghost name = { λ s. name_of s };

    ghost left = { λ _. None };

    ghost faults = { λ s. source_faults s };

    /// Reads some of the bytes. A read that a signal interrupts is tried again, up to 1,000 tries.
    fn read(&mut self, buf: &mut [u8]) -> Result<usize, Failed>
        ensures same_name { name_of self.new ≡ name_of self.old }
        ensures bound { ReadsAtMost result buf.new }
        ensures counts { source_faults self.new
            ≡ raised_if (is_err result) (source_faults self.old) }

        // The bytes come off the front of what the file has left: none is skipped, none comes twice,
        // and `Ok(0)` comes only at the end.
        ensures file { ReadConsumes (F.remaining (file_of self.old)) (F.remaining (file_of self.new))
            result buf.new }
    {
        match read_some(&mut self.file, buf) {
            Ok(count) => Ok(count),
            Err(error) => {
                self.faults = self.faults.saturating_add(1);
                self.fault = Some(FileFault::System(error));
                Err(Failed)
            }
        }
    }
}

/// Reads some of the bytes. A read that a signal interrupts is tried again.
fn read_some<F: Read>(file: &mut F, buf: &mut [u8]) -> io::Result<usize>
    ensures bound { ReadsAtMost result buf.new }
    ensures bytes { ReadConsumes (F.remaining file.old) (F.remaining file.new) result buf.new }
{
    for _ in 0..TRIES {
        match file.read(buf) {
            Err(error) if error.kind() == ErrorKind::Interrupted => {}
            answer => return answer,
        }
    }
    Err(io::Error::from(ErrorKind::Interrupted))
}

/// Writes some of the bytes. A write that a signal interrupts is tried again.
fn write_some<W: Write>(stream: &mut W, bytes: &[u8]) -> io::Result<usize>
    ensures bound { IfOk result (λ k. k ≤ length bytes.now) }
    ensures bytes { WriteAppends (W.contents stream.old) (W.contents stream.new) result bytes.now }
{
    for _ in 0..TRIES {
        match stream.write(bytes) {
            Err(error) if error.kind() == ErrorKind::Interrupted => {}
            answer => return answer,
        }
    }
    Err(io::Error::from(ErrorKind::Interrupted))
}

/// Writes some of the bytes. If the stream has no room, waits and tries again.
fn write_waiting<C: Clock, W: Write>(clock: &C, stream: &mut W, bytes: &[u8]) -> io::Result<usize>
    ensures bound { IfOk result (λ k. k ≤ length bytes.now) }
    ensures bytes { WriteAppends (W.contents stream.old) (W.contents stream.new) result bytes.now }
{
    for _ in 0..u64::MAX {
        match write_some(stream, bytes) {
            Err(error) if error.kind() == ErrorKind::WouldBlock => {
                thread::sleep(clock, Duration::from_millis(REST));
            }
            answer => return answer,
        }
    }
    Err(io::Error::from(ErrorKind::WouldBlock))
}

impl<C: Clock + Drop, W: Write + Drop> StdSink<C, W> {
    ghost use Rattle.timing_outside.specs.Files.{sink_faults, stream_of};

    /// Returns the sink of this stream.
    pub fn new(clock: C, stream: W) -> StdSink<C, W>
        ensures faults { sink_faults result ≡ 0 }
        ensures stream { stream_of result ≡ stream }
    {
        StdSink {
            clock,
            stream,
            faults: 0,
        }
    }
}

impl<C: Clock + Drop, W: Write + Drop> Sink for StdSink<C, W> {
    ghost use Rattle.timing_outside.specs.Files.{sink_faults, stream_of};

    ghost written = { λ s. W.contents (stream_of s) };

    ghost faults = { λ s. sink_faults s };

    /// Writes some of the bytes. A write that a signal interrupts is tried again, up to 1,000
    /// tries. If the stream has no room, the write is tried again until it has.
    fn write(&mut self, bytes: &[u8]) -> Result<usize, Failed>
        ensures bound { IfOk result (λ k. k ≤ length bytes.now) }
        ensures some { IfOk result (λ k. 0 < length bytes.now → 0 < k) }
        ensures bytes { WriteAppends (W.contents (stream_of self.old)) (W.contents (stream_of self.new))
            result bytes.now }
        ensures counts { sink_faults self.new ≡ raised_if (is_err result) (sink_faults self.old) }
    {
        match write_waiting(&self.clock, &mut self.stream, bytes) {
            Ok(count) if count > 0 || bytes.is_empty() => Ok(count),
            _ => {
                self.faults = self.faults.saturating_add(1);
                Err(Failed)
            }
        }
    }
}
