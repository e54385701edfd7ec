//! The standard streams of the process.

use std::io::{ErrorKind, Stderr, Stdout, Write};
use std::rt::Files;
use std::{fs, io};

/// Standard output or standard error, so that the sinks of both have one type.
#[derive(Clone, Copy)]
pub(crate) enum Stream {
    /// Standard output.
    Out(Stdout),
    /// Standard error.
    Err(Stderr),
}

impl Write for Stream {
    fn write(&mut self, buf: &[u8]) -> io::Result<usize> {
        match self {
            Stream::Out(stdout) => stdout.write(buf),
            Stream::Err(stderr) => stderr.write(buf),
        }
    }

    fn flush(&mut self) -> io::Result<()> {
        match self {
            Stream::Out(stdout) => stdout.flush(),
            Stream::Err(stderr) => stderr.flush(),
        }
    }
}

/// Opens the null device for each standard stream that is closed. A file gets the lowest free descriptor, so that
/// otherwise a capture could get that of a closed stream, and be used in its place. If there is no null device, the
/// program goes on without it.
pub(crate) fn null_devices<R: Files>(rt: &R) -> [Option<io::Result<R::File>>; 3] {
    [
        null_if_closed(rt, "/proc/self/fd/0"),
        null_if_closed(rt, "/proc/self/fd/1"),
        null_if_closed(rt, "/proc/self/fd/2"),
    ]
}

/// Opens the null device if the system has no link for this stream: the stream is closed, or the system doesn't list
/// streams.
fn null_if_closed<R: Files>(rt: &R, link: &str) -> Option<io::Result<R::File>> {
    match fs::symlink_metadata(rt, link) {
        Err(error) if error.kind() == ErrorKind::NotFound => Some(open_null(rt)),
        _ => None,
    }
}

/// Opens the null device for reading; a write to it fails.
fn open_null<R: Files>(rt: &R) -> io::Result<R::File> {
    fs::open(rt, "/dev/null")
}
