//! Inputs and outputs while memory suffices, and files that don't exist.

use super::compare::{same, same_at};
use std::alloc::{AllocError, Global};
use std::process::Abort;
use std::test::Fail;
use timing_outside::{
    Failed, FileShelf, MemoryShelf, MemorySink, OpenFault, ReadPlan, Shelf, Sink, Source, StdSink,
    SteadyShelf, WritePlan, put_all,
};

// A plan for reads of at most 3 bytes, the second of which fails.
fn plan(alloc: Global, fetch_fails: bool) -> Result<ReadPlan, AllocError> {
    Ok(ReadPlan {
        fetch_fails,
        piece: 3,
        fails: Vec::from_slice(alloc, &[2])?,
    })
}

// Puts contents with such a plan on a shelf.
fn put(
    alloc: Global,
    shelf: &mut MemoryShelf,
    name: &str,
    text: &[u8],
    fetch_fails: bool,
) -> Result<(), AllocError> {
    let name = String::from_str(alloc, name)?;
    let text = Vec::from_slice(alloc, text)?;
    shelf.put(name, text, plan(alloc, fetch_fails)?)?;
    Ok(())
}

// Reads once, and compares the bytes that were read.
fn reads<S: Source>(rt: &impl Abort, source: &mut S, expected: Result<&[u8], Failed>) {
    let mut buf = [0u8; 8];
    let got = match source.read(&mut buf) {
        Ok(count) => Ok(&buf[..count]),
        Err(failed) => Err(failed),
    };
    same(rt, &got, &expected);
}

// The first read of the contents with this name gives these bytes, or fails.
fn reads_first<S: Shelf>(
    rt: &impl Abort,
    shelf: &mut S,
    name: &str,
    expected: Result<&[u8], Failed>,
) {
    match shelf.fetch(name) {
        Ok(mut source) => {
            reads(rt, &mut source, expected);
            shelf.give_back(source);
        }
        Err(_) => panic!(rt; "no {name}"),
    }
}

// Fetching this name succeeds, or fails.
fn fetches<S: Shelf>(rt: &impl Abort, shelf: &mut S, name: &str, expected: bool) {
    match shelf.fetch(name) {
        Ok(source) => {
            shelf.give_back(source);
            same_at(rt, &name, &true, &expected);
        }
        Err(fault) => {
            same_at(rt, &name, &false, &expected);
            same_at(rt, &name, &fault, &OpenFault::Failed);
        }
    }
}

// The reads of five bytes by the plan.
fn reads_five<S: Source>(rt: &impl Abort, source: &mut S) {
    reads(rt, source, Ok(b"123"));
    reads(rt, source, Err(Failed));
    reads(rt, source, Ok(b"45"));
    reads(rt, source, Ok(b""));
}

#[test]
fn planned_reads(rt: HostRuntime) -> Result<(), Fail> {
    let mut shelf = MemoryShelf::new(rt.alloc());
    put(rt.alloc(), &mut shelf, "a.pcap", b"12345", false)?;
    let mut source = shelf.fetch("a.pcap")?;
    reads_five(&rt, &mut source);
    shelf.give_back(source);
    fetches(&rt, &mut shelf, "b.pcap", false);
    Ok(())
}

#[test]
fn put_replaces(rt: HostRuntime) -> Result<(), Fail> {
    let mut shelf = MemoryShelf::new(rt.alloc());
    put(rt.alloc(), &mut shelf, "a", b"old", false)?;
    put(rt.alloc(), &mut shelf, "a", b"", true)?;
    fetches(&rt, &mut shelf, "a", false);
    put(rt.alloc(), &mut shelf, "a", b"new", false)?;
    reads_first(&rt, &mut shelf, "a", Ok(b"new"));
    Ok(())
}

#[test]
fn steady_texts(rt: HostRuntime) -> Result<(), Fail> {
    let name = String::from_str(rt.alloc(), "a")?;
    let text = Vec::from_slice(rt.alloc(), b"text")?;
    let mut shelf = SteadyShelf::new(rt.alloc());
    shelf.put(name, text)?;
    reads_first(&rt, &mut shelf, "a", Ok(b"text"));
    reads_first(&rt, &mut shelf, "b", Ok(b""));
    Ok(())
}

#[test]
fn room_of_ten(rt: HostRuntime) -> Result<(), Fail> {
    let mut sink = MemorySink::new(rt.alloc(), 10)?;
    same(&rt, &sink.write(b""), &Ok(0));
    same(&rt, &put_all(&mut sink, b"ST 2110-21 timing"), &Err(Failed));
    same(&rt, &sink.bytes(), &b"ST 2110-21".as_slice());
    same(&rt, &sink.write(b""), &Ok(0));
    Ok(())
}

#[test]
fn fourth_write_fails(rt: HostRuntime) -> Result<(), Fail> {
    let alloc = rt.alloc();
    let plan = WritePlan {
        piece: 10,
        fails: Vec::from_slice(alloc, &[4])?,
    };
    let mut sink = MemorySink::with_plan(alloc, 4096, plan)?;
    let text =
        b"0001020304050607080910111213141516171819202122232425262728293031323334353637383940414243444546474849";
    same(&rt, &put_all(&mut sink, text), &Err(Failed));
    same(
        &rt,
        &sink.bytes(),
        &b"000102030405060708091011121314".as_slice(),
    );
    Ok(())
}

// Fetching a directory succeeds, and its first read fails.
fn has_no_bytes<S: Shelf>(rt: &impl Abort, shelf: &mut S, folder: &str) {
    match shelf.fetch(folder) {
        Ok(mut source) => {
            reads(rt, &mut source, Err(Failed));
            shelf.give_back(source);
        }
        Err(fault) => same(rt, &fault, &OpenFault::Failed),
    }
}

#[test]
fn files_of_the_system(rt: HostRuntime) {
    let mut shelf = FileShelf::new(rt);
    reads_first(&rt, &mut shelf, "/dev/null", Ok(b""));
    fetches(&rt, &mut shelf, "/dev/null/none", false);
    has_no_bytes(&rt, &mut shelf, "/");
}

// A file that isn't regular can be fetched only once, like the null device; a regular one again, like the program
// itself.
#[test]
fn fetched_again(rt: HostRuntime) {
    let mut shelf = FileShelf::new(rt);
    let rows = [
        ("/dev/null", true),
        ("/dev/null", false),
        ("/dev/null", false),
        ("/proc/self/exe", true),
        ("/proc/self/exe", true),
    ];
    for (name, fetched) in rows {
        fetches(&rt, &mut shelf, name, fetched);
    }
}

// A line is written whole.
fn takes_line<S: Sink>(rt: &impl Abort, sink: &mut S) {
    same(rt, &put_all(sink, b"a line\n"), &Ok(()));
}

#[test]
fn standard_streams(rt: HostRuntime) {
    takes_line(&rt, &mut StdSink::new(&rt, rt.stdout()));
    takes_line(&rt, &mut StdSink::new(&rt, rt.stderr()));
}
