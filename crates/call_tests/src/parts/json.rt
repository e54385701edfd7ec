//! JSON reports on both sides of each limit of what is read, while memory suffices.

use std::alloc::{AllocError, Global};
use std::process::Abort;
use std::test::Fail;
use timing_base::{Broken, FailProof, FlowKey, Kind};
use timing_report::json_report::{ReportError, ReportProof, read_json};

// Whether the bytes are in the form of a report. Memory suffices.
fn is_read(rt: &impl Abort, alloc: Global, bytes: &[u8]) -> bool {
    match read_json(alloc, bytes) {
        Ok(_) => true,
        Err(ReportError::Refused) => false,
        Err(ReportError::OutOfMemory) => {
            assert!(rt; false, "out of memory");
            false
        }
    }
}

/// Whole texts, and whether each is read.
static WHOLE_TEXTS: [(&[u8], bool); 20] = [
    (b"{\"flows\":[]}", true),
    (b" \t\r\n{ \"flows\" : [ ] }\n", true),
    (
        b"{\"flows\":[],\"other\":[1.5,null,\"\\ud83d\\ude00\"]}",
        true,
    ),
    (b"", false),
    (b"[]", false),
    (b"\"flows\"", false),
    (b"{}", false),
    (b"{\"flows\":[]}x", false),
    (b"{\"flows\":[]}{}", false),
    (b"{\"flows\":[],}", false),
    (b"\xef\xbb\xbf{\"flows\":[]}", false),
    (b"{\"flows\":[],\"a\":\"\xff\"}", false),
    (b"{\"flows\":[],\"a\":\"\x01\"}", false),
    (b"{\"flows\":[],\"a\":\"\\ud800\"}", false),
    (b"{\"flows\":[],\"a\":1e400}", false),
    (b"{\"flows\":null}", false),
    (b"{\"flows\":{}}", false),
    (b"{\"flows\":[1]}", false),
    // Of equal keys the last counts.
    (b"{\"flows\":1,\"flows\":[]}", true),
    (b"{\"flows\":[],\"flows\":1}", false),
];

/// Asserts that a text is read, or that it is refused.
fn text_is_read(rt: &impl Abort, alloc: Global, text: &[u8], read: bool) {
    assert!(rt; is_read(rt, alloc, text) == read, "{text:?}");
}

#[test]
fn whole_texts(rt: HostRuntime) {
    for (text, read) in &WHOLE_TEXTS {
        text_is_read(&rt, rt.alloc(), text, *read);
    }
}

/// Asserts that the text of these parts is read, or that it is refused.
fn parts_are_read(
    rt: &impl Abort,
    alloc: Global,
    parts: &[&str],
    read: bool,
) -> Result<(), AllocError> {
    let mut text = String::new(alloc);
    for part in parts {
        text.push_str(part)?;
    }
    text_is_read(rt, alloc, text.as_bytes(), read);
    Ok(())
}

/// The text before the members of a report's only flow.
const MEMBERS: &str = "{\"flows\":[{";

/// The text before the members of a report's only flow, with the two that name the flow.
const FLOW: &str = "{\"flows\":[{\"file\":1,\"media\":1,";

/// The text that ends a report with one flow.
const END: &str = "}]}";

/// Members of a flow, and whether a report with such a flow is read.
static KEYS: [(&str, bool); 16] = [
    ("\"file\":1,\"media\":1", true),
    ("\"file\":16,\"media\":64", true),
    ("\"file\":0,\"media\":1", false),
    ("\"file\":17,\"media\":1", false),
    ("\"file\":1,\"media\":0", false),
    ("\"file\":1,\"media\":65", false),
    ("\"file\":1", false),
    ("\"media\":1", false),
    ("\"file\":\"1\",\"media\":1", false),
    ("\"file\":1.0,\"media\":1", false),
    ("\"file\":1e0,\"media\":1", false),
    ("\"file\":+1,\"media\":1", false),
    ("\"file\":01,\"media\":1", false),
    ("\"file\":-1,\"media\":1", false),
    ("\"file\":17,\"file\":1,\"media\":1", true),
    ("\"file\":1,\"file\":17,\"media\":1", false),
];

#[test]
fn keys(rt: HostRuntime) -> Result<(), Fail> {
    for (members, read) in &KEYS {
        parts_are_read(&rt, rt.alloc(), &[MEMBERS, members, END], *read)?;
    }
    Ok(())
}

/// Asserts that the types of these three parts are read, in a flow and in a run, or that they are refused.
fn types_are_read(
    rt: &impl Abort,
    alloc: Global,
    (front, middle, end): (&str, &str, &str),
    read: bool,
) -> Result<(), AllocError> {
    let of_flow = [FLOW, "\"types\":", front, middle, end, END];
    parts_are_read(rt, alloc, &of_flow, read)?;
    let of_run = [FLOW, "\"runs\":[{\"types\":", front, middle, end, "}]", END];
    parts_are_read(rt, alloc, &of_run, read)
}

/// Types, and whether each is read.
static TYPES: [(&str, bool); 9] = [
    ("[]", true),
    (
        "[{\"type\":\"N\"},{\"type\":\"NL\"},{\"type\":\"W\"}]",
        true,
    ),
    ("null", false),
    ("{}", false),
    ("[1]", false),
    ("[{}]", false),
    ("[{\"type\":\"n\"}]", false),
    ("[{\"type\":\"\"}]", false),
    ("[{\"type\":1}]", false),
];

#[test]
fn types(rt: HostRuntime) -> Result<(), Fail> {
    for (types, read) in &TYPES {
        types_are_read(&rt, rt.alloc(), ("", types, ""), *read)?;
    }
    Ok(())
}

/// Violations, and whether each is read.
static PROOFS: [(&str, bool); 14] = [
    ("null", false),
    ("[]", false),
    (
        "{\"model\":\"Over\",\"from\":0,\"to\":18446744073709551615,\"count\":1,\"limit\":2}",
        true,
    ),
    (
        "{\"model\":\"Over\",\"from\":0,\"to\":18446744073709551616,\"count\":1,\"limit\":2}",
        false,
    ),
    (
        "{\"model\":\"over\",\"from\":0,\"to\":1,\"count\":1,\"limit\":2}",
        false,
    ),
    ("{\"from\":0,\"to\":1,\"count\":1,\"limit\":2}", false),
    (
        "{\"model\":\"Over\",\"to\":1,\"count\":1,\"limit\":2}",
        false,
    ),
    (
        "{\"model\":\"Over\",\"from\":0,\"count\":1,\"limit\":2}",
        false,
    ),
    (
        "{\"model\":\"Over\",\"from\":0,\"to\":1,\"limit\":2}",
        false,
    ),
    (
        "{\"model\":\"Over\",\"from\":0,\"to\":1,\"count\":1}",
        false,
    ),
    (
        "{\"model\":\"Over\",\"from\":5.0,\"to\":9,\"count\":1,\"limit\":2}",
        false,
    ),
    (
        "{\"model\":\"Over\",\"from\":5e0,\"to\":9,\"count\":1,\"limit\":2}",
        false,
    ),
    (
        "{\"model\":\"Over\",\"from\":-0,\"to\":9,\"count\":1,\"limit\":2}",
        false,
    ),
    (
        "{\"model\":\"Over\",\"from\":0,\"to\":1,\"count\":\"1\",\"limit\":2}",
        false,
    ),
];

#[test]
fn proofs(rt: HostRuntime) -> Result<(), Fail> {
    for (proof, read) in &PROOFS {
        let types = ("[{\"type\":\"N\",\"proof\":", *proof, "}]");
        types_are_read(&rt, rt.alloc(), types, *read)?;
    }
    Ok(())
}

/// Lists of runs, and whether each is read.
static LISTS_OF_RUNS: [(&str, bool); 7] = [
    ("[]", true),
    ("[{}]", true),
    ("null", false),
    ("{}", false),
    ("[1]", false),
    ("[[]]", false),
    ("[{},null]", false),
];

#[test]
fn lists_of_runs(rt: HostRuntime) -> Result<(), Fail> {
    for (runs, read) in &LISTS_OF_RUNS {
        parts_are_read(&rt, rt.alloc(), &[FLOW, "\"runs\":", runs, END], *read)?;
    }
    Ok(())
}

/// A text with `count` pieces behind it.
fn repeated(alloc: Global, front: &str, piece: &str, count: u32) -> Result<String, AllocError> {
    let mut text = String::from_str(alloc, front)?;
    for _ in 0..count {
        text.push_str(piece)?;
    }
    Ok(text)
}

/// Asserts that a report with `commas` runs behind the first one is read, or that it is refused.
fn runs_are_read(
    rt: &impl Abort,
    alloc: Global,
    commas: u32,
    read: bool,
) -> Result<(), AllocError> {
    let runs = repeated(alloc, "\"runs\":[{}", ",{}", commas)?;
    parts_are_read(rt, alloc, &[FLOW, runs.as_str(), "]", END], read)
}

/// Asserts that a report with this many nested lists is read, or that it is refused.
fn depth_is_read(rt: &impl Abort, alloc: Global, lists: u32, read: bool) -> Result<(), AllocError> {
    let begins = repeated(alloc, "{\"flows\":[],\"other\":", "[", lists)?;
    let ends = repeated(alloc, "", "]", lists)?;
    parts_are_read(rt, alloc, &[begins.as_str(), ends.as_str(), "}"], read)
}

/// Asserts that a report of this length is read, or that it is refused.
fn length_is_read(
    rt: &impl Abort,
    alloc: Global,
    length: usize,
    read: bool,
) -> Result<(), AllocError> {
    let text = padded(alloc, length)?;
    text_is_read(rt, alloc, &text, read);
    Ok(())
}

// The nesting is 127 and 128 with the object around the lists.
#[test]
fn limits(rt: HostRuntime) -> Result<(), Fail> {
    runs_are_read(&rt, rt.alloc(), 1024, true)?;
    runs_are_read(&rt, rt.alloc(), 1025, false)?;
    depth_is_read(&rt, rt.alloc(), 126, true)?;
    depth_is_read(&rt, rt.alloc(), 127, false)?;
    length_is_read(&rt, rt.alloc(), 16_777_216, true)?;
    length_is_read(&rt, rt.alloc(), 16_777_217, false)?;
    Ok(())
}

/// A report without flows, and blanks up to this length.
fn padded(alloc: Global, len: usize) -> Result<Vec<u8>, AllocError> {
    let mut bytes = Vec::from_slice(alloc, b"{\"flows\":[]}")?;
    bytes.resize(len, b' ')?;
    Ok(bytes)
}

/// A report with two runs with violations, one run without, and violations of the flow itself.
static ORDERED: &str = concat!(
    "{\"flows\":[{\"runs\":[{\"types\":[{\"type\":\"NL\",\"proof\":{\"model\":\"Bucket\",\"from\":3,\"to\":3,\"count\":5,\"limit\":4}}]},",
    "{},{\"types\":[{\"type\":\"N\",\"proof\":{\"model\":\"Bucket\",\"from\":4,\"to\":4,\"count\":5,\"limit\":4}}]}],",
    "\"media\":64,\"file\":16,",
    "\"types\":[{\"type\":\"W\",\"proof\":{\"model\":\"Bucket\",\"from\":1,\"to\":1,\"count\":5,\"limit\":4}},{\"type\":\"NL\"},",
    "{\"type\":\"N\",\"proof\":{\"model\":\"Bucket\",\"from\":2,\"to\":2,\"count\":5,\"limit\":4}}]}]}"
);

/// The run, the type and the packet of each of its violations.
static ORDER: [(u32, Kind, u64); 4] = [
    (0, Kind::W, 1),
    (0, Kind::N, 2),
    (0, Kind::NL, 3),
    (2, Kind::N, 4),
];

/// Asserts that a violation is that of this run, type and packet.
fn is_told(rt: &impl Abort, told: &ReportProof, (run, kind, from): (u32, Kind, u64)) {
    let proof = FailProof {
        model: Broken::Bucket,
        from,
        to: from,
        count: 5,
        limit: 4,
    };
    let key = FlowKey {
        file: 15,
        media: 63,
    };
    let want = ReportProof {
        key,
        run,
        kind,
        proof,
    };
    assert!(rt; *told == want, "{told:?}, not {want:?}");
}

/// Asserts that these violations are read, in this order.
fn are_told(rt: &impl Abort, told: &[ReportProof], want: &[(u32, Kind, u64)]) {
    assert!(rt; told.len() == want.len());
    for (told, want) in told.iter().zip(want) {
        is_told(rt, told, *want);
    }
}

#[test]
fn order_of_proofs(rt: HostRuntime) {
    let Ok(proofs) = read_json(rt.alloc(), ORDERED.as_bytes()) else {
        assert!(rt; false, "the report is not read");
        return;
    };
    are_told(&rt, &proofs, &ORDER);
}
