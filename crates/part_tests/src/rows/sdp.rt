//! SDPs that were worked by hand, SDPs of other programs, and tables by subject: each row of a table stands in one
//! place of an SDP that is otherwise valid.

ghost use Rattle.std.specs.Prelude.{◌≤◌};

use super::compare::{same, same_at};
use SdpCause::*;
use sdp_reader::{SdpCause, SdpError, SdpFault, read_sdp};
use std::alloc::{AllocError, Global};
use std::process::Abort;
use timing_base::worked::PLAIN;
use timing_base::{Address, Kind, Media};

// The plain SDP: lines 1 to 4, 5, 6, 7, three parts of line 8, and the lines 9 and 10 behind its end.
const SESSION: &str = "v=0\no=- 1 1 IN IP4 192.0.2.1\ns=test\nt=0 0\n";

const MEDIA: &str = "m=video 50000 RTP/AVP 96\n";

const CONNECTION: &str = "c=IN IP4 239.0.0.1/32\n";

const MAP: &str = "a=rtpmap:96 raw/90000\n";

const SIZE: &str = "a=fmtp:96 sampling=YCbCr-4:2:2; width=1920; height=1080; exactframerate=";

const RATE: &str = "50";

const REST: &str =
    "; depth=10; TCS=SDR; colorimetry=BT709; PM=2110GPM; SSN=ST2110-20:2017; TP=2110TPN;";

const CLOCKS: &str =
    "\na=mediaclk:direct=0\na=ts-refclk:ptp=IEEE1588-2008:39-A7-94-FF-FE-07-CB-D0:37\n";

const PLAIN_TEXT: [&str; 8] = [SESSION, MEDIA, CONNECTION, MAP, SIZE, RATE, REST, CLOCKS];

// Two media with the same packets on two paths, the first with the connection of the session.
const PAIR: &str =
    "v=0\ns=x\nc=IN IP4 239.0.0.1/32\na=group:DUP a b\nm=audio 5004 RTP/AVP 97\na=rtpmap:97 L24/48000/2\nm=video 50000 RTP/AVP 96\na=rtpmap:96 raw/90000\na=fmtp:96 width=1280; height=720; exactframerate=60000/1001; TP=2110TPNL;";

const PAIR_END: &str =
    "\na=mid:a\nm=video 50000 RTP/AVP 96\nc=IN IP4 239.0.1.1/32\na=rtpmap:96 raw/90000\na=fmtp:96 width=1280; height=720; exactframerate=60000/1001; TP=2110TPNL;\na=mid:b\n";

// A video of payload type 96 at 60,000 / 1,001 frames per second, without TROFF and CMAX.
fn video(line: u32, address: Address, port: u16, size: (u32, u32), declared: Kind) -> Media
    requires port { 1 ≤ port }
    requires width_some { 1 ≤ size.0 }
    requires width_most { size.0 ≤ 32767 }
    requires height_some { 1 ≤ size.1 }
    requires height_most { size.1 ≤ 32767 }
{
    Media {
        line,
        address,
        port,
        pt: 96,
        width: size.0,
        height: size.1,
        interlaced: false,
        p: 60_000,
        q: 1001,
        declared: Some(declared),
        troff: None,
        cmax: None,
    }
}

// The first fault of an SDP, or `None` if it is valid. Memory suffices.
fn fault_of(rt: &impl Abort, alloc: Global, text: &[u8]) -> Option<SdpFault> {
    match read_sdp(alloc, text) {
        Ok(_) => None,
        Err(SdpError::Refused(fault)) => Some(fault),
        Err(SdpError::OutOfMemory) => panic!(rt; "out of memory"),
    }
}

// The SDP has this first fault, or is valid if `want` is `None`.
fn assert_fault(rt: &impl Abort, alloc: Global, text: &str, want: Option<(u32, SdpCause)>) {
    let want = want.map(|(line, what)| SdpFault { line, what });
    same_at(rt, &text, &fault_of(rt, alloc, text.as_bytes()), &want);
}

// Each of these SDPs has its first fault.
fn assert_faults(rt: &impl Abort, alloc: Global, rows: &[(&str, u32, SdpCause)]) {
    for (text, line, what) in rows {
        assert_fault(rt, alloc, text, Some((*line, *what)));
    }
}

// The text of these parts.
fn joined(alloc: Global, parts: &[&str]) -> Result<String, AllocError> {
    let mut text = String::new(alloc);
    for part in parts {
        text.push_str(part)?;
    }
    Ok(text)
}

// The SDP of these parts has this first fault, or is valid if `want` is `None`.
fn assert_joined(
    rt: &impl Abort,
    alloc: Global,
    parts: &[&str],
    want: Option<(u32, SdpCause)>,
) -> Result<(), AllocError> {
    let text = joined(alloc, parts)?;
    assert_fault(rt, alloc, &text, want);
    Ok(())
}

// The SDP is valid, and has these media.
fn assert_media(rt: &impl Abort, alloc: Global, text: &str, want: &[Media]) {
    match read_sdp(alloc, text.as_bytes()) {
        Ok(session) => same_at(rt, &text, &session.media.as_slice(), &want),
        Err(e) => panic!(rt; "{text:?}: {e:?}"),
    }
}

// The SDP of these parts is valid, and has these media.
fn assert_joined_media(
    rt: &impl Abort,
    alloc: Global,
    parts: &[&str],
    want: &[Media],
) -> Result<(), AllocError> {
    let text = joined(alloc, parts)?;
    assert_media(rt, alloc, &text, want);
    Ok(())
}

#[test]
fn plain(rt: HostRuntime) -> Result<(), AllocError> {
    assert_joined_media(&rt, rt.alloc(), &PLAIN_TEXT, &[PLAIN])
}

#[test]
fn sdp_empty(rt: HostRuntime) {
    let rows = [("", 1, NoVersion), ("v=0", 0, NoVideo)];
    assert_faults(&rt, rt.alloc(), &rows)
}

#[test]
fn sdp_no_connection(rt: HostRuntime) -> Result<(), AllocError> {
    let parts = [SESSION, MEDIA, MAP, SIZE, RATE, REST, CLOCKS];
    assert_joined(&rt, rt.alloc(), &parts, Some((5, NoConnection)))
}

#[test]
fn sdp_bad_values(rt: HostRuntime) -> Result<(), AllocError> {
    let rate = [
        SESSION, MEDIA, CONNECTION, MAP, SIZE, "241", REST, "", CLOCKS,
    ];
    assert_joined(&rt, rt.alloc(), &rate, Some((8, BadRate)))?;
    let troff = [
        SESSION,
        MEDIA,
        CONNECTION,
        MAP,
        SIZE,
        RATE,
        REST,
        " TROFF=1000001",
        CLOCKS,
    ];
    assert_joined(&rt, rt.alloc(), &troff, Some((8, BadParameter)))
}

// The plain SDP, with its lines 5 to 8 a second time.
#[test]
fn sdp_same_target(rt: HostRuntime) -> Result<(), AllocError> {
    let parts = [
        SESSION, MEDIA, CONNECTION, MAP, SIZE, RATE, REST, CLOCKS, MEDIA, CONNECTION, MAP, SIZE,
        RATE, REST, "\n",
    ];
    assert_joined(&rt, rt.alloc(), &parts, Some((11, SameTarget)))
}

#[test]
fn sdp_dup_pair(rt: HostRuntime) -> Result<(), AllocError> {
    let first = video(7, Address::new(239, 0, 0, 1), 50_000, (1280, 720), Kind::NL);
    let second = video(
        11,
        Address::new(239, 0, 1, 1),
        50_000,
        (1280, 720),
        Kind::NL,
    );
    assert_joined_media(&rt, rt.alloc(), &[PAIR, PAIR_END], &[first, second])?;
    assert_extended(&rt, rt.alloc(), &[PAIR, "MAXUDP=8960;", PAIR_END])
}

// The SDP of these parts is refused: `ExtendedUdp`, line 9.
fn assert_extended(rt: &impl Abort, alloc: Global, parts: &[&str]) -> Result<(), AllocError> {
    let text = joined(alloc, parts)?;
    let Some(fault) = fault_of(rt, alloc, text.as_bytes()) else {
        panic!(rt; "accepted");
    };
    let line = format!(in alloc; "{fault}")?;
    same(rt, &line.as_str(), &"line 9 ExtendedUdp");
    Ok(())
}

#[test]
fn sdp_too_large(rt: HostRuntime) -> Result<(), AllocError> {
    let text = vec![in rt.alloc(); b' '; 1_048_577]?;
    assert_blanks(&rt, rt.alloc(), &text);
    Ok(())
}

// These blanks make the SDP one byte too long.
fn assert_blanks(rt: &impl Abort, alloc: Global, text: &[u8]) {
    let large = SdpFault {
        line: 0,
        what: TooLarge,
    };
    same(rt, &fault_of(rt, alloc, text), &Some(large));
    let blank = SdpFault {
        line: 1,
        what: NoVersion,
    };
    let rest = text.get(1..).unwrap_or(&[]);
    same(rt, &fault_of(rt, alloc, rest), &Some(blank));
}

// This many raw media of three lines, from port 5001 on.
fn parts(alloc: Global, count: u16) -> Result<String, AllocError> {
    let mut text = String::from_str(alloc, "v=0\nc=IN IP4 239.0.0.1\n")?;
    for k in 0..count {
        let port = 5001u32 + u32::from(k);
        let part = format!(in alloc;
            "m=video {port} RTP/AVP 96\na=rtpmap:96 raw/90000\na=fmtp:96 width=2; height=2; exactframerate=25\n"
        )?;
        text.push_str(&part)?;
    }
    Ok(text)
}

// The SDP of this many media has this first fault, or is valid if `want` is `None`.
fn assert_parts(
    rt: &impl Abort,
    alloc: Global,
    count: u16,
    want: Option<(u32, SdpCause)>,
) -> Result<(), AllocError> {
    let text = parts(alloc, count)?;
    assert_fault(rt, alloc, &text, want);
    Ok(())
}

#[test]
fn sdp_too_many_media(rt: HostRuntime) -> Result<(), AllocError> {
    assert_parts(&rt, rt.alloc(), 64, None)?;
    assert_parts(&rt, rt.alloc(), 65, Some((195, TooManyMedia)))
}

// An SDP that is valid except for one place, texts that are valid there, and texts with a first fault.
#[derive(Clone, Copy)]
struct Around<'a> {
    before: &'a str,
    after: &'a str,
    good: &'a [&'a str],
    bad: &'a [(u32, SdpCause, &'a [&'a str])],
}

impl Around<'_> {
    // With each of these texts in its place the SDP has this first fault, or is valid if `want` is `None`.
    fn assert_each(
        &self,
        rt: &impl Abort,
        alloc: Global,
        rows: &[&str],
        want: Option<(u32, SdpCause)>,
    ) -> Result<(), AllocError> {
        for row in rows {
            assert_joined(rt, alloc, &[self.before, row, self.after], want)?;
        }
        Ok(())
    }

    fn holds(&self, rt: &impl Abort, alloc: Global) -> Result<(), AllocError> {
        self.assert_each(rt, alloc, self.good, None)?;
        for (line, what, rows) in self.bad {
            self.assert_each(rt, alloc, rows, Some((*line, *what)))?;
        }
        Ok(())
    }
}

static SIZES: Around = Around {
    before: "v=0\nc=IN IP4 239.0.0.1\nm=video 5000 RTP/AVP 96\na=rtpmap:96 raw/90000\na=fmtp:96 exactframerate=25; ",
    after: "\n",
    good: &[
        "width=1; height=1",
        "width=32767 ;\theight=0000032767;; ;",
        "WIDTH=2; Height=2",
    ],
    bad: &[
        (
            5,
            BadParameter,
            &[
                "width=0; height=2",
                "width=32768; height=2",
                "width=2; height=0",
                "width=2; height=32768",
                "width=00000000002; height=2",
                "width= 2; height=2",
                "width=+2; height=2",
                "width; height=2",
                // A malformed width isn't a missing one.
                "width=x; height=2",
                "width=2; height=",
                "width=2; height=2; width",
            ],
        ),
        (
            5,
            RepeatedParameter,
            &["width=2; height=2; height=2", "width=2; Width=2; height=2"],
        ),
    ],
};

#[test]
fn sizes(rt: HostRuntime) -> Result<(), AllocError> {
    SIZES.holds(&rt, rt.alloc())
}

static RATES: Around = Around {
    before: "v=0\nc=IN IP4 239.0.0.1\nm=video 5000 RTP/AVP 96\na=rtpmap:96 RaW/90000\na=fmtp:96 width=2; height=2; exactframerate",
    after: "\n",
    good: &[
        "=1",
        "=1/1001",
        "=240",
        "=480/2",
        "=60000/1001",
        "=240240/1001",
        "=0000000025/0000000001",
    ],
    bad: &[(
        5,
        BadRate,
        &[
            "=241",
            "=481/2",
            "=240241/1001",
            "=1/1002",
            "=1/0",
            "=0",
            "=0/1",
            "=1/",
            "=480/2/1",
            "",
        ],
    )],
};

#[test]
fn rates(rt: HostRuntime) -> Result<(), AllocError> {
    RATES.holds(&rt, rt.alloc())
}

static OTHER_PARAMETERS: Around = Around {
    before: "v=0\nc=IN IP4 239.0.0.1\nm=video 5000 RTP/AVP 96\na=rtpmap:96 raw/90000\na=fmtp:96 width=2; height=2; exactframerate=25; ",
    after: "\n",
    good: &[
        "interlace",
        "TP=2110TPW",
        "TROFF=0",
        "TROFF=1000000",
        "CMAX=1",
        "CMAX=65535",
        "MAXUDP=1",
        "MAXUDP=1460",
        // Unknown names are ignored, also a second time.
        "width =5; foo; bar=baz=1; foo",
    ],
    bad: &[
        (
            5,
            BadParameter,
            &[
                "interlace=1",
                "segmented=",
                "TP=2110tpn",
                "TROFF=1000001",
                "CMAX=0",
                "CMAX=65536",
                "MAXUDP=0",
                "MAXUDP=65536",
            ],
        ),
        (5, ExtendedUdp, &["MAXUDP=1461", "MAXUDP=65535"]),
        (5, Segmented, &["segmented", "interlace; segmented"]),
        (
            5,
            RepeatedParameter,
            &["tp=2110TPN; TP=2110TPN", "interlace; interlace"],
        ),
    ],
};

#[test]
fn other_parameters(rt: HostRuntime) -> Result<(), AllocError> {
    OTHER_PARAMETERS.holds(&rt, rt.alloc())
}

static SEVERAL_CAUSES: Around = Around {
    before: "v=0\nc=IN IP4 239.0.0.1\nm=video 5000 RTP/AVP 96\na=rtpmap:96 raw/90000\na=fmtp:96 height=2; segmented; MAXUDP=",
    after: "\n",
    good: &[],
    bad: &[
        (5, BadParameter, &["0; width=2; width=2; exactframerate=0"]),
        (
            5,
            RepeatedParameter,
            &["1461; width=2; width=2; exactframerate=0"],
        ),
        (5, BadRate, &["1461; width=2; exactframerate=0"]),
        (5, Segmented, &["1461; width=2; exactframerate=25"]),
    ],
};

// Several causes in one line: the one with the smallest number counts.
#[test]
fn several_causes(rt: HostRuntime) -> Result<(), AllocError> {
    SEVERAL_CAUSES.holds(&rt, rt.alloc())
}

static ADDRESSES: Around = Around {
    before: "v=0\nc=",
    after: "\nm=video 1 RTP/AVP 0\na=rtpmap:0 raw/90000\na=fmtp:0 width=1;height=1;exactframerate=1",
    good: &[
        "IN IP4 0.0.0.0",
        "IN IP4 255.255.255.255/255",
        "IN IP4 001.02.3.4/0",
    ],
    bad: &[(
        2,
        BadAddress,
        &[
            "IN IP4 1.2.3",
            "IN IP4 1.2.3.",
            "IN IP4 1.2.3.4.5",
            "IN IP4 256.2.3.4",
            "IN IP4 1.2.3.256",
            "IN IP4 1.2.3.0004",
            "IN IP4 1.2.3.4/",
            "IN IP4 1.2.3.4/256",
            "IN IP4 1.2.3.4/1/2",
            "IN IP4  1.2.3.4",
            "in ip4 1.2.3.4",
            "IN IP6 ::1",
            "",
        ],
    )],
};

#[test]
fn addresses(rt: HostRuntime) -> Result<(), AllocError> {
    ADDRESSES.holds(&rt, rt.alloc())
}

static VIDEO_LINES: Around = Around {
    before: "v=0\nc=IN IP4 1.2.3.4\nm=video ",
    after: "\na=rtpmap:0 raw/90000\na=fmtp:0 width=1;height=1;exactframerate=1",
    good: &[
        "1 RTP/AVP 0",
        "65535 RTP/AVP 000",
        "0000000001 RTP/AVP 0 0 x",
    ],
    bad: &[(
        3,
        BadMedia,
        &[
            "",
            " 1 RTP/AVP 0",
            "0 RTP/AVP 0",
            "65536 RTP/AVP 0",
            "00000000001 RTP/AVP 0",
            "1/2 RTP/AVP 0",
            "1  RTP/AVP 0",
            "1 RTP/SAVP 0",
            "1 rtp/avp 0",
            "1 RTP/AVP 128",
            "1 RTP/AVP 0x",
            "1 RTP/AVP\t0",
            "1 RTP/AVP",
            "1",
        ],
    )],
};

#[test]
fn video_lines(rt: HostRuntime) -> Result<(), AllocError> {
    VIDEO_LINES.holds(&rt, rt.alloc())
}

static ACCEPTED: [&str; 4] = [
    // The shortest SDP, and line ends.
    "v=0\nm=video 1 RTP/AVP 0\nc=IN IP4 1.2.3.4\na=rtpmap:0 raw/90000\na=fmtp:0 width=1;height=1;exactframerate=1",
    "\r\n\nv=0 \t\r\nm=video 65535 RTP/AVP 127 98 x \r\nc=IN IP4 255.255.255.255/255\r\na=rtpmap:127 raw/90000\t\r\na=fmtp:127 width=1;height=1;exactframerate=1\r\n",
    // A list of parameters before its map, in two lines, with leading zeros; the first `c=` of two counts.
    "v=0\nc=x\nm=video 1 RTP/AVP 000\na=fmtp:00 width=1\na=rtpmap:0000 raw/90000\na=fmtp:0 height=1;exactframerate=1\nc=IN IP4 1.2.3.4\nc=bad",
    // Media that are ignored.
    "v=0\nm=audio x\nc=bad\nm=videos\nm=VIDEO\nm=video 1 RTP/AVP 0\nc=bad\na=rtpmap:0 raw/90000/2\nm=video 2 RTP/AVP 0\nc=IN IP4 1.2.3.4\na=rtpmap:0 raw/90000\na=fmtp:0 width=1;height=1;exactframerate=1",
];

// Each SDP is valid.
#[test]
fn accepted(rt: HostRuntime) {
    for text in &ACCEPTED {
        assert_fault(&rt, rt.alloc(), text, None);
    }
}

static SINGLE_LINES: [(&str, u32, SdpCause); 17] = [
    ("v=0\ns=\0", 2, NotText),
    ("v=0\ns=a\rb\n", 2, NotText),
    ("v=0\ns=a\r \n", 2, NotText),
    ("v=0\r\r\n", 1, NotText),
    ("v=0\r", 1, NotText),
    ("\0", 1, NotText),
    ("s=x\n\0\n", 1, NoVersion),
    ("\n \n", 1, NoVersion),
    ("\n\nv=1\nv=0", 3, NoVersion),
    (" v=0", 1, NoVersion),
    ("x", 1, NoVersion),
    ("v=00", 1, NoVersion),
    ("v=0\nA=x", 2, BadLine),
    ("v=0\na", 2, BadLine),
    ("v=0\na =x", 2, BadLine),
    ("v=0\na=\nz=\n{=", 4, BadLine),
    ("v=0\n`=", 2, BadLine),
];

#[test]
fn single_lines(rt: HostRuntime) {
    assert_faults(&rt, rt.alloc(), &SINGLE_LINES)
}

// Media that are ignored: a map of another format, fields separated by a tab, and no map.
static PASSED_OVER: Around = Around {
    before: "v=0\nm=video",
    after: "",
    good: &[],
    bad: &[(
        0,
        NoVideo,
        &[
            " 1 RTP/AVP 0\na=rtpmap:1 raw/90000\na=fmtp:0 width",
            "\t1 RTP/AVP 96",
            " 0000000001 RTP/AVP 96 96 ",
        ],
    )],
};

static RAW: Around = Around {
    before: "v=0\nc=IN IP4 1.2.3.4\nm=video 1 RTP/AVP 0\na=rtpmap:0 raw/90000\n",
    after: "",
    good: &[],
    bad: &[
        // The media's own connection, before that of the session.
        (
            5,
            BadAddress,
            &["c=bad\na=fmtp:0 width=1;height=1;exactframerate=1"],
        ),
        // No list at all, a list of another format beside a line without one, and no rate.
        (
            3,
            MissingParameter,
            &[
                "",
                "a=fmtp:0\na=fmtp:1 width=1;height=1;exactframerate=1",
                "a=fmtp:0 width=1;height=1",
            ],
        ),
        // A parameter repeated in a second line, once malformed.
        (
            6,
            RepeatedParameter,
            &[
                "a=fmtp:0 width=1;height=1;exactframerate=1\na=fmtp:0 Width=1",
                "a=fmtp:0 width=1;height=1;exactframerate=1\na=fmtp:0 exactframerate=x",
            ],
        ),
    ],
};

// A media that is ignored, and one with a fault of its own; the first line is the version.
#[test]
fn raw_parts(rt: HostRuntime) -> Result<(), AllocError> {
    PASSED_OVER.holds(&rt, rt.alloc())?;
    RAW.holds(&rt, rt.alloc())
}

static SECOND_PARTS: Around = Around {
    before: "v=0\nc=IN IP4 1.2.3.4\nm=video 1 RTP/AVP 0\na=rtpmap:0 raw/90000\na=fmtp:0 width=1;height=1;exactframerate=1\nm=video ",
    after: "\na=rtpmap:0 raw/90000\na=fmtp:0 width=1;height=1;exactframerate=1",
    // One address with two ports, and one port at two addresses.
    good: &["2 RTP/AVP 0", "1 RTP/AVP 0\nc=IN IP4 1.2.3.5"],
    // The same address, also in another form.
    bad: &[(
        6,
        SameTarget,
        &["1 RTP/AVP 0", "1 RTP/AVP 0\nc=IN IP4 01.2.3.4/7"],
    )],
};

// A media, and a second one on line 6.
#[test]
fn second_parts(rt: HostRuntime) -> Result<(), AllocError> {
    SECOND_PARTS.holds(&rt, rt.alloc())
}

static LEAST_LINES: [(&str, u32, SdpCause); 5] = [
    (
        "v=0\nc=IN IP4 1.2.3.4\nm=video 1 RTP/AVP 0\na=rtpmap:0 raw/90000\na=fmtp:0 segmented;width=1;height=1;exactframerate=1\ns=\0",
        5,
        Segmented,
    ),
    (
        "v=0\nc=IN IP4 1.2.3.4\nm=video 1 RTP/AVP 0\na=rtpmap:0 raw/90000\ns=\0\na=fmtp:0 segmented;width=1;height=1;exactframerate=1",
        5,
        NotText,
    ),
    (
        "v=0\nc=bad\ns=\0\nm=video 1 RTP/AVP 0\na=rtpmap:0 raw/90000",
        2,
        BadAddress,
    ),
    // It counts before a missing parameter on the same line, and that before the same target.
    (
        "v=0\nm=video 1 RTP/AVP 0\na=rtpmap:0 raw/90000",
        2,
        NoConnection,
    ),
    (
        "v=0\nc=IN IP4 1.2.3.4\nm=video 1 RTP/AVP 0\na=rtpmap:0 raw/90000\na=fmtp:0 width=1;height=1;exactframerate=1\nm=video 1 RTP/AVP 0\na=rtpmap:0 raw/90000",
        6,
        MissingParameter,
    ),
];

// The first line with a fault counts, though a later one has a cause with a smaller number.
#[test]
fn least_lines(rt: HostRuntime) {
    assert_faults(&rt, rt.alloc(), &LEAST_LINES)
}

#[test]
fn interlaced_with_all_parameters(rt: HostRuntime) {
    let text =
        "v=0\nc=IN IP4 239.0.0.1\nm=video 5000 RTP/AVP 96\na=rtpmap:96 raw/90000\na=fmtp:96 interlace; width=1920; height=1080; exactframerate=30000/1001; tp=2110TPNL; troff=25; cmax=7; MAXUDP=1460\n";
    let want = Media {
        line: 3,
        address: Address::new(239, 0, 0, 1),
        port: 5000,
        pt: 96,
        width: 1920,
        height: 1080,
        interlaced: true,
        p: 30_000,
        q: 1001,
        declared: Some(Kind::NL),
        troff: Some(25),
        cmax: Some(7),
    };
    assert_media(&rt, rt.alloc(), text, &[want]);
}

// An SDP of ffmpeg for raw video: without exactframerate.
#[test]
fn of_ffmpeg(rt: HostRuntime) {
    let text =
        "v=0\r\no=- 0 0 IN IP4 127.0.0.1\r\ns=No Name\r\nc=IN IP4 239.0.0.9/32\r\nt=0 0\r\na=tool:libavformat LIBAVFORMAT_VERSION\r\nm=video 20002 RTP/AVP 96\r\nb=AS:30720\r\na=rtpmap:96 raw/90000\r\na=fmtp:96 sampling=YCbCr-4:2:2; width=320; height=240; depth=8\r\n";
    assert_fault(&rt, rt.alloc(), text, Some((7, MissingParameter)));
}

// An SDP for a stream of GStreamer.
#[test]
fn of_gstreamer(rt: HostRuntime) {
    let text =
        "v=0\no=- 123456 11 IN IP4 192.0.2.1\ns=gst 640x480 59.94\nt=0 0\na=recvonly\nm=video 20000 RTP/AVP 96\nc=IN IP4 239.0.0.7/32\na=source-filter: incl IN IP4 239.0.0.7 192.0.2.1\na=rtpmap:96 raw/90000\na=fmtp:96 sampling=YCbCr-4:2:2; width=640; height=480; exactframerate=60000/1001; depth=8; TCS=SDR; colorimetry=BT709; PM=2110GPM; SSN=ST2110-20:2017; TP=2110TPW; \na=mediaclk:direct=0\na=ts-refclk:localmac=02-00-00-00-00-01\n";
    let want = video(6, Address::new(239, 0, 0, 7), 20_000, (640, 480), Kind::W);
    assert_media(&rt, rt.alloc(), text, &[want]);
}
