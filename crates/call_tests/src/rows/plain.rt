//! The output of each command for the plain capture.

use crate::call::{HEADER, NARROW, ONE_WAY, PASS, PLAIN, Row};

pub const WINDOW_LINE: &str = "window --sdp p.sdp --media 1 a.pcap";

pub const WINDOW: Row = Row {
    line: WINDOW_LINE,
    ways: ONE_WAY,
    out: &[
        "N lower 764 at packet 0, upper 8444 at packet 8\nNL lower 764 at packet 0, upper 8004 at packet 19\nW lower 764 at packet 0, upper 1000000\n",
    ],
    ..PASS
};

pub const LISTED: Row = Row {
    line: "shape --sdp p.sdp --media 1 --type N --list a.pcap",
    out: &["delayed 0 of 40, greatest 0 ns\n"],
    ..WINDOW
};

pub const SHAPED: Row = Row {
    line: "shape --sdp p.sdp --media 1 --type N a.pcap",
    out: &[],
    file: &[PLAIN],
    ..WINDOW
};

pub const MEASURE_LINE: &str = "measure --sdp p.sdp a.pcap";

pub const MEASURED: Row = Row {
    line: MEASURE_LINE,
    out: &[
        "{\"end\":\"end\",\"flows\":[{\"media\":1,\"packets\":41,\"runs\":[{\"bucket\":{\"greatest\":1,\"least\":1,\"sum\":40},\"first\":{\"first\":764000,\"greatest\":764000,\"last\":764000,\"least\":764000,\"sum\":1528000,\"target\":764444},\"frames\":2,\"gap\":{\"classes\":[0,0,0,0,0,0,0,0,0,0,0,0,0,0,0,0,0,0,0,0,38,1],\"greatest\":1760000,\"least\":960000,\"sum\":38240000},\"gapped\":{\"greatest\":1,\"late\":0,\"least\":1,\"slack\":444,\"sum\":40},\"head\":1,\"interlaced\":false,\"last\":{\"first\":19004000,\"greatest\":19004000,\"last\":19004000,\"least\":19004000,\"sum\":38008000},\"latency\":{\"first\":-1663502020,\"greatest\":-1663502020,\"last\":-1663502020,\"least\":-1663502020,\"sum\":-3327004040},\"linear\":{\"greatest\":1,\"late\":0,\"least\":1,\"slack\":444,\"sum\":40},\"n\":20,\"number\":0,\"offset\":{\"first\":1663502088,\"greatest\":1663502088,\"last\":1663502088,\"least\":1663502088,\"sum\":3327004176},\"packets\":40,\"record\":1,\"run\":1,\"step\":{\"greatest\":1800,\"least\":1800},\"tail\":0,\"types\":[{\"bucket\":{\"above\":0,\"counts\":[0,40,0,0,0],\"limit\":4,\"width\":1},\"buffer\":{\"above\":0,\"below\":0,\"counts\":[0,40,0,0,0,0,0,0,0],\"limit\":8,\"width\":1},\"frames_broken\":0,\"pass\":true,\"troff\":{\"greatest\":8444,\"least\":764},\"type\":\"N\"},{\"bucket\":{\"above\":0,\"counts\":[0,40,0,0,0],\"limit\":4,\"width\":1},\"buffer\":{\"above\":0,\"below\":0,\"counts\":[0,40,0,0,0,0,0,0,0],\"limit\":8,\"width\":1},\"frames_broken\":0,\"pass\":true,\"troff\":{\"greatest\":8004,\"least\":764},\"type\":\"NL\"},{\"bucket\":{\"above\":0,\"counts\":[0,40,0,0,0,0,0,0,0,0,0,0,0,0,0,0,0],\"limit\":16,\"width\":1},\"buffer\":{\"above\":0,\"below\":0,\"counts\":[40,0,0,0,0,0,0,0,0,0,0,0,0,0,0,0,0,0,0,0,0,0,0,0,0,0,0,0,0,0,0,0,0,0,0,0,0,0,0,0,0,0,0,0,0,0,0,0,0,0,0,0,0,0,0,0,0,0,0,0,0],\"limit\":720,\"width\":12},\"frames_broken\":0,\"pass\":true,\"troff\":{\"greatest\":1000000,\"least\":764},\"type\":\"W\"}]}],\"ssrc\":\"00000001\",\"target\":\"239.0.0.1:50000\",\"verdict\":\"judged\"}],\"name\":\"a.pcap\"}\n",
    ],
    ..WINDOW
};

pub const SERIES_LINE: &str = "series --sdp p.sdp --media 1 a.pcap";

pub const PACKETS: Row = Row {
    line: SERIES_LINE,
    out: &[
        "run,packet,record,stamp,group,place,bucket,gapped,linear\n1,0,2,1600000000000764000,0,0,1,1,1\n1,1,3,1600000000001724000,0,1,1,1,1\n1,2,4,1600000000002684000,0,2,1,1,1\n1,3,5,1600000000003644000,0,3,1,1,1\n1,4,6,1600000000004604000,0,4,1,1,1\n1,5,7,1600000000005564000,0,5,1,1,1\n1,6,8,1600000000006524000,0,6,1,1,1\n1,7,9,1600000000007484000,0,7,1,1,1\n1,8,10,1600000000008444000,0,8,1,1,1\n1,9,11,1600000000009404000,0,9,1,1,1\n1,10,12,1600000000010364000,0,10,1,1,1\n1,11,13,1600000000011324000,0,11,1,1,1\n1,12,14,1600000000012284000,0,12,1,1,1\n1,13,15,1600000000013244000,0,13,1,1,1\n1,14,16,1600000000014204000,0,14,1,1,1\n1,15,17,1600000000015164000,0,15,1,1,1\n1,16,18,1600000000016124000,0,16,1,1,1\n1,17,19,1600000000017084000,0,17,1,1,1\n1,18,20,1600000000018044000,0,18,1,1,1\n1,19,21,1600000000019004000,0,19,1,1,1\n1,20,22,1600000000020764000,1,0,1,1,1\n1,21,23,1600000000021724000,1,1,1,1,1\n1,22,24,1600000000022684000,1,2,1,1,1\n1,23,25,1600000000023644000,1,3,1,1,1\n1,24,26,1600000000024604000,1,4,1,1,1\n1,25,27,1600000000025564000,1,5,1,1,1\n1,26,28,1600000000026524000,1,6,1,1,1\n1,27,29,1600000000027484000,1,7,1,1,1\n1,28,30,1600000000028444000,1,8,1,1,1\n1,29,31,1600000000029404000,1,9,1,1,1\n1,30,32,1600000000030364000,1,10,1,1,1\n1,31,33,1600000000031324000,1,11,1,1,1\n1,32,34,1600000000032284000,1,12,1,1,1\n1,33,35,1600000000033244000,1,13,1,1,1\n1,34,36,1600000000034204000,1,14,1,1,1\n1,35,37,1600000000035164000,1,15,1,1,1\n1,36,38,1600000000036124000,1,16,1,1,1\n1,37,39,1600000000037084000,1,17,1,1,1\n1,38,40,1600000000038044000,1,18,1,1,1\n1,39,41,1600000000039004000,1,19,1,1,1\n",
    ],
    ..WINDOW
};

pub const FRAMES_LINE: &str = "series --sdp p.sdp --media 1 --frames a.pcap";

pub const FRAMES: Row = Row {
    line: FRAMES_LINE,
    out: &[
        "run,group,record,stamp,first,last,timestamp,step,offset,latency,bucket,gapped_least,gapped,linear_least,linear\n1,0,2,1600000000000764000,764000,19004000,1800,,1663502088,-1663502020,1,1,1,1,1\n1,1,22,1600000000020764000,764000,19004000,3600,1800,1663502088,-1663502020,1,1,1,1,1\n",
    ],
    ..WINDOW
};

pub const PAGE_LINE: &str = "page --sdp p.sdp a.pcap";

pub const EXPLAINED: Row = Row {
    line: "explain --sdp p.sdp a.pcap",
    out: &[
        "1 239.0.0.1:50000 declared N class narrow: pass\n  pass: N passes: the bucket holds up to 1 of 4 packets, the buffer up to 1 of 8, and each packet could come 0.444 µs later.\n  unlocked: RTP timestamps differ from the media clock by 1663502088 ticks. No limit of ST 2110-21 depends on it.\n  do: lock the sender's RTP clock to PTP if receivers need it.\n",
    ],
    ..WINDOW
};

/// The line of the first frame that `watch` prints.
pub const FIRST_FRAME: &str =
    "1 run 1 frames 1 to 1 at 1600000000.019004000 bucket 1 of 4 4 16 gapped 1 to 1 late 0 linear 1 to 1 late 0 N broken 0 NL broken 0 W broken 0\n";

/// That of the second.
pub const SECOND_FRAME: &str =
    "1 run 1 frames 2 to 2 at 1600000000.039004000 bucket 1 of 4 4 16 gapped 1 to 1 late 0 linear 1 to 1 late 0 N broken 0 NL broken 0 W broken 0\n";

pub const WATCHED: Row = Row {
    line: "watch --sdp p.sdp --every 1 a.pcap",
    out: &[
        FIRST_FRAME,
        SECOND_FRAME,
        "end\n",
        HEADER,
        NARROW,
        "status 0\n",
    ],
    ..WINDOW
};
