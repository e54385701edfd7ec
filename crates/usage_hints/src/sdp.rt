//! The expected contents in place of an invalid part of a session description.

use sdp_reader::SdpCause;

/// Returns what is expected in place of this fault.
pub(crate) fn expected(cause: SdpCause) -> &'static str {
    match cause {
        SdpCause::NotText => {
            "the line has a byte 0 or a CR within it; expected text, and LF or CR LF at its end"
        }
        SdpCause::NoVersion => "expected v=0 as the first line",
        SdpCause::BadLine =>
            "expected a line that begins with a letter a to z and =, as in s=Camera",
        SdpCause::BadMedia => {
            "expected m=video PORT RTP/AVP FORMAT, PORT 1 to 65535, FORMAT 0 to 127, as in m=video 50000 RTP/AVP 96"
        }
        SdpCause::NoConnection => {
            "a c= line is missing, after this m= line or before the first one; expected one as c=IN IP4 239.0.0.1/64"
        }
        SdpCause::BadAddress => {
            "expected c=IN IP4 A.B.C.D or c=IN IP4 A.B.C.D/TTL, each number 0 to 255"
        }
        SdpCause::BadParameter => {
            "expected width and height 1 to 32767, TP=2110TPN, 2110TPNL or 2110TPW, TROFF 0 to 1000000, CMAX and MAXUDP 1 to 65535, interlace and segmented without a value"
        }
        SdpCause::RepeatedParameter => {
            "a parameter is there twice in this video; expected each at most once"
        }
        SdpCause::MissingParameter => {
            "width, height or exactframerate is missing; expected all three, as in a=fmtp:96 width=1920; height=1080; exactframerate=50"
        }
        SdpCause::BadRate => {
            "expected exactframerate=P or P/Q, P at least 1, Q 1 to 1001, at most 240 frames per second, as in exactframerate=60000/1001"
        }
        SdpCause::Segmented => "segmented frames (PsF) aren't supported; expected no segmented",
        SdpCause::ExtendedUdp => {
            "extended UDP isn't supported; expected no MAXUDP, or one of at most 1460"
        }
        SdpCause::SameTarget => {
            "an earlier video has this address and port; expected another address or port"
        }
        SdpCause::TooManyMedia => "expected at most 64 videos",
        SdpCause::NoVideo => {
            "expected a video: m=video PORT RTP/AVP FORMAT, and below it a=rtpmap:FORMAT raw/90000"
        }
        SdpCause::TooLarge => "expected at most 1048576 bytes",
    }
}
