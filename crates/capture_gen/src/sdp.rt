//! The session description of the captures.

ghost use Rattle.std.specs.Prelude.{◌≡◌};
ghost use Rattle.capture_gen.specs.Sdp.{sdp_text};

/// The session description, ten lines.
const SDP: &str = "v=0
o=- 1 1 IN IP4 192.0.2.1
s=test
t=0 0
m=video 50000 RTP/AVP 96
c=IN IP4 239.0.0.1/32
a=rtpmap:96 raw/90000
a=fmtp:96 sampling=YCbCr-4:2:2; width=1920; height=1080; exactframerate=50; depth=10; \
TCS=SDR; colorimetry=BT709; PM=2110GPM; SSN=ST2110-20:2017; TP=2110TPN;
a=mediaclk:direct=0
a=ts-refclk:ptp=IEEE1588-2008:39-A7-94-FF-FE-07-CB-D0:37
";

/// Returns the session description of the captures' flow: 1080p at 50 frames per second to
/// 239.0.0.1, port 50000, from a narrow sender.
pub fn description() -> &'static str
    ensures { result.now ≡ sdp_text }
{
    SDP
}

/// Returns the bytes of the session description.
pub fn sdp_bytes() -> &'static [u8]
    ensures { result.now ≡ sdp_text }
{
    description().as_bytes()
}
