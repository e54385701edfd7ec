//! The session description of the captures, and variants of it.

use crate::sdp::description;
use std::alloc::{AllocError, Global};

/// Lines 5 to 8 of the plain session description.
pub const MEDIA: &str =
    "m=video 50000 RTP/AVP 96\nc=IN IP4 239.0.0.1/32\na=rtpmap:96 raw/90000\na=fmtp:96 sampling=YCbCr-4:2:2; width=1920; height=1080; exactframerate=50; depth=10; TCS=SDR; colorimetry=BT709; PM=2110GPM; SSN=ST2110-20:2017; TP=2110TPN;\n";

/// Returns the plain session description with each occurrence of one text replaced by another.
/// Returns `Err` if memory runs out.
pub fn described(alloc: Global, own: &str, other: &str) -> Result<Vec<u8>, AllocError> {
    let text = description().replace(alloc, own, other)?;
    Vec::from_slice(alloc, text.as_bytes())
}

/// Returns the plain session description with a second media, which has the address 239.0.0.2.
/// Returns `Err` if memory runs out.
pub fn two_paths(alloc: Global) -> Result<Vec<u8>, AllocError> {
    let mut sdp = Vec::from_slice(alloc, description().as_bytes())?;
    let media = MEDIA.replace(alloc, "239.0.0.1", "239.0.0.2")?;
    sdp.extend_from_slice(media.as_bytes())?;
    Ok(sdp)
}

/// Returns the plain session description with two more media, which have the ports 50002 and 50004.
/// Returns `Err` if memory runs out.
pub fn three_media(alloc: Global) -> Result<Vec<u8>, AllocError> {
    let mut sdp = Vec::from_slice(alloc, description().as_bytes())?;
    for port in ["50002", "50004"] {
        let media = MEDIA.replace(alloc, "50000", port)?;
        sdp.extend_from_slice(media.as_bytes())?;
    }
    Ok(sdp)
}
