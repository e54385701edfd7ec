//! A draft of a session description (SDP), made from the streams of a capture.

ghost use Rattle.std.specs.Prelude.{◌≡◌, ◌++◌, ◌∷◌, [], ◌≤◌, IfOk, string_bytes};
ghost use Rattle.std.specs.List.{flat_map};
ghost use Rattle.capture_scan.specs.report.Draft.{are_of_fields, connection_line, draft_text, guess_line, guess_text, guesses_of, guesses_text, has_fields, has_target, height_of, is_added, is_height_guessed, is_in_use, is_near, is_rate_guessed, is_raw, map_line, media_line, near_height, parameter_line, rate_of, seen_height, video_of, video_text, videos_of, width_of};

use crate::report::rate::{Ratio, is_known};
use crate::{Lines, Pace, Stream};
use std::alloc::{AllocError as OutOfMemory, Global};
use std::fmt;
use timing_base::{Address, Target};

/// The values of a video that are guesses. The width always is one, since no packet contains it.
#[derive(Clone, Copy)]
pub struct Guesses {
    /// Line headers were captured, and the lines seen aren't a height in use.
    pub height: bool,
    /// No known rate has a step within a hundredth of the mean.
    pub rate: bool,
    /// No line header was captured.
    pub lines: bool,
}

/// A video of a draft.
#[derive(Clone, Copy)]
pub struct DraftVideo {
    /// The destination address and port; the port is above 0.
    pub target: Target,
    /// The RTP payload type.
    pub pt: u8,
    /// The width in pixels, guessed from the height.
    pub width: u32,
    /// The height in lines of a whole frame: the least height in use from the lines seen to four more; else the lines
    /// seen, at most 32,767; 1080 if no line header was captured.
    pub height: u32,
    /// Whether a line of a second field was seen.
    pub interlaced: bool,
    /// The frame rate; 24000/1001 if no step was seen.
    pub rate: Ratio,
    /// The values that are guesses.
    pub guesses: Guesses,
}

/// A draft of an SDP: at most 64 videos, each with a target of its own.
#[derive(Drop)]
pub struct Draft {
    /// The videos, in the order of the streams.
    pub videos: Vec<DraftVideo>,
}

/// Returns whether no line header was seen that doesn't fit raw video.
fn is_raw(lines: Option<Lines>) -> bool
    ensures { result ≡ is_raw lines }
{
    match lines {
        Some(lines) => lines.fits,
        None => true,
    }
}

/// Returns whether a line of a second field was seen, and all line headers fit raw video.
pub(crate) fn has_fields(lines: Option<Lines>) -> bool
    ensures { result ≡ has_fields lines }
{
    match lines {
        Some(lines) => lines.fits && lines.second_field,
        None => false,
    }
}

/// Returns whether this is a height in use.
fn is_in_use(count: u32) -> bool
    ensures { result ≡ is_in_use count }
{
    matches!(count, 2160 | 1080 | 720 | 576 | 486 | 480)
}

/// Returns whether `height` is `count` lines, or up to four more.
fn is_near(count: u32, height: u32) -> bool
    requires { count ≤ 131072 }
    ensures { result ≡ is_near count height }
{
    count <= height && height <= count + 4
}

/// Returns the least height in use from `count` lines to four more.
fn near_height(count: u32) -> Option<u32>
    requires { count ≤ 131072 }
    ensures { result ≡ near_height count }
{
    if is_near(count, 480) {
        Some(480)
    } else if is_near(count, 486) {
        Some(486)
    } else if is_near(count, 576) {
        Some(576)
    } else if is_near(count, 720) {
        Some(720)
    } else if is_near(count, 1080) {
        Some(1080)
    } else if is_near(count, 2160) {
        Some(2160)
    } else {
        None
    }
}

/// Returns whether these are the lines of one field: a frame of twice as many has at most 2,160, and no height in use
/// is from `count` to four more.
fn are_of_fields(count: u32) -> bool
    requires { count ≤ 65536 }
    ensures { result ≡ are_of_fields count }
{
    2 * count <= 2160 && near_height(count).is_none()
}

/// Returns the lines of a whole frame, as far as they were seen. Some senders number the lines of each field from 0,
/// others number those of both fields over the whole frame.
fn seen_height(lines: Lines) -> u32
    ensures lines { result ≡ seen_height lines }
    ensures few { result ≤ 131072 }
{
    let count = u32::from(lines.greatest) + 1;
    if lines.second_field && are_of_fields(count) {
        2 * count
    } else {
        count
    }
}

/// Returns the height of the video: 1080 without a captured line header.
fn height_of(lines: Option<Lines>) -> u32
    ensures { result ≡ height_of lines }
{
    let Some(lines) = lines else {
        return 1080;
    };
    let seen = seen_height(lines);
    near_height(seen).unwrap_or(seen).min(32_767)
}

/// Returns whether lines were seen that aren't a height in use.
fn is_height_guessed(lines: Option<Lines>) -> bool
    ensures { result ≡ is_height_guessed lines }
{
    match lines {
        Some(lines) => !is_in_use(seen_height(lines)),
        None => false,
    }
}

/// Returns the width in pixels that goes with a height.
fn width_of(height: u32) -> u32
    requires { height ≤ 32767 }
    ensures { result ≡ width_of height }
{
    match height {
        2160 => 3840,
        1080 => 1920,
        720 => 1280,
        576 | 486 | 480 => 720,
        _ => (16 * height / 9).min(32_767).max(1),
    }
}

/// Returns the frame rate: 24000/1001 if no step was seen.
fn rate_of(fields: bool, pace: Option<Pace>) -> Ratio
    ensures { result ≡ rate_of fields pace }
{
    match pace {
        Some(pace) => Ratio::drafted(fields, pace.rate),
        None => Ratio::slowest(),
    }
}

/// Returns whether no known rate has a step within a hundredth of the mean.
fn is_rate_guessed(fields: bool, pace: Option<Pace>) -> bool
    ensures { result ≡ is_rate_guessed fields pace }
{
    match pace {
        Some(pace) => !is_known(fields, pace.rate),
        None => true,
    }
}

impl Guesses {
    /// Returns which values of the video of a stream are guesses.
    fn of(stream: &Stream) -> Guesses
        ensures { result ≡ guesses_of stream.now }
    {
        Guesses {
            height: is_height_guessed(stream.lines),
            rate: is_rate_guessed(has_fields(stream.lines), stream.pace),
            lines: stream.lines.is_none(),
        }
    }
}

impl DraftVideo {
    /// Returns the video of a stream.
    fn of(stream: &Stream) -> DraftVideo
        ensures { result ≡ video_of stream.now }
    {
        let height = height_of(stream.lines);
        let interlaced = has_fields(stream.lines);
        DraftVideo {
            target: stream.target,
            pt: stream.pt,
            width: width_of(height),
            height,
            interlaced,
            rate: rate_of(interlaced, stream.pace),
            guesses: Guesses::of(stream),
        }
    }
}

/// Returns whether one of the videos has this target.
fn has_target(target: Target, videos: &[DraftVideo]) -> bool
    ensures { result ≡ has_target target videos.now }
{
    for video in videos {
        if video.target == target {
            return true;
        }
    }
    false
}

/// Returns whether a stream adds its video to these.
fn is_added(videos: &[DraftVideo], stream: &Stream) -> bool
    ensures { result ≡ is_added videos.now stream.now }
{
    videos.len() < 64
        && (stream.markers >= 3 && (stream.target.port > 0 && is_raw(stream.lines)))
        && !has_target(stream.target, videos)
}

impl Draft {
    /// Returns the draft of these streams.
    ///
    /// A stream has a video if it has three markers or more, a target port above 0 and no line header that doesn't fit
    /// raw video. Streams are taken in order, up to 64 videos, and only the first with each target.
    ///
    /// Returns `Err` if memory runs out.
    pub fn of(alloc: Global, streams: &[Stream]) -> Result<Draft, OutOfMemory>
        ensures { IfOk result (λ draft. draft.videos.items ≡ videos_of streams.now) }
    {
        let mut videos = Vec::new(alloc);
        for stream in streams {
            if is_added(videos.as_slice(), stream) {
                videos.push(DraftVideo::of(stream))?;
            }
        }
        Ok(Draft { videos })
    }

    /// Returns the draft as the text of an SDP. Returns `Err` if memory runs out.
    pub fn text(&self, alloc: Global) -> Result<String, OutOfMemory>
        ensures { IfOk result (λ s. string_bytes s ≡ draft_text self.now.videos.items) }
    {
        let mut text = String::new(alloc);
        text.push_str("v=0\no=- 0 0 IN IP4 0.0.0.0\ns=draft\nt=0 0\n")?;
        add_videos(&mut text, self.videos.as_slice())?;
        Ok(text)
    }
}

/// An address of a line `c=`, with `/32` as the TTL if it is a multicast address.
#[derive(Clone, Copy)]
struct ConnectionText {
    address: Address,
}

impl fmt::Display for ConnectionText {
    ghost use Rattle.std.specs.Prelude.{Some};
    ghost use Rattle.capture_scan.specs.report.Draft.{connection_address};

    ghost output = { λ text. Some (connection_address text.address) };

    fn fmt<W: fmt::Write>(&self, f: &mut fmt::Formatter<W>) -> fmt::Result {
        let [first, ..] = self.address.octets();
        if 224 <= first && first < 240 {
            write!(f, "{}/32", self.address)
        } else {
            write!(f, "{}", self.address)
        }
    }
}

/// The parameter `interlace` if frames have two fields, else nothing.
#[derive(Clone, Copy)]
struct InterlaceText {
    interlaced: bool,
}

impl fmt::Display for InterlaceText {
    ghost use Rattle.std.specs.Prelude.{Some};
    ghost use Rattle.capture_scan.specs.report.Draft.{interlace_text};

    ghost output = { λ text. Some (interlace_text text.interlaced) };

    fn fmt<W: fmt::Write>(&self, f: &mut fmt::Formatter<W>) -> fmt::Result {
        if self.interlaced {
            f.write_str("interlace; ")
        } else {
            f.write_str("")
        }
    }
}

/// Adds the lines of the videos.
fn add_videos(text: &mut String, videos: &[DraftVideo]) -> Result<(), OutOfMemory>
    ensures { IfOk result (λ _. string_bytes text.new
        ≡ string_bytes text.old ++ flat_map video_text videos.now) }
{
    for video in videos {
        add_video(text, video)?;
    }
    Ok(())
}

/// Adds the lines of a video.
fn add_video(text: &mut String, video: &DraftVideo) -> Result<(), OutOfMemory>
    ensures { IfOk result (λ _. string_bytes text.new ≡ string_bytes text.old ++ video_text video.now) }
{
    add_media(text, video)?;
    add_guesses(text, video)?;
    add_connection(text, video)?;
    add_map(text, video)?;
    add_parameters(text, video)
}

/// Adds the line `m=`, with the port and the payload type.
fn add_media(text: &mut String, video: &DraftVideo) -> Result<(), OutOfMemory>
    ensures { IfOk result (λ _. string_bytes text.new ≡ string_bytes text.old ++ media_line video.now) }
{
    writeln!(text, "m=video {} RTP/AVP {}", video.target.port, video.pt)
}

/// Adds `what` if it is a guess.
fn add_guess(text: &mut String, is_guess: bool, what: &str) -> Result<(), OutOfMemory>
    ensures { IfOk result (λ _. string_bytes text.new ≡ string_bytes text.old ++ guess_text is_guess what.now) }
{
    if is_guess {
        text.push_str(what)
    } else {
        Ok(())
    }
}

/// Adds the guesses besides the width, and the newline.
fn add_others(text: &mut String, guesses: Guesses) -> Result<(), OutOfMemory>
    ensures { IfOk result (λ _. string_bytes text.new ≡ string_bytes text.old ++ guesses_text guesses) }
{
    add_guess(text, guesses.height, ", height")?;
    add_guess(text, guesses.rate, ", rate")?;
    add_guess(text, guesses.lines, ", lines not captured")?;
    text.push_str("\n")
}

/// Adds the line `i=`, with the list of guesses.
fn add_guesses(text: &mut String, video: &DraftVideo) -> Result<(), OutOfMemory>
    ensures { IfOk result (λ _. string_bytes text.new ≡ string_bytes text.old ++ guess_line video.now) }
{
    text.push_str("i=guessed: width")?;
    add_others(text, video.guesses)
}

/// Adds the line `c=`, with the address.
fn add_connection(text: &mut String, video: &DraftVideo) -> Result<(), OutOfMemory>
    ensures { IfOk result (λ _. string_bytes text.new ≡ string_bytes text.old ++ connection_line video.now) }
{
    let address = ConnectionText {
        address: video.target.address,
    };
    writeln!(text, "c=IN IP4 {address}")
}

/// Adds the line `a=rtpmap`, with the payload format.
fn add_map(text: &mut String, video: &DraftVideo) -> Result<(), OutOfMemory>
    ensures { IfOk result (λ _. string_bytes text.new ≡ string_bytes text.old ++ map_line video.now) }
{
    writeln!(text, "a=rtpmap:{} raw/90000", video.pt)
}

/// Adds the line `a=fmtp`, with the parameters.
fn add_parameters(text: &mut String, video: &DraftVideo) -> Result<(), OutOfMemory>
    ensures { IfOk result (λ _. string_bytes text.new ≡ string_bytes text.old ++ parameter_line video.now) }
{
    let (pt, width, height, rate) = (video.pt, video.width, video.height, video.rate);
    let interlace = InterlaceText {
        interlaced: video.interlaced,
    };
    writeln!(
        text,
        "a=fmtp:{pt} width={width}; height={height}; exactframerate={rate}; {interlace}"
    )
}
