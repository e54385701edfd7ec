//! Keys of flows.

ghost use Rattle.std.specs.Prelude.{◌≡◌, ◌≤◌, ◌<◌};

/// The key of the flow of one media in one capture. Joined captures are file 0.
#[derive(Clone, Copy, Debug, PartialEq, Eq)]
pub struct FlowKey {
    /// The capture, counted from 0.
    pub file: u32,
    /// The media, counted from 0.
    pub media: u32,
}

ghost use Rattle.timing_base.specs.Routes.{route};

/// Returns the worker that judges a flow, counted from 0. Flows are assigned to the workers in
/// turn, ordered by file and then by media.
pub fn route(key: FlowKey, media_count: u32, workers: u32) -> u32
    requires file { key.file < 16 }
    requires media { key.media < media_count }
    requires few_media { media_count ≤ 64 }
    requires some { 1 ≤ workers }
    requires few { workers ≤ 16 }
    ensures value { result ≡ route key media_count workers }
    ensures within { result < workers }
{
    (key.file * media_count + key.media) % workers
}
