//! The media that a job judges.

ghost use Rattle.std.specs.Prelude.{◌≡◌, ◌≤◌, length};
ghost use Rattle.timing_base.specs.Choices.{chosen};

use timing_base::{CaptureJob, Media, Session};
use timing_steps::chosen_media;

/// Returns the media of a session that a job judges: all, or the chosen one. They are at most 64.
pub fn judged_media<'a>(job: &CaptureJob, session: &'a Session) -> &'a [Media]
    ensures are { result.now ≡ chosen job.now.media session.now }
    ensures few { length result.now ≤ 64 }
{
    let count = session.media.len();
    prove!(count <= 64);
    chosen_media(session, job.media)
}
