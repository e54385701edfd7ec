//! The flow of a media before the first packet record.

ghost use Rattle.std.specs.Prelude.{◌≡◌, ◌≤◌, ◌^◌, []};
ghost use Rattle.flow_demux.specs.Awaits.{AwaitsExpected};
ghost use Rattle.timing_watch.specs.Watches.{every_of};
ghost use Rattle.timing_watch.specs.making.Flows.{HasRoom as FlowHasRoom, expected_next};
ghost use Rattle.timing_watch.specs.making.Watches.{IsFlowOf};

use crate::flow::WatchFlow;
use flow_demux::MediaFlow;
use flow_watch::groups_per_second;
use std::alloc::Global;
use timing_base::{Media, WatchJob};

/// Returns the number of frames or fields of a stretch of this video.
fn every_of(job: &WatchJob, media: &Media) -> u32
    ensures value { result ≡ every_of job.now media.now }
    ensures some { 1 ≤ result }
{
    match job.every {
        Some(every) => every,
        None => groups_per_second(media),
    }
}

/// Returns the flow of this media before the first packet record. `number` is that of the media, counted from 0.
pub(crate) fn begin_flow(
    alloc: Global,
    job: &WatchJob,
    media: &Media,
    number: u32,
) -> MediaFlow<WatchFlow>
    ensures media { result.media ≡ media.now }
    ensures room { FlowHasRoom (2 ^ 41) result.taker }
    ensures awaits { AwaitsExpected expected_next result }
    ensures stands { IsFlowOf job.now [] number media.now result }
{
    let every = every_of(job, media);
    MediaFlow::new(
        media,
        WatchFlow::new(alloc, media, number, job.flows.options, every, job.json),
    )
}
