//! The judges of a session's media.

ghost use Rattle.std.specs.Prelude.{◌≡◌, ◌≤◌, ◌++◌, [], ℕ, List, IfOk, length};
ghost use Rattle.timing_base.specs.Shifts.{FlowOptions as FlowOptionsValue};
ghost use Rattle.timing_base.specs.Captures.{Record};
ghost use Rattle.timing_base.specs.Media.{Media as MediaValue};
ghost use Rattle.flow_demux.specs.Rooms.{IsReady};
ghost use Rattle.fail_interval.specs.Rows.{rows_of};
ghost use Rattle.fail_interval.specs.Meterings.{expected_next};

use crate::metered::Metered;
use flow_demux::{Demux, MediaFlow};
use pcap_reader::Taker;
use std::alloc::{AllocError as OutOfMemory, Global};
use timing_base::{FlowKey, FlowOptions, Media, Row};

/// One judge for each media of a session, over the packet records of one file or of joined files.
#[derive(Drop)]
pub struct Bank {
    demux: Demux<Metered<(), ()>>,
    ghost ready: { IsReady expected_next demux },
}

impl Bank {
    ghost use Rattle.fail_interval.specs.BankStands.{StandsFor, records};

    /// Returns the judges of these media for a file, before its first packet record. `file` counts from 0. All flows
    /// have these options. Returns `Err` if memory runs out.
    pub fn new(
        alloc: Global,
        media: &[Media],
        file: u32,
        options: FlowOptions,
    ) -> Result<Bank, OutOfMemory>
        requires few { length media.now ≤ 64 }
        ensures stands { IfOk result (λ bank. StandsFor media.now file options bank []) }
        ensures none { IfOk result (λ bank. records bank ≡ 0) }
    {
        let mut flows = Vec::new(alloc);
        for (number, each) in media.iter().enumerate() {
            let key = FlowKey {
                file,
                media: number as u32,
            };
            flows.push(MediaFlow::new(each, Metered::new(alloc, each, key, options, ())))?;
        }
        Ok(Bank {
            demux: Demux::new(alloc, flows)?,
        })
    }

    /// Appends the results of the media to `rows`, in the order of the media. Returns `Err` if memory runs out.
    pub fn finish(self, rows: &mut Vec<Row>) -> Result<(), OutOfMemory>
        ensures rows { IfOk result (λ _. (media : List MediaValue) (file : ℕ) (options : FlowOptionsValue)
            (items : List Record) → StandsFor media file options self items
            → rows.new.items ≡ rows.old.items ++ rows_of options file media items) }
    {
        let Bank { demux, .. } = self;
        for flow in demux.into_flows() {
            let MediaFlow { taker, .. } = flow;
            let (row, _) = taker.finish()?;
            rows.push(row)?;
        }
        Ok(())
    }
}

impl Taker for Bank {
    ghost use Rattle.fail_interval.specs.BankStands.{Feeds, HasRoom, feeds_more, feeds_none, room_less};
    ghost use Rattle.pcap_reader.specs.Taken.{StopsAnyhow};

    /// Memory ran out.
    type Stop = OutOfMemory;

    ghost takes = { Feeds };

    ghost stops = { StopsAnyhow };

    ghost room = { HasRoom };

    ghost none = { feeds_none };

    ghost more = { feeds_more };

    ghost ends = { λ _ _ _ _ _ _ _ _. tt };

    ghost halts = { λ _ _ _ _ _ _. tt };

    ghost less = { room_less };

    #[inline(always)]
    fn take(&mut self, number: u64, at: u64, frame: &[u8]) -> Result<(), OutOfMemory> {
        self.demux.take(number, at, frame)
    }
}
