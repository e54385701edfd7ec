//! The messages of a lane.

use crate::packet::Packet;
use std::marker::Model;
use timing_base::{FileNote, Items};

/// Packets of one file, in the order of its packet records: 1 to 256.
#[derive(Debug, Drop)]
pub struct Batch {
    /// File, counted from 0.
    pub file: u32,
    /// Packets of the batch.
    pub packets: Items<Packet>,
}

impl Model for Batch {
    ghost use Rattle.ruled_intake.specs.Messages.{Batch as Seen, IsBatch};

    ghost Value = { Seen };

    ghost view = { λ batch. record { file = batch.file; packets = batch.packets } };

    ghost invariant = { λ batch. IsBatch (record { file = batch.file; packets = batch.packets }) };
}

/// End of one file.
#[derive(Debug, Drop)]
pub struct FileEnd {
    /// File, counted from 0.
    pub file: u32,
    /// How its packet records end.
    pub note: FileNote,
    /// Number of its packet records, or if a read failed, of those before that: below 2^37.
    pub records: u64,
}

impl Model for FileEnd {
    ghost use Rattle.ruled_intake.specs.Messages.{FileEnd as Seen, IsFileEnd};

    ghost Value = { Seen };

    ghost view = { λ end. record { file = end.file; note = end.note; records = end.records } };

    ghost invariant = { λ end. IsFileEnd (record { file = end.file; note = end.note; records = end.records }) };
}

/// Message from a sender to the worker of a lane.
#[derive(Debug, Drop)]
pub enum Message {
    /// Packets of a file.
    Batch(Batch),
    /// The end of a file.
    End(FileEnd),
}

impl Message {
    ghost use Rattle.std.specs.Prelude.{◌≡◌, ◌≤◌};
    ghost use Rattle.ruled_intake.specs.Lanes.{count_of};

    /// Returns the number of packets in the message: at most 256.
    pub fn packets(&self) -> u64
        ensures value { result ≡ count_of self.now }
        ensures few { result ≤ 256 }
    {
        match self {
            Message::Batch(batch) => batch.packets.len() as u64,
            Message::End(_) => 0,
        }
    }
}
