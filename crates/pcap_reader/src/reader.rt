//! The reader, which lends one packet record after the other.

ghost use Rattle.std.specs.Prelude.{◌≡◌, ◌≤◌, ◌^◌, List, ℕ, Some, None, Ok, Err, IfOk, IfErr, IfSome, MatchResult, drop};
ghost use Rattle.timing_base.specs.Captures.{Record};
ghost use Rattle.timing_base.specs.declared.capture.PcapFault.TheVariants as fault;
ghost use Rattle.timing_base.specs.declared.capture.FileNote.TheVariants as file_note;

use crate::layout::Layout;
use crate::stage::{Head, Stage};
use crate::window::Window;
use std::alloc::Global;
use timing_base::{FileNote, PcapFault};
use timing_outside::Source;

/// The greatest length of a capture that any command reads, in bytes.
pub const MOST: u64 = 1 << 40;

/// The next packet record, or the end of the capture.
#[derive(Clone, Copy, Debug)]
pub enum Step<'a> {
    /// The captured bytes of the next packet record, lent from the reader's buffer, and its capture
    /// timestamp, in nanoseconds since 1970-01-01 00:00:00.
    Frame { at: u64, bytes: &'a [u8] },
    /// The capture ends after a complete packet record.
    End,
    /// The capture ends within the packet record that starts at this byte, counted from 0.
    Cut { at: u64 },
}

/// A buffered reader of the packet records of a source.
#[derive(Drop)]
pub struct PcapReader<S: Source> {
    pub(crate) source: S,
    pub(crate) window: Window,
}

impl<S: Source> PcapReader<S> {
    ghost use Rattle.pcap_reader.specs.Records.{Records};
    ghost use Rattle.std.specs.Io.BufRead.{Rests};
    ghost use Rattle.std.specs.Borrow.{sem};
    ghost use Rattle.pcap_reader.specs.Readers.{under, frame_count, most_of, taken_count, end_note, WillGive, Steps};
    ghost use Rattle.pcap_reader.specs.contracts.reader.PcapReader.{the_row};

    /// Returns a reader at the start of its source, for captures of at most `most` bytes. Allocates
    /// its only buffer, of 331,792 bytes, and reads nothing. If memory runs out, returns the
    /// unchanged source as `Err`.
    pub fn start(alloc: Global, source: S, most: u64) -> Result<PcapReader<S>, S>
        requires least { 24 ≤ most }
        requires greatest { most ≤ 2 ^ 40 }
        ensures gives { IfOk result (λ r. (text : List ℕ) (items : List Record) (note : _)
            → S.left source ≡ Some text → Records text most items note
            → WillGive S.left r items note) }
        ensures source { IfOk result (λ r. under r ≡ source) }
        ensures count { IfOk result (λ r. frame_count r ≡ 0) }
        ensures most { IfOk result (λ r. most_of r ≡ most) }
        ensures taken { IfOk result (λ r. taken_count r ≡ 0) }
        ensures fresh { IfOk result (λ r. end_note r ≡ None) }
        ensures back { IfErr result (λ s. s ≡ source) }
    {
        match Window::new(alloc, most) {
            Ok(window) => Ok(PcapReader { source, window }),
            Err(_) => Err(source),
        }
    }

    /// Returns the next packet record, or how the capture ends. At the place of a record, the first
    /// of these that applies is the result:
    ///
    /// - no byte is left: `End`;
    /// - fewer than the 16 bytes of a record's header are left: `Cut`;
    /// - the fraction of the capture timestamp is a second or more: `BadStamp`;
    /// - more than 262,144 bytes were captured: `BadLength`;
    /// - the record ends past the greatest length of a capture, `most`: `TooLong`;
    /// - fewer bytes are left than were captured: `Cut`;
    /// - otherwise a `Frame`.
    ///
    /// The faults of the file header, before the first record, are in this order `BadMagic` (also
    /// if the header is incomplete), `BadVersion` and `BadLink`. If a read of the source fails, the
    /// result is `ReadFault`, whatever is at this place. After an end or a fault the reader reads
    /// nothing more, and each further call returns the same.
    #[inline(always)]
    pub fn next(&mut self) -> Result<Step<'_>, PcapFault>
        // All guarantees about the result and the reader are the fields of `Steps`.
        ensures* after { sem 𝓛 (Rests (the_row S.row) self.entry
            (λ new. Steps S.left S.name S.faults self.old new result)) }
    {
        match self.find() {
            Ok(head) => Ok(Step::Frame {
                at: head.at,
                bytes: self.frame(head),
            }),
            Err(FileNote::End) => Ok(Step::End),
            Err(FileNote::Cut { at }) => Ok(Step::Cut { at }),
            Err(FileNote::Refused(fault)) => Err(fault),
        }
    }

    /// Returns how the records ended, if they have: the last result of `next`, if that was no
    /// packet record.
    pub fn note(&self) -> Option<FileNote>
        ensures note { result ≡ end_note self.now }
    {
        self.window.note()
    }

    /// Returns the source, with the bytes it has left.
    pub fn into_source(self) -> S
        ensures { result ≡ under self }
    {
        let PcapReader { source, window: _ } = self;
        source
    }
}

impl<S: Source> PcapReader<S> {
    ghost use Rattle.std.specs.Prelude.{◌+◌};
    ghost use Rattle.pcap_reader.specs.Header.{header};
    ghost use Rattle.pcap_reader.specs.Records.{RecordsFrom};
    ghost use Rattle.pcap_reader.specs.Readers.{ahead, end_note};
    ghost use Rattle.pcap_reader.specs.Windows.{last_bytes};
    ghost use Rattle.pcap_reader.specs.Finding.{Holds, HeaderIs, FoundGives, FoundCounts, Moves, OnRose, Finds};
    ghost use Rattle.pcap_reader.specs.declared.stage.Stage.TheVariants as stage;

    /// Makes sure that `need` bytes are buffered, and returns whether there are that many. Reads
    /// only if fewer are buffered.
    #[inline]
    fn hold(&mut self, need: usize) -> Result<bool, FileNote>
        requires need { need ≤ 262160 }
        requires most { self.old.window.place + need ≤ self.old.window.most + 16 }
        ensures { Holds S.left S.name S.faults need self.old self.new result }
    {
        if self.window.len() >= need {
            return Ok(true);
        }
        match self.fill(need) {
            Ok(held) => Ok(held),
            Err(note) => Err(note),
        }
    }

    /// Moves the buffered bytes to the start of the buffer, and reads until `need` bytes are
    /// buffered.
    #[cold]
    fn fill(&mut self, need: usize) -> Result<bool, FileNote>
        requires need { need ≤ 262160 }
        requires most { self.old.window.place + need ≤ self.old.window.most + 16 }
        ensures { Holds S.left S.name S.faults need self.old self.new result }
    {
        self.window
            .fill(&mut self.source, need)
            .map_err(|_| FileNote::Refused(PcapFault::ReadFault))
    }

    /// Reads and consumes the file header.
    fn read_header(&mut self) -> Result<Layout, FileNote>
        requires first { self.old.window.place ≡ 0 }
        ensures header { (text : List ℕ) → ahead S.left self.old ≡ Some text
            → HeaderIs (header text) result }
        ensures rest { (text : List ℕ) → ahead S.left self.old ≡ Some text
            → IfOk result (λ _. ahead S.left self.new ≡ Some (drop 24 text)) }
        ensures place { IfOk result (λ _. self.new.window.place ≡ 24) }
        ensures first { IfOk result (λ _. self.new.window.count ≡ 0) }
        ensures count { self.new.window.count ≡ self.old.window.count }
        ensures stage { IfOk result (λ layout. self.new.window.stage ≡ stage.Records layout) }
        ensures moves { Moves S.left S.name S.faults self.old self.new }
        ensures failed { OnRose S.faults self.old self.new result }
    {
        if !self.hold(24)? {
            return Err(FileNote::Refused(PcapFault::BadMagic));
        }
        match Layout::read_header(self.window.peek()) {
            Ok(layout) => {
                self.window.pass_header(layout);
                Ok(layout)
            }
            Err(fault) => Err(FileNote::Refused(fault)),
        }
    }

    /// Reads and consumes the next packet record.
    fn read_record(&mut self, layout: Layout) -> Result<Head, FileNote>
        requires begun { self.old.window.stage ≡ stage.Records layout }
        ensures gives { (text : List ℕ) (items : List Record) (note : _)
            → ahead S.left self.old ≡ Some text
            → RecordsFrom layout self.old.window.most (self.old.window.count + 1)
            self.old.window.place text items note
            → FoundGives self.new.window (ahead S.left self.new) result items note }
        ensures counts { FoundCounts self.old.window.count self.new.window result }
        ensures stage { self.new.window.stage ≡ self.old.window.stage }
        ensures moves { Moves S.left S.name S.faults self.old self.new }
        ensures failed { OnRose S.faults self.old self.new result }
    {
        if !self.hold(16)? {
            return Err(if self.window.len() == 0 {
                FileNote::End
            } else {
                FileNote::Cut {
                    at: self.window.place,
                }
            });
        }
        let head = self.window.head(layout)?;
        if !self.hold(16 + head.captured)? {
            return Err(FileNote::Cut {
                at: self.window.place,
            });
        }
        self.window.pass_record(head.captured);
        Ok(head)
    }

    /// Reads and consumes the next packet record, after the file header if that is still ahead, or
    /// returns how the capture ends.
    fn advance(&mut self) -> Result<Head, FileNote>
        ensures finds { Finds S.left S.name S.faults self.old self.new result }
        ensures goes_on { IfOk result (λ _. end_note self.new ≡ None) }
        // After an end nothing is read, and that end is returned again.
        ensures same { (note : _) → end_note self.old ≡ Some note → self.new ≡ self.old }
        ensures again { (note : _) → end_note self.old ≡ Some note → result ≡ Err note }
    {
        match self.window.stage {
            Stage::Header => {
                let layout = self.read_header()?;
                self.read_record(layout)
            }
            Stage::Records(layout) => self.read_record(layout),
            Stage::Ended(note) => Err(note),
        }
    }

    /// Returns the captured bytes of the packet record that was found last.
    #[inline(always)]
    pub(crate) fn frame(&self, head: Head) -> &[u8]
        requires { head.captured ≤ self.now.window.start }
        ensures { result.now ≡ last_bytes head.captured self.now.window }
    {
        self.window.last(head.captured)
    }

    /// Finds the next packet record. If there is none, keeps and returns how the records end.
    pub(crate) fn find(&mut self) -> Result<Head, FileNote>
        ensures finds { Finds S.left S.name S.faults self.old self.new result }
        ensures tells { MatchResult result (λ _. end_note self.new ≡ None)
            (λ note. end_note self.new ≡ Some note) }
        ensures again { (note : _) → end_note self.old ≡ Some note → self.new ≡ self.old }
    {
        let found = self.advance();
        if let Err(note) = found {
            self.window.settle(note);
        }
        found
    }
}
