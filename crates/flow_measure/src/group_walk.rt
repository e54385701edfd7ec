//! The position of the packets of a run in its frames or fields.

ghost use Rattle.std.specs.Prelude.{◌≡◌, ◌<◌, ◌≤◌, ◌+◌, ◌/◌, ◌%◌, ◌^◌, true, false};

use sender_params::Params;

/// The position of the next packet of a run in its frames or fields, which all have the same number of packets.
#[derive(Clone, Copy)]
pub struct GroupWalk {
    /// The packets per frame or field.
    pub n: u32,
    /// The place of the next packet in its frame or field, from 0.
    pub place: u32,
    /// The count of packets so far.
    pub seen: u64,
    /// The number of the next packet's frame or field, from 0: the count of those that are complete.
    pub group: u64,
    ghost few: { seen ≤ 2 ^ 41 },
    ghost place_is: { place ≡ seen % n },
    ghost place_within: { place < n },
    ghost group_is: { group ≡ seen / n },
    ghost group_few: { group ≤ seen },
}

impl GroupWalk {
    /// Returns the position of the first packet.
    pub fn new(params: &Params) -> GroupWalk
        ensures n { result.n ≡ params.now.n }
        ensures seen { result.seen ≡ 0 }
        ensures place { result.place ≡ 0 }
        ensures group { result.group ≡ 0 }
    {
        GroupWalk {
            n: params.n(),
            place: 0,
            seen: 0,
            group: 0,
        }
    }

    /// Passes the next packet, and returns whether it is the last of its frame or field.
    #[inline(always)]
    pub fn pass(&mut self) -> bool
        requires few { self.old.seen < 2 ^ 41 }
        ensures n { self.new.n ≡ self.old.n }
        ensures seen { self.new.seen ≡ self.old.seen + 1 }
        ensures within { result ≡ false → (self.old.place + 1 < self.old.n)
            × (self.new.place ≡ self.old.place + 1) × (self.new.group ≡ self.old.group) }
        ensures over { result ≡ true → (self.old.place + 1 ≡ self.old.n)
            × (self.new.place ≡ 0) × (self.new.group ≡ self.old.group + 1) }
    {
        self.seen += 1;
        if self.place + 1 < self.n {
            self.place += 1;
            return false;
        }
        self.place = 0;
        self.group += 1;
        true
    }
}
