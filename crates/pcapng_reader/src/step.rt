//! The results of a converter.

ghost use Rattle.std.specs.Prelude.{◌≡◌, ◌<◌};
ghost use Rattle.pcapng_reader.specs.Gifts.{gift_of};

/// The result of one step of a converter.
#[derive(Clone, Copy, Debug)]
pub enum Step {
    /// The converter went on.
    Moved,
    /// More bytes have to be read first.
    Hungry,
    /// The rest of the output is what the source has left.
    Through,
    /// All output was given.
    Over,
}

/// The output of a call of a converter.
#[derive(Clone, Copy, Debug)]
pub enum Gift {
    /// This many bytes.
    Bytes(usize),
    /// Nothing, until more bytes are read.
    Hungry,
    /// Nothing, because the rest of the output is what the source has left.
    Through,
    /// Nothing, because all output was given.
    Over,
}

impl Gift {
    /// Returns the output of a call that gave `at` bytes before a step had this result.
    pub fn of(at: usize, step: Step) -> Gift
        ensures { result ≡ gift_of at step }
    {
        if at > 0 {
            return Gift::Bytes(at);
        }
        match step {
            Step::Moved => Gift::Bytes(0),
            Step::Hungry => Gift::Hungry,
            Step::Through => Gift::Through,
            Step::Over => Gift::Over,
        }
    }
}
