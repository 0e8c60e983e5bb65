use server::rate::Rate;
use std::fmt;

// The sources of this program, which no other has, in the order of their client numbers, and one that no hop has
// booked.
#[derive(Clone, Copy, PartialEq, Eq, Debug)]
pub enum Source {
    Housekeeping,
    Ranging,
    Payload,
    Stranger,
}

impl Source {
    // The sources that are booked: an array and no slice, since it is gone through by value.
    pub const BOOKED: [Source; 3] = [Source::Housekeeping, Source::Ranging, Source::Payload];
}

// The source's client number.
impl From<Source> for u8 {
    ghost use Rattle.std.specs.Prelude.{◌≡◌};
    ghost use Rattle.burst.specs.Sources.{source_of};

    ghost from_gives = { λ source client. source_of client ≡ source };

    fn from(source: Source) -> u8 {
        source as u8
    }
}

// A number that no source has is a stranger's, so that whatever a server tells can be printed.
impl From<u8> for Source {
    ghost use Rattle.std.specs.Prelude.{◌≡◌};
    ghost use Rattle.burst.specs.Sources.{source_of};

    ghost from_gives = { λ client source. source ≡ source_of client };

    fn from(client: u8) -> Source {
        match client {
            0 => Source::Housekeeping,
            1 => Source::Ranging,
            2 => Source::Payload,
            _ => Source::Stranger,
        }
    }
}

impl fmt::Display for Source {
    fn fmt<W: fmt::Write>(&self, f: &mut fmt::Formatter<W>) -> fmt::Result {
        f.pad(match self {
            Source::Housekeeping => "housekeeping",
            Source::Ranging => "ranging",
            Source::Payload => "payload",
            Source::Stranger => "stranger",
        })
    }
}

// What each source reserves: so many units in so many slots.
pub const HOUSEKEEPING_RATE: Rate = Rate { p: 1, q: 8 };

pub const RANGING_RATE: Rate = Rate { p: 2, q: 9 };

pub const PAYLOAD_RATE: Rate = Rate { p: 1, q: 2 };

// What a fourth source would like to reserve, and a rate above one unit in each slot.
pub const CAMERA_RATE: Rate = Rate { p: 1, q: 2 };

pub const TOO_FAST: Rate = Rate { p: 3, q: 2 };
