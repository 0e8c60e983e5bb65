use std::fmt;

// The sources of this program, which no other has, in the order of their client numbers, and one that no hop has
// booked.
#[derive(Clone, Copy, PartialEq, Eq, Debug)]
pub enum Source {
    Telemetry,
    Science,
    Stranger,
}

// The client numbers of the sources, for constants, whose values cannot come from a call of `from`.
pub const TELEMETRY: u8 = Source::Telemetry as u8;

pub const SCIENCE: u8 = Source::Science as u8;

pub const STRANGER: u8 = Source::Stranger as u8;

// The source's client number.
impl From<Source> for u8 {
    ghost use Rattle.std.specs.Prelude.{◌≡◌};
    ghost use Rattle.ledger.specs.Sources.{source_of};

    ghost from_gives = { λ source client. source_of client ≡ source };

    fn from(source: Source) -> u8 {
        source as u8
    }
}

// A number that no source has is a stranger's, so that whatever a server tells can be printed.
impl From<u8> for Source {
    ghost use Rattle.std.specs.Prelude.{◌≡◌};
    ghost use Rattle.ledger.specs.Sources.{source_of};

    ghost from_gives = { λ client source. source ≡ source_of client };

    fn from(client: u8) -> Source {
        match client {
            0 => Source::Telemetry,
            1 => Source::Science,
            _ => Source::Stranger,
        }
    }
}

impl fmt::Display for Source {
    fn fmt<W: fmt::Write>(&self, f: &mut fmt::Formatter<W>) -> fmt::Result {
        f.pad(match self {
            Source::Telemetry => "telemetry",
            Source::Science => "science",
            Source::Stranger => "stranger",
        })
    }
}
