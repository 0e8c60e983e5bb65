// What the lines of a trace say.
ghost use Rattle.lines.specs.Rates.{line_rate};
ghost use Rattle.std.specs.Prelude.{◌≡◌};

use labels::Kind;
use server::rate::Rate;

/// The header: the kind of the labels, the denominator of the credits and the total of the ring.
#[derive(Clone, Copy, PartialEq, Eq, Debug)]
pub struct Header {
    pub kind: Kind,
    pub denominator: u32,
    pub total: u32,
}

/// Who owns a slot of the frame: a client, or nobody.
pub type Owner = Option<u8>;

/// A client: its rate of `units` in `slots`, its step and cap of credits, and its quantum in the ring.
#[derive(Clone, Copy, Default, PartialEq, Eq, Debug)]
pub struct Client {
    pub units: u32,
    pub slots: u32,
    pub step: u32,
    pub cap: u32,
    pub quantum: u32,
}

impl From<&Client> for Rate {
    ghost from_gives = { λ client rate. rate ≡ line_rate client.now };

    /// The rate of a client's line. A number past 16 bits is out of a booking's range, as the largest is.
    fn from(client: &Client) -> Rate {
        Rate {
            p: u16::try_from(client.units).unwrap_or(u16::MAX),
            q: u16::try_from(client.slots).unwrap_or(u16::MAX),
        }
    }
}

/// A request: a block of `length` units with a label's code, submitted for a client at a slot.
#[derive(Clone, Copy, Default, PartialEq, Eq, Debug)]
pub struct Request {
    pub slot: u32,
    pub client: u8,
    pub label: u32,
    pub length: u8,
}
