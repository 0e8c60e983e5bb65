ghost use Rattle.std.specs.Prelude.{◌≡◌};
ghost use Rattle.server.specs.Refusals.{number_of};

/// Why a server turns a call down, each cause with its number.
#[derive(Clone, Copy, PartialEq, Eq, Debug)]
pub enum Refusal {
    // the client is not below the number of clients
    NoClient = 1,
    // the length is not 1 to 16
    BadLength = 2,
    // eight blocks of the client wait
    Full = 3,
    // the slot counter is at its end
    Ended = 4,
}

impl Refusal {
    /// A method and no `From`, since its name says which number; written for each enum, since a type parameter
    /// cannot be cast.
    pub fn number(self) -> u8
        ensures { result ≡ number_of self }
    {
        self as u8
    }
}
