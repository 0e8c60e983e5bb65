ghost use Rattle.std.specs.Prelude.{◌≡◌};
ghost use Rattle.server.specs.Calls.{accepting};

use crate::rate::Terms;
use crate::refusal::Refusal;

/// What a server tells of a client: its terms, its clock in ticks, and how many of its blocks wait.
#[derive(Clone, Copy, PartialEq, Eq, Default, Debug)]
pub struct View {
    pub terms: Terms,
    pub clock: u64,
    pub waiting: u8,
}

impl View {
    /// Whether a block of this length may come in, or the first cause against it.
    pub fn accept(self, length: u8) -> Result<(), Refusal>
        ensures { result ≡ accepting self length }
    {
        if !(1..=16).contains(&length) {
            return Err(Refusal::BadLength);
        }
        if self.waiting >= 8 {
            return Err(Refusal::Full);
        }
        Ok(())
    }
}
