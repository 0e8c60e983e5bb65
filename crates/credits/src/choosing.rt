ghost use Rattle.std.specs.Prelude.{◌≡◌};
ghost use Rattle.tables.specs.Tables.{listed};
ghost use Rattle.clients.specs.Meant.{meaning};
ghost use Rattle.credits.specs.Shares.{eligible as eligible_in, by_place, byte_of, served as served_of};

use crate::credit_server::CreditServer;

impl CreditServer {
    // The client that the next slot serves: the lowest bit of the byte of the eligible clients, which the rules
    // speak of and the code keeps.
    pub(crate) fn served(&self) -> Option<u8>
        ensures { result ≡ served_of (meaning self.now.clients) self.now.denominator (listed self.now.shares) }
    {
        let byte = self.eligible();
        // At most eight, and at most seven where a bit is set.
        (byte != 0).then_some(byte.trailing_zeros() as u8)
    }

    // The eligible clients as one byte, bit c for client c: each has a waiting block, and its share pays for a unit.
    fn eligible(&self) -> u8
        ensures { result ≡ byte_of (by_place (eligible_in (meaning self.now.clients) self.now.denominator) 0 (listed self.now.shares)) }
    {
        let mut byte = 0u8;
        // At most eight places, so each is a client's number.
        for (place, share) in self.shares.as_slice().iter().enumerate() {
            if self.clients.waits(place as u8) && share.affords(self.denominator) {
                byte |= 1 << place;
            }
        }
        byte
    }
}
