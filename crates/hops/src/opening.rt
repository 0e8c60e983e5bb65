ghost use Rattle.std.specs.Prelude.{◌≡◌};
ghost use Rattle.hops.specs.Hops.{booked_in, fresh};
ghost use Rattle.hops.specs.Station.{opened};

use crate::hops::{Hops, Station};
use credits::booking::CreditBooking;
use frame::booking::FrameBooking;
use join::chain::Chain;
use ring::booking::RingBooking;
use server::server::Server;

impl Hops {
    /// Nothing is booked. No `Default` can be derived, since the bookings have none.
    pub fn new() -> Hops
        ensures { booked_in result ≡ fresh }
    {
        Hops {
            frame: FrameBooking::new(),
            credits: CreditBooking::new(),
            ring: RingBooking::new(),
        }
    }

    /// Opens the bookings, which uses them up, and joins frame and credits, then that chain and the ring.
    pub fn open(self) -> Station
        ensures { ⟦<Station as Server>⟧.state result ≡ opened (booked_in self) }
    {
        let Hops {
            frame,
            credits,
            ring,
        } = self;
        Chain::join(Chain::join(frame.open(), credits.open()), ring.open())
    }
}
