ghost use Rattle.std.specs.Prelude.{◌≡◌};
ghost use Rattle.trace.specs.Bookings.{led};
ghost use Rattle.hops.specs.Hops.{State as Booked, booked_in, at_hop, desk as hops_desk};

use crate::hops::{Hop, Hops};
use clients::booking::BookingRefusal;
use faults::BookingFault;
use lines::{Client, Header, Owner};
use server::rate::Rate;
use trace::Bookings;

// A booking's answer at a hop: its refusal is told with the hop.
fn at(hop: Hop, answer: Result<(), BookingRefusal>) -> Result<(), BookingFault>
    ensures { (s : Booked) → led result s ≡ at_hop hop answer s }
{
    answer.map_err(|refusal| BookingFault {
        hop: hop as u8,
        refusal,
    })
}

impl Bookings for Hops {
    ghost State = { Booked };

    ghost state = { booked_in };

    ghost desk = { hops_desk };

    fn set(&mut self, header: &Header) -> Result<(), BookingFault> {
        at(
            Hop::Credits,
            self.credits.set_denominator(header.denominator),
        )?;
        at(Hop::Ring, self.ring.set_total(header.total))
    }

    fn frame(&mut self, owners: &[Owner]) -> Result<(), BookingFault> {
        at(Hop::Frame, self.frame.set_frame(owners))
    }

    fn reserve(&mut self, client: &Client) -> Result<(), BookingFault> {
        let rate = Rate::from(client);
        at(Hop::Frame, self.frame.reserve(rate))?;
        at(
            Hop::Credits,
            self.credits.reserve(rate, client.step, client.cap),
        )?;
        at(Hop::Ring, self.ring.reserve(rate, client.quantum))
    }
}
