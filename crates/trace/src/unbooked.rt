// Bookings that refuse nothing, for a trace that is read for its own sake.
ghost use Rattle.trace.specs.Bookings.{unbooked};

use crate::bookings::Bookings;
use faults::BookingFault;
use lines::{Client, Header, Owner};

/// Bookings that refuse nothing and hold nothing.
#[derive(Clone, Copy, Default, PartialEq, Eq, Debug)]
pub struct Unbooked;

impl Bookings for Unbooked {
    ghost State = { Unit {0} };

    ghost state = { λ _. tt };

    ghost desk = { unbooked };

    fn set(&mut self, _header: &Header) -> Result<(), BookingFault> {
        Ok(())
    }

    fn frame(&mut self, _owners: &[Owner]) -> Result<(), BookingFault> {
        Ok(())
    }

    fn reserve(&mut self, _client: &Client) -> Result<(), BookingFault> {
        Ok(())
    }
}
