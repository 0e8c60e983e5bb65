// What a trace asks of the bookings as its lines are read.
ghost use Rattle.trace.specs.Bookings.{Desk, led};
ghost use Rattle.std.specs.Prelude.{◌≡◌};

use faults::BookingFault;
use lines::{Client, Header, Owner};

/// What takes the header, the frame and each client, and may refuse one.
pub trait Bookings {
    /// What is booked, in terms of the subject.
    ghost State: { Type 0 };

    /// What these bookings hold.
    ghost state: { Self → State };

    /// What each line leaves booked, or why it is refused.
    ghost desk: { Desk State };

    /// Sets the denominator of the credits and the total of the ring.
    fn set(&mut self, header: &Header) -> Result<(), BookingFault>
        ensures { led result (state self.new) ≡ desk.sets (state self.old) header.now };

    /// Sets the frame's owners.
    fn frame(&mut self, owners: &[Owner]) -> Result<(), BookingFault>
        ensures { led result (state self.new) ≡ desk.frames (state self.old) owners.now };

    /// Reserves for one client more.
    fn reserve(&mut self, client: &Client) -> Result<(), BookingFault>
        ensures { led result (state self.new) ≡ desk.reserves (state self.old) client.now };
}
