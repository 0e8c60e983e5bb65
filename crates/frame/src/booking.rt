ghost use Rattle.server.specs.Laws.{Unused};
ghost use Rattle.clients.specs.Meant.{meaning};

use crate::frame_server::FrameServer;
use crate::owners::Frame;
use clients::booking::BookingRefusal;
use clients::table::Clients;
use clients::ticks::{rate_in_range, terms_of};
use server::rate::{Rate, Terms};

/// A server that is not in service yet: a frame, and the clients reserved in it so far. The three schedulers'
/// bookings share no trait: each is booked by a share of its own kind, so that no code would be generic over them.
#[derive(Drop)]
pub struct FrameBooking {
    server: FrameServer,
    ghost unused: { ∥ Unused (meaning server.clients) ∥₁ },
}

impl FrameBooking {
    ghost use Rattle.std.specs.Prelude.{◌≡◌, true, IfOk};
    ghost use Rattle.clients.specs.Serving.{terms_ok};
    ghost use Rattle.frame.specs.States.{booked_in, state_of, fresh, frame_says, frame_set, terms_say, reserve_says, reserved};

    /// A frame of one slot that nobody owns, and no clients. No `Default` can be derived of a type with ghost fields.
    pub fn new() -> FrameBooking
        ensures { booked_in result ≡ fresh }
    {
        FrameBooking {
            server: FrameServer {
                clients: Clients::new(),
                frame: Frame::new(),
            },
        }
    }

    /// Sets the owners of the frame's slots, before any client is reserved.
    pub fn set_frame(&mut self, owners: &[Option<u8>]) -> Result<(), BookingRefusal>
        ensures answers { result ≡ frame_says (booked_in self.old) owners.now }
        ensures leaves { booked_in self.new ≡ frame_set (booked_in self.old) owners.now }
    {
        let server = &mut self.server;
        if server.clients.count() > 0 {
            return Err(BookingRefusal::Reserved);
        }
        server.frame = Frame::try_from(owners)?;
        Ok(())
    }

    /// Reserves the rate for the next client, whose slots must carry it.
    pub fn reserve(&mut self, rate: Rate) -> Result<(), BookingRefusal>
        ensures answers { result ≡ reserve_says (booked_in self.old) rate }
        ensures leaves { booked_in self.new ≡ reserved (booked_in self.old) rate }
    {
        let terms = self.next_terms(rate)?;
        Ok(self.server.clients.admit(terms)?)
    }

    // The terms of the next client if it had a place: its latency is by the slots that are not its own.
    fn next_terms(&self, rate: Rate) -> Result<Terms, BookingRefusal>
        ensures says { result ≡ terms_say (booked_in self.now) rate }
        ensures fits { IfOk result (λ terms. terms_ok terms ≡ true) }
    {
        if !rate_in_range(rate) {
            return Err(BookingRefusal::Rate);
        }
        let frame = &self.server.frame;
        let slots = frame.len();
        let owned = frame.owned(self.server.clients.count());
        if usize::from(rate.p) * slots > owned * usize::from(rate.q) {
            return Err(BookingRefusal::Share);
        }
        // At most 256 slots: the cast loses no bit.
        Ok(terms_of(rate, (slots - owned) as u32))
    }

    /// Opens the booking for service, and uses it up.
    pub fn open(self) -> FrameServer
        ensures state { state_of result ≡ booked_in self }
        ensures unused { ∥ Unused (state_of result).clients ∥₁ }
    {
        self.server
    }
}
