ghost use Rattle.std.specs.Prelude.{◌≡◌, ◌≤◌, length, take};
ghost use Rattle.server.specs.Laws.{Unused};
ghost use Rattle.clients.specs.Meant.{meaning};
ghost use Rattle.ring.specs.Sums.{sum};
ghost use Rattle.ring.specs.Shares.{count_in, quantum_in, total_ok, quantum_ok, theta as theta_of};
ghost use Rattle.ring.specs.States.{booked_in, state_of, fresh, total_says, total_set, reserve_says, reserved, first_clients, opened_from, fresh_ring};

use crate::booking::RingBooking;
use crate::ring_server::RingServer;
use crate::shares::{Share, Shares};
use crate::turns::{Place, Ring, Turn};
use clients::booking::BookingRefusal;
use clients::table::Clients;
use clients::ticks::{rate_in_range, terms_of};
use server::rate::Rate;

// Whether a ring total is within its range. Each number of the rules has a definition of its own, and so a function;
// one for all would have to be given the bounds.
fn total_in_range(total: u32) -> bool
    ensures { result ≡ total_ok total }
{
    (16..=8192).contains(&total)
}

// Whether a quantum is within its range, by a function of its own as well.
fn quantum_in_range(quantum: u32) -> bool
    ensures { result ≡ quantum_ok quantum }
{
    (16..=1024).contains(&quantum)
}

impl RingBooking {
    /// A ring total of 16, and no clients. No `Default` can be derived of a type with ghost fields.
    pub fn new() -> RingBooking
        ensures { booked_in result ≡ fresh }
    {
        RingBooking {
            shares: Shares {
                total: 16,
                count: 0,
                reserved: [Share::default(); 8],
            },
        }
    }

    /// Sets the ring total, before any client is reserved.
    pub fn set_total(&mut self, total: u32) -> Result<(), BookingRefusal>
        ensures answers { result ≡ total_says (booked_in self.old) total }
        ensures leaves { booked_in self.new ≡ total_set (booked_in self.old) total }
    {
        if self.shares.count > 0 {
            return Err(BookingRefusal::Reserved);
        }
        if !total_in_range(total) {
            return Err(BookingRefusal::Range);
        }
        self.shares.total = total;
        Ok(())
    }

    /// Reserves the rate and the quantum for the next client.
    pub fn reserve(&mut self, rate: Rate, quantum: u32) -> Result<(), BookingRefusal>
        ensures answers { result ≡ reserve_says (booked_in self.old) rate quantum }
        ensures leaves { booked_in self.new ≡ reserved (booked_in self.old) rate quantum }
    {
        if !rate_in_range(rate) {
            return Err(BookingRefusal::Rate);
        }
        if !quantum_in_range(quantum) {
            return Err(BookingRefusal::Range);
        }
        let asked = u64::from(rate.p) * u64::from(self.shares.total);
        if asked > u64::from(quantum) * u64::from(rate.q) {
            return Err(BookingRefusal::Share);
        }
        if self.shares.count >= 8
            || self.used() + u64::from(quantum) > u64::from(self.shares.total)
        {
            return Err(BookingRefusal::Over);
        }
        self.shares.reserved[usize::from(self.shares.count)] = Share { rate, quantum };
        self.shares.count += 1;
        Ok(())
    }

    /// Opens the booking for service, and uses it up.
    pub fn open(self) -> RingServer
        ensures state { state_of result ≡ opened_from (booked_in self) }
        ensures unused { ∥ Unused (state_of result).clients ∥₁ }
    {
        RingServer {
            clients: self.admitted(),
            ring: self.fresh_ring(),
        }
    }

    // The ring as it opens: a place for each client, and the turn closed at the last of them.
    fn fresh_ring(&self) -> Ring
        ensures { result ≡ fresh_ring (booked_in self.now) }
    {
        let shares = &self.shares;
        Ring {
            total: shares.total,
            places: shares.reserved.map(|share| Place {
                quantum: share.quantum,
                deficit: 0,
            }),
            turn: Turn::Closed(shares.count.saturating_sub(1)),
        }
    }

    // What the clients reserved so far, in their order.
    fn reserved(&self) -> &[Share]
        ensures are { result.now ≡ take (count_in (booked_in self.now)) (booked_in self.now).reserved }
        ensures few { length result.now ≤ 8 }
    {
        let places = &self.shares.reserved[..];
        &places[..usize::from(self.shares.count)]
    }

    // The quanta reserved so far, together.
    fn used(&self) -> u64
        ensures { result ≡ sum (count_in (booked_in self.now)) (quantum_in (booked_in self.now)) }
    {
        self.reserved()
            .iter()
            .map(|share| u64::from(share.quantum))
            .sum()
    }

    // The slots by which a client of this quantum may be late.
    fn theta(&self, quantum: u32) -> u32
        requires some { 16 ≤ quantum }
        requires within { quantum ≤ self.now.shares.total }
        ensures { result ≡ theta_of (count_in (booked_in self.now)) (booked_in self.now).total quantum }
    {
        let shares = &self.shares;
        let turns = (shares.total - quantum) * (quantum + 15);
        let others = u32::from(shares.count.saturating_sub(1));
        turns.div_ceil(quantum) + others * 15
    }

    // The reserved clients, each with its latency.
    fn admitted(&self) -> Clients
        ensures { meaning result ≡ first_clients (booked_in self.now) (count_in (booked_in self.now)) }
    {
        let mut clients = Clients::new();
        for share in self.reserved() {
            let terms = terms_of(share.rate, self.theta(share.quantum));
            // what a booking keeps leaves no cause to turn a client away
            clients.admit(terms).unwrap();
        }
        clients
    }
}
