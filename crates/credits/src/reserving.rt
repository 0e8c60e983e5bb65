ghost use Rattle.std.specs.Prelude.{◌≡◌, ◌-◌};
ghost use Rattle.tables.specs.Tables.{listed};
ghost use Rattle.server.specs.Laws.{Unused};
ghost use Rattle.credits.specs.Shares.{steps, caps as caps_of};
ghost use Rattle.credits.specs.States.{booked_in, state_of, fresh, denominator_ok, denominator_says, denominator_set, share_ok, terms_say, reserve_says, reserved};

use crate::booking::CreditBooking;
use crate::credit_server::CreditServer;
use crate::shares::Share;
use clients::booking::BookingRefusal;
use clients::table::Clients;
use clients::ticks::{rate_in_range, terms_of};
use server::rate::{Rate, Terms};
use tables::Table;

impl CreditBooking {
    /// Denominator 1, and no clients. No `Default` can be derived of a type with ghost fields.
    pub fn new() -> CreditBooking
        ensures { booked_in result ≡ fresh }
    {
        CreditBooking {
            server: CreditServer {
                clients: Clients::new(),
                denominator: 1,
                shares: Table::new(Share::default()),
            },
        }
    }

    /// Sets the denominator, before any client is reserved.
    pub fn set_denominator(&mut self, denominator: u32) -> Result<(), BookingRefusal>
        ensures answers { result ≡ denominator_says (booked_in self.old) denominator }
        ensures leaves { booked_in self.new ≡ denominator_set (booked_in self.old) denominator }
    {
        let server = &mut self.server;
        if server.clients.count() > 0 {
            return Err(BookingRefusal::Reserved);
        }
        if !denominator_in_range(denominator) {
            return Err(BookingRefusal::Range);
        }
        server.denominator = denominator;
        Ok(())
    }

    /// Reserves the rate for the next client, with a step that must carry it and a cap on its credit.
    pub fn reserve(&mut self, rate: Rate, step: u32, cap: u32) -> Result<(), BookingRefusal>
        ensures answers { result ≡ reserve_says (booked_in self.old) rate step «cap» }
        ensures leaves { booked_in self.new ≡ reserved (booked_in self.old) rate step «cap» }
    {
        let share = Share {
            step,
            cap,
            credit: cap,
        };
        let terms = self.next_terms(rate, share)?;
        let server = &mut self.server;
        server.clients.admit(terms)?;
        // There is a place for it, as there was one for the client.
        let shares = &mut server.shares;
        shares.items[shares.count] = share;
        shares.count += 1;
        Ok(())
    }

    // The terms of the next client if it had a place: its latency is by the shares of those before it.
    fn next_terms(&self, rate: Rate, share: Share) -> Result<Terms, BookingRefusal>
        ensures { result ≡ terms_say (booked_in self.now) rate share.step share.«cap» }
    {
        if !rate_in_range(rate) {
            return Err(BookingRefusal::Rate);
        }
        if !self.server.in_range(share) {
            return Err(BookingRefusal::Range);
        }
        if u32::from(rate.p) * self.server.denominator > share.step * u32::from(rate.q) {
            return Err(BookingRefusal::Share);
        }
        let rest = self.server.rest();
        if share.step > rest {
            return Err(BookingRefusal::Over);
        }
        Ok(terms_of(rate, self.server.caps().div_ceil(rest)))
    }

    /// Opens the booking for service, and uses it up.
    pub fn open(self) -> CreditServer
        ensures state { state_of result ≡ booked_in self }
        ensures unused { ∥ Unused (state_of result).clients ∥₁ }
    {
        self.server
    }
}

impl CreditServer {
    // Whether the share's step and cap are within their ranges.
    fn in_range(&self, share: Share) -> bool
        ensures { result ≡ share_ok self.now.denominator share.step share.«cap» }
    {
        let whole = self.denominator;
        (1..=whole).contains(&share.step) && (whole..=64 * whole).contains(&share.cap)
    }

    // What the clients' steps leave of the denominator.
    fn rest(&self) -> u32
        ensures { result ≡ self.now.denominator - steps (listed self.now.shares) }
    {
        let steps: u32 = self.shares.as_slice().iter().map(|share| share.step).sum();
        self.denominator - steps
    }

    // The clients' caps together.
    fn caps(&self) -> u32
        ensures { result ≡ caps_of (listed self.now.shares) }
    {
        self.shares.as_slice().iter().map(|share| share.cap).sum()
    }
}

// Whether the denominator is within its range. Each number of the rules has a definition of its own, and so a function.
fn denominator_in_range(denominator: u32) -> bool
    ensures { result ≡ denominator_ok denominator }
{
    (1..=1024).contains(&denominator)
}
