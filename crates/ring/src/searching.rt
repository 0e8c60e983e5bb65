ghost use Rattle.std.specs.Prelude.{◌≡◌, ◌+◌, ◌-◌, ◌^◌, ◌<◌, ◌≤◌, length, if◌then◌else◌};
ghost use Rattle.clients.specs.Meant.{meaning};
ghost use Rattle.clients.specs.Serving.{front_at, waits};
ghost use Rattle.ring.specs.Turns.{quantum_of, deficit_of, stands_open, next_of, seek, length_of, next_rest, rest_read, turn_to};

use crate::ring_server::RingServer;
use crate::turns::{Rest, Ring, Turn};
use clients::table::Clients;
use server::block::{Block, Served};

// The client after this one, round the ring.
fn after(count: u8, client: u8) -> u8
    requires { client < 8 }
    ensures { result ≡ next_of count client }
{
    if client + 1 < count { client + 1 } else { 0 }
}

impl RingServer {
    // The first client that has a block, round the ring from the one after `last`. Each is asked once. The two ranges
    // behind one another, with `find`, take a third more instructions where nothing waits.
    pub(crate) fn first_waiting(&self, last: u8) -> Option<u8>
        requires { last < 8 }
        ensures { let m = meaning self.now.clients in result ≡ seek m.count (waits m) m.count (next_of m.count last) }
    {
        let count = self.clients.count();
        let mut client = after(count, last);
        let mut left = count;
        loop {
            if left == 0 {
                break None;
            }
            if self.clients.waits(client) {
                break Some(client);
            }
            client = after(count, client);
            left -= 1;
        }
    }
}

// The units of a block; none where there is none, as the rule counts.
pub(crate) fn length_of(block: Option<Block>) -> u8
    ensures { result ≡ length_of block }
{
    block.map_or(0, |block| block.length)
}

impl Ring {
    // The client's deficit once its front block, of this many units, has begun.
    pub(crate) fn begun_with(&self, client: u8, units: u8) -> u32
        requires placed { client < length self.now.places }
        requires small { deficit_of self.now client + quantum_of self.now client < 2 ^ 32 }
        requires enough { units ≤ deficit_of self.now client + quantum_of self.now client }
        ensures { result ≡ (if stands_open self.now.turn then deficit_of self.now client else deficit_of self.now client + quantum_of self.now client - units) }
    {
        let place = self.places[usize::from(client)];
        match self.turn {
            Turn::Open(_) => place.deficit,
            Turn::Closed(_) => place.deficit + place.quantum - u32::from(units),
        }
    }

    // The turn is the client's, with this left of it. The client is at hand where this is called, and would have to
    // be read out of the turn else.
    pub(crate) fn turn_to(&mut self, client: u8, rest: Rest)
        requires { client < length self.old.places }
        ensures { self.new ≡ turn_to self.old client rest }
    {
        self.places[usize::from(client)].deficit = rest.deficit;
        self.turn = rest.turn;
    }
}

impl Rest {
    fn new(turn: Turn, deficit: u32) -> Rest
        ensures { result ≡ record { deficit = deficit; turn = turn } }
    {
        Rest { deficit, turn }
    }
}

// What is left of the client's turn when a block has given its last unit: the deficit is cleared if
// no block is next, and kept if the next is longer than it; else the next begins.
fn rest_after(client: u8, deficit: u32, next: Option<Block>) -> Rest
    ensures { result ≡ next_rest client deficit next }
{
    let Some(block) = next else {
        return Rest::new(Turn::Closed(client), 0);
    };
    match deficit.checked_sub(u32::from(block.length)) {
        Some(left) => Rest::new(Turn::Open(client), left),
        None => Rest::new(Turn::Closed(client), deficit),
    }
}

// What is left of the client's turn after a slot. The block that is front now is looked at only where one left.
pub(crate) fn rest_given(clients: &Clients, client: u8, deficit: u32, served: Served) -> Rest
    ensures { result ≡ rest_read client deficit served (front_at (meaning clients.now) client) }
{
    match served {
        Served::Departed(_) => rest_after(client, deficit, clients.front(client)),
        Served::Unit(_) => Rest::new(Turn::Open(client), deficit),
        Served::Nothing => Rest::new(Turn::Closed(client), deficit),
    }
}
