ghost use Rattle.std.specs.Prelude.{◌≡◌, ◌+◌, ◌*◌, ◌^◌, ◌<◌, length};
ghost use Rattle.server.specs.Calls.{due_within, entered, gone, serve as served, start_at};
ghost use Rattle.clients.specs.View.{client_of, new_client, vacant};

use server::block::{Block, Departure, Served};
use server::rate::Terms;
use tables::Table;

/// One client: what it reserved, its clock in ticks, and its waiting blocks, oldest first.
#[derive(Clone, Copy)]
pub struct Lane {
    pub(crate) terms: Terms,
    pub(crate) clock: u64,
    pub(crate) queue: Table<Block, 8>,
}

/// A place that nobody has taken. Not derived, since a table has no `Default`.
impl Default for Lane {
    ghost is_default = { λ lane. client_of lane ≡ new_client vacant };

    fn default() -> Lane {
        Lane {
            terms: Terms::default(),
            clock: 0,
            queue: Table::new(Block::default()),
        }
    }
}

impl Lane {
    // A client of these terms, with nothing waiting.
    pub(crate) fn new(terms: Terms) -> Lane
        ensures { client_of result ≡ new_client terms }
    {
        Lane {
            terms,
            ..Lane::default()
        }
    }

    // A block enters at this slot: its due.
    pub(crate) fn enter(&mut self, label: u32, units: u8, slot: u32) -> u64
        requires room { length (client_of self.old).waiting < 8 }
        requires small { start_at slot (client_of self.old) + (client_of self.old).terms.rate.q * units < 2 ^ 64 }
        ensures answers { result ≡ due_within (client_of self.old).terms (start_at slot (client_of self.old)) }
        ensures leaves { client_of self.new ≡ entered slot label units (client_of self.old) }
    {
        let rate = self.terms.rate;
        let start = rate.start_at(self.clock, slot);
        self.clock = start + rate.ticks(units);
        self.queue.items[self.queue.count] = Block {
            label,
            length: units,
            left: units,
            start,
        };
        self.queue.count += 1;
        self.terms.due(start)
    }

    // One unit of the front block goes. The lane does not know its client's number, which the answer tells.
    pub(crate) fn serve(&mut self, client: u8) -> Served
        ensures answers { result ≡ gone client (client_of self.old).waiting }
        ensures leaves { client_of self.new ≡ served (client_of self.old) }
    {
        let queue = &mut self.queue;
        if queue.count == 0 {
            return Served::Nothing;
        }
        let front = &mut queue.items[0];
        if front.left > 1 {
            front.left -= 1;
            return Served::Unit(client);
        }
        let Block {
            label,
            length,
            start,
            ..
        } = *front;
        // The whole array turns: what has a known length is moved without a loop.
        queue.items.rotate_left(1);
        queue.count -= 1;
        Served::Departed(Departure {
            client,
            label,
            length,
            start,
        })
    }
}
