ghost use Rattle.std.specs.Prelude.{◌<◌};
ghost use Rattle.server.specs.Meant.{meant};

use book::calls::{Event, Order};
use server::block::Served;
use server::rate::Terms;
use server::server::Server;
use std::alloc::{AllocError, Global};

// A source's account: its terms over the whole chain, and the tick at which its next block can start.
#[derive(Clone, Copy)]
struct Account {
    terms: Terms,
    clock: u64,
}

impl Account {
    // The account of one of the server's clients, which has sent nothing yet.
    fn open<S: Server>(server: &S, client: u8) -> Account
        requires { client < (meant S.Server server.now).count }
    {
        Account {
            terms: server.view(client).unwrap().terms,
            clock: 0,
        }
    }
}

// A granted block under its source's terms, and the slot of its departure if it has left.
#[derive(Clone, Copy)]
pub struct Entry {
    pub order: Order,
    pub terms: Terms,
    pub start: u64,
    pub due: u64,
    pub departure: Option<u32>,
}

// The book: the slots counted so far, the sources, and the blocks in the order of their grants.
#[derive(Drop)]
pub struct Ledger {
    slots: u32,
    accounts: Vec<Account>,
    entries: Vec<Entry>,
}

impl Ledger {
    // A book with no blocks, and an account for each client of the server.
    pub fn open<S: Server>(heap: Global, server: &S) -> Result<Ledger, AllocError> {
        let accounts = (0..server.clients())
            .map(|client| Account::open(server, client))
            .collect(heap)?;
        Ok(Ledger {
            slots: 0,
            accounts,
            entries: Vec::new(heap),
        })
    }

    pub fn now(&self) -> u32 {
        self.slots
    }

    pub fn entries(&self) -> &[Entry] {
        self.entries.as_slice()
    }

    // Enters a call and its answer; what was refused and what was only asked alters nothing.
    pub fn feed(&mut self, event: Event) -> Result<(), AllocError> {
        match event {
            Event::Submit(order, Ok(due)) => self.enter(order, due)?,
            Event::Slot(Ok(served)) => self.pass(served),
            _ => {}
        }
        Ok(())
    }

    // A granted block: its start is by the book's own clock, which it moves.
    fn enter(&mut self, order: Order, due: u64) -> Result<(), AllocError> {
        let Some(account) = self.accounts.get_mut(usize::from(order.client)) else {
            return Ok(());
        };
        let terms = account.terms;
        let start = terms.rate.start_at(account.clock, self.slots);
        account.clock = start.saturating_add(terms.rate.ticks(order.length));
        self.entries.push(Entry {
            order,
            terms,
            start,
            due,
            departure: None,
        })?;
        Ok(())
    }

    // One slot on.
    fn pass(&mut self, served: Served) {
        self.slots = self.slots.saturating_add(1);
        if let Served::Departed(departure) = served {
            self.depart(departure.client);
        }
    }

    // The oldest waiting block of the client has left.
    fn depart(&mut self, client: u8) {
        let oldest = self.entries.iter_mut().find(|entry| entry.order.client == client
            && entry.departure.is_none());
        if let Some(entry) = oldest {
            entry.departure = Some(self.slots);
        }
    }
}
