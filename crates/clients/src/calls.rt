ghost use Rattle.std.specs.Prelude.{◌≡◌, ◌<◌, ◌≤◌, IfOk, IfErr};
ghost use Rattle.server.specs.Calls.{asked, view_of, granting, submitted};
ghost use Rattle.clients.specs.Serving.{no_clients, admission, admitted, waits as waits_in, served_client, slot_says, slot_leaves, front_at};
ghost use Rattle.server.specs.declared.refusal.Refusal.TheVariants.{NoClient};
ghost use Rattle.clients.specs.View.{client_of};
ghost use Rattle.clients.specs.Meant.{meaning};

use crate::booking::NotAdmitted;
use crate::lane::Lane;
use crate::table::Clients;
use crate::ticks::in_range;
use server::block::{Block, Served};
use server::rate::Terms;
use server::refusal::Refusal;
use server::view::View;
use tables::Table;

impl Clients {
    /// A table of no clients at slot 0. No `Default` can be derived of a type with ghost fields.
    pub fn new() -> Clients
        ensures { meaning result ≡ no_clients }
    {
        Clients {
            slots: 0,
            lanes: Table::new(Lane::default()),
        }
    }

    /// A client of these terms takes the next place; refused, and nothing changed, where there is none
    /// or the terms are outside their ranges.
    pub fn admit(&mut self, terms: Terms) -> Result<(), NotAdmitted>
        ensures answers { result ≡ admission (meaning self.old) terms }
        ensures leaves { meaning self.new ≡ admitted (meaning self.old) terms }
    {
        let lanes = &mut self.lanes;
        if lanes.count >= 8 || !in_range(terms) {
            return Err(NotAdmitted);
        }
        lanes.items[lanes.count] = Lane::new(terms);
        lanes.count += 1;
        Ok(())
    }

    pub fn count(&self) -> u8
        ensures { result ≡ (meaning self.now).count }
    {
        // At most eight.
        self.lanes.count as u8
    }

    pub fn now(&self) -> u32
        ensures { result ≡ (meaning self.now).now }
    {
        self.slots
    }

    /// All that is told of a client.
    pub fn view(&self, client: u8) -> Result<View, Refusal>
        ensures { result ≡ asked (meaning self.now) client view_of }
    {
        let lane = self.lane(client)?;
        Ok(View {
            terms: lane.terms,
            clock: lane.clock,
            // At most eight.
            waiting: lane.queue.count as u8,
        })
    }

    /// Whether the client has a waiting block.
    pub fn waits(&self, client: u8) -> bool
        ensures { result ≡ waits_in (meaning self.now) client }
    {
        let place = usize::from(client);
        place < self.lanes.count && self.lanes.items[place].queue.count > 0
    }

    /// The client's oldest waiting block.
    pub fn front(&self, client: u8) -> Option<Block>
        ensures { result ≡ front_at (meaning self.now) client }
    {
        if !self.waits(client) {
            return None;
        }
        Some(self.lanes.items[usize::from(client)].queue.items[0])
    }

    /// A block of the client: its due, or a refusal that leaves the table as it was.
    pub fn submit(&mut self, client: u8, label: u32, units: u8) -> Result<u64, Refusal>
        ensures answers { result ≡ granting (meaning self.old) client units }
        ensures leaves { meaning self.new ≡ submitted (meaning self.old) client label units }
    {
        self.view(client)?.accept(units)?;
        let slot = self.slots;
        let lanes = &mut self.lanes.items[..];
        Ok(lanes[usize::from(client)].enter(label, units, slot))
    }

    /// One slot, which serves the chosen client if it has a waiting block.
    pub fn slot(&mut self, who: Option<u8>) -> Result<Served, Refusal>
        ensures answers { result ≡ slot_says (meaning self.old) who }
        ensures leaves { meaning self.new ≡ slot_leaves (meaning self.old) who }
    {
        let next = self.slots.checked_add(1).ok_or(Refusal::Ended)?;
        let served = self.served_by(who);
        self.slots = next;
        match served {
            Some(client) => {
                let lanes = &mut self.lanes.items[..];
                Ok(lanes[usize::from(client)].serve(client))
            }
            None => Ok(Served::Nothing),
        }
    }

    // Whom a slot serves: the chosen client, if it has a waiting block.
    fn served_by(&self, who: Option<u8>) -> Option<u8>
        ensures { result ≡ served_client (meaning self.now) who }
    {
        who.filter(|client| self.waits(*client))
    }

    // The client's lane, if there is such a client.
    fn lane(&self, client: u8) -> Result<&Lane, Refusal>
        ensures known { IfOk result (λ l. (client < (meaning self.now).count) × (client_of l.now ≡ (meaning self.now).client client)) }
        ensures unknown { IfErr result (λ e. ((meaning self.now).count ≤ client) × (e ≡ NoClient)) }
    {
        let lanes = self.lanes.as_slice();
        lanes.get(usize::from(client)).ok_or(Refusal::NoClient)
    }
}
