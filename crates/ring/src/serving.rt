ghost use Rattle.std.specs.Prelude.{◌≡◌};
ghost use Rattle.ring.specs.Turns.{turn_in, client_of};
ghost use Rattle.ring.specs.States.{State as Turning, state_of, ring_machine};
ghost use Rattle.std.proofs.Math.Logic.{∥∥₁_elim};
ghost use Rattle.server.proofs.Props.{lawful_prop};
ghost use Rattle.clients.specs.Meant.{meaning};
ghost use Rattle.ring.specs.Search.{gone_round};
ghost use Rattle.ring.specs.Pacing.{paced_lawful};

use crate::ring_server::RingServer;
use crate::searching::{length_of, rest_given};
use crate::turns::Turn;
use server::block::Served;
use server::refusal::Refusal;
use server::server::Server;
use server::view::View;

impl RingServer {
    // The open turn's client, or the next that has a block.
    fn whose_turn(&self) -> Option<u8>
        ensures { result ≡ turn_in (state_of self.now).clients (state_of self.now).ring }
    {
        match self.ring.turn {
            Turn::Open(client) => Some(client),
            Turn::Closed(last) => self.first_waiting(last),
        }
    }
}

impl Server for RingServer {
    ghost State = { Turning };

    ghost state = { state_of };

    ghost means = { λ s. s.clients };

    ghost named = { Unit {0} };

    ghost machine = { ring_machine };

    ghost lawful = { λ x.
        let m = meaning x.clients in
        ∥∥₁_elim x.clients.kept (lawful_prop m) (λ k.
        ∥∥₁_elim x.sound (lawful_prop m) (λ h. paced_lawful m x.ring (gone_round m.count (client_of x.ring.turn)) x.within h.paced k)) };

    // The calls but `slot` go to the table, each from here, where the invariants of this type are kept. A body
    // shared by the schedulers would need a second trait with the contracts of `Server` over again, and more text
    // than these lines.
    fn clients(&self) -> u8 {
        self.clients.count()
    }

    fn now(&self) -> u32 {
        self.clients.now()
    }

    fn view(&self, client: u8) -> Result<View, Refusal> {
        self.clients.view(client)
    }

    fn submit(&mut self, client: u8, label: u32, length: u8) -> Result<u64, Refusal> {
        self.clients.submit(client, label, length)
    }

    // Whose turn it is gives a unit, and the turn goes on or closes.
    fn slot(&mut self) -> Result<Served, Refusal> {
        let Some(client) = self.whose_turn() else {
            return self.clients.slot(None);
        };
        let begun = self
            .ring
            .begun_with(client, length_of(self.clients.front(client)));
        let served = self.clients.slot(Some(client))?;
        let rest = rest_given(&self.clients, client, begun, served);
        self.ring.turn_to(client, rest);
        Ok(served)
    }
}
