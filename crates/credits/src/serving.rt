ghost use Rattle.std.proofs.Math.Logic.{∥∥₁_elim};
ghost use Rattle.server.proofs.Props.{lawful_prop};
ghost use Rattle.tables.specs.Tables.{listed};
ghost use Rattle.clients.specs.Meant.{meaning};
ghost use Rattle.credits.specs.States.{State as Credited, state_of, credit_machine};
ghost use Rattle.credits.specs.Balancing.{balanced_lawful};

use crate::credit_server::CreditServer;
use crate::earning::earn;
use server::block::Served;
use server::refusal::Refusal;
use server::server::Server;
use server::view::View;

impl Server for CreditServer {
    ghost State = { Credited };

    ghost state = { state_of };

    ghost means = { λ s. s.clients };

    ghost named = { Unit {0} };

    ghost machine = { credit_machine };

    ghost lawful = { λ x.
        let m = meaning x.clients in
        ∥∥₁_elim x.clients.kept (lawful_prop m) (λ k. ∥∥₁_elim x.balanced (lawful_prop m) (λ h.
        balanced_lawful x.denominator m x.some k (listed x.shares) h)) };

    // The calls but `slot` go to the table, each from here, where the invariants of this type are kept. A body
    // shared by the schedulers would need a second trait with the contracts of `Server` over again, and more text
    // than these lines.
    fn clients(&self) -> u8 {
        self.clients.count()
    }

    fn now(&self) -> u32 {
        self.clients.now()
    }

    fn view(&self, client: u8) -> Result<View, Refusal> {
        self.clients.view(client)
    }

    fn submit(&mut self, client: u8, label: u32, length: u8) -> Result<u64, Refusal> {
        self.clients.submit(client, label, length)
    }

    // The highest eligible client is served, and each client earns its step.
    #[tactic(auto, using(crate::specs::Balancing::served_pays))]
    fn slot(&mut self) -> Result<Served, Refusal> {
        if self.clients.now() == u32::MAX {
            return Err(Refusal::Ended);
        }
        let who = self.served();
        earn(&mut self.shares, &self.clients, self.denominator, who);
        self.clients.slot(who)
    }
}
