ghost use Rattle.frame.specs.States.{State as Framed, state_of, frame_machine};
ghost use Rattle.std.proofs.Math.Logic.{∥∥₁_elim};
ghost use Rattle.server.proofs.Props.{lawful_prop};
ghost use Rattle.clients.specs.Meant.{meaning};
ghost use Rattle.frame.specs.Frames.{owners_in};
ghost use Rattle.frame.specs.Pacing.{paced_lawful};

use crate::frame_server::FrameServer;
use server::block::Served;
use server::refusal::Refusal;
use server::server::Server;
use server::view::View;

impl Server for FrameServer {
    ghost State = { Framed };

    ghost state = { state_of };

    ghost means = { λ s. s.clients };

    ghost named = { Unit {0} };

    ghost machine = { frame_machine };

    ghost lawful = { λ x.
        let m = meaning x.clients in
        ∥∥₁_elim x.clients.kept (lawful_prop m) (λ k. ∥∥₁_elim x.paced (lawful_prop m) (λ h. paced_lawful m (owners_in x.frame) x.frame.some k h)) };

    // The calls but `slot` go to the table, each from here, where the invariants of this type are kept. A body
    // shared by the schedulers would need a second trait with the contracts of `Server` over again, and more text
    // than these lines.
    fn clients(&self) -> u8 {
        self.clients.count()
    }

    fn now(&self) -> u32 {
        self.clients.now()
    }

    fn view(&self, client: u8) -> Result<View, Refusal> {
        self.clients.view(client)
    }

    fn submit(&mut self, client: u8, label: u32, length: u8) -> Result<u64, Refusal> {
        self.clients.submit(client, label, length)
    }

    // The slot's owner is served.
    #[tactic(auto, using(crate::proofs::OnTime::slot_paced))]
    fn slot(&mut self) -> Result<Served, Refusal> {
        let owner = self.frame.owner(self.clients.now());
        self.clients.slot(owner)
    }
}
