ghost use Rattle.std.specs.Prelude.{◌≡◌};
ghost use Rattle.join.specs.Link.{handed};
ghost use Rattle.join.specs.Joint.{Joint, state_of, means_of, joint, handed_on};
ghost use Rattle.join.specs.Starts.{starts_in};
ghost use Rattle.join.specs.Laws.{chain_lawful};
ghost use Rattle.server.specs.Meant.{meant};

use crate::chain::Chain;
use server::block::Served;
use server::rate::{Rate, Terms};
use server::refusal::Refusal;
use server::server::Server;
use server::view::View;

impl<A: Server, B: Server> Server for Chain<A, B> {
    ghost State = { Joint A.Server.State B.Server.State };

    ghost state = { state_of A.Server B.Server };

    ghost means = { means_of A.Server.means B.Server.means };

    ghost named = { A.Server.named × B.Server.named };

    ghost machine = { joint A.Server.means B.Server.means A.Server.machine B.Server.machine };

    ghost lawful = { λ x.
        chain_lawful x.clients x.now (starts_in x.starts) (A.Server.means (A.Server.state x.first)) (B.Server.means (B.Server.state x.second)) x.stands
        (A.Server.lawful x.first) (B.Server.lawful x.second) };

    fn clients(&self) -> u8 {
        self.clients
    }

    fn now(&self) -> u32 {
        self.now
    }

    // The first's rate and clock, both latencies, and the blocks of both.
    fn view(&self, client: u8) -> Result<View, Refusal> {
        if client >= self.clients {
            return Err(Refusal::NoClient);
        }
        let first = self.first.view(client)?;
        let second = self.second.view(client)?;
        Ok(View {
            terms: Terms {
                latency: first.terms.latency.saturating_add(second.terms.latency),
                ..first.terms
            },
            waiting: first.waiting.saturating_add(second.waiting),
            ..first
        })
    }

    // Rate and clock are the first's. It alone is asked for them, so that of a chain of many hops they reach only
    // those at its beginning.
    fn rate(&self, client: u8) -> Result<Rate, Refusal> {
        if client >= self.clients {
            return Err(Refusal::NoClient);
        }
        self.first.rate(client)
    }

    fn clock(&self, client: u8) -> Result<u64, Refusal> {
        if client >= self.clients {
            return Err(Refusal::NoClient);
        }
        self.first.clock(client)
    }

    // A submission goes to the first; its due is by both latencies. It is looked at cause by cause, so that a refusal
    // asks no server for more than it must: for nothing where the length is refused, for what waits where it is that.
    fn submit(&mut self, client: u8, label: u32, length: u8) -> Result<u64, Refusal> {
        if client >= self.clients {
            return Err(Refusal::NoClient);
        }
        let mut known = View::default();
        known.accept(length)?;
        known.waiting = self.waiting(client)?;
        known.accept(length)?;
        let view = self.view(client)?;
        let start = view.terms.rate.start_at(view.clock, self.now);
        let due = view.terms.due(start);
        // Granted, since no more wait in the first than in both.
        let _ = self.first.submit(client, label, length);
        Ok(due)
    }

    // The second serves, then the first, then what departed from the first goes to the second.
    fn slot(&mut self) -> Result<Served, Refusal> {
        self.now = self.now.checked_add(1).ok_or(Refusal::Ended)?;
        if self.clients == 0 {
            return Ok(Served::Nothing);
        }
        let left = self.second.slot();
        let told = self.starts.tell(left);
        let came = self.first.slot();
        self.starts.note(came);
        hand(&mut self.second, came);
        Ok(told)
    }
}

// Submits to the second what departed from the first. It grants what fits into the chain, and a server that did
// not would break its laws, so nothing is lost with its answer.
fn hand<B: Server>(second: &mut B, came: Result<Served, Refusal>)
    ensures leaves { meant B.Server second.new ≡ handed came (meant B.Server second.old) }
    ensures exactly { B.Server.named → B.Server.state second.new ≡ handed_on B.Server.machine came (B.Server.state second.old) }
{
    if let Ok(Served::Departed(block)) = came {
        let _ = second.submit(block.client, block.label, block.length);
    }
}
