ghost use Rattle.std.specs.Prelude.{◌≡◌, ℕ, length};
ghost use Rattle.server.specs.Meaning.{Meaning};
ghost use Rattle.server.specs.Calls.{asked, view_of, granting, submitted, Slotted};
ghost use Rattle.server.specs.Laws.{Lawful};
ghost use Rattle.server.specs.Machine.{Machine};

use crate::block::Served;
use crate::rate::Rate;
use crate::refusal::Refusal;
use crate::view::View;

pub trait Server {
    // What is known of a value of this type from outside, and what such a state means.
    ghost State: { Type 0 };

    ghost state: { Self → State };

    ghost means: { State → Meaning };

    // Whether the calls are known wholly, and as which functions of the state.
    ghost named: { Type 0 };

    ghost machine: { Machine State };

    fn clients(&self) -> u8
        ensures { result ≡ (means (state self.now)).count };

    fn now(&self) -> u32
        ensures { result ≡ (means (state self.now)).now };

    /// All that is told of a client. The four questions after it are told from it.
    fn view(&self, client: u8) -> Result<View, Refusal>
        ensures { result ≡ asked (means (state self.now)) client view_of };

    fn rate(&self, client: u8) -> Result<Rate, Refusal>
        ensures { result ≡ asked (means (state self.now)) client (λ x. x.terms.rate) }
    {
        Ok(self.view(client)?.terms.rate)
    }

    fn latency(&self, client: u8) -> Result<u32, Refusal>
        ensures { result ≡ asked (means (state self.now)) client (λ x. x.terms.latency) }
    {
        Ok(self.view(client)?.terms.latency)
    }

    fn clock(&self, client: u8) -> Result<u64, Refusal>
        ensures { result ≡ asked (means (state self.now)) client (λ x. x.clock) }
    {
        Ok(self.view(client)?.clock)
    }

    fn waiting(&self, client: u8) -> Result<u8, Refusal>
        ensures { result ≡ asked (means (state self.now)) client (λ x. length x.waiting) }
    {
        Ok(self.view(client)?.waiting)
    }

    /// A block of the client: its due, or a refusal that leaves the server as it was. Three parameters and no
    /// struct, as the rule names them; where a list holds calls, a value holds the three.
    fn submit(&mut self, client: u8, label: u32, length: u8) -> Result<u64, Refusal>
        ensures answers { result ≡ granting (means (state self.old)) client length }
        ensures leaves { means (state self.new) ≡ submitted (means (state self.old)) client label length }
        ensures exactly { named → state self.new ≡ machine.enter (state self.old) client label length };

    /// One slot: what went, or a refusal at the counter's end that leaves the server as it was.
    fn slot(&mut self) -> Result<Served, Refusal>
        ensures serves { Slotted (means (state self.old)) result (means (state self.new)) }
        ensures exactly { named → (result ≡ machine.says (state self.old)) × (state self.new ≡ machine.next (state self.old)) };

    ghost lawful: { (x : Self) → Lawful (means (state x)) };
}
