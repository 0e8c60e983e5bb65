ghost use Rattle.server.specs.Laws.{Unused};
ghost use Rattle.clients.specs.Meant.{meaning};

use crate::credit_server::CreditServer;

/// A server that is not in service yet: a denominator, and the clients reserved with it so far. The three
/// schedulers' bookings share no trait: each is booked by a share of its own kind, so that no code would be generic
/// over them.
#[derive(Drop)]
pub struct CreditBooking {
    pub(crate) server: CreditServer,
    ghost unused: { ∥ Unused (meaning server.clients) ∥₁ },
}
