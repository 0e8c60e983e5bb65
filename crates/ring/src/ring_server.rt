ghost use Rattle.std.specs.Prelude.{◌≡◌, ◌<◌, ◌≤◌, length};
ghost use Rattle.clients.specs.Meant.{meaning};
ghost use Rattle.ring.specs.Sums.{sum};
ghost use Rattle.ring.specs.Turns.{quantum_of, client_of};
ghost use Rattle.ring.specs.Search.{Sound};

use crate::turns::Ring;
use clients::table::Clients;

/// A ring in service: each client of the table has its place in the ring. Places stand beside the clients and
/// not in their lanes: the table of clients is three schedulers', each with something else beside a client, and
/// a type parameter for it would stand in each contract and lemma of the table.
#[derive(Drop)]
pub struct RingServer {
    pub(crate) clients: Clients,
    pub(crate) ring: Ring,
    ghost full: { length ring.places ≡ 8 },
    ghost placed: { client_of ring.turn < 8 },
    ghost within: { sum (meaning clients).count (quantum_of ring) ≤ ring.total },
    ghost sound: { ∥ Sound (meaning clients) ring ∥₁ },
}
