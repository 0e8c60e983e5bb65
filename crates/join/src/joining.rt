ghost use Rattle.std.specs.Prelude.{◌≡◌};
ghost use Rattle.server.specs.Laws.{Unused};
ghost use Rattle.join.specs.Fit.{fitting, chain_clients};
ghost use Rattle.join.specs.Joint.{state_of, means_of, begun};
ghost use Rattle.server.specs.Meant.{meant};

use crate::chain::Chain;
use crate::fitting::fit;
use crate::starts::Starts;
use server::server::Server;

impl<A: Server, B: Server> Chain<A, B> {
    /// Joins two servers and uses them up. Two that do not fit make a chain of no clients at slot 0.
    pub fn join(first: A, second: B) -> Chain<A, B>
        ensures state { state_of A.Server B.Server result ≡ begun A.Server.means B.Server.means (A.Server.state first) (B.Server.state second) }
        ensures unused { Unused (means_of A.Server.means B.Server.means (state_of A.Server B.Server result)) }
    {
        let clients = clients_of(&first, &second);
        Chain {
            first,
            second,
            starts: Starts::new(),
            clients,
            now: 0,
        }
    }
}

// The clients of a chain of two servers: the first's, or none where they do not fit. Why they do not is `fit`'s
// to tell: a chain of two that do not fit is a server as well.
fn clients_of<A: Server, B: Server>(first: &A, second: &B) -> u8
    ensures { result ≡ chain_clients (fitting (meant A.Server first.now) (meant B.Server second.now)) (meant A.Server first.now) }
{
    fit(first, second).map_or(0, |()| first.clients())
}
