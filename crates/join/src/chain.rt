ghost use Rattle.join.specs.Link.{Stands};
ghost use Rattle.join.specs.Starts.{starts_in};
ghost use Rattle.join.specs.Standing.{stands_prop};

use crate::starts::Starts;
use server::server::Server;

/// Two servers, one behind the other, with the starts that the second's blocks had in the first.
/// Two that do not fit make a chain of no clients.
#[derive(Drop)]
pub struct Chain<A: Server, B: Server> {
    pub(crate) first: A,
    pub(crate) second: B,
    pub(crate) starts: Starts,
    pub(crate) clients: u8,
    pub(crate) now: u32,
    ghost stands: { Stands clients now (starts_in starts) (A.means (A.state first)) (B.means (B.state second)) } by { stands_prop clients now (starts_in starts) (A.means (A.state first)) (B.means (B.state second)) },
}
