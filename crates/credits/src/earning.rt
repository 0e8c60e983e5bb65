ghost use Rattle.std.specs.Prelude.{◌≡◌};
ghost use Rattle.tables.specs.Tables.{listed};
ghost use Rattle.clients.specs.Meant.{meaning};
ghost use Rattle.clients.specs.Serving.{waits};
ghost use Rattle.credits.specs.Shares.{Small, Pays, by_place, chosen, earned, role as role_of};

use crate::shares::{Role, Share};
use clients::table::Clients;
use tables::Table;

// Each client earns its step in a slot that serves the client `who`, which pays for it. The shares come apart
// from their server: what its type says of shares and clients together fails between this and the clients' slot.
pub(crate) fn earn(
    shares: &mut Table<Share, 8>,
    clients: &Clients,
    denominator: u32,
    who: Option<u8>,
)
    requires small { Small (listed shares.old) }
    requires pays { Pays denominator who (listed shares.old) }
    ensures { listed shares.new ≡ by_place (earned (meaning clients.now) denominator who) 0 (listed shares.old) }
{
    for place in 0..shares.count {
        let share = shares.items[place];
        // At most eight places, so each is a client's number.
        let role = role(clients, place as u8, who);
        shares.items[place].credit = share.after(denominator, role).credit;
    }
}

// What the client does in a slot that serves the client `who`.
fn role(clients: &Clients, client: u8, who: Option<u8>) -> Role
    ensures { result ≡ role_of (waits (meaning clients.now) client) (chosen who client) }
{
    if who == Some(client) {
        Role::Served
    } else if clients.waits(client) {
        Role::Waiting
    } else {
        Role::Idle
    }
}
