ghost use Rattle.std.specs.Prelude.{◌≤◌};
ghost use Rattle.tables.specs.Tables.{listed};
ghost use Rattle.clients.specs.Meant.{meaning};
ghost use Rattle.credits.specs.Shares.{steps};
ghost use Rattle.credits.specs.Balanced.{Balanced, Capped};

use crate::shares::Share;
use clients::table::Clients;
use tables::Table;

/// Clients in service, and a share for each of them, highest priority first: their steps together are
/// within the denominator, and the credits of the highest k of them are within their caps, for each k. Shares
/// stand beside the clients and not in their lanes: the table of clients is three schedulers', and a slot writes
/// each credit, from which a proof over lanes would have to tell terms, clocks and blocks apart.
#[derive(Drop)]
pub struct CreditServer {
    pub(crate) clients: Clients,
    pub(crate) denominator: u32,
    pub(crate) shares: Table<Share, 8>,
    ghost some: { 1 ≤ denominator },
    ghost most: { denominator ≤ 1024 },
    ghost room: { steps (listed shares) ≤ denominator },
    ghost capped: { Capped (listed shares) },
    ghost balanced: { ∥ Balanced (meaning clients) denominator (listed shares) ∥₁ },
}
