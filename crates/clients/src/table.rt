ghost use Rattle.std.specs.Prelude.{◌≡◌};
ghost use Rattle.clients.specs.Held.{Kept};
ghost use Rattle.clients.specs.View.{viewed};

use crate::lane::Lane;
use tables::Table;

/// The clients of a server, at most eight, and its slot counter. Contracts speak of it by `meaning` and not by a
/// model: a model's values need a code, and a meaning holds a function of the client's number.
#[derive(Clone, Copy)]
pub struct Clients {
    pub(crate) slots: u32,
    pub(crate) lanes: Table<Lane, 8>,
    ghost kept: { ∥ Kept (viewed slots lanes) ∥₁ },
}
