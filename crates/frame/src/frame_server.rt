ghost use Rattle.clients.specs.Meant.{meaning};
ghost use Rattle.frame.specs.Frames.{owners_in};
ghost use Rattle.frame.specs.Paced.{Paced};

use crate::owners::Frame;
use clients::table::Clients;

/// A frame in service: its clients, and the owners of its slots, who are on time.
#[derive(Drop)]
pub struct FrameServer {
    pub(crate) clients: Clients,
    pub(crate) frame: Frame,
    ghost paced: { ∥ Paced (meaning clients) (owners_in frame) ∥₁ },
}
