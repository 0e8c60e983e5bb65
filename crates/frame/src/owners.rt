ghost use Rattle.std.specs.Prelude.{◌≡◌, ◌≤◌, [], ◌∷◌, length};
ghost use Rattle.std.specs.List.{list_all};
ghost use Rattle.tables.specs.Tables.{listed};

use clients::booking::BookingRefusal;
use tables::Table;

/// The owners of a frame's slots, in order: 1 to 256, each a client or none.
#[derive(Clone, Copy)]
pub struct Frame {
    owners: Table<Option<u8>, 256>,
    ghost some: { 1 ≤ length (listed owners) },
    ghost most: { length (listed owners) ≤ 256 },
}

impl Frame {
    ghost use Rattle.frame.specs.Frames.{owners_in, owner_at, owned as owned_by, owner_ok};

    // One slot, which nobody owns.
    pub(crate) fn new() -> Frame
        ensures { owners_in result ≡ None ∷ [] }
    {
        Frame {
            owners: Table {
                items: [None; 256],
                count: 1,
            },
        }
    }

    // How many slots it has.
    pub(crate) fn len(&self) -> usize
        ensures value { result ≡ length (owners_in self.now) }
        ensures fits { result ≤ 256 }
    {
        self.owners.count
    }

    // The owner of a slot: the frame goes round.
    pub(crate) fn owner(&self, slot: u32) -> Option<u8>
        ensures { result ≡ owner_at (owners_in self.now) slot }
    {
        // `usize` has no `From<u32>`
        self.owners.items[slot as usize % self.owners.count]
    }

    // The slots of the frame that the client owns.
    pub(crate) fn owned(&self, client: u8) -> usize
        ensures { result ≡ owned_by client (owners_in self.now) }
    {
        self.owners
            .as_slice()
            .iter()
            .filter(|owner| **owner == Some(client))
            .count()
    }

    // Whether each owner is a client 0 to 7 or none.
    fn all_known(owners: &[Option<u8>]) -> bool
        ensures { result ≡ list_all owner_ok owners.now }
    {
        owners
            .iter()
            .all(|owner| owner.is_none_or(|client| client < 8))
    }
}

// A row of 1 to 256 owners is a frame, if each is a client 0 to 7 or none.
impl TryFrom<&[Option<u8>]> for Frame {
    ghost use Rattle.frame.specs.Frames.{IsFrameOf};

    type Error = BookingRefusal;

    ghost try_from_gives = { λ owners r. IsFrameOf owners.now r };

    // The length is told first, so a row that is too long is not gone through.
    fn try_from(owners: &[Option<u8>]) -> Result<Frame, BookingRefusal> {
        if owners.is_empty() || owners.len() > 256 || !Frame::all_known(owners) {
            return Err(BookingRefusal::Range);
        }
        let count = owners.len();
        let mut items = [None; 256];
        items[..count].copy_from_slice(owners);
        Ok(Frame {
            owners: Table { items, count },
        })
    }
}
