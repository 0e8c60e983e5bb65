/// A client's place in the ring: the units that a turn of it adds, and those left of its turns so far.
#[derive(Clone, Copy, PartialEq, Eq, Default, Debug)]
pub struct Place {
    pub(crate) quantum: u32,
    pub(crate) deficit: u32,
}

/// Whose turn it is, or was last. An open turn goes on; a closed one is over.
#[derive(Clone, Copy, PartialEq, Eq, Debug)]
pub enum Turn {
    Open(u8),
    Closed(u8),
}

/// The ring total, the clients' places in their order, and the turn. A place that nobody has is a
/// `Place::default()`.
#[derive(Clone, Copy)]
pub struct Ring {
    pub(crate) total: u32,
    pub(crate) places: [Place; 8],
    pub(crate) turn: Turn,
}

/// What is left of a turn after a unit went: the client's deficit, and the turn.
#[derive(Clone, Copy, PartialEq, Eq, Debug)]
pub struct Rest {
    pub(crate) deficit: u32,
    pub(crate) turn: Turn,
}
