use server::rate::Rate;

/// What a client reserves: its rate, and the quantum that a turn of it adds.
#[derive(Clone, Copy, PartialEq, Eq, Default, Debug)]
pub struct Share {
    pub(crate) rate: Rate,
    pub(crate) quantum: u32,
}

/// The ring total, and what the clients reserved so far, in their order: the first `count` of eight places.
#[derive(Clone, Copy)]
pub struct Shares {
    pub(crate) total: u32,
    pub(crate) count: u8,
    pub(crate) reserved: [Share; 8],
}
