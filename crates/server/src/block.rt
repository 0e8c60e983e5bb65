/// A waiting block: its label code, its length in units, the units left of it, and its start in ticks.
#[derive(Clone, Copy, PartialEq, Eq, Default, Debug)]
pub struct Block {
    pub label: u32,
    pub length: u8,
    pub left: u8,
    pub start: u64,
}

/// A block whose last unit went, and the client that it belonged to.
#[derive(Clone, Copy, PartialEq, Eq, Debug)]
pub struct Departure {
    pub client: u8,
    pub label: u32,
    pub length: u8,
    pub start: u64,
}

/// What a slot answers: nothing went, or a unit of this client, or the last unit of this block.
#[derive(Clone, Copy, PartialEq, Eq, Debug)]
pub enum Served {
    Nothing,
    Unit(u8),
    Departed(Departure),
}
