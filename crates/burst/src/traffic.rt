use crate::sources::Source;

// A block that a source hands over in a slot.
#[derive(Clone, Copy)]
pub struct Arrival {
    pub slot: u32,
    pub source: Source,
    pub label: u32,
    pub length: u8,
}

// The answer to an arrival that a hop takes: the slot of the grant, and the slot by which the block must
// have left.
#[derive(Clone, Copy)]
pub struct Grant {
    pub slot: u32,
    pub due: u64,
}

// A table of arrivals, a row for each: slot, source, label and length.
macro_rules! arrivals {
    ($($slot:literal $source:ident $label:literal $length:literal,)*) => {
        [$(Arrival { slot: $slot, source: Source::$source, label: $label, length: $length }),*]
    };
}

// The burst in slot 0, with what must be refused in it, and a few late blocks, by their slots.
pub const TRAFFIC: &[Arrival] = &arrivals![
    0 Housekeeping 101 3,
    0 Housekeeping 102 5,
    0 Ranging 201 6,
    0 Ranging 202 17,
    0 Ranging 203 6,
    0 Payload 301 16,
    0 Payload 302 8,
    0 Payload 303 8,
    0 Payload 304 4,
    0 Payload 305 4,
    0 Payload 306 4,
    0 Payload 307 2,
    0 Payload 308 2,
    0 Payload 309 2,
    0 Stranger 401 1,
    12 Ranging 204 0,
    12 Ranging 205 2,
    90 Housekeeping 103 1,
    90 Payload 310 12,
];
