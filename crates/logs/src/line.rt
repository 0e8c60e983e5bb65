// The lines of a log. Each has its own fields in the order in which they are written, so no struct holds the three
// that most of them share.

/// A client's latency, in ticks and in slots.
#[derive(Clone, Copy, PartialEq, Eq, Debug)]
pub struct LatencyLine {
    pub client: u8,
    pub latency: u32,
    pub slots: u32,
}

/// A block that was granted at a slot, with its due.
#[derive(Clone, Copy, PartialEq, Eq, Debug)]
pub struct GrantLine {
    pub slot: u32,
    pub client: u8,
    pub label: u32,
    pub due: u64,
}

/// A block that was refused at a slot, with the refusal's number. A `Refusal` would be a narrower type: a line may be
/// made of any number.
#[derive(Clone, Copy, PartialEq, Eq, Debug)]
pub struct RefusalLine {
    pub slot: u32,
    pub client: u8,
    pub label: u32,
    pub number: u8,
}

/// A block that departed, and when.
#[derive(Clone, Copy, PartialEq, Eq, Debug)]
pub struct DepartureLine {
    pub slot: u32,
    pub client: u8,
    pub label: u32,
}

/// A line of a log. Labels are codes; the log's label kind writes them.
#[derive(Clone, Copy, PartialEq, Eq, Debug)]
pub enum Line {
    Latency(LatencyLine),
    Grant(GrantLine),
    Refusal(RefusalLine),
    Departure(DepartureLine),
}
