// A trace as it was read, and a trace that is being read.
use lines::{Client, Header, Owner, Request, Table};

/// What a trace tells: its header, the frame's owners, the clients, the requests and the slot of the end.
#[derive(Drop)]
pub struct Trace {
    pub header: Header,
    pub owners: Table<Owner, 256>,
    pub clients: Table<Client, 8>,
    pub requests: Table<Request, 600>,
    pub end: u32,
}

/// Which lines may stand next.
#[derive(Clone, Copy, PartialEq, Eq, Debug)]
pub enum Place {
    /// The frame's line.
    Frame,
    /// The line of the first client.
    First,
    /// A client's line, a request's or the end.
    Clients,
    /// A request's line or the end.
    Requests,
    /// None: the trace has ended at this slot.
    Done(u32),
}

/// A trace that is being read: what it told so far, which line may stand next, and the slot that none may be
/// before. That is the last R line's, and slot 0 before the first, since no slot is before it.
#[derive(Drop)]
pub struct Reading {
    // `Trace` has the first four too: one struct for them would stand between a trace's callers and its parts.
    pub(crate) header: Header,
    pub(crate) owners: Table<Owner, 256>,
    pub(crate) clients: Table<Client, 8>,
    pub(crate) requests: Table<Request, 600>,
    pub(crate) place: Place,
    pub(crate) slot: u32,
}
