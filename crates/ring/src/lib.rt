// Deficit round robin: the clients take turns round a ring, each turn giving blocks up to a quantum and what
// was left of the turns before. A booking reserves quanta that together keep within the ring total; opening it
// gives the server, whose calls are known by equality and which keeps the laws of a server.
#![tactic(auto)]

pub mod booking;
mod reserving;
pub mod ring_server;
mod searching;
pub mod serving;
pub mod shares;
pub mod turns;
