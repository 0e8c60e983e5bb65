// The slot frame: each slot of a fixed round belongs to one client or to none, and serves only its owner.
// A booking reserves clients whose slots carry their rate; opening it gives the server, whose calls
// are known by equality and which keeps the laws of a server.
#![tactic(auto)]

pub mod booking;
pub mod frame_server;
pub mod owners;
pub mod serving;
