// Credit-controlled static priority: each client earns its step in every slot, and the highest client
// that waits and can pay for a unit is served. A booking reserves clients whose steps carry their rates;
// opening it gives the server, whose calls are known by equality and which keeps the laws of a server.
#![tactic(auto)]

pub mod booking;
mod choosing;
pub mod credit_server;
mod earning;
mod reserving;
pub mod serving;
pub mod shares;
