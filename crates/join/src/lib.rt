// The join: one server made of a first and a second, through which every block goes in turn.
// It consumes both, is a server again, so that chains of chains work, and keeps the laws of a server
// with the summed latency, whatever two lawful servers it is made of.
#![tactic(auto)]

pub mod chain;
pub mod fit;
pub mod fitting;
mod joining;
pub mod serving;
mod starts;
