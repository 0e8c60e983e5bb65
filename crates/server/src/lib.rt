// The server interface of a latency-rate chain: what a server means, what its calls answer and
// leave, and the two laws that it keeps. A scheduler and a join of two servers implement it alike;
// whoever calls through it knows a named server by equality and any other by its laws.
#![tactic(auto)]

pub mod block;
pub mod rate;
pub mod refusal;
pub mod server;
pub mod view;
