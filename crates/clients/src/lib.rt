// What every scheduler shares: the table of clients with their terms, clocks and waiting blocks.
// A scheduler only chooses whom a slot serves; submissions, questions, the order of starts, the law
// of the clock and the step from 'on time' to the law of debt are here, once.
#![tactic(auto)]

pub mod booking;
mod calls;
pub mod lane;
pub mod table;
pub mod ticks;
