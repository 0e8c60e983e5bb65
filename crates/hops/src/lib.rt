// The bookings of a station's three hops: the slot frame at hop 1, the credits at hop 2, the ring at hop 3.
// The lines of a trace are booked hop by hop, and the first refusal is told with its hop, so that reading a
// trace with them gives what the whole trace means, or exactly the fault that it has.
#![tactic(auto)]

mod booking;
pub mod hops;
mod opening;
