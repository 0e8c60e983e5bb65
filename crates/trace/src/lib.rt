// The trace reader: a whole trace read line by line into a header, owners, clients and requests.
// A trace that is not in order gives the fault of its first wrong line, with the lower fault whole.
// It never reads outside the trace, always ends, and asks nothing of its caller.
#![tactic(auto)]

mod bookings;
mod reading;
mod step;
mod unbooked;
mod whole;

pub use bookings::Bookings;
pub use reading::Trace;
pub use unbooked::Unbooked;
pub use whole::read;
