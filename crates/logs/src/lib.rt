// The log: its lines as values.
// Their bytes are defined beside them, for every label kind. Writing them into a buffer, with the proof that
// the longest log fits, is still to come.
#![tactic(auto)]

mod line;

pub use line::{DepartureLine, GrantLine, LatencyLine, Line, RefusalLine};
