// The lines of a trace: what each kind of line says, over its own bytes.
// A line's letter comes first, then its number of fields, and then its fields from the left.
// A wrong line gives the fault of the first of these, and nothing is asked of a caller.
#![tactic(auto)]

mod lines;
mod owners;
mod records;

pub use lines::{client, end, header, request};
pub use owners::frame;
pub use records::{Client, Header, Owner, Request};
pub use tables::Table;
