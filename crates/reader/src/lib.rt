// The reader over a trace's own bytes: it hands out lines and fields as parts of the trace.
// A field is read as a text, a number or a label, or gives its fault.
// Nothing is read outside the bytes, and nothing is asked of a caller.
#![tactic(auto)]

mod fields;
mod opening;
mod reader;

pub use fields::Fields;
pub use opening::{begins, open};
pub use reader::Reader;
