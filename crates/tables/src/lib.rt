// A table of at most so many items, which lie in the value itself: a plain array and how many of its items count.
// A table is copied as an array is, and asks of its items no more than that they can be copied. One item too many
// is refused, and the table is as it was.
#![tactic(auto)]

mod filling;
pub mod table;

pub use filling::Full;
pub use table::Table;
