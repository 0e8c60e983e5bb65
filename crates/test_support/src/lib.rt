// What tests of servers share: runs of slots written as letters, and tables of submissions.
// A run is one letter a slot: a full stop where nothing went, a digit for a unit of that client, a capital
// for a block's last unit. What plays a run answers `Ok` only where the server did as the run says; this is proved of
// servers whose calls are known wholly, as frame, credits, ring and the chains of them.
#![tactic(auto)]

pub mod letters;
pub mod playing;
pub mod rates;
pub mod submission;
