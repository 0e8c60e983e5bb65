// The book kept of a server's calls and answers, and the promise over every chain: whatever two lawful
// servers are joined and whatever calls follow, each block keeps its distance, each busy stretch its sum,
// and each departure is that of the oldest waiting block. It is proved once, from the interface alone.
#![tactic(auto)]

pub mod calls;
pub mod driving;
