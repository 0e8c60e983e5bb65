// Serves an empty frame to the end of its slot counter, and prints what one more slot answers.
#![tactic(auto)]

use frame::booking::FrameBooking;
use server::server::Server;
use std::io;

fn main(rt: HostRuntime) -> io::Result<()> {
    let mut server = FrameBooking::new().open();
    for _ in 0..u32::MAX {
        let _ = server.slot();
    }
    let now = server.now();
    match server.slot() {
        Ok(_) => println!(rt; "slot served at now {now}"),
        Err(refusal) => println!(rt; "slot refused with {} at now {now}", refusal.number()),
    }
}
