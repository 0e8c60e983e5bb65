// The same burst of blocks on three hops of a ground station, one hop at a time: a slot frame, a hop with
// credits, and a ring. Each hop is booked for the same three sources, takes the burst, and serves it slot by
// slot until every block has left. The output tells what was refused, and for each block how early it left.
#![tactic(auto)]

mod bookings;
mod reasons;
mod rows;
mod serving;
mod sources;
mod traffic;

use bookings::{credit_hop, frame_hop, ring_hop};
use serving::Hop;
use std::io;

fn main(rt: HostRuntime) -> io::Result<()> {
    rt.println(
        "A source that sends p units in q slots counts in ticks of 1/p slot. Start and latency are in ticks,",
    )?;
    rt.println(
        "granted, due, departed and spare in slots. A block is due at (start + latency) / p.",
    )?;
    Hop::new(&rt, rt.alloc(), frame_hop(&rt)?).serve()?;
    Hop::new(&rt, rt.alloc(), credit_hop(&rt)?).serve()?;
    Hop::new(&rt, rt.alloc(), ring_hop(&rt)?).serve()
}
