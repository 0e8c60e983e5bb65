// A chain of three hops, and the book of what went through it: a slot frame and a hop with credits are
// joined, and that chain is joined with a ring. A list of calls is made of the whole; from the calls and
// their answers alone the program keeps a book, and shows for each block how far it got from its start,
// and the bound on that distance, which is the latency of the three hops together.
#![tactic(auto)]

mod answers;
mod keeping;
mod script;
mod showing;
mod sources;
mod station;
mod stop;
mod words;

use answers::tell;
use book::calls::Event;
use book::driving::join_and_drive;
use join::chain::Chain;
use keeping::Ledger;
use script::calls;
use server::refusal::Refusal;
use showing::{show, tell_fit, tell_hop};
use station::{credit_hop, frame_hop, ring_hop};
use stop::Stop;

// Room for the events of the calls. An event stands in it until its call is made, since what makes the calls writes
// into its caller's room.
const ROOM: usize = 64;

const NO_EVENT: Event = Event::Slot(Err(Refusal::Ended));

fn main(rt: HostRuntime) -> Result<(), Stop> {
    rt.println(
        "The hops and their latencies, in ticks (1/p slot for a source that sends p units in q slots)",
    )?;
    let frame = frame_hop()?;
    let credits = credit_hop()?;
    let ring = ring_hop()?;
    tell_hop(&rt, "frame", &frame)?;
    tell_hop(&rt, "credits", &credits)?;
    tell_hop(&rt, "ring", &ring)?;
    tell_fit(&rt, "frame and credits", &frame, &credits)?;
    let chain = Chain::join(frame, credits);
    tell_fit(&rt, "that chain and ring", &chain, &ring)?;
    let calls = calls(rt.alloc())?;
    let mut events = [NO_EVENT; ROOM];
    let whole = join_and_drive(chain, ring, calls.as_slice(), &mut events);
    tell_hop(&rt, "the whole", &whole)?;
    let mut ledger = Ledger::open(rt.alloc(), &whole)?;
    rt.println("\nThe submissions that were refused, and the questions")?;
    for event in events.iter().take(calls.len()) {
        tell(&rt, ledger.now(), *event)?;
        ledger.feed(*event)?;
    }
    show(&rt, &ledger)?;
    Ok(())
}
