use crate::reasons::Reason;
use crate::rows::{DepartedRow, RefusedRow};
use crate::sources::Source;
use crate::traffic::{Arrival, Grant, TRAFFIC};
use server::block::{Departure, Served};
use server::server::Server;
use server::view::View;
use std::alloc::Global;
use std::collections::BTreeMap;
use std::io;

// More slots than any of the hops needs for the traffic.
const MOST_SLOTS: u32 = 1000;

// The blocks granted so far, by their labels.
type Grants = BTreeMap<u32, Grant>;

// A hop at work: its server, the blocks it has granted, and the output that tells of them.
#[derive(Drop)]
pub struct Hop<'a, P: Print, S: Server> {
    rt: &'a P,
    server: S,
    grants: Grants,
}

impl<'a, P: Print, S: Server + Drop> Hop<'a, P, S> {
    pub fn new(rt: &'a P, heap: Global, server: S) -> Hop<'a, P, S> {
        Hop {
            rt,
            server,
            grants: Grants::new(heap),
        }
    }

    // Hands the traffic to the server in its slots, and serves until all that was granted has left.
    pub fn serve(mut self) -> io::Result<()> {
        for source in Source::BOOKED {
            self.tell_latency(source)?;
        }
        self.rt.println("  source         label  units  granted   start    due  departed  spare")?;
        for _ in 0..MOST_SLOTS {
            self.submit_all()?;
            if self.is_done() {
                let slots = self.server.now();
                return println!(self.rt; "  all has left after {slots} slots");
            }
            self.serve_slot()?;
        }
        println!(self.rt; "  not all has left after {MOST_SLOTS} slots")
    }

    fn tell_latency(&self, source: Source) -> io::Result<()> {
        match self.server.view(source.into()) {
            Ok(View { terms, .. }) => {
                println!(self.rt;
                    "  latency    {source}: {} ticks, {} to a slot",
                    terms.latency, terms.rate.p
                )
            }
            Err(_) => println!(self.rt; "  latency    {source}: none"),
        }
    }

    // Hands over the blocks that come in the present slot.
    fn submit_all(&mut self) -> io::Result<()> {
        let now = self.server.now();
        for arrival in TRAFFIC.iter().filter(|arrival| arrival.slot == now) {
            self.submit(*arrival)?;
        }
        Ok(())
    }

    fn submit(&mut self, arrival: Arrival) -> io::Result<()> {
        let Arrival {
            slot,
            source,
            label,
            length,
        } = arrival;
        match self.server.submit(source.into(), label, length) {
            Ok(due) => {
                self.grants.insert(label, Grant { slot, due })?;
                Ok(())
            }
            Err(refusal) => self.rt.println(RefusedRow { arrival, refusal }),
        }
    }

    // Whether no block is to come and none waits.
    fn is_done(&self) -> bool {
        let now = self.server.now();
        TRAFFIC.iter().all(|arrival| arrival.slot < now)
            && (0..self.server.clients()).all(|client| self.server.waiting(client) == Ok(0))
    }

    // One slot, and the row of the block that left in it.
    fn serve_slot(&mut self) -> io::Result<()> {
        match self.server.slot() {
            Ok(Served::Departed(departure)) => self.tell_departure(departure),
            Ok(_) => Ok(()),
            Err(refusal) => println!(self.rt; "  no slot: {}", Reason(refusal)),
        }
    }

    fn tell_departure(&self, departure: Departure) -> io::Result<()> {
        match self.grants.get(&departure.label) {
            Some(grant) => self.rt.println(DepartedRow {
                departure,
                grant: *grant,
                now: self.server.now(),
            }),
            None => println!(self.rt;
                "  {:<13} {:>6} was never granted",
                Source::from(departure.client),
                departure.label
            ),
        }
    }
}
