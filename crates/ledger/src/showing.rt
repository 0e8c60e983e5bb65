use crate::keeping::{Entry, Ledger};
use crate::sources::Source;
use crate::stop::Stop;
use crate::words::Words;
use join::fitting::fit;
use server::server::Server;
use std::{fmt, io};

// The latencies of a server's two sources; a server that lacks one of them is an error.
pub fn tell_hop<S: Server>(rt: &impl Print, hop: &'static str, server: &S) -> Result<(), Stop> {
    let latency_of = |who: Source| {
        server
            .latency(who.into())
            .map_err(|refusal| Stop::NoLatency { hop, who, refusal })
    };
    let telemetry = latency_of(Source::Telemetry)?;
    let science = latency_of(Source::Science)?;
    println!(rt; "  {hop:<10} telemetry {telemetry:>4}   science {science:>4}")?;
    Ok(())
}

pub fn tell_fit<A: Server, B: Server>(
    rt: &impl Print,
    what: &str,
    first: &A,
    second: &B,
) -> io::Result<()> {
    match fit(first, second) {
        Ok(()) => println!(rt; "  {what} fit and are joined"),
        Err(misfit) => println!(rt; "  {what} do not fit, {}", Words(misfit)),
    }
}

// The whole book, a line for each granted block.
pub fn show(rt: &impl Print, ledger: &Ledger) -> io::Result<()> {
    let now = ledger.now();
    println!(rt;
        "\nThe book after {now} slots: start, distance and bound in ticks, due and departed in slots"
    )?;
    rt.println(
        "  distance is p x departed - start, and p x (now + 1) - start for a block that waits",
    )?;
    rt.println("  source     label  units  start   due  departed  distance  bound")?;
    for entry in ledger.entries() {
        rt.println(Row { entry: *entry, now })?;
    }
    Ok(())
}

// A line of the book after so many slots.
#[derive(Clone, Copy)]
struct Row {
    entry: Entry,
    now: u32,
}

impl Row {
    // How far the block got from its start, in ticks: it has left, or leaves in the next slot at the soonest.
    fn distance(&self) -> i128 {
        let slot = self.entry.departure.unwrap_or(self.now.saturating_add(1));
        let ticks = u64::from(self.entry.terms.rate.p) * u64::from(slot);
        i128::from(ticks) - i128::from(self.entry.start)
    }
}

impl fmt::Display for Row {
    fn fmt<W: fmt::Write>(&self, f: &mut fmt::Formatter<W>) -> fmt::Result {
        let Entry {
            order,
            terms,
            start,
            due,
            departure,
        } = self.entry;
        let source = Source::from(order.client);
        write!(
            f,
            "  {source:<10} {:>5} {:>6} {start:>6} {due:>5}",
            order.label, order.length
        )?;
        match departure {
            Some(slot) => write!(f, " {slot:>9}")?,
            None => f.write_str("     waits")?,
        }
        write!(f, " {:>9} {:>6}", self.distance(), terms.latency)
    }
}
