use crate::reasons::Reason;
use crate::sources::Source;
use crate::traffic::{Arrival, Grant};
use server::block::Departure;
use server::refusal::Refusal;
use std::fmt;

// The row of a block that was refused.
#[derive(Clone, Copy)]
pub struct RefusedRow {
    pub arrival: Arrival,
    pub refusal: Refusal,
}

// The row of a block that has left: its grant, and the slots counted when it left.
#[derive(Clone, Copy)]
pub struct DepartedRow {
    pub departure: Departure,
    pub grant: Grant,
    pub now: u32,
}

impl fmt::Display for RefusedRow {
    fn fmt<W: fmt::Write>(&self, f: &mut fmt::Formatter<W>) -> fmt::Result {
        let Arrival {
            slot,
            source,
            label,
            length,
        } = self.arrival;
        let number = self.refusal.number();
        let reason = Reason(self.refusal);
        write!(
            f,
            "  {source:<13} {label:>6} {length:>6} {slot:>8}   refusal {number}: {reason}"
        )
    }
}

impl fmt::Display for DepartedRow {
    fn fmt<W: fmt::Write>(&self, f: &mut fmt::Formatter<W>) -> fmt::Result {
        let Departure {
            client,
            label,
            length,
            start,
        } = self.departure;
        let source = Source::from(client);
        let Grant { slot, due } = self.grant;
        write!(
            f,
            "  {source:<13} {label:>6} {length:>6} {slot:>8} {start:>7} {due:>6} {:>9}",
            self.now
        )?;
        match due.checked_sub(u64::from(self.now)) {
            Some(spare) => write!(f, " {spare:>6}"),
            None => f.write_str("   LATE"),
        }
    }
}
