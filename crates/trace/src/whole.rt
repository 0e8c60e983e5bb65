// A whole trace, line by line.
ghost use Rattle.std.specs.Prelude.{◌≡◌, ◌≤◌, length};
ghost use Rattle.labels.specs.Kinds.{reads_as};
ghost use Rattle.marks.specs.Marks.{parts};
ghost use Rattle.trace.specs.Bookings.{led};
ghost use Rattle.reader.specs.Parts.{left};
ghost use Rattle.trace.specs.Readings.{header_line, open_of, seen_of, started};
ghost use Rattle.trace.specs.Traces.{at_line, finished, lines_from, read_of, started_with, told_by, trace_of};

use crate::bookings::Bookings;
use crate::reading::{Place, Reading, Trace};
use faults::{LineFault, RunFault};
use labels::{Kind, LabelKind, Packet, Serial};
use lines::{Header, header};
use reader::Reader;

/// A line's fault is the trace's, whole and with the line's number.
fn at_line<T>(number: u32, line: Result<T, LineFault>) -> Result<T, RunFault>
    ensures { result ≡ at_line number line }
{
    line.map_err(|fault| RunFault::At(number, fault))
}

/// The first line, with its two capacities set.
fn set_up<B: Bookings>(bookings: &mut B, line: &[u8]) -> Result<Header, LineFault>
    ensures { started_with result (B.Bookings.state bookings.new) ≡ header_line B.Bookings.desk (B.Bookings.state bookings.old) line.now }
{
    let header = header(line)?;
    bookings.set(&header)?;
    Ok(header)
}

/// The trace behind its last line: whole where that was the end and nothing is left. The place is a state of the
/// reading, and is asked here for the last time.
fn finish(reading: Reading, number: u32, rest: &[u8]) -> Result<Trace, RunFault>
    ensures { told_by result ≡ finished (seen_of reading) number rest.now }
{
    let Reading {
        header,
        owners,
        clients,
        requests,
        place,
        slot: _,
    } = reading;
    match place {
        Place::Done(end) if rest.is_empty() => Ok(Trace {
            header,
            owners,
            clients,
            requests,
            end,
        }),
        _ => Err(RunFault::At(number, LineFault::End)),
    }
}

/// The lines behind the header, with labels of the kind `L`.
fn body<L: LabelKind, B: Bookings>(
    header: Header,
    bookings: &mut B,
    mut reader: Reader<'_>,
) -> Result<Trace, RunFault>
    requires { length (left reader) ≤ 65536 }
    ensures { read_of result (B.Bookings.state bookings.new) ≡ lines_from B.Bookings.desk L.LabelKind.reads (record { seen = started header; booked = B.Bookings.state bookings.old }) 2 (parts 10 (left reader.entry)) }
{
    let mut reading = Reading::new(header);
    // Counted by hand, since a line that is missing behind the last is told by its number too.
    let mut number = 2;
    while let Some(line) = reader.line() {
        at_line(number, reading.line::<L, B>(bookings, line))?;
        number += 1;
    }
    finish(reading, number, reader.rest())
}

/// The lines behind the header, with labels of the header's kind, which picks the type that the rest is read with.
fn body_by_kind<B: Bookings>(
    header: Header,
    bookings: &mut B,
    reader: Reader<'_>,
) -> Result<Trace, RunFault>
    requires { length (left reader) ≤ 65536 }
    ensures { read_of result (B.Bookings.state bookings.new) ≡ lines_from B.Bookings.desk (reads_as header.kind) (record { seen = started header; booked = B.Bookings.state bookings.old }) 2 (parts 10 (left reader.entry)) }
{
    match header.kind {
        Kind::Serial => body::<Serial, B>(header, bookings, reader),
        Kind::Packet => body::<Packet, B>(header, bookings, reader),
    }
}

/// What a trace of at most 65,536 bytes tells, with the bookings that it asks for.
pub fn read<B: Bookings>(trace: &[u8], bookings: &mut B) -> Result<Trace, RunFault>
    ensures { read_of result (B.Bookings.state bookings.new) ≡ trace_of B.Bookings.desk (B.Bookings.state bookings.old) trace.now }
{
    if trace.len() > 65536 {
        return Err(RunFault::Size);
    }
    let mut reader = Reader::new(trace);
    let line = reader.line().ok_or(RunFault::At(1, LineFault::End))?;
    let header = at_line(1, set_up(bookings, line))?;
    body_by_kind(header, bookings, reader)
}
