// One line more of a trace that is being read.
ghost use Rattle.trace.specs.Bookings.{led};
ghost use Rattle.trace.specs.Readings.{client_line, end_line, frame_line, later_line, line_at, open_of, request_line, seen_of, started};
ghost use Rattle.std.specs.Prelude.{◌≡◌};

use crate::bookings::Bookings;
use crate::reading::{Place, Reading};
use faults::LineFault;
use labels::LabelKind;
use lines::{Client, Header, Request, Table, client, end, frame, request};
use reader::begins;

impl Reading {
    /// The reading behind the header's line.
    pub(crate) fn new(header: Header) -> Reading
        ensures { seen_of result ≡ started header }
    {
        Reading {
            header,
            owners: Table::new(None),
            clients: Table::new(Client::default()),
            requests: Table::new(Request::default()),
            place: Place::Frame,
            slot: 0,
        }
    }

    /// The frame's line, which a client's line must follow. The bookings are handed to each call: a reading that
    /// held them would borrow them as long, and what it leaves would have to be said of both.
    pub(crate) fn frame<B: Bookings>(
        &mut self,
        bookings: &mut B,
        line: &[u8],
    ) -> Result<(), LineFault>
        ensures { led result (open_of self.new (B.Bookings.state bookings.new)) ≡ frame_line B.Bookings.desk (open_of self.old (B.Bookings.state bookings.old)) line.now }
    {
        let owners = frame(line)?;
        bookings.frame(owners.as_slice())?;
        self.owners = owners;
        self.place = Place::First;
        Ok(())
    }

    /// A client's line.
    pub(crate) fn client<B: Bookings>(
        &mut self,
        bookings: &mut B,
        line: &[u8],
    ) -> Result<(), LineFault>
        ensures { led result (open_of self.new (B.Bookings.state bookings.new)) ≡ client_line B.Bookings.desk (open_of self.old (B.Bookings.state bookings.old)) line.now }
    {
        let client = client(line)?;
        bookings.reserve(&client)?;
        // A station's bookings have refused a ninth client by now. Only bookings that do not refuse it come here
        // with one, and then the first eight are kept.
        let _ = self.clients.push(client);
        self.place = Place::Clients;
        Ok(())
    }

    /// A request's line, with a label of the kind `L`.
    pub(crate) fn request<L: LabelKind>(&mut self, line: &[u8]) -> Result<(), LineFault>
        ensures { led result (seen_of self.new) ≡ request_line (seen_of self.old) L.LabelKind.reads line.now }
    {
        let request = request::<L>(line)?;
        if request.slot < self.slot {
            return Err(LineFault::Slot);
        }
        self.requests.push(request).map_err(|_| LineFault::Crowd)?;
        self.place = Place::Requests;
        self.slot = request.slot;
        Ok(())
    }

    /// The line of the end, which no line may follow.
    pub(crate) fn end(&mut self, line: &[u8]) -> Result<(), LineFault>
        ensures { led result (seen_of self.new) ≡ end_line (seen_of self.old) line.now }
    {
        let slot = end(line)?;
        if slot < self.slot {
            return Err(LineFault::Slot);
        }
        self.place = Place::Done(slot);
        Ok(())
    }

    /// A request's line or the end.
    pub(crate) fn later<L: LabelKind>(&mut self, line: &[u8]) -> Result<(), LineFault>
        ensures { led result (seen_of self.new) ≡ later_line (seen_of self.old) L.LabelKind.reads line.now }
    {
        if begins(line, b'R') {
            self.request::<L>(line)
        } else {
            self.end(line)
        }
    }

    /// The line that may stand next. What was read so far is a state, and each state takes another call.
    pub(crate) fn line<L: LabelKind, B: Bookings>(
        &mut self,
        bookings: &mut B,
        line: &[u8],
    ) -> Result<(), LineFault>
        ensures { led result (open_of self.new (B.Bookings.state bookings.new)) ≡ line_at B.Bookings.desk (open_of self.old (B.Bookings.state bookings.old)) self.old.place L.LabelKind.reads line.now }
    {
        match self.place {
            Place::Frame => self.frame(bookings, line),
            Place::First => self.client(bookings, line),
            Place::Clients => {
                if begins(line, b'B') {
                    self.client(bookings, line)
                } else {
                    self.later::<L>(line)
                }
            }
            Place::Requests => self.later::<L>(line),
            Place::Done(_) => Err(LineFault::Letter),
        }
    }
}
