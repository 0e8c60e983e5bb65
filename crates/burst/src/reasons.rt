use clients::booking::BookingRefusal;
use server::refusal::Refusal;
use std::fmt;

// A refusal, printed as the reason for it. The words are this program's own, of its sources and their bookings,
// so no one `Display` beside the library's enums could print them for every program.
#[derive(Clone, Copy)]
pub struct Reason<R>(pub R);

impl fmt::Display for Reason<BookingRefusal> {
    fn fmt<W: fmt::Write>(&self, f: &mut fmt::Formatter<W>) -> fmt::Result {
        f.write_str(match self.0 {
            BookingRefusal::Reserved => "a source is already reserved",
            BookingRefusal::Rate => "the rate is out of range",
            BookingRefusal::Range => "a number is out of range",
            BookingRefusal::Share => "the share is too small for the rate",
            BookingRefusal::Over => "the shares overrun the whole",
        })
    }
}

impl fmt::Display for Reason<Refusal> {
    fn fmt<W: fmt::Write>(&self, f: &mut fmt::Formatter<W>) -> fmt::Result {
        f.write_str(match self.0 {
            Refusal::NoClient => "no such source is booked",
            Refusal::BadLength => "a block has 1 to 16 units",
            Refusal::Full => "eight blocks of the source wait",
            Refusal::Ended => "the slot counter is at its end",
        })
    }
}
