ghost use Rattle.std.specs.Prelude.{◌≡◌};
ghost use Rattle.clients.specs.Bookings.{number_of};
ghost use Rattle.clients.specs.declared.booking.BookingRefusal.TheVariants.{Over};

/// Why a booking turns a reservation down, each cause with its number.
#[derive(Clone, Copy, PartialEq, Eq, Debug)]
pub enum BookingRefusal {
    // the capacity is set after a client was reserved
    Reserved = 5,
    // the rate is outside its range
    Rate = 6,
    // the capacity or a share is outside its range
    Range = 7,
    // the share is too small for the rate
    Share = 8,
    // the shares overrun the capacity, or a ninth client comes
    Over = 9,
}

impl BookingRefusal {
    /// A method and no `From`, since its name says which number; written for each enum, since a type parameter
    /// cannot be cast.
    pub fn number(self) -> u8
        ensures { result ≡ number_of self }
    {
        self as u8
    }
}

/// Why a table of clients turns a client away: it has no place for one more, or not for its terms.
#[derive(Clone, Copy, PartialEq, Eq, Debug)]
pub struct NotAdmitted;

impl From<NotAdmitted> for BookingRefusal {
    ghost from_gives = { λ _ r. r ≡ Over };

    fn from(_refused: NotAdmitted) -> BookingRefusal {
        BookingRefusal::Over
    }
}
