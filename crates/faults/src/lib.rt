// What can be wrong with a trace: each fault holds the lower one whole.
// A fault is told by its line, its field, its hop and its number, with 0 for what does not apply.
// A field's and a booking's fault turn into a line's by `?`.
#![tactic(auto)]

ghost use Rattle.faults.specs.Faults.{cause_number, fault_number, notice_at, notice_of};
ghost use Rattle.faults.specs.declared.LineFault.TheVariants.{Booking, Field};
ghost use Rattle.std.specs.Prelude.{◌≡◌};

use clients::booking::BookingRefusal;

/// What a field can be refused for, with the number by which the cause is known.
#[derive(Clone, Copy, PartialEq, Eq, Debug)]
pub enum FieldCause {
    /// Not of its form or range.
    Form = 16,
    /// Not a label of the trace's kind.
    Label = 17,
}

/// A field's fault, with its place in the line.
#[derive(Clone, Copy, PartialEq, Eq, Debug)]
pub struct FieldFault {
    pub field: u8,
    pub cause: FieldCause,
}

/// A booking's fault, with its hop. Hops are counted and not named, since a trace is read for whatever
/// bookings there are.
#[derive(Clone, Copy, PartialEq, Eq, Debug)]
pub struct BookingFault {
    pub hop: u8,
    pub refusal: BookingRefusal,
}

/// What a line can be refused for.
#[derive(Clone, Copy, PartialEq, Eq, Debug)]
pub enum LineFault {
    /// The trace ends inside the line, or before it.
    End,
    /// The letter is wrong for the place.
    Letter,
    /// The number of fields is wrong.
    Fields,
    /// A field is wrong.
    Field(FieldFault),
    /// The slot is before that of the R line above.
    Slot,
    /// One R line too many.
    Crowd,
    /// A booking refuses what the line asks for.
    Booking(BookingFault),
}

/// What a whole trace can be refused for.
#[derive(Clone, Copy, PartialEq, Eq, Debug)]
pub enum RunFault {
    /// The trace is too long, or there is too little room for the answer.
    Size,
    /// A line, by its number, has a fault.
    At(u32, LineFault),
}

/// The four numbers that tell a fault.
#[derive(Clone, Copy, Default, PartialEq, Eq, Debug)]
pub struct Notice {
    pub line: u32,
    pub field: u8,
    pub hop: u8,
    pub number: u8,
}

impl From<FieldFault> for LineFault {
    ghost from_gives = { λ f r. r ≡ Field f };

    fn from(lower: FieldFault) -> LineFault {
        LineFault::Field(lower)
    }
}

impl From<BookingFault> for LineFault {
    ghost from_gives = { λ f r. r ≡ Booking f };

    fn from(lower: BookingFault) -> LineFault {
        LineFault::Booking(lower)
    }
}

impl FieldCause {
    /// The cause's number. Written for each enum of causes, since a type parameter cannot be cast.
    pub fn number(self) -> u8
        ensures { result ≡ cause_number self }
    {
        self as u8
    }
}

impl LineFault {
    /// The fault's number, by a match, since cases that hold values have no discriminants.
    fn number(self) -> u8
        ensures { result ≡ fault_number self }
    {
        match self {
            LineFault::End => 20,
            LineFault::Letter => 14,
            LineFault::Fields => 15,
            LineFault::Field(fault) => fault.cause.number(),
            LineFault::Slot => 18,
            LineFault::Crowd => 19,
            LineFault::Booking(fault) => fault.refusal.number(),
        }
    }

    /// The fault of a line, told.
    fn notice(self, line: u32) -> Notice
        ensures { result ≡ notice_at line self }
    {
        let number = self.number();
        let whole_line = Notice {
            line,
            number,
            ..Notice::default()
        };
        match self {
            LineFault::Field(fault) => Notice {
                field: fault.field,
                ..whole_line
            },
            LineFault::Booking(fault) => Notice {
                hop: fault.hop,
                ..whole_line
            },
            _ => whole_line,
        }
    }
}

impl From<RunFault> for Notice {
    ghost from_gives = { λ fault notice. notice ≡ notice_of fault };

    fn from(fault: RunFault) -> Notice {
        match fault {
            RunFault::Size => Notice {
                number: 13,
                ..Notice::default()
            },
            RunFault::At(line, fault) => fault.notice(line),
        }
    }
}
