// What is told of a fault: the numbers that apply to it, and 0 for the others.
macro_rules! notice {
    ($($name:ident: $value:expr),+) => {
        Notice {
            $($name: $value,)+
            ..Notice::default()
        }
    };
}

// A table of traces, a row for each: the trace, and what is told of its fault.
macro_rules! cases {
    ($($trace:literal $($name:ident $value:literal)+,)+) => {
        [$(Case {
            trace: $trace,
            fault: notice!($($name: $value),+),
        }),+]
    };
}

mod booked;
mod unbooked;

use faults::Notice;
use std::process::Abort;
use trace::{Bookings, read};

// A trace, and what is told of its fault.
#[derive(Clone, Copy)]
struct Case {
    trace: &'static [u8],
    fault: Notice,
}

// What is told of a trace's fault, if it has one.
fn told<B: Bookings + Drop>(trace: &[u8], mut bookings: B) -> Option<Notice> {
    read(trace, &mut bookings).err().map(Notice::from)
}

// Reads each trace with new bookings.
fn each<B: Bookings + Drop, F: Fn() -> B>(rt: &impl Abort, new: F, cases: &[Case])
    requires { F.IsAlwaysCallable new }
{
    for case in cases {
        assert_eq!(rt;
            told(case.trace, new()),
            Some(case.fault),
            "in {}",
            case.trace.escape_ascii()
        );
    }
}
