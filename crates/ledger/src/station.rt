use crate::sources::{SCIENCE, TELEMETRY};
use clients::booking::BookingRefusal;
use credits::booking::CreditBooking;
use credits::credit_server::CreditServer;
use frame::booking::FrameBooking;
use frame::frame_server::FrameServer;
use ring::booking::RingBooking;
use ring::ring_server::RingServer;
use server::rate::Rate;
use thiserror::Error;

// A hop that could not be booked.
#[derive(Debug, Drop, Error)]
#[error("a booking is refused with {}", .0.number())]
pub struct Unbooked(#[from] BookingRefusal);

// What telemetry and science reserve on every hop, in this order.
const TELEMETRY_RATE: Rate = Rate { p: 1, q: 4 };

const SCIENCE_RATE: Rate = Rate { p: 2, q: 5 };

// The owners of a frame's four slots: two of science, one of telemetry, one of nobody.
const OWNERS: &[Option<u8>] = &[Some(SCIENCE), Some(TELEMETRY), Some(SCIENCE), None];

// The three hops are booked by functions of their own, since each takes a share of its own kind.
pub fn frame_hop() -> Result<FrameServer, Unbooked> {
    let mut booking = FrameBooking::new();
    booking.set_frame(OWNERS)?;
    booking.reserve(TELEMETRY_RATE)?;
    booking.reserve(SCIENCE_RATE)?;
    Ok(booking.open())
}

pub fn credit_hop() -> Result<CreditServer, Unbooked> {
    let mut booking = CreditBooking::new();
    booking.set_denominator(4)?;
    booking.reserve(TELEMETRY_RATE, 1, 4)?;
    booking.reserve(SCIENCE_RATE, 2, 4)?;
    Ok(booking.open())
}

pub fn ring_hop() -> Result<RingServer, Unbooked> {
    let mut booking = RingBooking::new();
    booking.set_total(64)?;
    booking.reserve(TELEMETRY_RATE, 16)?;
    booking.reserve(SCIENCE_RATE, 26)?;
    Ok(booking.open())
}
