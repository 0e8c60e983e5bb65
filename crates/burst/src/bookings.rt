use crate::reasons::Reason;
use crate::sources::{
    CAMERA_RATE, HOUSEKEEPING_RATE, PAYLOAD_RATE, RANGING_RATE, Source, TOO_FAST,
};
use clients::booking::BookingRefusal;
use credits::booking::CreditBooking;
use credits::credit_server::CreditServer;
use frame::booking::FrameBooking;
use frame::frame_server::FrameServer;
use ring::booking::RingBooking;
use ring::ring_server::RingServer;
use std::io;

// The owners of a frame's slots. Their values are casts, since a constant's cannot come from a call of `from`.
const HOUSEKEEPING: Option<u8> = Some(Source::Housekeeping as u8);

const RANGING: Option<u8> = Some(Source::Ranging as u8);

const PAYLOAD: Option<u8> = Some(Source::Payload as u8);

// Eight slots: four of payload, two of ranging, one of housekeeping, one of nobody.
const OWNERS: &[Option<u8>] = &[
    PAYLOAD,
    RANGING,
    PAYLOAD,
    HOUSEKEEPING,
    PAYLOAD,
    RANGING,
    PAYLOAD,
    None,
];

// A frame with an owner that can be no client.
const BAD_OWNERS: &[Option<u8>] = &[HOUSEKEEPING, Some(8)];

// Tells how a step of a booking went, in words that repeat its numbers, since they are what is printed.
fn tell(rt: &impl Print, step: &str, answer: Result<(), BookingRefusal>) -> io::Result<()> {
    match answer {
        Ok(()) => println!(rt; "  booked     {step}"),
        Err(refusal) => {
            println!(rt;
                "  refusal {}  {step}: {}",
                refusal.number(),
                Reason(refusal)
            )
        }
    }
}

// A slot frame, with each step of its booking told. The three hops are booked by functions of their own, since
// each takes a share of its own kind and turns down what the others do not.
pub fn frame_hop(rt: &impl Print) -> io::Result<FrameServer> {
    rt.println("\nSLOT FRAME: each slot of a round of eight belongs to one source or to nobody")?;
    let mut booking = FrameBooking::new();
    tell(
        rt,
        "a frame with a slot of client 8",
        booking.set_frame(BAD_OWNERS),
    )?;
    tell(rt, "a frame of eight slots", booking.set_frame(OWNERS))?;
    tell(
        rt,
        "housekeeping, 1 unit in 8 slots, 1 slot of the frame",
        booking.reserve(HOUSEKEEPING_RATE),
    )?;
    tell(
        rt,
        "ranging, 2 units in 9 slots, 2 slots of the frame",
        booking.reserve(RANGING_RATE),
    )?;
    tell(
        rt,
        "payload, 1 unit in 2 slots, 4 slots of the frame",
        booking.reserve(PAYLOAD_RATE),
    )?;
    tell(
        rt,
        "camera, 1 unit in 2 slots, no slot of the frame",
        booking.reserve(CAMERA_RATE),
    )?;
    tell(rt, "camera, 3 units in 2 slots", booking.reserve(TOO_FAST))?;
    tell(rt, "another frame", booking.set_frame(OWNERS))?;
    Ok(booking.open())
}

// A hop with credits, likewise.
pub fn credit_hop(rt: &impl Print) -> io::Result<CreditServer> {
    rt.println(
        "\nCREDITS: each source earns its step in every slot and pays 8 for a unit; the first that can pay is served",
    )?;
    let mut booking = CreditBooking::new();
    tell(rt, "a price of 0 for a unit", booking.set_denominator(0))?;
    tell(rt, "a price of 8 for a unit", booking.set_denominator(8))?;
    tell(
        rt,
        "housekeeping, 1 unit in 8 slots, step 1, cap 8",
        booking.reserve(HOUSEKEEPING_RATE, 1, 8),
    )?;
    tell(
        rt,
        "ranging, 2 units in 9 slots, step 1, cap 16",
        booking.reserve(RANGING_RATE, 1, 16),
    )?;
    tell(
        rt,
        "ranging, 2 units in 9 slots, step 2, cap 16",
        booking.reserve(RANGING_RATE, 2, 16),
    )?;
    tell(
        rt,
        "payload, 1 unit in 2 slots, step 4, cap 8",
        booking.reserve(PAYLOAD_RATE, 4, 8),
    )?;
    tell(
        rt,
        "camera, 1 unit in 2 slots, step 4, cap 8",
        booking.reserve(CAMERA_RATE, 4, 8),
    )?;
    tell(rt, "a price of 16 for a unit", booking.set_denominator(16))?;
    Ok(booking.open())
}

// A ring, likewise.
pub fn ring_hop(rt: &impl Print) -> io::Result<RingServer> {
    rt.println(
        "\nRING: the sources take turns, each sending whole blocks up to its quantum and what it saved",
    )?;
    let mut booking = RingBooking::new();
    tell(rt, "a ring of 15 units", booking.set_total(15))?;
    tell(rt, "a ring of 128 units", booking.set_total(128))?;
    tell(
        rt,
        "housekeeping, 1 unit in 8 slots, quantum 16",
        booking.reserve(HOUSEKEEPING_RATE, 16),
    )?;
    tell(
        rt,
        "ranging, 2 units in 9 slots, quantum 16",
        booking.reserve(RANGING_RATE, 16),
    )?;
    tell(
        rt,
        "ranging, 2 units in 9 slots, quantum 32",
        booking.reserve(RANGING_RATE, 32),
    )?;
    tell(
        rt,
        "payload, 1 unit in 2 slots, quantum 64",
        booking.reserve(PAYLOAD_RATE, 64),
    )?;
    tell(
        rt,
        "camera, 1 unit in 2 slots, quantum 64",
        booking.reserve(CAMERA_RATE, 64),
    )?;
    tell(rt, "a ring of 256 units", booking.set_total(256))?;
    Ok(booking.open())
}
