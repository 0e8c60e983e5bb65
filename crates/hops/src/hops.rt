use credits::booking::CreditBooking;
use credits::credit_server::CreditServer;
use frame::booking::FrameBooking;
use frame::frame_server::FrameServer;
use join::chain::Chain;
use ring::booking::RingBooking;
use ring::ring_server::RingServer;

/// The station's hops in their order, each with the number by which a booking's fault tells it.
#[derive(Clone, Copy, PartialEq, Eq, Debug)]
pub(crate) enum Hop {
    Frame = 1,
    Credits = 2,
    Ring = 3,
}

/// What is booked at each hop.
#[derive(Drop)]
pub struct Hops {
    pub(crate) frame: FrameBooking,
    pub(crate) credits: CreditBooking,
    pub(crate) ring: RingBooking,
}

/// The station's chain of three hops.
pub type Station = Chain<Chain<FrameServer, CreditServer>, RingServer>;
