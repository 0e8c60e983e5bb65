// Servers and their chains by example: starts, clocks and dues worked out by hand, each refusal by its
// number, the latencies of a small station, joins that do not fit, and the same hops in two brackets.
#![tactic(auto)]

#[cfg(test)]
mod tests {
    use book::calls::{Call, Event, Order};
    use book::driving::join_and_drive;
    use clients::booking::BookingRefusal;
    use credits::booking::CreditBooking;
    use credits::credit_server::CreditServer;
    use frame::booking::FrameBooking;
    use frame::frame_server::FrameServer;
    use join::chain::Chain;
    use join::fit::Misfit;
    use join::fitting::fit;
    use ring::booking::RingBooking;
    use ring::ring_server::RingServer;
    use server::block::{Departure, Served};
    use server::rate::{Rate, Terms};
    use server::refusal::Refusal;
    use server::server::Server;
    use std::alloc::{AllocError, Global};
    use std::test::Fail;
    use test_support::playing::submit_all;
    use test_support::rates::rate;
    use test_support::refusals;

    const QUARTER: Rate = Rate { p: 1, q: 4 };

    // A frame of four slots, one for client 0 and one for client 1, with so many clients of the rate 1/4.
    fn frame_of(clients: u8) -> Result<FrameServer, BookingRefusal> {
        let mut booking = FrameBooking::new();
        booking.set_frame(&[Some(0), Some(1), None, None])?;
        for _ in 0..clients {
            booking.reserve(QUARTER)?;
        }
        Ok(booking.open())
    }

    // The station's three servers, each of two clients of the rate 1/4. Their bookings are types of their
    // own, and each carries a rate by a share of its own kind.
    fn framed() -> Result<FrameServer, BookingRefusal> {
        frame_of(2)
    }

    fn credited() -> Result<CreditServer, BookingRefusal> {
        let mut booking = CreditBooking::new();
        booking.set_denominator(4)?;
        booking.reserve(QUARTER, 1, 4)?;
        booking.reserve(QUARTER, 1, 4)?;
        Ok(booking.open())
    }

    fn ringed() -> Result<RingServer, BookingRefusal> {
        let mut booking = RingBooking::new();
        booking.set_total(64)?;
        booking.reserve(QUARTER, 16)?;
        booking.reserve(QUARTER, 16)?;
        Ok(booking.open())
    }

    // The latencies of a server's two clients.
    fn latencies_of<S: Server>(server: &S) -> Result<[u32; 2], Refusal> {
        Ok([server.latency(0)?, server.latency(1)?])
    }

    #[test]
    fn start_and_clock(rt: HostRuntime) -> Result<(), Fail> {
        let mut booking = FrameBooking::new();
        booking.set_frame(&[Some(0), Some(0), None, None, None])?;
        booking.reserve(rate(2, 5))?;
        let mut server = booking.open();
        for _ in 0..4 {
            server.slot()?;
        }
        assert_eq!(rt; server.now(), 4);
        assert_eq!(rt; server.clock(0)?, 0);
        assert_eq!(rt; rate(2, 5).start_at(0, 4), 8);
        assert_eq!(rt; server.latency(0)?, 86);
        assert_eq!(rt; server.submit(0, 7, 3)?, 47);
        assert_eq!(rt; server.clock(0)?, 23);
        Ok(())
    }

    #[test]
    fn due(rt: HostRuntime) {
        let terms = Terms {
            rate: rate(2, 5),
            latency: 100,
        };
        assert_eq!(rt; terms.due(23), 61);
    }

    #[test]
    fn lengths(rt: HostRuntime) -> Result<(), Fail> {
        let mut server = framed()?;
        assert_eq!(rt; server.submit(0, 7, 0).map_err(Refusal::number), Err(2));
        assert_eq!(rt; server.submit(0, 7, 17).map_err(Refusal::number), Err(2));
        assert_eq!(rt; server.submit(0, 7, 16)?, 67);
        assert_eq!(rt; server.clock(0)?, 64);
        Ok(())
    }

    // At the rate 1/4 each unit is due 4 slots after the one before. The other client is granted a block still.
    #[test]
    fn submissions_refused(rt: HostRuntime) -> Result<(), Fail> {
        let mut server = framed()?;
        let refusals = refusals![absent 2, client 1, length 1, dues 67 71 75 79 83 87 91 95];
        submit_all(&mut server, &refusals)?;
        assert_eq!(rt; server.waiting(1)?, 8);
        server.submit(0, 7, 1)?;
        Ok(())
    }

    // What is booked and what is refused differs from hop to hop, so each hop has a test of its own.
    #[test]
    fn frame_refuses(rt: HostRuntime) -> Result<(), Fail> {
        let number = BookingRefusal::number;
        let mut booking = FrameBooking::new();
        assert_eq!(rt; booking.set_frame(&[]).map_err(number), Err(7));
        assert_eq!(rt; booking.set_frame(&[Some(8)]).map_err(number), Err(7));
        booking.set_frame(&[Some(0), Some(1), None, None])?;
        assert_eq!(rt; booking.reserve(rate(5, 4)).map_err(number), Err(6));
        assert_eq!(rt; booking.reserve(rate(1, 1025)).map_err(number), Err(6));
        assert_eq!(rt; booking.reserve(rate(2, 7)).map_err(number), Err(8));
        booking.reserve(QUARTER)?;
        assert_eq!(rt; booking.set_frame(&[Some(0)]).map_err(number), Err(5));
        assert_eq!(rt; booking.open().clients(), 1);
        Ok(())
    }

    #[test]
    fn credits_refuse(rt: HostRuntime) -> Result<(), Fail> {
        let number = BookingRefusal::number;
        let mut booking = CreditBooking::new();
        assert_eq!(rt; booking.set_denominator(0).map_err(number), Err(7));
        booking.set_denominator(4)?;
        assert_eq!(rt; booking.reserve(rate(5, 4), 1, 4).map_err(number), Err(6));
        assert_eq!(rt;
            booking.reserve(rate(1, 1025), 1, 4).map_err(number),
            Err(6)
        );
        assert_eq!(rt; booking.reserve(rate(2, 7), 1, 4).map_err(number), Err(8));
        booking.reserve(QUARTER, 3, 4)?;
        assert_eq!(rt; booking.reserve(QUARTER, 2, 4).map_err(number), Err(9));
        assert_eq!(rt; booking.set_denominator(4).map_err(number), Err(5));
        assert_eq!(rt; booking.open().clients(), 1);
        Ok(())
    }

    #[test]
    fn ring_refuses(rt: HostRuntime) -> Result<(), Fail> {
        let number = BookingRefusal::number;
        let mut booking = RingBooking::new();
        assert_eq!(rt; booking.set_total(15).map_err(number), Err(7));
        booking.set_total(64)?;
        assert_eq!(rt; booking.reserve(rate(5, 4), 16).map_err(number), Err(6));
        assert_eq!(rt; booking.reserve(rate(1, 1025), 16).map_err(number), Err(6));
        assert_eq!(rt; booking.reserve(rate(2, 7), 16).map_err(number), Err(8));
        booking.reserve(QUARTER, 64)?;
        assert_eq!(rt; booking.reserve(QUARTER, 16).map_err(number), Err(9));
        assert_eq!(rt; booking.set_total(64).map_err(number), Err(5));
        assert_eq!(rt; booking.open().clients(), 1);
        Ok(())
    }

    #[test]
    fn latencies(rt: HostRuntime) -> Result<(), Fail> {
        let frame = framed()?;
        assert_eq!(rt; latencies_of(&frame)?, [67, 67]);
        let credits = credited()?;
        assert_eq!(rt; latencies_of(&credits)?, [64, 66]);
        let ring = ringed()?;
        assert_eq!(rt; latencies_of(&ring)?, [172, 172]);
        let chain = Chain::join(Chain::join(frame, credits), ring);
        assert_eq!(rt; latencies_of(&chain)?, [303, 305]);
        Ok(())
    }

    // A chain as part of a struct: one parameter stands for all hops before the last. `Chain<Chain<A, B>, C>` as the
    // type of a field of a struct of three parameters is refused by the check today.
    #[derive(Drop)]
    struct Station<S: Server, C: Server> {
        chain: Chain<S, C>,
    }

    fn station_of<A: Server, B: Server, C: Server>(
        first: A,
        second: B,
        third: C,
    ) -> Station<Chain<A, B>, C> {
        Station {
            chain: Chain::join(Chain::join(first, second), third),
        }
    }

    #[test]
    fn chain_in_a_struct(rt: HostRuntime) -> Result<(), Fail> {
        let station = station_of(framed()?, credited()?, ringed()?);
        assert_eq!(rt; latencies_of(&station.chain)?, [303, 305]);
        Ok(())
    }

    #[test]
    fn different_clients_fit_not(rt: HostRuntime) -> Result<(), Fail> {
        let first = framed()?;
        let second = frame_of(1)?;
        assert_eq!(rt; fit(&first, &second).map_err(Misfit::number), Err(10));
        let mut chain = Chain::join(first, second);
        assert_eq!(rt; chain.clients(), 0);
        assert_eq!(rt; chain.submit(0, 7, 1).map_err(Refusal::number), Err(1));
        assert_eq!(rt; chain.slot(), Ok(Served::Nothing));
        assert_eq!(rt; chain.now(), 1);
        Ok(())
    }

    #[test]
    fn used_server_fits_not(rt: HostRuntime) -> Result<(), Fail> {
        let first = framed()?;
        let mut second = credited()?;
        assert_eq!(rt; fit(&first, &second), Ok(()));
        second.slot()?;
        assert_eq!(rt; fit(&first, &second).map_err(Misfit::number), Err(11));
        let mut chain = Chain::join(first, second);
        assert_eq!(rt; chain.clients(), 0);
        assert_eq!(rt; chain.now(), 0);
        assert_eq!(rt; chain.submit(0, 7, 1).map_err(Refusal::number), Err(1));
        Ok(())
    }

    // The limit of eight counts the blocks of both hops.
    #[test]
    fn both_queues_count(rt: HostRuntime) -> Result<(), Fail> {
        let mut chain = Chain::join(framed()?, ringed()?);
        for _ in 0..8 {
            chain.submit(0, 7, 1)?;
        }
        chain.slot()?;
        assert_eq!(rt; chain.waiting(0)?, 8);
        assert_eq!(rt; chain.submit(0, 7, 1).map_err(Refusal::number), Err(3));
        chain.slot()?;
        assert_eq!(rt; chain.waiting(0)?, 7);
        chain.submit(0, 7, 1)?;
        Ok(())
    }

    // What a submission and the slot after it answered.
    #[derive(Clone, Copy, PartialEq, Eq, Debug)]
    struct Turn {
        granted: Result<u64, Refusal>,
        served: Result<Served, Refusal>,
    }

    // Two hundred turns of a server, with clients 0 to 2 and lengths 0 to 16 in turn.
    fn turns<S: Server>(heap: Global, server: &mut S) -> Result<Vec<Turn>, AllocError> {
        (0..200u32)
            .map(|slot| Turn {
                granted: server.submit((slot % 3) as u8, slot, (slot % 17) as u8),
                served: server.slot(),
            })
            .collect(heap)
    }

    // Frame, credits, ring and frame in two brackets.
    #[test]
    fn brackets(rt: HostRuntime) -> Result<(), Fail> {
        let mut left = Chain::join(
            Chain::join(Chain::join(framed()?, credited()?), ringed()?),
            framed()?,
        );
        let mut right = Chain::join(
            framed()?,
            Chain::join(credited()?, Chain::join(ringed()?, framed()?)),
        );
        assert_eq!(rt; latencies_of(&left)?, [370, 372]);
        assert_eq!(rt; latencies_of(&right)?, [370, 372]);
        let left = turns(rt.alloc(), &mut left)?;
        let right = turns(rt.alloc(), &mut right)?;
        assert_eq!(rt; left, right);
        let gone = left.iter().any(
            |turn| matches!(turn.served, Ok(Served::Departed(block)) if block.label > 0),
        );
        assert!(rt; gone);
        Ok(())
    }

    // The frame lets the unit go in slot 0, the credits in slot 1; the due is by both latencies.
    #[test]
    fn driven(rt: HostRuntime) -> Result<(), Fail> {
        let calls = [
            Call::Submit(Order {
                client: 0,
                label: 7,
                length: 1,
            }),
            Call::Slot,
            Call::Slot,
            Call::Slot,
        ];
        // The room for the events; one stands in it until its call is made.
        let mut events = [Event::Slot(Ok(Served::Nothing)); 4];
        let chain = join_and_drive(framed()?, credited()?, &calls, &mut events);
        assert_eq!(rt; chain.now(), 3);
        assert_eq!(rt; chain.waiting(0)?, 0);
        assert!(rt; matches!(events[0], Event::Submit(_, Ok(131))));
        assert!(rt; !matches!(events[1], Event::Slot(Ok(Served::Departed(_)))));
        assert!(rt;
            matches!(
                events[2],
                Event::Slot(Ok(Served::Departed(Departure { label: 7, .. })))
            )
        );
        assert!(rt; !matches!(events[3], Event::Slot(Ok(Served::Departed(_)))));
        Ok(())
    }
}
