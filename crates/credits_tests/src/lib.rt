// Credit-controlled static priority by example: small cases worked out by hand, each refusal once,
// and a longer run beside a table that a model of the rules gave. A run is one letter a slot: a full
// stop where nothing went, a digit for a unit of that client, a capital for a block's last unit. What is booked
// and what is refused differs from hop to hop, so each hop has cases of its own.
#![tactic(auto)]

#[cfg(test)]
mod tests {
    use clients::booking::BookingRefusal;
    use credits::booking::CreditBooking;
    use credits::credit_server::CreditServer;
    use server::server::Server;
    use std::test::Fail;
    use test_support::playing::{play, serve, submit_all};
    use test_support::rates::rate;
    use test_support::submission::Submission;
    use test_support::{refusals, submissions};

    // A server of one client, rate 1/4, step 1 and cap 4, with the denominator 4.
    fn single() -> Result<CreditServer, BookingRefusal> {
        let mut booking = CreditBooking::new();
        booking.set_denominator(4)?;
        booking.reserve(rate(1, 4), 1, 4)?;
        Ok(booking.open())
    }

    // The first unit costs the credit of 4 down to 1. It waits at 1 and 2; at 3 it is served and left
    // with 0, so the next unit goes four slots later.
    #[test]
    fn credit_three_is_served(rt: HostRuntime) -> Result<(), Fail> {
        let mut server = single()?;
        assert_eq!(rt; server.submit(0, 7, 3), Ok(64));
        serve(&mut server, b"0..0...A.")?;
        Ok(())
    }

    // However long it was idle, its credit is 4.
    #[test]
    fn idle_credit_is_capped(rt: HostRuntime) -> Result<(), Fail> {
        let mut server = single()?;
        serve(&mut server, b"..........")?;
        assert_eq!(rt; server.submit(0, 7, 2), Ok(74));
        serve(&mut server, b"0..A..")?;
        Ok(())
    }

    // While client 0 has its burst, client 1 waits and saves past its cap of 4, to 20.
    #[test]
    fn waiting_credit_is_not_capped(rt: HostRuntime) -> Result<(), Fail> {
        let mut booking = CreditBooking::new();
        booking.set_denominator(4)?;
        booking.reserve(rate(1, 2), 2, 16)?;
        booking.reserve(rate(1, 2), 2, 4)?;
        let mut server = booking.open();
        assert_eq!(rt; server.submit(0, 1, 8), Ok(32));
        assert_eq!(rt; server.submit(1, 2, 8), Ok(40));
        serve(&mut server, b"0000000A1111111B........")?;
        Ok(())
    }

    // Caps of 4 above a rest of 3 make θ = 2.
    #[test]
    fn latencies(rt: HostRuntime) -> Result<(), Fail> {
        let mut booking = CreditBooking::new();
        booking.set_denominator(4)?;
        booking.reserve(rate(1, 4), 1, 4)?;
        booking.reserve(rate(1, 4), 1, 4)?;
        let server = booking.open();
        assert_eq!(rt; server.clients(), 2);
        assert_eq!(rt; server.latency(0)?, 64);
        assert_eq!(rt; server.latency(1)?, 66);
        Ok(())
    }

    // A number out of range is refused with 7, a rate with 6, a share too small with 8, a new denominator
    // with 5, and steps past the denominator with 9.
    #[test]
    fn bookings_refused(rt: HostRuntime) -> Result<(), Fail> {
        let number = BookingRefusal::number;
        let mut booking = CreditBooking::new();
        assert_eq!(rt; booking.set_denominator(0).map_err(number), Err(7));
        assert_eq!(rt; booking.set_denominator(1025).map_err(number), Err(7));
        booking.set_denominator(8)?;
        assert_eq!(rt; booking.reserve(rate(5, 4), 1, 8).map_err(number), Err(6));
        assert_eq!(rt;
            booking.reserve(rate(1, 1025), 1, 8).map_err(number),
            Err(6)
        );
        assert_eq!(rt; booking.reserve(rate(1, 8), 0, 8).map_err(number), Err(7));
        assert_eq!(rt; booking.reserve(rate(1, 8), 1, 7).map_err(number), Err(7));
        assert_eq!(rt; booking.reserve(rate(1, 8), 1, 513).map_err(number), Err(7));
        assert_eq!(rt; booking.reserve(rate(1, 7), 1, 8).map_err(number), Err(8));
        booking.reserve(rate(1, 8), 1, 512)?;
        assert_eq!(rt; booking.set_denominator(8).map_err(number), Err(5));
        assert_eq!(rt; booking.reserve(rate(1, 8), 8, 8).map_err(number), Err(9));
        assert_eq!(rt; booking.open().clients(), 1);
        Ok(())
    }

    #[test]
    fn ninth_refused(rt: HostRuntime) -> Result<(), Fail> {
        let mut booking = CreditBooking::new();
        booking.set_denominator(9)?;
        for _ in 0..8 {
            booking.reserve(rate(1, 9), 1, 9)?;
        }
        let ninth = booking.reserve(rate(1, 9), 1, 9);
        assert_eq!(rt; ninth.map_err(BookingRefusal::number), Err(9));
        assert_eq!(rt; booking.open().clients(), 8);
        Ok(())
    }

    // At the rate 1/4 each block of 16 is due 64 slots after the one before.
    #[test]
    fn submissions_refused(rt: HostRuntime) -> Result<(), Fail> {
        let mut server = single()?;
        let refusals =
            refusals![absent 1, client 0, length 16, dues 64 128 192 256 320 384 448 512];
        submit_all(&mut server, &refusals)?;
        assert_eq!(rt; server.waiting(0)?, 8);
        Ok(())
    }

    // Slot, client, length, and the due or the number of the refusal.
    const SUBMISSIONS: &[Submission] = &submissions![
        2 2 16 Ok(72),
        7 3 4 Ok(78),
        7 1 4 Ok(94),
        7 0 1 Ok(135),
        12 2 16 Ok(136),
        13 0 5 Ok(143),
        14 0 17 Err(2),
        14 1 17 Err(2),
        14 2 2 Ok(200),
        16 4 7 Err(1),
        16 0 3 Ok(183),
        16 1 3 Ok(115),
        16 3 5 Ok(92),
        21 0 16 Ok(207),
        22 2 4 Ok(208),
        27 2 17 Err(2),
        27 0 4 Ok(335),
        27 3 5 Ok(109),
        27 4 2 Err(1),
        27 3 3 Ok(127),
        29 3 7 Ok(137),
        30 0 1 Ok(367),
        30 3 2 Ok(162),
        31 4 3 Err(1),
        36 1 7 Ok(131),
        36 2 17 Err(2),
        36 0 17 Err(2),
        38 0 7 Ok(375),
        40 2 4 Ok(224),
        40 4 4 Err(1),
        41 1 17 Err(2),
        43 0 16 Ok(431),
        44 3 1 Ok(169),
        45 3 5 Ok(172),
        45 0 4 Ok(559),
        50 3 4 Ok(190),
        51 0 16 Ok(591),
        53 0 4 Err(3),
        54 3 16 Ok(204),
        56 2 16 Ok(240),
        57 4 3 Err(1),
        58 4 4 Err(1),
        59 4 3 Err(1),
        64 0 16 Err(3),
        65 2 16 Ok(304),
        67 2 7 Ok(368),
        68 3 16 Ok(260),
        68 4 3 Err(1),
        69 3 17 Err(2),
        69 3 1 Ok(316),
        74 3 16 Err(3),
    ];

    // What the 120 slots serve.
    const SERVED: &[u8] =
        b"..22.2.A1112230B2233120D2132330B223D1203213233A1C2D3120321D233012233B2A323D23D02D23332032D323302DC333203C33233023233.C03";

    // Four clients whose steps take the whole denominator, for 120 slots.
    #[test]
    fn long_run(rt: HostRuntime) -> Result<(), Fail> {
        let mut booking = CreditBooking::new();
        booking.set_denominator(16)?;
        booking.reserve(rate(1, 8), 2, 16)?;
        booking.reserve(rate(3, 16), 3, 40)?;
        booking.reserve(rate(1, 4), 5, 32)?;
        booking.reserve(rate(2, 7), 6, 100)?;
        let mut server = booking.open();
        play(&mut server, SUBMISSIONS, SERVED)?;
        assert_eq!(rt; server.now(), 120);
        assert_eq!(rt; server.clock(0)?, 591);
        assert_eq!(rt; server.clock(3)?, 497);
        assert_eq!(rt; server.waiting(2)?, 4);
        Ok(())
    }
}
