// Deficit round robin by example: small cases worked out by hand, each refusal once, and a longer run
// beside a table that a model of the rules gave. A run is one letter a slot: a full stop where nothing
// went, a digit for a unit of that client, a capital for a block's last unit. What is booked and what is refused
// differs from hop to hop, so each hop has cases of its own.
#![tactic(auto)]

#[cfg(test)]
mod tests {
    use clients::booking::BookingRefusal;
    use ring::booking::RingBooking;
    use ring::ring_server::RingServer;
    use server::server::Server;
    use std::test::Fail;
    use test_support::playing::{play, serve, submit_all};
    use test_support::rates::rate;
    use test_support::submission::Submission;
    use test_support::{refusals, submissions};

    // Two clients of rate 1/2, each with a quantum of 16 in a ring of 32.
    fn pair() -> Result<RingServer, BookingRefusal> {
        let mut booking = RingBooking::new();
        booking.set_total(32)?;
        booking.reserve(rate(1, 2), 16)?;
        booking.reserve(rate(1, 2), 16)?;
        Ok(booking.open())
    }

    // Client 0 keeps 6 when its second block of 10 has to wait, and client 1 keeps nothing.
    #[test]
    fn deficit_is_kept(rt: HostRuntime) -> Result<(), Fail> {
        let mut server = pair()?;
        assert_eq!(rt; server.submit(0, 1, 10), Ok(78));
        assert_eq!(rt; server.submit(0, 2, 10), Ok(98));
        assert_eq!(rt; server.submit(1, 3, 16), Ok(78));
        assert_eq!(rt; server.submit(1, 4, 3), Ok(110));
        serve(&mut server, b"000000000A")?;
        serve(&mut server, b"111111111111111B")?;
        serve(&mut server, b"000000000A")?;
        serve(&mut server, b"11B.")?;
        Ok(())
    }

    // Blocks of 4, 4 and 4 fit into one turn; the next, of 8, is longer than the 4 that are left.
    #[test]
    fn several_blocks_a_turn(rt: HostRuntime) -> Result<(), Fail> {
        let mut server = pair()?;
        assert_eq!(rt; server.submit(0, 1, 4), Ok(78));
        assert_eq!(rt; server.submit(0, 2, 4), Ok(86));
        assert_eq!(rt; server.submit(0, 3, 4), Ok(94));
        assert_eq!(rt; server.submit(0, 4, 8), Ok(102));
        assert_eq!(rt; server.submit(1, 5, 2), Ok(78));
        serve(&mut server, b"000A000A000A1B0000000A.")?;
        Ok(())
    }

    // Client 0 empties with 6 left, which it loses: its block of 6 waits for its next turn.
    #[test]
    fn deficit_is_cleared(rt: HostRuntime) -> Result<(), Fail> {
        let mut server = pair()?;
        assert_eq!(rt; server.submit(0, 1, 10), Ok(78));
        serve(&mut server, b"000000000A")?;
        assert_eq!(rt; server.submit(0, 2, 16), Ok(98));
        assert_eq!(rt; server.submit(0, 3, 6), Ok(130));
        assert_eq!(rt; server.submit(1, 4, 16), Ok(88));
        assert_eq!(rt; server.submit(1, 5, 1), Ok(120));
        serve(&mut server, b"111111111111111B")?;
        serve(&mut server, b"000000000000000AB00000A.")?;
        Ok(())
    }

    // Quanta of 16, 32 and 16: client 0 keeps 4, client 1 nothing and client 2 keeps 11.
    #[test]
    fn three_clients(rt: HostRuntime) -> Result<(), Fail> {
        let mut booking = RingBooking::new();
        booking.set_total(64)?;
        booking.reserve(rate(1, 4), 16)?;
        booking.reserve(rate(1, 2), 32)?;
        booking.reserve(rate(1, 4), 16)?;
        let mut server = booking.open();
        assert_eq!(rt; server.latency(0)?, 187);
        assert_eq!(rt; server.latency(1)?, 109);
        assert_eq!(rt; server.latency(2)?, 187);
        assert_eq!(rt; server.submit(0, 1, 12), Ok(187));
        assert_eq!(rt; server.submit(0, 2, 12), Ok(235));
        assert_eq!(rt; server.submit(1, 3, 16), Ok(109));
        assert_eq!(rt; server.submit(1, 4, 16), Ok(141));
        assert_eq!(rt; server.submit(1, 5, 16), Ok(173));
        assert_eq!(rt; server.submit(2, 6, 5), Ok(187));
        assert_eq!(rt; server.submit(2, 7, 16), Ok(207));
        serve(&mut server, b"00000000000A")?;
        serve(&mut server, b"111111111111111B111111111111111B")?;
        serve(&mut server, b"2222C")?;
        serve(&mut server, b"00000000000A")?;
        serve(&mut server, b"111111111111111B")?;
        serve(&mut server, b"222222222222222C.")?;
        Ok(())
    }

    // 48 × 31 / 16 is 93 and 15 more for the other client; 47 × 32 / 17 is rounded up to 89.
    #[test]
    fn latencies(rt: HostRuntime) -> Result<(), Fail> {
        let mut booking = RingBooking::new();
        booking.set_total(64)?;
        booking.reserve(rate(1, 4), 16)?;
        booking.reserve(rate(3, 16), 17)?;
        let server = booking.open();
        assert_eq!(rt; server.clients(), 2);
        assert_eq!(rt; server.latency(0)?, 172);
        assert_eq!(rt; server.latency(1)?, 568);
        Ok(())
    }

    // A number out of range is refused with 7, a rate with 6, a quantum too small with 8, a new total with 5,
    // and quanta past the total with 9.
    #[test]
    fn bookings_refused(rt: HostRuntime) -> Result<(), Fail> {
        let number = BookingRefusal::number;
        let mut booking = RingBooking::new();
        assert_eq!(rt; booking.set_total(15).map_err(number), Err(7));
        assert_eq!(rt; booking.set_total(8193).map_err(number), Err(7));
        assert_eq!(rt; booking.set_total(65536).map_err(number), Err(7));
        booking.set_total(32)?;
        assert_eq!(rt; booking.reserve(rate(5, 4), 16).map_err(number), Err(6));
        assert_eq!(rt; booking.reserve(rate(1, 1025), 16).map_err(number), Err(6));
        assert_eq!(rt; booking.reserve(rate(1, 2), 15).map_err(number), Err(7));
        assert_eq!(rt; booking.reserve(rate(1, 2), 1025).map_err(number), Err(7));
        assert_eq!(rt; booking.reserve(rate(2, 3), 16).map_err(number), Err(8));
        booking.reserve(rate(1, 2), 16)?;
        assert_eq!(rt; booking.set_total(32).map_err(number), Err(5));
        assert_eq!(rt; booking.reserve(rate(1, 2), 17).map_err(number), Err(9));
        assert_eq!(rt; booking.open().clients(), 1);
        Ok(())
    }

    #[test]
    fn ninth_refused(rt: HostRuntime) -> Result<(), Fail> {
        let mut booking = RingBooking::new();
        booking.set_total(160)?;
        for _ in 0..8 {
            booking.reserve(rate(1, 10), 16)?;
        }
        let ninth = booking.reserve(rate(1, 10), 16);
        assert_eq!(rt; ninth.map_err(BookingRefusal::number), Err(9));
        assert_eq!(rt; booking.open().clients(), 8);
        Ok(())
    }

    // At the rate 1/2 each block of 16 is due 32 slots after the one before.
    #[test]
    fn submissions_refused(rt: HostRuntime) -> Result<(), Fail> {
        let mut server = pair()?;
        let refusals =
            refusals![absent 2, client 0, length 16, dues 78 110 142 174 206 238 270 302];
        submit_all(&mut server, &refusals)?;
        assert_eq!(rt; server.waiting(0)?, 8);
        Ok(())
    }

    // A ring of no clients serves nothing.
    #[test]
    fn empty_ring(rt: HostRuntime) -> Result<(), Fail> {
        let mut server = RingBooking::new().open();
        assert_eq!(rt; server.clients(), 0);
        serve(&mut server, b"...")?;
        assert_eq!(rt; server.now(), 3);
        Ok(())
    }

    // Slot, client, length, and the due or the number of the refusal.
    const SUBMISSIONS: &[Submission] = &submissions![
        1 2 5 Ok(266),
        1 1 11 Ok(177),
        4 0 7 Ok(340),
        24 2 3 Ok(291),
        25 1 15 Ok(210),
        27 3 15 Ok(325),
        29 0 16 Ok(396),
        30 0 16 Ok(524),
        46 3 9 Ok(415),
        53 3 16 Ok(469),
        55 0 7 Ok(652),
        56 3 9 Ok(565),
        61 3 15 Ok(619),
        62 0 7 Ok(708),
        62 0 15 Ok(764),
        63 0 13 Ok(884),
        81 0 7 Ok(988),
        85 0 7 Ok(1044),
        87 0 4 Ok(1100),
        93 3 4 Ok(709),
        94 3 11 Ok(733),
        98 1 2 Ok(274),
        99 1 2 Ok(280),
        106 3 16 Ok(799),
        108 3 9 Ok(895),
        109 0 16 Ok(1132),
        115 3 16 Ok(949),
        129 3 7 Ok(1045),
        132 3 7 Ok(1087),
        134 3 11 Err(3),
        135 3 11 Err(3),
        136 2 3 Ok(401),
        144 1 11 Ok(320),
        149 0 11 Ok(1260),
        150 1 15 Ok(353),
        153 0 5 Ok(1348),
        154 3 7 Err(3),
        157 2 7 Ok(422),
        159 1 4 Ok(398),
        159 0 13 Err(3),
        162 1 4 Ok(410),
        166 2 3 Ok(457),
        167 0 16 Err(3),
        167 0 3 Err(3),
        170 3 4 Ok(1129),
        171 1 2 Ok(422),
        174 1 5 Ok(428),
        175 1 5 Ok(443),
        176 0 13 Ok(1388),
        180 2 16 Ok(472),
        183 3 7 Err(3),
        186 2 15 Ok(552),
        197 1 5 Ok(458),
    ];

    // What the 200 slots serve.
    const SERVED: &[u8] =
        b".1111111111B2222C000000A22C33333333333333D000000000000000A11111111111111B33333333D000000000000000A1B1B333333333333333D33333333D000000A000000A22C33333333333333D00000000000000A1111111111B11111111111111B";

    // Four clients with a ring that is not all reserved, for 200 slots.
    #[test]
    fn long_run(rt: HostRuntime) -> Result<(), Fail> {
        let mut booking = RingBooking::new();
        booking.set_total(100)?;
        booking.reserve(rate(1, 8), 16)?;
        booking.reserve(rate(1, 3), 40)?;
        booking.reserve(rate(1, 5), 20)?;
        booking.reserve(rate(2, 12), 17)?;
        let mut server = booking.open();
        play(&mut server, SUBMISSIONS, SERVED)?;
        assert_eq!(rt; server.now(), 200);
        assert_eq!(rt; server.clock(0)?, 1156);
        assert_eq!(rt; server.clock(3)?, 1710);
        assert_eq!(rt; server.waiting(3)?, 8);
        Ok(())
    }
}
