ghost use Rattle.std.specs.Prelude.{◌≡◌, ◌*◌, max};
ghost use Rattle.server.specs.Calls.{due_within, slots_of};

/// A client sends p units in q slots; a tick of that client is the p-th part of a slot.
#[derive(Clone, Copy, PartialEq, Eq, Default, Debug)]
pub struct Rate {
    pub p: u16,
    pub q: u16,
}

impl Rate {
    /// The start of a block that comes at this slot: the clock, or the present tick if that is later.
    pub fn start_at(self, clock: u64, slot: u32) -> u64
        ensures { result ≡ max (self.p * slot) clock }
    {
        (u64::from(self.p) * u64::from(slot)).max(clock)
    }

    /// The ticks that a block of this length takes.
    pub fn ticks(self, length: u8) -> u64
        ensures { result ≡ self.q * length }
    {
        u64::from(self.q) * u64::from(length)
    }
}

/// What a client has reserved and keeps while its server runs: its rate, and its latency in ticks.
#[derive(Clone, Copy, PartialEq, Eq, Default, Debug)]
pub struct Terms {
    pub rate: Rate,
    pub latency: u32,
}

impl Terms {
    /// The slot by which a block of this start has left, or 0 where there is no rate. No client is without one, and
    /// nothing is asked of a caller.
    pub fn due(self, start: u64) -> u64
        ensures { result ≡ due_within self start }
    {
        let end = start.saturating_add(u64::from(self.latency));
        end.checked_div(u64::from(self.rate.p)).unwrap_or(0)
    }

    /// The latency in slots, rounded up, or 0 where there is no rate. No client is without one, and nothing is asked
    /// of a caller.
    pub fn slots(self) -> u32
        ensures { result ≡ slots_of self }
    {
        match self.rate.p {
            0 => 0,
            p => self.latency.div_ceil(u32::from(p)),
        }
    }
}
