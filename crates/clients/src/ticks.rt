ghost use Rattle.std.specs.Prelude.{◌≡◌, min};
ghost use Rattle.clients.specs.Held.{latency_for};
ghost use Rattle.clients.specs.Serving.{rate_ok, terms_ok};

use server::rate::{Rate, Terms};

/// Whether the rate is within its range.
pub fn rate_in_range(rate: Rate) -> bool
    ensures { result ≡ rate_ok rate }
{
    (1..=rate.q).contains(&rate.p) && rate.q <= 1024
}

// Whether the terms are within their ranges.
pub(crate) fn in_range(terms: Terms) -> bool
    ensures { result ≡ terms_ok terms }
{
    rate_in_range(terms.rate) && (u32::from(terms.rate.p)..=4194304).contains(&terms.latency)
}

/// The latency in ticks of a client that is late by at most `theta` slots.
pub fn latency_of(rate: Rate, theta: u32) -> u64
    ensures { result ≡ latency_for rate.p rate.q theta }
{
    u64::from(rate.p) * u64::from(theta) + u64::from(rate.q) * 16
}

/// The terms of a client of this rate that is late by at most `theta` slots. No scheduler is so late that its
/// latency would not fit into 32 bits; this call cuts it there, so that it asks nothing of its caller.
pub fn terms_of(rate: Rate, theta: u32) -> Terms
    ensures { result ≡ record { rate = rate; latency = min (latency_for rate.p rate.q theta) 4294967295 } }
{
    Terms {
        rate,
        latency: u32::try_from(latency_of(rate, theta)).unwrap_or(u32::MAX),
    }
}
