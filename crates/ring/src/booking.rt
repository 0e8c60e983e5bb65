ghost use Rattle.std.specs.Prelude.{◌≡◌, ℕ, ◌<◌, ◌≤◌, length};
ghost use Rattle.ring.specs.Sums.{sum};
ghost use Rattle.ring.specs.Shares.{count_in, quantum_in, Carried};

use crate::shares::Shares;

/// A ring total and the clients reserved in it so far. The three schedulers' bookings share no trait: each is
/// booked by a share of its own kind, so that no code would be generic over them.
#[derive(Drop)]
pub struct RingBooking {
    pub(crate) shares: Shares,
    ghost full: { length shares.reserved ≡ 8 },
    ghost few: { shares.count ≤ 8 },
    ghost least: { 16 ≤ shares.total },
    ghost most: { shares.total ≤ 8192 },
    ghost within: { sum (count_in shares) (quantum_in shares) ≤ shares.total },
    ghost carried: { (k : ℕ) → k < count_in shares → Carried shares k },
}
