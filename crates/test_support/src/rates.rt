ghost use Rattle.std.specs.Prelude.{◌≡◌};

use server::rate::Rate;

/// The rate of p units in q slots.
pub fn rate(p: u16, q: u16) -> Rate
    ensures { result ≡ record { p = p; q = q } }
{
    Rate { p, q }
}
