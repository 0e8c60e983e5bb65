ghost use Rattle.std.specs.Prelude.{◌≡◌};
ghost use Rattle.join.specs.Misfits.{number_of};

/// Why two servers do not fit, each cause with its number.
#[derive(Clone, Copy, PartialEq, Eq, Debug)]
pub enum Misfit {
    // the number of clients or a rate differs
    Differ = 10,
    // a now, a clock or a number waiting is not 0
    Used = 11,
    // a summed latency is over 4,194,304
    Late = 12,
}

impl Misfit {
    /// A method and no `From`, since its name says which number; written for each enum, since a type parameter
    /// cannot be cast.
    pub fn number(self) -> u8
        ensures { result ≡ number_of self }
    {
        self as u8
    }
}
