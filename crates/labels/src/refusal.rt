// Why a code is not written as a label.
ghost use Rattle.labels.specs.Refusals.{refusal_number};
ghost use Rattle.labels.specs.declared.refusal.LabelRefusal.TheVariants.{NoText};
ghost use Rattle.std.specs.Prelude.{◌≡◌};

use decimal::Full;

/// Why a code is not written, with the number by which the refusal is known.
#[derive(Clone, Copy, PartialEq, Eq, Debug)]
pub enum LabelRefusal {
    /// No text reads into the code.
    NoText = 17,
}

impl LabelRefusal {
    /// The number by which the refusal is known. Written for each enum of refusals, since a type parameter
    /// cannot be cast.
    pub fn number(self) -> u8
        ensures { result ≡ refusal_number self }
    {
        self as u8
    }
}

impl From<Full> for LabelRefusal {
    ghost from_gives = { λ _ r. r ≡ NoText };

    fn from(_full: Full) -> LabelRefusal {
        LabelRefusal::NoText
    }
}
