// The two kinds of label that a trace may name, chosen by their letter.
ghost use Rattle.labels.specs.Kinds.{kind_of};
ghost use Rattle.std.specs.Option.{ok_or};
ghost use Rattle.std.specs.Prelude.{◌≡◌};

/// Which kind of label a trace has.
#[derive(Clone, Copy, PartialEq, Eq, Debug)]
pub enum Kind {
    Serial,
    Packet,
}

/// A letter that stands for no kind.
#[derive(Clone, Copy, PartialEq, Eq, Debug)]
pub struct UnknownKind(pub u8);

impl TryFrom<u8> for Kind {
    type Error = UnknownKind;

    ghost try_from_gives = { λ letter r. r ≡ ok_or (kind_of letter) (record { 0 = letter }) };

    fn try_from(letter: u8) -> Result<Kind, UnknownKind> {
        match letter {
            b'S' => Ok(Kind::Serial),
            b'P' => Ok(Kind::Packet),
            _ => Err(UnknownKind(letter)),
        }
    }
}
