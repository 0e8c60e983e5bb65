// A text of at most ten bytes, and how it grows: by one byte, or by the bytes of another text.
ghost use Rattle.decimal.specs.Texts.{text_of};
ghost use Rattle.std.specs.Prelude.{◌≡◌, [], ◌∷◌, is_ok, decimal};
ghost use Rattle.tables.specs.Tables.{extended, fits};

use itoa::Buffer;
use tables::{Full, Table};

/// A text of at most ten bytes. They are bytes and no string, since labels are texts of any bytes.
#[derive(Clone, Copy)]
pub struct Text {
    bytes: Table<u8, 10>,
}

impl Text {
    /// The text of no bytes.
    pub fn new() -> Text
        ensures { text_of result ≡ [] }
    {
        Text {
            bytes: Table::new(0),
        }
    }

    /// The digits of a number.
    pub fn number(number: u32) -> Text
        ensures { text_of result ≡ decimal number }
    {
        let mut text = Text::new();
        // A number has at most ten digits.
        text.bytes
            .append(Buffer::new().format(number).as_bytes())
            .unwrap();
        text
    }

    /// The bytes of the text.
    pub fn as_slice(&self) -> &[u8]
        ensures { result.now ≡ text_of self.now }
    {
        self.bytes.as_slice()
    }

    /// One byte more, if it fits.
    pub fn push(&mut self, byte: u8) -> Result<(), Full>
        ensures answer { is_ok result ≡ fits 10 (text_of self.old) (byte ∷ []) }
        ensures after { text_of self.new ≡ extended 10 (text_of self.old) (byte ∷ []) }
    {
        self.bytes.push(byte)
    }

    /// The bytes of another text behind, if they fit.
    pub fn append(&mut self, more: &Text) -> Result<(), Full>
        ensures answer { is_ok result ≡ fits 10 (text_of self.old) (text_of more.now) }
        ensures after { text_of self.new ≡ extended 10 (text_of self.old) (text_of more.now) }
    {
        self.bytes.append(more.as_slice())
    }
}
