// The lines of a trace, handed out as parts of the trace's own bytes.
ghost use Rattle.std.specs.Prelude.{◌≤◌, length};

/// A reading of a trace's own bytes: those from `place` on are left.
#[derive(Clone, Copy)]
pub struct Reader<'a> {
    bytes: &'a [u8],
    place: usize,
    ghost within: { place ≤ length bytes.now },
}

impl<'a> Reader<'a> {
    ghost use Rattle.reader.specs.Parts.{after_line, left, next_line};
    ghost use Rattle.std.specs.Option.{option_copied};
    ghost use Rattle.std.specs.Prelude.{◌≡◌};

    /// The reading of all bytes from the first on.
    pub fn new(bytes: &'a [u8]) -> Reader<'a>
        ensures { left result ≡ bytes.now }
    {
        Reader { bytes, place: 0 }
    }

    /// The bytes that are left.
    pub fn rest(&self) -> &'a [u8]
        ensures { result.now ≡ left self.now }
    {
        &self.bytes[self.place..]
    }

    /// The next line, and the reading goes on behind its end. A line whose end is missing stays unread. This would be
    /// `next` of an `Iterator`, whose `impl` has members for proofs that one caller would not make up for.
    pub fn line(&mut self) -> Option<&'a [u8]>
        ensures value { option_copied result ≡ next_line (left self.old) }
        ensures after { left self.new ≡ after_line (left self.old) }
    {
        let rest = self.rest();
        let (line, _) = marks::split_once(rest, b'\n')?;
        self.place += line.len() + 1;
        Some(line)
    }
}
