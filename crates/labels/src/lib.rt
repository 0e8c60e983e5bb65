// Label kinds: how a text field of 1 to 10 bytes is read into a code, and how a code is written as text.
// Writing what was read gives the same bytes, and reading what was written gives the same code, for every kind.
// Kind S is a serial number and kind P a packet identity; a letter chooses between them.
#![tactic(auto)]

ghost use Rattle.std.specs.Prelude.{◌≡◌, ℕ, ◌≤◌, List, length, Some, Option};
ghost use Rattle.labels.specs.Labels.{packet_reads, packet_writes, serial_reads, serial_writes};
ghost use Rattle.labels.specs.Refusals.{told};
ghost use Rattle.labels.specs.Serials.{serial_returned, serial_reread, serial_sized};
ghost use Rattle.labels.specs.Packets.{packet_returned, packet_reread, packet_sized};

mod kind;
mod refusal;

use decimal::Text;
pub use kind::{Kind, UnknownKind};
pub use refusal::LabelRefusal;

/// A kind of label.
pub trait LabelKind {
    /// The code that a text reads into, if the text is of this kind.
    ghost reads: { List ℕ → Option ℕ };

    /// The text of a code, if some text reads into it.
    ghost writes: { ℕ → Option (List ℕ) };

    /// The code of a text, if the text is of this kind.
    fn read(text: &[u8]) -> Option<u32>
        ensures { result ≡ reads text.now };

    /// The text of a code, turned away where no text reads into the code.
    fn write(code: u32) -> Result<Text, LabelRefusal>
        ensures { told result ≡ writes code };

    /// Writing what was read gives the same bytes.
    ghost returned: { (text : List ℕ) (code : ℕ) → reads text ≡ Some code → writes code ≡ Some text };

    /// Reading what was written gives the same code.
    ghost reread: { (code : ℕ) (text : List ℕ) → writes code ≡ Some text → reads text ≡ Some code };

    /// A text of no byte or of more than ten is of no kind.
    ghost sized: { (text : List ℕ) (code : ℕ) → reads text ≡ Some code → (1 ≤ length text) × (length text ≤ 10) };
}

/// A serial number.
#[derive(Clone, Copy, PartialEq, Eq, Debug)]
pub struct Serial;

impl LabelKind for Serial {
    ghost reads = { serial_reads };

    ghost writes = { serial_writes };

    ghost returned = { serial_returned };

    ghost reread = { serial_reread };

    ghost sized = { serial_sized };

    fn read(text: &[u8]) -> Option<u32> {
        decimal::read(text, u32::MAX)
    }

    fn write(code: u32) -> Result<Text, LabelRefusal> {
        Ok(decimal::write(code))
    }
}

/// A packet's application identifier, a full stop, and its sequence count.
#[derive(Clone, Copy, PartialEq, Eq, Debug)]
pub struct Packet;

impl LabelKind for Packet {
    ghost reads = { packet_reads };

    ghost writes = { packet_writes };

    ghost returned = { packet_returned };

    ghost reread = { packet_reread };

    ghost sized = { packet_sized };

    fn read(text: &[u8]) -> Option<u32> {
        let (apid, count) = marks::split_once(text, b'.')?;
        Some(decimal::read(apid, 2047)? * 16384 + decimal::read(count, 16383)?)
    }

    fn write(code: u32) -> Result<Text, LabelRefusal> {
        if code > 33554431 {
            return Err(LabelRefusal::NoText);
        }
        // An identifier of at most 4 digits, the stop and a count of at most 5 fit into the ten bytes.
        let mut text = decimal::write(code / 16384);
        text.push(b'.')?;
        text.append(&decimal::write(code % 16384))?;
        Ok(text)
    }
}
