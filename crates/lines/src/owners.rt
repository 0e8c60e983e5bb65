// The line of the frame's owners.
ghost use Rattle.lines.specs.Frames.{frame_of, listed_in, owner_of, owners_in};
ghost use Rattle.std.specs.Option.{option_map};
ghost use Rattle.std.specs.Prelude.{◌≡◌};
ghost use Rattle.tables.specs.Tables.{listed};

use crate::records::Owner;
use faults::{FieldCause, LineFault};
use reader::open;
use tables::Table;

/// Who a character stands for: a client by its digit, or nobody by a full stop.
fn owner(letter: u8) -> Option<Owner>
    ensures { result ≡ owner_of letter }
{
    match letter {
        b'.' => Some(None),
        b'0'..=b'7' => Some(Some(letter - b'0')),
        _ => None,
    }
}

/// The owners of a text of 1 to 256 characters.
fn owners(text: &[u8]) -> Option<Table<Owner, 256>>
    ensures { option_map listed result ≡ owners_in text.now }
{
    if text.is_empty() {
        return None;
    }
    // A loop, since `collect` asks for an allocator, which a table has no use for.
    let mut owners = Table::new(None);
    for letter in text {
        owners.push(owner(*letter)?).ok()?;
    }
    Some(owners)
}

/// The line `F,owners`.
pub fn frame(line: &[u8]) -> Result<Table<Owner, 256>, LineFault>
    ensures { listed_in result ≡ frame_of line.now }
{
    let mut fields = open(line, b'F', 2)?;
    let fault = fields.fault(FieldCause::Form);
    Ok(owners(fields.text()).ok_or(fault)?)
}
