// The lines of a trace, each read from its own bytes.
ghost use Rattle.lines.specs.Lines.{client_of, end_of, header_of, kind_in, request_of};
ghost use Rattle.reader.specs.Fields.{Passed};
ghost use Rattle.reader.specs.Parts.{field_number, fields_left, first_field};
ghost use Rattle.std.specs.Prelude.{◌≡◌};

use crate::records::{Client, Header, Request};
use faults::{FieldCause, FieldFault, LineFault};
use labels::{Kind, LabelKind};
use reader::{Fields, open};

/// The largest number that a header or a client may ask for. The bookings test the narrower ranges.
const MOST_ASKED: u32 = 65536;

/// The last slot that a request or the end may name.
const LAST_SLOT: u32 = 1000000;

/// The kind that the next field names by its letter. The fault is made, the text read and the fault given by hand,
/// here and for the frame's owners: what the reader has for it takes a closure and is not public.
fn kind(fields: &mut Fields<'_>) -> Result<Kind, FieldFault>
    ensures value { result ≡ kind_in (field_number fields.old) (first_field (fields_left fields.old)) }
    ensures passed { Passed fields.old fields.new }
{
    let fault = fields.fault(FieldCause::Form);
    let [letter] = fields.text() else {
        return Err(fault);
    };
    Kind::try_from(*letter).map_err(|_| fault)
}

/// The line `H,kind,D,F`.
pub fn header(line: &[u8]) -> Result<Header, LineFault>
    ensures { result ≡ header_of line.now }
{
    let mut fields = open(line, b'H', 4)?;
    Ok(Header {
        kind: kind(&mut fields)?,
        denominator: fields.number(MOST_ASKED)?,
        total: fields.number(MOST_ASKED)?,
    })
}

/// The line `B,p,q,n,σ,φ`.
pub fn client(line: &[u8]) -> Result<Client, LineFault>
    ensures { result ≡ client_of line.now }
{
    let mut fields = open(line, b'B', 6)?;
    Ok(Client {
        units: fields.number(MOST_ASKED)?,
        slots: fields.number(MOST_ASKED)?,
        step: fields.number(MOST_ASKED)?,
        cap: fields.number(MOST_ASKED)?,
        quantum: fields.number(MOST_ASKED)?,
    })
}

/// The line `R,slot,client,label,length`, with a label of the kind `L`.
pub fn request<L: LabelKind>(line: &[u8]) -> Result<Request, LineFault>
    ensures { result ≡ request_of L.LabelKind.reads line.now }
{
    let mut fields = open(line, b'R', 5)?;
    Ok(Request {
        slot: fields.number(LAST_SLOT)?,
        client: fields.small()?,
        label: fields.label::<L>()?,
        length: fields.small()?,
    })
}

/// The line `E,slot`.
pub fn end(line: &[u8]) -> Result<u32, LineFault>
    ensures { result ≡ end_of line.now }
{
    Ok(open(line, b'E', 2)?.number(LAST_SLOT)?)
}
