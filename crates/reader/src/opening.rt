// How a line begins: its letter, and then as many fields as its kind has.
ghost use Rattle.reader.specs.Fields.{only, opens};
ghost use Rattle.reader.specs.Parts.{field_number, fields_left, first_field, other_fields};
ghost use Rattle.std.specs.Prelude.{◌≡◌, IfOk, MatchResult, Ok, Err};

use crate::fields::Fields;
use faults::LineFault;

/// Whether a line begins with that letter as its first field.
pub fn begins(line: &[u8], letter: u8) -> bool
    ensures { result ≡ only letter (first_field line.now) }
{
    Fields::new(line).text() == [letter].as_slice()
}

/// Tests a line's letter and then its number of fields, and gives the fields behind the letter.
pub fn open(line: &[u8], letter: u8, count: usize) -> Result<Fields<'_>, LineFault>
    ensures answer { MatchResult result (λ _. opens letter count line.now ≡ Ok tt) (λ fault. opens letter count line.now ≡ Err fault) }
    ensures left { IfOk result (λ fields. fields_left fields ≡ other_fields line.now) }
    ensures number { IfOk result (λ fields. field_number fields ≡ 2) }
{
    let mut fields = Fields::new(line);
    if fields.text() != [letter].as_slice() {
        return Err(LineFault::Letter);
    }
    if marks::count(line, b',') + 1 != count {
        return Err(LineFault::Fields);
    }
    Ok(fields)
}
