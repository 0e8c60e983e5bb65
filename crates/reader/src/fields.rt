// The fields of a line, from the left: texts, numbers and labels.
ghost use Rattle.reader.specs.Fields.{label_in, number_in, or_fault, Passed};
ghost use Rattle.reader.specs.Parts.{field_number, fields_left, first_field};
ghost use Rattle.std.specs.Fn.{FnOnceReturnsAt};
ghost use Rattle.std.specs.Prelude.{◌≡◌, ◌≤◌, IfOk, Option};

use faults::{FieldCause, FieldFault};
use labels::LabelKind;

/// The fields of a line that are left, and the number of the next. A line's letter is its field 1.
#[derive(Clone, Copy)]
pub struct Fields<'a> {
    bytes: &'a [u8],
    next: u8,
}

impl<'a> Fields<'a> {
    /// All fields of a line.
    pub fn new(line: &'a [u8]) -> Fields<'a>
        ensures left { fields_left result ≡ line.now }
        ensures number { field_number result ≡ 1 }
    {
        Fields::at(line, 1)
    }

    /// The fields that are left of a line, the next of which has that number.
    pub fn at(rest: &'a [u8], field: u8) -> Fields<'a>
        ensures left { fields_left result ≡ rest.now }
        ensures number { field_number result ≡ field }
    {
        Fields {
            bytes: rest,
            next: field,
        }
    }

    /// The fault of the next field.
    pub fn fault(&self, cause: FieldCause) -> FieldFault
        ensures { result ≡ record { field = field_number self.now; cause = cause } }
    {
        FieldFault {
            field: self.next,
            cause,
        }
    }

    /// The next field.
    pub fn text(&mut self) -> &'a [u8]
        ensures value { result.now ≡ first_field (fields_left self.old) }
        ensures passed { Passed self.old self.new }
    {
        let (text, rest) = marks::split_once(self.bytes, b',').unwrap_or((self.bytes, &[]));
        self.bytes = rest;
        // No kind of line has so many fields that the count would stop.
        self.next = self.next.saturating_add(1);
        text
    }

    /// What `read` makes of the next field, or the field's fault for that cause. It is this crate's own, since
    /// what takes a closure requires that it may be called.
    fn read<T, F: FnOnce(&[u8]) -> Option<T>>(
        &mut self,
        cause: FieldCause,
        read: F,
    ) -> Result<T, FieldFault>
        requires { F.IsAlwaysCallable read }
        ensures value { (answer : Option T) × FnOnceReturnsAt F.FnOnce read (first_field (fields_left self.old)) answer × (result ≡ or_fault (field_number self.old) cause answer) }
        ensures passed { Passed self.old self.new }
    {
        let fault = self.fault(cause);
        read(self.text()).ok_or(fault)
    }

    /// The next field as a number up to `most`.
    pub fn number(&mut self, most: u32) -> Result<u32, FieldFault>
        ensures value { result ≡ number_in (field_number self.old) most (first_field (fields_left self.old)) }
        ensures bound { IfOk result (λ number. number ≤ most) }
        ensures passed { Passed self.old self.new }
    {
        self.read(FieldCause::Form, |text| decimal::read(text, most))
    }

    /// The next field as a number up to 255.
    pub fn small(&mut self) -> Result<u8, FieldFault>
        ensures value { result ≡ number_in (field_number self.old) 255 (first_field (fields_left self.old)) }
        ensures passed { Passed self.old self.new }
    {
        // At most 255, which `number` keeps to: `try_from` would answer an error that cannot come.
        Ok(self.number(255)? as u8)
    }

    /// The next field as a label of the kind `L`.
    pub fn label<L: LabelKind>(&mut self) -> Result<u32, FieldFault>
        ensures value { result ≡ label_in (field_number self.old) L.LabelKind.reads (first_field (fields_left self.old)) }
        ensures passed { Passed self.old self.new }
    {
        // A trait's method does not fit the bound of `read` by its name alone.
        self.read(FieldCause::Label, |text| L::read(text))
    }
}
