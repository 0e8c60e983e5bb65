// Numbers as text: 1 to 10 digits with no leading zero, read up to a bound and written back.
// Reading answers the number of a text, or nothing where the text is not of that form or over the bound.
// Writing gives the same text again, into a small value of at most ten bytes; nothing is asked of a caller.
#![tactic(auto)]

ghost use Rattle.decimal.specs.Numbers.{digits_on, kept, number_of};
ghost use Rattle.decimal.specs.Texts.{text_of};
ghost use Rattle.std.specs.Prelude.{◌≡◌, ◌≤◌, ◌∷◌, length, decimal, IfSome};

mod text;

pub use tables::Full;
pub use text::Text;

/// The number of a first digit with the rest. It is read in one pass, where `parse` makes the third: the text would
/// have to be known as digits and as a string before.
fn digits(first: u8, rest: &[u8]) -> Option<u64>
    requires { length rest.now ≤ 9 }
    ensures { result ≡ digits_on 0 (first ∷ rest.now) }
{
    if !first.is_ascii_digit() {
        return None;
    }
    let mut value = u64::from(first - b'0');
    for digit in rest {
        if !digit.is_ascii_digit() {
            return None;
        }
        value = 10 * value + u64::from(*digit - b'0');
    }
    Some(value)
}

/// A number that is at most `most`.
fn keep(value: Option<u64>, most: u32) -> Option<u32>
    ensures value { result ≡ kept most value }
    ensures bound { IfSome result (λ number. number ≤ most) }
{
    let number = u32::try_from(value?).ok()?;
    (number <= most).then_some(number)
}

/// The number of a text of 1 to 10 digits with no leading zero, at most `most`.
pub fn read(text: &[u8], most: u32) -> Option<u32>
    ensures value { result ≡ number_of most text.now }
    ensures bound { IfSome result (λ number. number ≤ most) }
{
    match text {
        [] => None,
        [b'0'] => Some(0),
        [b'0', _, ..] => None,
        [first, rest @ ..] => {
            if rest.len() > 9 {
                return None;
            }
            keep(digits(*first, rest), most)
        }
    }
}

/// The digits of a number.
pub fn write(number: u32) -> Text
    ensures { text_of result ≡ decimal number }
{
    Text::number(number)
}
