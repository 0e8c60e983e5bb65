ghost use Rattle.std.specs.Prelude.{◌≡◌};
ghost use Rattle.test_support.specs.Letters.{letter_of};

use server::block::Served;
use server::refusal::Refusal;

/// The letter of a slot.
pub fn letter(answer: Result<Served, Refusal>) -> u8
    ensures { result ≡ letter_of answer }
{
    match answer {
        Ok(Served::Nothing) => b'.',
        Ok(Served::Unit(client)) => b'0'.saturating_add(client),
        Ok(Served::Departed(block)) => b'A'.saturating_add(block.client),
        Err(_) => b'!',
    }
}
