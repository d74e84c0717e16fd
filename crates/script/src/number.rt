// A number of a line, in hex.
ghost use Rattle.script.specs.Numbers.{digit_of, number_of};
ghost use Rattle.std.specs.Prelude.{◌≡◌};

use crate::fault::LineFault;

// What a hex digit of either case is worth.
fn hex_digit(b: u8) -> Option<u32>
    ensures { result ≡ digit_of b }
{
    char::from(b).to_digit(16)
}

// The number that a word writes, at most FFh. Past that only the digits are still looked at.
pub(crate) fn hex_number(word: &[u8]) -> Result<u8, LineFault>
    ensures { result ≡ number_of word.now }
{
    let mut value = 0;
    for b in word {
        let digit = hex_digit(*b).ok_or(LineFault::NotHex)?;
        value = (value * 16 + digit).min(0x100);
    }
    u8::try_from(value).map_err(|_| LineFault::TooLarge)
}
