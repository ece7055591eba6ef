//! Words in hexadecimal digits.
ghost use Rattle.std.specs.Prelude.{◌≡◌, ◌<◌};
ghost use Rattle.op_listing.specs.Digits.{eight_digits, hex_digit};

/// A hexadecimal digit, in lower case.
fn hex_digit(value: u32) -> u8
    requires { value < 16 }
    ensures { result ≡ hex_digit value }
{
    let digit = value as u8;
    if digit < 10 {
        b'0' + digit
    } else {
        b'a' + (digit - 10)
    }
}

/// A word in eight hexadecimal digits, in lower case, the highest one first.
#[tactic(auto, unfolding(crate::specs::Digits::eight_digits))]
pub fn eight_digits(word: u32) -> [u8; 8]
    ensures { result ≡ eight_digits word }
{
    [
        hex_digit(word >> 28),
        hex_digit(word >> 24 & 15),
        hex_digit(word >> 20 & 15),
        hex_digit(word >> 16 & 15),
        hex_digit(word >> 12 & 15),
        hex_digit(word >> 8 & 15),
        hex_digit(word >> 4 & 15),
        hex_digit(word & 15),
    ]
}
