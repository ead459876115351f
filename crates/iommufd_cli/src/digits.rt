//! Digits of numbers in hex.

ghost use Rattle.std.specs.Prelude.{◌≡◌, ◌<◌, drop, false};
ghost use Rattle.std.specs.Fmt.{digits, digit_glyph};

// The digit, in lower case.
fn hex_digit(value: u8) -> u8
    requires { value < 16 }
    ensures { result ≡ digit_glyph false value }
{
    if value < 10 {
        b'0' + value
    } else {
        b'a' + (value - 10)
    }
}

/// Writes a number's hex digits, with no leading zeros, to the end of the buffer, and answers where
/// they begin.
#[tactic(auto, using(crate::proofs::HexDigits::none_written, crate::proofs::HexDigits::all_written))]
pub fn put_hex_number(number: u64, buffer: &mut [u8; 16]) -> usize
    ensures start { result < 16 }
    ensures digits { drop result buffer.new ≡ digits 16 false number }
{
    let mut start = 16;
    let mut rest = number;
    loop {
        start -= 1;
        buffer[start] = hex_digit((rest % 16) as u8);
        rest /= 16;
        if rest == 0 {
            return start;
        }
    }
}
