//! Numbers in digits.

ghost use Rattle.std.specs.Prelude.{◌≡◌, ◌<◌, ◌≤◌, ◌^◌, ◌*◌, ◌+◌, ◌&&◌, nat_lt, length, slice_index_or};
ghost use Rattle.std.specs.Prelude.{IsFalse, IsTrue};
ghost use Rattle.std.specs.Prelude.{if◌then◌else◌, Some, None};
ghost use Rattle.std.specs.Char.{digit_value};
ghost use Rattle.iommufd_script.specs.Digits.{decimal, hexadecimal};
ghost use Rattle.iommufd_script.specs.Fields.{field_value};

// The value of each byte as a digit: 0 to 9, then the letters of either case from 10 on; 36 for any other byte.
static DIGIT_VALUES: [u8; 256] = [
    36, 36, 36, 36, 36, 36, 36, 36, 36, 36, 36, 36, 36, 36, 36, 36, 36, 36, 36, 36, 36, 36, 36, 36,
    36, 36, 36, 36, 36, 36, 36, 36, 36, 36, 36, 36, 36, 36, 36, 36, 36, 36, 36, 36, 36, 36, 36, 36,
    0, 1, 2, 3, 4, 5, 6, 7, 8, 9, 36, 36, 36, 36, 36, 36, 36, 10, 11, 12, 13, 14, 15, 16, 17, 18,
    19, 20, 21, 22, 23, 24, 25, 26, 27, 28, 29, 30, 31, 32, 33, 34, 35, 36, 36, 36, 36, 36, 36, 10,
    11, 12, 13, 14, 15, 16, 17, 18, 19, 20, 21, 22, 23, 24, 25, 26, 27, 28, 29, 30, 31, 32, 33, 34,
    35, 36, 36, 36, 36, 36, 36, 36, 36, 36, 36, 36, 36, 36, 36, 36, 36, 36, 36, 36, 36, 36, 36, 36,
    36, 36, 36, 36, 36, 36, 36, 36, 36, 36, 36, 36, 36, 36, 36, 36, 36, 36, 36, 36, 36, 36, 36, 36,
    36, 36, 36, 36, 36, 36, 36, 36, 36, 36, 36, 36, 36, 36, 36, 36, 36, 36, 36, 36, 36, 36, 36, 36,
    36, 36, 36, 36, 36, 36, 36, 36, 36, 36, 36, 36, 36, 36, 36, 36, 36, 36, 36, 36, 36, 36, 36, 36,
    36, 36, 36, 36, 36, 36, 36, 36, 36, 36, 36, 36, 36, 36, 36, 36, 36, 36, 36, 36, 36, 36, 36, 36,
    36, 36, 36, 36, 36, 36, 36, 36, 36, 36, 36, 36, 36, 36,
];

// The value of a digit, and 36 for any other byte. The table spares branches, which each byte of a script would take.
pub fn digit_of(c: u8) -> u8
    ensures value { result ≡ digit_value c }
    ensures within { result ≤ 36 }
{
    DIGIT_VALUES[c as usize]
}

// The number with one more decimal digit; None where the byte is no such digit, or the number would be 2^64 or more.
fn with_decimal(number: u64, c: u8) -> Option<u64>
    ensures { let next = number * 10 + digit_value c in
        result ≡ (if nat_lt (digit_value c) 10 && nat_lt next (2 ^ 64) then Some next else None) }
{
    let digit = digit_of(c);
    if digit >= 10 {
        return None;
    }
    number.checked_mul(10)?.checked_add(u64::from(digit))
}

// Whether the first field of the line, which goes up to this place at least, ends there.
fn is_field_end(line: &[u8], end: usize) -> bool
    requires { end ≤ length line.now }
    ensures yes { IsTrue result → end < length line.now → slice_index_or line.now end 0 ≡ 32 }
    ensures no { IsFalse result → (end < length line.now) × (slice_index_or line.now end 0 ≡ 32 → ⊥) }
{
    end == line.len() || line[end] == b' '
}

// The decimal number below 2^64 that the first field of a line is, and where the field ends.
pub fn decimal_field(line: &[u8]) -> Option<(u64, usize)>
    ensures { result ≡ field_value (decimal 64) line.now }
{
    let mut number: u64 = 0;
    let mut end = 0;
    while end < line.len() && digit_of(line[end]) < 10 {
        number = with_decimal(number, line[end])?;
        end += 1;
    }
    if end == 0 {
        return None;
    }
    if is_field_end(line, end) {
        Some((number, end))
    } else {
        None
    }
}

// The same of a number of at most 16 hexadecimal digits: behind them the field has to end. It stands apart from its
// callers, so that its loop keeps no values of theirs.
#[inline(never)]
pub fn hexadecimal_field(line: &[u8]) -> Option<(u64, usize)>
    ensures { result ≡ field_value (hexadecimal 64) line.now }
{
    let most = line.len().min(16);
    let mut number: u64 = 0;
    let mut end = 0;
    while end < most && digit_of(line[end]) < 16 {
        number = number * 16 + u64::from(digit_of(line[end]));
        end += 1;
    }
    if end == 0 {
        return None;
    }
    if is_field_end(line, end) {
        Some((number, end))
    } else {
        None
    }
}

// The number below 2^64 of at most 16 hexadecimal digits.
pub fn hexadecimal_u64(text: &[u8]) -> Option<u64>
    ensures { result ≡ hexadecimal 64 text.now }
{
    if text.len() > 16 {
        return None;
    }
    if text.is_empty() {
        return None;
    }
    let mut number: u64 = 0;
    for c in text {
        let digit = digit_of(*c);
        if digit >= 16 {
            return None;
        }
        number = number * 16 + u64::from(digit);
    }
    Some(number)
}

// The number below 2^16 of at most 16 hexadecimal digits.
#[tactic(auto, unfolding(crate::specs::Digits::number_of))]
pub fn hexadecimal_u16(text: &[u8]) -> Option<u16>
    ensures { result ≡ hexadecimal 16 text.now }
{
    u16::try_from(hexadecimal_u64(text)?).ok()
}
