//! Little-endian numbers at the front of bytes. None is answered of too few bytes.

ghost use Rattle.std.specs.Prelude.{◌≡◌, option_map};
ghost use Rattle.std.specs.Int.{w8, w16, w32, w64};
ghost use Rattle.journal_audit_bytes.specs.Reading.{number_at};

// The number at the front, and the bytes after it.
pub fn u8_at(bytes: &[u8]) -> Option<(u8, &[u8])>
    ensures { number_at w8 bytes.now ≡ option_map (λ x. (x.0, x.1.now)) result }
{
    match bytes {
        [] => None,
        [byte, rest @ ..] => Some((*byte, rest)),
    }
}

pub fn u16_at(bytes: &[u8]) -> Option<(u16, &[u8])>
    ensures { number_at w16 bytes.now ≡ option_map (λ x. (x.0, x.1.now)) result }
{
    if bytes.len() < 2 {
        return None;
    }
    let (front, rest) = bytes.split_at(2);
    Some((u16::from_le_bytes([front[0], front[1]]), rest))
}

pub fn u32_at(bytes: &[u8]) -> Option<(u32, &[u8])>
    ensures { number_at w32 bytes.now ≡ option_map (λ x. (x.0, x.1.now)) result }
{
    if bytes.len() < 4 {
        return None;
    }
    let (front, rest) = bytes.split_at(4);
    let number = u32::from_le_bytes([front[0], front[1], front[2], front[3]]);
    Some((number, rest))
}

pub fn u64_at(bytes: &[u8]) -> Option<(u64, &[u8])>
    ensures { number_at w64 bytes.now ≡ option_map (λ x. (x.0, x.1.now)) result }
{
    if bytes.len() < 8 {
        return None;
    }
    let (front, rest) = bytes.split_at(8);
    let number = u64::from_le_bytes([
        front[0], front[1], front[2], front[3], front[4], front[5], front[6], front[7],
    ]);
    Some((number, rest))
}
