//! The bytes of one frame.

ghost use Rattle.std.specs.Prelude.{◌≡◌, ◌≤◌, ◌+◌, length};
ghost use Rattle.std.specs.List.{splice};
ghost use Rattle.std.specs.Int.{w64, from_le_bytes};
ghost use Rattle.frame_memory.specs.Pool.{zeros};

/// What is read of a frame that wasn't written so far.
pub static ZEROS: [u8; 4096] = [0; 4096];

// The bytes of a frame that reads zero.
pub fn zero_bytes() -> [u8; 4096]
    ensures { result ≡ zeros }
{
    [0; 4096]
}

// Puts these bytes in the place of as many others, from the offset on.
pub fn overwrite(bytes: &mut [u8], offset: usize, new: &[u8])
    requires { offset + length new.now ≤ length bytes.old }
    ensures { bytes.new ≡ splice bytes.old offset (offset + length new.now) new.now }
{
    bytes[offset..offset + new.len()].copy_from_slice(new);
}

// The little-endian number of eight bytes.
pub fn word_of(bytes: &[u8]) -> u64
    requires { length bytes.now ≡ 8 }
    ensures { result ≡ from_le_bytes w64 bytes.now }
{
    u64::from_le_bytes([
        bytes[0], bytes[1], bytes[2], bytes[3], bytes[4], bytes[5], bytes[6], bytes[7],
    ])
}
