//! Heads, worked by hand from the format.

// Of version 1: a pool of two frames, a user with a limit of one page, a file of this user, no device, one pass.
pub const SMALL: &[u8] = b"IOFDJNL1\x02\0\0\0\x01\0\x01\0\0\0\0\0\0\0\x01\0\x01\0\0\0\x01\0";

// Of version 1: a pool of sixteen frames; users with limits of 8 and 2 pages; files of user 1 and user 2; an x86 device
// 0x0010 of width 39 with the reserved spans 0x4000 to 0x4fff and 0x10000 to 0x11fff; a device 0x0100 of width 48;
// three passes.
pub const LARGE: &[u8] = b"IOFDJNL1\x10\0\0\0\
      \x02\0\x08\0\0\0\0\0\0\0\x02\0\0\0\0\0\0\0\
      \x02\0\x01\0\x02\0\
      \x02\0\
      \x10\0\x27\x01\x02\0\0\x40\0\0\0\0\0\0\xff\x4f\0\0\0\0\0\0\0\0\x01\0\0\0\0\0\xff\x1f\x01\0\0\0\0\0\
      \0\x01\x30\0\0\0\
      \x03\0";

// What stands in the bytes behind a head of version 2 that is this one of version 1 but for its mark.
pub fn behind_head<'a>(bytes: &'a [u8], head: &[u8]) -> Option<&'a [u8]> {
    let settings = head.strip_prefix(b"IOFDJNL1")?;
    let rest = bytes.strip_prefix(b"IOFDJNL2")?;
    rest.strip_prefix(settings)
}
