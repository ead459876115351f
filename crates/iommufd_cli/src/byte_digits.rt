//! Digits of bytes in hex: two for each, the high four bits first.

ghost use Rattle.std.specs.Prelude.{◌≡◌, ◌≤◌, ◌<◌, ◌+◌, ◌*◌, ◌++◌};
ghost use Rattle.std.specs.Prelude.{IfOk, length, map, slice_index};
ghost use Rattle.std.specs.Simd.Lanes.{Each1, chunk, put_chunk};
ghost use Rattle.hex.specs.Hex.{encode_lower, lower_digits};

use iofd_words::NoMemory;
use std::alloc::Allocator;
use std::simd::prelude::*;

// The digits of each byte, from 0 on. A look here takes fewer instructions than one for each digit.
const PAIRS: &[u8; 512] = b"000102030405060708090a0b0c0d0e0f\
    101112131415161718191a1b1c1d1e1f\
    202122232425262728292a2b2c2d2e2f\
    303132333435363738393a3b3c3d3e3f\
    404142434445464748494a4b4c4d4e4f\
    505152535455565758595a5b5c5d5e5f\
    606162636465666768696a6b6c6d6e6f\
    707172737475767778797a7b7c7d7e7f\
    808182838485868788898a8b8c8d8e8f\
    909192939495969798999a9b9c9d9e9f\
    a0a1a2a3a4a5a6a7a8a9aaabacadaeaf\
    b0b1b2b3b4b5b6b7b8b9babbbcbdbebf\
    c0c1c2c3c4c5c6c7c8c9cacbcccdcecf\
    d0d1d2d3d4d5d6d7d8d9dadbdcdddedf\
    e0e1e2e3e4e5e6e7e8e9eaebecedeeef\
    f0f1f2f3f4f5f6f7f8f9fafbfcfdfeff";

// How many bytes are written together.
const STRIDE: usize = 16;

// The digits of sixteen values. A decimal one lies 48 above its value, and a letter 39 further, which is added or not
// without a branch.
fn digits_of(values: u8x16) -> u8x16
    requires { Each1 (λ value. value < 16) values }
    ensures { result ≡ map (slice_index lower_digits) values }
{
    let further = values
        .simd_gt(u8x16::splat(9))
        .select(u8x16::splat(39), u8x16::splat(0));
    values + u8x16::splat(48) + further
}

// The digits of sixteen bytes: those of the first eight, and those of the others.
fn digits_of_bytes(bytes: u8x16) -> (u8x16, u8x16)
    ensures { result.0 ++ result.1 ≡ encode_lower bytes }
{
    let high = digits_of(bytes >> u8x16::splat(4));
    let low = digits_of(bytes & u8x16::splat(15));
    high.interleave(low)
}

// Writes the digits of the sixteen bytes from this place on to where they belong in the buffer.
fn put_sixteen(bytes: &[u8], at: usize, buffer: &mut [u8])
    requires within { at + 16 ≤ length bytes.now }
    requires room { length buffer.old ≡ 2 * length bytes.now }
    ensures { buffer.new ≡ put_chunk (2 * at) buffer.old (encode_lower (chunk at 16 bytes.now)) }
{
    let (front, back) = digits_of_bytes(u8x16::from_slice(&bytes[at..]));
    front.copy_to_slice(&mut buffer[2 * at..]);
    back.copy_to_slice(&mut buffer[2 * at + 16..]);
}

// Writes the digits of sixteen bytes or more. The last stride overlaps the one before.
fn put_many(bytes: &[u8], buffer: &mut [u8])
    requires many { 16 ≤ length bytes.now }
    requires room { length buffer.old ≡ 2 * length bytes.now }
    ensures { buffer.new ≡ encode_lower bytes.now }
{
    let last = bytes.len() - STRIDE;
    let mut done = 0;
    while done < last {
        put_sixteen(bytes, done, buffer);
        done += STRIDE;
    }
    put_sixteen(bytes, last, buffer);
}

// Writes the digits of a few bytes, one after another.
fn put_few(bytes: &[u8], buffer: &mut [u8])
    requires { length buffer.old ≡ 2 * length bytes.now }
    ensures { buffer.new ≡ encode_lower bytes.now }
{
    for i in 0..bytes.len() {
        let place = 2 * bytes[i] as usize;
        buffer[2 * i] = PAIRS[place];
        buffer[2 * i + 1] = PAIRS[place + 1];
    }
}

/// Writes the digits of bytes, which fill the buffer.
pub fn put_hex_bytes(bytes: &[u8], buffer: &mut [u8])
    requires { length buffer.old ≡ 2 * length bytes.now }
    ensures { buffer.new ≡ encode_lower bytes.now }
{
    if bytes.len() < STRIDE {
        put_few(bytes, buffer);
    } else {
        put_many(bytes, buffer);
    }
}

/// The digits of bytes, which may be many: so they take memory, and fail only where that does.
pub fn hex_digits<A: Allocator>(alloc: A, bytes: &[u8]) -> Result<Vec<u8, A>, NoMemory>
    ensures { IfOk result (λ digits. digits.items ≡ encode_lower bytes.now) }
{
    let mut digits = Vec::new(alloc);
    digits.resize(bytes.len() * 2, 0)?;
    put_hex_bytes(bytes, &mut digits);
    Ok(digits)
}
