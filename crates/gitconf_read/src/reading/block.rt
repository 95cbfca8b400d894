//! Sixteen bytes of a text, looked at at once.
ghost use Rattle.std.specs.Prelude.{◌≡◌, ◌≤◌, ◌<◌, ◌+◌, ◌==◌, ℕ, true, false, length, slice_index};
ghost use Rattle.std.specs.Int.{bit_at};
ghost use Rattle.gitconf_read.specs.Reading.{is_plain, is_spelled};

use std::simd::prelude::*;

/// How many bytes are looked at at once.
pub const BLOCK: usize = 16;

/// The bytes of the block at an offset.
#[inline(always)]
fn bytes_at(input: &[u8], at: usize) -> u8x16
    requires { at + 16 ≤ length input.now }
    ensures { (k : ℕ) → k < 16 → slice_index result k ≡ slice_index input.now (at + k) }
{
    u8x16::from_slice(&input[at..])
}

/// A bit for each byte of a block that is this one.
#[inline(always)]
fn equal(bytes: u8x16, byte: u8) -> u64
    ensures { (k : ℕ) → k < 16 → bit_at result k ≡ 0 → (slice_index bytes k == byte) ≡ false }
{
    bytes.simd_eq(u8x16::splat(byte)).to_bitmask()
}

/// A bit for each byte of a block that is this one or a smaller one.
#[inline(always)]
fn at_most(bytes: u8x16, byte: u8) -> u64
    ensures { (k : ℕ) → k < 16 → bit_at result k ≡ 0 → byte < slice_index bytes k }
{
    bytes.simd_le(u8x16::splat(byte)).to_bitmask()
}

/// The place of the lowest of the first sixteen bits that is set, or 16 if none is.
#[inline(always)]
fn lowest(bits: u64) -> usize
    ensures bound { result ≤ 16 }
    ensures below { (k : ℕ) → k < result → bit_at bits k ≡ 0 }
{
    (bits | 0x1_0000).trailing_zeros() as usize
}

/// How many bytes of a block come before the first special one. The block is that at an offset. Special is what might not stand for
/// itself in a value; all control bytes, and `!`, count as such.
#[inline(always)]
pub fn plain_front(input: &[u8], at: usize) -> usize
    requires { at + 16 ≤ length input.now }
    ensures bound { result ≤ 16 }
    ensures plain { (k : ℕ) → k < result → is_plain (slice_index input.now (at + k)) ≡ true }
{
    let bytes = bytes_at(input, at);
    lowest(at_most(bytes, b'#') | equal(bytes, b';') | equal(bytes, b'\\'))
}

/// How many bytes of a block come before the first special one. The block is that at an offset. Special is what doesn't stand for
/// itself between the quotes of a header.
#[inline(always)]
pub fn spelled_front(input: &[u8], at: usize) -> usize
    requires { at + 16 ≤ length input.now }
    ensures bound { result ≤ 16 }
    ensures spelled { (k : ℕ) → k < result → is_spelled (slice_index input.now (at + k)) ≡ true }
{
    let bytes = bytes_at(input, at);
    lowest(equal(bytes, b'"') | equal(bytes, b'\\') | equal(bytes, b'\n'))
}

/// How many bytes of the block at an offset precede the first CR or LF.
#[inline(always)]
pub fn line_front(input: &[u8], at: usize) -> usize
    requires { at + 16 ≤ length input.now }
    ensures bound { result ≤ 16 }
    ensures no_lf { (k : ℕ) → k < result → (slice_index input.now (at + k) == 10) ≡ false }
    ensures no_cr { (k : ℕ) → k < result → (slice_index input.now (at + k) == 13) ≡ false }
{
    let bytes = bytes_at(input, at);
    lowest(equal(bytes, b'\r') | equal(bytes, b'\n'))
}
