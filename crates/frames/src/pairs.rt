// The bytes that the pairs of characters at a line's front make: worked out side by side where enough characters are held.
ghost use Rattle.std.specs.Prelude.{◌+◌, ◌*◌, ◌/◌, ◌≤◌, length, min, slice_index, bit_or};
ghost use Rattle.frames.specs.Pairs.{HasLanes, HoldsPairs, worth, byte_by};

use crate::BASE;
use crate::digits::digit;
use std::simd::prelude::*;

// The bytes that are worked out side by side, and their characters.
pub(crate) const SIDE: usize = 8;

pub(crate) const FRONT: usize = 2 * SIDE;

// The bytes that the first pairs of characters make, and for each what its two digits have in common.
#[derive(Clone, Copy)]
pub(crate) struct Pairs {
    pub(crate) bytes: [u8; SIDE],
    pub(crate) common: [u8; SIDE],
}

// What each of the first characters is worth, as `digit` works it out of one.
#[inline(always)]
fn worths(held: &[u8]) -> u8x16
    requires { 16 ≤ length held.now }
    ensures { HasLanes 16 result (λ k. worth (slice_index held.now k)) }
{
    let held = u8x16::from_slice(held);
    let decimal = held - u8x16::splat(b'0');
    let letter = (held - u8x16::splat(b'A')).saturating_add(u8x16::splat(10));
    decimal.simd_lt(u8x16::splat(10)).select(decimal, letter)
}

// The first digit of each pair.
#[inline(always)]
fn high_digits(worths: u8x16) -> u8x8
    ensures { HasLanes 8 result (λ k. slice_index worths (2 * k)) }
{
    worths.swizzle([0, 2, 4, 6, 8, 10, 12, 14])
}

// The second digit of each pair.
#[inline(always)]
fn low_digits(worths: u8x16) -> u8x8
    ensures { HasLanes 8 result (λ k. slice_index worths (2 * k + 1)) }
{
    worths.swizzle([1, 3, 5, 7, 9, 11, 13, 15])
}

// The byte of each pair, by its first and its second digit.
#[inline(always)]
fn joined(high: u8x8, low: u8x8) -> u8x8
    ensures { HasLanes 8 result (λ k. byte_by (slice_index high k) (slice_index low k)) }
{
    high * u8x8::splat(BASE) + low
}

// What both digits of each pair have in common.
#[inline(always)]
fn in_common(high: u8x8, low: u8x8) -> u8x8
    ensures { HasLanes 8 result (λ k. bit_or (slice_index high k) (slice_index low k)) }
{
    high | low
}

// The bytes at the front, several of them side by side.
#[inline(always)]
pub(crate) fn side_by_side(held: &[u8]) -> Pairs
    requires { 16 ≤ length held.now }
    ensures { HoldsPairs 8 held.now result.bytes result.common }
{
    let worths = worths(held);
    let high = high_digits(worths);
    let low = low_digits(worths);
    Pairs {
        bytes: joined(high, low).to_array(),
        common: in_common(high, low).to_array(),
    }
}

// The bytes at a line's front, one after the other.
pub(crate) fn one_by_one(line: &[u8]) -> Pairs
    ensures { HoldsPairs (min 8 (length line.now / 2)) line.now result.bytes result.common }
{
    let mut bytes = [0; SIDE];
    let mut common = [0; SIDE];
    for k in 0..SIDE.min(line.len() / 2) {
        let high = digit(line[2 * k]);
        let low = digit(line[2 * k + 1]);
        bytes[k] = BASE.wrapping_mul(high).wrapping_add(low);
        common[k] = high | low;
    }
    Pairs { bytes, common }
}
