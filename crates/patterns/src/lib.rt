// Numbers as bytes and f64 by their patterns: words of 64 bits, lowest byte first. All NaNs are one float, with one pattern of its own.
#![tactic(auto)]

ghost use Rattle.std.specs.Prelude.{◌≡◌, ◌<◌, ◌^◌, min};
ghost use Rattle.std.specs.Float.{binary64};
ghost use Rattle.std.specs.Float.Ieee.{of_bits, to_bits};
ghost use Rattle.patterns.specs.Words.{number_at, word_at};

use std::num::{f64_from_bits_with_nan, f64_to_bits_with_nan};

// The number in the `width` bytes from `at` on: its lowest byte comes first, and a byte past the end counts as 0. Where more than 8 bytes are asked for,
// the first 8 count.
pub fn number(bytes: &[u8], at: usize, width: usize) -> u64
    ensures { (result ≡ number_at bytes.now at (min width 8)) × (result < 256 ^ min width 8) }
{
    let rest = bytes.get(at..).unwrap_or(&[]);
    let count = width.min(8).min(rest.len());
    let mut word = [0u8; 8];
    word[..count].copy_from_slice(&rest[..count]);
    u64::from_le_bytes(word)
}

// The word in the 8 bytes from `at` on.
pub fn word(bytes: &[u8], at: usize) -> u64
    ensures { result ≡ word_at bytes.now at }
{
    match bytes.get(at..).unwrap_or(&[]).first_chunk::<8>() {
        Some(eight) => u64::from_le_bytes(*eight),
        None => number(bytes, at, 8),
    }
}

// The float of a bit pattern: every pattern of a NaN is one.
pub fn float(pattern: u64) -> f64
    ensures { result ≡ of_bits binary64 pattern }
{
    f64_from_bits_with_nan(pattern)
}

// The pattern of a float: a NaN has 7ff8000000000000 here.
pub fn pattern(x: f64) -> u64
    ensures { result ≡ to_bits binary64 x }
{
    f64_to_bits_with_nan(x)
}
