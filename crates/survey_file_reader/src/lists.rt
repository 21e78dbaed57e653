// The lists of a survey file, each to the first places of its area.
ghost use Rattle.std.specs.Prelude.{◌≡◌, ◌*◌, ◌≤◌, length, take, drop};
ghost use Rattle.std.specs.Float.{nan, binary64};
ghost use Rattle.std.specs.Float.Ieee.{of_bits};
ghost use Rattle.area.specs.Area.{copied};
ghost use Rattle.ieee.specs.Bytes.{f64s_in};
ghost use Rattle.patterns.specs.Words.{word_at};

use patterns::{float, word};

// The number in the 8 bytes from `at` on: a NaN's pattern is the one NaN.
pub(crate) fn number_at(bytes: &[u8], at: usize) -> f64
    ensures { result ≡ of_bits binary64 (word_at bytes.now at) }
{
    float(word(bytes, at))
}

// So many numbers, 8 bytes each, from the first byte on. The answer is the bytes after them.
// kept: the area and how much of it is filled, since of a part of an area in a struct that is lent a proof knows the length alone after a call: with
// `&mut areas.values[..n]` the goal `c.areas-1.given.0 ≡ copied nan (part 5 n ..) area` of read_lists stayed open.
pub(crate) fn read_numbers<'a>(bytes: &'a [u8], count: usize, list: &mut [f64]) -> &'a [u8]
    requires { (8 * count ≤ length bytes.now) × (count ≤ length list.old) }
    ensures list { list.new ≡ copied nan (f64s_in count bytes.now) list.old }
    ensures rest { result.now ≡ drop (8 * count) bytes.now }
{
    for i in 0..count {
        list[i] = number_at(bytes, 8 * i);
    }
    &bytes[8 * count..]
}

// So many codes, a byte each, from the first byte on.
pub(crate) fn read_codes(bytes: &[u8], count: usize, list: &mut [u8])
    requires { (count ≤ length bytes.now) × (count ≤ length list.old) }
    ensures { list.new ≡ copied 0 (take count bytes.now) list.old }
{
    // kept: code after code, since a copy of one slice to another asks the C library for `memmove`, which the archive did not need
    for i in 0..count {
        list[i] = bytes[i];
    }
}
