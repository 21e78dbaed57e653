// Numbers as bytes of a file, at the place that is next in it.
ghost use Rattle.std.specs.Prelude.{T};
ghost use Rattle.ieee.specs.Bytes.{all_fit, f64_bytes};
ghost use Rattle.area.specs.Cursor.{HasRoom, Puts};
ghost use Rattle.area.specs.Placed.{Room, Put};

use area::Cursor;

// Numbers by their patterns, 8 bytes each, the lowest first, from the place `at` on; the place past them. The area and the place are taken apart, so that
// neither is loaded and stored again for each number.
fn fill(numbers: &[f64], area: &mut [u8], at: usize) -> usize
    requires { Room at (f64_bytes numbers.now) area.old }
    ensures { Put at (f64_bytes numbers.now) area.old result area.new }
{
    let mut next = at;
    for number in numbers {
        area[next..next + 8].copy_from_slice(&patterns::pattern(*number).to_le_bytes());
        next += 8;
    }
    next
}

// Numbers by their patterns, 8 bytes each, the lowest first. Every number that is handed over is an f64.
pub(crate) fn put_numbers(numbers: &[f64], place: &mut Cursor<'_>)
    requires { HasRoom (f64_bytes numbers.now) place.old }
    ensures put { Puts (f64_bytes numbers.now) place.old place.new }
    ensures fit { T (all_fit numbers.now) }
{
    place.at = fill(numbers, place.area, place.at);
}
