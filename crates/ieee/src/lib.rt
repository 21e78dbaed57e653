// Floating-point functions that the Rust takes from its standard library, worked out by the program.
#![tactic(auto)]

ghost use Rattle.std.specs.Prelude.{◌≡◌, ◌+◌, ◌*◌, ◌/◌, ◌^◌, ◌<◌, ◌≤◌, true, false, T, ◌==◌};
ghost use Rattle.std.specs.Float.Ieee.Scale.{finite};
ghost use Rattle.std.specs.Float.Ieee.Positive.{positive};
ghost use Rattle.ieee.specs.Finite.{all_finite};
ghost use Rattle.ieee.specs.Floats.{abs_of, max_of, min_of, floor_of};
ghost use Rattle.ieee.specs.Values.{multiple, sign_of};
ghost use Rattle.ieee.specs.Root.{whole_root, root_of, sqrt_of, Normalised};
ghost use Rattle.ieee.specs.Whole.{WholeBits};

// Whether x is neither a NaN nor an infinity: only those two differ from themselves after a subtraction.
pub fn is_finite(x: f64) -> bool
    ensures { result ≡ finite x }
{
    x - x == 0.0
}

// Whether every number of a list is finite. The first that is not decides.
pub fn all_finite(xs: &[f64]) -> bool
    ensures { result ≡ all_finite xs.now }
{
    xs.iter().all(|x| is_finite(*x))
}

// The magnitude of x: its sign is cleared, a zero's too. A NaN stays one.
pub fn abs(x: f64) -> f64
    ensures { result ≡ abs_of x }
{
    if x < 0.0 {
        return -x;
    }
    if x == 0.0 {
        return 0.0;
    }
    x
}

// x where x > y, and y otherwise.
// kept: it and `min` are one line each, an operator apart; one function for both would take the comparison, and be longer than the two and no plainer
pub fn max(x: f64, y: f64) -> f64
    ensures { result ≡ max_of x y }
{
    if x > y { x } else { y }
}

// x where x < y, and y otherwise.
pub fn min(x: f64, y: f64) -> f64
    ensures { result ≡ min_of x y }
{
    if x < y { x } else { y }
}

// A significand with its leading one at bit 52, and a power of two.
#[derive(Clone, Copy)]
struct Scaled {
    significand: u64,
    exponent: u64,
}

// The number that an exponent field and a fraction stand for, times 2^1074, with its significand brought up to 53 bits:
// a subnormal one by the count of its leading zeros.
fn normalised(field: u64, fraction: u64) -> Scaled
    requires { (field < 2047) × (fraction < 2 ^ 52) × (0 < field + fraction) }
    ensures { Normalised field fraction result.significand result.exponent }
{
    if field == 0 {
        let shift = fraction.leading_zeros() as u64 - 11;
        return Scaled {
            significand: fraction << shift,
            exponent: 1074 - shift,
        };
    }
    Scaled {
        significand: 0x10_0000_0000_0000 + fraction,
        exponent: 1073 + field,
    }
}

// The whole root of n * 2^54, 54 binary digits, each from the next two digits of the operand, the highest first.
// The rest, what the square of the root leaves of the digits taken so far, is at most twice the root.
fn root_digits(n: u64) -> u64
    requires { n < 2 ^ 54 }
    ensures { result ≡ whole_root 54 (n * 2 ^ 54) }
{
    let mut digits = n * 0x400;
    let mut rest: u64 = 0;
    let mut root: u64 = 0;
    for _ in 0..54u64 {
        rest = rest * 4 + digits / 0x4000_0000_0000_0000;
        digits = digits % 0x4000_0000_0000_0000 * 4;
        if root * 4 + 1 <= rest {
            rest = rest - (root * 4 + 1);
            root = root * 2 + 1;
        } else {
            root = root * 2;
        }
    }
    root
}

// (r * r + more) / 2^54, by the halves of r, of 27 digits each: the square of r may pass a word, and no product of its halves does.
fn square_part(r: u64, more: u64) -> u64
    requires { (r < 2 ^ 55) × (more < 2 ^ 57) }
    ensures { result ≡ (r * r + more) / 2 ^ 54 }
{
    let high = r / 0x800_0000;
    let low = r % 0x800_0000;
    let middle = high * low * 2 + (low * low + more) / 0x800_0000;
    high * high + middle / 0x800_0000
}

// Whether r is the whole root of n * 2^54: its square, rounded up to a multiple of 2^54, is not above that,
// and the last number before the next square, r * r + 2 * r, not below it.
fn is_root(n: u64, r: u64) -> bool
    requires { (n < 2 ^ 54) × (r < 2 ^ 55) }
    ensures { result ≡ (r == whole_root 54 (n * 2 ^ 54)) }
{
    if square_part(r, 0x3f_ffff_ffff_ffff) > n {
        return false;
    }
    n <= square_part(r, 2 * r)
}

// A guess of 1 / √m, 6 in a hundred off at most: a straight line from 1 to 2, 1.2235 - m / 4, and one from 2 to 4, 0.9735 - m / 8.
// Here and below m counts 2^-30 and a guess 2^-32. What a guess is worth, `is_root` says: no more is proved of it than that it fits.
fn first_guess(m: u64) -> u64
    requires { (2 ^ 30 ≤ m) × (m < 2 ^ 32) }
    ensures { result < 2 ^ 32 }
{
    if m < 0x8000_0000 {
        return 0x1_3937_4bc6 - m;
    }
    0xf937_4bc6 - m / 2
}

// Newton's step from a guess y of 1 / √m to one with twice the digits, y * (3 - m * y * y) / 2. The divisions take less than two units from m * y * y,
// so the 3 is two units less: no guess comes out above 1 / √m. The remainders by 2^32, and 2^32 on top of the 3, change no good guess and make any fit.
fn better_guess(m: u64, y: u64) -> u64
    requires { (m < 2 ^ 32) × (y < 2 ^ 32) }
    ensures { result < 2 ^ 32 }
{
    let square = y * y / 0x1_0000_0000;
    let product = square * m / 0x1_0000_0000;
    let factor = (0x1_bfff_fffe - product) % 0x1_0000_0000;
    y * factor / 0x8000_0000 % 0x1_0000_0000
}

// A guess of the whole root of n * 2^54, right or 1 too small. Its first 32 digits are m / √m, for m the first 32 digits of n,
// and the other 22 what the square of those leaves of n, without its last 5 digits, for the product to fit, times half of 1 / √m.
fn guessed_root(n: u64) -> u64
    requires { (2 ^ 52 ≤ n) × (n < 2 ^ 54) }
    ensures { result < 2 ^ 54 + 2 ^ 27 }
{
    let m = n / 0x40_0000;
    let y = better_guess(m, better_guess(m, better_guess(m, first_guess(m))));
    let first = m * y / 0x8000_0000 % 0x1_0000_0000;
    let rest = (n * 0x400).wrapping_sub(first * first);
    first * 0x40_0000 + rest / 0x20 % 0x1_0000_0000 * y / 0x20_0000_0000
}

// The whole root of n * 2^54: the guess or the number above it where that passes the test, and else digit by digit.
fn whole_root(n: u64) -> u64
    requires { (2 ^ 52 ≤ n) × (n < 2 ^ 54) }
    ensures { result ≡ whole_root 54 (n * 2 ^ 54) }
{
    let guess = guessed_root(n);
    if is_root(n, guess) {
        return guess;
    }
    let next = guess + 1;
    if is_root(n, next) {
        return next;
    }
    root_digits(n)
}

// The f64 nearest the root of x. The root of an even power of two times n is that of n times half the power; its 54th digit
// rounds the first 53, since no root lies half-way between two f64.
fn nearest_root(x: f64) -> f64
    requires { T (positive x) }
    ensures { result ≡ root_of (multiple x) }
{
    let bits = x.to_bits();
    let scaled = normalised(bits / 0x10_0000_0000_0000, bits % 0x10_0000_0000_0000);
    let half = scaled.exponent / 2;
    let root = whole_root(scaled.significand * (1 + scaled.exponent % 2));
    f64::from_bits((half - 26) * 0x10_0000_0000_0000 + (root + 1) / 2)
}

// The f64 nearest the square root of x. A zero is its own root with its sign, infinity is infinity's,
// and below zero and at a NaN there is none.
pub fn sqrt(x: f64) -> f64
    ensures { result ≡ sqrt_of x }
{
    if x == 0.0 {
        return x;
    }
    if x > 0.0 {
        if is_finite(x) {
            return nearest_root(x);
        }
        return x;
    }
    0.0 / 0.0
}

// The pattern of the whole part of a number that is not negative, from its own pattern. Below 1, whose exponent field is 1023,
// it is 0; from the field 1075 on, where the last digit counts 1, it is the number itself; between, the digits of the fraction are cleared.
fn whole_bits(bits: u64) -> u64
    requires { bits < 2047 * 2 ^ 52 }
    ensures { WholeBits bits result }
{
    let field = bits / 0x10_0000_0000_0000;
    if field < 1023 {
        return 0;
    }
    if field < 1075 {
        let step = 1u64 << (1075 - field);
        return bits - bits % step;
    }
    bits
}

// The whole part of a finite x that is not negative.
fn whole_part(x: f64) -> f64
    requires { T (finite x) × (sign_of x ≡ false) }
    ensures { result ≡ floor_of x }
{
    f64::from_bits(whole_bits(x.to_bits()))
}

// The greatest whole number not above x, for a finite negative x: x itself, or 1 below its whole part.
fn floor_negative(x: f64) -> f64
    requires { T (finite x) × (sign_of x ≡ true) }
    ensures { result ≡ floor_of x }
{
    let whole = whole_part(-x);
    if whole == -x {
        return x;
    }
    -1.0 - whole
}

// The greatest whole number not above x. A zero keeps its sign; infinities and a NaN stay.
pub fn floor(x: f64) -> f64
    ensures { result ≡ floor_of x }
{
    if is_finite(x) {
        if x > 0.0 {
            return whole_part(x);
        }
        if x < 0.0 {
            return floor_negative(x);
        }
    }
    x
}
