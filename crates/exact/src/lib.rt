// Exact sums of products of f64, in 67 words of 64 bits, in two's complement: nothing is ever rounded.
// The unit is 2^-2148, the product of two of the smallest f64 above zero.
#![tactic(auto)]

ghost use Rattle.std.specs.Prelude.{◌≡◌, ◌+◌, ◌*◌, ◌^◌, ◌<◌, ◌≤◌, pos, ◌+ℤ◌, ◌-ℤ◌, ◌*ℤ◌};
ghost use Rattle.std.specs.Int.{from_bool};
ghost use Rattle.ieee.specs.Values.{signed};
ghost use Rattle.exact.specs.Units.{units};
ghost use Rattle.exact.specs.Products.{dotted};
ghost use Rattle.words.specs.Words.{reading, held};

// A number by its sign, its significand and its shift: ±significand·2^shift, in units of 2^-1074.
#[derive(Clone, Copy)]
struct Parts {
    negative: bool,
    significand: u64,
    shift: u64,
}

// x by its bits. A NaN has no bits of its own and an infinity is no number: both count as 0.
fn parts_of(x: f64) -> Parts
    ensures value { units x ≡ signed result.negative (result.significand * 2 ^ result.shift) }
    ensures range { (result.significand < 2 ^ 53) × (result.shift ≤ 2046) }
{
    if ieee::is_finite(x) {
        let bits = x.to_bits();
        let negative = bits >= 0x8000_0000_0000_0000;
        let exponent = bits % 0x8000_0000_0000_0000 / 0x10_0000_0000_0000;
        let fraction = bits % 0x10_0000_0000_0000;
        if exponent == 0 {
            return Parts {
                negative,
                significand: fraction,
                shift: 0,
            };
        }
        return Parts {
            negative,
            significand: 0x10_0000_0000_0000 + fraction,
            shift: exponent - 1,
        };
    }
    Parts {
        negative: false,
        significand: 0,
        shift: 0,
    }
}

// A number in two words.
#[derive(Clone, Copy)]
struct Wide {
    low: u64,
    high: u64,
}

// a·b, by halves of 32 bits: four products, and what they carry from the low word to the high one. In this form it is compiled to one multiplication.
fn multiply(a: u64, b: u64) -> Wide
    requires { (a < 2 ^ 53) × (b < 2 ^ 53) }
    ensures { result.low + 2 ^ 64 * result.high ≡ a * b }
{
    let a_low = a % 0x1_0000_0000;
    let a_high = a / 0x1_0000_0000;
    let b_low = b % 0x1_0000_0000;
    let b_high = b / 0x1_0000_0000;
    let low = a_low * b_low;
    let cross = a_low * b_high;
    let across = a_high * b_low;
    let high = a_high * b_high;
    let first = across + low / 0x1_0000_0000;
    let second = cross + first % 0x1_0000_0000;
    Wide {
        low: low.wrapping_add((cross + across) << 32),
        high: high + first / 0x1_0000_0000 + second / 0x1_0000_0000,
    }
}

// A term of a sum: three words at a place, to be added, or taken away where it is negative.
#[derive(Clone, Copy)]
struct Term {
    negative: bool,
    place: usize,
    low: u64,
    middle: u64,
    high: u64,
}

// The product of two significands, shifted up by fewer than 64 bits.
fn shifted(product: Wide, shift: u64, negative: bool, place: usize) -> Term
    requires { shift < 64 }
    ensures value { result.low + 2 ^ 64 * (result.middle + 2 ^ 64 * result.high) ≡ (product.low + 2 ^ 64 * product.high) * 2 ^ shift }
    ensures same { (result.negative ≡ negative) × (result.place ≡ place) }
{
    let low = product.low;
    let high = product.high;
    if shift == 0 {
        return Term {
            negative,
            place,
            low,
            middle: high,
            high: 0,
        };
    }
    let back = 64 - shift;
    Term {
        negative,
        place,
        low: low << shift,
        middle: (high << shift) + (low >> back),
        high: high >> back,
    }
}

// The product x·y as a term of a sum, in units of 2^-2148.
fn term_of(x: f64, y: f64) -> Term
    ensures { (units x *ℤ units y ≡ signed result.negative ((result.low + 2 ^ 64 * (result.middle + 2 ^ 64 * result.high)) * 2 ^ (64 * result.place)))
        × (result.place ≤ 63) }
{
    let a = parts_of(x);
    let b = parts_of(y);
    let product = multiply(a.significand, b.significand);
    let shift = a.shift + b.shift;
    let place = (shift / 64) as usize;
    if a.negative {
        return shifted(product, shift % 64, !b.negative, place);
    }
    shifted(product, shift % 64, b.negative, place)
}

// kept: the scope, 01, "Language forms in the code", names adding and subtracting with wrap, and the carry by comparison, where `carrying_add` and
// `borrowing_sub` would do the same; two functions, since the one is told from its operand and the other from what it takes away
// A word to which a word and a carry are added with wrap, and the carry. A sum that wrapped is below its summand.
fn add_word(old: u64, word: u64, carry: bool) -> (u64, bool)
    ensures { old + (word + from_bool carry) ≡ result.0 + 2 ^ 64 * from_bool result.1 }
{
    let part = old.wrapping_add(word);
    let new = part.wrapping_add(carry as u64);
    (new, part < old || new < part)
}

// A word from which a word and a borrow are taken with wrap, and the borrow. A difference that wrapped is above what was there.
fn sub_word(old: u64, word: u64, borrow: bool) -> (u64, bool)
    ensures { result.0 + (word + from_bool borrow) ≡ old + 2 ^ 64 * from_bool result.1 }
{
    let part = old.wrapping_sub(word);
    let new = part.wrapping_sub(borrow as u64);
    (new, part > old || new > part)
}

// One word of a sum: a word and the carry are added to it, or taken away where they are negative, and the carry or the borrow goes to the next word.
fn step_word(old: u64, word: u64, carry: bool, negative: bool) -> (u64, bool)
    ensures { pos old +ℤ signed negative (word + from_bool carry)
        ≡ pos result.0 +ℤ signed negative (2 ^ 64 * from_bool result.1) }
{
    if negative {
        return sub_word(old, word, carry);
    }
    add_word(old, word, carry)
}

// sum ± 2^(64·from): the carry, or the borrow where it is negative, is passed up as far as it goes.
fn carried(sum: [u64; 67], from: usize, negative: bool) -> [u64; 67]
    ensures { result ≡ held (reading sum +ℤ signed negative (2 ^ (64 * from))) }
{
    let mut total = sum;
    for i in from..67 {
        let (word, carry) = step_word(total[i], 0, true, negative);
        total[i] = word;
        if !carry {
            return total;
        }
    }
    total
}

// sum + Σ z_i·f_(column + i·width), exactly. The sum stays where it is from product to product: only a carry that leaves a product's three words moves it.
fn add_products(sum: [u64; 67], z: &[f64], f: &[f64], column: usize, width: usize) -> [u64; 67]
    ensures { result ≡ held (reading sum +ℤ dotted z.now f.now column width) }
{
    let mut total = sum;
    let mut at = column; // kept: it goes by the width, which may be 0, where step_by takes no step of 0, and may lead past the end of f
    for x in z {
        if at >= f.len() {
            return total;
        }
        let term = term_of(*x, f[at]);
        let place = term.place;
        let (low, carry) = step_word(total[place], term.low, false, term.negative);
        total[place] = low;
        let (middle, carry) = step_word(total[place + 1], term.middle, carry, term.negative);
        total[place + 1] = middle;
        let (high, carry) = step_word(total[place + 2], term.high, carry, term.negative);
        total[place + 2] = high;
        if carry {
            total = carried(total, place + 3, term.negative);
        }
        if width >= f.len() - at {
            return total; // f ends here, and what it does not have counts as 0
        }
        at += width;
    }
    total
}

// Σ z_i·f_(column + i·width), exactly: z with a column of f, whose rows are of that width. What f does not have counts as 0, and so does what is not finite.
pub fn dot_product(z: &[f64], f: &[f64], column: usize, width: usize) -> [u64; 67]
    ensures { result ≡ held (dotted z.now f.now column width) }
{
    add_products([0; 67], z, f, column, width)
}

// sum + x·y, exactly. An operand that is not finite leaves the sum as it is.
pub fn add_product(sum: [u64; 67], x: f64, y: f64) -> [u64; 67]
    ensures { result ≡ held (reading sum +ℤ units x *ℤ units y) }
{
    let xs = [x; 1];
    let ys = [y; 1];
    add_products(sum, &xs, &ys, 0, 1)
}

// sum − x·y, exactly. An operand that is not finite leaves the sum as it is.
pub fn sub_product(sum: [u64; 67], x: f64, y: f64) -> [u64; 67]
    ensures { result ≡ held (reading sum -ℤ units x *ℤ units y) }
{
    add_product(sum, -x, y)
}
