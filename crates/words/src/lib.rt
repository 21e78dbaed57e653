// A whole number in 67 words of 64 bits, lowest first, in two's complement: its sign, its magnitude, and the order of two.
#![tactic(auto)]

ghost use Rattle.std.specs.Prelude.{◌≡◌, ◌+◌, ◌*◌, ◌%◌, ◌^◌, ◌≤◌, not, pos, neg_ℤ, unsigned_abs};
ghost use Rattle.std.specs.Int.Signed.{non_neg};
ghost use Rattle.words.specs.Words.{reading, held};
ghost use Rattle.words.specs.Compared.{order_of, is_at_most, read_at, words_taken};

use std::cmp::Ordering;

// Whether the sum is below zero: its highest bit is set.
pub fn is_negative(sum: [u64; 67]) -> bool
    ensures { result ≡ not (non_neg (reading sum)) }
{
    sum[66] >= 0x8000_0000_0000_0000
}

// −sum: each word is taken away from 0, and the borrow goes on.
fn negated(sum: [u64; 67]) -> [u64; 67]
    ensures { result ≡ held (neg_ℤ (reading sum)) }
{
    let mut rest = [0; 67];
    let mut borrow = false;
    for i in 0..67 {
        let (word, next) = 0u64.borrowing_sub(sum[i], borrow);
        rest[i] = word;
        borrow = next;
    }
    rest
}

// |sum|.
pub fn magnitude(sum: [u64; 67]) -> [u64; 67]
    ensures { result ≡ held (pos (unsigned_abs (reading sum))) }
{
    if is_negative(sum) {
        return negated(sum);
    }
    sum
}

// What a comparison of two sums tells: how the first stands to the second, and how many words it took.
#[derive(Clone, Copy)]
pub struct Comparison {
    pub order: Ordering,
    pub words: usize,
}

impl Comparison {
    // Whether the first sum is at most the second.
    pub fn is_at_most(self) -> bool
        ensures { result ≡ is_at_most self.order }
    {
        self.order.is_le()
    }
}

// A word turned by half of what there are, so that the order of signed words is that of the turned ones.
fn turned(word: u64) -> u64
    ensures { result ≡ (word + 2 ^ 63) % 2 ^ 64 }
{
    word.wrapping_add(0x8000_0000_0000_0000)
}

// The order of two words at a place: the top word is read as signed.
fn order_at(place: usize, a: u64, b: u64) -> Ordering
    ensures { result ≡ order_of (read_at place a) (read_at place b) }
{
    if place == 66 {
        return turned(a).cmp(&turned(b));
    }
    a.cmp(&b)
}

// From the top word down to the first that differs, which decides. Each word that is looked at counts.
pub fn compare(a: [u64; 67], b: [u64; 67]) -> Comparison
    ensures order { result.order ≡ order_of (reading a) (reading b) }
    ensures words { result.words ≡ words_taken a b }
{
    for place in (0..67).rev() {
        if a[place] != b[place] {
            return Comparison {
                order: order_at(place, a[place], b[place]),
                words: 67 - place,
            };
        }
    }
    Comparison {
        order: Ordering::Equal,
        words: 67,
    }
}
