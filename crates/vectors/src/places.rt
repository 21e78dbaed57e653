// What a place of a list that comes in, or of a lent area, has: an f64, a word, a count or a byte.
ghost use Rattle.std.specs.Prelude.{◌≡◌, ℕ, ◌%◌, from_bits, to_bits};
ghost use Rattle.std.specs.Float.{nan, binary64};
ghost use Rattle.vectors.specs.Lent.{mark_at, mark_byte_at};

// What every place of a lent area holds before a call: a pattern for each place.
const MARK: u64 = 0x4730_0000_0000_0000;

// The pattern at a place of an area that no one wrote to.
pub fn mark_at(at: usize) -> u64
    ensures { result ≡ mark_at at }
{
    MARK.wrapping_add(at as u64)
}

pub trait Place: Copy {
    // what stands past the end, for a list of these: no place has it
    ghost none: { Self };

    ghost pattern_of: { Self → ℕ };

    ghost of_word: { ℕ → Self };

    ghost marked: { ℕ → ℕ };

    // The word that it is, by which two of them are compared.
    fn pattern(self) -> u64
        ensures { result ≡ pattern_of self };

    // What a word gives that comes in.
    fn of(word: u64) -> Self
        ensures { result ≡ of_word word };

    // The word of what a place of a lent area holds before a call.
    fn mark(at: usize) -> u64
        ensures { result ≡ marked at };
}

impl Place for f64 {
    ghost none = { nan };

    ghost pattern_of = { to_bits binary64 };

    ghost of_word = { from_bits binary64 };

    ghost marked = { mark_at };

    fn pattern(self) -> u64 {
        patterns::pattern(self)
    }

    fn of(word: u64) -> f64 {
        patterns::float(word)
    }

    fn mark(at: usize) -> u64 {
        mark_at(at)
    }
}

impl Place for u64 {
    ghost none = { 0 };

    ghost pattern_of = { λ word. word };

    ghost of_word = { λ word. word };

    ghost marked = { mark_at };

    fn pattern(self) -> u64 {
        self
    }

    fn of(word: u64) -> u64 {
        word
    }

    fn mark(at: usize) -> u64 {
        mark_at(at)
    }
}

impl Place for usize {
    ghost none = { 0 };

    ghost pattern_of = { λ count. count };

    ghost of_word = { λ word. word };

    ghost marked = { mark_at };

    fn pattern(self) -> u64 {
        self as u64
    }

    fn of(word: u64) -> usize {
        word as usize
    }

    fn mark(at: usize) -> u64 {
        mark_at(at)
    }
}

impl Place for u8 {
    ghost none = { 0 };

    ghost pattern_of = { λ byte. byte };

    ghost of_word = { λ word. word % 256 };

    ghost marked = { mark_byte_at };

    fn pattern(self) -> u64 {
        self as u64
    }

    fn of(word: u64) -> u8 {
        (word % 256) as u8
    }

    // Another byte than its neighbours', and no code and no verdict.
    fn mark(at: usize) -> u64 {
        160 + at as u64 % 61
    }
}
