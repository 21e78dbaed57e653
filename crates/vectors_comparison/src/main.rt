// Replays stored comparisons of two sums of 67 words and prints how each pair stands and how many words it took, for whole-number arithmetic outside.
// The input is records of 17 bytes: a kind, then two words, little-endian. 0 puts the second word at the place that the first says, in the one sum, and 1
// in the other; 2 puts the second word at every place of the one sum, and 3 of the other; 4 compares the two, both ways round.
#![tactic(auto)]

ghost use Rattle.std.specs.Prelude.{◌≡◌, set};

use std::cmp::Ordering;

// A word put at a place of a sum, where it has that place.
fn put(word: u64, sum: &mut [u64; 67], place: usize)
    ensures { sum.new ≡ set sum.old place word }
{
    if place < 67 {
        sum[place] = word;
    }
}

// How the first stands to the second, as a sign.
fn show_order(order: Ordering) {
    match order {
        Ordering::Less => {
            io::write_all(1, b"< ");
        }
        Ordering::Equal => {
            io::write_all(1, b"= ");
        }
        Ordering::Greater => {
            io::write_all(1, b"> ");
        }
    }
}

// The sign, and how many words it took.
fn show(a: [u64; 67], b: [u64; 67]) {
    let compared = words::compare(a, b);
    show_order(compared.order);
    io::print_decimal(1, compared.words as u64);
}

// A line: the one with the other, then the other with the one.
fn show_both(a: [u64; 67], b: [u64; 67]) {
    show(a, b);
    io::write_all(1, b" ");
    show(b, a);
    io::write_all(1, b"\n");
}

// What a record says.
#[derive(Clone, Copy)]
enum Step {
    One { place: usize, word: u64 },
    Other { place: usize, word: u64 },
    AllOfOne(u64),
    AllOfOther(u64),
    Compare,
}

impl Step {
    // The step of a record, by its kind. No record has another kind than these.
    fn of(record: &[u8; 17]) -> Step {
        let place = patterns::word(record, 1) as usize;
        let word = patterns::word(record, 9);
        match record[0] {
            0 => Step::One { place, word },
            1 => Step::Other { place, word },
            2 => Step::AllOfOne(word),
            3 => Step::AllOfOther(word),
            _ => Step::Compare,
        }
    }
}

fn replay(records: &[[u8; 17]]) {
    let mut one = [0; 67];
    let mut other = [0; 67];
    for record in records {
        match Step::of(record) {
            Step::One { place, word } => put(word, &mut one, place),
            Step::Other { place, word } => put(word, &mut other, place),
            Step::AllOfOne(word) => one = [word; 67],
            Step::AllOfOther(word) => other = [word; 67],
            Step::Compare => show_both(one, other),
        }
    }
}

fn main() {
    let mut buf = io::large_buffer();
    let n = io::read_full(0, &mut buf);
    let (records, _) = buf[..n].as_chunks::<17>();
    replay(records);
}
