// Replays stored sums of products of f64 and prints their 67 words, for a comparison with whole-number arithmetic outside.
// The input is records of 17 bytes: a kind, then two words, little-endian. 0 adds the product of two f64, 1 takes it away, 2 shows the sum and
// starts the next; 3 gives a number of z and one of f, and 4 shows the dot product of z with the column and width of f that its words say.
#![tactic(auto)]

// A flag as a digit, then a space.
fn show_flag(flag: bool) {
    if flag {
        io::write_all(1, b"1 ");
    } else {
        io::write_all(1, b"0 ");
    }
}

// A word with its place, then a space.
fn show_word(place: usize, word: u64) {
    io::print_decimal(1, place as u64);
    io::write_all(1, b":");
    io::print_hex(1, word, 16);
    io::write_all(1, b" ");
}

// The words from the highest down, each that differs from the one above it (the highest: from 0).
fn show_words(words: [u64; 67]) {
    let mut above = 0;
    for (place, word) in words.iter().enumerate().rev() {
        if *word != above {
            show_word(place, *word);
        }
        above = *word;
    }
}

// A line: whether the sum before is at most this one, whether this one is negative, its words, and those of its magnitude.
fn show(before: [u64; 67], sum: [u64; 67]) {
    let compared = words::compare(before, sum);
    show_flag(compared.is_at_most());
    show_flag(words::is_negative(sum));
    show_words(sum);
    io::write_all(1, b"| ");
    show_words(words::magnitude(sum));
    io::write_all(1, b"\n");
}

// What a record says.
#[derive(Clone, Copy)]
enum Step {
    Add(f64, f64),
    Subtract(f64, f64),
    Show,
    Pair,
    Dot { column: usize, width: usize },
}

impl Step {
    // The step of a record, by its kind. No record has another kind than these.
    fn of(record: &[u8; 17]) -> Step {
        let a = patterns::word(record, 1);
        let b = patterns::word(record, 9);
        match record[0] {
            0 => Step::Add(patterns::float(a), patterns::float(b)),
            1 => Step::Subtract(patterns::float(a), patterns::float(b)),
            2 => Step::Show,
            3 => Step::Pair,
            _ => Step::Dot {
                column: a as usize,
                width: b as usize,
            },
        }
    }
}

// A number from each of these records, at most 64, which stands there at a place.
fn numbers(records: &[[u8; 17]], place: usize) -> [f64; 64] {
    let mut list = [0.0; 64];
    for (number, record) in list.iter_mut().zip(records) {
        *number = patterns::float(patterns::word(record, place));
    }
    list
}

// The dot product of the pairs in the last `count` of these records: the first numbers with a column of the second ones.
fn column_sum(records: &[[u8; 17]], count: usize, column: usize, width: usize) -> [u64; 67] {
    if 64 < count || records.len() < count {
        return [0; 67];
    }
    let pairs = &records[records.len() - count..];
    let z = numbers(pairs, 1);
    let f = numbers(pairs, 9);
    exact::dot_product(&z[..count], &f[..count], column, width)
}

fn replay(records: &[[u8; 17]]) {
    let mut before = [0; 67];
    let mut sum = [0; 67];
    let mut count: usize = 0;
    for (at, record) in records.iter().enumerate() {
        match Step::of(record) {
            Step::Add(x, y) => {
                let next = exact::add_product(sum, x, y);
                sum = next;
            }
            Step::Subtract(x, y) => {
                let next = exact::sub_product(sum, x, y);
                sum = next;
            }
            Step::Show => {
                show(before, sum);
                before = sum;
                sum = [0; 67];
            }
            Step::Pair => count = count.saturating_add(1).min(64),
            Step::Dot { column, width } => {
                let next = column_sum(&records[..at], count, column, width);
                show(before, next);
                before = next;
                count = 0;
            }
        }
    }
}

fn main() {
    let mut buf = io::large_buffer();
    let n = io::read_full(0, &mut buf);
    let (records, _) = buf[..n].as_chunks::<17>();
    replay(records);
}
