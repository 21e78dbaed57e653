// Replays variograms and distances of the original Rust: standard input has a record of nine words for each, as tools/generators/variogram.py wrote it.
// Writes a line for each record that comes out otherwise, and then how many were compared and how many differ.
#![tactic(auto)]

use variogram::{Variogram, VariogramModel};

// The seven numbers of a record, its words 1 to 7.
fn numbers(bytes: &[u8; 72]) -> [f64; 7] {
    std::array::from_fn(|word| patterns::float(patterns::word(bytes, 8 + 8 * word)))
}

// The variogram of nugget x[0], sill x[1], range x[2] and same-spot distance x[6] at the distance x[3].
fn evaluated(model: VariogramModel, x: [f64; 7]) -> f64 {
    let v = Variogram::new(model, x[0], x[1], x[2]).with_same_spot(x[6]);
    v.evaluate(x[3])
}

// The distance of the older calls over the first d axes of the points of three numbers, x[0] and x[3] on.
fn along(x: [f64; 7], d: usize) -> f64 {
    let a = [x[0], x[1], x[2]];
    let b = [x[3], x[4], x[5]];
    variogram::calculate_distance(&a, 0, &b, 0, d)
}

// The pattern of the port's answer to a call. No call has another number, and no answer the pattern of the last line.
// kept: the numbers stand once, beside what each calls; an enum would have them and the calls twice.
fn answer(call: u64, x: [f64; 7]) -> u64 {
    match call {
        1 => patterns::pattern(evaluated(VariogramModel::Spherical, x)),
        2 => patterns::pattern(evaluated(VariogramModel::Exponential, x)),
        3 => patterns::pattern(evaluated(VariogramModel::Gaussian, x)),
        4 => patterns::pattern(evaluated(VariogramModel::Linear, x)),
        11 => patterns::pattern(along(x, 1)),
        12 => patterns::pattern(along(x, 2)),
        13 => patterns::pattern(along(x, 3)),
        20 => patterns::pattern(variogram::squared_distance_2d(x[0], x[1], x[2], x[3])),
        21 => patterns::pattern(variogram::distance_2d(x[0], x[1], x[2], x[3])),
        _ => 0xffff_ffff_ffff_ffff,
    }
}

// One record more: whether it agrees, and none at the input's end.
fn replayed() -> Option<bool> {
    let bytes = vectors::next_bytes::<72>()?;
    let got = answer(patterns::word(&bytes, 0), numbers(&bytes));
    Some(got == patterns::word(&bytes, 64))
}

fn main() {
    vectors::replay(replayed).write();
}
