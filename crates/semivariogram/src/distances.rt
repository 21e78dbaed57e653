// The squared distances of all pairs, in the pairs' order, and the greatest of them, in one pass: a root is worked out later, where one is needed.
ghost use Rattle.std.specs.Prelude.{◌≡◌, suc, ◌+◌, ◌-◌, ◌<◌, ◌≤◌, map, length};
ghost use Rattle.ieee.specs.Floats.{zero_float};
ghost use Rattle.semivariogram_theory.specs.Pairs.{pair, rising, pairs_from, pairs};
ghost use Rattle.semivariogram_theory.specs.Bins.{greatest};
ghost use Rattle.semivariogram.specs.Parts.{square_in, Reached, Stored, Squared};
ghost use Rattle.semivariogram.specs.Called.{sampled};

use crate::call::Samples;

// The squared distances of the sample i from each later one, from the place `at` on, and the greatest of them and of `most`.
fn squares_from(samples: &Samples<'_>, i: usize, at: usize, most: f64, squares: &mut [f64]) -> f64
    requires inside { (i < length samples.now.values.now) × (length (pairs (length samples.now.values.now)) ≤ length squares.old) }
    requires place { let n = length samples.now.values.now in Reached (pairs n) (pairs_from i (n - i)) at }
    requires stored { Stored (square_in samples.now.points.now samples.now.d) (pairs (length samples.now.values.now)) at squares.old }
    ensures greatest { let n = length samples.now.values.now in result
        ≡ greatest most (map (square_in samples.now.points.now samples.now.d) (map (pair i) (rising (suc i) (n - suc i)))) }
    ensures place { let n = length samples.now.values.now in Reached (pairs n) (pairs_from (suc i) (n - suc i)) (at + (n - suc i)) }
    ensures stored { let n = length samples.now.values.now in Stored (square_in samples.now.points.now samples.now.d) (pairs n) (at + (n - suc i)) squares.new }
{
    let points = samples.points; // read once: the squares that are written might else be theirs
    let d = samples.d;
    let mut max_sq = most;
    for j in i + 1..samples.values.len() {
        let dist_sq = variogram::sum_of_squares(points, i * d, points, j * d, d);
        squares[at + (j - (i + 1))] = dist_sq;
        max_sq = ieee::max(dist_sq, max_sq);
    }
    max_sq
}

// The squared distances of all samples, and the greatest of them, from +0 on, below which none is.
pub(crate) fn all_squares(samples: &Samples<'_>, squares: &mut [f64]) -> f64
    requires { length (pairs (length samples.now.values.now)) ≤ length squares.old }
    ensures greatest { result ≡ greatest zero_float (map (square_in samples.now.points.now samples.now.d) (pairs (length samples.now.values.now))) }
    ensures squared { Squared (sampled samples.now) squares.new }
{
    let n = samples.values.len();
    let mut max_sq = 0.0;
    let mut at = 0;
    for i in 0..n {
        max_sq = squares_from(samples, i, at, max_sq, squares);
        at += n - 1 - i;
    }
    max_sq
}
