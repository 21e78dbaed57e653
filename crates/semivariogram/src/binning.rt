// The bins: each pair is added to its own, in one pass over the pairs, and the kept ones are written.
ghost use Rattle.std.specs.Prelude.{◌≡◌, suc, ◌+◌, ◌-◌, ◌<◌, ◌≤◌, [], length};
ghost use Rattle.semivariogram_theory.specs.Pairs.{pairs_from, pairs};
ghost use Rattle.error.specs.Short.{LongEnough};
ghost use Rattle.semivariogram.specs.Parts.{Squared, Reached, LeftIn, Written};
ghost use Rattle.semivariogram.specs.Called.{sampled, held, areas_for, StillLent};
ghost use Rattle.semivariogram.specs.Layout.{BinsOf};

use crate::bounds::BoundedBins;
use crate::call::{Areas, Samples};

// What the pairs of a bin come to: half the squares of their values' differences, and how many they are.
#[derive(Clone, Copy)]
pub(crate) struct Bin {
    pub sum: f64,
    pub count: usize,
}

// The pairs of the sample i with each later one, each added to its bin: their squared distances stand from the place `at` on.
fn add_later(
    samples: &Samples<'_>,
    bounded: &BoundedBins<'_>,
    squares: &[f64],
    i: usize,
    at: usize,
    bins: &mut [Bin],
)
    requires room { (i < length samples.now.values.now) × (samples.now.n_bins ≤ length bins.old) }
    requires squared { Squared (sampled samples.now) squares.now }
    requires bins { BinsOf (sampled samples.now) bounded.now.bins }
    requires place { let n = length samples.now.values.now in Reached (pairs n) (pairs_from i (n - i)) at }
    requires left { LeftIn (sampled samples.now) (pairs_from i (length samples.now.values.now - i)) bins.old }
    ensures place { let n = length samples.now.values.now in Reached (pairs n) (pairs_from (suc i) (n - suc i)) (at + (n - suc i)) }
    ensures left { LeftIn (sampled samples.now) (pairs_from (suc i) (length samples.now.values.now - suc i)) bins.new }
{
    let values = samples.values;
    for j in i + 1..values.len() {
        let dist_sq = squares[at + (j - (i + 1))];
        let k = bounded.bin_of_pair(samples, i, j, dist_sq);
        let diff = values[i] - values[j];
        let semivar = 0.5 * (diff * diff);
        let bin = bins[k];
        bins[k] = Bin {
            sum: bin.sum + semivar,
            count: bin.count + 1,
        };
    }
}

// All pairs, each added to its bin.
pub(crate) fn add_pairs(
    samples: &Samples<'_>,
    bounded: &BoundedBins<'_>,
    squares: &[f64],
    bins: &mut [Bin],
)
    requires room { samples.now.n_bins ≤ length bins.old }
    requires squared { Squared (sampled samples.now) squares.now }
    requires bins { BinsOf (sampled samples.now) bounded.now.bins }
    requires left { LeftIn (sampled samples.now) (pairs (length samples.now.values.now)) bins.old }
    ensures { LeftIn (sampled samples.now) [] bins.new }
{
    let n = samples.values.len();
    let mut at = 0;
    for i in 0..n {
        add_later(samples, bounded, squares, i, at, bins);
        at += n - 1 - i;
    }
}

// The kept bins, rising, to the first places of the areas: centre, average and count. How many they are.
pub(crate) fn write_kept(bin_width: f64, bins: &[Bin], areas: &mut Areas<'_>) -> usize
    requires { LongEnough (areas_for (length bins.now) (held areas.old)) }
    ensures lent { StillLent areas.old areas.new }
    ensures written { Written bin_width bins.now result (held areas.old) (held areas.new) }
{
    let mut kept = 0;
    for (i, bin) in bins.iter().enumerate() {
        if bin.count > 0 {
            areas.distances[kept] = (std::num::nearest_usize_to_f64(i) + 0.5) * bin_width;
            areas.semivariances[kept] = bin.sum / std::num::nearest_usize_to_f64(bin.count);
            areas.counts[kept] = bin.count;
            kept += 1;
        }
    }
    kept
}
