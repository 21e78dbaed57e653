// The bin of a pair, by bounds of its squared distance where these tell it, so that few pairs need the root of theirs.
ghost use Rattle.std.specs.Prelude.{◌≡◌, ℕ, ◌<◌, ◌≤◌, false, length, slice_index_or};
ghost use Rattle.std.specs.Float.{nan};
ghost use Rattle.std.proofs.Props.{props};
ghost use Rattle.ieee.specs.Values.{Signed};
ghost use Rattle.semivariogram_theory.specs.Pairs.{pair};
ghost use Rattle.semivariogram_theory.specs.Bins.{lag};
ghost use Rattle.semivariogram.specs.Parts.{square_in, bin_at, IsLow, IsHigh, Beside};
ghost use Rattle.semivariogram.specs.Called.{sampled};

use crate::call::Samples;

// 1 + 2^-49 and 1 - 2^-49: what the roundings between an edge and its square, and between a square and its bin, come to is less.
const A_LITTLE_ABOVE: f64 = 1.0000000000000018;

const A_LITTLE_BELOW: f64 = 0.9999999999999982;

// Bins of one width, which is not below zero.
#[derive(Clone, Copy)]
pub(crate) struct Bins {
    pub width: f64,
    pub count: usize,
    pub ghost some: { 1 ≤ count },
    pub ghost clear: { ∥ Signed false width ∥₁ },
}

// Bins, and the squared distances between which a pair is surely in each: of no bin where these would save nothing. A NaN, which no number is above or
// below, bounds nothing.
// kept: two lists, since every pair of samples is held against all high bounds: with one list of pairs of bounds a call of 96 samples takes 4 % more
// instructions, with 10 bins and with 64.
#[derive(Clone, Copy)]
pub(crate) struct BoundedBins<'a> {
    pub bins: Bins,
    pub lows: &'a [f64],
    pub highs: &'a [f64],
    pub ghost each: { length lows.now ≡ length highs.now },
    pub ghost low: { (b : ℕ) → b < length lows.now → IsLow bins.width bins.count b (slice_index_or lows.now b nan) } by { Prim.hlevel props },
    pub ghost high: { (b : ℕ) → b < length highs.now → IsHigh bins.width bins.count b (slice_index_or highs.now b nan) } by { Prim.hlevel props },
}

impl Bins {
    // The bin of a distance: of what is above the last one, the last. The cast takes the whole part, as it would of the floor, 0 for a NaN, and the greatest
    // number there is for what is above that.
    pub(crate) fn bin_of(&self, dist: f64) -> usize
        ensures { result ≡ bin_at self.now.width self.now.count dist }
    {
        std::num::saturating_f64_to_usize(dist / self.width).min(self.count - 1)
    }

    // A squared distance a little above the square of the edge before the bin b, or a little below it, where its own bin is found to be on that side of the
    // edge, and else a NaN.
    fn beside<const ABOVE: bool>(&self, square: f64, b: usize) -> f64
        ensures { Beside ABOVE self.now.width self.now.count b result }
    {
        let factor = if ABOVE {
            A_LITTLE_ABOVE
        } else {
            A_LITTLE_BELOW
        };
        let bound = square * factor;
        if bound > 0.0 {
            let bin = self.bin_of(ieee::sqrt(bound));
            if (bin >= b) == ABOVE {
                return bound;
            }
        }
        f64::NAN
    }

    // The bins with bounds. Below the first and above the last there is no other: the one begins at 0, and the other ends at the greatest. Bounds take two
    // roots a bin and a look at each for every pair, so with twice as many bins as samples, n, they save none.
    pub(crate) fn bounded<'a>(
        &self,
        n: usize,
        max_sq: f64,
        lows: &'a mut [f64],
        highs: &'a mut [f64],
    ) -> BoundedBins<'a>
        requires { (length lows.old ≡ self.now.count) × (length highs.old ≡ self.now.count) }
        ensures { result.bins ≡ self.now }
    {
        if self.count / 2 >= n {
            return BoundedBins {
                bins: *self,
                lows: &[],
                highs: &[],
            };
        }
        lows[0] = 0.0;
        for b in 1..self.count {
            let edge = std::num::nearest_usize_to_f64(b) * self.width;
            let square = edge * edge;
            lows[b] = self.beside::<true>(square, b);
            highs[b - 1] = self.beside::<false>(square, b);
        }
        highs[self.count - 1] = max_sq;
        BoundedBins {
            bins: *self,
            lows,
            highs,
        }
    }
}

impl BoundedBins<'_> {
    // How many high bounds a squared distance is above: its bin, or close to it. No branch depends on the numbers.
    fn likely_bin(&self, dist_sq: f64) -> usize {
        let mut bin = 0;
        for high in self.highs {
            if dist_sq > *high {
                bin += 1;
            }
        }
        bin
    }

    // The bin of the pair of the samples i and j, whose squared distance is known: where that is inside the bounds of a bin this one, and else by the
    // distance.
    pub(crate) fn bin_of_pair(
        &self,
        samples: &Samples<'_>,
        i: usize,
        j: usize,
        dist_sq: f64,
    ) -> usize
        requires inside { (i < j) × (j < length samples.now.values.now) }
        requires square { dist_sq ≡ square_in samples.now.points.now samples.now.d (pair i j) }
        ensures { result ≡ bin_at self.now.bins.width self.now.bins.count (lag (sampled samples.now) (pair i j)) }
    {
        let bin = self.likely_bin(dist_sq);
        if bin < self.highs.len() && self.lows[bin] <= dist_sq && dist_sq <= self.highs[bin] {
            return bin;
        }
        let dist = variogram::calculate_distance(samples.points, i, samples.points, j, samples.d);
        self.bins.bin_of(dist)
    }
}
