// The experimental semivariogram. What its call answers is defined in specs/.
#![tactic(auto)]

mod binning; // binning.rt: the pairs to their bins, and the kept bins to the areas
mod bounds; // bounds.rt: the bin of a pair
mod call; // call.rt: what a call takes and what it is lent
mod distances; // distances.rt: the squared distances and the greatest
mod refusals; // refusals.rt: what turns a call away

ghost use Rattle.std.specs.Prelude.{◌≡◌, ◌≤◌, length};
ghost use Rattle.error.specs.Short.{LongEnough};
ghost use Rattle.survey.specs.Limits.{library};
ghost use Rattle.semivariogram_theory.specs.Bins.{kept_bins, filled};
ghost use Rattle.semivariogram_theory.specs.Call.{samples_of, areas_of, answer_areas};
ghost use Rattle.semivariogram_theory.specs.Pairs.{pairs};
ghost use Rattle.semivariogram.specs.Called.{sampled, held, StillLent};
ghost use Rattle.semivariogram.specs.Outcome.{outcome_of};
ghost use Rattle.semivariogram.specs.Parts.{most_pairs};
ghost use Rattle.semivariogram_theory.specs.Semivariogram.{calculated};
ghost use Rattle.semivariogram_theory.specs.Binned.{Ends};

use crate::binning::{Bin, add_pairs, write_kept};
use crate::bounds::Bins;
use crate::call::{Areas, Samples};
use crate::distances::all_squares;
use crate::refusals::{MOST_BINS, calculate_refusal};
use error::Refusal;
use survey::{Limits, MOST_WELLS, PROGRAM_WELLS};

// The pairs of the most samples.
const MOST_PAIRS: usize = MOST_WELLS * (MOST_WELLS - 1) / 2;

// The pairs of as many samples as the program takes of wells: a quarter of the room.
const FEW_PAIRS: usize = PROGRAM_WELLS * (PROGRAM_WELLS - 1) / 2;

// The bins of samples, with room for the squared distances of their pairs: the kept ones to the answer areas, and how many they are.
fn bins_with(samples: &Samples<'_>, squares: &mut [f64], areas: &mut Areas<'_>) -> usize
    requires room { length (pairs (length samples.now.values.now)) ≤ length squares.old }
    requires areas { LongEnough (answer_areas (sampled samples.now) (held areas.old)) }
    ensures lent { StillLent areas.old areas.new }
    ensures kept { result ≡ length (kept_bins (sampled samples.now)) }
    ensures filled { held areas.new ≡ filled (sampled samples.now) (held areas.old) }
{
    let n_bins = samples.n_bins;
    let max_sq = all_squares(samples, squares);
    let width = ieee::sqrt(max_sq) / std::num::nearest_usize_to_f64(n_bins);
    let layout = Bins {
        width,
        count: n_bins,
    };
    let mut lows = [0.0; MOST_BINS];
    let mut highs = [0.0; MOST_BINS];
    let bounded = layout.bounded(
        samples.values.len(),
        max_sq,
        &mut lows[..n_bins],
        &mut highs[..n_bins],
    );
    let mut all = [Bin { sum: 0.0, count: 0 }; MOST_BINS];
    let bins = &mut all[..n_bins];
    add_pairs(samples, &bounded, squares, bins);
    write_kept(width, bins, areas)
}

// The same with room for so many pairs: zeros are laid out for it first.
fn with_room<const PAIRS: usize>(samples: &Samples<'_>, areas: &mut Areas<'_>) -> usize
    requires room { (length (pairs (length samples.now.values.now)) ≤ PAIRS) × (PAIRS ≤ most_pairs) }
    requires areas { LongEnough (answer_areas (sampled samples.now) (held areas.old)) }
    ensures lent { StillLent areas.old areas.new }
    ensures kept { result ≡ length (kept_bins (sampled samples.now)) }
    ensures filled { held areas.new ≡ filled (sampled samples.now) (held areas.old) }
{
    let mut squares = [0.0; PAIRS];
    bins_with(samples, &mut squares, areas)
}

// The bins of samples: the kept ones to the answer areas, and how many they are. Room for the squares of the most samples would make a call of few samples
// longer by a quarter, so these get less.
fn kept_bins(samples: &Samples<'_>, areas: &mut Areas<'_>) -> usize
    requires { LongEnough (answer_areas (sampled samples.now) (held areas.old)) }
    ensures lent { StillLent areas.old areas.new }
    ensures kept { result ≡ length (kept_bins (sampled samples.now)) }
    ensures filled { held areas.new ≡ filled (sampled samples.now) (held areas.old) }
{
    if samples.values.len() <= PROGRAM_WELLS {
        return with_room::<FEW_PAIRS>(samples, areas);
    }
    with_room::<MOST_PAIRS>(samples, areas)
}

// Semivariogram calculator
#[derive(Clone, Copy)]
pub struct SemivariogramCalculator;

impl SemivariogramCalculator {
    // Calculate the experimental semivariogram of points of d numbers, row after row, with a value at each: how many bins are kept, which stand at the
    // beginning of the answer areas.
    // The Rust's parameters by themselves, and areas in place of its lists.
    pub fn calculate(
        points: &[f64],
        values: &[f64],
        d: usize,
        n_bins: usize,
        distances: &mut [f64],
        semivariances: &mut [f64],
        counts: &mut [usize],
    ) -> Result<usize, Refusal>
        ensures is { outcome_of result (areas_of distances.new semivariances.new counts.new)
            ≡ calculated library (samples_of points.now values.now d n_bins)
            (areas_of distances.old semivariances.old counts.old) }
        ensures ends { Ends library (samples_of points.now values.now d n_bins)
            (areas_of distances.old semivariances.old counts.old)
            (outcome_of result (areas_of distances.new semivariances.new counts.new)) }
    {
        let mut areas = Areas {
            distances,
            semivariances,
            counts,
        };
        calculate_refusal(Limits::library(), points, values, d, n_bins, &areas)?;
        let samples = Samples {
            points,
            values,
            d,
            n_bins,
        };
        Ok(kept_bins(&samples, &mut areas))
    }
}
