// What turns a call of the semivariogram away: 13, 1, 14, 15, 9, 11, 18, in this order.
ghost use Rattle.std.specs.Prelude.{◌≡◌, ◌||◌, not, nat_lt};
ghost use Rattle.ieee.specs.Finite.{all_finite};
ghost use Rattle.error.specs.Numbers.{judged};
ghost use Rattle.error.specs.Short.{too_short};
ghost use Rattle.semivariogram_theory.specs.Call.{samples_of};
ghost use Rattle.semivariogram_theory.specs.Refusals.{refusal};
ghost use Rattle.semivariogram.specs.Called.{held, areas_for};

use crate::call::Areas;
use error::Refusal;
use survey::Limits;

// The most bins.
pub(crate) const MOST_BINS: usize = 64;

// Whether a number is not one of least..=most.
fn outside(number: usize, least: usize, most: usize) -> bool
    ensures { result ≡ (nat_lt number least || nat_lt most number) }
{
    number < least || most < number
}

// 18: whether one of the areas is too short for so many bins.
fn short_answer(bins: usize, areas: &Areas<'_>) -> bool
    ensures { result ≡ too_short (areas_for bins (held areas.now)) }
{
    areas.distances.len() < bins || areas.semivariances.len() < bins || areas.counts.len() < bins
}

// 11: whether a value or a coordinate is not finite.
fn not_finite(points: &[f64], values: &[f64]) -> bool
    ensures { result ≡ (not (all_finite values.now) || not (all_finite points.now)) }
{
    !ieee::all_finite(values) || !ieee::all_finite(points)
}

// The first that applies.
// kept: the lists and numbers by themselves, since Samples has as a fact what is tested here.
#[tactic(auto, using(crate::proofs::Told::refusal_is))]
pub(crate) fn calculate_refusal(
    limits: Limits,
    points: &[f64],
    values: &[f64],
    d: usize,
    n_bins: usize,
    areas: &Areas<'_>,
) -> Result<(), Refusal>
    ensures { judged result ≡ refusal limits
        (samples_of points.now values.now d n_bins)
        (held areas.now) }
{
    let n = values.len();
    if outside(d, 1, 3) {
        return Err(Refusal::Dimension);
    }
    if !survey_checks::counts::is_product(points.len(), n, d) {
        return Err(Refusal::CoordinatesLength);
    }
    if n < 2 {
        return Err(Refusal::TooFewSamples);
    }
    if outside(n_bins, 1, MOST_BINS) {
        return Err(Refusal::Bins);
    }
    if n > limits.wells {
        return Err(Refusal::TooMany);
    }
    if not_finite(points, values) {
        return Err(Refusal::NotFinite);
    }
    if short_answer(n_bins, areas) {
        return Err(Refusal::AnswerArea);
    }
    Ok(())
}
