// What turns a call of the interpolator away before it eliminates: 13, 1, 2, 9, 11, 22, 12, 17, 18, in this order.
#![tactic(auto, unfolding(error::specs::Tests::first_of))]

ghost use Rattle.std.specs.Prelude.{◌≡◌, ◌≤◌, not, ◌&&◌, ◌||◌, eqb, ltb};
ghost use Rattle.error.specs.Numbers.{judged};
ghost use Rattle.error.specs.Tests.{first_of};
ghost use Rattle.ieee.specs.Finite.{all_finite};
ghost use Rattle.variogram.specs.Distance.{offered};
ghost use Rattle.survey.specs.Refusals.{variogram_not_finite};
ghost use Rattle.interpolator.specs.Lent.{query_lent, areas_lent};
ghost use Rattle.interpolator_theory.specs.Refusals.{is_universal, refusal};
ghost use Rattle.interpolator.specs.Parts.{query_tests, area_tests};

use crate::trend::trend_terms;
use crate::{Areas, KrigingInterpolator, Query};
use error::Refusal;
use interpolator_theory::KrigingType;
use survey::Limits;
use variogram::Variogram;

// 13: whether d is not 1, 2 or 3, or is 1 with Universal, which takes x and y.
fn wrong_dimension(kriging_type: KrigingType, d: usize) -> bool
    ensures { result ≡ (not (offered d) || (eqb d 1 && is_universal kriging_type)) }
{
    d < 1 || d > 3 || (d == 1 && kriging_type == KrigingType::Universal)
}

// 11: whether a number that the call takes is not finite.
fn number_not_finite(v: Variogram, query: &Query<'_>) -> bool
    ensures { result ≡ (variogram_not_finite v || (not (all_finite query.now.values.now)
        || (not (all_finite query.now.points.now) || not (all_finite query.now.targets.now)))) }
{
    survey_checks::refusals::variogram_not_finite(v)
        || !ieee::all_finite(query.values)
        || !ieee::all_finite(query.points)
        || !ieee::all_finite(query.targets)
}

// Whether either of two counts is above its limit: 9 of n and m, and 18 of m and the answer areas.
fn either_above(a: usize, most_a: usize, b: usize, most_b: usize) -> bool
    ensures { result ≡ (ltb most_a a || ltb most_b b) }
{
    a > most_a || b > most_b
}

// 13, 1, 2, 9 and 11: what is asked. The product n * d need not fit a word; past 13, d is no zero and m can be counted.
fn query_refusal(
    limits: Limits,
    interpolator: KrigingInterpolator,
    query: &Query<'_>,
) -> Result<(), Refusal>
    ensures { judged result ≡ first_of (query_tests limits (query_lent interpolator query.now)) }
{
    let n = query.values.len();
    let d = query.d;
    if wrong_dimension(interpolator.kriging_type, d) {
        return Err(Refusal::Dimension);
    }
    if !survey_checks::counts::is_product(query.points.len(), n, d) {
        return Err(Refusal::CoordinatesLength);
    }
    if query.targets.len() % d != 0 {
        return Err(Refusal::NodesLength);
    }
    if either_above(n, limits.wells, query.targets.len() / d, limits.nodes) {
        return Err(Refusal::TooMany);
    }
    if number_not_finite(interpolator.variogram, query) {
        return Err(Refusal::NotFinite);
    }
    Ok(())
}

// 17 and 18: what is lent.
fn area_refusal(
    interpolator: KrigingInterpolator,
    query: &Query<'_>,
    areas: &Areas<'_>,
) -> Result<(), Refusal>
    requires { 1 ≤ query.now.d }
    ensures { judged result ≡ first_of (area_tests (query_lent interpolator query.now) (areas_lent areas.now)) }
{
    let size = query.values.len() + trend_terms(interpolator.kriging_type);
    if elimination::too_short(areas.work.len(), size) {
        return Err(Refusal::WorkArea);
    }
    let m = query.targets.len() / query.d;
    if either_above(m, areas.figures.len(), m, areas.variances.len()) {
        return Err(Refusal::AnswerArea);
    }
    Ok(())
}

// The first that applies.
#[tactic(auto, using(crate::proofs::Parts::by_query, crate::proofs::Parts::by_variogram, crate::proofs::Parts::by_areas))]
pub(crate) fn interpolation_refusal(
    limits: Limits,
    interpolator: KrigingInterpolator,
    query: &Query<'_>,
    areas: &Areas<'_>,
) -> Result<(), Refusal>
    ensures { judged result ≡ refusal limits (query_lent interpolator query.now) (areas_lent areas.now) }
{
    query_refusal(limits, interpolator, query)?;
    survey_checks::refusals::variogram_refusal(interpolator.variogram)?;
    area_refusal(interpolator, query, areas)
}
