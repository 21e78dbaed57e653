// What turns a survey away, 1 to 11, 22 and 12, in the parts that calls join.
// How many nodes there are, m, stands apart from the survey's own list.
#![tactic(auto, unfolding(error::specs::Tests::first_of, survey::specs::Refusals::number_not_finite))]

ghost use Rattle.std.specs.Prelude.{◌≡◌, length};
ghost use Rattle.error.specs.Numbers.{judged};
ghost use Rattle.error.specs.Tests.{any, first_of};
ghost use Rattle.survey.specs.Survey as Surveys;
ghost use Rattle.survey.specs.Survey.{wells, externals};
ghost use Rattle.survey.specs.Lent.{survey_lent};
ghost use Rattle.survey.specs.Refusals.{bad_code, bad_amount, variogram_not_finite, number_not_finite};
ghost use Rattle.survey.specs.Refusals.{basis_tests, list_tests, limit_tests, number_tests};
ghost use Rattle.survey.specs.Refusals.{spot_tests, model_tests, variogram_tests, survey_refusal};

use crate::counts::{external_columns, is_product, more_columns};
use error::Refusal;
use survey::{DriftBasis, Limits, Survey};
use variogram::{Variogram, VariogramModel};

// 4: whether a code is outside 1 to 4.
fn has_bad_code(bases: &[u8]) -> bool
    ensures { result ≡ any bad_code bases.now }
{
    bases
        .iter()
        .any(|code| DriftBasis::try_from(*code).is_err())
}

// 5 and 10: whether an amount is negative or not finite. -0 is neither.
fn bad_amount(x: f64) -> bool
    ensures { result ≡ bad_amount x }
{
    x < 0.0 || !ieee::is_finite(x)
}

// 3 to 7: the codes of n wells, k of them external, with so many external values and the regularisation.
// kept: counts in place of a survey, since docs/DECISIONS.md promises it of every survey that has them.
pub fn basis_refusal(
    n: usize,
    bases: &[u8],
    k: usize,
    external_length: usize,
    regularization: f64,
) -> Result<(), Refusal>
    ensures { (s : Surveys.Survey) → wells s ≡ n → s.bases ≡ bases.now → externals s ≡ k → length s.external ≡ external_length
        → s.options.regularization ≡ regularization → judged result ≡ first_of (basis_tests s) }
{
    if bases.len() == 0 {
        return Err(Refusal::NoBasis);
    }
    if has_bad_code(bases) {
        return Err(Refusal::BasisCode);
    }
    if bad_amount(regularization) {
        return Err(Refusal::Regularization);
    }
    if !is_product(external_length, k, n) {
        return Err(Refusal::ExternalLength);
    }
    if more_columns(bases, n) {
        return Err(Refusal::TooFewWells);
    }
    Ok(())
}

// 1 to 8: the lists, for m nodes.
pub fn list_refusal(survey: &Survey<'_>, m: usize) -> Result<(), Refusal>
    ensures { judged result ≡ first_of (list_tests (survey_lent survey.now) m survey.now.node_external.now) }
{
    if survey.coords.len() != 2 * survey.wells() {
        return Err(Refusal::CoordinatesLength);
    }
    if survey.nodes.len() % 2 != 0 {
        return Err(Refusal::NodesLength);
    }
    let k = external_columns(survey.bases); // once for 6 and 8
    basis_refusal(
        survey.wells(),
        survey.bases,
        k,
        survey.external.len(),
        survey.options.regularization,
    )?;
    if k > 0 && !is_product(survey.node_external.len(), k, m) {
        return Err(Refusal::NodeExternalLength);
    }
    Ok(())
}

// 9: the limits, for n wells and m nodes.
// kept: counts in place of a survey, since docs/DECISIONS.md promises it of every survey that has them.
pub fn limit_refusal(limits: Limits, n: usize, bases: &[u8], m: usize) -> Result<(), Refusal>
    ensures { (s : Surveys.Survey) → wells s ≡ n → s.bases ≡ bases.now → judged result ≡ first_of (limit_tests limits s m) }
{
    if n > limits.wells {
        return Err(Refusal::TooMany);
    }
    if m > limits.nodes {
        return Err(Refusal::TooMany);
    }
    if more_columns(bases, limits.columns) {
        return Err(Refusal::TooMany);
    }
    Ok(())
}

// 11: whether the nugget, the sill or the range is not finite.
pub fn variogram_not_finite(v: Variogram) -> bool
    ensures { result ≡ variogram_not_finite v }
{
    !ieee::is_finite(v.nugget) || !ieee::is_finite(v.sill) || !ieee::is_finite(v.range)
}

// 11: whether a number is not finite. Node externals count only where a code takes them.
pub fn number_not_finite(survey: &Survey<'_>) -> bool
    ensures { result ≡ number_not_finite (survey_lent survey.now) survey.now.node_external.now }
{
    variogram_not_finite(survey.options.variogram)
        || !ieee::all_finite(survey.values)
        || !ieee::all_finite(survey.coords)
        || !ieee::all_finite(survey.external)
        || !ieee::all_finite(survey.nodes)
        || (external_columns(survey.bases) > 0 && !ieee::all_finite(survey.node_external))
}

// 10 and 11: the numbers.
pub fn number_refusal(survey: &Survey<'_>) -> Result<(), Refusal>
    ensures { judged result ≡ first_of (number_tests (survey_lent survey.now) survey.now.node_external.now) }
{
    if bad_amount(survey.tolerance) {
        return Err(Refusal::Tolerance);
    }
    if number_not_finite(survey) {
        return Err(Refusal::NotFinite);
    }
    Ok(())
}

// 22: a same-spot distance that is not finite or is below 2^-52.
pub fn spot_refusal(v: Variogram) -> Result<(), Refusal>
    ensures { judged result ≡ first_of (spot_tests v) }
{
    if !ieee::is_finite(v.same_spot) {
        return Err(Refusal::SameSpot);
    }
    if v.same_spot < Variogram::EPSILON {
        return Err(Refusal::SameSpot);
    }
    Ok(())
}

// 12: an Exponential model whose range is not above zero.
pub fn model_refusal(v: Variogram) -> Result<(), Refusal>
    ensures { judged result ≡ first_of (model_tests v) }
{
    match v.model {
        VariogramModel::Spherical => Ok(()),
        VariogramModel::Exponential => {
            if v.range > 0.0 {
                Ok(())
            } else {
                Err(Refusal::Model)
            }
        }
        VariogramModel::Gaussian => Ok(()),
        VariogramModel::Linear => Ok(()),
    }
}

// 22, and then 12: the variogram.
pub fn variogram_refusal(v: Variogram) -> Result<(), Refusal>
    ensures { judged result ≡ first_of (variogram_tests v) }
{
    spot_refusal(v)?;
    model_refusal(v)
}

// 1 to 11, 22 and 12: the first that applies.
#[tactic(auto, using(crate::proofs::Parts::by_lists, crate::proofs::Parts::by_limit, crate::proofs::Parts::by_numbers, crate::proofs::Parts::by_variogram))]
pub fn survey_refusal(limits: Limits, survey: &Survey<'_>) -> Result<(), Refusal>
    ensures { judged result ≡ survey_refusal limits (survey_lent survey.now) }
{
    let m = survey.node_count();
    list_refusal(survey, m)?;
    limit_refusal(limits, survey.wells(), survey.bases, m)?;
    number_refusal(survey)?;
    variogram_refusal(survey.options.variogram)
}
