// The fit, for other languages.
ghost use Rattle.std.specs.Prelude.{◌≡◌};
ghost use Rattle.error.specs.Outcome.{outcome};
ghost use Rattle.survey.specs.Limits.{library};
ghost use Rattle.survey.specs.Survey.{survey_of};
ghost use Rattle.variogram.specs.Numbers.{model_of};
ghost use Rattle.kriging_theory.specs.Areas.{areas_of};
ghost use Rattle.kriging_theory.specs.Fit.{fitted};
ghost use Rattle.nakwemol.specs.Codes.{by_code, unknown_code, options_of};

use crate::codes::{UNKNOWN_CODE, variogram_of};
use kriging::{Areas, universal_kriging_fit};
use survey::{Survey, UniversalKrigingOptions};
use variogram::VariogramModel;

// `universal_kriging_fit`: 0 where the areas hold the answer, else what turned the call away. Below the distance `same_spot` the variogram is 0. 100 where the
// model's code is none, before all others.
// kept: every list, number and area is a parameter of its own, and the answer a number: the C interface
#[unsafe(no_mangle)]
pub extern "C" fn nakwemol_fit(
    values: &[f64],
    coords: &[f64],
    bases: &[u8],
    external: &[f64],
    model: u8,
    nugget: f64,
    sill: f64,
    range: f64,
    same_spot: f64,
    regularization: f64,
    nodes: &[f64],
    node_external: &[f64],
    tolerance: f64,
    work: &mut [f64],
    predicted: &mut [f64],
    variance: &mut [f64],
    verdicts: &mut [u8],
    weights: &mut [f64],
    multipliers: &mut [f64],
    trend: &mut [f64],
) -> u8
    ensures { let a = areas_of work.old predicted.old variance.old verdicts.old
        weights.old multipliers.old trend.old in
        outcome result (areas_of work.new predicted.new variance.new verdicts.new
        weights.new multipliers.new trend.new)
        ≡ by_code (model_of model) (outcome unknown_code a)
        (λ m. fitted library (survey_of values.now coords.now bases.now external.now
        (options_of m nugget sill range same_spot regularization) nodes.now node_external.now tolerance) a) }
{
    let Ok(known) = VariogramModel::try_from(model) else {
        return UNKNOWN_CODE;
    };
    let survey = Survey {
        values,
        coords,
        bases,
        external,
        options: UniversalKrigingOptions {
            variogram: variogram_of(known, nugget, sill, range, same_spot),
            regularization,
        },
        nodes,
        node_external,
        tolerance,
    };
    let mut areas = Areas {
        work,
        predicted,
        variance,
        verdicts,
        weights,
        multipliers,
        trend,
    };
    let fit = universal_kriging_fit(&survey, &mut areas);
    error::ended_by(&fit)
}
