// The interpolator, for other languages.
ghost use Rattle.std.specs.Prelude.{◌≡◌};
ghost use Rattle.error.specs.Outcome.{outcome};
ghost use Rattle.survey.specs.Limits.{library};
ghost use Rattle.variogram.specs.Numbers.{model_of};
ghost use Rattle.interpolator_theory.specs.Types.{type_of};
ghost use Rattle.interpolator_theory.specs.Call.{areas_of};
ghost use Rattle.interpolator_theory.specs.Interpolation.{interpolated};
ghost use Rattle.nakwemol.specs.Codes.{by_code, unknown_code, variogram_of, query_of};

use crate::codes::{UNKNOWN_CODE, variogram_of};
use interpolator::{Areas, KrigingInterpolator, Query};
use interpolator_theory::KrigingType;
use variogram::VariogramModel;

// `interpolate` of the interpolator of a kriging type and a variogram, which is 0 below the distance `same_spot`: 0 where the areas hold the answer, else what
// turned the call away. 100 where the kriging type's code or the model's is none, before all others.
// kept: every list, number and area is a parameter of its own, and the answer a number: the C interface
#[unsafe(no_mangle)]
pub extern "C" fn nakwemol_interpolate(
    values: &[f64],
    points: &[f64],
    targets: &[f64],
    d: usize,
    kriging_type: u8,
    model: u8,
    nugget: f64,
    sill: f64,
    range: f64,
    same_spot: f64,
    work: &mut [f64],
    figures: &mut [f64],
    variances: &mut [f64],
) -> u8
    ensures { let a = areas_of work.old figures.old variances.old in
        outcome result (areas_of work.new figures.new variances.new)
        ≡ by_code (type_of kriging_type) (outcome unknown_code a) (λ t. by_code (model_of model) (outcome unknown_code a)
        (λ m. interpolated library (query_of t (variogram_of m nugget sill range same_spot)
        values.now points.now targets.now d) a)) }
{
    let Ok(known_type) = KrigingType::try_from(kriging_type) else {
        return UNKNOWN_CODE;
    };
    let Ok(known) = VariogramModel::try_from(model) else {
        return UNKNOWN_CODE;
    };
    let variogram = variogram_of(known, nugget, sill, range, same_spot);
    let query = Query {
        values,
        points,
        targets,
        d,
    };
    let mut areas = Areas {
        work,
        figures,
        variances,
    };
    let kriging = KrigingInterpolator::new(known_type, variogram);
    let interpolation = kriging.interpolate(&query, &mut areas);
    error::ended_by(&interpolation)
}
