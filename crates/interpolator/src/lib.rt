// Kriging interpolation. What the call answers is defined in specs/.
#![tactic(auto)]

mod refusals; // refusals.rt: 13, 1, 2, 9, 11, 22, 12, 17, 18
mod trend; // trend.rt: the terms beside the covariances
mod known; // known.rt: what every entry is worked out from, and the entries
mod assembly; // assembly.rt: the matrix beside the identity, and its elimination
mod point; // point.rt: one target, and every target

ghost use Rattle.std.specs.Prelude.{◌≡◌};
ghost use Rattle.error.specs.Outcome.{ended};
ghost use Rattle.survey.specs.Limits.{library};
ghost use Rattle.interpolator.specs.Lent.{interpolator, query_lent, areas_lent, StillLent};
ghost use Rattle.interpolator_theory.specs.Interpolation.{interpolated};
ghost use Rattle.interpolator_theory.specs.Exit.{Promise};

use crate::known::Known;
use error::Refusal;
use exponential::FractionTable;
use interpolator_theory::KrigingType;
use survey::Limits;
use variogram::Variogram;

// Kriging interpolator
#[derive(Clone, Copy)]
pub struct KrigingInterpolator {
    pub kriging_type: KrigingType,
    pub variogram: Variogram,
}

// What is asked: values at points of d numbers each, and targets like the points.
#[derive(Clone, Copy)]
pub struct Query<'a> {
    pub values: &'a [f64],
    pub points: &'a [f64],
    pub targets: &'a [f64],
    pub d: usize,
}

// What is lent: a work area, and areas for the targets' figures and variances.
#[derive(Drop)]
pub struct Areas<'a> {
    pub work: &'a mut [f64],
    pub figures: &'a mut [f64],
    pub variances: &'a mut [f64],
}

impl KrigingInterpolator {
    pub fn new(kriging_type: KrigingType, variogram: Variogram) -> Self
        ensures { result ≡ interpolator kriging_type variogram }
    {
        Self {
            kriging_type,
            variogram,
        }
    }

    // The values at targets, from those at points: their figures and variances, into the lent areas. Below the variogram's same-spot distance the variogram
    // is 0, between two points and between a point and a target.
    pub fn interpolate(self, query: &Query<'_>, areas: &mut Areas<'_>) -> Result<(), Refusal>
        ensures equation { ended result (areas_lent areas.new)
            ≡ interpolated library (query_lent self query.now) (areas_lent areas.old) }
        ensures promise { Promise library (query_lent self query.now) (areas_lent areas.old)
            (ended result (areas_lent areas.new)) }
        ensures lent { StillLent areas.old areas.new }
    {
        refusals::interpolation_refusal(Limits::library(), self, query, areas)?;
        let table = FractionTable::new(); // once: a constant that is read is written out whole
        let known = Known {
            interpolator: self,
            query: *query,
            table: &table,
            size: query.values.len() + trend::trend_terms(self.kriging_type),
        };
        assembly::build_covariance_matrix(&known, areas.work);
        assembly::solve_kriging_system(areas.work, known.size)?;
        point::interpolate_points(&known, areas);
        Ok(())
    }
}
