// The semivariogram, for other languages.
ghost use Rattle.std.specs.Prelude.{◌≡◌};
ghost use Rattle.survey.specs.Limits.{library};
ghost use Rattle.semivariogram_theory.specs.Call.{samples_of, areas_of};
ghost use Rattle.semivariogram_theory.specs.Semivariogram.{calculated};
ghost use Rattle.nakwemol.specs.Told.{ending, bins_told};

use crate::told::tell_count;
use semivariogram::SemivariogramCalculator;

// `calculate` of the semivariogram calculator: 0 where the areas hold the kept bins, and kept how many they are; else what turned the call away.
// kept: how many is told at a place of its own: the C interface
#[unsafe(no_mangle)]
pub extern "C" fn nakwemol_semivariogram(
    points: &[f64],
    values: &[f64],
    d: usize,
    n_bins: usize,
    distances: &mut [f64],
    semivariances: &mut [f64],
    counts: &mut [usize],
    kept: &mut usize,
) -> u8
    ensures { ending result kept.new (areas_of distances.new semivariances.new counts.new)
        ≡ bins_told (calculated library (samples_of points.now values.now d n_bins)
        (areas_of distances.old semivariances.old counts.old)) kept.old }
{
    let bins = SemivariogramCalculator::calculate(
        points,
        values,
        d,
        n_bins,
        distances,
        semivariances,
        counts,
    );
    tell_count(bins, kept)
}
