// The matrix of a fit beside the identity, in the lent work area.
ghost use Rattle.std.specs.Prelude.{◌≡◌, ◌+◌, ◌-◌, ◌*◌, ◌≤◌, ◌<◌, length};
ghost use Rattle.area.specs.Area.{written};
ghost use Rattle.survey.specs.Lent.{survey_lent};
ghost use Rattle.survey.specs.Survey.{wells, size};
ghost use Rattle.kriging_theory.specs.Assembly.{between, entry, assembled};

use crate::call::{Taken, WellDrift};
use elimination::layout::complete;

// The entry between wells i and j: 0 + r on the diagonal, else the variogram.
fn gamma(taken: &Taken<'_>, i: usize, j: usize) -> f64
    requires { let s = survey_lent taken.now.survey.now in (i < wells s) × (j < wells s) }
    ensures { let s = survey_lent taken.now.survey.now in result ≡ between s.options s.coords i j }
{
    let options = taken.survey.options;
    if i == j {
        return 0.0 + options.regularization;
    }
    let a = taken.well(i);
    let b = taken.well(j);
    let h = variogram::distance_2d(a.x, a.y, b.x, b.y);
    options.variogram.evaluate_with(taken.table, h)
}

// The entry in row i and column j of the matrix, on the diagonal or past it.
fn matrix_entry(drift: &WellDrift<'_>, i: usize, j: usize) -> f64
    requires { (i ≤ j) × (j < size (survey_lent drift.now.taken.now.survey.now)) }
    ensures { result ≡ entry (survey_lent drift.now.taken.now.survey.now) i j }
{
    let taken = drift.taken;
    let n = taken.survey.wells();
    if j < n {
        return gamma(taken, i, j);
    }
    if i < n {
        return drift.entries[i * taken.p + (j - n)];
    }
    0.0
}

// Row i of the matrix, from the diagonal on.
fn fill_from_diagonal(drift: &WellDrift<'_>, i: usize, work: &mut [f64])
    requires { let s = survey_lent drift.now.taken.now.survey.now in
        (i < size s) × (i * (2 * size s) + 2 * size s ≤ length work.old) }
    ensures { let s = survey_lent drift.now.taken.now.survey.now in
        work.new ≡ written (i * (2 * size s) + i) (size s - i) (λ c. entry s i (i + c)) work.old }
{
    let size = drift.taken.size();
    let row = i * (2 * size);
    for j in i..size {
        work[row + j] = matrix_entry(drift, i, j);
    }
}

// The matrix beside the identity. It is its own transpose, to the bit: each row is filled from the diagonal on, and what lies before it is copied, so that no
// variogram is evaluated twice.
pub(crate) fn assemble(drift: &WellDrift<'_>, work: &mut [f64])
    requires { let s = survey_lent drift.now.taken.now.survey.now in 2 * size s * size s ≤ length work.old }
    ensures { work.new ≡ assembled (survey_lent drift.now.taken.now.survey.now) work.old }
{
    let size = drift.taken.size();
    for i in 0..size {
        fill_from_diagonal(drift, i, work);
    }
    complete(work, size);
}
