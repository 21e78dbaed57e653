// The interpolator's matrix beside the identity, in the lent work area, and its elimination there.
ghost use Rattle.std.specs.Prelude.{◌≡◌, false, ◌+◌, ◌-◌, ◌*◌, ◌≤◌, ◌<◌, length};
ghost use Rattle.area.specs.Area.{written};
ghost use Rattle.elimination.specs.Elimination.{outcome_of, eliminated};
ghost use Rattle.elimination.specs.Inverse.{laid};
ghost use Rattle.interpolator_theory.specs.Assembly.{entry};
ghost use Rattle.interpolator.specs.Lent.{query_lent};

use crate::known::Known;
use elimination::Stop;
use elimination::layout::complete;

// Row i of the matrix, from the diagonal on.
fn fill_from_diagonal(known: &Known<'_>, i: usize, work: &mut [f64])
    requires { (i < known.now.size) × (i * (2 * known.now.size) + 2 * known.now.size ≤ length work.old) }
    ensures { work.new ≡ written (i * (2 * known.now.size) + i) (known.now.size - i)
        (λ c. entry (query_lent known.now.interpolator known.now.query) i (i + c)) work.old }
{
    let row = i * (2 * known.size);
    for j in i..known.size {
        work[row + j] = known.matrix_entry(i, j);
    }
}

// The matrix beside the identity. It is its own transpose, to the bit: each row is filled from the diagonal on, and what lies before it is copied, so that no
// variogram is evaluated twice.
pub(crate) fn build_covariance_matrix(known: &Known<'_>, work: &mut [f64])
    requires { 2 * known.now.size * known.now.size ≤ length work.old }
    ensures { work.new ≡ laid known.now.size (entry (query_lent known.now.interpolator known.now.query)) work.old }
{
    for i in 0..known.size {
        fill_from_diagonal(known, i, work);
    }
    complete(work, known.size);
}

// The elimination of the matrix, in place: the interpolator's, which skips no zero factor.
pub(crate) fn solve_kriging_system(work: &mut [f64], size: usize) -> Result<(), Stop>
    ensures { outcome_of result work.new ≡ eliminated false size work.old }
{
    elimination::matrix_inverse(work, size)
}
