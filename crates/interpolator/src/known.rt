// What every entry of the matrix and of a right-hand side is worked out from, and the entries.
ghost use Rattle.std.specs.Prelude.{◌≡◌, ◌+◌, ◌*◌, ◌≤◌, ◌<◌, length};
ghost use Rattle.std.specs.Float.{binary64};
ghost use Rattle.std.specs.Float.Ieee.{sub};
ghost use Rattle.variogram.specs.Model.{semivariance};
ghost use Rattle.variogram.specs.Distance.{distance};
ghost use Rattle.interpolator_theory.specs.declared.KrigingType.TheVariants.{Universal};
ghost use Rattle.interpolator_theory.specs.Call.{added};
ghost use Rattle.interpolator_theory.specs.Assembly.{column, entry};
ghost use Rattle.interpolator.specs.Lent.{query_lent};

use crate::trend::trend_term;
use crate::{KrigingInterpolator, Query};
use exponential::FractionTable;

// An interpolator, what is asked of it, past the refusals, and the size of the system. The table is that of e^−u, which the call makes once: a variogram that
// made its own would write it out for each entry.
#[derive(Clone, Copy)]
pub(crate) struct Known<'a> {
    pub interpolator: KrigingInterpolator,
    pub query: Query<'a>,
    pub table: &'a FractionTable,
    pub size: usize,
    pub ghost sized: { size ≡ length query.values.now + added interpolator.kriging_type },
    pub ghost surface: { interpolator.kriging_type ≡ Universal → 2 ≤ query.d },
    pub ghost axes: { 1 ≤ query.d },
    pub ghost placed: { length query.values.now * query.d ≤ length query.points.now },
}

impl Known<'_> {
    // Sill less the variogram, between the known point i and the point j of a list. On the diagonal too: the variogram is 0 there.
    fn covariance(&self, i: usize, ys: &[f64], j: usize) -> f64
        ensures { result ≡ sub binary64 self.now.interpolator.variogram.sill
            (semivariance self.now.interpolator.variogram (distance self.now.query.points.now i ys.now j self.now.query.d)) }
    {
        let variogram = self.interpolator.variogram;
        let dist = variogram::calculate_distance(self.query.points, i, ys, j, self.query.d);
        variogram.sill - variogram.evaluate_with(self.table, dist)
    }

    // Entry i of the column of the point j of a list: its covariance with each known point, then its trend.
    pub(crate) fn column_entry(&self, ys: &[f64], j: usize, i: usize) -> f64
        requires inside { i < self.now.size }
        requires listed { j * self.now.query.d + self.now.query.d ≤ length ys.now }
        ensures { result ≡ column (query_lent self.now.interpolator self.now.query) ys.now j i }
    {
        let n = self.query.values.len();
        if i < n {
            return self.covariance(i, ys, j);
        }
        trend_term(self.interpolator.kriging_type, ys, j * self.query.d, i - n)
    }

    // The entry in row i and column j of the matrix.
    pub(crate) fn matrix_entry(&self, i: usize, j: usize) -> f64
        requires row { i < self.now.size }
        requires column { j < self.now.size }
        ensures { result ≡ entry (query_lent self.now.interpolator self.now.query) i j }
    {
        let n = self.query.values.len();
        if j < n {
            return self.column_entry(self.query.points, j, i);
        }
        if i < n {
            return trend_term(
                self.interpolator.kriging_type,
                self.query.points,
                i * self.query.d,
                j - n,
            );
        }
        0.0
    }
}
