// One target: its right-hand side, z, figure and variance; and every target, into the answer areas.
ghost use Rattle.std.specs.Prelude.{◌≡◌, ◌+◌, ◌*◌, ◌/◌, ◌≤◌, ◌<◌, length, get_or};
ghost use Rattle.std.specs.Float.{nan, binary64};
ghost use Rattle.std.specs.Float.Ieee.{mul};
ghost use Rattle.area.specs.Area.{written};
ghost use Rattle.ieee.specs.Sums.{less_each};
ghost use Rattle.interpolator_theory.specs.Assembly.{column};
ghost use Rattle.interpolator_theory.specs.Interpolation.{figure, variance, answered};
ghost use Rattle.interpolator.specs.Lent.{most_size, query_lent, areas_lent, StillLent};

use crate::Areas;
use crate::known::Known;
use crate::trend::MOST_TERMS;
use survey::MOST_WELLS;

// The size of the greatest system; in contracts, most_size.
const MOST_SIZE: usize = MOST_WELLS + MOST_TERMS;

// b of the target t.
fn fill_right_side(known: &Known<'_>, t: usize, b: &mut [f64])
    requires { (t * known.now.query.d + known.now.query.d ≤ length known.now.query.targets.now) × (known.now.size ≤ length b.old) }
    ensures { b.new ≡ written 0 known.now.size
        (column (query_lent known.now.interpolator known.now.query) known.now.query.targets.now t) b.old }
{
    for i in 0..known.size {
        b[i] = known.column_entry(known.query.targets, t, i);
    }
}

// The sill less each z_i·b_i in turn.
fn sill_less(sill: f64, z: &[f64], b: &[f64], size: usize) -> f64
    requires { (size ≤ length z.now) × (size ≤ length b.now) }
    ensures { result ≡ less_each sill size (λ i. mul binary64 (get_or z.now i nan) (get_or b.now i nan)) }
{
    let mut acc = sill;
    for i in 0..size {
        acc -= z[i] * b[i];
    }
    acc
}

// What a target gets.
#[derive(Clone, Copy)]
pub struct Estimate {
    pub value: f64,
    pub variance: f64,
}

// The target t, from the finished elimination.
fn interpolate_point(known: &Known<'_>, t: usize, areas: &Areas<'_>) -> Estimate
    requires { (t * known.now.query.d + known.now.query.d ≤ length known.now.query.targets.now) × (known.now.size ≤ most_size)
        × (2 * known.now.size * known.now.size ≤ length areas.now.work.now) }
    ensures value { result.value ≡ figure (query_lent known.now.interpolator known.now.query) areas.now.work.now t }
    ensures variance { result.variance ≡ variance (query_lent known.now.interpolator known.now.query) areas.now.work.now t }
{
    let values = known.query.values;
    let mut b = [0.0; MOST_SIZE];
    fill_right_side(known, t, &mut b);
    let mut z = [0.0; MOST_SIZE];
    solution::fill_z(areas.work, known.size, &b, &mut z);
    let value = solution::weighted_sum(&z, values, values.len());
    let variance = ieee::max(
        sill_less(known.interpolator.variogram.sill, &z, &b, known.size),
        0.0,
    );
    Estimate { value, variance }
}

// Every target.
pub(crate) fn interpolate_points(known: &Known<'_>, areas: &mut Areas<'_>)
    requires { (known.now.size ≤ most_size) × (2 * known.now.size * known.now.size ≤ length areas.old.work.now)
        × (length known.now.query.targets.now / known.now.query.d ≤ length areas.old.figures.now)
        × (length known.now.query.targets.now / known.now.query.d ≤ length areas.old.variances.now) }
    ensures answered { areas_lent areas.new
        ≡ answered (query_lent known.now.interpolator known.now.query) (areas_lent areas.old) areas.old.work.now }
    ensures lent { StillLent areas.old areas.new }
{
    for t in 0..known.query.targets.len() / known.query.d {
        let estimate = interpolate_point(known, t, areas);
        areas.figures[t] = estimate.value;
        areas.variances[t] = estimate.variance;
    }
}
