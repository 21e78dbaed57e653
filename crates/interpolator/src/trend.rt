// The trend that stands beside and below the covariances: a one, or 1, x, y, xy of the first two axes.
ghost use Rattle.std.specs.Prelude.{◌≡◌, ◌+◌, ◌≤◌, ◌<◌, length, get_or};
ghost use Rattle.std.specs.Float.{nan};
ghost use Rattle.variogram.specs.Distance.{axis_from};
ghost use Rattle.interpolator_theory.specs.Call.{added};
ghost use Rattle.interpolator_theory.specs.Assembly.{trend};

use interpolator_theory::KrigingType;

// The terms of a Universal trend: there are no more.
pub(crate) const MOST_TERMS: usize = 4;

// How many terms it has.
pub(crate) fn trend_terms(kriging_type: KrigingType) -> usize
    ensures { result ≡ added kriging_type }
{
    match kriging_type {
        KrigingType::Ordinary => 1,
        KrigingType::Universal => MOST_TERMS,
    }
}

// Term c at the point that begins at `start`.
pub(crate) fn trend_term(kriging_type: KrigingType, ys: &[f64], start: usize, c: usize) -> f64
    requires { (c < added kriging_type) × (0 < c → start + 2 ≤ length ys.now) }
    ensures { result ≡ get_or (trend kriging_type (axis_from ys.now start)) c nan }
{
    if c == 0 {
        return 1.0;
    }
    let x = ys[start];
    let y = ys[start + 1];
    if c == 1 {
        return x;
    }
    if c == 2 {
        return y;
    }
    x * y
}
