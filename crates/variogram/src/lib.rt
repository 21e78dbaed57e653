// The variogram models, and the distances at which they are evaluated.
#![tactic(auto)]

ghost use Rattle.std.specs.Prelude.{◌≡◌, ◌+◌, ◌*◌, ◌≤◌, ◌<◌, true, false, length, take, drop, MatchOption};
ghost use Rattle.std.specs.Float.{nan};
ghost use Rattle.variogram.specs.Model.{variogram, with_same_spot, semivariance, semivariance_by};
ghost use Rattle.variogram.specs.Numbers.{model_number, model_of};
ghost use Rattle.variogram.specs.Distance.{squared_distance2d, distance2d, squares, axis, axis_from, has_point, distance};

use exponential::FractionTable;

// Variogram models, in the Rust's order, with their numbers in a survey file and in an exported call.
#[derive(Clone, Copy, Debug, PartialEq, Eq)]
pub enum VariogramModel {
    Spherical = 1,
    Exponential = 2,
    Gaussian = 3,
    Linear = 4,
}

// A number that no model has.
#[derive(Clone, Copy, Debug, PartialEq, Eq)]
pub struct UnknownModel;

impl From<VariogramModel> for u8 {
    ghost from_gives = { λ model number. number ≡ model_number model };

    fn from(model: VariogramModel) -> u8 {
        model as u8
    }
}

impl TryFrom<u8> for VariogramModel {
    type Error = UnknownModel;

    ghost try_from_gives = { λ number read. read ≡ model_of number };

    fn try_from(number: u8) -> Result<Self, UnknownModel> {
        match number {
            1 => Ok(VariogramModel::Spherical),
            2 => Ok(VariogramModel::Exponential),
            3 => Ok(VariogramModel::Gaussian),
            4 => Ok(VariogramModel::Linear),
            _ => Err(UnknownModel),
        }
    }
}

// Variogram parameters, made by `new`, and by `with_same_spot` for another same-spot distance.
#[derive(Clone, Copy)]
pub struct Variogram {
    pub nugget: f64,
    pub sill: f64,
    pub range: f64,
    // Distances below it are the same spot; one equal to it is not.
    pub same_spot: f64,
    pub model: VariogramModel,
}

// What a dimension that is not offered and a place past the end get.
fn not_a_number() -> f64
    ensures { result ≡ nan }
{
    0.0 / 0.0
}

impl Variogram {
    // 2^-52: the same-spot distance of `new`, and the least that a call takes.
    pub const EPSILON: f64 = 2.220446049250313e-16;

    pub fn new(model: VariogramModel, nugget: f64, sill: f64, range: f64) -> Self
        ensures { result ≡ variogram model nugget sill range }
    {
        Self {
            nugget,
            sill,
            range,
            same_spot: Self::EPSILON,
            model,
        }
    }

    // The same with another same-spot distance.
    pub fn with_same_spot(self, distance: f64) -> Self
        ensures { result ≡ with_same_spot self distance }
    {
        Self {
            same_spot: distance,
            ..self
        }
    }

    // The variogram at the distance h.
    pub fn evaluate(self, h: f64) -> f64
        ensures { result ≡ semivariance self h }
    {
        self.evaluate_with(&FractionTable::new(), h)
    }

    // The same for a caller that evaluates many, and has the table of e^−u made once for all of them.
    pub fn evaluate_with(self, table: &FractionTable, h: f64) -> f64
        ensures { result ≡ semivariance self h }
    {
        self.evaluate_by(&table.entries, h)
    }

    // The same by a table of e^−u that is lent, for a caller that evaluates many: `exponential::fraction_table`'s.
    pub fn evaluate_by(self, lent: &[u64; 512], h: f64) -> f64
        ensures { result ≡ semivariance_by lent.now self h }
    {
        if h < self.same_spot {
            return 0.0;
        }
        let partial_sill = self.sill - self.nugget;
        match self.model {
            VariogramModel::Spherical => {
                if h >= self.range {
                    self.sill
                } else {
                    let h_r = h / self.range;
                    self.nugget + partial_sill * (1.5 * h_r - 0.5 * (h_r * (h_r * h_r)))
                }
            }
            VariogramModel::Exponential => {
                self.nugget + partial_sill * (1.0 - exponential::exp_neg_by(lent, h / self.range))
            }
            VariogramModel::Gaussian => {
                let u = (h * h) / (self.range * self.range);
                self.nugget + partial_sill * (1.0 - exponential::exp_neg_by(lent, u))
            }
            VariogramModel::Linear => {
                let slope = self.sill / self.range;
                self.nugget + slope * ieee::min(h, self.range)
            }
        }
    }
}

// Squared Euclidean distance between two `(x, y)` points.
pub fn squared_distance_2d(ax: f64, ay: f64, bx: f64, by: f64) -> f64
    ensures { result ≡ squared_distance2d ax ay bx by }
{
    let dx = ax - bx;
    let dy = ay - by;
    dx * dx + dy * dy
}

// The distance of the fit: the root of the squared distance.
pub fn distance_2d(ax: f64, ay: f64, bx: f64, by: f64) -> f64
    ensures { result ≡ distance2d ax ay bx by }
{
    ieee::sqrt(squared_distance_2d(ax, ay, bx, by))
}

// The d numbers of a list from a place on, where it has as many.
fn axes(p: &[f64], at: usize, d: usize) -> Option<&[f64]>
    ensures { MatchOption result (length p.now < at + d) (λ a. (at + d ≤ length p.now) × (a.now ≡ take d (drop at p.now))) }
{
    p.get(at..)?.get(..d)
}

// The point i of a list of points of d numbers each, where such points are offered and it lies in the list.
fn point(p: &[f64], i: usize, d: usize) -> Option<&[f64]>
    ensures { MatchOption result (has_point p.now i d ≡ false)
        (λ a. (has_point p.now i d ≡ true) × (a.now ≡ take d (drop (i * d) p.now))) }
{
    if d < 1 || d > 3 || i >= p.len() {
        return None;
    }
    axes(p, i * d, d)
}

// The squared differences of two points of as many numbers, added by rising axis.
// kept: one index for both, since a `zip` of the two took 3.6 ns a pair over two axes, and this takes 2.6.
fn sum_axes(a: &[f64], b: &[f64]) -> f64
    requires as_many { length a.now ≡ length b.now }
    ensures { result ≡ squares (axis a.now) (axis b.now) (length a.now) }
{
    let mut dist_sq = 0.0;
    for (k, x) in a.iter().enumerate() {
        let diff = *x - b[k];
        dist_sq = dist_sq + diff * diff;
    }
    dist_sq
}

// The same for any two places: what is past a list's end is no number, and a sum with none in it is none.
// kept: a list and a place, where a slice could stand, since it answers for places past the end too (docs/STATEMENTS.md: `sum_of_squares`).
pub fn sum_of_squares(p1: &[f64], a: usize, p2: &[f64], b: usize, d: usize) -> f64
    ensures { result ≡ squares (axis_from p1.now a) (axis_from p2.now b) d }
{
    if d == 0 {
        return 0.0;
    }
    let Some(from) = axes(p1, a, d) else {
        return not_a_number();
    };
    let Some(to) = axes(p2, b, d) else {
        return not_a_number();
    };
    sum_axes(from, to)
}

// The distance of the older calls, from the point i of p1 to the point j of p2: lists of points of d numbers each, row after row.
// A NaN where d is not 1, 2 or 3, or where one of the points does not lie in its list.
// kept: lists and places, since it answers for points that are not there too (docs/STATEMENTS.md: `calculate_distance`).
pub fn calculate_distance(p1: &[f64], i: usize, p2: &[f64], j: usize, d: usize) -> f64
    ensures { result ≡ distance p1.now i p2.now j d }
{
    let Some(from) = point(p1, i, d) else {
        return not_a_number();
    };
    let Some(to) = point(p2, j, d) else {
        return not_a_number();
    };
    ieee::sqrt(sum_axes(from, to))
}
