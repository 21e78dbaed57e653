// What a call takes and what it is lent, as its parts pass them on.
ghost use Rattle.std.specs.Prelude.{◌≡◌, ℕ, ◌*◌, ◌<◌, ◌≤◌, T, length, slice_index_or};
ghost use Rattle.std.specs.Float.{nan};
ghost use Rattle.std.specs.Float.Ieee.Scale.{finite};
ghost use Rattle.std.proofs.Props.{props};
ghost use Rattle.survey.specs.Limits.{library};
ghost use Rattle.semivariogram_theory.specs.Refusals.{most_bins};

// Samples that no test turns away: points of d numbers, row after row, with a value at each, and how many bins their pairs go to.
#[derive(Clone, Copy)]
pub(crate) struct Samples<'a> {
    pub points: &'a [f64],
    pub values: &'a [f64],
    pub d: usize,
    pub n_bins: usize,
    pub ghost dimension: { (1 ≤ d) × (d ≤ 3) },
    pub ghost few: { length values.now ≤ library.wells },
    pub ghost rows: { length points.now ≡ length values.now * d },
    pub ghost coordinates: { (k : ℕ) → k < length points.now → T (finite (slice_index_or points.now k nan)) } by { Prim.hlevel props },
    pub ghost bins: { (1 ≤ n_bins) × (n_bins ≤ most_bins) },
}

// What the call is lent for its answer.
#[derive(Drop)]
pub(crate) struct Areas<'a> {
    pub distances: &'a mut [f64],
    pub semivariances: &'a mut [f64],
    pub counts: &'a mut [usize],
}
