// z = inverse · b and the trend, from a finished elimination; and sums of products in turn.
#![tactic(auto)]

ghost use Rattle.std.specs.Prelude.{◌≡◌, ◌+◌, ◌*◌, ◌≤◌, ◌<◌, length, get_or, MatchOption, ℕ, List, Float};
ghost use Rattle.std.specs.Float.{nan, binary64};
ghost use Rattle.std.specs.Float.Ieee.{mul};
ghost use Rattle.area.specs.Area.{written};
ghost use Rattle.ieee.specs.Sums.{running_sum};
ghost use Rattle.elimination.specs.Inverse.{inverse_at, times_inverse};
ghost use Rattle.solution.specs.Solution.{solved};
ghost use Rattle.solution.specs.Slopes.{estimated};

// The products of the numbers at the same places of two lists, summed from 0 in turn.
fn summed_products(xs: &[f64], ys: &[f64]) -> f64
    requires { length xs.now ≡ length ys.now }
    ensures { result ≡ running_sum (length xs.now) (λ i. mul binary64 (get_or xs.now i nan) (get_or ys.now i nan)) }
{
    let mut acc = 0.0; // not the first product, which may be -0
    for (x, y) in xs.iter().zip(ys) {
        acc += *x * *y;
    }
    acc
}

// A finished elimination: `size` rows of 2 * size numbers, whose right halves are the inverse.
#[derive(Clone, Copy)]
struct Inverse<'a> {
    work: &'a [f64],
    size: usize,
    ghost fits: { 2 * size * size ≤ length work.now },
}

impl<'a> Inverse<'a> {
    // Of a work area after its elimination, where it is long enough.
    fn of(work: &'a [f64], size: usize) -> Option<Inverse<'a>>
        ensures { MatchOption result (length work.now < 2 * size * size)
            (λ inverse. (inverse.work.now ≡ work.now) × (inverse.size ≡ size) × (2 * size * size ≤ length work.now)) }
    {
        if elimination::too_short(work.len(), size) {
            return None;
        }
        Some(Inverse { work, size })
    }

    // Row `i`.
    fn row(&self, i: usize) -> &'a [f64]
        requires { i < self.now.size }
        ensures long { length result.now ≡ self.now.size }
        ensures entries { (j : ℕ) → j < self.now.size → get_or result.now j nan ≡ inverse_at self.now.size self.now.work.now i j }
    {
        let row = i * (2 * self.size) + self.size;
        &self.work[row..row + self.size]
    }

    // Row `i` times the first `count` numbers of b, summed from 0 by rising column.
    fn one_row(&self, b: &[f64], count: usize, i: usize) -> f64
        requires { (i < self.now.size) × (count ≤ self.now.size) × (count ≤ length b.now) }
        ensures { result ≡ running_sum count (λ j. mul binary64 (inverse_at self.now.size self.now.work.now i j) (get_or b.now j nan)) }
    {
        summed_products(&self.row(i)[..count], &b[..count])
    }

    // Rows i to i + 3 times b, side by side. Each is summed from 0 by rising column; an addition waits for the one before it in its own row,
    // and not for those of the other rows.
    // kept: four names and one index, since a `zip` of five lists yields pairs in pairs, and is no plainer.
    fn four_rows(&self, b: &[f64], i: usize) -> [f64; 4]
        requires { (i + 3 < self.now.size) × (self.now.size ≤ length b.now) }
        ensures { (k : ℕ) → k < 4 → get_or result k nan ≡ times_inverse self.now.size self.now.work.now (λ j. get_or b.now j nan) (i + k) }
    {
        let first_row = self.row(i);
        let second_row = self.row(i + 1);
        let third_row = self.row(i + 2);
        let fourth_row = self.row(i + 3);
        let mut first = 0.0;
        let mut second = 0.0;
        let mut third = 0.0;
        let mut fourth = 0.0;
        for j in 0..self.size {
            let x = b[j];
            first += first_row[j] * x;
            second += second_row[j] * x;
            third += third_row[j] * x;
            fourth += fourth_row[j] * x;
        }
        [first, second, third, fourth]
    }

    // The entries of z from row `from` on, which four at a time left over.
    fn fill_last_rows(&self, b: &[f64], from: usize, z: &mut [f64])
        requires { (from ≤ self.now.size) × (self.now.size ≤ length b.now) × (self.now.size ≤ length z.old) }
        ensures { (xs : List Float) → z.old ≡ written 0 from (times_inverse self.now.size self.now.work.now (λ j. get_or b.now j nan)) xs
            → z.new ≡ written 0 self.now.size (times_inverse self.now.size self.now.work.now (λ j. get_or b.now j nan)) xs }
    {
        for i in from..self.size {
            z[i] = self.one_row(b, self.size, i);
        }
    }

    // Every entry of z: four rows at a time, then those that are left over.
    fn fill_rows(&self, b: &[f64], z: &mut [f64])
        requires { (self.now.size ≤ length b.now) × (self.now.size ≤ length z.old) }
        ensures { z.new ≡ written 0 self.now.size (times_inverse self.now.size self.now.work.now (λ j. get_or b.now j nan)) z.old }
    {
        let turns = self.size / 4;
        for turn in 0..turns {
            let i = 4 * turn;
            z[i..i + 4].copy_from_slice(&self.four_rows(b, i));
        }
        self.fill_last_rows(b, 4 * turns, z);
    }
}

// z = inverse · b, from a work area of `size` rows after its elimination. Where it is no such area, b is shorter or z has no room, z stays as it is.
// kept: an area and its size, since it answers for areas that are none too (docs/DECISIONS.md: `fill_z`).
pub fn fill_z(work: &[f64], size: usize, b: &[f64], z: &mut [f64])
    ensures { z.new ≡ solved size work.now b.now z.old }
{
    let Some(inverse) = Inverse::of(work, size) else {
        return;
    };
    if b.len() < size {
        return;
    }
    if z.len() < size {
        return;
    }
    inverse.fill_rows(b, z);
}

// The trend's estimate, from a work area of `size` rows after its elimination: for each row past the wells', that row of the inverse times the values,
// summed from 0 well after well. Where it is no such area or the trend has no room, the trend stays as it is.
// kept: an area and its size, since it answers for areas that are none too (specs/Slopes: `estimated`).
pub fn fill_trend(work: &[f64], size: usize, values: &[f64], trend: &mut [f64])
    ensures { trend.new ≡ estimated size work.now values.now trend.old }
{
    let n = values.len();
    let Some(inverse) = Inverse::of(work, size) else {
        return;
    };
    if size < n {
        return;
    }
    let p = size - n;
    if trend.len() < p {
        return;
    }
    for j in 0..p {
        trend[j] = inverse.one_row(values, n, n + j);
    }
}

// Σ z_i·number_i over the first `count`, summed from 0: the figure with the values, the variance with b. A list that is shorter has no number there,
// and a sum with no number in it is none.
// kept: two lists and a count, since it answers for lists that are shorter too (docs/DECISIONS.md: `weighted_sum`).
pub fn weighted_sum(z: &[f64], numbers: &[f64], count: usize) -> f64
    ensures { result ≡ running_sum count (λ i. mul binary64 (get_or z.now i nan) (get_or numbers.now i nan)) }
{
    if z.len() < count {
        return 0.0 / 0.0;
    }
    if numbers.len() < count {
        return 0.0 / 0.0;
    }
    summed_products(&z[..count], &numbers[..count])
}
