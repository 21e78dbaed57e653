// Gauss–Jordan elimination on a lent work area, which holds the matrix beside the identity: `size` rows of 2 * size numbers, row after row.
// The Rust has it twice: the fit's skips a row whose factor is zero, the interpolator's does not. On zeros with a sign and on NaNs the two differ.
#![tactic(auto)]

pub mod layout; // layout.rt: the matrix beside the identity

ghost use Rattle.std.specs.Prelude.{◌≡◌, true, false, ◌+◌, ◌*◌, ◌≤◌, ◌<◌, length, ltb};
ghost use Rattle.elimination.specs.Elimination.{hold, swapped, divided, reduced, cleared, outcome_of, end_number, refusal_of, eliminated, Numbered};
ghost use Rattle.elimination.specs.Parts.{lessened};

use error::Refusal;

// Why an elimination ends early. Where none does, every step went through: the right half is the inverse.
#[derive(Clone, Copy)]
pub enum Stop {
    // The step whose held pivot is below EPSILON. The area is as it was before that step.
    Pivot(usize),
    // The area has fewer than 2 * size * size numbers, and is as it was.
    TooShort,
}

impl From<Stop> for Refusal {
    ghost from_gives = { λ stop refusal. refusal ≡ refusal_of stop };

    fn from(stop: Stop) -> Refusal {
        match stop {
            Stop::Pivot(_) => Refusal::Singular,
            Stop::TooShort => Refusal::WorkArea,
        }
    }
}

// f64::EPSILON: 2^-52
const EPSILON: f64 = 2.220446049250313e-16;

// The fit's elimination: a row whose factor is zero, of either sign, is skipped.
// kept: this and `matrix_inverse` are two names of one function, since README and docs/TESTS.md name both, as the Rust does.
pub fn gauss_jordan_invert_uked(work: &mut [f64], size: usize) -> Result<(), Stop>
    ensures equation { outcome_of result work.new ≡ eliminated true size work.old }
    ensures numbered { Numbered true size work.old (end_number result) }
{
    eliminate::<true>(work, size)
}

// The interpolator's elimination: every other row is cleared, whatever its factor.
pub fn matrix_inverse(work: &mut [f64], size: usize) -> Result<(), Stop>
    ensures equation { outcome_of result work.new ≡ eliminated false size work.old }
    ensures numbered { Numbered false size work.old (end_number result) }
{
    eliminate::<false>(work, size)
}

// kept: the area and its size, where a `Matrix` with `work: &mut [f64]`, `size` and `fits` could stand: each of its methods that write would have to say that
// the size and the lent place stay, two clauses more for each of four (tried on `divide_row`), and it would spare one bound in `find_pivot` and `clear_others`.
#[tactic(auto, using(crate::proofs::Hold::hold_inside))]
fn eliminate<const SKIP: bool>(work: &mut [f64], size: usize) -> Result<(), Stop>
    ensures { outcome_of result work.new ≡ eliminated SKIP size work.old }
{
    if too_short(work.len(), size) {
        return Err(Stop::TooShort);
    }
    let width = 2 * size;
    for i in 0..size {
        let max_row = find_pivot(work, size, i);
        let max_val = ieee::abs(work[max_row * width + i]);
        if max_val < EPSILON {
            return Err(Stop::Pivot(i));
        }
        if max_row != i {
            swap_rows(work, width, i, max_row);
        }
        divide_row(work, width, i);
        clear_others::<SKIP>(work, size, i);
    }
    Ok(())
}

// 17: whether `len` numbers are fewer than 2 * size * size, which need not fit a word: by division.
pub fn too_short(len: usize, size: usize) -> bool
    ensures { result ≡ ltb len (2 * size * size) }
{
    if size == 0 {
        return false;
    }
    len / 2 / size < size
}

// The row from `i` down whose entry in column `i` has the greatest magnitude. Of equal ones the upper is kept. A NaN in row `i` is kept,
// and one below is never taken.
#[tactic(auto, using(crate::proofs::Hold::taken, crate::proofs::Hold::kept, crate::proofs::Hold::first_row), unfolding(crate::specs::Elimination::hold))]
fn find_pivot(work: &[f64], size: usize, i: usize) -> usize
    requires { (i < size) × (2 * size * size ≤ length work.now) }
    ensures { result ≡ hold size i work.now }
{
    let width = 2 * size;
    let mut max_row = i;
    let mut max_val = ieee::abs(work[i * width + i]);
    for k in i + 1..size {
        let v = ieee::abs(work[k * width + i]);
        if v > max_val {
            max_val = v;
            max_row = k;
        }
    }
    max_row
}

// Rows `i` and `r`, another one, change places.
fn swap_rows(work: &mut [f64], width: usize, i: usize, r: usize)
    requires { (i < r) × (r * width + width ≤ length work.old) }
    ensures { work.new ≡ swapped width i r work.old }
{
    let row = i * width;
    let other = r * width;
    let (above, below) = work.split_at_mut(other);
    above[row..row + width].swap_with_slice(&mut below[..width]);
}

// Row `i` divided by its pivot, its entry in column `i`.
fn divide_row(work: &mut [f64], width: usize, i: usize)
    requires { (i < width) × (i * width + width ≤ length work.old) }
    ensures { work.new ≡ divided width i work.old }
{
    let row = i * width;
    let pivot = work[row + i];
    for x in &mut work[row..row + width] {
        *x /= pivot;
    }
}

// Every row but row `i` less its factor, its entry in column `i`, times row `i`.
fn clear_others<const SKIP: bool>(work: &mut [f64], size: usize, i: usize)
    requires { (i < size) × (2 * size * size ≤ length work.old) }
    ensures { work.new ≡ cleared SKIP (2 * size) i size work.old }
{
    let width = 2 * size;
    for k in 0..size {
        if k != i {
            let factor = work[k * width + i];
            if !SKIP || factor != 0.0 {
                clear_row(work, size, i, k, factor);
            }
        }
    }
}

// Row `k` less `factor` times row `i`: four numbers a turn and, where `size` is odd, the two that are left.
fn clear_row(work: &mut [f64], size: usize, i: usize, k: usize, factor: f64)
    requires { (i ≡ k → ⊥) × (i * (2 * size) + 2 * size ≤ length work.old) × (k * (2 * size) + 2 * size ≤ length work.old) }
    ensures { work.new ≡ reduced (2 * size) i k factor work.old }
{
    let row = i * (2 * size);
    let other = k * (2 * size);
    for turn in 0..size / 2 {
        clear_part::<4>(work, row + 4 * turn, other + 4 * turn, factor);
    }
    if size % 2 == 1 {
        clear_part::<2>(work, row + 2 * (size - 1), other + 2 * (size - 1), factor);
    }
}

// The N numbers from place `other` on, each less `factor` times the one as far from place `row`.
// All are read before one is written: so the compiler takes two at once, and need not ask whether the rows overlap.
fn clear_part<const N: usize>(work: &mut [f64], row: usize, other: usize, factor: f64)
    requires { (row + N ≤ length work.old) × (other + N ≤ length work.old) }
    ensures { work.new ≡ lessened N row other factor work.old }
{
    let mut part = [0.0; N];
    for j in 0..N {
        part[j] = work[other + j] - factor * work[row + j];
    }
    work[other..other + N].copy_from_slice(&part);
}
