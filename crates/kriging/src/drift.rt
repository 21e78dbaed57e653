// The drift columns: F at the wells, and f0 at a node.
ghost use Rattle.std.specs.Prelude.{◌≡◌, ℕ, ◌+◌, ◌*◌, ◌≤◌, ◌<◌, cond, eqb, length, get_or};
ghost use Rattle.std.specs.Float.{nan};
ghost use Rattle.area.specs.Area.{written, filled};
ghost use Rattle.survey.specs.Lent.{survey_lent};
ghost use Rattle.survey.specs.Survey.{wells, node_count, columns, code_columns, column_sum, external_count};
ghost use Rattle.kriging_theory.specs.Drift.{block, drift_row, node_row, drift};

use crate::call::{Place, Taken};
use survey::DriftBasis;

// The external values of one place: the c-th code 4 takes the one at first + c·step.
#[derive(Clone, Copy)]
struct Externals<'a> {
    values: &'a [f64],
    first: usize,
    step: usize,
}

// 1, x, y
fn fill_linear(at: Place, row: &mut [f64])
    requires { 3 ≤ length row.old }
    ensures { row.new ≡ written 0 3 (λ j. get_or (block 2 at.x at.y nan) j nan) row.old }
{
    row[0] = 1.0;
    row[1] = at.x;
    row[2] = at.y;
}

// 1, x, y, x², xy, y²
fn fill_quadratic(at: Place, row: &mut [f64])
    requires { 6 ≤ length row.old }
    ensures { row.new ≡ written 0 6 (λ j. get_or (block 3 at.x at.y nan) j nan) row.old }
{
    fill_linear(at, row);
    row[3] = at.x * at.x;
    row[4] = at.x * at.y;
    row[5] = at.y * at.y;
}

// The columns of one code at a place, where `used` external values are taken already; and how many it takes.
fn fill_code(code: u8, at: Place, external: &Externals<'_>, used: usize, row: &mut [f64]) -> usize
    requires room { code_columns code ≤ length row.old }
    requires external { code ≡ 4 → external.now.first + used * external.now.step < length external.now.values.now }
    ensures row { row.new ≡ written 0 (code_columns code)
        (λ j. get_or (block code at.x at.y (get_or external.now.values.now (external.now.first + used * external.now.step) nan)) j nan)
        row.old }
    ensures taken { result ≡ cond (eqb code 4) 1 0 }
{
    match DriftBasis::try_from(code) {
        Ok(DriftBasis::Constant) => {
            row[0] = 1.0;
            0
        }
        Ok(DriftBasis::Linear) => {
            fill_linear(at, row);
            0
        }
        Ok(DriftBasis::Quadratic) => {
            fill_quadratic(at, row);
            0
        }
        Ok(DriftBasis::External) => {
            row[0] = external.values[external.first + used * external.step];
            1
        }
        Err(_) => 0,
    }
}

// The columns of every code at one place, in basis order.
fn fill_row(bases: &[u8], at: Place, external: &Externals<'_>, row: &mut [f64])
    requires room { column_sum bases.now ≤ length row.old }
    requires external { (c : ℕ) → c < external_count bases.now
        → external.now.first + c * external.now.step < length external.now.values.now }
    ensures { row.new ≡ written 0 (column_sum bases.now)
        (λ j. get_or (drift_row bases.now at.x at.y
        (λ c. get_or external.now.values.now (external.now.first + c * external.now.step) nan) 0) j nan)
        row.old }
{
    let mut col = 0;
    let mut used = 0;
    for code in bases {
        used += fill_code(*code, at, external, used, &mut row[col..]);
        col += survey_checks::counts::drift_basis_columns(*code);
    }
}

// Row i of F: the external columns of the n wells lie column after column.
fn fill_drift_row(taken: &Taken<'_>, i: usize, row: &mut [f64])
    requires { let s = survey_lent taken.now.survey.now in (i < wells s) × (columns s ≤ length row.old) }
    ensures { let s = survey_lent taken.now.survey.now in row.new ≡ written 0 (columns s) (drift s i) row.old }
{
    let survey = taken.survey;
    let external = Externals {
        values: survey.external,
        first: i,
        step: survey.wells(),
    };
    fill_row(survey.bases, taken.well(i), &external, row);
}

// f0 of node q: the k external values of the nodes lie node after node.
pub(crate) fn fill_query_drift_row(taken: &Taken<'_>, q: usize, row: &mut [f64])
    requires { let s = survey_lent taken.now.survey.now in (q < node_count s) × (columns s ≤ length row.old) }
    ensures { let s = survey_lent taken.now.survey.now in
        row.new ≡ written 0 (columns s) (λ j. get_or (node_row s q) j nan) row.old }
{
    let survey = taken.survey;
    let external = Externals {
        values: survey.node_external,
        first: q * taken.k,
        step: 1,
    };
    fill_row(survey.bases, taken.node(q), &external, row);
}

// F, row after row: the drift columns at each of the n wells.
pub(crate) fn fill_drift(taken: &Taken<'_>, entries: &mut [f64])
    requires { length taken.now.survey.now.values.now * taken.now.p ≤ length entries.old }
    ensures { let s = survey_lent taken.now.survey.now in entries.new ≡ filled (columns s) (wells s) (drift s) entries.old }
{
    let p = taken.p;
    for i in 0..taken.survey.wells() {
        fill_drift_row(taken, i, &mut entries[i * p..(i + 1) * p]);
    }
}
