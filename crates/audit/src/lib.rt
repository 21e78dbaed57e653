// The audit of one node: which numbers are finite, which rows are met, the verdict. What it answers is defined in specs/.
#![tactic(auto)]

ghost use Rattle.std.specs.Prelude.{◌≡◌, [], ◌+◌, ◌*◌, length};
ghost use Rattle.std.specs.Float.Ieee.Scale.{finite};
ghost use Rattle.exact.specs.Products.{dotted};
ghost use Rattle.estimate.specs.Estimate.{rounded_sum, rounded_size, clearly};
ghost use Rattle.audit.specs.Audit.{within, drift_finite, column_verdict_given, verdict_with, number_of};
ghost use Rattle.audit.specs.Lists.{number_in, AllFit, entry_in, weighed_in, audited_in};

// Whether the number at a place of a list is finite. Past the list's end there is none.
fn finite_at(numbers: &[f64], at: usize) -> bool
    ensures { result ≡ finite (number_in numbers.now at) }
{
    if at < numbers.len() {
        return ieee::is_finite(numbers[at]);
    }
    false
}

// Whether every entry of F is finite: the first `wells` rows of `columns` numbers, row after row. The scan leaves both loops at its first bad entry,
// and the end of the list is one. So its place in the list never leaves the list, however large the product of the two counts is.
pub fn drift_finite(drift: &[f64], wells: usize, columns: usize) -> bool
    ensures { result ≡ drift_finite wells columns (entry_in drift.now columns) }
{
    if columns == 0 {
        return true; // there is no entry to look at
    }
    let mut good = true; // kept: the scope, 01, "Language forms in the code", names the labelled break out of the nest of wells and columns
    let mut at = 0;
    'wells: for i in 0..wells {
        for j in 0..columns {
            if !finite_at(drift, at) {
                good = false;
                break 'wells;
            }
            at += 1;
        }
    }
    good
}

// Two sums with rounding: of terms, and of their magnitudes.
#[derive(Clone, Copy)]
struct Sums {
    sum: f64,
    size: f64,
}

// Σ z_i·x_i and Σ |z_i·x_i|, in turn, each operation rounded. Where the numbers end before the weights there is no number to take: the sums are none.
fn rounded_sums(weights: &[f64], numbers: &[f64], column: usize, width: usize) -> Sums
    ensures sum { result.sum ≡ rounded_sum (length weights.now) (number_in weights.now)
        (λ i. number_in numbers.now (column + i * width)) }
    ensures size { result.size ≡ rounded_size (length weights.now) (number_in weights.now)
        (λ i. number_in numbers.now (column + i * width)) }
    ensures lists { AllFit weights.now × AllFit numbers.now }
{
    let mut sum = 0.0;
    let mut size = 0.0;
    let mut at = column;
    for weight in weights {
        if at >= numbers.len() {
            return Sums {
                sum: 0.0 / 0.0,
                size: 0.0 / 0.0,
            };
        }
        let term = *weight * numbers[at];
        sum += term;
        size += ieee::abs(term);
        at = at.saturating_add(width); // kept: it goes by the width, which may be 0, where step_by takes no step of 0
    }
    Sums { sum, size }
}

// The least that a row has to be within for sums with rounding to tell: 2^-1000.
const LEAST_MARGIN: f64 = 9.332636185032189e-302;

// What of the margin the terms' magnitudes may come to, all together: 2^36 times it.
const SHARE: f64 = 1.4551915228366852e-11;

// Whether n terms with these sums meet their row so clearly that no rounding can have hidden a miss.
fn clearly_met(n: usize, sums: Sums, target: f64, tolerance: f64) -> bool
    ensures { result ≡ clearly n sums.sum sums.size target tolerance }
{
    let margin = tolerance * ieee::max(ieee::abs(target), 1.0);
    if n > 1024 {
        return false;
    }
    if !ieee::is_finite(margin) {
        return false;
    }
    if !ieee::is_finite(sums.size) {
        return false;
    }
    if !(LEAST_MARGIN <= margin) {
        return false;
    }
    if !(16.0 * ieee::abs(sums.sum - target) <= margin) {
        return false;
    }
    sums.size * SHARE <= margin
}

// A row of the audit: weights with a column of numbers, whose rows are of a width, the target that their sum should be, and the tolerance.
#[derive(Clone, Copy)]
struct Row<'a> {
    weights: &'a [f64],
    numbers: &'a [f64],
    column: usize,
    width: usize,
    target: f64,
    tolerance: f64,
}

// |Σ z_i·x_i − target| ≤ t·(1 + |target|). Both sides are exact sums.
fn exactly_met(row: &Row<'_>) -> bool
    ensures { result ≡ within row.now.tolerance
        (dotted row.now.weights.now row.now.numbers.now row.now.column row.now.width) row.now.target }
{
    let sum = exact::dot_product(row.weights, row.numbers, row.column, row.width);
    let missing = exact::sub_product(sum, row.target, 1.0);
    let one = exact::add_product([0; 67], row.tolerance, 1.0);
    let allowed = exact::add_product(one, row.tolerance, ieee::abs(row.target));
    let compared = words::compare(words::magnitude(missing), allowed);
    compared.is_at_most()
}

// The same. Where sums with rounding leave no doubt that the row is met, the exact ones, which say the same, are not worked out.
fn row_met(row: &Row<'_>) -> bool
    ensures { result ≡ within row.now.tolerance
        (dotted row.now.weights.now row.now.numbers.now row.now.column row.now.width) row.now.target }
{
    let sums = rounded_sums(row.weights, row.numbers, row.column, row.width);
    if clearly_met(row.weights.len(), sums, row.target, row.tolerance) {
        return true;
    }
    exactly_met(row)
}

// What an audit finds of a node: that it passed, the first row that it missed, counted from 1, or that a number is not finite. Its number is the verdict.
#[derive(Clone, Copy)]
pub enum Finding {
    Passed,
    Missed(usize),
    NotFinite,
}

impl Finding {
    // The verdict, as the paper numbers it.
    pub fn number(self) -> usize
        ensures { result ≡ number_of self }
    {
        match self {
            Self::Passed => 0,
            Self::Missed(row) => row,
            Self::NotFinite => 255,
        }
    }
}

// Rows 1 to p, which read no value. F is the same for every node, so whether it is finite is looked at once, by `drift_finite`.
pub fn audit_columns(
    weights: &[f64],
    drift: &[f64],
    finite_drift: bool,
    f0: &[f64],
    tolerance: f64,
) -> Finding
    ensures { number_of result
        ≡ column_verdict_given finite_drift (weighed_in weights.now drift.now f0.now tolerance) }
{
    if !ieee::all_finite(weights) {
        return Finding::NotFinite;
    }
    if !finite_drift {
        return Finding::NotFinite;
    }
    if !ieee::all_finite(f0) {
        return Finding::NotFinite;
    }
    for j in 0..f0.len() {
        let row = Row {
            weights,
            numbers: drift,
            column: j,
            width: f0.len(),
            target: f0[j],
            tolerance,
        };
        if !row_met(&row) {
            return Finding::Missed(j + 1);
        }
    }
    Finding::Passed
}

// Row p + 1, and the verdict: where the figure is finite, that of rows 1 to p, unless they passed. Of f0 it takes how many there are, and of F nothing.
pub fn audit_figure(
    columns: Finding,
    weights: &[f64],
    f0: &[f64],
    values: &[f64],
    figure: f64,
    tolerance: f64,
) -> Finding
    ensures { number_of result ≡ verdict_with (number_of columns)
        (audited_in (weighed_in weights.now [] f0.now tolerance) values.now figure) }
{
    if !ieee::is_finite(figure) {
        return Finding::NotFinite;
    }
    if columns.number() != 0 {
        return columns;
    }
    let row = Row {
        weights,
        numbers: values,
        column: 0,
        width: 1,
        target: figure,
        tolerance,
    };
    if row_met(&row) {
        return Finding::Passed;
    }
    Finding::Missed(f0.len() + 1)
}
