// One node: its right-hand side, z, figure, variance and verdict.
ghost use Rattle.std.specs.Prelude.{◌≡◌, ◌+◌, ◌*◌, ◌≤◌, ◌<◌, length, take, drop};
ghost use Rattle.area.specs.Area.{written};
ghost use Rattle.audit.specs.Audit.{column_verdict_given, number_of};
ghost use Rattle.audit.specs.Lists.{weighed_in};
ghost use Rattle.survey.specs.Limits.{most_size};
ghost use Rattle.survey.specs.Lent.{survey_lent};
ghost use Rattle.survey.specs.Survey.{wells, node_count, size};
ghost use Rattle.kriging_theory.specs.Node.{gamma_to, right_hand, z_of, variance_of, node_of};

use crate::call::{Place, Taken, WellDrift};
use crate::drift::fill_query_drift_row;
use audit::Finding;
use survey::MOST_SIZE;

// The variogram from a place to each of the n wells.
fn fill_gamma(taken: &Taken<'_>, at: Place, b: &mut [f64])
    requires { wells (survey_lent taken.now.survey.now) ≤ length b.old }
    ensures { let s = survey_lent taken.now.survey.now in
        b.new ≡ written 0 (wells s) (gamma_to s.options.variogram s.coords at.x at.y) b.old }
{
    let variogram = taken.survey.options.variogram;
    // kept: by the well's number, which its place is asked for by: pairs of an iterator say no more
    for i in 0..taken.survey.wells() {
        let well = taken.well(i);
        let h = variogram::distance_2d(well.x, well.y, at.x, at.y);
        b[i] = variogram.evaluate_with(taken.table, h);
    }
}

// b of node q: the variogram to each of the n wells, then f0.
fn fill_right_hand(taken: &Taken<'_>, q: usize, b: &mut [f64])
    requires { let s = survey_lent taken.now.survey.now in (q < node_count s) × (size s ≤ length b.old) }
    ensures { let s = survey_lent taken.now.survey.now in take (size s) b.new ≡ right_hand s q }
{
    fill_gamma(taken, taken.node(q), b);
    fill_query_drift_row(taken, q, &mut b[taken.survey.wells()..]);
}

// A node without the values: z, its variance, and what rows 1 to p find.
#[derive(Clone, Copy)]
struct Solution {
    // kept: a fixed area, of which n + p places count, since there is no heap
    z: [f64; MOST_SIZE],
    variance: f64,
    columns: Finding,
}

fn solve_node(drift: &WellDrift<'_>, work: &[f64], b: &[f64]) -> Solution
    requires { (wells (survey_lent drift.now.taken.now.survey.now) ≤ length b.now) × (length b.now ≤ most_size)
        × (2 * length b.now * length b.now ≤ length work.now) }
    ensures places { length result.z ≡ most_size }
    ensures z { take (length b.now) result.z ≡ z_of (length b.now) work.now b.now }
    ensures variance { result.variance ≡ variance_of (length b.now) result.z b.now }
    ensures columns { let s = survey_lent drift.now.taken.now.survey.now in
        number_of result.columns ≡ column_verdict_given drift.now.finite
        (weighed_in (take (wells s) result.z) drift.now.entries.now (drop (wells s) b.now) s.tolerance) }
{
    let survey = drift.taken.survey;
    let n = survey.wells();
    let mut z = [0.0; MOST_SIZE];
    solution::fill_z(work, b.len(), b, &mut z);
    let variance = ieee::max(solution::weighted_sum(&z, b, b.len()), 0.0);
    let columns = audit::audit_columns(
        &z[..n],
        drift.entries,
        drift.finite,
        &b[n..],
        survey.tolerance,
    );
    Solution {
        z,
        variance,
        columns,
    }
}

// What a node gets: z with its weights, its figure, its variance and what its audit finds.
#[derive(Clone, Copy)]
pub(crate) struct Node {
    pub z: [f64; MOST_SIZE],
    pub figure: f64,
    pub variance: f64,
    pub finding: Finding,
}

// Node q, from the finished elimination: first what does not depend on the values, then what does.
pub(crate) fn krige_node(drift: &WellDrift<'_>, work: &[f64], q: usize) -> Node
    requires { let s = survey_lent drift.now.taken.now.survey.now in
        (q < node_count s) × (2 * size s * size s ≤ length work.now) }
    ensures places { length result.z ≡ most_size }
    ensures byte { number_of result.finding < 256 }
    ensures z { let s = survey_lent drift.now.taken.now.survey.now in take (size s) result.z ≡ (node_of s work.now q).z }
    ensures figure { result.figure ≡ (node_of (survey_lent drift.now.taken.now.survey.now) work.now q).figure }
    ensures variance { result.variance ≡ (node_of (survey_lent drift.now.taken.now.survey.now) work.now q).variance }
    ensures verdict { number_of result.finding ≡ (node_of (survey_lent drift.now.taken.now.survey.now) work.now q).verdict }
{
    let taken = drift.taken;
    let survey = taken.survey;
    let n = survey.wells();
    let mut b = [0.0; MOST_SIZE];
    fill_right_hand(taken, q, &mut b);
    let b = &b[..taken.size()];
    let solution = solve_node(drift, work, b);
    let z = solution.z;
    let figure = solution::weighted_sum(&z, survey.values, n);
    let finding = audit::audit_figure(
        solution.columns,
        &z[..n],
        &b[n..],
        survey.values,
        figure,
        survey.tolerance,
    );
    Node {
        z,
        figure,
        variance: solution.variance,
        finding,
    }
}
