// The answer of an accepted fit, from the finished elimination into the lent areas.
ghost use Rattle.std.specs.Prelude.{◌≡◌, ◌+◌, ◌*◌, ◌≤◌, length, get_or};
ghost use Rattle.std.specs.Float.{nan};
ghost use Rattle.area.specs.Area.{written};
ghost use Rattle.error.specs.Short.{LongEnough};
ghost use Rattle.survey.specs.Lent.{survey_lent};
ghost use Rattle.survey.specs.Survey.{size};
ghost use Rattle.kriging_theory.specs.Areas.{answer_areas};
ghost use Rattle.kriging_theory.specs.Node.{node_of};
ghost use Rattle.kriging_theory.specs.Fit.{answered};
ghost use Rattle.kriging.specs.Lent.{areas_lent, StillLent};

use crate::Areas;
use crate::call::WellDrift;
use crate::node::krige_node;
use survey::MOST_COLUMNS;

// Numbers, stored to an area from place `at` on.
// kept: number after number, since of a copy to a part of the weights the compiler does not see that `wellmap` reads none of them, and keeps room for them:
// 36 KB of its stack.
fn store(numbers: &[f64], area: &mut [f64], at: usize)
    requires { at + length numbers.now ≤ length area.old }
    ensures { area.new ≡ written at (length numbers.now) (λ j. get_or numbers.now j nan) area.old }
{
    for j in 0..numbers.len() {
        area[at + j] = numbers[j];
    }
}

// The trend, and every node. The multipliers are the last node's: each node's are stored over those of the one before, and the first
// one's over zeros.
pub(crate) fn krige_nodes(drift: &WellDrift<'_>, areas: &mut Areas<'_>)
    requires work { let s = survey_lent drift.now.taken.now.survey.now in 2 * size s * size s ≤ length areas.old.work.now }
    requires room { LongEnough (answer_areas (survey_lent drift.now.taken.now.survey.now) (areas_lent areas.old)) }
    ensures lent { StillLent areas.old areas.new }
    ensures answered { let s = survey_lent drift.now.taken.now.survey.now in
        areas_lent areas.new ≡ answered s (areas_lent areas.old) areas.old.work.now (node_of s areas.old.work.now) }
{
    let survey = drift.taken.survey;
    let n = survey.wells();
    let p = drift.taken.p;
    let mut trend = [0.0; MOST_COLUMNS]; // its own, since of lent areas one alone is lent at a time
    solution::fill_trend(areas.finished(), n + p, survey.values, &mut trend); // nodes or none
    areas.trend[0..p].copy_from_slice(&trend[..p]);
    areas.multipliers[0..p].fill(0.0);
    // kept: by the node's number, since five areas have a place for it
    for q in 0..survey.node_count() {
        let node = krige_node(drift, areas.finished(), q);
        areas.predicted[q] = node.figure;
        areas.variance[q] = node.variance;
        areas.verdicts[q] = node.finding.number() as u8;
        store(&node.z[..n], areas.weights, q * n);
        areas.multipliers[0..p].copy_from_slice(&node.z[n..n + p]);
    }
}
