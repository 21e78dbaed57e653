// Universal kriging with external drift, by the Rust's parts. What the fit answers is defined in kriging_theory/specs.
#![tactic(auto)]

mod call; // call.rt: what its parts pass on
mod refusals; // refusals.rt: 1 to 11, 22, 12, 17, 18
mod drift; // drift.rt: the drift columns at the wells and at a node
mod assembly; // assembly.rt: the matrix beside the identity
mod node; // node.rt: one node
mod answer; // answer.rt: the trend and every node, into the areas

ghost use Rattle.std.specs.Prelude.{◌≡◌, ◌≢◌, ◌↔◌, true, ℕ};
ghost use Rattle.error.specs.Outcome.{ended};
ghost use Rattle.error.specs.Rules.{Ruled, NoneApplies};
ghost use Rattle.elimination.specs.Elimination.{stepped, StopsAt, Through};
ghost use Rattle.survey.specs.Limits.{library};
ghost use Rattle.survey.specs.Lent.{survey_lent};
ghost use Rattle.survey.specs.Survey.{size};
ghost use Rattle.kriging_theory.specs.Areas.{with_work};
ghost use Rattle.kriging_theory.specs.Assembly.{assembled};
ghost use Rattle.kriging_theory.specs.Rules.{rules};
ghost use Rattle.kriging_theory.specs.Refusals.{refusal};
ghost use Rattle.kriging_theory.specs.Fit.{fitted};
ghost use Rattle.kriging_theory.specs.Promise.{Promise};
ghost use Rattle.kriging_theory.specs.Untouched.{Untouched};
ghost use Rattle.kriging_theory.specs.System.{Kriged};
ghost use Rattle.kriging_theory.specs.Trend.{TrendKept};
ghost use Rattle.kriging.specs.Lent.{areas_lent, StillLent};

use crate::answer::krige_nodes;
use crate::assembly::assemble;
use crate::call::{Taken, WellDrift};
use crate::drift::fill_drift;
use crate::refusals::fit_refusal;
use error::Refusal;
use exponential::FractionTable;
use survey::{Limits, MOST_DRIFT, Survey};
use survey_checks::counts::{drift_columns, external_columns};

// The areas that a fit is lent. Of a survey of n wells, p columns and m nodes it takes so many of their places.
// kept: seven areas side by side, and not one of nodes, as the calls for C and Python lend them
#[derive(Drop)]
pub struct Areas<'a> {
    // 2 * (n + p) * (n + p), to eliminate in.
    pub work: &'a mut [f64],
    // m figures.
    pub predicted: &'a mut [f64],
    // m variances.
    pub variance: &'a mut [f64],
    // m verdicts.
    pub verdicts: &'a mut [u8],
    // n * m weights, node after node.
    pub weights: &'a mut [f64],
    // p multipliers, the last node's.
    pub multipliers: &'a mut [f64],
    // p numbers of the trend.
    pub trend: &'a mut [f64],
}

impl Areas<'_> {
    // What the work area holds, to read.
    fn finished(&self) -> &[f64]
        ensures { result.now ≡ self.now.work.now }
    {
        self.work
    }
}

// Universal kriging with external drift: the areas hold the answer, or the call is turned away.
// The survey's options carry the variogram with its same-spot distance: below that distance the variogram is 0, between two wells and between a well and a
// node.
pub fn universal_kriging_fit(survey: &Survey<'_>, areas: &mut Areas<'_>) -> Result<(), Refusal>
    ensures promise { Promise library (survey_lent survey.now) (areas_lent areas.old) (ended result (areas_lent areas.new)) }
    ensures shown {  -- its seven fields: the survey, the areas as they were lent, and how the call ended: its number and the areas at exit
        let s = survey_lent survey.now in
        let a = areas_lent areas.old in
        let e = ended result (areas_lent areas.new) in
        let matrix = assembled s a.work in
        -- the whole of it, refused calls too
        let equation : Type 0 = e ≡ fitted library s a in
        -- any number but 0 and 19 is that of the first rule that applies, and then nothing is written
        let ruled : Type 0 = ((k : ℕ) → k ≢ 0 → k ≢ 19 → (e.number ≡ k) ↔ Ruled (rules library s a) k) × (e.number ≢ 0 → e.number ≢ 19 → e.areas ≡ a) in
        -- 19 exactly where no rule applies and some step holds a magnitude below 2^-52; the work area is then as it was before that step
        let stopped : Type 0 = ((e.number ≡ 19) ↔ (NoneApplies (rules library s a) × ((i : ℕ) × StopsAt true (size s) i matrix)))
        × ((i : ℕ) → e.number ≡ 19 → StopsAt true (size s) i matrix → e.areas ≡ with_work a (stepped true (size s) i matrix)) in
        -- 0 exactly where no rule applies and every step goes through
        let accepted : Type 0 = (e.number ≡ 0) ↔ (NoneApplies (rules library s a) × Through true (size s) (size s) matrix) in
        -- past the named lengths every area is as it was, however the call ends
        let kept : Type 0 = Untouched s a e.areas in
        -- the matrix of an accepted fit is the kriging system's, and its areas hold the unknowns: weights, figures, variances, multipliers; and the trend,
        -- from the same inverse
        let kriged : Type 0 = e.number ≡ 0 → Kriged s a e.areas in
        -- demand 3: in an accepted fit each node has exactly the verdict of its own weights and figure, and one that passed keeps the trend bound
        let bounded : Type 0 = TrendKept s e in
        equation × ruled × stopped × accepted × kept × kriged × bounded }
    ensures lent { StillLent areas.old areas.new }
{
    fit_refusal(Limits::library(), survey, areas)?;
    fit_taken(survey, areas)
}

// The fit of a survey that nothing turns away before the elimination.
fn fit_taken(survey: &Survey<'_>, areas: &mut Areas<'_>) -> Result<(), Refusal>
    requires { refusal library (survey_lent survey.now) (areas_lent areas.old) ≡ 0 }
    ensures fitted { ended result (areas_lent areas.new) ≡ fitted library (survey_lent survey.now) (areas_lent areas.old) }
    ensures lent { StillLent areas.old areas.new }
{
    let table = FractionTable::new(); // it is written out whole, so once, and lent
    let taken = Taken {
        survey,
        table: &table,
        p: drift_columns(survey.bases),
        k: external_columns(survey.bases),
    };
    let mut entries = [0.0; MOST_DRIFT]; // kept: a fixed area, of which n * p places count, since there is no heap
    fill_drift(&taken, &mut entries);
    let drift = WellDrift {
        taken: &taken,
        entries: &entries,
        finite: audit::drift_finite(&entries, survey.wells(), taken.p),
    };
    assemble(&drift, areas.work);
    elimination::gauss_jordan_invert_uked(areas.work, taken.size())?;
    krige_nodes(&drift, areas);
    Ok(())
}
