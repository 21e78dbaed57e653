// What turns a fit away before it eliminates: the survey's refusals, 1 to 11, 22 and 12, then the work area's, 17, and the answer
// areas', 18.
ghost use Rattle.std.specs.Prelude.{◌≡◌, ◌*◌, ltb};
ghost use Rattle.error.specs.Numbers.{judged};
ghost use Rattle.error.specs.Short.{too_short};
ghost use Rattle.survey.specs.Lent.{survey_lent};
ghost use Rattle.survey.specs.Survey.{columns};
ghost use Rattle.kriging_theory.specs.Areas.{answer_areas};
ghost use Rattle.kriging_theory.specs.Refusals.{refusal};
ghost use Rattle.kriging.specs.Lent.{areas_lent};

use crate::Areas;
use error::Refusal;
use survey::{Limits, Survey};

// Whether `len` numbers are fewer than n * m, which need not fit a word: by division.
fn below_product(len: usize, n: usize, m: usize) -> bool
    ensures { result ≡ ltb len (n * m) }
{
    if n == 0 {
        return false;
    }
    len / n < m
}

// 18: whether an answer area is too short for a survey of p columns.
fn short_answer(survey: &Survey<'_>, p: usize, areas: &Areas<'_>) -> bool
    ensures { columns (survey_lent survey.now) ≡ p
        → result ≡ too_short (answer_areas (survey_lent survey.now) (areas_lent areas.now)) }
{
    let n = survey.wells();
    let m = survey.node_count();
    areas.predicted.len() < m
        || areas.variance.len() < m
        || areas.verdicts.len() < m
        || below_product(areas.weights.len(), n, m)
        || areas.multipliers.len() < p
        || areas.trend.len() < p
}

// 1 to 11, 22, 12, 17 and 18: the first that applies. Past 7 there are no more columns than wells, so that their count is p itself.
#[tactic(auto, using(crate::proofs::Refusing::by_survey))]
pub(crate) fn fit_refusal(
    limits: Limits,
    survey: &Survey<'_>,
    areas: &Areas<'_>,
) -> Result<(), Refusal>
    ensures { judged result ≡ refusal limits (survey_lent survey.now) (areas_lent areas.now) }
{
    survey_checks::refusals::survey_refusal(limits, survey)?;
    let p = survey_checks::counts::drift_columns(survey.bases);
    if elimination::too_short(areas.work.len(), survey.wells() + p) {
        return Err(Refusal::WorkArea);
    }
    if short_answer(survey, p, areas) {
        return Err(Refusal::AnswerArea);
    }
    Ok(())
}
