// What turns the writer away: 1, 2, 6, 8, 11, 22, 16, 18, in that order.
#![tactic(auto, unfolding(error::specs::Tests::first_of, survey_file_theory::specs::Refusals::some_number_not_finite))]

ghost use Rattle.std.specs.Prelude.{◌≡◌, false, not, ◌||◌, ltb, length};
ghost use Rattle.std.specs.Float.Ieee.{eq};
ghost use Rattle.ieee.specs.Floats.{epsilon};
ghost use Rattle.error.specs.Numbers.{judged};
ghost use Rattle.error.specs.Tests.{first_of};
ghost use Rattle.survey.specs.Limits.{library};
ghost use Rattle.survey.specs.Lent.{survey_lent};
ghost use Rattle.survey_file_theory.specs.Contents.{numbers, node_externals};
ghost use Rattle.survey_file_theory.specs.File.{longest_file, newest_version};
ghost use Rattle.survey_file_theory.specs.Refusals.{some_number_not_finite, writer_refusal};
ghost use Rattle.survey_file_writer.specs.Parts.{length_tests, bytes_for};

use error::Refusal;
use survey::{MOST_WELLS, Survey};
use survey_checks::counts::{external_columns, is_product};
use survey_checks::refusals::number_not_finite;
use variogram::Variogram;

// A file has at most so many bytes.
const LONGEST_FILE: usize = 65_536;
// The bytes of the trailer.
const TRAILER_LENGTH: usize = 14;

// 1, 2, 6 and 8: the lengths of the lists.
fn length_refusal(survey: &Survey<'_>) -> Result<(), Refusal>
    ensures { judged result ≡ first_of (length_tests (survey_lent survey.now)) }
{
    let n = survey.wells();
    if survey.coords.len() != 2 * n {
        return Err(Refusal::CoordinatesLength);
    }
    if survey.nodes.len() % 2 != 0 {
        return Err(Refusal::NodesLength);
    }
    let k = external_columns(survey.bases);
    if !is_product(survey.external.len(), k, n) {
        return Err(Refusal::ExternalLength);
    }
    if k > 0 && !is_product(survey.node_external.len(), k, survey.node_count()) {
        return Err(Refusal::NodeExternalLength);
    }
    Ok(())
}

// 11: whether a number of the file is not finite, r and t included.
fn some_number_not_finite(survey: &Survey<'_>) -> bool
    ensures { result ≡ some_number_not_finite (survey_lent survey.now) }
{
    number_not_finite(survey)
        || !ieee::is_finite(survey.options.regularization)
        || !ieee::is_finite(survey.tolerance)
}

// 22: whether the same-spot distance is another than 2^-52. A file has no place for it, and is read with 2^-52.
fn is_other_spot(same_spot: f64) -> bool
    ensures test { result ≡ not (eq same_spot epsilon) }
    ensures only { result ≡ false → same_spot ≡ epsilon }
{
    same_spot != Variogram::EPSILON
}

// The node externals that go into the file: none where no code takes them.
pub(crate) fn taken_externals<'a>(survey: &Survey<'a>) -> &'a [f64]
    ensures { result.now ≡ node_externals (survey_lent survey.now) }
{
    if external_columns(survey.bases) == 0 {
        return &survey.node_external[..0];
    }
    survey.node_external
}

// How many numbers the file has. No list of f64 in memory has 2^60 of them, so that the sum fits a word.
fn number_count(survey: &Survey<'_>) -> usize
    ensures { result ≡ length (numbers (survey_lent survey.now)) }
{
    let taken = taken_externals(survey);
    5 + survey.values.len()
        + survey.coords.len()
        + survey.external.len()
        + survey.nodes.len()
        + taken.len()
}

// Whether a file of so many numbers and codes is longer than `most` bytes. What is left of them is counted down: the file's length need not fit a word.
fn longer(count: usize, codes: usize, most: usize) -> bool
    ensures { result ≡ ltb most (bytes_for count codes) }
{
    if most < TRAILER_LENGTH {
        return true;
    }
    let left = most - TRAILER_LENGTH;
    if left < codes {
        return true;
    }
    (left - codes) / 8 < count
}

// 16: whether a file of so many numbers and codes is too long, or has too many wells. Any other count over 65,535 makes a file over 65,536 bytes, so that its
// length alone gives 16.
fn is_too_long(n: usize, count: usize, codes: usize) -> bool
    ensures { result ≡ (ltb longest_file (bytes_for count codes) || ltb library.wells n) }
{
    longer(count, codes, LONGEST_FILE) || n > MOST_WELLS
}

// The first of them that applies.
#[tactic(auto, unfolding(survey_file_theory::specs::Refusals::writer_refusal))]
pub(crate) fn writer_refusal(survey: &Survey<'_>, file: &[u8]) -> Result<(), Refusal>
    ensures judged { judged result ≡ writer_refusal newest_version (survey_lent survey.now) file.now }
    ensures spot { judged result ≡ 0 → survey.now.options.variogram.same_spot ≡ epsilon }
{
    length_refusal(survey)?;
    if some_number_not_finite(survey) {
        return Err(Refusal::NotFinite);
    }
    if is_other_spot(survey.options.variogram.same_spot) {
        return Err(Refusal::SameSpot);
    }
    let count = number_count(survey);
    let codes = survey.bases.len();
    if is_too_long(survey.wells(), count, codes) {
        return Err(Refusal::SurveyFile);
    }
    if longer(count, codes, file.len()) {
        return Err(Refusal::AnswerArea);
    }
    Ok(())
}
