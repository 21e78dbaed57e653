// What turns a survey file away: 16, and 18 after it.
#![tactic(auto, unfolding(error::specs::Tests::first_of, survey_file_theory::specs::Refusals::reader_refusal))]

ghost use Rattle.std.specs.Prelude.{◌≡◌};
ghost use Rattle.error.specs.Numbers.{judged};
ghost use Rattle.survey_file_theory.specs.File.{newest_version};
ghost use Rattle.survey_file_theory.specs.Lent.{areas_lent};
ghost use Rattle.survey_file_theory.specs.Refusals.{malformed, reader_refusal};

use crate::trailer::{LENGTH, Trailer};
use error::Refusal;
use survey_file_theory::Areas;

// The longest file.
const LONGEST: usize = 65536;

// 16: whether the bytes are no survey file.
fn is_malformed(bytes: &[u8]) -> bool
    ensures { result ≡ malformed newest_version bytes.now }
{
    if bytes.len() < LENGTH || bytes.len() > LONGEST {
        return true;
    }
    let trailer = Trailer { bytes };
    trailer.lengths_differ() || trailer.has_wrong_ending()
}

// The first that applies.
pub(crate) fn reader_refusal(bytes: &[u8], areas: &Areas<'_>) -> Result<(), Refusal>
    ensures { judged result ≡ reader_refusal newest_version bytes.now (areas_lent areas.now) }
{
    if is_malformed(bytes) {
        return Err(Refusal::SurveyFile);
    }
    let trailer = Trailer { bytes };
    if trailer.counts().exceed(areas) {
        return Err(Refusal::AnswerArea);
    }
    Ok(())
}
