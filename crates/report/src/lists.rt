// The lists of a listing, judged once: that they are even goes with their type to whatever prints them.
ghost use Rattle.std.specs.Prelude.{◌≡◌, ◌<◌, ℕ, get_or, length};
ghost use Rattle.report.specs.Printed.{Even};
ghost use Rattle.report.specs.Judged.{of_answer};

use crate::{Answer, Unprinted};

// An answer whose lists are as long as they go together.
#[derive(Clone, Copy)]
pub(crate) struct Lists<'a> {
    pub(crate) answer: &'a Answer<'a>,
    ghost even: { of_answer Even answer.now },
}

// The number of nodes. That each verdict is a byte is known where a call takes them, and not of a field alone.
fn node_count(verdicts: &[u8]) -> usize
    ensures { (result ≡ length verdicts.now) × ((i : ℕ) → get_or verdicts.now i 0 < 256) }
{
    verdicts.len()
}

impl<'a> Lists<'a> {
    ghost use Rattle.report.specs.Lists.{Makes};

    // The lists of an answer, where they are even.
    pub(crate) fn new(answer: &'a Answer<'a>) -> Result<Lists<'a>, Unprinted>
        ensures made { Makes answer.now result }
        ensures bytes { (i : ℕ) → get_or answer.now.verdicts.now i 0 < 256 }
    {
        let nodes = node_count(answer.verdicts);
        if answer.predicted.len() != nodes || answer.variance.len() != nodes {
            return Err(Unprinted::Uneven);
        }
        if answer.trend.len() != answer.multipliers.len() {
            return Err(Unprinted::Uneven);
        }
        Ok(Lists { answer })
    }
}
