// A record of the writer: a survey, how many bytes are lent, and what is told of the answer.
use crate::compare::{Counts, compare_next_bytes};
use crate::runs::{BYTES, NUMBERS, load_bytes, load_list};
use error::Refusal;
use survey::{Survey, UniversalKrigingOptions};
use survey_file_writer::write_survey;
use vectors::areas::lent;
use vectors::next;
use vectors::surveys::{Lists, next_options};

// A record but for what its lists hold.
#[derive(Clone, Copy)]
pub struct Head {
    pub lists: Lists,
    pub options: UniversalKrigingOptions,
    pub tolerance: f64,
    pub lent: usize,
}

fn next_head() -> Head {
    Head {
        lists: Lists::after(next()),
        options: next_options(),
        tolerance: next(),
        lent: next(),
    }
}

// Compares what came of a call: the number comes in, how many bytes are written, none where it is refused, and those.
fn compare_written(answer: Result<usize, Refusal>, file: &[u8], counts: &mut Counts) {
    let calls = &mut counts.calls;
    calls.ended_by(error::ended_by(&answer) as u64, next());
    let written: usize = next();
    calls.compared(&mut counts.length, answer.unwrap_or(0) == written);
    compare_next_bytes(file, &mut [0; BYTES], &mut counts.file, calls);
}

// The call into as many bytes as the record lends, which hold the marks, and what came of it.
fn replay_survey(survey: &Survey<'_>, lent_bytes: usize, counts: &mut Counts) {
    let mut bytes = [0; BYTES];
    let file = lent(&mut bytes, lent_bytes);
    let answer = write_survey(survey, file);
    compare_written(answer, file, counts);
}

// A record of the writer.
pub(crate) fn replay_write(counts: &mut Counts) {
    let head = next_head();
    let mut numbers = [0.0; NUMBERS];
    load_list(&mut numbers);
    let mut room = [0; BYTES];
    let codes = load_bytes(&mut room);
    let survey = head
        .lists
        .survey(&numbers, codes, head.options, head.tolerance);
    replay_survey(&survey, head.lent, counts);
}
