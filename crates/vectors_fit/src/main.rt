// Replays fits: figures, variances and multipliers of the original Rust; trends, weights, verdicts, work areas and refusals of another reading of the papers.
// Standard input has a record for each, as tools/generators/fit.py wrote them.
// Writes a line for each record that comes out otherwise; then how the fits ended, by number, and of each part how many numbers were compared and how
// many differ; and last how many records were compared and how many differ.
#![tactic(auto)]

mod compare; // compare.rt: what is compared
mod counts; // counts.rt: what is counted, and written
mod record; // record.rt: what a fit is called with
mod verdicts; // verdicts.rt: the places of the verdicts

use compare::compare_all;
use counts::Counts;
use kriging::{Areas, universal_kriging_fit};
use record::{Lengths, next_head};
use survey::{MOST_COLUMNS, MOST_NODES, MOST_SIZE, MOST_WELLS, Survey};
use vectors::areas::{lent, load};
use verdicts::lent_verdicts;

// The most numbers of a record's lists together, and the most codes.
const NUMBERS: usize = 3072;

const CODES: usize = 128;

// The most of each area that a record lends: what the largest fit needs, and some past that.
const WORK: usize = 2 * MOST_SIZE * MOST_SIZE + 8;

const NODES: usize = MOST_NODES + 8;

const WEIGHTS: usize = MOST_WELLS * MOST_NODES + 8;

const COLUMNS: usize = MOST_COLUMNS + 4;

// A record's fit, with as much of each area as it lends, which holds the marks, and what came of it.
fn replay_fit(survey: &Survey<'_>, lengths: Lengths, counts: &mut Counts) {
    let mut work = [0.0; WORK];
    let mut predicted = [0.0; NODES];
    let mut variance = [0.0; NODES];
    let mut verdicts = [0; NODES];
    let mut weights = [0.0; WEIGHTS];
    let mut multipliers = [0.0; COLUMNS];
    let mut trend = [0.0; COLUMNS];
    let mut areas = Areas {
        work: lent(&mut work, lengths.work),
        predicted: lent(&mut predicted, lengths.predicted),
        variance: lent(&mut variance, lengths.variance),
        verdicts: lent_verdicts(&mut verdicts, lengths.verdicts),
        weights: lent(&mut weights, lengths.weights),
        multipliers: lent(&mut multipliers, lengths.multipliers),
        trend: lent(&mut trend, lengths.trend),
    };
    let number = error::ended_by(&universal_kriging_fit(survey, &mut areas));
    compare_all(number, &areas, &mut [0; WORK], counts);
}

// One record more: whether all is as it says, and none at the input's end.
fn replayed(counts: &mut Counts) -> Option<bool> {
    let head = next_head()?;
    let lists = head.lists;
    let mut numbers = [0.0; NUMBERS];
    load(&mut numbers, lists.node_external);
    let mut room = [0; CODES];
    load(&mut room, head.codes);
    let codes = &room[..head.codes.min(CODES)];
    let survey = lists.survey(&numbers, codes, head.options, head.tolerance);
    let before = counts.calls.differences;
    replay_fit(&survey, head.lent, counts);
    Some(counts.calls.differences == before)
}

fn main() {
    let mut counts = Counts::default();
    let records = vectors::replay(|| replayed(&mut counts));
    counts.write(records);
}
