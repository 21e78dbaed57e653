// Replays interpolations: figures and variances of the original Rust; work areas and refusals of another reading of the paper.
// Standard input has a record for each, as tools/generators/interpolator.py wrote them.
// Writes a line for each record that comes out otherwise; then how the calls ended, by number, and of each part how many places were compared and how
// many differ; and last how many records were compared and how many differ.
#![tactic(auto)]

mod call; // call.rt: the call of a record
mod compare; // compare.rt: what is compared
mod record; // record.rt: what a call is made with

use call::answer;
use compare::Counts;
use interpolator::Areas;
use record::{Head, next_head};
use survey::{MOST_NODES, MOST_WELLS};
use vectors::areas::{lent, load};

// The most numbers of a record's lists together.
const NUMBERS: usize = 2048;

// The most of each area that a record lends: what the largest call needs, and some past that.
const WORK: usize = 2 * (MOST_WELLS + 4) * (MOST_WELLS + 4) + 8;

const TARGETS: usize = MOST_NODES + 8;

// A record's call, with as much of each area as it lends, which holds the marks, and what came of it.
fn replay_call(head: Head, numbers: &[f64], counts: &mut Counts) {
    let mut work = [0.0; WORK];
    let mut figures = [0.0; TARGETS];
    let mut variances = [0.0; TARGETS];
    let mut areas = Areas {
        work: lent(&mut work, head.lent.work),
        figures: lent(&mut figures, head.lent.figures),
        variances: lent(&mut variances, head.lent.variances),
    };
    let number = answer(head, numbers, &mut areas);
    counts.compare(number, &areas, &mut [0; WORK]);
}

// One record more: whether all is as it says, and none at the input's end.
fn replayed(counts: &mut Counts) -> Option<bool> {
    let head = next_head()?;
    let mut numbers = [0.0; NUMBERS];
    load(&mut numbers, head.lists.targets);
    let before = counts.calls.differences;
    replay_call(head, &numbers, counts);
    Some(counts.calls.differences == before)
}

fn main() {
    let mut counts = Counts::default();
    let records = vectors::replay(|| replayed(&mut counts));
    counts.write(records);
}
