// Replays semivariograms: distances and semivariances of the original Rust; counts and refusals of another reading of the paper.
// Standard input has a record for each, as tools/generators/semivariogram.py wrote them.
// Writes a line for each record that comes out otherwise; then how the calls ended, by number, and of each part how many places were compared and how
// many differ; and last how many records were compared and how many differ.
#![tactic(auto)]

mod call; // call.rt: the call of a record
mod compare; // compare.rt: what is compared
mod record; // record.rt: what a call is made with

use call::{Areas, answer};
use compare::Counts;
use record::{Head, next_head};
use vectors::areas::{lent, load};

// The most numbers of a record's lists together.
const NUMBERS: usize = 1536;

// The most of each area that a record lends: what the most bins need, and some past that.
const BINS: usize = 72;

// A record's call, with as much of each area as it lends, which holds the marks, and what came of it.
fn replay_call(head: Head, numbers: &[f64], counts: &mut Counts) {
    let mut distances = [0.0; BINS];
    let mut semivariances = [0.0; BINS];
    let mut bin_counts = [0; BINS];
    let mut areas = Areas {
        distances: lent(&mut distances, head.lent.distances),
        semivariances: lent(&mut semivariances, head.lent.semivariances),
        bin_counts: lent(&mut bin_counts, head.lent.bin_counts),
    };
    let answer = answer(head, numbers, &mut areas);
    counts.compare(answer, &areas, &mut [0; BINS]);
}

// One record more: whether all is as it says, and none at the input's end.
fn replayed(counts: &mut Counts) -> Option<bool> {
    let head = next_head()?;
    let mut numbers = [0.0; NUMBERS];
    load(&mut numbers, head.coords);
    let before = counts.calls.differences;
    replay_call(head, &numbers, counts);
    Some(counts.calls.differences == before)
}

fn main() {
    let mut counts = Counts::default();
    let records = vectors::replay(|| replayed(&mut counts));
    counts.write(records);
}
