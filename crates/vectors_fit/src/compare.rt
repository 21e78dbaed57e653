// What is compared of a fit: how it ended and what each area holds, past what is written too.
use crate::NODES;
use crate::counts::Counts;
use crate::record::{Lengths, next_lengths};
use crate::verdicts::places_of;
use kriging::Areas;
use vectors::areas::compare_next;
use vectors::next;

// What stands at a node: its figure, its variance and its verdict. Of the verdicts all that are written are told, a word each.
fn compare_nodes(written: Lengths, areas: &Areas<'_>, words: &mut [u64], counts: &mut Counts) {
    let calls = &mut counts.calls;
    let m = written.predicted;
    let again = written.variance;
    let verdicts = written.verdicts;
    compare_next(areas.predicted, words, m, m, &mut counts.figures, calls);
    compare_next(
        areas.variance,
        words,
        again,
        again,
        &mut counts.variances,
        calls,
    );
    let places = places_of(areas.verdicts);
    let lent = areas.verdicts.len().min(NODES);
    compare_next(
        &places[..lent],
        words,
        verdicts,
        verdicts,
        &mut counts.verdicts,
        calls,
    );
}

// The weights, the multipliers and the trend.
fn compare_weights(written: Lengths, areas: &Areas<'_>, words: &mut [u64], counts: &mut Counts) {
    let calls = &mut counts.calls;
    let n = written.weights;
    let p = written.multipliers;
    let estimates = written.trend;
    compare_next(areas.weights, words, n, n, &mut counts.weights, calls);
    compare_next(
        areas.multipliers,
        words,
        p,
        p,
        &mut counts.multipliers,
        calls,
    );
    compare_next(
        areas.trend,
        words,
        estimates,
        estimates,
        &mut counts.trends,
        calls,
    );
}

// Compares how a fit ended and what it left: the number comes in, then how much is written of each area, how much of the work area is told, and the areas.
pub(crate) fn compare_all(number: u8, areas: &Areas<'_>, words: &mut [u64], counts: &mut Counts) {
    counts.calls.ended_by(number as u64, next());
    let written = next_lengths();
    let told = next();
    compare_next(
        areas.work,
        words,
        told,
        written.work,
        &mut counts.work,
        &mut counts.calls,
    );
    compare_nodes(written, areas, words, counts);
    compare_weights(written, areas, words, counts);
}
