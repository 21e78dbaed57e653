// What is compared of a semivariogram: how the call ended, how many bins it kept, and what each area holds, past what is written too.
use crate::call::Areas;
use error::Refusal;
use vectors::areas::compare_next;
use vectors::counts::{Calls, write_part};
use vectors::{Tally, next};

// What is counted: the calls, and each part of an answer.
#[derive(Clone, Copy, Default)]
pub struct Counts {
    pub calls: Calls,
    pub kept: Tally,
    pub distances: Tally,
    pub semivariances: Tally,
    pub bin_counts: Tally,
}

impl Counts {
    // Compares how a call ended and what it left: the number comes in, then how many bins are kept, none where it is refused, which is how much is written of
    // each area, and the areas.
    pub(crate) fn compare(
        &mut self,
        answer: Result<usize, Refusal>,
        areas: &Areas<'_>,
        words: &mut [u64],
    ) {
        let calls = &mut self.calls;
        calls.ended_by(error::ended_by(&answer) as u64, next());
        let n = next();
        calls.compared(&mut self.kept, answer.unwrap_or(0) == n);
        compare_next(areas.distances, words, n, n, &mut self.distances, calls);
        compare_next(
            areas.semivariances,
            words,
            n,
            n,
            &mut self.semivariances,
            calls,
        );
        compare_next(areas.bin_counts, words, n, n, &mut self.bin_counts, calls);
    }

    pub(crate) fn write(&self, records: Tally) {
        self.calls.write_first();
        write_part(b"numbers of kept bins: ", self.kept);
        write_part(b"distances: ", self.distances);
        write_part(b"semivariances: ", self.semivariances);
        write_part(b"counts: ", self.bin_counts);
        self.calls.write_last(records);
    }
}
