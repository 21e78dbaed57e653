// What is compared of an interpolation: how it ended and what each area holds, past what is written too.
use crate::record::next_lengths;
use interpolator::Areas;
use vectors::areas::compare_next;
use vectors::counts::{Calls, write_part};
use vectors::{Tally, next};

// What is counted: the calls, and each part of an answer.
#[derive(Clone, Copy, Default)]
pub struct Counts {
    pub calls: Calls,
    pub work: Tally,
    pub figures: Tally,
    pub variances: Tally,
}

impl Counts {
    // Compares how a call ended and what it left: the number comes in, then how much is written of each area, how much of the work area is told, and the areas.
    pub(crate) fn compare(&mut self, number: u8, areas: &Areas<'_>, words: &mut [u64]) {
        let calls = &mut self.calls;
        calls.ended_by(number as u64, next());
        let written = next_lengths();
        let told = next();
        let m = written.figures;
        let again = written.variances;
        compare_next(areas.work, words, told, written.work, &mut self.work, calls);
        compare_next(areas.figures, words, m, m, &mut self.figures, calls);
        compare_next(
            areas.variances,
            words,
            again,
            again,
            &mut self.variances,
            calls,
        );
    }

    pub(crate) fn write(&self, records: Tally) {
        self.calls.write_first();
        write_part(b"figures: ", self.figures);
        write_part(b"variances: ", self.variances);
        write_part(b"work areas: ", self.work);
        self.calls.write_last(records);
    }
}
