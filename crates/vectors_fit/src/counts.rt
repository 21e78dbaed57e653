// What is counted of fits: the calls, and each part of an answer.
use vectors::Tally;
use vectors::counts::{Calls, write_part};

#[derive(Clone, Copy, Default)]
pub struct Counts {
    pub calls: Calls,
    pub figures: Tally,
    pub variances: Tally,
    pub multipliers: Tally,
    pub trends: Tally,
    pub weights: Tally,
    pub verdicts: Tally,
    pub work: Tally,
}

impl Counts {
    pub(crate) fn write(&self, records: Tally) {
        self.calls.write_first();
        write_part(b"figures: ", self.figures);
        write_part(b"variances: ", self.variances);
        write_part(b"multipliers: ", self.multipliers);
        write_part(b"trends: ", self.trends);
        write_part(b"weights: ", self.weights);
        write_part(b"verdicts: ", self.verdicts);
        write_part(b"work areas: ", self.work);
        self.calls.write_last(records);
    }
}
