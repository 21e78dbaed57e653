// A record: what a fit is called with, and how much of each area it lends.
use survey::UniversalKrigingOptions;
use vectors::surveys::{Lists, next_options};
use vectors::{next, next_word};

// A number for each area: how much of it is lent, or written.
#[derive(Clone, Copy)]
pub struct Lengths {
    pub work: usize,
    pub predicted: usize,
    pub variance: usize,
    pub verdicts: usize,
    pub weights: usize,
    pub multipliers: usize,
    pub trend: usize,
}

// A record but for what its lists hold.
#[derive(Clone, Copy)]
pub struct Head {
    pub lists: Lists,
    pub codes: usize,
    pub options: UniversalKrigingOptions,
    pub tolerance: f64,
    pub lent: Lengths,
}

pub(crate) fn next_lengths() -> Lengths {
    Lengths {
        work: next(),
        predicted: next(),
        variance: next(),
        verdicts: next(),
        weights: next(),
        multipliers: next(),
        trend: next(),
    }
}

// The next record's, and none at the input's end.
pub(crate) fn next_head() -> Option<Head> {
    let values = next_word()? as usize;
    Some(Head {
        lists: Lists::after(values),
        codes: next(),
        options: next_options(),
        tolerance: next(),
        lent: next_lengths(),
    })
}
