// A record: what a semivariogram is calculated of, and how much of each area is lent.
use vectors::{next, next_end, next_word};

// A number for each area: how much of it is lent.
#[derive(Clone, Copy)]
pub struct Lengths {
    pub distances: usize,
    pub semivariances: usize,
    pub bin_counts: usize,
}

// A record but for what its lists hold: where each of the two ends among its numbers, the dimension, the bins and what is lent.
#[derive(Clone, Copy)]
pub struct Head {
    pub values: usize,
    pub coords: usize,
    pub d: usize,
    pub bins: usize,
    pub lent: Lengths,
}

fn next_lengths() -> Lengths {
    Lengths {
        distances: next(),
        semivariances: next(),
        bin_counts: next(),
    }
}

// The next record's, and none at the input's end.
pub(crate) fn next_head() -> Option<Head> {
    let values = next_word()? as usize;
    Some(Head {
        values,
        coords: next_end(values),
        d: next(),
        bins: next(),
        lent: next_lengths(),
    })
}
