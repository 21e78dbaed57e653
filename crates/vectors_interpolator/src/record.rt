// A record: what an interpolation is called with, and how much of each area it lends.
use variogram::Variogram;
use vectors::models::next_variogram;
use vectors::{next, next_end, next_word};

// Where each list ends among a record's numbers, one after another.
#[derive(Clone, Copy)]
pub struct Lists {
    pub values: usize,
    pub coords: usize,
    pub targets: usize,
}

// A number for each area: how much of it is lent, or written.
#[derive(Clone, Copy)]
pub struct Lengths {
    pub work: usize,
    pub figures: usize,
    pub variances: usize,
}

// A record but for what its lists hold.
#[derive(Clone, Copy)]
pub struct Head {
    pub lists: Lists,
    pub kind: u64,
    pub d: usize,
    pub variogram: Variogram,
    pub lent: Lengths,
}

fn next_lists(values: usize) -> Lists {
    let coords = next_end(values);
    Lists {
        values,
        coords,
        targets: next_end(coords),
    }
}

pub(crate) fn next_lengths() -> Lengths {
    Lengths {
        work: next(),
        figures: next(),
        variances: next(),
    }
}

// The next record's, and none at the input's end.
pub(crate) fn next_head() -> Option<Head> {
    let values = next_word()? as usize;
    Some(Head {
        lists: next_lists(values),
        kind: next(),
        d: next(),
        variogram: next_variogram(),
        lent: next_lengths(),
    })
}
