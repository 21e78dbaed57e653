// The places of the verdicts: before a fit each holds one byte that is no verdict.
ghost use Rattle.std.specs.Prelude.{◌≡◌, ◌%◌};

use crate::NODES;
use vectors::places::Place;

const MARK: u8 = 99;

// A byte of the area of verdicts.
#[derive(Clone, Copy)]
pub struct Verdict {
    pub byte: u8,
}

impl Place for Verdict {
    ghost none = { record { byte = 0 } };

    ghost pattern_of = { λ verdict. verdict.byte };

    ghost of_word = { λ word. record { byte = word % 256 } };

    ghost marked = { λ at. 99 };

    fn pattern(self) -> u64 {
        self.byte as u64
    }

    fn of(word: u64) -> Verdict {
        Verdict {
            byte: (word % 256) as u8,
        }
    }

    fn mark(_at: usize) -> u64 {
        MARK as u64
    }
}

// As much of an area as is lent, every place marked.
pub(crate) fn lent_verdicts(area: &mut [u8], n: usize) -> &mut [u8] {
    area.fill(MARK);
    let most = n.min(area.len());
    &mut area[..most]
}

// The places of an area, to be compared.
pub(crate) fn places_of(area: &[u8]) -> [Verdict; NODES] {
    let mut places = [Verdict { byte: 0 }; NODES];
    for (place, byte) in places.iter_mut().zip(area) {
        place.byte = *byte;
    }
    places
}
