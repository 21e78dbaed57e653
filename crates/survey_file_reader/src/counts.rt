// What the trailer says of lengths.
ghost use Rattle.std.specs.Prelude.{◌<◌};

use crate::trailer::LENGTH;
use survey_file_theory::Areas;

// S, where the body begins, n, m and the code count, and k, the count of code 4 among the codes. 4 and 2 bytes have no greater numbers, and there are no more
// codes 4 than codes.
#[derive(Clone, Copy)]
pub struct Counts {
    pub start: usize,
    pub wells: usize,
    pub nodes: usize,
    pub bases: usize,
    pub externals: usize,
    pub ghost few_bytes: { start < 4294967296 },
    pub ghost few_wells: { wells < 65536 },
    pub ghost few_nodes: { nodes < 65536 },
    pub ghost few_bases: { bases < 65536 },
    pub ghost few_externals: { externals < 65536 },
}

impl Counts {
    ghost use Rattle.std.specs.Prelude.{◌≡◌};
    ghost use Rattle.survey_file_theory.specs.File.{file_length};
    ghost use Rattle.survey_file_theory.specs.Lent.{areas_lent};
    ghost use Rattle.survey_file_reader.specs.Counts.{short_of};

    // The length of a file with these counts.
    pub(crate) fn stated_length(self) -> usize
        ensures { result ≡ file_length self.start self.wells self.nodes self.externals self.bases }
    {
        let Counts {
            start,
            wells: n,
            nodes: m,
            bases,
            externals: k,
        } = self;
        start + 8 * (5 + n + 2 * n + k * n + 2 * m + k * m) + bases + LENGTH
    }

    // 18: whether an area is too short for its list.
    pub(crate) fn exceed(self, areas: &Areas<'_>) -> bool
        ensures { result ≡ short_of self (areas_lent areas.now) }
    {
        areas.values.len() < self.wells
            || areas.coords.len() < 2 * self.wells
            || areas.bases.len() < self.bases
            || areas.external.len() < self.externals * self.wells
            || areas.nodes.len() < 2 * self.nodes
            || areas.node_external.len() < self.externals * self.nodes
    }
}
