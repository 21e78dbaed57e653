// The 14-byte trailer at the end of a survey file, and what it points back to.
ghost use Rattle.std.specs.Prelude.{◌≡◌, not, ◌≤◌, length};
ghost use Rattle.survey_file_theory.specs.File.{trailer_length, newest_version, version_taken};

use crate::counts::Counts;
use patterns::number;
use survey::MOST_WELLS;
use survey_checks::counts::external_columns;
use survey_file_theory::{MOST_IN_VERSION_1, NEWEST_VERSION, OLD_VERSION};
use variogram::VariogramModel;

// The length of the trailer.
pub(crate) const LENGTH: usize = 14;

// Bytes that are long enough to end with a trailer.
#[derive(Clone, Copy)]
pub struct Trailer<'a> {
    pub bytes: &'a [u8],
    pub ghost long_enough: { trailer_length ≤ length bytes.now },
}

impl Trailer<'_> {
    ghost use Rattle.std.specs.Prelude.{◌+◌, ◌-◌, ◌<◌, eqb};
    ghost use Rattle.survey_file_theory.specs.Trailer.{wells_in, bases_in, length_in};
    ghost use Rattle.survey_file_reader.specs.Counts.{CountsIn, wrong_ending};

    // Where it begins.
    fn place(&self) -> usize
        ensures { result ≡ length self.now.bytes.now - trailer_length }
    {
        self.bytes.len() - LENGTH
    }

    // How many wells there are by the trailer.
    fn wells(&self) -> usize
        ensures { (result ≡ wells_in self.now.bytes.now) × (result < 65536) }
    {
        number(self.bytes, self.place() + 4, 2) as usize
    }

    // How many codes stand before the trailer.
    fn bases(&self) -> usize
        ensures { (result ≡ bases_in self.now.bytes.now) × (result < 65536) }
    {
        number(self.bytes, self.place() + 8, 2) as usize
    }

    // The counts, where the codes before the trailer are there too.
    pub(crate) fn counts(&self) -> Counts
        requires { trailer_length + bases_in self.now.bytes.now ≤ length self.now.bytes.now }
        ensures { CountsIn self.now.bytes.now result }
    {
        let end = self.place();
        let bases = self.bases();
        let from = end - bases;
        Counts {
            start: number(self.bytes, end, 4) as usize,
            wells: self.wells(),
            nodes: number(self.bytes, end + 6, 2) as usize,
            bases,
            externals: external_columns(&self.bytes[from..end]),
        }
    }

    // 16: whether the file is not as long as it says itself. Codes that would begin before the file are more than it has room for.
    pub(crate) fn lengths_differ(&self) -> bool
        ensures { result ≡ not (eqb (length self.now.bytes.now) (length_in self.now.bytes.now)) }
    {
        self.bases() > self.place() || self.bytes.len() != self.counts().stated_length()
    }

    // 16: whether the last four bytes are not a model of 1 to 4, a version that is taken and two zeros.
    #[tactic(auto, using(survey_file_theory::proofs::Models::number_of_none))]
    pub(crate) fn has_wrong_ending(&self) -> bool
        ensures { result ≡ wrong_ending newest_version self.now.bytes.now }
    {
        let end = self.place();
        VariogramModel::try_from(self.bytes[end + 10]).is_err()
            || is_other_version(self.bytes[end + 11], self.wells())
            || self.bytes[end + 12] != 0
            || self.bytes[end + 13] != 0
    }
}

// 16: whether a file of n wells has a version that is not taken. The old one is at any n, the newest only where the writer puts it.
fn is_other_version(version: u8, n: usize) -> bool
    ensures { result ≡ not (version_taken newest_version version n) }
{
    match version {
        OLD_VERSION => false,
        NEWEST_VERSION => n <= MOST_IN_VERSION_1 || n > MOST_WELLS,
        _ => true,
    }
}
