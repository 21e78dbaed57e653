// What a survey file says besides its lists: the counts, the options and the tolerance.
ghost use Rattle.std.specs.Prelude.{◌≡◌};
ghost use Rattle.survey_file_theory.specs.File.{newest_version};
ghost use Rattle.survey_file_theory.specs.Trailer.{wells_in, nodes_in, bases_in};
ghost use Rattle.survey_file_theory.specs.Rules.{WellFormed};
ghost use Rattle.survey_file_theory.specs.Reader.{survey_in, header_of};

use crate::lists::number_at;
use crate::trailer::{LENGTH, Trailer};
use survey::UniversalKrigingOptions;
use survey_file_theory::Header;
use variogram::{Variogram, VariogramModel};

// The header of a well-formed file: its model's number is one of the four.
pub(crate) fn read_header(bytes: &[u8]) -> Header
    requires { WellFormed newest_version bytes.now }
    ensures { result ≡ header_of (wells_in bytes.now) (nodes_in bytes.now) (bases_in bytes.now)
        (survey_in bytes.now) }
{
    let trailer = Trailer { bytes };
    let counts = trailer.counts();
    let end = bytes.len() - LENGTH;
    let model = VariogramModel::try_from(bytes[end + 10]).unwrap_or(VariogramModel::Linear);
    let at = counts.start;
    let nugget = number_at(bytes, at);
    let sill = number_at(bytes, at + 8);
    let range = number_at(bytes, at + 16);
    let options = UniversalKrigingOptions {
        variogram: Variogram::new(model, nugget, sill, range),
        regularization: number_at(bytes, at + 24),
    };
    Header {
        wells: counts.wells,
        nodes: counts.nodes,
        bases: counts.bases,
        options,
        tolerance: number_at(bytes, at + 32),
    }
}
