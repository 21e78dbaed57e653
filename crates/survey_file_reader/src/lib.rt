// The reader of the survey file. What it answers is defined in survey_file_theory.
#![tactic(auto)]

mod counts; // counts.rt: what the trailer says of lengths
mod header; // header.rt: what a file says besides its lists
mod lists; // lists.rt: the lists into the areas
mod refusals; // refusals.rt: 16 and 18
mod trailer; // trailer.rt: the last 14 bytes

ghost use Rattle.std.specs.Prelude.{◌≡◌};
ghost use Rattle.survey_file_theory.specs.File.{newest_version};
ghost use Rattle.survey_file_theory.specs.Areas.{filled_with};
ghost use Rattle.survey_file_theory.specs.Lent.{areas_lent, StillLent};
ghost use Rattle.survey_file_theory.specs.Rules.{WellFormed, ListsFit};
ghost use Rattle.survey_file_theory.specs.Reader.{survey_in, outcome_of, reader, Ends};

use crate::header::read_header;
use crate::lists::{read_codes, read_numbers};
use crate::refusals::reader_refusal;
use crate::trailer::Trailer;
use error::Refusal;
use survey_file_theory::{Areas, Header};

// The lists of a well-formed file into areas that have room for them.
fn read_lists(bytes: &[u8], areas: &mut Areas<'_>)
    requires { WellFormed newest_version bytes.now × ListsFit bytes.now (areas_lent areas.old) }
    ensures filled { areas_lent areas.new ≡ filled_with (survey_in bytes.now) (areas_lent areas.old) }
    ensures lent { StillLent areas.old areas.new }
{
    let trailer = Trailer { bytes };
    let counts = trailer.counts();
    let n = counts.wells;
    let m = counts.nodes;
    let k = counts.externals;
    let from_values = &bytes[counts.start + 40..];
    let from_coords = read_numbers(from_values, n, areas.values);
    let from_external = read_numbers(from_coords, 2 * n, areas.coords);
    let from_nodes = read_numbers(from_external, k * n, areas.external);
    let from_node_external = read_numbers(from_nodes, 2 * m, areas.nodes);
    let from_codes = read_numbers(from_node_external, k * m, areas.node_external);
    read_codes(from_codes, counts.bases, areas.bases);
}

// Reads a survey file: its lists into the lent areas, the rest into the answer. Bytes that are no such file are refused by 16, an area that is shorter than its
// list by 18, and then nothing is written. What the lists hold is not judged.
pub fn read_survey(bytes: &[u8], areas: &mut Areas<'_>) -> Result<Header, Refusal>
    ensures equation { outcome_of result (areas_lent areas.new) ≡ reader newest_version bytes.now (areas_lent areas.old) }
    ensures ends { Ends newest_version bytes.now (areas_lent areas.old) (outcome_of result (areas_lent areas.new)) }
    ensures lent { StillLent areas.old areas.new }
{
    reader_refusal(bytes, areas)?;
    read_lists(bytes, areas);
    Ok(read_header(bytes))
}
