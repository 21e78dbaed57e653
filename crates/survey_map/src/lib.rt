// From the bytes of a survey file to the text that `wellmap` prints: the reader, the fit and the report, one after another.
#![tactic(auto)]

ghost use Rattle.std.specs.Prelude.{◌≡◌, ◌≤◌, length, replicate};
ghost use Rattle.error.specs.Outcome.{outcome, ended};
ghost use Rattle.survey.specs.Lent.{survey_lent};
ghost use Rattle.survey.specs.Limits.{program};
ghost use Rattle.kriging_theory.specs.Fit.{fitted};
ghost use Rattle.kriging.specs.Lent.{areas_lent, StillLent};
ghost use Rattle.survey_file_theory.specs.Lent as file;
ghost use Rattle.report.specs.Listing.{longest};
ghost use Rattle.report.specs.Printed.{outcome_of, printed};
ghost use Rattle.survey_map.specs.Areas.{own_areas, Holding, survey_held};
ghost use Rattle.survey_map.specs.Text.{survey_text, file_text, bytes_read};

use error::Refusal;
use kriging::universal_kriging_fit;
use report::{Answer, Unprinted, write_listing, write_refusal};
use survey::{Limits, Survey};
use survey_checks::counts::{drift_columns, external_columns};
use survey_checks::refusals::survey_refusal;
use survey_file_reader::read_survey;
use survey_file_theory::Header;

// The most nodes and columns of an accepted fit, the work area of its wells and columns, 2 * s * s, and the weights of its wells at its nodes.
const NODES: usize = survey::MOST_NODES;

const COLUMNS: usize = survey::MOST_COLUMNS;

const WORK: usize = 2 * survey::PROGRAM_SIZE * survey::PROGRAM_SIZE;

const WEIGHTS: usize = survey::PROGRAM_WELLS * survey::MOST_NODES;

// The numbers of a file's longest list: a file of 65,536 bytes has room for 8,190 numbers before its trailer, the first five are in no list, and a list of
// nodes has an even count.
const NUMBERS: usize = 8184;

// The codes of a file: 65,536 bytes less five numbers and the trailer.
const CODES: usize = 65482;

// One byte more than a file may have.
const INPUT: usize = 65537;

// Zeros, as many as there are bytes to read: all of a file, or so many that it is seen to be over.
pub fn input_area() -> [u8; INPUT]
    ensures { result ≡ replicate bytes_read 0 }
{
    [0; INPUT] // kept: a fixed area, since there is no heap
}

// The fit of a survey by the limits of the program. More than 48 wells are refused by 9, in its own place, though the library would take them: only what the
// program takes comes to the library's fit.
#[tactic(auto, using(crate::proofs::Program::by_limits, crate::proofs::Program::by_library))]
fn fit(survey: &Survey<'_>, areas: &mut kriging::Areas<'_>) -> Result<(), Refusal>
    ensures fitted { ended result (areas_lent areas.new) ≡ fitted program (survey_lent survey.now) (areas_lent areas.old) }
    ensures lent { StillLent areas.old areas.new }
{
    survey_refusal(Limits::program(), survey)?;
    universal_kriging_fit(survey, areas)
}

// The listing of an accepted fit, from the first places of the areas that hold it.
#[tactic(auto, using(crate::proofs::Answer::listable))]
fn print_answer(
    survey: &Survey<'_>,
    areas: &kriging::Areas<'_>,
    text: &mut [u8],
) -> Result<usize, Unprinted>
    requires { outcome 0 (areas_lent areas.now) ≡ fitted program (survey_lent survey.now) own_areas }
    ensures equation { outcome_of result text.new ≡ printed (survey_text (survey_lent survey.now)) text.old }
    ensures longest { length (survey_text (survey_lent survey.now)) ≤ longest }
{
    let m = survey.node_count();
    let p = drift_columns(survey.bases);
    let answer = Answer {
        predicted: &areas.predicted[..m],
        variance: &areas.variance[..m],
        verdicts: &areas.verdicts[..m],
        multipliers: &areas.multipliers[..p],
        trend: &areas.trend[..p],
    };
    write_listing(&answer, text)
}

// The fit of a survey, and its listing or its refusal as text. The options carry the same-spot distance, and 22 shows where it is wrong. The fit has areas of
// its own, as long as it can need, so that 17 and 18 never show.
#[tactic(auto, using(crate::proofs::Texts::endings), unfolding(crate::specs::Areas::own_areas))]
pub fn print_fit(survey: &Survey<'_>, text: &mut [u8]) -> Result<usize, Unprinted>
    ensures equation { outcome_of result text.new ≡ printed (survey_text (survey_lent survey.now)) text.old }
    ensures longest { length (survey_text (survey_lent survey.now)) ≤ longest }
{
    // Kept: fixed areas, since there is no heap.
    let mut work = [0.0; WORK];
    let mut predicted = [0.0; NODES];
    let mut variance = [0.0; NODES];
    let mut verdicts = [0u8; NODES];
    let mut weights = [0.0; WEIGHTS];
    let mut multipliers = [0.0; COLUMNS];
    let mut trend = [0.0; COLUMNS];
    let mut areas = kriging::Areas {
        work: &mut work,
        predicted: &mut predicted,
        variance: &mut variance,
        verdicts: &mut verdicts,
        weights: &mut weights,
        multipliers: &mut multipliers,
        trend: &mut trend,
    };
    match fit(survey, &mut areas) {
        Ok(()) => print_answer(survey, &areas, text),
        Err(refusal) => write_refusal(refusal, text),
    }
}

// The survey that was read: its lists are in the first places of the areas, the rest is in the header.
fn survey_read<'a>(header: Header, areas: &'a survey_file_theory::Areas<'_>) -> Survey<'a>
    requires { Holding header (file.areas_lent areas.now) }
    ensures { survey_lent result ≡ survey_held header (file.areas_lent areas.now) }
{
    let n = header.wells;
    let m = header.nodes;
    let count = header.bases;
    let bases = &areas.bases[..count];
    let k = external_columns(bases);
    Survey {
        values: &areas.values[..n],
        coords: &areas.coords[..2 * n],
        bases,
        external: &areas.external[..k * n],
        options: header.options,
        nodes: &areas.nodes[..2 * m],
        node_external: &areas.node_external[..k * m],
        tolerance: header.tolerance,
    }
}

// A survey file's text: the listing of its fit, or why there is none. A file is read with a same-spot distance of 2^-52, so that 22 never shows. The reader has
// areas that are as long as the lists of any file, so that 18 never shows.
pub fn print_survey(bytes: &[u8], text: &mut [u8]) -> Result<usize, Unprinted>
    ensures equation { outcome_of result text.new ≡ printed (file_text bytes.now) text.old }
    ensures longest { length (file_text bytes.now) ≤ longest }
{
    // Kept: fixed areas, since there is no heap.
    let mut values = [0.0; NUMBERS];
    let mut coords = [0.0; NUMBERS];
    let mut bases = [0u8; CODES];
    let mut external = [0.0; NUMBERS];
    let mut nodes = [0.0; NUMBERS];
    let mut node_external = [0.0; NUMBERS];
    let mut areas = survey_file_theory::Areas {
        values: &mut values,
        coords: &mut coords,
        bases: &mut bases,
        external: &mut external,
        nodes: &mut nodes,
        node_external: &mut node_external,
    };
    match read_survey(bytes, &mut areas) {
        Ok(header) => print_fit(&survey_read(header, &areas), text),
        Err(unread) => write_refusal(unread, text),
    }
}
