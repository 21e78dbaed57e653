// The reader and the writer of the survey file, for other languages.
ghost use Rattle.std.specs.Prelude.{◌≡◌};
ghost use Rattle.survey.specs.Survey.{survey_of};
ghost use Rattle.survey_file_theory.specs.File.{newest_version};
ghost use Rattle.survey_file_theory.specs.Reader.{reader};
ghost use Rattle.survey_file_theory.specs.Writer.{writer};
ghost use Rattle.variogram.specs.Numbers.{model_of};
ghost use Rattle.nakwemol.specs.Codes.{by_code, unknown_code, options_of};
ghost use Rattle.nakwemol.specs.Told.{ending, lists_of, heading_of, heading_told, length_told};

use crate::codes::{UNKNOWN_CODE, variogram_of};
use crate::told::{tell_count, tell_header};
use survey::{Survey, UniversalKrigingOptions};
use survey_file_reader::read_survey;
use survey_file_theory::Areas;
use survey_file_writer::write_survey;
use variogram::VariogramModel;

// `read_survey`: 0 where the areas hold the lists, counts how many wells, nodes and bases there are, numbers nugget, sill, range, r and t, and model the
// model's code; else what turned the call away. The same-spot distance is not told: a file has none, and stands for 2^-52.
// kept: every list and place is a parameter of its own, and the answer a number: the C interface
#[unsafe(no_mangle)]
pub extern "C" fn nakwemol_read(
    bytes: &[u8],
    values: &mut [f64],
    coords: &mut [f64],
    bases: &mut [u8],
    external: &mut [f64],
    nodes: &mut [f64],
    node_external: &mut [f64],
    counts: &mut [usize; 3],
    numbers: &mut [f64; 5],
    model: &mut u8,
) -> u8
    ensures { ending result (heading_of counts.new numbers.new model.new)
        (lists_of values.new coords.new bases.new external.new
        nodes.new node_external.new)
        ≡ heading_told (reader newest_version bytes.now (lists_of values.old coords.old bases.old
        external.old nodes.old node_external.old))
        (heading_of counts.old numbers.old model.old) }
{
    let mut areas = Areas {
        values,
        coords,
        bases,
        external,
        nodes,
        node_external,
    };
    let read = read_survey(bytes, &mut areas);
    tell_header(read, counts, numbers, model)
}

// `write_survey`: 0 where the area holds the file, and length how many bytes it has; else what turned the call away. A `same_spot` other than 2^-52 is refused
// by 22, since a file has no place for it. 100 where the model's code is none, before all others.
// kept: every list and number is a parameter of its own, and the answer a number: the C interface
#[unsafe(no_mangle)]
pub extern "C" fn nakwemol_write(
    values: &[f64],
    coords: &[f64],
    bases: &[u8],
    external: &[f64],
    model: u8,
    nugget: f64,
    sill: f64,
    range: f64,
    same_spot: f64,
    regularization: f64,
    nodes: &[f64],
    node_external: &[f64],
    tolerance: f64,
    file: &mut [u8],
    length: &mut usize,
) -> u8
    ensures { ending result length.new file.new
        ≡ by_code (model_of model) (ending unknown_code length.old file.old)
        (λ m. length_told (writer newest_version (survey_of values.now coords.now bases.now external.now
        (options_of m nugget sill range same_spot regularization) nodes.now node_external.now tolerance) file.old)
        length.old) }
{
    let Ok(known) = VariogramModel::try_from(model) else {
        return UNKNOWN_CODE;
    };
    let survey = Survey {
        values,
        coords,
        bases,
        external,
        options: UniversalKrigingOptions {
            variogram: variogram_of(known, nugget, sill, range, same_spot),
            regularization,
        },
        nodes,
        node_external,
        tolerance,
    };
    let written = write_survey(&survey, file);
    tell_count(written, length)
}
