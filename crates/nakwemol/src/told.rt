// What a call tells besides its number: it goes to the places that the caller lends, and stays there where the call is turned away.
ghost use Rattle.std.specs.Prelude.{◌≡◌, List, ℕ};
ghost use Rattle.semivariogram.specs.Outcome as Semivariogram;
ghost use Rattle.semivariogram_theory.specs.Call as Bins;
ghost use Rattle.survey_file_theory.specs.Areas as File;
ghost use Rattle.survey_file_theory.specs.Reader as Reader;
ghost use Rattle.survey_file_theory.specs.Writer as Writer;
ghost use Rattle.nakwemol.specs.Told.{ending, bins_told, heading_of, heading_told, length_told};

use error::Refusal;
use survey_file_theory::Header;

// The number of an answer; how many it counts, bins or bytes, goes to its place.
pub(crate) fn tell_count(counted: Result<usize, Refusal>, place: &mut usize) -> u8
    ensures bins { (a : Bins.Areas) → ending result place.new a ≡ bins_told (Semivariogram.outcome_of counted a) place.old }
    ensures length { (file : List ℕ) → ending result place.new file ≡ length_told (Writer.outcome_of counted file) place.old }
{
    if let Ok(count) = counted {
        *place = count;
    }
    error::ended_by(&counted)
}

// The number of the reader's answer; what the file says besides its lists goes to its places.
// kept: three counts, five numbers and a code at places of their own: the C interface
pub(crate) fn tell_header(
    read: Result<Header, Refusal>,
    counts: &mut [usize; 3],
    numbers: &mut [f64; 5],
    model: &mut u8,
) -> u8
    ensures { (a : File.Areas) → ending result (heading_of counts.new numbers.new model.new) a
        ≡ heading_told (Reader.outcome_of read a) (heading_of counts.old numbers.old model.old) }
{
    if let Ok(header) = read {
        let options = header.options;
        let v = options.variogram;
        *counts = [header.wells, header.nodes, header.bases];
        *numbers = [
            v.nugget,
            v.sill,
            v.range,
            options.regularization,
            header.tolerance,
        ];
        *model = u8::from(v.model);
    }
    error::ended_by(&read)
}
