// The writer of the survey file. What a file is, and that it reads back, stands in survey_file_theory.
#![tactic(auto)]

mod refusals; // refusals.rt: 1, 2, 6, 8, 11, 22, 16, 18
mod bytes; // bytes.rt: numbers as bytes of a file
mod layout; // layout.rt: the body and the trailer

ghost use Rattle.std.specs.Prelude.{◌≡◌, ℕ, take};
ghost use Rattle.std.proofs.Math.Option.{some};
ghost use Rattle.survey.specs.Lent.{survey_lent};
ghost use Rattle.survey_file_theory.specs.Areas.{Areas, Holds};
ghost use Rattle.survey_file_theory.specs.File.{newest_version};
ghost use Rattle.survey_file_theory.specs.Reader.{reader, answer_of};
ghost use Rattle.survey_file_theory.specs.Writer.{outcome_of, writer, Ends};

use crate::layout::put_file;
use crate::refusals::writer_refusal;
use area::Cursor;
use error::Refusal;
use survey::Survey;

// Writes a survey as a file, with no note, and says how many bytes it has: values and coordinates of n wells, basis codes, external values column after
// column, m nodes with theirs node after node. A file has no place for the same-spot distance: any but 2^-52 is refused by 22. Up to 48 wells its version is 1,
// above 2, and more than the library takes are refused by 16.
pub fn write_survey(survey: &Survey<'_>, file: &mut [u8]) -> Result<usize, Refusal>
    ensures {  -- the survey, and how the call ended: its number, how many bytes were written, and the file at exit
        let s = survey_lent survey.now in
        let e = outcome_of result file.new in
        -- the whole of it, refused calls too
        let equation : Type 0 = e ≡ writer newest_version s file.old in
        -- each number exactly when, and what the file holds then
        let ends : Type 0 = Ends newest_version s file.old e in
        -- "what it wrote reads back bit for bit": into whatever areas have room for the lists
        let back : Type 0 = (count : ℕ) → e.count ≡ some count → (lent : Areas) → Holds s lent
        → reader newest_version (take count file.new) lent ≡ answer_of s lent in
        equation × ends × back }
{
    writer_refusal(survey, file)?;
    let mut place = Cursor { area: file, at: 0 };
    put_file(survey, &mut place);
    Ok(place.at)
}
