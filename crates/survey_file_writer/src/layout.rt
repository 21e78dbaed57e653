// A file as the paper lays it out: the body, the codes and the trailer. There is no note, so the body begins at byte 0.
ghost use Rattle.std.specs.Prelude.{◌≡◌, T};
ghost use Rattle.ieee.specs.Bytes.{little_endian, all_fit, f64_bytes};
ghost use Rattle.survey.specs.Lent.{survey_lent};
ghost use Rattle.survey_file_theory.specs.Contents.{numbers};
ghost use Rattle.survey_file_theory.specs.File.{newest_version, version_for, trailer, writer_file};
ghost use Rattle.area.specs.Cursor.{HasRoom, Puts};

use crate::bytes::put_numbers;
use crate::refusals::taken_externals;
use area::Cursor;
use survey::Survey;
use survey_file_theory::{MOST_IN_VERSION_1, NEWEST_VERSION, OLD_VERSION};

// The version of a survey of n wells: the old one as far as it goes, so that old readers take what they took.
fn version_of(n: usize) -> u8
    ensures { result ≡ version_for newest_version n }
{
    if n > MOST_IN_VERSION_1 {
        return NEWEST_VERSION;
    }
    OLD_VERSION
}

// The two lowest bytes of a count, the lowest first.
fn two_bytes(count: usize) -> [u8; 2]
    ensures { result ≡ little_endian 2 count }
{
    ((count % 65_536) as u16).to_le_bytes()
}

// The trailer: the body begins at byte 0, and then n, m and the code count, the model and the version.
fn put_trailer(survey: &Survey<'_>, place: &mut Cursor<'_>)
    requires { HasRoom (trailer newest_version 0 (survey_lent survey.now)) place.old }
    ensures { Puts (trailer newest_version 0 (survey_lent survey.now)) place.old place.new }
{
    let model = u8::from(survey.options.variogram.model);
    let version = version_of(survey.wells());
    place.put_bytes(&[0; 4]);
    place.put_bytes(&two_bytes(survey.wells()));
    place.put_bytes(&two_bytes(survey.node_count()));
    place.put_bytes(&two_bytes(survey.bases.len()));
    place.put_bytes(&[model, version, 0, 0]);
}

// The numbers: nugget, sill, range, r and t, and then the lists. Node externals are put only where a code takes them.
fn put_all_numbers(survey: &Survey<'_>, place: &mut Cursor<'_>)
    requires { HasRoom (f64_bytes (numbers (survey_lent survey.now))) place.old }
    ensures put { Puts (f64_bytes (numbers (survey_lent survey.now))) place.old place.new }
    ensures fit { T (all_fit (numbers (survey_lent survey.now))) }
{
    let v = survey.options.variogram;
    let first = [
        v.nugget,
        v.sill,
        v.range,
        survey.options.regularization,
        survey.tolerance,
    ];
    put_numbers(&first, place);
    put_numbers(survey.values, place);
    put_numbers(survey.coords, place);
    put_numbers(survey.external, place);
    put_numbers(survey.nodes, place);
    put_numbers(taken_externals(survey), place);
}

// The whole file: the numbers, the codes, the trailer.
pub(crate) fn put_file(survey: &Survey<'_>, place: &mut Cursor<'_>)
    requires { HasRoom (writer_file newest_version (survey_lent survey.now)) place.old }
    ensures put { Puts (writer_file newest_version (survey_lent survey.now)) place.old place.new }
    ensures fit { T (all_fit (numbers (survey_lent survey.now))) }
{
    put_all_numbers(survey, place);
    place.put_bytes(survey.bases);
    put_trailer(survey, place);
}
