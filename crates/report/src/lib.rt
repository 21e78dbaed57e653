// What `wellmap` prints, as bytes in a lent area.
#![tactic(auto)]

mod lists;
mod put;
mod room;

ghost use Rattle.std.specs.Prelude.{◌≡◌, ◌≤◌, length, replicate};
ghost use Rattle.error.specs.Numbers.{number_of};
ghost use Rattle.report.specs.Listing.{listing, refused_text, longest};
ghost use Rattle.report.specs.Printed.{outcome_of, printed, listed, TextNumbered, ListingNumbered};
ghost use Rattle.report.specs.Judged.{of_answer};

use crate::lists::Lists;
use area::Cursor;
use error::Refusal;

// Why a text is not printed. The area is then as it was.
#[derive(Clone, Copy, Debug, PartialEq, Eq)]
pub enum Unprinted {
    // The area has fewer bytes than the text.
    TooShort,
    // There is not one figure and one variance for each verdict, or not one number of the trend for each multiplier.
    Uneven,
}

// The answer of an accepted fit: a figure, a variance and a verdict for each node, a multiplier and a number of the trend for each column. Kept: lists side
// by side, since the fit fills areas that are lent so (the C interface).
#[derive(Clone, Copy)]
pub struct Answer<'a> {
    pub predicted: &'a [f64],
    pub variance: &'a [f64],
    pub verdicts: &'a [u8],
    pub multipliers: &'a [f64],
    pub trend: &'a [f64],
}

// The bytes of the longest listing of an accepted fit.
const LONGEST: usize = 4642;

// Zeros, as many as the longest text has bytes.
pub fn text_area() -> [u8; LONGEST]
    ensures { result ≡ replicate longest 0 }
{
    [0; LONGEST]
}

// The listing of an accepted fit: a line for the number of nodes, one for each node, one for each multiplier and one for each number of the trend. How many
// bytes stand at the start of the area.
pub fn write_listing(answer: &Answer<'_>, text: &mut [u8]) -> Result<usize, Unprinted>
    ensures equation { outcome_of result text.new ≡ of_answer listed answer.now text.old }
    ensures longest { length answer.now.verdicts.now ≤ 100
        → length answer.now.multipliers.now ≤ 12 → length answer.now.trend.now ≤ 12
        → length (of_answer listing answer.now) ≤ longest }
    ensures numbered { of_answer ListingNumbered answer.now text.old result }
{
    let lists = Lists::new(answer)?;
    room::for_listing(&lists, text.len())?;
    let mut out = Cursor { area: text, at: 0 };
    put::put_listing(&lists, &mut out);
    Ok(out.at)
}

// A refusal's one line.
pub fn write_refusal(refusal: Refusal, text: &mut [u8]) -> Result<usize, Unprinted>
    ensures equation { outcome_of result text.new ≡ printed (refused_text (number_of refusal)) text.old }
    ensures longest { length (refused_text (number_of refusal)) ≤ longest }
    ensures numbered { TextNumbered (refused_text (number_of refusal)) text.old result }
{
    let number = u8::from(refusal);
    room::for_refusal(number, text.len())?;
    let mut out = Cursor { area: text, at: 0 };
    put::put_refusal(number, &mut out);
    Ok(out.at)
}
