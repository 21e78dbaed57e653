// How many bytes a text takes, worked out before any of it is written. What is left of a room is taken from it text by text, and there is none where a text is
// longer: so no sum of lengths passes a machine word.
ghost use Rattle.std.specs.Prelude.{◌≡◌, List, ◌≤◌, Float, length};
ghost use Rattle.report.specs.Numerals.{decimal_text};
ghost use Rattle.report.specs.Listing.{node_line, lines, node_at, listing, refused_text};
ghost use Rattle.report.specs.Judged.{of_answer, Judges, Leaves};
ghost use Rattle.report.specs.declared.Unprinted.TheVariants.{TooShort};

use crate::Unprinted;
use crate::lists::Lists;

// How many digits a number has in decimal, at most 20. Kept: a fixed area and its count, since there is no heap.
fn decimal_length(n: u64) -> usize
    ensures { (result ≡ length (decimal_text n)) × (result ≤ 20) }
{
    let mut digits = [0u8; 20];
    io::decimal(n, &mut digits)
}

// That a refusal's line has room in `size` bytes: its word, a space and a line feed are 9 of its own.
pub(crate) fn for_refusal(number: u8, size: usize) -> Result<(), Unprinted>
    ensures { Judges (length (refused_text number) ≤ size) TooShort result }
{
    if decimal_length(number as u64) + 9 > size {
        return Err(Unprinted::TooShort);
    }
    Ok(())
}

// The bytes of a node's line: figure, variance, three spaces and a line feed are 36 of them.
fn node_length(number: u64, verdict: u8) -> usize
    ensures { (figure variance : Float) → result ≡ length (node_line number figure variance verdict) }
{
    decimal_length(number) + decimal_length(verdict as u64) + 36
}

// What is left of a room.
fn left(room: usize, taken: usize) -> Result<usize, Unprinted>
    ensures { Leaves room taken result }
{
    room.checked_sub(taken).ok_or(Unprinted::TooShort)
}

// What the lines of all nodes leave of a room.
fn left_by_nodes(verdicts: &[u8], room: usize) -> Result<usize, Unprinted>
    ensures { (figures variances : List Float)
        → Leaves room (length (lines (length verdicts.now) (node_at figures variances verdicts.now))) result }
{
    let mut rest = room;
    for (i, &verdict) in verdicts.iter().enumerate() {
        rest = left(rest, node_length(i as u64 + 1, verdict))?;
    }
    Ok(rest)
}

// That a listing has room in `size` bytes: the line of the number of nodes has 7 of its own, a column's coef line 22 and its trend line 23.
pub(crate) fn for_listing(lists: &Lists<'_>, size: usize) -> Result<(), Unprinted>
    ensures { Judges (length (of_answer listing lists.now.answer.now) ≤ size) TooShort result }
{
    let answer = lists.answer;
    let verdicts = answer.verdicts;
    let room = left(size, decimal_length(verdicts.len() as u64) + 7)?;
    let rest = left_by_nodes(verdicts, room)?;
    if answer.multipliers.len() > rest / 45 {
        return Err(Unprinted::TooShort);
    }
    Ok(())
}
