// Replays inverses of the original Rust, and then whole work areas by another reading of the paper: standard input has a record for each,
// as tools/generators/elimination.py wrote them.
// Writes a line for each record that comes out otherwise, and then how many were compared and how many differ.
#![tactic(auto)]

ghost use Rattle.std.specs.Prelude.{◌*◌, ◌≤◌};
ghost use Rattle.survey.specs.Limits.{most_size};

use elimination::Stop;
use vectors::areas::{load, part};

// The most rows that a record's matrix has, and the work area that they need.
const LARGEST: usize = survey::MOST_SIZE;

const AREA: usize = 2 * LARGEST * LARGEST;

// The most rows of a record that has whole areas, and how many numbers such an area has past its matrix.
const LARGEST_WHOLE: usize = 12;

const PAST: usize = 3;

// An answer's first word: an inverse follows, or there is none.
const OK: u64 = 0;

const NONE: u64 = 8;

// A record's first words: which call, how many words it has and how many its answer, and the matrix's rows, the first of the call's words.
#[derive(Clone, Copy)]
struct Head {
    call: u64,
    asked: u64,
    answered: u64,
    size: usize,
}

// A row before the call: the matrix's, whose numbers come in, beside the identity's.
fn load_row(row: &mut [f64], number: usize, size: usize) {
    for (column, place) in row.iter_mut().enumerate() {
        *place = if column < size {
            vectors::next()
        } else if column - size == number {
            1.0
        } else {
            0.0
        };
    }
}

// The area before the call: "s rows of 2s".
fn load_beside(work: &mut [f64], size: usize)
    requires { size ≤ most_size }
{
    if size == 0 {
        return;
    }
    for (number, row) in work.chunks_exact_mut(2 * size).take(size).enumerate() {
        load_row(row, number, size);
    }
}

// Whether all numbers are those that come in, of which each is read.
fn agree(numbers: &[f64]) -> bool {
    let others = numbers
        .iter()
        .filter(|x| patterns::pattern(**x) != vectors::next());
    others.count() == 0
}

// Whether the right half is the inverse that comes in. What the left half holds is not asked.
fn inverse_agrees(work: &[f64], size: usize) -> bool
    requires { size ≤ most_size }
{
    if size == 0 {
        return true;
    }
    let mut all = true;
    for row in work.chunks_exact(2 * size).take(size) {
        let same = agree(part(row, size, 2 * size));
        all = all && same;
    }
    all
}

// The call: 4 and 6 are the fit's elimination, and 5 and 7 the interpolator's. No call has another number.
// kept: the numbers stand once, beside what each calls; an enum would have them and the calls twice.
fn answer(call: u64, work: &mut [f64], size: usize) -> Option<Result<(), Stop>> {
    match call {
        4 | 6 => Some(elimination::gauss_jordan_invert_uked(work, size)),
        5 | 7 => Some(elimination::matrix_inverse(work, size)),
        _ => None,
    }
}

// The numbers of a matrix.
fn entries(size: usize) -> u64
    requires { size ≤ most_size }
    ensures { result ≤ most_size * most_size }
{
    (size * size) as u64
}

// Whether the port's answer is the original's: the inverse where it has one, after its size, and none where it has none.
fn agrees(head: Head, work: &mut [f64]) -> bool {
    let size = head.size;
    if size > LARGEST {
        return false;
    }
    let n = entries(size);
    load_beside(work, size);
    let done = matches!(answer(head.call, work, size), Some(Ok(())));
    match vectors::next() {
        OK => {
            let again: usize = vectors::next();
            let same = inverse_agrees(work, size);
            done && same && again == size && head.asked == n + 1 && head.answered == n + 2
        }
        NONE => !done && head.asked == n + 1 && head.answered == 1,
        _ => false,
    }
}

// 0, or the step at which it stopped, from 1. No record has the last line's number.
fn outcome(answer: Option<Result<(), Stop>>) -> u64 {
    match answer {
        Some(Ok(())) => 0,
        Some(Err(Stop::Pivot(step))) => (step as u64).wrapping_add(1),
        Some(Err(Stop::TooShort)) | None => u64::MAX,
    }
}

// The numbers of an area.
fn area_numbers(size: usize) -> usize
    requires { size ≤ 12 }
    ensures { result ≤ 291 }
{
    2 * size * size + PAST
}

// Whether the call ends as the record says, and leaves the area as the record says, both halves and past them.
fn agrees_whole(head: Head, work: &mut [f64]) -> bool {
    let size = head.size;
    if size > LARGEST_WHOLE {
        return false;
    }
    let n = area_numbers(size);
    load(work, n);
    let came = outcome(answer(head.call, work, size));
    let wanted = vectors::next();
    let same = agree(part(work, 0, n));
    came == wanted && same && head.asked == n as u64 + 1 && head.answered == n as u64 + 1
}

fn next_head() -> Option<Head> {
    Some(Head {
        call: vectors::next_word()?,
        asked: vectors::next(),
        answered: vectors::next(),
        size: vectors::next(),
    })
}

// One record more: whether it agrees, and none at the input's end.
fn replayed(work: &mut [f64]) -> Option<bool> {
    let head = next_head()?;
    if head.call > 5 {
        return Some(agrees_whole(head, work));
    }
    Some(agrees(head, work))
}

fn main() {
    let mut work = [0.0; AREA];
    vectors::replay(|| replayed(&mut work)).write();
}
