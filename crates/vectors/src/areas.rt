// Lists that come in, and areas that are lent: what each place holds before a call, and what it is held to after.
ghost use Rattle.std.specs.Prelude.{◌≡◌, length, map, take, slice_index_or};
ghost use Rattle.area.specs.Area.{table, Kept};
ghost use Rattle.vectors.specs.Lent.{between, compared_at, compared_to};

use crate::Tally;
use crate::counts::Calls;
use crate::places::Place;

// The marks, at every place of an area.
pub fn mark<T: Place>(area: &mut [T])
    ensures { area.new ≡ table (length area.old) (λ at. T.of_word (T.marked at)) }
{
    for (at, place) in area.iter_mut().enumerate() {
        *place = T::of(T::mark(at));
    }
}

// As much of an area as is lent, at most all of it: its places hold the marks.
pub fn lent<T: Place>(area: &mut [T], n: usize) -> &mut [T]
    ensures { result.now ≡ take n (table (length area.old) (λ at. T.of_word (T.marked at))) }
{
    mark(area);
    let most = n.min(area.len());
    &mut area[..most]
}

// The numbers from a place up to another one: none where the list has no such part.
pub fn part(numbers: &[f64], from: usize, to: usize) -> &[f64]
    ensures { result.now ≡ between from to numbers.now }
{
    numbers.get(from..to).unwrap_or(&[])
}

// The next n words that come in, at the start of the list. What they are no contract can say.
pub fn load<T: Place>(list: &mut [T], n: usize)
    ensures { Kept n list.old list.new }
{
    let most = n.min(list.len());
    for place in &mut list[..most] {
        *place = crate::next();
    }
}

// One place of an area: of the first ones, as many as are told, what is told; past what is written, the mark.
fn compare_at<W: Place>(
    here: u64,
    mark: u64,
    at: usize,
    told: &[W],
    written: usize,
    part: &mut Tally,
    calls: &mut Calls,
)
    ensures { (part.new, calls.new) ≡ compared_at here mark at (map W.pattern_of told.now) written (part.old, calls.old) }
{
    if at < told.len() {
        calls.compared(part, here == told[at].pattern());
    } else if at >= written {
        calls.compared_untouched(here == mark);
    }
}

// Compares an area, place after place.
pub fn compare<T: Place, W: Place>(
    area: &[T],
    told: &[W],
    written: usize,
    part: &mut Tally,
    calls: &mut Calls,
)
    ensures { (part.new, calls.new) ≡ compared_to (λ at. T.pattern_of (slice_index_or area.now at T.none)) T.marked (map W.pattern_of told.now)
        written (length area.now) (part.old, calls.old) }
{
    for (at, place) in area.iter().enumerate() {
        compare_at(place.pattern(), T::mark(at), at, told, written, part, calls);
    }
}

// Compares an area with the next `told` words that come in: they stand in `words` then.
pub fn compare_next<T: Place>(
    area: &[T],
    words: &mut [u64],
    told: usize,
    written: usize,
    part: &mut Tally,
    calls: &mut Calls,
)
    ensures kept { Kept told words.old words.new }
    ensures counts_after { (part.new, calls.new) ≡ compared_to (λ at. T.pattern_of (slice_index_or area.now at T.none)) T.marked
        (take told words.new) written (length area.now) (part.old, calls.old) }
{
    load(words, told);
    let n = told.min(words.len());
    compare(area, &words[..n], written, part, calls);
}
