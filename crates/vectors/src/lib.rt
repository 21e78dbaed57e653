// What the programs that replay stored answers share: the words of standard input and the tally; and, of those that replay whole calls, the counts,
// the lent areas, the variogram and the survey.
#![tactic(auto)]

pub mod areas; // areas.rt: lists that come in, and areas that are lent
pub mod counts; // counts.rt: what is counted, and written
pub mod models; // models.rt: a variogram that comes in
pub mod places; // places.rt: what a place of a list or an area has
pub mod surveys; // surveys.rt: a survey that comes in

ghost use Rattle.std.specs.Prelude.{◌≡◌, unwrap_or};
ghost use Rattle.vectors.specs.Tallied.{tally_of, with_record, Replayed};
ghost use Rattle.vectors.specs.Words.{BytesIn, CameIn, In, EndIn};

use crate::places::Place;

// the descriptors of standard input and output, by the names of the C library
const STDIN_FILENO: i32 = 0;

const STDOUT_FILENO: i32 = 1;

// The next N bytes of standard input, and none where it ends before them. What they are no contract can say.
pub fn next_bytes<const N: usize>() -> Option<[u8; N]>
    ensures { BytesIn N result }
{
    let mut bytes = [0u8; N];
    if io::read_full(STDIN_FILENO, &mut bytes) < N {
        return None;
    }
    Some(bytes)
}

// The next word of standard input.
pub fn next_word() -> Option<u64>
    ensures { CameIn result }
{
    let bytes = next_bytes::<8>()?;
    Some(patterns::word(&bytes, 0))
}

// The number that a word is: past the input's end it is 0.
pub fn number(word: Option<u64>) -> u64
    ensures { result ≡ unwrap_or word 0 }
{
    word.unwrap_or(0)
}

// What the next word gives: a number, a count, or the f64 whose pattern it is.
pub fn next<T: Place>() -> T
    ensures { In T.of_word result }
{
    T::of(number(next_word()))
}

// Where a list ends that begins at a place: its length comes in.
pub fn next_end(start: usize) -> usize
    ensures { EndIn start result }
{
    start.wrapping_add(next())
}

// How many were compared, records or places, and how many of them differ.
#[derive(Clone, Copy, Default)]
pub struct Tally {
    pub compared: u64,
    pub differ: u64,
}

impl Tally {
    // One more was compared.
    pub fn count(&mut self, agrees: bool)
        ensures { self.new ≡ with_record self.old agrees }
    {
        self.compared = self.compared.wrapping_add(1);
        if !agrees {
            self.differ = self.differ.wrapping_add(1);
        }
    }

    // One record more. Writes a line where it differs, by its number.
    pub fn record(&mut self, agrees: bool)
        ensures { self.new ≡ with_record self.old agrees }
    {
        self.count(agrees);
        if !agrees {
            io::write_all(STDOUT_FILENO, b"differs: record ");
            io::print_decimal(STDOUT_FILENO, self.compared);
            io::write_all(STDOUT_FILENO, b"\n");
        }
    }

    // Writes how many were compared and differ, a replay's last line, and answers how many differ.
    pub fn write(self) -> u64
        ensures { result ≡ self.differ }
    {
        io::print_decimal(STDOUT_FILENO, self.compared);
        io::write_all(STDOUT_FILENO, b" compared, ");
        io::print_decimal(STDOUT_FILENO, self.differ);
        io::write_all(STDOUT_FILENO, b" differ\n");
        self.differ
    }
}

// A record for each turn, which says whether it agrees, until one finds the input's end. A proved loop has to end, and nothing says that the input does:
// there are as many turns at most as a u64 counts.
pub fn replay<F: FnMut() -> Option<bool>>(mut turn: F) -> Tally
    requires { F.IsAlwaysCallable turn }
    ensures { Replayed F.step turn result }
{
    let mut tally = Tally::default();
    for _ in 0..u64::MAX {
        let Some(agrees) = turn() else {
            return tally;
        };
        tally.record(agrees);
    }
    tally
}
