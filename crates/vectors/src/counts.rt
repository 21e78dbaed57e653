// What a replay of whole calls counts: how they ended, and of each part of an answer how many places were compared and how many of them differ.
ghost use Rattle.std.specs.Prelude.{◌≡◌};
ghost use Rattle.vectors.specs.Counted.{none_yet, with_difference, compared_in, untouched_in, counted_at, ended_by};

use crate::Tally;

// the descriptors of standard input and output, by the names of the C library
const STDOUT_FILENO: i32 = 1;

// How many numbers there are that a call ends by: each is below.
const NUMBERS: usize = 30;

// The counts that are the same for each program: how many calls ended by each number, the numbers compared, the places compared that are not to be
// written, and all that differ, in these and in the program's own parts.
#[derive(Clone, Copy)]
pub struct Calls {
    pub endings: [u64; NUMBERS],
    pub numbers: Tally,
    pub untouched: Tally,
    pub differences: u64,
}

// The counts before the first call: written out, since a derived one does not say how many numbers there are.
impl Default for Calls {
    ghost is_default = { λ calls. calls ≡ none_yet };

    fn default() -> Calls {
        Calls {
            endings: [0; NUMBERS],
            numbers: Tally::default(),
            untouched: Tally::default(),
            differences: 0,
        }
    }
}

// One more at a place of the counts: past their end there is none.
#[tactic(auto, unfolding(crate::specs::Counted::counted_at))]
fn count(counts: &mut [u64], at: usize)
    ensures { counts.new ≡ counted_at at counts.old }
{
    if at < counts.len() {
        counts[at] = counts[at].wrapping_add(1);
    }
}

impl Calls {
    // One more of all that differ, unless it is the same.
    fn note(&mut self, same: bool)
        ensures { self.new ≡ with_difference self.old same }
    {
        if !same {
            self.differences = self.differences.wrapping_add(1);
        }
    }

    // One place of a part was compared.
    pub fn compared(&mut self, part: &mut Tally, same: bool)
        ensures { (part.new, self.new) ≡ compared_in same (part.old, self.old) }
    {
        part.count(same);
        self.note(same);
    }

    // One place was compared that is not to be written.
    pub fn compared_untouched(&mut self, same: bool)
        ensures { self.new ≡ untouched_in same self.old }
    {
        self.untouched.count(same);
        self.note(same);
    }

    // A call ended by a number; the other one is what it has to be.
    pub fn ended_by(&mut self, number: u64, wanted: u64)
        ensures { self.new ≡ ended_by number wanted self.old }
    {
        count(&mut self.endings, number as usize);
        let same = number == wanted;
        self.numbers.count(same);
        self.note(same);
    }

    // Writes a line for each number that calls ended by. It answers nothing; of standard output no contract speaks.
    pub fn write_endings(&self) {
        for (number, times) in self.endings.iter().enumerate() {
            if *times > 0 {
                io::write_all(STDOUT_FILENO, b"ended by ");
                io::print_decimal(STDOUT_FILENO, number as u64);
                io::write_all(STDOUT_FILENO, b": ");
                io::print_decimal(STDOUT_FILENO, *times);
                io::write_all(STDOUT_FILENO, b"\n");
            }
        }
    }

    // Writes how the calls ended, the first lines of each replay: by number, and how many of the numbers differ, which it answers.
    pub fn write_first(&self) -> u64
        ensures { result ≡ self.now.numbers.differ }
    {
        self.write_endings();
        write_part(b"numbers of the endings: ", self.numbers)
    }

    // Writes its last lines: the places that are not to be written, and how many records were compared and differ.
    pub fn write_last(&self, records: Tally) -> u64
        ensures { result ≡ records.differ }
    {
        write_part(b"places not to be written: ", self.untouched);
        records.write()
    }
}

// Writes the line of a part, and answers how many of it differ.
pub fn write_part(name: &[u8], part: Tally) -> u64
    ensures { result ≡ part.differ }
{
    io::write_all(STDOUT_FILENO, name);
    part.write()
}
