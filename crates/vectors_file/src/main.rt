// Replays the reader and the writer of the survey file: bytes and answers of another reading of the paper.
// Standard input has a record for each call, as tools/generators/file.py wrote them.
// Writes a line for each record that comes out otherwise; then how the calls ended, by number, and of each part how many places were compared and how
// many differ; and last how many records were compared and how many differ.
#![tactic(auto)]

mod compare; // compare.rt: what is compared
mod reading; // reading.rt: a record of the reader
mod runs; // runs.rt: the lists of a record
mod writing; // writing.rt: a record of the writer

use compare::Counts;
use reading::replay_read;
use writing::replay_write;

// One record more: whether all is as it says, and none at the input's end. Its first word is 1 for the reader's call and 2 for the writer's, and no record
// has another one.
// kept: the numbers stand once, beside what each calls; an enum would have them and the calls twice.
fn replayed(counts: &mut Counts) -> Option<bool> {
    let call = vectors::next_word()?;
    let before = counts.calls.differences;
    match call {
        1 => replay_read(counts),
        _ => replay_write(counts),
    }
    Some(counts.calls.differences == before)
}

fn main() {
    let mut counts = Counts::default();
    let records = vectors::replay(|| replayed(&mut counts));
    counts.write(records);
}
