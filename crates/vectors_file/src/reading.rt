// A record of the reader: a file by its bytes, how much of each area is lent, and what is told of the answer.
use crate::compare::{Counts, compare_next_bytes, compare_next_list};
use crate::runs::{BYTES, NUMBERS, load_bytes};
use error::Refusal;
use survey_file_reader::read_survey;
use survey_file_theory::{Areas, Header};
use vectors::areas::lent;
use vectors::next;

// How much of each area is lent.
#[derive(Clone, Copy)]
pub struct Lengths {
    pub values: usize,
    pub coords: usize,
    pub bases: usize,
    pub external: usize,
    pub nodes: usize,
    pub node_external: usize,
}

fn next_lengths() -> Lengths {
    Lengths {
        values: next(),
        coords: next(),
        bases: next(),
        external: next(),
        nodes: next(),
        node_external: next(),
    }
}

// What a call that read a file says besides its lists, as words: wells, nodes, codes, model, nugget, sill, range, same-spot distance, r and t.
fn header_words(header: Header) -> [u64; 10] {
    let options = header.options;
    let v = options.variogram;
    [
        header.wells as u64,
        header.nodes as u64,
        header.bases as u64,
        u8::from(v.model) as u64,
        patterns::pattern(v.nugget),
        patterns::pattern(v.sill),
        patterns::pattern(v.range),
        patterns::pattern(v.same_spot),
        patterns::pattern(options.regularization),
        patterns::pattern(header.tolerance),
    ]
}

// Compares how a call ended: its number comes in, and then the header's words, which are 0 where it is refused.
fn compare_answer(answer: Result<Header, Refusal>, counts: &mut Counts) {
    let calls = &mut counts.calls;
    calls.ended_by(error::ended_by(&answer) as u64, next());
    for word in answer.map(header_words).unwrap_or([0; 10]) {
        let told: u64 = next();
        calls.compared(&mut counts.header, word == told);
    }
}

// Compares what a call left in the areas of the wells and the codes.
fn compare_wells(areas: &Areas<'_>, counts: &mut Counts) {
    let calls = &mut counts.calls;
    let mut words = [0; NUMBERS];
    compare_next_list(areas.values, &mut words, &mut counts.values, calls);
    compare_next_list(areas.coords, &mut words, &mut counts.coords, calls);
    compare_next_bytes(areas.bases, &mut [0; BYTES], &mut counts.codes, calls);
}

// And of the external values and the nodes.
fn compare_nodes(areas: &Areas<'_>, counts: &mut Counts) {
    let calls = &mut counts.calls;
    let mut words = [0; NUMBERS];
    compare_next_list(areas.external, &mut words, &mut counts.external, calls);
    compare_next_list(areas.nodes, &mut words, &mut counts.nodes, calls);
    compare_next_list(
        areas.node_external,
        &mut words,
        &mut counts.node_external,
        calls,
    );
}

// The call on a file, with as much of each area as the record lends, which holds the marks, and what came of it.
fn replay_file(lengths: Lengths, bytes: &[u8], counts: &mut Counts) {
    let mut values = [0.0; NUMBERS];
    let mut coords = [0.0; NUMBERS];
    let mut bases = [0; BYTES];
    let mut external = [0.0; NUMBERS];
    let mut nodes = [0.0; NUMBERS];
    let mut node_external = [0.0; NUMBERS];
    let mut areas = Areas {
        values: lent(&mut values, lengths.values),
        coords: lent(&mut coords, lengths.coords),
        bases: lent(&mut bases, lengths.bases),
        external: lent(&mut external, lengths.external),
        nodes: lent(&mut nodes, lengths.nodes),
        node_external: lent(&mut node_external, lengths.node_external),
    };
    compare_answer(read_survey(bytes, &mut areas), counts);
    compare_wells(&areas, counts);
    compare_nodes(&areas, counts);
}

// A record of the reader.
pub(crate) fn replay_read(counts: &mut Counts) {
    let lengths = next_lengths();
    let mut room = [0; BYTES];
    replay_file(lengths, load_bytes(&mut room), counts);
}
