// What is compared of a call: how it ended and what each area holds, past what is written too.
use crate::runs::{load_bytes, load_list};
use vectors::Tally;
use vectors::areas::compare;
use vectors::counts::{Calls, write_part};

// What is counted: the calls, and each part of an answer.
#[derive(Clone, Copy, Default)]
pub struct Counts {
    pub calls: Calls,
    pub header: Tally,
    pub values: Tally,
    pub coords: Tally,
    pub codes: Tally,
    pub external: Tally,
    pub nodes: Tally,
    pub node_external: Tally,
    pub length: Tally,
    pub file: Tally,
}

impl Counts {
    fn write_lists(&self) {
        write_part(b"values: ", self.values);
        write_part(b"coordinates: ", self.coords);
        write_part(b"codes: ", self.codes);
        write_part(b"externals: ", self.external);
        write_part(b"nodes: ", self.nodes);
        write_part(b"node externals: ", self.node_external);
    }

    pub(crate) fn write(&self, records: Tally) {
        self.calls.write_first();
        write_part(b"headers: ", self.header);
        self.write_lists();
        write_part(b"lengths of files: ", self.length);
        write_part(b"bytes of files: ", self.file);
        self.calls.write_last(records);
    }
}

// Compares an area of bytes with the next list that comes in.
pub(crate) fn compare_next_bytes(
    area: &[u8],
    told: &mut [u8],
    part: &mut Tally,
    calls: &mut Calls,
) {
    let bytes = load_bytes(told);
    compare(area, bytes, bytes.len(), part, calls);
}

// Compares an area of numbers with the next list that comes in.
pub(crate) fn compare_next_list(
    area: &[f64],
    words: &mut [u64],
    part: &mut Tally,
    calls: &mut Calls,
) {
    let list = load_list(words);
    compare(area, list, list.len(), part, calls);
}
