// Lists that come in as runs of bytes, so that the longest file takes little room: of a run the first bytes are told, and each later one is as that so many
// places before it.
use vectors::next;
use vectors::places::Place;

// The most numbers of a list, and the most bytes.
pub const NUMBERS: usize = 8256;

pub const BYTES: usize = 66_048;

// The next byte of standard input: past its end, 0.
fn next_byte() -> u8 {
    let [byte] = vectors::next_bytes::<1>().unwrap_or([0]);
    byte
}

// The next bytes that come in, from a place up to another one.
fn load_told(bytes: &mut [u8], from: usize, to: usize) {
    let end = to.min(bytes.len());
    if let Some(told) = bytes.get_mut(from..end) {
        told.fill_with(next_byte);
    }
}

// Each byte from a place up to another one as that so many places before it.
fn repeat(bytes: &mut [u8], from: usize, to: usize, back: usize) {
    if from < back {
        return;
    }
    for at in from..to.min(bytes.len()) {
        bytes[at] = bytes[at - back];
    }
}

// The next run, from a place on: how many places it has, how many of them are told, and those. Answers where it ends.
fn load_run(bytes: &mut [u8], from: usize) -> usize {
    let end = from.wrapping_add(next());
    let told = next();
    let copied = from.wrapping_add(told);
    load_told(bytes, from, copied);
    repeat(bytes, copied, end, told);
    end
}

// The next list of bytes: how many runs there are, and those. Answers those of its bytes that have room.
pub(crate) fn load_bytes(bytes: &mut [u8]) -> &[u8] {
    let mut at = 0;
    for _ in 0..next::<usize>() {
        at = load_run(bytes, at);
    }
    &bytes[..at.min(bytes.len())]
}

// The next list of numbers or words, which comes as its bytes, eight for each. Answers those that have room.
pub(crate) fn load_list<T: Place>(list: &mut [T]) -> &[T] {
    let mut room = [0; BYTES];
    let bytes = load_bytes(&mut room);
    for (place, eight) in list.iter_mut().zip(bytes.chunks(8)) {
        *place = T::of(patterns::word(eight, 0));
    }
    let n = bytes.len().div_ceil(8).min(list.len());
    &list[..n]
}
