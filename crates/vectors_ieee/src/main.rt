// Replays answers of Rust's own functions on f64: standard input has a record of eight words for each, as tools/generators/ieee.rs wrote it.
// Writes a line for each record that comes out otherwise, and then how many were compared and how many differ.
#![tactic(auto)]

// the descriptors of standard input and output, by the names of the C library
const STDOUT_FILENO: i32 = 1;

// The pattern of the answer to a call. No call has another number, and no answer the pattern of the last line.
// kept: the numbers stand once, beside what each calls; an enum would have them and the calls twice.
fn answer(call: u64, x: f64, y: f64) -> u64 {
    match call {
        1 => patterns::pattern(ieee::sqrt(x)),
        2 => patterns::pattern(ieee::floor(x)),
        3 => patterns::pattern(ieee::abs(x)),
        4 => patterns::pattern(ieee::max(x, y)),
        5 => patterns::pattern(ieee::min(x, y)),
        6 => u64::from(ieee::is_finite(x)),
        _ => 0xffff_ffff_ffff_ffff,
    }
}

// The call, its operands, what came out and what Rust has.
fn report(call: u64, x: u64, y: u64, got: u64, want: u64) {
    io::write_all(STDOUT_FILENO, b"call ");
    io::print_decimal(STDOUT_FILENO, call);
    io::write_all(STDOUT_FILENO, b" of ");
    io::print_hex(STDOUT_FILENO, x, 16);
    io::write_all(STDOUT_FILENO, b" ");
    io::print_hex(STDOUT_FILENO, y, 16);
    io::write_all(STDOUT_FILENO, b", got ");
    io::print_hex(STDOUT_FILENO, got, 16);
    io::write_all(STDOUT_FILENO, b", want ");
    io::print_hex(STDOUT_FILENO, want, 16);
    io::write_all(STDOUT_FILENO, b"\n");
}

// One record more: whether it agrees, and none at the input's end.
fn replayed() -> Option<bool> {
    let bytes = vectors::next_bytes::<64>()?;
    let call = patterns::word(&bytes, 0);
    let x = patterns::word(&bytes, 8);
    let y = patterns::word(&bytes, 16);
    let want = patterns::word(&bytes, 56);
    let got = answer(call, patterns::float(x), patterns::float(y));
    if got != want {
        report(call, x, y, got, want);
    }
    Some(got == want)
}

fn main() {
    vectors::replay(replayed).write();
}
