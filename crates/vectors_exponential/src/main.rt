// Replays e^−u: standard input has a record of three words for each u, as tools/generators/exponential.py wrote it: u, and the least and the greatest answer
// that lie within 2^-50 of the exact value. Writes a line for each record that comes out otherwise, and then how many were compared and how many differ.
#![tactic(auto)]

// the descriptors of standard input and output, by the names of the C library
const STDOUT_FILENO: i32 = 1;

// u, what came out, and between what it has to lie.
fn report(u: u64, got: u64, least: u64, greatest: u64) {
    io::write_all(STDOUT_FILENO, b"u ");
    io::print_hex(STDOUT_FILENO, u, 16);
    io::write_all(STDOUT_FILENO, b", got ");
    io::print_hex(STDOUT_FILENO, got, 16);
    io::write_all(STDOUT_FILENO, b", want ");
    io::print_hex(STDOUT_FILENO, least, 16);
    io::write_all(STDOUT_FILENO, b" to ");
    io::print_hex(STDOUT_FILENO, greatest, 16);
    io::write_all(STDOUT_FILENO, b"\n");
}

// One record more: whether it agrees, and none at the input's end. No answer has a sign, so patterns rise as the numbers do.
fn replayed() -> Option<bool> {
    let bytes = vectors::next_bytes::<24>()?;
    let u = patterns::word(&bytes, 0);
    let least = patterns::word(&bytes, 8);
    let greatest = patterns::word(&bytes, 16);
    let got = patterns::pattern(exponential::exp_neg(patterns::float(u)));
    let within = (least..=greatest).contains(&got);
    if !within {
        report(u, got, least, greatest);
    }
    Some(within)
}

fn main() {
    vectors::replay(replayed).write();
}
