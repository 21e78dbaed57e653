// Reads a survey file from standard input, and writes the listing of its fit, or why there is none, to standard output.
#![tactic(auto)]

// the descriptors of standard input and output, by the names of the C library
const STDIN_FILENO: i32 = 0;

const STDOUT_FILENO: i32 = 1;

fn main() {
    let mut bytes = survey_map::input_area(); // 65,537: one more than a file may have, so that a longer one is seen to be over
    let got = io::read_full(STDIN_FILENO, &mut bytes);
    let mut text = report::text_area();
    if let Ok(count) = survey_map::print_survey(&bytes[..got], &mut text) {
        io::write_all(STDOUT_FILENO, &text[..count]);
    }
}
