// Texts, put into a lent area at its next place. Kept by hand, and no Display: there is no heap, and the clauses name each byte (write_listing, equation).
ghost use Rattle.std.specs.Prelude.{◌≡◌, length};
ghost use Rattle.report.specs.Numerals.{decimal_text, bits_text};
ghost use Rattle.report.specs.Listing.{spaced, word_line, count_line, node_line, bits_line, lines, node_at, bits_at, listing, refused_text};
ghost use Rattle.report.specs.Judged.{of_answer};
ghost use Rattle.area.specs.Cursor.{HasRoom, Puts};

use crate::lists::Lists;
use area::Cursor;

// A number in decimal. Kept: a fixed area and its count, since there is no heap.
fn put_decimal(n: u64, out: &mut Cursor<'_>)
    requires { HasRoom (decimal_text n) out.old }
    ensures { Puts (decimal_text n) out.old out.new }
{
    let mut digits = [0u8; 20];
    let count = io::decimal(n, &mut digits);
    out.put_bytes(&digits[..count]);
}

// A space, and a number in decimal.
fn put_number(n: u64, out: &mut Cursor<'_>)
    requires { HasRoom (spaced (decimal_text n)) out.old }
    ensures { Puts (spaced (decimal_text n)) out.old out.new }
{
    out.put_bytes(b" ");
    put_decimal(n, out);
}

// A space, and a float by its bits in 16 hexadecimal digits. Kept: a fixed area and its count, since there is no heap.
fn put_bits(x: f64, out: &mut Cursor<'_>)
    requires { HasRoom (spaced (bits_text x)) out.old }
    ensures { Puts (spaced (bits_text x)) out.old out.new }
{
    let mut digits = [0u8; 16];
    let count = io::hex(patterns::pattern(x), 16, &mut digits);
    out.put_bytes(b" ");
    out.put_bytes(&digits[..count]);
}

// A line of one word and one number.
fn put_word_line(word: &[u8], n: u64, out: &mut Cursor<'_>)
    requires { HasRoom (word_line word.now n) out.old }
    ensures { Puts (word_line word.now n) out.old out.new }
{
    out.put_bytes(word);
    put_number(n, out);
    out.put_bytes(b"\n");
}

// The line of a refusal.
pub(crate) fn put_refusal(number: u8, out: &mut Cursor<'_>)
    requires { HasRoom (refused_text number) out.old }
    ensures { Puts (refused_text number) out.old out.new }
{
    put_word_line(b"refused", number as u64, out);
}

// The line of a node.
fn put_node(number: u64, figure: f64, variance: f64, verdict: u8, out: &mut Cursor<'_>)
    requires { HasRoom (node_line number figure variance verdict) out.old }
    ensures { Puts (node_line number figure variance verdict) out.old out.new }
{
    put_decimal(number, out);
    put_bits(figure, out);
    put_bits(variance, out);
    put_number(verdict as u64, out);
    out.put_bytes(b"\n");
}

// The lines of all nodes, numbered from 1. Kept: the number of a verdict is the place in the other two lists, as a zip of three with its count has no laws.
// Kept as three lists: behind the field of a field of `Lists` it is not proved that the place times 8 fits a word.
fn put_nodes(predicted: &[f64], variance: &[f64], verdicts: &[u8], out: &mut Cursor<'_>)
    requires { (length predicted.now ≡ length verdicts.now) × (length variance.now ≡ length verdicts.now)
        × HasRoom (lines (length verdicts.now) (node_at predicted.now variance.now verdicts.now)) out.old }
    ensures { Puts (lines (length verdicts.now) (node_at predicted.now variance.now verdicts.now)) out.old out.new }
{
    for (i, &verdict) in verdicts.iter().enumerate() {
        put_node(i as u64 + 1, predicted[i], variance[i], verdict, out);
    }
}

// A line of one word and one float. Kept beside put_word_line: a trait for the two kinds of number would be longer than the three lines that it saves.
fn put_bits_line(word: &[u8], x: f64, out: &mut Cursor<'_>)
    requires { HasRoom (bits_line word.now x) out.old }
    ensures { Puts (bits_line word.now x) out.old out.new }
{
    out.put_bytes(word);
    put_bits(x, out);
    out.put_bytes(b"\n");
}

// A line of one word and one float for each number of a list.
fn put_bits_lines(word: &[u8], numbers: &[f64], out: &mut Cursor<'_>)
    requires { HasRoom (lines (length numbers.now) (bits_at word.now numbers.now)) out.old }
    ensures { Puts (lines (length numbers.now) (bits_at word.now numbers.now)) out.old out.new }
{
    for &x in numbers {
        put_bits_line(word, x, out);
    }
}

// The listing of an accepted fit.
pub(crate) fn put_listing(lists: &Lists<'_>, out: &mut Cursor<'_>)
    requires { HasRoom (of_answer listing lists.now.answer.now) out.old }
    ensures { Puts (of_answer listing lists.now.answer.now) out.old out.new }
{
    let answer = lists.answer;
    let verdicts = answer.verdicts;
    put_word_line(b"nodes", verdicts.len() as u64, out);
    put_nodes(answer.predicted, answer.variance, verdicts, out);
    put_bits_lines(b"coef", answer.multipliers, out);
    put_bits_lines(b"trend", answer.trend, out);
}
