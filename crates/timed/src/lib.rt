// What stands inside the library and is exported for the benchmark alone, so that it can be timed by itself.
#![tactic(auto)]

ghost use Rattle.std.specs.Prelude.{◌≡◌};
ghost use Rattle.words.specs.Words.{reading};
ghost use Rattle.words.specs.Compared.{order_of, words_taken};
ghost use Rattle.timed.specs.Codes.{code_of};

use std::cmp::Ordering;

// `compare` of two exact sums: 0 where the first is below the second, 1 where they are the same, 2 where it is above. How many words it took goes to
// its place.
#[unsafe(no_mangle)]
pub extern "C" fn timed_compare(a: &[u64; 67], b: &[u64; 67], words: &mut usize) -> u8
    ensures order { result ≡ code_of (order_of (reading a.now) (reading b.now)) }
    ensures words { words.new ≡ words_taken a.now b.now }
{
    let compared = words::compare(*a, *b);
    *words = compared.words;
    match compared.order {
        Ordering::Less => 0,
        Ordering::Equal => 1,
        Ordering::Greater => 2,
    }
}
