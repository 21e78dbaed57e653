// The counts of a survey that its basis codes give: drift columns p, and external columns k.
ghost use Rattle.std.specs.Prelude.{◌≡◌, ◌*◌, eqb, ltb};
ghost use Rattle.survey.specs.Survey.{code_columns, column_sum, external_count, columns_held};

use survey::DriftBasis;

// Counted columns stop here: more wells than a list of f64 can have.
const MOST: usize = 0x1000_0000_0000_0000;

// How many drift columns a code gives: a code that is none of the four gives none.
pub fn drift_basis_columns(code: u8) -> usize
    ensures { result ≡ code_columns code }
{
    match DriftBasis::try_from(code) {
        Ok(basis) => basis.columns(),
        Err(_) => 0,
    }
}

// p, the drift columns of all codes, or MOST where there are more.
pub fn drift_columns(bases: &[u8]) -> usize
    ensures { result ≡ columns_held bases.now }
{
    let mut p = 0;
    for code in bases {
        p += drift_basis_columns(*code);
        if p >= MOST {
            return MOST;
        }
    }
    p
}

// Whether the codes give more columns than `most`. What is left of `most` is counted down: p itself need not fit a word, and the rest of the codes is not read
// once it is passed.
pub fn more_columns(bases: &[u8], most: usize) -> bool
    ensures { result ≡ ltb most (column_sum bases.now) }
{
    let mut left = most;
    for code in bases {
        let columns = drift_basis_columns(*code);
        if left < columns {
            return true;
        }
        left -= columns;
    }
    false
}

// k, the count of code 4.
pub fn external_columns(bases: &[u8]) -> usize
    ensures { result ≡ external_count bases.now }
{
    let external = DriftBasis::External as u8;
    let mut k = 0;
    // kept: counted in the loop, where the count of a filter is compiled to a branch for each code: ten times the time of a file full of codes
    for code in bases {
        if *code == external {
            k += 1;
        }
    }
    k
}

// Whether a list of this length holds k numbers for each of n. The product need not fit a word: by division.
pub fn is_product(len: usize, k: usize, n: usize) -> bool
    ensures { result ≡ eqb len (k * n) }
{
    if n == 0 {
        return len == 0;
    }
    if len % n != 0 {
        return false;
    }
    len / n == k
}
