// A matrix that is its own transpose beside the identity: what both calls' matrices share.
ghost use Rattle.std.specs.Prelude.{◌≡◌, cond, ◌+◌, ◌*◌, ◌≤◌, ◌<◌, eqb, length};
ghost use Rattle.area.specs.Area.{written};
ghost use Rattle.ieee.specs.Floats.{zero_float, one_float};
ghost use Rattle.elimination.specs.Elimination.{at};
ghost use Rattle.elimination.specs.Rows.{completed};

// The whole matrix beside the identity, in an area that holds each of its rows from the diagonal on: no entry is worked out twice. An area that is too short
// stays as it is.
pub fn complete(work: &mut [f64], size: usize)
    ensures { work.new ≡ completed size work.old }
{
    if crate::too_short(work.len(), size) {
        return;
    }
    for i in 0..size {
        fill_mirrored(work, size, i);
        fill_identity(work, size, i);
    }
}

// Row `i` before the diagonal: what the rows above it hold in column `i`.
fn fill_mirrored(work: &mut [f64], size: usize, i: usize)
    requires { (i < size) × (i * (2 * size) + 2 * size ≤ length work.old) }
    ensures { work.new ≡ written (i * (2 * size)) i (λ j. at (2 * size) work.old j i) work.old }
{
    let width = 2 * size;
    let row = i * width;
    for j in 0..i {
        work[row + j] = work[j * width + i];
    }
}

// Row `i` of the identity, past the matrix's own columns.
fn fill_identity(work: &mut [f64], size: usize, i: usize)
    requires { (i < size) × (i * (2 * size) + 2 * size ≤ length work.old) }
    ensures { work.new ≡ written (i * (2 * size) + size) size (λ j. cond (eqb j i) one_float zero_float) work.old }
{
    let from = i * (2 * size) + size;
    work[from..from + size].fill(0.0);
    work[from + i] = 1.0;
}
