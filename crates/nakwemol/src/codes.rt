// The number of a code that is none, and the variogram that a call's numbers make.
ghost use Rattle.std.specs.Prelude.{◌≡◌};
ghost use Rattle.nakwemol.specs.Codes.{variogram_of};

use variogram::{Variogram, VariogramModel};

// The number of a call that names a model or a kriging type by a code that is none. No refusal has it.
// kept: a number beside those of the refusals, since a call of the C interface answers one number
pub(crate) const UNKNOWN_CODE: u8 = 100;

// A variogram with all its numbers, the same-spot distance too.
// kept: five numbers of one variogram side by side, here and in the calls: the C interface hands each by itself
pub(crate) fn variogram_of(
    model: VariogramModel,
    nugget: f64,
    sill: f64,
    range: f64,
    same_spot: f64,
) -> Variogram
    ensures { result ≡ variogram_of model nugget sill range same_spot }
{
    Variogram::new(model, nugget, sill, range).with_same_spot(same_spot)
}
