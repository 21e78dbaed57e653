// A variogram that comes in.
ghost use Rattle.std.specs.Prelude.{◌≡◌};
ghost use Rattle.vectors.specs.Words.{model_in, VariogramIn};

use crate::next;
use variogram::{Variogram, VariogramModel};

// The model of a number: "model 1 to 4 in the enum's order". No record has another number.
fn model(number: u64) -> VariogramModel
    ensures { result ≡ model_in number }
{
    let Ok(code) = u8::try_from(number) else {
        return VariogramModel::Linear;
    };
    VariogramModel::try_from(code).unwrap_or(VariogramModel::Linear)
}

// The model's number, and then nugget, sill, range and same-spot distance.
pub fn next_variogram() -> Variogram
    ensures { VariogramIn result }
{
    let model = model(next());
    let nugget: f64 = next();
    let sill: f64 = next();
    let range: f64 = next();
    let same_spot: f64 = next();
    Variogram::new(model, nugget, sill, range).with_same_spot(same_spot)
}
