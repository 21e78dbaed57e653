// What an interpolation is: definitions in specs/, theorems about them in proofs/. The code that meets them is in the crate interpolator.
#![tactic(auto)]

ghost use Rattle.std.specs.Prelude.{◌≡◌};
ghost use Rattle.interpolator_theory.specs.Types.{type_of};

// Kriging types, each with its code.
#[derive(Clone, Copy, Debug, PartialEq, Eq)]
pub enum KrigingType {
    // Ordinary Kriging (constant mean)
    Ordinary = 1,
    // Universal Kriging (trend surface)
    Universal = 2,
}

// A code that names no kriging type.
#[derive(Clone, Copy, Debug, PartialEq, Eq)]
pub struct UnknownType;

impl TryFrom<u8> for KrigingType {
    type Error = UnknownType;

    ghost try_from_gives = { λ code read. read ≡ type_of code };

    fn try_from(code: u8) -> Result<Self, UnknownType> {
        match code {
            1 => Ok(KrigingType::Ordinary),
            2 => Ok(KrigingType::Universal),
            _ => Err(UnknownType),
        }
    }
}
