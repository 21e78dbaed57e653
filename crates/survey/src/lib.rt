// A survey as it is lent, the options of a fit, and what a call takes at most.
// The counts of its codes and what turns it away are defined in specs/; their code is in the crate survey_checks.
#![tactic(auto)]

ghost use Rattle.std.specs.Prelude.{◌≡◌};
ghost use Rattle.survey.specs.Options.{default_bases, default_options};
ghost use Rattle.survey.specs.Limits.{library, program};
ghost use Rattle.survey.specs.Survey.{wells, node_count};
ghost use Rattle.survey.specs.Lent.{survey_lent};
ghost use Rattle.survey.specs.Bases.{basis_of, basis_columns};

use variogram::{Variogram, VariogramModel};

// The drift bases, each with its code.
#[derive(Clone, Copy, Debug, PartialEq, Eq)]
pub enum DriftBasis {
    // 1
    Constant = 1,
    // 1, x, y
    Linear = 2,
    // 1, x, y, x², xy, y²
    Quadratic = 3,
    // one external value
    External = 4,
}

// A code that names no drift basis.
#[derive(Clone, Copy, Debug, PartialEq, Eq)]
pub struct UnknownBasis {
    pub code: u8,
}

impl TryFrom<u8> for DriftBasis {
    type Error = UnknownBasis;

    ghost try_from_gives = { λ code basis. basis ≡ basis_of code };

    fn try_from(code: u8) -> Result<Self, UnknownBasis> {
        match code {
            1 => Ok(DriftBasis::Constant),
            2 => Ok(DriftBasis::Linear),
            3 => Ok(DriftBasis::Quadratic),
            4 => Ok(DriftBasis::External),
            _ => Err(UnknownBasis { code }),
        }
    }
}

impl DriftBasis {
    // How many drift columns it gives.
    pub fn columns(self) -> usize
        ensures { result ≡ basis_columns self }
    {
        match self {
            DriftBasis::Constant => 1,
            DriftBasis::Linear => 3,
            DriftBasis::Quadratic => 6,
            DriftBasis::External => 1,
        }
    }
}

// What a call of the library takes at most: wells, n. The capacities of every crate above are computed from these; specs/Limits has them for the contracts.
pub const MOST_WELLS: usize = 96;

// Drift columns, p.
pub const MOST_COLUMNS: usize = 12;

// Nodes, m.
pub const MOST_NODES: usize = 100;

// The size of the greatest kriging system, n + p.
pub const MOST_SIZE: usize = MOST_WELLS + MOST_COLUMNS;

// How many numbers its drift columns have, n * p.
pub const MOST_DRIFT: usize = MOST_WELLS * MOST_COLUMNS;

// What the program takes at most of wells; of columns and nodes it takes what the library does.
pub const PROGRAM_WELLS: usize = 48;

// The size of its greatest kriging system.
pub const PROGRAM_SIZE: usize = PROGRAM_WELLS + MOST_COLUMNS;

// Options of a fit. Its drift bases, a list of codes, are lent beside them.
#[derive(Clone, Copy)]
pub struct UniversalKrigingOptions {
    // Variogram of the wells and of the nodes, with its same-spot distance.
    pub variogram: Variogram,
    // Regularisation, added to the diagonal between a well and itself.
    pub regularization: f64,
}

impl UniversalKrigingOptions {
    // The default drift bases: Constant alone.
    pub const DRIFT_BASES: [u8; 1] = [DriftBasis::Constant as u8];
    // The default regularisation.
    pub const REGULARIZATION: f64 = 1e-10;

    // The drift bases that go with the default options.
    pub fn drift_bases() -> [u8; 1]
        ensures { result ≡ default_bases }
    {
        Self::DRIFT_BASES
    }
}

impl Default for UniversalKrigingOptions {
    ghost is_default = { λ options. options ≡ default_options };

    fn default() -> Self {
        Self {
            variogram: Variogram::new(VariogramModel::Spherical, 0.0, 1.0, 1.0),
            regularization: Self::REGULARIZATION,
        }
    }
}

// A survey: the lists and the numbers that every call of the fit and of the file takes, in this order.
#[derive(Clone, Copy)]
pub struct Survey<'a> {
    // The values of n wells.
    pub values: &'a [f64],
    // Their coordinates x, y in turn.
    pub coords: &'a [f64],
    // The codes of the drift bases.
    pub bases: &'a [u8],
    // The wells' external values, column after column.
    pub external: &'a [f64],
    pub options: UniversalKrigingOptions,
    // The coordinates of m nodes.
    pub nodes: &'a [f64],
    // The nodes' external values, node after node.
    pub node_external: &'a [f64],
    pub tolerance: f64,
}

impl Survey<'_> {
    // n
    pub fn wells(&self) -> usize
        ensures { result ≡ wells (survey_lent self.now) }
    {
        self.values.len()
    }

    // m, of a list with an odd number too
    pub fn node_count(&self) -> usize
        ensures { result ≡ node_count (survey_lent self.now) }
    {
        self.nodes.len() / 2
    }
}

// What a call takes at most.
#[derive(Clone, Copy)]
pub struct Limits {
    // Wells, n.
    pub wells: usize,
    // Drift columns, p.
    pub columns: usize,
    // Nodes, m.
    pub nodes: usize,
}

impl Limits {
    // The limits of every call of the library.
    pub fn library() -> Self
        ensures { result ≡ library }
    {
        Self {
            wells: MOST_WELLS,
            columns: MOST_COLUMNS,
            nodes: MOST_NODES,
        }
    }

    // The limits of the program.
    pub fn program() -> Self
        ensures { result ≡ program }
    {
        Self {
            wells: PROGRAM_WELLS,
            columns: MOST_COLUMNS,
            nodes: MOST_NODES,
        }
    }
}
