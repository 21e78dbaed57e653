// What turns a call away: one named case for each number of the paper, with its number and its kind.
#![tactic(auto)]

ghost use Rattle.std.specs.Prelude.{◌≡◌};
ghost use Rattle.error.specs.Numbers.{number_of, judged};
ghost use Rattle.error.specs.Kinds.{kind_of};

// One case for each numbered refusal, with its number.
#[derive(Clone, Copy, Debug, PartialEq, Eq)]
pub enum Refusal {
    // coordinates not 2n long (n times d in the two older calls)
    CoordinatesLength = 1,
    // node list odd (not a multiple of d)
    NodesLength = 2,
    // no basis
    NoBasis = 3,
    // a code outside 1 to 4
    BasisCode = 4,
    // regularisation negative or not finite
    Regularization = 5,
    // externals not k times n
    ExternalLength = 6,
    // fewer wells than drift columns
    TooFewWells = 7,
    // node externals not k times m
    NodeExternalLength = 8,
    // more wells, drift columns or nodes than the limits
    TooMany = 9,
    // tolerance negative or not finite
    Tolerance = 10,
    // a number that is not finite
    NotFinite = 11,
    // an Exponential model whose range is not above zero
    Model = 12,
    // a dimension that is not offered
    Dimension = 13,
    // fewer than 2 samples
    TooFewSamples = 14,
    // bins not 1 to 64
    Bins = 15,
    // survey file malformed
    SurveyFile = 16,
    // work area too short
    WorkArea = 17,
    // an answer area too short
    AnswerArea = 18,
    // a pivot below 2^-52
    Singular = 19,
    // same-spot distance not finite or below 2^-52; for the file's writer anything but 2^-52
    SameSpot = 22,
}

// The error kinds of error.rs that the three calls use, and one for the numbers that are added here.
#[derive(Clone, Copy, Debug, PartialEq, Eq)]
pub enum ErrorKind {
    InvalidInput,
    InsufficientData,
    MatrixError,
    DimensionMismatch,
    InvalidParameter,
    Added,
}

// The paper's number of a refusal.
impl From<Refusal> for u8 {
    ghost from_gives = { λ refusal number. number ≡ number_of refusal };

    fn from(refusal: Refusal) -> u8 {
        refusal as u8
    }
}

// The kind of a refusal in error.rs.
impl From<Refusal> for ErrorKind {
    ghost from_gives = { λ refusal kind. kind ≡ kind_of refusal };

    fn from(refusal: Refusal) -> ErrorKind {
        match refusal {
            Refusal::CoordinatesLength => ErrorKind::DimensionMismatch,
            Refusal::NodesLength => ErrorKind::DimensionMismatch,
            Refusal::NoBasis => ErrorKind::InvalidInput,
            Refusal::BasisCode => ErrorKind::Added,
            Refusal::Regularization => ErrorKind::InvalidParameter,
            Refusal::ExternalLength => ErrorKind::DimensionMismatch,
            Refusal::TooFewWells => ErrorKind::InsufficientData,
            Refusal::NodeExternalLength => ErrorKind::DimensionMismatch,
            Refusal::TooMany => ErrorKind::Added,
            Refusal::Tolerance => ErrorKind::Added,
            Refusal::NotFinite => ErrorKind::Added,
            Refusal::Model => ErrorKind::Added,
            Refusal::Dimension => ErrorKind::Added,
            Refusal::TooFewSamples => ErrorKind::InsufficientData,
            Refusal::Bins => ErrorKind::Added,
            Refusal::SurveyFile => ErrorKind::Added,
            Refusal::WorkArea => ErrorKind::Added,
            Refusal::AnswerArea => ErrorKind::Added,
            Refusal::Singular => ErrorKind::MatrixError,
            Refusal::SameSpot => ErrorKind::Added,
        }
    }
}

// The number that a call ended by: 0 where it answers, else its refusal's.
pub fn ended_by<A>(ended: &Result<A, Refusal>) -> u8
    ensures { result ≡ judged ended.now }
{
    match ended {
        Ok(_) => 0,
        Err(refusal) => u8::from(*refusal),
    }
}
