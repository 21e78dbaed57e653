// The calls for programs in other languages: lists and areas as slices, options as numbers and codes, and the answer's number back.
// Each is the call behind it; specs/ says what the codes stand for. In C a slice is a pointer and a count.
#![tactic(auto)]

mod codes; // codes.rt: the number of an unknown code, and a variogram by its numbers
mod told; // told.rt: what a call tells besides its number
mod exponential_call; // exponential_call.rt: exp_neg
mod fit_call; // fit_call.rt: universal_kriging_fit
mod interpolate_call; // interpolate_call.rt: KrigingInterpolator
mod semivariogram_call; // semivariogram_call.rt: SemivariogramCalculator
mod file_calls; // file_calls.rt: the survey file's reader and writer
