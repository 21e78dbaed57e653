// The call of a record, and what it ends by.
use crate::record::Head;
use error::Refusal;
use semivariogram::SemivariogramCalculator;
use vectors::areas::part;

// The areas that a record lends.
#[derive(Drop)]
pub struct Areas<'a> {
    pub distances: &'a mut [f64],
    pub semivariances: &'a mut [f64],
    pub bin_counts: &'a mut [usize],
}

// The call, with the lists of a record and the areas that it lends: how many bins it kept.
pub(crate) fn answer(head: Head, numbers: &[f64], areas: &mut Areas<'_>) -> Result<usize, Refusal> {
    SemivariogramCalculator::calculate(
        part(numbers, head.values, head.coords),
        part(numbers, 0, head.values),
        head.d,
        head.bins,
        areas.distances,
        areas.semivariances,
        areas.bin_counts,
    )
}
