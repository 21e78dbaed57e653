// The call of a record, and the number that it ends by.
use crate::record::Head;
use interpolator::{Areas, KrigingInterpolator, Query};
use interpolator_theory::KrigingType;
use vectors::areas::part;

// The type of a number: 1 Ordinary, 2 Universal, and no record has another.
fn kriging_type(number: u64) -> KrigingType {
    let Ok(code) = u8::try_from(number) else {
        return KrigingType::Universal;
    };
    KrigingType::try_from(code).unwrap_or(KrigingType::Universal)
}

// The call, with the lists of a record and the areas that it lends: the number that it ended by.
pub(crate) fn answer(head: Head, numbers: &[f64], areas: &mut Areas<'_>) -> u8 {
    let lists = head.lists;
    let query = Query {
        values: part(numbers, 0, lists.values),
        points: part(numbers, lists.values, lists.coords),
        targets: part(numbers, lists.coords, lists.targets),
        d: head.d,
    };
    let interpolator = KrigingInterpolator::new(kriging_type(head.kind), head.variogram);
    error::ended_by(&interpolator.interpolate(&query, areas))
}
