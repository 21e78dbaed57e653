// The soundings that are marked for proof. specs/ has their numbers, and proofs/ the one lemma that holds them all by the definitions.
// This program runs A to H through the functions: it writes each number that comes out, and beside it the one that the scope expects.
#![tactic(auto)]

use interpolator::{KrigingInterpolator, Query};
use interpolator_theory::KrigingType;
use kriging::universal_kriging_fit;
use semivariogram::SemivariogramCalculator;
use survey::{Survey, UniversalKrigingOptions};
use variogram::{Variogram, VariogramModel};
use vectors::Tally;

// the descriptors of standard input and output, by the names of the C library
const STDOUT_FILENO: i32 = 1;

// A float and the one that is expected, by their bits.
fn show(t: &mut Tally, name: &[u8], got: f64, expected: f64) {
    let here = patterns::pattern(got);
    let there = patterns::pattern(expected);
    io::write_all(STDOUT_FILENO, name);
    io::write_all(STDOUT_FILENO, b" ");
    io::print_hex(STDOUT_FILENO, here, 16);
    io::write_all(STDOUT_FILENO, b", expected ");
    io::print_hex(STDOUT_FILENO, there, 16);
    io::write_all(STDOUT_FILENO, b"\n");
    t.record(here == there);
}

// A count, a verdict or a refusal's number, and the one that is expected.
fn show_number(t: &mut Tally, name: &[u8], got: u64, expected: u64) {
    io::write_all(STDOUT_FILENO, name);
    io::write_all(STDOUT_FILENO, b" ");
    io::print_decimal(STDOUT_FILENO, got);
    io::write_all(STDOUT_FILENO, b", expected ");
    io::print_decimal(STDOUT_FILENO, expected);
    io::write_all(STDOUT_FILENO, b"\n");
    t.record(got == expected);
}

// What a fit with one node gives.
#[derive(Clone, Copy)]
struct Answer {
    number: u8,
    figure: f64,
    variance: f64,
    multiplier: f64,
    trend: f64,
    verdict: u8,
}

// 2^-k
fn below(k: u64) -> f64 {
    let mut x = 1.0;
    for _ in 0..k {
        x = x / 2.0;
    }
    x
}

// "Spherical 0, 1, 1 .. unless said"
fn plain() -> Variogram {
    Variogram::new(VariogramModel::Spherical, 0.0, 1.0, 1.0)
}

// The fit of up to two wells, Constant, with a node at (1, 0).
fn fit(
    values: &[f64],
    coords: &[f64],
    variogram: Variogram,
    regularization: f64,
    tolerance: f64,
) -> Answer {
    let survey = Survey {
        values,
        coords,
        bases: &[1],
        external: &[],
        options: UniversalKrigingOptions {
            variogram,
            regularization,
        },
        nodes: &[1.0, 0.0],
        node_external: &[],
        tolerance,
    };
    let mut predicted = [0.0; 1];
    let mut variance = [0.0; 1];
    let mut verdicts = [1; 1];
    let mut multipliers = [0.0; 1];
    let mut trend = [0.0; 1];
    let mut areas = kriging::Areas {
        work: &mut [0.0; 18],
        predicted: &mut predicted,
        variance: &mut variance,
        verdicts: &mut verdicts,
        weights: &mut [0.0; 2],
        multipliers: &mut multipliers,
        trend: &mut trend,
    };
    let ended = universal_kriging_fit(&survey, &mut areas);
    Answer {
        number: error::ended_by(&ended),
        figure: predicted[0],
        variance: variance[0],
        multiplier: multipliers[0],
        trend: trend[0],
        verdict: verdicts[0],
    }
}

// A fit's figure, variance, multiplier, trend and verdict, and that it is accepted.
fn show_fit(t: &mut Tally, got: Answer, expected: Answer) {
    show_number(t, b"  number", got.number as u64, expected.number as u64);
    show(t, b"  figure", got.figure, expected.figure);
    show(t, b"  variance", got.variance, expected.variance);
    show(t, b"  multiplier", got.multiplier, expected.multiplier);
    show(t, b"  trend", got.trend, expected.trend);
    show_number(t, b"  verdict", got.verdict as u64, expected.verdict as u64);
}

// "A: (0,0) value 5, node (1,0): 5, variance 2, coefficient 1, verdict 0." The trend: "In sounding A it is 5."
fn sounding_a(t: &mut Tally) {
    io::write_all(STDOUT_FILENO, b"A\n");
    let expected = Answer {
        number: 0,
        figure: 5.0,
        variance: 2.0,
        multiplier: 1.0,
        trend: 5.0,
        verdict: 0,
    };
    show_fit(t, fit(&[5.0], &[0.0, 0.0], plain(), 0.0, 0.0), expected);
}

// The two wells of B and D, with these values and this tolerance.
fn two_wells(one: f64, other: f64, tolerance: f64) -> Answer {
    fit(
        &[one, other],
        &[0.0, 0.0, 2.0, 0.0],
        plain(),
        0.0,
        tolerance,
    )
}

// "Ordinary interpolation" of B's wells.
fn show_interpolation(t: &mut Tally) {
    let query = Query {
        values: &[2.0, 6.0],
        points: &[0.0, 0.0, 2.0, 0.0],
        targets: &[1.0, 0.0],
        d: 2,
    };
    let mut figures = [0.0; 1];
    let mut variances = [0.0; 1];
    let mut areas = interpolator::Areas {
        work: &mut [0.0; 18],
        figures: &mut figures,
        variances: &mut variances,
    };
    let interpolator = KrigingInterpolator::new(KrigingType::Ordinary, plain());
    let ended = interpolator.interpolate(&query, &mut areas);
    let number = error::ended_by(&ended) as u64;
    show_number(t, b"  interpolation: number", number, 0);
    show(t, b"  interpolation: figure", figures[0], 4.0);
    show(t, b"  interpolation: variance", variances[0], 1.5);
}

// "B: (0,0) 2 and (2,0) 6, node (1,0): 4, 1.5, coefficient 0.5, 0. Ordinary interpolation: 4, 1.5." Its trend is 4.
fn sounding_b(t: &mut Tally) {
    io::write_all(STDOUT_FILENO, b"B\n");
    let expected = Answer {
        number: 0,
        figure: 4.0,
        variance: 1.5,
        multiplier: 0.5,
        trend: 4.0,
        verdict: 0,
    };
    show_fit(t, two_wells(2.0, 6.0, 0.0), expected);
    show_interpolation(t);
}

// "C: A with Linear 0, 1, 0: figure NaN, variance +0, verdict 255." The trend reads no node: it is A's.
fn sounding_c(t: &mut Tally) {
    io::write_all(STDOUT_FILENO, b"C\n");
    let linear = Variogram::new(VariogramModel::Linear, 0.0, 1.0, 0.0);
    let expected = Answer {
        number: 0,
        figure: f64::NAN,
        variance: 0.0,
        multiplier: f64::NAN,
        trend: 5.0,
        verdict: 255,
    };
    show_fit(t, fit(&[5.0], &[0.0, 0.0], linear, 0.0, 0.0), expected);
}

// "D: B with values 1 and 2^-60: figure 0.5; t = 2^-62 gives verdict 2, t = 2^-61 gives 0."
fn sounding_d(t: &mut Tally) {
    io::write_all(STDOUT_FILENO, b"D\n");
    let met = Answer {
        number: 0,
        figure: 0.5,
        variance: 1.5,
        multiplier: 0.5,
        trend: 0.5,
        verdict: 0,
    };
    let missed = Answer { verdict: 2, ..met };
    show_fit(t, two_wells(1.0, below(60), below(62)), missed);
    show_fit(t, two_wells(1.0, below(60), below(61)), met);
}

// The number that a fit of two wells at one spot gives.
fn one_spot(regularization: f64) -> u64 {
    let coords = [0.0, 0.0, 0.0, 0.0];
    let answer = fit(&[2.0, 6.0], &coords, plain(), regularization, 0.0);
    answer.number as u64
}

// "E: two wells at (0,0): r = 2^-53 gives 19, r = 2^-52 does not."
fn sounding_e(t: &mut Tally) {
    io::write_all(STDOUT_FILENO, b"E\n");
    show_number(t, b"  number", one_spot(below(53)), 19);
    show_number(t, b"  number", one_spot(below(52)), 0);
}

// "F: Spherical 0, 1, 2 at h = 1: 0.6875. Linear 1, 4, 2 at h = 2: 5."
fn sounding_f(t: &mut Tally) {
    io::write_all(STDOUT_FILENO, b"F\n");
    let spherical = Variogram::new(VariogramModel::Spherical, 0.0, 1.0, 2.0);
    let linear = Variogram::new(VariogramModel::Linear, 1.0, 4.0, 2.0);
    show(t, b"  spherical", spherical.evaluate(1.0), 0.6875);
    show(t, b"  linear", linear.evaluate(2.0), 5.0);
}

// "G: bins 2, d = 1, samples 0, 1, 2 with values 0, 2, 4: one bin, 1.5, 4, count 3."
fn sounding_g(t: &mut Tally) {
    io::write_all(STDOUT_FILENO, b"G\n");
    let mut distances = [0.0; 2];
    let mut semivariances = [0.0; 2];
    let mut counts = [0; 2];
    let ended = SemivariogramCalculator::calculate(
        &[0.0, 1.0, 2.0],
        &[0.0, 2.0, 4.0],
        1,
        2,
        &mut distances,
        &mut semivariances,
        &mut counts,
    );
    let kept = ended.unwrap_or(0) as u64;
    show_number(t, b"  bins", kept, 1);
    show(t, b"  distance", distances[0], 1.5);
    show(t, b"  semivariance", semivariances[0], 4.0);
    show_number(t, b"  count", counts[0] as u64, 3);
}

// "H: root of 2: 3ff6a09e667f3bcd; of 2^-1074: 2^-537."
fn sounding_h(t: &mut Tally) {
    io::write_all(STDOUT_FILENO, b"H\n");
    let root = patterns::float(0x3ff6_a09e_667f_3bcd);
    show(t, b"  root", ieee::sqrt(2.0), root);
    show(t, b"  root", ieee::sqrt(patterns::float(1)), below(537));
}

fn main() {
    let mut t = Tally::default();
    sounding_a(&mut t);
    sounding_b(&mut t);
    sounding_c(&mut t);
    sounding_d(&mut t);
    sounding_e(&mut t);
    sounding_f(&mut t);
    sounding_g(&mut t);
    sounding_h(&mut t);
    t.write();
}
