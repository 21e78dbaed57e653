// What the parts of a fit pass on, once nothing turns it away.
ghost use Rattle.std.specs.Prelude.{◌≡◌, ℕ, ◌+◌, ◌*◌, ◌≤◌, ◌<◌, length};
ghost use Rattle.std.proofs.Props.{props};
ghost use Rattle.audit.specs.Audit.{drift_finite};
ghost use Rattle.audit.specs.Lists.{entry_in};
ghost use Rattle.survey.specs.Limits.{library};
ghost use Rattle.survey.specs.Lent.{survey_lent};
ghost use Rattle.survey.specs.Survey.{wells, node_count, columns, externals, size, well_x, well_y, node_x, node_y};
ghost use Rattle.kriging_theory.specs.Drift.{DriftIn};

use exponential::FractionTable;
use survey::Survey;

// Where a well or a node is.
#[derive(Clone, Copy)]
pub(crate) struct Place {
    pub x: f64,
    pub y: f64,
}

// A survey that nothing turns away, with the counts of its codes, and the table of e^−u for its variogram.
#[derive(Clone, Copy)]
pub(crate) struct Taken<'a> {
    pub survey: &'a Survey<'a>,
    pub table: &'a FractionTable,
    // Drift columns.
    pub p: usize,
    // External columns.
    pub k: usize,
    pub ghost columns: { columns (survey_lent survey.now) ≡ p },
    pub ghost externals: { externals (survey_lent survey.now) ≡ k },
    pub ghost few: { length survey.now.values.now ≤ library.wells },
    pub ghost narrow: { p ≤ library.columns },
    pub ghost coords: { length survey.now.coords.now ≡ 2 * length survey.now.values.now },
    pub ghost external: { length survey.now.external.now ≡ k * length survey.now.values.now },
    pub ghost node_external: { k * node_count (survey_lent survey.now) ≤ length survey.now.node_external.now },
}

impl Taken<'_> {
    // n + p
    pub(crate) fn size(&self) -> usize
        ensures { result ≡ size (survey_lent self.now.survey.now) }
    {
        self.survey.wells() + self.p
    }

    // Where well i is.
    pub(crate) fn well(&self, i: usize) -> Place
        requires { i < wells (survey_lent self.now.survey.now) }
        ensures x { result.x ≡ well_x (survey_lent self.now.survey.now) i }
        ensures y { result.y ≡ well_y (survey_lent self.now.survey.now) i }
    {
        let coords = self.survey.coords;
        Place {
            x: coords[2 * i],
            y: coords[2 * i + 1],
        }
    }

    // Where node q is.
    pub(crate) fn node(&self, q: usize) -> Place
        requires { q < node_count (survey_lent self.now.survey.now) }
        ensures x { result.x ≡ node_x (survey_lent self.now.survey.now) q }
        ensures y { result.y ≡ node_y (survey_lent self.now.survey.now) q }
    {
        let nodes = self.survey.nodes;
        Place {
            x: nodes[2 * q],
            y: nodes[2 * q + 1],
        }
    }
}

// F of such a survey, row after row, and whether each entry is finite: that is looked at once for all nodes.
#[derive(Clone, Copy)]
pub(crate) struct WellDrift<'a> {
    pub taken: &'a Taken<'a>,
    pub entries: &'a [f64],
    pub finite: bool,
    pub ghost long: { length taken.now.survey.now.values.now * taken.now.p ≤ length entries.now },
    pub ghost laid: { DriftIn (survey_lent taken.now.survey.now) entries.now } by { Prim.hlevel props },
    pub ghost scanned: { let s = survey_lent taken.now.survey.now in
        finite ≡ drift_finite (wells s) (columns s) (entry_in entries.now (columns s)) },
}
