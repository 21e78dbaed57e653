// A survey that comes in: where each of its lists ends among a record's numbers, its options, and the survey itself.
ghost use Rattle.std.specs.Prelude.{◌≡◌};
ghost use Rattle.survey.specs.Lent.{survey_lent};
ghost use Rattle.vectors.specs.Surveys.{ListsIn, OptionsIn, survey_among};

use crate::areas::part;
use crate::models::next_variogram;
use crate::{next, next_end};
use survey::{Survey, UniversalKrigingOptions};

// Where each list ends, one after another.
#[derive(Clone, Copy)]
pub struct Lists {
    pub values: usize,
    pub coords: usize,
    pub external: usize,
    pub nodes: usize,
    pub node_external: usize,
}

impl Lists {
    // The lists after the values, whose number is told: their lengths come in.
    pub fn after(values: usize) -> Lists
        ensures { ListsIn values result }
    {
        let coords = next_end(values);
        let external = next_end(coords);
        let nodes = next_end(external);
        Lists {
            values,
            coords,
            external,
            nodes,
            node_external: next_end(nodes),
        }
    }

    // The survey of these lists of a record's numbers, with its codes, options and tolerance.
    pub fn survey<'a>(
        self,
        numbers: &'a [f64],
        bases: &'a [u8],
        options: UniversalKrigingOptions,
        tolerance: f64,
    ) -> Survey<'a>
        ensures { survey_lent result ≡ survey_among self numbers.now bases.now options tolerance }
    {
        Survey {
            values: part(numbers, 0, self.values),
            coords: part(numbers, self.values, self.coords),
            bases,
            external: part(numbers, self.coords, self.external),
            options,
            nodes: part(numbers, self.external, self.nodes),
            node_external: part(numbers, self.nodes, self.node_external),
            tolerance,
        }
    }
}

// A variogram, and then the regularisation.
pub fn next_options() -> UniversalKrigingOptions
    ensures { OptionsIn result }
{
    let variogram = next_variogram();
    UniversalKrigingOptions {
        variogram,
        regularization: next(),
    }
}
