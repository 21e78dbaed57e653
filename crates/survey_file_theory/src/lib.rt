// The survey file: what its reader and its writer answer. The reader fills lent areas with the lists.
#![tactic(auto)]

use survey::UniversalKrigingOptions;

// The versions that a file can have.
pub const OLD_VERSION: u8 = 1;

pub const NEWEST_VERSION: u8 = 2;

// The most wells of a survey that is written with the old version; above, it is the newest. specs/File has all three for the contracts.
pub const MOST_IN_VERSION_1: usize = 48;

// What a survey file says besides its lists: how many wells, nodes and bases there are, the options, and the tolerance.
#[derive(Clone, Copy)]
pub struct Header {
    pub wells: usize,
    pub nodes: usize,
    pub bases: usize,
    pub options: UniversalKrigingOptions,
    pub tolerance: f64,
}

// The areas that the reader's caller lends, one for each list.
#[derive(Drop)]
pub struct Areas<'a> {
    pub values: &'a mut [f64],
    pub coords: &'a mut [f64],
    pub bases: &'a mut [u8],
    pub external: &'a mut [f64],
    pub nodes: &'a mut [f64],
    pub node_external: &'a mut [f64],
}
