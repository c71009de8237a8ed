// The work table filled from a list of edges: a graph of 2n places in which only these edges count.
#![tactic(auto)]

mod fills;
mod inputs;
mod listings;

// The source and the target of an edge, by which tables are indexed: a `Link` of linkset holds them as it keeps them, in 16 bits.
#[derive(Clone, Copy, Debug, PartialEq, Eq)]
pub struct Ends {
    pub source: usize,
    pub target: usize,
}

pub use fills::{fill, fill_within};
pub use inputs::{EdgeList, Within};
pub use listings::{is_between, list_edges};
