// Cores: the peel on the lent work table.
#![tactic(auto)]

mod entries;
mod peels;
mod weights;

use network::{Extent, MOST_MEMBERS};

// The most places: each member stands at two.
pub const MOST_PLACES: usize = 2 * MOST_MEMBERS;

// How far a peel has come: head and tail of the queue of places that are short, how many places of each side are not in it, and the running
// total: the edges between the places that are not dropped yet, by their weights. And what all entries weigh in excess of 1 each: where it is 0, no
// weight has to be looked at. A `bool` for that would leave a gap in the struct, which is then copied through memory at each step of a loop.
#[derive(Clone, Copy, PartialEq, Eq, Debug)]
pub struct Peel {
    pub head: usize,
    pub tail: usize,
    pub sources: usize,
    pub targets: usize,
    pub edges: usize,
    pub excess: usize,
}

// What a peel goes by: the numbers of vertices and edges, and how many edges a source and a target need.
#[derive(Clone, Copy, PartialEq, Eq, Debug)]
pub struct Scope {
    pub extent: Extent,
    pub x: usize,
    pub y: usize,
}

pub use entries::{place_in, weight_by, weight_in};
pub use peels::{need, put};
pub use weights::{sum_of, weigh};
