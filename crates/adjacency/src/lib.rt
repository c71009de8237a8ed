// The index of a network, and the rows of a lent index: the edges of one vertex, from either side.
#![tactic(auto)]

mod indexes;
mod rows;

pub use indexes::index;
pub use rows::{row, row_of, row_range, row_refusal};
