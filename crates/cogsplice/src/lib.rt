// The public calls of the library and their types. None of them has a `requires`.
#![tactic(auto)]

pub use adjacency::{index, row, row_refusal};
pub use calls::{check, count, order, write};
pub use cores::{core, equal_level, level, level_across};
pub use finding::{equal_findings, finding};
pub use harmonic::harmonic;
pub use journal::journal;
pub use layering::layers;
pub use merging::{CommonTotals, common};
pub use network::{Extent, Refusal, Side, Totals};
pub use searching::Ring;
