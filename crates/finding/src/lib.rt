// The finding: the non-empty core with the greatest x * y.
#![tactic(auto)]

mod compare;
mod findings;

pub use compare::equal_findings;
pub use findings::finding;
