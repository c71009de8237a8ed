// Cores: the groups that a peel leaves, written to lent tables.
#![tactic(auto)]

mod groups;

pub use groups::{core_in, write_group};
