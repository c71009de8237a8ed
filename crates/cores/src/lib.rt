// Cores and levels: the calls core, level, level_across and equal_level, and the way into every call on cores.
#![tactic(auto)]

mod asks;
mod entries;
mod groups;

pub use asks::{core, equal_level, level, level_across};
pub use entries::{check_later, check_within, enter};
