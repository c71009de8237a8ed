// What is tested before a call goes on: the file, by 01's numbers and by the old rule, and the groups.
#![tactic(auto)]

mod checks;
mod groups;

pub use checks::{accept, check_file, check_old, key_at};
pub use groups::are_groups;
