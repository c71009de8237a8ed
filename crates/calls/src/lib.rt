// The calls on a file alone: check, count and write, and order, which reads a file by the old rule.
#![tactic(auto)]

mod checks;
mod counts;
mod orders;
mod puts;
mod writes;

pub use checks::check;
pub use counts::count;
pub use orders::order;
pub use puts::put_file;
pub use writes::write;
