// Levels: what is asked of places is raised on the work table until the core is empty.
#![tactic(auto)]

mod climbs;
mod degrees;

// What a climb raises: what targets need, what sources need, or both alike. What is fixed stands beside it: of the functions that take a `Rise` only
// `asked` looks at it, and where both rise nothing does.
#[derive(Clone, Copy, PartialEq, Eq, Debug)]
pub enum Rise {
    Targets,
    Sources,
    Both,
}

pub use climbs::{begin, climb, least_left};
pub use degrees::heaviest;
