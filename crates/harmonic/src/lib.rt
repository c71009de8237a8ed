// The harmonic finder (02, wish 6): places are dropped one at a time on the work table, and of the states met the best is kept.
#![tactic(auto)]

mod asks;
mod drops;
mod groups;
mod places;
mod walks;

use network::Side;

// The mark of the first place that is dropped, which is its key from there on; the next ones have the next marks. It is more than every degree.
const FIRST_MARK: usize = 32768;

// 02: a place, a member on one side.
#[derive(Clone, Copy, Debug, PartialEq, Eq)]
pub struct Place {
    pub side: Side,
    pub member: usize,
}

// What is chosen next: a place to drop, or that all are dropped. 01 names this form.
#[derive(Clone, Copy, Debug, PartialEq, Eq)]
pub enum Choice {
    Drop(Place),
    Done,
}

pub use asks::harmonic;
