// The text of the report program, laid into a lent buffer.
#![tactic(auto)]

mod pieces;
mod refusals;
mod reports;

pub use refusals::put_refusal;
pub use reports::{LONGEST_REPORT, put_report};

// The numbers of a report: its finding [x,y], the equal level, E, |S| and |T|.
#[derive(Clone, Copy, PartialEq, Eq, Debug)]
pub struct Numbers {
    pub x: usize,
    pub y: usize,
    pub equal: usize,
    pub edges: usize,
    pub sources: usize,
    pub targets: usize,
}
