// The links in both of two files, by one merge of the two.
#![tactic(auto)]

mod merges;
mod walks;

use network::AcceptedFile;

// 02, wish 11: how many links are in both files, in the first only and in the second only.
#[derive(Clone, Copy, Debug, PartialEq, Eq)]
pub struct CommonTotals {
    pub both: usize,
    pub first_only: usize,
    pub second_only: usize,
}

// Two files, each accepted by itself.
#[derive(Clone, Copy, Debug, PartialEq, Eq)]
struct Pair<'a> {
    first: AcceptedFile<'a>,
    second: AcceptedFile<'a>,
}

pub use merges::common;
