// The month as a journal (02, wishes 8 and 9): entries that add and withdraw links are followed, and the links then present are written as a file.
#![tactic(auto)]

mod asks;
mod copies;
mod entries;
mod members;
mod names;
mod refusals;
mod runs;
mod steps;
mod tallies;
mod writes;

use network::MOST_LINKS;

// 02: the length of the output, that of a file with the most links.
pub const OUT_LENGTH: usize = 9 + 4 * MOST_LINKS;

// 02: the length of the work table: the links present and four named states, each with the most links, two entries a link.
pub const WORK_LENGTH: usize = 5 * 2 * MOST_LINKS;

// An entry. A malformed one has a kind or a name above 3, or a last number of kind 2 or 3 that is not 0.
#[derive(Clone, Copy, Debug, PartialEq, Eq)]
pub enum Entry {
    // kind 0 and 1: voucher and vouched
    Add(usize, usize),
    Withdraw(usize, usize),
    // kind 2 and 3: the name of a state, to set it and to return to it
    Save(Name),
    Restore(Name),
    Malformed,
}

// 02: why an entry is refused, and skipped: it is malformed or returns to a state never set (18), a member is not below n (10), the link that it adds is
// present (16), the one that it withdraws is absent (17), or the voucher of the one that it adds has given 64 (19), or four or more, and no place is
// left (20).
#[derive(Clone, Copy, Debug, PartialEq, Eq)]
pub enum EntryRefusal {
    Entry,
    Member,
    Present,
    Absent,
    Given,
    Place,
}

// 02, wish 9: live, the links of a set, and due, the total of what members lack to four.
#[derive(Clone, Copy, Debug, PartialEq, Eq)]
pub struct Totals {
    pub live: usize,
    pub due: usize,
}

// The running totals: those of the links present, and for each name those of its state, where it was set.
#[derive(Clone, Copy, Debug, PartialEq, Eq)]
pub struct Tally {
    pub present: Totals,
    pub named: [Option<Totals>; 4],
}

pub use asks::journal;
pub use names::Name;
