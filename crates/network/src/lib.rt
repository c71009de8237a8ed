// The network file: what its bytes mean, how they are read and written, and the numbers by which a call refuses its input.
#![tactic(auto)]

ghost use Rattle.network.specs.Small.{Small};

mod bytes;
mod files;
mod refusals;
mod tested;

// 01: the most members and links of a network, and the length of the work table for such a one.
pub const MOST_MEMBERS: usize = 2048;

pub const MOST_LINKS: usize = 8192;

pub const MOST_WORK: usize = 2 * MOST_LINKS + 6 * MOST_MEMBERS + 2;

// 02, wish 13: the weights of the kinds 0 to 7.
const WEIGHTS: [u16; 8] = [1, 1, 2, 3, 4, 6, 8, 12];

// 01, 02: why a call is refused, in the order of the numbers. Four of them name a link, the first that is so. No number is 13.
#[derive(Clone, Copy, Debug, PartialEq, Eq)]
pub enum Refusal {
    // of a file's own bytes: too few for a header, another mark or version, too many members or links, another length
    Short,
    Mark,
    Version,
    Members,
    Links,
    Length,
    // a link names a member not below n, or repeats an earlier one
    End { link: u16 },
    Repeat { link: u16 },
    // a lent table is too short
    Table,
    // the member of a row is not below n
    Member,
    // a byte of a group is neither 0 nor 1
    Group,
    // a level was asked for 0
    Zero,
    // a row does not lie in its table
    Row,
    // a link comes before the one preceding it
    Order { link: u16 },
    // the n of two files differ
    Mismatch,
    // a link has a kind above 7
    Kind { link: u16 },
}

// n and m, which are small: so every entry of the work table fits.
#[derive(Clone, Copy, Debug, PartialEq, Eq)]
pub struct Extent {
    pub order: usize,
    pub size: usize,
    pub ghost small: { Small order size },
}

// 01: E, |S| and |T|.
#[derive(Clone, Copy, Debug, PartialEq, Eq)]
pub struct Totals {
    pub edges: u32,
    pub sources: usize,
    pub targets: usize,
}

// A side of an edge. 01: the voucher is the source, the vouched member the target.
#[derive(Clone, Copy, Debug, PartialEq, Eq)]
pub enum Side {
    Source,
    Target,
}

pub use bytes::{put_edge, put_header, put_link};
pub use files::{
    end_at, is_marked, kind_at, link_at, order_of, size_of, stride, u16_at, version_of, weight_at,
    work_length,
};
pub use tested::{AcceptedFile, ReadableFile, SoundFile};
