// The search for the finding: the non-empty core with the greatest x * y.
#![tactic(auto)]

ghost use Rattle.std.specs.Prelude.{◌<◌, ◌≤◌};

mod blocks;
mod searches;

use network::{Side, Totals};

// A row of the search, where the need of the sources is fixed, or a column, where that of the targets is. The other need runs.
#[derive(Clone, Copy, Debug, PartialEq, Eq)]
struct Line {
    side: Side,
    fixed: usize,
    ghost in_range: { (1 ≤ fixed) × (fixed < 65536) },
}

// The best [x,y] so far.
#[derive(Clone, Copy, PartialEq, Eq, Debug)]
pub struct Best {
    pub x: usize,
    pub y: usize,
}

// How far the rows or columns are tried from the last one down: those above `left` are, and this is the best then.
#[derive(Clone, Copy, Debug, PartialEq, Eq)]
struct Tried {
    left: usize,
    best: Best,
}

// 01: what the finding returns beside its groups.
#[derive(Clone, Copy, Debug, PartialEq, Eq)]
pub struct Ring {
    pub x: usize,
    pub y: usize,
    pub equal: usize,
    pub totals: Totals,
}

pub use searches::find_in;
