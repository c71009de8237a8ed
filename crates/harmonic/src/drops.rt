// One drop: the place to drop is chosen by the tree of matches, it is marked, and the places of its row lose their edges to it.
// The lent table goes beside its extent, and what it holds is said at each call: a struct with both would have each call promise that it still holds
// the same table. A place is what stands in a row, in an entry that is read.
ghost use Rattle.std.specs.Prelude.{◌≡◌, ◌+◌, ◌≢◌, ℕ, ◌*◌, ◌<◌, ◌≤◌, eqb, length};
ghost use Rattle.graph.specs.Range.{if};
ghost use Rattle.graph.specs.Drops.{first_mark};
ghost use Rattle.network.specs.Refusals.{work_length};
ghost use Rattle.peeling.specs.Peeling.{Rows, degree_of, between};
ghost use Rattle.harmonic.specs.Walks.{Picks, Chosen, Loses, Dropped, Spare};

use crate::places::place_at;
use crate::{Choice, FIRST_MARK};
use network::Extent;
use peeling::{place_in, weight_in};
use picking::Bracket;

// The tree of matches over the places: their keys are the degrees, which stand after the rows. No `From`: both types are of other crates.
pub fn bracket_of(extent: Extent) -> Bracket
    ensures { result ≡ record { at = 2 * extent.order + 1 + 2 * extent.size; places = 2 * extent.order } }
{
    Bracket {
        at: 2 * extent.order + 1 + 2 * extent.size,
        places: 2 * extent.order,
    }
}

// 02: the place to drop, which stands at the root of the tree, or `Done` where that one too is marked.
pub fn choose(work: &[u16], extent: Extent) -> Choice
    requires rows { Rows extent.order extent.size work.now }
    requires tree { Picks extent.order extent.size work.now }
    ensures { Chosen extent.order extent.size work.now result }
{
    let bracket = bracket_of(extent);
    let first = bracket.first_of(work);
    if usize::from(work[bracket.at + first]) < FIRST_MARK {
        Choice::Drop(place_at(extent.order, first))
    } else {
        Choice::Done
    }
}

// An edge less for a place, by its weight, unless the place was dropped.
fn lower(work: &mut [u16], extent: Extent, place: usize, weight: u16)
    requires long { work_length extent.order extent.size ≤ length work.old }
    requires tree { Picks extent.order extent.size work.old }
    requires is_place { place < 2 * extent.order }
    requires has_edge { weight ≤ degree_of extent.order extent.size work.old place }
    ensures { Loses extent.order extent.size (λ q. if (eqb place q) weight) work.old work.new }
{
    let bracket = bracket_of(extent);
    let key = work[bracket.at + place];
    if usize::from(key) < FIRST_MARK {
        bracket.lower_key(work, place, key - weight);
    }
}

// Of each place of a row that is left its edge less. The rows stand from the last link of the file to the first; passed from the end on, the places
// of an ascending file come in their order, and of those that tie only the first comes far in the tree. The row stands in the table that is
// written to, so its entries are read by their index.
fn lower_row(work: &mut [u16], extent: Extent, place: usize)
    requires rows { Rows extent.order extent.size work.old }
    requires tree { Picks extent.order extent.size work.old }
    requires is_place { place < 2 * extent.order }
    requires spare { (q : ℕ) → q < 2 * extent.order → Spare extent.order extent.size work.old place q }
    ensures { Loses extent.order extent.size (between extent.order work.old place) work.old work.new }
{
    let rows = 2 * extent.order + 1;
    let start = rows + usize::from(work[place]);
    let end = rows + usize::from(work[place + 1]);
    for k in (start..end).rev() {
        let entry = work[k];
        let weight = weight_in(entry);
        lower(work, extent, place_in(entry), weight);
    }
}

// The place marked, and each place of its row that is left lowered.
pub fn drop_place(work: &mut [u16], extent: Extent, place: usize, mark: u16)
    requires rows { Rows extent.order extent.size work.old }
    requires tree { Picks extent.order extent.size work.old }
    requires is_place { place < 2 * extent.order }
    requires is_mark { first_mark ≤ mark }
    requires spare { (q : ℕ) → q < 2 * extent.order → q ≢ place → Spare extent.order extent.size work.old place q }
    ensures { Dropped extent.order extent.size place mark work.old work.new }
{
    bracket_of(extent).set_key(work, place, mark);
    lower_row(work, extent, place);
}
