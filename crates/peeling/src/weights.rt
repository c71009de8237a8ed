// The degrees of all places in the whole graph, with which every peel begins, and what they tell of the weights.
ghost use Rattle.std.specs.Prelude.{◌≡◌, ℕ, ◌+◌, ◌-◌, ◌*◌, ◌<◌, ◌≤◌, true, length, get_or};
ghost use Rattle.graph.specs.Range.{sum};
ghost use Rattle.network.specs.File.{most_members};
ghost use Rattle.peeling.specs.Peeling.{Rows, Held, Weighed, SingleRows, start_of, row_length, whole_degree};

use crate::entries::{place_in, weight_in};
use network::Extent;

// The sum of the degrees of one side, in 32 bits: so the pass can add many at once.
pub fn sum_of(degrees: &[u16]) -> usize
    requires { length degrees.now ≤ most_members }
    ensures sum { result ≡ sum (λ p. get_or degrees.now p 0) (length degrees.now) }
    ensures fits { result < 4294967296 }
{
    let mut total: u32 = 0;
    for degree in degrees {
        total += u32::from(*degree);
    }
    total as usize
}

// What all entries of the rows weigh in excess of 1 each, told by what the edges weigh, each of which stands in the rows of both of its places. No entry
// weighs less than 1, so where it is 0 every edge weighs 1.
pub fn excess_of(work: &[u16], order: usize, edges: usize) -> usize
    requires order { order ≤ most_members }
    requires long { 2 * order < length work.now }
    requires fits { edges < 4294967296 }
    requires heavy { start_of work.now (2 * order) ≤ start_of work.now 0 + 2 * edges }
    ensures { result ≡ start_of work.now 0 + 2 * edges - start_of work.now (2 * order) }
{
    usize::from(work[0]) + 2 * edges - usize::from(work[2 * order])
}

// The lengths of the rows. Both ends of a row are entries of one list, so that the start of the next is read by its index: `windows` zipped with the
// degrees would say the same twice.
fn take_lengths(work: &[u16], order: usize, degrees: &mut [u16])
    requires long { 2 * order < length work.now }
    requires ascending { (p : ℕ) → p < 2 * order → start_of work.now p ≤ start_of work.now (p + 1) }
    requires room { 2 * order ≤ length degrees.old }
    ensures lengths { (p : ℕ) → p < 2 * order → get_or degrees.new p 0 ≡ row_length work.now p }
    ensures same_length { length degrees.new ≡ length degrees.old }
{
    for (place, degree) in degrees[..2 * order].iter_mut().enumerate() {
        *degree = work[place + 1] - work[place];
    }
}

// The weight of every entry of the rows added to its place, from the first entry to the last: an edge stands in the rows of both of its places, so
// that each place has the weight of its own row.
fn add_weights(work: &[u16], extent: Extent, degrees: &mut [u16])
    requires rows { Rows extent.order extent.size work.now }
    requires room { 2 * extent.order ≤ length degrees.old }
    ensures degrees { (p : ℕ) → p < 2 * extent.order → get_or degrees.new p 0 ≡ whole_degree extent.order work.now p }
    ensures same_length { length degrees.new ≡ length degrees.old }
{
    let places = 2 * extent.order;
    degrees[..places].fill(0);
    let start = places + 1 + usize::from(work[0]);
    let end = places + 1 + usize::from(work[places]);
    for entry in &work[start..end] {
        let place = place_in(*entry);
        degrees[place] += weight_in(*entry);
    }
}

// The degrees of all places, from the rows. Where every edge weighs 1 they are the lengths of the rows.
pub fn weigh(work: &[u16], extent: Extent, is_single: bool, degrees: &mut [u16])
    requires held { Held extent.order extent.size work.now }
    requires room { 2 * extent.order ≤ length degrees.old }
    requires single { is_single ≡ true → SingleRows extent.order work.now }
    ensures weighed { Weighed extent.order extent.size work.now degrees.new }
    ensures same_length { length degrees.new ≡ length degrees.old }
{
    if is_single {
        take_lengths(work, extent.order, degrees);
    } else {
        add_weights(work, extent, degrees);
    }
}
