// The search for the best [x,y], among the rows and then among the columns, up to the equal level.
// The lent table goes beside its extent, and what it holds is said at each call: a struct with both would have each call promise that it still holds
// the same table.
ghost use Rattle.std.specs.Prelude.{false, ◌↔◌, ◌≡◌, ◌*◌, ◌<◌, ◌≤◌, length, get_or};
ghost use Rattle.graph.specs.Core.{Before};
ghost use Rattle.peeling.specs.Peeling.{Weighed};
ghost use Rattle.climbing.specs.Climbs.{rising, Heaviest};
ghost use Rattle.searching.specs.Searches.{rise_of, pair_at, InRange, FirstBetter, Tries, TriesFirst, Reaches, Searched, FoundIn};

use crate::blocks::try_down;
use crate::{Best, Line, Ring};
use climbing::{Rise, climb, heaviest};
use grouping::core_in;
use network::{Extent, Side};
use peeling::{Scope, sum_of};

// What rises where the need of a side is fixed: the other side.
pub fn rise_of(side: Side) -> Rise
    ensures { result ≡ rise_of side }
{
    match side {
        Side::Source => Rise::Targets,
        Side::Target => Rise::Sources,
    }
}

// The most edges of one place in the whole graph, on the side that rises where the need of the other is fixed. Past it every core of a row or
// column is empty.
fn heaviest_of(degrees: &[u16], extent: Extent, side: Side) -> usize
    requires long { 2 * extent.order ≤ length degrees.now }
    ensures heaviest { Heaviest (rising extent.order (rise_of side)) (λ p. get_or degrees.now p 0) (2 * extent.order) result }
    ensures fits { result < 65536 }
{
    match side {
        Side::Source => heaviest(degrees, extent.order, 2 * extent.order),
        Side::Target => heaviest(degrees, 0, extent.order),
    }
}

// 02: whether a pair is better than the best, which is not better than itself: by the greater product, then by the smaller difference, then by the
// smaller x.
#[tactic(auto, unfolding(graph::specs::Core::apart))]
pub fn is_better(pair: Best, best: Best) -> bool
    requires pair_fits { pair.x * pair.y < 4294967296 }
    requires best_fits { best.x * best.y < 4294967296 }
    ensures { (result ≡ false) ↔ Before best.x best.y pair.x pair.y }
{
    let product = pair.x * pair.y;
    let best_product = best.x * best.y;
    let apart = pair.x.abs_diff(pair.y);
    let best_apart = best.x.abs_diff(best.y);
    (best_product, apart, pair.x) < (product, best_apart, best.x)
}

impl Line {
    // The pair at a number of the row or column: with x fixed that number is y, with y fixed it is x.
    pub fn pair_at(self, number: usize) -> Best
        ensures { result ≡ pair_at self.side self.fixed number }
    {
        match self.side {
            Side::Source => Best {
                x: self.fixed,
                y: number,
            },
            Side::Target => Best {
                x: number,
                y: self.fixed,
            },
        }
    }

    // Where it begins to be better than the best: up to the quotient no product is greater than that of the best, and past it each is, so that it
    // is the quotient or the number after it.
    pub fn start(self, best: Best) -> usize
        requires { InRange best }
        ensures { FirstBetter self.side self.fixed best result }
    {
        let quotient = best.x * best.y / self.fixed;
        if is_better(self.pair_at(quotient), best) {
            return quotient;
        }
        quotient + 1
    }
}

// The better of the best and the last core of row or column 1. That is the one of `most`, the most edges of a place that rises: that place and all
// that it is joined to are such a pair, and nothing is climbed. It is a `usize` that fits 16 bits, since it is compared with numbers that are.
fn try_first(side: Side, most: usize, best: Best) -> Best
    requires fits { most < 65536 }
    requires in_range { InRange best }
    ensures { TriesFirst side most best result }
{
    let line = Line { side, fixed: 1 };
    if most < line.start(best) {
        return best;
    }
    line.pair_at(most)
}

// The weight that every edge has, where they have one, told by the mean: what the sources' degrees are together is that many times the number of
// their rows' entries. It only chooses which rows or columns are tried as a whole, so nothing is promised of it.
fn weight_of_all(work: &[u16], degrees: &[u16], extent: Extent) -> Option<usize>
    requires { Weighed extent.order extent.size work.now degrees.now }
{
    let n = extent.order;
    let total = sum_of(&degrees[..n]);
    let edges = usize::from(work[n]).saturating_sub(usize::from(work[0]));
    if edges == 0 || total % edges != 0 {
        return None;
    }
    Some(total / edges)
}

// The last of the lowest rows or columns, in which no core changes: the weight that every edge has, or 1, and not above k.
fn lowest(weight: Option<usize>, k: usize) -> usize
    requires { 1 ≤ k }
    ensures { (1 ≤ result) × (result ≤ k) }
{
    weight.unwrap_or(1).max(1).min(k)
}

// The better of the best and what the lowest rows or columns have, those up to that of `low`: that of 1 without a climb, and then all of them as one
// block, which ends with the last.
fn try_low(
    work: &mut [u16],
    degrees: &[u16],
    extent: Extent,
    low: Line,
    weight: Option<usize>,
    most: usize,
    best: Best,
) -> Best
    requires weighed { Weighed extent.order extent.size work.old degrees.now }
    requires heaviest { Heaviest (rising extent.order (rise_of low.side)) (λ p. get_or degrees.now p 0) (2 * extent.order) most }
    requires fits { most < 65536 }
    requires in_range { InRange best }
    ensures { Tries extent.order extent.size low.side 1 1 best work.old work.new result }
{
    let first = try_first(low.side, most, best);
    if low.fixed == 1 {
        return first;
    }
    try_down(work, degrees, extent, low, weight, most, first).best
}

// Every row and then every column up to k: first the lowest, of which that of 1 needs no climb, then block by block from k down, so that of equal
// products the more even pair, which comes first, is also found first, and the others begin one past the tie. The greatest degree of the places that
// rise is the same for a whole side, so it is looked for once.
fn search_from(
    work: &mut [u16],
    degrees: &[u16],
    extent: Extent,
    k: usize,
    weight: Option<usize>,
    start: Best,
) -> Best
    requires weighed { Weighed extent.order extent.size work.old degrees.now }
    requires equal { (1 ≤ k) × (k < 65536) }
    requires reaches { Reaches extent.order extent.size k work.old start }
    ensures { Searched extent.order extent.size k work.old work.new result }
{
    let mut best = start;
    let mut side = Side::Source;
    // 01: the nested search is left by its label, from within; so the inner loop is no `for`.
    'search: loop {
        let most = heaviest_of(degrees, extent, side);
        let low = Line {
            side,
            fixed: lowest(weight, k),
        };
        best = try_low(work, degrees, extent, low, weight, most, best);
        let mut last = k;
        loop {
            if last <= 1 {
                if let Side::Target = side {
                    break 'search;
                }
                break;
            }
            let line = Line { side, fixed: last };
            let tried = try_down(work, degrees, extent, line, weight, most, best);
            last = tried.left;
            best = tried.best;
        }
        side = Side::Target;
    }
    best
}

// The same, from the better of [k,k] and the lowest columns: the better the best is to begin with, the more rows are passed over or soon empty.
fn search(work: &mut [u16], degrees: &[u16], extent: Extent, k: usize) -> Best
    requires weighed { Weighed extent.order extent.size work.old degrees.now }
    requires equal { (1 ≤ k) × (k < 65536) }
    ensures { Searched extent.order extent.size k work.old work.new result }
{
    let weight = weight_of_all(work, degrees, extent);
    let most = heaviest_of(degrees, extent, Side::Target);
    let low = Line {
        side: Side::Target,
        fixed: lowest(weight, k),
    };
    let start = try_low(
        work,
        degrees,
        extent,
        low,
        weight,
        most,
        Best { x: k, y: k },
    );
    search_from(work, degrees, extent, k, weight, start)
}

// 01: the finding, of every graph whose rows the table holds. Where the equal level is 0 there is no edge: x and y are 0, and the groups are those
// of the [1,1]-core, which is empty (that of [0,0] is everybody).
pub fn find_in(
    work: &mut [u16],
    degrees: &[u16],
    extent: Extent,
    s: &mut [u8],
    t: &mut [u8],
) -> Ring
    requires weighed { Weighed extent.order extent.size work.old degrees.now }
    requires room { (extent.order ≤ length s.old) × (extent.order ≤ length t.old) }
    ensures { FoundIn extent.order extent.size work.old work.new s.old s.new t.old t.new result }
{
    let equal = climb(work, degrees, extent, Rise::Both, 0, 1);
    if equal == 0 {
        let totals = core_in(work, degrees, Scope::of(extent, 1, 1), s, t);
        return Ring {
            x: 0,
            y: 0,
            equal: 0,
            totals,
        };
    }
    let best = search(work, degrees, extent, equal);
    let x = best.x;
    let y = best.y;
    let totals = core_in(work, degrees, Scope::of(extent, x, y), s, t);
    Ring {
        x,
        y,
        equal,
        totals,
    }
}
