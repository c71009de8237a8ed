// Rows or columns tried as a whole: a block of them is passed over where the core is empty that holds all that could be better in it.
// The lent table goes beside its extent or scope, and what it holds is said at each call, as in `searches`.
ghost use Rattle.std.specs.Prelude.{◌≡◌, ◌+◌, ◌*◌, ◌<◌, ◌≤◌, length, get_or};
ghost use Rattle.network.specs.Refusals.{work_length};
ghost use Rattle.peeling.specs.Peeling.{Weighed};
ghost use Rattle.climbing.specs.declared.Rise.TheVariants as rise;
ghost use Rattle.climbing.specs.Climbs.{rising, rests, Some, Heaviest};
ghost use Rattle.searching.specs.Searches.{rise_of, fixed_in, InRange, BetterOf, LeastPair, Tries};

use crate::searches::{is_better, rise_of};
use crate::{Best, Line, Tried};
use climbing::{Rise, begin, least_left};
use network::{Extent, Side};
use peeling::Scope;
use raising::{Step, advance};

// The better of a pair and the best.
fn better(pair: Best, best: Best) -> Best
    requires pair { InRange pair }
    requires best { InRange best }
    ensures { BetterOf pair best result }
{
    if is_better(pair, best) { pair } else { best }
}

// The least degree of the sources that are left, and that of the targets.
fn least_pair(work: &[u16], scope: Scope) -> Best
    requires long { work_length scope.extent.order scope.extent.size ≤ length work.now }
    requires sources { Some (rests scope rise.Sources work.now) (2 * scope.extent.order) }
    requires targets { Some (rests scope rise.Targets work.now) (2 * scope.extent.order) }
    ensures { LeastPair scope work.now result }
{
    Best {
        x: least_left(work, scope, Rise::Sources, scope.x),
        y: least_left(work, scope, Rise::Targets, scope.y),
    }
}

// Which of a pair's numbers is fixed.
fn fixed_in(side: Side, pair: Best) -> usize
    ensures { result ≡ fixed_in side pair }
{
    match side {
        Side::Source => pair.x,
        Side::Target => pair.y,
    }
}

// The rows or columns from `first` to that of `line`, tried as a whole. What is asked for is `fixed` of the side that is fixed, and of the other the
// number at which the last of them is better than the best. While there is such a core, its least degrees are a pair that is taken where it is
// better, and one more is asked of what is fixed, up to the last of them. Where there is none, no row or column from `fixed` on is better anywhere:
// none begins earlier than the last, and the cores from there on are inside the one that is empty.
fn try_block(
    work: &mut [u16],
    degrees: &[u16],
    extent: Extent,
    line: Line,
    first: usize,
    start: Best,
) -> Tried
    requires weighed { Weighed extent.order extent.size work.old degrees.now }
    requires block { (1 ≤ first) × (first ≤ line.fixed) }
    requires in_range { InRange start }
    ensures left { result.left < line.fixed }
    ensures tries { Tries extent.order extent.size line.side (result.left + 1) line.fixed start work.old work.new result.best }
{
    let rise = rise_of(line.side);
    let mut best = start;
    let mut fixed = first;
    let mut number = line.start(best);
    let mut peel = begin(work, degrees, rise.asked(extent, fixed, number), rise);
    while !peel.is_empty() {
        let scope = rise.asked(extent, fixed, number);
        let pair = least_pair(work, scope);
        best = better(pair, best);
        fixed = line.fixed.min(fixed_in(line.side, pair) + 1);
        number = line.start(best);
        let Scope { x, y, .. } = rise.asked(extent, fixed, number);
        peel = advance(peel, work, Step { scope, x, y }, false);
    }
    Tried {
        left: fixed - 1,
        best,
    }
}

// The first of the rows or columns up to `last` that are best tried as a whole: a quarter of them, or, where every edge has the same weight, those in
// which no core changes, since each degree is a multiple of it.
fn first_of(last: usize, weight: Option<usize>) -> usize
    requires { 1 ≤ last }
    ensures { (1 ≤ result) × (result ≤ last) }
{
    match weight {
        Some(weight) if 0 < weight => last - (last - 1) % weight,
        _ => last - last / 4,
    }
}

// These tried. Where the last of them begins past `most`, the most edges of a place that rises, so do all below it, and nothing is peeled.
pub fn try_down(
    work: &mut [u16],
    degrees: &[u16],
    extent: Extent,
    line: Line,
    weight: Option<usize>,
    most: usize,
    best: Best,
) -> Tried
    requires weighed { Weighed extent.order extent.size work.old degrees.now }
    requires heaviest { Heaviest (rising extent.order (rise_of line.side)) (λ p. get_or degrees.now p 0) (2 * extent.order) most }
    requires in_range { InRange best }
    ensures left { result.left < line.fixed }
    ensures tries { Tries extent.order extent.size line.side (result.left + 1) line.fixed best work.old work.new result.best }
{
    if most < line.start(best) {
        return Tried { left: 0, best };
    }
    try_block(
        work,
        degrees,
        extent,
        line,
        first_of(line.fixed, weight),
        best,
    )
}
