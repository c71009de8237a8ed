// A peel that begins with one side: all that this side is short of at once is dropped together. The rows of those places are not passed;
// the degrees of the other side are counted anew by the places that are left, which are few where much is asked.
// The table goes beside its scope, and a peel is handed back, as in `needs`. A side is told by its first place, from which its places run.
ghost use Rattle.std.specs.Prelude.{◌≡◌, ℕ, false};
ghost use Rattle.peeling.specs.Peeling.{Weighed, PeelBy, Kept, Ended};
ghost use Rattle.peeling.specs.Recounts.{SideAt, OneSided, Passed, of_side};

use crate::Step;
use crate::needs::{advance, tighten};
use crate::recounts::recount;
use network::Side;
use peeling::{Peel, Scope};

// What a scope asks of the side from `first` on, and nothing of the other.
fn of_side(scope: Scope, first: usize) -> Scope
    ensures { result ≡ of_side scope first }
{
    if first == 0 {
        Scope { y: 0, ..scope }
    } else {
        Scope { x: 0, ..scope }
    }
}

// Every place that waits dropped, but for its row. They are all of one side, so no degree among them changes.
fn drop_waiting(start: Peel, work: &[u16], scope: Scope) -> Peel
    requires one_sided { (first : ℕ) × OneSided scope first }
    requires peeling { PeelBy scope work.now start }
    ensures passed { Passed scope.extent.order scope.extent.size work.now start result }
    ensures drained { result.head ≡ result.tail }
{
    let mut peel = start;
    while peel.head < peel.tail {
        peel = peel.pass_first(work, scope);
    }
    peel
}

// Every place that waits dropped, and the degrees of the other side counted anew.
fn thin(start: Peel, work: &mut [u16], scope: Scope, first: usize) -> Peel
    requires one_sided { OneSided scope first }
    requires peeling { PeelBy scope work.old start }
    ensures peeling { PeelBy scope work.new result }
    ensures kept { Kept scope.extent.order scope.extent.size work.old work.new }
{
    let peel = drop_waiting(start, work, scope);
    recount(work, scope, first, scope.need(first), start.is_single());
    peel
}

// The first place of a side: the sources stand from 0 on, the targets from n on.
fn first_of(order: usize, side: Side) -> usize
    ensures { SideAt order result }
{
    match side {
        Side::Source => 0,
        Side::Target => order,
    }
}

// The peel of the whole graph for a scope, run until no place is short or a side is empty. It begins with the side.
pub fn whole_from(work: &mut [u16], degrees: &[u16], scope: Scope, side: Side) -> Peel
    requires { Weighed scope.extent.order scope.extent.size work.old degrees.now }
    ensures { Ended false scope work.old work.new result }
{
    let first = first_of(scope.extent.order, side);
    let half = of_side(scope, first);
    let fresh = Peel::fresh(work, degrees, scope);
    let tight = tighten(fresh, work, Step::up_to(half));
    let thinned = thin(tight, work, half, first);
    let rest = Step {
        scope: half,
        x: scope.x,
        y: scope.y,
    };
    advance(thinned, work, rest, false)
}
