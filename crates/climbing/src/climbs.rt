// The three levels by one climb: what is asked of places is raised until the core is empty.
// The lent table goes beside its extent or scope, and what it holds is said at each call: a struct with both would have each call promise that it
// still holds the same table.
ghost use Rattle.std.specs.Prelude.{true, false, ◌≡◌, ℕ, ◌+◌, ◌*◌, ◌<◌, ◌≤◌, leb, ltb, length};
ghost use Rattle.network.specs.Refusals.{work_length};
ghost use Rattle.peeling.specs.Peeling.{Weighed, Ended, need_of, degree_of};
ghost use Rattle.climbing.specs.Climbs.{asked, first_rising, end_rising, rising, rests, Some, Least, Climbed};

use crate::Rise;
use network::{Extent, Side};
use peeling::{Peel, Scope};
use raising::{Step, advance, whole, whole_from};

impl Rise {
    // What is asked of places at k.
    pub fn asked(self, extent: Extent, fixed: usize, k: usize) -> Scope
        ensures { result ≡ asked extent self fixed k }
    {
        let alike = Scope::of(extent, k, k);
        match self {
            Rise::Targets => Scope { x: fixed, ..alike },
            Rise::Sources => Scope { y: fixed, ..alike },
            Rise::Both => alike,
        }
    }

    // The first place of the sides that rise.
    fn first(self, extent: Extent) -> usize
        ensures { result ≡ first_rising extent.order self }
    {
        match self {
            Rise::Targets => extent.order,
            Rise::Sources => 0,
            Rise::Both => 0,
        }
    }

    // The place past their last one.
    fn end(self, extent: Extent) -> usize
        ensures { result ≡ end_rising extent.order self }
    {
        match self {
            Rise::Targets => 2 * extent.order,
            Rise::Sources => extent.order,
            Rise::Both => 2 * extent.order,
        }
    }
}

// The least degree among the places that are left and rise, all of which need k. Only the sides that rise are looked at, and in 16 bits: so
// the pass can look at many degrees at once. One that is not enough counts as the greatest number.
pub fn least_left(work: &[u16], scope: Scope, rise: Rise, k: usize) -> usize
    requires long { work_length scope.extent.order scope.extent.size ≤ length work.now }
    requires needed { (p : ℕ) → rising scope.extent.order rise p ≡ true → need_of scope p ≡ k }
    requires some { Some (rests scope rise work.now) (2 * scope.extent.order) }
    ensures least { Least (rests scope rise work.now) (degree_of scope.extent.order scope.extent.size work.now) (2 * scope.extent.order) result }
    ensures fits { result < 65536 }
{
    let at = scope.degrees_at();
    let first = at + rise.first(scope.extent);
    let end = at + rise.end(scope.extent);
    let enough = u16::try_from(k).unwrap_or(u16::MAX);
    let mut least = u16::MAX;
    for degree in &work[first..end] {
        let counted = if *degree < enough { u16::MAX } else { *degree };
        least = least.min(counted);
    }
    usize::from(least)
}

// The peel of the whole graph for what is asked at the start of a climb or of a search. Where one side rises, much may be asked of it at once: the
// peel begins with that side.
pub fn begin(work: &mut [u16], degrees: &[u16], scope: Scope, rise: Rise) -> Peel
    requires { Weighed scope.extent.order scope.extent.size work.old degrees.now }
    ensures { Ended false scope work.old work.new result }
{
    match rise {
        Rise::Targets => whole_from(work, degrees, scope, Side::Target),
        Rise::Sources => whole_from(work, degrees, scope, Side::Source),
        Rise::Both => whole(work, degrees, scope, false),
    }
}

// The last k from `start` on at which the core is not empty, or start - 1. Nothing changes up to the least degree that is left on the
// sides that rise, so k goes straight past it, and at each turn somebody becomes short. The queue is not drained: a peel is over as soon as
// a side is empty.
pub fn climb(
    work: &mut [u16],
    degrees: &[u16],
    extent: Extent,
    rise: Rise,
    fixed: usize,
    start: usize,
) -> usize
    requires weighed { Weighed extent.order extent.size work.old degrees.now }
    requires start { 1 ≤ start }
    ensures { Climbed extent.order extent.size rise fixed start work.old work.new result }
{
    let mut k = start;
    let mut peel = begin(work, degrees, rise.asked(extent, fixed, start), rise);
    let last = loop {
        if peel.is_empty() {
            break k - 1;
        }
        let scope = rise.asked(extent, fixed, k);
        k = least_left(work, scope, rise, k) + 1;
        let Scope { x, y, .. } = rise.asked(extent, fixed, k);
        peel = advance(peel, work, Step { scope, x, y }, false);
    };
    last
}
