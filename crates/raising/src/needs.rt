// What is asked of the places raised: those that fall short of it are queued, and the peel is run on.
// The lent table goes beside what is asked of it, and what it holds is said at each call: a struct with both would have each call promise that it
// still holds the same table.
// A peel is passed by value and handed back, and a side is told by its first place, from which its places run.
ghost use Rattle.std.specs.Prelude.{◌≡◌, ◌+◌, ◌*◌, ◌<◌, ◌≤◌, true, ◌&&◌, nat_le, nat_lt, length};
ghost use Rattle.network.specs.Refusals.{work_length};
ghost use Rattle.peeling.specs.Peeling.{need_of, Weighed, PeelBy, Kept, Ended};
ghost use Rattle.peeling.specs.Recounts.{SideAt, OnSide};
ghost use Rattle.raising.specs.Steps.{next_of, Quiet, Raising, RaisedBy};

use crate::Step;
use peeling::{Peel, Scope, put};

// So many places are passed over at once where none of them becomes short.
const BLOCK: usize = 32;

impl Step {
    // From nothing to what a scope asks.
    pub fn up_to(scope: Scope) -> Step
        ensures from { result.scope ≡ record { extent = scope.extent; x = 0; y = 0 } }
        ensures to { next_of result ≡ scope }
    {
        Step {
            scope: Scope::of(scope.extent, 0, 0),
            x: scope.x,
            y: scope.y,
        }
    }

    // The scope with the greater needs.
    pub fn next(self) -> Scope
        ensures { result ≡ next_of self }
    {
        Scope::of(self.scope.extent, self.x, self.y)
    }
}

// Whether the degree is at least `least`, and less than `end`, by one test: what is less than `least` wraps round to a great number. A range's
// `contains` makes two: by it the core call misses its goal on 8 networks of 16.
fn is_between(least: usize, degree: usize, end: usize) -> bool
    requires { least ≤ end }
    ensures { result ≡ (nat_le least degree && nat_lt degree end) }
{
    degree.wrapping_sub(least) < end - least
}

// How many places are pushed with this one, after `count` of its side: it is where its degree is enough before the step, and not after it. It needs
// what the first place of its side needs, which stays the same from place to place. It is put past the tail in any case, so that no step hangs on a
// test that cannot be foreseen.
fn raise(
    start: Peel,
    count: usize,
    work: &mut [u16],
    step: Step,
    first: usize,
    place: usize,
) -> usize
    requires side { SideAt step.scope.extent.order first }
    requires on_side { OnSide step.scope.extent.order first place }
    requires peeling { RaisedBy step first place work.old start count }
    ensures peeling { RaisedBy step first (place + 1) work.new start result }
    ensures kept { Kept step.scope.extent.order step.scope.extent.size work.old work.new }
{
    let scope = step.scope;
    let at = scope.degrees_at() + place;
    let degree = usize::from(work[at]);
    put(work, scope, start.tail + count, place);
    count + usize::from(is_between(scope.need(first), degree, step.next().need(first)))
}

// Whether none of these places of a side has a degree that is enough before the step, and not after it. That is told by one number, the least by which
// a degree is past what was needed, where one that was not enough wraps round to a great number as in `is_between`; in 16 bits, so that many degrees
// can be looked at together.
fn is_quiet(work: &[u16], step: Step, first: usize, from: usize, to: usize) -> bool
    requires long { work_length step.scope.extent.order step.scope.extent.size ≤ length work.now }
    requires places { to ≤ 2 * step.scope.extent.order }
    requires raised { need_of step.scope first < need_of (next_of step) first }
    ensures { result ≡ true → Quiet step first from to work.now }
{
    let at = step.scope.degrees_at();
    let need = step.scope.need(first);
    let Ok(least) = u16::try_from(need) else {
        return false;
    };
    let Ok(more) = u16::try_from(step.next().need(first) - need) else {
        return false;
    };
    let mut nearest = u16::MAX;
    for place in from..to {
        nearest = nearest.min(work[at + place].wrapping_sub(least));
    }
    more <= nearest
}

// These places of a side, pushed whose degree is enough before the step, and not after it. They are counted, so that the loop has one number.
fn raise_places(
    start: Peel,
    work: &mut [u16],
    step: Step,
    first: usize,
    from: usize,
    to: usize,
) -> Peel
    requires side { SideAt step.scope.extent.order first }
    requires places { (first ≤ from) × (from ≤ to) × (to ≤ first + step.scope.extent.order) }
    requires peeling { Raising step from work.old start }
    ensures peeling { Raising step to work.new result }
    ensures head { result.head ≡ start.head }
    ensures kept { Kept step.scope.extent.order step.scope.extent.size work.old work.new }
{
    let mut count = 0;
    for place in from..to {
        count = raise(start, count, work, step, first, place);
    }
    start.grown_by(step.scope.extent.order, first, count)
}

// Every place of one side, block by block; a block is passed over where none of its places is pushed.
fn raise_blocks(start: Peel, work: &mut [u16], step: Step, first: usize) -> Peel
    requires side { SideAt step.scope.extent.order first }
    requires raised { need_of step.scope first < need_of (next_of step) first }
    requires peeling { Raising step first work.old start }
    ensures peeling { Raising step (first + step.scope.extent.order) work.new result }
    ensures head { result.head ≡ start.head }
    ensures kept { Kept step.scope.extent.order step.scope.extent.size work.old work.new }
{
    let end = first + step.scope.extent.order;
    let mut peel = start;
    let mut place = first;
    while place < end {
        let to = end.min(place + BLOCK);
        if !is_quiet(work, step, first, place, to) {
            peel = raise_places(peel, work, step, first, place, to);
        }
        place = to;
    }
    peel
}

// Every place of one side, the sources from 0 on or the targets from n on, pushed whose degree is enough before the step, and not after it. Where the
// side needs what it needed there is none, and no place is looked at. Blocks are passed over where weights make the steps small: at the first step,
// from nothing, and where each edge weighs 1, most blocks have such a place.
fn raise_side(start: Peel, work: &mut [u16], step: Step, first: usize) -> Peel
    requires side { SideAt step.scope.extent.order first }
    requires peeling { Raising step first work.old start }
    ensures peeling { Raising step (first + step.scope.extent.order) work.new result }
    ensures head { result.head ≡ start.head }
    ensures kept { Kept step.scope.extent.order step.scope.extent.size work.old work.new }
{
    let need = step.scope.need(first);
    if need == step.next().need(first) {
        return start;
    }
    if need == 0 || start.is_single() {
        return raise_places(
            start,
            work,
            step,
            first,
            first,
            first + step.scope.extent.order,
        );
    }
    raise_blocks(start, work, step, first)
}

// Every place pushed whose degree is enough before the step, and not after it.
pub fn tighten(peel: Peel, work: &mut [u16], step: Step) -> Peel
    requires { PeelBy step.scope work.old peel }
    ensures peeling { PeelBy (next_of step) work.new result }
    ensures head { result.head ≡ peel.head }
    ensures kept { Kept step.scope.extent.order step.scope.extent.size work.old work.new }
{
    let sources = raise_side(peel, work, step, 0);
    raise_side(sources, work, step, step.scope.extent.order)
}

// The peel gone on to what is asked after the step, and run to its end.
pub fn advance(peel: Peel, work: &mut [u16], step: Step, drain: bool) -> Peel
    requires { PeelBy step.scope work.old peel }
    ensures { Ended drain (next_of step) work.old work.new result }
{
    tighten(peel, work, step).run(work, step.next(), drain)
}

// The peel of the whole graph for a scope, run to its end.
pub fn whole(work: &mut [u16], degrees: &[u16], scope: Scope, drain: bool) -> Peel
    requires { Weighed scope.extent.order scope.extent.size work.old degrees.now }
    ensures { Ended drain scope work.old work.new result }
{
    let fresh = Peel::fresh(work, degrees, scope);
    advance(fresh, work, Step::up_to(scope), drain)
}
