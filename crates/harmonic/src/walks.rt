// All drops, one after the other, and the best state met. The table goes beside its extent, as in `drops`.
ghost use Rattle.std.specs.Prelude.{◌≡◌, ◌+◌, ◌*◌, ◌≤◌};
ghost use Rattle.graph.specs.Graph.{Graph};
ghost use Rattle.peeling.specs.Peeling.{Held, Weighed, Tabled};
ghost use Rattle.harmonic.specs.Walks.{Picks, Next, At, Turned, Walked, BestIn, step_of, without, has_place, better};

use crate::drops::{bracket_of, choose, drop_place};
use crate::places::number_of;
use crate::{Choice, FIRST_MARK, Place};
use network::{Extent, Side, Totals};
use peeling::{Peel, Scope};

// E, |S| and |T| without a place on a side that has such a degree.
fn less(state: Totals, side: Side, degree: usize) -> Totals
    requires has_links { degree ≤ state.edges }
    requires has_place { has_place side state }
    ensures { result ≡ without side degree state }
{
    let edges = state.edges - degree as u32;
    match side {
        Side::Source => Totals {
            edges,
            sources: state.sources - 1,
            ..state
        },
        Side::Target => Totals {
            edges,
            targets: state.targets - 1,
            ..state
        },
    }
}

// 02: the better of the best state so far and another: that one, where its 2 × E / (|S| + |T|) is greater.
fn better_of(best: Totals, state: Totals) -> Totals
    requires best_size { best.sources + best.targets ≤ 4096 }
    requires state_size { state.sources + state.targets ≤ 4096 }
    ensures { result ≡ better best state }
{
    let size = state.sources + state.targets;
    let best_size = best.sources + best.targets;
    // `usize` has no `From<u32>`.
    if best.edges as usize * size < state.edges as usize * best_size {
        state
    } else {
        best
    }
}

// One place dropped, with the next mark. E, |S| and |T| of the state after it are returned.
#[tactic(auto, using(crate::proofs::Turns::at_size))]
fn turn(work: &mut [u16], extent: Extent, state: Totals, place: Place) -> Totals
    requires tree { Picks extent.order extent.size work.old }
    requires next { Next extent.order extent.size work.old place }
    requires at { (g : Graph) × At g extent.order extent.size work.old (step_of extent.order state) state }
    ensures { Turned extent.order extent.size state work.old work.new result }
{
    let side = place.side;
    let number = number_of(extent, place);
    let degree = usize::from(work[bracket_of(extent).at + number]);
    let step = 2 * extent.order - (state.sources + state.targets);
    drop_place(work, extent, number, (FIRST_MARK + step) as u16);
    less(state, side, degree)
}

// 02: all places dropped, and the best of the states before each drop: the last, empty one is none of these.
fn walk(work: &mut [u16], extent: Extent, whole: Totals) -> Totals
    requires tree { Picks extent.order extent.size work.old }
    requires held { Held extent.order extent.size work.old }
    requires begins { (g : Graph) → Tabled g extent.order extent.size work.old → At g extent.order extent.size work.old 0 whole }
    ensures { Walked extent.order extent.size work.old work.new result }
{
    let mut state = whole;
    let mut best = whole;
    while let Choice::Drop(place) = choose(work, extent) {
        best = better_of(best, state);
        state = turn(work, extent, state, place);
    }
    best
}

// 02: E, |S| and |T| of the best state, or zeros where there are no links, and nothing is dropped. The drops begin with the degrees of all places in
// the whole graph.
pub fn best_state(work: &mut [u16], degrees: &[u16], extent: Extent) -> Totals
    requires weighed { Weighed extent.order extent.size work.old degrees.now }
    ensures { BestIn extent.order extent.size work.old work.new result }
{
    let peel = Peel::fresh(work, degrees, Scope::of(extent, 0, 0));
    if peel.edges == 0 {
        return Totals {
            edges: 0,
            sources: 0,
            targets: 0,
        };
    }
    bracket_of(extent).build(work);
    walk(
        work,
        extent,
        Totals {
            edges: peel.edges as u32,
            sources: extent.order,
            targets: extent.order,
        },
    )
}
