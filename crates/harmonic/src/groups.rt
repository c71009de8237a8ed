// The groups of the best state, read off the keys.
ghost use Rattle.std.specs.Prelude.{◌≤◌, length};
ghost use Rattle.peeling.specs.Peeling.{Weighed};
ghost use Rattle.harmonic.specs.Walks.{HarmonicIn};

use crate::FIRST_MARK;
use crate::drops::bracket_of;
use crate::walks::best_state;
use grouping::write_group;
use network::{Extent, Totals};

// 02: the harmonic finder, of every graph whose rows the table holds. The places of the best state are those dropped after it, so those whose mark
// is at least that of the next drop. Without links no place has a mark.
pub fn harmonic_in(
    work: &mut [u16],
    degrees: &[u16],
    extent: Extent,
    s: &mut [u8],
    t: &mut [u8],
) -> Totals
    requires weighed { Weighed extent.order extent.size work.old degrees.now }
    requires room { (extent.order ≤ length s.old) × (extent.order ≤ length t.old) }
    ensures { HarmonicIn extent.order extent.size work.old work.new s.old s.new t.old t.new result }
{
    let best = best_state(work, degrees, extent);
    let at = bracket_of(extent).at;
    let least = FIRST_MARK + (2 * extent.order - (best.sources + best.targets));
    write_group(work, at, extent.order, least, s);
    write_group(work, at + extent.order, extent.order, least, t);
    best
}
