// The public calls on cores and levels inside A and B. Their parameters are those that 01 and 02 name, and what hands them on has them as they come.
ghost use Rattle.std.specs.Prelude.{length};
ghost use Rattle.cores.specs.Entries.{entry_refusal, LevelWithin};
ghost use Rattle.cores.specs.Calls.{CoreCall, LevelBy, LevelCall, LevelAcrossCall, EqualLevelCall};

use crate::entries::enter;
use crate::groups::keep_inside;
use climbing::{Rise, climb};
use grouping::core_in;
use network::{Refusal, Totals};
use peeling::{MOST_PLACES, Scope};

// 01: the core call, inside A and B.
pub fn core(
    file: &[u8],
    a: &[u8],
    b: &[u8],
    x: u16,
    y: u16,
    s: &mut [u8],
    t: &mut [u8],
    work: &mut [u16],
) -> Result<Totals, Refusal>
    ensures { CoreCall file.now a.now b.now x y s.old s.new t.old t.new work.old work.new result }
{
    let mut degrees = [0u16; MOST_PLACES];
    let extent = enter(file, a, b, None, s.len(), t.len(), work, &mut degrees)?;
    let scope = Scope::of(extent, usize::from(x), usize::from(y));
    let totals = core_in(work, &degrees, scope, s, t);
    let n = extent.order;
    Ok(Totals {
        edges: totals.edges,
        sources: keep_inside(x, &a[0..n], s, totals.sources),
        targets: keep_inside(y, &b[0..n], t, totals.targets),
    })
}

// A level of its kind, of the links from A to B. It has no groups to write: for these the length of the work table stands, which is never the one
// that is short.
fn level_along(
    file: &[u8],
    a: &[u8],
    b: &[u8],
    rise: Rise,
    fixed: usize,
    ask: Option<u16>,
    work: &mut [u16],
) -> Result<usize, Refusal>
    ensures { LevelBy (entry_refusal ask file.now a.now b.now (length work.old) (length work.old) (length work.old)) file.now (LevelWithin file.now a.now b.now rise fixed) work.old work.new result }
{
    let mut degrees = [0u16; MOST_PLACES];
    let length = work.len();
    let extent = enter(file, a, b, ask, length, length, work, &mut degrees)?;
    Ok(climb(work, &degrees, extent, rise, fixed, 1))
}

// 01: the level of x.
pub fn level(file: &[u8], a: &[u8], b: &[u8], x: u16, work: &mut [u16]) -> Result<usize, Refusal>
    ensures { LevelCall file.now a.now b.now x work.old work.new result }
{
    level_along(file, a, b, Rise::Targets, usize::from(x), Some(x), work)
}

// 01: the level across, for y: the same function by another side.
pub fn level_across(
    file: &[u8],
    a: &[u8],
    b: &[u8],
    y: u16,
    work: &mut [u16],
) -> Result<usize, Refusal>
    ensures { LevelAcrossCall file.now a.now b.now y work.old work.new result }
{
    level_along(file, a, b, Rise::Sources, usize::from(y), Some(y), work)
}

// 01: the equal level.
pub fn equal_level(file: &[u8], a: &[u8], b: &[u8], work: &mut [u16]) -> Result<usize, Refusal>
    ensures { EqualLevelCall file.now a.now b.now work.old work.new result }
{
    level_along(file, a, b, Rise::Both, 0, None, work)
}
