// The harmonic call.
ghost use Rattle.harmonic.specs.Calls.{HarmonicCall};

use crate::groups::harmonic_in;
use cores::enter;
use network::{MOST_MEMBERS, Refusal, Totals};
use peeling::MOST_PLACES;

// 02, wish 6: the harmonic finder, which starts with everyone in both groups: for the way in A and B are everyone.
pub fn harmonic(
    file: &[u8],
    s: &mut [u8],
    t: &mut [u8],
    work: &mut [u16],
) -> Result<Totals, Refusal>
    ensures { HarmonicCall file.now s.old s.new t.old t.new work.old work.new result }
{
    let everyone = [1u8; MOST_MEMBERS];
    let mut degrees = [0u16; MOST_PLACES];
    let extent = enter(
        file,
        &everyone,
        &everyone,
        None,
        s.len(),
        t.len(),
        work,
        &mut degrees,
    )?;
    Ok(harmonic_in(work, &degrees, extent, s, t))
}
