// The finding call.
ghost use Rattle.finding.specs.Findings.{FindingCall};

use cores::enter;
use network::Refusal;
use peeling::MOST_PLACES;
use searching::{Ring, find_in};

// 01: the finding inside A and B. Its x and y are at least 1, or its groups are empty: it lies inside A and B as it is found.
pub fn finding(
    file: &[u8],
    a: &[u8],
    b: &[u8],
    s: &mut [u8],
    t: &mut [u8],
    work: &mut [u16],
) -> Result<Ring, Refusal>
    ensures { FindingCall file.now a.now b.now s.old s.new t.old t.new work.old work.new result }
{
    let mut degrees = [0u16; MOST_PLACES];
    let extent = enter(file, a, b, None, s.len(), t.len(), work, &mut degrees)?;
    Ok(find_in(work, &degrees, extent, s, t))
}
