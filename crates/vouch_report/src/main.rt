// vouch-report: reads a network file from standard input and prints its finding, or why it is refused.
#![tactic(auto)]

ghost use Rattle.std.specs.Prelude.{◌≤◌, ◌≡◌, length};
ghost use Rattle.report.specs.Text.{longest_report, Rendered};
ghost use Rattle.vouch_report.specs.Printed.{Prints};
ghost use Rattle.vouch_report.specs.Parts.{numbers_of};

use network::{MOST_MEMBERS, MOST_WORK, order_of};
use report::{LONGEST_REPORT, Numbers};
use searching::Ring;

// No `From`: both types are of other crates. And `usize` has no `From<u32>`.
fn numbers_of(ring: Ring) -> Numbers
    ensures { result ≡ numbers_of ring }
{
    Numbers {
        x: ring.x,
        y: ring.y,
        equal: ring.equal,
        edges: ring.totals.edges as usize,
        sources: ring.totals.sources,
        targets: ring.totals.targets,
    }
}

// Puts what is to be printed for a file at the start of the buffer, and answers its length. The finding is asked for with everyone in both
// groups.
fn render(file: &[u8], out: &mut [u8]) -> usize
    requires { longest_report ≤ length out.old }
    ensures { Rendered (Prints file.now) out.old out.new result }
{
    let everyone = [1u8; MOST_MEMBERS];
    let mut work = [0u16; MOST_WORK];
    let mut s = [0u8; MOST_MEMBERS];
    let mut t = [0u8; MOST_MEMBERS];
    let answer = finding::finding(file, &everyone, &everyone, &mut s, &mut t, &mut work);
    let Ok(ring) = answer else {
        return report::put_refusal(answer.unwrap_err(), out);
    };
    let n = order_of(file);
    let s = &s[..n];
    let t = &t[..n];
    report::put_report(numbers_of(ring), s, t, out)
}

fn main(rt: HostRuntime) {
    filter::run::<40970, LONGEST_REPORT, _>(&rt, "vouch-report", render);
}
