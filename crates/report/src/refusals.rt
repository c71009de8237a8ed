// The line of a refusal.
ghost use Rattle.std.specs.Prelude.{◌≡◌, ◌+◌, ◌≤◌, ◌++◌, length};
ghost use Rattle.report.specs.Text.{Begins, link_text, refusal_text, longest_refusal};

use crate::pieces::{lay, put_label};
use arrayvec::ArrayString;
use network::Refusal;

// No line is longer.
const LONGEST_REFUSAL: usize = 23;

// The link, where the refusal names one.
#[tactic(auto, unfolding(crate::specs::Text::link_text))]
fn put_link<const N: usize>(text: &mut ArrayString<N>, link: Option<u16>)
    requires { length text.old.bytes + length (link_text link) ≤ N }
    ensures { text.new.bytes ≡ text.old.bytes ++ link_text link }
{
    if let Some(link) = link {
        put_label(text, " at", usize::from(link));
    }
}

// Lays the line at the start of the buffer, and answers its length.
#[tactic(auto, using(crate::proofs::Lengths::refusal_room), unfolding(crate::specs::Text::refusal_text))]
pub fn put_refusal(refusal: Refusal, out: &mut [u8]) -> usize
    requires { longest_refusal ≤ length out.old }
    ensures { Begins out.old (refusal_text refusal) out.new result }
{
    let mut line = ArrayString::<LONGEST_REFUSAL>::new();
    put_label(&mut line, "refused", usize::from(refusal.number()));
    put_link(&mut line, refusal.link());
    line.push_str("\n");
    lay(line.as_str(), out)
}
