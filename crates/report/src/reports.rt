// The four lines of a report.
ghost use Rattle.std.specs.Prelude.{◌≡◌, ◌+◌, ◌≤◌, ◌++◌, length};
ghost use Rattle.network.specs.File.{most_members};
ghost use Rattle.report.specs.Text.{Begins, labels_text, numbers_text, members_text, group_text, report_text, longest_report};

use crate::Numbers;
use crate::pieces::{lay, put_label, put_spaced};
use arrayvec::ArrayString;

// No report is longer.
pub const LONGEST_REPORT: usize = 20643;

// A line of three labels.
#[tactic(auto, unfolding(crate::specs::Text::labels_text))]
fn put_labels<const N: usize>(
    text: &mut ArrayString<N>,
    first: &str,
    a: usize,
    second: &str,
    b: usize,
    third: &str,
    c: usize,
)
    requires { length text.old.bytes + length (labels_text first.now a second.now b third.now c) ≤ N }
    ensures { text.new.bytes ≡ text.old.bytes ++ labels_text first.now a second.now b third.now c }
{
    put_label(text, first, a);
    put_label(text, second, b);
    put_label(text, third, c);
    text.push_str("\n");
}

#[tactic(auto, unfolding(crate::specs::Text::numbers_text))]
fn put_numbers<const N: usize>(text: &mut ArrayString<N>, k: Numbers)
    requires { length text.old.bytes + length (numbers_text k) ≤ N }
    ensures { text.new.bytes ≡ text.old.bytes ++ numbers_text k }
{
    put_labels(text, "x", k.x, " y", k.y, " equal", k.equal);
    put_labels(
        text,
        "links",
        k.edges,
        " vouchers",
        k.sources,
        " vouched",
        k.targets,
    );
}

// The members that are in the group.
#[tactic(auto, unfolding(graph::specs::Range::flat))]
fn put_members<const N: usize>(text: &mut ArrayString<N>, group: &[u8])
    requires { length text.old.bytes + length (members_text group.now (length group.now)) ≤ N }
    ensures { text.new.bytes ≡ text.old.bytes ++ members_text group.now (length group.now) }
{
    for (u, byte) in group.iter().enumerate() {
        if *byte == 1 {
            put_spaced(text, u);
        }
    }
}

#[tactic(auto, unfolding(crate::specs::Text::group_text))]
fn put_group<const N: usize>(text: &mut ArrayString<N>, letter: &str, group: &[u8])
    requires { length text.old.bytes + length (group_text letter.now group.now (length group.now)) ≤ N }
    ensures { text.new.bytes ≡ text.old.bytes ++ group_text letter.now group.now (length group.now) }
{
    text.push_str(letter);
    put_members(text, group);
    text.push_str("\n");
}

// Lays the report at the start of the buffer, and answers its length. The groups are tables of all members: 1 in, 0 out.
#[tactic(auto, using(crate::proofs::Lengths::numbers_longest, crate::proofs::Lengths::group_longest), unfolding(crate::specs::Text::report_text))]
pub fn put_report(numbers: Numbers, s: &[u8], t: &[u8], out: &mut [u8]) -> usize
    requires members { length s.now ≤ most_members }
    requires same_length { length t.now ≡ length s.now }
    requires room { longest_report ≤ length out.old }
    ensures { Begins out.old (report_text numbers s.now t.now (length s.now)) out.new result }
{
    let mut report = ArrayString::<LONGEST_REPORT>::new();
    put_numbers(&mut report, numbers);
    put_group(&mut report, "S", s);
    put_group(&mut report, "T", t);
    lay(report.as_str(), out)
}
