// The bytes of a journal, read: its header and its entries.
ghost use Rattle.std.specs.Prelude.{◌≡◌, ◌+◌, ◌<◌, ◌≤◌, length, None, Some, IfErr, OnOk};
ghost use Rattle.journal.specs.Entries.{entry_start, header_refusal, entry_of, entry_at};
ghost use Rattle.journal.specs.Calls.{count_of};

use crate::{Entry, Name};
use network::{MOST_MEMBERS, Refusal, is_marked, u16_at};

// What the header and the length give: 1, 2, 3, 4 or 6, by other numbers than a network file's.
#[tactic(auto, unfolding(crate::specs::Entries::header_refusal))]
pub fn check_header(journal: &[u8]) -> Result<(), Refusal>
    ensures refused { IfErr result (λ r. header_refusal journal.now ≡ Some r) }
    ensures passed { OnOk result (header_refusal journal.now ≡ None) }
{
    if journal.len() < 7 {
        return Err(Refusal::Short);
    }
    if !is_marked(journal, b"VJN") {
        return Err(Refusal::Mark);
    }
    if u16_at(journal, 3) != 1 {
        return Err(Refusal::Version);
    }
    if MOST_MEMBERS < u16_at(journal, 5) {
        return Err(Refusal::Members);
    }
    if (journal.len() - 7) % 5 != 0 {
        return Err(Refusal::Length);
    }
    Ok(())
}

// How many entries are followed: as many as are asked for, or all.
pub fn count_of(journal: &[u8], asked: usize) -> usize
    requires { 7 ≤ length journal.now }
    ensures { result ≡ count_of journal.now asked }
{
    let entries = (journal.len() - 7) / 5;
    entries.min(asked)
}

// An entry from the number of its kind and its two numbers.
fn entry_of(kind: usize, a: usize, b: usize) -> Entry
    ensures { result ≡ entry_of kind a b }
{
    match (kind, Name::new(a), b) {
        (0, _, _) => Entry::Add(a, b),
        (1, _, _) => Entry::Withdraw(a, b),
        (2, Some(name), 0) => Entry::Save(name),
        (3, Some(name), 0) => Entry::Restore(name),
        _ => Entry::Malformed,
    }
}

// Entry `i`.
#[tactic(auto, unfolding(crate::specs::Entries::entry_at))]
pub fn entry_at(journal: &[u8], i: usize) -> Entry
    requires { entry_start i + 5 ≤ length journal.now }
    ensures { result ≡ entry_at journal.now i }
{
    let at = 7 + 5 * i;
    entry_of(
        usize::from(journal[at]),
        u16_at(journal, at + 1),
        u16_at(journal, at + 3),
    )
}
