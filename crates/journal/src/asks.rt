// The journal call. A journal and how many entries are asked for stay two parameters: they are the call's own, which C gives too.
ghost use Rattle.std.specs.Prelude.{◌||◌, ◌≡◌, ◌≤◌, ltb, length, None, Some, IfErr, OnOk};
ghost use Rattle.network.specs.File.{most_members};
ghost use Rattle.journal.specs.Entries.{members, entry_start};
ghost use Rattle.journal.specs.Journal.{after, numbers as numbers_of};
ghost use Rattle.journal.specs.Tabled.{work_links};
ghost use Rattle.journal.specs.Calls.{count_of, out_length, work_entries, journal_refusal, SetWritten, JournalCall};

use crate::entries::{check_header, count_of};
use crate::runs::run;
use crate::writes::put_set;
use crate::{OUT_LENGTH, WORK_LENGTH};
use network::{Refusal, u16_at};

// Whether the output, the table of numbers or the work table is short.
fn is_short(journal: &[u8], asked: usize, out: usize, numbers: usize, work: usize) -> bool
    requires { 7 ≤ length journal.now }
    ensures { result ≡ (ltb out out_length || ltb numbers (count_of journal.now asked) || ltb work work_entries) }
{
    out < OUT_LENGTH || numbers < count_of(journal, asked) || work < WORK_LENGTH
}

// The header's tests, then 9 by the lengths of the output, of the table of numbers and of the work table.
fn check_input(
    journal: &[u8],
    asked: usize,
    out: usize,
    numbers: usize,
    work: usize,
) -> Result<(), Refusal>
    ensures refused { IfErr result (λ r. journal_refusal journal.now asked out numbers work ≡ Some r) }
    ensures passed { OnOk result (journal_refusal journal.now asked out numbers work ≡ None) }
{
    check_header(journal)?;
    if is_short(journal, asked, out, numbers, work) {
        return Err(Refusal::Table);
    }
    Ok(())
}

// The first entries followed, as many as numbers are asked for, and the links then present written; how many these are is returned.
fn replay(journal: &[u8], out: &mut [u8], numbers: &mut [u8], work: &mut [[u16; 2]]) -> usize
    requires entries { entry_start (length numbers.old) ≤ length journal.now }
    requires few { members journal.now ≤ most_members }
    requires room { (out_length ≤ length out.old) × (work_links ≤ length work.old) }
    ensures present { SetWritten (members journal.now) (after journal.now (length numbers.old)).present out.old out.new result }
    ensures numbered { numbers.new ≡ numbers_of journal.now (length numbers.old) }
{
    let tally = run(journal, work, numbers);
    let live = tally.present.live;
    put_set(&work[..live], u16_at(journal, 5), out);
    live
}

// 02, wish 8: the journal. The tables are handed on without what lies past the entries that are needed, the work table as links.
#[tactic(auto, using(crate::proofs::Headers::accepted))]
pub fn journal(
    journal: &[u8],
    asked: usize,
    out: &mut [u8],
    numbers: &mut [u8],
    work: &mut [u16],
) -> Result<usize, Refusal>
    ensures { JournalCall journal.now asked out.old out.new numbers.old numbers.new work.old work.new result }
{
    check_input(journal, asked, out.len(), numbers.len(), work.len())?;
    let count = count_of(journal, asked);
    let (links, _) = work[..WORK_LENGTH].as_chunks_mut::<2>();
    Ok(replay(journal, out, &mut numbers[..count], links))
}
