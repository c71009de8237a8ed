// One entry followed, on the work table and the tally.
// Each step says that these hold a state: a struct with the lent table in it would have to say of each step that its table stays the one lent.
ghost use Rattle.std.specs.Prelude.{ℕ};
ghost use Rattle.journal.specs.Tabled.{Holds, Turns, number_told};

use crate::copies::{copy_back, copy_out};
use crate::members::Members;
use crate::{Entry, EntryRefusal, Name, Tally, tallies};
use linkset::{degree, insert, is_at, place, remove};

// Kind 0: a link is put in at its place.
fn add(
    work: &mut [[u16; 2]],
    tally: &mut Tally,
    members: Members,
    source: usize,
    target: usize,
) -> Result<(), EntryRefusal>
    requires holds { Holds members.order work.old tally.old }
    ensures { Turns members.order (Entry.Add source target) work.old tally.old work.new tally.new (number_told result) }
{
    let link = members.link(source, target)?;
    let size = tally.present.live;
    let at = place(&work[..size], link);
    if is_at(&work[..size], at, link) {
        return Err(EntryRefusal::Present);
    }
    let given = degree(&work[..size], at, link.source);
    tally.present.check_place(given)?;
    insert(&mut work[..size + 1], at, link);
    tallies::add(tally, given);
    Ok(())
}

// Kind 1: a link is taken out of its place.
fn withdraw(
    work: &mut [[u16; 2]],
    tally: &mut Tally,
    members: Members,
    source: usize,
    target: usize,
) -> Result<(), EntryRefusal>
    requires holds { Holds members.order work.old tally.old }
    ensures { Turns members.order (Entry.Withdraw source target) work.old tally.old work.new tally.new (number_told result) }
{
    let link = members.link(source, target)?;
    let size = tally.present.live;
    let at = place(&work[..size], link);
    if !is_at(&work[..size], at, link) {
        return Err(EntryRefusal::Absent);
    }
    let given = degree(&work[..size], at, link.source);
    remove(&mut work[..size], at);
    tallies::withdraw(tally, given);
    Ok(())
}

// Kind 2: the links present are copied to the name's.
fn save(work: &mut [[u16; 2]], tally: &mut Tally, name: Name) -> Result<(), EntryRefusal>
    requires holds { (n : ℕ) × Holds n work.old tally.old }
    ensures { (n : ℕ) → Turns n (Entry.Save name) work.old tally.old work.new tally.new (number_told result) }
{
    copy_out(work, name, tally.present.live);
    tallies::save(tally, name);
    Ok(())
}

// Kind 3: the name's links are copied to those present.
fn restore(work: &mut [[u16; 2]], tally: &mut Tally, name: Name) -> Result<(), EntryRefusal>
    requires holds { (n : ℕ) × Holds n work.old tally.old }
    ensures { (n : ℕ) → Turns n (Entry.Restore name) work.old tally.old work.new tally.new (number_told result) }
{
    let Some(named) = tally.named[name.index()] else {
        return Err(EntryRefusal::Entry);
    };
    copy_back(work, name, named.live);
    tallies::restore(tally, named);
    Ok(())
}

// An entry followed.
pub fn follow(
    work: &mut [[u16; 2]],
    tally: &mut Tally,
    members: Members,
    entry: Entry,
) -> Result<(), EntryRefusal>
    requires holds { Holds members.order work.old tally.old }
    ensures { Turns members.order entry work.old tally.old work.new tally.new (number_told result) }
{
    match entry {
        Entry::Add(u, v) => add(work, tally, members, u, v),
        Entry::Withdraw(u, v) => withdraw(work, tally, members, u, v),
        Entry::Save(x) => save(work, tally, x),
        Entry::Restore(x) => restore(work, tally, x),
        Entry::Malformed => Err(EntryRefusal::Entry),
    }
}
