// The running totals (02, wish 9): one record, which each accepted entry updates in place.
ghost use Rattle.std.specs.Prelude.{◌≡◌, ◌+◌, ◌<◌, ◌≤◌, Some, length, set};
ghost use Rattle.network.specs.File.{most_members, most_links};
ghost use Rattle.journal.specs.Journal.{place_of};
ghost use Rattle.journal.specs.Tabled.{begin, added, withdrawn, number_told};

use crate::{EntryRefusal, Name, Tally, Totals};
use network::MOST_LINKS;

// 02: each member is due so many vouches given,
const DUE_EACH: usize = 4;

// and may have up to so many.
const MOST_GIVEN: usize = 64;

impl Tally {
    // Before the first entry.
    pub fn new(order: usize) -> Tally
        requires { order ≤ most_members }
        ensures { result ≡ begin order }
    {
        Tally {
            present: Totals {
                live: 0,
                due: DUE_EACH * order,
            },
            named: [None; 4],
        }
    }
}

impl Totals {
    // Whether a voucher that has given so many finds a place for an addition: 19 and 20.
    pub fn check_place(self, given: usize) -> Result<(), EntryRefusal>
        requires { self.live + self.due ≤ most_links }
        ensures { number_told result ≡ place_of given (self.live + self.due) }
    {
        if given == MOST_GIVEN {
            return Err(EntryRefusal::Given);
        }
        if DUE_EACH <= given && self.live + self.due == MOST_LINKS {
            return Err(EntryRefusal::Place);
        }
        Ok(())
    }

    // A link more, of a voucher that had given so many.
    fn added(self, given: usize) -> Totals
        requires live { self.live ≤ most_links }
        requires due { given < 4 → 1 ≤ self.due }
        ensures { result ≡ added self given }
    {
        Totals {
            live: self.live + 1,
            due: self.due - usize::from(given < DUE_EACH),
        }
    }

    // A link less, of a voucher that had given so many.
    fn withdrawn(self, given: usize) -> Totals
        requires live { 1 ≤ self.live }
        requires due { self.due ≤ most_links }
        ensures { result ≡ withdrawn self given }
    {
        Totals {
            live: self.live - 1,
            due: self.due + usize::from(given <= DUE_EACH),
        }
    }
}

// The steps are functions of the one record, which is lent to them (01 names the form); a method would be the same.
// Kind 0.
pub fn add(tally: &mut Tally, given: usize)
    requires live { tally.old.present.live ≤ most_links }
    requires due { given < 4 → 1 ≤ tally.old.present.due }
    ensures { tally.new ≡ record { present = added tally.old.present given; named = tally.old.named } }
{
    tally.present = tally.present.added(given);
}

// Kind 1.
pub fn withdraw(tally: &mut Tally, given: usize)
    requires live { 1 ≤ tally.old.present.live }
    requires due { tally.old.present.due ≤ most_links }
    ensures { tally.new ≡ record { present = withdrawn tally.old.present given; named = tally.old.named } }
{
    tally.present = tally.present.withdrawn(given);
}

// Kind 2: both totals become those of the name.
pub fn save(tally: &mut Tally, name: Name)
    requires four { length tally.old.named ≡ 4 }
    ensures { tally.new ≡ record { present = tally.old.present; named = set tally.old.named name (Some tally.old.present) } }
{
    tally.named[name.index()] = Some(tally.present);
}

// Kind 3: both totals become those of a named state.
pub fn restore(tally: &mut Tally, totals: Totals)
    ensures { tally.new ≡ record { present = totals; named = tally.old.named } }
{
    tally.present = totals;
}
