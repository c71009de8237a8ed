// A journal followed from its start. How long the work table is has to be said, since it is lent (see `copies`).
ghost use Rattle.std.specs.Prelude.{◌≡◌, ◌≤◌, length};
ghost use Rattle.network.specs.File.{most_members};
ghost use Rattle.journal.specs.Entries.{members, entry_start};
ghost use Rattle.journal.specs.Journal.{after, numbers};
ghost use Rattle.journal.specs.Tabled.{work_links, Tabled};

use crate::Tally;
use crate::entries::entry_at;
use crate::members::Members;
use crate::refusals::number_told;
use crate::steps::follow;
use network::u16_at;

// The first entries followed, as many as numbers are asked for: the number of each, and the table and the tally that they leave.
pub fn run(journal: &[u8], work: &mut [[u16; 2]], results: &mut [u8]) -> Tally
    requires entries { entry_start (length results.old) ≤ length journal.now }
    requires few { members journal.now ≤ most_members }
    requires room { work_links ≤ length work.old }
    ensures tabled { Tabled (members journal.now) (after journal.now (length results.old)) work.new result }
    ensures numbered { results.new ≡ numbers journal.now (length results.old) }
{
    let members = Members {
        order: u16_at(journal, 5),
    };
    let mut tally = Tally::new(members.order);
    for (i, result) in results.iter_mut().enumerate() {
        *result = number_told(follow(work, &mut tally, members, entry_at(journal, i)));
    }
    tally
}
