// The members of a journal.
ghost use Rattle.std.specs.Prelude.{◌≡◌, ◌⊎◌, ◌<◌, ◌≤◌, IfOk, IfErr};
ghost use Rattle.network.specs.File.{most_members};

use crate::EntryRefusal;
use linkset::Link;

// So many: n, which is at most 2,048.
#[derive(Clone, Copy, Debug, PartialEq, Eq)]
pub struct Members {
    pub order: usize,
    ghost few: { order ≤ most_members },
}

impl Members {
    // The link of two of them: each has to be below n.
    pub fn link(self, source: usize, target: usize) -> Result<Link, EntryRefusal>
        ensures refused { IfErr result (λ r. (r ≡ EntryRefusal.Member) × ((self.order ≤ source) ⊎ ((source < self.order) × (self.order ≤ target)))) }
        ensures link { IfOk result (λ l. (l ≡ record { source = source; target = target }) × (source < self.order) × (target < self.order)) }
    {
        if self.order <= source || self.order <= target {
            return Err(EntryRefusal::Member);
        }
        Ok(Link {
            source: source as u16,
            target: target as u16,
        })
    }
}
