// The names of states: 02's are the numbers 0 to 3, by which the states are indexed.
ghost use Rattle.std.specs.Prelude.{◌≡◌, ◌+◌, ◌<◌, ◌≤◌, MatchOption};
ghost use Rattle.journal.specs.Tabled.{set_start};

use network::MOST_LINKS;
use std::marker::Model;

// A name.
#[derive(Clone, Copy, Debug, PartialEq, Eq)]
pub struct Name {
    number: usize,
}

impl Model for Name {
    ghost use Rattle.std.specs.Prelude.{ℕ, ◌<◌};

    ghost Value = { ℕ };

    ghost view = { λ a. a.number };

    ghost invariant = { λ a. a.number < 4 };

    ghost inverse = { λ x. record { number = x } };
}

impl Name {
    // That of a number, where there is one.
    pub fn new(number: usize) -> Option<Name>
        ensures { MatchOption result (4 ≤ number) (λ x. (x ≡ number) × (number < 4)) }
    {
        if 3 < number {
            return None;
        }
        Some(Name { number })
    }

    // Where the totals of its state stand.
    pub fn index(self) -> usize
        ensures same { result ≡ self }
        ensures small { result < 4 }
    {
        self.number
    }

    // And where its links start, behind those present and those of the names before it.
    pub fn start(self) -> usize
        ensures same { result ≡ set_start (self + 1) }
        ensures small { self < 4 }
    {
        MOST_LINKS * (self.index() + 1)
    }
}
