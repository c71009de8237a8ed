// The numbers that stand for refused entries in their table.
ghost use Rattle.std.specs.Prelude.{◌≡◌};
ghost use Rattle.journal.specs.Tabled.{number_of, number_told};

use crate::EntryRefusal;

impl EntryRefusal {
    // 02: its number.
    pub fn number(self) -> u8
        ensures { result ≡ number_of self }
    {
        match self {
            EntryRefusal::Entry => 18,
            EntryRefusal::Member => 10,
            EntryRefusal::Present => 16,
            EntryRefusal::Absent => 17,
            EntryRefusal::Given => 19,
            EntryRefusal::Place => 20,
        }
    }
}

// 02: the number of an entry, or 0 where it is followed.
pub fn number_told(answer: Result<(), EntryRefusal>) -> u8
    ensures { result ≡ number_told answer }
{
    match answer {
        Ok(()) => 0,
        Err(refusal) => refusal.number(),
    }
}
