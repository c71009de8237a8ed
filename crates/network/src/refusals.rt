// What is told of a refusal.
ghost use Rattle.std.specs.Prelude.{◌≡◌, ◌<◌, IfSome};
ghost use Rattle.network.specs.File as file;

use crate::Refusal;

impl Refusal {
    // 01, 02: its number.
    pub fn number(self) -> u16
        ensures { result ≡ file.number_of self }
    {
        match self {
            Refusal::Short => 1,
            Refusal::Mark => 2,
            Refusal::Version => 3,
            Refusal::Members => 4,
            Refusal::Links => 5,
            Refusal::Length => 6,
            Refusal::End { .. } => 7,
            Refusal::Repeat { .. } => 8,
            Refusal::Table => 9,
            Refusal::Member => 10,
            Refusal::Group => 11,
            Refusal::Zero => 12,
            Refusal::Row => 14,
            Refusal::Order { .. } => 15,
            Refusal::Mismatch => 21,
            Refusal::Kind { .. } => 22,
        }
    }

    // 01, 02: the link that it names.
    pub fn link(self) -> Option<u16>
        ensures value { result ≡ file.link_of self }
        ensures fits { IfSome result (λ e. e < 65536) }
    {
        match self {
            Refusal::End { link }
            | Refusal::Repeat { link }
            | Refusal::Order { link }
            | Refusal::Kind { link } => Some(link),
            _ => None,
        }
    }
}
