// An entry of a row: a place, and the weight of the edge to it (02, wish 13).
ghost use Rattle.std.specs.Prelude.{true, ◌≡◌};
ghost use Rattle.peeling.specs.Peeling as rows;

// The place in an entry.
pub fn place_in(entry: u16) -> usize
    ensures { result ≡ rows.place_in entry }
{
    usize::from(entry % 4096)
}

// The weight in it.
pub fn weight_in(entry: u16) -> u16
    ensures { result ≡ rows.weight_in entry }
{
    entry / 4096
}

// The weight in it, which is not looked at where every edge weighs 1: a loop that knows so before it begins has no test of it.
pub fn weight_by(entry: u16, single: bool) -> u16
    requires { single ≡ true → rows.weight_in entry ≡ 1 }
    ensures { result ≡ rows.weight_in entry }
{
    if single { 1 } else { weight_in(entry) }
}
