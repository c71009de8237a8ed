// The degrees of one side counted anew, by the rows of those places of the other side that have enough edges.
// The table goes beside its scope, and a side is told by its first place, as in `needs`. A place is what stands in a row, an entry that is read.
ghost use Rattle.std.specs.Prelude.{◌≡◌, ◌+◌, ◌-◌, ◌*◌, ◌<◌, ◌≤◌, true, length, nat_le};
ghost use Rattle.network.specs.Refusals.{work_length};
ghost use Rattle.peeling.specs.Peeling.{Rows, Held, SingleRows, degree_of, with_degree};
ghost use Rattle.peeling.specs.Recounts.{SideAt, Roomy, Gained, Cleared, Recounted};

use peeling::{Scope, place_in, weight_by};

// An edge more for the place, of some weight.
fn gain(work: &mut [u16], scope: Scope, place: usize, weight: u16)
    requires long { work_length scope.extent.order scope.extent.size ≤ length work.old }
    requires is_place { place < 2 * scope.extent.order }
    requires room { weight ≤ 65535 - degree_of scope.extent.order scope.extent.size work.old place }
    ensures { work.new ≡ with_degree scope.extent.order scope.extent.size work.old place (degree_of scope.extent.order scope.extent.size work.old place + weight) }
{
    let at = scope.degrees_at() + place;
    work[at] += weight;
}

// For each place of a row the edge that the row has more. The row stands in the table that is written to, so its entries are read by their index. Its
// bounds are told here as where a row is lowered (peeling, harmonic): a function for them would have to promise of two numbers what `Rows` says at
// once.
fn gain_row(work: &mut [u16], scope: Scope, place: usize, single: bool)
    requires rows { Rows scope.extent.order scope.extent.size work.old }
    requires single { single ≡ true → SingleRows scope.extent.order work.old }
    requires is_place { place < 2 * scope.extent.order }
    requires roomy { Roomy scope.extent.order scope.extent.size work.old place }
    ensures { Gained scope.extent.order scope.extent.size place true work.old work.new }
{
    let rows = 2 * scope.extent.order + 1;
    let start = rows + usize::from(work[place]);
    let end = rows + usize::from(work[place + 1]);
    for k in start..end {
        let entry = work[k];
        gain(work, scope, place_in(entry), weight_by(entry, single));
    }
}

// For each place of the row of a place that has enough the edge more.
fn recount_place(work: &mut [u16], scope: Scope, least: usize, place: usize, single: bool)
    requires rows { Rows scope.extent.order scope.extent.size work.old }
    requires single { single ≡ true → SingleRows scope.extent.order work.old }
    requires is_place { place < 2 * scope.extent.order }
    requires roomy { Roomy scope.extent.order scope.extent.size work.old place }
    ensures { Gained scope.extent.order scope.extent.size place (nat_le least (degree_of scope.extent.order scope.extent.size work.old place)) work.old work.new }
{
    let at = scope.degrees_at() + place;
    if usize::from(work[at]) < least {
        return;
    }
    gain_row(work, scope, place, single);
}

// The degrees of the other side set to 0.
fn clear_other(work: &mut [u16], scope: Scope, first: usize)
    requires long { work_length scope.extent.order scope.extent.size ≤ length work.old }
    requires side { SideAt scope.extent.order first }
    ensures { Cleared scope.extent.order scope.extent.size first scope.extent.order work.old work.new }
{
    let n = scope.extent.order;
    let at = scope.degrees_at() + n - first;
    work[at..at + n].fill(0);
}

// The degrees of the other side counted anew, by the rows of those places of this side, from `first` on, whose degree is at least `least`.
pub fn recount(work: &mut [u16], scope: Scope, first: usize, least: usize, single: bool)
    requires held { Held scope.extent.order scope.extent.size work.old }
    requires single { single ≡ true → SingleRows scope.extent.order work.old }
    requires side { SideAt scope.extent.order first }
    ensures { Recounted scope.extent.order scope.extent.size first least scope.extent.order work.old work.new }
{
    clear_other(work, scope, first);
    for place in first..first + scope.extent.order {
        recount_place(work, scope, least, place, single);
    }
}
