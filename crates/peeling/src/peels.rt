// The peel: places that are short are queued, and dropped one after the other until none is short. A vertex stands at two places, as a source
// and as a target, and each is dropped by itself.
// The lent table goes beside its scope, and what it holds is said at each call: a struct with both would have each call promise that it still holds
// the same table. A place is what stands in a row or in the queue, an entry that is read.
ghost use Rattle.std.specs.Prelude.{not, ◌&&◌, ◌||◌, true, ◌≡◌, ℕ, ◌+◌, ◌-◌, ◌*◌, ◌<◌, ◌≤◌, nat_le, nat_lt, eqb, ltb, length, get_or};
ghost use Rattle.graph.specs.Cover as cover;
ghost use Rattle.network.specs.File.{most_members};
ghost use Rattle.network.specs.Refusals.{work_length};
ghost use Rattle.peeling.specs.Peeling.{Weighed, Peeling, PeelBy, Dropping, Kept, Ended, degree_of, queue_of, need_of, need_across, across, side_left, emptied, pushed_by, past, with_queued, falls as is_falling, lowered_table};

use crate::entries::{place_in, weight_by};
use crate::weights::{excess_of, sum_of};
use crate::{Peel, Scope};
use network::Extent;

// The edges that a place needs, among so many vertices, whatever their number.
pub fn need(order: usize, x: usize, y: usize, place: usize) -> usize
    ensures { result ≡ cover.need order x y place }
{
    if place < order { x } else { y }
}

impl Scope {
    // Of a graph of so many vertices and edges, with these needs.
    pub fn of(extent: Extent, x: usize, y: usize) -> Scope
        ensures { result ≡ record { extent = extent; x = x; y = y } }
    {
        Scope { extent, x, y }
    }

    // The edges that a place needs.
    pub fn need(self, place: usize) -> usize
        ensures { result ≡ need_of self place }
    {
        need(self.extent.order, self.x, self.y, place)
    }

    // The edges that the places need to which a place is joined: they are of the other side, and so the two are exchanged.
    fn need_across(self, place: usize) -> usize
        ensures { result ≡ need_across self place }
    {
        need(self.extent.order, self.y, self.x, place)
    }

    // Where the degrees start in the work table.
    pub fn degrees_at(self) -> usize
        ensures { result ≡ 2 * self.extent.order + 1 + 2 * self.extent.size }
    {
        2 * self.extent.order + 1 + 2 * self.extent.size
    }

    // Where the queue starts.
    fn queue_at(self) -> usize
        ensures { result ≡ 4 * self.extent.order + 1 + 2 * self.extent.size }
    {
        4 * self.extent.order + 1 + 2 * self.extent.size
    }
}

// The place put at entry `tail` of the queue. The table has one entry more than there are places, so there is one past every tail.
pub fn put(work: &mut [u16], scope: Scope, tail: usize, place: usize)
    requires long { work_length scope.extent.order scope.extent.size ≤ length work.old }
    requires in_queue { tail ≤ 2 * scope.extent.order }
    requires is_place { place < 2 * scope.extent.order }
    ensures { work.new ≡ with_queued scope.extent.order scope.extent.size work.old tail place }
{
    let at = scope.queue_at() + tail;
    work[at] = place as u16;
}

// The degrees of all places in the whole graph, from a table that has them.
fn fill_degrees(work: &mut [u16], degrees: &[u16], scope: Scope)
    requires long { work_length scope.extent.order scope.extent.size ≤ length work.old }
    requires places { 2 * scope.extent.order ≤ length degrees.now }
    ensures kept { Kept scope.extent.order scope.extent.size work.old work.new }
    ensures degrees { (p : ℕ) → p < 2 * scope.extent.order → degree_of scope.extent.order scope.extent.size work.new p ≡ get_or degrees.now p 0 }
{
    let places = 2 * scope.extent.order;
    let at = scope.degrees_at();
    work[at..at + places].copy_from_slice(&degrees[..places]);
}

// Whether a degree is at least `least`, and less than that without the weight, by one test: what is less than `least` wraps round to a great number.
fn falls(degree: usize, least: usize, weight: usize) -> bool
    requires { weight ≤ degree }
    ensures { result ≡ (nat_le least degree && nat_lt degree (least + weight)) }
{
    degree.wrapping_sub(least) < weight
}

// The first place of the other side.
fn across(order: usize, place: usize) -> usize
    ensures { result ≡ across order place }
{
    if place < order { order } else { 0 }
}

// An edge of the place lost, of some weight: whether that makes the place, which needs `least`, short. It is put past the queue's tail in any case, so
// that no step hangs on a test that cannot be foreseen. An edge of weight 0 makes none short, whatever `least` is.
fn lower(
    work: &mut [u16],
    scope: Scope,
    tail: usize,
    least: usize,
    place: usize,
    weight: u16,
) -> bool
    requires long { work_length scope.extent.order scope.extent.size ≤ length work.old }
    requires in_queue { tail ≤ 2 * scope.extent.order }
    requires is_place { place < 2 * scope.extent.order }
    requires has_edge { weight ≤ degree_of scope.extent.order scope.extent.size work.old place }
    requires least { 1 ≤ weight → least ≡ need_of scope place }
    ensures told { result ≡ is_falling (need_of scope place) (degree_of scope.extent.order scope.extent.size work.old place) (degree_of scope.extent.order scope.extent.size work.old place - weight) }
    ensures table { work.new ≡ lowered_table scope.extent.order scope.extent.size work.old tail place weight }
{
    let at = scope.degrees_at() + place;
    let degree = work[at];
    work[at] = degree - weight;
    put(work, scope, tail, place);
    falls(usize::from(degree), least, usize::from(weight))
}

impl Peel {
    // The peel of the whole graph before anything is asked of a place. The degrees of the sources together count each edge once.
    pub fn fresh(work: &mut [u16], degrees: &[u16], scope: Scope) -> Peel
        requires { Weighed scope.extent.order scope.extent.size work.old degrees.now }
        ensures peeling { Peeling scope.extent.order scope.extent.size (cover.need scope.extent.order 0 0) work.new result }
        ensures head { result.head ≡ 0 }
        ensures kept { Kept scope.extent.order scope.extent.size work.old work.new }
    {
        fill_degrees(work, degrees, scope);
        let n = scope.extent.order;
        let edges = sum_of(&degrees[..n]);
        Peel {
            head: 0,
            tail: 0,
            sources: n,
            targets: n,
            edges,
            excess: excess_of(work, n, edges),
        }
    }

    // The peel whose queue has so many places of a side more, which stand past the tail already, and whose side has as many less. A side is told by
    // its first place.
    pub fn grown_by(self, order: usize, first: usize, count: usize) -> Peel
        requires order { order ≤ most_members }
        requires queue { self.tail + count ≤ 2 * order }
        requires side { count ≤ side_left order self first }
        ensures { result ≡ pushed_by order self first count }
    {
        let longer = Peel {
            tail: self.tail + count,
            ..self
        };
        if first < order {
            Peel {
                sources: self.sources - count,
                ..longer
            }
        } else {
            Peel {
                targets: self.targets - count,
                ..longer
            }
        }
    }

    // Each place of the row of the place that the head has passed loses its edge. For an empty row, of which there are many, nothing is looked up.
    // The row stands in the table that is written to, so its entries are read by their index. All its places are of the other side, so the places
    // pushed are counted.
    fn lower_row(self, work: &mut [u16], scope: Scope, place: usize) -> Peel
        requires { Dropping scope.extent.order scope.extent.size (need_of scope) work.old self place 0 }
        ensures peeling { PeelBy scope work.new result }
        ensures head { result.head ≡ self.head }
        ensures kept { Kept scope.extent.order scope.extent.size work.old work.new }
    {
        let order = scope.extent.order;
        let rows = 2 * order + 1;
        let start = rows + usize::from(work[place]);
        let end = rows + usize::from(work[place + 1]);
        if end <= start {
            return self;
        }
        let least = scope.need_across(place);
        let single = self.is_single();
        let mut count = 0;
        for k in start..end {
            let entry = work[k];
            let weight = weight_by(entry, single);
            let fell = lower(
                work,
                scope,
                self.tail + count,
                least,
                place_in(entry),
                weight,
            );
            count += usize::from(fell);
        }
        self.grown_by(order, across(order, place), count)
    }

    // The place at the head.
    fn first(self, work: &[u16], scope: Scope) -> usize
        requires long { work_length scope.extent.order scope.extent.size ≤ length work.now }
        requires in_queue { self.head < 2 * scope.extent.order }
        ensures { result ≡ queue_of scope.extent.order scope.extent.size work.now self.head }
    {
        let at = scope.queue_at() + self.head;
        usize::from(work[at])
    }

    // The place at the head dropped, but for its row: the head goes past it, and the total falls by its degree, which counts its edges to places
    // not dropped.
    pub fn pass_first(self, work: &[u16], scope: Scope) -> Peel
        requires long { work_length scope.extent.order scope.extent.size ≤ length work.now }
        requires in_queue { self.head < 2 * scope.extent.order }
        requires is_place { queue_of scope.extent.order scope.extent.size work.now self.head < 2 * scope.extent.order }
        requires in_total { degree_of scope.extent.order scope.extent.size work.now (queue_of scope.extent.order scope.extent.size work.now self.head) ≤ self.edges }
        ensures { result ≡ past scope.extent.order scope.extent.size work.now self }
    {
        let place = self.first(work, scope);
        let degree = usize::from(work[scope.degrees_at() + place]);
        Peel {
            head: self.head + 1,
            edges: self.edges - degree,
            ..self
        }
    }

    // The place at the head dropped, and each place of its row lowered.
    fn drop_first(self, work: &mut [u16], scope: Scope) -> Peel
        requires waits { self.head < self.tail }
        requires peeling { PeelBy scope work.old self }
        ensures peeling { PeelBy scope work.new result }
        ensures head { result.head ≡ self.head + 1 }
        ensures kept { Kept scope.extent.order scope.extent.size work.old work.new }
    {
        let place = self.first(work, scope);
        self.pass_first(work, scope).lower_row(work, scope, place)
    }

    // Whether the place at the head is to be dropped: one waits there, and the queue is to be drained or neither side is empty yet. This and the next
    // are all that hangs on `drain`: two steps to choose from would be no plainer.
    fn goes_on(self, drain: bool) -> bool
        ensures { result ≡ (ltb self.head self.tail && (drain || not (emptied self))) }
    {
        self.head < self.tail && (drain || !self.is_empty())
    }

    // Whether a peel that has ended is not to be gone on with because a side is empty, whatever the queue still holds.
    pub fn is_cut(self, drain: bool) -> bool
        ensures { result ≡ (not drain && emptied self) }
    {
        !drain && self.is_empty()
    }

    // Places dropped until none is short. What is not queued holds every settled set, so where a side of it is empty the core is: then the
    // places that wait are dropped only if the queue is to be drained.
    pub fn run(self, work: &mut [u16], scope: Scope, drain: bool) -> Peel
        requires { PeelBy scope work.old self }
        ensures { Ended drain scope work.old work.new result }
    {
        let mut peel = self;
        while peel.goes_on(drain) {
            peel = peel.drop_first(work, scope);
        }
        peel
    }

    // Whether every edge weighs 1.
    pub fn is_single(self) -> bool
        ensures { result ≡ eqb self.excess 0 }
    {
        self.excess == 0
    }

    // Whether a side has nobody left.
    pub fn is_empty(self) -> bool
        ensures { result ≡ emptied self }
    {
        self.sources == 0 || self.targets == 0
    }
}
