// A set of links as a slice of exactly its links, each its source, then its target: they ascend by source, then target.
// That they ascend is asked at each call: the slice is lent anew after each entry, and a struct round it would be made anew with the same fact to
// be shown.
#![tactic(auto)]

ghost use Rattle.std.specs.Prelude.{ℕ, ◌≡◌, ◌+◌, ◌-◌, ◌*◌, ◌<◌, ◌≤◌, [], ◌∷◌, ◌++◌, length, take, drop};
ghost use Rattle.std.specs.List.{insert, remove};
ghost use Rattle.graph.specs.Range.{if};
ghost use Rattle.linkset.specs.Tables.{
  source_at,
  target_at,
  is_at,
  degree_of,
  most_of_source,
  Sorted,
  Place,
  Parted,
  Narrowed,
  earlier,
  quarter_of,
  told,
  passed,
};

// The most links of one source in a set of which a degree is asked for.
const MOST_OF_SOURCE: usize = 64;

// What a search compares: sources alone, or both ends. They are numbers, since a const parameter can be no enum.
const SOURCE: usize = 1;

const BOTH: usize = 2;

// A link, from its source to its target. Links are compared by source, then by target: in the order of the fields.
#[derive(Clone, Copy, Debug, PartialEq, Eq, PartialOrd, Ord)]
pub struct Link {
    pub source: u16,
    pub target: u16,
}

// As one number of 32 bits, which has the same order: so a search compares two links in fewer steps.
impl From<Link> for u32 {
    ghost from_gives = { λ link number. number ≡ 65536 * link.source + link.target };

    fn from(link: Link) -> u32 {
        65536 * u32::from(link.source) + u32::from(link.target)
    }
}

// Link `i` of a set.
fn link_of(set: &[[u16; 2]], i: usize) -> Link
    requires { i < length set.now }
    ensures { result ≡ record { source = source_at set.now i; target = target_at set.now i } }
{
    let [source, target] = set[i];
    Link { source, target }
}

// Whether link `i` of a set comes before another; by sources alone, whether its own is less.
fn comes_before<const ENDS: usize>(set: &[[u16; 2]], i: usize, link: Link) -> bool
    requires { i < length set.now }
    ensures { result ≡ earlier ENDS set.now link.source link.target i }
{
    if ENDS == SOURCE {
        return set[i][0] < link.source;
    }
    u32::from(link_of(set, i)) < u32::from(link)
}

// A quarter of so many links, where a link is left out between each two.
fn quarter_of(left: usize) -> usize
    requires { 3 ≤ left }
    ensures { result ≡ quarter_of left }
{
    (left - 3) / 4 + 1
}

// Of the links that may come before the one sought, how many are told by one turn to come before it or not: three quarters, or one of the last two.
fn told(left: usize) -> usize
    ensures { result ≡ told left }
{
    if left < 3 { 1 } else { 3 * quarter_of(left) }
}

// So many, or none. It is made without a branch: which of the two comes could not be foretold. A product with `usize::from` would be no
// plainer.
fn counted(holds: bool, many: usize) -> usize
    ensures { result ≡ if holds many }
{
    if holds { many } else { 0 }
}

// How many of these are told to come before it: the quarters by the three links between them, which are read side by side.
fn passed<const ENDS: usize>(set: &[[u16; 2]], low: usize, left: usize, link: Link) -> usize
    requires some { 0 < left }
    requires room { low + left ≤ length set.now }
    ensures count { result ≡ passed (earlier ENDS set.now link.source link.target) low left }
    ensures most { result ≤ told left }
{
    if left < 3 {
        return counted(comes_before::<ENDS>(set, low, link), 1);
    }
    let quarter = quarter_of(left);
    let last = low + quarter - 1;
    counted(comes_before::<ENDS>(set, last, link), quarter)
        + counted(comes_before::<ENDS>(set, last + quarter, link), quarter)
        + counted(comes_before::<ENDS>(set, last + 2 * quarter, link), quarter)
}

// How many links come before the one sought, where those below `low` do and those past `left` from there on do not. By
// `partition_point`, which takes twice as long, the journal would miss its goal.
fn search<const ENDS: usize>(set: &[[u16; 2]], low: usize, left: usize, link: Link) -> usize
    requires room { low + left ≤ length set.now }
    ensures { Sorted set.now → Narrowed (earlier ENDS set.now link.source link.target) (length set.now) low left
        → Parted (earlier ENDS set.now link.source link.target) (length set.now) result }
{
    let mut low = low;
    let mut left = left;
    while 0 < left {
        low += passed::<ENDS>(set, low, left, link);
        left -= told(left);
    }
    low
}

// The place of a link in a set: how many of them come before it.
pub fn place(set: &[[u16; 2]], link: Link) -> usize
    requires sorted { Sorted set.now }
    ensures { Place set.now link.source link.target result }
{
    search::<BOTH>(set, 0, set.len(), link)
}

// Where the links of a source begin, by a place among them: at most three before it, or if the fourth has the source too, which is seldom,
// at most 64.
fn begin_of(set: &[[u16; 2]], place: usize, source: u16) -> usize
    requires place_in { place ≤ length set.now }
    ensures { Sorted set.now → degree_of set.now source ≤ most_of_source → (v : ℕ) → Place set.now source v place
        → Parted (earlier 1 set.now source 0) (length set.now) result }
{
    let first = Link { source, target: 0 };
    if 4 <= place && set[place - 4][0] == source {
        let low = place.saturating_sub(MOST_OF_SOURCE);
        return search::<SOURCE>(set, low, place - 4 - low, first);
    }
    let low = place.saturating_sub(3);
    search::<SOURCE>(set, low, place - low, first)
}

// And where they end.
fn end_of(set: &[[u16; 2]], place: usize, source: u16) -> usize
    requires place_in { place ≤ length set.now }
    requires fits { source < 65535 }
    ensures { Sorted set.now → degree_of set.now source ≤ most_of_source → (v : ℕ) → Place set.now source v place
        → Parted (earlier 1 set.now (source + 1) 0) (length set.now) result }
{
    let next = Link {
        source: source + 1,
        target: 0,
    };
    let size = set.len();
    if place + 4 <= size && set[place + 3][0] == source {
        let low = place + 4;
        return search::<SOURCE>(set, low, size.min(place + MOST_OF_SOURCE) - low, next);
    }
    search::<SOURCE>(set, place, size.min(place + 3) - place, next)
}

// How many links of a set have a source, by a place among them: on either side of it their end is sought, in few links.
pub fn degree(set: &[[u16; 2]], place: usize, source: u16) -> usize
    requires sorted { Sorted set.now }
    requires fits { source < 65535 }
    requires among { (v : ℕ) × Place set.now source v place }
    requires few { degree_of set.now source ≤ most_of_source }
    ensures { result ≡ degree_of set.now source }
{
    let begin = begin_of(set, place, source);
    end_of(set, place, source) - begin
}

// Whether a link is at a place.
pub fn is_at(set: &[[u16; 2]], place: usize, link: Link) -> bool
    ensures { result ≡ is_at set.now place link.source link.target }
{
    place < set.len() && link_of(set, place) == link
}

// A link put in at a place of a set, which is lent with room for one more behind it. The later links are moved up by one. They are lent by themselves,
// and the distance is a number: so the compiler makes it one move of memory.
pub fn insert(set: &mut [[u16; 2]], place: usize, link: Link)
    requires { place < length set.old }
    ensures { set.new ≡ insert (take (length set.old - 1) set.old) place (link.source ∷ link.target ∷ []) }
{
    let part = &mut set[place..];
    let moved = part.len() - 1;
    part.copy_within(..moved, 1);
    part[0] = [link.source, link.target];
}

// The link at a place taken out, the later ones moved down by one. The last one stays where it was too.
pub fn remove(set: &mut [[u16; 2]], place: usize)
    requires { place < length set.old }
    ensures { set.new ≡ remove set.old place ++ drop (length set.old - 1) set.old }
{
    let part = &mut set[place..];
    part.copy_within(1.., 0);
}
