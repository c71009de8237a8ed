// The check of a file: the numbers 1 to 8, which are those of the old rule, 22 and 15.
ghost use Rattle.std.specs.Prelude.{◌≡◌, ℕ, true, ◌+◌, ◌*◌, ◌<◌, ◌≤◌, length, Some, IfErr, IfOk, IfSome, OnOk, OnSome, MatchOption};
ghost use Rattle.std.specs.Option.{SomeIff};
ghost use Rattle.graph.specs.Order.{precedes, ascends, Ascending};
ghost use Rattle.graph.specs.Shapes.{Closed};
ghost use Rattle.graph.specs.Sorting.{Sorted, key_of};
ghost use Rattle.network.specs.File.{most_links, version_of, stride_of, graph_of, outside, unknown, same, repeat, any_order, old_refusal, file_refusal};
ghost use Rattle.network.specs.Accepted.{Accepted, Distinct, Holds};
ghost use Rattle.checking.specs.Headers.{FallsAt, Known, Gives, Sees};

use network::{
    AcceptedFile, MOST_LINKS, MOST_MEMBERS, ReadableFile, Refusal, Side, SoundFile, end_at,
    is_marked, kind_at, link_at, order_of, size_of, stride, u16_at, version_of,
};
use ordering::order_edges;

// What the first 9 bytes and the length give, 1 to 6, where versions up to the latest are read. Zero bytes count as a file (02, wish 3).
#[tactic(auto, using(crate::proofs::Headers::header_ways))]
fn check_header(file: &[u8], latest: usize) -> Result<ReadableFile<'_>, Refusal>
    requires { latest ≤ 2 }
    ensures refused { IfErr result (λ r. any_order latest file.now ≡ Some r) }
    ensures passed { IfOk result (λ f. f.bytes.now ≡ file.now) }
    ensures version { 1 ≤ latest → OnOk result (version_of file.now ≤ latest) }
{
    let version = version_of(file);
    let stride = stride(version);
    if file.len() == 0 {
        return Ok(ReadableFile {
            bytes: file,
            stride,
        });
    }
    if file.len() < 9 {
        return Err(Refusal::Short);
    }
    if !is_marked(file, b"VCH") {
        return Err(Refusal::Mark);
    }
    if version < 1 || latest < version {
        return Err(Refusal::Version);
    }
    if MOST_MEMBERS < order_of(file) {
        return Err(Refusal::Members);
    }
    let size = size_of(file);
    if MOST_LINKS < size {
        return Err(Refusal::Links);
    }
    if file.len() != link_at(stride, size) {
        return Err(Refusal::Length);
    }
    Ok(ReadableFile {
        bytes: file,
        stride,
    })
}

// The first edge that names a vertex not below n.
fn first_outside(file: &ReadableFile) -> Option<usize>
    ensures { SomeIff result (outside (graph_of file.now.bytes.now) < (graph_of file.now.bytes.now).size) (outside (graph_of file.now.bytes.now)) }
{
    let order = order_of(file.bytes);
    let size = size_of(file.bytes);
    (0..size).find(|e| {
        order <= end_at(file.bytes, file.stride, Side::Source, *e)
            || order <= end_at(file.bytes, file.stride, Side::Target, *e)
    })
}

// The first edge of a kind above 7.
fn first_unknown(file: &ReadableFile) -> Option<usize>
    ensures { SomeIff result (unknown file.now.bytes.now < (graph_of file.now.bytes.now).size) (unknown file.now.bytes.now) }
{
    let size = size_of(file.bytes);
    (0..size).find(|e| 7 < kind_at(file.bytes, file.stride, *e))
}

// An edge as one number, by which edges are compared: by source, then by target. It has 32 bits, so that many can be compared at once. This and the
// next take the bytes, since a `ReadableFile` and a `SoundFile` are read by them.
pub fn key_at(file: &[u8], stride: usize, edge: usize) -> u32
    requires { Holds file.now edge × (stride ≡ stride_of file.now) }
    ensures value { result ≡ key_of (graph_of file.now) edge }
    ensures target_fits { (graph_of file.now).target edge < 65536 }
{
    let at = link_at(stride, edge);
    65536 * u16_at(file, at) as u32 + u16_at(file, at + 2) as u32
}

// Whether edge d comes before edge e and is not the same.
fn is_before(file: &[u8], stride: usize, d: usize, e: usize) -> bool
    requires { Holds file.now d × Holds file.now e × (stride ≡ stride_of file.now) }
    ensures { result ≡ ascends (graph_of file.now) d e }
{
    key_at(file, stride, d) < key_at(file, stride, e)
}

// Whether two edges are the same.
fn is_same<const STRIDE: usize>(file: &SoundFile, d: usize, e: usize) -> bool
    requires stride { STRIDE ≡ stride_of file.now.bytes.now }
    requires edges { (d < (graph_of file.now.bytes.now).size) × (e < (graph_of file.now.bytes.now).size) }
    ensures { result ≡ same (graph_of file.now.bytes.now) d e }
{
    let bytes = file.bytes;
    end_at(bytes, STRIDE, Side::Source, d) == end_at(bytes, STRIDE, Side::Source, e)
        && end_at(bytes, STRIDE, Side::Target, d) == end_at(bytes, STRIDE, Side::Target, e)
}

// What a pass over the edges tells of all of them: each comes before the next, each ends below n, and each has one of the kinds 0 to 7.
#[derive(Clone, Copy, Debug, PartialEq, Eq)]
struct Seen {
    ascending: bool,
    below: bool,
    known: bool,
}

// No edge, of which there are some, has a greater source: where they ascend it is the last one's, so that the pass that tells so does not look for it.
fn greatest_source<const STRIDE: usize>(file: &ReadableFile, ascending: bool) -> u32
    requires some { 1 ≤ (graph_of file.now.bytes.now).size }
    requires stride { STRIDE ≡ stride_of file.now.bytes.now }
    requires ascending { ascending ≡ true → Ascending (graph_of file.now.bytes.now) }
    ensures { (e : ℕ) → e < (graph_of file.now.bytes.now).size → (graph_of file.now.bytes.now).source e ≤ result }
{
    let size = size_of(file.bytes);
    if ascending {
        return end_at(file.bytes, STRIDE, Side::Source, size - 1) as u32;
    }
    let mut most = 0;
    for e in 0..size {
        most = most.max(key_at(file.bytes, STRIDE, e));
    }
    most / 65536
}

// One pass over the edges, of which there are some. It has no branch and no way out: of what has a bound the greatest is kept, so that the compiler
// looks at many edges at a time. The bytes of an edge are a number, so that each version has a loop of its own.
fn look<const STRIDE: usize>(file: &ReadableFile) -> Seen
    requires some { 1 ≤ (graph_of file.now.bytes.now).size }
    requires stride { STRIDE ≡ stride_of file.now.bytes.now }
    ensures { Sees file.now.bytes.now result }
{
    let size = size_of(file.bytes);
    let mut ascending = true;
    let mut before = key_at(file.bytes, STRIDE, 0);
    let mut target = before % 65536;
    let mut kind = kind_at(file.bytes, STRIDE, 0);
    for e in 1..size {
        let key = key_at(file.bytes, STRIDE, e);
        ascending &= before < key;
        target = target.max(key % 65536);
        kind = kind.max(kind_at(file.bytes, STRIDE, e));
        before = key;
    }
    let source = greatest_source::<STRIDE>(file, ascending);
    let order = order_of(file.bytes) as u32;
    Seen {
        ascending,
        below: source < order && target < order,
        known: kind <= 7,
    }
}

// The same of any file.
fn see(file: &ReadableFile) -> Seen
    ensures { Sees file.now.bytes.now result }
{
    if size_of(file.bytes) == 0 {
        return Seen {
            ascending: true,
            below: true,
            known: true,
        };
    }
    if file.stride == 4 {
        look::<4>(file)
    } else {
        look::<5>(file)
    }
}

// The file, where its edges end below n, have kinds and ascend.
fn accept_ordered<'a>(file: &ReadableFile<'a>) -> Option<AcceptedFile<'a>>
    ensures { IfSome result (λ f. f.bytes.now ≡ file.now.bytes.now) }
{
    let seen = see(file);
    if seen.ascending && seen.below && seen.known {
        Some(AcceptedFile {
            bytes: file.bytes,
            stride: file.stride,
        })
    } else {
        None
    }
}

// The file where it is accepted and its version at most the latest, as far as one pass tells: a file in order is, and no other.
pub fn accept(file: &[u8], latest: usize) -> Option<AcceptedFile<'_>>
    requires { (1 ≤ latest) × (latest ≤ 2) }
    ensures file { IfSome result (λ f. f.bytes.now ≡ file.now) }
    ensures version { OnSome result (version_of file.now ≤ latest) }
{
    accept_ordered(&check_header(file, latest).ok()?)
}

// Where edges stop ascending: the first that does not come after the one preceding it.
fn first_fall(file: &SoundFile) -> Option<usize>
    ensures { MatchOption result (Ascending (graph_of file.now.bytes.now)) (λ k. FallsAt (graph_of file.now.bytes.now) k) }
{
    let size = size_of(file.bytes);
    (1..size).find(|edge| !is_before(file.bytes, file.stride, *edge - 1, *edge))
}

// The least edge that stands in the order after one that is the same, or m, than which no edge is greater.
fn least_repeat_by<const STRIDE: usize>(file: &SoundFile, order: &[u16]) -> usize
    requires stride { STRIDE ≡ stride_of file.now.bytes.now }
    requires length { length order.now ≡ (graph_of file.now.bytes.now).size }
    requires sorted { Sorted (precedes (graph_of file.now.bytes.now)) (graph_of file.now.bytes.now).size order.now }
    ensures { result ≡ repeat (graph_of file.now.bytes.now) }
{
    let mut least = order.len();
    for pair in order.windows(2) {
        let before = usize::from(pair[0]);
        let edge = usize::from(pair[1]);
        if is_same::<STRIDE>(file, before, edge) {
            least = least.min(edge);
        }
    }
    least
}

// The same for either version.
fn least_repeat(file: &SoundFile, order: &[u16]) -> usize
    requires length { length order.now ≡ (graph_of file.now.bytes.now).size }
    requires sorted { Sorted (precedes (graph_of file.now.bytes.now)) (graph_of file.now.bytes.now).size order.now }
    ensures { result ≡ repeat (graph_of file.now.bytes.now) }
{
    if file.stride == 4 {
        least_repeat_by::<4>(file, order)
    } else {
        least_repeat_by::<5>(file, order)
    }
}

// The first edge that repeats an earlier one. The order that shows it is left for the caller.
fn first_repeat(file: &SoundFile, sorted: &mut [u16]) -> Option<usize>
    requires room { (graph_of file.now.bytes.now).size ≤ length sorted.old }
    ensures value { SomeIff result (repeat (graph_of file.now.bytes.now) < (graph_of file.now.bytes.now).size) (repeat (graph_of file.now.bytes.now)) }
    ensures sorted { Sorted (precedes (graph_of file.now.bytes.now)) (graph_of file.now.bytes.now).size sorted.new }
    ensures length { length sorted.new ≡ length sorted.old }
{
    order_edges(file, Side::Source, sorted);
    let size = size_of(file.bytes);
    let least = least_repeat(file, &sorted[0..size]);
    (least < size).then_some(least)
}

// 7: past it every edge joins two vertices. Where every end is below n, no edge is looked at by itself, and so in the next.
#[tactic(auto, using(crate::proofs::Headers::edge_ways))]
fn check_ends(file: &ReadableFile) -> Result<(), Refusal>
    ensures refused { IfErr result (Gives file.now.bytes.now) }
    ensures passed { OnOk result (Closed (graph_of file.now.bytes.now)) }
{
    if see(file).below {
        return Ok(());
    }
    match first_outside(file) {
        Some(edge) => Err(Refusal::End { link: edge as u16 }),
        None => Ok(()),
    }
}

// 22, of a file that passes the tests before it: past it every edge has a kind. One of four bytes has 0.
#[tactic(auto, using(crate::proofs::Headers::edge_ways))]
fn check_kinds(file: &ReadableFile) -> Result<(), Refusal>
    requires { Closed (graph_of file.now.bytes.now) }
    ensures refused { IfErr result (Gives file.now.bytes.now) }
    ensures passed { OnOk result (Known file.now.bytes.now) }
{
    if file.stride == 4 || see(file).known {
        return Ok(());
    }
    match first_unknown(file) {
        Some(edge) => Err(Refusal::Kind { link: edge as u16 }),
        None => Ok(()),
    }
}

// 1 to 7 and 22.
fn check_front(file: &[u8], latest: usize) -> Result<SoundFile<'_>, Refusal>
    requires { (1 ≤ latest) × (latest ≤ 2) }
    ensures refused { IfErr result (λ r. any_order latest file.now ≡ Some r) }
    ensures passed { IfOk result (λ f. f.bytes.now ≡ file.now) }
    ensures version { OnOk result (version_of file.now ≤ latest) }
{
    let file = check_header(file, latest)?;
    check_ends(&file)?;
    check_kinds(&file)?;
    Ok(SoundFile {
        bytes: file.bytes,
        stride: file.stride,
    })
}

// 8, of a file that passes the tests before it. The order that shows it is left for the caller.
#[tactic(auto, using(crate::proofs::Headers::edge_ways))]
fn check_repeats(file: &SoundFile, sorted: &mut [u16]) -> Result<(), Refusal>
    requires room { most_links ≤ length sorted.old }
    ensures refused { IfErr result (Gives file.now.bytes.now) }
    ensures passed { OnOk result (Distinct file.now.bytes.now) }
    ensures sorted { Sorted (precedes (graph_of file.now.bytes.now)) (graph_of file.now.bytes.now).size sorted.new }
    ensures length { length sorted.new ≡ length sorted.old }
{
    match first_repeat(file, sorted) {
        Some(edge) => Err(Refusal::Repeat { link: edge as u16 }),
        None => Ok(()),
    }
}

// The test by the old rule, which reads version 1 only, and leaves the edges in order where it is passed.
pub fn check_old<'a>(file: &'a [u8], sorted: &mut [u16]) -> Result<SoundFile<'a>, Refusal>
    requires { most_links ≤ length sorted.old }
    ensures refused { IfErr result (λ r. old_refusal file.now ≡ Some r) }
    ensures passed { IfOk result (λ f. f.bytes.now ≡ file.now) }
    ensures distinct { OnOk result (Distinct file.now × (version_of file.now ≤ 1)) }
    ensures sorted { OnOk result (Sorted (precedes (graph_of file.now)) (graph_of file.now).size sorted.new) }
    ensures length { length sorted.new ≡ length sorted.old }
{
    let file = check_front(file, 1)?;
    check_repeats(&file, sorted)?;
    Ok(file)
}

// 8 and 15, of a file that passes the tests before them. Where no edge repeats another, the one at which they stop ascending comes before the one
// preceding it.
#[tactic(auto, using(crate::proofs::Headers::order_ways))]
fn check_order<'a>(file: &SoundFile<'a>) -> Result<AcceptedFile<'a>, Refusal>
    ensures refused { IfErr result (λ r. file_refusal file.now.bytes.now ≡ Some r) }
    ensures passed { IfOk result (λ f. f.bytes.now ≡ file.now.bytes.now) }
{
    let mut sorted = [0u16; MOST_LINKS];
    check_repeats(file, &mut sorted)?;
    match first_fall(file) {
        Some(edge) => Err(Refusal::Order { link: edge as u16 }),
        None => Ok(AcceptedFile {
            bytes: file.bytes,
            stride: file.stride,
        }),
    }
}

// The test of a file's own bytes. Every call on a file begins with it. A file in order is told in one pass; only for others are the tests made one
// by one, and the edges sorted.
#[tactic(auto, using(crate::proofs::Headers::order_ways))]
pub fn check_file(file: &[u8]) -> Result<AcceptedFile<'_>, Refusal>
    ensures refused { IfErr result (λ r. file_refusal file.now ≡ Some r) }
    ensures passed { IfOk result (λ f. f.bytes.now ≡ file.now) }
{
    if let Some(file) = accept(file, 2) {
        return Ok(file);
    }
    check_order(&check_front(file, 2)?)
}
