// Two files walked side by side: which edges of the first are links of the second too.
ghost use Rattle.std.specs.Prelude.{◌≡◌, ◌+◌, ◌<◌, ◌≤◌, true, cond, eqb, length};
ghost use Rattle.network.specs.File.{stride_of, graph_of};
ghost use Rattle.merging.specs.Shared.{is_shared, shared};
ghost use Rattle.merging.specs.Merging.{run, mark_of, Run, PutRun, Picked, stepped, Merged};

use crate::Pair;
use checking::key_at;
use network::{AcceptedFile, size_of, weight_at};

// Records of the same events agree for the most part: so many edges of both files are compared at once. Where they differ so many at most are passed
// one by one before that is tried again.
const RUN: usize = 16;

const STEPS: usize = 32;

// How far a walk has come: the edges of each file that are passed, and those of the first that are put into the list.
#[derive(Clone, Copy, Debug, PartialEq, Eq)]
struct Walk {
    first: usize,
    second: usize,
    both: usize,
}

// An edge as one number of 32 bits: by source, then by target, then by weight. The bytes of an edge are numbers here and below, so that the compiler
// makes a walk of its own for every two versions.
fn mark_at<const STRIDE: usize>(file: &AcceptedFile, edge: usize) -> u32
    requires edge { edge < (graph_of file.now.bytes.now).size }
    requires stride { STRIDE ≡ stride_of file.now.bytes.now }
    ensures { result ≡ mark_of (graph_of file.now.bytes.now) edge }
{
    let weight = u32::from(weight_at(file.bytes, STRIDE, edge));
    16 * key_at(file.bytes, STRIDE, edge) + weight
}

// Whether two edges are one link, by their marks.
fn is_one(first: u32, second: u32) -> bool
    ensures { result ≡ eqb first second }
{
    first == second
}

// Whether the next edges of both files, as many as a run has, are one link each. It is told without a branch, many edges at a time.
fn is_run<const FIRST: usize, const SECOND: usize>(pair: &Pair, walk: Walk) -> bool
    requires strides { (FIRST ≡ stride_of pair.now.first.bytes.now) × (SECOND ≡ stride_of pair.now.second.bytes.now) }
    requires first { walk.first + run ≤ (graph_of pair.now.first.bytes.now).size }
    requires second { walk.second + run ≤ (graph_of pair.now.second.bytes.now).size }
    ensures { result ≡ true → Run (graph_of pair.now.first.bytes.now) (graph_of pair.now.second.bytes.now) walk.first walk.second run }
{
    let mut same = true;
    for i in 0..RUN {
        let first = mark_at::<FIRST>(&pair.first, walk.first + i);
        let second = mark_at::<SECOND>(&pair.second, walk.second + i);
        same &= is_one(first, second);
    }
    same
}

// The mark in hand after a step: that of the next edge where the one in hand is passed.
fn next_mark(passed: bool, mark: u32, after: u32) -> u32
    ensures { result ≡ cond passed after mark }
{
    if passed { after } else { mark }
}

impl Walk {
    // A run of edges of the first file, put into the list and passed with as many of the second.
    fn pass_run(self, list: &mut [u16]) -> Walk
        requires room { self.both + run ≤ length list.old }
        requires fits { (self.first + run ≤ 65536) × (self.second < 65536) }
        ensures walk { result ≡ record { first = self.first + run; second = self.second + run; both = self.both + run } }
        ensures list { PutRun list.old list.new self.both self.first run }
    {
        for i in 0..RUN {
            list[self.both + i] = (self.first + i) as u16;
        }
        Walk {
            first: self.first + RUN,
            second: self.second + RUN,
            both: self.both + RUN,
        }
    }

    // One step, by the marks of the two edges in hand: of the two the one that comes first is passed, and both where they are the same. That of the
    // first file is put into the list in any case, and counted where they are one link. There is no branch, since which it is cannot be foretold.
    fn step(self, first: u32, second: u32, list: &mut [u16]) -> Walk
        requires room { self.both < length list.old }
        requires fits { (self.first < 65536) × (self.second < 65536) }
        ensures walk { result ≡ stepped self first second }
        ensures list { PutRun list.old list.new self.both self.first 1 }
    {
        list[self.both] = self.first as u16;
        Walk {
            first: self.first + usize::from(first <= second),
            second: self.second + usize::from(second <= first),
            both: self.both + usize::from(is_one(first, second)),
        }
    }

    // So many steps, one at least. The edges that may be next are read before it is known which of them is, so that no step waits for them.
    fn steps<const FIRST: usize, const SECOND: usize>(
        self,
        pair: &Pair,
        list: &mut [u16],
        count: usize,
    ) -> Walk
        requires strides { (FIRST ≡ stride_of pair.now.first.bytes.now) × (SECOND ≡ stride_of pair.now.second.bytes.now) }
        requires some { 1 ≤ count }
        requires first { self.first + count ≤ (graph_of pair.now.first.bytes.now).size }
        requires second { self.second + count ≤ (graph_of pair.now.second.bytes.now).size }
        requires room { (graph_of pair.now.first.bytes.now).size ≤ length list.old }
        requires merged { Merged (graph_of pair.now.first.bytes.now) (graph_of pair.now.second.bytes.now) list.old self }
        ensures merged { Merged (graph_of pair.now.first.bytes.now) (graph_of pair.now.second.bytes.now) list.new result }
        ensures length { length list.new ≡ length list.old }
        ensures passed { self.first + self.second < result.first + result.second }
    {
        let mut walk = self;
        let mut first = mark_at::<FIRST>(&pair.first, walk.first);
        let mut second = mark_at::<SECOND>(&pair.second, walk.second);
        for _ in 1..count {
            let after_first = mark_at::<FIRST>(&pair.first, walk.first + 1);
            let after_second = mark_at::<SECOND>(&pair.second, walk.second + 1);
            walk = walk.step(first, second, list);
            let in_hand = next_mark(first <= second, first, after_first);
            second = next_mark(second <= first, second, after_second);
            first = in_hand;
        }
        walk.step(first, second, list)
    }
}

// The edges of the first file that are links of the second too, at the front of the list, in order, and how many they are: files of the two versions
// told.
fn walk_through<const FIRST: usize, const SECOND: usize>(pair: &Pair, list: &mut [u16]) -> usize
    requires strides { (FIRST ≡ stride_of pair.now.first.bytes.now) × (SECOND ≡ stride_of pair.now.second.bytes.now) }
    requires room { (graph_of pair.now.first.bytes.now).size ≤ length list.old }
    ensures picked { Picked (is_shared (graph_of pair.now.first.bytes.now) (graph_of pair.now.second.bytes.now)) (graph_of pair.now.first.bytes.now).size list.new result }
    ensures counted { result ≡ shared (graph_of pair.now.second.bytes.now) (graph_of pair.now.first.bytes.now) }
    ensures length { length list.new ≡ length list.old }
{
    let first_size = size_of(pair.first.bytes);
    let second_size = size_of(pair.second.bytes);
    let mut walk = Walk {
        first: 0,
        second: 0,
        both: 0,
    };
    while walk.first < first_size && walk.second < second_size {
        let left = (first_size - walk.first).min(second_size - walk.second);
        walk = if RUN <= left && is_run::<FIRST, SECOND>(pair, walk) {
            walk.pass_run(list)
        } else {
            walk.steps::<FIRST, SECOND>(pair, list, left.min(STEPS))
        };
    }
    walk.both
}

// The same of files of any version.
pub fn list_common(pair: &Pair, list: &mut [u16]) -> usize
    requires { (graph_of pair.now.first.bytes.now).size ≤ length list.old }
    ensures picked { Picked (is_shared (graph_of pair.now.first.bytes.now) (graph_of pair.now.second.bytes.now)) (graph_of pair.now.first.bytes.now).size list.new result }
    ensures counted { result ≡ shared (graph_of pair.now.second.bytes.now) (graph_of pair.now.first.bytes.now) }
    ensures length { length list.new ≡ length list.old }
{
    match (pair.first.stride == 4, pair.second.stride == 4) {
        (true, true) => walk_through::<4, 4>(pair, list),
        (true, false) => walk_through::<4, 5>(pair, list),
        (false, true) => walk_through::<5, 4>(pair, list),
        (false, false) => walk_through::<5, 5>(pair, list),
    }
}
