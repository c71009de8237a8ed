// Lists of edges: those from one group to another.
ghost use Rattle.std.specs.Prelude.{true, ◌≡◌, ◌<◌, ◌≤◌, length};
ghost use Rattle.graph.specs.Layers.{joins};
ghost use Rattle.graph.specs.Within.{within};
ghost use Rattle.network.specs.File.{graph_of};
ghost use Rattle.network.specs.Groups.{group_of, AllIn};
ghost use Rattle.filling.specs.Listed.{ListOf};

use crate::Within;
use network::{AcceptedFile, Side, end_at, order_of, size_of};
use ordering::count_up;

// Whether an edge goes from S to T. Both ends are looked at, whatever the first tells, so that no step hangs on a test of it.
pub fn is_between(file: &AcceptedFile, edge: usize, s: &[u8], t: &[u8]) -> bool
    requires is_edge { edge < (graph_of file.now.bytes.now).size }
    requires s_long { (graph_of file.now.bytes.now).order ≤ length s.now }
    requires t_long { (graph_of file.now.bytes.now).order ≤ length t.now }
    ensures { result ≡ joins (graph_of file.now.bytes.now) (group_of s.now) (group_of t.now) edge }
{
    let leaves = s[end_at(file.bytes, file.stride, Side::Source, edge)] == 1;
    let enters = t[end_at(file.bytes, file.stride, Side::Target, edge)] == 1;
    leaves & enters
}

// Whether each member is in the group. It is told without a branch, many bytes at a time.
fn is_everyone(group: &[u8]) -> bool
    ensures { result ≡ true → AllIn (length group.now) group.now }
{
    let mut everyone = true;
    for byte in group {
        everyone &= *byte == 1;
    }
    everyone
}

// Whether everyone is in A and in B.
fn are_everyone(links: &Within) -> bool
    ensures in_a { result ≡ true → AllIn (graph_of links.now.file.bytes.now).order links.now.a.now }
    ensures in_b { result ≡ true → AllIn (graph_of links.now.file.bytes.now).order links.now.b.now }
{
    let n = order_of(links.file.bytes);
    is_everyone(&links.a[0..n]) && is_everyone(&links.b[0..n])
}

// The edges from A to B at the front of the list, in order, and how many they are. An edge is put first and counted then, so that there is no
// branch.
fn pick_edges(links: &Within, edges: &mut [u16]) -> usize
    requires { (graph_of links.now.file.bytes.now).size ≤ length edges.old }
    ensures list { ListOf (within (graph_of links.now.file.bytes.now) (group_of links.now.a.now) (group_of links.now.b.now)) edges.new result }
    ensures few { result ≤ (graph_of links.now.file.bytes.now).size }
    ensures length { length edges.new ≡ length edges.old }
{
    let mut count = 0;
    for edge in 0..size_of(links.file.bytes) {
        edges[count] = edge as u16;
        count += usize::from(is_between(&links.file, edge, links.a, links.b));
    }
    count
}

// The same. Where everyone is in both groups, as most calls have it, all edges are counted up without a look at any of them.
pub fn list_edges(links: &Within, edges: &mut [u16]) -> usize
    requires { (graph_of links.now.file.bytes.now).size ≤ length edges.old }
    ensures list { ListOf (within (graph_of links.now.file.bytes.now) (group_of links.now.a.now) (group_of links.now.b.now)) edges.new result }
    ensures few { result ≤ (graph_of links.now.file.bytes.now).size }
    ensures length { length edges.new ≡ length edges.old }
{
    if !are_everyone(links) {
        return pick_edges(links, edges);
    }
    let size = size_of(links.file.bytes);
    count_up(&mut edges[0..size]);
    size
}
