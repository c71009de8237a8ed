// The layers, one after the other. A list has the edges that are in no layer yet, and the work table is filled from it anew for each layer, so
// that a layer costs what is still in.
ghost use Rattle.std.specs.Prelude.{◌≡◌, ℕ, ◌+◌, ◌*◌, ◌<◌, ◌≤◌, length, get_or};
ghost use Rattle.graph.specs.Layers.{Layering};
ghost use Rattle.graph.specs.Within.{within};
ghost use Rattle.network.specs.File.{most_members, most_links, graph_of};
ghost use Rattle.network.specs.Groups.{group_of};
ghost use Rattle.network.specs.Refusals.{work_length};
ghost use Rattle.graph.specs.Listed.{Lists};
ghost use Rattle.filling.specs.Listed.{times};
ghost use Rattle.layering.specs.Calls.{layer_in};
ghost use Rattle.layering.specs.Takings.{TakenFrom, Sifted, OneMore};

use filling::{EdgeList, Within, fill, is_between, list_edges};
use network::{AcceptedFile, Extent, MOST_LINKS, MOST_MEMBERS, order_of};
use ordering::clear;
use peeling::MOST_PLACES;
use searching::find_in;

// Every edge of the list from S to T put into a layer.
fn take_edges(list: &EdgeList, s: &[u8], t: &[u8], layer: u16, layers: &mut [u16])
    requires s_long { (graph_of list.now.file.bytes.now).order ≤ length s.now }
    requires t_long { (graph_of list.now.file.bytes.now).order ≤ length t.now }
    requires room { (graph_of list.now.file.bytes.now).size ≤ length layers.old }
    ensures { TakenFrom (graph_of list.now.file.bytes.now) (group_of s.now) (group_of t.now) layer list.now.edges.now (length list.now.edges.now) layers.old layers.new }
{
    for edge in list.edges {
        let edge = usize::from(*edge);
        if is_between(&list.file, edge, s, t) {
            layers[edge] = layer;
        }
    }
}

// The edges of the list that are in no layer moved to its front, in order, and how many they are. An edge is moved first and counted then, so that
// there is no branch.
fn sift(layers: &[u16], edges: &mut [u16]) -> usize
    requires { (i : ℕ) → i < length edges.old → get_or edges.old i 0 < length layers.now }
    ensures { Sifted layers.now edges.old edges.new (length edges.old) result }
{
    let mut left = 0;
    // The list is read and written in one pass, so that both places are indices.
    for i in 0..edges.len() {
        let edge = edges[i];
        edges[left] = edge;
        left += usize::from(layers[usize::from(edge)] == 0);
    }
    left
}

// One layer more, after those that are made: the edges of the list, which are in no layer, between the two groups of their finding. The others
// stay at the front of the list, and their number is returned.
fn take_layer(
    file: &AcceptedFile,
    made: usize,
    layers: &mut [u16],
    edges: &mut [u16],
    work: &mut [u16],
    degrees: &mut [u16],
) -> usize
    requires made { made ≤ most_links }
    requires lists { Lists (graph_of file.now.bytes.now) edges.old }
    requires once { (e : ℕ) → times edges.old (length edges.old) e ≤ 1 }
    requires some { 1 ≤ length edges.old }
    requires few { length edges.old ≤ (graph_of file.now.bytes.now).size }
    requires room { (graph_of file.now.bytes.now).size ≤ length layers.old }
    requires work_room { work_length (graph_of file.now.bytes.now).order (graph_of file.now.bytes.now).size ≤ length work.old }
    requires places { 2 * most_members ≤ length degrees.old }
    ensures one_more { OneMore (graph_of file.now.bytes.now) made layers.old layers.new edges.old edges.new result }
    ensures length { length work.new ≡ length work.old }
{
    let mut s = [0u8; MOST_MEMBERS];
    let mut t = [0u8; MOST_MEMBERS];
    let list = EdgeList {
        file: *file,
        edges: &*edges,
    };
    fill(&list, work, degrees);
    let extent = Extent {
        order: order_of(file.bytes),
        size: list.edges.len(),
    };
    find_in(work, degrees, extent, &mut s, &mut t);
    take_edges(&list, &s, &t, (made + 1) as u16, layers);
    sift(layers, edges)
}

// Every edge from A to B put into its layer, every other one into none, and the number of layers.
pub fn layer_links(links: &Within, layers: &mut [u16], work: &mut [u16]) -> usize
    requires length { length layers.old ≡ (graph_of links.now.file.bytes.now).size }
    requires room { work_length (graph_of links.now.file.bytes.now).order (graph_of links.now.file.bytes.now).size ≤ length work.old }
    ensures layering { Layering (within (graph_of links.now.file.bytes.now) (group_of links.now.a.now) (group_of links.now.b.now)) (layer_in layers.new) result }
    ensures lengths { (length layers.new ≡ length layers.old) × (length work.new ≡ length work.old) }
{
    let mut edges = [0u16; MOST_LINKS];
    let mut degrees = [0u16; MOST_PLACES];
    clear(layers);
    let mut left = list_edges(links, &mut edges);
    let mut made = 0;
    while 0 < left {
        left = take_layer(
            &links.file,
            made,
            layers,
            &mut edges[0..left],
            work,
            &mut degrees,
        );
        made += 1;
    }
    made
}
