// What the work table is filled from: the links of a file from one group to another, and a list of its edges.
ghost use Rattle.std.specs.Prelude.{ℕ, ◌≤◌, length};
ghost use Rattle.graph.specs.Listed.{Lists};
ghost use Rattle.network.specs.File.{most_links, graph_of};
ghost use Rattle.filling.specs.Listed.{times};

use network::AcceptedFile;

// 02, wish 5: the links of a file from A to B, two tables that have a byte for each member.
#[derive(Clone, Copy, Debug, PartialEq, Eq)]
pub struct Within<'a> {
    pub file: AcceptedFile<'a>,
    pub a: &'a [u8],
    pub b: &'a [u8],
    pub ghost a_long: { (graph_of file.bytes.now).order ≤ length a.now },
    pub ghost b_long: { (graph_of file.bytes.now).order ≤ length b.now },
}

// Edges of a file, in any order, each once: so the degrees are those of some of its links, and fit.
#[derive(Clone, Copy, Debug, PartialEq, Eq)]
pub struct EdgeList<'a> {
    pub file: AcceptedFile<'a>,
    pub edges: &'a [u16],
    pub ghost lists: { Lists (graph_of file.bytes.now) edges.now },
    pub ghost once: { (e : ℕ) → times edges.now (length edges.now) e ≤ 1 },
    pub ghost few: { length edges.now ≤ most_links },
}
