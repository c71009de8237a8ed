// The edges of a list, written as a file.
ghost use Rattle.std.specs.Prelude.{◌≡◌, ◌≤◌, length, get_or};
ghost use Rattle.std.proofs.lemmas.List.Edits.{sets};
ghost use Rattle.graph.specs.Listed.{Lists, listed};
ghost use Rattle.network.specs.File.{most_links, stride, link_at, kind_at, graph_of};
ghost use Rattle.network.specs.Bytes.{edges_bytes, standing};

use network::{Side, SoundFile, end_at, kind_at, link_at, order_of, put_header, put_link, stride};

// Every edge, one after the other.
#[tactic(auto, unfolding(graph::specs::Range::flat))]
fn put_edges(file: &SoundFile, version: u16, list: &[u16], out: &mut [u8])
    requires lists { Lists (graph_of file.now.bytes.now) list.now }
    requires most { length list.now ≤ most_links }
    requires room { link_at (stride version) (length list.now) ≤ length out.old }
    ensures { out.new ≡ sets out.old 9 (edges_bytes version (λ i. kind_at file.now.bytes.now (get_or list.now i 0)) (listed (graph_of file.now.bytes.now) list.now)) }
{
    let bytes = stride(usize::from(version));
    for (i, edge) in list.iter().enumerate() {
        let edge = usize::from(*edge);
        let source = end_at(file.bytes, file.stride, Side::Source, edge);
        let target = end_at(file.bytes, file.stride, Side::Target, edge);
        let kind = kind_at(file.bytes, file.stride, edge);
        put_link(
            out,
            version,
            link_at(bytes, i),
            source as u16,
            target as u16,
            kind,
        );
    }
}

// The file of these edges alone, as they stand in the list, of a version.
pub fn put_file(file: &SoundFile, version: u16, list: &[u16], out: &mut [u8])
    requires lists { Lists (graph_of file.now.bytes.now) list.now }
    requires most { length list.now ≤ most_links }
    requires room { link_at (stride version) (length list.now) ≤ length out.old }
    ensures { out.new ≡ sets out.old 0 (standing version (λ i. kind_at file.now.bytes.now (get_or list.now i 0)) (listed (graph_of file.now.bytes.now) list.now)) }
{
    put_header(out, version, order_of(file.bytes) as u16, list.len() as u16);
    put_edges(file, version, list, out);
}
