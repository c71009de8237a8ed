// A set of links, written as a network file of version 1.
ghost use Rattle.std.specs.Prelude.{◌≡◌, ◌<◌, ◌≤◌, length};
ghost use Rattle.std.proofs.lemmas.List.Edits.{sets};
ghost use Rattle.graph.specs.Range.{flat};
ghost use Rattle.network.specs.File.{most_links, stride, link_at};
ghost use Rattle.network.specs.Bytes.{standing};
ghost use Rattle.journal.specs.Listed.{table_graph, pair_bytes};

use network::{link_at, put_header, put_link, stride};

// Every link, one after the other, of kind 0 (02, wish 13): `put_edges` of calls writes those of a file, by a list of their numbers, and reads each
// end from bytes.
#[tactic(auto, unfolding(graph::specs::Range::flat))]
fn put_links(set: &[[u16; 2]], out: &mut [u8])
    requires most { length set.now ≤ most_links }
    requires room { link_at (stride 1) (length set.now) ≤ length out.old }
    ensures { out.new ≡ sets out.old 9 (flat (pair_bytes set.now) (length set.now)) }
{
    let bytes = stride(1);
    for (i, link) in set.iter().enumerate() {
        let [source, target] = *link;
        put_link(out, 1, link_at(bytes, i), source, target, 0);
    }
}

// The file.
pub fn put_set(set: &[[u16; 2]], order: usize, out: &mut [u8])
    requires most { length set.now ≤ most_links }
    requires room { link_at (stride 1) (length set.now) ≤ length out.old }
    requires few { order < 65536 }
    ensures { out.new ≡ sets out.old 0 (standing 1 (λ e. 0) (table_graph order set.now)) }
{
    put_header(out, 1, order as u16, set.len() as u16);
    put_links(set, out);
}
