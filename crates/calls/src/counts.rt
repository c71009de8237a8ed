// The edges between two groups, and the groups' sizes.
ghost use Rattle.std.specs.Prelude.{◌≡◌, ◌<◌, ◌≤◌, length};
ghost use Rattle.graph.specs.Range.{sum, if};
ghost use Rattle.graph.specs.Graph.{edges};
ghost use Rattle.network.specs.File.{graph_of};
ghost use Rattle.network.specs.Groups.{group_of};
ghost use Rattle.calls.specs.Calls.{CountCall};

use checking::{are_groups, check_file};
use network::{AcceptedFile, Refusal, Side, Totals, end_at, order_of, size_of, weight_at};

// 01: the size of a group. It is counted in 16 bits, many bytes at a time.
fn group_size(group: &[u8]) -> usize
    requires { length group.now < 65536 }
    ensures { result ≡ sum (λ u. if (group_of group.now u) 1) (length group.now) }
{
    let mut total: u16 = 0;
    for byte in group {
        total += u16::from(*byte == 1);
    }
    usize::from(total)
}

// 01, and 02, wish 13: E(S,T), by the weights of links. A weight is taken whole or not at all by a product, so that there is no branch.
fn edges_between(file: &AcceptedFile, s: &[u8], t: &[u8]) -> u32
    requires s_long { (graph_of file.now.bytes.now).order ≤ length s.now }
    requires t_long { (graph_of file.now.bytes.now).order ≤ length t.now }
    ensures { result ≡ edges (graph_of file.now.bytes.now) (group_of s.now) (group_of t.now) }
{
    let size = size_of(file.bytes);
    let mut total: u32 = 0;
    for e in 0..size {
        let source = end_at(file.bytes, file.stride, Side::Source, e);
        let target = end_at(file.bytes, file.stride, Side::Target, e);
        let weight = u32::from(weight_at(file.bytes, file.stride, e));
        total += weight * u32::from((s[source] == 1) & (t[target] == 1));
    }
    total
}

// 01: the count call.
pub fn count(file: &[u8], s: &[u8], t: &[u8]) -> Result<Totals, Refusal>
    ensures { CountCall file.now s.now t.now result }
{
    let file = check_file(file)?;
    let n = order_of(file.bytes);
    if s.len() < n || t.len() < n {
        return Err(Refusal::Table);
    }
    let s = &s[0..n];
    let t = &t[0..n];
    if !are_groups(s, t) {
        return Err(Refusal::Group);
    }
    Ok(Totals {
        edges: edges_between(&file, s, t),
        sources: group_size(s),
        targets: group_size(t),
    })
}
