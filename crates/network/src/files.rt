// A network file, read: its header and the ends of its edges. A file's bytes and the place of one are told apart: nothing is known of both together.
// What is read is a `usize` that fits 16 bits, since nearly all who read it index by it: of a `u16` each would make one.
ghost use Rattle.std.specs.Prelude.{◌≡◌, ◌+◌, ◌*◌, ◌<◌, ◌≤◌, length, get_or};
ghost use Rattle.network.specs.File.{most_weight, u16_at, version_of, stride, stride_of, link_at, kind_at, graph_of, marked};
ghost use Rattle.network.specs.Accepted.{Sound, Holds};
ghost use Rattle.network.specs.Refusals.{work_length};
ghost use Rattle.network.specs.Sides.{seen};

use crate::{Side, WEIGHTS};

// The number of 16 bits at a byte, low byte first.
pub fn u16_at(file: &[u8], at: usize) -> usize
    requires { at + 1 < length file.now }
    ensures { (result ≡ u16_at file.now at) × (result < 65536) }
{
    usize::from(u16::from_le_bytes([file[at], file[at + 1]]))
}

// Whether a file begins with a mark of three bytes.
pub fn is_marked(file: &[u8], mark: &[u8]) -> bool
    requires { (3 ≤ length file.now) × (3 ≤ length mark.now) }
    ensures { result ≡ marked mark.now file.now }
{
    file[0..3] == mark[0..3]
}

// A byte of the file, or 0 past its end.
fn byte_at(file: &[u8], at: usize) -> u8
    ensures { result ≡ get_or file.now at 0 }
{
    file.get(at).copied().unwrap_or(0)
}

// The number of 16 bits at a byte, where the bytes past the end count as 0.
fn number_at(file: &[u8], at: usize) -> usize
    requires { at < 65536 }
    ensures { (result ≡ u16_at file.now at) × (result < 65536) }
{
    usize::from(u16::from_le_bytes([byte_at(file, at), byte_at(file, at + 1)]))
}

// 01: n. Zero bytes count as the file without vertices and edges (02, wish 3), so nothing past the end is read.
pub fn order_of(file: &[u8]) -> usize
    ensures { (result ≡ (graph_of file.now).order) × (result < 65536) }
{
    number_at(file, 5)
}

// 01: m, in the same way.
pub fn size_of(file: &[u8]) -> usize
    ensures { (result ≡ (graph_of file.now).size) × (result < 65536) }
{
    number_at(file, 7)
}

// 01: the version. Zero bytes count as a file of version 1.
#[tactic(auto, unfolding(crate::specs::File::version_of))]
pub fn version_of(file: &[u8]) -> usize
    ensures { (result ≡ version_of file.now) × (result < 65536) }
{
    if file.is_empty() {
        return 1;
    }
    number_at(file, 3)
}

// 02: how many bytes an edge has in a version.
#[tactic(auto, unfolding(crate::specs::File::stride))]
pub fn stride(version: usize) -> usize
    ensures { (result ≡ stride version) × (result ≤ 5) }
{
    if version == 2 { 5 } else { 4 }
}

// Where an edge starts in a file in which each has so many bytes; past the last one it is the file's length.
pub fn link_at(stride: usize, edge: usize) -> usize
    requires { (stride ≤ 5) × (edge < 65536) }
    ensures { result ≡ link_at stride edge }
{
    9 + stride * edge
}

// The vertex at one side of an edge.
pub fn end_at(file: &[u8], stride: usize, side: Side, edge: usize) -> usize
    requires { Holds file.now edge × (stride ≡ stride_of file.now) }
    ensures { (result ≡ (seen side (graph_of file.now)).source edge) × (result < 65536) }
{
    let at = link_at(stride, edge);
    match side {
        Side::Source => u16_at(file, at),
        Side::Target => u16_at(file, at + 2),
    }
}

// 02, wish 13: the kind of an edge; in version 1 it is 0.
pub fn kind_at(file: &[u8], stride: usize, edge: usize) -> u8
    requires { Holds file.now edge × (stride ≡ stride_of file.now) }
    ensures { result ≡ kind_at file.now edge }
{
    if stride != 5 {
        return 0;
    }
    file[link_at(stride, edge) + 4]
}

// 02, wish 13: the weight of an edge, by its kind.
pub fn weight_at(file: &[u8], stride: usize, edge: usize) -> u16
    requires { Sound file.now × (edge < (graph_of file.now).size) × (stride ≡ stride_of file.now) }
    ensures { (result ≡ (graph_of file.now).weight edge) × (1 ≤ result) × (result ≤ most_weight) }
{
    WEIGHTS[usize::from(kind_at(file, stride, edge))]
}

// 01: the length of the work table.
pub fn work_length(order: usize, size: usize) -> usize
    requires { (order < 65536) × (size < 65536) }
    ensures { result ≡ work_length order size }
{
    2 * size + 6 * order + 2
}
