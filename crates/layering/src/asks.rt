// The layers call.
ghost use Rattle.std.specs.Prelude.{◌≡◌, None, Some, IfErr, IfOk, OnOk};
ghost use Rattle.network.specs.Refusals.{layers_refusal};
ghost use Rattle.layering.specs.Calls.{LayersCall};

use crate::takes::layer_links;
use checking::check_file;
use cores::check_within;
use filling::Within;
use network::{Refusal, order_of, size_of, work_length};

// The file's own tests, then 9 by the length of the layer table, then what is refused of A, B and the work table. It has no groups to write: for
// these the length of the work table stands, which is never the one that is short.
fn check_layers<'a>(
    file: &'a [u8],
    a: &'a [u8],
    b: &'a [u8],
    layers: usize,
    work: usize,
) -> Result<Within<'a>, Refusal>
    ensures refused { IfErr result (λ r. layers_refusal file.now a.now b.now layers work ≡ Some r) }
    ensures none { OnOk result (layers_refusal file.now a.now b.now layers work ≡ None) }
    ensures passed { IfOk result (λ w. (w.file.bytes.now ≡ file.now) × (w.a.now ≡ a.now) × (w.b.now ≡ b.now)) }
{
    let file = check_file(file)?;
    if layers < size_of(file.bytes) {
        return Err(Refusal::Table);
    }
    check_within(None, &file, a, b, work, work, work)
}

// 02, wish 1: the layers, inside A and B. The tables are handed on without what lies past the entries that are needed.
#[tactic(auto, using(crate::proofs::LayersCalls::layers_ready))]
pub fn layers(
    file: &[u8],
    a: &[u8],
    b: &[u8],
    layers: &mut [u16],
    work: &mut [u16],
) -> Result<usize, Refusal>
    ensures { LayersCall file.now a.now b.now layers.old layers.new work.old work.new result }
{
    let links = check_layers(file, a, b, layers.len(), work.len())?;
    let size = size_of(links.file.bytes);
    let needed = work_length(order_of(links.file.bytes), size);
    Ok(layer_links(&links, &mut layers[0..size], &mut work[0..needed]))
}
