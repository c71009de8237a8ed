// The one way in: the file and the tables are checked, and the links from A to B are laid into the work table.
ghost use Rattle.std.specs.Prelude.{◌*◌, ◌≤◌, ◌||◌, ◌≡◌, ltb, length, None, Some, IfErr, IfOk, OnOk};
ghost use Rattle.network.specs.File.{most_members, graph_of};
ghost use Rattle.network.specs.Refusals.{short_groups, work_length};
ghost use Rattle.cores.specs.Entries.{later_refusal, EntryCall};

use checking::{are_groups, check_file};
use filling::{Within, fill_within};
use network::{AcceptedFile, Extent, Refusal, order_of, size_of, work_length};

// Whether a table is short for n members and m links: of A, of B, of one of two groups, or the work table.
fn is_short(extent: Extent, a: &[u8], b: &[u8], s: usize, t: usize, work: usize) -> bool
    ensures { result ≡ (short_groups extent.order a.now b.now || ltb s extent.order || ltb t extent.order || ltb work (work_length extent.order extent.size)) }
{
    let n = extent.order;
    let needed = work_length(n, extent.size);
    a.len() < n || b.len() < n || s < n || t < n || work < needed
}

// What comes after the file's own tests, for n members and m links: 9, then 11, then 12 for a number that is asked for. Where there are no groups to
// write, the work table's length stands for theirs, which is never the one that is short: an `Option` of the two would be a second case in
// `later_refusal` and in each law on it.
#[tactic(auto, using(network::proofs::Groups::groups_cut), unfolding(crate::specs::Entries::later_refusal))]
pub fn check_later(
    ask: Option<u16>,
    extent: Extent,
    a: &[u8],
    b: &[u8],
    s: usize,
    t: usize,
    work: usize,
) -> Result<(), Refusal>
    ensures refused { IfErr result (λ r. later_refusal ask extent.order extent.size a.now b.now s t work ≡ Some r) }
    ensures passed { OnOk result (later_refusal ask extent.order extent.size a.now b.now s t work ≡ None) }
{
    if is_short(extent, a, b, s, t, work) {
        return Err(Refusal::Table);
    }
    let n = extent.order;
    if !are_groups(&a[0..n], &b[0..n]) {
        return Err(Refusal::Group);
    }
    if ask == Some(0) {
        return Err(Refusal::Zero);
    }
    Ok(())
}

// The same of an accepted file, and where it is passed the links from A to B.
#[tactic(auto, using(crate::proofs::WayIn::tables_long))]
pub fn check_within<'a>(
    ask: Option<u16>,
    file: &AcceptedFile<'a>,
    a: &'a [u8],
    b: &'a [u8],
    s: usize,
    t: usize,
    work: usize,
) -> Result<Within<'a>, Refusal>
    ensures refused { IfErr result (λ r. later_refusal ask (graph_of file.now.bytes.now).order (graph_of file.now.bytes.now).size a.now b.now s t work ≡ Some r) }
    ensures none { OnOk result (later_refusal ask (graph_of file.now.bytes.now).order (graph_of file.now.bytes.now).size a.now b.now s t work ≡ None) }
    ensures passed { IfOk result (λ w. (w.file.bytes.now ≡ file.now.bytes.now) × (w.a.now ≡ a.now) × (w.b.now ≡ b.now)) }
{
    let extent = Extent {
        order: order_of(file.bytes),
        size: size_of(file.bytes),
    };
    check_later(ask, extent, a, b, s, t, work)?;
    Ok(Within { file: *file, a, b })
}

// Every call on cores begins here: the file, then the lengths of A and B, of two groups and of the work table, then the bytes of A and B, then
// the number that is asked for, if one is. Where nothing is refused, the work table holds the links from A to B; how many they are is the size. The
// table of degrees, with which every peel begins, is the call's own: the lent one is full.
pub fn enter(
    file: &[u8],
    a: &[u8],
    b: &[u8],
    ask: Option<u16>,
    s: usize,
    t: usize,
    work: &mut [u16],
    degrees: &mut [u16],
) -> Result<Extent, Refusal>
    requires places { 2 * most_members ≤ length degrees.old }
    ensures { EntryCall file.now a.now b.now ask s t work.old work.new degrees.new result }
{
    let file = check_file(file)?;
    let links = check_within(ask, &file, a, b, s, t, work.len())?;
    let size = fill_within(&links, work, degrees);
    Ok(Extent {
        order: order_of(file.bytes),
        size,
    })
}
