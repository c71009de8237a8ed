// A file by the old rule, which is of version 1, written with its edges in ascending order.
ghost use Rattle.calls.specs.Calls.{OrderCall};

use crate::puts::put_file;
use crate::writes::write_accepted;
use checking::{accept, check_old};
use network::{MOST_LINKS, Refusal, link_at, size_of};

// A file that is not known to ascend: the check by the old rule leaves the order that it needed.
fn sort_file(file: &[u8], out: &mut [u8]) -> Result<usize, Refusal>
    ensures { OrderCall file.now out.old out.new result }
{
    let mut sorted = [0u16; MOST_LINKS];
    let file = check_old(file, &mut sorted)?;
    let size = size_of(file.bytes);
    if out.len() < link_at(file.stride, size) {
        return Err(Refusal::Table);
    }
    put_file(&file, 1, &sorted[0..size], out);
    Ok(size)
}

// 02, wish 7: the conversion of a stored file. One that is in order already is written as it stands.
pub fn order(file: &[u8], out: &mut [u8]) -> Result<usize, Refusal>
    ensures { OrderCall file.now out.old out.new result }
{
    match accept(file, 1) {
        Some(file) => write_accepted(&file, out),
        None => sort_file(file, out),
    }
}
