// The writer: an accepted file as it stands, since its edges ascend.
// A file and its output are the parameters of the calls, here and in `orders`: what hands them on has them as they come,
// and each says that the output, which may be longer, has room.
ghost use Rattle.std.specs.Prelude.{◌≡◌, ◌≤◌, length};
ghost use Rattle.std.proofs.lemmas.List.Edits.{sets};
ghost use Rattle.network.specs.File.{file_length};
ghost use Rattle.network.specs.Bytes.{ordered};
ghost use Rattle.network.specs.Accepted.{Accepted};
ghost use Rattle.calls.specs.Calls.{WriteCall};

use checking::check_file;
use network::{AcceptedFile, Refusal, link_at, put_header, size_of};

// An accepted file is the written file itself; for zero bytes that is the header alone. It takes the bytes: of bytes in a struct no proof knows that
// each fits 8 bits.
fn put_itself(file: &[u8], out: &mut [u8])
    requires accepted { Accepted file.now }
    requires room { file_length file.now ≤ length out.old }
    ensures { out.new ≡ sets out.old 0 (ordered file.now) }
{
    if file.is_empty() {
        put_header(out, 1, 0, 0);
    } else {
        out[0..file.len()].copy_from_slice(file);
    }
}

// An accepted file, written where the output has room for it.
pub fn write_accepted(file: &AcceptedFile, out: &mut [u8]) -> Result<usize, Refusal>
    ensures { WriteCall file.now.bytes.now out.old out.new result }
{
    let size = size_of(file.bytes);
    if out.len() < link_at(file.stride, size) {
        return Err(Refusal::Table);
    }
    put_itself(file.bytes, out);
    Ok(size)
}

// 01: the writer.
pub fn write(file: &[u8], out: &mut [u8]) -> Result<usize, Refusal>
    ensures { WriteCall file.now out.old out.new result }
{
    write_accepted(&check_file(file)?, out)
}
