// The check call.
ghost use Rattle.calls.specs.Calls.{CheckCall};

use checking::check_file;
use network::{Extent, Refusal, order_of, size_of};

// 01: the check of a file.
pub fn check(file: &[u8]) -> Result<Extent, Refusal>
    ensures { CheckCall file.now result }
{
    let file = check_file(file)?;
    Ok(Extent {
        order: order_of(file.bytes),
        size: size_of(file.bytes),
    })
}
