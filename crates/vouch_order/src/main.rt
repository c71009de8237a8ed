// vouch-order: reads a network file by the old rule from standard input, and writes it with its links in order, or prints why it is refused.
#![tactic(auto)]

ghost use Rattle.std.specs.Prelude.{◌≤◌, ◌≡◌, length};
ghost use Rattle.network.specs.File.{most_links, link_at};
ghost use Rattle.report.specs.Text.{Rendered};
ghost use Rattle.vouch_order.specs.Converted.{Converts};

use network::link_at;

// Puts what is to be written for a file at the start of the buffer, and answers its length: of version 1, with four bytes a link.
fn render(file: &[u8], out: &mut [u8]) -> usize
    requires { link_at 4 most_links ≤ length out.old }
    ensures { Rendered (Converts file.now) out.old out.new result }
{
    match calls::order(file, out) {
        Ok(size) => link_at(4, size),
        Err(refusal) => report::put_refusal(refusal, out),
    }
}

fn main(rt: HostRuntime) {
    filter::run::<32778, 32777, _>(&rt, "vouch-order", render);
}
