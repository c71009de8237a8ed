// A program that reads standard input to its end and writes one text for it.
#![tactic(auto)]

ghost use Rattle.std.specs.Prelude.{◌≡◌, ◌<◌, ◌≤◌, ◌^◌, length};

use reading::read_input;

fn complain(rt: &impl Eprint, name: &str, what: &str) {
    let _ = eprintln!(rt; "{name}: {what}");
}

// Reads standard input, up to INPUT bytes, has `render` lay a text for it at the start of a buffer of ROOM bytes and answer the text's length, and
// writes the text in one piece. What cannot be read or written is told on standard error, under the program's name. INPUT is one byte more than the
// longest file, so that a longer input is seen to be too long.
pub fn run<const INPUT: usize, const ROOM: usize, F: FnOnce(&[u8], &mut [u8]) -> usize>(
    rt: &HostRuntime,
    name: &str,
    render: F,
)
    requires room { (INPUT < 2 ^ 63) × (ROOM < 2 ^ 63) }
    requires takes { (input : _) (out : _) → length out.now ≡ ROOM → F.pre render input out }
    requires within { (input : _) (out : _) (size : _) (after : _) → length out.now ≡ ROOM → F.post render input out size after → size ≤ length after.now }
{
    let mut input = [0u8; INPUT];
    let Ok(length) = read_input(&mut rt.stdin(), &mut input) else {
        complain(rt, name, "standard input cannot be read");
        return;
    };
    let mut out = [0u8; ROOM];
    let size = render(&input[..length], &mut out);
    if rt.write_all(&out[..size]).is_err() {
        complain(rt, name, "standard output cannot be written");
    }
}
