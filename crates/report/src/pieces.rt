// The first two append a text to one that has room for it. What `write!` puts there is promised only where it answers `Ok`, which nothing promises, so
// the parts are pushed.
ghost use Rattle.std.specs.Prelude.{◌≡◌, ◌+◌, ◌≤◌, ◌++◌, length};
ghost use Rattle.report.specs.Text.{Begins, spaced, label};

use arrayvec::ArrayString;
use itoa::Buffer;

#[tactic(auto, using(crate::proofs::Decimal::decimal_printed))]
pub fn put_spaced<const N: usize>(text: &mut ArrayString<N>, n: usize)
    requires { length text.old.bytes + length (spaced n) ≤ N }
    ensures { text.new.bytes ≡ text.old.bytes ++ spaced n }
{
    text.push_str(" ");
    text.push_str(Buffer::new().format(n));
}

pub fn put_label<const N: usize>(text: &mut ArrayString<N>, word: &str, n: usize)
    requires { length text.old.bytes + length (label word.now n) ≤ N }
    ensures { text.new.bytes ≡ text.old.bytes ++ label word.now n }
{
    text.push_str(word);
    put_spaced(text, n);
}

// Lays the text at the start of the buffer, and answers its length.
pub fn lay(text: &str, out: &mut [u8]) -> usize
    requires { length text.now ≤ length out.old }
    ensures { Begins out.old text.now out.new result }
{
    out[..text.len()].copy_from_slice(text.as_bytes());
    text.len()
}
