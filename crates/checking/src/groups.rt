// Whether tables hold groups.
ghost use Rattle.std.specs.Prelude.{◌&&◌, ◌≡◌, length};
ghost use Rattle.network.specs.Groups.{is_group};

// Whether each byte is 0 or 1. It is told without a branch, many bytes at a time.
fn is_group(group: &[u8]) -> bool
    ensures { result ≡ is_group (length group.now) group.now }
{
    let mut fits = true;
    for byte in group {
        fits &= *byte <= 1;
    }
    fits
}

// Whether this is so of two groups.
pub fn are_groups(s: &[u8], t: &[u8]) -> bool
    ensures { result ≡ (is_group (length s.now) s.now && is_group (length t.now) t.now) }
{
    is_group(s) && is_group(t)
}
