// The groups of a core inside A and B. They are read off a core of the links from A to B alone, and for a need of at least 1 they lie inside as they
// are: whoever is in has such a link. For a need of 0 that core has everyone, and the group is A, or B, itself.
ghost use Rattle.std.specs.Prelude.{◌≤◌, length};
ghost use Rattle.cores.specs.Entries.{Copied, KeptInside};

// A group written to another table, and how many members it has.
fn copy_group(from: &[u8], group: &mut [u8]) -> usize
    requires { length from.now ≤ length group.old }
    ensures { Copied (length from.now) from.now group.old group.new result }
{
    let mut count = 0;
    // By a `zip` a proof would know both tables through the iterator's state alone.
    for (u, byte) in from.iter().enumerate() {
        let is_in = *byte == 1;
        group[u] = u8::from(is_in);
        count += usize::from(is_in);
    }
    count
}

// The group of a core inside another, and how many it has, by what each of it needs: as it was found, so many, or the other itself.
pub fn keep_inside(need: u16, other: &[u8], group: &mut [u8], found: usize) -> usize
    requires { length other.now ≤ length group.old }
    ensures { KeptInside need (length other.now) other.now group.old group.new found result }
{
    if need != 0 {
        return found;
    }
    copy_group(other, group)
}
