// The links of one set copied to another. Set 0 is the links present, set x + 1 those of name x.
// Each says how long the table is: a struct with the lent table in it would have to say of each copy that its table stays the one lent.
ghost use Rattle.std.specs.Prelude.{◌+◌, ◌≤◌, length};
ghost use Rattle.network.specs.File.{most_links};
ghost use Rattle.journal.specs.Tabled.{work_links, CopiedSet};

use crate::Name;

// The links present copied to those of a name.
pub fn copy_out(work: &mut [[u16; 2]], name: Name, size: usize)
    requires room { work_links ≤ length work.old }
    requires most { size ≤ most_links }
    ensures { CopiedSet work.old work.new 0 (name + 1) size }
{
    let (present, named) = work.split_at_mut(name.start());
    named[..size].copy_from_slice(&present[..size]);
}

// The links of a name copied to those present, which is the other way round.
pub fn copy_back(work: &mut [[u16; 2]], name: Name, size: usize)
    requires room { work_links ≤ length work.old }
    requires most { size ≤ most_links }
    ensures { CopiedSet work.old work.new (name + 1) 0 size }
{
    let (present, named) = work.split_at_mut(name.start());
    present[..size].copy_from_slice(&named[..size]);
}
