// A network file, written: its header and its edges, from numbers.
ghost use Rattle.std.specs.Prelude.{◌++◌, ◌≡◌, ◌+◌, ◌≤◌, length};
ghost use Rattle.std.proofs.lemmas.List.Edits.{sets};
ghost use Rattle.network.specs.Bytes.{u16, header, edge_bytes, kind_bytes};
ghost use Rattle.network.specs.File.{stride, mark};

// A number at a byte, low byte first.
fn put(out: &mut [u8], at: usize, number: u16)
    requires { at + 2 ≤ length out.old }
    ensures { out.new ≡ sets out.old at (u16 number) }
{
    out[at..at + 2].copy_from_slice(&number.to_le_bytes());
}

fn put_mark(out: &mut [u8])
    requires { 3 ≤ length out.old }
    ensures { out.new ≡ sets out.old 0 mark }
{
    out[0..3].copy_from_slice(b"VCH");
}

// Mark, version, n and m.
pub fn put_header(out: &mut [u8], version: u16, order: u16, size: u16)
    requires { 9 ≤ length out.old }
    ensures { out.new ≡ sets out.old 0 (header version order size) }
{
    put_mark(out);
    put(out, 3, version);
    put(out, 5, order);
    put(out, 7, size);
}

// An edge: source, then target.
pub fn put_edge(out: &mut [u8], at: usize, source: u16, target: u16)
    requires { at + 4 ≤ length out.old }
    ensures { out.new ≡ sets out.old at (edge_bytes source target) }
{
    put(out, at, source);
    put(out, at + 2, target);
}

// A link of a version: its edge, and in version 2 its kind.
pub fn put_link(out: &mut [u8], version: u16, at: usize, source: u16, target: u16, kind: u8)
    requires { at + stride version ≤ length out.old }
    ensures { out.new ≡ sets out.old at (edge_bytes source target ++ kind_bytes version kind) }
{
    put_edge(out, at, source, target);
    if version == 2 {
        out[at + 4] = kind;
    }
}
