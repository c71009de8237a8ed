// The public calls for C: a slice comes as a pointer and a length, an answer goes back as a struct of 01's numbers. include/cogsplice.h
// declares them, and the order of their parameters is C's interface.
#![tactic(auto)]

mod numbers;
mod rows;

ghost use Rattle.std.specs.Prelude.{◌≡◌};
ghost use Rattle.network.specs.File.{number_told};
ghost use Rattle.network.specs.Refusals.{row_refusal};
ghost use Rattle.calls.specs.Calls.{CheckCall, CountCall, WriteCall, OrderCall};
ghost use Rattle.adjacency.specs.Calls.{by_side, IndexCall};
ghost use Rattle.cores.specs.Calls.{CoreCall, LevelCall, LevelAcrossCall, EqualLevelCall};
ghost use Rattle.finding.specs.Findings.{FindingCall};
ghost use Rattle.finding.specs.Equality.{EqualCall};
ghost use Rattle.layering.specs.Calls.{LayersCall};
ghost use Rattle.harmonic.specs.Calls.{HarmonicCall};
ghost use Rattle.journal.specs.Calls.{JournalCall};
ghost use Rattle.merging.specs.Calls.{CommonCall};
ghost use Rattle.cogsplice_c.specs.Told.{Told, PartOf, side_of, check_numbers, totals_numbers, write_numbers, index_numbers, level_numbers, finding_numbers, layers_numbers, equal_numbers, common_numbers};

use crate::numbers::number_told;
use crate::rows::part_of;
use cogsplice::Side;

// The numbers of the check: n and m.
#[repr(C)]
#[derive(Clone, Copy, Debug, PartialEq, Eq)]
pub struct CheckNumbers {
    pub refusal: u16,
    pub link: u16,
    pub n: usize,
    pub m: usize,
}

// The numbers of the count, of the core and of the harmonic finder: E, |S| and |T|.
#[repr(C)]
#[derive(Clone, Copy, Debug, PartialEq, Eq)]
pub struct TotalsNumbers {
    pub refusal: u16,
    pub link: u16,
    pub edges: u32,
    pub sources: usize,
    pub targets: usize,
}

// The numbers of the calls that write a file, the journal too: m.
#[repr(C)]
#[derive(Clone, Copy, Debug, PartialEq, Eq)]
pub struct WriteNumbers {
    pub refusal: u16,
    pub link: u16,
    pub m: usize,
}

// The numbers of the index.
#[repr(C)]
#[derive(Clone, Copy, Debug, PartialEq, Eq)]
pub struct IndexNumbers {
    pub refusal: u16,
    pub link: u16,
}

// A row, as a part of the lent rows table.
#[repr(C)]
#[derive(Clone, Copy, Debug, PartialEq, Eq)]
pub struct RowNumbers {
    pub start: usize,
    pub length: usize,
    pub refusal: u16,
}

// The numbers of the three level calls.
#[repr(C)]
#[derive(Clone, Copy, Debug, PartialEq, Eq)]
pub struct LevelNumbers {
    pub refusal: u16,
    pub link: u16,
    pub level: usize,
}

// The numbers of the finding.
#[repr(C)]
#[derive(Clone, Copy, Debug, PartialEq, Eq)]
pub struct FindingNumbers {
    pub refusal: u16,
    pub link: u16,
    pub edges: u32,
    pub x: usize,
    pub y: usize,
    pub equal: usize,
    pub sources: usize,
    pub targets: usize,
}

// The number of layers.
#[repr(C)]
#[derive(Clone, Copy, Debug, PartialEq, Eq)]
pub struct LayersNumbers {
    pub refusal: u16,
    pub link: u16,
    pub layers: usize,
}

// Whether two findings are equal.
#[repr(C)]
#[derive(Clone, Copy, Debug, PartialEq, Eq)]
pub struct EqualNumbers {
    pub refusal: u16,
    pub equal: bool,
}

// How many links are in both files, and in one of them only.
#[repr(C)]
#[derive(Clone, Copy, Debug, PartialEq, Eq)]
pub struct CommonNumbers {
    pub refusal: u16,
    pub link: u16,
    pub both: usize,
    pub first_only: usize,
    pub second_only: usize,
}

#[unsafe(no_mangle)]
pub extern "C" fn cogsplice_check(file: &[u8]) -> CheckNumbers
    ensures { Told (CheckCall file.now) check_numbers result }
{
    cogsplice::check(file).into()
}

#[unsafe(no_mangle)]
pub extern "C" fn cogsplice_count(file: &[u8], s: &[u8], t: &[u8]) -> TotalsNumbers
    ensures { Told (CountCall file.now s.now t.now) totals_numbers result }
{
    cogsplice::count(file, s, t).into()
}

#[unsafe(no_mangle)]
pub extern "C" fn cogsplice_write(file: &[u8], out: &mut [u8]) -> WriteNumbers
    ensures { Told (WriteCall file.now out.old out.new) write_numbers result }
{
    cogsplice::write(file, out).into()
}

#[unsafe(no_mangle)]
pub extern "C" fn cogsplice_order(file: &[u8], out: &mut [u8]) -> WriteNumbers
    ensures { Told (OrderCall file.now out.old out.new) write_numbers result }
{
    cogsplice::order(file, out).into()
}

#[unsafe(no_mangle)]
pub extern "C" fn cogsplice_index(
    file: &[u8],
    out_starts: &mut [u16],
    out_rows: &mut [u16],
    in_starts: &mut [u16],
    in_rows: &mut [u16],
) -> IndexNumbers
    ensures { Told (IndexCall file.now
        out_starts.old out_starts.new
        out_rows.old out_rows.new
        in_starts.old in_starts.new
        in_rows.old in_rows.new) index_numbers result }
{
    cogsplice::index(file, out_starts, out_rows, in_starts, in_rows).into()
}

// The side that a C program names: the vouched one where it says so. No `From`: C's bool and the side are types of others.
fn side_of(vouched: bool) -> Side
    ensures { result ≡ side_of vouched }
{
    if vouched {
        return Side::Target;
    }
    Side::Source
}

#[unsafe(no_mangle)]
pub extern "C" fn cogsplice_row(
    vouched: bool,
    member: usize,
    out_starts: &[u16],
    out_rows: &[u16],
    in_starts: &[u16],
    in_rows: &[u16],
) -> RowNumbers
    ensures { PartOf
        (by_side (side_of vouched) out_starts.now in_starts.now)
        (by_side (side_of vouched) out_rows.now in_rows.now)
        member
        result }
{
    if vouched {
        return part_of(in_starts, in_rows, member);
    }
    part_of(out_starts, out_rows, member)
}

// C gets the number of the refusal, or 0.
#[unsafe(no_mangle)]
pub extern "C" fn cogsplice_row_refusal(
    vouched: bool,
    member: usize,
    out_starts: &[u16],
    out_rows: &[u16],
    in_starts: &[u16],
    in_rows: &[u16],
) -> u16
    ensures { result ≡ number_told (row_refusal
        (by_side (side_of vouched) out_starts.now in_starts.now)
        (by_side (side_of vouched) out_rows.now in_rows.now)
        member) }
{
    number_told(cogsplice::row_refusal(
        side_of(vouched),
        member,
        out_starts,
        out_rows,
        in_starts,
        in_rows,
    ))
}

#[unsafe(no_mangle)]
pub extern "C" fn cogsplice_core(
    file: &[u8],
    a: &[u8],
    b: &[u8],
    x: u16,
    y: u16,
    s: &mut [u8],
    t: &mut [u8],
    work: &mut [u16],
) -> TotalsNumbers
    ensures { Told (CoreCall file.now a.now b.now x y s.old s.new t.old t.new work.old work.new) totals_numbers result }
{
    cogsplice::core(file, a, b, x, y, s, t, work).into()
}

#[unsafe(no_mangle)]
pub extern "C" fn cogsplice_level(
    file: &[u8],
    a: &[u8],
    b: &[u8],
    x: u16,
    work: &mut [u16],
) -> LevelNumbers
    ensures { Told (LevelCall file.now a.now b.now x work.old work.new) level_numbers result }
{
    cogsplice::level(file, a, b, x, work).into()
}

#[unsafe(no_mangle)]
pub extern "C" fn cogsplice_level_across(
    file: &[u8],
    a: &[u8],
    b: &[u8],
    y: u16,
    work: &mut [u16],
) -> LevelNumbers
    ensures { Told (LevelAcrossCall file.now a.now b.now y work.old work.new) level_numbers result }
{
    cogsplice::level_across(file, a, b, y, work).into()
}

#[unsafe(no_mangle)]
pub extern "C" fn cogsplice_equal_level(
    file: &[u8],
    a: &[u8],
    b: &[u8],
    work: &mut [u16],
) -> LevelNumbers
    ensures { Told (EqualLevelCall file.now a.now b.now work.old work.new) level_numbers result }
{
    cogsplice::equal_level(file, a, b, work).into()
}

#[unsafe(no_mangle)]
pub extern "C" fn cogsplice_finding(
    file: &[u8],
    a: &[u8],
    b: &[u8],
    s: &mut [u8],
    t: &mut [u8],
    work: &mut [u16],
) -> FindingNumbers
    ensures { Told (FindingCall file.now a.now b.now s.old s.new t.old t.new work.old work.new) finding_numbers result }
{
    cogsplice::finding(file, a, b, s, t, work).into()
}

#[unsafe(no_mangle)]
pub extern "C" fn cogsplice_layers(
    file: &[u8],
    a: &[u8],
    b: &[u8],
    layers: &mut [u16],
    work: &mut [u16],
) -> LayersNumbers
    ensures { Told (LayersCall file.now a.now b.now layers.old layers.new work.old work.new) layers_numbers result }
{
    cogsplice::layers(file, a, b, layers, work).into()
}

#[unsafe(no_mangle)]
pub extern "C" fn cogsplice_harmonic(
    file: &[u8],
    s: &mut [u8],
    t: &mut [u8],
    work: &mut [u16],
) -> TotalsNumbers
    ensures { Told (HarmonicCall file.now s.old s.new t.old t.new work.old work.new) totals_numbers result }
{
    cogsplice::harmonic(file, s, t, work).into()
}

#[unsafe(no_mangle)]
pub extern "C" fn cogsplice_journal(
    journal: &[u8],
    asked: usize,
    out: &mut [u8],
    numbers: &mut [u8],
    work: &mut [u16],
) -> WriteNumbers
    ensures { Told (JournalCall journal.now asked out.old out.new numbers.old numbers.new work.old work.new) write_numbers result }
{
    cogsplice::journal(journal, asked, out, numbers, work).into()
}

#[unsafe(no_mangle)]
pub extern "C" fn cogsplice_equal_findings(
    x1: usize,
    y1: usize,
    n1: usize,
    s1: &[u8],
    t1: &[u8],
    x2: usize,
    y2: usize,
    n2: usize,
    s2: &[u8],
    t2: &[u8],
) -> EqualNumbers
    ensures { Told
        (EqualCall
        (record { x = x1; y = y1; n = n1; s = s1.now; t = t1.now })
        (record { x = x2; y = y2; n = n2; s = s2.now; t = t2.now }))
        equal_numbers
        result }
{
    cogsplice::equal_findings(x1, y1, n1, s1, t1, x2, y2, n2, s2, t2).into()
}

#[unsafe(no_mangle)]
pub extern "C" fn cogsplice_common(first: &[u8], second: &[u8], out: &mut [u8]) -> CommonNumbers
    ensures { Told (CommonCall first.now second.now out.old out.new) common_numbers result }
{
    cogsplice::common(first, second, out).into()
}
