// A row of the index is a part of the lent table, not a copy. 01 and C name the tables one by one, and so they stay parameters.
ghost use Rattle.std.specs.Prelude.{◌≡◌, ◌+◌, Some, IfOk, IfErr, get_or};
ghost use Rattle.network.specs.Refusals.{row_refusal};
ghost use Rattle.adjacency.specs.Calls.{RowCall, by_side};
ghost use Rattle.adjacency.specs.Rows.{Row};

use network::{Refusal, Side};
use std::ops::Range;

// Where the row of a vertex lies in the rows table of its side.
#[tactic(auto, using(crate::proofs::Refusals::ways_out))]
pub fn row_range(starts: &[u16], rows: &[u16], member: usize) -> Result<Range<usize>, Refusal>
    ensures refused { IfErr result (λ r. row_refusal starts.now rows.now member ≡ Some r) }
    ensures range { IfOk result (λ p. Row starts.now rows.now member × (p.start ≡ get_or starts.now member 0) × (p.end ≡ get_or starts.now (member + 1) 0)) }
{
    if starts.len() < 1 {
        return Err(Refusal::Table);
    }
    if starts.len() - 1 <= member {
        return Err(Refusal::Member);
    }
    let start = usize::from(starts[member]);
    let next = usize::from(starts[member + 1]);
    if next < start || rows.len() < next {
        return Err(Refusal::Row);
    }
    Ok(start..next)
}

// The row of a vertex in one side's tables; the empty part where it is refused.
pub fn row_of<'a>(starts: &[u16], rows: &'a [u16], member: usize) -> &'a [u16]
    ensures { RowCall starts.now rows.now member result.now }
{
    match row_range(starts, rows, member) {
        Ok(range) => &rows[range],
        Err(_) => &rows[0..0],
    }
}

// Why a row in one side's tables is refused, where it is.
fn refusal_of(starts: &[u16], rows: &[u16], member: usize) -> Option<Refusal>
    ensures { result ≡ row_refusal starts.now rows.now member }
{
    row_range(starts, rows, member).err()
}

// Of an out table and an in table, the one of a side.
fn by_side<'a>(side: Side, out: &'a [u16], inn: &'a [u16]) -> &'a [u16]
    ensures { result.now ≡ by_side side out.now inn.now }
{
    match side {
        Side::Source => out,
        Side::Target => inn,
    }
}

// The row of a vertex as a source or as a target: only that side's tables are looked at. The result has the life of the rows tables alone, so that
// it can be a part of one of these two and of nothing else.
pub fn row<'a>(
    side: Side,
    member: usize,
    out_starts: &[u16],
    out_rows: &'a [u16],
    in_starts: &[u16],
    in_rows: &'a [u16],
) -> &'a [u16]
    ensures { RowCall
        (by_side side out_starts.now in_starts.now)
        (by_side side out_rows.now in_rows.now)
        member
        result.now }
{
    let starts = by_side(side, out_starts, in_starts);
    row_of(starts, by_side(side, out_rows, in_rows), member)
}

// Why the row is refused, where it is.
pub fn row_refusal(
    side: Side,
    member: usize,
    out_starts: &[u16],
    out_rows: &[u16],
    in_starts: &[u16],
    in_rows: &[u16],
) -> Option<Refusal>
    ensures { result ≡ row_refusal
        (by_side side out_starts.now in_starts.now)
        (by_side side out_rows.now in_rows.now)
        member }
{
    let starts = by_side(side, out_starts, in_starts);
    refusal_of(starts, by_side(side, out_rows, in_rows), member)
}
