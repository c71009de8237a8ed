// A row as the numbers of its part: a returned slice does not cross to C.
ghost use Rattle.cogsplice_c.specs.Told.{PartOf};

use crate::RowNumbers;
use adjacency::row_range;

pub fn part_of(starts: &[u16], rows: &[u16], member: usize) -> RowNumbers
    ensures { PartOf starts.now rows.now member result }
{
    match row_range(starts, rows, member) {
        Ok(range) => RowNumbers {
            start: range.start,
            length: range.end - range.start,
            refusal: 0,
        },
        Err(refusal) => RowNumbers {
            start: 0,
            length: 0,
            refusal: refusal.number(),
        },
    }
}
