// Two files of the same events: the links in both, written as a file.
ghost use Rattle.std.specs.Prelude.{◌≡◌, Some, None, IfErr, IfOk};
ghost use Rattle.merging.specs.Calls.{pair_refusal, CommonCall};

use crate::walks::list_common;
use crate::{CommonTotals, Pair};
use calls::put_file;
use checking::check_file;
use network::{MOST_LINKS, Refusal, SoundFile, link_at, order_of, size_of, stride};

// The files, where neither is refused and their n are the same.
#[tactic(auto, using(crate::proofs::Pairs::pair_ways))]
fn check_pair<'a>(first: &'a [u8], second: &'a [u8]) -> Result<Pair<'a>, Refusal>
    ensures refused { IfErr result (λ r. pair_refusal first.now second.now ≡ Some r) }
    ensures passed { IfOk result (λ p. (p.first.bytes.now ≡ first.now) × (p.second.bytes.now ≡ second.now) × (pair_refusal first.now second.now ≡ None)) }
{
    let first = check_file(first)?;
    let second = check_file(second)?;
    if order_of(first.bytes) != order_of(second.bytes) {
        return Err(Refusal::Mismatch);
    }
    Ok(Pair { first, second })
}

// 02, wishes 11 and 13: the links in both files, written as a file of version 2 with the first one's kinds, and how many are in both, in the first
// only and in the second only.
pub fn common(first: &[u8], second: &[u8], out: &mut [u8]) -> Result<CommonTotals, Refusal>
    ensures { CommonCall first.now second.now out.old out.new result }
{
    let pair = check_pair(first, second)?;
    let mut list = [0u16; MOST_LINKS];
    let both = list_common(&pair, &mut list);
    if out.len() < link_at(stride(2), both) {
        return Err(Refusal::Table);
    }
    put_file(
        &SoundFile {
            bytes: pair.first.bytes,
            stride: pair.first.stride,
        },
        2,
        &list[0..both],
        out,
    );
    Ok(CommonTotals {
        both,
        first_only: size_of(pair.first.bytes) - both,
        second_only: size_of(pair.second.bytes) - both,
    })
}
