// The comparison of two findings: by x, y and n, and by the members of both groups. Its parameters are those that 02 names, and what hands them on has
// them as they come.
ghost use Rattle.std.specs.Prelude.{true, ◌≤◌, ◌&&◌, ◌↔◌, ◌≡◌, Some, None, IfErr, OnOk, MatchOption};
ghost use Rattle.network.specs.declared.Refusal.TheVariants.{Group};
ghost use Rattle.network.specs.Groups.{is_group};
ghost use Rattle.network.specs.Refusals.{short_groups};
ghost use Rattle.finding.specs.Compared.{Bits, Alike, AreLong, refusal_of, group_refusal, SameIn};
ghost use Rattle.finding.specs.Equality.{EqualCall};

use checking::are_groups;
use network::{MOST_MEMBERS, Refusal};

// Whether the bytes of two groups are the same, as far as the shorter one goes, or nothing where one of these is neither 0 nor 1. Both are told in one
// pass, without a branch, many bytes at a time.
fn compare_groups(a: &[u8], b: &[u8]) -> Option<bool>
    ensures { MatchOption result (Bits a.now b.now → ⊥) (λ alike. Bits a.now b.now × ((alike ≡ true) ↔ Alike a.now b.now)) }
{
    let mut greatest: u8 = 0;
    let mut alike = true;
    for (one, other) in a.iter().zip(b) {
        greatest = greatest.max(*one).max(*other);
        alike &= *one == *other;
    }
    (greatest <= 1).then_some(alike)
}

// The groups of a finding, as they are lent: n, and the tables of S and T, which may be longer.
#[derive(Clone, Copy, Debug, PartialEq, Eq)]
struct Groups<'a> {
    n: usize,
    s: &'a [u8],
    t: &'a [u8],
}

impl Groups<'_> {
    // Whether one of the tables is short.
    fn are_short(&self) -> bool
        ensures { result ≡ short_groups self.now.n self.now.s.now self.now.t.now }
    {
        self.s.len() < self.n || self.t.len() < self.n
    }

    // Whether each of the first n bytes of both is 0 or 1.
    #[tactic(auto, using(network::proofs::Groups::groups_cut))]
    fn are_groups(&self) -> bool
        requires { AreLong self.now }
        ensures { result ≡ (is_group self.now.n self.now.s.now && is_group self.now.n self.now.t.now) }
    {
        are_groups(&self.s[0..self.n], &self.t[0..self.n])
    }
}

// Whether two findings have the same people, or nothing where a byte of a group is neither 0 nor 1. Groups over two n are tested alone.
fn same_people(one: &Groups, other: &Groups) -> Option<bool>
    requires { AreLong one.now × AreLong other.now }
    ensures { MatchOption result
        (group_refusal one.now other.now ≡ Some Group)
        (λ same. (group_refusal one.now other.now ≡ None) × ((same ≡ true) ↔ SameIn one.now other.now)) }
{
    if one.n != other.n {
        return (one.are_groups() && other.are_groups()).then_some(false);
    }
    let sources = compare_groups(&one.s[0..one.n], &other.s[0..other.n])?;
    let targets = compare_groups(&one.t[0..one.n], &other.t[0..other.n])?;
    Some(sources & targets)
}

// 4, then 9, each of both findings.
#[tactic(auto, unfolding(crate::specs::Equality::equal_refusal))]
fn check_lengths(one: &Groups, other: &Groups) -> Result<(), Refusal>
    ensures refused { IfErr result (λ r. refusal_of one.now other.now ≡ Some r) }
    ensures left { OnOk result (refusal_of one.now other.now ≡ group_refusal one.now other.now) }
    ensures long { OnOk result (AreLong one.now × AreLong other.now) }
{
    if MOST_MEMBERS < one.n || MOST_MEMBERS < other.n {
        return Err(Refusal::Members);
    }
    if one.are_short() || other.are_short() {
        return Err(Refusal::Table);
    }
    Ok(())
}

// 02, wish 10: whether two findings are equal: they have the same x, y and n, and the same people in both groups.
pub fn equal_findings(
    x1: usize,
    y1: usize,
    n1: usize,
    s1: &[u8],
    t1: &[u8],
    x2: usize,
    y2: usize,
    n2: usize,
    s2: &[u8],
    t2: &[u8],
) -> Result<bool, Refusal>
    ensures { EqualCall
        (record { x = x1; y = y1; n = n1; s = s1.now; t = t1.now })
        (record { x = x2; y = y2; n = n2; s = s2.now; t = t2.now })
        result }
{
    let one = Groups {
        n: n1,
        s: s1,
        t: t1,
    };
    let other = Groups {
        n: n2,
        s: s2,
        t: t2,
    };
    check_lengths(&one, &other)?;
    let Some(same) = same_people(&one, &other) else {
        return Err(Refusal::Group);
    };
    Ok((x1, y1) == (x2, y2) && same)
}
