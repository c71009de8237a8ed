// The core of a work table: both groups written, and their numbers.
ghost use Rattle.std.specs.Prelude.{false, ◌++◌, ◌≡◌, ◌+◌, ◌≤◌, length, drop};
ghost use Rattle.network.specs.Groups.{bytes_of};
ghost use Rattle.peeling.specs.Peeling.{Weighed};
ghost use Rattle.grouping.specs.Groups.{nobody, at_least, CoreIn};

use network::Totals;
use peeling::Scope;
use raising::whole;

// The group of those whose degree, from entry `at` of the table on, is at least `least`. The laws on a peel speak of the whole table, so it is not cut.
pub fn write_group(work: &[u16], at: usize, n: usize, least: usize, group: &mut [u8])
    requires degrees { at + n ≤ length work.now }
    requires room { n ≤ length group.old }
    ensures { group.new ≡ bytes_of n (at_least work.now at least) ++ drop n group.old }
{
    for (u, byte) in group[0..n].iter_mut().enumerate() {
        *byte = u8::from(least <= usize::from(work[at + u]));
    }
}

// Both groups empty, and so all numbers 0.
fn clear_groups(n: usize, s: &mut [u8], t: &mut [u8]) -> Totals
    requires { (n ≤ length s.old) × (n ≤ length t.old) }
    ensures totals { result ≡ record { edges = 0; sources = 0; targets = 0 } }
    ensures sources { s.new ≡ bytes_of n nobody ++ drop n s.old }
    ensures targets { t.new ≡ bytes_of n nobody ++ drop n t.old }
{
    s[0..n].fill(0);
    t[0..n].fill(0);
    Totals {
        edges: 0,
        sources: 0,
        targets: 0,
    }
}

// Whether one side needs no edge: then it is left whole where the other is empty.
fn is_free(scope: Scope) -> bool
    ensures { result ≡ false → (1 ≤ scope.x) × (1 ≤ scope.y) }
{
    scope.x == 0 || scope.y == 0
}

// 01: the core, of every graph whose rows the table holds. Where both sides need an edge, it is empty as soon as a side is; else the queue is
// drained, since the groups are read off the degrees. The groups are two parameters, as 01 names them: a struct of two lent tables would be made for
// this one call.
pub fn core_in(
    work: &mut [u16],
    degrees: &[u16],
    scope: Scope,
    s: &mut [u8],
    t: &mut [u8],
) -> Totals
    requires weighed { Weighed scope.extent.order scope.extent.size work.old degrees.now }
    requires room { (scope.extent.order ≤ length s.old) × (scope.extent.order ≤ length t.old) }
    ensures { CoreIn scope work.old work.new s.old s.new t.old t.new result }
{
    let n = scope.extent.order;
    let drain = is_free(scope);
    let peel = whole(work, degrees, scope, drain);
    if peel.is_cut(drain) {
        return clear_groups(n, s, t);
    }
    let at = scope.degrees_at();
    write_group(work, at, n, scope.x, s);
    write_group(work, at + n, n, scope.y, t);
    Totals {
        edges: peel.edges as u32,
        sources: peel.sources,
        targets: peel.targets,
    }
}
