// The degrees of places in the whole graph.
ghost use Rattle.std.specs.Prelude.{◌<◌, ◌≤◌, leb, length, get_or};
ghost use Rattle.climbing.specs.Climbs.{Heaviest};

// The greatest degree of the places from `from` up to `to`, in 16 bits: so the pass can look at many at once. None of these places has more edges in a
// core, so where more is asked of them all, the core is empty.
pub fn heaviest(degrees: &[u16], from: usize, to: usize) -> usize
    requires range { from ≤ to }
    requires long { to ≤ length degrees.now }
    ensures heaviest { Heaviest (λ p. leb from p) (λ p. get_or degrees.now p 0) to result }
    ensures fits { result < 65536 }
{
    let mut heaviest: u16 = 0;
    for degree in &degrees[from..to] {
        heaviest = heaviest.max(*degree);
    }
    usize::from(heaviest)
}
