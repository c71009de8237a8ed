// A tree of matches over places: the place with the smallest key, and of these the smallest, is found at its root. A match is decided by ranks:
// the rank of a place is 4,096 times its key and the place, so that one comparison finds the winner, and the rank tells its place.
#![tactic(auto)]

ghost use Rattle.std.specs.Prelude.{◌≡◌, ◌+◌, ◌*◌, ◌<◌, ◌≤◌, set, length};
ghost use Rattle.graph.specs.Graph.{everyone};
ghost use Rattle.graph.specs.Drops.{Least};
ghost use Rattle.picking.specs.Winners.{key_of, node_of, won_of, rank_of, sibling_of, Room, Tree, Beside};

// The node beside a node, below the same node.
fn sibling(k: usize) -> usize
    ensures { result ≡ sibling_of k }
{
    k ^ 1
}

// Where a tree stands in a table, and over how many places: their keys from entry `at` on, then the nodes from 0 on, of which 1 is the root. The
// table is lent beside it: a tree lent by itself would be cut out of the table anew for each call, with what it holds said all the same.
#[derive(Clone, Copy, Debug, PartialEq, Eq)]
pub struct Bracket {
    pub at: usize,
    pub places: usize,
}

impl Bracket {
    // The place that a node holds.
    #[tactic(auto, unfolding(crate::specs::Winners::node_of))]
    fn node(self, work: &[u16], k: usize) -> usize
        requires { self.at + 2 * self.places ≤ length work.now }
        ensures { result ≡ node_of work.now self.at self.places k }
    {
        if k < self.places {
            usize::from(work[self.at + self.places + k])
        } else {
            k - self.places
        }
    }

    // The rank of the place that a node holds.
    fn rank_at(self, work: &[u16], k: usize) -> usize
        requires room { self.at + 2 * self.places ≤ length work.now }
        requires place_in { node_of work.now self.at self.places k < self.places }
        ensures { result ≡ rank_of work.now self.at self.places k }
    {
        let place = self.node(work, k);
        4096 * usize::from(work[self.at + place]) + place
    }

    // The match of a node: the place of the smaller rank below it wins.
    fn play(self, work: &mut [u16], k: usize)
        requires room { Room self.at self.places work.old }
        requires inner { k < self.places }
        requires left_in { node_of work.old self.at self.places (2 * k) < self.places }
        requires right_in { node_of work.old self.at self.places (2 * k + 1) < self.places }
        ensures { work.new ≡ set work.old (self.at + self.places + k) (won_of work.old self.at self.places k) }
    {
        let left = self.rank_at(work, 2 * k);
        let right = self.rank_at(work, 2 * k + 1);
        let rank = left.min(right);
        work[self.at + self.places + k] = (rank % 4096) as u16;
    }

    // The tree over the keys.
    pub fn build(self, work: &mut [u16])
        requires { Room self.at self.places work.old }
        ensures tree { Tree work.new self.at self.places }
        ensures beside { Beside self.at self.places work.old work.new }
    {
        for k in (1..self.places).rev() {
            self.play(work, k);
        }
    }

    // The tree when the key of a place is another: the matches from there up to the root, with the rank of the winner so far.
    pub fn set_key(self, work: &mut [u16], place: usize, key: u16)
        requires tree { Tree work.old self.at self.places }
        requires place_in { place < self.places }
        ensures tree { Tree work.new self.at self.places }
        ensures beside { Beside self.at self.places (set work.old (self.at + place) key) work.new }
    {
        work[self.at + place] = key;
        let mut k = self.places + place;
        let mut rank = 4096 * usize::from(key) + place;
        while 1 < k {
            let other = self.rank_at(work, sibling(k));
            rank = rank.min(other);
            k = k / 2;
            work[self.at + self.places + k] = (rank % 4096) as u16;
        }
    }

    // The tree when the key of a place is not greater than it was: the place rises up to the first match that it loses, and above that nothing changes.
    pub fn lower_key(self, work: &mut [u16], place: usize, key: u16)
        requires tree { Tree work.old self.at self.places }
        requires place_in { place < self.places }
        requires not_greater { key ≤ key_of work.old self.at place }
        ensures tree { Tree work.new self.at self.places }
        ensures beside { Beside self.at self.places (set work.old (self.at + place) key) work.new }
    {
        work[self.at + place] = key;
        let own = 4096 * usize::from(key) + place;
        let mut k = self.places + place;
        while 1 < k {
            if self.rank_at(work, sibling(k)) < own {
                return;
            }
            k = k / 2;
            work[self.at + self.places + k] = place as u16;
        }
    }

    // The place with the smallest key.
    pub fn first_of(self, work: &[u16]) -> usize
        requires { Tree work.now self.at self.places }
        ensures { Least (key_of work.now self.at) everyone self.places result }
    {
        usize::from(work[self.at + self.places + 1])
    }
}
