// The links with the sets of them that leave and enter each node, made once for all searches on them.

ghost use Rattle.std.specs.Prelude.{◌≡◌, ℕ, ◌≤◌, ◌<◌, get_or};
ghost use Rattle.units.specs.Limits.{last_node, most_links};
ghost use Rattle.path_search.specs.Ends.{LinksOf};

use crate::NODES;
use crate::ends::LinkEnds;
use units::LINKS;

// The links, and as bits those of them that leave and that enter each node.
#[derive(Clone, Copy)]
pub struct Net {
    pub ends: LinkEnds,
    pub out: [u64; NODES],
    pub into: [u64; NODES],
    pub ghost leaving: { LinksOf ends.count ends.from out },
    pub ghost entering: { LinksOf ends.count ends.to into },
}

// For each node the links that have it in a column of their ends.
fn links_of(count: usize, ends: &[u32; LINKS]) -> [u64; NODES]
    requires few { count ≤ most_links }
    requires nodes { (l : ℕ) → l < count → get_or ends.now l 0 ≤ last_node }
    ensures { LinksOf count ends.now result }
{
    let mut sets = [0; NODES];
    for link in 0..count {
        let node = ends[link] as usize;
        sets[node] |= 1 << link;
    }
    sets
}

impl Net {
    // The links with those of each node.
    pub fn new(ends: LinkEnds) -> Net
        ensures { result.ends ≡ ends }
    {
        let out = links_of(ends.count, &ends.from);
        let into = links_of(ends.count, &ends.to);
        Net { ends, out, into }
    }
}
