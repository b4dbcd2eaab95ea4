// The path search: of all chains of usable links from one node to another, the one of fewest links, then of the lower
// link number at the first difference. `choice` calls it for each start that it tries. It knows nothing of time or
// bookings, and draws no tie at random.
#![tactic(auto)]

ghost use Rattle.std.specs.Prelude.{◌≡◌, [], true, false, ◌&&◌, ℕ, suc, ◌≤◌, ◌<◌, eqb, ltb};
ghost use Rattle.units.specs.Limits.{last_node};
ghost use Rattle.units.specs.Search.{at, is_nothing};
ghost use Rattle.units.specs.Sets.{has};
ghost use Rattle.path_search.specs.Paths.{route, fewest};
ghost use Rattle.path_search.specs.Rounds.{Shows, figures, distance, marked, joined, sources};
ghost use Rattle.path_search.specs.Layers.{LayersIn, away_in};
ghost use Rattle.path_search.specs.Needed.{most_needed};
ghost use Rattle.path_search.specs.Picks.{nearer_link, picked, Walkable};
ghost use Rattle.path_search.specs.Answer.{graph_of, usable_in, found_number, path_of, found_path, path_in, Cuts, CutRight};

mod ends;
mod net;

pub use ends::LinkEnds;
pub use net::Net;
use units::{LAST_NODE, LinkNumber, PATH_LINKS};

// The nodes that there may be: one more than the most links of a path.
pub const NODES: usize = PATH_LINKS + 1;

// The most links of a path, as a figure.
const MOST: u32 = PATH_LINKS as u32;

// The figure of a node from which no chain is known.
const FAR: u32 = LAST_NODE + 1;

// The links that can be used, as bits.
#[repr(C)]
#[derive(Clone, Copy)]
pub struct LinkSet {
    pub bits: u64,
}

// A path: its count of links, and their numbers in travel order, zero past the last.
#[repr(C)]
#[derive(Clone, Copy)]
pub struct Path {
    pub count: u32,
    pub links: [u32; PATH_LINKS],
}

// What a search finds: the path; or, where there is none, a cut, links without which there is no path whatever others can be used.
#[derive(Clone, Copy)]
pub enum Searched {
    Along(Path),
    Cut(LinkSet),
}

// What the rounds answer: the figures after them, their number, and whether the last of them reached a node.
#[repr(C)]
#[derive(Clone, Copy)]
pub struct RoundsDone {
    pub table: [u32; NODES],
    pub number: u32,
    pub reached: bool,
}

// What the rounds from a destination find, as bits: the nodes from which each number of links leads there, the usable links that
// lead to those nodes, all nodes that they met; and how many rounds met a node to go on from.
#[derive(Drop)]
struct Layers {
    destination: u32,
    nodes: [u32; NODES],
    links: [u64; NODES],
    met: u32,
    number: u32,
}

// The links between the nodes, and those of them that can be used.
#[derive(Clone, Copy)]
pub struct Network<'a> {
    pub net: &'a Net,
    pub usable: LinkSet,
}

// The set of one node; of none where it is no node.
fn node_set(node: u32) -> u32
    ensures { (v : ℕ) → v ≤ last_node → has result v ≡ eqb v node }
{
    if node <= LAST_NODE { 1 << node } else { 0 }
}

// The links that the nodes of a set have.
fn joined(sets: &[u64; NODES], nodes: u32) -> u64
    ensures { (l : ℕ) → has result l ≡ joined sets.now nodes l }
{
    let mut left = nodes;
    let mut links = 0;
    while left != 0 {
        links |= sets[left.trailing_zeros() as usize];
        left &= left - 1;
    }
    links
}

// Gives the nodes of a set a figure.
fn mark(table: &mut [u32; NODES], nodes: u32, figure: u32)
    ensures { Shows table.new (marked nodes figure (figures table.old)) }
{
    let mut left = nodes;
    while left != 0 {
        table[left.trailing_zeros() as usize] = figure;
        left &= left - 1;
    }
}

// The path of no link.
pub fn no_path() -> Path
    ensures { result ≡ path_of [] }
{
    Path {
        count: 0,
        links: [0; PATH_LINKS],
    }
}

impl Network<'_> {
    // The usable links that lead to the nodes of a set.
    fn links_to(self, nodes: u32) -> u64
        ensures { (l : ℕ) → has result l ≡ (ltb l self.entry.net.now.ends.count && usable_in self.entry l && has nodes ((graph_of self.entry).to l)) }
    {
        joined(&self.net.into, nodes) & self.usable.bits
    }

    // The nodes at which the links of a set begin.
    fn sources(self, links: u64) -> u32
        requires { (l : ℕ) → has links l ≡ true → l < self.net.now.ends.count }
        ensures { (v : ℕ) → has result v ≡ sources (graph_of self.entry) links v }
    {
        let mut left = links;
        let mut nodes = 0;
        while left != 0 {
            nodes |= 1 << self.net.ends.from[left.trailing_zeros() as usize];
            left &= left - 1;
        }
        nodes
    }

    // The rounds from the destination on: each goes on from the nodes that the one before met first, and the first that meets none
    // is the last.
    fn layers(self, destination: u32) -> Layers
        ensures of { LayersIn self.entry result }
        ensures destination { result.destination ≡ destination }
    {
        let mut nodes = [0; NODES];
        let mut links = [0; NODES];
        let mut met = node_set(destination);
        let mut frontier = met;
        let mut number = 0;
        while frontier != 0 {
            let leading = self.links_to(frontier);
            nodes[number as usize] = frontier;
            links[number as usize] = leading;
            frontier = self.sources(leading) & !met;
            met |= frontier;
            number += 1;
        }
        Layers {
            destination,
            nodes,
            links,
            met,
            number,
        }
    }

    // For each node the fewest links that lead from it to the destination, or `FAR`; and the number of rounds, one more than
    // the most links that any node needs from which a chain leads there. It goes in rounds from the destination and ends at the
    // first that reaches no node.
    pub fn distances(self, destination: u32) -> RoundsDone
        ensures shows { Shows result.table (distance (graph_of self.entry) (usable_in self.entry) destination last_node) }
        ensures number_value { result.number ≡ suc (most_needed (graph_of self.entry) (usable_in self.entry) destination) }
        ensures reached_value { result.reached ≡ false }
    {
        let layers = self.layers(destination);
        let mut table = [FAR; NODES];
        for near in 0..NODES {
            mark(&mut table, layers.nodes[near], near as u32);
        }
        RoundsDone {
            table,
            number: layers.number.max(1),
            reached: false,
        }
    }

    // The fewest links of a path from the source, if there is one.
    fn fewest_links(self, layers: &Layers, source: u32) -> Option<u32>
        requires { LayersIn self layers.now }
        ensures { result ≡ found_number (fewest (graph_of self.entry) (usable_in self.entry) layers.now.destination source) }
    {
        if LAST_NODE < source {
            return None;
        }
        let out = self.net.out[source as usize];
        (0..MOST)
            .find(|&near| out & layers.links[near as usize] != 0)
            .map(|near| near + 1)
    }

    // The lowest usable link out of the node to a node from which `near` links lead to the destination.
    fn nearer_link(self, layers: &Layers, node: u32, near: u32) -> LinkNumber
        requires layers { LayersIn self layers.now }
        requires near { near ≤ last_node }
        requires some { is_nothing (nearer_link (graph_of self) (usable_in self) (away_in self layers.now) node near) ≡ false }
        ensures { nearer_link (graph_of self.entry) (usable_in self.entry) (away_in self.entry layers.now) node near ≡ at result.0 }
    {
        let links = self.net.out[node as usize] & layers.links[near as usize];
        LinkNumber(links.trailing_zeros())
    }

    // The path of `count` links from the source on, each the lowest to a node from which one fewer leads to the destination.
    fn walk(self, layers: &Layers, source: u32, count: u32) -> Path
        requires layers { LayersIn self layers.now }
        requires walkable { Walkable (graph_of self) (usable_in self) (away_in self layers.now) count source }
        ensures { result ≡ path_of (picked (graph_of self.entry) (usable_in self.entry) (away_in self.entry layers.now) count source) }
    {
        let mut links = [0; PATH_LINKS];
        let mut node = source;
        for place in 0..count {
            let link = self.nearer_link(layers, node, count - 1 - place);
            links[place as usize] = link.0;
            node = self.net.ends.to[link.0 as usize];
        }
        Path { count, links }
    }

    // The links that lead to the met nodes from any other node or from the source: each path from the source has one of them.
    fn cut(self, layers: &Layers, source: u32) -> LinkSet
        requires { LayersIn self layers.now }
        ensures { Cuts (graph_of self.entry) source layers.now.destination result.bits }
    {
        let inside = layers.met & !node_set(source);
        LinkSet {
            bits: joined(&self.net.into, layers.met) & !joined(&self.net.out, inside),
        }
    }

    // The path of fewest usable links from the source to the destination, the lowest of these; or, where there is none, a cut.
    pub fn search(self, source: u32, destination: u32) -> Searched
        ensures path { path_in result ≡ found_path (route (graph_of self.entry) (usable_in self.entry) destination source) }
        ensures cut { CutRight (graph_of self.entry) source destination result }
    {
        let layers = self.layers(destination);
        match self.fewest_links(&layers, source) {
            Some(count) => Searched::Along(self.walk(&layers, source, count)),
            None => Searched::Cut(self.cut(&layers, source)),
        }
    }

    // The path of fewest usable links from the source to the destination, the lowest of these.
    pub fn find_route(self, source: u32, destination: u32) -> Option<Path>
        ensures { result ≡ found_path (route (graph_of self.entry) (usable_in self.entry) destination source) }
    {
        match self.search(source, destination) {
            Searched::Along(path) => Some(path),
            Searched::Cut(_) => None,
        }
    }
}
