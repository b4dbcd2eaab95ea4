// The path search for tests in another language: two methods of the `Network` of `path_search`, each with the promise that it
// has there.
#![tactic(auto)]

ghost use Rattle.std.specs.Prelude.{◌≡◌, false, suc};
ghost use Rattle.units.specs.Limits.{last_node};
ghost use Rattle.path_search.specs.Paths.{route};
ghost use Rattle.path_search.specs.Rounds.{Shows, distance};
ghost use Rattle.path_search.specs.Needed.{most_needed};
ghost use Rattle.path_search.specs.Answer.{graph, usable, answer};

use path_search::{LinkEnds, LinkSet, Net, Network, Path, RoundsDone, no_path};

// For each node the fewest links that lead from it to the destination, and the number of rounds.
#[unsafe(no_mangle)]
pub extern "C" fn distances(ends: LinkEnds, set: LinkSet, destination: u32) -> RoundsDone
    ensures shows { Shows result.table (distance (graph ends) (usable set) destination last_node) }
    ensures number_value { result.number ≡ suc (most_needed (graph ends) (usable set) destination) }
    ensures reached_value { result.reached ≡ false }
{
    let net = Net::new(ends);
    let network = Network {
        net: &net,
        usable: set,
    };
    network.distances(destination)
}

// The path of fewest usable links, the lowest of these; no link where there is none.
#[unsafe(no_mangle)]
pub extern "C" fn find_route(ends: LinkEnds, set: LinkSet, source: u32, destination: u32) -> Path
    ensures { result ≡ answer (route (graph ends) (usable set) destination source) }
{
    let net = Net::new(ends);
    let network = Network {
        net: &net,
        usable: set,
    };
    network.find_route(source, destination).unwrap_or(no_path())
}
