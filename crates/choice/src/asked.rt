// A search beside the tables of a desk: which of a window's minutes it can start in, and where every path from low on breaks off.

ghost use Rattle.std.specs.Prelude.{◌≡◌, true, ◌%◌, take};
ghost use Rattle.units.specs.Limits.{most_links};
ghost use Rattle.units.specs.Lists.{All};
ghost use Rattle.units.specs.Sets.{has};
ghost use Rattle.choice.specs.EventTables.{AreEvents};

use crate::Granted;
use crate::known::{Known, nothing_known};
use crate::search::Search;
use free_table::{FreeTable, Interval, Masks, row_mask};
use path_search::{LinkSet, Net, Network, Path, Searched};
use units::{LINKS, Minute, PATH_LINKS, Refusal, Refused, end_minute};

// What is asked of any start, its links with those of each node, and the events and figures of which.
#[derive(Clone, Copy)]
pub struct Asked<'a, 'b> {
    pub search: &'a Search,
    pub net: &'a Net,
    pub table: FreeTable<'b>,
    pub ghost are_events: { AreEvents table.events.now },
    pub ghost same_links: { net.now.ends ≡ search.now.ends },
}

impl Asked<'_, '_> {
    ghost use Rattle.std.specs.Prelude.{◌≡◌, ◌≤◌, ◌<◌, false, ℕ};
    ghost use Rattle.units.specs.Limits.{last_shown, most_links};
    ghost use Rattle.units.specs.Spans.{release};
    ghost use Rattle.units.specs.Sets.{has};
    ghost use Rattle.free_table.specs.Masks.{Kept};
    ghost use Rattle.path_search.specs.Paths.{route};
    ghost use Rattle.path_search.specs.Answer.{graph, found_path};
    ghost use Rattle.choice.specs.Known.{KnownOf, leads_over};
    ghost use Rattle.choice.specs.Answer.{wanted, carried, route_of, possible_of, choice_of, break_off_of, AskableOf, found_start, chosen};

    // The links that have the bandwidth free throughout the span of a start.
    fn links_at(&self, masks: &mut Masks, start: Minute) -> LinkSet
        requires askable { AskableOf self.now start.0 start.0 }
        requires kept { Kept masks.old self.now.table.figures.now self.now.search.now.bandwidth.0 }
        ensures kept { Kept masks.new self.now.table.figures.now self.now.search.now.bandwidth.0 }
        ensures links { (l : ℕ) → l < most_links → has result.bits l ≡ carried (wanted self.now.search.now) self.now.table.events.now self.now.table.figures.now start.0 l }
    {
        let end = end_minute(start, self.search.span);
        let bits = masks.throughout(&self.table, Interval { start, end }, self.search.bandwidth);
        LinkSet { bits }
    }

    // The path over the links of a set. None is searched where the set lacks each link of the cut.
    fn path_over(&self, known: &mut Known, links: LinkSet) -> Option<Path>
        requires { KnownOf self.now known.old }
        ensures path { result ≡ found_path (route (graph self.now.search.now.ends) (has links.bits) self.now.search.now.destination self.now.search.now.source) }
        ensures known { KnownOf self.now known.new }
    {
        if let Some(cut) = known.cut {
            if links.bits & cut.bits == 0 {
                return None;
            }
        }
        let network = Network {
            net: self.net,
            usable: links,
        };
        match network.search(self.search.source, self.search.destination) {
            Searched::Along(path) => {
                known.held = Some(links_of(&path));
                Some(path)
            }
            Searched::Cut(cut) => {
                known.cut = Some(cut);
                None
            }
        }
    }

    // Whether there is a path over the links of a set. None is searched where the set has each link of the path that is held.
    fn leads_over(&self, known: &mut Known, links: LinkSet) -> bool
        requires { KnownOf self.now known.old }
        ensures leads { result ≡ leads_over self.now.search.now links.bits }
        ensures known { KnownOf self.now known.new }
    {
        if let Some(held) = known.held {
            if links.bits & held.bits == held.bits {
                return true;
            }
        }
        self.path_over(known, links).is_some()
    }

    // The path of a start, over the links that have the bandwidth free throughout its span.
    pub fn path_at(&self, known: &mut Known, start: Minute) -> Option<Path>
        requires askable { AskableOf self.now start.0 start.0 }
        requires known { KnownOf self.now known.old }
        ensures path { result ≡ found_path (route_of self.now start.0) }
        ensures known { KnownOf self.now known.new }
    {
        let links = self.links_at(&mut known.masks, start);
        self.path_over(known, links)
    }

    // Whether a start is possible.
    pub fn possible_at(&self, known: &mut Known, start: Minute) -> bool
        requires askable { AskableOf self.now start.0 start.0 }
        requires known { KnownOf self.now known.old }
        ensures possible { result ≡ possible_of self.now start.0 }
        ensures known { KnownOf self.now known.new }
    {
        let links = self.links_at(&mut known.masks, start);
        self.leads_over(known, links)
    }

    // The first start at which there is a path, of the events after low, up to the latest start.
    pub fn first_event(&self, known: &mut Known, low: Minute, latest: Minute) -> Option<Granted>
        requires askable { AskableOf self.now low.0 latest.0 }
        requires known { KnownOf self.now known.old }
        requires low_impossible { possible_of self.now low.0 ≡ false }
        ensures first { result ≡ found_start (choice_of self.now low.0 latest.0) }
        ensures known { KnownOf self.now known.new }
    {
        for &event in self.table.events {
            let start = Minute(event);
            if latest < start {
                return None;
            }
            if low < start {
                if let Some(path) = self.path_at(known, start) {
                    return Some(Granted { start, path });
                }
            }
        }
        None
    }

    // The earliest start of low to latest at which there is a path, with that path.
    pub fn first_start(&self, known: &mut Known, low: Minute, latest: Minute) -> Option<Granted>
        requires askable { AskableOf self.now low.0 latest.0 }
        requires known { KnownOf self.now known.old }
        ensures first { result ≡ found_start (choice_of self.now low.0 latest.0) }
        ensures known { KnownOf self.now known.new }
    {
        if latest < low {
            return None;
        }
        if let Some(path) = self.path_at(known, low) {
            return Some(Granted { start: low, path });
        }
        self.first_event(known, low, latest)
    }

    // The first minute from low on such that no path has the bandwidth free throughout low to it; the end of low's span where one
    // lasts. Links are lost only where a row begins, so only there a path is looked for again.
    fn break_off(&self, known: &mut Known, low: Minute) -> Minute
        requires askable { AskableOf self.now low.0 low.0 }
        requires known { KnownOf self.now known.old }
        ensures { result.0 ≡ break_off_of self.now low.0 }
    {
        let end = end_minute(low, self.search.span);
        let (first, rows) = self.table.rows(Interval { start: low, end });
        let mut links = LinkSet { bits: u64::MAX };
        for row in 0..rows.len() {
            links.bits &= row_mask(&rows[row], self.search.bandwidth);
            if !self.leads_over(known, links) {
                return self.table.row_minute(low, first, row);
            }
        }
        end
    }

    // The earliest start of low to latest at which there is a path, with that path; refusal 8 where there is none, with the minute
    // at which every path from low on breaks off. Of a window that ends before it begins it is refusal 8 too, and the minute is
    // the end of low's span where a path lasts throughout it.
    pub fn choose(&self, low: Minute, latest: Minute) -> Result<Granted, Refused>
        requires askable { AskableOf self.now low.0 latest.0 }
        requires low_in_time { release low.0 self.now.search.now.span.0 ≤ last_shown }
        ensures { result ≡ chosen (break_off_of self.now low.0) (choice_of self.now low.0 latest.0) }
    {
        let mut known = nothing_known();
        if let Some(granted) = self.first_start(&mut known, low, latest) {
            return Ok(granted);
        }
        Err(Refused {
            refusal: Refusal::NoStart,
            at: self.break_off(&mut known, low),
        })
    }
}

// The links of a path.
fn links_of(path: &Path) -> LinkSet
    ensures { All (λ l. has result.bits (l % most_links) ≡ true) (take path.now.count path.now.links) }
{
    let mut bits = 0;
    for place in 0..PATH_LINKS.min(path.count as usize) {
        bits |= 1 << (path.links[place] as usize % LINKS);
    }
    LinkSet { bits }
}
