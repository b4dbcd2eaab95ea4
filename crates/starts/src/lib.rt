// A request's search on the tables of a desk: the earliest start of its window, and every start. The calls ask first whether
// the request and the tables are right. Nothing here writes a table.
#![tactic(auto)]

ghost use Rattle.std.specs.Prelude.{◌≡◌, ◌≤◌, length};
ghost use Rattle.units.specs.Limits.{last_shown, most_ranges, list_size};
ghost use Rattle.units.specs.Spans.{low_of, span_of};
ghost use Rattle.units.specs.Columns.{column};
ghost use Rattle.path_search.specs.Ends.{InRange};
ghost use Rattle.choice.specs.Answer.{wanted, choice_for, break_off_for, chosen};
ghost use Rattle.listing.specs.Ranges.{ranges_for, list_table};
ghost use Rattle.lent.specs.Lent.{tables_in};
ghost use Rattle.starts.specs.Asked.{search_of, Asks};

use choice::{Asked, Granted, Search};
use lent::LentTables;
use listing::list_ranges;
use path_search::{LinkEnds, Net};
use units::{Duration, Head, Link, Refused, Request, column, low_minute, span_of};

// What a request asks of any start on these links.
fn search_of(head: Head, links: &[Link], request: Request) -> Search
    requires in_range { InRange (length links.now) (column (λ l. l.from) links.now) (column (λ l. l.to) links.now) }
    requires lasts { 1 ≤ span_of head request.duration.0 }
    requires fits { span_of head request.duration.0 ≤ last_shown }
    ensures { wanted result ≡ search_of head links.now request }
{
    let from = column(links, |link| link.from);
    let to = column(links, |link| link.to);
    Search {
        ends: LinkEnds {
            count: links.len(),
            from,
            to,
        },
        source: request.from,
        destination: request.to,
        bandwidth: request.bandwidth,
        span: Duration(span_of(head, request.duration) as u32),
    }
}

// The earliest start of a request's window, with its path; refusal 8 where there is none, with the minute at which every path
// from low on breaks off.
pub fn best_start(tables: &LentTables<'_>, request: Request) -> Result<Granted, Refused>
    requires { Asks tables.now.links.now (tables_in tables.now) request }
    ensures { let search = search_of tables.now.head tables.now.links.now request in let low = low_of tables.now.head request in
        result ≡ chosen (break_off_for search tables.now.events.now tables.now.free.now low) (choice_for search tables.now.events.now tables.now.free.now low request.latest.0) }
{
    let low = low_minute(tables.head, request);
    let search = search_of(tables.head, tables.links, request);
    let net = Net::new(search.ends);
    let asked = Asked {
        search: &search,
        net: &net,
        table: tables.free_table(),
    };
    asked.choose(low, request.latest)
}

// Every start of a request's window, written as ranges into the list; how many ranges there are.
pub fn all_starts(tables: &LentTables<'_>, request: Request, list: &mut [u32]) -> u32
    requires asks { Asks tables.now.links.now (tables_in tables.now) request }
    requires events_fit { length tables.now.events.now ≤ most_ranges }
    requires list_sized { length list.old ≡ list_size }
    ensures count { result ≡ length (ranges_for (search_of tables.now.head tables.now.links.now request) tables.now.events.now tables.now.free.now (low_of tables.now.head request) request.latest.0) }
    ensures written { list.new ≡ list_table (ranges_for (search_of tables.now.head tables.now.links.now request) tables.now.events.now tables.now.free.now (low_of tables.now.head request) request.latest.0) }
{
    let low = low_minute(tables.head, request);
    let search = search_of(tables.head, tables.links, request);
    let net = Net::new(search.ends);
    let asked = Asked {
        search: &search,
        net: &net,
        table: tables.free_table(),
    };
    list_ranges(&asked, low, request.latest, list)
}
