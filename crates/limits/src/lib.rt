// Whether figures are within the documents' limits: a booking number, the ends of a link or a request, the links, a guard, the
// fields of a request, the sizes of what is lent. The soundness check and the refusals ask this; nothing here knows a refusal number.
#![tactic(auto)]

ghost use Rattle.std.specs.Prelude.{◌≡◌};
ghost use Rattle.rules.specs.Calls.{ends_ok, number_ok, request_ok};
ghost use Rattle.rules.specs.Tables.{guard_ok, link_ok, links_ok, sized};
ghost use Rattle.lent.specs.Lent.{tables_in};

use lent::LentTables;
use units::{
    BOOK_FIGURES, Duration, EVENTS, FREE_FIGURES, LAST_NODE, LINKS, Link, MAX_BANDWIDTH,
    MAX_DURATION, MAX_GUARD, MAX_MINUTE, MAX_NUMBER, Request, TOTALS,
};

// Whether a booking number is in range.
pub fn number_ok(number: u32) -> bool
    ensures { result ≡ number_ok number }
{
    (1..=MAX_NUMBER).contains(&number)
}

// Whether two nodes are in range and differ.
pub fn ends_ok(from: u32, to: u32) -> bool
    ensures { result ≡ ends_ok from to }
{
    from <= LAST_NODE && to <= LAST_NODE && from != to
}

// Whether a link has nodes in range that differ and a capacity in range.
fn link_right(link: &Link) -> bool
    ensures { result ≡ link_ok link.now }
{
    ends_ok(link.from, link.to) && (1..=MAX_BANDWIDTH).contains(&link.capacity.0)
}

// Whether every link has nodes in range that differ and a capacity in range.
pub fn links_right(links: &[Link]) -> bool
    ensures { result ≡ links_ok links.now }
{
    links.iter().all(link_right)
}

// Whether a guard is in range.
pub fn guard_ok(guard: Duration) -> bool
    ensures { result ≡ guard_ok guard.0 }
{
    guard.0 <= MAX_GUARD
}

// Whether every field of a request is in range, and its nodes differ.
pub fn request_ok(request: Request) -> bool
    ensures { result ≡ request_ok request }
{
    ends_ok(request.from, request.to)
        && (1..=MAX_BANDWIDTH).contains(&request.bandwidth.0)
        && (1..=MAX_DURATION).contains(&request.duration.0)
        && request.earliest.0 <= MAX_MINUTE
        && request.latest.0 <= MAX_MINUTE
}

// Whether there are 1 to 64 links and the lent tables have the sizes that document 01 states.
pub fn sized(tables: &LentTables<'_>) -> bool
    ensures { result ≡ sized tables.now.links.now (tables_in tables.now) }
{
    (1..=LINKS).contains(&tables.links.len())
        && tables.events.len() == EVENTS
        && tables.free.len() == FREE_FIGURES
        && tables.book.len() == BOOK_FIGURES
        && tables.totals.len() == TOTALS
}
