// Document 01's 'sound': links and book obey the rules, no link is oversold, and head, events, free figures and totals are the
// ones that links, clock, guard and book give. Every call but the set-up asks this first. Nothing here writes a lent table.
#![tactic(auto)]

ghost use Rattle.std.specs.Prelude.{◌≡◌, [], true, ◌↔◌, ◌≤◌};
ghost use Rattle.std.specs.List.{list_all};
ghost use Rattle.units.specs.Limits.{most_hops};
ghost use Rattle.path_search.specs.Paths.{path_ok};
ghost use Rattle.rules.specs.Plain.{graph};
ghost use Rattle.rules.specs.Tables.{booking_ok, booking_of, held, held_by, sized, sound};
ghost use Rattle.lent.specs.Lent.{tables_in};
ghost use Rattle.book.specs.Places.{place_path};
ghost use Rattle.soundness.specs.Checking.{all_zero, tidy, book_ok, FiguresRight, BookFits, CanCompare};

mod checked;

use book::{Booking, booking_at};
use checked::CheckedLinks;
use lent::LentTables;
use limits::{guard_ok, links_right, number_ok};
use row_changes::rows_right;
use timeline::rising;
use totals::totals_right;
use units::{
    BOOKINGS, Head, MAX_BANDWIDTH, MAX_DURATION, MAX_MINUTE, PATH_LINKS, PLACE, ROW, release,
};

// Whether a booking's path has a link, each begins where the one before ended, and no node is met twice.
fn path_right(links: CheckedLinks<'_>, booking: Booking) -> bool
    requires { booking.count ≤ most_hops }
    ensures { result ≡ path_ok (graph links.entry.links.now) (place_path booking) }
{
    let links = links.links;
    let path = &booking.links[..booking.count as usize];
    let Some(&first) = path.first() else {
        return false;
    };
    let Some(start) = links.get(first as usize) else {
        return false;
    };
    let mut node = start.from;
    let mut met: u32 = 1 << node;
    for &number in path {
        let Some(link) = links.get(number as usize) else {
            return false;
        };
        let end: u32 = 1 << link.to;
        if link.from != node || met & end != 0 {
            return false;
        }
        node = link.to;
        met |= end;
    }
    true
}

// Whether a booking's figures are in range, its path is right and it still stands at the head's clock.
fn booking_right(head: Head, links: CheckedLinks<'_>, booking: Booking) -> bool
    requires { booking.count ≤ most_hops }
    ensures { result ≡ booking_ok links.entry.links.now (held_by head []) (booking_of booking) }
{
    number_ok(booking.number)
        && booking.start.0 <= MAX_MINUTE
        && (1..=MAX_DURATION).contains(&booking.duration.0)
        && (1..=MAX_BANDWIDTH).contains(&booking.bandwidth.0)
        && path_right(links, booking)
        && (head.clock.0 as u64) < release(head, booking.start, booking.duration)
}

// Whether every figure is zero. With no branch it is compiled for several figures at a time.
fn all_zero(figures: &[u32]) -> bool
    ensures { result ≡ all_zero figures.now }
{
    let mut zero = true;
    for &figure in figures {
        zero &= figure == 0;
    }
    zero
}

// Whether a booking's path has at most thirty-one links, and zeros past its last.
#[tactic(auto, unfolding(crate::specs::Checking::tidy))]
fn path_tidy(booking: Booking) -> bool
    ensures { result ≡ tidy booking }
{
    let count = booking.count as usize;
    count <= PATH_LINKS && all_zero(&booking.links[count..])
}

// Whether the places that a head counts have rising numbers, right bookings and tidy paths, and the others are zero.
fn book_right(head: Head, links: CheckedLinks<'_>, book: &[u32]) -> bool
    requires { BookFits book.now head.bookings }
    ensures { result ≡ book_ok links.entry.links.now book.now (held_by head book.now) }
{
    let count = head.bookings as usize;
    let mut last = 0;
    for place in 0..count {
        let booking = booking_at(book, place);
        if booking.number <= last || !path_tidy(booking) || !booking_right(head, links, booking) {
            return false;
        }
        last = booking.number;
    }
    all_zero(&book[count * PLACE..])
}

// Whether no link is oversold, and events and free figures are the ones that links, clock, guard and book give.
fn figures_right(tables: &LentTables<'_>) -> bool
    requires { CanCompare tables.now.links.now tables.now.head tables.now.book.now tables.now.events.now tables.now.free.now }
    ensures { (result ≡ true) ↔ FiguresRight tables.now.links.now (held (tables_in tables.now)) tables.now.events.now tables.now.free.now }
{
    let events = rising(tables.events);
    let rows = events.events.len();
    if tables.events[0] != tables.head.clock.0 {
        return false;
    }
    if !all_zero(&tables.events[rows..]) {
        return false;
    }
    if !all_zero(&tables.free[rows * ROW..]) {
        return false;
    }
    rows_right(tables.head, tables.links, events, tables.free, tables.book)
}

// Document 01's 'sound', of tables that have the right sizes.
pub fn sound(tables: &LentTables<'_>) -> bool
    requires { sized tables.now.links.now (tables_in tables.now) ≡ true }
    ensures { result ≡ sound tables.now.links.now (tables_in tables.now) }
{
    let head = tables.head;
    if !links_right(tables.links) {
        return false;
    }
    let links = CheckedLinks {
        links: tables.links,
    };
    if MAX_MINUTE < head.clock.0 {
        return false;
    }
    if !guard_ok(head.guard) {
        return false;
    }
    if head.links as usize != tables.links.len() {
        return false;
    }
    if BOOKINGS < head.bookings as usize {
        return false;
    }
    if !book_right(head, links, tables.book) {
        return false;
    }
    if !totals_right(head, tables.book, tables.totals) {
        return false;
    }
    figures_right(tables)
}
