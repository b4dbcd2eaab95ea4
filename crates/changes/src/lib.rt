// What an accepted call writes: tables that are sound become those of the plain book after the call. The calls ask first;
// nothing here refuses.
#![tactic(auto)]

ghost use Rattle.std.specs.Prelude.{◌≡◌, true, ◌≤◌};
ghost use Rattle.units.specs.Limits.{last_minute, most_guard};
ghost use Rattle.rules.specs.Plain.{empty};
ghost use Rattle.rules.specs.Calls.{stands, take_out, move_to, put_in};
ghost use Rattle.rules.specs.Tables.{held, sized, tables, Fine};
ghost use Rattle.lent.specs.Lent.{tables_of, SameLoans};
ghost use Rattle.changes.specs.Updating.{booked, Grantable};

mod holding;
mod right;

use book::{Booking, booking_at, insert_booking};
use free_table::reset_free;
use holding::{give_back, hold};
use lent::Desk;
use path_search::Path;
use places::{drop_ended, find, remove_place, slot};
use right::RightBooking;
use timeline::{drop_before, reset_events};
use totals::{add_work, drop_ended_work, drop_work};
use units::{Duration, Head, Minute, PLACE, ROW, Request, column};

// The tables of a desk that was just set up with a guard.
pub fn reset(desk: &mut Desk<'_>, guard: Duration)
    requires sized { sized desk.old.links.now (tables_of desk.old) ≡ true }
    requires short_guard { guard.0 ≤ most_guard }
    ensures loans { SameLoans desk.old desk.new }
    ensures tables { tables_of desk.new ≡ tables desk.old.links.now (empty guard.0) }
{
    let head = Head {
        clock: Minute(0),
        links: desk.links.len() as u32,
        bookings: 0,
        guard,
    };
    let links = desk.links;
    let capacities = column(links, |link| link.capacity.0);
    reset_events(desk.events, head.clock);
    reset_free(desk.free, &capacities[..links.len()]);
    desk.book.fill(0);
    desk.totals.fill(0);
    *desk.head = head;
}

// Takes out the booking of a number, which stands.
pub fn take_out(desk: &mut Desk<'_>, number: u32)
    requires fine { Fine desk.old.links.now (tables_of desk.old) }
    requires stands { stands number (held (tables_of desk.old)).bookings ≡ true }
    ensures loans { SameLoans desk.old desk.new }
    ensures tables { tables_of desk.new ≡ tables desk.old.links.now (take_out number (held (tables_of desk.old))) }
{
    let mut head = *desk.head;
    let book = &mut *desk.book;
    let Some(place) = find(book, PLACE, head.bookings as usize, number) else {
        return;
    };
    let booking = booking_at(book, place);
    let rows = 1 + 2 * head.bookings as usize;
    remove_place(book, PLACE, place);
    head.bookings -= 1;
    let events = &mut desk.events[..rows];
    let free = &mut desk.free[..rows * ROW];
    give_back(head, events, free, book, RightBooking { booking });
    drop_work(desk.totals, booking);
    *desk.head = head;
}

// Moves the clock on and drops what has ended.
pub fn advance(desk: &mut Desk<'_>, minute: Minute)
    requires fine { Fine desk.old.links.now (tables_of desk.old) }
    requires in_range { minute.0 ≤ last_minute }
    requires onward { desk.old.head.now.clock.0 ≤ minute.0 }
    ensures loans { SameLoans desk.old desk.new }
    ensures tables { tables_of desk.new ≡ tables desk.old.links.now (move_to minute.0 (held (tables_of desk.old))) }
{
    let mut head = *desk.head;
    let rows = 1 + 2 * head.bookings as usize;
    let events = &mut desk.events[..rows];
    let free = &mut desk.free[..rows * ROW];
    drop_before(events, free, minute);
    head.clock = minute;
    let book = &mut *desk.book;
    drop_ended_work(head, book, desk.totals);
    head.bookings = drop_ended(head, book, PLACE) as u32;
    *desk.head = head;
}

// Enters an accepted booking: its place in the book, its events, its bandwidth taken from each link of its path, and its work
// added to the link's total.
pub fn enter(desk: &mut Desk<'_>, number: u32, request: Request, start: Minute, path: Path)
    requires fine { Fine desk.old.links.now (tables_of desk.old) }
    requires grantable { Grantable desk.old.links.now (held (tables_of desk.old)) number request start path }
    ensures loans { SameLoans desk.old desk.new }
    ensures tables { tables_of desk.new ≡ tables desk.old.links.now (put_in (booked number request start path) (held (tables_of desk.old))) }
{
    let mut head = *desk.head;
    let links = path.links;
    let booking = Booking {
        number,
        start,
        duration: request.duration,
        bandwidth: request.bandwidth,
        count: path.count,
        links,
    };
    let book = &mut *desk.book;
    let place = slot(book, PLACE, head.bookings as usize, number);
    insert_booking(book, place, booking);
    let rows = 3 + 2 * head.bookings as usize;
    let events = &mut desk.events[..rows];
    let free = &mut desk.free[..rows * ROW];
    hold(head, events, free, RightBooking { booking });
    add_work(desk.totals, booking);
    head.bookings += 1;
    *desk.head = head;
}
