// What a booking holds: its events and its bandwidth. They are put in and taken when it is entered; they come back when it is
// cancelled, an event only where no other booking needs it.

ghost use Rattle.std.specs.Prelude.{◌≡◌, ◌*◌, ◌≤◌, length};
ghost use Rattle.units.specs.Limits.{most_guard, place_size};
ghost use Rattle.units.specs.Lists.{member};
ghost use Rattle.timeline.specs.Insertion.{Room};
ghost use Rattle.timeline.specs.Removal.{RowsSized};
ghost use Rattle.rules.specs.Tables.{held_by};
ghost use Rattle.book.specs.Places.{place_path};
ghost use Rattle.changes.specs.Holding.{release_of, times_of, events_left, rows_left, Holds, GivesBack};

use crate::right::RightBooking;
use book::booking_at;
use free_table::{Interval, give_span, take_span};
use timeline::{insert_span, remove_event};
use units::{Head, Minute, release};

// The minutes in which a booking holds its links.
fn interval(head: Head, b: RightBooking) -> Interval
    requires { head.guard.0 ≤ most_guard }
    ensures start { result.start ≡ b.booking.start }
    ensures end { result.end.0 ≡ release_of head b.booking }
{
    let start = b.booking.start;
    let end = Minute(release(head, start, b.booking.duration) as u32);
    Interval { start, end }
}

// Puts the events of a booking in and takes its bandwidth.
pub(crate) fn hold(head: Head, events: &mut [u32], free: &mut [u32], b: RightBooking)
    requires room { Room events.old free.old 2 }
    requires short_guard { head.guard.0 ≤ most_guard }
    ensures { Holds b.booking.start.0 (release_of head b.booking) b.booking.bandwidth.0 (place_path b.booking) events.old free.old events.new free.new }
{
    let minutes = interval(head, b);
    let b = b.booking;
    insert_span(events, free, minutes.start, minutes.end);
    take_span(
        events,
        free,
        minutes,
        &b.links[..b.count as usize],
        b.bandwidth,
    );
}

// Whether a booking of the book starts or releases its links at a minute.
fn is_time(head: Head, book: &[u32], minute: Minute) -> bool
    requires { head.bookings * place_size ≤ length book.now }
    ensures { result ≡ member minute.0 (times_of (held_by head book.now)) }
{
    let mut found = false;
    for place in (0..head.bookings as usize).rev() {
        let b = booking_at(book, place);
        let end = release(head, b.start, b.duration);
        found |= (minute.0 == b.start.0) | (minute.0 as u64 == end);
    }
    found
}

// Takes the event that holds in a minute out with its row, where no booking of the book starts or releases its links then.
fn drop_event(head: Head, events: &mut [u32], rows: &mut [u32], book: &[u32], minute: Minute)
    requires sized { RowsSized events.old rows.old }
    requires places { head.bookings * place_size ≤ length book.now }
    ensures { let needed = member minute.0 (times_of (held_by head book.now)) in
        (events.new ≡ events_left needed minute.0 events.old)
        × (rows.new ≡ rows_left needed events.old minute.0 rows.old) }
{
    if is_time(head, book, minute) {
        return;
    }
    remove_event(events, rows, minute);
}

// Gives back what a booking held that was taken out of the book.
pub(crate) fn give_back(
    head: Head,
    events: &mut [u32],
    free: &mut [u32],
    book: &[u32],
    b: RightBooking,
)
    requires sized { RowsSized events.old free.old }
    requires places { head.bookings * place_size ≤ length book.now }
    requires short_guard { head.guard.0 ≤ most_guard }
    ensures { GivesBack (held_by head book.now) b.booking.start.0 (release_of head b.booking) b.booking.bandwidth.0 (place_path b.booking) events.old free.old events.new free.new }
{
    let minutes = interval(head, b);
    let b = b.booking;
    give_span(
        events,
        free,
        minutes,
        &b.links[..b.count as usize],
        b.bandwidth,
    );
    drop_event(head, events, free, book, minutes.start);
    drop_event(head, events, free, book, minutes.end);
}
